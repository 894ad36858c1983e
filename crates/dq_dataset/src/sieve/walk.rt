//! Walking through a value as its octets come, with no memory but for where it is open
//! (PS3.5 section 7.5).

ghost use Rattle.std.specs.Prelude.{◌≡◌, ◌-◌, ◌<◌, ◌≤◌, ℕ, List, [], ◌∷◌, length, take, reverse, true, Option, IfOk, IfSome, IfNone};
ghost use Rattle.dq_list.specs.Octets.{AreOctets};
ghost use Rattle.dq_dataset.specs.declared.fault.ReadFault.{ReadFault};
ghost use Rattle.dq_dataset.specs.DataSetReader.{may_nest, length_of};
ghost use Rattle.dq_dataset.specs.Sifting.{is_reached, bound_by, until_of, reach_of, place_of_value, opened_reach, opened_left, StaysWithin, HasNoRoom, ItemMet, ElementMet, IsWalked, WalkedLeads, WalkLeads, LeadsTo, LeadsOn, IsSettling, IsWalk, IsPart, HasCome, HasEnd, AreNested};

use crate::data_set_reader::DEPTH;
use crate::fault::ReadFault;
use crate::header::{
    Bound, Content, Header, ITEM_END, SEQUENCE_END, Syntax, end_at, front_at, item_front_at,
    length_of,
};
use dq_vr::Tag;
use std::alloc::{AllocError, Global};

/// How far what is open reaches. A number says how many octets of the outermost defined length are
/// left where it ends.
#[derive(Clone, Copy)]
pub enum Reach {
    /// It fills a length of its own.
    Measured(usize),
    /// It has an end of its own, which stands within a defined length.
    Within(usize),
    /// It has an end of its own, and no defined length is around it.
    Endless,
}

/// Where a value is open, and what is due there.
#[derive(Clone, Copy)]
pub enum Cursor {
    /// Octets, up to where so many of the outermost defined length are left.
    InOctets(usize),
    /// Items in the syntax, with so many more levels of sequences allowed.
    InItems(Syntax, u8, Reach),
    /// Elements in the syntax, with so many more levels of sequences allowed, after the last tag.
    InElements(Syntax, u8, Option<Tag>, Reach),
}

/// A value of which not all octets have come.
#[derive(Drop)]
pub struct Walk {
    /// The number of octets that are left of the outermost defined length, with those of a header
    /// that came.
    pub left: usize,
    /// The innermost place that is open.
    pub place: Cursor,
    /// The places around it, the innermost last.
    pub around: Vec<Cursor>,
    /// The octets of a header that came.
    pub front: Vec<u8>,
}

/// A value after more of its octets.
#[derive(Drop)]
pub enum WalkStep {
    /// It is open.
    On(Walk),
    /// All of it came.
    Over,
    /// It has a fault, and so many octets are missing of the outermost defined length.
    Failed(ReadFault, usize),
}

/// The meaning of the octets that came of a header.
pub enum HeaderFound<H> {
    /// Not yet a header.
    Part,
    /// The end of what is open.
    End,
    /// A header, all of it.
    Whole(H),
    /// Neither, whatever follows.
    Bad(ReadFault),
}

impl Reach {
    fn bound(self) -> Bound
        ensures { result ≡ bound_by self }
    {
        match self {
            Reach::Measured(_) => Bound::Filled,
            Reach::Within(_) | Reach::Endless => Bound::Delimited,
        }
    }

    fn until(self) -> usize
        ensures { result ≡ until_of self }
    {
        match self {
            Reach::Measured(until) | Reach::Within(until) => until,
            Reach::Endless => 0,
        }
    }

    /// Whether nothing more is within reach where so many octets are left.
    fn is_full(self, left: usize) -> bool
        ensures { result ≡ is_reached self left }
    {
        match self {
            Reach::Measured(until) | Reach::Within(until) => until == left,
            Reach::Endless => false,
        }
    }

    /// How far a value of this length reaches where so many octets are left before it, and how many
    /// are left then. None where it is too long.
    fn opened(self, extent: Option<u32>, left: usize) -> Option<(Reach, usize)>
        ensures some { IfSome result (λ x. (x.0 ≡ opened_reach self extent left)
            × (x.1 ≡ opened_left self extent left) × StaysWithin self extent left) }
        ensures none { IfNone result (HasNoRoom self extent left) }
    {
        let until = match self {
            Reach::Measured(until) | Reach::Within(until) => until,
            Reach::Endless => {
                return Some(match extent {
                    Some(length) => (Reach::Measured(0), length as usize),
                    None => (Reach::Endless, left),
                });
            }
        };
        match extent {
            None => Some((Reach::Within(until), left)),
            Some(length) => {
                let length = length as usize;
                if length <= left && until <= left - length {
                    Some((Reach::Measured(left - length), left))
                } else {
                    None
                }
            }
        }
    }
}

impl Cursor {
    fn reach(self) -> Reach
        ensures { result ≡ reach_of self }
    {
        match self {
            Cursor::InOctets(until) => Reach::Measured(until),
            Cursor::InItems(_, _, reach) | Cursor::InElements(_, _, _, reach) => reach,
        }
    }

    /// The place of a value, by what its header says.
    fn of_value(content: Content, levels: u8, reach: Reach) -> Cursor
        requires { may_nest levels content ≡ true }
        ensures { result ≡ place_of_value content levels reach }
    {
        match content {
            Content::Plain(_) => Cursor::InOctets(reach.until()),
            Content::Sequence(syntax, _) => Cursor::InItems(syntax, levels - 1, reach),
        }
    }
}

/// Returns the meaning of the octets that came where an item is due.
fn item_met(bound: Bound, front: &[u8]) -> HeaderFound<Option<u32>>
    ensures met { ItemMet bound front.now result }
    ensures octets { AreOctets front.now }
{
    if let Ok(Some(_)) = end_at(bound, SEQUENCE_END, front) {
        return HeaderFound::End;
    }
    match item_front_at(front) {
        Ok((extent, _)) => HeaderFound::Whole(extent),
        Err(fault) => match fault {
            ReadFault::Truncated => HeaderFound::Part,
            _ => HeaderFound::Bad(fault),
        },
    }
}

/// Returns the meaning of the octets that came where an element is due.
pub fn element_met(
    syntax: Syntax,
    levels: u8,
    last: Option<Tag>,
    bound: Bound,
    front: &[u8],
) -> HeaderFound<Header>
    ensures met { ElementMet syntax levels last bound front.now result }
    ensures octets { AreOctets front.now }
{
    if let Ok(Some(_)) = end_at(bound, ITEM_END, front) {
        return HeaderFound::End;
    }
    match front_at(syntax, levels, last, front) {
        Ok((header, _)) => HeaderFound::Whole(header),
        Err(fault) => match fault {
            ReadFault::Truncated => HeaderFound::Part,
            _ => HeaderFound::Bad(fault),
        },
    }
}

impl Walk {
    /// A value behind the header of an element of the outer data set.
    pub fn of_value(alloc: Global, content: Content) -> WalkStep
        requires { may_nest 16 content ≡ true }
        ensures sound { IsWalked result }
        ensures leads { (octets : List ℕ) (end : Option ReadFault) → WalkedLeads result octets end
            → LeadsTo (opened_left Reach.Endless (length_of content) 0)
            (place_of_value content 16 (opened_reach Reach.Endless (length_of content) 0) ∷ []) octets
            end }
    {
        let (reach, left) = match length_of(content) {
            Some(length) => (Reach::Measured(0), length as usize),
            None => (Reach::Endless, 0),
        };
        let walk = Walk {
            left,
            place: Cursor::of_value(content, DEPTH, reach),
            around: Vec::new(alloc),
            front: Vec::new(alloc),
        };
        walk.settled()
    }

    /// Closes what is full. An end of its own is missing where nothing is left for it.
    fn settled(mut self) -> WalkStep
        requires { IsSettling self }
        ensures { LeadsOn self [] result }
    {
        loop {
            let reach = self.place.reach();
            if !reach.is_full(self.left) {
                return WalkStep::On(self);
            }
            match reach.bound() {
                Bound::Delimited => return WalkStep::Failed(ReadFault::Truncated, 0),
                Bound::Filled => match self.around.pop() {
                    Some(place) => self.place = place,
                    None => return WalkStep::Over,
                },
            }
        }
    }

    /// Passes over octets of a value.
    fn passed(mut self, until: usize, octets: &[u8]) -> (WalkStep, usize)
        requires some { 0 < length octets.now }
        requires walk { IsWalk self }
        requires place { self.place ≡ Cursor.InOctets until }
        ensures leads { LeadsOn self (take result.1 octets.now) result.0 }
        ensures taken { (0 < result.1) × (result.1 ≤ length octets.now) }
    {
        let count = self.left.saturating_sub(until).min(octets.len());
        self.left = self.left.saturating_sub(count);
        (self.settled(), count)
    }

    /// How many octets of the outermost defined length are left behind those that came of a header.
    fn left_behind(&self) -> usize
        ensures { result ≡ self.now.left - length self.now.front.items }
    {
        self.left.saturating_sub(self.front.len())
    }

    /// Waits for more of a header, which is missing where nothing is left for it.
    fn waiting(self) -> WalkStep
        requires come { HasCome self }
        requires part { IsPart self.place self.front.items }
        ensures { LeadsOn self [] result }
    {
        let left = self.left_behind();
        if self.place.reach().is_full(left) {
            return WalkStep::Failed(ReadFault::Truncated, 0);
        }
        WalkStep::On(self)
    }

    /// Closes the innermost place behind its end.
    fn ended(mut self) -> WalkStep
        requires come { HasCome self }
        requires ends { HasEnd self.place self.front.items }
        ensures { LeadsOn self [] result }
    {
        self.left = self.left_behind();
        self.front.clear();
        match self.around.pop() {
            Some(place) => {
                self.place = place;
                self.settled()
            }
            None => WalkStep::Over,
        }
    }

    /// Goes on in a value behind its header, with so many octets left.
    fn entered(mut self, behind: Cursor, inner: Cursor, left: usize) -> Result<WalkStep, AllocError>
        requires nested { AreNested left (inner ∷ behind ∷ reverse self.around.items) }
        requires leads { (octets : List ℕ) (end : Option ReadFault)
            → LeadsTo left (inner ∷ behind ∷ reverse self.around.items) octets end
            → WalkLeads self octets end }
        ensures { IfOk result (λ walked. LeadsOn self [] walked) }
    {
        self.around.push(behind)?;
        self.place = inner;
        self.left = left;
        self.front.clear();
        Ok(self.settled())
    }

    /// Returns the step of the walk after one more octet of the header of an item.
    fn item_came(self, syntax: Syntax, levels: u8, reach: Reach) -> Result<WalkStep, AllocError>
        requires come { HasCome self }
        requires place { self.place ≡ Cursor.InItems syntax levels reach }
        ensures { IfOk result (λ walked. LeadsOn self [] walked) }
    {
        let left = self.left_behind();
        match item_met(reach.bound(), &self.front) {
            HeaderFound::Part => Ok(self.waiting()),
            HeaderFound::End => Ok(self.ended()),
            HeaderFound::Bad(fault) => Ok(WalkStep::Failed(fault, left)),
            HeaderFound::Whole(extent) => match reach.opened(extent, left) {
                Some((inner, left)) => {
                    let behind = Cursor::InItems(syntax, levels, reach);
                    self.entered(
                        behind,
                        Cursor::InElements(syntax, levels, None, inner),
                        left,
                    )
                }
                None => Ok(WalkStep::Failed(ReadFault::Truncated, 0)),
            },
        }
    }

    /// Returns the step of the walk after one more octet of the header of an element.
    fn element_came(
        self,
        syntax: Syntax,
        levels: u8,
        last: Option<Tag>,
        reach: Reach,
    ) -> Result<WalkStep, AllocError>
        requires come { HasCome self }
        requires place { self.place ≡ Cursor.InElements syntax levels last reach }
        ensures { IfOk result (λ walked. LeadsOn self [] walked) }
    {
        let left = self.left_behind();
        match element_met(syntax, levels, last, reach.bound(), &self.front) {
            HeaderFound::Part => Ok(self.waiting()),
            HeaderFound::End => Ok(self.ended()),
            HeaderFound::Bad(fault) => Ok(WalkStep::Failed(fault, left)),
            HeaderFound::Whole(Header { tag, content, .. }) => {
                match reach.opened(length_of(content), left) {
                    Some((inner, left)) => {
                        let behind = Cursor::InElements(syntax, levels, Some(tag), reach);
                        self.entered(behind, Cursor::of_value(content, levels, inner), left)
                    }
                    None => Ok(WalkStep::Failed(ReadFault::Truncated, 0)),
                }
            }
        }
    }

    /// Takes octets of the value, and says how many.
    pub fn step(mut self, octets: &[u8]) -> Result<(WalkStep, usize), AllocError>
        requires some { 0 < length octets.now }
        requires walk { IsWalk self }
        ensures leads { IfOk result (λ x. LeadsOn self (take x.1 octets.now) x.0) }
        ensures taken { IfOk result (λ x. (0 < x.1) × (x.1 ≤ length octets.now)) }
    {
        match self.place {
            Cursor::InOctets(until) => Ok(self.passed(until, octets)),
            Cursor::InItems(syntax, levels, reach) => {
                self.front.push(octets[0])?;
                Ok((self.item_came(syntax, levels, reach)?, 1))
            }
            Cursor::InElements(syntax, levels, last, reach) => {
                self.front.push(octets[0])?;
                Ok((self.element_came(syntax, levels, last, reach)?, 1))
            }
        }
    }
}
