//! Data sets sifted as they come (PS3.5 section 7).
ghost use Rattle.std.specs.Prelude.{◌≡◌, ◌<◌, ◌≤◌, ◌||◌, ◌++◌, List, ℕ, [], ◌∷◌, length, take, true, IfOk, OnOk, OnErr, IsErr};
ghost use Rattle.dq_vr.specs.declared.Tag.{Tag};
ghost use Rattle.dq_dataset.specs.declared.header.Syntax.{Syntax};
ghost use Rattle.dq_dataset.specs.declared.fault.ReadFault.TheVariants.{NoMemory};
ghost use Rattle.dq_dataset.specs.declared.sieve.SieveState.TheVariants.{Spent};
ghost use Rattle.dq_dataset.specs.declared.sieve.Sifted.{Sifted};
ghost use Rattle.dq_dataset.specs.declared.sieve.Sifted.TheVariants.{Fault};
ghost use Rattle.dq_dataset.specs.declared.sieve.Outer.{Outer};
ghost use Rattle.dq_dataset.specs.DataSetReader.{may_nest};
ghost use Rattle.dq_dataset.specs.Grammar.{IsPlaced, IsHeader};
ghost use Rattle.dq_dataset.specs.Sifting.{IsWalked};
ghost use Rattle.dq_dataset.specs.View.{as_elements, elements_of};
ghost use Rattle.dq_dataset.specs.Sieve.{is_over_limit, IsSifted};
ghost use Rattle.dq_dataset.specs.Sieving.{SieveGoesOn, SieveAfter, IsStage, PastBy, IntoBy, KeepsElements, tag_is_listed, is_header_over_limit, kept_unless_over, EndsBy};

mod walk;

use crate::data_set::{DataSet, Element};
use crate::data_set_reader::{DEPTH, read};
use crate::fault::ReadFault;
use crate::header::{Bound, Content, Header, Syntax};
use crate::measuring::elements_length;
use dq_vr::Tag;
use std::alloc::{AllocError, Global};
use std::marker::Model;
use std::mem;
use walk::{HeaderFound, Walk, WalkStep, element_met};

/// The most octets that the elements kept by a sieve may have in the canonical Explicit spelling.
pub const KEPT_LIMIT: u32 = 67_108_864;

/// The elements that a list of tags leaves of a data set.
#[derive(Drop)]
pub enum Sifted {
    /// The elements whose tags are listed, and whether there was another. A group length counts as
    /// none (PS3.5 section 7.2).
    Kept(DataSet, bool),
    /// Those elements are over `KEPT_LIMIT` octets.
    Large,
    /// The first fault of octets that spell no data set.
    Fault(ReadFault),
}

/// The elements of the outer data set, as far as they came.
#[derive(Drop)]
pub(crate) struct Outer {
    /// The transfer syntax of the data set.
    pub syntax: Syntax,
    /// The tag of the last element.
    pub last: Option<Tag>,
    /// True where the elements with listed tags passed the limit.
    pub large: bool,
    /// The elements with listed tags, until they pass the limit.
    pub kept: Vec<Element>,
    /// True where an element with another tag came.
    pub other: bool,
}

/// Where in the data set the octets end that came.
#[derive(Drop)]
pub(crate) enum Stage {
    /// Between two elements, or in a header, of which these octets came.
    Between(Vec<u8>),
    /// In a value that is not kept.
    Past(Walk),
    /// In a value that is kept, of which these octets came, and those of the header.
    Into(Walk, Vec<u8>),
    /// Behind a fault, in a value of which so many octets are missing.
    Stopped(ReadFault, usize),
}

/// The state of a sieve between two pieces.
#[derive(Drop)]
pub(crate) enum SieveState {
    Sifting(Outer, Stage),
    /// Memory ran out.
    Spent,
}

/// Takes a data set in pieces, and keeps the elements whose tags are listed (PS3.5 section 7.1). Of
/// a value that is not kept nothing is collected, nor of one that passes the limit by its own
/// length. Once the limit is passed nothing is held.
#[derive(Drop)]
pub struct Sieve {
    alloc: Global,
    tags: &'static [Tag],
    state: SieveState,
}

impl Model for Sieve {
    ghost use Rattle.std.specs.Prelude.{List};
    ghost use Rattle.std.specs.Coded.{codes};
    ghost use Rattle.dq_vr.specs.declared.Tag.{Tag};
    ghost use Rattle.dq_dataset.specs.declared.sieve.SieveState.{SieveState};
    ghost use Rattle.dq_dataset.specs.contracts.data_set.DataSet as data_set;

    ghost Value = { List Tag × SieveState };

    ghost coded = { Prim.hlevel (codes, data_set.the_row.coded) };

    ghost use Rattle.dq_dataset.specs.Sieving.{IsSieve};

    ghost view = { λ a. (a.tags.now, a.state) };

    ghost invariant = { λ a. IsSieve a.tags.now a.state };
}

impl Sieve {
    /// A sieve that was fed nothing. It takes no memory.
    pub fn new(alloc: Global, syntax: Syntax, tags: &'static [Tag]) -> Sieve
        ensures { SieveAfter syntax tags.now [] result }
    {
        let outer = Outer {
            syntax,
            last: None,
            large: false,
            kept: Vec::new(alloc),
            other: false,
        };
        let stage = Stage::Between(Vec::new(alloc));
        Sieve {
            alloc,
            tags,
            state: SieveState::Sifting(outer, stage),
        }
    }

    /// Takes the next piece of the data set. Memory is taken for what is kept, for one element that
    /// is kept while it comes, for a header, and for the sequences and items that are open.
    ///
    /// # Errors
    ///
    /// Where memory ran out, the sieve is spent, and fails from then on.
    pub fn feed(&mut self, octets: &[u8]) -> Result<(), AllocError>
        ensures fed { (syntax : Syntax) (tags : List Tag) (fed : List ℕ)
            → SieveAfter syntax tags fed self.old
            → OnOk result (SieveAfter syntax tags (fed ++ octets.now) self.new) }
        ensures err { OnErr result (self.new.1 ≡ Spent) }
        ensures spent { self.old.1 ≡ Spent → IsErr result }
    {
        match mem::replace(&mut self.state, SieveState::Spent) {
            SieveState::Sifting(outer, stage) => {
                let (outer, stage) = sifted_on(self.alloc, self.tags, outer, stage, octets)?;
                self.state = SieveState::Sifting(outer, stage);
                Ok(())
            }
            SieveState::Spent => Err(AllocError),
        }
    }

    /// Returns the elements that the tags leave of the data set spelled by all octets that the
    /// sieve was fed, however they were cut, or the first fault of these octets. It takes no
    /// memory. If memory ran out before, it is the fault `NoMemory`.
    pub fn finish(self) -> Sifted
        ensures sifted { (syntax : Syntax) (tags : List Tag) (fed : List ℕ)
            → SieveAfter syntax tags fed self → IsSifted syntax tags fed result }
        ensures spent { self.1 ≡ Spent → result ≡ Fault NoMemory }
    {
        let Sieve { state, .. } = self;
        match state {
            SieveState::Sifting(outer, stage) => match fault_at_end(&stage) {
                Some(fault) => Sifted::Fault(fault),
                None if outer.large => Sifted::Large,
                None => Sifted::Kept(DataSet::from_elements(outer.kept), outer.other),
            },
            SieveState::Spent => Sifted::Fault(ReadFault::NoMemory),
        }
    }
}

/// The fault of octets that end at the stage. None between two elements.
fn fault_at_end(stage: &Stage) -> Option<ReadFault>
    ensures { EndsBy stage.now result }
{
    match stage {
        Stage::Between(front) => {
            if front.is_empty() {
                None
            } else {
                Some(ReadFault::Truncated)
            }
        }
        Stage::Past(_) | Stage::Into(..) => Some(ReadFault::Truncated),
        Stage::Stopped(fault, missing) => Some(if *missing == 0 {
            *fault
        } else {
            ReadFault::Truncated
        }),
    }
}

/// Takes all octets.
fn sifted_on(
    alloc: Global,
    tags: &[Tag],
    outer: Outer,
    stage: Stage,
    octets: &[u8],
) -> Result<(Outer, Stage), AllocError>
    requires { IsStage outer stage }
    ensures { IfOk result (λ x. SieveGoesOn tags.now outer stage octets.now x.0 x.1) }
{
    let mut outer = outer;
    let mut stage = stage;
    let mut rest = octets;
    while !rest.is_empty() {
        let (next, taken) = step(alloc, tags, outer, stage, rest)?;
        outer = next.0;
        stage = next.1;
        rest = rest.split_at(taken).1;
    }
    Ok((outer, stage))
}

/// Takes octets of a header, or of a value, and says how many.
fn step(
    alloc: Global,
    tags: &[Tag],
    outer: Outer,
    stage: Stage,
    octets: &[u8],
) -> Result<((Outer, Stage), usize), AllocError>
    requires some { 0 < length octets.now }
    requires stage { IsStage outer stage }
    ensures goes { IfOk result
        (λ x. SieveGoesOn tags.now outer stage (take x.1 octets.now) x.0.0 x.0.1) }
    ensures taken { IfOk result (λ x. (0 < x.1) × (x.1 ≤ length octets.now)) }
{
    match stage {
        Stage::Between(front) => Ok((came(alloc, tags, outer, front, octets[0])?, 1)),
        Stage::Past(walk) => {
            let (walked, taken) = walk.step(octets)?;
            let stage = past(alloc, walked);
            Ok(((outer, stage), taken))
        }
        Stage::Into(walk, mut came) => {
            let (walked, taken) = walk.step(octets)?;
            came.extend_from_slice(octets.split_at(taken).0)?;
            Ok((into(alloc, outer, walked, came)?, taken))
        }
        Stage::Stopped(fault, missing) => {
            let missing = missing.saturating_sub(octets.len());
            Ok(((outer, Stage::Stopped(fault, missing)), octets.len()))
        }
    }
}

fn is_listed(tags: &[Tag], tag: Tag) -> bool
    ensures { result ≡ tag_is_listed tags.now tag }
{
    tags.iter().any(|listed| tag == *listed)
}

/// Goes on past a value that is not kept.
fn past(alloc: Global, walked: WalkStep) -> Stage
    requires { IsWalked walked }
    ensures sound { (outer : Outer) → IsStage outer result }
    ensures sifts { PastBy walked result }
{
    match walked {
        WalkStep::On(walk) => Stage::Past(walk),
        WalkStep::Over => Stage::Between(Vec::new(alloc)),
        WalkStep::Failed(fault, missing) => Stage::Stopped(fault, missing),
    }
}

/// Goes on in a value that is kept, and keeps the element where all of it came.
fn into(
    alloc: Global,
    outer: Outer,
    walked: WalkStep,
    came: Vec<u8>,
) -> Result<(Outer, Stage), AllocError>
    requires { IsWalked walked }
    ensures { IfOk result (λ x. IntoBy outer walked came.items x.0 x.1) }
{
    match walked {
        WalkStep::On(walk) => Ok((outer, Stage::Into(walk, came))),
        WalkStep::Over => {
            let Ok(one) = read(alloc, &came, outer.syntax) else {
                return Err(AllocError);
            };
            let outer = keep(alloc, outer, one)?;
            Ok((outer, Stage::Between(Vec::new(alloc))))
        }
        WalkStep::Failed(fault, missing) => Ok((outer, Stage::Stopped(fault, missing))),
    }
}

/// Keeps what was read of an element, up to the limit.
fn keep(alloc: Global, outer: Outer, one: DataSet) -> Result<Outer, AllocError>
    ensures { IfOk result (λ next. KeepsElements outer (elements_of one) next) }
{
    let mut kept = outer.kept;
    kept.append(&mut one.into_elements())?;
    let large = outer.large | are_over_limit(&kept);
    let kept = kept_unless_over(alloc, large, kept);
    Ok(Outer {
        large,
        kept,
        ..outer
    })
}

/// The elements, or none where they are over the limit.
fn kept_unless_over(alloc: Global, over: bool, elements: Vec<Element>) -> Vec<Element>
    ensures { result.items ≡ kept_unless_over over elements.items }
{
    if over { Vec::new(alloc) } else { elements }
}

/// Whether the elements are over the limit.
fn are_over_limit(elements: &[Element]) -> bool
    ensures { result ≡ is_over_limit (as_elements elements.now) }
{
    elements_length(elements, Syntax::Explicit) > KEPT_LIMIT
}

/// Whether nothing is to be held of an element that is listed: the limit was passed, or the header
/// says that its element passes it. That of a group length says nothing, which is never kept.
fn is_discarded(large: bool, tag: Tag, content: Content) -> bool
    ensures { result ≡ (large || is_header_over_limit tag content) }
{
    match content {
        Content::Plain(length) => large || (tag.element != 0 && length > KEPT_LIMIT),
        Content::Sequence(..) => large,
    }
}

/// Adds an octet to the header of an element.
fn came(
    alloc: Global,
    tags: &[Tag],
    outer: Outer,
    mut front: Vec<u8>,
    octet: u8,
) -> Result<(Outer, Stage), AllocError>
    requires { IsStage outer (Stage.Between front) }
    ensures { IfOk result
        (λ x. SieveGoesOn tags.now outer (Stage.Between front) (octet ∷ []) x.0 x.1) }
{
    front.push(octet)?;
    match element_met(outer.syntax, DEPTH, outer.last, Bound::Filled, &front) {
        HeaderFound::Part | HeaderFound::End => Ok((outer, Stage::Between(front))),
        HeaderFound::Bad(fault) => Ok((outer, Stage::Stopped(fault, 0))),
        HeaderFound::Whole(header) => begun(alloc, tags, outer, header, front),
    }
}

/// Begins a value behind its header.
fn begun(
    alloc: Global,
    tags: &[Tag],
    outer: Outer,
    header: Header,
    front: Vec<u8>,
) -> Result<(Outer, Stage), AllocError>
    requires placed { IsPlaced outer.last header.tag }
    requires header { IsHeader outer.syntax header.tag header.content front.items }
    requires nests { may_nest 16 header.content ≡ true }
    ensures { IfOk result (λ x. SieveGoesOn tags.now outer (Stage.Between front) [] x.0 x.1) }
{
    let Header { tag, content, .. } = header;
    let walked = Walk::of_value(alloc, content);
    let mut outer = outer;
    outer.last = Some(tag);
    if !is_listed(tags, tag) {
        outer.other |= tag.element != 0;
        return Ok((outer, past(alloc, walked)));
    }
    if is_discarded(outer.large, tag, content) {
        outer.large = true;
        outer.kept = Vec::new(alloc);
        return Ok((outer, past(alloc, walked)));
    }
    into(alloc, outer, walked, front)
}
