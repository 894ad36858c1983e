//! Reading data sets (PS3.5 section 7).
ghost use Rattle.std.specs.Prelude.{◌≡◌, ℕ, ◌+◌, ◌<◌, ◌≤◌, ◌++◌, ◌∷◌, [], true, None, length, IfOk, IfErr, OnOk, OnSome, ◌⊎◌};
ghost use Rattle.dq_dataset.specs.DataSetReader.{GivesOrReadFault, readers, data_set_read, may_nest, length_of, fits_enclosing, value_by, element_by, content_by, item_by};
ghost use Rattle.dq_dataset.specs.Rules.{padded_value};
ghost use Rattle.dq_dataset.specs.Tree.{ElementList};
ghost use Rattle.dq_dataset.specs.Grammar.{IsSpelled};
ghost use Rattle.dq_dataset.specs.Faults.{IsFaulty};
ghost use Rattle.dq_dataset.specs.declared.fault.ReadFault.TheVariants.{NoMemory};

use crate::data_set::{DataSet, Element, Value};
use crate::fault::ReadFault;
use crate::header::{
    Bound, Content, Header, ITEM_END, Level, SEQUENCE_END, Syntax, end_at, header_at,
    item_header_at,
};
use dq_list::Listed;
use dq_vr::{Tag, Vr};
use std::alloc::{AllocError, Global};

/// The octets with a pad where they are odd.
fn padded(alloc: Global, vr: Vr, octets: &[u8]) -> Result<Vec<u8>, AllocError>
    ensures { IfOk result (λ v. v.items ≡ padded_value vr octets.now) }
{
    let mut value = Vec::with_capacity(alloc, octets.len() + octets.len() % 2)?;
    value.extend_from_slice(octets)?;
    if octets.len() % 2 != 0 {
        value.push(if vr.is_text() { b' ' } else { 0 })?;
    }
    Ok(value)
}

#[cycle(reading)]
#[tactic(auto, unfolding(crate::specs::DataSetReader::value_by))]
fn value_of<'a>(
    alloc: Global,
    levels: u8,
    header: Header,
    octets: &'a [u8],
) -> Result<(Value, &'a [u8]), ReadFault>
    requires shallow { levels ≤ 16 }
    requires nests { may_nest levels header.content ≡ true }
    requires whole { fits_enclosing (length_of header.content) octets.now ≡ true }
    ensures value { (n : ℕ) → length octets.now < n
        → GivesOrReadFault (λ x. (x.0, x.1.now)) result
        (value_by (readers n) levels header.vr header.content octets.now) }
    ensures shorter { IfOk result (λ x. length x.1.now ≤ length octets.now) }
{
    match header.content {
        Content::Plain(length) => {
            let (front, rest) = octets.split_at(length as usize);
            let value = padded(alloc, header.vr, front)?;
            Ok((Value::Octets(Listed::from_inner(value)), rest))
        }
        Content::Sequence(syntax, Some(length)) => {
            let (front, rest) = octets.split_at(length as usize);
            let level = Level {
                bound: Bound::Filled,
                syntax,
                levels: levels - 1,
            };
            let (items, _) = items_of(alloc, level, front)?;
            Ok((Value::Items(Listed::from_inner(items)), rest))
        }
        Content::Sequence(syntax, None) => {
            let level = Level {
                bound: Bound::Delimited,
                syntax,
                levels: levels - 1,
            };
            let (items, rest) = items_of(alloc, level, octets)?;
            Ok((Value::Items(Listed::from_inner(items)), rest))
        }
    }
}

/// Pushes one more. Where it is the first, it takes room for it alone: most sequences have one item,
/// and many items have one element.
fn push_alone<T: Drop>(list: &mut Vec<T>, next: T) -> Result<(), AllocError>
    ensures { OnOk result (list.new.items ≡ list.old.items ++ (next ∷ [])) }
{
    if list.is_empty() {
        list.reserve_exact(1)?;
    }
    Ok(list.push(next)?)
}

#[cycle(reading)]
#[tactic(auto, unfolding(crate::specs::DataSetReader::element_by))]
fn element_of<'a>(
    alloc: Global,
    level: Level,
    last: Option<Tag>,
    octets: &'a [u8],
) -> Result<(Option<(Header, Value)>, &'a [u8]), ReadFault>
    requires { level.levels ≤ 16 }
    ensures value { (n : ℕ) → length octets.now ≤ n
        → GivesOrReadFault (λ x. (x.0, x.1.now)) result
        (element_by (readers n) level.bound level.syntax level.levels last octets.now) }
    ensures shorter { IfOk result (λ x. length x.1.now ≤ length octets.now) }
    ensures goes_on { IfOk result (λ x. OnSome x.0 (length x.1.now < length octets.now)) }
{
    if let Some(rest) = end_at(level.bound, ITEM_END, octets)? {
        return Ok((None, rest));
    }
    let (header, rest) = header_at(level.syntax, level.levels, last, octets)?;
    let (value, rest) = value_of(alloc, level.levels, header, rest)?;
    Ok((Some((header, value)), rest))
}

#[cycle(reading)]
fn elements_of<'a>(
    alloc: Global,
    level: Level,
    octets: &'a [u8],
) -> Result<(Vec<Element>, &'a [u8]), ReadFault>
    requires { level.levels ≤ 16 }
    ensures value { (n : ℕ) → length octets.now < n
        → GivesOrReadFault (λ x. (x.0.items, x.1.now)) result
        ((readers n).elements level.bound level.syntax level.levels None octets.now) }
    ensures shorter { IfOk result (λ x. length x.1.now ≤ length octets.now) }
{
    let mut elements = Vec::new(alloc);
    let mut last = None;
    let mut rest = octets;
    loop {
        let (found, after) = element_of(alloc, level, last, rest)?;
        let Some((header, value)) = found else {
            elements.shrink_to_fit();
            return Ok((elements, after));
        };
        let Header { tag, vr, .. } = header;
        if tag.element != 0 {
            push_alone(&mut elements, Element { tag, vr, value })?;
        }
        last = Some(tag);
        rest = after;
    }
}

/// The elements of an item on the level, up to where the item's own length says.
#[cycle(reading)]
#[tactic(auto, unfolding(crate::specs::DataSetReader::content_by))]
fn content_of<'a>(
    alloc: Global,
    level: Level,
    extent: Option<u32>,
    octets: &'a [u8],
) -> Result<(Vec<Element>, &'a [u8]), ReadFault>
    requires shallow { level.levels ≤ 16 }
    requires whole { fits_enclosing extent octets.now ≡ true }
    ensures value { (n : ℕ) → length octets.now < n
        → GivesOrReadFault (λ x. (x.0.items, x.1.now)) result
        (content_by (readers n) level.syntax level.levels extent octets.now) }
    ensures shorter { IfOk result (λ x. length x.1.now ≤ length octets.now) }
{
    match extent {
        Some(length) => {
            let (front, rest) = octets.split_at(length as usize);
            let bound = Bound::Filled;
            let (elements, _) = elements_of(alloc, Level { bound, ..level }, front)?;
            Ok((elements, rest))
        }
        None => {
            let bound = Bound::Delimited;
            elements_of(alloc, Level { bound, ..level }, octets)
        }
    }
}

#[cycle(reading)]
#[tactic(auto, unfolding(crate::specs::DataSetReader::item_by))]
fn item_of<'a>(
    alloc: Global,
    level: Level,
    octets: &'a [u8],
) -> Result<(Option<DataSet>, &'a [u8]), ReadFault>
    requires { level.levels ≤ 16 }
    ensures value { (n : ℕ) → length octets.now ≤ n
        → GivesOrReadFault (λ x. (x.0, x.1.now)) result
        (item_by (readers n) level.bound level.syntax level.levels octets.now) }
    ensures shorter { IfOk result (λ x. length x.1.now ≤ length octets.now) }
    ensures goes_on { IfOk result (λ x. OnSome x.0 (length x.1.now < length octets.now)) }
{
    if let Some(rest) = end_at(level.bound, SEQUENCE_END, octets)? {
        return Ok((None, rest));
    }
    let (length, rest) = item_header_at(octets)?;
    let (elements, rest) = content_of(alloc, level, length, rest)?;
    Ok((Some(DataSet::from_elements(elements)), rest))
}

#[cycle(reading)]
fn items_of<'a>(
    alloc: Global,
    level: Level,
    octets: &'a [u8],
) -> Result<(Vec<DataSet>, &'a [u8]), ReadFault>
    requires { level.levels ≤ 16 }
    ensures value { (n : ℕ) → length octets.now < n
        → GivesOrReadFault (λ x. (x.0.items, x.1.now)) result
        ((readers n).items level.bound level.syntax level.levels octets.now) }
    ensures shorter { IfOk result (λ x. length x.1.now ≤ length octets.now) }
{
    let mut items = Vec::new(alloc);
    let mut rest = octets;
    loop {
        let (found, after) = item_of(alloc, level, rest)?;
        let Some(item) = found else {
            items.shrink_to_fit();
            return Ok((items, after));
        };
        push_alone(&mut items, item)?;
        rest = after;
    }
}

/// The greatest depth of sequences, where one of the outer data set has depth 1.
pub const DEPTH: u8 = 16;

#[tactic(auto, unfolding(crate::specs::DataSetReader::data_set_read))]
fn all_of(alloc: Global, octets: &[u8], syntax: Syntax) -> Result<DataSet, ReadFault>
    ensures { GivesOrReadFault (λ d. d) result (data_set_read syntax octets.now) }
{
    let level = Level {
        bound: Bound::Filled,
        syntax,
        levels: DEPTH,
    };
    let (elements, _) = elements_of(alloc, level, octets)?;
    Ok(DataSet::from_elements(elements))
}

/// The data set that the octets spell, all of them (PS3.5 section 7). Octets that spell none have a
/// first fault.
pub fn read(alloc: Global, octets: &[u8], syntax: Syntax) -> Result<DataSet, ReadFault>
    // A data set that is read is spelled so.
    ensures found { IfOk result (λ d. IsSpelled syntax octets.now d) }
    // A data set that is spelled so is read, unless memory runs out.
    ensures only { (d : ElementList) → IsSpelled syntax octets.now d
        → GivesOrReadFault (λ d. d) result (Ok d) }
    // An error is want of memory, or exactly the first fault.
    ensures fault { IfErr result (λ f. (f ≡ NoMemory) ⊎ IsFaulty syntax octets.now f) }
    // The same, computed.
    ensures exact { GivesOrReadFault (λ d. d) result (data_set_read syntax octets.now) }
{
    all_of(alloc, octets, syntax)
}
