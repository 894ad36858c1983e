//! Checking the octets of nested data sets, as reading does, with no memory.
ghost use Rattle.std.specs.Prelude.{◌≡◌, ℕ, ◌<◌, ◌≤◌, true, None, length, IfOk, OnSome};
ghost use Rattle.dq_vr.specs.declared.Vr.{Vr};
ghost use Rattle.dq_dataset.specs.DataSetReader.{Answers, readers, may_nest, length_of, fits_enclosing, value_by, element_by, content_by, item_by};
ghost use Rattle.dq_dataset.specs.Lending.{rest_of, front_header, item_of};

use crate::fault::ReadFault;
use crate::header::{
    Bound, Content, Header, ITEM_END, Level, SEQUENCE_END, end_at, header_at, item_header_at,
};
use dq_vr::Tag;

/// Returns the octets that follow the value.
#[cycle(checking)]
#[tactic(auto, unfolding(crate::specs::DataSetReader::value_by))]
pub fn value_end<'a>(levels: u8, content: Content, octets: &'a [u8]) -> Result<&'a [u8], ReadFault>
    requires nests { may_nest levels content ≡ true }
    requires whole { fits_enclosing (length_of content) octets.now ≡ true }
    ensures value { (vr : Vr) (n : ℕ) → length octets.now < n
        → Answers (λ x. x.now) result
        (rest_of (value_by (readers n) levels vr content octets.now)) }
    ensures shorter { IfOk result (λ x. length x.now ≤ length octets.now) }
{
    match content {
        Content::Plain(length) => Ok(octets.split_at(length as usize).1),
        Content::Sequence(syntax, Some(length)) => {
            let (front, rest) = octets.split_at(length as usize);
            let level = Level {
                bound: Bound::Filled,
                syntax,
                levels: levels - 1,
            };
            items_end(level, front)?;
            Ok(rest)
        }
        Content::Sequence(syntax, None) => {
            let level = Level {
                bound: Bound::Delimited,
                syntax,
                levels: levels - 1,
            };
            items_end(level, octets)
        }
    }
}

/// The header of the next element, and what is left after its value, or after the end.
#[cycle(checking)]
#[tactic(auto, unfolding(crate::specs::DataSetReader::element_by))]
fn element_end<'a>(
    level: Level,
    last: Option<Tag>,
    octets: &'a [u8],
) -> Result<(Option<Header>, &'a [u8]), ReadFault>
    ensures value { (n : ℕ) → length octets.now ≤ n
        → Answers (λ x. (x.0, x.1.now)) result
        (front_header (element_by (readers n) level.bound level.syntax level.levels last octets.now)) }
    ensures shorter { IfOk result (λ x. length x.1.now ≤ length octets.now) }
    ensures goes_on { IfOk result (λ x. OnSome x.0 (length x.1.now < length octets.now)) }
{
    if let Some(rest) = end_at(level.bound, ITEM_END, octets)? {
        return Ok((None, rest));
    }
    let (header, rest) = header_at(level.syntax, level.levels, last, octets)?;
    let rest = value_end(level.levels, header.content, rest)?;
    Ok((Some(header), rest))
}

#[cycle(checking)]
fn elements_end<'a>(level: Level, octets: &'a [u8]) -> Result<&'a [u8], ReadFault>
    ensures value { (n : ℕ) → length octets.now < n
        → Answers (λ x. x.now) result
        (rest_of ((readers n).elements level.bound level.syntax level.levels None octets.now)) }
    ensures shorter { IfOk result (λ x. length x.now ≤ length octets.now) }
{
    let mut last = None;
    let mut rest = octets;
    loop {
        let (found, after) = element_end(level, last, rest)?;
        let Some(header) = found else {
            return Ok(after);
        };
        last = Some(header.tag);
        rest = after;
    }
}

/// Returns the rest after an item on the level, which goes up to where the item's own length says.
#[cycle(checking)]
#[tactic(auto, unfolding(crate::specs::DataSetReader::content_by))]
fn content_end<'a>(
    level: Level,
    extent: Option<u32>,
    octets: &'a [u8],
) -> Result<&'a [u8], ReadFault>
    requires whole { fits_enclosing extent octets.now ≡ true }
    ensures value { (n : ℕ) → length octets.now < n
        → Answers (λ x. x.now) result
        (rest_of (content_by (readers n) level.syntax level.levels extent octets.now)) }
    ensures shorter { IfOk result (λ x. length x.now ≤ length octets.now) }
{
    match extent {
        Some(length) => {
            let (front, rest) = octets.split_at(length as usize);
            let bound = Bound::Filled;
            elements_end(Level { bound, ..level }, front)?;
            Ok(rest)
        }
        None => {
            let bound = Bound::Delimited;
            elements_end(Level { bound, ..level }, octets)
        }
    }
}

/// Whether an item stands here, and what is left after it, or after the end.
#[cycle(checking)]
#[tactic(auto, unfolding(crate::specs::DataSetReader::item_by))]
fn item_end<'a>(level: Level, octets: &'a [u8]) -> Result<(Option<()>, &'a [u8]), ReadFault>
    ensures value { (n : ℕ) → length octets.now ≤ n
        → Answers (λ x. (x.0, x.1.now)) result
        (item_of (item_by (readers n) level.bound level.syntax level.levels octets.now)) }
    ensures shorter { IfOk result (λ x. length x.1.now ≤ length octets.now) }
    ensures goes_on { IfOk result (λ x. OnSome x.0 (length x.1.now < length octets.now)) }
{
    if let Some(rest) = end_at(level.bound, SEQUENCE_END, octets)? {
        return Ok((None, rest));
    }
    let (length, rest) = item_header_at(octets)?;
    let rest = content_end(level, length, rest)?;
    Ok((Some(()), rest))
}

#[cycle(checking)]
fn items_end<'a>(level: Level, octets: &'a [u8]) -> Result<&'a [u8], ReadFault>
    ensures value { (n : ℕ) → length octets.now < n
        → Answers (λ x. x.now) result
        (rest_of ((readers n).items level.bound level.syntax level.levels octets.now)) }
    ensures shorter { IfOk result (λ x. length x.now ≤ length octets.now) }
{
    let mut rest = octets;
    loop {
        let (found, after) = item_end(level, rest)?;
        let Some(()) = found else {
            return Ok(after);
        };
        rest = after;
    }
}
