//! The headers of elements and items, and their ends (PS3.5 sections 7.1 and 7.5).
ghost use Rattle.std.specs.Prelude.{◌≡◌, true, ◌+◌, ◌≤◌, length, IfOk, IfSome};
ghost use Rattle.std.specs.Int.{w16, w32};
ghost use Rattle.std.specs.Option.{option_copied};
ghost use Rattle.dq_dataset.specs.Rules.{is_sequence, is_unknown, agrees, content_of, vr_of};
ghost use Rattle.dq_dataset.specs.DataSetReader.{Answers, tag_at, number_at, long_length_at, length_at, vr_at, spelling_at, front_at, header_at, item_front_at, item_header_at, end_at, follows, may_nest, length_of, fits_enclosing};

use crate::fault::ReadFault;
use dq_vr::{LengthForm, Tag, Vr, length_form, lookup};

/// The transfer syntax of a data set (PS3.5 annex A): Implicit or Explicit VR Little Endian.
#[derive(Clone, Copy, Debug, PartialEq, Eq)]
pub enum Syntax {
    Implicit,
    Explicit,
}

/// The end of a list of elements or items: that of its length, or a delimitation item.
#[derive(Clone, Copy, Debug, PartialEq, Eq)]
pub enum Bound {
    Filled,
    Delimited,
}

/// The surroundings of elements or items: their end, their syntax, and how many more levels of
/// sequences are allowed.
#[derive(Clone, Copy)]
pub struct Level {
    pub bound: Bound,
    pub syntax: Syntax,
    pub levels: u8,
}

/// The content after a header: so many octets, or items in a syntax, up to an end of their own if
/// there is no length.
#[derive(Clone, Copy, Debug, PartialEq, Eq)]
pub enum Content {
    Plain(u32),
    Sequence(Syntax, Option<u32>),
}

/// The header of an element. The VR is the one that the data set has.
#[derive(Clone, Copy, Debug, PartialEq, Eq)]
pub struct Header {
    pub tag: Tag,
    pub vr: Vr,
    pub content: Content,
}

/// The group of items and ends.
pub const DELIMITERS: u16 = 0xFFFE;

pub const ITEM: u16 = 0xE000;

pub const ITEM_END: u16 = 0xE00D;

pub const SEQUENCE_END: u16 = 0xE0DD;

/// The undefined length.
const UNDEFINED: u32 = 0xFFFF_FFFF;

fn is_sequence(vr: Option<Vr>) -> bool
    ensures { result ≡ is_sequence vr }
{
    matches!(vr, Some(Vr::SQ))
}

fn is_unknown(vr: Option<Vr>) -> bool
    ensures { result ≡ is_unknown vr }
{
    matches!(vr, Some(Vr::UN))
}

/// Whether the dictionary allows the spelled VR.
#[tactic(auto, unfolding(crate::specs::Rules::agrees))]
fn agrees(known: Option<Vr>, spelled: Vr) -> bool
    ensures { result ≡ agrees known spelled }
{
    let spelled = Some(spelled);
    if is_sequence(known) {
        is_sequence(spelled) || is_unknown(spelled)
    } else {
        known.is_none() || !is_sequence(spelled)
    }
}

#[tactic(auto, unfolding(crate::specs::Rules::content_of))]
fn content_of(
    known: Option<Vr>,
    spelled: Option<Vr>,
    length: Option<u32>,
) -> Result<Content, ReadFault>
    ensures { result ≡ content_of known spelled length }
{
    if is_sequence(spelled) {
        return Ok(Content::Sequence(Syntax::Explicit, length));
    }
    if is_sequence(known) {
        return Ok(Content::Sequence(Syntax::Implicit, length));
    }
    match length {
        Some(length) => Ok(Content::Plain(length)),
        None if known.is_none() && (spelled.is_none() || is_unknown(spelled)) => {
            Ok(Content::Sequence(Syntax::Implicit, None))
        }
        None => Err(ReadFault::BadUndefined),
    }
}

fn vr_of(known: Option<Vr>, content: Content) -> Vr
    ensures { result ≡ vr_of known content }
{
    match content {
        Content::Plain(_) => known.unwrap_or(Vr::UN),
        Content::Sequence(_, _) => Vr::SQ,
    }
}

fn u16_at(octets: &[u8]) -> Result<(u16, &[u8]), ReadFault>
    ensures value { Answers (λ x. (x.0, x.1.now)) result (number_at w16 octets.now) }
    ensures shorter { IfOk result (λ x. length x.1.now + 2 ≤ length octets.now) }
{
    if octets.len() < 2 {
        return Err(ReadFault::Truncated);
    }
    let (front, rest) = octets.split_at(2);
    Ok((u16::from_le_bytes([front[0], front[1]]), rest))
}

fn u32_at(octets: &[u8]) -> Result<(u32, &[u8]), ReadFault>
    ensures value { Answers (λ x. (x.0, x.1.now)) result (number_at w32 octets.now) }
    ensures shorter { IfOk result (λ x. length x.1.now + 4 ≤ length octets.now) }
{
    if octets.len() < 4 {
        return Err(ReadFault::Truncated);
    }
    let (front, rest) = octets.split_at(4);
    let number = u32::from_le_bytes([front[0], front[1], front[2], front[3]]);
    Ok((number, rest))
}

/// The tag of a header, of which at least 8 octets are there.
#[tactic(auto, unfolding(crate::specs::DataSetReader::tag_at))]
fn tag_at(octets: &[u8]) -> Result<(Tag, &[u8]), ReadFault>
    ensures value { Answers (λ x. (x.0, x.1.now)) result (tag_at octets.now) }
    ensures shorter { IfOk result (λ x. length x.1.now + 4 ≤ length octets.now) }
{
    if octets.len() < 8 {
        return Err(ReadFault::Truncated);
    }
    let (group, rest) = u16_at(octets)?;
    let (element, rest) = u16_at(rest)?;
    Ok((Tag { group, element }, rest))
}

/// A length of 4 octets, None where it is undefined.
#[tactic(auto, unfolding(crate::specs::DataSetReader::long_length_at))]
fn long_length_at(octets: &[u8]) -> Result<(Option<u32>, &[u8]), ReadFault>
    ensures value { Answers (λ x. (x.0, x.1.now)) result (long_length_at octets.now) }
    ensures shorter { IfOk result (λ x. length x.1.now + 4 ≤ length octets.now) }
{
    let (length, rest) = u32_at(octets)?;
    let length = if length == UNDEFINED {
        None
    } else {
        Some(length)
    };
    Ok((length, rest))
}

/// The length after the letters of a VR.
#[tactic(auto, unfolding(crate::specs::DataSetReader::length_at))]
fn length_at(form: LengthForm, octets: &[u8]) -> Result<(Option<u32>, &[u8]), ReadFault>
    ensures value { Answers (λ x. (x.0, x.1.now)) result (length_at form octets.now) }
    ensures shorter { IfOk result (λ x. length x.1.now + 2 ≤ length octets.now) }
{
    let (short, rest) = u16_at(octets)?;
    match form {
        LengthForm::Two => Ok((Some(u32::from(short)), rest)),
        LengthForm::Four => long_length_at(rest),
    }
}

#[tactic(auto, unfolding(crate::specs::DataSetReader::vr_at, crate::specs::DataSetReader::vr_or_fault))]
fn vr_at(octets: &[u8]) -> Result<(Vr, &[u8]), ReadFault>
    ensures value { Answers (λ x. (x.0, x.1.now)) result (vr_at octets.now) }
    ensures shorter { IfOk result (λ x. length x.1.now + 2 ≤ length octets.now) }
{
    match octets {
        [first, second, rest @ ..] => match Vr::from_letters(*first, *second) {
            Some(vr) => Ok((vr, rest)),
            None => Err(ReadFault::BadVr),
        },
        _ => Err(ReadFault::Truncated),
    }
}

type Spelling = (Option<Vr>, Option<u32>);

/// The spelled VR, where there is one, and the length.
#[tactic(auto, unfolding(crate::specs::DataSetReader::spelling_at))]
fn spelling_at(
    syntax: Syntax,
    known: Option<Vr>,
    octets: &[u8],
) -> Result<(Spelling, &[u8]), ReadFault>
    ensures value { Answers (λ x. (x.0, x.1.now)) result (spelling_at syntax known octets.now) }
    ensures shorter { IfOk result (λ x. length x.1.now + 4 ≤ length octets.now) }
{
    match syntax {
        Syntax::Implicit => {
            let (length, rest) = long_length_at(octets)?;
            Ok(((None, length), rest))
        }
        Syntax::Explicit => {
            let (vr, rest) = vr_at(octets)?;
            if !agrees(known, vr) {
                return Err(ReadFault::BadVr);
            }
            let (length, rest) = length_at(length_form(vr), rest)?;
            Ok(((Some(vr), length), rest))
        }
    }
}

/// Whether the tag is above the one before it.
fn follows(last: Option<Tag>, tag: Tag) -> bool
    ensures { result ≡ follows last tag }
{
    match last {
        None => true,
        Some(last) => last.is_below(tag),
    }
}

fn may_nest(levels: u8, content: Content) -> bool
    ensures { result ≡ may_nest levels content }
{
    match content {
        Content::Plain(_) => true,
        Content::Sequence(_, _) => levels > 0,
    }
}

pub fn length_of(content: Content) -> Option<u32>
    ensures { result ≡ length_of content }
{
    match content {
        Content::Plain(length) => Some(length),
        Content::Sequence(_, length) => length,
    }
}

fn fits(length: Option<u32>, octets: &[u8]) -> bool
    ensures { result ≡ fits_enclosing length octets.now }
{
    match length {
        None => true,
        Some(length) => length as usize <= octets.len(),
    }
}

/// The header of an element after the tag `last`, with so many more levels of sequences allowed,
/// whether or not its value is there.
#[tactic(auto, unfolding(crate::specs::DataSetReader::front_at))]
pub fn front_at(
    syntax: Syntax,
    levels: u8,
    last: Option<Tag>,
    octets: &[u8],
) -> Result<(Header, &[u8]), ReadFault>
    ensures value { Answers (λ x. (x.0, x.1.now)) result (front_at syntax levels last octets.now) }
    ensures shorter { IfOk result (λ x. length x.1.now + 8 ≤ length octets.now) }
    ensures nests { IfOk result (λ x. may_nest levels x.0.content ≡ true) }
{
    let (tag, rest) = tag_at(octets)?;
    if tag.group == DELIMITERS {
        return Err(ReadFault::BadItem);
    }
    if !follows(last, tag) {
        return Err(ReadFault::TagOrder);
    }
    let known = lookup(tag);
    let ((spelled, length), rest) = spelling_at(syntax, known, rest)?;
    let content = content_of(known, spelled, length)?;
    if !may_nest(levels, content) {
        return Err(ReadFault::TooDeep);
    }
    let vr = vr_of(known, content);
    Ok((Header { tag, vr, content }, rest))
}

/// The header of an element after the tag `last`, with so many more levels of sequences allowed.
#[tactic(auto, unfolding(crate::specs::DataSetReader::header_at))]
pub fn header_at(
    syntax: Syntax,
    levels: u8,
    last: Option<Tag>,
    octets: &[u8],
) -> Result<(Header, &[u8]), ReadFault>
    ensures value { Answers (λ x. (x.0, x.1.now)) result (header_at syntax levels last octets.now) }
    ensures shorter { IfOk result (λ x. length x.1.now + 8 ≤ length octets.now) }
    ensures nests { IfOk result (λ x. may_nest levels x.0.content ≡ true) }
    ensures whole { IfOk result (λ x. fits_enclosing (length_of x.0.content) x.1.now ≡ true) }
{
    let (header, rest) = front_at(syntax, levels, last, octets)?;
    if !fits(length_of(header.content), rest) {
        return Err(ReadFault::Truncated);
    }
    Ok((header, rest))
}

/// The header of an item, and its length, whether or not the item is there.
#[tactic(auto, unfolding(crate::specs::DataSetReader::item_front_at))]
pub fn item_front_at(octets: &[u8]) -> Result<(Option<u32>, &[u8]), ReadFault>
    ensures value { Answers (λ x. (x.0, x.1.now)) result (item_front_at octets.now) }
    ensures shorter { IfOk result (λ x. length x.1.now + 8 ≤ length octets.now) }
{
    let (tag, rest) = tag_at(octets)?;
    if tag.group != DELIMITERS || tag.element != ITEM {
        return Err(ReadFault::BadItem);
    }
    long_length_at(rest)
}

/// The header of an item, and its length.
#[tactic(auto, unfolding(crate::specs::DataSetReader::item_header_at))]
pub fn item_header_at(octets: &[u8]) -> Result<(Option<u32>, &[u8]), ReadFault>
    ensures value { Answers (λ x. (x.0, x.1.now)) result (item_header_at octets.now) }
    ensures shorter { IfOk result (λ x. length x.1.now + 8 ≤ length octets.now) }
    ensures whole { IfOk result (λ x. fits_enclosing x.0 x.1.now ≡ true) }
{
    let (length, rest) = item_front_at(octets)?;
    if !fits(length, rest) {
        return Err(ReadFault::Truncated);
    }
    Ok((length, rest))
}

/// Returns the rest after the end at the front of the octets.
#[tactic(auto, unfolding(crate::specs::DataSetReader::end_at))]
pub fn end_at(bound: Bound, end: u16, octets: &[u8]) -> Result<Option<&[u8]>, ReadFault>
    ensures value { Answers option_copied result (end_at bound end octets.now) }
    ensures shorter { IfOk result (λ x. IfSome x (λ rest. length rest.now ≤ length octets.now)) }
{
    match bound {
        Bound::Filled => {
            if octets.is_empty() {
                Ok(Some(octets))
            } else {
                Ok(None)
            }
        }
        Bound::Delimited => {
            let (tag, rest) = tag_at(octets)?;
            if tag.group != DELIMITERS || tag.element != end {
                return Ok(None);
            }
            let (length, rest) = u32_at(rest)?;
            if length != 0 {
                return Err(ReadFault::BadItem);
            }
            Ok(Some(rest))
        }
    }
}
