//! Parts of a body that stand one after the other, as they are read, and items among them (PS3.8
//! section 9.3.2).
ghost use Rattle.std.specs.Prelude.{◌≡◌, ℕ, List, Option, map, option_map, IfOk, Some};
ghost use Rattle.dq_pdu.specs.Octets.{parts_of, bodies, at_most_one, exactly_one, without_uid_padding};
ghost use Rattle.dq_list.specs.Readers.{Gives};
ghost use Rattle.dq_pdu.specs.PduReader.{Fails, item_at};
ghost use Rattle.dq_pdu.specs.Shrinking.{Shrinks, item_shrinks};

use crate::numbers::ITEM_HEADER;
use crate::pdu_reader::{Item, ReadError};
use crate::rules::is_padding;
use dq_list::Listed;
use std::alloc::{AllocError, Global};

/// A part of a body, of which others of its kind follow until the body ends.
pub(crate) trait ReadPart: Drop {
    ghost part_at: { List ℕ → Option (Self × List ℕ) };

    /// The part at the front, and the octets after it.
    fn read(alloc: Global, octets: &[u8]) -> Result<(Self, &[u8]), ReadError>
        ensures { Gives Fails (λ x. (x.0, x.1.now)) result (part_at octets.now) };

    ghost shrinks: { Shrinks part_at };
}

impl ReadPart for Item {
    ghost part_at = { item_at };

    ghost shrinks = { item_shrinks };

    #[tactic(auto, unfolding(crate::specs::PduReader::item_at))]
    fn read(alloc: Global, octets: &[u8]) -> Result<(Item, &[u8]), ReadError> {
        if octets.len() < ITEM_HEADER {
            return Err(ReadError::Malformed);
        }
        let (header, rest) = octets.split_at(ITEM_HEADER);
        let size = u16::from_be_bytes([header[2], header[3]]) as usize;
        if rest.len() < size {
            return Err(ReadError::Malformed);
        }
        let (body, rest) = rest.split_at(size);
        let item = Item {
            kind: header[0],
            octets: Listed::from_inner(Vec::from_slice(alloc, body)?),
        };
        Ok((item, rest))
    }
}

/// The parts that fill the octets.
pub(crate) fn parts_of<P: ReadPart>(alloc: Global, octets: &[u8]) -> Result<Vec<P>, ReadError>
    ensures { Gives Fails (λ v. v.items) result (parts_of P.part_at octets.now) }
{
    let mut parts = Vec::new(alloc);
    let mut rest = octets;
    while !rest.is_empty() {
        let (part, behind) = P::read(alloc, rest)?;
        parts.push(part)?;
        rest = behind;
    }
    Ok(parts)
}

/// The body of the only item of a type, if there is one.
pub(crate) fn at_most_one(items: &[Item], kind: u8) -> Result<Option<&[u8]>, ReadError>
    ensures { Gives Fails (option_map (λ x. x.now)) result (at_most_one (bodies kind items.now)) }
{
    let mut found: Option<&[u8]> = None;
    for item in items {
        if item.kind == kind {
            if found.is_some() {
                return Err(ReadError::Malformed);
            }
            found = Some(item.octets.inner());
        }
    }
    Ok(found)
}

/// The body of the only item of a type.
pub(crate) fn exactly_one(items: &[Item], kind: u8) -> Result<&[u8], ReadError>
    ensures { Gives Fails (λ x. x.now) result (exactly_one (bodies kind items.now)) }
{
    at_most_one(items, kind)?.ok_or(ReadError::Malformed)
}

/// The octets without the padding at their end (PS3.5 section 9.1).
fn unpadded(octets: &[u8]) -> &[u8]
    ensures { result.now ≡ without_uid_padding octets.now }
{
    let mut rest = octets;
    while let [front @ .., last] = rest {
        if !is_padding(*last) {
            return rest;
        }
        rest = front;
    }
    rest
}

/// A unique identifier without its padding.
pub(crate) fn name_of(alloc: Global, octets: &[u8]) -> Result<Listed<u8>, AllocError>
    ensures { IfOk result (λ name. name ≡ without_uid_padding octets.now) }
{
    Ok(Listed::from_inner(Vec::from_slice(alloc, unpadded(octets))?))
}

/// The names in the items of a type, in order.
pub(crate) fn names_of(
    alloc: Global,
    items: &[Item],
    kind: u8,
) -> Result<Vec<Listed<u8>>, AllocError>
    ensures { IfOk result (λ names. names.items ≡ map without_uid_padding (bodies kind items.now)) }
{
    let mut names = Vec::new(alloc);
    for item in items {
        if item.kind == kind {
            names.push(name_of(alloc, item.octets.inner())?)?;
        }
    }
    Ok(names)
}
