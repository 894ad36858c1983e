//! Trials: octets that come in pieces, and what a list of tags leaves of the data set that they spell.
ghost use Rattle.std.specs.Prelude.{◌<◌, ◌^◌, length, IfOk};
ghost use Rattle.dq_dataset.specs.Sieve.{IsSifted};

use crate::trial::octets_text;
use dq_dataset::{ReadFault, Sieve, Sifted, Syntax, laws, write};
use dq_dimse::KEPT_ATTRIBUTES;
use dq_vr::{Tag, tags};
use std::alloc::{AllocError, Global};

/// How octets are sifted.
#[derive(Clone, Copy)]
pub(crate) struct Sifting {
    pub(crate) syntax: Syntax,
    /// The tags that are listed.
    pub(crate) tags: &'static [Tag],
    /// The octets of the first piece, and of each that follows. At least one is taken.
    pub(crate) first: usize,
    pub(crate) each: usize,
}

const NONE: [Tag; 0] = [];

const SEQUENCES: [Tag; 5] = [
    tags::REFERENCED_STUDY_SEQUENCE,
    tags::REFERENCED_SERIES_SEQUENCE,
    tags::PATIENT_ID,
    tags::SCHEDULED_STEP_ATTRIBUTES_SEQUENCE,
    tags::REQUEST_ATTRIBUTES_SEQUENCE,
];

/// The tags of a list by its name.
pub(crate) fn tags_of(name: &str) -> Option<&'static [Tag]> {
    match name {
        "none" => Some(&NONE),
        "sequences" => Some(&SEQUENCES),
        "storage" => Some(&KEPT_ATTRIBUTES),
        _ => None,
    }
}

fn sifted(alloc: Global, octets: &[u8], by: Sifting) -> Result<Sifted, AllocError>
    ensures { IfOk result (λ answer. IsSifted by.syntax by.tags.now octets.now answer) }
{
    let mut sieve = Sieve::new(alloc, by.syntax, by.tags);
    let mut rest = octets;
    let mut length = by.first;
    while !rest.is_empty() {
        let (piece, after) = rest.split_at(length.clamp(1, rest.len()));
        sieve.feed(piece)?;
        rest = after;
        length = by.each;
    }
    Ok(sieve.finish())
}

/// The text of what the tags leave: `fault N`, `large`, or the canonical spelling in Explicit, with
/// `all` where no other element was sent, and else `others`.
pub(crate) fn sifted_text(alloc: Global, octets: &[u8], by: Sifting) -> Result<String, AllocError>
    requires { length octets.now < 2 ^ 31 }
{
    laws::spelling_law();
    laws::editing_law();
    match sifted(alloc, octets, by)? {
        Sifted::Kept(kept, other) => {
            let spelled = octets_text(alloc, write(alloc, &kept, Syntax::Explicit)?.as_slice())?;
            format!(in alloc; "{spelled} {}", if other { "others" } else { "all" })
        }
        Sifted::Large => format!(in alloc; "large"),
        Sifted::Fault(ReadFault::NoMemory) => Err(AllocError),
        Sifted::Fault(fault) => format!(in alloc; "fault {}", fault.number()),
    }
}
