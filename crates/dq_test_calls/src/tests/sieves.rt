//! Data sets that are sifted as they come, as long as their limit.
use dq_dataset::{KEPT_LIMIT, ReadFault, Sieve, Sifted, Syntax};
use dq_dimse::KEPT_ATTRIBUTES;
use std::alloc::{AllocError, Global};
use std::test::*;

/// Gives a sieve so many octets of zero, out of one piece again and again.
fn feed_zeros(alloc: Global, sieve: &mut Sieve, length: u32) -> Result<(), AllocError> {
    let piece = vec![in alloc; 0; 0x10_0000]?;
    for _ in 0..length / 0x10_0000 {
        sieve.feed(&piece)?;
    }
    sieve.feed(piece.split_at((length % 0x10_0000) as usize).0)
}

/// Returns the elements kept of a Patient's Name in Implicit, of which so many octets are missing.
pub(super) fn sifted_name(alloc: Global, length: u32, missing: u32) -> Result<Sifted, AllocError> {
    let mut sieve = Sieve::new(alloc, Syntax::Implicit, &KEPT_ATTRIBUTES);
    sieve.feed(b"\x10\0\x10\0")?;
    sieve.feed(&length.to_le_bytes())?;
    feed_zeros(alloc, &mut sieve, length.saturating_sub(missing))?;
    Ok(sieve.finish())
}

/// The elements that are left of a name: only the name, or why nothing is left.
#[derive(Clone, Copy, Debug, PartialEq, Eq)]
enum Left {
    Name,
    Large,
    Truncated,
    Other,
}

fn left_of(sifted: &Sifted) -> Left {
    match sifted {
        Sifted::Kept(kept, false) if kept.elements().len() == 1 => Left::Name,
        Sifted::Large => Left::Large,
        Sifted::Fault(ReadFault::Truncated) => Left::Truncated,
        Sifted::Kept(..) | Sifted::Fault(_) => Left::Other,
    }
}

/// A name of so many octets has a header of 12 in Explicit (PS3.5 section 6.2.2). One that is cut
/// off is no large one.
#[test]
fn what_is_kept_has_a_limit(rt: HostRuntime) -> Result<(), Fail> {
    for (length, missing, expected) in [
        (KEPT_LIMIT - 12, 0, Left::Name),
        (KEPT_LIMIT - 10, 0, Left::Large),
        (KEPT_LIMIT, 0, Left::Large),
        (KEPT_LIMIT + 2, 0, Left::Large),
        (KEPT_LIMIT, 1, Left::Truncated),
        (KEPT_LIMIT + 2, 1, Left::Truncated),
    ] {
        let sifted = sifted_name(rt.alloc(), length, missing)?;
        assert_eq!(rt; left_of(&sifted), expected, "{length} {missing}");
    }
    Ok(())
}
