//! The values of a key, each in each of its spellings: records may be in several character sets.
ghost use Rattle.std.specs.Prelude.{◌≡◌, ◌++◌, ◌∷◌, flat_map, IfOk, OnOk};
ghost use Rattle.std.specs.List.{join_with_byte};
ghost use Rattle.dq_request.specs.Searches.{backslash, all_spellings, in_spellings};

use dq_json::spellings;
use dq_list::Listed;
use std::alloc::{AllocError, Global};

/// Adds values, each behind a backslash (PS3.5 section 6.4).
fn put_values(octets: &mut Vec<u8>, values: &[Listed<u8>]) -> Result<(), AllocError>
    ensures { OnOk result (octets.new.items
        ≡ octets.old.items ++ flat_map (λ value. backslash ∷ value) values.now) }
{
    for value in values {
        octets.push(b'\\')?;
        octets.extend_from_slice(value.as_slice())?;
    }
    Ok(())
}

/// Each value of a text in each of its spellings, behind a backslash.
fn put_spellings(alloc: Global, text: &str) -> Result<Vec<u8>, AllocError>
    ensures { IfOk result (λ octets. octets.items
        ≡ flat_map (λ value. backslash ∷ value) (all_spellings text.now)) }
{
    let mut octets = Vec::new(alloc);
    for value in text.split('\\') {
        put_values(&mut octets, spellings(alloc, value)?.as_slice())?;
    }
    Ok(octets)
}

/// Each value of a text in each of its spellings, with a backslash between two.
fn joined_spellings(alloc: Global, text: &str) -> Result<Listed<u8>, AllocError>
    ensures { IfOk result (λ octets. octets ≡ join_with_byte backslash (all_spellings text.now)) }
{
    let octets = put_spellings(alloc, text)?;
    match octets.as_slice().split_first() {
        Some((_, others)) => Listed::copy_of(alloc, others),
        None => Ok(Listed::empty(alloc)),
    }
}

/// The values of a key in each of their spellings. Octets that are not UTF-8 are as they were given.
pub(crate) fn in_spellings(alloc: Global, octets: &[u8]) -> Result<Listed<u8>, AllocError>
    ensures { IfOk result (λ value. value ≡ in_spellings octets.now) }
{
    match str::from_utf8(octets) {
        Ok(text) => joined_spellings(alloc, text),
        Err(_) => Listed::copy_of(alloc, octets),
    }
}
