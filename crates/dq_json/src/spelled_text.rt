//! The octets by which text may be kept.
ghost use Rattle.std.specs.Prelude.{◌≡◌, IfOk, OnOk};
ghost use Rattle.std.specs.List.{list_any};
ghost use Rattle.std.specs.Str.{bytes_eq, chars};
ghost use Rattle.dq_json.specs.Spellings.{octets_in, with_spelling, spellings};

use crate::code_tables::{CODE_TABLES, CodeTable};
use dq_list::Listed;
use std::alloc::{AllocError, Global};

fn characters_of(alloc: Global, text: &str) -> Result<Vec<char>, AllocError>
    ensures { IfOk result (λ characters. characters.items ≡ chars text.now) }
{
    text.chars().collect(alloc)
}

/// The octets of characters in a set, if each has one there.
fn octets_in(
    alloc: Global,
    table: CodeTable,
    characters: &[char],
) -> Result<Option<Listed<u8>>, AllocError>
    ensures { IfOk result (λ octets. octets ≡ octets_in table characters.now) }
{
    let mut octets = Vec::new(alloc);
    for character in characters {
        let Some(octet) = table.octet(*character) else {
            return Ok(None);
        };
        octets.push(octet)?;
    }
    Ok(Some(Listed::from_inner(octets)))
}

fn has_spelling(found: &[Listed<u8>], octets: &[u8]) -> bool
    ensures { result ≡ list_any (λ it. bytes_eq it octets.now) found.now }
{
    found.iter().any(|it| it.as_slice() == octets)
}

/// Adds the octets of characters in a set, if each has one there and these are not among those before.
fn add_spelling(
    alloc: Global,
    found: &mut Listed<Listed<u8>>,
    table: CodeTable,
    characters: &[char],
) -> Result<(), AllocError>
    ensures { OnOk result (found.new ≡ with_spelling characters.now found.old table) }
{
    let Some(octets) = octets_in(alloc, table, characters)? else {
        return Ok(());
    };
    if has_spelling(found.as_slice(), octets.as_slice()) {
        return Ok(());
    }
    found.push(octets)?;
    Ok(())
}

/// The octets by which a text may be kept: first in UTF-8, and then in each set of one octet a character that has
/// all of its characters. Where several sets have the same octets, they are there once.
#[tactic(auto, unfolding(crate::specs::Spellings::spellings))]
pub fn spellings(alloc: Global, text: &str) -> Result<Listed<Listed<u8>>, AllocError>
    ensures { IfOk result (λ found. found ≡ spellings text.now) }
{
    let characters = characters_of(alloc, text)?;
    let mut found = Listed::empty(alloc);
    found.push(Listed::copy_of(alloc, text.as_bytes())?)?;
    for table in &CODE_TABLES {
        add_spelling(alloc, &mut found, *table, characters.as_slice())?;
    }
    Ok(found)
}
