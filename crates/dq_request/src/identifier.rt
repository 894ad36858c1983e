//! The identifier that asks for a search.
ghost use Rattle.std.specs.Prelude.{◌≡◌, [], Some, None, IfOk, IfSome, option_copied, find};
ghost use Rattle.dq_dataset.specs.Rules.{is_sequence, padded_value};
ghost use Rattle.dq_vr.specs.Dictionary.{dictionary};
ghost use Rattle.dq_request.specs.declared.search.Subject.TheVariants.{Worklist};
ghost use Rattle.dq_request.specs.Searches.{is_of_tag, value_in, level_of, asked_octets, asked_items, asked_value, asked_element, asked_elements, asked_identifier, identifier_of, IsItem};

use crate::search::{Key, Subject};
use dq_dataset::{DataSet, Element, Value};
use dq_list::Listed;
use dq_vr::{DICTIONARY, Tag, Vr, dictionary_law, tags};
use std::alloc::{AllocError, Global};

impl Subject {
    /// The Query/Retrieve Level of a search (PS3.4 section C.6.2.1), where it has one.
    pub(crate) fn level(self) -> &'static [u8]
        ensures { result.now ≡ level_of self }
    {
        match self {
            Subject::Studies => b"STUDY",
            Subject::Series => b"SERIES",
            Subject::Images | Subject::StudyImages => b"IMAGE",
            Subject::Worklist | Subject::Steps => b"",
        }
    }
}

fn key_of(keys: &[Key], tag: Tag) -> Option<&Key>
    ensures { option_copied result ≡ find (is_of_tag tag) keys.now }
{
    keys.iter().find(|key| key.tag == tag)
}

/// The value of the first key of a tag, which is empty if there is none.
fn value_in(keys: &[Key], tag: Tag) -> &[u8]
    ensures { result.now ≡ value_in keys.now tag }
{
    match key_of(keys, tag) {
        Some(key) => key.value.as_slice(),
        None => &[],
    }
}

/// The octets of an attribute, before they are padded: the level, or those of its key.
fn asked_octets<'a>(level: &'a [u8], keys: &'a [Key], tag: Tag) -> &'a [u8]
    ensures { result.now ≡ asked_octets level.now keys.now tag }
{
    if tag == tags::QUERY_RETRIEVE_LEVEL {
        return level;
    }
    value_in(keys, tag)
}

/// A value with the pad that makes it even (PS3.5 section 6.2).
fn padded(alloc: Global, vr: Vr, value: &[u8]) -> Result<Listed<u8>, AllocError>
    ensures { IfOk result (λ octets. octets ≡ padded_value vr value.now) }
{
    let mut octets = Vec::from_slice(alloc, value)?;
    if octets.len() % 2 == 1 {
        octets.push(if vr.is_text() { b' ' } else { 0 })?;
    }
    Ok(Listed::from_inner(octets))
}

/// The items of a sequence.
fn asked_items(
    alloc: Global,
    step: Option<&DataSet>,
    tag: Tag,
) -> Result<Listed<DataSet>, AllocError>
    ensures { IfOk result (λ items. items ≡ asked_items (option_copied step.entry) tag) }
{
    let mut items = Listed::empty(alloc);
    if tag != tags::SCHEDULED_PROCEDURE_STEP_SEQUENCE {
        return Ok(items);
    }
    let Some(step) = step else {
        return Ok(items);
    };
    items.push(step.copied(alloc)?)?;
    Ok(items)
}

fn is_sequence(vr: Vr) -> bool
    ensures { result ≡ is_sequence (Some vr) }
{
    matches!(vr, Vr::SQ)
}

fn asked_value(
    alloc: Global,
    level: &[u8],
    step: Option<&DataSet>,
    keys: &[Key],
    entry: (Tag, Vr),
) -> Result<Value, AllocError>
    ensures { IfOk result (λ value. value ≡ asked_value level.now (option_copied step.entry) keys.now entry) }
{
    let (tag, vr) = entry;
    if is_sequence(vr) {
        return Ok(Value::Items(asked_items(alloc, step, tag)?));
    }
    Ok(Value::Octets(padded(alloc, vr, asked_octets(level, keys, tag))?))
}

/// The attributes of a dictionary but the character set, as they are asked for.
fn asked_elements(
    alloc: Global,
    level: &[u8],
    step: Option<&DataSet>,
    keys: &[Key],
    entries: &[(Tag, Vr)],
) -> Result<Vec<Element>, AllocError>
    ensures { IfOk result (λ elements. elements.items
        ≡ asked_elements level.now (option_copied step.entry) keys.now entries.now) }
{
    let mut elements = Vec::new(alloc);
    for entry in entries {
        let (tag, vr) = *entry;
        if tag != tags::SPECIFIC_CHARACTER_SET {
            let value = asked_value(alloc, level, step, keys, *entry)?;
            elements.push(Element { tag, vr, value })?;
        }
    }
    Ok(elements)
}

/// The dictionary's entries.
fn entries() -> &'static [(Tag, Vr)]
    ensures { result.now ≡ dictionary }
{
    &DICTIONARY
}

/// The identifier of a level and of keys, and of the item with those of the scheduled procedure step.
pub(crate) fn asked_identifier(
    alloc: Global,
    level: &[u8],
    step: Option<&DataSet>,
    keys: &[Key],
) -> Result<DataSet, AllocError>
    requires { IfSome (option_copied step) IsItem }
    ensures { IfOk result (λ identifier.
        identifier ≡ asked_identifier level.now (option_copied step.entry) keys.now) }
{
    dictionary_law();
    let elements = asked_elements(alloc, level, step, keys, entries())?;
    Ok(DataSet::from_elements(elements))
}

/// The identifier of a worklist query. Keys of the scheduled procedure step stand in the item of (0040,0100).
pub(crate) fn worklist_identifier(alloc: Global, keys: &[Key]) -> Result<DataSet, AllocError>
    ensures { IfOk result (λ identifier. identifier ≡ identifier_of Worklist keys.now) }
{
    dictionary_law();
    let step = asked_identifier(alloc, &[], None, keys)?;
    asked_identifier(alloc, &[], Some(&step), keys)
}
