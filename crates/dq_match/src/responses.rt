//! The part of a record that a response shows (PS3.4 sections C.4.1.1.3.2 and K.4.1.1.3.2).
#![tactic(auto, using(crate::proofs::Smaller::smaller))]

ghost use Rattle.std.specs.Prelude.{◌≡◌, IfOk, map, filter};
ghost use Rattle.std.specs.Option.{option_copied};
ghost use Rattle.dq_dataset.specs.View.{as_elements, elements_of};
ghost use Rattle.dq_match.specs.declared.keys.Nesting.TheVariants.{Inner};
ghost use Rattle.dq_match.specs.Identifiers.{HasKnownTags};
ghost use Rattle.dq_match.specs.Matching.{all_met};
ghost use Rattle.dq_match.specs.Responses.{no_value, unless_empty, character_set, put_first, cut_keys, shown_keys, shown_element, shown_found, shown_data_set};

use crate::keys::{Nesting, element_at, octets_in};
use crate::matching::all_met;
use crate::values::has_no_values;
use dq_dataset::{DataSet, Element, Value};
use dq_list::Listed;
use dq_vr::tags::SPECIFIC_CHARACTER_SET;
use std::alloc::{AllocError, Global};

/// The answer to a query: the final status, whether the identifier had keys that are not supported
/// and were left out, and the data sets of the pending responses in order (PS3.4 section
/// C.4.1.1.4).
#[derive(Drop)]
pub struct Found {
    pub status: u16,
    pub optional: bool,
    pub answers: Listed<DataSet>,
}

/// A value of the same kind without octets or items.
fn no_value(alloc: Global, value: &Value) -> Value
    ensures { result ≡ no_value value.now }
{
    match value {
        Value::Octets(_) => Value::Octets(Listed::empty(alloc)),
        Value::Items(_) => Value::Items(Listed::empty(alloc)),
    }
}

/// The record's character set, where it has a value.
fn character_set(held: &DataSet) -> Option<&Element>
    ensures { option_copied result ≡ character_set held.now }
{
    unless_empty(held.get(SPECIFIC_CHARACTER_SET))
}

/// The elements after a first one, where there is one.
fn put_first(
    alloc: Global,
    first: Option<&Element>,
    mut elements: Vec<Element>,
) -> Result<Vec<Element>, AllocError>
    ensures { IfOk result (λ v. as_elements v.items
        ≡ put_first (option_copied first.entry) (as_elements elements.items)) }
{
    if let Some(first) = first {
        elements.insert(0, first.copied(alloc)?)?;
    }
    Ok(elements)
}

/// The element where it has a value.
fn unless_empty(held: Option<&Element>) -> Option<&Element>
    ensures { option_copied result ≡ unless_empty (option_copied held.entry) }
{
    let element = held?;
    if has_no_values(element.vr, octets_in(held)) {
        return None;
    }
    Some(element)
}

/// The keys in the item of a sequence key, where there are any.
fn cut_keys(key: &Element) -> Option<&DataSet>
    ensures { option_copied result ≡ cut_keys key.now.value }
{
    let Value::Items(items) = &key.value else {
        return None;
    };
    let first = items.as_slice().first()?;
    if first.elements().is_empty() {
        return None;
    }
    Some(first)
}

#[cycle(shown)]
fn shown_keys(
    alloc: Global,
    place: Nesting,
    keys: &[Element],
    held: &[Element],
) -> Result<Vec<Element>, AllocError>
    ensures { IfOk result (λ shown. shown.items
        ≡ elements_of (shown_keys (as_elements keys.now) place (as_elements held.now))) }
{
    let mut shown = Vec::new(alloc);
    for key in keys {
        if !place.is_key(key.tag) {
            continue;
        }
        shown.push(shown_element(alloc, key, element_at(held, key.tag))?)?;
    }
    Ok(shown)
}

/// Returns the element that is shown for one key.
#[cycle(shown)]
fn shown_element(
    alloc: Global,
    key: &Element,
    held: Option<&Element>,
) -> Result<Element, AllocError>
    ensures { IfOk result (λ shown. shown ≡ shown_element key.now (option_copied held.entry)) }
{
    match held {
        Some(found) => shown_found(alloc, key, found),
        None => Ok(Element {
            tag: key.tag,
            vr: key.vr,
            value: no_value(alloc, &key.value),
        }),
    }
}

#[cycle(shown)]
fn shown_found(alloc: Global, key: &Element, found: &Element) -> Result<Element, AllocError>
    ensures { IfOk result (λ shown. shown ≡ shown_found key.now found.now) }
{
    let Some(keys) = cut_keys(key) else {
        return found.copied(alloc);
    };
    let Value::Items(items) = &found.value else {
        return found.copied(alloc);
    };
    let items = shown_items(alloc, keys, items.as_slice())?;
    Ok(Element {
        tag: found.tag,
        vr: found.vr,
        value: Value::Items(Listed::from_inner(items)),
    })
}

/// The items that meet all keys, each cut to them.
#[cycle(shown)]
fn shown_items(alloc: Global, keys: &DataSet, items: &[DataSet]) -> Result<Vec<DataSet>, AllocError>
    ensures { IfOk result (λ shown. shown.items ≡ map (λ d. shown_keys keys.now Inner d)
        (filter (λ d. all_met Inner keys.now d) items.now)) }
{
    let mut shown = Vec::new(alloc);
    for item in items {
        if !all_met(Nesting::Inner, keys, item) {
            continue;
        }
        let elements = shown_keys(alloc, Nesting::Inner, keys.elements(), item.elements())?;
        shown.push(DataSet::from_elements(elements))?;
    }
    Ok(shown)
}

/// Returns the data set that a response to the identifier shows of a record: for each key the
/// record's element, or one without a value, and the record's character set (0008,0005) where it
/// has a value.
#[tactic(auto, unfolding(crate::specs::Responses::shown_data_set))]
pub fn shown(alloc: Global, identifier: &DataSet, held: &DataSet) -> Result<DataSet, AllocError>
    requires { HasKnownTags identifier.now }
    ensures { IfOk result (λ d. d ≡ shown_data_set identifier.now held.now) }
{
    let keys = shown_keys(
        alloc,
        Nesting::Outer,
        identifier.elements(),
        held.elements(),
    )?;
    let elements = put_first(alloc, character_set(held), keys)?;
    Ok(DataSet::from_elements(elements))
}
