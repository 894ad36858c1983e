//! Which identifiers are queries (PS3.4 sections C.2.2.2.5 and C.2.2.2.6).
#![tactic(auto, using(crate::proofs::Smaller::smaller))]

ghost use Rattle.std.specs.Prelude.{◌≡◌};
ghost use Rattle.dq_dataset.specs.Tree.{no_elements};
ghost use Rattle.dq_dataset.specs.View.{as_elements, items_of, with_value};
ghost use Rattle.dq_match.specs.Identifiers.{has_at_most_one_item, is_query, are_queries};

use crate::values::are_well_formed;
use dq_dataset::{DataSet, Element, Value};

/// Whether each value of a date or time key is one date or time, or a range, and each sequence key
/// has at most one item, inside items too. Universal keys may have any value.
#[cycle(identifiers)]
pub fn is_query(identifier: &DataSet) -> bool
    ensures { result ≡ is_query identifier.now }
{
    each_is_query(identifier.elements())
}

#[cycle(identifiers)]
fn each_is_query(keys: &[Element]) -> bool
    ensures { result ≡ is_query (as_elements keys.now) }
{
    for key in keys {
        if !is_one_query(key) {
            return false;
        }
    }
    true
}

#[cycle(identifiers)]
fn is_one_query(key: &Element) -> bool
    ensures { result ≡ is_query (with_value key.now key.now.value no_elements) }
{
    match &key.value {
        Value::Octets(octets) => are_well_formed(key.vr, octets.as_slice()),
        Value::Items(items) => at_most_one(items.as_slice()) && are_queries(items.as_slice()),
    }
}

fn at_most_one(items: &[DataSet]) -> bool
    ensures { result ≡ has_at_most_one_item (items_of items.now) }
{
    items.len() <= 1
}

#[cycle(identifiers)]
fn are_queries(items: &[DataSet]) -> bool
    ensures { result ≡ are_queries (items_of items.now) }
{
    for item in items {
        if !is_query(item) {
            return false;
        }
    }
    true
}
