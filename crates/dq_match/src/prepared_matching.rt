//! Whether a record meets keys that were read once (PS3.4 section C.2.2.2).
ghost use Rattle.std.specs.Prelude.{◌≡◌, map};
ghost use Rattle.std.specs.Option.{option_copied};
ghost use Rattle.std.specs.List.{list_any, list_all};
ghost use Rattle.dq_dataset.specs.View.{as_elements, elements_of, items_of};
ghost use Rattle.dq_match.specs.declared.keys.Nesting.TheVariants.{Inner};
ghost use Rattle.dq_match.specs.AsLent.{is_met_at_once};
ghost use Rattle.dq_match.specs.Matching.{each_met, items_meet, all_met, fits, meets};
ghost use Rattle.dq_match.specs.Prepared.{element_of_key};

use crate::keys::{Nesting, items_in, octets_in};
use crate::lent_matching::is_left;
use crate::matching::is_matched_elsewhere;
use crate::prepared::{PreparedKey, PreparedKeys, PreparedValue};
use dq_dataset::{DataSet, Element};
use dq_vr::Tag;

/// Whether a record, or an item of one, meets all keys.
#[cycle(prepared_matching)]
fn all_met(place: Nesting, keys: &PreparedKeys, held: &DataSet) -> bool
    ensures { result ≡ all_met place keys.now held.now }
{
    match keys.period(held) {
        Some(is_in) => is_in && each_met(place, true, keys.keys(), held),
        None => each_met(place, false, keys.keys(), held),
    }
}

/// Whether each key is met by the element with its tag. The start of a procedure step is passed
/// over where its date and time are joined.
#[cycle(prepared_matching)]
fn each_met(place: Nesting, joined: bool, keys: &[PreparedKey], held: &DataSet) -> bool
    ensures { result ≡ each_met (as_elements (map element_of_key keys.now)) place held.now joined }
{
    for key in keys {
        if !is_matched_elsewhere(place, joined, key.tag) && !is_met(key, held.get(key.tag)) {
            return false;
        }
    }
    true
}

#[cycle(prepared_matching)]
fn is_met(key: &PreparedKey, held: Option<&Element>) -> bool
    ensures { result ≡ meets (element_of_key key.now) (option_copied held.entry) }
{
    match &key.value {
        PreparedValue::Plain(values) => values.is_met_by(octets_in(held)),
        PreparedValue::Nested(_, items) => items_meet(items.as_slice(), items_in(held)),
    }
}

#[cycle(prepared_matching)]
fn items_meet(keys: &[PreparedKeys], held: &[DataSet]) -> bool
    ensures { result ≡ items_meet (items_of keys.now) held.now }
{
    match keys.first() {
        Some(first) => held.is_empty() || some_item_meets(first, held),
        None => true,
    }
}

#[cycle(prepared_matching)]
fn some_item_meets(keys: &PreparedKeys, held: &[DataSet]) -> bool
    ensures { result ≡ list_any (λ d. all_met Inner keys.now d) held.now }
{
    for item in held {
        if all_met(Nesting::Inner, keys, item) {
            return true;
        }
    }
    false
}

fn each_met_at_once(keys: &[PreparedKey], later: &[Tag], held: &DataSet) -> bool
    ensures { result ≡ list_all (is_met_at_once later.now held.now) (map element_of_key keys.now) }
{
    for key in keys {
        if !is_left(later, key.tag) && !is_met(key, held.get(key.tag)) {
            return false;
        }
    }
    true
}

impl PreparedKeys {
    /// Whether a record meets every key. (0008,0005), (0008,0052), (0008,0054) and (0008,0056) are no
    /// keys.
    pub fn fits(&self, held: &DataSet) -> bool
        ensures { result ≡ fits self.now held.now }
    {
        all_met(Nesting::Outer, self, held)
    }

    /// Whether a record meets each key, each for itself, but those that are left for later.
    pub fn meets_at_once(&self, later: &[Tag], held: &DataSet) -> bool
        ensures { result ≡ list_all (is_met_at_once later.now held.now) (elements_of self.now) }
    {
        each_met_at_once(self.keys(), later, held)
    }
}
