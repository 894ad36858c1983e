//! Whether a record meets the keys of an identifier (PS3.4 section C.2.2.2).
#![tactic(auto, using(crate::proofs::Smaller::smaller))]

ghost use Rattle.std.specs.Prelude.{◌≡◌, option_map};
ghost use Rattle.std.specs.Option.{option_copied};
ghost use Rattle.std.specs.List.{list_any};
ghost use Rattle.jiff.specs.Words.{epoch_day};
ghost use Rattle.dq_dataset.specs.View.{as_elements, items_of};
ghost use Rattle.dq_match.specs.DateBounds.{days_of};
ghost use Rattle.dq_match.specs.Matching.{asked_days, asked_times, start_day, start_time, period, is_start, is_matched_elsewhere, each_met, items_meet, all_met, fits, meets};
ghost use Rattle.dq_match.specs.declared.keys.Nesting.TheVariants.{Inner};

use crate::keys::{Nesting, items_in, octets_in};
use crate::ranges::{Bounds, Span, date_range, is_within, time_range};
use crate::values::octets_meet;
use dq_dataset::{DataSet, Element, Value};
use dq_value::{date_of, time_of};
use dq_vr::Tag;
use dq_vr::tags::{SCHEDULED_PROCEDURE_STEP_START_DATE, SCHEDULED_PROCEDURE_STEP_START_TIME};
use jiff::civil::Date;

#[tactic(auto, unfolding(crate::specs::Matching::asked_days))]
pub(crate) fn asked_days(keys: &DataSet) -> Option<Bounds<Date>>
    ensures { option_map days_of result ≡ asked_days keys.now }
{
    date_range(keys.sole_value(SCHEDULED_PROCEDURE_STEP_START_DATE)?)
}

#[tactic(auto, unfolding(crate::specs::Matching::asked_times))]
pub(crate) fn asked_times(keys: &DataSet) -> Option<Bounds<Span>>
    ensures { result ≡ asked_times keys.now }
{
    time_range(keys.sole_value(SCHEDULED_PROCEDURE_STEP_START_TIME)?)
}

#[tactic(auto, unfolding(crate::specs::Matching::start_day))]
pub(crate) fn start_day(held: &DataSet) -> Option<Date>
    ensures { option_map epoch_day result ≡ start_day held.now }
{
    date_of(held.sole_value(SCHEDULED_PROCEDURE_STEP_START_DATE)?)
}

#[tactic(auto, unfolding(crate::specs::Matching::start_time))]
pub(crate) fn start_time(held: &DataSet) -> Option<Span>
    ensures { result ≡ start_time held.now }
{
    time_of(held.sole_value(SCHEDULED_PROCEDURE_STEP_START_TIME)?)
}

/// Whether the start of the record's procedure step is in the period that the keys ask for, where
/// they ask for one and the record has one date and one time (PS3.4 table K.6-1).
#[tactic(auto, unfolding(crate::specs::Matching::period))]
fn period(keys: &DataSet, held: &DataSet) -> Option<bool>
    ensures { result ≡ period keys.now held.now }
{
    let days = asked_days(keys)?;
    let times = asked_times(keys)?;
    let date = start_day(held)?;
    let time = start_time(held)?;
    Some(is_within(days, times, date, time))
}

fn is_start(tag: Tag) -> bool
    ensures { result ≡ is_start tag }
{
    tag == SCHEDULED_PROCEDURE_STEP_START_DATE || tag == SCHEDULED_PROCEDURE_STEP_START_TIME
}

pub(crate) fn is_matched_elsewhere(place: Nesting, joined: bool, tag: Tag) -> bool
    ensures { result ≡ is_matched_elsewhere place joined tag }
{
    !place.is_key(tag) || (joined && is_start(tag))
}

/// Whether a record, or an item of one, meets all keys.
#[cycle(matching)]
pub(crate) fn all_met(place: Nesting, keys: &DataSet, held: &DataSet) -> bool
    ensures { result ≡ all_met place keys.now held.now }
{
    match period(keys, held) {
        Some(is_in) => is_in && each_met(place, true, keys.elements(), held),
        None => each_met(place, false, keys.elements(), held),
    }
}

/// Whether each key is met by the element with its tag. The start of a procedure step is passed
/// over where its date and time are joined.
#[cycle(matching)]
fn each_met(place: Nesting, joined: bool, keys: &[Element], held: &DataSet) -> bool
    ensures { result ≡ each_met (as_elements keys.now) place held.now joined }
{
    for key in keys {
        if !is_matched_elsewhere(place, joined, key.tag) && !meets(key, held.get(key.tag)) {
            return false;
        }
    }
    true
}

/// Whether the element of a record, absent where it is `None`, meets one key of an identifier
/// (PS3.4 section C.2.2.2). An element that is absent or has no values or items meets every key.
/// Several values against several are compared each with each: `PreparedKeys` look them up.
#[cycle(matching)]
pub fn meets(key: &Element, held: Option<&Element>) -> bool
    ensures { result ≡ meets key.now (option_copied held.entry) }
{
    match &key.value {
        Value::Octets(octets) => octets_meet(key.vr, octets.as_slice(), octets_in(held)),
        Value::Items(items) => items_meet(items.as_slice(), items_in(held)),
    }
}

#[cycle(matching)]
fn items_meet(keys: &[DataSet], held: &[DataSet]) -> bool
    ensures { result ≡ items_meet (items_of keys.now) held.now }
{
    match keys.first() {
        Some(first) => held.is_empty() || some_item_meets(first, held),
        None => true,
    }
}

#[cycle(matching)]
fn some_item_meets(keys: &DataSet, held: &[DataSet]) -> bool
    ensures { result ≡ list_any (λ d. all_met Inner keys.now d) held.now }
{
    for item in held {
        if all_met(Nesting::Inner, keys, item) {
            return true;
        }
    }
    false
}

/// Whether a record meets every key of an identifier. (0008,0005), (0008,0052), (0008,0054) and
/// (0008,0056) are no keys.
pub fn fits(identifier: &DataSet, held: &DataSet) -> bool
    ensures { result ≡ fits identifier.now held.now }
{
    all_met(Nesting::Outer, identifier, held)
}
