//! The keys of an identifier, which are read once for all records that are matched against them
//! (PS3.4 section C.2.2.2).
ghost use Rattle.std.specs.Prelude.{◌≡◌, map, option_map, IfOk};
ghost use Rattle.dq_dataset.specs.View.{elements_of};
ghost use Rattle.dq_match.specs.Matching.{period};
ghost use Rattle.dq_match.specs.Prepared.{vr_and_value, element_of_key};

use crate::matching::{asked_days, asked_times, start_day, start_time};
use crate::ranges::{Bounds, Span, is_within};
use crate::value_keys::ValueKey;
use dq_dataset::{DataSet, Element, Value};
use dq_list::Listed;
use dq_vr::{Tag, Vr};
use jiff::civil::Date;
use std::alloc::{AllocError, Global};
use std::marker::Model;

/// The keys of an identifier or of an item of one, with the period that they ask for, read once for
/// all records that are matched against them. Contracts see the identifier.
#[cycle(prepared_keys)]
#[derive(Drop)]
pub struct PreparedKeys {
    days: Option<Bounds<Date>>,
    times: Option<Bounds<Span>>,
    keys: Listed<PreparedKey>,
}

/// One key.
#[cycle(prepared_keys)]
#[derive(Drop)]
pub(crate) struct PreparedKey {
    pub(crate) tag: Tag,
    pub(crate) value: PreparedValue,
}

/// The content of a key: values, or a sequence with an item.
#[cycle(prepared_keys)]
#[derive(Drop)]
pub(crate) enum PreparedValue {
    Plain(ValueKey),
    Nested(Vr, Listed<PreparedKeys>),
}

impl Model for PreparedKeys {
    ghost use Rattle.dq_dataset.specs.Tree.{ElementList, elements_code, item_count};

    ghost Value = { ElementList };

    ghost coded = { elements_code };

    ghost use Rattle.std.specs.Prelude.{map};
    ghost use Rattle.dq_dataset.specs.View.{as_elements};
    ghost use Rattle.dq_match.specs.Prepared.{element_of_key, AreAsked};

    ghost view = { λ p. as_elements (map element_of_key p.keys) };

    ghost invariant = { λ p. AreAsked p.days p.times (as_elements (map element_of_key p.keys)) };

    ghost size = { item_count };

    ghost use Rattle.std.proofs.Common.{arith};
    ghost use Rattle.dq_match.specs.PreparedFalls.{most_le-keys};

    ghost size_decreases = { λ a h. omega (arith, most_le-keys a.keys) };
}

impl PreparedKeys {
    /// The keys of an identifier, read once.
    pub fn of(alloc: Global, identifier: &DataSet) -> Result<PreparedKeys, AllocError>
        ensures { IfOk result (λ prepared. prepared ≡ identifier.now) }
    {
        prepared_keys(alloc, identifier)
    }

    pub(crate) fn keys(&self) -> &[PreparedKey]
        ensures { map element_of_key result.now ≡ elements_of self.now }
    {
        self.keys.as_slice()
    }

    /// Whether the start of the record's procedure step is in the period that the keys ask for, where
    /// they ask for one and the record has one date and one time (PS3.4 table K.6-1).
    #[tactic(auto, unfolding(crate::specs::Matching::period))]
    pub(crate) fn period(&self, held: &DataSet) -> Option<bool>
        ensures { result ≡ period self.now held.now }
    {
        let days = self.days?;
        let times = self.times?;
        let date = start_day(held)?;
        let time = start_time(held)?;
        Some(is_within(days, times, date, time))
    }
}

#[cycle(preparing)]
fn prepared_value(alloc: Global, vr: Vr, value: &Value) -> Result<PreparedValue, AllocError>
    ensures { IfOk result (λ prepared. vr_and_value prepared ≡ (vr, value.now)) }
{
    match value {
        Value::Octets(octets) => {
            let key = ValueKey::of(alloc, vr, octets.as_slice())?;
            Ok(PreparedValue::Plain(key))
        }
        Value::Items(items) => {
            let items = prepared_items(alloc, items.as_slice())?;
            Ok(PreparedValue::Nested(vr, items))
        }
    }
}

#[cycle(preparing)]
fn prepared_elements(alloc: Global, keys: &[Element]) -> Result<Listed<PreparedKey>, AllocError>
    ensures { IfOk result (λ prepared. map element_of_key prepared ≡ keys.now) }
{
    let mut prepared = Listed::empty(alloc);
    for key in keys {
        let value = prepared_value(alloc, key.vr, &key.value)?;
        prepared.push(PreparedKey {
            tag: key.tag,
            value,
        })?;
    }
    Ok(prepared)
}

#[cycle(preparing)]
fn prepared_items(alloc: Global, items: &[DataSet]) -> Result<Listed<PreparedKeys>, AllocError>
    ensures { IfOk result (λ prepared. prepared ≡ items.now) }
{
    let mut prepared = Listed::empty(alloc);
    for item in items {
        let keys = prepared_keys(alloc, item)?;
        prepared.push(keys)?;
    }
    Ok(prepared)
}

#[cycle(preparing)]
fn prepared_keys(alloc: Global, keys: &DataSet) -> Result<PreparedKeys, AllocError>
    ensures { IfOk result (λ prepared. prepared ≡ keys.now) }
{
    let elements = prepared_elements(alloc, keys.elements())?;
    Ok(PreparedKeys {
        days: asked_days(keys),
        times: asked_times(keys),
        keys: elements,
    })
}
