//! Keys without items, whose values are read once for all records (PS3.4 section C.2.2.2).
ghost use Rattle.std.specs.Prelude.{◌≡◌, List, ℕ, map, option_map, IfOk};
ghost use Rattle.std.specs.List.{list_any};
ghost use Rattle.dq_value.specs.Day.{day};
ghost use Rattle.dq_value.specs.Time.{span};
ghost use Rattle.dq_value.specs.Parts.{element_values};
ghost use Rattle.dq_match.specs.Ranges.{bounds, both, has_day, has_time};
ghost use Rattle.dq_match.specs.DateBounds.{days_of};
ghost use Rattle.dq_match.specs.Values.{matching_of, is_met_by_value, some_meet, octets_meet};
ghost use Rattle.dq_match.specs.Takes.{AreTaken};

use crate::ranges::{Bounds, Span, date_bounds, is_date_met, is_time_met, time_bounds};
use crate::several_values::in_order;
use crate::values::{Matching, has_no_values, is_universal, some_key_met};
use dq_list::Listed;
use dq_value::{Parts, date_of, time_of, values};
use dq_vr::Vr;
use jiff::civil::Date;
use std::alloc::{AllocError, Global};
use std::collections::BTreeSet;
use std::marker::Model;

/// The values of a key as they are looked at: those that are met by equality in the order of their
/// octets, dates and times as their bounds, and patterns as they are.
#[derive(Drop)]
pub(crate) enum KeyValues {
    Equal(BTreeSet<Vec<u8>>),
    Dates(Listed<Option<Bounds<Date>>>),
    Times(Listed<Option<Bounds<Span>>>),
    Patterns,
}

/// A key without items.
#[derive(Drop)]
pub(crate) struct ValueKey {
    vr: Vr,
    octets: Listed<u8>,
    universal: bool,
    values: KeyValues,
}

impl Model for ValueKey {
    ghost use Rattle.std.specs.Prelude.{◌≡◌, List, ℕ};
    ghost use Rattle.dq_vr.specs.declared.Vr.{Vr};

    ghost Value = { Vr × List ℕ };

    ghost use Rattle.dq_match.specs.Values.{is_universal};
    ghost use Rattle.dq_match.specs.Takes.{AreTaken};

    ghost view = { λ k. (k.vr, k.octets) };

    ghost invariant = { λ k. (k.universal ≡ is_universal k.vr k.octets) × AreTaken k.vr k.octets k.values };
}

/// The bounds of each date or range of dates.
fn dates(alloc: Global, vr: Vr, octets: &[u8]) -> Result<Listed<Option<Bounds<Date>>>, AllocError>
    ensures { IfOk result (λ ranges. map (option_map days_of) ranges
        ≡ map (bounds day) (element_values vr octets.now)) }
{
    let mut ranges = Listed::empty(alloc);
    let mut all = values(vr, octets);
    while let Some(value) = all.next() {
        ranges.push(date_bounds(value))?;
    }
    Ok(ranges)
}

/// The bounds of each time or range of times.
fn times(alloc: Global, vr: Vr, octets: &[u8]) -> Result<Listed<Option<Bounds<Span>>>, AllocError>
    ensures { IfOk result (λ ranges. ranges ≡ map (bounds span) (element_values vr octets.now)) }
{
    let mut ranges = Listed::empty(alloc);
    let mut all = values(vr, octets);
    while let Some(value) = all.next() {
        ranges.push(time_bounds(value))?;
    }
    Ok(ranges)
}

fn some_has_date(ranges: &[Option<Bounds<Date>>], value: &[u8]) -> bool
    ensures { result ≡ list_any (λ range. both has_day (option_map days_of range) (day value.now))
        ranges.now }
{
    let date = date_of(value);
    ranges.iter().any(|range| is_date_met(*range, date))
}

fn some_has_time(ranges: &[Option<Bounds<Span>>], value: &[u8]) -> bool
    ensures { result ≡ list_any (λ range. both has_time range (span value.now)) ranges.now }
{
    let time = time_of(value);
    ranges.iter().any(|range| is_time_met(*range, time))
}

impl KeyValues {
    fn of(alloc: Global, vr: Vr, octets: &[u8]) -> Result<KeyValues, AllocError>
        ensures { IfOk result (λ values. AreTaken vr octets.now values) }
    {
        let matching = Matching::of(vr);
        if matching.is_by_equality(vr, octets) {
            return Ok(KeyValues::Equal(in_order(alloc, vr, octets)?));
        }
        match matching {
            Matching::Date => Ok(KeyValues::Dates(dates(alloc, vr, octets)?)),
            Matching::Time => Ok(KeyValues::Times(times(alloc, vr, octets)?)),
            _ => Ok(KeyValues::Patterns),
        }
    }
}

impl ValueKey {
    pub(crate) fn of(alloc: Global, vr: Vr, octets: &[u8]) -> Result<ValueKey, AllocError>
        ensures { IfOk result (λ key. key ≡ (vr, octets.now)) }
    {
        Ok(ValueKey {
            vr,
            octets: Listed::copy_of(alloc, octets)?,
            universal: is_universal(vr, octets),
            values: KeyValues::of(alloc, vr, octets)?,
        })
    }

    /// Whether some value of the key is met by a record's one.
    fn takes(&self, value: &[u8]) -> bool
        ensures { result ≡ is_met_by_value (matching_of self.now.0) (element_values self.now.0 self.now.1)
            value.now }
    {
        match &self.values {
            KeyValues::Equal(set) => set.contains(value),
            KeyValues::Dates(ranges) => some_has_date(ranges.as_slice(), value),
            KeyValues::Times(ranges) => some_has_time(ranges.as_slice(), value),
            KeyValues::Patterns => {
                let keys = values(self.vr, self.octets.as_slice());
                some_key_met(Matching::of(self.vr), keys, value)
            }
        }
    }

    fn takes_some(&self, mut held: Parts) -> bool
        ensures { result ≡ some_meet (matching_of self.now.0) (element_values self.now.0 self.now.1)
            held.entry }
    {
        while let Some(value) = held.next() {
            if self.takes(value) {
                return true;
            }
        }
        false
    }

    /// Whether the octets of a record's element meet the key.
    #[tactic(auto, unfolding(crate::specs::Values::octets_meet))]
    pub(crate) fn is_met_by(&self, held: &[u8]) -> bool
        ensures { result ≡ octets_meet self.now.0 self.now.1 held.now }
    {
        self.universal || has_no_values(self.vr, held) || self.takes_some(values(self.vr, held))
    }
}
