//! Range matching of dates and of times (PS3.4 section C.2.2.2.5).
ghost use Rattle.std.specs.Prelude.{◌≡◌, option_map, nat_le, int_le};
ghost use Rattle.std.specs.Option.{option_copied};
ghost use Rattle.jiff.specs.Words.{epoch_day};
ghost use Rattle.dq_value.specs.Day.{day};
ghost use Rattle.dq_value.specs.Time.{span};
ghost use Rattle.dq_match.specs.Ranges.{bound, range_bounds, bounds, has_day, has_time, both, unless_open, date_meets, time_meets, is_from, is_until, is_in_range};
ghost use Rattle.dq_match.specs.DateBounds.{days_of};

use dq_value::{date_of, range_of, time_of};
use jiff::civil::Date;

/// The first and the last microsecond of a time.
pub(crate) type Span = (u64, u64);

/// The ends of a range, both included. An end that is left open sets no bound.
pub(crate) type Bounds<T> = (Option<T>, Option<T>);

fn date_bound(end: Option<&[u8]>) -> Option<Option<Date>>
    ensures { option_map (option_map epoch_day) result ≡ bound day (option_copied end.entry) }
{
    match end {
        Some(octets) => Some(Some(date_of(octets)?)),
        None => Some(None),
    }
}

fn time_bound(end: Option<&[u8]>) -> Option<Option<Span>>
    ensures { result ≡ bound span (option_copied end.entry) }
{
    match end {
        Some(octets) => Some(Some(time_of(octets)?)),
        None => Some(None),
    }
}

/// The days of a range of dates.
#[tactic(auto, unfolding(crate::specs::Ranges::range_bounds))]
pub(crate) fn date_range(octets: &[u8]) -> Option<Bounds<Date>>
    ensures { option_map days_of result ≡ range_bounds day octets.now }
{
    let (from, to) = range_of(octets)?;
    Some((date_bound(from)?, date_bound(to)?))
}

/// The times of a range of times.
#[tactic(auto, unfolding(crate::specs::Ranges::range_bounds))]
pub(crate) fn time_range(octets: &[u8]) -> Option<Bounds<Span>>
    ensures { result ≡ range_bounds span octets.now }
{
    let (from, to) = range_of(octets)?;
    Some((time_bound(from)?, time_bound(to)?))
}

/// The days of a date or of a range of dates.
#[tactic(auto, unfolding(crate::specs::Ranges::bounds))]
pub(crate) fn date_bounds(octets: &[u8]) -> Option<Bounds<Date>>
    ensures { option_map days_of result ≡ bounds day octets.now }
{
    if let Some((from, to)) = range_of(octets) {
        return Some((date_bound(from)?, date_bound(to)?));
    }
    let date = date_of(octets)?;
    Some((Some(date), Some(date)))
}

/// The times of a time or of a range of times.
#[tactic(auto, unfolding(crate::specs::Ranges::bounds))]
pub(crate) fn time_bounds(octets: &[u8]) -> Option<Bounds<Span>>
    ensures { result ≡ bounds span octets.now }
{
    if let Some((from, to)) = range_of(octets) {
        return Some((time_bound(from)?, time_bound(to)?));
    }
    let time = time_of(octets)?;
    Some((Some(time), Some(time)))
}

fn has_day(range: Bounds<Date>, date: Date) -> bool
    ensures { result ≡ has_day (days_of range) (epoch_day date) }
{
    let (first, last) = range;
    is_day_from(first, date) && is_day_until(last, date)
}

fn is_day_from(first: Option<Date>, date: Date) -> bool
    ensures { result ≡ unless_open (λ first. int_le first (epoch_day date))
        (option_map epoch_day first) }
{
    match first {
        Some(first) => first <= date,
        None => true,
    }
}

fn is_day_until(last: Option<Date>, date: Date) -> bool
    ensures { result ≡ unless_open (λ last. int_le (epoch_day date) last)
        (option_map epoch_day last) }
{
    match last {
        Some(last) => date <= last,
        None => true,
    }
}

fn is_time_from(first: Option<Span>, microsecond: u64) -> bool
    ensures { result ≡ unless_open (λ first. nat_le first.0 microsecond) first }
{
    match first {
        Some((start, _)) => start <= microsecond,
        None => true,
    }
}

fn is_time_until(last: Option<Span>, microsecond: u64) -> bool
    ensures { result ≡ unless_open (λ last. nat_le microsecond last.1) last }
{
    match last {
        Some((_, end)) => microsecond <= end,
        None => true,
    }
}

/// Whether the date of the record is the key's, or in its range.
pub(crate) fn is_date_met(range: Option<Bounds<Date>>, date: Option<Date>) -> bool
    ensures { result ≡ both has_day (option_map days_of range) (option_map epoch_day date) }
{
    match (range, date) {
        (Some(range), Some(date)) => has_day(range, date),
        _ => false,
    }
}

/// Whether the time of the record begins in the key's time, or in its range.
pub(crate) fn is_time_met(range: Option<Bounds<Span>>, time: Option<Span>) -> bool
    ensures { result ≡ both has_time range time }
{
    match (range, time) {
        (Some((first, last)), Some((start, _))) => {
            is_time_from(first, start) && is_time_until(last, start)
        }
        _ => false,
    }
}

/// Whether a value of the record meets a date or a range of dates.
#[tactic(auto, unfolding(crate::specs::Ranges::date_meets))]
pub(crate) fn date_meets(key: &[u8], value: &[u8]) -> bool
    ensures { result ≡ date_meets key.now value.now }
{
    is_date_met(date_bounds(key), date_of(value))
}

/// Whether a value of the record meets a time or a range of times.
#[tactic(auto, unfolding(crate::specs::Ranges::time_meets))]
pub(crate) fn time_meets(key: &[u8], value: &[u8]) -> bool
    ensures { result ≡ time_meets key.now value.now }
{
    is_time_met(time_bounds(key), time_of(value))
}

fn is_from(days: Option<Date>, times: Option<Span>, date: Date, microsecond: u64) -> bool
    ensures { result ≡ is_from (option_map epoch_day days) times (epoch_day date) microsecond }
{
    match days {
        Some(first) => first < date || (first == date && is_time_from(times, microsecond)),
        None => true,
    }
}

fn is_until(days: Option<Date>, times: Option<Span>, date: Date, microsecond: u64) -> bool
    ensures { result ≡ is_until (option_map epoch_day days) times (epoch_day date) microsecond }
{
    match days {
        Some(last) => date < last || (last == date && is_time_until(times, microsecond)),
        None => true,
    }
}

/// Whether a moment is in the period from the first day at the first time to the last day at the
/// last time (PS3.4 table K.6-1).
pub(crate) fn is_within(days: Bounds<Date>, times: Bounds<Span>, date: Date, time: Span) -> bool
    ensures { result ≡ is_in_range (days_of days) times (epoch_day date) time }
{
    let (first_day, last_day) = days;
    let (first_time, last_time) = times;
    is_from(first_day, first_time, date, time.0) && is_until(last_day, last_time, date, time.0)
}
