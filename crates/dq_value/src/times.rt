//! Times of the day (PS3.5 section 6.2).
ghost use Rattle.std.specs.Prelude.{◌≡◌, ℕ, List, ◌<◌, ◌≤◌, ◌+◌, ◌^◌, length, IfSome, Some};
ghost use Rattle.dq_value.specs.Time.{Span, SpellsTime, span, span_from, field, hour_start, minute_start, second_start, hour_span, minute_span, second_span, fraction_span};

use crate::digits::number;

const HOUR: u64 = 3_600_000_000;

const MINUTE: u64 = 60_000_000;

const SECOND: u64 = 1_000_000;

/// The first and the last microsecond of the day that a TM value names (PS3.5 section 6.2): HH,
/// HHMM, HHMMSS or HHMMSS.F with one to six digits F, hours to 23, minutes to 59, seconds to 60.
/// Components left out at the end may be anything: 0900 is the whole minute.
#[tactic(auto, unfolding(crate::specs::Time::span, crate::specs::Time::hour_span, crate::specs::Time::minute_span, crate::specs::Time::second_span))]
pub fn time_of(octets: &[u8]) -> Option<(u64, u64)>
    ensures { result ≡ span octets.now }
{
    match octets.len() {
        2 => Some(span_from(hour_start(octets)?, HOUR)),
        4 => Some(span_from(minute_start(octets)?, MINUTE)),
        6 => Some(span_from(second_start(octets)?, SECOND)),
        8..=13 if octets[6] == b'.' => fraction_span(octets, octets.split_at(7).1),
        _ => None,
    }
}

/// A time is read as its span from its digits, and from nothing else.
pub fn time_law()
    ensures read { (octets : List ℕ) (found : Span) → SpellsTime octets found
        → span octets ≡ Some found }
    ensures only { (octets : List ℕ) (found : Span) → span octets ≡ Some found
        → SpellsTime octets found }
{}

fn span_from(first: u64, length: u64) -> (u64, u64)
    requires fits { first + length < 2 ^ 64 }
    requires some { 0 < length }
    ensures { Some result ≡ span_from first length }
{
    (first, first + length - 1)
}

#[tactic(auto, unfolding(crate::specs::Time::fraction_span))]
fn fraction_span(octets: &[u8], fraction: &[u8]) -> Option<(u64, u64)>
    requires whole { 6 ≤ length octets.now }
    requires few { length fraction.now < 7 }
    ensures { result ≡ fraction_span octets.now fraction.now }
{
    let start = second_start(octets)?;
    let parts = number(fraction)?;
    let unit = 10u64.pow(6 - fraction.len() as u32);
    Some(span_from(start + parts * unit, unit))
}

#[tactic(auto, unfolding(crate::specs::Time::second_start))]
fn second_start(octets: &[u8]) -> Option<u64>
    requires { 6 ≤ length octets.now }
    ensures value { result ≡ second_start octets.now }
    ensures bound { IfSome result (λ n. n < 2 ^ 40) }
{
    Some(minute_start(octets)? + field(octets, 4, 60)? * SECOND)
}

#[tactic(auto, unfolding(crate::specs::Time::minute_start))]
fn minute_start(octets: &[u8]) -> Option<u64>
    requires { 4 ≤ length octets.now }
    ensures value { result ≡ minute_start octets.now }
    ensures bound { IfSome result (λ n. n < 2 ^ 39) }
{
    Some(hour_start(octets)? + field(octets, 2, 59)? * MINUTE)
}

#[tactic(auto, unfolding(crate::specs::Time::hour_start))]
fn hour_start(octets: &[u8]) -> Option<u64>
    requires { 2 ≤ length octets.now }
    ensures value { result ≡ hour_start octets.now }
    ensures bound { IfSome result (λ n. n < 2 ^ 38) }
{
    Some(field(octets, 0, 23)? * HOUR)
}

/// The number of the two digits from a place on, up to a greatest number.
#[tactic(auto, unfolding(crate::specs::Time::field))]
fn field(octets: &[u8], place: usize, greatest: u64) -> Option<u64>
    requires { place + 2 ≤ length octets.now }
    ensures value { result ≡ field place greatest octets.now }
    ensures bound { IfSome result (λ n. n ≤ greatest) }
{
    let digits = octets.split_at(place).1.split_at(2).0;
    number(digits).filter(|n| *n <= greatest)
}
