//! Dates (PS3.5 section 6.2).
ghost use Rattle.std.specs.Prelude.{◌≡◌, ℕ, List, Some, option_map};
ghost use Rattle.jiff.specs.Words.{epoch_day};
ghost use Rattle.dq_value.specs.Day.{Ymd, SpellsDate, ymd_of, date_in, day};

use crate::digits::number;
use jiff::civil::Date;

/// The date that a DA value names (PS3.5 section 6.2): eight digits YYYYMMDD of a day of the
/// Gregorian calendar, from 0000-01-01 to 9999-12-31. The year 0000 is a leap year. Spaces are no
/// part of a date.
#[tactic(auto, unfolding(crate::specs::Day::date_in, crate::specs::Day::digits_of_date, crate::specs::Day::day))]
pub fn date_of(octets: &[u8]) -> Option<Date>
    ensures ymd { option_map ymd_of result ≡ date_in octets.now }
    ensures day { option_map epoch_day result ≡ day octets.now }
{
    if octets.len() != 8 {
        return None;
    }
    let (year, others) = octets.split_at(4);
    let (month, day) = others.split_at(2);
    let year = number(year)?;
    let month = number(month)?;
    let day = number(day)?;
    Date::new(year as i16, month as i8, day as i8).ok()
}

/// A date is read from its digits YYYYMMDD, and from nothing else.
pub fn date_law()
    ensures read { (octets : List ℕ) (date : Ymd) → SpellsDate octets date
        → date_in octets ≡ Some date }
    ensures only { (octets : List ℕ) (date : Ymd) → date_in octets ≡ Some date
        → SpellsDate octets date }
{}
