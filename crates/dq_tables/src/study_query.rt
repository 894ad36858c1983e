//! The key, the patient and the day that a query of studies asks for.
ghost use Rattle.std.specs.Prelude.{◌≡◌, IfOk, option_and_then};
ghost use Rattle.std.specs.Option.{option_copied};
ghost use Rattle.dq_tables.specs.Labels.{day_named};
ghost use Rattle.dq_tables.specs.StudyQuery.{days_asked, choice_asking};

use crate::choice::Choice;
use crate::labels::day_number;
use dq_list::Listed;
use dq_value::range_of;
use std::alloc::{AllocError, Global};

impl Choice {
    /// The choice by one value of each key: of the unique key, of the patient's id, and of a date
    /// key, which is one date or one range of dates (PS3.4 section C.2.2.2.5).
    pub fn asking(
        alloc: Global,
        uid: Option<&[u8]>,
        patient: Option<&[u8]>,
        date: Option<&[u8]>,
    ) -> Result<Choice, AllocError>
        ensures { IfOk result (λ choice. choice ≡ choice_asking (option_copied uid.entry)
            (option_copied patient.entry) (option_copied date.entry)) }
    {
        let (first_day, last_day) = days_asked(date);
        Ok(Choice {
            uid: copy_of(alloc, uid)?,
            patient: copy_of(alloc, patient)?,
            first_day,
            last_day,
        })
    }
}

fn copy_of(alloc: Global, octets: Option<&[u8]>) -> Result<Option<Listed<u8>>, AllocError>
    ensures { IfOk result (λ copy. copy ≡ option_copied octets.entry) }
{
    match octets {
        Some(octets) => Ok(Some(Listed::copy_of(alloc, octets)?)),
        None => Ok(None),
    }
}

/// The first and the last day that are asked for, by one date or by one range of dates.
fn days_asked(date: Option<&[u8]>) -> (Option<u32>, Option<u32>)
    ensures { result ≡ days_asked (option_copied date.entry) }
{
    let Some(date) = date else {
        return (None, None);
    };
    match range_of(date) {
        Some((first, last)) => (day_at(first), day_at(last)),
        None => (day_number(date), day_number(date)),
    }
}

/// The day at an end of a range.
fn day_at(end: Option<&[u8]>) -> Option<u32>
    ensures { result ≡ option_and_then day_named (option_copied end.entry) }
{
    day_number(end?)
}
