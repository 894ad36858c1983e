//! The patient and the day that a query at the level of studies asks for, which are kept beside a study's
//! data set.
ghost use Rattle.std.specs.Prelude.{◌≡◌, IfOk};
ghost use Rattle.std.specs.Option.{option_copied};
ghost use Rattle.dq_find.specs.StudyChoice.{patient_asked, choice_in};

use dq_dataset::DataSet;
use dq_match::is_plain;
use dq_tables::Choice;
use dq_vr::tags;
use std::alloc::{AllocError, Global};

/// The choice of studies in which all are that fit the keys.
#[tactic(auto, unfolding(crate::specs::StudyChoice::choice_in))]
pub(crate) fn choice_in(alloc: Global, keys: &DataSet) -> Result<Choice, AllocError>
    ensures { IfOk result (λ choice. choice ≡ choice_in keys.now) }
{
    let date = keys.sole_value(tags::STUDY_DATE);
    Choice::asking(alloc, None, patient_asked(keys), date)
}

/// The only patient that is asked for, without wild cards.
fn patient_asked(keys: &DataSet) -> Option<&[u8]>
    ensures { option_copied result ≡ patient_asked keys.now }
{
    let patient = keys.sole_value(tags::PATIENT_ID)?;
    if is_plain(patient) {
        Some(patient)
    } else {
        None
    }
}
