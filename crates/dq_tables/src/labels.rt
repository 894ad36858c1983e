//! The patient and the day in the data set of a study.
ghost use Rattle.std.specs.Prelude.{◌≡◌, ◌+ℤ◌, ◌*ℤ◌, pos, unsigned_abs, IfOk};
ghost use Rattle.dq_value.specs.Day.{ymd_of};
ghost use Rattle.dq_tables.specs.Labels.{date_number, day_named, patient_in, day_in, patient_of, day_of};
ghost use Rattle.dq_tables.specs.declared.row.Kind.TheVariants.{Study};

use crate::row::{Kind, Row};
use dq_dataset::DataSet;
use dq_list::Listed;
use dq_value::date_of;
use dq_vr::tags;
use jiff::civil::Date;
use std::alloc::{AllocError, Global};

/// The patient and the day of a study. Rows of other kinds have neither.
#[derive(Drop)]
pub struct Labels {
    /// The only value of Patient ID (0010,0020), trimmed.
    pub patient: Option<Listed<u8>>,
    /// The only value of Study Date (0008,0020), where it is a date (PS3.5 section 6.2): YYYYMMDD as
    /// a number.
    pub day: Option<i64>,
}

impl Row {
    /// The patient and the day of a study, read from its data set.
    #[tactic(auto, unfolding(crate::specs::Labels::patient_of, crate::specs::Labels::day_of))]
    pub fn labels(&self, alloc: Global) -> Result<Labels, AllocError>
        ensures patient { IfOk result (λ labels. labels.patient ≡ patient_of self.now) }
        ensures day { IfOk result (λ labels. labels.day ≡ day_of self.now) }
    {
        match self.kind {
            Kind::Study => {
                let data_set = self.data_set(alloc)?;
                Ok(Labels {
                    patient: patient_in(alloc, &data_set)?,
                    day: day_in(&data_set),
                })
            }
            Kind::Series | Kind::Image | Kind::Entry | Kind::Step => Ok(Labels {
                patient: None,
                day: None,
            }),
        }
    }
}

fn patient_in(alloc: Global, data_set: &DataSet) -> Result<Option<Listed<u8>>, AllocError>
    ensures { IfOk result (λ patient. patient ≡ patient_in Study data_set.now) }
{
    match data_set.sole_value(tags::PATIENT_ID) {
        Some(patient) => Ok(Some(Listed::copy_of(alloc, patient)?)),
        None => Ok(None),
    }
}

fn day_in(data_set: &DataSet) -> Option<i64>
    ensures { result ≡ day_in Study data_set.now }
{
    let date = date_of(data_set.sole_value(tags::STUDY_DATE)?)?;
    Some(date_number(date))
}

/// The day that a value of VR DA names (PS3.5 section 6.2): YYYYMMDD as a number.
#[tactic(auto, unfolding(crate::specs::Labels::day_named))]
pub fn day_number(octets: &[u8]) -> Option<u32>
    ensures { result ≡ day_named octets.now }
{
    let date = date_of(octets)?;
    Some(date_number(date).unsigned_abs() as u32)
}

/// The date as the number that its digits YYYYMMDD are.
fn date_number(date: Date) -> i64
    ensures { result ≡ date_number (ymd_of date) }
{
    10_000 * i64::from(date.year()) + i64::from(number_in_year(date))
}

/// The number that the digits MMDD of a date are.
fn number_in_year(date: Date) -> i16
    ensures { result ≡ pos 100 *ℤ pos date.month +ℤ pos date.day }
{
    100 * i16::from(date.month()) + i16::from(date.day())
}
