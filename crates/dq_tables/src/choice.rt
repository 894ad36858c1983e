//! Studies chosen by what is kept of them beside their octets.
ghost use Rattle.std.specs.Prelude.{◌≡◌, true, pos, int_le, filter, IsFalse, IfOk};
ghost use Rattle.std.specs.Str.{bytes_eq};
ghost use Rattle.dq_tables.specs.StudyChoices.{has_asked_key, is_open_or, has_labels, is_chosen};
ghost use Rattle.dq_tables.specs.Rows.{record_of};

use crate::labels::Labels;
use crate::row::Row;
use dq_list::Listed;
use std::alloc::{AllocError, Global};

/// Which studies of an institution are asked for. A part that is `None` asks nothing, and a study
/// that does not say its patient, or its day, by one value meets what is asked of it.
#[derive(Drop)]
pub struct Choice {
    /// The key.
    pub uid: Option<Listed<u8>>,
    /// The only value of Patient ID (0010,0020), trimmed.
    pub patient: Option<Listed<u8>>,
    /// The first day that the only value of Study Date (0008,0020) may be: YYYYMMDD as a number.
    pub first_day: Option<u32>,
    /// The last day, itself included.
    pub last_day: Option<u32>,
}

impl Choice {
    /// Whether the choice takes a study. What asks no more than the key reads no data set.
    #[tactic(auto, unfolding(crate::specs::StudyChoices::is_chosen, crate::specs::Labels::patient_of, crate::specs::Labels::day_of))]
    pub(crate) fn takes(&self, alloc: Global, row: &Row) -> Result<bool, AllocError>
        ensures { IfOk result (λ taken. taken ≡ is_chosen self.now (record_of row.now)) }
    {
        if !self.has_key(row.key.as_slice()) {
            return Ok(false);
        }
        if !self.asks_labels() {
            return Ok(true);
        }
        let labels = row.labels(alloc)?;
        Ok(self.has_labels(&labels))
    }

    /// Returns the studies that the choice takes, in the same order.
    pub fn among(&self, alloc: Global, studies: Listed<Row>) -> Result<Listed<Row>, AllocError>
        ensures { IfOk result (λ taken.
            taken ≡ filter (λ row. is_chosen self.now (record_of row)) studies) }
    {
        let mut taken = Listed::empty(alloc);
        for study in studies.into_inner() {
            if self.takes(alloc, &study)? {
                taken.push(study)?;
            }
        }
        Ok(taken)
    }

    fn has_key(&self, key: &[u8]) -> bool
        ensures { result ≡ has_asked_key self.now key.now }
    {
        match &self.uid {
            Some(uid) => key == uid.as_slice(),
            None => true,
        }
    }

    fn asks_labels(&self) -> bool
        ensures { IsFalse result → (patient : _) (day : _) → has_labels self.now patient day ≡ true }
    {
        self.patient.is_some() || self.first_day.is_some() || self.last_day.is_some()
    }

    fn has_labels(&self, labels: &Labels) -> bool
        ensures { result ≡ has_labels self.now labels.now.patient labels.now.day }
    {
        self.has_patient(labels) && self.is_from(labels.day) && self.is_until(labels.day)
    }

    fn has_patient(&self, labels: &Labels) -> bool
        ensures { result ≡ is_open_or bytes_eq self.now.patient labels.now.patient }
    {
        match (&self.patient, &labels.patient) {
            (Some(asked), Some(patient)) => asked.as_slice() == patient.as_slice(),
            _ => true,
        }
    }

    fn is_from(&self, day: Option<i64>) -> bool
        ensures { result ≡ is_open_or (λ first day. int_le (pos first) day) self.now.first_day day }
    {
        match (self.first_day, day) {
            (Some(first), Some(day)) => i64::from(first) <= day,
            _ => true,
        }
    }

    fn is_until(&self, day: Option<i64>) -> bool
        ensures { result ≡ is_open_or (λ last day. int_le day (pos last)) self.now.last_day day }
    {
        match (self.last_day, day) {
            (Some(last), Some(day)) => day <= i64::from(last),
            _ => true,
        }
    }
}
