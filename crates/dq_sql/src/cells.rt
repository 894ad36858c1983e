//! The columns in which a store says the patient and the day of a study.
ghost use Rattle.std.specs.Prelude.{◌≡◌, IfOk};
ghost use Rattle.sqlite_value.specs.declared.value.Value.TheVariants.{Int, Blob};
ghost use Rattle.sqlite.specs.Values.{or_null};
ghost use Rattle.dq_sql.specs.Cells.{patient_cell, day_cell};

use dq_tables::{Labels, Row};
use std::alloc::{AllocError, Global};

/// The patient and the day of a row, where its kind has them.
#[derive(Drop)]
pub(crate) struct Cells {
    pub(crate) patient: Option<Vec<u8>>,
    pub(crate) day: Option<i64>,
}

impl Cells {
    /// The cells of a row.
    #[tactic(auto, unfolding(crate::specs::Cells::patient_cell, crate::specs::Cells::day_cell))]
    pub(crate) fn of(alloc: Global, row: &Row) -> Result<Cells, AllocError>
        ensures patient { IfOk result
            (λ cells. or_null (λ octets. Blob octets.items) cells.patient ≡ patient_cell row.now) }
        ensures day { IfOk result (λ cells. or_null Int cells.day ≡ day_cell row.now) }
    {
        let Labels { patient, day } = row.labels(alloc)?;
        let patient = patient.map(|octets| octets.into_inner());
        Ok(Cells { patient, day })
    }
}
