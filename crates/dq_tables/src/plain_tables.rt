//! Rows in a vector are kept as every keeper keeps them.
use crate::change::Change;
use crate::choice::Choice;
use crate::fault::TableFault;
use crate::plain::PlainTables;
use crate::row::{Kind, Row};
use crate::scan;
use crate::tables::Tables;
use dq_list::Listed;
use std::alloc::Global;

impl Tables for PlainTables {
    ghost use Rattle.std.specs.Prelude.{false};

    ghost state = { λ t. record {
      rows = t.kept.items;
      honest = Unit {0};
      failed = false;
      may_leave = λ _. ⊥;
    } };

    ghost sound = { λ t _. record { rising = t.rising; own = t.own; held = t.held } };

    ghost left_sound = { λ _ _ _ left. absurd left };

    fn alloc(&self) -> Global {
        self.alloc
    }

    fn row(
        &mut self,
        kind: Kind,
        institution: &[u8],
        key: &[u8],
    ) -> Result<Option<Row>, TableFault> {
        Ok(scan::row_at(self.alloc, self.kept(), kind, institution, key)?)
    }

    fn rows_of(&mut self, kind: Kind, institution: &[u8]) -> Result<Listed<Row>, TableFault> {
        Ok(scan::rows_of(self.alloc, self.kept(), kind, institution)?)
    }

    fn rows_from(
        &mut self,
        kind: Kind,
        institution: &[u8],
        from: usize,
        most: usize,
    ) -> Result<Listed<Row>, TableFault> {
        let rows = scan::rows_of(self.alloc, self.kept(), kind, institution)?;
        Ok(scan::cut(rows, from, most))
    }

    fn rows_after(
        &mut self,
        kind: Kind,
        institution: &[u8],
        key: &[u8],
        most: usize,
    ) -> Result<Listed<Row>, TableFault> {
        let rows = scan::rows_after(self.alloc, self.kept(), kind, institution, key)?;
        Ok(scan::cut(rows, 0, most))
    }

    fn rows_above(
        &mut self,
        kind: Kind,
        institution: &[u8],
        above: &[u8],
    ) -> Result<Listed<Row>, TableFault> {
        Ok(scan::rows_above(self.alloc, self.kept(), kind, institution, above)?)
    }

    fn rows_above_after(
        &mut self,
        kind: Kind,
        institution: &[u8],
        above: &[u8],
        after: Option<&[u8]>,
        most: usize,
    ) -> Result<Listed<Row>, TableFault> {
        let rows = scan::rows_above(self.alloc, self.kept(), kind, institution, above)?;
        Ok(scan::cut(scan::behind(rows, after), 0, most))
    }

    fn few_studies_in(
        &mut self,
        institution: &[u8],
        choice: &Choice,
        _: usize,
    ) -> Result<Option<Listed<Row>>, TableFault> {
        let rows = scan::studies_in(self.alloc, self.kept(), institution, choice)?;
        Ok(Some(rows))
    }

    fn waiting_after(
        &mut self,
        institution: &[u8],
        after: Option<&[u8]>,
        most: usize,
    ) -> Result<Listed<Row>, TableFault> {
        let rows = scan::waiting(self.alloc, self.kept(), institution)?;
        Ok(scan::cut(scan::behind(rows, after), 0, most))
    }

    fn count(&mut self, kind: Kind, institution: &[u8]) -> Result<u64, TableFault> {
        Ok(scan::count_of(self.kept(), kind, institution))
    }

    fn count_above(
        &mut self,
        kind: Kind,
        institution: &[u8],
        above: &[u8],
    ) -> Result<u64, TableFault> {
        Ok(scan::count_above(self.kept(), kind, institution, above))
    }

    fn failed(&self) -> bool {
        false
    }

    fn apply(&mut self, change: &Change) -> Result<(), TableFault> {
        match change {
            Change::Stored {
                study,
                series,
                image,
            } => self.keep_stored(study, series, image)?,
            Change::EntryRemoved(institution, key) => self.remove_entry(
                institution.as_slice(),
                key.as_slice(),
            ),
            Change::EntryAdded(row) => self.keep(row)?,
            Change::StepAdded(row, keys) => self.keep_step(row, keys.as_slice())?,
            Change::StepChanged(row) => self.keep(row)?,
        }
        Ok(())
    }
}
