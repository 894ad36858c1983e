//! Rows in a vector.
ghost use Rattle.std.specs.Prelude.{◌≡◌, [], map, true, false, OnOk, OnErr};
ghost use Rattle.dq_tables.specs.declared.change.Change.TheVariants.{Stored, StepAdded};
ghost use Rattle.dq_tables.specs.declared.row.Kind.TheVariants.{Entry};
ghost use Rattle.dq_tables.specs.Rows.{IsRising, Put, Remove, Start, record_of, after_edit, after_edits, after, operation_of};
ghost use Rattle.dq_tables.specs.Sound.{is_own_row, is_held, FitsStored, FitsStep, OwnEach, HeldEach, IsRising-prop, OwnEach-prop, HeldEach-prop};

use crate::put::{put, put_if, remove, start};
use crate::row::{Kind, Row};
use dq_list::Listed;
use std::alloc::{AllocError, Global};

/// Rows in one vector, in order of kind, institution and key. A reading call scans them. They never
/// answer `Store`.
#[derive(Drop)]
pub struct PlainTables {
    pub(crate) alloc: Global,
    kept: Vec<Row>,
    ghost rising: { IsRising kept.items } by { IsRising-prop kept.items },
    ghost own: { OwnEach kept.items } by { OwnEach-prop kept.items },
    ghost held: { HeldEach kept.items kept.items } by { HeldEach-prop kept.items kept.items },
}

impl PlainTables {
    /// Tables without rows. It takes no memory.
    #[tactic(auto, unfolding(crate::specs::Rows::IsRising))]
    pub fn new(alloc: Global) -> PlainTables
        ensures rows { (⟦<PlainTables as crate::tables::Tables>⟧.state result).rows ≡ [] }
        ensures honest { (⟦<PlainTables as crate::tables::Tables>⟧.state result).honest }
        ensures failed { (⟦<PlainTables as crate::tables::Tables>⟧.state result).failed ≡ false }
    {
        PlainTables {
            alloc,
            kept: Vec::new(alloc),
        }
    }

    pub(crate) fn kept(&self) -> &[Row]
        ensures { result.now ≡ self.now.kept.items }
    {
        self.kept.as_slice()
    }

    /// Puts a copy of a row in its place. Want of memory changes nothing.
    pub(crate) fn keep(&mut self, row: &Row) -> Result<(), AllocError>
        requires own { is_own_row row.now ≡ true }
        requires held { is_held self.old.kept.items row.now.kind row.now.inst row.now.above ≡ true }
        ensures ok { OnOk result (self.new.kept.items
            ≡ after_edit row.now.inst (Put (record_of row.now)) self.old.kept.items) }
        ensures err { OnErr result (self.new.kept.items ≡ self.old.kept.items) }
    {
        let row = row.copied(self.alloc)?;
        self.kept.reserve(1)?;
        put(&mut self.kept, row);
        Ok(())
    }

    /// Puts copies of an image, and of its study and its series where they are new, in their
    /// places. Want of memory changes nothing.
    pub(crate) fn keep_stored(
        &mut self,
        study: &Option<Row>,
        series: &Option<Row>,
        image: &Row,
    ) -> Result<(), AllocError>
        requires { FitsStored self.old.kept.items study.now series.now image.now }
        ensures ok { OnOk result (self.new.kept.items
            ≡ after (operation_of (Stored study.now series.now image.now)) self.old.kept.items) }
        ensures err { OnErr result (self.new.kept.items ≡ self.old.kept.items) }
    {
        let study = Row::copied_if(self.alloc, study)?;
        let series = Row::copied_if(self.alloc, series)?;
        let image = image.copied(self.alloc)?;
        self.kept.reserve(3)?;
        put_if(&mut self.kept, study);
        put_if(&mut self.kept, series);
        put(&mut self.kept, image);
        Ok(())
    }

    /// Puts a copy of a new step in its place, and starts entries of its institution. Want of
    /// memory changes nothing.
    pub(crate) fn keep_step(&mut self, step: &Row, keys: &[Listed<u8>]) -> Result<(), AllocError>
        requires { FitsStep self.old.kept.items step.now keys.now }
        ensures ok { OnOk result (self.new.kept.items
            ≡ after (operation_of (StepAdded step.now keys.now)) self.old.kept.items) }
        ensures err { OnErr result (self.new.kept.items ≡ self.old.kept.items) }
    {
        self.keep(step)?;
        self.start_each(step.inst.as_slice(), keys);
        Ok(())
    }

    /// Starts the entries with keys.
    fn start_each(&mut self, institution: &[u8], keys: &[Listed<u8>])
        ensures { self.new.kept.items
            ≡ after_edits institution.now (map Start keys.now) self.old.kept.items }
    {
        for key in keys {
            self.start_entry(institution, key.as_slice());
        }
    }

    /// Starts an entry.
    fn start_entry(&mut self, institution: &[u8], key: &[u8])
        ensures { self.new.kept.items ≡ after_edit institution.now (Start key.now)
            self.old.kept.items }
    {
        start(&mut self.kept, institution, key);
    }

    /// Removes an entry.
    pub(crate) fn remove_entry(&mut self, institution: &[u8], key: &[u8])
        ensures { self.new.kept.items ≡ after_edit institution.now (Remove Entry key.now)
            self.old.kept.items }
    {
        remove(&mut self.kept, Kind::Entry, institution, key);
    }
}
