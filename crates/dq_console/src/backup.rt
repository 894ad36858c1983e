//! Copies of all rows, made while they are served.
ghost use Rattle.std.specs.Prelude.{List, OnOk};
ghost use Rattle.dq_tables.specs.declared.row.Row.{Row};
ghost use Rattle.dq_core.specs.Looking.{LeavesAlone};

use dq_config::Config;
use dq_core::TableInspection;
use dq_request::BackupError;
use dq_tables::{TableFault, Tables};
use std::alloc::Global;

/// A maker of copies of all rows of tables.
pub trait Backups<T: Tables> {
    /// The result of copying these rows.
    ghost copied: { Self → List Row → Type 0 };

    /// Copies all rows into a new file at a path. The tables stay as they are.
    fn backup(&self, alloc: Global, tables: &mut T, path: &str) -> Result<(), BackupError>
        ensures alone { LeavesAlone (T.state tables.old) (T.state tables.new) }
        ensures copied { (T.state tables.new).honest →
            OnOk result (copied self.now (T.state tables.old).rows) };
}

/// Copies of rows in memory, of which none is made.
#[derive(Clone, Copy)]
pub struct OfMemory;

impl<T: Tables> Backups<T> for OfMemory {
    ghost copied = { λ _ _. ⊥ };

    fn backup(&self, _alloc: Global, _tables: &mut T, _path: &str) -> Result<(), BackupError> {
        Err(BackupError::NoStore)
    }
}

/// A copy at a path. It is a look at the rows as they are between two events.
#[derive(Clone, Copy)]
pub struct Copying<'a, B> {
    pub backups: &'a B,
    pub alloc: Global,
    pub path: &'a str,
}

impl<T: Tables, B: Backups<T>> TableInspection<T> for Copying<'_, B> {
    ghost use Rattle.std.specs.Prelude.{OnOk};

    type Seen = Result<(), BackupError>;

    ghost shows = { λ it _ rows seen. OnOk seen (B.copied it.backups.now rows) };

    ghost may_fail = { λ _. ⊥ };

    fn look(&self, _config: &Config, tables: &mut T) -> Result<Self::Seen, TableFault> {
        Ok(self.backups.backup(self.alloc, tables, self.path))
    }
}
