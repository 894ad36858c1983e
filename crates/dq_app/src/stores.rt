//! Storage of rows: memory, and stores that are files.
ghost use Rattle.std.specs.Prelude.{◌≡◌, false, ℕ, List, [], length, map, IfOk, OnOk};
ghost use Rattle.dq_tables.specs.declared.row.Row.{Row};
ghost use Rattle.dq_core.specs.Looking.{LeavesAlone};
ghost use Rattle.dq_core.specs.Soundness.{HoldSound};

use crate::stop::Stop;
use dq_request::BackupError;
use dq_tables::Tables;
use std::alloc::Global;

/// The reason why a store could not be opened or made.
#[derive(Clone, Copy, Debug, PartialEq, Eq)]
pub enum OpenError {
    /// The number of what is wrong with the store: 2 where it cannot be opened, made or read, 3
    /// where it is of another version, 4 where its rows are bad.
    Store(u8),
    NoMemory,
}

/// The log of a store could not be copied into its database file. Nothing is lost: the two files
/// together hold the rows.
#[derive(Clone, Copy, Debug, PartialEq, Eq)]
pub struct Unclosed;

/// Storage of rows.
pub trait Stores {
    /// Rows in memory.
    type Memory: Tables + Drop;

    /// Rows in a file.
    type File: Tables + Drop;

    /// The store at a path holds these rows.
    ghost stored: { Self → List ℕ → List Row → Type 0 };

    /// The rows are those of the store of the version before at a path, migrated.
    ghost migrated: { Self → List ℕ → List Row → Type 0 };

    /// The rows are those of a copy of the store at a path: of the institutions of some names, or of
    /// all where there is no name.
    ghost copied: { Self → List ℕ → List (List ℕ) → List Row → Type 0 };

    /// The state once a store of these rows is closed.
    ghost closed: { Self → List Row → Type 0 };

    /// No rows, kept in memory.
    fn memory(&self, alloc: Global) -> Result<Self::Memory, OpenError>
        ensures rows { IfOk result (λ tables. (Self.Memory.state tables).rows ≡ []) }
        ensures failed { IfOk result (λ tables. (Self.Memory.state tables).failed ≡ false) };

    /// No rows, kept in a store that is made in a file.
    fn new_store(&self, alloc: Global, path: &str) -> Result<Self::File, OpenError>
        ensures rows { IfOk result (λ tables. (Self.File.state tables).rows ≡ []) }
        ensures failed { IfOk result (λ tables. (Self.File.state tables).failed ≡ false) };

    /// The rows of the store that a file holds. They are sound, and each holds a data set.
    fn store(&self, alloc: Global, path: &str) -> Result<Self::File, OpenError>
        ensures rows { IfOk result (λ tables. (Self.File.state tables).honest →
            (held : List Row) → stored self.now path.now held →
            (Self.File.state tables).rows ≡ held) }
        ensures sound { IfOk result (λ tables.
            (Self.File.state tables).honest → HoldSound (Self.File.state tables).rows) }
        ensures failed { IfOk result (λ tables. (Self.File.state tables).failed ≡ false) };

    /// The rows of a store of the version before, migrated to a store that is made in a file. The
    /// old store stays.
    fn migrate(&self, alloc: Global, from: &str, to: &str) -> Result<Self::File, OpenError>
        ensures { IfOk result (λ tables.
            migrated self.now from.now (Self.File.state tables).rows) };

    /// Makes a new store in a file of the rows of another one, and closes it: of the institutions of some
    /// names, or of all where none is named. The answer is how many rows they are. The old store stays.
    fn copy(
        &self,
        alloc: Global,
        from: &str,
        to: &str,
        only: &[&str],
    ) -> Result<Result<u64, Unclosed>, OpenError>
        ensures { IfOk result (λ ended. IfOk ended (λ count. (kept : List Row)
            × closed self.now kept
            × copied self.now from.now (map (λ name. name.now) only.now) kept
            × (length kept ≡ count))) };

    /// Copies all rows of a store into a new file at a path, and closes that. The store is only read,
    /// and its own files are not opened again.
    fn backup(&self, alloc: Global, tables: &mut Self::File, path: &str) -> Result<(), BackupError>
        ensures alone { LeavesAlone (Self.File.state tables.old) (Self.File.state tables.new) }
        ensures copied { (Self.File.state tables.new).honest →
            OnOk result (closed self.now (Self.File.state tables.old).rows) };

    /// Closes a store: its log is copied into the database file, which then has all rows alone.
    fn close(&self, tables: Self::File) -> Result<(), Unclosed>
        ensures { OnOk result (closed self.now (Self.File.state tables).rows) };

    /// Nothing but the program writes memory.
    ghost memory_is_honest: { (tables : Self.Memory) → (Self.Memory.state tables).honest };
}
