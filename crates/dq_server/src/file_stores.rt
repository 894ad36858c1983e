//! Stores in files, and those of the program.
ghost use Rattle.std.specs.Prelude.{◌≡◌, false, ℕ, List, [], length, map, IfOk, OnOk};
ghost use Rattle.dq_tables.specs.declared.row.Row.{Row};
ghost use Rattle.dq_core.specs.Looking.{LeavesAlone};
ghost use Rattle.dq_core.specs.Soundness.{HoldSound};

use dq_app::{OpenError, Unclosed};
use dq_keepers::{
    AnyFiles, CopyFault, HostDisk, HostTables, back_up, close_store, copy_store, create_store,
    migrate_store, open_store,
};
use dq_request::BackupError;
use dq_sql::{MigrateFault, StoreFault};
use dq_tables::Tables;
use sqlite::FileFrom;
use sqlite_disk::Disk;
use std::alloc::Global;

/// Stores in files. The functions are those of `Stores`, with the runtime.
pub trait FileStores {
    /// Rows in the files of a store.
    type Kept: Tables + Drop;

    /// The store at a path holds these rows.
    ghost stored: { List ℕ → List Row → Type 0 };

    /// The rows are those of the store of the version before at a path, migrated.
    ghost migrated: { List ℕ → List Row → Type 0 };

    /// The rows are those of a copy of the store at a path: of the institutions of some names, or of
    /// all where there is no name.
    ghost copied: { List ℕ → List (List ℕ) → List Row → Type 0 };

    /// The state once a store of these rows is closed.
    ghost closed: { List Row → Type 0 };

    fn create(rt: &HostRuntime, alloc: Global, path: &str) -> Result<Self::Kept, OpenError>
        ensures rows { IfOk result (λ tables. (Self.Kept.state tables).rows ≡ []) }
        ensures failed { IfOk result (λ tables. (Self.Kept.state tables).failed ≡ false) };

    fn open(rt: &HostRuntime, alloc: Global, path: &str) -> Result<Self::Kept, OpenError>
        ensures rows { IfOk result (λ tables. (Self.Kept.state tables).honest →
            (held : List Row) → stored path.now held → (Self.Kept.state tables).rows ≡ held) }
        ensures sound { IfOk result (λ tables.
            (Self.Kept.state tables).honest → HoldSound (Self.Kept.state tables).rows) }
        ensures failed { IfOk result (λ tables. (Self.Kept.state tables).failed ≡ false) };

    fn migrate(
        rt: &HostRuntime,
        alloc: Global,
        from: &str,
        to: &str,
    ) -> Result<Self::Kept, OpenError>
        ensures rows { IfOk result (λ tables. migrated from.now (Self.Kept.state tables).rows) };

    fn copy(
        rt: &HostRuntime,
        alloc: Global,
        from: &str,
        to: &str,
        only: &[&str],
    ) -> Result<Result<u64, Unclosed>, OpenError>
        ensures kept { IfOk result (λ ended. IfOk ended (λ count. (kept : List Row)
            × closed kept
            × copied from.now (map (λ name. name.now) only.now) kept
            × (length kept ≡ count))) };

    fn back_up(
        rt: &HostRuntime,
        alloc: Global,
        tables: &mut Self::Kept,
        path: &str,
    ) -> Result<(), BackupError>
        ensures alone { LeavesAlone (Self.Kept.state tables.old) (Self.Kept.state tables.new) }
        ensures copied { (Self.Kept.state tables.new).honest →
            OnOk result (closed (Self.Kept.state tables.old).rows) };

    fn close(tables: Self::Kept) -> Result<(), Unclosed>
        ensures closed { OnOk result (closed (Self.Kept.state tables).rows) };
}

/// Why there is no store.
fn open_error(fault: StoreFault) -> OpenError {
    match fault {
        StoreFault::NoMemory => OpenError::NoMemory,
        other => OpenError::Store(other.number()),
    }
}

/// Why a store is not migrated.
fn migrate_error(fault: MigrateFault) -> OpenError {
    match fault {
        MigrateFault::NoMemory => OpenError::NoMemory,
        other => OpenError::Store(other.number()),
    }
}

/// Why a store is not copied.
fn backup_error(fault: CopyFault) -> BackupError {
    match fault {
        CopyFault::Taken => BackupError::Taken,
        CopyFault::Full => BackupError::Full,
        CopyFault::Failed => BackupError::Failed,
        CopyFault::NoMemory => BackupError::NoMemory,
    }
}

/// The stores of the program: those at some path, which hold what they hold. It is a type without
/// parameters, since the prover meets a limit where `perform` is called on a machine with this type of
/// rows.
pub struct ProgramStores;

impl FileStores for ProgramStores {
    ghost use Rattle.std.specs.Prelude.{◌≡◌};
    ghost use Rattle.dq_keepers.specs.Closing.{IsClosed};
    ghost use Rattle.dq_keepers.specs.Contents.{AreCopied, AreMigrated, AreHeld};

    type Kept = HostTables<FileFrom<AnyFiles>>;

    ghost stored = { λ path rows. (path ≡ ⟦<FileFrom<AnyFiles> as HostDisk>⟧.place)
        × AreHeld ⟦<FileFrom<AnyFiles> as HostDisk>⟧.contents rows };

    ghost migrated = { λ from kept. from ≡ ⟦<FileFrom<AnyFiles> as HostDisk>⟧.place →
        AreMigrated ⟦<FileFrom<AnyFiles> as Disk>⟧
        ⟦<FileFrom<AnyFiles> as HostDisk>⟧.contents kept };

    ghost copied = { λ from names kept. from ≡ ⟦<FileFrom<AnyFiles> as HostDisk>⟧.place →
        AreCopied ⟦<FileFrom<AnyFiles> as Disk>⟧
        ⟦<FileFrom<AnyFiles> as HostDisk>⟧.contents names kept };

    ghost closed = { λ rows. IsClosed ⟦<FileFrom<AnyFiles> as Disk>⟧ rows };

    fn create(rt: &HostRuntime, alloc: Global, path: &str) -> Result<Self::Kept, OpenError> {
        match create_store(rt, alloc, path) {
            Ok(tables) => Ok(tables),
            Err(fault) => Err(open_error(fault)),
        }
    }

    fn open(rt: &HostRuntime, alloc: Global, path: &str) -> Result<Self::Kept, OpenError> {
        match open_store(rt, alloc, path) {
            Ok(tables) => Ok(tables),
            Err(fault) => Err(open_error(fault)),
        }
    }

    fn migrate(
        rt: &HostRuntime,
        alloc: Global,
        from: &str,
        to: &str,
    ) -> Result<Self::Kept, OpenError> {
        match migrate_store(rt, alloc, from, to) {
            Ok(tables) => Ok(tables),
            Err(fault) => Err(migrate_error(fault)),
        }
    }

    fn copy(
        rt: &HostRuntime,
        alloc: Global,
        from: &str,
        to: &str,
        only: &[&str],
    ) -> Result<Result<u64, Unclosed>, OpenError> {
        match copy_store::<FileFrom<AnyFiles>>(rt, alloc, from, to, only) {
            Ok(Ok(count)) => Ok(Ok(count)),
            Ok(Err(_)) => Ok(Err(Unclosed)),
            Err(fault) => Err(open_error(fault)),
        }
    }

    fn back_up(
        rt: &HostRuntime,
        alloc: Global,
        tables: &mut Self::Kept,
        path: &str,
    ) -> Result<(), BackupError> {
        match back_up(rt, alloc, tables, path) {
            Ok(()) => Ok(()),
            Err(fault) => Err(backup_error(fault)),
        }
    }

    fn close(tables: Self::Kept) -> Result<(), Unclosed> {
        match close_store(tables) {
            Ok(()) => Ok(()),
            Err(_) => Err(Unclosed),
        }
    }
}
