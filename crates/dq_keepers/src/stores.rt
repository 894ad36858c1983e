//! Stores in files of the machine: how they are made, opened, migrated, copied and closed.
ghost use Rattle.std.specs.Prelude.{◌≡◌, false, List, [], length, map, IfOk, OnOk};
ghost use Rattle.sqlite_wal.specs.Reads.{AreClean};
ghost use Rattle.sqlite.specs.Closing.{IsCopied};
ghost use Rattle.sqlite.specs.Files.{file_state};
ghost use Rattle.sqlite.specs.State.{HasCleanDisk};
ghost use Rattle.dq_tables.specs.declared.row.Row.{Row};
ghost use Rattle.dq_tables.specs.TableStates.{IsSettled};
ghost use Rattle.dq_core.specs.Looking.{LeavesAlone};
ghost use Rattle.dq_core.specs.Soundness.{HoldSound};
ghost use Rattle.dq_sql.specs.declared.version.Version.{Version};
ghost use Rattle.dq_keepers.specs.Closing.{HaveAlone, IsClosed};
ghost use Rattle.dq_keepers.specs.Contents.{HoldsRowsOf, ShowsRowsOf, AreHeld, AreCopied, AreMigrated};

use crate::copy_fault::CopyFault;
use crate::host_disk::{HostConnection, HostDisk, HostTables};
use crate::paths::{check_free, log_path, octets_at, tell_writing};
use dq_core::laws::rows_stay_sound;
use dq_counts::CountedTables;
use dq_sql::{MigrateFault, SqlTables, StoreFault};
use dq_tables::Tables;
use sqlite::{Error, Files};
use sqlite_disk::Disk;
use std::alloc::Global;

/// Makes a store without rows in new files. A crash then leaves no rows.
pub fn create_store<D: HostDisk>(
    rt: &HostRuntime,
    alloc: Global,
    path: &str,
) -> Result<HostTables<D>, StoreFault>
    ensures rows { IfOk result (λ t. (⟦<HostTables<D> as Tables>⟧.state t).rows ≡ []) }
    ensures failed { IfOk result (λ t. (⟦<HostTables<D> as Tables>⟧.state t).failed ≡ false) }
    ensures settled { IfOk result (λ t. (⟦<HostTables<D> as Tables>⟧.state t).honest
        → IsSettled (⟦<HostTables<D> as Tables>⟧.state t)) }
{
    let tables = SqlTables::open(alloc, D::open(rt, path)?)?;
    Ok(CountedTables::new(tables))
}

/// Opens a connection to files that are there. It shows the rows that they hold.
fn connect<D: HostDisk>(rt: &HostRuntime, path: &str) -> Result<HostConnection<D>, Error>
    ensures { (version : Version) (rows : List Row) → path.now ≡ D.place
        → HoldsRowsOf version D.contents rows → IfOk result (λ c.
        HasCleanDisk (file_state c) → ShowsRowsOf version (file_state c) rows) }
{
    D::open(rt, path)
}

/// Opens the store at a path, with the rows that its files hold: those that a crash left, as
/// `dq_sql::laws::what_a_crash_leaves_is_adopted` says of the run before. From then on a crash leaves
/// these rows and no others, until they are changed.
pub fn open_store<D: HostDisk>(
    rt: &HostRuntime,
    alloc: Global,
    path: &str,
) -> Result<HostTables<D>, StoreFault>
    ensures rows { IfOk result (λ t. (⟦<HostTables<D> as Tables>⟧.state t).honest
        → (rows : List Row) → path.now ≡ D.place → AreHeld D.contents rows
        → (⟦<HostTables<D> as Tables>⟧.state t).rows ≡ rows) }
    // Whatever the files hold, the rows are sound, and each holds a data set.
    ensures sound { IfOk result (λ t. (⟦<HostTables<D> as Tables>⟧.state t).honest
        → HoldSound (⟦<HostTables<D> as Tables>⟧.state t).rows) }
    ensures failed { IfOk result (λ t. (⟦<HostTables<D> as Tables>⟧.state t).failed ≡ false) }
    ensures settled { IfOk result (λ t. (⟦<HostTables<D> as Tables>⟧.state t).honest
        → IsSettled (⟦<HostTables<D> as Tables>⟧.state t)) }
{
    rows_stay_sound();
    octets_at(rt, path)?;
    let tables = SqlTables::adopt(alloc, connect(rt, path)?)?;
    Ok(CountedTables::new(tables))
}

/// Opens connections to the files of an old store and to those of a new one. The old ones are locked
/// while the new ones are opened, so that they cannot be the same.
fn connect_both<D: HostDisk>(
    rt: &HostRuntime,
    from: &str,
    to: &str,
) -> Result<(HostConnection<D>, HostConnection<D>), StoreFault>
    ensures { (version : Version) (rows : List Row) → from.now ≡ D.place
        → HoldsRowsOf version D.contents rows → IfOk result (λ both.
        HasCleanDisk (file_state both.0) → ShowsRowsOf version (file_state both.0) rows) }
{
    let old = connect(rt, from)?;
    let new = D::open(rt, to)?;
    Ok((old, new))
}

/// Makes a store in new files of the rows of a store of the version before, which stays.
pub fn migrate_store<D: HostDisk>(
    rt: &HostRuntime,
    alloc: Global,
    from: &str,
    to: &str,
) -> Result<HostTables<D>, MigrateFault>
    ensures { IfOk result (λ t. from.now ≡ D.place → AreMigrated D.Disk D.contents
        (⟦<HostTables<D> as Tables>⟧.state t).rows) }
{
    let octets = octets_at(rt, from)?;
    let (mut old, new) = connect_both(rt, from, to)?;
    tell_writing(rt, to, octets);
    match SqlTables::migrate_lent(alloc, &mut old, new) {
        Ok(tables) => Ok(CountedTables::new(tables)),
        Err((fault, _)) => Err(fault),
    }
}

/// Makes a store in new files of the rows of another one, and closes it: of the institutions of some
/// names, or of all where there is no name. The answer is how many rows they are. The other one stays.
pub fn copy_store<D: HostDisk>(
    rt: &HostRuntime,
    alloc: Global,
    from: &str,
    to: &str,
    only: &[&str],
) -> Result<Result<u64, StoreFault>, StoreFault>
    ensures { IfOk result (λ ended. IfOk ended (λ count. (kept : List Row)
        × IsClosed D.Disk kept
        × (from.now ≡ D.place → AreCopied D.Disk D.contents
        (map (λ name. name.now) only.now) kept)
        × (length kept ≡ count))) }
{
    let octets = octets_at(rt, from)?;
    let (mut old, new) = connect_both::<D>(rt, from, to)?;
    tell_writing(rt, to, octets);
    match SqlTables::copy_lent(alloc, &mut old, new, only) {
        Ok((tables, count)) => match close_store(CountedTables::new(tables)) {
            Ok(()) => Ok(Ok(count)),
            Err(fault) => Ok(Err(fault)),
        },
        Err((fault, _)) => Err(fault),
    }
}

/// Copies all rows of a store into new files at a path, and closes them. The store is only read.
pub fn back_up<D: HostDisk>(
    rt: &HostRuntime,
    alloc: Global,
    tables: &mut HostTables<D>,
    path: &str,
) -> Result<(), CopyFault>
    ensures alone { LeavesAlone (⟦<HostTables<D> as Tables>⟧.state tables.old)
        (⟦<HostTables<D> as Tables>⟧.state tables.new) }
    ensures copied { (⟦<HostTables<D> as Tables>⟧.state tables.new).honest
        → OnOk result (IsClosed D.Disk (⟦<HostTables<D> as Tables>⟧.state tables.old).rows) }
{
    let _files = write_copy(alloc, tables, connect_to_copy(rt, alloc, path)?)?;
    Ok(())
}

/// Copies all rows into the new store of a connection, and gives back its files, once it is closed.
/// The new database file then has all rows without the log.
fn write_copy<D: HostDisk>(
    alloc: Global,
    tables: &mut HostTables<D>,
    new: HostConnection<D>,
) -> Result<Files<D>, CopyFault>
    ensures alone { LeavesAlone (⟦<HostTables<D> as Tables>⟧.state tables.old)
        (⟦<HostTables<D> as Tables>⟧.state tables.new) }
    ensures copied { (⟦<HostTables<D> as Tables>⟧.state tables.new).honest
        → IfOk result (HaveAlone D.Disk (⟦<HostTables<D> as Tables>⟧.state tables.old).rows) }
{
    let filled = match tables.tables.copy_to(alloc, new) {
        Ok(filled) => filled,
        Err((fault, left)) => return Err(fault_of_copy(fault, left)),
    };
    match close_copy(filled) {
        Ok(files) => Ok(files),
        Err(error) => Err(CopyFault::from(error)),
    }
}

/// Copies the log of a store into its database file, and gives back the files.
fn close_copy<D: HostDisk>(filled: HostConnection<D>) -> Result<Files<D>, Error>
    ensures { IfOk result (λ files. AreClean D.Disk files.log files.db → IsCopied filled files) }
{
    match filled.close_files() {
        Ok(files) => Ok(files),
        Err((error, _)) => Err(error),
    }
}

/// Closes a store: its log is copied into the database file, which then has all rows without it.
pub fn close_store<D: HostDisk>(tables: HostTables<D>) -> Result<(), StoreFault>
    ensures { OnOk result (IsClosed D.Disk (⟦<HostTables<D> as Tables>⟧.state tables).rows) }
{
    let _files = tables.into_inner().close()?;
    Ok(())
}

/// Opens the files of a copy, if neither of them is there.
fn connect_to_copy<D: HostDisk>(
    rt: &HostRuntime,
    alloc: Global,
    path: &str,
) -> Result<HostConnection<D>, CopyFault> {
    check_free(rt, path)?;
    check_free(rt, log_path(alloc, path)?.as_str())?;
    Ok(D::open(rt, path)?)
}

/// Why a store is not made by a copy, of which this connection is left.
fn fault_of_copy<D: HostDisk>(fault: StoreFault, left: HostConnection<D>) -> CopyFault {
    let lacked_room = left.into_store().tally().refused > 0;
    match fault {
        StoreFault::NoMemory => CopyFault::NoMemory,
        _ if lacked_room => CopyFault::Full,
        _ => CopyFault::Failed,
    }
}
