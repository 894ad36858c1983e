//! Laws of tables over a store. Each function's contract is a law; its body does nothing.
ghost use Rattle.std.specs.Prelude.{◌≡◌, ◌≢◌, ℕ, List, [], ◌∷◌, map, false, Contains, IfOk, IfErr};
ghost use Rattle.sqlite_wal.specs.Files.{outcomes};
ghost use Rattle.sqlite_wal.specs.Reads.{AreClean};
ghost use Rattle.sqlite_wal.specs.Recovery.{Image};
ghost use Rattle.sqlite.specs.State.{HasCleanDisk, Opens};
ghost use Rattle.sqlite.specs.Files.{file_state};
ghost use Rattle.sqlite.specs.Start.{FindsIn};
ghost use Rattle.dq_tables.specs.declared.row.Row.{Row};
ghost use Rattle.dq_tables.specs.TableStates.{IsSettled};
ghost use Rattle.dq_tables.specs.Rows.{rows_named, IsRising};
ghost use Rattle.dq_tables.specs.Sound.{IsSound};
ghost use Rattle.dq_sql.specs.declared.fault.StoreFault.TheVariants.{WrongVersion, BadRows};
ghost use Rattle.dq_sql.specs.StoreCopies.{copied_rows};
ghost use Rattle.dq_sql.specs.MigratedRows.{migrated_rows, with_start};

use crate::fault::StoreFault;
use crate::memory_files::MemoryFile;
use crate::sql_tables::SqlTables;
use dq_tables::Tables;
use sqlite::{Connection, FileStore, Files, MemStore};
use sqlite_disk::Disk;
use std::alloc::Global;

/// Tables over files in memory are honest, whatever was asked of them.
pub fn tables_in_memory_are_honest(_tables: &SqlTables<FileStore<MemoryFile>>)
    ensures { (⟦<SqlTables<FileStore<MemoryFile>> as Tables>⟧.state _tables.now).honest }
{}

/// So are tables over the kit's own store in memory.
pub fn tables_over_trees_in_memory_are_honest(_tables: &SqlTables<MemStore>)
    ensures { (⟦<SqlTables<MemStore> as Tables>⟧.state _tables.now).honest }
{}

/// A migration leaves each row as it was and where it was, but that an entry is started which a kept
/// step of its institution names. No row is added.
#[tactic(auto, using(crate::proofs::StartedRows::migrated_is))]
pub fn migrated_rows_are_the_rows_with_started_entries()
    ensures { (rows : List Row) → IsRising rows → migrated_rows rows ≡ map (with_start rows) rows }
{}

/// A copy has all rows of each institution that is named, and of no other. Where none is named, it has
/// all rows. Rows that were sound are so in a copy.
pub fn copies_have_the_rows_of_those_named()
    ensures all { (rows : List Row) → copied_rows [] rows ≡ rows }
    ensures one { (name : List ℕ) (rows : List Row) →
        copied_rows (name ∷ []) rows ≡ rows_named name rows }
    ensures named { (names : List (List ℕ)) (name : List ℕ) (rows : List Row) →
        Contains names name → rows_named name (copied_rows names rows) ≡ rows_named name rows }
    ensures others { (names : List (List ℕ)) (name : List ℕ) (rows : List Row) → names ≢ [] →
        ¬ Contains names name → rows_named name (copied_rows names rows) ≡ [] }
    ensures sound { (names : List (List ℕ)) (rows : List Row) → IsSound rows →
        IsSound (copied_rows names rows) }
{}

/// The files that a crash leaves of tables are adopted. Let a connection be opened over files
/// that hold what a crash could leave of the files of tables. Then it is adopted with rows that a
/// crash could leave of the tables, and is refused neither as of another version nor for its
/// rows. A crash then leaves the rows that it has, and no others.
pub fn what_a_crash_leaves_is_adopted<D: Disk + Drop, E: Disk + Drop>(
    alloc: Global,
    tables: SqlTables<FileStore<D>>,
    conn: Connection<FileStore<E>>,
) -> (
    Files<D>,
    Result<SqlTables<FileStore<E>>, (StoreFault, Connection<FileStore<E>>)>,
)
    ensures honest { AreClean D.Disk result.0.log result.0.db
        → (⟦<SqlTables<FileStore<D>> as Tables>⟧.state tables).honest }
    ensures adopted { AreClean D.Disk result.0.log result.0.db → (image : Image)
        → outcomes D.Disk result.0.log result.0.db image
        → Opens (file_state conn) → FindsIn image (file_state conn)
        → ∥ ((rows : List Row)
        × (⟦<SqlTables<FileStore<D>> as Tables>⟧.state tables).may_leave rows
        × IfOk result.1 (λ t. (⟦<SqlTables<FileStore<E>> as Tables>⟧.state t).honest
        → (⟦<SqlTables<FileStore<E>> as Tables>⟧.state t).rows ≡ rows)
        × IfErr result.1 (λ e. HasCleanDisk (file_state e.1)
        → (e.0 ≢ WrongVersion) × (e.0 ≢ BadRows))) ∥₁ }
    ensures working { IfOk result.1 (λ t.
        (⟦<SqlTables<FileStore<E>> as Tables>⟧.state t).failed ≡ false) }
    ensures settled { IfOk result.1 (λ t. (⟦<SqlTables<FileStore<E>> as Tables>⟧.state t).honest
        → IsSettled (⟦<SqlTables<FileStore<E>> as Tables>⟧.state t)) }
{
    let files = tables.into_files();
    (files, SqlTables::adopt_lent(alloc, conn))
}
