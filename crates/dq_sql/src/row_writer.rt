//! Rows written to the tables of a connection.
ghost use Rattle.std.specs.Prelude.{◌≡◌, ℕ, false, IsTrue, Ok, OnOk, OnErr};
ghost use Rattle.sqlite.specs.State.{HasCleanDisk, KeepsCommit, Survives, ExecutesInside};
ghost use Rattle.sqlite.specs.Held.{state};
ghost use Rattle.sqlite.specs.Values.{or_null};
ghost use Rattle.sqlite_value.specs.declared.value.Value.TheVariants.{Int, Blob};
ghost use Rattle.dq_sql.specs.Cells.{patient_cell, day_cell, columns_of};
ghost use Rattle.dq_sql.specs.RowWrites.{AddsRow, AddsIf, Replaces, Removes, Starts, StartsEach, MakesChange};
ghost use Rattle.dq_sql.specs.RowWrites.{TransactionGoesOn, StatementRan, IsMade, IsUndone, Commits};
ghost use Rattle.dq_tables.specs.declared.change.Change.TheVariants.{Stored, StepAdded};

use crate::cells::Cells;
use crate::row_reader::fault_of;
use dq_list::Listed;
use dq_tables::{Change, Kind, Row, TableFault};
use sqlite::types::{ToSql, ValueRef};
use sqlite::{Alter, Connection, Transaction};
use std::alloc::Global;

/// Runs a statement whose parameters are the columns of a row.
fn run<'a, S: Alter>(
    tx: &mut Transaction<'_, S>,
    statement: &str,
    row: &'a Row,
    cells: &'a Cells,
) -> Result<(), TableFault>
    requires patient { or_null (λ v. Blob v.items) cells.now.patient ≡ patient_cell row.now }
    requires day { or_null Int cells.now.day ≡ day_cell row.now }
    ensures same_reference { tx.new.conn.ghost_name ≡ tx.old.conn.ghost_name }
    ensures runs { HasCleanDisk (state S.Store tx.new.conn.now)
        → IsTrue (state S.Store tx.old.conn.now).in_transaction
        → OnOk result ((count : ℕ) × ExecutesInside 0 statement.now (columns_of row.now)
        (state S.Store tx.old.conn.now) (state S.Store tx.new.conn.now) (Ok count)) }
    ensures kept { HasCleanDisk (state S.Store tx.new.conn.now)
        → IsTrue (state S.Store tx.old.conn.now).in_transaction
        → KeepsCommit (state S.Store tx.old.conn.now) (state S.Store tx.new.conn.now) }
    ensures survives { Survives (state S.Store tx.old.conn.now) (state S.Store tx.new.conn.now)
        (λ _. ⊥) }
{
    let ran = tx.execute(
        statement,
        &[
            u32::from(row.kind.number()).to_sql(),
            ValueRef::Text(row.inst.as_slice()),
            row.key.as_slice().to_sql(),
            row.above.as_slice().to_sql(),
            (&cells.patient).to_sql(),
            cells.day.to_sql(),
            row.octets.as_slice().to_sql(),
            row.started.to_sql(),
        ],
    );
    match ran {
        Ok(_) => Ok(()),
        Err(error) => Err(fault_of(&error)),
    }
}

/// Adds a row.
pub(crate) fn put<S: Alter>(
    tx: &mut Transaction<'_, S>,
    alloc: Global,
    row: &Row,
) -> Result<(), TableFault>
    ensures same_reference { tx.new.conn.ghost_name ≡ tx.old.conn.ghost_name }
    ensures done { HasCleanDisk (state S.Store tx.new.conn.now)
        → IsTrue (state S.Store tx.old.conn.now).in_transaction
        → OnOk result (StatementRan (state S.Store tx.old.conn.now) (state S.Store tx.new.conn.now)
        × AddsRow (state S.Store tx.old.conn.now).now (state S.Store tx.new.conn.now).now row.now) }
    ensures kept { HasCleanDisk (state S.Store tx.new.conn.now)
        → IsTrue (state S.Store tx.old.conn.now).in_transaction
        → KeepsCommit (state S.Store tx.old.conn.now) (state S.Store tx.new.conn.now) }
    ensures survives { Survives (state S.Store tx.old.conn.now) (state S.Store tx.new.conn.now)
        (λ _. ⊥) }
{
    let cells = Cells::of(alloc, row)?;
    run(
        tx,
        "INSERT INTO kept (kind, inst, id, above, patient, day, octets, started) VALUES (?1, ?2, ?3, ?4, ?5, ?6, ?7, ?8)",
        row,
        &cells,
    )
}

/// Puts a row in the place of the one that is there.
fn replace<S: Alter>(
    tx: &mut Transaction<'_, S>,
    alloc: Global,
    row: &Row,
) -> Result<(), TableFault>
    ensures same_reference { tx.new.conn.ghost_name ≡ tx.old.conn.ghost_name }
    ensures done { HasCleanDisk (state S.Store tx.new.conn.now)
        → IsTrue (state S.Store tx.old.conn.now).in_transaction
        → OnOk result (StatementRan (state S.Store tx.old.conn.now) (state S.Store tx.new.conn.now)
        × Replaces (state S.Store tx.old.conn.now).now (state S.Store tx.new.conn.now).now
        row.now) }
    ensures kept { HasCleanDisk (state S.Store tx.new.conn.now)
        → IsTrue (state S.Store tx.old.conn.now).in_transaction
        → KeepsCommit (state S.Store tx.old.conn.now) (state S.Store tx.new.conn.now) }
    ensures survives { Survives (state S.Store tx.old.conn.now) (state S.Store tx.new.conn.now)
        (λ _. ⊥) }
{
    let cells = Cells::of(alloc, row)?;
    run(
        tx,
        "UPDATE kept SET above = ?4, patient = ?5, day = ?6, octets = ?7, started = ?8 WHERE kind = ?1 AND inst = ?2 AND id = ?3",
        row,
        &cells,
    )
}

/// Removes the row at a place.
fn remove<'a, S: Alter>(
    tx: &mut Transaction<'_, S>,
    kind: Kind,
    institution: &'a [u8],
    key: &'a [u8],
) -> Result<(), TableFault>
    ensures same_reference { tx.new.conn.ghost_name ≡ tx.old.conn.ghost_name }
    ensures done { HasCleanDisk (state S.Store tx.new.conn.now)
        → IsTrue (state S.Store tx.old.conn.now).in_transaction
        → OnOk result (StatementRan (state S.Store tx.old.conn.now) (state S.Store tx.new.conn.now)
        × Removes (state S.Store tx.old.conn.now).now (state S.Store tx.new.conn.now).now kind
        institution.now key.now) }
    ensures kept { HasCleanDisk (state S.Store tx.new.conn.now)
        → IsTrue (state S.Store tx.old.conn.now).in_transaction
        → KeepsCommit (state S.Store tx.old.conn.now) (state S.Store tx.new.conn.now) }
    ensures survives { Survives (state S.Store tx.old.conn.now) (state S.Store tx.new.conn.now)
        (λ _. ⊥) }
{
    let ran = tx.execute(
        "DELETE FROM kept WHERE kind = ?1 AND inst = ?2 AND id = ?3",
        &[
            u32::from(kind.number()).to_sql(),
            ValueRef::Text(institution),
            key.to_sql(),
        ],
    );
    match ran {
        Ok(_) => Ok(()),
        Err(error) => Err(fault_of(&error)),
    }
}

/// Starts the entry with a key, if there is one.
fn start<'a, S: Alter>(
    tx: &mut Transaction<'_, S>,
    institution: &'a [u8],
    key: &'a [u8],
) -> Result<(), TableFault>
    ensures same_reference { tx.new.conn.ghost_name ≡ tx.old.conn.ghost_name }
    ensures done { HasCleanDisk (state S.Store tx.new.conn.now)
        → IsTrue (state S.Store tx.old.conn.now).in_transaction
        → OnOk result (StatementRan (state S.Store tx.old.conn.now) (state S.Store tx.new.conn.now)
        × Starts (state S.Store tx.old.conn.now).now (state S.Store tx.new.conn.now).now
        institution.now key.now) }
    ensures kept { HasCleanDisk (state S.Store tx.new.conn.now)
        → IsTrue (state S.Store tx.old.conn.now).in_transaction
        → KeepsCommit (state S.Store tx.old.conn.now) (state S.Store tx.new.conn.now) }
    ensures survives { Survives (state S.Store tx.old.conn.now) (state S.Store tx.new.conn.now)
        (λ _. ⊥) }
{
    let ran = tx.execute(
        "UPDATE kept SET started = 1 WHERE kind = ?1 AND inst = ?2 AND id = ?3",
        &[
            u32::from(Kind::Entry.number()).to_sql(),
            ValueRef::Text(institution),
            key.to_sql(),
        ],
    );
    match ran {
        Ok(_) => Ok(()),
        Err(error) => Err(fault_of(&error)),
    }
}

/// Starts the entries with some keys.
fn start_each<S: Alter>(
    tx: &mut Transaction<'_, S>,
    institution: &[u8],
    keys: &[Listed<u8>],
) -> Result<(), TableFault>
    ensures same_reference { tx.new.conn.ghost_name ≡ tx.old.conn.ghost_name }
    ensures done { HasCleanDisk (state S.Store tx.new.conn.now)
        → IsTrue (state S.Store tx.old.conn.now).in_transaction
        → IsTrue (state S.Store tx.old.conn.now).is_open
        → OnOk result (StatementRan (state S.Store tx.old.conn.now) (state S.Store tx.new.conn.now)
        × StartsEach (state S.Store tx.old.conn.now).now (state S.Store tx.new.conn.now).now
        institution.now keys.now) }
    ensures kept { HasCleanDisk (state S.Store tx.new.conn.now)
        → IsTrue (state S.Store tx.old.conn.now).in_transaction
        → KeepsCommit (state S.Store tx.old.conn.now) (state S.Store tx.new.conn.now) }
    ensures survives { Survives (state S.Store tx.old.conn.now) (state S.Store tx.new.conn.now)
        (λ _. ⊥) }
{
    for key in keys {
        start(tx, institution, key.as_slice())?;
    }
    Ok(())
}

/// Adds a step, and starts entries of its institution.
fn put_step<S: Alter>(
    tx: &mut Transaction<'_, S>,
    alloc: Global,
    step: &Row,
    keys: &[Listed<u8>],
) -> Result<(), TableFault>
    ensures same_reference { tx.new.conn.ghost_name ≡ tx.old.conn.ghost_name }
    ensures done { HasCleanDisk (state S.Store tx.new.conn.now)
        → IsTrue (state S.Store tx.old.conn.now).in_transaction
        → OnOk result (StatementRan (state S.Store tx.old.conn.now) (state S.Store tx.new.conn.now)
        × MakesChange (state S.Store tx.old.conn.now).now (state S.Store tx.new.conn.now).now
        (StepAdded step.now keys.now)) }
    ensures kept { HasCleanDisk (state S.Store tx.new.conn.now)
        → IsTrue (state S.Store tx.old.conn.now).in_transaction
        → KeepsCommit (state S.Store tx.old.conn.now) (state S.Store tx.new.conn.now) }
    ensures survives { Survives (state S.Store tx.old.conn.now) (state S.Store tx.new.conn.now)
        (λ _. ⊥) }
{
    put(tx, alloc, step)?;
    start_each(tx, step.inst.as_slice(), keys)
}

/// Adds a row, if there is one.
fn put_if<S: Alter>(
    tx: &mut Transaction<'_, S>,
    alloc: Global,
    row: &Option<Row>,
) -> Result<(), TableFault>
    ensures same_reference { tx.new.conn.ghost_name ≡ tx.old.conn.ghost_name }
    ensures done { HasCleanDisk (state S.Store tx.new.conn.now)
        → IsTrue (state S.Store tx.old.conn.now).in_transaction
        → OnOk result (TransactionGoesOn (state S.Store tx.old.conn.now) (state S.Store tx.new.conn.now)
        × AddsIf (state S.Store tx.old.conn.now).now (state S.Store tx.new.conn.now).now
        row.now) }
    ensures kept { HasCleanDisk (state S.Store tx.new.conn.now)
        → IsTrue (state S.Store tx.old.conn.now).in_transaction
        → KeepsCommit (state S.Store tx.old.conn.now) (state S.Store tx.new.conn.now) }
    ensures survives { Survives (state S.Store tx.old.conn.now) (state S.Store tx.new.conn.now)
        (λ _. ⊥) }
{
    match row {
        Some(row) => put(tx, alloc, row),
        None => Ok(()),
    }
}

/// Adds an image, and its study and its series where they are new.
fn put_stored<S: Alter>(
    tx: &mut Transaction<'_, S>,
    alloc: Global,
    study: &Option<Row>,
    series: &Option<Row>,
    image: &Row,
) -> Result<(), TableFault>
    ensures same_reference { tx.new.conn.ghost_name ≡ tx.old.conn.ghost_name }
    ensures done { HasCleanDisk (state S.Store tx.new.conn.now)
        → IsTrue (state S.Store tx.old.conn.now).in_transaction
        → OnOk result (StatementRan (state S.Store tx.old.conn.now) (state S.Store tx.new.conn.now)
        × MakesChange (state S.Store tx.old.conn.now).now (state S.Store tx.new.conn.now).now
        (Stored study.now series.now image.now)) }
    ensures kept { HasCleanDisk (state S.Store tx.new.conn.now)
        → IsTrue (state S.Store tx.old.conn.now).in_transaction
        → KeepsCommit (state S.Store tx.old.conn.now) (state S.Store tx.new.conn.now) }
    ensures survives { Survives (state S.Store tx.old.conn.now) (state S.Store tx.new.conn.now)
        (λ _. ⊥) }
{
    put_if(tx, alloc, study)?;
    put_if(tx, alloc, series)?;
    put(tx, alloc, image)
}

/// Makes a change.
fn make<S: Alter>(
    tx: &mut Transaction<'_, S>,
    alloc: Global,
    change: &Change,
) -> Result<(), TableFault>
    ensures same_reference { tx.new.conn.ghost_name ≡ tx.old.conn.ghost_name }
    ensures done { HasCleanDisk (state S.Store tx.new.conn.now)
        → IsTrue (state S.Store tx.old.conn.now).in_transaction
        → OnOk result (StatementRan (state S.Store tx.old.conn.now) (state S.Store tx.new.conn.now)
        × MakesChange (state S.Store tx.old.conn.now).now (state S.Store tx.new.conn.now).now
        change.now) }
    ensures kept { HasCleanDisk (state S.Store tx.new.conn.now)
        → IsTrue (state S.Store tx.old.conn.now).in_transaction
        → KeepsCommit (state S.Store tx.old.conn.now) (state S.Store tx.new.conn.now) }
    ensures survives { Survives (state S.Store tx.old.conn.now) (state S.Store tx.new.conn.now)
        (λ _. ⊥) }
{
    match change {
        Change::Stored {
            study,
            series,
            image,
        } => put_stored(tx, alloc, study, series, image),
        Change::EntryAdded(row) => put(tx, alloc, row),
        Change::EntryRemoved(institution, key) => {
            remove(tx, Kind::Entry, institution.as_slice(), key.as_slice())
        }
        Change::StepAdded(row, keys) => put_step(tx, alloc, row, keys.as_slice()),
        Change::StepChanged(row) => replace(tx, alloc, row),
    }
}

/// Makes a change, whole or not at all, and commits it.
pub(crate) fn commit<S: Alter>(
    conn: &mut Connection<S>,
    alloc: Global,
    change: &Change,
) -> Result<(), TableFault>
    requires alone { conn.old.in_transaction ≡ false }
    ensures mode { conn.new.in_transaction ≡ false }
    ensures done { HasCleanDisk (state S.Store conn.new) → OnOk result
        (IsMade (state S.Store conn.old) (state S.Store conn.new) change.now) }
    ensures stays { HasCleanDisk (state S.Store conn.new) → IsTrue (state S.Store conn.new).is_open
        → OnErr result (IsUndone (state S.Store conn.old) (state S.Store conn.new)) }
    ensures survives { Survives (state S.Store conn.old) (state S.Store conn.new)
        (Commits (state S.Store conn.old) change.now) }
{
    let mut tx = conn.transaction();
    make(&mut tx, alloc, change)?;
    match tx.commit() {
        Ok(()) => Ok(()),
        Err(error) => Err(fault_of(&error)),
    }
}
