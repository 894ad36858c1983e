//! A new store that has rows from the start.
ghost use Rattle.std.specs.Prelude.{◌≡◌, ◌⊎◌, false, IsTrue, IfErr, OnOk, OnErr, MatchBool};
ghost use Rattle.sqlite.specs.State.{HasCleanDisk, Survives, KeepsCommit};
ghost use Rattle.sqlite.specs.Held.{state};
ghost use Rattle.dq_tables.specs.Rows.{IsRising};
ghost use Rattle.dq_sql.specs.declared.fault.StoreFault.TheVariants.{NoMemory, Store};
ghost use Rattle.dq_sql.specs.SchemaCreation.{StoreGoesOn};
ghost use Rattle.dq_sql.specs.FirstRows.{AddsRows, MakesStore, HasThese, IsNothingYet, IsFilled};
ghost use Rattle.dq_sql.specs.Tie.{IsAtRest, IsSame};

use crate::fault::StoreFault;
use crate::row_writer::put;
use crate::schema::{is_empty, make_tables};
use dq_tables::{Row, TableFault};
use sqlite::{Alter, Connection, Transaction};
use std::alloc::Global;

/// Adds rows that are in order to a store that has none.
fn put_rows<S: Alter>(
    tx: &mut Transaction<'_, S>,
    alloc: Global,
    rows: &[Row],
) -> Result<(), TableFault>
    requires { IsRising rows.now }
    ensures same_reference { tx.new.conn.ghost_name ≡ tx.old.conn.ghost_name }
    ensures done { HasCleanDisk (state S.Store tx.new.conn.now)
        → IsTrue (state S.Store tx.old.conn.now).in_transaction
        → IsTrue (state S.Store tx.old.conn.now).is_open
        → OnOk result (AddsRows (state S.Store tx.old.conn.now) (state S.Store tx.new.conn.now)
        rows.now) }
    ensures kept { HasCleanDisk (state S.Store tx.new.conn.now)
        → IsTrue (state S.Store tx.old.conn.now).in_transaction
        → KeepsCommit (state S.Store tx.old.conn.now) (state S.Store tx.new.conn.now) }
    ensures survives { Survives (state S.Store tx.old.conn.now) (state S.Store tx.new.conn.now)
        (λ _. ⊥) }
{
    for row in rows {
        put(tx, alloc, row)?;
    }
    Ok(())
}

/// Makes the tables and the indexes, and adds the rows.
fn make_and_put<S: Alter>(
    tx: &mut Transaction<'_, S>,
    alloc: Global,
    rows: &[Row],
) -> Result<(), StoreFault>
    requires { IsRising rows.now }
    ensures same_reference { tx.new.conn.ghost_name ≡ tx.old.conn.ghost_name }
    ensures fault { IfErr result (λ e. (e ≡ NoMemory) ⊎ (e ≡ Store)) }
    ensures goes_on { HasCleanDisk (state S.Store tx.new.conn.now)
        → OnOk result (StoreGoesOn (state S.Store tx.old.conn.now) (state S.Store tx.new.conn.now)) }
    ensures makes { HasCleanDisk (state S.Store tx.new.conn.now)
        → OnOk result (MakesStore (state S.Store tx.old.conn.now).now
        (state S.Store tx.new.conn.now).now rows.now) }
    ensures kept { HasCleanDisk (state S.Store tx.new.conn.now)
        → KeepsCommit (state S.Store tx.old.conn.now) (state S.Store tx.new.conn.now) }
    ensures survives { Survives (state S.Store tx.old.conn.now) (state S.Store tx.new.conn.now)
        (λ _. ⊥) }
{
    make_tables(tx)?;
    put_rows(tx, alloc, rows)?;
    Ok(())
}

/// Whether a store has nothing yet, and no transaction is open.
pub(crate) fn is_new_store<S: Alter>(conn: &Connection<S>) -> bool
    ensures { MatchBool result (IsNothingYet (state S.Store conn.now))
        (¬ IsNothingYet (state S.Store conn.now)) }
{
    conn.is_autocommit() && is_empty(conn.schema())
}

/// Makes a store of an empty one that has these rows, in one transaction. It is refused where the
/// store fails, and where memory is wanted. A refusal changes nothing. A crash leaves the store as
/// it was, or with all rows.
pub(crate) fn fill_store<S: Alter>(
    conn: &mut Connection<S>,
    alloc: Global,
    rows: &[Row],
) -> Result<(), StoreFault>
    requires nothing { IsNothingYet (state S.Store conn.old) }
    requires rising { IsRising rows.now }
    ensures mode { conn.new.in_transaction ≡ false }
    ensures fault { IfErr result (λ e. (e ≡ NoMemory) ⊎ (e ≡ Store)) }
    ensures made { HasCleanDisk (state S.Store conn.new)
        → OnOk result (IsFilled (state S.Store conn.new) rows.now) }
    ensures same { HasCleanDisk (state S.Store conn.new) → IsTrue (state S.Store conn.new).is_open
        → IsAtRest (state S.Store conn.old)
        → OnErr result (IsSame (state S.Store conn.old) (state S.Store conn.new)) }
    ensures survives { Survives (state S.Store conn.old) (state S.Store conn.new)
        (HasThese rows.now) }
{
    let mut tx = conn.transaction();
    make_and_put(&mut tx, alloc, rows)?;
    tx.commit()?;
    Ok(())
}
