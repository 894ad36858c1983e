//! Tables over a new store that has rows of another one.
ghost use Rattle.std.specs.Prelude.{◌≡◌, ◌≢◌, false, length, map, IfOk, IfErr, IsErr, IsErrAnd};
ghost use Rattle.sqlite.specs.State.{HasCleanDisk};
ghost use Rattle.sqlite.specs.Held.{state};
ghost use Rattle.dq_tables.specs.TableStates.{IsSettled};
ghost use Rattle.dq_tables.specs.Sound.{IsSound};
ghost use Rattle.dq_sql.specs.declared.fault.StoreFault.TheVariants.{Store};
ghost use Rattle.dq_sql.specs.declared.version.Version.TheVariants.{Two};
ghost use Rattle.dq_sql.specs.SchemaCreation.{no_schema};
ghost use Rattle.dq_sql.specs.Tie.{Stays};
ghost use Rattle.dq_sql.specs.FoundStores.{HasVersion, IsOther, IsRefused};
ghost use Rattle.dq_sql.specs.StoreCopies.{is_row_of, copied_rows, IsCopyOf, IsNotCopied};

use crate::fault::StoreFault;
use crate::first_rows::{fill_store, is_new_store};
use crate::found_store::kept_rows;
use crate::sql_tables::SqlTables;
use crate::version::Version;
use dq_list::Listed;
use dq_tables::{Row, Tables};
use sqlite::{Alter, Connection};
use std::alloc::Global;

/// Whether a row is of an institution of one of the names.
fn is_named(row: &Row, names: &[&str]) -> bool
    ensures { result ≡ is_row_of (map (λ name. name.now) names.now) row.now }
{
    names
        .iter()
        .any(|name| row.inst.as_slice() == name.as_bytes())
}

/// Keeps the rows of the institutions of some names, or all where there is no name.
fn keep_named(rows: &mut Vec<Row>, names: &[&str])
    ensures { rows.new.items ≡ copied_rows (map (λ name. name.now) names.now) rows.old.items }
{
    if names.is_empty() {
        return;
    }
    rows.retain(|row| is_named(row, names));
}

/// The rows of a store that are copied. Nothing of the store changes.
fn rows_copied<S: Alter>(
    old: &mut Connection<S>,
    alloc: Global,
    names: &[&str],
) -> Result<Vec<Row>, StoreFault>
    ensures copied { HasCleanDisk (state S.Store old.new) → IfOk result (λ rows.
        IsCopyOf (map (λ name. name.now) names.now) (state S.Store old.old) rows.items) }
    ensures sound { IfOk result (λ rows. IsSound rows.items) }
    ensures other { (¬ HasVersion (state S.Store old.old).now.schema)
        → IsErrAnd result (λ e. e ≡ Store) }
    ensures foreign { IsOther (state S.Store old.old).now.schema → IsErr result }
    ensures refused { IfErr result (IsRefused (state S.Store old.old) (state S.Store old.new) Two) }
    ensures stays { Stays (state S.Store old.old) (state S.Store old.new) }
{
    let mut rows = kept_rows(old, alloc, Version::Two)?;
    keep_named(&mut rows, names);
    Ok(rows)
}

impl<S: Alter + Drop> SqlTables<S> {
    /// Tables over a new store that has the rows of an old one, and how many they are: those of the
    /// institutions of some names, or all where there is no name. All is written in one transaction,
    /// after which a crash leaves these rows and no others. The old store is read alone, and stays as
    /// it is.
    ///
    /// It answers `Store` where the new store has anything already, where a transaction is open,
    /// where the old store has no table `version` or is of version 2 but has other tables or indexes
    /// than this, and where one of them fails. It answers `WrongVersion` and `BadRows` only of an old
    /// store that is so, as far as its disk returned what was written. A refusal gives the new
    /// connection back, and changes no value of either store.
    pub fn copy_lent(
        alloc: Global,
        old: &mut Connection<S>,
        mut new: Connection<S>,
        names: &[&str],
    ) -> Result<(SqlTables<S>, u64), (StoreFault, Connection<S>)>
        ensures stays { Stays (state S.Store old.old) (state S.Store old.new) }
        ensures rows { HasCleanDisk (state S.Store old.new) → IfOk result (λ made.
            IsCopyOf (map (λ name. name.now) names.now) (state S.Store old.old)
            (⟦<SqlTables<S> as Tables>⟧.state made.0).rows) }
        ensures count { IfOk result (λ made.
            made.1 ≡ length (⟦<SqlTables<S> as Tables>⟧.state made.0).rows) }
        ensures failed { IfOk result (λ made.
            (⟦<SqlTables<S> as Tables>⟧.state made.0).failed ≡ false) }
        ensures settled { IfOk result (λ made. (⟦<SqlTables<S> as Tables>⟧.state made.0).honest
            → IsSettled (⟦<SqlTables<S> as Tables>⟧.state made.0)) }
        ensures taken { (state S.Store new).now.schema ≢ no_schema
            → IsErrAnd result (λ e. e.0 ≡ Store) }
        ensures other { (¬ HasVersion (state S.Store old.old).now.schema)
            → IsErrAnd result (λ e. e.0 ≡ Store) }
        ensures foreign { IsOther (state S.Store old.old).now.schema → IsErr result }
        ensures refused { IfErr result
            (λ e. IsRefused (state S.Store old.old) (state S.Store old.new) Two e.0) }
        ensures unmade { IfErr result (λ e. IsNotCopied (map (λ name. name.now) names.now)
            (state S.Store old.old) (state S.Store old.new) (state S.Store new)
            (state S.Store e.1)) }
    {
        if !is_new_store(&new) {
            return Err((StoreFault::Store, new));
        }
        let rows = match rows_copied(old, alloc, names) {
            Ok(rows) => rows,
            Err(fault) => return Err((fault, new)),
        };
        let count = rows.len() as u64;
        match fill_store(&mut new, alloc, rows.as_slice()) {
            Ok(()) => {
                let tables = SqlTables::over(alloc, new, &Listed::from_inner(rows));
                Ok((tables, count))
            }
            Err(fault) => Err((fault, new)),
        }
    }
}
