//! Tables over a new store that has the rows of one of version 1.
ghost use Rattle.std.specs.Prelude.{◌≡◌, ◌≢◌, false, IfOk, IfErr, IsErr, IsErrAnd};
ghost use Rattle.sqlite.specs.State.{HasCleanDisk};
ghost use Rattle.sqlite.specs.Held.{Held, state};
ghost use Rattle.dq_tables.specs.TableStates.{IsSettled};
ghost use Rattle.dq_tables.specs.Sound.{IsSound};
ghost use Rattle.dq_sql.specs.declared.migrate_fault.MigrateFault.TheVariants.{Store};
ghost use Rattle.dq_sql.specs.SchemaCreation.{no_schema};
ghost use Rattle.dq_sql.specs.Tie.{Stays};
ghost use Rattle.dq_sql.specs.FoundStores.{HasVersion, NeverSays, IsOther};
ghost use Rattle.dq_sql.specs.declared.version.Version.TheVariants.{One};
ghost use Rattle.dq_sql.specs.FirstRows.{IsNothingYet};
ghost use Rattle.dq_sql.specs.Migration.{IsMigrated, Migrates, IsNotTaken, IsToldOfOld, IsNotMigrated};

use crate::first_rows::{fill_store, is_new_store};
use crate::found_store::kept_rows;
use crate::kept_steps::start_named;
use crate::migrate_fault::MigrateFault;
use crate::sql_tables::SqlTables;
use crate::version::Version;
use dq_list::Listed;
use dq_tables::{Row, Tables};
use sqlite::{Alter, Connection};
use std::alloc::Global;

/// The rows of a store of version 1, with the entries started that a kept step names. Nothing of the
/// store changes.
fn rows_migrated<S: Alter>(old: &mut Connection<S>, alloc: Global) -> Result<Vec<Row>, MigrateFault>
    ensures migrated { HasCleanDisk (state S.Store old.new)
        → IfOk result (λ rows. IsMigrated (state S.Store old.old) rows.items) }
    ensures sound { IfOk result (λ rows. IsSound rows.items) }
    ensures other { (¬ HasVersion (state S.Store old.old).now.schema)
        → IsErrAnd result (λ e. e ≡ Store) }
    ensures foreign { IsOther (state S.Store old.old).now.schema → IsErr result }
    ensures refused { IfErr result (IsNotTaken (state S.Store old.old) (state S.Store old.new)) }
    ensures told { HasCleanDisk (state S.Store old.new) → old.old.in_transaction ≡ false
        → HasVersion (state S.Store old.old).now.schema → NeverSays S.Store One old.old
        → IsErrAnd result (IsToldOfOld (state S.Store old.old) (state S.Store old.new)) }
    ensures stays { Stays (state S.Store old.old) (state S.Store old.new) }
{
    let mut rows = kept_rows(old, alloc, Version::One)?;
    start_named(alloc, &mut rows)?;
    Ok(rows)
}

impl<S: Alter + Drop> SqlTables<S> {
    /// Tables over a new store that has the rows of an old one of version 1. In version 1 no entry
    /// was started: here those are that a kept step of their institution names. All is written in
    /// one transaction, after which a crash leaves these rows and no others. The old store is read
    /// alone, and stays as it is.
    ///
    /// It answers `Store` where the new store has anything already, where a transaction is open,
    /// where the old store has no table `version` or is of version 1 but has other tables or indexes
    /// than this, and where one of them fails. It answers `WrongVersion` and `BadRows` only of an old
    /// store that is so, as far as its disk returned what was written. A refusal gives the new
    /// connection back, and changes no value of either store.
    pub fn migrate_lent(
        alloc: Global,
        old: &mut Connection<S>,
        mut new: Connection<S>,
    ) -> Result<SqlTables<S>, (MigrateFault, Connection<S>)>
        ensures stays { Stays (state S.Store old.old) (state S.Store old.new) }
        ensures rows { HasCleanDisk (state S.Store old.new) → IfOk result (λ t.
            IsMigrated (state S.Store old.old) (⟦<SqlTables<S> as Tables>⟧.state t).rows) }
        ensures failed { IfOk result (λ t. (⟦<SqlTables<S> as Tables>⟧.state t).failed ≡ false) }
        ensures settled { IfOk result (λ t. (⟦<SqlTables<S> as Tables>⟧.state t).honest
            → IsSettled (⟦<SqlTables<S> as Tables>⟧.state t)) }
        ensures taken { (state S.Store new).now.schema ≢ no_schema
            → IsErrAnd result (λ e. e.0 ≡ Store) }
        ensures other { (¬ HasVersion (state S.Store old.old).now.schema)
            → IsErrAnd result (λ e. e.0 ≡ Store) }
        ensures foreign { IsOther (state S.Store old.old).now.schema → IsErr result }
        ensures refused { IfErr result
            (λ e. IsNotTaken (state S.Store old.old) (state S.Store old.new) e.0) }
        ensures told { HasCleanDisk (state S.Store old.new) → IsNothingYet (state S.Store new)
            → old.old.in_transaction ≡ false → HasVersion (state S.Store old.old).now.schema
            → NeverSays S.Store One old.old → IsErrAnd result (λ e.
            IsToldOfOld (state S.Store old.old) (state S.Store old.new) e.0) }
        ensures unmade { IfErr result (λ e. IsNotMigrated (state S.Store old.old)
            (state S.Store old.new) (state S.Store new) (state S.Store e.1)) }
    {
        if !is_new_store(&new) {
            return Err((MigrateFault::Store, new));
        }
        let rows = match rows_migrated(old, alloc) {
            Ok(rows) => rows,
            Err(fault) => return Err((fault, new)),
        };
        match fill_store(&mut new, alloc, rows.as_slice()) {
            Ok(()) => Ok(SqlTables::over(alloc, new, &Listed::from_inner(rows))),
            Err(fault) => Err((MigrateFault::from(fault), new)),
        }
    }

    /// `migrate_lent`, where both connections are dropped but that of the new tables.
    pub fn migrate(
        alloc: Global,
        mut old: Connection<S>,
        new: Connection<S>,
    ) -> Result<SqlTables<S>, MigrateFault>
        ensures rows { IfOk result (λ t. ∥ ((left : Held S)
            × Migrates (state S.Store old) (state S.Store left)
            (⟦<SqlTables<S> as Tables>⟧.state t).rows) ∥₁) }
        ensures failed { IfOk result (λ t. (⟦<SqlTables<S> as Tables>⟧.state t).failed ≡ false) }
        ensures settled { IfOk result (λ t. (⟦<SqlTables<S> as Tables>⟧.state t).honest
            → IsSettled (⟦<SqlTables<S> as Tables>⟧.state t)) }
        ensures taken { (state S.Store new).now.schema ≢ no_schema
            → IsErrAnd result (λ e. e ≡ Store) }
        ensures other { (¬ HasVersion (state S.Store old).now.schema)
            → IsErrAnd result (λ e. e ≡ Store) }
        ensures foreign { IsOther (state S.Store old).now.schema → IsErr result }
        ensures refused { IfErr result (λ e. ∥ ((left : Held S) × (new_left : Held S)
            × Stays (state S.Store old) (state S.Store left)
            × IsNotTaken (state S.Store old) (state S.Store left) e
            × IsNotMigrated (state S.Store old) (state S.Store left) (state S.Store new)
            (state S.Store new_left)) ∥₁) }
        ensures told { IsNothingYet (state S.Store new) → old.in_transaction ≡ false
            → HasVersion (state S.Store old).now.schema → NeverSays S.Store One old
            → IfErr result (λ e. ∥ ((left : Held S) × Stays (state S.Store old) (state S.Store left)
            × (HasCleanDisk (state S.Store left)
            → IsToldOfOld (state S.Store old) (state S.Store left) e)) ∥₁) }
    {
        match SqlTables::migrate_lent(alloc, &mut old, new) {
            Ok(tables) => Ok(tables),
            Err((fault, _)) => Err(fault),
        }
    }
}
