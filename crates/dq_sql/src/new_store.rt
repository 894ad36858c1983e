//! Tables over a new store.
ghost use Rattle.std.specs.Prelude.{◌≡◌, ◌≢◌, ◌⊎◌, [], false, IfOk, IfErr, IsErrAnd};
ghost use Rattle.sqlite.specs.Held.{Held, state};
ghost use Rattle.dq_tables.specs.TableStates.{IsSettled};
ghost use Rattle.dq_sql.specs.declared.fault.StoreFault.TheVariants.{NoMemory, Store};
ghost use Rattle.dq_sql.specs.FirstRows.{IsNotMade};
ghost use Rattle.dq_sql.specs.SchemaCreation.{no_schema};

use crate::fault::StoreFault;
use crate::first_rows::{fill_store, is_new_store};
use crate::sql_tables::SqlTables;
use dq_list::Listed;
use dq_tables::Tables;
use sqlite::{Alter, Connection};
use std::alloc::Global;

impl<S: Alter + Drop> SqlTables<S> {
    /// Creates tables without rows over an empty store. One transaction makes what they need. A
    /// crash then leaves no rows.
    ///
    /// It answers `Store` where the store has a table or an index already, where a transaction is
    /// open, and where the store fails; `NoMemory` where a growth was refused. A refusal gives the
    /// connection back and changes no value of the store. A crash then leaves what it could leave
    /// before, or a store without rows.
    #[tactic(auto, unfolding(dq_tables::specs::Rows::IsRising))]
    pub fn open_lent(
        alloc: Global,
        mut conn: Connection<S>,
    ) -> Result<SqlTables<S>, (StoreFault, Connection<S>)>
        ensures taken { (state S.Store conn).now.schema ≢ no_schema
            → IsErrAnd result (λ e. (e.0 ≡ Store) × (e.1 ≡ conn)) }
        ensures fault { IfErr result (λ e. (e.0 ≡ NoMemory) ⊎ (e.0 ≡ Store)) }
        ensures rows { IfOk result (λ t. (⟦<SqlTables<S> as Tables>⟧.state t).rows ≡ []) }
        ensures failed { IfOk result (λ t. (⟦<SqlTables<S> as Tables>⟧.state t).failed ≡ false) }
        ensures settled { IfOk result (λ t. (⟦<SqlTables<S> as Tables>⟧.state t).honest
            → IsSettled (⟦<SqlTables<S> as Tables>⟧.state t)) }
        ensures refused { IfErr result
            (λ e. IsNotMade (state S.Store conn) (state S.Store e.1) []) }
    {
        if !is_new_store(&conn) {
            return Err((StoreFault::Store, conn));
        }
        match fill_store(&mut conn, alloc, &[]) {
            Ok(()) => Ok(SqlTables::over(alloc, conn, &Listed::from_inner(Vec::new(alloc)))),
            Err(fault) => Err((fault, conn)),
        }
    }

    /// `open_lent`, where a refusal drops the connection.
    pub fn open(alloc: Global, conn: Connection<S>) -> Result<SqlTables<S>, StoreFault>
        ensures taken { (state S.Store conn).now.schema ≢ no_schema
            → IsErrAnd result (λ e. e ≡ Store) }
        ensures fault { IfErr result (λ e. (e ≡ NoMemory) ⊎ (e ≡ Store)) }
        ensures rows { IfOk result (λ t. (⟦<SqlTables<S> as Tables>⟧.state t).rows ≡ []) }
        ensures failed { IfOk result (λ t. (⟦<SqlTables<S> as Tables>⟧.state t).failed ≡ false) }
        ensures settled { IfOk result (λ t. (⟦<SqlTables<S> as Tables>⟧.state t).honest
            → IsSettled (⟦<SqlTables<S> as Tables>⟧.state t)) }
        ensures refused { IfErr result (λ e.
            ∥ ((left : Held S) × IsNotMade (state S.Store conn) (state S.Store left) []) ∥₁) }
    {
        match SqlTables::open_lent(alloc, conn) {
            Ok(tables) => Ok(tables),
            Err((fault, _)) => Err(fault),
        }
    }
}
