//! A copy of all rows in a new store, made while the tables are in use.
ghost use Rattle.std.specs.Prelude.{◌≡◌, ◌≢◌, List, IfOk, IfErr, IsErrAnd};
ghost use Rattle.sqlite.specs.State.{HasCleanDisk};
ghost use Rattle.sqlite.specs.Held.{state};
ghost use Rattle.dq_tables.specs.declared.row.Row.{Row};
ghost use Rattle.dq_sql.specs.declared.fault.StoreFault.TheVariants.{Store};
ghost use Rattle.dq_sql.specs.FirstRows.{IsFilled, IsNotMade};
ghost use Rattle.dq_sql.specs.SchemaCreation.{no_schema};

use crate::fault::StoreFault;
use crate::first_rows::{fill_store, is_new_store};
use crate::found_store::kept_rows;
use crate::sql_tables::SqlTables;
use crate::version::Version;
use dq_tables::Tables;
use sqlite::{Alter, Connection};
use std::alloc::Global;

impl<S: Alter + Drop> SqlTables<S> {
    /// Copies all rows into a store that has nothing yet, in one transaction, and gives this back. The
    /// tables are read alone, and stay as they are.
    ///
    /// It answers `Store` where the new store has anything already, where a transaction is open, and
    /// where one of the two stores fails. After a refusal the new store shows what it showed, and a
    /// crash leaves what it could leave before, or all rows.
    pub fn copy_to(
        &mut self,
        alloc: Global,
        mut new: Connection<S>,
    ) -> Result<Connection<S>, (StoreFault, Connection<S>)>
        ensures rows { (⟦<SqlTables<S> as Tables>⟧.state self.new).rows
            ≡ (⟦<SqlTables<S> as Tables>⟧.state self.old).rows }
        ensures failed { (⟦<SqlTables<S> as Tables>⟧.state self.new).failed
            ≡ (⟦<SqlTables<S> as Tables>⟧.state self.old).failed }
        ensures honest { (⟦<SqlTables<S> as Tables>⟧.state self.new).honest
            → (⟦<SqlTables<S> as Tables>⟧.state self.old).honest }
        ensures crash { (⟦<SqlTables<S> as Tables>⟧.state self.new).honest → (r : List Row)
            → (⟦<SqlTables<S> as Tables>⟧.state self.new).may_leave r
            → (⟦<SqlTables<S> as Tables>⟧.state self.old).may_leave r }
        ensures made { (⟦<SqlTables<S> as Tables>⟧.state self.new).honest → IfOk result (λ c.
            HasCleanDisk (state S.Store c)
            → IsFilled (state S.Store c) (⟦<SqlTables<S> as Tables>⟧.state self.old).rows) }
        ensures taken { (state S.Store new).now.schema ≢ no_schema
            → IsErrAnd result (λ e. (e.0 ≡ Store) × (e.1 ≡ new)) }
        ensures refused { (⟦<SqlTables<S> as Tables>⟧.state self.new).honest → IfErr result (λ e.
            IsNotMade (state S.Store new) (state S.Store e.1)
            (⟦<SqlTables<S> as Tables>⟧.state self.old).rows) }
    {
        if !is_new_store(&new) {
            return Err((StoreFault::Store, new));
        }
        let rows = match kept_rows(&mut self.conn, alloc, Version::Two) {
            Ok(rows) => rows,
            Err(fault) => return Err((fault, new)),
        };
        match fill_store(&mut new, alloc, rows.as_slice()) {
            Ok(()) => Ok(new),
            Err(fault) => Err((fault, new)),
        }
    }
}
