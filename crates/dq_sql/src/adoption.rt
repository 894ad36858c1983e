//! Tables over a store that is found.
ghost use Rattle.std.specs.Prelude.{◌≡◌, ◌≢◌, false, List, IfOk, IfErr, IsErr, IsErrAnd};
ghost use Rattle.sqlite.specs.State.{HasCleanDisk};
ghost use Rattle.sqlite.specs.Held.{Held, state};
ghost use Rattle.dq_tables.specs.declared.row.Row.{Row};
ghost use Rattle.dq_tables.specs.TableStates.{IsSettled};
ghost use Rattle.dq_sql.specs.declared.fault.StoreFault.TheVariants.{Store, WrongVersion, BadRows};
ghost use Rattle.dq_sql.specs.declared.version.Version.TheVariants.{Two};
ghost use Rattle.dq_sql.specs.KeptRows.{MayLeave};
ghost use Rattle.dq_sql.specs.Tie.{Stays};
ghost use Rattle.dq_sql.specs.FoundStores.{HasVersion, NeverSays, IsTold, HoldOctets, IsOther, IsFound, IsRefused};
ghost use Rattle.dq_sql.specs.Restarts.{IsReopened};

use crate::fault::StoreFault;
use crate::found_store::kept_rows;
use crate::sql_tables::SqlTables;
use crate::version::Version;
use dq_list::Listed;
use dq_tables::Tables;
use sqlite::{Alter, Connection};
use std::alloc::Global;

impl<S: Alter + Drop> SqlTables<S> {
    /// Tables over a store of rows of version 2, with the rows that it has. `kept_rows` reads and
    /// judges them. A crash leaves nothing that it could not leave before.
    ///
    /// It answers `Store` where the store has no table `version`, where it is of version 2 but has
    /// other tables or indexes than this, where a transaction is open, and where the store fails. It
    /// answers `WrongVersion` and `BadRows` only of a store that is so, as far as the disk returned
    /// what was written. A refusal gives the connection back, and changes no value of the store.
    ///
    /// A store that was just opened and holds sound rows is refused neither as of another version
    /// nor for its rows. Each store that a crash leaves of tables is one.
    pub fn adopt_lent(
        alloc: Global,
        mut conn: Connection<S>,
    ) -> Result<SqlTables<S>, (StoreFault, Connection<S>)>
        ensures found { IfOk result (λ t. (⟦<SqlTables<S> as Tables>⟧.state t).honest
            → IsFound Two (state S.Store conn) (⟦<SqlTables<S> as Tables>⟧.state t).rows) }
        ensures octets { IfOk result (λ t.
            HoldOctets (⟦<SqlTables<S> as Tables>⟧.state t).rows) }
        ensures honest { IfOk result (λ t. (⟦<SqlTables<S> as Tables>⟧.state t).honest
            → HasCleanDisk (state S.Store conn)) }
        ensures failed { IfOk result (λ t. (⟦<SqlTables<S> as Tables>⟧.state t).failed ≡ false) }
        ensures settled { IfOk result (λ t. (⟦<SqlTables<S> as Tables>⟧.state t).honest
            → IsSettled (⟦<SqlTables<S> as Tables>⟧.state t)) }
        ensures crash { IfOk result (λ t. (⟦<SqlTables<S> as Tables>⟧.state t).honest
            → (r : List Row) → (⟦<SqlTables<S> as Tables>⟧.state t).may_leave r
            → MayLeave (state S.Store conn) r) }
        ensures other { (¬ HasVersion (state S.Store conn).now.schema)
            → IsErrAnd result (λ e. e.0 ≡ Store) }
        ensures foreign { IsOther (state S.Store conn).now.schema → IsErr result }
        ensures refused { IfErr result
            (λ e. IsRefused (state S.Store conn) (state S.Store e.1) Two e.0) }
        ensures told { conn.in_transaction ≡ false → HasVersion (state S.Store conn).now.schema
            → NeverSays S.Store Two conn → IfErr result (λ e. HasCleanDisk (state S.Store e.1)
            → IsTold (state S.Store conn) (state S.Store e.1) e.0) }
        ensures again { (rows : List Row) → IsReopened (state S.Store conn) rows
            → IfOk result (λ t. (⟦<SqlTables<S> as Tables>⟧.state t).honest
            → (⟦<SqlTables<S> as Tables>⟧.state t).rows ≡ rows) }
        ensures welcome { (rows : List Row) → IsReopened (state S.Store conn) rows
            → IfErr result (λ e. HasCleanDisk (state S.Store e.1)
            → (e.0 ≢ WrongVersion) × (e.0 ≢ BadRows)) }
    {
        match kept_rows(&mut conn, alloc, Version::Two) {
            Ok(rows) => Ok(SqlTables::over(alloc, conn, &Listed::from_inner(rows))),
            Err(fault) => Err((fault, conn)),
        }
    }

    /// `adopt_lent`, where a refusal drops the connection.
    pub fn adopt(alloc: Global, conn: Connection<S>) -> Result<SqlTables<S>, StoreFault>
        ensures found { IfOk result (λ t. (⟦<SqlTables<S> as Tables>⟧.state t).honest
            → IsFound Two (state S.Store conn) (⟦<SqlTables<S> as Tables>⟧.state t).rows) }
        ensures octets { IfOk result (λ t.
            HoldOctets (⟦<SqlTables<S> as Tables>⟧.state t).rows) }
        ensures honest { IfOk result (λ t. (⟦<SqlTables<S> as Tables>⟧.state t).honest
            → HasCleanDisk (state S.Store conn)) }
        ensures failed { IfOk result (λ t. (⟦<SqlTables<S> as Tables>⟧.state t).failed ≡ false) }
        ensures settled { IfOk result (λ t. (⟦<SqlTables<S> as Tables>⟧.state t).honest
            → IsSettled (⟦<SqlTables<S> as Tables>⟧.state t)) }
        ensures crash { IfOk result (λ t. (⟦<SqlTables<S> as Tables>⟧.state t).honest
            → (r : List Row) → (⟦<SqlTables<S> as Tables>⟧.state t).may_leave r
            → MayLeave (state S.Store conn) r) }
        ensures other { (¬ HasVersion (state S.Store conn).now.schema)
            → IsErrAnd result (λ e. e ≡ Store) }
        ensures foreign { IsOther (state S.Store conn).now.schema → IsErr result }
        ensures refused { IfErr result (λ e.
            ∥ ((left : Held S) × IsRefused (state S.Store conn) (state S.Store left) Two e) ∥₁) }
        ensures told { conn.in_transaction ≡ false → HasVersion (state S.Store conn).now.schema
            → NeverSays S.Store Two conn → IfErr result (λ e. ∥ ((left : Held S)
            × Stays (state S.Store conn) (state S.Store left)
            × (HasCleanDisk (state S.Store left)
            → IsTold (state S.Store conn) (state S.Store left) e)) ∥₁) }
        ensures again { (rows : List Row) → IsReopened (state S.Store conn) rows
            → IfOk result (λ t. (⟦<SqlTables<S> as Tables>⟧.state t).honest
            → (⟦<SqlTables<S> as Tables>⟧.state t).rows ≡ rows) }
        ensures welcome { (rows : List Row) → IsReopened (state S.Store conn) rows
            → IfErr result (λ e. ∥ ((left : Held S)
            × Stays (state S.Store conn) (state S.Store left)
            × (HasCleanDisk (state S.Store left)
            → (e ≢ WrongVersion) × (e ≢ BadRows))) ∥₁) }
    {
        match SqlTables::adopt_lent(alloc, conn) {
            Ok(tables) => Ok(tables),
            Err((fault, _)) => Err(fault),
        }
    }
}
