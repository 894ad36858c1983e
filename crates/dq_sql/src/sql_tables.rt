//! Tables over an SQLite store.
ghost use Rattle.std.specs.Prelude.{◌≡◌, ◌⊎◌, false, true, List, Err, IsTrue, IfOk};
ghost use Rattle.sqlite_trees.specs.Tree.{Trees};
ghost use Rattle.sqlite.specs.State.{HasCleanDisk};
ghost use Rattle.sqlite.specs.Held.{state};
ghost use Rattle.dq_tables.specs.declared.fault.TableFault.TheVariants.{Store};
ghost use Rattle.dq_tables.specs.declared.row.Row.{Row};
ghost use Rattle.dq_sql.specs.KeptRows.{KeepsSoundRows, under_schema};
ghost use Rattle.dq_sql.specs.Tie.{HasRows};
ghost use Rattle.dq_sql.specs.Restarts.{ImageHoldsRows, HoldsAlone};
ghost use Rattle.sqlite_wal.specs.Files.{outcomes};
ghost use Rattle.sqlite_wal.specs.Reads.{AreClean};
ghost use Rattle.sqlite_wal.specs.Recovery.{Image};

use crate::fault::StoreFault;
use crate::history::History;
use crate::window::{KeyPage, Window};
use crate::{row_reader, row_writer, study_index};
use dq_list::Listed;
use dq_tables::{Change, Choice, Kind, Row, TableFault, Tables};
use sqlite::{Alter, Connection, FileStore, Files};
use sqlite_disk::Disk;
use std::alloc::Global;

/// Rows in an SQLite store. A crash leaves the rows of the last change that was answered, or of
/// the one that was being made.
#[derive(Drop)]
pub struct SqlTables<S: Alter> {
    pub(crate) conn: Connection<S>,
    alloc: Global,
    failed: bool,
    pub(crate) history: History,
    ghost alone: { conn.in_transaction ≡ false },
    ghost keeps: { ∥ (HasCleanDisk (state S.Store conn)
        → KeepsSoundRows (state S.Store conn) history.rows) ∥₁ },
}

/// The answer, whose failure of the store is noted.
fn noted<T>(failed: &mut bool, answer: Result<T, TableFault>) -> Result<T, TableFault>
    ensures same { result ≡ answer }
    ensures told { answer ≡ Err Store → failed.new ≡ true }
    ensures untold { failed.new ≡ true → (failed.old ≡ true) ⊎ (answer ≡ Err Store) }
    ensures lasts { failed.old ≡ true → failed.new ≡ true }
{
    if let Err(TableFault::Store) = &answer {
        *failed = true;
    }
    answer
}

impl<S: Alter> SqlTables<S> {
    /// Tables over a connection whose store has these rows.
    pub(crate) fn over(alloc: Global, conn: Connection<S>, rows: &Listed<Row>) -> SqlTables<S>
        requires alone { conn.in_transaction ≡ false }
        requires keeps { HasCleanDisk (state S.Store conn)
            → KeepsSoundRows (state S.Store conn) rows.now }
        ensures conn { result.conn ≡ conn }
        ensures rows { result.history.rows ≡ rows.now }
        ensures failed { result.failed ≡ false }
    {
        SqlTables {
            conn,
            alloc,
            failed: false,
            history: History::from_rows(rows),
        }
    }

    /// The connection, whose store has the rows while it is open. Whatever a crash leaves of it is
    /// a store of rows that a crash could leave before. It takes no memory.
    pub fn into_connection(self) -> Connection<S>
        ensures alone { result.in_transaction ≡ false }
        ensures honest { HasCleanDisk (state S.Store result)
            → (⟦<SqlTables<S> as Tables>⟧.state self).honest }
        ensures rows { HasCleanDisk (state S.Store result) → IsTrue (state S.Store result).is_open
            → ∥ HasRows (state S.Store result).committed
            (⟦<SqlTables<S> as Tables>⟧.state self).rows ∥₁ }
        ensures left { HasCleanDisk (state S.Store result) → (trees : Trees)
            → (state S.Store result).may_leave trees
            → ∥ ((rows : List Row) × (⟦<SqlTables<S> as Tables>⟧.state self).may_leave rows
            × HasRows (under_schema trees) rows) ∥₁ }
    {
        let SqlTables {
            conn,
            alloc: _,
            failed: _,
            history: _,
        } = self;
        conn
    }
}

impl<D: Disk + Drop> SqlTables<FileStore<D>> {
    /// The files. What a crash leaves of them holds a database with rows that a crash could leave
    /// before. It takes no memory, and writes nothing.
    pub fn into_files(self) -> Files<D>
        ensures honest { AreClean D.Disk result.log result.db
            → (⟦<SqlTables<FileStore<D>> as Tables>⟧.state self).honest }
        ensures left { AreClean D.Disk result.log result.db → (image : Image)
            → outcomes D.Disk result.log result.db image
            → ∥ ((rows : List Row)
            × (⟦<SqlTables<FileStore<D>> as Tables>⟧.state self).may_leave rows
            × ImageHoldsRows image rows) ∥₁ }
    {
        self.into_connection().into_store().close()
    }

    /// The files, after the log was copied into the database file. This alone then holds the rows, also
    /// after a crash. A refusal changes no value.
    pub fn close(self) -> Result<Files<D>, StoreFault>
        ensures copied { IfOk result (λ files. AreClean D.Disk files.log files.db
            → (image : Image) → outcomes D.Disk files.log files.db image
            → ∥ HoldsAlone image (⟦<SqlTables<FileStore<D>> as Tables>⟧.state self).rows ∥₁) }
    {
        match self.into_connection().close_files() {
            Ok(files) => Ok(files),
            Err((error, _)) => Err(StoreFault::from(error)),
        }
    }
}

impl<S: Alter> Tables for SqlTables<S> {
    ghost use Rattle.sqlite.specs.Held.{state};
    ghost use Rattle.dq_sql.specs.KeptRows.{kept_by};
    ghost use Rattle.dq_sql.specs.OneContent.{kept_sound, left_sound};

    ghost state = { λ t. kept_by (state S.Store t.conn) t.history.rows t.failed };

    ghost sound = { λ t. kept_sound _ _ t.keeps };

    ghost left_sound = { λ t. left_sound _ _ t.keeps };

    fn alloc(&self) -> Global {
        self.alloc
    }

    fn row(
        &mut self,
        kind: Kind,
        institution: &[u8],
        key: &[u8],
    ) -> Result<Option<Row>, TableFault> {
        let answer = row_reader::row(&mut self.conn, self.alloc, kind, institution, key);
        noted(&mut self.failed, answer)
    }

    fn rows_of(&mut self, kind: Kind, institution: &[u8]) -> Result<Listed<Row>, TableFault> {
        let answer = row_reader::rows_of(&mut self.conn, self.alloc, kind, institution);
        noted(&mut self.failed, answer)
    }

    fn rows_from(
        &mut self,
        kind: Kind,
        institution: &[u8],
        from: usize,
        most: usize,
    ) -> Result<Listed<Row>, TableFault> {
        let window = Window { from, most };
        let answer = row_reader::rows_from(&mut self.conn, self.alloc, kind, institution, window);
        noted(&mut self.failed, answer)
    }

    fn rows_after(
        &mut self,
        kind: Kind,
        institution: &[u8],
        key: &[u8],
        most: usize,
    ) -> Result<Listed<Row>, TableFault> {
        let answer = row_reader::rows_after(
            &mut self.conn,
            self.alloc,
            kind,
            institution,
            key,
            most,
        );
        noted(&mut self.failed, answer)
    }

    fn rows_above(
        &mut self,
        kind: Kind,
        institution: &[u8],
        above: &[u8],
    ) -> Result<Listed<Row>, TableFault> {
        let answer = row_reader::rows_above(&mut self.conn, self.alloc, kind, institution, above);
        noted(&mut self.failed, answer)
    }

    fn rows_above_after(
        &mut self,
        kind: Kind,
        institution: &[u8],
        above: &[u8],
        after: Option<&[u8]>,
        most: usize,
    ) -> Result<Listed<Row>, TableFault> {
        let page = KeyPage { after, most };
        let answer = row_reader::rows_above_after(
            &mut self.conn,
            self.alloc,
            kind,
            institution,
            above,
            page,
        );
        noted(&mut self.failed, answer)
    }

    fn few_studies_in(
        &mut self,
        institution: &[u8],
        choice: &Choice,
        many: usize,
    ) -> Result<Option<Listed<Row>>, TableFault> {
        let answer = study_index::few_studies_in(
            &mut self.conn,
            self.alloc,
            institution,
            choice,
            many,
        );
        noted(&mut self.failed, answer)
    }

    fn waiting_after(
        &mut self,
        institution: &[u8],
        after: Option<&[u8]>,
        most: usize,
    ) -> Result<Listed<Row>, TableFault> {
        let page = KeyPage { after, most };
        let answer = row_reader::waiting_after(&mut self.conn, self.alloc, institution, page);
        noted(&mut self.failed, answer)
    }

    fn count(&mut self, kind: Kind, institution: &[u8]) -> Result<u64, TableFault> {
        let answer = row_reader::count(&mut self.conn, kind, institution);
        noted(&mut self.failed, answer)
    }

    fn count_above(
        &mut self,
        kind: Kind,
        institution: &[u8],
        above: &[u8],
    ) -> Result<u64, TableFault> {
        let answer = row_reader::count_above(&mut self.conn, kind, institution, above);
        noted(&mut self.failed, answer)
    }

    fn failed(&self) -> bool {
        self.failed
    }

    fn apply(&mut self, change: &Change) -> Result<(), TableFault> {
        match row_writer::commit(&mut self.conn, self.alloc, change) {
            Ok(()) => {
                self.history = self.history.then(change);
                Ok(())
            }
            Err(fault) => noted(&mut self.failed, Err(fault)),
        }
    }
}
