//! A keeper of rows that remembers how many there are.
ghost use Rattle.std.specs.Prelude.{◌≡◌};
ghost use Rattle.dq_counts.specs.Counts.{AreRightOf};

use crate::counts::Counts;
use dq_list::Listed;
use dq_tables::{Change, Choice, Kind, Row, TableFault, Tables};
use std::alloc::Global;

/// Tables that remember how many rows of a kind an institution has, once these were counted. The
/// number follows each change, so that a limit costs as much among many rows as among few.
#[derive(Drop)]
pub struct CountedTables<T: Tables> {
    /// What keeps the rows.
    pub tables: T,
    counts: Counts,
    ghost right: { AreRightOf (T.state tables) counts },
}

impl<T: Tables> CountedTables<T> {
    /// The tables, of which nothing is counted yet. It takes no memory.
    pub fn new(tables: T) -> CountedTables<T>
        ensures { result.tables ≡ tables }
    {
        let counts = Counts::new(tables.alloc());
        CountedTables { tables, counts }
    }

    /// What keeps the rows. It takes no memory.
    pub fn into_inner(self) -> T
        ensures { result ≡ self.tables }
    {
        let CountedTables { tables, counts: _ } = self;
        tables
    }
}

#[tactic(auto, using(crate::proofs::RememberedCounts::read_right))]
impl<T: Tables> Tables for CountedTables<T> {
    ghost state = { λ t. T.state t.tables };

    ghost sound = { λ t. T.sound t.tables };

    ghost left_sound = { λ t. T.left_sound t.tables };

    fn alloc(&self) -> Global {
        self.tables.alloc()
    }

    fn row(
        &mut self,
        kind: Kind,
        institution: &[u8],
        key: &[u8],
    ) -> Result<Option<Row>, TableFault> {
        self.tables.row(kind, institution, key)
    }

    fn rows_of(&mut self, kind: Kind, institution: &[u8]) -> Result<Listed<Row>, TableFault> {
        self.tables.rows_of(kind, institution)
    }

    fn rows_from(
        &mut self,
        kind: Kind,
        institution: &[u8],
        from: usize,
        most: usize,
    ) -> Result<Listed<Row>, TableFault> {
        self.tables.rows_from(kind, institution, from, most)
    }

    fn rows_after(
        &mut self,
        kind: Kind,
        institution: &[u8],
        key: &[u8],
        most: usize,
    ) -> Result<Listed<Row>, TableFault> {
        self.tables.rows_after(kind, institution, key, most)
    }

    fn rows_above(
        &mut self,
        kind: Kind,
        institution: &[u8],
        above: &[u8],
    ) -> Result<Listed<Row>, TableFault> {
        self.tables.rows_above(kind, institution, above)
    }

    fn rows_above_after(
        &mut self,
        kind: Kind,
        institution: &[u8],
        above: &[u8],
        after: Option<&[u8]>,
        most: usize,
    ) -> Result<Listed<Row>, TableFault> {
        self.tables
            .rows_above_after(kind, institution, above, after, most)
    }

    fn few_studies_in(
        &mut self,
        institution: &[u8],
        choice: &Choice,
        many: usize,
    ) -> Result<Option<Listed<Row>>, TableFault> {
        self.tables.few_studies_in(institution, choice, many)
    }

    fn waiting_after(
        &mut self,
        institution: &[u8],
        after: Option<&[u8]>,
        most: usize,
    ) -> Result<Listed<Row>, TableFault> {
        self.tables.waiting_after(institution, after, most)
    }

    fn count(&mut self, kind: Kind, institution: &[u8]) -> Result<u64, TableFault> {
        if let Some(number) = self.counts.get(kind, institution) {
            return Ok(number);
        }
        let number = self.tables.count(kind, institution)?;
        self.counts
            .note(self.tables.alloc(), kind, institution, number)?;
        Ok(number)
    }

    fn count_above(
        &mut self,
        kind: Kind,
        institution: &[u8],
        above: &[u8],
    ) -> Result<u64, TableFault> {
        self.tables.count_above(kind, institution, above)
    }

    fn failed(&self) -> bool {
        self.tables.failed()
    }

    fn apply(&mut self, change: &Change) -> Result<(), TableFault> {
        self.tables.apply(change)?;
        self.counts.follow(change);
        Ok(())
    }
}
