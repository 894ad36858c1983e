//! An archive as it was.
ghost use Rattle.std.specs.Prelude.{◌≡◌, ◌≤◌, None, IfOk, length, take, drop, map, option_map};
ghost use Rattle.std.specs.Option.{option_copied};
ghost use Rattle.dq_tables.specs.declared.row.Kind.TheVariants.{Study};
ghost use Rattle.dq_tables.specs.Rows.{row_of};
ghost use Rattle.dq_tables.specs.Lookups.{record_at, records_of, records_above, records_after, records_behind, rows_of};
ghost use Rattle.dq_tables.specs.StudyChoices.{studies_among};
ghost use Rattle.dq_archive.specs.Additions.{unless_later};
ghost use Rattle.dq_archive.specs.PastArchives.{IsOver, QueriesOnly, QueriesFew, state_in};

use crate::additions::{Addition, before, count_of, is_later, is_touched};
use dq_config::Institution;
use dq_list::Listed;
use dq_tables::laws::honest_rows_are_sound;
use dq_tables::{Choice, Kind, Row, TableFault, Tables};
use std::alloc::Global;

/// One institution's records as they were before some were added. A record is only added to the
/// studies, the series and the images, and never changed or taken away, so those that there were are
/// those that there are, but for those that were added.
#[derive(Drop)]
pub struct Past<'a, T> {
    pub alloc: Global,
    pub institution: &'a Institution,
    tables: &'a mut T,
    later: &'a [Addition],
}

impl<'a, T: Tables> Past<'a, T> {
    /// The archive of an institution before some records were added.
    pub fn new(
        tables: &'a mut T,
        institution: &'a Institution,
        later: &'a [Addition],
    ) -> Past<'a, T>
        ensures tables { IsOver tables.entry result }
        ensures institution { result.institution ≡ institution.entry }
        ensures later { result.later ≡ later.entry }
    {
        Past {
            alloc: tables.alloc(),
            institution,
            tables,
            later,
        }
    }

    /// Returns the record of a kind with the key, as a row.
    pub fn row(&mut self, kind: Kind, key: &[u8]) -> Result<Option<Row>, TableFault>
        ensures { QueriesOnly T.state self.old self.new (λ records.
            option_map (row_of self.old.institution.now.name)
            (record_at kind key.now records)) result }
    {
        honest_rows_are_sound::<T>();
        let name = self.institution.name.as_slice();
        let row = self.tables.row(kind, name, key)?;
        Ok(self.unless_later(row))
    }

    /// The institution's records of a kind from a place on, at most so many, as rows in the order of
    /// their keys.
    pub fn rows_from(
        &mut self,
        kind: Kind,
        from: usize,
        most: usize,
    ) -> Result<Listed<Row>, TableFault>
        ensures { QueriesOnly T.state self.old self.new (λ records.
            map (row_of self.old.institution.now.name)
            (take most (drop from (records_of kind records)))) result }
    {
        honest_rows_are_sound::<T>();
        let name = self.institution.name.as_slice();
        let added = count_of(self.later, kind);
        if added == 0 {
            return self.tables.rows_from(kind, name, from, most);
        }
        let Some(end) = from.checked_add(most) else {
            return Err(TableFault::NoMemory);
        };
        let Some(all) = end.checked_add(added) else {
            return Err(TableFault::NoMemory);
        };
        let rows = self.tables.rows_from(kind, name, 0, all)?;
        let rows = before(self.alloc, self.later, rows)?;
        Ok(cut(rows, from, most))
    }

    /// The institution's records of a kind with keys behind a key, at most so many, as rows in the
    /// order of their keys.
    pub fn rows_after(
        &mut self,
        kind: Kind,
        key: &[u8],
        most: usize,
    ) -> Result<Listed<Row>, TableFault>
        ensures { QueriesOnly T.state self.old self.new (λ records.
            map (row_of self.old.institution.now.name)
            (take most (records_after kind key.now records))) result }
    {
        honest_rows_are_sound::<T>();
        let name = self.institution.name.as_slice();
        let added = count_of(self.later, kind);
        if added == 0 {
            return self.tables.rows_after(kind, name, key, most);
        }
        let Some(all) = most.checked_add(added) else {
            return Err(TableFault::NoMemory);
        };
        let rows = self.tables.rows_after(kind, name, key, all)?;
        let rows = before(self.alloc, self.later, rows)?;
        Ok(cut(rows, 0, most))
    }

    /// The records of a kind under the record with the key `above`, as rows in the order of their
    /// keys.
    pub fn rows_above(&mut self, kind: Kind, above: &[u8]) -> Result<Listed<Row>, TableFault>
        ensures { QueriesOnly T.state self.old self.new (λ records.
            map (row_of self.old.institution.now.name)
            (records_above kind above.now records)) result }
    {
        let name = self.institution.name.as_slice();
        let rows = self.tables.rows_above(kind, name, above)?;
        Ok(before(self.alloc, self.later, rows)?)
    }

    /// Those of them with keys behind a key, or all without a key, at most so many.
    pub fn rows_above_after(
        &mut self,
        kind: Kind,
        above: &[u8],
        after: Option<&[u8]>,
        most: usize,
    ) -> Result<Listed<Row>, TableFault>
        ensures { QueriesOnly T.state self.old self.new (λ records.
            map (row_of self.old.institution.now.name) (take most
            (records_behind (option_copied after.entry) (records_above kind above.now records)))) result }
    {
        honest_rows_are_sound::<T>();
        let name = self.institution.name.as_slice();
        let added = count_of(self.later, kind);
        if added == 0 {
            return self.tables.rows_above_after(kind, name, above, after, most);
        }
        let Some(all) = most.checked_add(added) else {
            return Err(TableFault::NoMemory);
        };
        let rows = self.tables.rows_above_after(kind, name, above, after, all)?;
        let rows = before(self.alloc, self.later, rows)?;
        Ok(cut(rows, 0, most))
    }

    /// Counts the institution's records of a kind under the record with the key `above`.
    pub fn count_above(&mut self, kind: Kind, above: &[u8]) -> Result<u64, TableFault>
        ensures { QueriesOnly T.state self.old self.new
            (λ records. length (records_above kind above.now records)) result }
    {
        if !is_touched(self.later, kind, above) {
            let name = self.institution.name.as_slice();
            return self.tables.count_above(kind, name, above);
        }
        let rows = self.rows_above(kind, above)?;
        Ok(rows.len() as u64)
    }

    /// The studies that a choice takes, as rows in the order of their keys. There may be no answer where the
    /// institution has so many studies or more.
    pub fn few_studies_in(
        &mut self,
        choice: &Choice,
        many: usize,
    ) -> Result<Option<Listed<Row>>, TableFault>
        ensures few { QueriesFew T.state self.old self.new (λ records.
            map (row_of self.old.institution.now.name)
            (studies_among choice.now records)) result }
        ensures many { (state_in T.state self.new).honest → IfOk result (λ few. few ≡ None
            → many ≤ length (rows_of Study self.old.institution.now.name (state_in T.state self.old).rows)) }
    {
        let name = self.institution.name.as_slice();
        match self.tables.few_studies_in(name, choice, many)? {
            Some(rows) => Ok(Some(before(self.alloc, self.later, rows)?)),
            None => Ok(None),
        }
    }

    /// A row that was looked up, unless it was added later.
    fn unless_later(&self, row: Option<Row>) -> Option<Row>
        ensures { result ≡ unless_later self.now.later.now row }
    {
        let row = row?;
        if is_later(self.later, &row) {
            None
        } else {
            Some(row)
        }
    }
}

/// The rows of a list from a place on, at most so many.
fn cut(rows: Listed<Row>, from: usize, most: usize) -> Listed<Row>
    ensures { result ≡ take most (drop from rows) }
{
    let mut rows = rows.into_inner();
    let before = from.min(rows.len());
    let _ = rows.drain(..before);
    rows.truncate(most);
    Listed::from_inner(rows)
}
