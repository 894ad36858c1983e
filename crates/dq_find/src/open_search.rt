//! A search that is open: its answers are found a page at a time.
ghost use Rattle.std.specs.Prelude.{◌≡◌, ◌<◌, [], true, None, List, take, drop, map, IfOk};
ghost use Rattle.std.specs.Option.{option_copied};
ghost use Rattle.dq_match.specs.Identifiers.{HasKnownTags};
ghost use Rattle.dq_tables.specs.Rows.{Record, row_of};
ghost use Rattle.dq_archive.specs.PastArchives.{QueriesOnly};
ghost use Rattle.dq_find.specs.OpenSearches.{Begins, Skips, TakesNext, TakesPage, keys_behind, next_candidates, left_after, left_of, last_key};
ghost use Rattle.dq_find.specs.StudyImages.{TakesAnswers};
ghost use Rattle.dq_find.specs.declared.level.Level.TheVariants.{Study};
ghost use Rattle.dq_find.specs.declared.open_search.SearchCursor.TheVariants.{Under};

use crate::level::Level;
use crate::query::Query;
use crate::search::{Search, few_keys};
use dq_archive::Past;
use dq_dataset::DataSet;
use dq_list::Listed;
use dq_match::laws::{keys_are_met_alone_and_as_a_period, universal_keys_are_met};
use dq_match::{PageCollector, PreparedKeys, asks_nothing};
use dq_tables::laws::{day_numbers_are_in_order, honest_rows_are_sound};
use dq_tables::{Kind, Row, TableFault, Tables};
use std::alloc::{AllocError, Global};

/// So many records are looked at in one call of the tables, at most.
pub(crate) const MOST_AT_ONCE: usize = 256;

/// The records that a search has still to look at.
#[derive(Drop)]
pub(crate) enum SearchCursor {
    /// The records of the query's level under the unique keys above it, in the order of their keys: all, or those
    /// behind a key.
    Under(Option<Listed<u8>>),
    /// The records with some keys, from a place on.
    Named(Listed<Listed<u8>>, usize),
    Nothing,
}

/// An open search: the called AE title, the query, and where it goes on.
#[derive(Drop)]
pub struct OpenSearch {
    called: Listed<u8>,
    pub(crate) query: Query,
    cursor: SearchCursor,
}

/// The part of some keys from a place on, at most so many.
fn part(keys: &[Listed<u8>], from: usize, most: usize) -> &[Listed<u8>]
    ensures { result.now ≡ take most (drop from keys.now) }
{
    let from = from.min(keys.len());
    let rest = &keys[from..];
    let most = most.min(rest.len());
    &rest[..most]
}

/// A copy of a key, if there is one.
fn key_copy(alloc: Global, key: Option<&[u8]>) -> Result<Option<Listed<u8>>, AllocError>
    ensures { IfOk result (λ copy. copy ≡ option_copied key.entry) }
{
    let Some(key) = key else {
        return Ok(None);
    };
    Ok(Some(Listed::copy_of(alloc, key)?))
}

/// The octets of a key, if there is one.
pub(crate) fn lent_key(key: &Option<Listed<u8>>) -> Option<&[u8]>
    ensures { option_copied result ≡ key.now }
{
    match key {
        Some(key) => Some(key.as_slice()),
        None => None,
    }
}

/// Those of some keys that come behind a key in the order of octets; all where there is no key.
fn keys_behind(keys: Listed<Listed<u8>>, after: Option<&[u8]>) -> Listed<Listed<u8>>
    ensures { result ≡ keys_behind (option_copied after.entry) keys }
{
    let Some(after) = after else {
        return keys;
    };
    let mut keys = keys.into_inner();
    keys.retain(|key| key.as_slice().cmp(after).is_gt());
    Listed::from_inner(keys)
}

/// The key of the last of some rows.
pub(crate) fn last_key(rows: Listed<Row>) -> Option<Listed<u8>>
    ensures { result ≡ last_key rows }
{
    let mut rows = rows.into_inner();
    let last = rows.pop()?;
    Some(last.key)
}

impl SearchCursor {
    /// Whether it is before the first of all records under the unique keys above.
    fn is_at_first(&self) -> bool
        ensures { result ≡ true → self.now ≡ Under None }
    {
        match self {
            SearchCursor::Under(None) => true,
            SearchCursor::Under(Some(_)) | SearchCursor::Named(_, _) | SearchCursor::Nothing =>
                false,
        }
    }

    /// The rows that are looked at next, at most so many.
    fn next_rows<T: Tables>(
        &self,
        archive: &mut Past<'_, T>,
        search: &Search<'_>,
        most: usize,
    ) -> Result<Listed<Row>, TableFault>
        ensures { QueriesOnly T.state archive.old archive.new (λ records.
            map (row_of archive.old.institution.now.name)
            (next_candidates most records search.now.query.now self.now)) result }
    {
        match self {
            SearchCursor::Under(after) => search.rows_behind(archive, lent_key(after), most),
            SearchCursor::Named(keys, from) => {
                let next = part(keys.as_slice(), *from, most);
                search.rows_with(archive, next)
            }
            SearchCursor::Nothing => Ok(Listed::empty(archive.alloc)),
        }
    }

    /// Leaves what was looked at behind.
    fn pass(&mut self, rows: Listed<Row>, most: usize)
        ensures { self.new ≡ left_after most rows self.old }
    {
        match self {
            SearchCursor::Under(_) => {
                *self = match last_key(rows) {
                    Some(key) => SearchCursor::Under(Some(key)),
                    None => SearchCursor::Nothing,
                };
            }
            SearchCursor::Named(keys, from) => *from += part(keys.as_slice(), *from, most).len(),
            SearchCursor::Nothing => {}
        }
    }
}

impl OpenSearch {
    /// Begins a search among the records behind a key, or among all without a key. All its answers are left.
    pub fn begin<T: Tables>(
        archive: &mut Past<'_, T>,
        called: &[u8],
        query: Query,
        after: Option<&[u8]>,
    ) -> Result<OpenSearch, TableFault>
        requires { HasKnownTags query.keys }
        ensures { Begins T.state archive.old archive.new called.now query (option_copied after.entry) result }
    {
        honest_rows_are_sound::<T>();
        day_numbers_are_in_order();
        keys_are_met_alone_and_as_a_period();
        query.keys.has_facts();
        let called = Listed::copy_of(archive.alloc, called)?;
        let Some(keys) = few_keys(archive, &query)? else {
            let behind = key_copy(archive.alloc, after)?;
            return Ok(OpenSearch {
                called,
                query,
                cursor: SearchCursor::Under(behind),
            });
        };
        Ok(OpenSearch {
            called,
            query,
            cursor: SearchCursor::Named(keys_behind(keys, after), 0),
        })
    }

    /// Whether all studies are left.
    fn is_at_first_study(&self) -> bool
        ensures { result ≡ true → (self.now.cursor ≡ Under None) × (self.now.query.level ≡ Study) }
    {
        self.query.level == Level::Study && self.cursor.is_at_first()
    }

    /// Passes over the first answers, so many, with one look, if each study is an answer since nothing is
    /// asked of them; otherwise over none. Returns how many are still to be passed over.
    pub(crate) fn skip<T: Tables>(
        &mut self,
        archive: &mut Past<'_, T>,
        count: usize,
    ) -> Result<usize, TableFault>
        ensures { Skips T.state archive.old archive.new count self.old self.new result }
    {
        honest_rows_are_sound::<T>();
        universal_keys_are_met();
        if count == 0 || !self.is_at_first_study() || !asks_nothing(&self.query.keys) {
            return Ok(count);
        }
        let rows = archive.rows_from(Kind::Study, count - 1, 1)?;
        self.cursor.pass(rows, 1);
        Ok(0)
    }

    /// Looks at the next records, at most so many, and returns their answers.
    pub fn next_page<T: Tables>(
        &mut self,
        archive: &mut Past<'_, T>,
        most: usize,
    ) -> Result<Listed<DataSet>, TableFault>
        requires some { 0 < most }
        requires known { HasKnownTags self.old.query.keys }
        ensures { TakesPage T.state archive.old archive.new most self.old self.new result }
    {
        let mut page = PageCollector::of_all(archive.alloc);
        self.take_next(archive, &mut page, most)?;
        Ok(page.into_answers())
    }

    /// Takes the answers that are left into a page. Looks at no more than `first` records at first, then at
    /// twice as many each time; at none once the page is full.
    pub(crate) fn fill<T: Tables>(
        &mut self,
        archive: &mut Past<'_, T>,
        page: &mut PageCollector,
        first: usize,
    ) -> Result<(), TableFault>
        requires known { HasKnownTags self.old.query.keys }
        ensures { TakesAnswers T.state archive.old archive.new page.old page.new (left_of self.old) result }
    {
        let mut most = first.min(MOST_AT_ONCE).max(1);
        for _ in 0..u64::MAX {
            if page.is_full() || self.is_done() {
                return Ok(());
            }
            self.take_next(archive, page, most)?;
            most = most.saturating_mul(2).min(MOST_AT_ONCE);
        }
        Err(TableFault::NoMemory)
    }

    /// Looks at the next records, at most so many, and takes their answers into a page.
    fn take_next<T: Tables>(
        &mut self,
        archive: &mut Past<'_, T>,
        page: &mut PageCollector,
        most: usize,
    ) -> Result<(), TableFault>
        requires some { 0 < most }
        requires known { HasKnownTags self.old.query.keys }
        ensures { TakesNext T.state archive.old archive.new most self.old self.new page.old page.new result }
    {
        honest_rows_are_sound::<T>();
        let prepared = PreparedKeys::of(archive.alloc, &self.query.keys)?;
        let search = Search {
            called: self.called.as_slice(),
            query: &self.query,
            prepared: &prepared,
        };
        let rows = self.cursor.next_rows(archive, &search, most)?;
        search.take_answers(archive, rows.as_slice(), page)?;
        self.cursor.pass(rows, most);
        Ok(())
    }

    /// Whether nothing is left to look at, so that no answer is left.
    pub fn is_done(&self) -> bool
        ensures { result ≡ true → (records : List Record) → left_of self.now records ≡ [] }
    {
        match &self.cursor {
            SearchCursor::Under(_) => false,
            SearchCursor::Named(keys, from) => keys.len() <= *from,
            SearchCursor::Nothing => true,
        }
    }
}
