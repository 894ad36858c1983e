//! The data that an institution is shown of what it keeps, a page at a time.
ghost use Rattle.std.specs.Prelude.{◌≡◌, map, take, option_copied, IfOk};
ghost use Rattle.dq_tables.specs.TableStates.{Reads};
ghost use Rattle.dq_tables.specs.Lookups.{records_of};
ghost use Rattle.dq_tables.specs.Rows.{of, row_of};
ghost use Rattle.dq_tables.specs.declared.row.Kind.TheVariants.{Step};
ghost use Rattle.dq_match.specs.ShownPages.{shown_page, found_page};
ghost use Rattle.dq_worklist.specs.EntryReads.{Takes, last_key};
ghost use Rattle.dq_core.specs.Showing.{found_in, steps_in};
ghost use Rattle.dq_core.specs.StepReads.{data_sets_of_rows, steps_at_once, steps_left};

use dq_config::Institution;
use dq_dataset::DataSet;
use dq_find::{find_by_keys, find_in_study};
use dq_list::Listed;
use dq_match::{Found, PageCollector, ShownPage};
use dq_tables::laws::honest_rows_are_sound;
use dq_tables::{Kind, Row, TableFault, Tables};
use dq_worklist::query_by_keys;
use std::alloc::{AllocError, Global};

/// Among what keys are searched.
#[derive(Debug, Drop)]
pub enum SearchKind {
    /// Studies, series or images, by the Query/Retrieve Level of the keys (PS3.4 annex C): all, or those whose
    /// unique keys come behind this one in the order of octets.
    StudyRoot { after: Option<Listed<u8>> },
    /// Images of all series of a study (PS3.18 section 10.6.1).
    StudyImages,
    /// Entries of the worklist that wait (PS3.4 annex K).
    Worklist,
}

/// So many steps are read in one call of the tables, at most: each may have 4 MiB.
const STEPS_AT_ONCE: usize = 16;

/// The octets of a key, if there is one.
fn octets_of(key: &Option<Listed<u8>>) -> Option<&[u8]>
    ensures { option_copied result ≡ key.now }
{
    match key {
        Some(key) => Some(key.as_slice()),
        None => None,
    }
}

/// Returns a page of what keys find among an institution's records.
#[tactic(auto, unfolding(crate::specs::Showing::found_in))]
pub(crate) fn search_page<T: Tables>(
    tables: &mut T,
    institution: &Institution,
    kind: &SearchKind,
    keys: &DataSet,
    page: ShownPage,
) -> Result<Found, TableFault>
    ensures found { (T.state tables.new).honest → IfOk result (λ found. found ≡ found_page page
        (found_in kind.now keys.now (of institution.now.name (T.state tables.old).rows))) }
    ensures reads { Reads (T.state tables.old) (T.state tables.new) result }
{
    match kind {
        SearchKind::StudyRoot { after } => {
            find_by_keys(tables, institution, keys, octets_of(after), page)
        }
        SearchKind::StudyImages => find_in_study(tables, institution, keys, page),
        SearchKind::Worklist => query_by_keys(tables, institution, keys, page),
    }
}

/// The key of the last of some rows.
fn last_key(rows: Listed<Row>) -> Option<Listed<u8>>
    ensures { result ≡ last_key rows }
{
    let mut rows = rows.into_inner();
    let last = rows.pop()?;
    Some(last.key)
}

/// Takes the data sets of rows into a page, in their order. No row is read once it is full.
fn take_data_sets(alloc: Global, rows: &[Row], page: &mut PageCollector) -> Result<(), AllocError>
    ensures { IfOk result (λ _. Takes page.old (data_sets_of_rows rows.now) page.new) }
{
    for row in rows {
        if page.is_full() {
            return Ok(());
        }
        let set = row.data_set(alloc)?;
        page.take(Some(set))?;
    }
    Ok(())
}

/// The next steps of an institution, a few of them: those from a place on, or those behind a key.
#[tactic(auto, using(dq_tables::proofs::OwnRows::window_own, dq_tables::proofs::OwnRows::page_own), unfolding(dq_tables::specs::Lookups::records_after))]
fn next_steps<T: Tables>(
    tables: &mut T,
    name: &[u8],
    from: usize,
    after: Option<&[u8]>,
) -> Result<Listed<Row>, TableFault>
    ensures found { (T.state tables.new).honest → IfOk result (λ rows. rows
        ≡ map (row_of name.now) (take steps_at_once (steps_left from (option_copied after.entry)
        (records_of Step (of name.now (T.state tables.old).rows))))) }
    ensures reads { Reads (T.state tables.old) (T.state tables.new) result }
{
    match after {
        Some(key) => tables.rows_after(Kind::Step, name, key, STEPS_AT_ONCE),
        None => tables.rows_from(Kind::Step, name, from, STEPS_AT_ONCE),
    }
}

/// A page of the performed procedure steps of an institution. They are read a few at a time, and none once the
/// page is full.
pub(crate) fn steps_page<T: Tables>(
    tables: &mut T,
    institution: &Institution,
    page: ShownPage,
) -> Result<Listed<DataSet>, TableFault>
    ensures found { (T.state tables.new).honest → IfOk result (λ found. found
        ≡ shown_page page (steps_in (of institution.now.name (T.state tables.old).rows))) }
    ensures reads { Reads (T.state tables.old) (T.state tables.new) result }
{
    honest_rows_are_sound::<T>();
    let alloc = tables.alloc();
    let limit = page.limit;
    let mut shown = PageCollector::of_page(alloc, ShownPage { offset: 0, limit });
    let name = institution.name.as_slice();
    let mut after = None;
    for _ in 0..u64::MAX {
        if shown.is_full() {
            return Ok(shown.into_answers());
        }
        let rows = next_steps(tables, name, page.offset, octets_of(&after))?;
        take_data_sets(alloc, rows.as_slice(), &mut shown)?;
        let Some(key) = last_key(rows) else {
            return Ok(shown.into_answers());
        };
        after = Some(key);
    }
    Err(TableFault::NoMemory)
}
