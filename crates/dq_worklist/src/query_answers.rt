//! The answers to a worklist query (PS3.4 section K.4.1.3).
ghost use Rattle.std.specs.Prelude.{◌≡◌, false, List, [], IfOk};
ghost use Rattle.std.specs.Option.{option_copied, option_to_list};
ghost use Rattle.std.specs.List.{filter_map};
ghost use Rattle.std.specs.Result.{result_ok};
ghost use Rattle.dq_dimse.specs.Holding.{plain_message};
ghost use Rattle.dq_dimse.specs.Receiving.{identifier_in};
ghost use Rattle.dq_match.specs.Parts.{found_of, with_others};
ghost use Rattle.dq_match.specs.Identifiers.{HasKnownTags};
ghost use Rattle.dq_match.specs.Matching.{fits};
ghost use Rattle.dq_match.specs.ShownPages.{found_page};
ghost use Rattle.dq_match.specs.declared.responses.Found.{Found as TheFound};
ghost use Rattle.dq_tables.specs.Records.{data_set_of};
ghost use Rattle.dq_tables.specs.TableStates.{Reads};
ghost use Rattle.dq_tables.specs.Rows.{Record, of, record_of};
ghost use Rattle.dq_tables.specs.Lookups.{waiting_among};
ghost use Rattle.dq_archive.specs.Archives.{QueriesOnly};
ghost use Rattle.dq_worklist.specs.Candidates.{id_asked, entry_candidates, entry_answer};
ghost use Rattle.dq_worklist.specs.EntryReads.{Takes, last_key, row_answers};
ghost use Rattle.dq_tables.specs.ServiceEffects.{Serves};
ghost use Rattle.dq_worklist.specs.Queries.{listed_by, worklist_outcome, keys_outcome};

use crate::worklist_query::{Query, query_at, query_of};
use dq_archive::Archive;
use dq_config::Institution;
use dq_dataset::{DataSet, Syntax};
use dq_dimse::Message;
use dq_dimse::status::SUCCESS;
use dq_list::Listed;
use dq_match::laws::keys_are_met_alone_and_as_a_period;
use dq_match::{Found, PageCollector, PreparedKeys, ShownPage, is_plain, shown};
use dq_tables::laws::honest_rows_are_sound;
use dq_tables::{Kind, Row, TableFault, Tables, sole_item_at};
use dq_vr::{Tag, tags};
use std::alloc::{AllocError, Global};

/// Keys that a kept element does not meet alone: those that tell how a query is answered, and the
/// start of a procedure step, which may be met as a period.
static MET_LATER: [Tag; 6] = [
    tags::SPECIFIC_CHARACTER_SET,
    tags::QUERY_RETRIEVE_LEVEL,
    tags::RETRIEVE_AE_TITLE,
    tags::INSTANCE_AVAILABILITY,
    tags::SCHEDULED_PROCEDURE_STEP_START_DATE,
    tags::SCHEDULED_PROCEDURE_STEP_START_TIME,
];

/// So many entries are read in one call of the tables, at most: each may have 16 MiB.
const ENTRIES_AT_ONCE: usize = 16;

/// The id of the step that the keys ask for, where it is one value without wild cards.
#[tactic(auto, unfolding(crate::specs::Candidates::id_asked))]
fn id_asked(keys: &DataSet) -> Option<&[u8]>
    ensures { option_copied result ≡ id_asked keys.now }
{
    let step = sole_item_at(keys, tags::SCHEDULED_PROCEDURE_STEP_SEQUENCE)?;
    let id = step.sole_value(tags::SCHEDULED_PROCEDURE_STEP_ID)?;
    if is_plain(id) { Some(id) } else { None }
}

/// A row that was looked up, where there is one.
fn listed(alloc: Global, row: Option<Row>) -> Result<Listed<Row>, AllocError>
    ensures { IfOk result (λ rows. rows ≡ option_to_list row) }
{
    let mut rows = Listed::empty(alloc);
    if let Some(row) = row {
        rows.push(row)?;
    }
    Ok(rows)
}

/// Whether an entry can fit the keys, as far as its octets tell before they are read.
fn may_fit(keys: &PreparedKeys, row: &Row) -> bool
    ensures { result ≡ false → fits keys.now (data_set_of row.now.octets) ≡ false }
{
    keys_are_met_alone_and_as_a_period();
    keys.lent_meets(&MET_LATER, row.octets.as_slice())
}

/// The answer that a row gives to the keys. An entry that a performed procedure step has started is
/// no longer listed (PS3.4 section K.6.1.2).
fn answer_of(
    alloc: Global,
    keys: &DataSet,
    prepared: &PreparedKeys,
    row: &Row,
) -> Result<Option<DataSet>, AllocError>
    requires known { HasKnownTags keys.now }
    requires prepared { prepared.now ≡ keys.now }
    ensures { IfOk result (λ answer. answer ≡ entry_answer keys.now (record_of row.now)) }
{
    if row.started || !may_fit(prepared, row) {
        return Ok(None);
    }
    let held = row.data_set(alloc)?;
    if !prepared.fits(&held) {
        return Ok(None);
    }
    Ok(Some(shown(alloc, keys, &held)?))
}

/// Takes the answers that rows give to the keys into a page, in their order. No row is looked at once it is full.
fn take_answers(
    alloc: Global,
    keys: &DataSet,
    prepared: &PreparedKeys,
    rows: &[Row],
    page: &mut PageCollector,
) -> Result<(), AllocError>
    requires known { HasKnownTags keys.now }
    requires prepared { prepared.now ≡ keys.now }
    ensures { IfOk result (λ _. Takes page.old (row_answers keys.now rows.now) page.new) }
{
    for row in rows {
        if page.is_full() {
            return Ok(());
        }
        let answer = answer_of(alloc, keys, prepared, row)?;
        page.take(answer)?;
    }
    Ok(())
}

/// The octets of a key, if there is one.
fn octets_of(key: &Option<Listed<u8>>) -> Option<&[u8]>
    ensures { option_copied result ≡ key.now }
{
    match key {
        Some(key) => Some(key.as_slice()),
        None => None,
    }
}

/// The key of the last of some rows.
fn last_key(rows: Listed<Row>) -> Option<Listed<u8>>
    ensures { result ≡ last_key rows }
{
    let mut rows = rows.into_inner();
    let last = rows.pop()?;
    Some(last.key)
}

/// The answers that the entries that wait give to the keys, those of them that a page takes. The entries are
/// read a few at a time, and none once the page is full.
fn answers_of_waiting<T: Tables>(
    archive: &mut Archive<'_, T>,
    keys: &DataSet,
    prepared: &PreparedKeys,
    mut page: PageCollector,
) -> Result<Listed<DataSet>, TableFault>
    requires known { HasKnownTags keys.now }
    requires prepared { prepared.now ≡ keys.now }
    ensures { QueriesOnly T.state archive.old archive.new (λ records. with_others page
        (filter_map (entry_answer keys.now) (waiting_among records))) result }
{
    honest_rows_are_sound::<T>();
    let mut after = None;
    for _ in 0..u64::MAX {
        if page.is_full() {
            return Ok(page.into_answers());
        }
        let rows = archive.waiting_after(octets_of(&after), ENTRIES_AT_ONCE)?;
        take_answers(archive.alloc, keys, prepared, rows.as_slice(), &mut page)?;
        let Some(key) = last_key(rows) else {
            return Ok(page.into_answers());
        };
        after = Some(key);
    }
    Err(TableFault::NoMemory)
}

/// The answers that the entries give to the keys which are looked at, those of them that a page takes: where
/// the keys ask for one step's id, no other entry can match, and where they do not, none that is started.
fn answers_of<T: Tables>(
    archive: &mut Archive<'_, T>,
    keys: &DataSet,
    mut page: PageCollector,
) -> Result<Listed<DataSet>, TableFault>
    requires { HasKnownTags keys.now }
    ensures { QueriesOnly T.state archive.old archive.new (λ records. with_others page
        (filter_map (entry_answer keys.now) (entry_candidates records keys.now))) result }
{
    let prepared = PreparedKeys::of(archive.alloc, keys)?;
    let Some(id) = id_asked(keys) else {
        return answers_of_waiting(archive, keys, &prepared, page);
    };
    let row = archive.row(Kind::Entry, id)?;
    let rows = listed(archive.alloc, row)?;
    take_answers(archive.alloc, keys, &prepared, rows.as_slice(), &mut page)?;
    Ok(page.into_answers())
}

/// Takes all answers, or those of a page.
fn collector(alloc: Global, page: Option<ShownPage>) -> PageCollector
    ensures { (found : TheFound) → with_others result found.answers ≡ (found_of page found).answers }
{
    match page {
        Some(page) => PageCollector::of_page(alloc, page),
        None => PageCollector::of_all(alloc),
    }
}

/// Answers a worklist C-FIND from the entries of an institution that wait: those that fit, in order
/// of the octets of their key, each with what the keys ask for. It is refused with status A700 where
/// the identifier is too long, C000 where it is unreadable, and A900 where it has values that are
/// not well formed (PS3.4 section K.4.1.1.4).
#[tactic(auto, using(dq_tables::proofs::TableCalls::serves_read))]
pub fn query<T: Tables>(
    tables: &mut T,
    institution: &Institution,
    message: &Message,
    syntax: Syntax,
) -> Result<Found, TableFault>
    ensures { Serves (T.state tables.old) (T.state tables.new) institution.now.name
        (λ (records : List Record). (worklist_outcome records (plain_message message.now) syntax, [])) result }
{
    let (found, _) = query_with_identifier(tables, institution, message, syntax)?;
    Ok(found)
}

/// Answers a worklist C-FIND as `query` does. Gives back the identifier too, if it can be read.
#[tactic(auto, unfolding(crate::specs::Queries::worklist_outcome, crate::specs::Queries::worklist_query))]
pub fn query_with_identifier<T: Tables>(
    tables: &mut T,
    institution: &Institution,
    message: &Message,
    syntax: Syntax,
) -> Result<(Found, Option<DataSet>), TableFault>
    ensures found { (T.state tables.new).honest → IfOk result (λ given. given.0 ≡ worklist_outcome
        (of institution.now.name (T.state tables.old).rows) (plain_message message.now) syntax) }
    ensures identifier { IfOk result (λ given.
        given.1 ≡ result_ok (identifier_in (plain_message message.now) syntax)) }
    ensures reads { Reads (T.state tables.old) (T.state tables.new) result }
{
    let mut archive = Archive::new(tables, institution);
    let identifier = message.identifier(archive.alloc, syntax)?;
    let asked = query_of(archive.alloc, &identifier)?;
    let found = answers_to(&mut archive, asked, None)?;
    Ok((found, identifier.ok()))
}

/// Answers keys that no message brought, as `query` answers the identifier of a message. Returns a page
/// of the answers. Nothing is changed.
#[tactic(auto, unfolding(crate::specs::Queries::keys_outcome))]
pub fn query_by_keys<T: Tables>(
    tables: &mut T,
    institution: &Institution,
    identifier: &DataSet,
    page: ShownPage,
) -> Result<Found, TableFault>
    ensures found { (T.state tables.new).honest → IfOk result (λ found. found ≡ found_page page
        (keys_outcome (of institution.now.name (T.state tables.old).rows) identifier.now)) }
    ensures reads { Reads (T.state tables.old) (T.state tables.new) result }
{
    let mut kept = Archive::new(tables, institution);
    let asked = query_at(kept.alloc, identifier)?;
    answers_to(&mut kept, asked, Some(page))
}

/// The answers to a query, all or those of a page, or the status that refuses it.
fn answers_to<T: Tables>(
    archive: &mut Archive<'_, T>,
    asked: Result<Query, u16>,
    page: Option<ShownPage>,
) -> Result<Found, TableFault>
    requires { IfOk asked (λ query. HasKnownTags query.keys) }
    ensures { QueriesOnly T.state archive.old archive.new (λ (records : List Record).
        found_of page (listed_by records asked)) result }
{
    let query = match asked {
        Ok(query) => query,
        Err(status) => return Ok(Found::refused(archive.alloc, status)),
    };
    query.keys.has_facts();
    honest_rows_are_sound::<T>();
    keys_are_met_alone_and_as_a_period();
    let page = collector(archive.alloc, page);
    let answers = answers_of(archive, &query.keys, page)?;
    Ok(Found {
        status: SUCCESS,
        optional: query.optional,
        answers,
    })
}
