//! The answers to a query (PS3.4 sections C.4.1.3 and C.6.2).
ghost use Rattle.std.specs.Prelude.{◌≡◌, false, IfOk, List, None, map, take, option_map};
ghost use Rattle.std.specs.Option.{option_copied};
ghost use Rattle.std.specs.List.{filter_map};
ghost use Rattle.dq_list.specs.Octets.{octets_of_vectors};
ghost use Rattle.dq_match.specs.Identifiers.{HasKnownTags};
ghost use Rattle.dq_tables.specs.Rows.{Record, record_of, row_of};
ghost use Rattle.dq_tables.specs.declared.row.Kind.TheVariants.{Study as StudyKind};
ghost use Rattle.dq_tables.specs.Lookups.{records_of, records_behind};
ghost use Rattle.dq_tables.specs.StudyChoices.{studies_among};
ghost use Rattle.dq_archive.specs.PastArchives.{QueriesOnly, QueriesFew};
ghost use Rattle.dq_find.specs.StudyChoice.{choice_in};
ghost use Rattle.dq_find.specs.Candidates.{names_records, is_under, named_record, named_rows, looked_up};
ghost use Rattle.dq_find.specs.OpenSearches.{NamesCandidates};
ghost use Rattle.dq_find.specs.StudyImages.{TakesAnswers};
ghost use Rattle.dq_find.specs.ComputedKeys.{computed_keys};
ghost use Rattle.dq_value.specs.Parts.{element_values};
ghost use Rattle.dq_vr.specs.declared.Vr.TheVariants.{UI};
ghost use Rattle.dq_find.specs.Queries.{about_answers, key_above, asks_computed, asked_records, answer_if, record_answer};
ghost use Rattle.dq_tables.specs.declared.row.Row.{Row as TheRow};

use crate::computed_keys::{octets_at, series_computed, study_computed};
use crate::level::Level;
use crate::query::Query;
use crate::study_choice::choice_in;
use crate::texts::{Text, elements};
use dq_archive::Past;
use dq_dataset::DataSet;
use dq_list::Listed;
use dq_match::laws::keys_are_met_alone_and_as_a_period;
use dq_match::{PageCollector, PreparedKeys, in_order, shown};
use dq_tables::laws::honest_rows_are_sound;
use dq_tables::{Kind, Row, TableFault, Tables, uid_at};
use dq_value::{stripped, values};
use dq_vr::{Tag, Vr, tags};
use std::alloc::{AllocError, Global};
use std::collections::BTreeSet;

/// The keys that are computed (PS3.4 section C.3.4).
static COMPUTED: [Tag; 4] = [
    tags::MODALITIES_IN_STUDY,
    tags::NUMBER_OF_STUDY_RELATED_SERIES,
    tags::NUMBER_OF_STUDY_RELATED_INSTANCES,
    tags::NUMBER_OF_SERIES_RELATED_INSTANCES,
];

/// Keys that a kept element does not meet alone: those that tell how a query is answered, the
/// keys that are computed, and the start of a procedure step, which may be met as a period.
static MET_LATER: [Tag; 10] = [
    tags::SPECIFIC_CHARACTER_SET,
    tags::QUERY_RETRIEVE_LEVEL,
    tags::RETRIEVE_AE_TITLE,
    tags::INSTANCE_AVAILABILITY,
    tags::MODALITIES_IN_STUDY,
    tags::NUMBER_OF_STUDY_RELATED_SERIES,
    tags::NUMBER_OF_STUDY_RELATED_INSTANCES,
    tags::NUMBER_OF_SERIES_RELATED_INSTANCES,
    tags::SCHEDULED_PROCEDURE_STEP_START_DATE,
    tags::SCHEDULED_PROCEDURE_STEP_START_TIME,
];

/// Returns the elements that every answer has beside the keys.
fn about_answers(alloc: Global, called: &[u8], level: Level) -> Result<DataSet, AllocError>
    ensures { IfOk result (λ d. d ≡ about_answers called.now level) }
{
    let texts = [
        Text {
            tag: tags::QUERY_RETRIEVE_LEVEL,
            vr: Vr::CS,
            value: level.name(),
        },
        Text {
            tag: tags::RETRIEVE_AE_TITLE,
            vr: Vr::AE,
            value: stripped(called),
        },
        Text {
            tag: tags::INSTANCE_AVAILABILITY,
            vr: Vr::CS,
            value: b"UNAVAILABLE",
        },
    ];
    Ok(DataSet::from_elements(elements(alloc, &texts)?))
}

/// The value of a unique key of a level above, which is there.
pub(crate) fn key_above(keys: &DataSet, tag: Tag) -> &[u8]
    ensures { result.now ≡ key_above tag keys.now }
{
    match uid_at(keys, tag) {
        Some(uid) => uid,
        None => &[],
    }
}

/// A search that asks something of the studies chooses among them at once where the institution has fewer.
const FEW_STUDIES: usize = 1000;

/// Some keys, in their order.
fn key_list(alloc: Global, mut uids: BTreeSet<Vec<u8>>) -> Result<Listed<Listed<u8>>, AllocError>
    ensures { IfOk result (λ keys. keys ≡ octets_of_vectors uids.keys) }
{
    let mut keys = Listed::empty(alloc);
    while let Some(uid) = uids.pop_first() {
        keys.push(Listed::from_inner(uid))?;
    }
    Ok(keys)
}

/// The keys of some rows.
fn keys_of(alloc: Global, rows: Listed<Row>) -> Result<Listed<Listed<u8>>, AllocError>
    ensures { IfOk result (λ keys. keys ≡ map (λ (row : TheRow). row.key) rows) }
{
    let mut keys = Listed::empty(alloc);
    for row in rows.into_inner() {
        keys.push(row.key)?;
    }
    Ok(keys)
}

/// The studies with keys behind a key, or all without a key, at most so many, in the order of their keys.
#[tactic(auto, unfolding(dq_tables::specs::Lookups::records_after))]
fn studies_behind<T: Tables>(
    archive: &mut Past<'_, T>,
    after: Option<&[u8]>,
    most: usize,
) -> Result<Listed<Row>, TableFault>
    ensures { QueriesOnly T.state archive.old archive.new (λ records.
        map (row_of archive.old.institution.now.name) (take most
        (records_behind (option_copied after.entry) (records_of StudyKind records)))) result }
{
    match after {
        None => archive.rows_from(Kind::Study, 0, most),
        Some(key) => archive.rows_after(Kind::Study, key, most),
    }
}

/// The keys of the studies that the choice of a query takes, in their order. There may be no answer where the
/// institution has many studies, and there is none where the choice takes them all.
fn chosen_keys<T: Tables>(
    archive: &mut Past<'_, T>,
    query: &Query,
) -> Result<Option<Listed<Listed<u8>>>, TableFault>
    ensures { QueriesFew T.state archive.old archive.new (λ records.
        map (λ (r : Record). r.key) (studies_among (choice_in query.now.keys) records)) result }
{
    let choice = choice_in(archive.alloc, &query.keys)?;
    if choice.patient.is_none() && choice.first_day.is_none() && choice.last_day.is_none() {
        return Ok(None);
    }
    match archive.few_studies_in(&choice, FEW_STUDIES)? {
        Some(rows) => Ok(Some(keys_of(archive.alloc, rows)?)),
        None => Ok(None),
    }
}

/// The keys of the records that are looked at, if they are known at once. If the query gives its level's own unique
/// key values, it is these, since no record without one of them can match; of few studies it is the keys of those
/// that the choice takes.
pub(crate) fn few_keys<T: Tables>(
    archive: &mut Past<'_, T>,
    query: &Query,
) -> Result<Option<Listed<Listed<u8>>>, TableFault>
    ensures { NamesCandidates T.state archive.old archive.new query.now result }
{
    honest_rows_are_sound::<T>();
    let values = octets_at(&query.keys, query.level.unique_key());
    if names_records(values) {
        let uids = in_order(archive.alloc, Vr::UI, values)?;
        return Ok(Some(key_list(archive.alloc, uids)?));
    }
    match query.level {
        Level::Study => chosen_keys(archive, query),
        Level::Series | Level::Image => Ok(None),
    }
}

/// A query with its keys, read once for all records, and the title that was called.
#[derive(Clone, Copy)]
pub(crate) struct Search<'a> {
    pub called: &'a [u8],
    pub query: &'a Query,
    pub prepared: &'a PreparedKeys,
}

impl Search<'_> {
    /// The records of the level under the unique keys above it, of those with keys behind a key, or of all without a
    /// key, at most so many, in the order of their keys.
    pub(crate) fn rows_behind<T: Tables>(
        &self,
        archive: &mut Past<'_, T>,
        after: Option<&[u8]>,
        most: usize,
    ) -> Result<Listed<Row>, TableFault>
        ensures { QueriesOnly T.state archive.old archive.new (λ records.
            map (row_of archive.old.institution.now.name) (take most
            (records_behind (option_copied after.entry) (asked_records records self.now.query.now)))) result }
    {
        let keys = &self.query.keys;
        match self.query.level {
            Level::Study => studies_behind(archive, after, most),
            Level::Series => {
                let study = key_above(keys, tags::STUDY_INSTANCE_UID);
                archive.rows_above_after(Kind::Series, study, after, most)
            }
            Level::Image => {
                let series = key_above(keys, tags::SERIES_INSTANCE_UID);
                archive.rows_above_after(Kind::Image, series, after, most)
            }
        }
    }

    /// Whether a row is under the unique keys above its level.
    fn is_under(&self, row: &Row) -> bool
        ensures { result ≡ is_under self.now.query.now.level self.now.query.now.keys
            (record_of row.now) }
    {
        let keys = &self.query.keys;
        match self.query.level {
            Level::Study => true,
            Level::Series => row.above.as_slice() == key_above(keys, tags::STUDY_INSTANCE_UID),
            Level::Image => row.above.as_slice() == key_above(keys, tags::SERIES_INSTANCE_UID),
        }
    }

    /// A row that was looked up, where it is under them.
    fn looked_up(&self, row: Option<Row>) -> Option<Row>
        ensures { result ≡ looked_up self.now.query.now.level self.now.query.now.keys row }
    {
        let row = row?;
        if self.is_under(&row) { Some(row) } else { None }
    }

    /// The record of the level with a unique key, where it is under the unique keys above it.
    fn row_named<T: Tables>(
        &self,
        archive: &mut Past<'_, T>,
        uid: &[u8],
    ) -> Result<Option<Row>, TableFault>
        ensures { QueriesOnly T.state archive.old archive.new (λ records.
            option_map (row_of archive.old.institution.now.name)
            (named_record records self.now.query.now uid.now)) result }
    {
        let row = archive.row(self.query.level.kind(), uid)?;
        Ok(self.looked_up(row))
    }

    /// The records of the level with some unique keys, in the order of these.
    pub(crate) fn rows_with<T: Tables>(
        &self,
        archive: &mut Past<'_, T>,
        keys: &[Listed<u8>],
    ) -> Result<Listed<Row>, TableFault>
        ensures { QueriesOnly T.state archive.old archive.new (λ records.
            named_rows archive.old.institution.now.name records
            self.now.query.now keys.now) result }
    {
        let mut rows = Listed::empty(archive.alloc);
        for key in keys {
            let row = self.row_named(archive, key.as_slice())?;
            if let Some(row) = row {
                rows.push(row)?;
            }
        }
        Ok(rows)
    }

    /// Returns the computed elements of the record of the level with the key.
    fn computed<T: Tables>(
        &self,
        archive: &mut Past<'_, T>,
        key: &[u8],
    ) -> Result<DataSet, TableFault>
        ensures { QueriesOnly T.state archive.old archive.new
            (λ records. computed_keys records self.now.query.now.level key.now) result }
    {
        match self.query.level {
            Level::Study => study_computed(archive, key),
            Level::Series => series_computed(archive, key),
            Level::Image => Ok(DataSet::new(archive.alloc)),
        }
    }

    /// The answer that a completed record gives, where it fits.
    fn answer(
        &self,
        alloc: Global,
        about: &DataSet,
        held: &DataSet,
    ) -> Result<Option<DataSet>, AllocError>
        requires known { HasKnownTags self.now.query.now.keys }
        requires prepared { self.now.prepared.now ≡ self.now.query.now.keys }
        requires about { about.now ≡ about_answers self.now.called.now self.now.query.now.level }
        ensures { IfOk result (λ given. given
            ≡ answer_if self.now.called.now self.now.query.now held.now) }
    {
        if !self.prepared.fits(held) {
            return Ok(None);
        }
        let part = shown(alloc, &self.query.keys, held)?;
        Ok(Some(part.into_merged(alloc, about.copied(alloc)?)?))
    }

    /// Whether a row meets the keys that a kept element meets, as far as its octets tell before they
    /// are read.
    fn may_fit(&self, row: &Row) -> bool
        requires { self.now.prepared.now ≡ self.now.query.now.keys }
        ensures { result ≡ false → (records : List Record)
            → record_answer records self.now.called.now self.now.query.now (record_of row.now) ≡ None }
    {
        keys_are_met_alone_and_as_a_period();
        self.prepared.lent_meets(&MET_LATER, row.octets.as_slice())
    }

    /// The answer that a row gives. What no key asks for is not computed, nor what is asked of a
    /// record that does not meet the keys that are kept.
    fn answer_of<T: Tables>(
        &self,
        archive: &mut Past<'_, T>,
        about: &DataSet,
        row: &Row,
    ) -> Result<Option<DataSet>, TableFault>
        requires known { HasKnownTags self.now.query.now.keys }
        requires prepared { self.now.prepared.now ≡ self.now.query.now.keys }
        requires about { about.now ≡ about_answers self.now.called.now self.now.query.now.level }
        ensures { QueriesOnly T.state archive.old archive.new (λ records.
            record_answer records self.now.called.now self.now.query.now (record_of row.now)) result }
    {
        keys_are_met_alone_and_as_a_period();
        if !self.may_fit(row) {
            return Ok(None);
        }
        let held = row.data_set(archive.alloc)?;
        if !asks_computed(self.query) {
            return Ok(self.answer(archive.alloc, about, &held)?);
        }
        if !self.prepared.meets_at_once(&MET_LATER, &held) {
            return Ok(None);
        }
        let values = self.computed(archive, row.key.as_slice())?;
        let held = held.into_merged(archive.alloc, values)?;
        Ok(self.answer(archive.alloc, about, &held)?)
    }

    /// Takes the answers that some rows give into a page, in their order. No row is looked at once it is full.
    pub(crate) fn take_answers<T: Tables>(
        &self,
        archive: &mut Past<'_, T>,
        rows: &[Row],
        page: &mut PageCollector,
    ) -> Result<(), TableFault>
        requires known { HasKnownTags self.now.query.now.keys }
        requires prepared { self.now.prepared.now ≡ self.now.query.now.keys }
        ensures { TakesAnswers T.state archive.old archive.new page.old page.new (λ records. filter_map
            (λ (row : TheRow). record_answer records self.now.called.now self.now.query.now
            (record_of row)) rows.now) result }
    {
        let about = about_answers(archive.alloc, self.called, self.query.level)?;
        for row in rows {
            if page.is_full() {
                return Ok(());
            }
            let answer = self.answer_of(archive, &about, row)?;
            page.take(answer)?;
        }
        Ok(())
    }
}

/// Whether values of a level's own unique key name records: there are some, and the first is not an asterisk, which
/// every record meets if it is the only value.
fn names_records(octets: &[u8]) -> bool
    ensures { result ≡ names_records (element_values UI octets.now) }
{
    let mut uids = values(Vr::UI, octets);
    let Some(first) = uids.next() else {
        return false;
    };
    first != b"*".as_slice()
}

fn asks_computed(query: &Query) -> bool
    ensures { result ≡ asks_computed query.now }
{
    COMPUTED.iter().any(|tag| query.keys.get(*tag).is_some())
}
