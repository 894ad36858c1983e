//! The images of a study, of all its series (PS3.18 section 10.6.1).
ghost use Rattle.std.specs.Prelude.{◌≡◌, [], IfOk, map};
ghost use Rattle.std.specs.List.{filter_map};
ghost use Rattle.dq_match.specs.Identifiers.{HasKnownTags};
ghost use Rattle.dq_match.specs.ShownPages.{found_page};
ghost use Rattle.dq_tables.specs.Rows.{of, record_of};
ghost use Rattle.dq_tables.specs.Lookups.{records_above};
ghost use Rattle.dq_tables.specs.declared.row.Kind.TheVariants.{Image as ImageKind};
ghost use Rattle.dq_tables.specs.TableStates.{Reads};
ghost use Rattle.dq_archive.specs.PastArchives.{QueriesOnly};
ghost use Rattle.dq_find.specs.Levels.{level_of};
ghost use Rattle.dq_find.specs.Queries.{record_answer};
ghost use Rattle.dq_find.specs.StudyImages.{query_in_study, images_of, images_in_study, found_in_study, study_outcome, TakesAnswers};

use crate::level::Level;
use crate::open_search::{MOST_AT_ONCE, last_key, lent_key};
use crate::query::Query;
use crate::search::{Search, key_above};
use dq_archive::Past;
use dq_config::Institution;
use dq_dataset::DataSet;
use dq_dimse::status::{DOES_NOT_MATCH_SOP_CLASS, SUCCESS};
use dq_match::{Found, PageCollector, PreparedKeys, ShownPage, is_query, strike};
use dq_tables::laws::honest_rows_are_sound;
use dq_tables::{Kind, Row, TableFault, Tables};
use dq_vr::tags;
use std::alloc::{AllocError, Global};

/// Answers an identifier of level IMAGE that names one study and need not name a series: of the study's series, in the
/// order of their keys, the images that fit, those of one series after the other. Returns a page of the answers. It is
/// refused with status A900 where it names another level or not one study, or has values that are not well formed.
/// Nobody called a title, so the answers tell an empty one. Nothing is changed.
#[tactic(auto, unfolding(crate::specs::StudyImages::study_outcome))]
pub fn find_in_study<T: Tables>(
    tables: &mut T,
    institution: &Institution,
    identifier: &DataSet,
    page: ShownPage,
) -> Result<Found, TableFault>
    ensures found { (T.state tables.new).honest → IfOk result (λ found. found ≡ found_page page
        (study_outcome (of institution.now.name (T.state tables.old).rows) identifier.now)) }
    ensures reads { Reads (T.state tables.old) (T.state tables.new) result }
{
    let mut kept = Past::new(tables, institution, &[]);
    let asked = query_in_study(kept.alloc, identifier)?;
    answers_in_study(&mut kept, asked, page)
}

/// The query of an identifier, or the status that refuses it.
fn query_in_study(alloc: Global, identifier: &DataSet) -> Result<Result<Query, u16>, AllocError>
    ensures query { IfOk result (λ q. q ≡ query_in_study identifier.now (level_of identifier.now)) }
    ensures known { IfOk result (λ q. IfOk q (λ query. HasKnownTags query.keys)) }
{
    let level = Level::Image;
    if Level::of(identifier) != Some(level) {
        return Ok(Err(DOES_NOT_MATCH_SOP_CLASS));
    }
    let (keys, optional) = strike(alloc, identifier, level.keys())?;
    if !Level::Series.has_keys_above(&keys) || !is_query(&keys) {
        return Ok(Err(DOES_NOT_MATCH_SOP_CLASS));
    }
    Ok(Ok(Query {
        level,
        keys,
        optional,
    }))
}

/// A page of the answers to a query, or the status that refuses it.
fn answers_in_study<T: Tables>(
    archive: &mut Past<'_, T>,
    asked: Result<Query, u16>,
    page: ShownPage,
) -> Result<Found, TableFault>
    requires { IfOk asked (λ query. HasKnownTags query.keys) }
    ensures { QueriesOnly T.state archive.old archive.new
        (λ records. found_page page (found_in_study records asked)) result }
{
    let query = match asked {
        Ok(query) => query,
        Err(status) => return Ok(Found::refused(archive.alloc, status)),
    };
    let prepared = PreparedKeys::of(archive.alloc, &query.keys)?;
    let search = Search {
        called: &[],
        query: &query,
        prepared: &prepared,
    };
    let study = key_above(&query.keys, tags::STUDY_INSTANCE_UID);
    let mut collector = PageCollector::of_page(archive.alloc, page);
    take_study(&search, archive, study, &mut collector)?;
    Ok(Found {
        status: SUCCESS,
        optional: query.optional,
        answers: collector.into_answers(),
    })
}

/// Takes the answers that the images of a study give, those of one series after the other. Reads a few series at a time,
/// and none once the page is full.
fn take_study<T: Tables>(
    search: &Search<'_>,
    archive: &mut Past<'_, T>,
    study: &[u8],
    page: &mut PageCollector,
) -> Result<(), TableFault>
    requires known { HasKnownTags search.now.query.now.keys }
    requires prepared { search.now.prepared.now ≡ search.now.query.now.keys }
    ensures { TakesAnswers T.state archive.old archive.new page.old page.new (λ records. filter_map
        (record_answer records search.now.called.now search.now.query.now)
        (images_in_study records study.now)) result }
{
    honest_rows_are_sound::<T>();
    let mut after = None;
    for _ in 0..u64::MAX {
        if page.is_full() {
            return Ok(());
        }
        let behind = lent_key(&after);
        let series = archive.rows_above_after(Kind::Series, study, behind, MOST_AT_ONCE)?;
        take_each_series(search, archive, series.as_slice(), page)?;
        if series.len() < MOST_AT_ONCE {
            return Ok(());
        }
        after = last_key(series);
    }
    Err(TableFault::NoMemory)
}

/// Takes the answers that the images of some series give, those of one series after the other. No series is looked at
/// once the page is full.
fn take_each_series<T: Tables>(
    search: &Search<'_>,
    archive: &mut Past<'_, T>,
    series: &[Row],
    page: &mut PageCollector,
) -> Result<(), TableFault>
    requires known { HasKnownTags search.now.query.now.keys }
    requires prepared { search.now.prepared.now ≡ search.now.query.now.keys }
    ensures { TakesAnswers T.state archive.old archive.new page.old page.new (λ records. filter_map
        (record_answer records search.now.called.now search.now.query.now)
        (images_of records (map record_of series.now))) result }
{
    for row in series {
        if page.is_full() {
            return Ok(());
        }
        take_series(search, archive, row.key.as_slice(), page)?;
    }
    Ok(())
}

/// Takes the answers that the images of a series give. Reads a few images at a time, and none once the page is full.
fn take_series<T: Tables>(
    search: &Search<'_>,
    archive: &mut Past<'_, T>,
    series: &[u8],
    page: &mut PageCollector,
) -> Result<(), TableFault>
    requires known { HasKnownTags search.now.query.now.keys }
    requires prepared { search.now.prepared.now ≡ search.now.query.now.keys }
    ensures { TakesAnswers T.state archive.old archive.new page.old page.new (λ records. filter_map
        (record_answer records search.now.called.now search.now.query.now)
        (records_above ImageKind series.now records)) result }
{
    honest_rows_are_sound::<T>();
    let mut after = None;
    for _ in 0..u64::MAX {
        if page.is_full() {
            return Ok(());
        }
        let behind = lent_key(&after);
        let images = archive.rows_above_after(Kind::Image, series, behind, MOST_AT_ONCE)?;
        search.take_answers(archive, images.as_slice(), page)?;
        if images.len() < MOST_AT_ONCE {
            return Ok(());
        }
        after = last_key(images);
    }
    Err(TableFault::NoMemory)
}
