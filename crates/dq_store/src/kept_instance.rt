//! The records that are kept already, and how an instance is kept beside them.
ghost use Rattle.std.specs.Prelude.{◌≡◌, ◌++◌, IfOk, option_map, unwrap_or};
ghost use Rattle.dq_config.specs.Limits.{limits_of};
ghost use Rattle.dq_tables.specs.Rows.{record_of};
ghost use Rattle.dq_tables.specs.ServiceEffects.{first_refusal};
ghost use Rattle.dq_archive.specs.Archives.{QueriesOnly};
ghost use Rattle.dq_dataset.specs.Editing.{cut_out, is_listed};
ghost use Rattle.dq_dataset.specs.Same.{has_element};
ghost use Rattle.dq_tables.specs.Records.{data_set_of};
ghost use Rattle.dq_vr.specs.StudyRoot.{kept_attributes, study_attributes, series_attributes, image_attributes};
ghost use Rattle.dq_store.specs.CStore.{is_under_another, kept_refusals, finds_no_room, count_of, limit_refusals, instance_refusals, is_kept_whole};
ghost use Rattle.dq_store.specs.Views.{instance_of, rows_among, unless_refused, records_kept, kept_status};

use crate::instance::Instance;
use crate::kept_rows::{KeptRows, Quota};
use dq_archive::Archive;
use dq_dataset::{DataSet, Element};
use dq_dimse::status;
use dq_tables::{Kind, Row, TableFault, Tables};
use dq_vr::Tag;
use dq_vr::study_root::{KEPT_ATTRIBUTES, image_attributes, series_attributes, study_attributes};
use std::alloc::{AllocError, Global};

/// The rows that are kept already of what is sent.
fn kept_rows<T: Tables>(
    archive: &mut Archive<'_, T>,
    sent: &Instance<'_>,
) -> Result<KeptRows, TableFault>
    ensures { QueriesOnly T.state archive.old archive.new (λ records.
        rows_among archive.old.institution.now.name records (instance_of sent.now)) result }
{
    let study = archive.row(Kind::Study, sent.study)?;
    let series = archive.row(Kind::Series, sent.series)?;
    let image = archive.row(Kind::Image, sent.image)?;
    Ok(KeptRows {
        study,
        series,
        image,
    })
}

/// Whether a row is kept under another one than that.
fn is_under_another(row: &Option<Row>, above: &[u8]) -> bool
    ensures { result ≡ is_under_another (option_map record_of row.now) above.now }
{
    match row {
        Some(row) => row.above.as_slice() != above,
        None => false,
    }
}

/// The status that refuses an instance which is kept elsewhere, or whose series is (PS3.4 section
/// B.2.3).
#[tactic(auto, unfolding(crate::specs::CStore::is_kept_elsewhere, crate::specs::CStore::has_series_elsewhere), using(crate::proofs::Records::is_some_record, crate::proofs::Records::is_none_record))]
fn kept_refusal(kept: &KeptRows, sent: &Instance<'_>) -> Option<u16>
    ensures { result ≡ first_refusal (kept_refusals (records_kept kept.now) (instance_of sent.now)) }
{
    let is_kept = kept.image.is_some();
    let is_series_elsewhere = is_under_another(&kept.series, sent.study);
    if is_kept && (is_under_another(&kept.image, sent.series) || is_series_elsewhere) {
        return Some(status::INSTANCE_KEPT_ELSEWHERE);
    }
    if !is_kept && is_series_elsewhere {
        return Some(status::SERIES_KEPT_ELSEWHERE);
    }
    None
}

/// Whether there is no room for a row that is not kept yet.
fn finds_no_room<T: Tables>(
    archive: &mut Archive<'_, T>,
    quota: &Quota<'_>,
) -> Result<bool, TableFault>
    ensures { QueriesOnly T.state archive.old archive.new (λ records. finds_no_room
        (option_map record_of quota.now.kept.now) quota.now.limit (count_of quota.now.kind records))
        result }
{
    if quota.kept.is_some() {
        return Ok(false);
    }
    let count = archive.count(quota.kind)?;
    Ok(u64::from(quota.limit) <= count)
}

/// The status that refuses a new study, or a new image, for which there is no room.
fn limit_refusal<T: Tables>(
    archive: &mut Archive<'_, T>,
    kept: &KeptRows,
) -> Result<Option<u16>, TableFault>
    ensures { QueriesOnly T.state archive.old archive.new (λ records. first_refusal (limit_refusals
        (limits_of archive.old.institution.now) records (records_kept kept.now))) result }
{
    let institution = archive.institution;
    let studies = Quota {
        kind: Kind::Study,
        kept: &kept.study,
        limit: institution.studies,
    };
    if finds_no_room(archive, &studies)? {
        return Ok(Some(status::OUT_OF_RESOURCES));
    }
    let images = Quota {
        kind: Kind::Image,
        kept: &kept.image,
        limit: institution.images,
    };
    if finds_no_room(archive, &images)? {
        return Ok(Some(status::OUT_OF_RESOURCES));
    }
    Ok(None)
}

/// The status of the first refusal of an instance, by what is kept already.
fn first_refusal<T: Tables>(
    archive: &mut Archive<'_, T>,
    kept: &KeptRows,
    sent: &Instance<'_>,
) -> Result<Option<u16>, TableFault>
    ensures { QueriesOnly T.state archive.old archive.new (λ records. first_refusal
        (kept_refusals (records_kept kept.now) (instance_of sent.now)
        ++ limit_refusals (limits_of archive.old.institution.now) records (records_kept kept.now))) result }
{
    if let Some(status) = kept_refusal(kept, sent) {
        return Ok(Some(status));
    }
    limit_refusal(archive, kept)
}

/// The rows that are kept already of an instance, or the status of its first refusal.
pub(crate) fn kept_unless_refused<T: Tables>(
    archive: &mut Archive<'_, T>,
    sent: &Instance<'_>,
) -> Result<Result<KeptRows, u16>, TableFault>
    ensures { QueriesOnly T.state archive.old archive.new (λ records. unless_refused
        (first_refusal (instance_refusals (limits_of archive.old.institution.now) records
        (instance_of sent.now)))
        (rows_among archive.old.institution.now.name records (instance_of sent.now))) result }
{
    let kept = kept_rows(archive, sent)?;
    let refusal = first_refusal(archive, &kept, sent)?;
    match refusal {
        Some(status) => Ok(Err(status)),
        None => Ok(Ok(kept)),
    }
}

/// The data set of a row that is kept, if there is one.
fn kept_data_set(alloc: Global, row: &Option<Row>) -> Result<Option<DataSet>, AllocError>
    ensures { IfOk result (λ d. d ≡ option_map (λ row. data_set_of row.octets) row.now) }
{
    match row {
        Some(row) => Ok(Some(row.data_set(alloc)?)),
        None => Ok(None),
    }
}

/// Whether an element is one of some attributes.
fn is_listed(tags: &[Tag], element: &Element) -> bool
    ensures { result ≡ is_listed tags.now element.now }
{
    tags.iter().any(|tag| *tag == element.tag)
}

/// Whether an element is one of those that are kept of a stored object.
fn is_kept(element: &Element) -> bool
    ensures { result ≡ is_listed kept_attributes element.now }
{
    is_listed(&KEPT_ATTRIBUTES, element)
}

/// Whether an element is one of some attributes, and is in a data set.
fn has_attribute(data_set: &DataSet, tags: &[Tag], element: &Element) -> bool
    ensures { result ≡ has_element (cut_out tags.now data_set.now) element.now }
{
    is_listed(tags, element) && data_set.has(element)
}

/// Whether the record of a level has an element afterwards: the record that is kept, whichever
/// attributes it has, or else the level's attributes of what is sent.
fn is_in_record(kept: &Option<DataSet>, tags: &[Tag], sent: &DataSet, element: &Element) -> bool
    ensures { result ≡ has_element (unwrap_or kept.now (cut_out tags.now sent.now)) element.now }
{
    match kept {
        Some(kept) => kept.has(element),
        None => has_attribute(sent, tags, element),
    }
}

/// Whether each element that is sent is one of those that are kept of a stored object, and the record
/// of the study, of the series or of the image has it with equal octets.
#[tactic(auto, unfolding(crate::specs::CStore::is_kept_whole))]
fn is_kept_whole(
    study: &Option<DataSet>,
    series: &Option<DataSet>,
    image: &Option<DataSet>,
    sent: &DataSet,
) -> bool
    ensures { result ≡ is_kept_whole (unwrap_or study.now (cut_out study_attributes sent.now))
        (unwrap_or series.now (cut_out series_attributes sent.now))
        (unwrap_or image.now (cut_out image_attributes sent.now)) sent.now }
{
    sent.elements().iter().all(|element| is_kept(element)
        && (is_in_record(study, study_attributes(), sent, element)
            || is_in_record(series, series_attributes(), sent, element)
            || is_in_record(image, image_attributes(), sent, element)))
}

/// The status of an instance that is not refused: whether elements of it are discarded (PS3.4
/// section B.2.3).
#[tactic(auto, unfolding(crate::specs::CStore::stored_status), using(crate::proofs::LevelAttributes::stands_in))]
pub(crate) fn stored_status(
    alloc: Global,
    kept: &KeptRows,
    sent: &Instance<'_>,
) -> Result<u16, AllocError>
    ensures { IfOk result (λ status.
        status ≡ kept_status sent.now.other (records_kept kept.now) (instance_of sent.now)) }
{
    if sent.other {
        return Ok(status::ELEMENTS_DISCARDED);
    }
    let study = kept_data_set(alloc, &kept.study)?;
    let series = kept_data_set(alloc, &kept.series)?;
    let image = kept_data_set(alloc, &kept.image)?;
    if is_kept_whole(&study, &series, &image, sent.data_set) {
        Ok(status::SUCCESS)
    } else {
        Ok(status::ELEMENTS_DISCARDED)
    }
}
