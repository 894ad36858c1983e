//! Keys that are computed of the records below a study and below a series (PS3.4 sections C.3.4 and
//! C.6.2.1).
ghost use Rattle.std.specs.Prelude.{◌≡◌, ◌≤◌, ◌∷◌, ◌++◌, length, take, drop, IfOk, OnOk, IfSome, IfNone, map};
ghost use Rattle.dq_tables.specs.Rows.{record_of};
ghost use Rattle.dq_find.specs.ComputedKeys.{put_in_order, all_in_order, modalities_in, backslash_joined, images_below, study_values, series_values, computed_keys};
ghost use Rattle.dq_find.specs.Modalities.{is_modality, modality_limit, modalities_of};
ghost use Rattle.dq_archive.specs.PastArchives.{QueriesOnly};
ghost use Rattle.dq_find.specs.declared.level.Level.TheVariants.{Study, Series};
ghost use Rattle.dq_dataset.specs.Values.{element_at, element_octets};

use crate::texts::{Text, elements};
use dq_archive::Past;
use dq_dataset::DataSet;
use dq_list::Listed;
use dq_match::octets_in;
use dq_tables::{Kind, Row, TableFault, Tables};
use dq_vr::{Tag, Vr, tags};
use std::alloc::{AllocError, Global};
use std::cmp::Ordering;

/// How many modalities of a study are told.
const MODALITY_LIMIT: usize = 1000;

/// Where a value belongs among others in order, unless it is there.
fn place_of(values: &[Listed<u8>], value: &[u8]) -> Option<usize>
    ensures free { IfSome result (λ at. put_in_order value.now values.now
        ≡ take at values.now ++ value.now ∷ drop at values.now) }
    ensures within { IfSome result (λ at. at ≤ length values.now) }
    ensures there { IfNone result (put_in_order value.now values.now ≡ values.now) }
{
    for (at, other) in values.iter().enumerate() {
        match value.cmp(other.as_slice()) {
            Ordering::Less => return Some(at),
            Ordering::Equal => return None,
            Ordering::Greater => {}
        }
    }
    Some(values.len())
}

/// Puts a value in its place, where it is not there yet, and keeps the first values.
fn put_in_order(alloc: Global, values: &mut Vec<Listed<u8>>, value: &[u8]) -> Result<(), AllocError>
    requires { length values.old.items ≤ modality_limit }
    ensures put { OnOk result (values.new.items
        ≡ take modality_limit (put_in_order value.now values.old.items)) }
    ensures few { OnOk result (length values.new.items ≤ modality_limit) }
{
    let Some(at) = place_of(values.as_slice(), value) else {
        return Ok(());
    };
    values.insert(at, Listed::copy_of(alloc, value)?)?;
    values.truncate(MODALITY_LIMIT);
    Ok(())
}

fn is_modality(value: &[u8]) -> bool
    ensures { result ≡ is_modality value.now }
{
    1 <= value.len() && value.len() <= 16
}

/// The octets of the element with the tag, none where it is absent or a sequence.
pub(crate) fn octets_at(data_set: &DataSet, tag: Tag) -> &[u8]
    ensures { result.now ≡ element_octets (element_at tag data_set.now) }
{
    octets_in(data_set.get(tag))
}

/// Puts the modalities of a series in their places.
fn put_modalities(
    alloc: Global,
    values: &mut Vec<Listed<u8>>,
    series: &DataSet,
) -> Result<(), AllocError>
    requires { length values.old.items ≤ modality_limit }
    ensures put { OnOk result (values.new.items
        ≡ take modality_limit (all_in_order (modalities_of series.now) values.old.items)) }
    ensures few { OnOk result (length values.new.items ≤ modality_limit) }
{
    let mut parts = dq_value::values(Vr::CS, octets_at(series, tags::MODALITY));
    while let Some(part) = parts.next() {
        if !is_modality(part) {
            continue;
        }
        put_in_order(alloc, values, part)?;
    }
    Ok(())
}

/// The modalities of a study's series, the first ones in the order of their octets.
#[tactic(auto, unfolding(crate::specs::ComputedKeys::modalities_in))]
fn modalities_in(alloc: Global, series: &[Row]) -> Result<Vec<Listed<u8>>, AllocError>
    ensures { IfOk result (λ v. v.items ≡ modalities_in (map record_of series.now)) }
{
    let mut values = Vec::new(alloc);
    for row in series {
        let data_set = row.data_set(alloc)?;
        put_modalities(alloc, &mut values, &data_set)?;
    }
    Ok(values)
}

/// Values with a backslash between them.
fn joined(alloc: Global, values: &[Listed<u8>]) -> Result<Vec<u8>, AllocError>
    ensures { IfOk result (λ v. v.items ≡ backslash_joined values.now) }
{
    let [first, others @ ..] = values else {
        return Ok(Vec::new(alloc));
    };
    let mut octets = Vec::from_slice(alloc, first.as_slice())?;
    for value in others {
        octets.push(b'\\')?;
        octets.extend_from_slice(value.as_slice())?;
    }
    Ok(octets)
}

fn study_values(
    alloc: Global,
    modalities: &[u8],
    series: usize,
    images: u128,
) -> Result<DataSet, AllocError>
    ensures { IfOk result (λ d. d ≡ study_values modalities.now series images) }
{
    let series = format!(in alloc; "{series}")?;
    let images = format!(in alloc; "{images}")?;
    let texts = [
        Text {
            tag: tags::MODALITIES_IN_STUDY,
            vr: Vr::CS,
            value: modalities,
        },
        Text {
            tag: tags::NUMBER_OF_STUDY_RELATED_SERIES,
            vr: Vr::IS,
            value: series.as_bytes(),
        },
        Text {
            tag: tags::NUMBER_OF_STUDY_RELATED_INSTANCES,
            vr: Vr::IS,
            value: images.as_bytes(),
        },
    ];
    Ok(DataSet::from_elements(elements(alloc, &texts)?))
}

fn series_values(alloc: Global, images: u64) -> Result<DataSet, AllocError>
    ensures { IfOk result (λ d. d ≡ series_values images) }
{
    let images = format!(in alloc; "{images}")?;
    let texts = [Text {
        tag: tags::NUMBER_OF_SERIES_RELATED_INSTANCES,
        vr: Vr::IS,
        value: images.as_bytes(),
    }];
    Ok(DataSet::from_elements(elements(alloc, &texts)?))
}

/// How many images some series have.
fn images_below<T: Tables>(archive: &mut Past<'_, T>, series: &[Row]) -> Result<u128, TableFault>
    ensures { QueriesOnly T.state archive.old archive.new
        (λ records. images_below records (map record_of series.now)) result }
{
    let mut number = 0;
    for row in series {
        let images = archive.count_above(Kind::Image, row.key.as_slice())?;
        number += images as u128;
    }
    Ok(number)
}

/// Returns the computed elements of the study with the key.
pub(crate) fn study_computed<T: Tables>(
    archive: &mut Past<'_, T>,
    key: &[u8],
) -> Result<DataSet, TableFault>
    ensures { QueriesOnly T.state archive.old archive.new
        (λ records. computed_keys records Study key.now) result }
{
    let series = archive.rows_above(Kind::Series, key)?;
    let images = images_below(archive, series.as_slice())?;
    let modalities = modalities_in(archive.alloc, series.as_slice())?;
    let modalities = joined(archive.alloc, &modalities)?;
    Ok(study_values(archive.alloc, &modalities, series.len(), images)?)
}

/// Returns the computed elements of the series with the key.
pub(crate) fn series_computed<T: Tables>(
    archive: &mut Past<'_, T>,
    key: &[u8],
) -> Result<DataSet, TableFault>
    ensures { QueriesOnly T.state archive.old archive.new
        (λ records. computed_keys records Series key.now) result }
{
    let images = archive.count_above(Kind::Image, key)?;
    Ok(series_values(archive.alloc, images)?)
}
