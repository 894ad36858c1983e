//! Rows, scanned.
ghost use Rattle.std.specs.Prelude.{◌≡◌, ◌&&◌, IfOk, length, take, drop, option_copied};
ghost use Rattle.std.specs.Str.{bytes_eq};
ghost use Rattle.dq_tables.specs.Lookups.{is_of_kind, row_at, rows_of, rows_above, rows_after, rows_behind, waiting_entries};
ghost use Rattle.dq_tables.specs.StudyChoices.{studies_in};

use crate::choice::Choice;
use crate::row::{Kind, Row};
use dq_list::Listed;
use std::alloc::{AllocError, Global};

/// Whether a row is the institution's and of a kind.
fn is_of(row: &Row, kind: Kind, institution: &[u8]) -> bool
    ensures { result ≡ is_of_kind kind institution.now row.now }
{
    row.kind.number() == kind.number() && row.inst.as_slice() == institution
}

/// Whether a row is the institution's, of a kind, and has the key.
fn has_key(row: &Row, kind: Kind, institution: &[u8], key: &[u8]) -> bool
    ensures { result ≡ (is_of_kind kind institution.now row.now && bytes_eq row.now.key key.now) }
{
    is_of(row, kind, institution) && row.key.as_slice() == key
}

/// The institution's row of a kind with the key.
#[tactic(auto, unfolding(crate::specs::Lookups::row_at))]
fn find<'a>(rows: &'a [Row], kind: Kind, institution: &[u8], key: &[u8]) -> Option<&'a Row>
    ensures { option_copied result ≡ row_at kind institution.now key.now rows.now }
{
    rows.iter().find(|row| has_key(row, kind, institution, key))
}

/// A copy of the institution's row of a kind with the key.
pub(crate) fn row_at(
    alloc: Global,
    rows: &[Row],
    kind: Kind,
    institution: &[u8],
    key: &[u8],
) -> Result<Option<Row>, AllocError>
    ensures { IfOk result (λ row. row ≡ row_at kind institution.now key.now rows.now) }
{
    match find(rows, kind, institution, key) {
        Some(row) => Ok(Some(row.copied(alloc)?)),
        None => Ok(None),
    }
}

/// Copies of the institution's rows of a kind.
#[tactic(auto, unfolding(crate::specs::Lookups::rows_of))]
pub(crate) fn rows_of(
    alloc: Global,
    rows: &[Row],
    kind: Kind,
    institution: &[u8],
) -> Result<Listed<Row>, AllocError>
    ensures { IfOk result (λ copies. copies ≡ rows_of kind institution.now rows.now) }
{
    let mut copies = Listed::empty(alloc);
    for row in rows {
        if is_of(row, kind, institution) {
            copies.push(row.copied(alloc)?)?;
        }
    }
    Ok(copies)
}

/// The rows of a list from a place on, at most so many.
pub(crate) fn cut(rows: Listed<Row>, from: usize, most: usize) -> Listed<Row>
    ensures { result ≡ take most (drop from rows) }
{
    let mut rows = rows.into_inner();
    let before = from.min(rows.len());
    let _ = rows.drain(..before);
    rows.truncate(most);
    Listed::from_inner(rows)
}

/// Those of some rows with keys behind a key; all where there is no key.
pub(crate) fn behind(rows: Listed<Row>, after: Option<&[u8]>) -> Listed<Row>
    ensures { result ≡ rows_behind (option_copied after.entry) rows }
{
    let Some(after) = after else {
        return rows;
    };
    let mut rows = rows.into_inner();
    rows.retain(|row| row.key.as_slice().cmp(after).is_gt());
    Listed::from_inner(rows)
}

/// Copies of the institution's rows of a kind under another row.
#[tactic(auto, unfolding(crate::specs::Lookups::rows_of, crate::specs::Lookups::rows_above))]
pub(crate) fn rows_above(
    alloc: Global,
    rows: &[Row],
    kind: Kind,
    institution: &[u8],
    above: &[u8],
) -> Result<Listed<Row>, AllocError>
    ensures { IfOk result (λ copies.
        copies ≡ rows_above kind institution.now above.now rows.now) }
{
    let mut copies = Listed::empty(alloc);
    for row in rows {
        if is_of(row, kind, institution) && row.above.as_slice() == above {
            copies.push(row.copied(alloc)?)?;
        }
    }
    Ok(copies)
}

/// Copies of the institution's rows of a kind with keys behind a key.
#[tactic(auto, unfolding(crate::specs::Lookups::rows_of, crate::specs::Lookups::rows_after))]
pub(crate) fn rows_after(
    alloc: Global,
    rows: &[Row],
    kind: Kind,
    institution: &[u8],
    key: &[u8],
) -> Result<Listed<Row>, AllocError>
    ensures { IfOk result (λ copies.
        copies ≡ rows_after kind institution.now key.now rows.now) }
{
    let mut copies = Listed::empty(alloc);
    for row in rows {
        if is_of(row, kind, institution) && row.key.as_slice().cmp(key).is_gt() {
            copies.push(row.copied(alloc)?)?;
        }
    }
    Ok(copies)
}

/// How many rows of a kind the institution has.
#[tactic(auto, unfolding(crate::specs::Lookups::rows_of))]
pub(crate) fn count_of(rows: &[Row], kind: Kind, institution: &[u8]) -> u64
    ensures { result ≡ length (rows_of kind institution.now rows.now) }
{
    rows.iter()
        .filter(|row| is_of(row, kind, institution))
        .count() as u64
}

/// How many rows of a kind the institution has under another row.
#[tactic(auto, unfolding(crate::specs::Lookups::rows_of, crate::specs::Lookups::rows_above))]
pub(crate) fn count_above(rows: &[Row], kind: Kind, institution: &[u8], above: &[u8]) -> u64
    ensures { result ≡ length (rows_above kind institution.now above.now rows.now) }
{
    rows.iter()
        .filter(|row| is_of(row, kind, institution))
        .filter(|row| row.above.as_slice() == above)
        .count() as u64
}

/// Copies of the institution's studies that a choice takes.
#[tactic(auto, unfolding(crate::specs::Lookups::rows_of, crate::specs::StudyChoices::studies_in))]
pub(crate) fn studies_in(
    alloc: Global,
    rows: &[Row],
    institution: &[u8],
    choice: &Choice,
) -> Result<Listed<Row>, AllocError>
    ensures { IfOk result (λ copies. copies ≡ studies_in choice.now institution.now rows.now) }
{
    let mut copies = Listed::empty(alloc);
    for row in rows {
        if is_of(row, Kind::Study, institution) && choice.takes(alloc, row)? {
            copies.push(row.copied(alloc)?)?;
        }
    }
    Ok(copies)
}

/// Copies of the institution's worklist entries that no performed procedure step has started.
#[tactic(auto, unfolding(crate::specs::Lookups::rows_of, crate::specs::Lookups::waiting_entries))]
pub(crate) fn waiting(
    alloc: Global,
    rows: &[Row],
    institution: &[u8],
) -> Result<Listed<Row>, AllocError>
    ensures { IfOk result (λ copies. copies ≡ waiting_entries institution.now rows.now) }
{
    let mut copies = Listed::empty(alloc);
    for row in rows {
        if is_of(row, Kind::Entry, institution) && !row.started {
            copies.push(row.copied(alloc)?)?;
        }
    }
    Ok(copies)
}
