//! Records that were added after a moment.
ghost use Rattle.std.specs.Prelude.{◌≡◌, ◌&&◌, ◌++◌, not, map, filter, length, IfOk, OnOk};
ghost use Rattle.std.specs.Option.{option_to_list};
ghost use Rattle.std.specs.Str.{bytes_eq};
ghost use Rattle.dq_tables.specs.declared.row.Row.{Row as TheRow};
ghost use Rattle.dq_tables.specs.Rows.{record_of, same_kind};
ghost use Rattle.dq_archive.specs.Additions.{is_added, is_later, of_kind, is_touched, kept_under, added_by, added_if};

use dq_list::Listed;
use dq_tables::{Change, Kind, Row};
use std::alloc::{AllocError, Global};

/// The keys of a record that was added: its kind, its key, and the key of the record above it,
/// empty if there is none.
#[derive(Drop)]
pub struct Addition {
    pub kind: Kind,
    pub key: Listed<u8>,
    pub above: Listed<u8>,
}

impl Addition {
    /// The keys of a row.
    pub fn of(alloc: Global, row: &Row) -> Result<Addition, AllocError>
        ensures { IfOk result (λ added. added ≡ kept_under row.now) }
    {
        Ok(Addition {
            kind: row.kind,
            key: Listed::copy_of(alloc, row.key.as_slice())?,
            above: Listed::copy_of(alloc, row.above.as_slice())?,
        })
    }

    /// Whether a row is the one that was added.
    fn is(&self, row: &Row) -> bool
        ensures { result ≡ is_added self.now (record_of row.now) }
    {
        row.kind.number() == self.kind.number()
            && row.key.as_slice() == self.key.as_slice()
            && row.above.as_slice() == self.above.as_slice()
    }

    /// Whether it is of a kind.
    fn is_of(&self, kind: Kind) -> bool
        ensures { result ≡ same_kind self.now.kind kind }
    {
        self.kind.number() == kind.number()
    }

    /// Whether it is of a kind and under the record with a key.
    fn is_under(&self, kind: Kind, above: &[u8]) -> bool
        ensures { result ≡ (same_kind self.now.kind kind && bytes_eq self.now.above above.now) }
    {
        self.is_of(kind) && self.above.as_slice() == above
    }
}

/// Whether a row was added later.
pub(crate) fn is_later(later: &[Addition], row: &Row) -> bool
    ensures { result ≡ is_later later.now (record_of row.now) }
{
    later.iter().any(|added| added.is(row))
}

/// How many records of a kind were added.
pub(crate) fn count_of(later: &[Addition], kind: Kind) -> usize
    ensures { result ≡ length (of_kind kind later.now) }
{
    later.iter().filter(|added| added.is_of(kind)).count()
}

/// Whether a record of a kind was added under the record with a key.
pub(crate) fn is_touched(later: &[Addition], kind: Kind, above: &[u8]) -> bool
    ensures { result ≡ is_touched later.now kind above.now }
{
    later.iter().any(|added| added.is_under(kind, above))
}

/// Of some rows, those that were not added later.
pub(crate) fn before(
    alloc: Global,
    later: &[Addition],
    rows: Listed<Row>,
) -> Result<Listed<Row>, AllocError>
    ensures { IfOk result (λ left.
        left ≡ filter (λ (row : TheRow). not (is_later later.now (record_of row))) rows) }
{
    let mut left = Listed::empty(alloc);
    for row in rows.into_inner() {
        if !is_later(later, &row) {
            left.push(row)?;
        }
    }
    Ok(left)
}

/// Tells of a row that was added, if there is one.
fn tell_row(
    alloc: Global,
    row: &Option<Row>,
    added: &mut Listed<Addition>,
) -> Result<(), AllocError>
    ensures { OnOk result (added.new ≡ added.old ++ map kept_under (option_to_list row.now)) }
{
    if let Some(row) = row {
        added.push(Addition::of(alloc, row)?)?;
    }
    Ok(())
}

/// Tells what a change adds to the studies, the series and the images.
fn tell(alloc: Global, change: &Change, added: &mut Listed<Addition>) -> Result<(), AllocError>
    ensures { OnOk result (added.new ≡ added.old ++ added_by change.now) }
{
    let Change::Stored {
        study,
        series,
        image,
    } = change
    else {
        return Ok(());
    };
    tell_row(alloc, study, added)?;
    tell_row(alloc, series, added)?;
    added.push(Addition::of(alloc, image)?)?;
    Ok(())
}

/// The same, where there is a change.
pub(crate) fn tell_if(
    alloc: Global,
    change: &Option<Change>,
    added: &mut Listed<Addition>,
) -> Result<(), AllocError>
    ensures { OnOk result (added.new ≡ added.old ++ added_if change.now) }
{
    match change {
        Some(change) => tell(alloc, change, added),
        None => Ok(()),
    }
}
