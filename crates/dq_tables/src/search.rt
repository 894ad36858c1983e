//! Rows in order, searched.
ghost use Rattle.std.specs.Prelude.{◌≡◌, MatchResult};
ghost use Rattle.dq_tables.specs.Rows.{IsRising, row_place_of, row_place_order, place, group_order};
ghost use Rattle.dq_tables.specs.Lookups.{IsAtIndex, IsFree};

use crate::row::{Kind, Row};
use std::cmp::Ordering;

/// The index of the row at a place, or that where it would stand.
pub fn search(rows: &[Row], kind: Kind, institution: &[u8], key: &[u8]) -> Result<usize, usize>
    requires { IsRising rows.now }
    ensures { MatchResult result (IsAtIndex (place kind institution.now key.now) rows.now)
        (IsFree (place kind institution.now key.now) rows.now) }
{
    rows.binary_search_by(|row| place_order(row, kind, institution, key))
}

/// How a row stands beside a place.
fn place_order(row: &Row, kind: Kind, institution: &[u8], key: &[u8]) -> Ordering
    ensures { result ≡ row_place_order (row_place_of row.now) (place kind institution.now key.now) }
{
    group_order(row, kind, institution).then_with(|| row.key.as_slice().cmp(key))
}

/// How a row stands beside the rows of a kind of an institution.
fn group_order(row: &Row, kind: Kind, institution: &[u8]) -> Ordering
    ensures { result ≡ group_order (row_place_of row.now) kind institution.now }
{
    row.kind
        .number()
        .cmp(&kind.number())
        .then_with(|| row.inst.as_slice().cmp(institution))
}
