//! Rows in order, edited.
ghost use Rattle.std.specs.Prelude.{◌≡◌, ◌+◌, ◌<◌, ◌≤◌, ℕ, List};
ghost use Rattle.std.specs.Vec.{vec_len, vec_capacity};
ghost use Rattle.dq_tables.specs.Rows.{IsRising, after_edit, after_edits, put_if, IsOf, record_of, Put, Remove, Start};

use crate::row::{Kind, Row};
use crate::search::search;

/// Puts a row in its place, where it replaces the one that was there.
pub fn put(rows: &mut Vec<Row>, row: Row)
    requires rising { IsRising rows.old.items }
    requires room { vec_len rows.old < vec_capacity rows.old }
    ensures done { rows.new.items ≡ after_edit row.inst (Put (record_of row)) rows.old.items }
    ensures rising { IsRising rows.new.items }
    ensures longer { vec_len rows.new ≤ vec_len rows.old + 1 }
    ensures room { vec_capacity rows.old ≤ vec_capacity rows.new }
{
    match search(rows, row.kind, row.inst.as_slice(), row.key.as_slice()) {
        Ok(at) => rows[at] = row,
        Err(at) => rows.insert(at, row).unwrap(),
    }
}

/// Puts a row in its place, if there is one.
pub(crate) fn put_if(rows: &mut Vec<Row>, row: Option<Row>)
    requires rising { IsRising rows.old.items }
    requires room { vec_len rows.old < vec_capacity rows.old }
    ensures done { (institution : List ℕ) → IsOf institution row
        → rows.new.items ≡ after_edits institution (put_if row) rows.old.items }
    ensures rising { IsRising rows.new.items }
    ensures longer { vec_len rows.new ≤ vec_len rows.old + 1 }
    ensures room { vec_capacity rows.old ≤ vec_capacity rows.new }
{
    if let Some(row) = row {
        put(rows, row);
    }
}

/// Starts the entry with a key, if there is one.
pub fn start(rows: &mut Vec<Row>, institution: &[u8], key: &[u8])
    requires { IsRising rows.old.items }
    ensures done { rows.new.items ≡ after_edit institution.now (Start key.now) rows.old.items }
    ensures rising { IsRising rows.new.items }
    ensures long { vec_len rows.new ≡ vec_len rows.old }
    ensures room { vec_capacity rows.new ≡ vec_capacity rows.old }
{
    if let Ok(at) = search(rows, Kind::Entry, institution, key) {
        rows[at].started = true;
    }
}

/// Removes the row at a place.
pub(crate) fn remove(rows: &mut Vec<Row>, kind: Kind, institution: &[u8], key: &[u8])
    requires { IsRising rows.old.items }
    ensures { rows.new.items ≡ after_edit institution.now (Remove kind key.now) rows.old.items }
{
    if let Ok(at) = search(rows, kind, institution, key) {
        rows.remove(at);
    }
}
