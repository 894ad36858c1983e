//! Found rows, put in order.
ghost use Rattle.std.specs.Prelude.{◌≡◌, ◌≢◌, [], ◌∷◌, ◌++◌, List, Err, IfSome, IfOk, OnOk, MatchBool, is_some, IsPermutation};
ghost use Rattle.sqlite_value.specs.Order.{Row as Values};
ghost use Rattle.dq_tables.specs.Rows.{IsRising};
ghost use Rattle.dq_tables.specs.Lookups.{row_at};
ghost use Rattle.dq_tables.specs.Sound.{is_held, HeldEach};
ghost use Rattle.dq_sql.specs.declared.fault.StoreFault.TheVariants.{WrongVersion, BadRows};
ghost use Rattle.dq_sql.specs.Tie.{row_of_cells};
ghost use Rattle.dq_sql.specs.FoundStores.{HoldOctets, IsGood, IsPlaceTaken, AreRows};

use crate::fault::StoreFault;
use crate::row_check::good_row;
use dq_tables::{Kind, Row, put_row, search_rows};
use sqlite::{Error, ErrorCode};
use std::alloc::Global;

/// Whether a row of the kind, the institution and the key is among rows in order.
#[tactic(auto, using(crate::proofs::RowOrder::there_is))]
fn is_there(rows: &[Row], kind: Kind, institution: &[u8], key: &[u8]) -> bool
    requires { IsRising rows.now }
    ensures { result ≡ is_some (row_at kind institution.now key.now rows.now) }
{
    search_rows(rows, kind, institution, key).is_ok()
}

/// Puts the row that the columns hold in its place, which is to be free.
#[tactic(auto, using(crate::proofs::RowOrder::put_adds, crate::proofs::RowOrder::kept_taken))]
fn put_found(alloc: Global, rows: &mut Vec<Row>, found: &sqlite::Row) -> Result<(), StoreFault>
    requires { IsRising rows.old.items }
    ensures good { OnOk result (IsGood found.now) }
    ensures added { OnOk result (IsPermutation (row_of_cells found.now ∷ rows.old.items) rows.new.items) }
    ensures rising { OnOk result (IsRising rows.new.items) }
    ensures octets { HoldOctets rows.old.items → OnOk result (HoldOctets rows.new.items) }
    ensures bad { result ≡ Err BadRows → IsGood found.now
        → IsPlaceTaken rows.old.items (row_of_cells found.now) }
    ensures version { result ≢ Err WrongVersion }
{
    let row = good_row(alloc, found)?;
    if is_there(rows, row.kind, row.inst.as_slice(), row.key.as_slice()) {
        return Err(StoreFault::BadRows);
    }
    rows.reserve(1)?;
    put_row(rows, row);
    Ok(())
}

/// The rows of found ones and of one more, in order, while all are good and no two of one place.
pub(crate) fn rows_then(
    alloc: Global,
    rows: Option<Vec<Row>>,
    found: &sqlite::Row,
) -> Result<Option<Vec<Row>>, Error>
    requires { IfSome rows (λ rows. IsRising rows.items) }
    ensures { IfOk result (λ new. (seen : List Values) → AreRows seen rows
        → AreRows (seen ++ found.now ∷ []) new) }
{
    let Some(mut rows) = rows else {
        return Ok(None);
    };
    match put_found(alloc, &mut rows, found) {
        Ok(()) => Ok(Some(rows)),
        Err(StoreFault::BadRows) => Ok(None),
        Err(StoreFault::NoMemory) => Err(Error::SqliteFailure(ErrorCode::OutOfMemory)),
        Err(_) => Err(Error::SqliteFailure(ErrorCode::TooBig)),
    }
}

/// Whether the row above one is there.
#[tactic(auto, unfolding(dq_tables::specs::Sound::is_held))]
fn is_held(rows: &[Row], row: &Row) -> bool
    requires { IsRising rows.now }
    ensures { result ≡ is_held rows.now row.now.kind row.now.inst row.now.above }
{
    let (institution, above) = (row.inst.as_slice(), row.above.as_slice());
    match row.kind {
        Kind::Series => is_there(rows, Kind::Study, institution, above),
        Kind::Image => is_there(rows, Kind::Series, institution, above),
        Kind::Study | Kind::Entry | Kind::Step => true,
    }
}

/// Whether each row has the row above it among them.
pub(crate) fn are_held(rows: &[Row]) -> bool
    requires { IsRising rows.now }
    ensures { MatchBool result (HeldEach rows.now rows.now) (¬ HeldEach rows.now rows.now) }
{
    rows.iter().all(|row| is_held(rows, row))
}
