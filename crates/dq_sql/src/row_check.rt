//! Checks of the columns of a found row.
ghost use Rattle.std.specs.Prelude.{◌≡◌, ◌≢◌, ℕ, Bool, List, pos, Err, IfOk, MatchOption, MatchBool};
ghost use Rattle.dq_list.specs.Octets.{AreOctets};
ghost use Rattle.sqlite_value.specs.declared.value.Value.TheVariants.{Int, Text, Blob};
ghost use Rattle.sqlite_value.specs.Value.{owned};
ghost use Rattle.sqlite_value.specs.Order.{column};
ghost use Rattle.sqlite.specs.Values.{or_null};
ghost use Rattle.dq_tables.specs.declared.row.Kind.{Kind};
ghost use Rattle.dq_tables.specs.declared.row.Row.{Row};
ghost use Rattle.dq_tables.specs.Rows.{number_of_kind};
ghost use Rattle.dq_sql.specs.Cells.{flag};
ghost use Rattle.dq_sql.specs.Tie.{row_of_cells};
ghost use Rattle.dq_sql.specs.declared.fault.StoreFault.TheVariants.{WrongVersion, BadRows};
ghost use Rattle.dq_sql.specs.FoundStores.{HoldsRecord, HasCells, IsGood};

use crate::cells::Cells;
use crate::fault::StoreFault;
use dq_list::Listed;
use dq_tables::{Kind, Row};
use sqlite::types::ValueRef;
use std::alloc::{AllocError, Global};

/// No database holds a row of so many octets: SQLite's limit is 10^9.
const TOO_LONG: usize = 0x8000_0000;

/// The kind whose number a value is.
fn kind_in(value: ValueRef<'_>) -> Option<Kind>
    ensures { MatchOption result ((kind : Kind) → owned value.entry ≢ Int (pos (number_of_kind kind)))
        (λ kind. owned value.entry ≡ Int (pos (number_of_kind kind))) }
{
    match value {
        ValueRef::Int(number) => Kind::from_number(u8::try_from(number).ok()?),
        _ => None,
    }
}

/// The octets of a text.
fn text_in<'a>(value: ValueRef<'a>) -> Option<&'a [u8]>
    ensures { MatchOption result ((octets : List ℕ) → owned value.entry ≢ Text octets)
        (λ octets. owned value.entry ≡ Text octets.now) }
{
    match value {
        ValueRef::Text(octets) => Some(octets),
        _ => None,
    }
}

/// The octets of a blob.
fn blob_in<'a>(value: ValueRef<'a>) -> Option<&'a [u8]>
    ensures { MatchOption result ((octets : List ℕ) → owned value.entry ≢ Blob octets)
        (λ octets. owned value.entry ≡ Blob octets.now) }
{
    match value {
        ValueRef::Blob(octets) => Some(octets),
        _ => None,
    }
}

/// Whether an entry is started, as 1 or 0 says.
fn flag_in(value: ValueRef<'_>) -> Option<bool>
    ensures { MatchOption result ((started : Bool) → owned value.entry ≢ flag started)
        (λ started. owned value.entry ≡ flag started) }
{
    match value {
        ValueRef::Int(0) => Some(false),
        ValueRef::Int(1) => Some(true),
        _ => None,
    }
}

/// The value in a column, which is null past the last.
pub(crate) fn value_at(found: &sqlite::Row, at: usize) -> ValueRef<'_>
    ensures { owned result ≡ column found.now at }
{
    match found.get_ref(at) {
        Ok(value) => value,
        Err(_) => ValueRef::Null,
    }
}

/// A row's record as columns hold it.
#[derive(Clone, Copy)]
struct Lent<'a> {
    kind: Kind,
    institution: &'a [u8],
    key: &'a [u8],
    above: &'a [u8],
    octets: &'a [u8],
    started: bool,
}

/// The row whose record the columns hold, lent.
fn lent_in(found: &sqlite::Row) -> Option<Lent<'_>>
    ensures { MatchOption result ((row : Row) → ¬ HoldsRecord row found.now)
        (λ lent. HoldsRecord (record {
          kind = lent.kind;
          inst = lent.institution.now;
          key = lent.key.now;
          above = lent.above.now;
          octets = lent.octets.now;
          started = lent.started;
        }) found.now) }
{
    Some(Lent {
        kind: kind_in(value_at(found, 1))?,
        institution: text_in(value_at(found, 2))?,
        key: blob_in(value_at(found, 3))?,
        above: blob_in(value_at(found, 4))?,
        octets: blob_in(value_at(found, 7))?,
        started: flag_in(value_at(found, 8))?,
    })
}

/// The row whose record the columns hold.
fn record_in(alloc: Global, found: &sqlite::Row) -> Result<Option<Row>, AllocError>
    ensures { IfOk result (λ row. MatchOption row ((row : Row) → ¬ HoldsRecord row found.now)
        (λ row. HoldsRecord row found.now)) }
{
    let Some(lent) = lent_in(found) else {
        return Ok(None);
    };
    Ok(Some(Row {
        kind: lent.kind,
        inst: Listed::copy_of(alloc, lent.institution)?,
        key: Listed::copy_of(alloc, lent.key)?,
        above: Listed::copy_of(alloc, lent.above)?,
        octets: Listed::copy_of(alloc, lent.octets)?,
        started: lent.started,
    }))
}

/// Whether a value is the patient, or null where there is none.
fn is_patient(value: ValueRef<'_>, patient: &Option<Vec<u8>>) -> bool
    ensures { MatchBool result
        (owned value.entry ≡ or_null (λ octets. Blob octets.items) patient.now)
        (owned value.entry ≢ or_null (λ octets. Blob octets.items) patient.now) }
{
    match (value, patient) {
        (ValueRef::Null, None) => true,
        (ValueRef::Blob(octets), Some(patient)) => octets == patient.as_slice(),
        _ => false,
    }
}

/// Whether a value is the day, or null where there is none.
fn is_day(value: ValueRef<'_>, day: Option<i64>) -> bool
    ensures { MatchBool result (owned value.entry ≡ or_null Int day)
        (owned value.entry ≢ or_null Int day) }
{
    match (value, day) {
        (ValueRef::Null, None) => true,
        (ValueRef::Int(number), Some(day)) => number == day,
        _ => false,
    }
}

/// Whether the columns say the row's patient and its day.
fn has_cells(alloc: Global, row: &Row, found: &sqlite::Row) -> Result<bool, AllocError>
    ensures { IfOk result (λ has. MatchBool has (HasCells row.now found.now)
        (¬ HasCells row.now found.now)) }
{
    let cells = Cells::of(alloc, row)?;
    Ok(is_patient(value_at(found, 5), &cells.patient) && is_day(value_at(found, 6), cells.day))
}

/// The octets of a slice are below 256.
fn are_octets(_octets: &[u8])
    ensures { AreOctets _octets.now }
{}

/// The row, where it is its record's own. A store that shows one of 2^31 octets or more has failed.
#[tactic(auto, using(crate::proofs::RecordColumns::good_from, crate::proofs::RecordColumns::cells_of_good, crate::proofs::RecordColumns::own_of_good, crate::proofs::RecordColumns::record_kept))]
fn own_row(alloc: Global, row: Row, found: &sqlite::Row) -> Result<Row, StoreFault>
    requires { HoldsRecord row found.now }
    ensures good { IfOk result (λ own. (own ≡ row_of_cells found.now) × IsGood found.now) }
    ensures octets { IfOk result (λ own. AreOctets own.octets) }
    ensures bad { result ≡ Err BadRows → ¬ IsGood found.now }
    ensures version { result ≢ Err WrongVersion }
{
    let octets = row.octets.as_slice();
    are_octets(octets);
    if octets.len() >= TOO_LONG {
        return Err(StoreFault::Store);
    }
    if has_cells(alloc, &row, found)? && row.is_own(alloc)? {
        Ok(row)
    } else {
        Err(StoreFault::BadRows)
    }
}

/// The row that the columns hold, where it is its record's own.
#[tactic(auto, using(crate::proofs::RecordColumns::none_good))]
pub(crate) fn good_row(alloc: Global, found: &sqlite::Row) -> Result<Row, StoreFault>
    ensures good { IfOk result (λ row. (row ≡ row_of_cells found.now) × IsGood found.now) }
    ensures octets { IfOk result (λ row. AreOctets row.octets) }
    ensures bad { result ≡ Err BadRows → ¬ IsGood found.now }
    ensures version { result ≢ Err WrongVersion }
{
    match record_in(alloc, found)? {
        Some(row) => own_row(alloc, row, found),
        None => Err(StoreFault::BadRows),
    }
}
