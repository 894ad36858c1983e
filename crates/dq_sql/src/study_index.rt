//! The studies that a choice takes, if they are few, read by the index that fits what it asks.
//!
//! A comparison never holds of a null, so no bounds of an index enclose the rows that have one. But
//! nulls come first in its order: the rows are read in that order, ever more, up to one that has a
//! value.
ghost use Rattle.std.specs.Prelude.{◌≡◌, ◌≤◌, ◌<◌, ◌++◌, ℕ, List, IfOk, OnOk, MatchOption, IsTrue, IsPermutation, IsSortedByKey, length, take, filter, map, option_to_list};
ghost use Rattle.sqlite_value.specs.Value.{owned};
ghost use Rattle.sqlite_value.specs.Order.{column};
ghost use Rattle.sqlite_sql.specs.Ops.{is_null};
ghost use Rattle.sqlite.specs.State.{HasCleanDisk};
ghost use Rattle.sqlite.specs.Held.{state};
ghost use Rattle.dq_sql.specs.Tie.{Stays};
ghost use Rattle.dq_sql.specs.RowReads.{HoldsOf, ShowsSame, row_shown};
ghost use Rattle.dq_sql.specs.StudyIndex.{is_of_patient, is_of_days, ShowsSaying, ShowsSilent, FindsFew, leading_nulls, EndsWithin, last_day_or_blob};
ghost use Rattle.dq_sql.specs.declared.study_index.Label.TheVariants.{Patient, Day};
ghost use Rattle.dq_tables.specs.declared.row.Kind.TheVariants.{Study};
ghost use Rattle.dq_tables.specs.declared.row.Row.{Row};
ghost use Rattle.dq_tables.specs.Rows.{octet_order};
ghost use Rattle.dq_tables.specs.Lookups.{row_at, rows_of};
ghost use Rattle.dq_tables.specs.StudyChoices.{studies_in};

use crate::row_check::value_at;
use crate::row_reader;
use crate::row_reader::{answered, rows_shown};
use crate::window::{Window, limit_of};
use dq_list::Listed;
use dq_tables::laws::day_numbers_are_in_order;
use dq_tables::{Choice, Kind, Row, TableFault};
use sqlite::types::{ToSql, ValueRef};
use sqlite::{Alter, Connection};
use std::alloc::{AllocError, Global};

/// An attribute of a study that may have no single value.
#[derive(Clone, Copy, PartialEq, Eq)]
pub(crate) enum Label {
    Patient,
    Day,
}

/// The last day that is asked for. In SQL's order a blob is above every number.
fn last_day_or_blob(last: Option<u32>) -> ValueRef<'static>
    ensures { owned result ≡ last_day_or_blob last }
{
    match last {
        Some(day) => ValueRef::Int(i64::from(day)),
        None => ValueRef::Blob(&[]),
    }
}

/// An answer of fewer than so many rows.
fn fewer_than(many: usize, answer: Vec<sqlite::Row>) -> Option<Vec<sqlite::Row>>
    ensures { MatchOption result (many ≤ length answer.items)
        (λ few. (few.items ≡ answer.items) × (length answer.items < many)) }
{
    if answer.len() < many {
        Some(answer)
    } else {
        None
    }
}

/// The studies of a patient, where they are fewer than so many.
#[tactic(auto, using(crate::proofs::ChoiceTexts::patient_silent))]
fn of_patient<S: Alter>(
    conn: &mut Connection<S>,
    institution: &[u8],
    patient: &[u8],
    many: usize,
) -> Result<Option<Vec<sqlite::Row>>, TableFault>
    ensures found { HasCleanDisk (state S.Store conn.new) → IfOk result (λ few.
        FindsFew many institution.now (state S.Store conn.old) few (λ said rows.
        ShowsSaying Patient (is_of_patient patient.now) institution.now rows said.items)) }
    ensures same { HasCleanDisk (state S.Store conn.new) → OnOk result
        (ShowsSame (state S.Store conn.old) (state S.Store conn.new)) }
    ensures stays { Stays (state S.Store conn.old) (state S.Store conn.new) }
{
    let limit = limit_of(many)?;
    let answer = answered(
        conn,
        "SELECT id, above, octets, started FROM kept WHERE kind = ?1 AND inst = ?2 AND ?3 = patient LIMIT ?4",
        &[
            u32::from(Kind::Study.number()).to_sql(),
            ValueRef::Text(institution),
            ValueRef::Blob(patient),
            limit,
        ],
    )?;
    Ok(fewer_than(many, answer))
}

/// The studies from one day to another, where they are fewer than so many. No day is before day 0.
#[tactic(auto, using(crate::proofs::ChoiceTexts::days_silent))]
fn of_days<S: Alter>(
    conn: &mut Connection<S>,
    institution: &[u8],
    first: Option<u32>,
    last: Option<u32>,
    many: usize,
) -> Result<Option<Vec<sqlite::Row>>, TableFault>
    ensures found { HasCleanDisk (state S.Store conn.new) → IfOk result (λ few.
        FindsFew many institution.now (state S.Store conn.old) few (λ said rows.
        ShowsSaying Day (is_of_days first last) institution.now rows said.items)) }
    ensures same { HasCleanDisk (state S.Store conn.new) → OnOk result
        (ShowsSame (state S.Store conn.old) (state S.Store conn.new)) }
    ensures stays { Stays (state S.Store conn.old) (state S.Store conn.new) }
{
    day_numbers_are_in_order();
    let limit = limit_of(many)?;
    let answer = answered(
        conn,
        "SELECT id, above, octets, started FROM kept WHERE kind = ?1 AND inst = ?2 AND ?3 <= day AND day <= ?4 LIMIT ?5",
        &[
            u32::from(Kind::Study.number()).to_sql(),
            ValueRef::Text(institution),
            first.unwrap_or(0).to_sql(),
            last_day_or_blob(last),
            limit,
        ],
    )?;
    Ok(fewer_than(many, answer))
}

/// Whether the fifth column is null.
fn ends_null(values: &sqlite::Row) -> bool
    ensures { result ≡ is_null (column values.now 4) }
{
    matches!(value_at(values, 4), ValueRef::Null)
}

/// How many rows an answer shows before one whose fifth column is not null.
fn leading_nulls(answer: &[sqlite::Row]) -> usize
    ensures those { take result answer.now ≡ leading_nulls answer.now }
    ensures within { result ≤ length answer.now }
{
    for at in 0..answer.len() {
        if !ends_null(&answer[at]) {
            return at;
        }
    }
    answer.len()
}

/// The rows with a null there, where an answer of at most so many rows shows all of them.
fn silent_shown(mut answer: Vec<sqlite::Row>, most: usize) -> Option<Vec<sqlite::Row>>
    ensures { MatchOption result (most ≤ length answer.items)
        (λ silent. EndsWithin most answer.items silent.items) }
{
    let silent = leading_nulls(answer.as_slice());
    if silent >= most {
        return None;
    }
    answer.truncate(silent);
    Some(answer)
}

/// The studies that do not say their patient, where they are fewer than so many.
#[tactic(auto, using(crate::proofs::ChoiceTexts::no_patient_silent))]
fn without_patient<S: Alter>(
    conn: &mut Connection<S>,
    institution: &[u8],
    most: usize,
) -> Result<Option<Vec<sqlite::Row>>, TableFault>
    ensures found { HasCleanDisk (state S.Store conn.new) → IfOk result (λ few.
        FindsFew most institution.now (state S.Store conn.old) few (λ silent rows.
        ShowsSilent Patient institution.now rows silent.items)) }
    ensures same { HasCleanDisk (state S.Store conn.new) → OnOk result
        (ShowsSame (state S.Store conn.old) (state S.Store conn.new)) }
    ensures stays { Stays (state S.Store conn.old) (state S.Store conn.new) }
{
    let limit = limit_of(most)?;
    let answer = answered(
        conn,
        "SELECT id, above, octets, started, patient FROM kept WHERE kind = ?1 AND inst = ?2 ORDER BY patient LIMIT ?3",
        &[
            u32::from(Kind::Study.number()).to_sql(),
            ValueRef::Text(institution),
            limit,
        ],
    )?;
    Ok(silent_shown(answer, most))
}

/// The studies that do not say their day, where they are fewer than so many.
#[tactic(auto, using(crate::proofs::ChoiceTexts::no_day_silent))]
fn without_day<S: Alter>(
    conn: &mut Connection<S>,
    institution: &[u8],
    most: usize,
) -> Result<Option<Vec<sqlite::Row>>, TableFault>
    ensures found { HasCleanDisk (state S.Store conn.new) → IfOk result (λ few.
        FindsFew most institution.now (state S.Store conn.old) few (λ silent rows.
        ShowsSilent Day institution.now rows silent.items)) }
    ensures same { HasCleanDisk (state S.Store conn.new) → OnOk result
        (ShowsSame (state S.Store conn.old) (state S.Store conn.new)) }
    ensures stays { Stays (state S.Store conn.old) (state S.Store conn.new) }
{
    let limit = limit_of(most)?;
    let answer = answered(
        conn,
        "SELECT id, above, octets, started, day FROM kept WHERE kind = ?1 AND inst = ?2 ORDER BY day LIMIT ?3",
        &[
            u32::from(Kind::Study.number()).to_sql(),
            ValueRef::Text(institution),
            limit,
        ],
    )?;
    Ok(silent_shown(answer, most))
}

/// The studies that do not say something, where they are fewer than so many.
fn without_within<S: Alter>(
    conn: &mut Connection<S>,
    institution: &[u8],
    label: Label,
    most: usize,
) -> Result<Option<Vec<sqlite::Row>>, TableFault>
    ensures found { HasCleanDisk (state S.Store conn.new) → IfOk result (λ few.
        FindsFew most institution.now (state S.Store conn.old) few (λ silent rows.
        ShowsSilent label institution.now rows silent.items)) }
    ensures same { HasCleanDisk (state S.Store conn.new) → OnOk result
        (ShowsSame (state S.Store conn.old) (state S.Store conn.new)) }
    ensures stays { Stays (state S.Store conn.old) (state S.Store conn.new) }
{
    match label {
        Label::Patient => without_patient(conn, institution, most),
        Label::Day => without_day(conn, institution, most),
    }
}

/// So many studies are read first for those that do not say something, and eight times as many each
/// further time.
const READ_FIRST: usize = 8;

/// So often they are read before as many are read as there may be.
const READINGS: usize = 6;

/// The studies that do not say something, where the institution has few studies.
fn without<S: Alter>(
    conn: &mut Connection<S>,
    institution: &[u8],
    label: Label,
    many: usize,
) -> Result<Option<Vec<sqlite::Row>>, TableFault>
    ensures found { HasCleanDisk (state S.Store conn.new) → IfOk result (λ few.
        FindsFew many institution.now (state S.Store conn.old) few (λ silent rows.
        ShowsSilent label institution.now rows silent.items)) }
    ensures same { HasCleanDisk (state S.Store conn.new) → OnOk result
        (ShowsSame (state S.Store conn.old) (state S.Store conn.new)) }
    ensures stays { Stays (state S.Store conn.old) (state S.Store conn.new) }
{
    let mut most = READ_FIRST;
    'more: for _ in 0..READINGS {
        if most >= many {
            break;
        }
        if let Some(silent) = without_within(conn, institution, label, most)? {
            return Ok(Some(silent));
        }
        most = most.saturating_mul(8);
    }
    without_within(conn, institution, label, many)
}

/// The rows in the order of their keys.
fn in_key_order(rows: Listed<Row>) -> Result<Listed<Row>, AllocError>
    ensures same { IfOk result (λ sorted. IsPermutation rows sorted) }
    ensures order { IfOk result (IsSortedByKey (λ (row : Row). row.key) octet_order) }
{
    let mut rows = rows.into_inner();
    rows.sort_by(|a, b| a.key.as_slice().cmp(b.key.as_slice()))?;
    Ok(Listed::from_inner(rows))
}

/// The studies that two answers show, in the order of their keys.
fn shown_in_order(
    alloc: Global,
    institution: &[u8],
    mut said: Vec<sqlite::Row>,
    mut silent: Vec<sqlite::Row>,
) -> Result<Listed<Row>, TableFault>
    ensures same { IfOk result (λ sorted.
        IsPermutation (map (row_shown Study institution.now) (said.items ++ silent.items)) sorted) }
    ensures order { IfOk result (IsSortedByKey (λ (row : Row). row.key) octet_order) }
{
    said.append(&mut silent)?;
    let rows = rows_shown(alloc, Kind::Study, institution, said.as_slice())?;
    Ok(in_key_order(rows)?)
}

/// The study with a key, if there is one.
fn with_key<S: Alter>(
    conn: &mut Connection<S>,
    alloc: Global,
    institution: &[u8],
    uid: &[u8],
) -> Result<Listed<Row>, TableFault>
    ensures found { HasCleanDisk (state S.Store conn.new) → IfOk result (λ list.
        HoldsOf (state S.Store conn.old) (λ rows.
        list ≡ option_to_list (row_at Study institution.now uid.now rows))) }
    ensures stays { Stays (state S.Store conn.old) (state S.Store conn.new) }
{
    let mut rows = Listed::empty(alloc);
    if let Some(row) = row_reader::row(conn, alloc, Kind::Study, institution, uid)? {
        rows.push(row)?;
    }
    Ok(rows)
}

/// The studies of a patient, and those that do not say theirs, where the institution has few studies.
fn by_patient<S: Alter>(
    conn: &mut Connection<S>,
    alloc: Global,
    institution: &[u8],
    patient: &[u8],
    many: usize,
) -> Result<Option<Listed<Row>>, TableFault>
    ensures found { HasCleanDisk (state S.Store conn.new) → IfOk result (λ few.
        FindsFew many institution.now (state S.Store conn.old) few (λ list rows.
        list ≡ filter (is_of_patient patient.now) (rows_of Study institution.now rows))) }
    ensures stays { Stays (state S.Store conn.old) (state S.Store conn.new) }
{
    let Some(said) = of_patient(conn, institution, patient, many)? else {
        return Ok(None);
    };
    let Some(silent) = without(conn, institution, Label::Patient, many)? else {
        return Ok(None);
    };
    Ok(Some(shown_in_order(alloc, institution, said, silent)?))
}

/// The studies of the days that a choice asks for, and those that do not say theirs, where the
/// institution has few studies.
fn by_days<S: Alter>(
    conn: &mut Connection<S>,
    alloc: Global,
    institution: &[u8],
    choice: &Choice,
    many: usize,
) -> Result<Option<Listed<Row>>, TableFault>
    ensures found { HasCleanDisk (state S.Store conn.new) → IfOk result (λ few.
        FindsFew many institution.now (state S.Store conn.old) few (λ list rows.
        list ≡ filter (is_of_days choice.now.first_day choice.now.last_day)
        (rows_of Study institution.now rows))) }
    ensures stays { Stays (state S.Store conn.old) (state S.Store conn.new) }
{
    let (first, last) = (choice.first_day, choice.last_day);
    let Some(said) = of_days(conn, institution, first, last, many)? else {
        return Ok(None);
    };
    let Some(silent) = without(conn, institution, Label::Day, many)? else {
        return Ok(None);
    };
    Ok(Some(shown_in_order(alloc, institution, said, silent)?))
}

/// All studies of the institution, where they are fewer than so many.
fn all_within<S: Alter>(
    conn: &mut Connection<S>,
    alloc: Global,
    institution: &[u8],
    many: usize,
) -> Result<Option<Listed<Row>>, TableFault>
    ensures found { HasCleanDisk (state S.Store conn.new) → IfOk result (λ few.
        FindsFew many institution.now (state S.Store conn.old) few (λ list rows.
        list ≡ rows_of Study institution.now rows)) }
    ensures stays { Stays (state S.Store conn.old) (state S.Store conn.new) }
{
    let window = Window {
        from: 0,
        most: many,
    };
    let rows = row_reader::rows_from(conn, alloc, Kind::Study, institution, window)?;
    if rows.len() < many {
        Ok(Some(rows))
    } else {
        Ok(None)
    }
}

/// The institution's studies that a choice takes, in the order of their keys, by the first of its
/// parts that asks something. There may be no answer where the institution has so many studies.
pub(crate) fn few_studies_in<S: Alter>(
    conn: &mut Connection<S>,
    alloc: Global,
    institution: &[u8],
    choice: &Choice,
    many: usize,
) -> Result<Option<Listed<Row>>, TableFault>
    ensures found { HasCleanDisk (state S.Store conn.new) → IfOk result (λ few.
        FindsFew many institution.now (state S.Store conn.old) few (λ list rows.
        list ≡ studies_in choice.now institution.now rows)) }
    ensures stays { Stays (state S.Store conn.old) (state S.Store conn.new) }
{
    if let Some(uid) = &choice.uid {
        let rows = with_key(conn, alloc, institution, uid.as_slice())?;
        return Ok(Some(choice.among(alloc, rows)?));
    }
    if let Some(patient) = &choice.patient {
        let few = by_patient(conn, alloc, institution, patient.as_slice(), many)?;
        let Some(rows) = few else {
            return Ok(None);
        };
        return Ok(Some(choice.among(alloc, rows)?));
    }
    match (choice.first_day, choice.last_day) {
        (None, None) => all_within(conn, alloc, institution, many),
        _ => by_days(conn, alloc, institution, choice, many),
    }
}
