//! Queries on the tables of a connection.
ghost use Rattle.std.specs.Prelude.{◌≡◌, [], None, Some, List, IfOk, IfErr, OnOk, map, length, take, drop, slice_get, option_copied};
ghost use Rattle.sqlite_value.specs.Order.{Row as Values, column, bytes};
ghost use Rattle.sqlite_value.specs.declared.value.Value.TheVariants.{Blob};
ghost use Rattle.sqlite.specs.Values.{bound};
ghost use Rattle.sqlite.specs.State.{HasCleanDisk, Shown};
ghost use Rattle.sqlite.specs.Held.{state};
ghost use Rattle.dq_tables.specs.Lookups.{row_at, rows_of, rows_above, rows_after, rows_behind, waiting_entries};
ghost use Rattle.dq_sql.specs.Tie.{is_set, Stays};
ghost use Rattle.dq_sql.specs.FoundStores.{IsJudged, number_query, FailsBy};
ghost use Rattle.dq_sql.specs.StoreFaults.{store_fault, of_tables};
ghost use Rattle.dq_sql.specs.RowReads.{ShowsNoWrite, ShowsSame, HoldsOf, Shows, kept_shown, numbers_shown, IsCount, row_shown};

use crate::judgement::Judgement;
use crate::version::Version;
use crate::window::{KeyPage, Window, key_or_number, limit_of};
use dq_list::Listed;
use dq_tables::{Kind, Row, TableFault};
use sqlite::types::{ToSql, ValueRef};
use sqlite::{Alter, Connection, Error, ErrorCode};
use std::alloc::Global;

/// Returns the fault of the tables for an error of the database.
pub(crate) fn fault_of(error: &Error) -> TableFault
    ensures { of_tables result ≡ store_fault error.now }
{
    match error {
        Error::SqliteFailure(ErrorCode::OutOfMemory) => TableFault::NoMemory,
        _ => TableFault::Store,
    }
}

/// The rows that a query answers.
pub(crate) fn answered<S: Alter>(
    conn: &mut Connection<S>,
    query: &str,
    params: &[ValueRef<'_>],
) -> Result<Vec<sqlite::Row>, TableFault>
    ensures shown { HasCleanDisk (state S.Store conn.new) → IfOk result (λ rows.
        Shown query.now (bound params.now) (state S.Store conn.old) (state S.Store conn.new)
        rows.items) }
    ensures fails { HasCleanDisk (state S.Store conn.new) → IfErr result (λ e.
        FailsBy query.now (bound params.now) (state S.Store conn.old) (state S.Store conn.new)
        (of_tables e)) }
    ensures same { ShowsNoWrite query.now → HasCleanDisk (state S.Store conn.new) → OnOk result
        (ShowsSame (state S.Store conn.old) (state S.Store conn.new)) }
    ensures stays { ShowsNoWrite query.now → Stays (state S.Store conn.old) (state S.Store conn.new) }
{
    match conn.query_all(query, params) {
        Ok(rows) => Ok(rows),
        Err(error) => Err(fault_of(&error)),
    }
}

/// The octets in a column.
pub(crate) fn octets_at(values: &sqlite::Row, at: usize) -> Result<Listed<u8>, TableFault>
    ensures { IfOk result (λ octets. octets ≡ bytes (column values.now at)) }
{
    match values.get::<Vec<u8>>(at) {
        Ok(octets) => Ok(Listed::from_inner(octets)),
        Err(error) => Err(fault_of(&error)),
    }
}

/// Whether the number in a column is not 0.
fn is_set_at(values: &sqlite::Row, at: usize) -> Result<bool, TableFault>
    ensures { IfOk result (λ set. set ≡ is_set (column values.now at)) }
{
    match values.get::<bool>(at) {
        Ok(set) => Ok(set),
        Err(error) => Err(fault_of(&error)),
    }
}

/// The row of a kind and an institution whose key, key above and octets a query shows, and whether
/// it is started.
fn row_shown(
    alloc: Global,
    kind: Kind,
    institution: &[u8],
    values: &sqlite::Row,
) -> Result<Row, TableFault>
    ensures { IfOk result (λ row. row ≡ row_shown kind institution.now values.now) }
{
    Ok(Row {
        kind,
        inst: Listed::copy_of(alloc, institution)?,
        key: octets_at(values, 0)?,
        above: octets_at(values, 1)?,
        octets: octets_at(values, 2)?,
        started: is_set_at(values, 3)?,
    })
}

/// The rows that a query shows so.
pub(crate) fn rows_shown(
    alloc: Global,
    kind: Kind,
    institution: &[u8],
    answer: &[sqlite::Row],
) -> Result<Listed<Row>, TableFault>
    ensures { IfOk result (λ rows. rows ≡ map (row_shown kind institution.now) answer.now) }
{
    let mut rows = Vec::new(alloc);
    for values in answer {
        rows.push(row_shown(alloc, kind, institution, values)?)?;
    }
    Ok(Listed::from_inner(rows))
}

/// The first row that a query shows so, if it shows any.
fn first_shown(
    alloc: Global,
    kind: Kind,
    institution: &[u8],
    answer: &[sqlite::Row],
) -> Result<Option<Row>, TableFault>
    ensures { IfOk result (λ row.
        row ≡ slice_get (map (row_shown kind institution.now) answer.now) 0) }
{
    match answer {
        [values, ..] => Ok(Some(row_shown(alloc, kind, institution, values)?)),
        [] => Ok(None),
    }
}

/// The row of a kind and an institution that has the key.
#[tactic(auto, using(crate::proofs::Silent::row_silent))]
pub(crate) fn row<S: Alter>(
    conn: &mut Connection<S>,
    alloc: Global,
    kind: Kind,
    institution: &[u8],
    key: &[u8],
) -> Result<Option<Row>, TableFault>
    ensures found { HasCleanDisk (state S.Store conn.new) → IfOk result (λ row.
        HoldsOf (state S.Store conn.old) (λ rows.
        row ≡ row_at kind institution.now key.now rows)) }
    ensures stays { Stays (state S.Store conn.old) (state S.Store conn.new) }
{
    let answer = answered(
        conn,
        "SELECT id, above, octets, started FROM kept WHERE kind = ?1 AND inst = ?2 AND id = ?3",
        &[
            u32::from(kind.number()).to_sql(),
            ValueRef::Text(institution),
            ValueRef::Blob(key),
        ],
    )?;
    first_shown(alloc, kind, institution, answer.as_slice())
}

/// The rows of a kind and an institution, in the order of their keys.
#[tactic(auto, using(crate::proofs::Silent::of_silent))]
pub(crate) fn rows_of<S: Alter>(
    conn: &mut Connection<S>,
    alloc: Global,
    kind: Kind,
    institution: &[u8],
) -> Result<Listed<Row>, TableFault>
    ensures found { HasCleanDisk (state S.Store conn.new) → IfOk result (λ list.
        HoldsOf (state S.Store conn.old) (λ rows. list ≡ rows_of kind institution.now rows)) }
    ensures stays { Stays (state S.Store conn.old) (state S.Store conn.new) }
{
    let answer = answered(
        conn,
        "SELECT id, above, octets, started FROM kept WHERE kind = ?1 AND inst = ?2 ORDER BY id",
        &[
            u32::from(kind.number()).to_sql(),
            ValueRef::Text(institution),
        ],
    )?;
    rows_shown(alloc, kind, institution, answer.as_slice())
}

/// Those among them that stand in a window. None behind it is read, but where SQL has no numbers as
/// great as the window's.
#[tactic(auto, using(crate::proofs::Silent::window_silent))]
pub(crate) fn rows_from<S: Alter>(
    conn: &mut Connection<S>,
    alloc: Global,
    kind: Kind,
    institution: &[u8],
    window: Window,
) -> Result<Listed<Row>, TableFault>
    ensures found { HasCleanDisk (state S.Store conn.new) → IfOk result (λ list.
        HoldsOf (state S.Store conn.old) (λ rows.
        list ≡ take window.most (drop window.from (rows_of kind institution.now rows)))) }
    ensures stays { Stays (state S.Store conn.old) (state S.Store conn.new) }
{
    let Some((limit, offset)) = window.limit_and_offset() else {
        let rows = rows_of(conn, alloc, kind, institution)?;
        return Ok(window.of(rows));
    };
    let answer = answered(
        conn,
        "SELECT id, above, octets, started FROM kept WHERE kind = ?1 AND inst = ?2 ORDER BY id LIMIT ?3 OFFSET ?4",
        &[
            u32::from(kind.number()).to_sql(),
            ValueRef::Text(institution),
            limit,
            offset,
        ],
    )?;
    rows_shown(alloc, kind, institution, answer.as_slice())
}

/// Those among them with keys behind a key, at most so many. More than SQL has numbers for find no
/// memory.
#[tactic(auto, using(crate::proofs::Silent::after_silent))]
pub(crate) fn rows_after<S: Alter>(
    conn: &mut Connection<S>,
    alloc: Global,
    kind: Kind,
    institution: &[u8],
    key: &[u8],
    most: usize,
) -> Result<Listed<Row>, TableFault>
    ensures found { HasCleanDisk (state S.Store conn.new) → IfOk result (λ list.
        HoldsOf (state S.Store conn.old) (λ rows.
        list ≡ take most (rows_after kind institution.now key.now rows))) }
    ensures stays { Stays (state S.Store conn.old) (state S.Store conn.new) }
{
    let limit = limit_of(most)?;
    let answer = answered(
        conn,
        "SELECT id, above, octets, started FROM kept WHERE kind = ?1 AND inst = ?2 AND id > ?3 ORDER BY id LIMIT ?4",
        &[
            u32::from(kind.number()).to_sql(),
            ValueRef::Text(institution),
            ValueRef::Blob(key),
            limit,
        ],
    )?;
    rows_shown(alloc, kind, institution, answer.as_slice())
}

/// The rows of a kind and an institution under another record, in the order of their keys.
#[tactic(auto, using(crate::proofs::Silent::above_silent))]
pub(crate) fn rows_above<S: Alter>(
    conn: &mut Connection<S>,
    alloc: Global,
    kind: Kind,
    institution: &[u8],
    above: &[u8],
) -> Result<Listed<Row>, TableFault>
    ensures found { HasCleanDisk (state S.Store conn.new) → IfOk result (λ list.
        HoldsOf (state S.Store conn.old) (λ rows.
        list ≡ rows_above kind institution.now above.now rows)) }
    ensures stays { Stays (state S.Store conn.old) (state S.Store conn.new) }
{
    let answer = answered(
        conn,
        "SELECT id, above, octets, started FROM kept WHERE kind = ?1 AND inst = ?2 AND above = ?3 ORDER BY id",
        &[
            u32::from(kind.number()).to_sql(),
            ValueRef::Text(institution),
            ValueRef::Blob(above),
        ],
    )?;
    rows_shown(alloc, kind, institution, answer.as_slice())
}

/// Those of them with keys behind a key, or all where there is none, at most so many.
#[tactic(auto, using(crate::proofs::Silent::above_after_silent))]
pub(crate) fn rows_above_after<S: Alter>(
    conn: &mut Connection<S>,
    alloc: Global,
    kind: Kind,
    institution: &[u8],
    above: &[u8],
    page: KeyPage<'_>,
) -> Result<Listed<Row>, TableFault>
    ensures found { HasCleanDisk (state S.Store conn.new) → IfOk result (λ list.
        HoldsOf (state S.Store conn.old) (λ rows.
        list ≡ take page.entry.most (rows_behind (option_copied page.entry.after)
        (rows_above kind institution.now above.now rows)))) }
    ensures stays { Stays (state S.Store conn.old) (state S.Store conn.new) }
{
    let limit = limit_of(page.most)?;
    let answer = answered(
        conn,
        "SELECT id, above, octets, started FROM kept WHERE kind = ?1 AND inst = ?2 AND above = ?3 AND id > ?4 ORDER BY id LIMIT ?5",
        &[
            u32::from(kind.number()).to_sql(),
            ValueRef::Text(institution),
            ValueRef::Blob(above),
            key_or_number(page.after),
            limit,
        ],
    )?;
    rows_shown(alloc, kind, institution, answer.as_slice())
}

/// A page of the worklist entries of an institution that are not started.
#[tactic(auto, using(crate::proofs::Silent::waiting_silent))]
pub(crate) fn waiting_after<S: Alter>(
    conn: &mut Connection<S>,
    alloc: Global,
    institution: &[u8],
    page: KeyPage<'_>,
) -> Result<Listed<Row>, TableFault>
    ensures found { HasCleanDisk (state S.Store conn.new) → IfOk result (λ list.
        HoldsOf (state S.Store conn.old) (λ rows.
        list ≡ take page.entry.most (rows_behind (option_copied page.entry.after)
        (waiting_entries institution.now rows)))) }
    ensures stays { Stays (state S.Store conn.old) (state S.Store conn.new) }
{
    let limit = limit_of(page.most)?;
    let answer = answered(
        conn,
        "SELECT id, above, octets, started FROM kept WHERE kind = ?1 AND inst = ?2 AND started = 0 AND id > ?3 ORDER BY id LIMIT ?4",
        &[
            u32::from(Kind::Entry.number()).to_sql(),
            ValueRef::Text(institution),
            key_or_number(page.after),
            limit,
        ],
    )?;
    rows_shown(alloc, Kind::Entry, institution, answer.as_slice())
}

/// The number that a count shows. A count stops at the greatest whole number of SQL, which is
/// therefore no answer.
fn count_shown(answer: &[sqlite::Row]) -> Result<u64, TableFault>
    ensures { IfOk result (IsCount answer.now) }
{
    let Some(values) = answer.first() else {
        return Err(TableFault::Store);
    };
    match values.get::<u64>(0) {
        Ok(number) if number < 0x7fff_ffff_ffff_ffff => Ok(number),
        Ok(_) => Err(TableFault::Store),
        Err(error) => Err(fault_of(&error)),
    }
}

/// How many rows of a kind the institution has.
#[tactic(auto, using(crate::proofs::Silent::count_silent))]
pub(crate) fn count<S: Alter>(
    conn: &mut Connection<S>,
    kind: Kind,
    institution: &[u8],
) -> Result<u64, TableFault>
    ensures found { HasCleanDisk (state S.Store conn.new) → IfOk result (λ number.
        HoldsOf (state S.Store conn.old) (λ rows.
        number ≡ length (rows_of kind institution.now rows))) }
    ensures stays { Stays (state S.Store conn.old) (state S.Store conn.new) }
{
    let answer = answered(
        conn,
        "SELECT count(*) FROM kept WHERE kind = ?1 AND inst = ?2",
        &[
            u32::from(kind.number()).to_sql(),
            ValueRef::Text(institution),
        ],
    )?;
    count_shown(answer.as_slice())
}

/// How many of those are under another record.
#[tactic(auto, using(crate::proofs::Silent::count_above_silent))]
pub(crate) fn count_above<S: Alter>(
    conn: &mut Connection<S>,
    kind: Kind,
    institution: &[u8],
    above: &[u8],
) -> Result<u64, TableFault>
    ensures found { HasCleanDisk (state S.Store conn.new) → IfOk result (λ number.
        HoldsOf (state S.Store conn.old) (λ rows.
        number ≡ length (rows_above kind institution.now above.now rows))) }
    ensures stays { Stays (state S.Store conn.old) (state S.Store conn.new) }
{
    let answer = answered(
        conn,
        "SELECT count(*) FROM kept WHERE kind = ?1 AND inst = ?2 AND above = ?3",
        &[
            u32::from(kind.number()).to_sql(),
            ValueRef::Text(institution),
            ValueRef::Blob(above),
        ],
    )?;
    count_shown(answer.as_slice())
}

/// The judgement of the rows that a query answers, each of which is judged as it is read. There is
/// room for so many at once.
fn in_turn<S: Alter>(
    conn: &mut Connection<S>,
    alloc: Global,
    room: usize,
    query: &str,
) -> Result<Judgement, Error>
    requires { ShowsNoWrite query.now }
    ensures judged { IfOk result (λ judgement. (found : List Values) × IsJudged found judgement
        × (HasCleanDisk (state S.Store conn.new)
        → Shown query.now [] (state S.Store conn.old) (state S.Store conn.new) found)) }
    ensures stays { Stays (state S.Store conn.old) (state S.Store conn.new) }
{
    let mut judgement = Judgement::new(alloc, room);
    let mut rows = conn.query(query, &[])?;
    'rows: for _ in 0..u64::MAX {
        let Some(row) = rows.next()? else {
            return Ok(judgement);
        };
        judgement.judge(alloc, row)?;
    }
    Err(Error::SqliteFailure(ErrorCode::OutOfMemory))
}

/// `in_turn`, whose error is a fault.
fn judged_in_turn<S: Alter>(
    conn: &mut Connection<S>,
    alloc: Global,
    room: usize,
    query: &str,
) -> Result<Judgement, TableFault>
    requires { ShowsNoWrite query.now }
    ensures judged { IfOk result (λ judgement. (found : List Values) × IsJudged found judgement
        × (HasCleanDisk (state S.Store conn.new)
        → Shown query.now [] (state S.Store conn.old) (state S.Store conn.new) found)) }
    ensures stays { Stays (state S.Store conn.old) (state S.Store conn.new) }
{
    match in_turn(conn, alloc, room, query) {
        Ok(judgement) => Ok(judgement),
        Err(error) => Err(fault_of(&error)),
    }
}

/// How many rows the table `kept` has, as its store tells: a hint of the room that they take.
#[tactic(auto, using(crate::proofs::Silent::told_silent))]
fn rows_told<S: Alter>(conn: &mut Connection<S>) -> Result<usize, TableFault>
    ensures same { HasCleanDisk (state S.Store conn.new) → OnOk result
        (ShowsSame (state S.Store conn.old) (state S.Store conn.new)) }
    ensures stays { Stays (state S.Store conn.old) (state S.Store conn.new) }
{
    let answer = answered(conn, "SELECT count(*) FROM kept", &[])?;
    match usize::try_from(count_shown(answer.as_slice())?) {
        Ok(number) => Ok(number),
        Err(_) => Ok(0),
    }
}

/// The judgement of the rows of the table `kept` of a version. They are read in the order of kind,
/// institution and id.
#[tactic(auto, using(crate::proofs::Silent::all_one_silent, crate::proofs::Silent::all_two_silent))]
pub(crate) fn rows_judged<S: Alter>(
    conn: &mut Connection<S>,
    alloc: Global,
    version: Version,
) -> Result<Judgement, TableFault>
    ensures judged { IfOk result (λ judgement. (found : List Values) × IsJudged found judgement
        × (HasCleanDisk (state S.Store conn.new)
        → Shows version (state S.Store conn.old) (kept_shown version) found)) }
    ensures stays { Stays (state S.Store conn.old) (state S.Store conn.new) }
{
    let room = rows_told(conn)?;
    match version {
        Version::One => judged_in_turn(
            conn,
            alloc,
            room,
            "SELECT rowid, kind, inst, id, above, patient, day, octets, 0 FROM kept ORDER BY kind, inst, id",
        ),
        Version::Two => judged_in_turn(
            conn,
            alloc,
            room,
            "SELECT rowid, kind, inst, id, above, patient, day, octets, started FROM kept ORDER BY kind, inst, id",
        ),
    }
}

/// The numbers in the table `version` of a store that has the tables of a version.
#[tactic(auto, using(crate::proofs::Silent::version_silent))]
pub(crate) fn versions_read<S: Alter>(
    conn: &mut Connection<S>,
) -> Result<Vec<sqlite::Row>, TableFault>
    ensures found { HasCleanDisk (state S.Store conn.new) → IfOk result (λ answer.
        (version : _) → Shows version (state S.Store conn.old) numbers_shown answer.items) }
    ensures shown { HasCleanDisk (state S.Store conn.new) → IfOk result (λ answer.
        Shown number_query [] (state S.Store conn.old) (state S.Store conn.new) answer.items) }
    ensures fails { HasCleanDisk (state S.Store conn.new) → IfErr result (λ e.
        FailsBy number_query [] (state S.Store conn.old) (state S.Store conn.new) (of_tables e)) }
    ensures stays { Stays (state S.Store conn.old) (state S.Store conn.new) }
{
    answered(conn, "SELECT number FROM version", &[])
}
