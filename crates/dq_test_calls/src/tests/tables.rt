//! Rows of records in memory, and over a fuse.
ghost use Rattle.std.specs.Prelude.{◌≡◌, [], true, false, IfOk};
ghost use Rattle.dq_tables.specs.declared.row.Kind.{Kind};
ghost use Rattle.dq_tables.specs.Sound.{is_own_row, ChangeFits};

use dq_tables::{Change, Fuse, Fused, Kind, PlainTables, RecordKeys, Row, TableFault, Tables};
use std::alloc::{AllocError, Global};
use std::test::*;

const NORTH: &[u8] = b"NORTH";

/// An entry with the id S1, in Explicit.
const ENTRY: [u8; 30] =
    *b"\x40\0\0\x01SQ\0\0\x12\0\0\0\xfe\xff\0\xe0\x0a\0\0\0\x40\0\x09\0SH\x02\0S1";

/// A row of NORTH that stands under no other.
fn row(alloc: Global, kind: Kind, key: &[u8], octets: &[u8]) -> Result<Row, AllocError>
    ensures { IfOk result (λ row. row
        ≡ record {
          kind = kind;
          inst = NORTH.now;
          key = key.now;
          above = [];
          octets = octets.now;
          started = false;
        }) }
{
    let octets = Vec::from_slice(alloc, octets)?;
    let keys = RecordKeys {
        kind,
        key,
        above: b"",
    };
    Row::new(alloc, NORTH, &keys, octets)
}

/// The row of the entry, which is its record's own.
fn entry(alloc: Global) -> Result<Row, Fail>
    ensures kind { IfOk result (λ row. row.kind ≡ Kind.Entry) }
    ensures own { IfOk result (λ row. is_own_row row ≡ true) }
{
    let row = row(alloc, Kind::Entry, b"S1", &ENTRY)?;
    let is_own = row.is_own(alloc)?;
    Ok(
        is_own
            .then_some(row)
            .ok_or("the row is not its record's own")?,
    )
}

/// The change that adds the entry where nothing is kept.
fn added(alloc: Global) -> Result<Change, Fail>
    ensures { IfOk result (λ change. ChangeFits [] change) }
{
    Ok(Change::EntryAdded(entry(alloc)?))
}

/// Whether tables have failed, and answer nothing.
fn is_blown(tables: &mut Fused<PlainTables>) -> bool {
    let blown = Fuse {
        left: 0,
        blown: true,
    };
    tables.failed()
        && tables.fuse() == blown
        && tables.count(Kind::Entry, NORTH) == Err(TableFault::Store)
}

/// Tables that make no change fail at the first, and answer nothing from then on.
#[test]
fn a_fuse_blows(rt: HostRuntime) -> Result<(), Fail> {
    let change = added(rt.alloc())?;
    let mut tables = Fused::new(PlainTables::new(rt.alloc()), 0);
    assert!(rt; tables.apply(&change) == Err(TableFault::Store));
    assert!(rt; is_blown(&mut tables));
    Ok(())
}

/// How many entries stand in a window on those of NORTH, if the tables answer.
fn entries_in(tables: &mut PlainTables, from: usize, most: usize) -> Option<usize> {
    let rows = tables.rows_from(Kind::Entry, NORTH, from, most).ok()?;
    Some(rows.len())
}

/// The only entry stands in a window that begins at the first place and has room for one.
#[test]
fn a_window_shows_what_stands_in_it(rt: HostRuntime) -> Result<(), Fail> {
    let change = added(rt.alloc())?;
    let mut tables = PlainTables::new(rt.alloc());
    assert!(rt; tables.apply(&change) == Ok(()));
    assert!(rt; entries_in(&mut tables, 0, 1) == Some(1));
    assert!(rt; entries_in(&mut tables, 0, usize::MAX) == Some(1));
    assert!(rt; entries_in(&mut tables, 0, 0) == Some(0));
    assert!(rt; entries_in(&mut tables, 1, 1) == Some(0));
    Ok(())
}

/// How many entries of NORTH wait behind a key, at most so many, if the tables answer.
fn entries_behind(tables: &mut PlainTables, after: Option<&[u8]>, most: usize) -> Option<usize> {
    let rows = tables.waiting_after(NORTH, after, most).ok()?;
    Some(rows.len())
}

/// The only entry is behind no key and behind one before its own, and not behind its own.
#[test]
fn a_page_shows_what_is_behind_a_key(rt: HostRuntime) -> Result<(), Fail> {
    let change = added(rt.alloc())?;
    let mut tables = PlainTables::new(rt.alloc());
    assert!(rt; tables.apply(&change) == Ok(()));
    assert!(rt; entries_behind(&mut tables, None, 1) == Some(1));
    assert!(rt; entries_behind(&mut tables, None, 0) == Some(0));
    assert!(rt; entries_behind(&mut tables, Some(b"S0"), 1) == Some(1));
    assert!(rt; entries_behind(&mut tables, Some(b"S1"), 1) == Some(0));
    let under = tables.rows_above_after(Kind::Entry, NORTH, b"", None, 1);
    assert!(rt; under.is_ok_and(|rows| rows.len() == 1));
    Ok(())
}
