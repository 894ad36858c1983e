//! Stores that are made, adopted and migrated by value: a refusal drops their connections.
use super::{BEGUN, File, OfFiles, Stopping, answered, files_of, left, played, stores};
use dq_sql::{MigrateFault, SqlTables, StoreFault};
use dq_tables::{Kind, TableFault, Tables};
use sqlite::{Alter, Connection, FileStore, Files};
use std::alloc::Global;
use std::process::Abort;
use std::test::*;

/// The numbers of images of NORTH and of SOUTH.
fn images<T: Tables>(tables: &mut T) -> Result<(u64, u64), TableFault> {
    let north = tables.count(Kind::Image, b"NORTH")?;
    let south = tables.count(Kind::Image, b"SOUTH")?;
    Ok((north, south))
}

/// The numbers of images after NORTH's is stored in a new store.
fn images_after_one<S: Alter + Drop>(
    alloc: Global,
    conn: Connection<S>,
) -> Result<(u64, u64), Fail> {
    let mut events = stores(alloc)?;
    events.truncate(BEGUN + 1);
    let mut tables = played(alloc, SqlTables::open(alloc, conn)?, events)?.tables;
    Ok(images(&mut tables)?)
}

#[test]
fn an_image_is_counted_for_its_hospital(rt: HostRuntime) -> Result<(), Fail> {
    let conn = Connection::open_in_memory(rt.alloc())?;
    assert_eq!(rt; images_after_one(rt.alloc(), conn)?, (1, 0));
    Ok(())
}

/// A connection to files that do not stop.
fn connected<S: OfFiles>(alloc: Global, files: Files<File>) -> Result<Connection<S>, Fail> {
    Ok(S::opened(alloc, files).ok_or("the files are a database")?)
}

fn new_connection<S: OfFiles>(alloc: Global) -> Result<Connection<S>, Fail> {
    connected(alloc, Stopping::Log.after(alloc, u64::MAX))
}

/// A connection to a store in which both hospitals' images are kept, opened again.
fn reconnected<S: OfFiles>(alloc: Global) -> Result<Connection<S>, Fail> {
    let tables = SqlTables::open(alloc, new_connection::<S>(alloc)?)?;
    let (_, tables) = answered(alloc, tables)?;
    connected(alloc, files_of(tables))
}

/// A store is adopted with its rows, and no store is made over it.
fn a_store_is_adopted<S: OfFiles>(rt: &impl Abort, alloc: Global) -> Result<(), Fail> {
    let conn = reconnected::<S>(alloc)?;
    assert!(rt; SqlTables::open(alloc, conn).err() == Some(StoreFault::Store));
    let mut tables = SqlTables::adopt(alloc, reconnected::<S>(alloc)?)?;
    assert_eq!(rt; images(&mut tables)?, (1, 1));
    assert_eq!(rt; left(alloc, tables)?, 2);
    Ok(())
}

#[test]
fn a_closed_store_is_adopted(rt: HostRuntime) -> Result<(), Fail> {
    a_store_is_adopted::<FileStore<File>>(&rt, rt.alloc())
}

/// The statements that make a store of version 1, with NORTH's worklist entry of the id S1.
const VERSION_1: [&str; 5] = [
    "CREATE TABLE kept (kind INTEGER NOT NULL CHECK (kind BETWEEN 1 AND 5), inst TEXT NOT NULL, id BLOB NOT NULL, above BLOB NOT NULL, patient BLOB, day INTEGER, octets BLOB NOT NULL, PRIMARY KEY (kind, inst, id)) STRICT",
    "CREATE TABLE version (number INTEGER NOT NULL) STRICT",
    "CREATE INDEX kept_above ON kept (kind, inst, above, id)",
    "INSERT INTO version (number) VALUES (1)",
    "INSERT INTO kept VALUES (4, 'NORTH', X'5331', X'', NULL, NULL, X'400000015351000012000000FEFF00E00A00000040000900534802005331')",
];

/// A connection to a store that statements make.
fn made_by<S: OfFiles>(alloc: Global, statements: &[&str]) -> Result<Connection<S>, Fail> {
    let mut conn = new_connection::<S>(alloc)?;
    for statement in statements {
        if conn.execute(statement, &[]).is_err() {
            return Err("a statement fails".into());
        }
    }
    Ok(conn)
}

/// The fault of a migration from a store to another, if there is one.
fn refused<S: OfFiles>(
    alloc: Global,
    old: Connection<S>,
    new: Connection<S>,
) -> Option<MigrateFault> {
    SqlTables::migrate(alloc, old, new).err()
}

/// A store of version 1 is migrated with its rows. One of version 2 is not, and no store is migrated
/// into one that has rows.
fn an_old_store_is_migrated<S: OfFiles>(
    rt: &impl Abort,
    alloc: Global,
    statements: &[&str],
) -> Result<(), Fail> {
    let old = made_by::<S>(alloc, statements)?;
    let mut tables = SqlTables::migrate(alloc, old, new_connection::<S>(alloc)?)?;
    assert!(rt; tables.count(Kind::Entry, b"NORTH") == Ok(1));
    assert!(rt; tables.count(Kind::Entry, b"SOUTH") == Ok(0));
    let other = refused(alloc, reconnected::<S>(alloc)?, new_connection::<S>(alloc)?);
    assert!(rt; other == Some(MigrateFault::WrongVersion));
    let taken = refused(
        alloc,
        made_by::<S>(alloc, statements)?,
        reconnected::<S>(alloc)?,
    );
    assert!(rt; taken == Some(MigrateFault::Store));
    Ok(())
}

#[test]
fn a_store_of_version_1_is_migrated(rt: HostRuntime) -> Result<(), Fail> {
    an_old_store_is_migrated::<FileStore<File>>(&rt, rt.alloc(), &VERSION_1)
}
