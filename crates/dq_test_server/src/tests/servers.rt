//! The server over rows in memory, where memory is refused, and over a store that fails.
use dq_config::Config;
use dq_core::{Event, Fault, Outcome, Reply, Server, run, well_formed};
use dq_list::Listed;
use dq_tables::{Fused, PlainTables, Tables};
use std::alloc::{AllocError, Global};
use std::test::*;

/// A request for CT storage in Explicit, a C-STORE of the instance 1.2.9, and a release.
const REQUEST: &[u8] = b"\x01\0\0\0\0\xae\0\x01\0\0\
ARCHIVE         MODALITY        \
\0\0\0\0\0\0\0\0\0\0\0\0\0\0\0\0\0\0\0\0\0\0\0\0\0\0\0\0\0\0\0\0\
\x10\0\0\x151.2.840.10008.3.1.1.1\
\x20\0\0\x38\x01\0\0\0\
\x30\0\0\x191.2.840.10008.5.1.4.1.1.2\
\x40\0\0\x131.2.840.10008.1.2.1\
\x50\0\0\x11\x51\0\0\x04\0\0\x40\0\
\x52\0\0\x051.2.3";

const STORE: &[u8] = b"\x04\0\0\0\0\x60\0\0\0\x5c\x01\x03\
\0\0\0\0\x04\0\0\0\x4e\0\0\0\
\0\0\x02\0\x1a\0\0\x001.2.840.10008.5.1.4.1.1.2\0\
\0\0\0\x01\x02\0\0\0\x01\0\
\0\0\x10\x01\x02\0\0\0\x01\0\
\0\0\0\x08\x02\0\0\0\x01\0\
\0\0\0\x10\x06\0\0\x001.2.9\0\
\x04\0\0\0\0\x52\0\0\0\x4e\x01\x02\
\x08\0\x16\0UI\x1a\x001.2.840.10008.5.1.4.1.1.2\0\
\x08\0\x18\0UI\x06\x001.2.9\0\
\x20\0\x0d\0UI\x06\x001.2.3\0\
\x20\0\x0e\0UI\x06\x001.2.5\0";

const RELEASE: &[u8] = b"\x05\0\0\0\0\x04\0\0\0\0";

/// Two hospitals. The calling title of NORTH's modality is that of the request.
const HOSPITALS: &str = "[[institution]]
name = \"NORTH\"
routes = [{ called = \"ARCHIVE\", calling = \"MODALITY\" }]
studies = 100
images = 1000
entries = 100
steps = 100
associations = 4

[[institution]]
name = \"SOUTH\"
routes = [{ called = \"ARCHIVE\", calling = \"NODALITY\" }]
studies = 100
images = 1000
entries = 100
steps = 100
associations = 4
";

/// Where a request has the first letter of its calling title.
const CALLING: usize = 26;

/// The answers: an acceptance, a C-STORE response and a release response.
const ACCEPTANCE: &[u8] = b"\x02\0\0\0\0\xa9\0\x01\0\0\
ARCHIVE         MODALITY        \
\0\0\0\0\0\0\0\0\0\0\0\0\0\0\0\0\0\0\0\0\0\0\0\0\0\0\0\0\0\0\0\0\
\x10\0\0\x151.2.840.10008.3.1.1.1\
\x21\0\0\x1b\x01\0\0\0\
\x40\0\0\x131.2.840.10008.1.2.1\
\x50\0\0\x29\x51\0\0\x04\0\x01\0\0\
\x52\0\0\x0f2.25.2718281828\
\x55\0\0\x0aDQARCHIVE1";

const STORED: &[u8] = b"\x04\0\0\0\0\x6a\0\0\0\x66\x01\x03\
\0\0\0\0\x04\0\0\0\x58\0\0\0\
\0\0\x02\0\x1a\0\0\x001.2.840.10008.5.1.4.1.1.2\0\
\0\0\0\x01\x02\0\0\0\x01\x80\
\0\0\x20\x01\x02\0\0\0\x01\0\
\0\0\0\x08\x02\0\0\0\x01\x01\
\0\0\0\x09\x02\0\0\0\0\0\
\0\0\0\x10\x06\0\0\x001.2.9\0";

const RELEASED: &[u8] = b"\x06\0\0\0\0\x04\0\0\0\0";

/// Whether a reply is these octets on connection 1.
fn answers(reply: &Reply, wanted: &[u8], closes: bool) -> bool {
    match reply {
        Reply::Octets {
            conn,
            octets,
            close,
        } => *conn == 1 && octets.as_slice() == wanted && *close == closes,
        Reply::Done | Reply::Refused(_) | Reply::Ignored => false,
    }
}

#[test]
fn a_connection_is_held_until_its_end(rt: HostRuntime) -> Result<(), Fail> {
    let config = Config::built_in(rt.alloc())?;
    let mut server = Server::new(rt.alloc(), config, PlainTables::new(rt.alloc()))?;
    assert!(rt; server.can_open(1));
    assert!(rt; matches!(server.step(Event::Open(1))?, Reply::Done));
    assert!(rt; server.holds(1) && !server.can_open(1));
    assert!(rt; matches!(server.step(Event::End(1))?, Reply::Done));
    assert!(rt; !server.holds(1));
    let _tables = server.into_tables();
    Ok(())
}

/// Passes with all memory there is, and wherever an allocation is refused.
#[test]
fn a_server_without_memory_stops(rt: HostRuntime) -> Result<(), Fail> {
    let alloc = rt.alloc();
    let Ok(config) = Config::built_in(alloc) else {
        return Ok(());
    };
    let Ok(mut server) = Server::new(alloc, config, PlainTables::new(alloc)) else {
        return Ok(());
    };
    assert!(rt; server.can_open(1));
    let mut stopped = server.step(Event::Open(1)).is_err();
    for (piece, answer, closes) in [
        (REQUEST, ACCEPTANCE, false),
        (STORE, STORED, false),
        (RELEASE, RELEASED, true),
    ] {
        let Ok(octets) = Listed::copy_of(alloc, piece) else {
            return Ok(());
        };
        match server.step(Event::Piece(1, octets)) {
            Ok(reply) => {
                assert!(rt; !stopped, "an answer after a fault");
                assert!(rt; answers(&reply, answer, closes), "which answer it is");
            }
            Err(fault) => {
                let expected = if stopped {
                    Fault::Stopped
                } else {
                    Fault::NoMemory
                };
                assert!(rt; fault == expected, "which fault it is");
                stopped = true;
            }
        }
    }
    Ok(())
}

/// A connection on which an instance is stored.
fn storing(alloc: Global) -> Result<Vec<Event>, AllocError> {
    let request = Listed::copy_of(alloc, REQUEST)?;
    let store = Listed::copy_of(alloc, STORE)?;
    let mut events = Vec::new(alloc);
    events.push(Event::Open(1))?;
    events.push(Event::Piece(1, request))?;
    events.push(Event::Piece(1, store))?;
    Ok(events)
}

/// Returns the outcome of a server that answers it over tables that make so many changes.
fn outcome(alloc: Global, changes: u64) -> Result<Outcome<Fused<PlainTables>>, Fail> {
    let events = storing(alloc)?;
    if !well_formed(&events) {
        return Err("not well formed".into());
    }
    let tables = Fused::new(PlainTables::new(alloc), changes);
    Ok(run(alloc, Config::built_in(alloc)?, tables, events)?)
}

#[test]
fn a_store_that_fails_stops_a_run(rt: HostRuntime) -> Result<(), Fail> {
    let whole = outcome(rt.alloc(), 1)?;
    assert!(rt; whole.fault.is_none());
    assert!(rt;
        matches!(whole.replies.as_slice(), [Reply::Done, _, reply] if answers(reply, STORED, false))
    );
    let failed = outcome(rt.alloc(), 0)?;
    assert!(rt; failed.fault == Some(Fault::Store));
    assert_eq!(rt; failed.replies.len(), 2);
    Ok(())
}

/// NORTH's association, and SOUTH's if it is asked for. Each stores its instance.
fn hospitals_store(alloc: Global, with_south: bool) -> Result<Vec<Event>, AllocError> {
    let mut events = storing(alloc)?;
    if with_south {
        let mut request = Vec::from_slice(alloc, REQUEST)?;
        if let Some(letter) = request.get_mut(CALLING) {
            *letter = b'N';
        }
        events.push(Event::Open(2))?;
        events.push(Event::Piece(2, Listed::from_inner(request)))?;
        events.push(Event::Piece(2, Listed::copy_of(alloc, STORE)?))?;
    }
    Ok(events)
}

/// Returns the outcome of the hospitals over tables that make one change.
fn one_change(alloc: Global, with_south: bool) -> Result<Outcome<Fused<PlainTables>>, Fail> {
    let events = hospitals_store(alloc, with_south)?;
    if !well_formed(&events) {
        return Err("not well formed".into());
    }
    let tables = Fused::new(PlainTables::new(alloc), 1);
    Ok(run(alloc, Config::read(alloc, HOSPITALS)?, tables, events)?)
}

/// NORTH's instance is stored, and the tables fail when SOUTH's is. NORTH is answered as it is
/// without SOUTH.
#[test]
fn tables_that_fail_for_one_hospital_stop_the_run(rt: HostRuntime) -> Result<(), Fail> {
    let alone = one_change(rt.alloc(), false)?;
    assert!(rt; alone.fault.is_none());
    let both = one_change(rt.alloc(), true)?;
    assert!(rt; both.fault == Some(Fault::Store));
    let north = |reply: &Reply| answers(reply, STORED, false);
    assert!(rt; matches!(alone.replies.as_slice(), [Reply::Done, _, reply] if north(reply)));
    assert!(rt;
        matches!(both.replies.as_slice(), [Reply::Done, _, reply, Reply::Done, _] if north(reply))
    );
    Ok(())
}

/// A server whose tables failed takes no further event.
#[test]
fn a_server_whose_tables_failed_is_stopped(rt: HostRuntime) -> Result<(), Fail> {
    let alloc = rt.alloc();
    let tables = Fused::new(PlainTables::new(alloc), 0);
    let mut server = Server::new(alloc, Config::built_in(alloc)?, tables)?;
    assert!(rt; server.can_open(1));
    assert!(rt; matches!(server.step(Event::Open(1))?, Reply::Done));
    let request = Listed::copy_of(alloc, REQUEST)?;
    assert!(rt; answers(&server.step(Event::Piece(1, request))?, ACCEPTANCE, false));
    assert!(rt; !server.tables().failed());
    for fault in [Fault::Store, Fault::Stopped] {
        let store = Listed::copy_of(alloc, STORE)?;
        assert!(rt; server.step(Event::Piece(1, store)).err() == Some(fault));
        assert!(rt; server.tables().failed());
    }
    Ok(())
}

#[test]
fn a_number_is_opened_once(rt: HostRuntime) {
    assert!(rt; well_formed(&[Event::Open(1), Event::Open(2)]));
    assert!(rt; !well_formed(&[Event::Open(2), Event::Open(2)]));
}
