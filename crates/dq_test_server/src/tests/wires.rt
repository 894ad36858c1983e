use dq_config::Config;
use dq_core::{Event, Reply, Server};
use dq_list::Listed;
use dq_tables::PlainTables;
use dq_wires::{
    Call, MOST_WIRES, MemoryWires, ReadOutcome, Script, TurnFault, Turner, WireFault, turn_all,
};
use std::alloc::{AllocError, Global};
use std::test::Fail;

// A PDU whose type is not known (PS3.8 section 9.3.1), and what it is answered: an abort of the
// provider, after which the connection is closed.
const UNKNOWN: [u8; 6] = [8, 0, 0, 0, 0, 0];

const ABORTED: [u8; 10] = [7, 0, 0, 0, 0, 4, 0, 0, 0, 0];

/// An association for Verification in Implicit, a C-ECHO and a release (PS3.7 section 9.1.5).
const ECHO: &[u8] = b"\x01\0\0\0\0\xa4\0\x01\0\0\
ARCHIVE         MODALITY        \
\0\0\0\0\0\0\0\0\0\0\0\0\0\0\0\0\0\0\0\0\0\0\0\0\0\0\0\0\0\0\0\0\
\x10\0\0\x151.2.840.10008.3.1.1.1\
\x20\0\0\x2e\x01\0\0\0\
\x30\0\0\x111.2.840.10008.1.1\
\x40\0\0\x111.2.840.10008.1.2\
\x50\0\0\x11\x51\0\0\x04\0\0\x40\0\
\x52\0\0\x051.2.3\
\x04\0\0\0\0\x4a\0\0\0\x46\x01\x03\
\0\0\0\0\x04\0\0\0\x38\0\0\0\
\0\0\x02\0\x12\0\0\x001.2.840.10008.1.1\0\
\0\0\0\x01\x02\0\0\0\x30\0\
\0\0\x10\x01\x02\0\0\0\x01\0\
\0\0\0\x08\x02\0\0\0\x01\x01\
\x05\0\0\0\0\x04\0\0\0\0";

/// The acceptance, the response and the release response.
const ECHO_ANSWERS: &[u8] = b"\x02\0\0\0\0\xa7\0\x01\0\0\
ARCHIVE         MODALITY        \
\0\0\0\0\0\0\0\0\0\0\0\0\0\0\0\0\0\0\0\0\0\0\0\0\0\0\0\0\0\0\0\0\
\x10\0\0\x151.2.840.10008.3.1.1.1\
\x21\0\0\x19\x01\0\0\0\
\x40\0\0\x111.2.840.10008.1.2\
\x50\0\0\x29\x51\0\0\x04\0\x01\0\0\
\x52\0\0\x0f2.25.2718281828\
\x55\0\0\x0aDQARCHIVE1\
\x04\0\0\0\0\x54\0\0\0\x50\x01\x03\
\0\0\0\0\x04\0\0\0\x42\0\0\0\
\0\0\x02\0\x12\0\0\x001.2.840.10008.1.1\0\
\0\0\0\x01\x02\0\0\0\x30\x80\
\0\0\x20\x01\x02\0\0\0\x01\0\
\0\0\0\x08\x02\0\0\0\x01\x01\
\0\0\0\x09\x02\0\0\0\0\0\
\x06\0\0\0\0\x04\0\0\0\0";

pub(super) fn turner(alloc: Global) -> Result<Turner<PlainTables>, Fail> {
    let config = Config::built_in(alloc)?;
    let server = Server::new(alloc, config, PlainTables::new(alloc))?;
    if !server.can_open(0) {
        return Err(Fail::from("the server has opened a number"));
    }
    Ok(Turner::new(alloc, server))
}

fn octets(alloc: Global, octets: &[u8]) -> Result<ReadOutcome, AllocError> {
    Ok(ReadOutcome::Octets(Listed::copy_of(alloc, octets)?))
}

/// Whether these octets were written at a place, in order.
fn has_written(calls: &[Call], at: usize, mut octets: &[u8]) -> bool {
    for call in calls {
        if let Call::Write {
            place,
            octets: offered,
            taken: Ok(count),
        } = call
        {
            let taken = offered.as_slice().split_at((*count).min(offered.len())).0;
            if *place != at {
                continue;
            }
            match octets.strip_prefix(taken) {
                Some(rest) => octets = rest,
                None => return false,
            }
        }
    }
    octets.is_empty()
}

fn shuts(calls: &[Call], at: usize) -> usize {
    calls
        .iter()
        .filter(|call| matches!(call, Call::Shut { place, .. } if *place == at))
        .count()
}

fn accepts(calls: &[Call]) -> usize {
    calls
        .iter()
        .filter(|call| matches!(call, Call::Accept(_)))
        .count()
}

/// The outcome of a play: how its turns end, how many calls are made and how many of them accept,
/// what is written at a place and how often it is shut, and whether the first two connections are
/// held.
#[derive(Drop)]
struct Outcome<'a> {
    answer: Result<(), TurnFault>,
    calls: usize,
    accepts: usize,
    place: usize,
    written: &'a [u8],
    shuts: usize,
    held: [bool; 2],
}

/// Whether so many turns over a script come to an outcome. No turns before them do nothing.
fn comes_to(alloc: Global, script: Script, turns: u64, outcome: Outcome) -> Result<bool, Fail> {
    let mut wires = MemoryWires::new(alloc, script);
    let mut turner = turner(alloc)?;
    let idle = turn_all(&mut turner, &mut wires, 0);
    let was_idle = idle == Ok(()) && wires.calls().is_some_and(|calls| calls.is_empty());
    let answer = turn_all(&mut turner, &mut wires, turns);
    let server = turner.server();
    let held = server.holds(1) == outcome.held[0] && server.holds(2) == outcome.held[1];
    let calls = wires.calls().ok_or("not told")?;
    let made = calls.len() == outcome.calls && accepts(calls) == outcome.accepts;
    let place = outcome.place;
    let written = has_written(calls, place, outcome.written)
        && shuts(calls, place) == outcome.shuts;
    Ok(was_idle && answer == outcome.answer && held && made && written)
}

#[test]
fn octets_go_in_and_out_by_pieces(rt: HostRuntime) -> Result<(), Fail> {
    let alloc = rt.alloc();
    let mut script = Script::empty(alloc);
    script.accepts.push_back(Ok(Some(3)))?;
    script.reads.push((3, octets(alloc, &UNKNOWN[..1])?))?;
    script.reads.push((3, octets(alloc, &UNKNOWN[1..])?))?;
    for _ in 0..10 {
        script.writes.push_back(Ok(1))?;
    }
    let outcome = Outcome {
        answer: Ok(()),
        calls: 13 + 2 + 10 + 1,
        accepts: 13,
        place: 3,
        written: &ABORTED,
        shuts: 1,
        held: [false, false],
    };
    assert!(rt; comes_to(alloc, script, 13, outcome)?);
    Ok(())
}

/// An association comes in reads of 1 octet, of 5 and of what is left. Each write takes one octet.
#[test]
fn an_association_is_cut_anywhere(rt: HostRuntime) -> Result<(), Fail> {
    let alloc = rt.alloc();
    let (first, rest) = ECHO.split_at(1);
    let (second, third) = rest.split_at(5);
    let mut script = Script::empty(alloc);
    script.accepts.push_back(Ok(Some(1)))?;
    for piece in [first, second, third] {
        script.reads.push((1, octets(alloc, piece)?))?;
    }
    for _ in 0..ECHO_ANSWERS.len() {
        script.writes.push_back(Ok(1))?;
    }
    let outcome = Outcome {
        answer: Ok(()),
        calls: 300 + 3 + ECHO_ANSWERS.len() + 1,
        accepts: 300,
        place: 1,
        written: ECHO_ANSWERS,
        shuts: 1,
        held: [false, false],
    };
    assert!(rt; comes_to(alloc, script, 300, outcome)?);
    Ok(())
}

/// The console withdraws an entry that is not scheduled.
#[test]
fn an_unknown_entry_is_not_withdrawn(rt: HostRuntime) -> Result<(), Fail> {
    let alloc = rt.alloc();
    let order = Event::Withdraw {
        inst: Listed::copy_of(alloc, b"DEMO")?,
        id: Listed::copy_of(alloc, b"S1")?,
    };
    let reply = turner(alloc)?.console(order)?;
    assert!(rt; matches!(reply, Reply::Refused(5)));
    Ok(())
}

/// The first connection waits for the rest of a unit.
#[test]
fn a_failing_read_ends_its_own_connection(rt: HostRuntime) -> Result<(), Fail> {
    let alloc = rt.alloc();
    let mut script = Script::empty(alloc);
    script.accepts.push_back(Ok(Some(0)))?;
    script.accepts.push_back(Ok(Some(1)))?;
    script.reads.push((0, octets(alloc, &UNKNOWN[..1])?))?;
    script.reads.push((1, octets(alloc, &UNKNOWN[..1])?))?;
    script.reads.push((1, ReadOutcome::Failed))?;
    script.shuts.push_back(Err(WireFault))?;
    let outcome = Outcome {
        answer: Ok(()),
        calls: 3 + 3 + 2 + 1,
        accepts: 3,
        place: 1,
        written: &[],
        shuts: 1,
        held: [true, false],
    };
    assert!(rt; comes_to(alloc, script, 3, outcome)?);
    Ok(())
}

#[test]
fn a_failing_write_gives_the_connection_up(rt: HostRuntime) -> Result<(), Fail> {
    let alloc = rt.alloc();
    let mut script = Script::empty(alloc);
    script.accepts.push_back(Ok(Some(0)))?;
    script.reads.push((0, octets(alloc, &UNKNOWN)?))?;
    script.writes.push_back(Ok(0))?;
    script.writes.push_back(Ok(4))?;
    script.writes.push_back(Err(WireFault))?;
    let outcome = Outcome {
        answer: Ok(()),
        calls: 9 + 1 + 3 + 1,
        accepts: 9,
        place: 0,
        written: &ABORTED[..4],
        shuts: 1,
        held: [false, false],
    };
    assert!(rt; comes_to(alloc, script, 9, outcome)?);
    Ok(())
}

#[test]
fn a_failing_accept_stops_the_turner(rt: HostRuntime) -> Result<(), Fail> {
    let alloc = rt.alloc();
    let mut script = Script::empty(alloc);
    script.accepts.push_back(Err(WireFault))?;
    let outcome = Outcome {
        answer: Err(TurnFault::Network),
        calls: 1,
        accepts: 1,
        place: 0,
        written: &[],
        shuts: 0,
        held: [false, false],
    };
    assert!(rt; comes_to(alloc, script, 2, outcome)?);
    Ok(())
}

/// Each connection that is held is read from in its own turn and in those after it.
#[test]
fn no_more_are_held_than_fit(rt: HostRuntime) -> Result<(), Fail> {
    let alloc = rt.alloc();
    let mut script = Script::empty(alloc);
    for place in 0..MOST_WIRES + 1 {
        script.accepts.push_back(Ok(Some(place)))?;
    }
    let outcome = Outcome {
        answer: Ok(()),
        calls: MOST_WIRES + MOST_WIRES * (MOST_WIRES + 1) / 2 + 6 * MOST_WIRES,
        accepts: MOST_WIRES,
        place: 0,
        written: &[],
        shuts: 0,
        held: [true, true],
    };
    assert!(rt; comes_to(alloc, script, 70, outcome)?);
    Ok(())
}
