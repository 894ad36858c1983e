//! Log lines of an association that comes and goes in parts. All other lines are for the suites.
ghost use Rattle.std.specs.Prelude.{◌<◌};

use super::sockets::Hand;
use super::wires::turner;
use dq_list::Listed;
use dq_wires::{AssociationLog, LoggedWires, MemoryWires, ReadOutcome, Script, turn_all};
use std::alloc::{AllocError, Global};
use std::cell::Cell;
use std::io::{self, Write};
use std::test::Fail;

/// An A-ASSOCIATE-RQ for Verification in Implicit VR Little Endian, and an A-RELEASE-RQ (PS3.8
/// section 9.3).
const OCTETS: &[u8] = b"\x01\0\0\0\0\x9B\0\x01\0\0ARCHIVE         MODALITY        \
\0\0\0\0\0\0\0\0\0\0\0\0\0\0\0\0\0\0\0\0\0\0\0\0\0\0\0\0\0\0\0\0\
\x10\0\0\x151.2.840.10008.3.1.1.1\
\x20\0\0\x2E\x01\0\0\0\x30\0\0\x111.2.840.10008.1.1\x40\0\0\x111.2.840.10008.1.2\
\x50\0\0\x08\x51\0\0\x04\0\0\x40\0\
\x05\0\0\0\0\x04\0\0\0\0";

/// A connection on which they come by pieces of a size.
fn call(alloc: Global, size: usize) -> Result<Script, AllocError>
    requires { 0 < size }
{
    let mut script = Script::empty(alloc);
    for piece in OCTETS.chunks(size) {
        let came = ReadOutcome::Octets(Listed::copy_of(alloc, piece)?);
        script.reads.push((3, came))?;
    }
    script.accepts.push_back(Ok(Some(3)))?;
    Ok(script)
}

/// Seconds from 1970-01-01 on to 2024-07-05T08:00:00Z.
const NOW: u64 = 1_720_166_400;

/// More turns than are needed octet by octet.
const TURNS: u64 = 600;

/// Serves, and writes so many octets at a time. After each turn the log is told its notes.
fn serve(alloc: Global, mut script: Script, size: usize, lines: &mut Vec<u8>) -> Result<(), Fail> {
    for _ in 0..TURNS {
        script.writes.push_back(Ok(size))?;
    }
    let mut wires = LoggedWires {
        wires: MemoryWires::new(alloc, script),
        log: Some(AssociationLog::new(alloc, lines)),
    };
    let mut turner = turner(alloc)?;
    let clock = Hand(Cell::new(NOW));
    let _before = turner.take_notes();
    for _ in 0..TURNS {
        turn_all(&mut turner, &mut wires, 1)?;
        if let Some(log) = &mut wires.log {
            log.tell(&turner.take_notes(), &clock);
        }
    }
    Ok(())
}

/// Takes no octet, so often, and then keeps what is written.
#[derive(Drop)]
struct Slow<'a> {
    refusals: u8,
    lines: &'a mut Vec<u8>,
}

impl Write for Slow<'_> {
    fn write(&mut self, octets: &[u8]) -> io::Result<usize> {
        if self.refusals > 0 {
            self.refusals -= 1;
            return Err(io::Error::from(io::ErrorKind::WouldBlock));
        }
        self.lines.write(octets)
    }

    fn flush(&mut self) -> io::Result<()> {
        Ok(())
    }
}

#[test]
fn lost_lines_are_counted(rt: HostRuntime) -> Result<(), Fail> {
    let alloc = rt.alloc();
    let mut lines = Vec::new(alloc);
    let slow = Slow {
        refusals: 2,
        lines: &mut lines,
    };
    let mut log = AssociationLog::new(alloc, slow);
    log.note("bad line\nschedule DEMO done\n");
    log.note("withdraw DEMO refused 5\n");
    drop(log);
    assert_eq!(rt;
        lines.as_slice(),
        b"1970-01-01T00:00:00.000Z - 2 lines are lost\n\
1970-01-01T00:00:00.000Z - console withdraw DEMO refused 5\n"
            .as_slice()
    );
    Ok(())
}

#[test]
fn an_association_is_told(rt: HostRuntime) -> Result<(), Fail> {
    let alloc = rt.alloc();
    for size in [1, 7, 10_000] {
        let script = call(alloc, size)?;
        let mut lines = Vec::new(alloc);
        serve(alloc, script, size, &mut lines)?;
        assert_eq!(rt;
            lines.as_slice(),
            b"2024-07-05T08:00:00.000Z 1 accepted DEMO ARCHIVE MODALITY - 1 context\n\
2024-07-05T08:00:00.000Z 1 ended released 0.000 s stores 0 searches 0 answers 0 steps 0 refused 0\n"
                .as_slice()
        );
    }
    Ok(())
}
