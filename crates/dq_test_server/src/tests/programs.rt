//! The program over a writer that takes few octets and fails, a reader that is interrupted, and a store
//! that is not closed. Its words, files and sockets are for the suites.
use dq_app::{Host, OpenError, Stores, Unclosed, perform};
use dq_request::BackupError;
use dq_tables::PlainTables;
use std::alloc::Global;
use std::io::{self, Read, Write};
use std::test::Fail;

const UNKNOWN_UNIT: &str = "open 1\npiece 1 080000000000\npiece 1 00\n";

const UNKNOWN_UNIT_REPLIES: &str = "done\n1 07000000000400000000 close\nignored\n";

/// A writer that takes three octets at a time, and fails once it has no room.
#[derive(Drop)]
struct Narrow {
    room: usize,
    taken: Vec<u8>,
}

impl Write for Narrow {
    fn write(&mut self, buf: &[u8]) -> io::Result<usize> {
        if self.room == 0 {
            return Err(io::Error::from(io::ErrorKind::StorageFull));
        }
        let count = buf.len().min(self.room).min(3);
        self.taken.extend_from_slice(&buf[..count])?;
        self.room -= count;
        Ok(count)
    }

    fn flush(&mut self) -> io::Result<()> {
        Ok(())
    }
}

/// A reader that is interrupted before each octet.
#[derive(Drop)]
struct Halting<'a> {
    rest: &'a [u8],
    interrupted: bool,
}

impl Read for Halting<'_> {
    fn read(&mut self, buf: &mut [u8]) -> io::Result<usize> {
        self.interrupted = !self.interrupted;
        if self.interrupted {
            return Err(io::Error::from(io::ErrorKind::Interrupted));
        }
        let Some((octet, rest)) = self.rest.split_first() else {
            return Ok(0);
        };
        if buf.is_empty() {
            return Ok(0);
        }
        buf[0] = *octet;
        self.rest = rest;
        Ok(1)
    }
}

/// The machine that a test runs on.
#[derive(Clone, Copy)]
struct Bench<'a> {
    rt: &'a HostRuntime,
}

impl Alloc for Bench<'_> {
    type A = Global;

    fn alloc(&self) -> Global {
        self.rt.alloc()
    }
}

impl Host for Bench<'_> {
    fn runtime(&self) -> &HostRuntime {
        self.rt
    }
}

// Tests keep rows in memory alone, also those of a new store, which they do not close.
impl Stores for Bench<'_> {
    type Memory = PlainTables;

    type File = PlainTables;

    ghost stored = { λ _ _ _. Unit {0} };

    ghost migrated = { λ _ _ _. Unit {0} };

    ghost copied = { λ _ _ _ _. Unit {0} };

    ghost closed = { λ _ _. Unit {0} };

    fn memory(&self, alloc: Global) -> Result<PlainTables, OpenError> {
        Ok(PlainTables::new(alloc))
    }

    fn new_store(&self, alloc: Global, _path: &str) -> Result<PlainTables, OpenError> {
        Ok(PlainTables::new(alloc))
    }

    fn store(&self, _alloc: Global, _path: &str) -> Result<PlainTables, OpenError> {
        Err(OpenError::Store(2))
    }

    fn migrate(&self, _alloc: Global, _from: &str, _to: &str) -> Result<PlainTables, OpenError> {
        Err(OpenError::Store(2))
    }

    fn copy(
        &self,
        _alloc: Global,
        _from: &str,
        _to: &str,
        _only: &[&str],
    ) -> Result<Result<u64, Unclosed>, OpenError> {
        Err(OpenError::Store(2))
    }

    fn backup(
        &self,
        _alloc: Global,
        _tables: &mut PlainTables,
        _path: &str,
    ) -> Result<(), BackupError> {
        Err(BackupError::Failed)
    }

    fn close(&self, _tables: PlainTables) -> Result<(), Unclosed> {
        Err(Unclosed)
    }

    ghost memory_is_honest = { λ _. tt };
}

#[test]
fn tells_of_a_store_that_is_not_closed(rt: HostRuntime) -> Result<(), Fail> {
    let mut output = Narrow {
        room: 100,
        taken: Vec::new(rt.alloc()),
    };
    let mut errors = Vec::new(rt.alloc());
    let input = Halting {
        rest: UNKNOWN_UNIT.as_bytes(),
        interrupted: false,
    };
    let words = ["replay", "--new", "rows.db"];
    let status = perform(&Bench { rt: &rt }, &words, input, &mut output, &mut errors);
    assert_eq!(rt; status, 4);
    assert_eq!(rt; output.taken.as_slice(), UNKNOWN_UNIT_REPLIES.as_bytes());
    assert_eq!(rt; errors.as_slice(), b"store 5\n".as_slice());
    Ok(())
}

#[test]
fn performs_over_a_failing_output(rt: HostRuntime) -> Result<(), Fail> {
    let expected = UNKNOWN_UNIT_REPLIES.as_bytes();
    for room in [0usize, 1, 7, 36, 100] {
        let mut output = Narrow {
            room,
            taken: Vec::new(rt.alloc()),
        };
        let mut errors = Vec::new(rt.alloc());
        let words: [&str; 0] = [];
        let input = Halting {
            rest: UNKNOWN_UNIT.as_bytes(),
            interrupted: false,
        };
        let status = perform(&Bench { rt: &rt }, &words, input, &mut output, &mut errors);
        assert_eq!(rt;
            status,
            if room < expected.len() { 4 } else { 0 },
            "room {room}"
        );
        assert!(rt;
            expected.starts_with(output.taken.as_slice()),
            "room {room}"
        );
        assert_eq!(rt; output.taken.len(), expected.len().min(room), "room {room}");
        assert!(rt; errors.is_empty(), "room {room}");
    }
    Ok(())
}
