//! Why the bench stops.
use dq_dataset::ReadFault;
use std::alloc::{AllocError, AllocFailed};
use std::io;

/// Why the bench stops short of its end.
#[derive(Clone, Copy, Debug, PartialEq, Eq)]
pub(crate) enum Stop {
    /// Words that are not understood.
    Usage,
    /// A bad line, counted from 1. Line 0 stands for an input that is no text or cannot be read.
    Line(u64),
    Fault(ReadFault),
    /// The output cannot be written, or there is no clock.
    System,
}

impl From<AllocError> for Stop {
    fn from(_error: AllocError) -> Stop {
        Stop::Fault(ReadFault::NoMemory)
    }
}

impl<T: Drop> From<AllocFailed<T>> for Stop {
    fn from(_error: AllocFailed<T>) -> Stop {
        Stop::Fault(ReadFault::NoMemory)
    }
}

impl From<ReadFault> for Stop {
    fn from(fault: ReadFault) -> Stop {
        Stop::Fault(fault)
    }
}

impl From<io::Error> for Stop {
    fn from(error: io::Error) -> Stop {
        if error.kind() == io::ErrorKind::OutOfMemory {
            Stop::Fault(ReadFault::NoMemory)
        } else {
            Stop::System
        }
    }
}

impl Stop {
    pub(crate) fn status(self) -> u8 {
        match self {
            Stop::Usage => 1,
            Stop::Line(_) => 3,
            Stop::Fault(_) | Stop::System => 4,
        }
    }

    pub(crate) fn tell(self, rt: &impl Eprint) -> io::Result<()> {
        match self {
            Stop::Usage => eprintln!(rt; "usage: dq_test_data_sets [cost N [half] | memory N]"),
            Stop::Line(number) => eprintln!(rt; "line {number}"),
            Stop::Fault(fault) => eprintln!(rt; "fault {}", fault.number()),
            Stop::System => Ok(()),
        }
    }
}
