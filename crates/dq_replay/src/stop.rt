//! Why the program stops short of its end.
use dq_captures::{CaptureFault, Unread};
use dq_config::ConfigFault;
use dq_core::Fault;
use dq_tables::TableFault;
use std::alloc::{AllocError, AllocFailed};
use std::io;
use thiserror::Error;

/// The reason why the program stops short of its end. Its text is the line that is printed.
#[derive(Clone, Copy, Debug, PartialEq, Eq, Error)]
pub(crate) enum Stop {
    #[error("usage: dq_replay [replay | report] [--config FILE] < CAPTURE")]
    Usage,
    /// A refused configuration: the number of its fault, or 0 if the file cannot be read or is not UTF-8.
    #[error("config {0}")]
    Config(u8),
    /// A bad line of the capture, counted from 1, or 0 if the capture cannot be read, is too long or is
    /// not UTF-8.
    #[error("capture line {0}")]
    Capture(u64),
    /// A fault of the server.
    #[error("fault {0}")]
    Fault(u8),
    #[error("the output cannot be written")]
    Output,
}

impl Stop {
    /// Returns the exit status.
    pub(crate) fn status(self) -> u8 {
        match self {
            Stop::Usage => 1,
            Stop::Config(_) => 2,
            Stop::Capture(_) => 3,
            Stop::Fault(_) | Stop::Output => 4,
        }
    }

    /// Returns the stop for a configuration file that is not read.
    pub(crate) fn of_file(unread: Unread) -> Stop {
        match unread {
            Unread::Failed => Stop::Config(0),
            Unread::NoMemory => Stop::from(AllocError),
        }
    }

    /// Returns the stop for a capture that is not read.
    pub(crate) fn of_input(unread: Unread) -> Stop {
        match unread {
            Unread::Failed => Stop::Capture(0),
            Unread::NoMemory => Stop::from(AllocError),
        }
    }
}

impl From<AllocError> for Stop {
    fn from(_error: AllocError) -> Stop {
        Stop::from(Fault::NoMemory)
    }
}

impl<T: Drop> From<AllocFailed<T>> for Stop {
    fn from(_error: AllocFailed<T>) -> Stop {
        Stop::from(Fault::NoMemory)
    }
}

impl From<Fault> for Stop {
    fn from(fault: Fault) -> Stop {
        Stop::Fault(fault.number())
    }
}

impl From<TableFault> for Stop {
    fn from(fault: TableFault) -> Stop {
        Stop::from(Fault::from(fault))
    }
}

impl From<ConfigFault> for Stop {
    fn from(fault: ConfigFault) -> Stop {
        match fault {
            ConfigFault::NoMemory => Stop::from(AllocError),
            other => Stop::Config(other.number()),
        }
    }
}

impl From<CaptureFault> for Stop {
    fn from(fault: CaptureFault) -> Stop {
        match fault {
            CaptureFault::Line(number) => Stop::Capture(number),
            CaptureFault::NoMemory => Stop::from(AllocError),
        }
    }
}

impl From<io::Error> for Stop {
    fn from(error: io::Error) -> Stop {
        match error.kind() {
            io::ErrorKind::OutOfMemory => Stop::from(AllocError),
            _ => Stop::Usage,
        }
    }
}
