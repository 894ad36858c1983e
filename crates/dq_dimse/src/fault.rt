//! Why presentation data values are no messages.
ghost use Rattle.std.specs.Prelude.{◌≡◌};
ghost use Rattle.dq_dimse.specs.declared.fault.DimseFault.TheVariants.{NoMemory};
ghost use Rattle.dq_dimse.specs.CommandReader.{dimse_fault};

use dq_dataset::ReadFault;
use std::alloc::AllocError;
use thiserror::Error;

/// The first fault of PDVs that carry no messages, and want of memory.
#[derive(Clone, Copy, Debug, PartialEq, Eq, Error)]
pub enum DimseFault {
    #[error("a value is of a context that is not accepted, or not of the message begun")]
    WrongContext = 1,
    #[error("a data fragment stands where a command is due, or the reverse")]
    WrongKind = 2,
    #[error("a command set cannot be read")]
    BadCommand = 3,
    #[error("memory ran out")]
    NoMemory = 4,
}

impl DimseFault {
    ghost use Rattle.dq_dimse.specs.Faults.{dimse_fault_number};

    /// Returns the number of the fault, 1 to 4, in the order in which the faults are declared.
    pub fn number(self) -> u8
        ensures { result ≡ dimse_fault_number self }
    {
        self as u8
    }
}

impl From<AllocError> for DimseFault {
    ghost from_gives = { λ _ e. e ≡ NoMemory };

    fn from(_e: AllocError) -> DimseFault {
        DimseFault::NoMemory
    }
}

impl From<ReadFault> for DimseFault {
    ghost from_gives = { λ e f. f ≡ dimse_fault e };

    fn from(e: ReadFault) -> DimseFault {
        match e {
            ReadFault::NoMemory => DimseFault::NoMemory,
            _ => DimseFault::BadCommand,
        }
    }
}
