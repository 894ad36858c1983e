//! Why octets are not a data set.
ghost use Rattle.std.specs.Prelude.{◌≡◌};
ghost use Rattle.dq_dataset.specs.declared.fault.ReadFault.TheVariants.{NoMemory};

use std::alloc::{AllocError, AllocFailed};
use thiserror::Error;

/// The first fault of octets that spell no data set, and want of memory.
#[derive(Clone, Copy, Debug, PartialEq, Eq, Error)]
pub enum ReadFault {
    /// Fewer octets remain than a header, a length or an end needs.
    #[error("truncated")]
    Truncated = 1,
    /// The letters are no VR, or not one that the tag allows.
    #[error("bad value representation")]
    BadVr = 2,
    /// A tag is not above the one before it.
    #[error("tags out of order")]
    TagOrder = 3,
    /// An item, or an end, is out of its place.
    #[error("bad item")]
    BadItem = 4,
    /// The length is undefined where it may not be.
    #[error("bad undefined length")]
    BadUndefined = 5,
    /// Sequences are nested more than 16 deep.
    #[error("nested too deep")]
    TooDeep = 6,
    /// A growth was refused.
    #[error("out of memory")]
    NoMemory = 7,
}

impl ReadFault {
    ghost use Rattle.dq_dataset.specs.FaultNumbers.{read_fault_number};

    /// Returns the number of the fault, 1 to 7, in the order in which the faults are declared.
    pub fn number(self) -> u8
        ensures { result ≡ read_fault_number self }
    {
        self as u8
    }
}

impl From<AllocError> for ReadFault {
    ghost from_gives = { λ _ e. e ≡ NoMemory };

    fn from(_e: AllocError) -> ReadFault {
        ReadFault::NoMemory
    }
}

impl<T: Drop> From<AllocFailed<T>> for ReadFault {
    ghost from_gives = { λ _ e. e ≡ NoMemory };

    fn from(_e: AllocFailed<T>) -> ReadFault {
        ReadFault::NoMemory
    }
}
