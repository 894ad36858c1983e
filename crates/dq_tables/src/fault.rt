//! Why tables gave no answer.
ghost use Rattle.std.specs.Prelude.{◌≡◌};
ghost use Rattle.dq_tables.specs.declared.fault.TableFault.TheVariants.{NoMemory};

use std::alloc::{AllocError, AllocFailed};
use thiserror::Error;

/// A call that gave no answer and left the rows as they were.
#[derive(Clone, Copy, Debug, PartialEq, Eq, Error)]
pub enum TableFault {
    /// A growth was refused.
    #[error("out of memory")]
    NoMemory = 1,
    /// The keeper of the rows failed.
    #[error("store failed")]
    Store = 2,
}

impl TableFault {
    ghost use Rattle.dq_tables.specs.Faults.{table_fault_number};

    /// Returns the number of the fault, 1 or 2, in the order in which the faults are declared.
    pub fn number(self) -> u8
        ensures { result ≡ table_fault_number self }
    {
        self as u8
    }
}

impl From<AllocError> for TableFault {
    ghost from_gives = { λ _ e. e ≡ NoMemory };

    fn from(_e: AllocError) -> TableFault {
        TableFault::NoMemory
    }
}

impl<T: Drop> From<AllocFailed<T>> for TableFault {
    ghost from_gives = { λ _ e. e ≡ NoMemory };

    fn from(_e: AllocFailed<T>) -> TableFault {
        TableFault::NoMemory
    }
}
