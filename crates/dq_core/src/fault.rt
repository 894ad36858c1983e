//! Why the server stopped.
ghost use Rattle.std.specs.Prelude.{◌≡◌};
ghost use Rattle.dq_core.specs.declared.fault.Fault.TheVariants.{NoMemory};
ghost use Rattle.dq_core.specs.Effects.{server_fault};

use dq_tables::TableFault;
use std::alloc::{AllocError, AllocFailed};
use thiserror::Error;

/// The reason why the server stopped.
#[derive(Clone, Copy, Debug, PartialEq, Eq, Error)]
pub enum Fault {
    #[error("memory ran out")]
    NoMemory = 1,
    /// The tables, which keep the rows, failed.
    #[error("the store failed")]
    Store = 2,
    #[error("the server stopped before")]
    Stopped = 3,
}

impl Fault {
    ghost use Rattle.dq_core.specs.Faults.{server_fault_number};

    /// Returns the number of the fault, 1 to 3, in the order in which the faults are declared.
    pub fn number(self) -> u8
        ensures { result ≡ server_fault_number self }
    {
        self as u8
    }
}

impl From<AllocError> for Fault {
    ghost from_gives = { λ _ e. e ≡ NoMemory };

    fn from(_e: AllocError) -> Fault {
        Fault::NoMemory
    }
}

impl<T: Drop> From<AllocFailed<T>> for Fault {
    ghost from_gives = { λ _ e. e ≡ NoMemory };

    fn from(_e: AllocFailed<T>) -> Fault {
        Fault::NoMemory
    }
}

impl From<TableFault> for Fault {
    ghost from_gives = { λ e f. f ≡ server_fault e };

    fn from(e: TableFault) -> Fault {
        match e {
            TableFault::NoMemory => Fault::NoMemory,
            TableFault::Store => Fault::Store,
        }
    }
}
