//! Why turning stopped.
ghost use Rattle.std.specs.Prelude.{◌≡◌};
ghost use Rattle.dq_wires.specs.declared.fault.TurnFault.TheVariants.{NoMemory, Server, Network};

use crate::calls::WireFault;
use dq_core::Fault;
use std::alloc::{AllocError, AllocFailed};
use thiserror::Error;

/// The reason why a turner stopped.
#[derive(Clone, Copy, Debug, PartialEq, Eq, Error)]
pub enum TurnFault {
    /// A growth was refused.
    #[error("memory ran out")]
    NoMemory,
    /// The server failed at an event.
    #[error("{0}")]
    Server(Fault),
    /// No connection can be accepted any more.
    #[error("the network failed")]
    Network,
}

impl TurnFault {
    ghost use Rattle.dq_wires.specs.Faults.{turn_fault_number};

    /// Returns the number of the fault, 1 to 3, in the order in which the faults are declared. The
    /// server's own fault has another number.
    pub fn number(self) -> u8
        ensures { result ≡ turn_fault_number self }
    {
        match self {
            TurnFault::NoMemory => 1,
            TurnFault::Server(_) => 2,
            TurnFault::Network => 3,
        }
    }
}

impl From<AllocError> for TurnFault {
    ghost from_gives = { λ _ e. e ≡ NoMemory };

    fn from(_e: AllocError) -> TurnFault {
        TurnFault::NoMemory
    }
}

impl<T: Drop> From<AllocFailed<T>> for TurnFault {
    ghost from_gives = { λ _ e. e ≡ NoMemory };

    fn from(_e: AllocFailed<T>) -> TurnFault {
        TurnFault::NoMemory
    }
}

impl From<Fault> for TurnFault {
    ghost from_gives = { λ fault e. e ≡ Server fault };

    fn from(fault: Fault) -> TurnFault {
        TurnFault::Server(fault)
    }
}

impl From<WireFault> for TurnFault {
    ghost from_gives = { λ _ e. e ≡ Network };

    fn from(_e: WireFault) -> TurnFault {
        TurnFault::Network
    }
}
