//! Faults of a stream, and why a piece is not taken.
ghost use Rattle.std.specs.Prelude.{◌≡◌};
ghost use Rattle.dq_pdu.specs.declared.fault.InboxError.TheVariants.{NoMemory};

use std::alloc::AllocError;
use thiserror::Error;

/// A fault of a stream (PS3.8 section 9.3.8): the first fault, in this order.
#[derive(Clone, Copy, Debug, PartialEq, Eq, Error)]
pub enum PduFault {
    #[error("the type of a PDU is unknown")]
    Unrecognized = 1,
    #[error("a PDU is longer than 65,536 octets")]
    TooLong = 2,
    #[error("the body of a PDU breaks a rule")]
    Malformed = 3,
}

impl PduFault {
    ghost use Rattle.dq_pdu.specs.Faults.{pdu_fault_number};

    /// Returns the number of the fault, 1 to 3, in the order in which the faults are declared.
    pub fn number(self) -> u8
        ensures { result ≡ pdu_fault_number self }
    {
        self as u8
    }
}

/// The reason why an inbox did not take a piece.
#[derive(Clone, Copy, Debug, PartialEq, Eq, Error)]
pub enum InboxError {
    #[error("memory ran out")]
    NoMemory = 4,
    #[error("memory ran out before")]
    Spent = 5,
}

impl InboxError {
    ghost use Rattle.dq_pdu.specs.Faults.{number_of_error};

    /// 4 and 5, after the faults of a stream.
    pub fn number(self) -> u8
        ensures { result ≡ number_of_error self }
    {
        self as u8
    }
}

impl From<AllocError> for InboxError {
    ghost from_gives = { λ _ e. e ≡ NoMemory };

    fn from(_e: AllocError) -> InboxError {
        InboxError::NoMemory
    }
}
