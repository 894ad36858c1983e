//! Why there is no answer.
ghost use Rattle.std.specs.Prelude.{◌≡◌};
ghost use Rattle.dq_console.specs.Requests.{fault_of};
ghost use Rattle.dq_console.specs.declared.answer_error.AnswerError.TheVariants.{NoMemory};
ghost use Rattle.dq_console.specs.declared.answer_error.AnswerError.TheVariants as error;

use dq_core::Fault;
use std::alloc::{AllocError, AllocFailed};

/// The reason why there is no answer.
#[derive(Clone, Copy, Debug, PartialEq, Eq)]
pub enum AnswerError {
    /// There is no memory for it. The server goes on.
    NoMemory,
    /// The server failed.
    Server(Fault),
}

impl From<AllocError> for AnswerError {
    ghost from_gives = { λ _ error. error ≡ NoMemory };

    fn from(_error: AllocError) -> AnswerError {
        AnswerError::NoMemory
    }
}

impl<T: Drop> From<AllocFailed<T>> for AnswerError {
    ghost from_gives = { λ _ error. error ≡ NoMemory };

    fn from(_error: AllocFailed<T>) -> AnswerError {
        AnswerError::NoMemory
    }
}

impl From<Fault> for AnswerError {
    ghost from_gives = { λ fault it. it ≡ error.Server fault };

    fn from(fault: Fault) -> AnswerError {
        AnswerError::Server(fault)
    }
}

impl From<AnswerError> for Fault {
    ghost from_gives = { λ error fault. fault ≡ fault_of error };

    fn from(error: AnswerError) -> Fault {
        match error {
            AnswerError::NoMemory => Fault::NoMemory,
            AnswerError::Server(fault) => fault,
        }
    }
}
