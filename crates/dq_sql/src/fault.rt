//! Why a store of rows is not opened.
ghost use Rattle.std.specs.Prelude.{◌≡◌};

use dq_tables::TableFault;
use sqlite::{Error, ErrorCode};
use std::alloc::{AllocError, AllocFailed};
use thiserror::Error;

/// The reason why `open` or `adopt` refuses a store, and want of memory.
#[derive(Clone, Copy, Debug, PartialEq, Eq, Error)]
pub enum StoreFault {
    /// A growth was refused.
    #[error("out of memory")]
    NoMemory = 1,
    /// The store failed, or is not one of those that are taken: `open` takes an empty one, `adopt`
    /// and `kept_rows` one that has the tables and the indexes of a version, and nothing else.
    #[error("the store failed, or is not a store of rows")]
    Store = 2,
    /// The store is of another version than 2, or than the one that `kept_rows` is to read.
    #[error("the store is of another version")]
    WrongVersion = 3,
    /// A row of the store is not its record's own, or the row above it is missing.
    #[error("a row of the store is not that of its record")]
    BadRows = 4,
}

impl StoreFault {
    ghost use Rattle.dq_sql.specs.StoreFaults.{store_fault_number};

    /// Returns the number of the fault, 1 to 4, in the order in which the faults are declared.
    pub fn number(self) -> u8
        ensures { result ≡ store_fault_number self }
    {
        self as u8
    }
}

impl From<Error> for StoreFault {
    ghost use Rattle.dq_sql.specs.StoreFaults.{store_fault};

    ghost from_gives = { λ e f. f ≡ store_fault e };

    fn from(error: Error) -> StoreFault {
        match error {
            Error::SqliteFailure(ErrorCode::OutOfMemory) => StoreFault::NoMemory,
            _ => StoreFault::Store,
        }
    }
}

impl From<TableFault> for StoreFault {
    ghost use Rattle.dq_sql.specs.StoreFaults.{of_tables};

    ghost from_gives = { λ e f. f ≡ of_tables e };

    fn from(fault: TableFault) -> StoreFault {
        match fault {
            TableFault::NoMemory => StoreFault::NoMemory,
            TableFault::Store => StoreFault::Store,
        }
    }
}

impl From<AllocError> for StoreFault {
    ghost use Rattle.dq_sql.specs.declared.fault.StoreFault.TheVariants.{NoMemory};

    ghost from_gives = { λ _ e. e ≡ NoMemory };

    fn from(_e: AllocError) -> StoreFault {
        StoreFault::NoMemory
    }
}

impl<T: Drop> From<AllocFailed<T>> for StoreFault {
    ghost use Rattle.dq_sql.specs.declared.fault.StoreFault.TheVariants.{NoMemory};

    ghost from_gives = { λ _ e. e ≡ NoMemory };

    fn from(_e: AllocFailed<T>) -> StoreFault {
        StoreFault::NoMemory
    }
}
