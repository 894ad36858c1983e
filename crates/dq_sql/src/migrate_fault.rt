//! Why a store is not migrated.
ghost use Rattle.std.specs.Prelude.{◌≡◌};

use crate::fault::StoreFault;
use std::alloc::AllocError;
use thiserror::Error;

/// The reason why `migrate` makes no new store, and want of memory.
#[derive(Clone, Copy, Debug, PartialEq, Eq, Error)]
pub enum MigrateFault {
    /// A growth was refused.
    #[error("out of memory")]
    NoMemory = 1,
    /// A store failed, the old one is not a store of rows, or the new one has something already.
    #[error("a store failed, the old one is not a store of rows, or the new one is not empty")]
    Store = 2,
    /// The version of the old store is not 1.
    #[error("the old store is not of version 1")]
    WrongVersion = 3,
    /// A row of the old store is not its record's own, or the row above it is missing.
    #[error("a row of the old store is not that of its record")]
    BadRows = 4,
}

impl MigrateFault {
    ghost use Rattle.dq_sql.specs.Migration.{migrate_fault_number};

    /// Returns the number of the fault, 1 to 4, in the order in which the faults are declared.
    pub fn number(self) -> u8
        ensures { result ≡ migrate_fault_number self }
    {
        self as u8
    }
}

impl From<StoreFault> for MigrateFault {
    ghost use Rattle.dq_sql.specs.Migration.{fault_of_migration};

    ghost from_gives = { λ e f. f ≡ fault_of_migration e };

    fn from(fault: StoreFault) -> MigrateFault {
        match fault {
            StoreFault::NoMemory => MigrateFault::NoMemory,
            StoreFault::Store => MigrateFault::Store,
            StoreFault::WrongVersion => MigrateFault::WrongVersion,
            StoreFault::BadRows => MigrateFault::BadRows,
        }
    }
}

impl From<AllocError> for MigrateFault {
    ghost use Rattle.dq_sql.specs.declared.migrate_fault.MigrateFault.TheVariants.{NoMemory};

    ghost from_gives = { λ _ e. e ≡ NoMemory };

    fn from(_e: AllocError) -> MigrateFault {
        MigrateFault::NoMemory
    }
}
