//! Why a text spells no configuration.
ghost use Rattle.std.specs.Prelude.{◌≡◌};
ghost use Rattle.dq_config.specs.declared.fault.ConfigFault.TheVariants.{NoMemory};

use std::alloc::{AllocError, AllocFailed};
use thiserror::Error;

/// The first fault of a text that spells no configuration, and want of memory.
#[derive(Clone, Copy, Debug, PartialEq, Eq, Error)]
pub enum ConfigFault {
    /// The text is not TOML, or a key is missing, unknown, or not of its type.
    #[error("bad syntax")]
    Syntax = 1,
    /// A name is not 1 to 16 of A to Z, 0 to 9 and the underscore.
    #[error("bad name")]
    BadName = 2,
    /// A title, without the spaces at its ends, is not 1 to 16 of 20H to 7EH, or has a backslash.
    #[error("bad title")]
    BadTitle = 3,
    /// An institution before has the name.
    #[error("name taken")]
    NameTaken = 4,
    /// A route before has the pair of titles.
    #[error("route taken")]
    RouteTaken = 5,
    /// A limit is out of range.
    #[error("bad limit")]
    BadLimit = 6,
    /// A growth was refused.
    #[error("out of memory")]
    NoMemory = 7,
}

impl ConfigFault {
    ghost use Rattle.dq_config.specs.Faults.{config_fault_number};

    /// Returns the number of the fault, 1 to 7, in the order in which the faults are declared.
    pub fn number(self) -> u8
        ensures { result ≡ config_fault_number self }
    {
        self as u8
    }
}

impl From<AllocError> for ConfigFault {
    ghost from_gives = { λ _ e. e ≡ NoMemory };

    fn from(_e: AllocError) -> ConfigFault {
        ConfigFault::NoMemory
    }
}

impl<T: Drop> From<AllocFailed<T>> for ConfigFault {
    ghost from_gives = { λ _ e. e ≡ NoMemory };

    fn from(_e: AllocFailed<T>) -> ConfigFault {
        ConfigFault::NoMemory
    }
}
