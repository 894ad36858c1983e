//! Why a store is not copied.
use sqlite::{Error, ErrorCode};

/// The reason why a store was not copied.
#[derive(Clone, Copy, Debug, PartialEq, Eq)]
pub enum CopyFault {
    /// There is something at the path already.
    Taken,
    /// The disk is full.
    Full,
    /// One of the two stores failed, or there can be no file at the path.
    Failed,
    NoMemory,
}

/// Why the file of a copy is not opened, or not closed. What has its name, or that of its log, is not
/// overwritten.
impl From<Error> for CopyFault {
    ghost from_gives = { λ _ _. Unit {0} };

    fn from(error: Error) -> CopyFault {
        match error {
            Error::SqliteFailure(ErrorCode::OutOfMemory) => CopyFault::NoMemory,
            Error::SqliteFailure(ErrorCode::DiskFull) => CopyFault::Full,
            Error::SqliteFailure(ErrorCode::NotADatabase | ErrorCode::DatabaseBusy) => {
                CopyFault::Taken
            }
            _ => CopyFault::Failed,
        }
    }
}
