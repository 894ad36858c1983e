//! Responses to requests.
ghost use Rattle.std.specs.Prelude.{◌≡◌, IfOk, string_bytes};
ghost use Rattle.dq_request.specs.Responses.{cause_text, backup_error_word};

use dq_dataset::DataSet;
use dq_list::Listed;
use std::alloc::{AllocError, Global};

/// How many of each kind an institution keeps.
#[derive(Clone, Copy, Debug, PartialEq, Eq)]
pub struct Counts {
    pub studies: u64,
    pub series: u64,
    pub images: u64,
    pub entries: u64,
    pub steps: u64,
}

/// How much the institution of a name keeps.
#[derive(Debug, Drop)]
pub struct Counted {
    pub institution: Listed<u8>,
    pub counts: Counts,
}

/// The reason why the rows were not copied.
#[derive(Clone, Copy, Debug, PartialEq, Eq)]
pub enum BackupError {
    /// There is something at the path already.
    Taken,
    /// The disk is full.
    Full,
    /// One of the two stores failed, or there can be no file at the path.
    Failed,
    NoMemory,
    /// The rows are in memory alone.
    NoStore,
}

/// Why what is asked is not done.
#[derive(Clone, Copy, Debug, PartialEq, Eq)]
pub enum Cause {
    /// An order is refused, with the number of its refusal.
    Order(u16),
    /// A search is refused, with its status (PS3.4 section C.4.1.1.4).
    Search(u16),
    /// No institution has the name.
    Institution,
    /// All rows are not copied.
    Copy(BackupError),
}

/// The response to a request.
#[derive(Drop)]
pub enum Response {
    /// The data sets that a search found, in their order.
    Found(Listed<DataSet>),
    /// How much institutions keep.
    Counted(Listed<Counted>),
    /// The request is done.
    Done,
    /// It is not, and nothing changed.
    Refused(Cause),
}

impl BackupError {
    fn word(self) -> &'static str
        ensures { result.now ≡ backup_error_word self }
    {
        match self {
            BackupError::Taken => "taken",
            BackupError::Full => "full",
            BackupError::Failed => "failed",
            BackupError::NoMemory => "memory",
            BackupError::NoStore => "no store",
        }
    }
}

impl Cause {
    /// The word for it: the number of an order's refusal in decimal digits, 6 where no institution has the
    /// name, the status of a search in four hexadecimal digits, and a word for a copy.
    pub fn text(self, alloc: Global) -> Result<String, AllocError>
        ensures { IfOk result (λ text. string_bytes text ≡ cause_text self) }
    {
        match self {
            Cause::Order(number) => format!(in alloc; "{number}"),
            Cause::Search(status) => hex::encode_upper(alloc, status.to_be_bytes()),
            Cause::Institution => String::from_str(alloc, "6"),
            Cause::Copy(refusal) => String::from_str(alloc, refusal.word()),
        }
    }
}
