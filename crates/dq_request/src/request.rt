//! Requests to the server.
use crate::search::Search;
use dq_list::Listed;

/// A request to the server.
#[derive(Debug, Drop)]
pub enum Request {
    /// A page of what keys find among what an institution keeps.
    Search(Search),
    /// How much an institution keeps.
    Counts(Listed<u8>),
    /// How much each institution keeps.
    Report,
    /// An entry is to be kept in an institution's worklist (PS3.4 annex K): a data set in Explicit VR Little
    /// Endian.
    Schedule {
        institution: Listed<u8>,
        octets: Listed<u8>,
    },
    /// The entry of an institution's worklist with this Scheduled Procedure Step ID is to be taken away.
    Withdraw {
        institution: Listed<u8>,
        id: Listed<u8>,
    },
    /// All rows are to be copied into a new file at a path.
    Backup(String),
}
