//! The PDUs and their parts (PS3.8 section 9.3).
use crate::numbers::{RESERVED_LENGTH, TITLE_LENGTH};
use dq_list::Listed;

/// A protocol data PDU (PS3.8 section 9.3).
#[derive(Drop)]
pub enum Pdu {
    /// A-ASSOCIATE-RQ.
    Request(Request),
    /// A-ASSOCIATE-AC.
    Accept(Accept),
    /// A-ASSOCIATE-RJ: result, source and reason.
    Reject(u8, u8, u8),
    /// P-DATA-TF: one or more presentation data values.
    PData(Listed<Pdv>),
    /// A-RELEASE-RQ.
    ReleaseRq,
    /// A-RELEASE-RP.
    ReleaseRp,
    /// A-ABORT: source and reason.
    Abort(u8, u8),
}

/// An association request (PS3.8 section 9.3.2).
#[derive(Drop)]
pub struct Request {
    /// The protocol version, a field of bits.
    pub version: u16,
    pub called: [u8; TITLE_LENGTH],
    pub calling: [u8; TITLE_LENGTH],
    pub reserved: [u8; RESERVED_LENGTH],
    pub application_context: Option<Listed<u8>>,
    pub contexts: Listed<ProposedContext>,
    pub maximum_length: Option<u32>,
}

/// A presentation context that a request proposes (PS3.8 section 9.3.2.2).
#[derive(Drop)]
pub struct ProposedContext {
    pub id: u8,
    pub abstract_syntax: Listed<u8>,
    pub transfer_syntaxes: Listed<Listed<u8>>,
}

/// An association's acceptance (PS3.8 section 9.3.3).
#[derive(Drop)]
pub struct Accept {
    pub version: u16,
    pub called: [u8; TITLE_LENGTH],
    pub calling: [u8; TITLE_LENGTH],
    pub reserved: [u8; RESERVED_LENGTH],
    pub application_context: Option<Listed<u8>>,
    pub contexts: Listed<AnsweredContext>,
    pub maximum_length: Option<u32>,
}

/// A presentation context as an acceptance answers it (PS3.8 section 9.3.3.2).
#[derive(Drop)]
pub struct AnsweredContext {
    pub id: u8,
    pub result: u8,
    pub transfer_syntax: Listed<u8>,
}

/// A presentation data value: a fragment of a message (PS3.8 section 9.3.5.1, annex E).
#[derive(Drop)]
pub struct Pdv {
    /// The presentation context's id.
    pub context: u8,
    /// True for a fragment of a command set, false for one of a data set.
    pub command: bool,
    /// True for the last fragment of the command set or the data set.
    pub last: bool,
    pub octets: Listed<u8>,
}
