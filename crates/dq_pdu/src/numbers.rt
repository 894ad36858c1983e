//! The types of PDUs and of their items, and the lengths that are fixed (PS3.8 section 9.3).

/// The types of PDUs (PS3.8 section 9.3.1).
pub(crate) mod pdu_type {
    pub const A_ASSOCIATE_RQ: u8 = 0x01;

    pub const A_ASSOCIATE_AC: u8 = 0x02;

    pub const A_ASSOCIATE_RJ: u8 = 0x03;

    pub const P_DATA_TF: u8 = 0x04;

    pub const A_RELEASE_RQ: u8 = 0x05;

    pub const A_RELEASE_RP: u8 = 0x06;

    pub const A_ABORT: u8 = 0x07;
}

/// The types of items and sub-items (PS3.8 sections 9.3.2 and 9.3.3; PS3.7 annex D.3.3.2).
pub(crate) mod item_type {
    pub const APPLICATION_CONTEXT: u8 = 0x10;

    pub const PROPOSED_CONTEXT: u8 = 0x20;

    pub const ANSWERED_CONTEXT: u8 = 0x21;

    pub const ABSTRACT_SYNTAX: u8 = 0x30;

    pub const TRANSFER_SYNTAX: u8 = 0x40;

    pub const USER_INFORMATION: u8 = 0x50;

    pub const MAXIMUM_LENGTH: u8 = 0x51;

    pub const IMPLEMENTATION_CLASS_UID: u8 = 0x52;

    pub const IMPLEMENTATION_VERSION_NAME: u8 = 0x55;
}

/// A PDU's type, a reserved octet and the length of its body (PS3.8 section 9.3.1).
pub(crate) const PDU_HEADER: usize = 6;

/// The longest body of a PDU that is received or written.
pub const LONGEST_BODY: usize = 0x1_0000;

/// The fixed fields of a request or an acceptance (PS3.8 section 9.3.2).
pub(crate) const ASSOCIATE_FIELDS: usize = 68;

/// Each of the titles of a request or an acceptance (PS3.8 section 9.3.2).
pub(crate) const TITLE_LENGTH: usize = 16;

/// The reserved octets after the titles (PS3.8 section 9.3.2).
pub(crate) const RESERVED_LENGTH: usize = 32;

/// The body of a rejection, of a release and its reply, and of an abort (PS3.8 sections 9.3.4 and
/// 9.3.6 to 9.3.8).
pub(crate) const SHORT_BODY: usize = 0x04;

/// An item's type, a reserved octet and the length of its body (PS3.8 section 9.3.2).
pub(crate) const ITEM_HEADER: usize = 4;

/// A presentation context's octets before its sub-items (PS3.8 sections 9.3.2.2 and 9.3.3.2).
pub(crate) const CONTEXT_FIELDS: usize = 4;

/// A maximum length as an item: its header and four octets (PS3.8 annex D.1).
pub(crate) const MAXIMUM_LENGTH_ITEM: usize = ITEM_HEADER + 4;

/// A PDV's length, its context's id and its control header (PS3.8 annex E.2).
pub const PDV_HEADER: usize = 6;

/// The last two of them, which a PDV's length counts.
pub(crate) const PDV_FIELDS: usize = 2;
