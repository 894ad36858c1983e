//! Values of Status (0000,0900) that are answered.

/// Success (PS3.7 annex C.1).
pub const SUCCESS: u16 = 0x0000;

/// Pending: matches go on (PS3.4 section C.4.1.1.4).
pub const PENDING: u16 = 0xff00;
/// Pending: matches go on, and optional keys were not supported (PS3.4 section C.4.1.1.4).
pub const PENDING_WITHOUT_OPTIONAL_KEYS: u16 = 0xff01;
/// Cancel: matching was ended by a C-CANCEL (PS3.4 section C.4.1.1.4).
pub const CANCEL: u16 = 0xfe00;

/// Out of resources (PS3.4 sections B.2.3 and C.4.1.1.4).
pub const OUT_OF_RESOURCES: u16 = 0xa700;
/// The data set or the identifier does not match the SOP class
/// (PS3.4 sections B.2.3 and C.4.1.1.4).
pub const DOES_NOT_MATCH_SOP_CLASS: u16 = 0xa900;
/// Cannot understand (PS3.4 sections B.2.3 and C.4.1.1.4).
pub const CANNOT_UNDERSTAND: u16 = 0xc000;
/// The instance is kept under another series, or its series under another study
/// (PS3.4 section B.2.3).
pub const INSTANCE_KEPT_ELSEWHERE: u16 = 0xc001;
/// The instance is new, and its series is kept under another study (PS3.4 section B.2.3).
pub const SERIES_KEPT_ELSEWHERE: u16 = 0xc002;
/// Elements discarded, a warning (PS3.4 section B.2.3).
pub const ELEMENTS_DISCARDED: u16 = 0xb006;

/// Invalid attribute value (PS3.7 annex C.5).
pub const INVALID_ATTRIBUTE_VALUE: u16 = 0x0106;
/// Processing failure; of an N-SET also where the step may no longer be changed
/// (PS3.7 annex C.5, PS3.4 section F.7.2).
pub const PROCESSING_FAILURE: u16 = 0x0110;
/// Duplicate SOP instance (PS3.7 annex C.5).
pub const DUPLICATE_SOP_INSTANCE: u16 = 0x0111;
/// No such SOP instance (PS3.7 annex C.5).
pub const NO_SUCH_SOP_INSTANCE: u16 = 0x0112;
/// Invalid SOP instance (PS3.7 annex C.5).
pub const INVALID_SOP_INSTANCE: u16 = 0x0117;
/// Missing attribute (PS3.7 annex C.5).
pub const MISSING_ATTRIBUTE: u16 = 0x0120;
/// Missing attribute value (PS3.7 annex C.5).
pub const MISSING_ATTRIBUTE_VALUE: u16 = 0x0121;
/// SOP class not supported (PS3.7 annex C.5).
pub const SOP_CLASS_NOT_SUPPORTED: u16 = 0x0122;
/// Unrecognized operation (PS3.7 annex C.5).
pub const UNRECOGNIZED_OPERATION: u16 = 0x0211;
/// Resource limitation (PS3.7 annex C.5).
pub const RESOURCE_LIMITATION: u16 = 0x0213;
