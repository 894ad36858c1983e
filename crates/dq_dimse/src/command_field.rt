//! Values of Command Field (0000,0100) (PS3.7 annex E.1).

/// C-STORE-RQ (PS3.7 section 9.3.1).
pub const C_STORE: u16 = 0x0001;
/// C-FIND-RQ (PS3.7 section 9.3.2).
pub const C_FIND: u16 = 0x0020;
/// C-ECHO-RQ (PS3.7 section 9.3.5).
pub const C_ECHO: u16 = 0x0030;
/// N-SET-RQ (PS3.7 section 10.3.3).
pub const N_SET: u16 = 0x0120;
/// N-CREATE-RQ (PS3.7 section 10.3.5).
pub const N_CREATE: u16 = 0x0140;
/// C-CANCEL-RQ (PS3.7 section 9.3.2.3).
pub const C_CANCEL: u16 = 0x0fff;

/// The bit that the Command Field of each response has.
pub const RESPONSE_BIT: u16 = 0x8000;
