//! The numbers of PS3.7 annex E: elements of group 0000, and values of Command Data Set Type.

/// The group of the elements of command sets.
pub(crate) const COMMAND_GROUP: u16 = 0x0000;

/// Command Group Length (0000,0000).
pub(crate) const COMMAND_GROUP_LENGTH: u16 = 0x0000;
/// Affected SOP Class UID (0000,0002).
pub(crate) const AFFECTED_SOP_CLASS_UID: u16 = 0x0002;
/// Requested SOP Class UID (0000,0003).
pub(crate) const REQUESTED_SOP_CLASS_UID: u16 = 0x0003;
/// Command Field (0000,0100).
pub(crate) const COMMAND_FIELD: u16 = 0x0100;
/// Message ID (0000,0110).
pub(crate) const MESSAGE_ID: u16 = 0x0110;
/// Message ID Being Responded To (0000,0120).
pub(crate) const MESSAGE_ID_BEING_RESPONDED_TO: u16 = 0x0120;
/// Command Data Set Type (0000,0800).
pub(crate) const COMMAND_DATA_SET_TYPE: u16 = 0x0800;
/// Status (0000,0900).
pub(crate) const STATUS: u16 = 0x0900;
/// Affected SOP Instance UID (0000,1000).
pub(crate) const AFFECTED_SOP_INSTANCE_UID: u16 = 0x1000;
/// Requested SOP Instance UID (0000,1001).
pub(crate) const REQUESTED_SOP_INSTANCE_UID: u16 = 0x1001;

/// The Command Data Set Type of a message without a data set.
pub(crate) const NO_DATA_SET: u16 = 0x0101;
/// The Command Data Set Type of a message that is sent with a data set.
pub(crate) const DATA_SET: u16 = 0x0001;
