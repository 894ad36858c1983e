//! DICOM messages: command sets and data sets assembled from presentation data values, and messages
//! cut into PDUs to send (PS3.7 section 6.3.1, PS3.8 annex E). `write_message` is for tests: it spells
//! a whole message, which the server sends in parts.
#![tactic(auto)]

mod assembler;
mod command;
pub mod command_field;
mod command_reader;
mod fault;
pub mod laws;
mod numbers;
mod receiving;
mod sending;
pub mod status;
mod testing;

pub use assembler::{Accepted, Assembler};
pub use command::{Body, Command, CommandRef, Message};
pub use dq_vr::study_root::KEPT_ATTRIBUTES;
pub use fault::DimseFault;
pub use sending::{append_command, append_data_set};
pub use testing::write_message;
