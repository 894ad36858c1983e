//! The PDUs of the upper layer protocol (PS3.8 section 9.3): protocol data units, read from a
//! stream and written.
#![tactic(auto)]

mod bodies;
mod fault;
mod inbox;
mod items;
pub mod laws;
mod numbers;
mod parts;
mod pdu;
mod pdu_reader;
mod rules;
mod stream;
mod writing;

pub use fault::{InboxError, PduFault};
pub use inbox::{Fed, Inbox};
pub use numbers::{LONGEST_BODY, PDV_HEADER};
pub use pdu::{Accept, AnsweredContext, Pdu, Pdv, ProposedContext, Request};
pub use writing::{append_p_data, writable, write_pdu};
