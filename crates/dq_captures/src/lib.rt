//! Captures and the printed lines of their replies, over whatever can be read and written.
#![tactic(auto)]

mod capture;
mod reply_lines;
mod surroundings;

pub use capture::{CaptureFault, captures_bring_octets, event_of, read_capture};
pub use reply_lines::{PrintFault, print_replies, printed_line, put_numbered, put_sent, put_text};
pub use surroundings::{Folder, Host, Sink, Source, Unread};
