//! The requests that may be made of the server beside associations, and its responses. The console
//! and the web front each spell both in their own way.
#![tactic(auto)]

mod identifier;
pub mod laws;
mod request;
mod response;
mod search;
mod spelled_values;

pub use request::Request;
pub use response::{BackupError, Cause, Counted, Counts, Response};
pub use search::{Key, Search, Subject};
