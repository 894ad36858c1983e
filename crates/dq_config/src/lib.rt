//! The configuration of the server: the institutions that share it, each with its name, the pairs
//! of titles that are its own, and its limits. It is read from a TOML text.
#![tactic(auto)]

mod conditions;
mod config;
mod document_reader;
mod fault;
pub mod laws;

pub use conditions::is_name;
pub use config::{Config, Institution, Route};
pub use fault::ConfigFault;
