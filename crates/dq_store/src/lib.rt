//! Storage as an SCP (PS3.4 annex B): what is kept of an instance, and the status of a C-STORE.
#![tactic(auto)]

mod c_store;
mod instance;
mod kept_instance;
mod kept_rows;
pub mod laws;

pub use c_store::{store, store_telling};
