//! Modality Performed Procedure Step as an SCP (PS3.4 annex F): steps that are created and changed.
#![tactic(auto)]

mod attributes;
pub mod laws;
mod n_create;
mod n_set;
mod named_entries;
mod steps;

pub use n_create::create;
pub use n_set::set;
