//! One institution's part of the kept rows, and what a service decides over it.
#![tactic(auto)]

mod additions;
mod archive;
mod decision;
pub mod laws;
mod past;

pub use additions::Addition;
pub use archive::Archive;
pub use decision::Decision;
pub use past::Past;
