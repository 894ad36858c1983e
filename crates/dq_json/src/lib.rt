//! Data sets as JSON: the DICOM JSON Model (PS3.18 annex F).
#![tactic(auto)]

mod attributes;
mod code_tables;
mod json_fault;
mod json_reader;
mod json_writer;
mod keywords;
pub mod laws;
mod spelled_text;
mod text;
mod values;

pub use json_fault::{BrokenRule, JsonFault, Rule};
pub use json_reader::data_set_of;
pub use json_writer::json_of;
pub use keywords::{KEYWORDS, tag_named};
pub use spelled_text::spellings;
