//! The server: events in, replies out.
#![tactic(auto)]

mod additions;
mod answer_queue;
mod answers;
mod brought_octets;
mod connections;
mod dimse_operation;
mod event;
mod fault;
pub mod laws;
mod notes;
mod open_associations;
mod orders;
mod pages;
mod server;
mod service;
mod showing;
mod slot;
mod table_inspection;

pub use dimse_operation::DimseOperation;
pub use event::{Event, Reply};
pub use fault::Fault;
pub use notes::{LogEvent, Note, Notes, QuerySummary, Titles};
pub use server::{Outcome, Server, run, well_formed};
pub use showing::SearchKind;
pub use table_inspection::{FoundPage, RowCount, StepsPage, TableInspection};
