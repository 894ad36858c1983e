//! The modality worklist: entries that are scheduled and withdrawn, and the queries for them (PS3.4
//! annex K).
#![tactic(auto)]

mod completeness;
mod entry_orders;
pub mod laws;
mod query_answers;
mod refusal;
mod worklist_query;

pub use entry_orders::{schedule, withdraw};
pub use query_answers::{query, query_by_keys, query_with_identifier};
pub use refusal::Refusal;
