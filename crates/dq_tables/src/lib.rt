//! The rows of several institutions, their changes, and the trait of their keepers. `Fused` is
//! for tests: it fails after some changes.
#![tactic(auto)]

mod apply_change;
mod change;
mod choice;
mod fault;
mod keys;
mod labels;
pub mod laws;
mod own;
mod plain;
mod plain_tables;
mod put;
mod row;
mod scan;
mod search;
mod step_references;
mod study_query;
mod tables;
mod testing;

pub use apply_change::make_change;
pub use change::Change;
pub use choice::Choice;
pub use fault::TableFault;
pub use keys::{entry_id, sole_item_at, uid_at};
pub use labels::{Labels, day_number};
pub use plain::PlainTables;
pub use put::{put as put_row, start as start_row};
pub use row::{Kind, RecordKeys, Row};
pub use search::search as search_rows;
pub use step_references::ids_named;
pub use tables::Tables;
pub use testing::{Fuse, Fused};
