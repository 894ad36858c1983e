//! Rows in SQLite: a keeper of rows over a database that lasts.
#![tactic(auto)]

mod adoption;
mod cells;
mod copied_store;
mod fault;
mod first_rows;
mod found_store;
mod history;
mod ids;
mod judgement;
mod kept_steps;
pub mod laws;
mod memory_files;
mod migrate_fault;
mod migration;
mod new_store;
mod row_check;
mod row_order;
mod row_reader;
mod row_writer;
mod schema;
mod schema_test;
mod sql_tables;
mod store_copy;
mod study_index;
mod version;
mod window;

pub use fault::StoreFault;
pub use found_store::kept_rows;
pub use memory_files::MemoryFile;
pub use migrate_fault::MigrateFault;
pub use sql_tables::SqlTables;
pub use version::Version;
