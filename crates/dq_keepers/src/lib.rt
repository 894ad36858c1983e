//! The keepers of rows on a machine: SQLite over files, and over memory.
#![tactic(auto)]

mod copy_fault;
mod host_disk;
pub mod laws;
mod memory;
mod paths;
mod stores;

pub use copy_fault::CopyFault;
pub use host_disk::{AnyFiles, FilesAt, HostDisk, HostTables};
pub use memory::RowsInMemory;
pub use stores::{back_up, close_store, copy_store, create_store, migrate_store, open_store};
