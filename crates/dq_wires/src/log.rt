//! The log of connections and associations.
mod association_log;
mod log_end;
mod log_line;
mod logged;

pub use association_log::AssociationLog;
pub use log_end::LogEnd;
pub use logged::LoggedWires;
