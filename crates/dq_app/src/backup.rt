//! Copies of all rows of a store, made while it is served.
use crate::stores::Stores;
use dq_console::Backups;
use dq_request::BackupError;
use std::alloc::Global;

/// Copies of stores in files.
#[derive(Clone, Copy)]
pub struct OfFiles<'a, Rt>(pub &'a Rt);

impl<Rt: Stores> Backups<Rt::File> for OfFiles<'_, Rt> {
    ghost copied = { λ it rows. Rt.closed it.0.now rows };

    fn backup(&self, alloc: Global, tables: &mut Rt::File, path: &str) -> Result<(), BackupError> {
        self.0.backup(alloc, tables, path)
    }
}
