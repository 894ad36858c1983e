//! Files at a path, and the messages about the store there on a terminal.
use crate::copy_fault::CopyFault;
use dq_sql::StoreFault;
use std::alloc::{AllocError, Global};
use std::fs::OpenOptions;
use std::io::{IsTerminal, Write};
use std::os::unix::fs::OpenOptionsExt;
use std::{fs, io};

/// How many octets a store has at least, for a terminal to be told that it is read, or that a new
/// store is written of its rows.
const LARGE_STORE: u64 = 10_000_000;

/// The mode of a file that its owner alone may read and write.
const OWNER_ALONE: u32 = 0o600;

/// Makes an empty file that its owner alone may read and write, whatever the umask, unless something is at
/// the path. What fails here fails once more when the file is opened.
pub(crate) fn make_private(rt: &HostRuntime, path: &str) {
    let _ = OpenOptions::new()
        .write(true)
        .create_new(true)
        .mode(OWNER_ALONE)
        .open(rt, path);
}

/// Where the log of a file is.
pub(crate) fn log_path(alloc: Global, path: &str) -> Result<String, CopyFault> {
    match format!(in alloc; "{path}-wal") {
        Ok(log) => Ok(log),
        Err(AllocError) => Err(CopyFault::NoMemory),
    }
}

/// How many octets a plain file has, which a connection would make. It is not opened: what is no
/// plain file may keep a program waiting that opens it.
pub(crate) fn octets_at(rt: &HostRuntime, path: &str) -> Result<u64, StoreFault> {
    match fs::metadata(rt, path) {
        Ok(found) if found.is_file() => {
            tell_reading(rt, path, found.len());
            Ok(found.len())
        }
        Err(error) if error.kind() == io::ErrorKind::OutOfMemory => Err(StoreFault::NoMemory),
        _ => Err(StoreFault::Store),
    }
}

/// Whether nothing has a name. What has it is not opened: it may be a file of the store itself.
pub(crate) fn check_free(rt: &HostRuntime, path: &str) -> Result<(), CopyFault> {
    match fs::symlink_metadata(rt, path) {
        Ok(_) => Err(CopyFault::Taken),
        Err(error) if error.kind() == io::ErrorKind::NotFound => Ok(()),
        Err(error) if error.kind() == io::ErrorKind::OutOfMemory => Err(CopyFault::NoMemory),
        Err(_) => Err(CopyFault::Failed),
    }
}

/// Tells a terminal that a large store is read, which takes seconds: some 2 for 100,000 rows of 50 MB.
fn tell_reading(rt: &HostRuntime, path: &str, octets: u64) {
    let mut errors = rt.stderr();
    if octets >= LARGE_STORE && errors.is_terminal() {
        let _ = writeln!(errors, "reading {path}: {} MB", octets / 1_000_000);
    }
}

/// Tells a terminal that a new store is written, of the rows of one of so many octets.
pub(crate) fn tell_writing(rt: &HostRuntime, path: &str, octets: u64) {
    let mut errors = rt.stderr();
    if octets >= LARGE_STORE && errors.is_terminal() {
        let _ = writeln!(errors, "writing {path}");
    }
}
