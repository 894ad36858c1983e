//! Files in memory, and tables over them.
ghost use Rattle.std.specs.Prelude.{◌≡◌, [], length, false, is_ok, OnOk, IfOk};
ghost use Rattle.sqlite_disk.specs.Disk.{Holds, Torn, Cut, CountsFault};
ghost use Rattle.sqlite_disk.specs.Refusal.{finds_no_room};

use crate::sql_tables::SqlTables;
use dq_tables::Tables;
use sqlite::{Connection, FileStore, Files, Options};
use sqlite_disk::{Disk, Tally};
use std::alloc::{AllocError, Global};
use std::io;

/// A file in memory. What was written is what is read, a sync has nothing to do, and a write costs its
/// own octets.
#[derive(Drop)]
pub struct MemoryFile {
    octets: Vec<u8>,
    /// How many calls found no memory.
    faults: u64,
}

impl MemoryFile {
    /// An empty file. It takes no memory.
    fn new(alloc: Global) -> MemoryFile
        ensures { result.octets.items ≡ [] }
    {
        MemoryFile {
            octets: Vec::new(alloc),
            faults: 0,
        }
    }

    /// The outcome of a call, of which a failure is counted.
    fn counted(&mut self, outcome: Result<(), AllocError>) -> io::Result<()>
        ensures variant { is_ok result ≡ is_ok outcome }
        ensures kind { finds_no_room result ≡ false }
        ensures faults { CountsFault result self.old.faults self.new.faults }
        ensures same { self.new.octets ≡ self.old.octets }
    {
        if outcome.is_err() {
            self.faults = self.faults.saturating_add(1);
            return Err(io::Error::from(io::ErrorKind::OutOfMemory));
        }
        Ok(())
    }
}

/// Makes a file so long. What is added is zero.
fn resize(octets: &mut Vec<u8>, len: usize) -> Result<(), AllocError>
    ensures len { OnOk result (length octets.new.items ≡ len) }
    ensures others { Cut len octets.old.items octets.new.items }
{
    octets.resize(len, 0)
}

/// Writes over what is there, and makes the file longer where it ends before.
fn overwrite(octets: &mut Vec<u8>, at: usize, bytes: &[u8]) -> Result<(), AllocError>
    ensures written { OnOk result (Holds octets.new.items at bytes.now) }
    ensures others { Torn at (length bytes.now) octets.old.items octets.new.items }
{
    let end = at.checked_add(bytes.len()).ok_or(AllocError)?;
    if end > octets.len() {
        resize(octets, end)?;
    }
    octets[at..end].copy_from_slice(bytes);
    Ok(())
}

// No run reads what a crash leaves, so it is what was written.
impl Disk for MemoryFile {
    ghost use Rattle.std.specs.Prelude.{◌≡◌, true, refl};

    ghost seen = { λ file. file.octets.items };

    ghost may_leave = { λ file left. left ≡ file.octets.items };

    ghost is_usable = { λ _. true };

    ghost faults = { λ file. file.faults };

    ghost is_clean = { λ _. true };

    ghost tally_of = { λ _. record { caught = 0; refused = 0 } };

    ghost key_of = { λ _. 0 };

    ghost is_fair = { λ _ _. true };

    ghost fair_if_clean = { λ _ _ _. refl };

    ghost seen_may_stay = { λ _. refl };

    fn mixes(&self) -> bool {
        false
    }

    // Memory tells no lie, so it needs no secret.
    fn key(&self) -> u64 {
        0
    }

    fn tally(&self) -> Tally {
        Tally {
            caught: 0,
            refused: 0,
        }
    }

    fn may_be_used(&self) -> bool {
        true
    }

    fn len(&mut self) -> io::Result<usize> {
        Ok(self.octets.len())
    }

    fn read_at(&mut self, at: usize, buf: &mut [u8]) -> io::Result<()> {
        if at > self.octets.len() || buf.len() > self.octets.len() - at {
            return Err(io::ErrorKind::UnexpectedEof.into());
        }
        buf.copy_from_slice(&self.octets[at..at + buf.len()]);
        Ok(())
    }

    // The bytes that are read are those that were written, so they have the digest that is asked
    // for.
    fn read_checked(&mut self, _key: u64, _want: u64, at: usize, buf: &mut [u8]) -> io::Result<()> {
        self.read_at(at, buf)
    }

    fn write_at(&mut self, at: usize, bytes: &[u8]) -> io::Result<()> {
        let outcome = overwrite(&mut self.octets, at, bytes);
        self.counted(outcome)
    }

    fn set_len(&mut self, len: usize) -> io::Result<()> {
        let outcome = resize(&mut self.octets, len);
        self.counted(outcome)
    }

    fn sync(&mut self) -> io::Result<()> {
        Ok(())
    }
}

/// The number of the log's salts, which tell the frames of one run from those of the next: in memory
/// there is no next.
const SEED: u64 = 0;

/// How many pages are held beside the files. All are made when the tables are opened. A page that is
/// not held is copied from memory, so more of them would save little.
const HELD_PAGES: usize = 256;

impl SqlTables<FileStore<MemoryFile>> {
    /// Tables without rows, over files in memory. A refusal means that memory ran out, since nothing
    /// else can fail there.
    ///
    /// They are honest whatever is done (`laws::tables_in_memory_are_honest`). A write costs as much
    /// among many rows as among few.
    pub fn in_memory(alloc: Global) -> Result<SqlTables<FileStore<MemoryFile>>, AllocError>
        ensures rows { IfOk result
            (λ t. (⟦<SqlTables<FileStore<MemoryFile>> as Tables>⟧.state t).rows ≡ []) }
        ensures failed { IfOk result
            (λ t. (⟦<SqlTables<FileStore<MemoryFile>> as Tables>⟧.state t).failed ≡ false) }
    {
        let files = Files {
            log: MemoryFile::new(alloc),
            db: MemoryFile::new(alloc),
        };
        let mut options = Options::new(SEED);
        options.cache_pages = HELD_PAGES;
        let Ok(conn) = Connection::open_files(alloc, files, options) else {
            return Err(AllocError);
        };
        match SqlTables::open(alloc, conn) {
            Ok(tables) => Ok(tables),
            Err(_) => Err(AllocError),
        }
    }
}
