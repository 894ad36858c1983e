//! The files of stores on the machine.
//!
//! All other code is written over any such disk, not over the kit's type of files: each call of a
//! function over that type proves anew that files are a disk, which takes 20 seconds.
ghost use Rattle.std.specs.Prelude.{◌≡◌, ℕ, List, false, IfOk};
ghost use Rattle.sqlite_store.specs.FileStore.{files};
ghost use Rattle.sqlite_wal.specs.Files.{image_at};
ghost use Rattle.sqlite_wal.specs.Recovery.{Image};
ghost use Rattle.sqlite.specs.State.{HasCleanDisk};
ghost use Rattle.sqlite.specs.Files.{file_state, IsOpened};
ghost use Rattle.sqlite.specs.Start.{FindsIn};

use crate::paths::make_private;
use dq_counts::CountedTables;
use dq_sql::SqlTables;
use sqlite::{Connection, Error, FileFrom, FileStore, Start};
use sqlite_disk::Disk;

/// A connection to the two files of a store.
pub(crate) type HostConnection<D> = Connection<FileStore<D>>;

/// Rows in the two files of a store, and how many there are.
pub type HostTables<D> = CountedTables<SqlTables<FileStore<D>>>;

/// A disk of the machine, where one path is singled out. No code can know what the files there hold.
/// What is proved over `D: HostDisk` is proved whichever path that is and whatever they hold.
pub trait HostDisk: Disk + Drop {
    /// The path.
    ghost place: { List ℕ };

    /// What the two files of the store there hold when they are opened. A torn write may leave any
    /// octets in them.
    ghost contents: { Image };

    /// Opens a connection to the files at a path, and makes those that are not there. A crash is read
    /// without the hypothesis that a torn write leaves each octet old or new.
    fn open(rt: &HostRuntime, path: &str) -> Result<Connection<FileStore<Self>>, Error>
        ensures opened { IfOk result (λ c. HasCleanDisk (file_state c) → IsOpened c) }
        // The kit ties no files to their path. So what is said of the contents is said of one path alone.
        ensures found { path.now ≡ place → IfOk result (λ c. HasCleanDisk (file_state c)
            → FindsIn contents (file_state c)) }
        ensures wary { IfOk result (λ c. Self.Disk.is_mixing (files c.store).0 ≡ false) };
}

/// The contents of the files at a path when they are opened.
pub trait FilesAt: Start {
    /// The path.
    ghost path: { List ℕ };

    /// The value that a connection is opened with.
    fn begin() -> Self;

    /// A torn write need not leave each octet old or new.
    ghost wary: { Self.Start.is_mixing ≡ false };
}

/// The files at some path of the machine, for `main` to name. No code can know what they hold. Here the path
/// and the contents are definitions that no proof looks into. So what is said at this type is proved
/// whatever they are.
#[derive(Drop)]
pub struct AnyFiles;

impl Start for AnyFiles {
    ghost use Rattle.std.specs.Prelude.{false};
    ghost use Rattle.dq_keepers.specs.AnyFiles.{any_log, any_database};

    ghost log = { any_log };

    ghost db = { any_database };

    ghost is_mixing = { false };

    fn mixes() -> bool {
        false
    }
}

impl FilesAt for AnyFiles {
    ghost use Rattle.std.specs.Prelude.{refl};
    ghost use Rattle.dq_keepers.specs.AnyFiles.{any_path};

    ghost path = { any_path };

    fn begin() -> AnyFiles {
        AnyFiles
    }

    ghost wary = { refl };
}

impl<S: FilesAt> HostDisk for FileFrom<S> {
    ghost place = { S.path };

    ghost contents = { image_at S.Start };

    // The log is made with the mode of the database file.
    fn open(rt: &HostRuntime, path: &str) -> Result<Connection<FileStore<FileFrom<S>>>, Error> {
        make_private(rt, path);
        match Connection::open_from(rt, path, false, S::begin()) {
            Ok(conn) => Ok(conn),
            Err((error, _)) => Err(error),
        }
    }
}
