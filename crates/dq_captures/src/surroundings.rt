//! The inputs and outputs of the program.
ghost use Rattle.std.specs.Prelude.{◌≡◌, ◌≤◌, ℕ, List, Option, IfOk, IfSome, OnOk, OnErr, IsErrOf, length, take};
ghost use Rattle.std.specs.Fmt.{with_newline};
ghost use Rattle.std.specs.Io.KnownBytes.{Keeps, Appends, WriteAppends};
ghost use Rattle.dq_captures.specs.Surroundings.{AppendsPart};

use std::alloc::Global;
use std::fmt::Display;
use std::io::{Read, Write};
use std::{fs, io};

/// The reason why octets could not be read.
#[derive(Clone, Copy, Debug, PartialEq, Eq)]
pub enum Unread {
    /// They cannot be read.
    Failed,
    NoMemory,
}

/// A source that is read to its end.
pub trait Source: Drop {
    /// The octets that it gives, where they are known.
    ghost octets: { Self → Option (List ℕ) };

    /// It may be that it cannot be read.
    ghost may_fail: { Self → Type 0 };

    /// All its octets, or the first of them where there are more than `most`.
    fn read_up_to(self, alloc: Global, most: u64) -> Result<Vec<u8>, Unread>
        ensures read { IfOk result (λ read.
            IfSome (octets self) (λ all. read.items ≡ take most all)) }
        ensures failed { IsErrOf result Unread.Failed → may_fail self };
}

/// A sink that is written to.
pub trait Sink {
    /// The octets that were written, where they are known.
    ghost written: { Self → Option (List ℕ) };

    /// A write may fail.
    ghost may_fail: { Self → Type 0 };

    /// Nothing that was written is held back.
    ghost is_flushed: { Self → Type 0 };

    /// Writes octets. Where that fails the first of them were written.
    fn put(&mut self, octets: &[u8]) -> io::Result<()>
        ensures written { OnOk result (Appends (written self.old) (written self.new) octets.now) }
        ensures part { OnErr result (AppendsPart (written self.old) (written self.new) octets.now) }
        ensures failed { OnErr result (may_fail self.old) }
        ensures fails { may_fail self.new → may_fail self.old };

    /// Writes a text and a line feed.
    fn put_line<D: Display + Drop>(&mut self, text: D) -> io::Result<()>
        ensures written { OnOk result (IfSome (with_newline (D.output text))
            (Appends (written self.old) (written self.new))) }
        ensures failed { OnErr result (may_fail self.old) };

    /// Hands on what was held back.
    fn finish(&mut self) -> io::Result<()>
        ensures written { Keeps (written self.old) (written self.new) }
        ensures flushed { OnOk result (is_flushed self.new) }
        ensures failed { OnErr result (may_fail self.old) };
}

/// A folder that has files.
pub trait Folder {
    /// The octets of the file at a path, where they are known.
    ghost held: { Self → List ℕ → Option (List ℕ) };

    /// It may be that there is no such file, or that it cannot be read.
    ghost may_fail: { Self → List ℕ → Type 0 };

    /// All octets of a file.
    fn read_file(&self, alloc: Global, path: &str) -> Result<Vec<u8>, Unread>
        ensures read { IfOk result (λ read.
            IfSome (held self.now path.now) (λ all. read.items ≡ all)) }
        ensures failed { IsErrOf result Unread.Failed → may_fail self.now path.now };
}

// Why octets are not read, by the error of what reads them.
fn why_unread(error: &io::Error) -> Unread {
    match error.kind() {
        io::ErrorKind::OutOfMemory => Unread::NoMemory,
        _ => Unread::Failed,
    }
}

impl<R: Read + Drop> Source for R {
    ghost use Rattle.std.specs.Prelude.{ℕ};

    ghost octets = { λ r. R.remaining r };

    ghost may_fail = { λ _. Unit {0} };

    fn read_up_to(self, alloc: Global, most: u64) -> Result<Vec<u8>, Unread> {
        let mut octets = Vec::new(alloc);
        match self.take(most).read_to_end(&mut octets) {
            Ok(_) => Ok(octets),
            Err(error) => Err(why_unread(&error)),
        }
    }
}

// Writes octets, none where the write was interrupted.
fn write_some<W: Write>(output: &mut W, octets: &[u8]) -> io::Result<usize>
    ensures bound { IfOk result (λ count. count ≤ length octets.now) }
    ensures bytes { WriteAppends (W.contents output.old) (W.contents output.new) result octets.now }
{
    match output.write(octets) {
        Ok(0) => Err(io::Error::from(io::ErrorKind::WriteZero)),
        Ok(count) => Ok(count),
        Err(error) => {
            if error.kind() == io::ErrorKind::Interrupted {
                Ok(0)
            } else {
                Err(error)
            }
        }
    }
}

fn write_whole<W: Write>(output: &mut W, octets: &[u8]) -> io::Result<()>
    ensures written { OnOk result
        (Appends (W.contents output.old) (W.contents output.new) octets.now) }
    ensures part { OnErr result
        (AppendsPart (W.contents output.old) (W.contents output.new) octets.now) }
{
    let mut rest = octets;
    for _ in 0..u64::MAX {
        if rest.is_empty() {
            return Ok(());
        }
        let count = write_some(output, rest)?;
        rest = rest.split_at(count).1;
    }
    Err(io::Error::from(io::ErrorKind::Other))
}

impl<W: Write> Sink for W {
    ghost written = { λ w. W.contents w };

    ghost may_fail = { λ _. Unit {0} };

    ghost is_flushed = { λ _. Unit {0} };

    fn put(&mut self, octets: &[u8]) -> io::Result<()> {
        write_whole(self, octets)
    }

    fn put_line<D: Display + Drop>(&mut self, text: D) -> io::Result<()> {
        self.writeln(text)
    }

    fn finish(&mut self) -> io::Result<()> {
        self.flush()
    }
}

/// A host that runs on a machine: its files and sockets are those of the machine's runtime.
pub trait Host {
    fn runtime(&self) -> &HostRuntime;
}

impl Host for HostRuntime {
    fn runtime(&self) -> &HostRuntime {
        self
    }
}

impl<H: Host> Folder for H {
    ghost use Rattle.std.specs.Prelude.{None};

    ghost held = { λ _ _. None };

    ghost may_fail = { λ _ _. Unit {0} };

    fn read_file(&self, alloc: Global, path: &str) -> Result<Vec<u8>, Unread> {
        let mut octets = Vec::new(alloc);
        let mut file = match fs::open(self.runtime(), path) {
            Ok(file) => file,
            Err(error) => return Err(why_unread(&error)),
        };
        match file.read_to_end(&mut octets) {
            Ok(_) => Ok(octets),
            Err(error) => Err(why_unread(&error)),
        }
    }
}
