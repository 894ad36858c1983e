//! Where the lines of a log go.
ghost use Rattle.std.specs.Prelude.{◌≡◌, IfOk};
ghost use Rattle.dq_wires.specs.LogWords.{IsStandardError, IsFile};

use mio::unix::SourceFd;
use mio::{Events, Interest, Poll, Token};
use std::alloc::Global;
use std::fs::{File, OpenOptions};
use std::io::{self, ErrorKind, Stderr, Write};
use std::net::Net;
use std::os::fd::{AsRawFd, RawFd};
use std::os::unix::fs::OpenOptionsExt;
use std::time::Duration;

const LOG: Token = Token(0);

/// The mode of a file that its owner alone may read and write.
const OWNER_ALONE: u32 = 0o600;

// Standard error, or a file.
#[derive(Drop)]
enum Paper {
    Errors(Stderr),
    File(File),
}

impl Paper {
    fn descriptor(&self) -> RawFd {
        match self {
            Paper::Errors(errors) => errors.as_raw_fd(),
            Paper::File(file) => file.as_raw_fd(),
        }
    }
}

/// Where the lines of a log go: standard error, or the end of a file. It takes none while whoever
/// reads it is behind, so that nobody waits for that reader.
#[derive(Drop)]
pub struct LogEnd {
    paper: Paper,
    poll: Option<Poll>,
    events: Events,
}

impl LogEnd {
    /// Standard error.
    pub fn errors(alloc: Global, rt: &HostRuntime) -> io::Result<Self>
        ensures { IfOk result (λ end. IsStandardError end.paper) }
    {
        Self::over(alloc, rt, Paper::Errors(rt.stderr()))
    }

    /// The end of the file at a path. Where there is none it is made, and its owner alone may read and
    /// write it, whatever the umask.
    pub fn file(alloc: Global, rt: &HostRuntime, path: &str) -> io::Result<Self>
        ensures { IfOk result (λ end. IsFile end.paper) }
    {
        let file = OpenOptions::new()
            .append(true)
            .create(true)
            .mode(OWNER_ALONE)
            .open(rt, path)?;
        Self::over(alloc, rt, Paper::File(file))
    }

    fn over(alloc: Global, net: &impl Net, paper: Paper) -> io::Result<Self>
        ensures { IfOk result (λ end. end.paper ≡ paper) }
    {
        let poll = Poll::new(net)?;
        let descriptor = paper.descriptor();
        let is_watched = poll
            .registry()
            .register(&mut SourceFd(&descriptor), LOG, Interest::WRITABLE)
            .is_ok();
        Ok(LogEnd {
            paper,
            // Of a file on a disk there is nothing to be watched: it takes every line.
            poll: if is_watched { Some(poll) } else { None },
            events: Events::with_capacity(alloc, 1)?,
        })
    }

    // Whether a line can be written without waiting.
    fn is_ready(&mut self) -> io::Result<bool>
        ensures { self.new.paper ≡ self.old.paper }
    {
        let Some(poll) = &mut self.poll else {
            return Ok(true);
        };
        let descriptor = self.paper.descriptor();
        poll.registry()
            .reregister(&mut SourceFd(&descriptor), LOG, Interest::WRITABLE)?;
        poll.poll(&mut self.events, Some(Duration::ZERO))?;
        Ok(
            self.events
                .iter()
                .any(|event| event.is_writable() && !event.is_write_closed()),
        )
    }
}

impl Write for LogEnd {
    fn write(&mut self, octets: &[u8]) -> io::Result<usize> {
        if !self.is_ready()? {
            return Err(io::Error::from(ErrorKind::WouldBlock));
        }
        match &mut self.paper {
            Paper::Errors(errors) => errors.write(octets),
            Paper::File(file) => file.write(octets),
        }
    }

    fn flush(&mut self) -> io::Result<()> {
        Ok(())
    }
}
