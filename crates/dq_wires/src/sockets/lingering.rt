//! TCP sockets on which nothing more is sent, and which are read on until their peers close them. A
//! close with octets unread makes TCP reset the connection, and the peer then loses what was sent last
//! (RFC 9112 section 9.6).
ghost use Rattle.std.specs.Prelude.{◌≡◌, ◌≤◌, ◌⊎◌, [], true, false, length, IfOk, OnOk, OnErr};
ghost use Rattle.std.specs.Vec.{vec_capacity};
ghost use Rattle.std.specs.Duration.{as_nanos};
ghost use Rattle.dq_wires.specs.Lingering.{is_over, with_newest, longest_rest, MayLinger, AreRead};

use crate::limits::READ_MOST;
use mio::Registry;
use mio::net::TcpStream;
use std::alloc::{AllocError, Global};
use std::io::{ErrorKind, Read};
use std::time::{Duration, Instant};

/// So many linger at most. A peer closes within a round trip or two, so more are there only where many
/// stay away: the newest then have the best use of the room.
const MOST_LINGERING: usize = 16;

/// For so many milliseconds a socket lingers at most: for several round trips on a slow line, and for
/// a body of megabytes.
const LINGER: u64 = 2_000;

/// So many milliseconds are between two reads at most.
const PAUSE: u64 = 4;

/// A socket that lingers, and since when.
#[derive(Drop)]
pub(crate) struct LingeringSocket {
    stream: TcpStream,
    since: Instant,
}

impl LingeringSocket {
    // Whether it has lingered for as long as it may.
    fn is_over(&self, now: Instant) -> bool
        ensures { result ≡ is_over now self.now }
    {
        now.duration_since(self.since).as_nanos() >= Duration::from_millis(LINGER).as_nanos()
    }

    // Reads what came, and drops it. The answer is whether more may come.
    fn drain(&self) -> bool {
        let mut buffer = [0; READ_MOST];
        let mut stream = &self.stream;
        match stream.read(&mut buffer) {
            Ok(count) => count > 0,
            Err(error) => {
                let kind = error.kind();
                kind == ErrorKind::WouldBlock || kind == ErrorKind::Interrupted
            }
        }
    }

    // Whether it stays.
    fn stays(&self, now: Instant) -> bool
        ensures { result ≡ true → is_over now self.now ≡ false }
    {
        !self.is_over(now) && self.drain()
    }
}

/// The sockets that linger, the oldest first. They hold no place of a connection, and events do not
/// tell of them.
#[derive(Drop)]
pub(crate) struct LingeringSockets {
    sockets: Vec<LingeringSocket>,
}

impl LingeringSockets {
    /// None, with room for all that there may be.
    pub(crate) fn none(alloc: Global) -> Result<Self, AllocError>
        ensures { IfOk result (λ lingering. lingering.sockets.items ≡ []) }
    {
        let sockets = Vec::with_capacity(alloc, MOST_LINGERING + 1)?;
        Ok(LingeringSockets { sockets })
    }

    /// Has a socket linger on which nothing more is sent, unless its peer has closed it.
    pub(crate) fn admit(&mut self, registry: &Registry, stream: TcpStream, since: Instant)
        ensures { MayLinger self.old.sockets.items self.new.sockets.items }
    {
        let mut socket = LingeringSocket { stream, since };
        if socket.drain() && registry.deregister(&mut socket.stream).is_ok() {
            // A socket for which there is no memory is closed.
            let _ = self.push(socket);
        }
    }

    // Adds the newest. If they are too many then, the oldest is closed.
    fn push(&mut self, socket: LingeringSocket) -> Result<(), AllocError>
        ensures newest { OnOk result (self.new.sockets.items
            ≡ with_newest socket self.old.sockets.items) }
        ensures full { OnErr result (self.new.sockets.items ≡ self.old.sockets.items) }
        ensures room { OnErr result (vec_capacity self.old.sockets ≤ length self.old.sockets.items) }
    {
        self.sockets.push(socket)?;
        if self.sockets.len() > MOST_LINGERING {
            self.sockets.remove(0);
        }
        Ok(())
    }

    /// Reads each once, and closes those whose peers have closed them or whose time is over.
    pub(crate) fn read(&mut self, now: Instant)
        ensures { AreRead now self.old.sockets.items self.new.sockets.items }
    {
        self.sockets.retain(|socket| socket.stays(now));
    }

    /// Returns how long a rest may be, of one that is so long at most: while sockets linger it is
    /// short, so that they are read.
    pub(crate) fn longest_rest(&self, most: Duration) -> Duration
        ensures { as_nanos result ≡ longest_rest (as_nanos most) self.now.sockets.items }
    {
        let pause = Duration::from_millis(PAUSE);
        if self.sockets.is_empty() || most.as_nanos() <= pause.as_nanos() {
            return most;
        }
        pause
    }
}
