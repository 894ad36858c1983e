//! Connections that the server's side gives up.
ghost use Rattle.std.specs.Prelude.{◌≡◌, ℕ, Option};
ghost use Rattle.std.specs.declared.net.socket_addr.SocketAddr.{SocketAddr as Address};
ghost use Rattle.dq_wires.specs.declared.given_up.GivenUp.{GivenUp as End};

use std::fmt;
use std::net::SocketAddr;
use std::time::Duration;

/// When connections are given up: how long the ARTIM timer runs (PS3.8 section 9.1.5), how long no
/// octet may pass in either direction, and how many connections of one address there may be; of
/// `None` never.
#[derive(Clone, Copy, Default)]
pub struct Limits {
    pub artim: Option<Duration>,
    pub quiet: Option<Duration>,
    pub peer_connections: Option<usize>,
}

/// The reason why a connection is given up.
#[derive(Clone, Copy, PartialEq, Eq)]
pub enum Reason {
    /// The ARTIM timer ran out (PS3.8 section 9.1.5).
    Artim,
    /// No octet passed for too long.
    Quiet,
    /// There are as many of its address as may be.
    PeerConnections,
}

/// A connection that was given up: its peer's address where it has one, and the reason.
#[derive(Clone, Copy, PartialEq, Eq)]
pub struct GivenUp {
    pub peer: Option<SocketAddr>,
    pub reason: Reason,
}

/// Knows the peers of connections, and may give up connections by itself.
pub trait GivesUp {
    /// The peer's address at each place, where it is known.
    ghost peer_at: { Self → ℕ → Option Address };

    /// Which connections were given up, by their places.
    ghost given_up_at: { Self → ℕ → Option End };

    /// The connection that was closed as it came.
    ghost turned_away_last: { Self → Option End };

    /// The address of the peer at a place, if it is known.
    fn peer(&self, place: usize) -> Option<SocketAddr>
        ensures { result ≡ peer_at self.now place };

    /// The connection at a place, if it was given up.
    fn given_up(&self, place: usize) -> Option<GivenUp>
        ensures { result ≡ given_up_at self.now place };

    /// The connection that was closed when it was last asked for one, if that was so.
    fn turned_away(&self) -> Option<GivenUp>
        ensures { result ≡ turned_away_last self.now };
}

impl fmt::Display for Reason {
    ghost use Rattle.std.specs.Prelude.{Some};
    ghost use Rattle.dq_wires.specs.LogWords.{reason_word};

    ghost output = { λ reason. Some (reason_word reason) };

    fn fmt<W: fmt::Write>(&self, f: &mut fmt::Formatter<W>) -> fmt::Result {
        f.write_str(match self {
            Reason::Artim => "artim",
            Reason::Quiet => "quiet",
            Reason::PeerConnections => "peer-connections",
        })
    }
}

impl fmt::Display for GivenUp {
    ghost use Rattle.std.specs.Prelude.{Some};
    ghost use Rattle.dq_wires.specs.LogWords.{given_up_text};

    ghost output = { λ given_up. Some (given_up_text given_up) };

    fn fmt<W: fmt::Write>(&self, f: &mut fmt::Formatter<W>) -> fmt::Result {
        match self.peer {
            Some(peer) => write!(f, "given up {peer} {}", self.reason),
            None => write!(f, "given up - {}", self.reason),
        }
    }
}
