//! The calls of wires, with what was answered.
use dq_core::Titles;
use dq_list::Listed;
use thiserror::Error;

/// A call on a wire failed. Why, nobody is told.
#[derive(Clone, Copy, Debug, PartialEq, Eq, Error)]
#[error("the wire failed")]
pub struct WireFault;

/// The result of a read.
#[derive(Clone, Copy, Debug, PartialEq, Eq)]
pub enum ReadTurn {
    /// So many octets, at the beginning of the buffer.
    Got(usize),
    /// Nothing has come yet.
    Nothing,
    /// The peer sends no more.
    Ended,
}

/// How far the association on a connection is: the titles of its request, once that is whole, and
/// whether its last PDU was answered.
#[derive(Clone, Copy)]
pub struct Progress {
    pub titles: Option<Titles>,
    pub is_over: bool,
}

/// The outcome of a read, with the octets that came.
#[derive(Drop)]
pub enum ReadOutcome {
    Octets(Listed<u8>),
    Nothing,
    /// The peer sends no more.
    Ended,
    /// The read failed.
    Failed,
}

/// A call of wires with its answer. A place is where a connection is held among the wires.
#[derive(Drop)]
pub enum Call {
    /// A connection was asked for: the place of the one that came, if one did.
    Accept(Result<Option<usize>, WireFault>),
    /// Octets were asked for, so many at most.
    Read {
        place: usize,
        room: usize,
        came: ReadOutcome,
    },
    /// Octets were offered: how many of them were taken, from the first on.
    Write {
        place: usize,
        octets: Listed<u8>,
        taken: Result<usize, WireFault>,
    },
    /// The connection was given up.
    Shut {
        place: usize,
        answer: Result<(), WireFault>,
    },
}
