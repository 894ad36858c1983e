//! A connection that is held over wires.
ghost use Rattle.std.specs.Prelude.{◌≡◌, ◌≤◌, ◌+◌, [], length, drop, true, false, IsTrue, MatchBool, IfErr, OnOk};
ghost use Rattle.dq_wires.specs.HeldConnections.{new_held, with_reply, has_unsent};
ghost use Rattle.dq_wires.specs.ConnectionActions.{IsSending};

use crate::fault::TurnFault;
use dq_core::Reply;
use dq_list::Listed;
use std::alloc::Global;
use std::marker::Model;

/// A connection: its place among the wires, its number, how many octets were heard on it, and what
/// was answered. Of the octets answered the first are written.
#[derive(Drop)]
pub(crate) struct ServedConnection {
    place: usize,
    number: u64,
    heard: u64,
    octets: Listed<u8>,
    written: usize,
    closed: bool,
    // Whether they are still to be offered for the first time.
    is_new: bool,
}

impl Model for ServedConnection {
    ghost use Rattle.std.specs.Prelude.{◌≤◌, length, drop};
    ghost use Rattle.dq_wires.specs.HeldConnections.{HeldConnection};

    ghost Value = { HeldConnection };

    ghost view = { λ w. record {
      place = w.place;
      number = w.number;
      heard = w.heard;
      unsent = drop w.written w.octets;
      closed = w.closed;
    } };

    ghost invariant = { λ w. w.written ≤ length w.octets };
}

impl ServedConnection {
    /// One that has just come.
    pub(crate) fn new(alloc: Global, place: usize, number: u64) -> Self
        ensures { result ≡ new_held place number }
    {
        ServedConnection {
            place,
            number,
            heard: 0,
            octets: Listed::empty(alloc),
            written: 0,
            closed: false,
            is_new: false,
        }
    }

    pub(crate) fn place(&self) -> usize
        ensures { result ≡ self.now.place }
    {
        self.place
    }

    pub(crate) fn number(&self) -> u64
        ensures { result ≡ self.now.number }
    {
        self.number
    }

    /// How many octets were heard on it.
    pub(crate) fn heard(&self) -> u64
        ensures { result ≡ self.now.heard }
    {
        self.heard
    }

    /// Counts octets that were heard. A count beyond 64 bits has no room.
    pub(crate) fn hear(&mut self, count: usize) -> Result<(), TurnFault>
        ensures heard { OnOk result
            (self.new ≡ record self.old { heard = self.old.heard + count }) }
        ensures fault { IfErr result (λ fault. fault ≡ TurnFault.NoMemory) }
    {
        let Some(heard) = self.heard.checked_add(count as u64) else {
            return Err(TurnFault::NoMemory);
        };
        self.heard = heard;
        Ok(())
    }

    /// Whether a reply closed it.
    pub(crate) fn is_closed(&self) -> bool
        ensures { result ≡ self.now.closed }
    {
        self.closed
    }

    /// The octets that were answered and are not yet written.
    pub(crate) fn unsent(&self) -> &[u8]
        ensures { result.now ≡ self.now.unsent }
    {
        &self.octets.as_slice()[self.written..]
    }

    /// Whether there are any that were not yet offered.
    pub(crate) fn is_new(&self) -> bool
        ensures { IsTrue result → has_unsent self.now ≡ true }
    {
        self.is_new && self.is_sending()
    }

    /// Whether there are any.
    pub(crate) fn is_sending(&self) -> bool
        ensures sends { MatchBool result (IsSending self.now) (self.now.unsent ≡ []) }
        ensures unsent { result ≡ has_unsent self.now }
    {
        !self.unsent().is_empty()
    }

    /// The first of them were written.
    pub(crate) fn wrote(&mut self, count: usize)
        requires { count ≤ length self.old.unsent }
        ensures { self.new ≡ record self.old { unsent = drop count self.old.unsent } }
    {
        let length = self.octets.len();
        prove!(count <= length - self.written);
        self.written += count;
        self.is_new = false;
    }

    /// Keeps what is answered, where all was written that was answered before.
    pub(crate) fn answer(&mut self, reply: Reply)
        requires sent { self.old.unsent ≡ [] }
        requires open { self.old.closed ≡ false }
        ensures { self.new ≡ with_reply self.old reply }
    {
        if let Reply::Octets {
            conn: _,
            octets,
            close,
        } = reply
        {
            self.octets = octets;
            self.written = 0;
            self.closed = close;
            self.is_new = true;
        }
    }
}
