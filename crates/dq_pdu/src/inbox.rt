//! A stream that is taken in pieces.
ghost use Rattle.std.specs.Prelude.{◌≡◌, List, ℕ, ◌++◌, [], ◌↔◌, IfOk, IfErr, OnOk, OnErr, IsErrOf, IsOk, IsOkUnless, ◌<◌, ◌+◌, length};
ghost use Rattle.dq_pdu.specs.Stream.{pdus_in};
ghost use Rattle.dq_pdu.specs.Holding.{inbox_holding};
ghost use Rattle.dq_pdu.specs.Inboxes.{InboxAfter, inbox_octets};
ghost use Rattle.dq_pdu.specs.Numbers.{longest_body, pdu_header};

use crate::fault::{InboxError, PduFault};
use crate::numbers::{LONGEST_BODY, PDU_HEADER};
use crate::pdu::Pdu;
use crate::stream::{cut_front, pdus_of};
use dq_list::Listed;
use std::alloc::{AllocError, Global};
use std::marker::Model;
use std::mem;

/// The most room that is kept for another stream, in octets: that of two PDUs of the greatest length.
const MOST_ROOM: usize = 2 * (PDU_HEADER + LONGEST_BODY);

/// The state that an inbox holds between two pieces.
#[derive(Drop)]
pub(crate) enum InboxState {
    /// The octets after the last PDU.
    Reading(Listed<u8>),
    /// The stream has a fault.
    Stopped(PduFault),
    /// Memory ran out.
    Spent,
}

/// Takes a stream in pieces and gives its PDUs (PS3.8 section 9.3).
#[derive(Drop)]
pub struct Inbox {
    alloc: Global,
    state: InboxState,
}

impl Model for Inbox {
    ghost use Rattle.dq_pdu.specs.declared.inbox.InboxState.{InboxState};
    ghost use Rattle.dq_pdu.specs.Holding.{HoldsPart};

    ghost Value = { InboxState };

    ghost view = { λ a. a.state };

    ghost invariant = { λ a. HoldsPart a.state };
}

/// The additions of a piece to a stream: the PDUs that it completed, and the fault after them.
#[derive(Drop)]
pub struct Fed {
    pub pdus: Listed<Pdu>,
    pub fault: Option<PduFault>,
}

impl Inbox {
    /// An inbox that has read nothing. It takes no memory.
    #[tactic(auto, unfolding(crate::specs::Stream::pdus_within, crate::specs::PduReader::first_pdu))]
    pub fn new(alloc: Global) -> Self
        ensures { InboxAfter [] result }
    {
        Inbox {
            alloc,
            state: InboxState::Reading(Listed::empty(alloc)),
        }
    }

    /// Resets the inbox for another stream: it has read nothing. It takes no memory, and keeps its
    /// room where that is for no more than two PDUs of the greatest length.
    #[tactic(auto, unfolding(crate::specs::Stream::pdus_within, crate::specs::PduReader::first_pdu))]
    pub fn reset(&mut self)
        ensures { InboxAfter [] self.new }
    {
        let rest = match mem::replace(&mut self.state, InboxState::Spent) {
            InboxState::Reading(rest) => rest.into_inner(),
            InboxState::Stopped(_) | InboxState::Spent => Vec::new(self.alloc),
        };
        self.state = InboxState::Reading(Listed::from_inner(emptied(self.alloc, rest)));
    }

    /// Takes the next piece of the stream. However a stream is cut into pieces, their PDUs are
    /// those of the stream. It takes time in proportion to the octets, however small the pieces
    /// are.
    ///
    /// `NoMemory` where memory ran out, and `Spent` from then on.
    pub fn feed(&mut self, piece: &[u8]) -> Result<Fed, InboxError>
        ensures pdus { (stream : List ℕ) → InboxAfter stream self.old → IfOk result (λ fed.
            ((pdus_in (stream ++ piece.now)).list ≡ (pdus_in stream).list ++ fed.pdus)
            × ((pdus_in (stream ++ piece.now)).fault ≡ fed.fault)) }
        ensures stands { (stream : List ℕ) → InboxAfter stream self.old
            → OnOk result (InboxAfter (stream ++ piece.now) self.new) }
        // The rest that is held and the piece after it.
        ensures exact { (rest : List ℕ) → self.old ≡ InboxState.Reading rest → IfOk result (λ fed.
            ((pdus_in (rest ++ piece.now)).list ≡ fed.pdus)
            × ((pdus_in (rest ++ piece.now)).fault ≡ fed.fault)
            × (self.new ≡ inbox_holding (rest ++ piece.now))) }
        // A fault stays, and no PDU comes after it.
        ensures stopped { (fault : PduFault) → self.old ≡ InboxState.Stopped fault
            → IfOk result (λ fed. (fed.pdus ≡ []) × (fed.fault ≡ Some fault)) }
        ensures stays { (fault : PduFault) → self.old ≡ InboxState.Stopped fault
            → IsOk result × (self.new ≡ InboxState.Stopped fault) }
        // No octets take no memory.
        ensures quiet { piece.now ≡ [] → IsOkUnless result InboxError.Spent }
        ensures spent { IsErrOf result InboxError.Spent ↔ (self.old ≡ InboxState.Spent) }
        ensures not_spent { (stream : List ℕ) → InboxAfter stream self.old
            → IfErr result (λ e. e ≡ InboxError.NoMemory) }
        ensures err { OnErr result (self.new ≡ InboxState.Spent) }
        // Whatever it was fed, it holds less than a PDU of the greatest length.
        ensures few { length (inbox_octets self.new) < pdu_header + longest_body }
    {
        match mem::replace(&mut self.state, InboxState::Spent) {
            InboxState::Spent => Err(InboxError::Spent),
            InboxState::Stopped(fault) => {
                self.state = InboxState::Stopped(fault);
                let pdus = Listed::empty(self.alloc);
                Ok(Fed {
                    pdus,
                    fault: Some(fault),
                })
            }
            InboxState::Reading(rest) => {
                if piece.is_empty() {
                    self.state = InboxState::Reading(rest);
                    let pdus = Listed::empty(self.alloc);
                    return Ok(Fed { pdus, fault: None });
                }
                let (held, fed) = read_on(self.alloc, rest, piece)?;
                self.state = held;
                Ok(fed)
            }
        }
    }
}

/// The room of octets with nothing in it, or none where it is more than is kept.
fn emptied(alloc: Global, mut octets: Vec<u8>) -> Vec<u8>
    ensures { result.items ≡ [] }
{
    if octets.capacity() > MOST_ROOM {
        return Vec::new(alloc);
    }
    octets.clear();
    octets
}

/// Reads a rest and the piece after it, and gives what is held from then on.
fn read_on(alloc: Global, rest: Listed<u8>, piece: &[u8]) -> Result<(InboxState, Fed), AllocError>
    ensures held { IfOk result (λ x. x.0 ≡ inbox_holding (rest ++ piece.now)) }
    ensures fed { IfOk result (λ x. ((pdus_in (rest ++ piece.now)).list ≡ x.1.pdus)
        × ((pdus_in (rest ++ piece.now)).fault ≡ x.1.fault)) }
{
    let mut octets = rest.into_inner();
    octets.extend_from_slice(piece)?;
    let (pdus, fault, left) = pdus_of(alloc, &octets)?;
    let count = octets.len() - left.len();
    let pdus = Listed::from_inner(pdus);
    let held = match fault {
        Some(fault) => InboxState::Stopped(fault),
        None => {
            cut_front(&mut octets, count);
            InboxState::Reading(Listed::from_inner(octets))
        }
    };
    Ok((held, Fed { pdus, fault }))
}
