//! The agreement of an association when its request is accepted (PS3.8 section 7.1.1).
ghost use Rattle.std.specs.Prelude.{◌≡◌, map, IfOk};
ghost use Rattle.dq_dimse.specs.Sending.{IsPduLimit};
ghost use Rattle.dq_assoc.specs.PeerLimits.{limit_of_length};
ghost use Rattle.dq_assoc.specs.Holding.{accepted_by, assembler_context};
ghost use Rattle.dq_assoc.specs.Negotiation.{context_of};

use crate::classes::SopClass;
use dq_dataset::Syntax;
use dq_dimse::Accepted;
use dq_list::Listed;
use std::alloc::{AllocError, Global};
use std::marker::Model;

/// The longest PDU that a peer takes, in octets: 0 is no limit, and any other leaves room for the
/// header of a PDV and a fragment of two octets (PS3.8 annex D.1).
#[derive(Clone, Copy, Debug)]
pub struct PeerLimit {
    octets: u32,
}

impl Model for PeerLimit {
    ghost use Rattle.std.specs.Prelude.{ℕ, ◌≡◌, true, Some};
    ghost use Rattle.dq_assoc.specs.PeerLimits.{has_room_for_data};

    ghost Value = { ℕ };

    ghost view = { λ a. a.octets };

    ghost invariant = { λ a. has_room_for_data (Some a.octets) ≡ true };

    ghost inverse = { λ octets. record { octets = octets } };
}

/// The shortest PDU that carries data.
const LEAST_LIMIT: u32 = 8;

impl PeerLimit {
    /// The limit of a maximum length (51H), if it leaves room. None is no limit.
    pub fn of(maximum: Option<u32>) -> Option<Self>
        ensures { result ≡ limit_of_length maximum }
    {
        match maximum {
            None => Some(PeerLimit { octets: 0 }),
            Some(octets) if octets == 0 || octets >= LEAST_LIMIT => Some(PeerLimit { octets }),
            Some(_) => None,
        }
    }

    /// Returns the limit in octets, where 0 is no limit.
    pub fn octets(&self) -> u32
        ensures same { result ≡ self.now }
        ensures room { IsPduLimit result }
    {
        self.octets
    }
}

/// A presentation context that was accepted.
#[derive(Clone, Copy, Debug, PartialEq, Eq)]
pub struct AcceptedContext {
    /// Its id.
    pub id: u8,
    pub class: SopClass,
    /// The transfer syntax of its data sets.
    pub syntax: Syntax,
}

impl AcceptedContext {
    /// Returns what an assembler knows of it.
    fn accepted(&self) -> Accepted
        ensures { result ≡ assembler_context self.now }
    {
        Accepted {
            id: self.id,
            syntax: self.syntax,
        }
    }
}

/// The agreement of an open association.
#[derive(Drop)]
pub struct Agreement {
    /// The contexts that were accepted, in the request's order.
    pub contexts: Listed<AcceptedContext>,
    /// The called title, as it was received.
    pub called: [u8; 16],
    pub limit: PeerLimit,
}

impl Agreement {
    /// The context with the id, if it was accepted.
    pub fn context(&self, id: u8) -> Option<AcceptedContext>
        ensures { result ≡ context_of self.now id }
    {
        let contexts = self.contexts.as_slice();
        contexts.iter().find(|context| context.id == id).copied()
    }

    /// The contexts that an assembler is made for.
    pub(crate) fn accepted(&self, alloc: Global) -> Result<Listed<Accepted>, AllocError>
        ensures { IfOk result (λ accepted. accepted ≡ accepted_by self.now) }
    {
        accepted_contexts(alloc, self.contexts.as_slice())
    }
}

fn accepted_contexts(
    alloc: Global,
    contexts: &[AcceptedContext],
) -> Result<Listed<Accepted>, AllocError>
    ensures { IfOk result (λ accepted. accepted ≡ map assembler_context contexts.now) }
{
    let mut accepted = Listed::empty(alloc);
    for context in contexts {
        accepted.push(context.accepted())?;
    }
    Ok(accepted)
}
