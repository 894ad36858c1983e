//! The ends of associations.
ghost use Rattle.std.specs.Prelude.{◌≡◌, Some};
ghost use Rattle.std.specs.Option.{ForSome};
ghost use Rattle.dq_pdu.specs.Writing.{IsWritable};
ghost use Rattle.dq_assoc.specs.declared.association.State.TheVariants as state;
ghost use Rattle.dq_assoc.specs.declared.association.Verdict.TheVariants as verdict;
ghost use Rattle.dq_assoc.specs.AssociationEnds.{user_abort, provider_abort, pdu_of_end};
ghost use Rattle.dq_assoc.specs.Inputs.{closing_input, misplaced_input};
ghost use Rattle.dq_assoc.specs.Roles.{role_of};
ghost use Rattle.dq_assoc.specs.Table.{line};

use crate::negotiation::Rejection;
use dq_pdu::Pdu;

/// The side that aborts an association.
#[derive(Clone, Copy, Debug, PartialEq, Eq)]
pub enum Party {
    Peer,
    Server,
}

/// The end of an association (PS3.8 section 9.2).
#[derive(Clone, Copy, Debug, PartialEq, Eq)]
pub enum AssociationEnd {
    /// Its request was rejected (PS3.8 section 9.3.4).
    Rejected(Rejection),
    /// It was released (PS3.8 section 9.3.7).
    Released,
    /// One side aborted it, with a source and a reason (PS3.8 section 9.3.8).
    Aborted(Party, u8, u8),
}

/// The sources of an abort (PS3.8 table 9-26).
const BY_USER: u8 = 0x00;

const BY_PROVIDER: u8 = 0x02;

/// The reasons of an abort, all but the first of the provider (PS3.8 table 9-26).
const NOT_SPECIFIED: u8 = 0x00;

pub(crate) const UNRECOGNIZED_PDU: u8 = 0x01;

pub(crate) const UNEXPECTED_PDU: u8 = 0x02;

pub(crate) const INVALID_PARAMETER: u8 = 0x06;

impl AssociationEnd {
    /// AA-1: the abort of what has no place before a request.
    pub(crate) fn user_abort() -> Self
        ensures { result ≡ user_abort }
    {
        AssociationEnd::Aborted(Party::Server, BY_USER, NOT_SPECIFIED)
    }

    /// AA-8: the abort of an open association.
    pub(crate) fn provider_abort(reason: u8) -> Self
        ensures { result ≡ provider_abort reason }
    {
        AssociationEnd::Aborted(Party::Server, BY_PROVIDER, reason)
    }

    /// Returns the end that a PDU in the place of a request brings.
    pub(crate) fn before_request(pdu: &Pdu) -> Self
        ensures { Some result
            ≡ (line state.Waiting verdict.Accept (misplaced_input (role_of pdu.now))).end }
    {
        match pdu {
            // AA-2
            Pdu::Abort(..) => AssociationEnd::by_pdu(pdu),
            _ => AssociationEnd::user_abort(),
        }
    }

    /// Returns the end that a PDU without PDVs brings to an open association.
    pub(crate) fn by_pdu(pdu: &Pdu) -> Self
        ensures { Some result
            ≡ (line state.Open verdict.Accept (closing_input (role_of pdu.now))).end }
    {
        match pdu {
            // AR-2 and AR-4
            Pdu::ReleaseRq => AssociationEnd::Released,
            // AA-3
            Pdu::Abort(source, reason) => AssociationEnd::Aborted(Party::Peer, *source, *reason),
            _ => AssociationEnd::provider_abort(UNEXPECTED_PDU),
        }
    }

    /// Returns the PDU that tells the peer of the end; after its own abort there is none.
    #[tactic(auto, using(crate::proofs::ShortPdus::short_pdus))]
    pub(crate) fn pdu(self) -> Option<Pdu>
        ensures pdu { result ≡ pdu_of_end self }
        ensures fits { ForSome result IsWritable }
    {
        match self {
            AssociationEnd::Rejected(rejection) => {
                let (result, source, reason) = rejection.numbers();
                Some(Pdu::Reject(result, source, reason))
            }
            AssociationEnd::Released => Some(Pdu::ReleaseRp),
            AssociationEnd::Aborted(Party::Peer, _, _) => None,
            AssociationEnd::Aborted(Party::Server, source, reason) => {
                Some(Pdu::Abort(source, reason))
            }
        }
    }
}
