//! The PDU that octets begin with (PS3.8 section 9.3.1), and why a body cannot be read.
ghost use Rattle.std.specs.Prelude.{◌≡◌, IfOk};
ghost use Rattle.dq_pdu.specs.declared.pdu_reader.ReadError.TheVariants.{Memory};
ghost use Rattle.dq_pdu.specs.PduReader.{first_pdu};

use crate::bodies::pdu_of;
use crate::fault::PduFault;
use crate::numbers::{LONGEST_BODY, PDU_HEADER, pdu_type};
use crate::pdu::Pdu;
use dq_list::Listed;
use std::alloc::{AllocError, AllocFailed, Global};

/// An item or sub-item: its type and its body (PS3.8 section 9.3.2).
#[derive(Drop)]
pub(crate) struct Item {
    pub kind: u8,
    pub octets: Listed<u8>,
}

/// Why a body could not be read.
#[derive(Clone, Copy)]
pub(crate) enum ReadError {
    Memory,
    Malformed,
}

impl From<AllocError> for ReadError {
    ghost from_gives = { λ _ e. e ≡ Memory };

    fn from(_e: AllocError) -> ReadError {
        ReadError::Memory
    }
}

impl<T: Drop> From<AllocFailed<T>> for ReadError {
    ghost from_gives = { λ _ e. e ≡ Memory };

    fn from(_e: AllocFailed<T>) -> ReadError {
        ReadError::Memory
    }
}

/// The beginning of octets, read as a PDU.
#[derive(Drop)]
pub(crate) enum FirstPdu {
    /// Less than a PDU.
    Partial,
    Faulty(PduFault),
    /// A PDU, and how many octets it takes.
    Whole(Pdu, usize),
}

/// Reads the beginning of octets: a PDU's type, a reserved octet, the length of its body, and its
/// body (PS3.8 section 9.3.1).
#[tactic(auto, unfolding(crate::specs::PduReader::first_pdu))]
pub(crate) fn first_pdu_of(alloc: Global, octets: &[u8]) -> Result<FirstPdu, AllocError>
    ensures { IfOk result (λ found. found ≡ first_pdu octets.now) }
{
    if octets.len() < PDU_HEADER {
        return Ok(FirstPdu::Partial);
    }
    let (header, behind) = octets.split_at(PDU_HEADER);
    if header[0] < pdu_type::A_ASSOCIATE_RQ || header[0] > pdu_type::A_ABORT {
        return Ok(FirstPdu::Faulty(PduFault::Unrecognized));
    }
    let size = u32::from_be_bytes([header[2], header[3], header[4], header[5]]) as usize;
    if size > LONGEST_BODY {
        return Ok(FirstPdu::Faulty(PduFault::TooLong));
    }
    if behind.len() < size {
        return Ok(FirstPdu::Partial);
    }
    match pdu_of(alloc, header[0], behind.split_at(size).0) {
        Ok(pdu) => Ok(FirstPdu::Whole(pdu, size + PDU_HEADER)),
        Err(ReadError::Malformed) => Ok(FirstPdu::Faulty(PduFault::Malformed)),
        Err(ReadError::Memory) => Err(AllocError),
    }
}
