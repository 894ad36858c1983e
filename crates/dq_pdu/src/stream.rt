//! The PDUs of octets, read one after the other.
ghost use Rattle.std.specs.Prelude.{◌≡◌, ◌≤◌, ◌-◌, length, drop, IfOk, vec_len};
ghost use Rattle.dq_pdu.specs.Stream.{pdus_in};

use crate::fault::PduFault;
use crate::pdu::Pdu;
use crate::pdu_reader::{FirstPdu, first_pdu_of};
use std::alloc::{AllocError, Global};

/// The PDUs that octets begin with, the fault after them, and the octets that are left.
pub(crate) fn pdus_of(
    alloc: Global,
    octets: &[u8],
) -> Result<(Vec<Pdu>, Option<PduFault>, &[u8]), AllocError>
    ensures pdus { IfOk result (λ found. pdus_in octets.now
        ≡ record { list = found.0.items; rest = found.2.now; fault = found.1 }) }
    ensures end { IfOk result (λ found. (length found.2.now ≤ length octets.now)
        × (found.2.now ≡ drop (length octets.now - length found.2.now) octets.now)) }
{
    let mut pdus = Vec::new(alloc);
    let mut rest = octets;
    'pdus: loop {
        match first_pdu_of(alloc, rest)? {
            FirstPdu::Partial => return Ok((pdus, None, rest)),
            FirstPdu::Faulty(fault) => return Ok((pdus, Some(fault), rest)),
            FirstPdu::Whole(pdu, count) => {
                pdus.push(pdu)?;
                rest = rest.split_at(count).1;
            }
        }
    }
}

/// Takes so many octets off the front.
pub(crate) fn cut_front(octets: &mut Vec<u8>, count: usize)
    requires { count ≤ vec_len octets.old }
    ensures { octets.new.items ≡ drop count octets.old.items }
{
    let _ = octets.drain(..count);
}
