//! PDUs as they are written (PS3.8 section 9.3).
ghost use Rattle.std.specs.Prelude.{◌≡◌, ◌≤◌, ◌+◌, ◌<◌, ◌++◌, ◌∷◌, length, Some, IsTrue, ◌↔◌, IfOk, OnOk};
ghost use Rattle.std.specs.Int.{w32, to_be_bytes};
ghost use Rattle.dq_pdu.specs.Numbers.{longest_body, pdv_header};
ghost use Rattle.dq_pdu.specs.Writing.{application_context, maximum_length, request_information, implementation, accept_information, request_octets as request_body, accept as accept_body, kind, body, pdu_octets, p_data, is_writable, IsWritable};
ghost use Rattle.dq_pdu.specs.Widths.{capped_count, AreWide, HasWidths};

use crate::numbers::{
    ITEM_HEADER, LONGEST_BODY, MAXIMUM_LENGTH_ITEM, PDU_HEADER, PDV_HEADER, SHORT_BODY, item_type,
    pdu_type,
};
use crate::parts::{put_item, put_item_header, put_parts, put_pdv, size_of_parts};
use crate::pdu::{Accept, Pdu, Request};
use crate::rules::has_parts;
use dq_list::Listed;
use std::alloc::{AllocError, Global};

/// How many octets a name takes as an item, or the greatest `usize`.
fn size_of_name(name: &Option<Listed<u8>>) -> usize
    ensures { result ≡ capped_count (length (application_context name.now)) }
{
    match name {
        None => 0,
        Some(name) => name.len().saturating_add(ITEM_HEADER),
    }
}

fn size_of_request(request: &Request) -> usize
    ensures size { result ≡ capped_count (length (request_body request.now)) }
    ensures widths { let r = request.now in
        AreWide r.version r.called r.calling r.reserved r.maximum_length }
{
    let version = request.version.to_be_bytes().len() + 2;
    let titles = request.called.len() + request.calling.len();
    let fixed = version + titles + request.reserved.len();
    let name = size_of_name(&request.application_context);
    let contexts = size_of_parts(request.contexts.as_slice());
    let information = match request.maximum_length {
        None => 0,
        Some(_maximum) => ITEM_HEADER + MAXIMUM_LENGTH_ITEM,
    };
    contexts
        .saturating_add(name)
        .saturating_add(fixed + information)
}

fn size_of_accept(accept: &Accept) -> usize
    ensures size { result ≡ capped_count (length (accept_body accept.now)) }
    ensures widths { let a = accept.now in
        AreWide a.version a.called a.calling a.reserved a.maximum_length }
{
    let version = accept.version.to_be_bytes().len() + 2;
    let titles = accept.called.len() + accept.calling.len();
    let fixed = version + titles + accept.reserved.len();
    let name = size_of_name(&accept.application_context);
    let contexts = size_of_parts(accept.contexts.as_slice());
    let information = match accept.maximum_length {
        None => ITEM_HEADER + IMPLEMENTATION_ITEMS,
        Some(_maximum) => ITEM_HEADER + MAXIMUM_LENGTH_ITEM + IMPLEMENTATION_ITEMS,
    };
    contexts
        .saturating_add(name)
        .saturating_add(fixed + information)
}

/// How many octets a PDU's body takes, or the greatest `usize`.
fn size_of_body(pdu: &Pdu) -> usize
    ensures size { result ≡ capped_count (length (body pdu.now)) }
    ensures widths { HasWidths pdu.now }
{
    match pdu {
        Pdu::Request(request) => size_of_request(request),
        Pdu::Accept(accept) => size_of_accept(accept),
        Pdu::PData(values) => size_of_parts(values.as_slice()),
        Pdu::Reject(..) | Pdu::ReleaseRq | Pdu::ReleaseRp | Pdu::Abort(..) => SHORT_BODY,
    }
}

/// Whether the PDU has a spelling: identifiers end without padding, contexts have odd ids of their
/// own and what they need, and the body is no longer than 65,536 octets (PS3.8 section 9.3). It
/// takes no memory.
pub fn writable(pdu: &Pdu) -> bool
    ensures test { result ≡ is_writable pdu.now }
    ensures means { IsTrue result ↔ IsWritable pdu.now }
{
    has_parts(pdu) && size_of_body(pdu) <= LONGEST_BODY
}

fn put_name(out: &mut Vec<u8>, name: &Option<Listed<u8>>) -> Result<(), AllocError>
    requires { length (application_context name.now) ≤ longest_body }
    ensures { OnOk result (out.new.items ≡ out.old.items ++ application_context name.now) }
{
    match name {
        None => Ok(()),
        Some(name) => put_item(out, item_type::APPLICATION_CONTEXT, name.as_slice()),
    }
}

/// Writes the maximum length as an item (PS3.8 annex D.1).
fn put_maximum_length(out: &mut Vec<u8>, maximum: u32) -> Result<(), AllocError>
    ensures { OnOk result (out.new.items ≡ out.old.items ++ maximum_length (Some maximum)) }
{
    put_item(out, item_type::MAXIMUM_LENGTH, &maximum.to_be_bytes())
}

fn put_request_information(out: &mut Vec<u8>, maximum: Option<u32>) -> Result<(), AllocError>
    ensures { OnOk result (out.new.items ≡ out.old.items ++ request_information maximum) }
{
    match maximum {
        None => Ok(()),
        Some(maximum) => {
            put_item_header(out, item_type::USER_INFORMATION, MAXIMUM_LENGTH_ITEM)?;
            put_maximum_length(out, maximum)
        }
    }
}

/// This implementation's class (PS3.7 annex D.3.3.2.1).
const IMPLEMENTATION_CLASS_UID: &[u8] = b"2.25.2718281828";

/// The name of this implementation's version (PS3.7 annex D.3.3.2.3).
const IMPLEMENTATION_VERSION_NAME: &[u8] = b"DQARCHIVE1";

/// The octets of both as items.
const IMPLEMENTATION_ITEMS: usize = 33;

/// Names this implementation (PS3.7 annex D.3.3.2).
fn put_implementation(out: &mut Vec<u8>) -> Result<(), AllocError>
    ensures { OnOk result (out.new.items ≡ out.old.items ++ implementation) }
{
    let class = item_type::IMPLEMENTATION_CLASS_UID;
    put_item(out, class, IMPLEMENTATION_CLASS_UID)?;
    let name = item_type::IMPLEMENTATION_VERSION_NAME;
    put_item(out, name, IMPLEMENTATION_VERSION_NAME)
}

fn put_accept_information(out: &mut Vec<u8>, maximum: Option<u32>) -> Result<(), AllocError>
    ensures { OnOk result (out.new.items ≡ out.old.items ++ accept_information maximum) }
{
    match maximum {
        None => {
            put_item_header(out, item_type::USER_INFORMATION, IMPLEMENTATION_ITEMS)?;
            put_implementation(out)
        }
        Some(maximum) => {
            let size = MAXIMUM_LENGTH_ITEM + IMPLEMENTATION_ITEMS;
            put_item_header(out, item_type::USER_INFORMATION, size)?;
            put_maximum_length(out, maximum)?;
            put_implementation(out)
        }
    }
}

fn put_request(out: &mut Vec<u8>, request: &Request) -> Result<(), AllocError>
    requires { length (request_body request.now) ≤ longest_body }
    ensures { OnOk result (out.new.items ≡ out.old.items ++ request_body request.now) }
{
    out.extend_from_slice(&request.version.to_be_bytes())?;
    out.extend_from_slice(&[0, 0])?;
    out.extend_from_slice(&request.called)?;
    out.extend_from_slice(&request.calling)?;
    out.extend_from_slice(&request.reserved)?;
    put_name(out, &request.application_context)?;
    put_parts(out, request.contexts.as_slice())?;
    put_request_information(out, request.maximum_length)
}

fn put_accept(out: &mut Vec<u8>, accept: &Accept) -> Result<(), AllocError>
    requires { length (accept_body accept.now) ≤ longest_body }
    ensures { OnOk result (out.new.items ≡ out.old.items ++ accept_body accept.now) }
{
    out.extend_from_slice(&accept.version.to_be_bytes())?;
    out.extend_from_slice(&[0, 0])?;
    out.extend_from_slice(&accept.called)?;
    out.extend_from_slice(&accept.calling)?;
    out.extend_from_slice(&accept.reserved)?;
    put_name(out, &accept.application_context)?;
    put_parts(out, accept.contexts.as_slice())?;
    put_accept_information(out, accept.maximum_length)
}

fn put_body(out: &mut Vec<u8>, pdu: &Pdu) -> Result<(), AllocError>
    requires { length (body pdu.now) ≤ longest_body }
    ensures { OnOk result (out.new.items ≡ out.old.items ++ body pdu.now) }
{
    match pdu {
        Pdu::Request(request) => put_request(out, request),
        Pdu::Accept(accept) => put_accept(out, accept),
        Pdu::Reject(result, source, reason) => {
            out.extend_from_slice(&[0, *result, *source, *reason])
        }
        Pdu::PData(values) => put_parts(out, values.as_slice()),
        Pdu::ReleaseRq | Pdu::ReleaseRp => out.extend_from_slice(&[0; SHORT_BODY]),
        Pdu::Abort(source, reason) => out.extend_from_slice(&[0, 0, *source, *reason]),
    }
}

/// The type of a PDU (PS3.8 section 9.3.1).
fn kind_of(pdu: &Pdu) -> u8
    ensures { result ≡ kind pdu.now }
{
    match pdu {
        Pdu::Request(_) => pdu_type::A_ASSOCIATE_RQ,
        Pdu::Accept(_) => pdu_type::A_ASSOCIATE_AC,
        Pdu::Reject(..) => pdu_type::A_ASSOCIATE_RJ,
        Pdu::PData(_) => pdu_type::P_DATA_TF,
        Pdu::ReleaseRq => pdu_type::A_RELEASE_RQ,
        Pdu::ReleaseRp => pdu_type::A_RELEASE_RP,
        Pdu::Abort(..) => pdu_type::A_ABORT,
    }
}

/// Writes a PDU's header: its type, a reserved octet and the length of its body (PS3.8 section
/// 9.3.1).
fn put_header(out: &mut Vec<u8>, kind: u8, size: usize) -> Result<(), AllocError>
    requires { size ≤ longest_body }
    ensures { OnOk result (out.new.items ≡ out.old.items ++ kind ∷ 0 ∷ to_be_bytes w32 size) }
{
    out.extend_from_slice(&[kind, 0])?;
    out.extend_from_slice(&(size as u32).to_be_bytes())
}

/// The octets of a PDU: the one spelling that is written, with zero in the reserved octets and
/// items by rising type (PS3.8 section 9.3). An `Err` where memory ran out.
#[tactic(auto, using(crate::proofs::Spelled::short_body))]
pub fn write_pdu(alloc: Global, pdu: &Pdu) -> Result<Vec<u8>, AllocError>
    requires { IsWritable pdu.now }
    ensures { IfOk result (λ octets. octets.items ≡ pdu_octets pdu.now) }
{
    let size = size_of_body(pdu);
    let mut out = Vec::with_capacity(alloc, size + PDU_HEADER)?;
    put_header(&mut out, kind_of(pdu), size)?;
    put_body(&mut out, pdu)?;
    Ok(out)
}

/// Writes a P-DATA-TF PDU of one PDV at the end: what `write_pdu` writes of it, without a `Pdu`.
/// The fragment has at most 65,530 octets (PS3.8 section 9.3.5).
pub fn append_p_data(
    out: &mut Vec<u8>,
    context: u8,
    command: bool,
    last: bool,
    fragment: &[u8],
) -> Result<(), AllocError>
    requires { length fragment.now + pdv_header ≤ longest_body }
    ensures { OnOk result (out.new.items
        ≡ out.old.items ++ pdu_octets (p_data context command last fragment.now)) }
{
    put_header(out, pdu_type::P_DATA_TF, fragment.len() + PDV_HEADER)?;
    put_pdv(out, context, command, last, fragment)
}
