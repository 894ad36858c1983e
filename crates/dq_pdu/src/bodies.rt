//! The bodies of PDUs, as they are read (PS3.8 sections 9.3.2 to 9.3.8).
ghost use Rattle.std.specs.Prelude.{◌≡◌, ◌≤◌, ◌+◌, ℕ, List, Option, length, take, drop, option_map, IfOk};
ghost use Rattle.dq_list.specs.Readers.{Gives};
ghost use Rattle.dq_pdu.specs.Numbers.{associate_fields};
ghost use Rattle.dq_pdu.specs.Octets.{parts_of, bodies, each_given, without_uid_padding};
ghost use Rattle.dq_pdu.specs.PduReader.{Fails, maximum_in, user_information_of, proposed_of, answered_of, fields_of, associate_of, request_of, accept_of, pdv_at, data_pdu_of, pdu_of};
ghost use Rattle.dq_pdu.specs.Shrinking.{pdv_shrinks};

use crate::items::{ReadPart, at_most_one, exactly_one, name_of, names_of, parts_of};
use crate::numbers::{
    ASSOCIATE_FIELDS, CONTEXT_FIELDS, PDV_FIELDS, PDV_HEADER, RESERVED_LENGTH, TITLE_LENGTH,
    item_type, pdu_type,
};
use crate::pdu::{Accept, AnsweredContext, Pdu, Pdv, ProposedContext, Request};
use crate::pdu_reader::{Item, ReadError};
use crate::rules::{Identified, are_distinct};
use dq_list::Listed;
use std::alloc::{AllocError, Global};

/// The maximum length, from the body of its item (PS3.8 annex D.1).
fn maximum_in(found: Option<&[u8]>) -> Result<Option<u32>, ReadError>
    ensures { Gives Fails (λ x. x) result (maximum_in (option_map (λ x. x.now) found.entry)) }
{
    match found {
        None => Ok(None),
        Some([a, b, c, d]) => Ok(Some(u32::from_be_bytes([*a, *b, *c, *d]))),
        Some(_) => Err(ReadError::Malformed),
    }
}

/// The maximum length that user information holds.
#[tactic(auto, unfolding(crate::specs::PduReader::user_information_of))]
fn user_information_of(alloc: Global, user: Option<&[u8]>) -> Result<Option<u32>, ReadError>
    ensures { Gives Fails (λ x. x) result
        (user_information_of (option_map (λ x. x.now) user.entry)) }
{
    match user {
        None => Ok(None),
        Some(body) => {
            let items = parts_of(alloc, body)?;
            maximum_in(at_most_one(&items, item_type::MAXIMUM_LENGTH)?)
        }
    }
}

/// A presentation context, as it is read from the body of its item.
trait Context: Identified + Drop {
    ghost context_of: { List ℕ → Option Self };

    fn read(alloc: Global, body: &[u8]) -> Result<Self, ReadError>
        ensures { Gives Fails (λ x. x) result (context_of body.now) };
}

impl Context for ProposedContext {
    ghost context_of = { proposed_of };

    #[tactic(auto, unfolding(crate::specs::PduReader::proposed_of))]
    fn read(alloc: Global, body: &[u8]) -> Result<Self, ReadError> {
        if body.len() < CONTEXT_FIELDS {
            return Err(ReadError::Malformed);
        }
        let (fields, rest) = body.split_at(CONTEXT_FIELDS);
        let items = parts_of(alloc, rest)?;
        let abstract_syntax = exactly_one(&items, item_type::ABSTRACT_SYNTAX)?;
        let transfer_syntaxes = names_of(alloc, &items, item_type::TRANSFER_SYNTAX)?;
        if fields[0] % 2 == 0 || transfer_syntaxes.is_empty() {
            return Err(ReadError::Malformed);
        }
        Ok(ProposedContext {
            id: fields[0],
            abstract_syntax: name_of(alloc, abstract_syntax)?,
            transfer_syntaxes: Listed::from_inner(transfer_syntaxes),
        })
    }
}

impl Context for AnsweredContext {
    ghost context_of = { answered_of };

    #[tactic(auto, unfolding(crate::specs::PduReader::answered_of))]
    fn read(alloc: Global, body: &[u8]) -> Result<Self, ReadError> {
        if body.len() < CONTEXT_FIELDS {
            return Err(ReadError::Malformed);
        }
        let (fields, rest) = body.split_at(CONTEXT_FIELDS);
        let items = parts_of(alloc, rest)?;
        let transfer_syntax = exactly_one(&items, item_type::TRANSFER_SYNTAX)?;
        if fields[0] % 2 == 0 {
            return Err(ReadError::Malformed);
        }
        Ok(AnsweredContext {
            id: fields[0],
            result: fields[2],
            transfer_syntax: name_of(alloc, transfer_syntax)?,
        })
    }
}

/// The contexts in the items of a type.
fn contexts_of<C: Context>(alloc: Global, items: &[Item], kind: u8) -> Result<Vec<C>, ReadError>
    ensures { Gives Fails (λ v. v.items) result (each_given C.context_of (bodies kind items.now)) }
{
    let mut contexts = Vec::new(alloc);
    for item in items {
        if item.kind == kind {
            contexts.push(C::read(alloc, item.octets.inner())?)?;
        }
    }
    Ok(contexts)
}

/// So many octets from a place on.
fn octets_at<const N: usize>(octets: &[u8], place: usize) -> [u8; N]
    requires { place + N ≤ length octets.now }
    ensures { result ≡ take N (drop place octets.now) }
{
    let mut field = [0; N];
    field.copy_from_slice(&octets[place..place + N]);
    field
}

fn application_context_of(
    alloc: Global,
    found: Option<&[u8]>,
) -> Result<Option<Listed<u8>>, AllocError>
    ensures { IfOk result (λ name.
        name ≡ option_map without_uid_padding (option_map (λ x. x.now) found.entry)) }
{
    match found {
        None => Ok(None),
        Some(octets) => Ok(Some(name_of(alloc, octets)?)),
    }
}

/// The fields that a request and an acceptance have in common (PS3.8 sections 9.3.2 and 9.3.3).
#[derive(Drop)]
pub(crate) struct Associate {
    pub version: u16,
    pub called: [u8; TITLE_LENGTH],
    pub calling: [u8; TITLE_LENGTH],
    pub reserved: [u8; RESERVED_LENGTH],
    pub application_context: Option<Listed<u8>>,
    pub maximum_length: Option<u32>,
}

/// Returns the fields that a request and an acceptance have in common, from the body and the items
/// after its fixed fields.
#[tactic(auto, unfolding(crate::specs::PduReader::fields_of))]
fn fields_of(alloc: Global, body: &[u8], items: &[Item]) -> Result<Associate, ReadError>
    requires { associate_fields ≤ length body.now }
    ensures { Gives Fails (λ x. x) result (fields_of body.now items.now) }
{
    let application = at_most_one(items, item_type::APPLICATION_CONTEXT)?;
    let user = at_most_one(items, item_type::USER_INFORMATION)?;
    let maximum_length = user_information_of(alloc, user)?;
    Ok(Associate {
        version: u16::from_be_bytes(octets_at(body, 0)),
        called: octets_at(body, 4),
        calling: octets_at(body, 20),
        reserved: octets_at(body, 36),
        application_context: application_context_of(alloc, application)?,
        maximum_length,
    })
}

/// Returns the fields that a request and an acceptance have in common, and the contexts in the
/// items of a type, from the body (PS3.8 sections 9.3.2 and 9.3.3).
#[tactic(auto, unfolding(crate::specs::PduReader::associate_of))]
fn associate_of<C: Context>(
    alloc: Global,
    body: &[u8],
    kind: u8,
) -> Result<(Associate, Vec<C>), ReadError>
    ensures { Gives Fails (λ x. (x.0, x.1.items)) result
        (associate_of C.context_of C.id_of kind body.now) }
{
    if body.len() < ASSOCIATE_FIELDS {
        return Err(ReadError::Malformed);
    }
    let items = parts_of(alloc, body.split_at(ASSOCIATE_FIELDS).1)?;
    let fields = fields_of(alloc, body, &items)?;
    let contexts = contexts_of(alloc, &items, kind)?;
    if !are_distinct(&contexts) {
        return Err(ReadError::Malformed);
    }
    Ok((fields, contexts))
}

/// A request, from its body (PS3.8 section 9.3.2).
#[tactic(auto, unfolding(crate::specs::PduReader::request_of))]
fn request_of(alloc: Global, body: &[u8]) -> Result<Request, ReadError>
    ensures { Gives Fails (λ x. x) result (request_of body.now) }
{
    let (fields, contexts) = associate_of(alloc, body, item_type::PROPOSED_CONTEXT)?;
    let Associate {
        version,
        called,
        calling,
        reserved,
        application_context,
        maximum_length,
    } = fields;
    Ok(Request {
        version,
        called,
        calling,
        reserved,
        application_context,
        contexts: Listed::from_inner(contexts),
        maximum_length,
    })
}

/// An acceptance, from its body (PS3.8 section 9.3.3).
#[tactic(auto, unfolding(crate::specs::PduReader::accept_of))]
fn accept_of(alloc: Global, body: &[u8]) -> Result<Accept, ReadError>
    ensures { Gives Fails (λ x. x) result (accept_of body.now) }
{
    let (fields, contexts) = associate_of(alloc, body, item_type::ANSWERED_CONTEXT)?;
    let Associate {
        version,
        called,
        calling,
        reserved,
        application_context,
        maximum_length,
    } = fields;
    Ok(Accept {
        version,
        called,
        calling,
        reserved,
        application_context,
        contexts: Listed::from_inner(contexts),
        maximum_length,
    })
}

/// A presentation data value (PS3.8 section 9.3.5.1).
impl ReadPart for Pdv {
    ghost part_at = { pdv_at };

    ghost shrinks = { pdv_shrinks };

    #[tactic(auto, unfolding(crate::specs::PduReader::pdv_at))]
    fn read(alloc: Global, octets: &[u8]) -> Result<(Pdv, &[u8]), ReadError> {
        if octets.len() < PDV_HEADER {
            return Err(ReadError::Malformed);
        }
        let (header, behind) = octets.split_at(PDV_HEADER);
        let size = u32::from_be_bytes([header[0], header[1], header[2], header[3]]) as usize;
        if size < PDV_FIELDS || behind.len() < size - PDV_FIELDS {
            return Err(ReadError::Malformed);
        }
        let (fragment, rest) = behind.split_at(size - PDV_FIELDS);
        let value = Pdv {
            context: header[4],
            command: header[5] % 2 == 1,
            last: header[5] / 2 % 2 == 1,
            octets: Listed::from_inner(Vec::from_slice(alloc, fragment)?),
        };
        Ok((value, rest))
    }
}

/// A P-DATA-TF PDU, from its body.
#[tactic(auto, unfolding(crate::specs::PduReader::data_pdu_of))]
fn values_of(alloc: Global, body: &[u8]) -> Result<Pdu, ReadError>
    ensures { Gives Fails (λ x. x) result (data_pdu_of body.now) }
{
    let values = parts_of(alloc, body)?;
    if values.is_empty() {
        return Err(ReadError::Malformed);
    }
    Ok(Pdu::PData(Listed::from_inner(values)))
}

/// The PDU of a type, from its body.
#[tactic(auto, unfolding(crate::specs::PduReader::pdu_of))]
pub(crate) fn pdu_of(alloc: Global, kind: u8, body: &[u8]) -> Result<Pdu, ReadError>
    ensures { Gives Fails (λ x. x) result (pdu_of kind body.now) }
{
    match (kind, body) {
        (pdu_type::A_ASSOCIATE_RQ, _) => Ok(Pdu::Request(request_of(alloc, body)?)),
        (pdu_type::A_ASSOCIATE_AC, _) => Ok(Pdu::Accept(accept_of(alloc, body)?)),
        (pdu_type::A_ASSOCIATE_RJ, [_, result, source, reason]) => {
            Ok(Pdu::Reject(*result, *source, *reason))
        }
        (pdu_type::P_DATA_TF, _) => values_of(alloc, body),
        (pdu_type::A_RELEASE_RQ, [_, _, _, _]) => Ok(Pdu::ReleaseRq),
        (pdu_type::A_RELEASE_RP, [_, _, _, _]) => Ok(Pdu::ReleaseRp),
        (pdu_type::A_ABORT, [_, _, source, reason]) => Ok(Pdu::Abort(*source, *reason)),
        _ => Err(ReadError::Malformed),
    }
}
