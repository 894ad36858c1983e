//! Messages as they are sent (PS3.7 section 6.3.1 and annex E, PS3.8 annex E).
ghost use Rattle.std.specs.Prelude.{◌≡◌, ◌+◌, ◌-◌, ◌<◌, ◌≤◌, ◌∷◌, ◌++◌, length, true, false, take, drop, vec_len};
ghost use Rattle.std.specs.Prelude.{IfOk, OnOk};
ghost use Rattle.std.specs.Int.{w16, w32, to_le_bytes};
ghost use Rattle.dq_dimse.specs.CommandRefs.{command_of_ref};
ghost use Rattle.dq_dimse.specs.Sending.{zero_padded, command_element, short_command_element, instance_element};
ghost use Rattle.dq_pdu.specs.Numbers.{pdv_header};
ghost use Rattle.dq_dimse.specs.Sending.{command_elements, command_set, fragment_size};
ghost use Rattle.dq_dimse.specs.Sending.{IsPduLimit, own_limit};
ghost use Rattle.dq_dimse.specs.Sending.{cut_within, cut_into_pdus};

use crate::command::CommandRef;
use crate::numbers;
use dq_pdu::{PDV_HEADER, append_p_data};
use std::alloc::{AllocError, Global};

/// The longest body of a PDU that is sent.
const PDU_LIMIT: usize = 16_384;

/// The octets before the elements that a group length counts, and where its value stands among them.
const COUNTED_FROM: usize = 12;

const GROUP_LENGTH_VALUE: usize = 8;

/// The most octets of a command set whose identifiers have at most 64 (PS3.5 section 9.1).
const USUAL_LENGTH: usize = 196;

/// Writes the number of an element of group 0000, and the length of its value.
fn put_header(out: &mut Vec<u8>, number: u16, length: usize) -> Result<(), AllocError>
    ensures { OnOk result (out.new.items ≡ out.old.items
        ++ 0 ∷ 0 ∷ (to_le_bytes w16 number ++ to_le_bytes w32 length)) }
{
    let length = length.to_le_bytes();
    out.extend_from_slice(&[0, 0])?;
    out.extend_from_slice(&number.to_le_bytes())?;
    out.extend_from_slice(&length[..4])
}

/// Writes an element of group 0000.
fn put_element(out: &mut Vec<u8>, number: u16, value: &[u8]) -> Result<(), AllocError>
    ensures { OnOk result (out.new.items ≡ out.old.items ++ command_element number value.now) }
{
    put_header(out, number, value.len())?;
    out.extend_from_slice(value)
}

/// Writes an element whose value is a number of two octets.
fn put_short(out: &mut Vec<u8>, number: u16, value: u16) -> Result<(), AllocError>
    ensures { OnOk result (out.new.items ≡ out.old.items ++ short_command_element number value) }
{
    put_element(out, number, &value.to_le_bytes())
}

/// Writes an element whose value is an identifier, with a zero octet after an odd number of octets.
fn put_identifier(out: &mut Vec<u8>, number: u16, value: &[u8]) -> Result<(), AllocError>
    ensures { OnOk result (out.new.items ≡ out.old.items ++ command_element number (zero_padded value.now)) }
{
    if value.len() % 2 == 0 {
        return put_element(out, number, value);
    }
    put_header(out, number, value.len() + 1)?;
    out.extend_from_slice(value)?;
    out.push(0)?;
    Ok(())
}

/// Writes the instance, where there is one.
fn put_instance(out: &mut Vec<u8>, instance: &[u8]) -> Result<(), AllocError>
    ensures { OnOk result (out.new.items ≡ out.old.items ++ instance_element instance.now) }
{
    if instance.is_empty() {
        return Ok(());
    }
    put_identifier(out, numbers::AFFECTED_SOP_INSTANCE_UID, instance)
}

/// Writes the elements of a response after its group length.
fn put_command_elements(out: &mut Vec<u8>, command: CommandRef<'_>) -> Result<(), AllocError>
    ensures { OnOk result
        (out.new.items ≡ out.old.items ++ command_elements (command_of_ref command.entry)) }
{
    let data_set_type = if command.with_data {
        numbers::DATA_SET
    } else {
        numbers::NO_DATA_SET
    };
    put_identifier(out, numbers::AFFECTED_SOP_CLASS_UID, command.sop_class)?;
    put_short(out, numbers::COMMAND_FIELD, command.code)?;
    put_short(out, numbers::MESSAGE_ID_BEING_RESPONDED_TO, command.id)?;
    put_short(out, numbers::COMMAND_DATA_SET_TYPE, data_set_type)?;
    put_short(out, numbers::STATUS, command.status)?;
    put_instance(out, command.sop_instance)
}

/// Writes how many octets stand after the group length into its value.
fn put_group_length(set: &mut Vec<u8>)
    requires { 12 ≤ vec_len set.old }
    ensures { set.new.items ≡ take 8 set.old.items
        ++ (to_le_bytes w32 (vec_len set.old - 12) ++ drop 12 set.old.items) }
{
    let length = (set.len() - COUNTED_FROM).to_le_bytes();
    set[GROUP_LENGTH_VALUE..COUNTED_FROM].copy_from_slice(&length[..4]);
}

/// The command set of a response. Its group length is put in place last.
fn command_set(alloc: Global, command: CommandRef<'_>) -> Result<Vec<u8>, AllocError>
    ensures { IfOk result (λ written. written.items ≡ command_set (command_of_ref command.entry)) }
{
    let mut out = Vec::with_capacity(alloc, USUAL_LENGTH)?;
    put_element(&mut out, numbers::COMMAND_GROUP_LENGTH, &[0; 4])?;
    put_command_elements(&mut out, command)?;
    put_group_length(&mut out);
    Ok(out)
}

/// The length of a fragment for a peer's limit, where 0 is no limit.
fn fragment_size(limit: u32) -> usize
    requires { IsPduLimit limit }
    ensures size { result ≡ fragment_size limit }
    ensures some { 0 < result }
    ensures short { result + pdv_header ≤ own_limit }
{
    let limit = if limit == 0 {
        PDU_LIMIT
    } else {
        (limit as usize).min(PDU_LIMIT)
    };
    (limit - PDV_HEADER) / 2 * 2
}

/// Writes octets, cut into PDUs of fragments of a size.
fn put_fragments(
    out: &mut Vec<u8>,
    context: u8,
    command: bool,
    size: usize,
    octets: &[u8],
) -> Result<(), AllocError>
    requires some { 0 < size }
    requires short { size + pdv_header ≤ own_limit }
    ensures { OnOk result (out.new.items
        ≡ out.old.items ++ cut_within context command size octets.now) }
{
    let mut rest = octets;
    while rest.len() > size {
        let (fragment, others) = rest.split_at(size);
        append_p_data(out, context, command, false, fragment)?;
        rest = others;
    }
    append_p_data(out, context, command, true, rest)
}

/// Writes octets, cut into PDUs for a peer's limit.
fn put_cut(
    out: &mut Vec<u8>,
    context: u8,
    command: bool,
    limit: u32,
    octets: &[u8],
) -> Result<(), AllocError>
    requires { IsPduLimit limit }
    ensures { OnOk result (out.new.items
        ≡ out.old.items ++ cut_into_pdus context command limit octets.now) }
{
    put_fragments(out, context, command, fragment_size(limit), octets)
}

/// Adds the command set of a response on a context at the end, cut into PDUs of at most the peer's
/// limit, where 0 is no limit (PS3.8 annex E).
pub fn append_command(
    alloc: Global,
    out: &mut Vec<u8>,
    context: u8,
    command: CommandRef<'_>,
    limit: u32,
) -> Result<(), AllocError>
    requires { IsPduLimit limit }
    ensures { OnOk result (out.new.items
        ≡ out.old.items ++ cut_into_pdus context true limit (command_set (command_of_ref command.entry))) }
{
    let set = command_set(alloc, command)?;
    put_cut(out, context, true, limit, &set)
}

/// Adds the octets of a response's data set at the end, cut into PDUs of at most the peer's limit,
/// where 0 is no limit (PS3.8 annex E).
pub fn append_data_set(
    out: &mut Vec<u8>,
    context: u8,
    octets: &[u8],
    limit: u32,
) -> Result<(), AllocError>
    requires { IsPduLimit limit }
    ensures { OnOk result (out.new.items
        ≡ out.old.items ++ cut_into_pdus context false limit octets.now) }
{
    put_cut(out, context, false, limit, octets)
}
