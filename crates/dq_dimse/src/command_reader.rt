//! Command sets: data sets of group 0000 in Implicit VR Little Endian (PS3.7 section 6.3.1 and
//! annex E).
ghost use Rattle.std.specs.Prelude.{◌≡◌, IfOk, option_map};
ghost use Rattle.std.specs.List.{list_all};
ghost use Rattle.dq_dataset.specs.View.{elements_of};
ghost use Rattle.dq_dimse.specs.Commands.{belongs, value_of, unsigned_short_at, identifier_of, id_number};
ghost use Rattle.dq_dimse.specs.Commands.{class_number, instance_number_element, command_from, command_of};
ghost use Rattle.dq_dimse.specs.CommandReader.{GivesOrDimseFault};

use crate::command::Command;
use crate::fault::DimseFault;
use crate::{command_field, numbers};
use dq_dataset::{DataSet, Syntax, Value, read};
use dq_list::Listed;
use dq_value::trimmed;
use dq_vr::{Tag, Vr};
use std::alloc::{AllocError, Global};

/// Whether the elements are all of the group of command sets.
fn is_own(set: &DataSet) -> bool
    ensures { result ≡ list_all belongs (elements_of set.now) }
{
    set.elements()
        .iter()
        .all(|element| element.tag.group == numbers::COMMAND_GROUP)
}

/// The value of the element with a number, where it is no sequence.
fn value_of(number: u16, set: &DataSet) -> Option<&[u8]>
    ensures { option_map (λ octets. octets.now) result ≡ value_of number set.now }
{
    let tag = Tag {
        group: numbers::COMMAND_GROUP,
        element: number,
    };
    match &set.get(tag)?.value {
        Value::Octets(octets) => Some(octets.inner()),
        Value::Items(_) => None,
    }
}

/// A value of two octets.
fn number_of(number: u16, set: &DataSet) -> Result<u16, DimseFault>
    ensures { GivesOrDimseFault (λ n. n) result (unsigned_short_at number set.now) }
{
    match value_of(number, set) {
        Some([low, high]) => Ok(u16::from_le_bytes([*low, *high])),
        _ => Err(DimseFault::BadCommand),
    }
}

/// An identifier without its padding, empty where there is none.
fn identifier_of(alloc: Global, number: u16, set: &DataSet) -> Result<Listed<u8>, AllocError>
    ensures { IfOk result (λ octets. octets ≡ identifier_of number set.now) }
{
    let value = value_of(number, set).unwrap_or(&[]);
    let octets = Vec::from_slice(alloc, trimmed(Vr::UI, value))?;
    Ok(Listed::from_inner(octets))
}

fn id_number(code: u16) -> u16
    ensures { result ≡ id_number code }
{
    if code == command_field::C_CANCEL {
        numbers::MESSAGE_ID_BEING_RESPONDED_TO
    } else {
        numbers::MESSAGE_ID
    }
}

fn class_number(code: u16) -> u16
    ensures { result ≡ class_number code }
{
    if code == command_field::N_SET {
        numbers::REQUESTED_SOP_CLASS_UID
    } else {
        numbers::AFFECTED_SOP_CLASS_UID
    }
}

fn instance_number(code: u16) -> u16
    ensures { result ≡ instance_number_element code }
{
    if code == command_field::N_SET {
        numbers::REQUESTED_SOP_INSTANCE_UID
    } else {
        numbers::AFFECTED_SOP_INSTANCE_UID
    }
}

/// The command that the elements make.
#[tactic(auto, unfolding(crate::specs::Commands::command_from))]
fn command_from(alloc: Global, set: &DataSet) -> Result<Command, DimseFault>
    ensures { GivesOrDimseFault (λ command. command) result (command_from set.now) }
{
    let code = number_of(numbers::COMMAND_FIELD, set)?;
    let data_set_type = number_of(numbers::COMMAND_DATA_SET_TYPE, set)?;
    let id = number_of(id_number(code), set)?;
    if code >= command_field::RESPONSE_BIT {
        return Err(DimseFault::BadCommand);
    }
    Ok(Command {
        code,
        id,
        sop_class: identifier_of(alloc, class_number(code), set)?,
        sop_instance: identifier_of(alloc, instance_number(code), set)?,
        with_data: data_set_type != numbers::NO_DATA_SET,
        status: 0,
    })
}

/// The command that a command set spells.
#[tactic(auto, unfolding(crate::specs::Commands::command_of))]
pub(crate) fn command_of(alloc: Global, octets: &[u8]) -> Result<Command, DimseFault>
    ensures { GivesOrDimseFault (λ command. command) result (command_of octets.now) }
{
    let set = read(alloc, octets, Syntax::Implicit)?;
    if !is_own(&set) {
        return Err(DimseFault::BadCommand);
    }
    command_from(alloc, &set)
}
