//! Trials: data sets as JSON and from JSON, and attributes by their names.
ghost use Rattle.std.specs.Prelude.{◌<◌, ◌^◌, length};

use crate::trial::octets_text;
use dq_dataset::{PackedDataSet, ReadFault, Syntax, read};
use dq_json::{JsonFault, data_set_of, json_of, tag_named};
use std::alloc::{AllocError, Global};

/// The JSON of the data set that octets spell, or `fault N`.
pub(crate) fn json_text(alloc: Global, octets: &[u8], syntax: Syntax) -> Result<String, AllocError>
    requires { length octets.now < 2 ^ 31 }
{
    match read(alloc, octets, syntax) {
        Ok(data_set) => {
            let json = json_of(alloc, &data_set)?;
            String::from_utf8_lossy(alloc, json.as_slice())
        }
        Err(ReadFault::NoMemory) => Err(AllocError),
        Err(fault) => format!(in alloc; "fault {}", fault.number()),
    }
}

/// The canonical spelling of the data set that JSON spells, or the word of its fault.
pub(crate) fn read_text(alloc: Global, octets: &[u8]) -> Result<String, AllocError> {
    match data_set_of(alloc, octets) {
        Ok(data_set) => {
            let packed = PackedDataSet::new(alloc, &data_set)?;
            octets_text(alloc, packed.into_octets().as_slice())
        }
        Err(JsonFault::NoMemory) => Err(AllocError),
        Err(fault) => fault.text(alloc),
    }
}

/// The numbers of the tag that the octets name, or a hyphen.
pub(crate) fn tag_text(alloc: Global, octets: &[u8]) -> Result<String, AllocError> {
    let name = String::from_utf8_lossy(alloc, octets)?;
    match tag_named(name.as_str()) {
        Some(tag) => format!(in alloc; "{} {}", tag.group, tag.element),
        None => String::from_str(alloc, "-"),
    }
}
