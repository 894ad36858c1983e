//! How long the canonical spelling of a data set is, and whether it can be written: whether the
//! length of each value and of each item is below FFFFFFFFH (PS3.5 section 7.1).
ghost use Rattle.std.specs.Prelude.{◌≡◌, ◌↔◌, IsTrue, min, length};
ghost use Rattle.dq_vr.specs.declared.Tag.{Tag};
ghost use Rattle.dq_dataset.specs.View.{as_elements, items_of};
ghost use Rattle.dq_dataset.specs.Canonical.{header_octets, canonical, canonical_items, HasLengths};
ghost use Rattle.dq_dataset.specs.Lengths.{value_octet_count};

use crate::data_set::{DataSet, Element, Value};
use crate::header::Syntax;
use dq_vr::{LengthForm, Vr, length_form};

/// The greatest even length of 2 octets.
const SHORT: u32 = 65_534;

/// The octets of the header of an element whose value has so many octets.
fn header_length(syntax: Syntax, vr: Vr, octets: u32) -> u32
    ensures { (tag : Tag) → result ≡ length (header_octets syntax tag vr octets) }
{
    match syntax {
        Syntax::Implicit => 8,
        Syntax::Explicit => match length_form(vr) {
            LengthForm::Two => if octets <= SHORT { 8 } else { 12 },
            LengthForm::Four => 12,
        },
    }
}

/// The octets of a value, but no more than FFFFFFFFH.
#[cycle(measuring)]
fn value_length(value: &Value, syntax: Syntax) -> u32
    ensures { result ≡ min (value_octet_count syntax value.now) 0xFFFFFFFF }
{
    match value {
        Value::Octets(octets) => octets.len().min(u32::MAX as usize) as u32,
        Value::Items(items) => items_length(items.as_slice(), syntax),
    }
}

/// The octets of the canonical spelling of elements, but no more than FFFFFFFFH.
#[cycle(measuring)]
pub fn elements_length(elements: &[Element], syntax: Syntax) -> u32
    ensures { result ≡ min (length (canonical syntax (as_elements elements.now))) 0xFFFFFFFF }
{
    let mut total: u32 = 0;
    for element in elements {
        let octets = value_length(&element.value, syntax);
        let header = header_length(syntax, element.vr, octets);
        total = total.saturating_add(header).saturating_add(octets);
    }
    total
}

/// The octets of the canonical spelling of items, but no more than FFFFFFFFH.
#[cycle(measuring)]
fn items_length(items: &[DataSet], syntax: Syntax) -> u32
    ensures { result ≡ min (length (canonical_items syntax (items_of items.now))) 0xFFFFFFFF }
{
    let mut total: u32 = 0;
    for item in items {
        let octets = elements_length(item.elements(), syntax);
        total = total.saturating_add(8).saturating_add(octets);
    }
    total
}

fn have_lengths(elements: &[Element], syntax: Syntax) -> bool
    ensures { IsTrue result ↔ HasLengths syntax (as_elements elements.now) }
{
    for element in elements {
        if value_length(&element.value, syntax) == u32::MAX {
            return false;
        }
    }
    true
}

/// Whether the length of each value and of each item in the canonical spelling of the data set is
/// below FFFFFFFFH, so that it can be written (PS3.5 section 7.1).
pub fn can_be_written(data_set: &DataSet, syntax: Syntax) -> bool
    ensures { IsTrue result ↔ HasLengths syntax data_set.now }
{
    have_lengths(data_set.elements(), syntax)
}
