//! Writing data sets (PS3.5 section 7): defined lengths, and no group lengths.
ghost use Rattle.std.specs.Prelude.{◌≡◌, ◌-◌, ◌+◌, ◌<◌, ◌≤◌, ◌++◌, length, take, drop, vec_len, OnOk, IfOk};
ghost use Rattle.std.specs.Int.{w32, to_le_bytes};
ghost use Rattle.dq_vr.specs.Vr.{length_form_of};
ghost use Rattle.dq_dataset.specs.View.{as_elements, items_of};
ghost use Rattle.dq_dataset.specs.Canonical.{tag_octets, vr_and_length, header_octets, item_header_of, canonical, canonical_items, HasLengths, ItemsHaveLengths};
ghost use Rattle.dq_dataset.specs.Facts.{IsDataSet};
ghost use Rattle.dq_dataset.specs.Parts.{canonical_element, ElementHasLengths, HasSequenceVr};

use crate::data_set::{DataSet, Element, Value};
use crate::header::{DELIMITERS, ITEM, Syntax};
use dq_vr::{LengthForm, Tag, Vr, length_form};
use std::alloc::{AllocError, Global};

/// The greatest even length of 2 octets.
const SHORT: u32 = 65_534;

fn put_tag(out: &mut Vec<u8>, tag: Tag) -> Result<(), AllocError>
    ensures { OnOk result (out.new.items ≡ out.old.items ++ tag_octets tag) }
{
    out.extend_from_slice(&tag.group.to_le_bytes())?;
    out.extend_from_slice(&tag.element.to_le_bytes())
}

#[tactic(auto, unfolding(crate::specs::Canonical::vr_and_length))]
fn put_vr(out: &mut Vec<u8>, vr: Vr, length: u32) -> Result<(), AllocError>
    ensures { OnOk result
        (out.new.items ≡ out.old.items ++ vr_and_length (length_form_of vr) vr length) }
{
    let is_short = length_form(vr) == LengthForm::Two;
    if is_short && length <= SHORT {
        out.extend_from_slice(&vr.letters())?;
        return out.extend_from_slice(&(length as u16).to_le_bytes());
    }
    let spelled = if is_short { Vr::UN } else { vr };
    out.extend_from_slice(&spelled.letters())?;
    out.extend_from_slice(&[0, 0])?;
    out.extend_from_slice(&length.to_le_bytes())
}

#[tactic(auto, unfolding(crate::specs::Canonical::header_octets))]
fn put_header(
    out: &mut Vec<u8>,
    syntax: Syntax,
    tag: Tag,
    vr: Vr,
    length: u32,
) -> Result<(), AllocError>
    ensures { OnOk result (out.new.items ≡ out.old.items ++ header_octets syntax tag vr length) }
{
    put_tag(out, tag)?;
    match syntax {
        Syntax::Implicit => out.extend_from_slice(&length.to_le_bytes()),
        Syntax::Explicit => put_vr(out, vr, length),
    }
}

#[tactic(auto, unfolding(crate::specs::Canonical::item_header_of))]
fn put_item_header(out: &mut Vec<u8>, length: u32) -> Result<(), AllocError>
    ensures { OnOk result (out.new.items ≡ out.old.items ++ item_header_of length) }
{
    let tag = Tag {
        group: DELIMITERS,
        element: ITEM,
    };
    put_tag(out, tag)?;
    out.extend_from_slice(&length.to_le_bytes())
}

/// Writes how many octets stand from `start` on into the four octets before it.
fn put_length_before(out: &mut Vec<u8>, start: usize)
    requires place { 4 ≤ start }
    requires within { start ≤ vec_len out.old }
    requires short { vec_len out.old < start + 0xFFFFFFFF }
    ensures { out.new.items ≡ take (start - 4) out.old.items
        ++ (to_le_bytes w32 (vec_len out.old - start) ++ drop start out.old.items) }
{
    let length = (out.len() - start) as u32;
    out[start - 4..start].copy_from_slice(&length.to_le_bytes());
}

#[cycle(writing)]
fn put_element(out: &mut Vec<u8>, syntax: Syntax, element: &Element) -> Result<(), AllocError>
    requires lengths { ElementHasLengths syntax element.now }
    requires sequence { HasSequenceVr element.now }
    ensures { OnOk result (out.new.items ≡ out.old.items ++ canonical_element syntax element.now) }
{
    match &element.value {
        Value::Octets(octets) => {
            let octets = octets.inner();
            put_header(out, syntax, element.tag, element.vr, octets.len() as u32)?;
            out.extend_from_slice(octets)
        }
        Value::Items(items) => {
            put_header(out, syntax, element.tag, element.vr, 0)?;
            let start = out.len();
            put_items(out, syntax, items.inner())?;
            put_length_before(out, start);
            Ok(())
        }
    }
}

#[cycle(writing)]
fn put_elements(out: &mut Vec<u8>, syntax: Syntax, elements: &[Element]) -> Result<(), AllocError>
    requires lengths { HasLengths syntax (as_elements elements.now) }
    requires facts { IsDataSet (as_elements elements.now) }
    ensures { OnOk result
        (out.new.items ≡ out.old.items ++ canonical syntax (as_elements elements.now)) }
{
    for element in elements {
        put_element(out, syntax, element)?;
    }
    Ok(())
}

#[cycle(writing)]
fn put_items(out: &mut Vec<u8>, syntax: Syntax, items: &[DataSet]) -> Result<(), AllocError>
    requires { ItemsHaveLengths syntax (items_of items.now) }
    ensures { OnOk result
        (out.new.items ≡ out.old.items ++ canonical_items syntax (items_of items.now)) }
{
    for item in items {
        put_item_header(out, 0)?;
        let start = out.len();
        put_elements(out, syntax, item.elements())?;
        put_length_before(out, start);
    }
    Ok(())
}

/// The one spelling of the data set that has defined lengths and no group lengths.
pub fn write(alloc: Global, data_set: &DataSet, syntax: Syntax) -> Result<Vec<u8>, AllocError>
    requires { HasLengths syntax data_set.now }
    ensures { IfOk result (λ v. v.items ≡ canonical syntax data_set.now) }
{
    let mut out = Vec::new(alloc);
    put_elements(&mut out, syntax, data_set.elements())?;
    Ok(out)
}
