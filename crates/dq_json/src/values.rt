//! The octets of an attribute's value, from the members of its DICOM JSON object (PS3.18 sections F.2.2
//! to F.2.7).
ghost use Rattle.std.specs.Prelude.{◌≡◌, ◌≤◌, ◌==◌, not, codes, length, drop, IfOk, option_map};
ghost use Rattle.std.specs.Char.{is_ascii_digit};
ghost use Rattle.std.specs.List.{list_all};
ghost use Rattle.std.specs.Option.{option_or};
ghost use Rattle.json.specs.Find.{as_array, as_object, as_str, as_number};
ghost use Rattle.json.specs.Value.{value_view, items_view, members_view};
ghost use Rattle.dq_value.specs.Parts.{has_separator};
ghost use Rattle.dq_json.specs.Attributes.{is_name, is_number, is_spelled_as_text};
ghost use Rattle.dq_json.specs.Values.{has_count, count_named, is_decimal, written_text, has_octet, plain_text, group_in, groups_in, name_text, value_text, separated, has_several, texts, short_in, short_of, shorts, array_octets, is_binary, binary_octets, octets_in};

use crate::attributes::is_spelled_as_text;
use base64::DecodeAllocError;
use base64::engine::general_purpose::STANDARD;
use dq_vr::Vr;
use json::Value;
use std::alloc::{AllocError, Global};

/// A name's component groups: alphabetic, ideographic and phonetic.
type NameGroups<'a> = (&'a str, &'a str, &'a str);

/// Returns the members of an object.
pub(crate) fn members_of<'v, 'a>(value: &'v Value<'a>) -> Option<&'v [(&'a str, Value<'a>)]>
    ensures { option_map (λ members. members_view members.now) result ≡ as_object (value_view value.now) }
{
    if let Value::Object(members) = value {
        Some(members.as_slice())
    } else {
        None
    }
}

/// Returns the items of an array.
pub(crate) fn items_of<'v, 'a>(value: &'v Value<'a>) -> Option<&'v [Value<'a>]>
    ensures { option_map (λ items. items_view items.now) result ≡ as_array (value_view value.now) }
{
    if let Value::Array(items) = value {
        Some(items.as_slice())
    } else {
        None
    }
}

/// Whether a value is an object with so many members.
pub(crate) fn has_count(value: &Value<'_>, count: usize) -> bool
    ensures { result ≡ has_count count (as_object (value_view value.now)) }
{
    match members_of(value) {
        Some(members) => members.len() == count,
        None => false,
    }
}

/// Returns 1 if a value has a member of the name, and 0 if not.
pub(crate) fn count_named(value: &Value<'_>, name: &str) -> usize
    ensures exact { result ≡ count_named name.now (value_view value.now) }
    ensures bound { result ≤ 1 }
{
    match value.get(name) {
        Some(_) => 1,
        None => 0,
    }
}

fn has_octet(text: &str, octet: u8) -> bool
    ensures { result ≡ has_octet octet text.now }
{
    text.as_bytes().iter().any(|other| *other == octet)
}

#[tactic(auto, unfolding(crate::specs::Values::is_decimal))]
fn is_decimal(vr: Vr) -> bool
    ensures { result ≡ is_decimal vr }
{
    matches!(vr, Vr::DS | Vr::IS)
}

#[tactic(auto, unfolding(dq_value::specs::Parts::has_separator))]
fn has_separator(vr: Vr) -> bool
    ensures { result ≡ has_separator vr }
{
    match vr {
        Vr::UI => true,
        Vr::LT | Vr::ST | Vr::UT | Vr::UR => false,
        _ => vr.is_text(),
    }
}

/// The text of a number, or of a string.
fn number_or_string<'a>(value: &Value<'a>) -> Option<&'a str>
    ensures { option_map (λ text. text.now) result
        ≡ option_or (as_number (value_view value.now)) (as_str (value_view value.now)) }
{
    match value.as_number() {
        Some(text) => Some(text),
        None => value.as_str(),
    }
}

fn written_text<'a>(vr: Vr, value: &Value<'a>) -> Option<&'a str>
    ensures { option_map (λ text. text.now) result ≡ written_text vr (value_view value.now) }
{
    if is_decimal(vr) {
        number_or_string(value)
    } else {
        value.as_str()
    }
}

/// Returns the text of one value, which is not a name.
fn plain_text<'a>(vr: Vr, value: &Value<'a>) -> Option<&'a str>
    ensures { option_map (λ text. text.now) result ≡ plain_text vr (value_view value.now) }
{
    let text = written_text(vr, value)?;
    if has_separator(vr) && has_octet(text, b'\\') {
        None
    } else {
        Some(text)
    }
}

/// Returns a component group of a name.
fn group_in<'a>(value: &Value<'a>, name: &str) -> Option<&'a str>
    ensures { option_map (λ text. text.now) result ≡ group_in name.now (value_view value.now) }
{
    let Some(group) = value.get(name) else {
        return Some("");
    };
    let text = group.as_str()?;
    if has_octet(text, b'\\') || has_octet(text, b'=') {
        None
    } else {
        Some(text)
    }
}

/// Returns the component groups of a name.
fn groups_in<'a>(value: &Value<'a>) -> Option<NameGroups<'a>>
    ensures { option_map (λ groups. (groups.0.now, groups.1.now, groups.2.now)) result
        ≡ groups_in (value_view value.now) }
{
    let count = count_named(value, "Alphabetic")
        + count_named(value, "Ideographic")
        + count_named(value, "Phonetic");
    if !has_count(value, count) {
        return None;
    }
    let alphabetic = group_in(value, "Alphabetic")?;
    let ideographic = group_in(value, "Ideographic")?;
    let phonetic = group_in(value, "Phonetic")?;
    Some((alphabetic, ideographic, phonetic))
}

/// The octets of a name.
fn name_text(alloc: Global, groups: NameGroups<'_>) -> Result<Vec<u8>, AllocError>
    ensures { IfOk result (λ octets.
        octets.items ≡ name_text (groups.entry.0.now, groups.entry.1.now, groups.entry.2.now)) }
{
    let (alphabetic, ideographic, phonetic) = groups;
    let mut octets = Vec::from_slice(alloc, alphabetic.as_bytes())?;
    if !(ideographic.is_empty() && phonetic.is_empty()) {
        octets.push(b'=')?;
        octets.extend_from_slice(ideographic.as_bytes())?;
    }
    if !phonetic.is_empty() {
        octets.push(b'=')?;
        octets.extend_from_slice(phonetic.as_bytes())?;
    }
    Ok(octets)
}

/// The octets of one value of text.
#[tactic(auto, unfolding(crate::specs::Values::value_text, crate::specs::Attributes::is_name))]
fn value_text(alloc: Global, vr: Vr, value: &Value<'_>) -> Result<Option<Vec<u8>>, AllocError>
    ensures { IfOk result (λ octets.
        option_map (λ v. v.items) octets ≡ value_text vr (value_view value.now)) }
{
    if value.is_null() {
        return Ok(Some(Vec::new(alloc)));
    }
    match vr {
        Vr::PN => match groups_in(value) {
            Some(groups) => Ok(Some(name_text(alloc, groups)?)),
            None => Ok(None),
        },
        _ => match plain_text(vr, value) {
            Some(text) => Ok(Some(Vec::from_slice(alloc, text.as_bytes())?)),
            None => Ok(None),
        },
    }
}

/// The octets of values, with a backslash before each.
fn separated(alloc: Global, vr: Vr, values: &[Value<'_>]) -> Result<Option<Vec<u8>>, AllocError>
    ensures { IfOk result (λ octets.
        option_map (λ v. v.items) octets ≡ separated vr (items_view values.now)) }
{
    let mut octets = Vec::new(alloc);
    for value in values {
        let Some(text) = value_text(alloc, vr, value)? else {
            return Ok(None);
        };
        octets.push(b'\\')?;
        octets.extend_from_slice(text.as_slice())?;
    }
    Ok(Some(octets))
}

fn has_several(values: &[Value<'_>]) -> bool
    ensures { result ≡ has_several (items_view values.now) }
{
    values.len() > 1
}

/// Returns the octets behind the first.
fn behind_first(octets: &[u8]) -> &[u8]
    ensures { result.now ≡ drop 1 octets.now }
{
    match octets.split_first() {
        Some((_, others)) => others,
        None => octets,
    }
}

/// The octets of values of text.
fn texts(alloc: Global, vr: Vr, values: &[Value<'_>]) -> Result<Option<Vec<u8>>, AllocError>
    ensures { IfOk result (λ octets.
        option_map (λ v. v.items) octets ≡ texts vr (items_view values.now)) }
{
    if has_several(values) && !has_separator(vr) {
        return Ok(None);
    }
    match separated(alloc, vr, values)? {
        Some(octets) => Ok(Some(Vec::from_slice(alloc, behind_first(octets.as_slice()))?)),
        None => Ok(None),
    }
}

fn are_digits(text: &str) -> bool
    ensures { result ≡ list_all is_ascii_digit text.now }
{
    text.as_bytes().iter().all(|octet| octet.is_ascii_digit())
}

/// Returns the number from 0 to 65535 of decimal digits.
#[tactic(auto, unfolding(crate::specs::Values::short_in))]
fn short_in(text: &str) -> Option<u16>
    ensures { result ≡ short_in text.now }
{
    if !are_digits(text) {
        return None;
    }
    match text.parse::<u16>() {
        Ok(number) => Some(number),
        Err(_) => None,
    }
}

fn short_of(value: &Value<'_>) -> Option<u16>
    ensures { result ≡ short_of (value_view value.now) }
{
    short_in(number_or_string(value)?)
}

/// The octets of unsigned shorts.
fn shorts(alloc: Global, values: &[Value<'_>]) -> Result<Option<Vec<u8>>, AllocError>
    ensures { IfOk result (λ octets.
        option_map (λ v. v.items) octets ≡ shorts (items_view values.now)) }
{
    let mut octets = Vec::new(alloc);
    for value in values {
        let Some(number) = short_of(value) else {
            return Ok(None);
        };
        octets.extend_from_slice(&number.to_le_bytes())?;
    }
    Ok(Some(octets))
}

/// The octets of an array of values.
#[tactic(auto, unfolding(crate::specs::Values::array_octets, crate::specs::Attributes::is_number))]
fn array_octets(alloc: Global, vr: Vr, values: &[Value<'_>]) -> Result<Option<Vec<u8>>, AllocError>
    ensures { IfOk result (λ octets.
        option_map (λ v. v.items) octets ≡ array_octets vr (items_view values.now)) }
{
    match vr {
        Vr::US => shorts(alloc, values),
        _ if is_spelled_as_text(vr) => texts(alloc, vr, values),
        _ => Ok(None),
    }
}

#[tactic(auto, unfolding(crate::specs::Values::is_binary))]
fn is_binary(vr: Vr) -> bool
    ensures { result ≡ is_binary vr }
{
    matches!(
        vr,
        Vr::OB | Vr::OD | Vr::OF | Vr::OL | Vr::OV | Vr::OW | Vr::UN
    )
}

/// The octets of base64.
#[tactic(auto, unfolding(crate::specs::Values::binary_octets))]
fn binary_octets(alloc: Global, vr: Vr, value: &Value<'_>) -> Result<Option<Vec<u8>>, AllocError>
    ensures { IfOk result (λ octets.
        option_map (λ v. v.items) octets ≡ binary_octets vr (value_view value.now)) }
{
    if !is_binary(vr) {
        return Ok(None);
    }
    let Some(text) = value.as_str() else {
        return Ok(None);
    };
    match STANDARD.decode(alloc, text.as_bytes()) {
        Ok(octets) => Ok(Some(octets)),
        Err(DecodeAllocError::OutOfMemory) => Err(AllocError),
        Err(DecodeAllocError::DecodeError(_)) => Ok(None),
    }
}

/// The octets that an attribute object gives an attribute of the VR, if they are in a form of it.
pub(crate) fn octets_in(
    alloc: Global,
    vr: Vr,
    attribute: &Value<'_>,
) -> Result<Option<Vec<u8>>, AllocError>
    ensures { IfOk result (λ octets.
        option_map (λ v. v.items) octets ≡ octets_in vr (value_view attribute.now)) }
{
    if let Some(value) = attribute.get("Value") {
        let Some(values) = items_of(value) else {
            return Ok(None);
        };
        return array_octets(alloc, vr, values);
    }
    match attribute.get("InlineBinary") {
        Some(binary) => binary_octets(alloc, vr, binary),
        None => Ok(Some(Vec::new(alloc))),
    }
}
