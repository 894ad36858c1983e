//! The value of an element that holds octets, as a member of a DICOM JSON attribute object
//! (PS3.18 sections F.2.2 to F.2.7).
ghost use Rattle.std.specs.Prelude.{◌≡◌, ◌==◌, ◌∷◌, [], ◌++◌, codes, flat_map, position};
ghost use Rattle.json.specs.Token.{begin_object, begin_array, key, string};
ghost use Rattle.dq_vr.specs.Vr.{letters_of};
ghost use Rattle.dq_value.specs.Parts.{element_values};
ghost use Rattle.dq_json.specs.AddedTokens.{Adds};
ghost use Rattle.dq_json.specs.Text.{tag_digits};
ghost use Rattle.dq_json.specs.Attributes.{halves, group_member, name_groups, some_value, value_tokens, numbers, number_tokens, value_member, binary_member, is_spelled_as_text, octets_member};

use crate::text::{Repertoire, put_text, tag_digits};
use base64::engine::general_purpose::STANDARD;
use dq_value::values;
use dq_vr::{Tag, Vr};
use json::Writer;
use std::alloc::{AllocError, Global};

/// The octets before and behind the first `=`.
#[tactic(auto, unfolding(crate::specs::Attributes::halves_at))]
fn halves(octets: &[u8]) -> (&[u8], &[u8])
    ensures { (result.0.now, result.1.now) ≡ halves octets.now }
{
    match place_of_equals(octets) {
        Some(at) => {
            let (before, others) = octets.split_at(at);
            (before, others.split_at(1).1)
        }
        None => (octets, &[]),
    }
}

fn place_of_equals(octets: &[u8]) -> Option<usize>
    ensures { result ≡ position (λ octet. octet == 0x3d) octets.now }
{
    octets.iter().position(|octet| *octet == b'=')
}

#[tactic(auto, unfolding(crate::specs::Attributes::group_member))]
fn put_group(
    out: &mut Writer,
    alloc: Global,
    repertoire: Repertoire,
    name: &str,
    octets: &[u8],
) -> Result<(), AllocError>
    ensures { Adds result out.old out.new (group_member repertoire name.now octets.now) }
{
    if octets.is_empty() {
        return Ok(());
    }
    out.key(name)?;
    put_text(out, alloc, repertoire, octets)
}

fn put_name_groups(
    out: &mut Writer,
    alloc: Global,
    repertoire: Repertoire,
    value: &[u8],
) -> Result<(), AllocError>
    ensures { Adds result out.old out.new (name_groups repertoire value.now) }
{
    let (alphabetic, others) = halves(value);
    let (ideographic, phonetic) = halves(others);
    put_group(out, alloc, repertoire, "Alphabetic", alphabetic)?;
    put_group(out, alloc, repertoire, "Ideographic", ideographic)?;
    put_group(out, alloc, repertoire, "Phonetic", phonetic)
}

/// Adds one value of text.
#[tactic(auto, unfolding(crate::specs::Attributes::value_tokens, crate::specs::Attributes::is_name))]
fn put_value(
    out: &mut Writer,
    alloc: Global,
    repertoire: Repertoire,
    vr: Vr,
    value: &[u8],
) -> Result<(), AllocError>
    ensures { Adds result out.old out.new (value_tokens repertoire vr value.now) }
{
    if value.is_empty() {
        return out.null();
    }
    match vr {
        Vr::PN => {
            out.begin_object()?;
            put_name_groups(out, alloc, repertoire, value)?;
            out.end_object()
        }
        _ => put_text(out, alloc, repertoire, value),
    }
}

/// Begins the array of an attribute's values.
pub(crate) fn begin_values(out: &mut Writer) -> Result<(), AllocError>
    ensures { Adds result out.old out.new (key (codes "Value") ∷ begin_array ∷ []) }
{
    out.key("Value")?;
    out.begin_array()
}

#[tactic(auto, unfolding(crate::specs::Attributes::value_member))]
fn put_texts(
    out: &mut Writer,
    alloc: Global,
    repertoire: Repertoire,
    vr: Vr,
    octets: &[u8],
) -> Result<(), AllocError>
    ensures { Adds result out.old out.new
        (value_member (value_tokens repertoire vr) (element_values vr octets.now)) }
{
    let mut values = values(vr, octets);
    let Some(first) = values.next() else {
        return Ok(());
    };
    begin_values(out)?;
    put_value(out, alloc, repertoire, vr, first)?;
    for value in values {
        put_value(out, alloc, repertoire, vr, value)?;
    }
    out.end_array()
}

fn put_each_number(out: &mut Writer, octets: &[u8]) -> Result<(), AllocError>
    ensures { Adds result out.old out.new (flat_map number_tokens (numbers octets.now)) }
{
    let mut rest = octets;
    while rest.len() > 1 {
        out.u64(u64::from(rest[0]) + u64::from(rest[1]) * 256)?;
        rest = rest.split_at(2).1;
    }
    Ok(())
}

#[tactic(auto, unfolding(crate::specs::Attributes::numbers, crate::specs::Attributes::value_member))]
fn put_numbers(out: &mut Writer, octets: &[u8]) -> Result<(), AllocError>
    ensures { Adds result out.old out.new (value_member number_tokens (numbers octets.now)) }
{
    if octets.len() < 2 {
        return Ok(());
    }
    begin_values(out)?;
    put_each_number(out, octets)?;
    out.end_array()
}

#[tactic(auto, unfolding(crate::specs::Attributes::binary_member))]
fn put_binary(out: &mut Writer, alloc: Global, octets: &[u8]) -> Result<(), AllocError>
    ensures { Adds result out.old out.new (binary_member octets.now) }
{
    if octets.is_empty() {
        return Ok(());
    }
    let text = STANDARD.encode(alloc, octets)?;
    out.key("InlineBinary")?;
    out.string(text.as_str())
}

#[tactic(auto, unfolding(crate::specs::Attributes::is_spelled_as_text))]
pub(crate) fn is_spelled_as_text(vr: Vr) -> bool
    ensures { result ≡ is_spelled_as_text vr }
{
    match vr {
        Vr::UI => true,
        _ => vr.is_text(),
    }
}

/// Adds the value of an element that holds octets.
#[tactic(auto, unfolding(crate::specs::Attributes::is_number))]
pub(crate) fn put_octets(
    out: &mut Writer,
    alloc: Global,
    repertoire: Repertoire,
    vr: Vr,
    octets: &[u8],
) -> Result<(), AllocError>
    ensures { Adds result out.old out.new (octets_member repertoire vr octets.now) }
{
    match vr {
        Vr::US => put_numbers(out, octets),
        _ if is_spelled_as_text(vr) => put_texts(out, alloc, repertoire, vr, octets),
        _ => put_binary(out, alloc, octets),
    }
}

/// The letters of a VR, as text.
#[tactic(auto, unfolding(dq_vr::specs::Vr::letters_of))]
pub(crate) fn letters(vr: Vr) -> &'static str
    ensures { result.now ≡ letters_of vr }
{
    match vr {
        Vr::AE => "AE",
        Vr::AS => "AS",
        Vr::AT => "AT",
        Vr::CS => "CS",
        Vr::DA => "DA",
        Vr::DS => "DS",
        Vr::DT => "DT",
        Vr::FD => "FD",
        Vr::FL => "FL",
        Vr::IS => "IS",
        Vr::LO => "LO",
        Vr::LT => "LT",
        Vr::OB => "OB",
        Vr::OD => "OD",
        Vr::OF => "OF",
        Vr::OL => "OL",
        Vr::OV => "OV",
        Vr::OW => "OW",
        Vr::PN => "PN",
        Vr::SH => "SH",
        Vr::SL => "SL",
        Vr::SQ => "SQ",
        Vr::SS => "SS",
        Vr::ST => "ST",
        Vr::SV => "SV",
        Vr::TM => "TM",
        Vr::UC => "UC",
        Vr::UI => "UI",
        Vr::UL => "UL",
        Vr::UN => "UN",
        Vr::UR => "UR",
        Vr::US => "US",
        Vr::UT => "UT",
        Vr::UV => "UV",
    }
}

/// Begins an attribute object: its tag and its VR.
pub(crate) fn begin_attribute(
    out: &mut Writer,
    alloc: Global,
    tag: Tag,
    vr: Vr,
) -> Result<(), AllocError>
    ensures { Adds result out.old out.new
        (key (tag_digits tag) ∷ begin_object ∷ key (codes "vr") ∷ string (letters_of vr) ∷ []) }
{
    out.key(tag_digits(alloc, tag)?.as_str())?;
    out.begin_object()?;
    out.key("vr")?;
    out.string(letters(vr))
}
