//! Reading data sets from JSON: the DICOM JSON Model (PS3.18 annex F).
ghost use Rattle.std.specs.Prelude.{◌≡◌, ◌≢◌, ◌≤◌, ◌<◌, ◌^◌, ◌-◌, ◌%◌, ◌⊎◌, ℕ, length, codes, Some, None, IfOk, IfErr, IfSome, MatchResult, true};
ghost use Rattle.json.specs.Json.{document};
ghost use Rattle.json.specs.Reads.{token_of};
ghost use Rattle.json.specs.Lex.{tokens};
ghost use Rattle.json.specs.Value.{value_view, items_view, members_view};
ghost use Rattle.std.specs.List.{list_all};
ghost use Rattle.dq_dataset.specs.Facts.{AreElements, AreItems, IsElementTag};
ghost use Rattle.dq_dataset.specs.Rules.{follows, is_sequence, padded_value};
ghost use Rattle.dq_dataset.specs.View.{as_elements, items_of};
ghost use Rattle.dq_vr.specs.Dictionary.{known_vr};
ghost use Rattle.dq_json.specs.declared.json_fault.JsonFault.TheVariants.{NoMemory, Syntax};
ghost use Rattle.dq_json.specs.JsonReader.{Reads, tag_of_digits, tag_behind, vr_spelled, vr_told, vr_of, kept_vr, has_its_members, agrees_with_utf8, octets_for, data_sets_by, sequence_by, value_by, element_by, elements_by, data_set_in, reader_in, is_ascii, is_ascii_token, utf8_mark, marked, Spells, HasFault};
ghost use Rattle.dq_json.specs.Contents.{IsVrFor, IsContent, IsNext};

use crate::attributes::letters;
use crate::json_fault::{JsonFault, Rule, broken};
use crate::values::{count_named, has_count, items_of, members_of, octets_in};
use dq_dataset::{DataSet, Element, Value};
use dq_list::Listed;
use dq_vr::{Tag, Vr, lookup, tags};
use hex::FromHex;
use json::{Error, Reader, Scratch, Token, Value as Json};
use std::alloc::{AllocError, Global};

/// The greatest depth of sequences, where one of the outer data set has depth 1.
const DEPTH: u8 = 16;

/// What Specific Character Set says of UTF-8.
const UTF_8: &[u8] = b"ISO_IR 192";

/// The tag of eight hexadecimal digits.
#[tactic(auto, unfolding(crate::specs::JsonReader::tag_in))]
fn tag_of_digits(name: &str) -> Option<Tag>
    ensures exact { result ≡ tag_of_digits name.now }
    ensures facts { IfSome result (λ tag. (tag.group ≢ 0xFFFE) × (tag.element ≢ 0)
        × (tag.group < 2 ^ 16) × (tag.element < 2 ^ 16)) }
{
    let Ok(octets) = <[u8; 4] as FromHex>::from_hex(name) else {
        return None;
    };
    let [a, b, c, d] = octets;
    let tag = Tag {
        group: u16::from_be_bytes([a, b]),
        element: u16::from_be_bytes([c, d]),
    };
    if tag.group == 0xfffe || tag.element == 0 {
        None
    } else {
        Some(tag)
    }
}

fn follows(last: Option<Tag>, tag: Tag) -> bool
    ensures { result ≡ follows last tag }
{
    match last {
        Some(last) => last.is_below(tag),
        None => true,
    }
}

/// The tag of a name that stands behind an attribute.
fn tag_behind(last: Option<Tag>, name: &str) -> Result<Tag, JsonFault>
    ensures exact { result ≡ tag_behind last name.now }
    ensures facts { IfOk result (IsElementTag last) }
{
    let Some(tag) = tag_of_digits(name) else {
        return Err(broken(Rule::Name, last));
    };
    if follows(last, tag) {
        Ok(tag)
    } else {
        Err(broken(Rule::Order, Some(tag)))
    }
}

fn vr_spelled(letters: &[u8]) -> Option<Vr>
    ensures { result ≡ vr_spelled letters.now }
{
    match letters {
        [first, second] => Vr::from_letters(*first, *second),
        _ => None,
    }
}

/// The VR that letters give an attribute, for which the dictionary may have one.
fn vr_told(known: Option<Vr>, text: &str) -> Option<Vr>
    ensures exact { result ≡ vr_told known text.now }
    ensures facts { IfSome result (IsVrFor known) }
{
    match known {
        None => vr_spelled(text.as_bytes()),
        Some(known) => if text == letters(known) {
            Some(known)
        } else {
            None
        },
    }
}

/// The VR that an attribute object has.
fn vr_of(known: Option<Vr>, attribute: &Json<'_>) -> Option<Vr>
    ensures exact { result ≡ vr_of known (value_view attribute.now) }
    ensures facts { IfSome result (IsVrFor known) }
{
    let text = attribute.get("vr")?.as_str()?;
    vr_told(known, text)
}

fn is_sequence(vr: Vr) -> bool
    ensures { result ≡ is_sequence (Some vr) }
{
    matches!(vr, Vr::SQ)
}

/// The VR of an element.
fn kept_vr(known: Option<Vr>, vr: Vr) -> Vr
    ensures { result ≡ kept_vr known vr }
{
    match known {
        Some(known) => known,
        None => if is_sequence(vr) { Vr::SQ } else { Vr::UN },
    }
}

/// Whether an attribute object has the members that one has.
fn has_its_members(attribute: &Json<'_>) -> bool
    ensures { result ≡ has_its_members (value_view attribute.now) }
{
    let values = count_named(attribute, "Value") + count_named(attribute, "InlineBinary");
    values < 2 && has_count(attribute, values + 1)
}

fn agrees_with_utf8(tag: Tag, octets: &[u8]) -> bool
    ensures { result ≡ agrees_with_utf8 tag octets.now }
{
    tag != tags::SPECIFIC_CHARACTER_SET || octets == UTF_8
}

/// The octets with a pad if they are odd.
fn padded(alloc: Global, vr: Vr, octets: &[u8]) -> Result<Vec<u8>, AllocError>
    ensures padded { IfOk result (λ v. v.items ≡ padded_value vr octets.now) }
    ensures even { IfOk result (λ v. length v.items % 2 ≡ 0) }
{
    let mut value = Vec::from_slice(alloc, octets)?;
    if octets.len() % 2 != 0 {
        value.push(if vr.is_text() { b' ' } else { 0 })?;
    }
    Ok(value)
}

/// The octets of an attribute that is not a sequence.
fn octets_for(alloc: Global, tag: Tag, vr: Vr, attribute: &Json<'_>) -> Result<Vec<u8>, JsonFault>
    ensures exact { Reads (λ v. v.items) result (octets_for tag vr (value_view attribute.now)) }
    ensures even { IfOk result (λ v. length v.items % 2 ≡ 0) }
{
    let Some(octets) = octets_in(alloc, vr, attribute)? else {
        return Err(broken(Rule::Value, Some(tag)));
    };
    if !agrees_with_utf8(tag, octets.as_slice()) {
        return Err(broken(Rule::CharacterSet, Some(tag)));
    }
    Ok(padded(alloc, vr, octets.as_slice())?)
}

/// The data sets of a sequence, in each of which so many levels may be.
#[cycle(reading)]
fn data_sets_of(
    alloc: Global,
    levels: u8,
    tag: Tag,
    items: &[Json<'_>],
) -> Result<Vec<DataSet>, JsonFault>
    requires { levels ≤ 16 }
    ensures exact { Reads (λ v. v.items) result
        (data_sets_by (data_set_in levels (Some tag)) (items_view items.now)) }
    ensures facts { IfOk result (λ v. AreItems levels (items_of v.items)) }
{
    let mut data_sets = Vec::new(alloc);
    for item in items {
        data_sets.push(data_set_in(alloc, levels, Some(tag), item)?)?;
    }
    Ok(data_sets)
}

/// The data sets of an attribute that is a sequence.
#[cycle(reading)]
fn sequence_of(
    alloc: Global,
    levels: u8,
    tag: Tag,
    attribute: &Json<'_>,
) -> Result<Vec<DataSet>, JsonFault>
    requires { levels ≤ 16 }
    ensures exact { Reads (λ v. v.items) result
        (sequence_by (reader_in levels) tag (value_view attribute.now)) }
    ensures deep { IfOk result (λ _. 0 < levels) }
    ensures facts { IfOk result (λ v. AreItems (levels - 1) (items_of v.items)) }
{
    if levels == 0 {
        return Err(broken(Rule::Depth, Some(tag)));
    }
    let Some(values) = attribute.get("Value") else {
        return match attribute.get("InlineBinary") {
            Some(_) => Err(broken(Rule::Value, Some(tag))),
            None => Ok(Vec::new(alloc)),
        };
    };
    match items_of(values) {
        Some(items) => data_sets_of(alloc, levels - 1, tag, items),
        None => Err(broken(Rule::Value, Some(tag))),
    }
}

/// The value of an attribute.
#[cycle(reading)]
#[tactic(auto, unfolding(crate::specs::JsonReader::value_by))]
fn value_of(
    alloc: Global,
    levels: u8,
    tag: Tag,
    vr: Vr,
    attribute: &Json<'_>,
) -> Result<Value, JsonFault>
    requires { levels ≤ 16 }
    ensures exact { Reads (λ value. value) result
        (value_by (reader_in levels) tag vr (value_view attribute.now)) }
    ensures facts { IfOk result (IsContent levels vr) }
{
    if !has_its_members(attribute) {
        return Err(broken(Rule::Value, Some(tag)));
    }
    if is_sequence(vr) {
        let items = sequence_of(alloc, levels, tag, attribute)?;
        return Ok(Value::Items(Listed::from_inner(items)));
    }
    let octets = octets_for(alloc, tag, vr, attribute)?;
    Ok(Value::Octets(Listed::from_inner(octets)))
}

/// The element of a name and an attribute object that stand behind another.
#[cycle(reading)]
#[tactic(auto, unfolding(crate::specs::JsonReader::element_by))]
fn element_of(
    alloc: Global,
    levels: u8,
    last: Option<Tag>,
    name: &str,
    attribute: &Json<'_>,
) -> Result<Element, JsonFault>
    requires { levels ≤ 16 }
    ensures exact { Reads (λ element. element) result
        (element_by (reader_in levels) last name.now (value_view attribute.now)) }
    ensures facts { IfOk result (IsNext levels last) }
{
    let tag = tag_behind(last, name)?;
    let known = lookup(tag);
    let Some(vr) = vr_of(known, attribute) else {
        return Err(broken(Rule::Vr, Some(tag)));
    };
    let value = value_of(alloc, levels, tag, vr, attribute)?;
    Ok(Element {
        tag,
        vr: kept_vr(known, vr),
        value,
    })
}

/// The elements of the members of an object.
#[cycle(reading)]
fn elements_of(
    alloc: Global,
    levels: u8,
    members: &[(&str, Json<'_>)],
) -> Result<Vec<Element>, JsonFault>
    requires { levels ≤ 16 }
    ensures exact { Reads (λ v. v.items) result
        (elements_by (reader_in levels) None (members_view members.now)) }
    ensures facts { IfOk result (λ v. AreElements levels None (as_elements v.items)) }
{
    let mut elements = Vec::new(alloc);
    let mut last = None;
    for member in members {
        let element = element_of(alloc, levels, last, member.0, &member.1)?;
        last = Some(element.tag);
        elements.push(element)?;
    }
    Ok(elements)
}

/// The data set of an object, in which so many levels of sequences may be.
#[cycle(reading)]
fn data_set_in(
    alloc: Global,
    levels: u8,
    place: Option<Tag>,
    value: &Json<'_>,
) -> Result<DataSet, JsonFault>
    requires { levels ≤ 16 }
    ensures exact { Reads (λ d. d) result (data_set_in levels place (value_view value.now)) }
    ensures facts { IfOk result (AreElements levels None) }
{
    let Some(members) = members_of(value) else {
        return Err(broken(Rule::Object, place));
    };
    let elements = elements_of(alloc, levels, members)?;
    Ok(DataSet::from_elements(elements))
}

/// The octet at which a text stops to be JSON.
fn fault_octet(alloc: Global, text: &str) -> Result<usize, AllocError> {
    let mut scratch = Scratch::new(alloc);
    let mut reader = Reader::new(text, &mut scratch)?;
    match Json::read(alloc, &mut reader, json::MAX_DEPTH) {
        Err(Error::OutOfMemory) => return Err(AllocError),
        Err(_) => {}
        Ok(_) => {
            let _more = reader.next();
        }
    }
    Ok(reader.offset())
}

/// The value of a text.
fn value_of_text<'a>(
    alloc: Global,
    text: &'a str,
    scratch: &'a mut Scratch,
) -> Result<Json<'a>, JsonFault>
    ensures { MatchResult result (λ value. document text.now ≡ Some (value_view value))
        (λ e. (e ≡ NoMemory) ⊎ ((octet : ℕ) × (e ≡ Syntax octet) × (document text.now ≡ None))) }
{
    match Json::parse(alloc, text, scratch) {
        Ok(value) => Ok(value),
        Err(Error::Invalid) => Err(JsonFault::Syntax(fault_octet(alloc, text)?)),
        Err(_) => Err(JsonFault::NoMemory),
    }
}

fn is_ascii(text: &str) -> bool
    ensures { result ≡ is_ascii text.now }
{
    text.as_bytes().iter().all(|octet| *octet < 128)
}

fn is_ascii_token(token: Token<'_>) -> bool
    ensures { result ≡ is_ascii_token (token_of token.entry) }
{
    match token {
        Token::String(text) => is_ascii(text),
        _ => true,
    }
}

/// Whether all strings of a text are of the default repertoire.
fn has_ascii_strings(alloc: Global, text: &str) -> Result<bool, AllocError>
    ensures { IfOk result (λ is_so. is_so ≡ list_all is_ascii_token (tokens text.now)) }
{
    let mut scratch = Scratch::new(alloc);
    let mut reader = Reader::new(text, &mut scratch)?;
    while let Some(token) = reader.next() {
        if !is_ascii_token(token) {
            return Ok(false);
        }
    }
    Ok(true)
}

/// The data set that says that its text is UTF-8.
fn utf8_mark(alloc: Global) -> Result<DataSet, AllocError>
    ensures { IfOk result (λ d. d ≡ utf8_mark) }
{
    let mut elements = Vec::new(alloc);
    elements.push(Element {
        tag: tags::SPECIFIC_CHARACTER_SET,
        vr: Vr::CS,
        value: Value::Octets(Listed::copy_of(alloc, UTF_8)?),
    })?;
    Ok(DataSet::from_elements(elements))
}

/// A data set, with the character set of its text.
fn marked(alloc: Global, text: &str, data_set: DataSet) -> Result<DataSet, AllocError>
    ensures { IfOk result (λ d. d ≡ marked text.now data_set) }
{
    if has_ascii_strings(alloc, text)? {
        return Ok(data_set);
    }
    data_set.into_merged(alloc, utf8_mark(alloc)?)
}

/// Returns the data set whose DICOM JSON Model object a text is (PS3.18 section F.2). Its text is UTF-8:
/// Specific Character Set is ISO_IR 192, unless all strings are ASCII and none is given.
pub fn data_set_of(alloc: Global, octets: &[u8]) -> Result<DataSet, JsonFault>
    // A data set that is read is spelled so.
    ensures spelled { IfOk result (Spells octets.now) }
    // A fault is want of memory, or the first rule that is broken, with its place.
    ensures fault { IfErr result (HasFault octets.now) }
{
    let text = match std::str::from_utf8(octets) {
        Ok(text) => text,
        Err(error) => return Err(JsonFault::Syntax(error.valid_up_to())),
    };
    let mut scratch = Scratch::new(alloc);
    let value = value_of_text(alloc, text, &mut scratch)?;
    let data_set = data_set_in(alloc, DEPTH, None, &value)?;
    Ok(marked(alloc, text, data_set)?)
}
