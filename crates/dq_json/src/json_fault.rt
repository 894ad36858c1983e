//! Why a text is not the DICOM JSON Model object of a data set (PS3.18 section F.2).
ghost use Rattle.std.specs.Prelude.{◌≡◌, ◌++◌, IfOk, OnOk, string_bytes};
ghost use Rattle.dq_json.specs.declared.json_fault.JsonFault.TheVariants.{NoMemory};
ghost use Rattle.dq_json.specs.Faults.{rule_word, place_text, fault_text, broken};

use crate::text::tag_digits;
use dq_vr::Tag;
use std::alloc::{AllocError, AllocFailed, Global};

/// A rule of the model, or of data sets.
#[derive(Clone, Copy, Debug, PartialEq, Eq)]
pub enum Rule {
    /// A data set is an object.
    Object,
    /// A name is the eight hexadecimal digits of a tag, and not that of a group length or an item.
    Name,
    /// Tags rise.
    Order,
    /// `vr` is a value representation, and the dictionary's if that has the tag.
    Vr,
    /// Beside `vr` there is at most one value, in a form of the VR.
    Value,
    /// Sequences are at most 16 deep in one another.
    Depth,
    /// Specific Character Set is ISO_IR 192.
    CharacterSet,
}

/// A rule that is broken, and the attribute that breaks it. If that has no tag, it is the one before
/// it in the object; for an item that is not an object, its sequence. There may be none.
#[derive(Clone, Copy, Debug, PartialEq, Eq)]
pub struct BrokenRule {
    pub rule: Rule,
    pub place: Option<Tag>,
}

/// Why no data set was read.
#[derive(Clone, Copy, Debug, PartialEq, Eq)]
pub enum JsonFault {
    /// The text is not JSON in UTF-8, from this octet on.
    Syntax(usize),
    /// It is JSON of another form.
    Form(BrokenRule),
    /// A growth was refused.
    NoMemory,
}

impl From<AllocError> for JsonFault {
    ghost from_gives = { λ _ e. e ≡ NoMemory };

    fn from(_e: AllocError) -> JsonFault {
        JsonFault::NoMemory
    }
}

impl<T: Drop> From<AllocFailed<T>> for JsonFault {
    ghost from_gives = { λ _ e. e ≡ NoMemory };

    fn from(_e: AllocFailed<T>) -> JsonFault {
        JsonFault::NoMemory
    }
}

/// The fault of an attribute.
pub(crate) fn broken(rule: Rule, place: Option<Tag>) -> JsonFault
    ensures { result ≡ broken rule place }
{
    JsonFault::Form(BrokenRule { rule, place })
}

impl Rule {
    fn word(self) -> &'static str
        ensures { result.now ≡ rule_word self }
    {
        match self {
            Rule::Object => "object",
            Rule::Name => "name",
            Rule::Order => "order",
            Rule::Vr => "vr",
            Rule::Value => "value",
            Rule::Depth => "depth",
            Rule::CharacterSet => "character set",
        }
    }
}

/// Adds a space and the digits of a tag.
fn push_place(alloc: Global, text: &mut String, place: Option<Tag>) -> Result<(), AllocError>
    ensures { OnOk result (string_bytes text.new ≡ string_bytes text.old ++ place_text place) }
{
    let Some(tag) = place else {
        return Ok(());
    };
    text.push_str(" ")?;
    text.push_str(tag_digits(alloc, tag)?.as_str())
}

impl JsonFault {
    /// The word for it: `json` with the octet, or with the rule and the tag, as `json vr 00100010`.
    pub fn text(self, alloc: Global) -> Result<String, AllocError>
        ensures { IfOk result (λ text. string_bytes text ≡ fault_text self) }
    {
        match self {
            JsonFault::Syntax(octet) => format!(in alloc; "json octet {octet}"),
            JsonFault::NoMemory => String::from_str(alloc, "json memory"),
            JsonFault::Form(broken) => {
                let mut text = String::from_str(alloc, "json ")?;
                text.push_str(broken.rule.word())?;
                push_place(alloc, &mut text, broken.place)?;
                Ok(text)
            }
        }
    }
}
