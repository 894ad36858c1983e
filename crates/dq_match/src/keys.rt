//! The elements of identifiers and of records, by tag.
ghost use Rattle.std.specs.Prelude.{◌≡◌, find};
ghost use Rattle.std.specs.Option.{option_copied};
ghost use Rattle.std.specs.List.{list_any};
ghost use Rattle.dq_match.specs.Keys.{items_in, is_tag, is_key, other_than_keys};
ghost use Rattle.dq_dataset.specs.View.{has_tag};
ghost use Rattle.dq_dataset.specs.Values.{element_octets};

use dq_dataset::{DataSet, Element, Value};
use dq_vr::{Tag, tags};

/// Whether an element is outside items, or inside one.
#[derive(Clone, Copy, Debug, PartialEq, Eq)]
pub enum Nesting {
    Outer,
    Inner,
}

/// The elements of an identifier that tell how it is answered, and are no keys (PS3.4 sections
/// C.4.1.1.3 and K.4.1.1.3).
pub(crate) static OTHER_THAN_KEYS: [Tag; 4] = [
    tags::SPECIFIC_CHARACTER_SET,
    tags::QUERY_RETRIEVE_LEVEL,
    tags::RETRIEVE_AE_TITLE,
    tags::INSTANCE_AVAILABILITY,
];

impl Nesting {
    pub(crate) fn is_key(self, tag: Tag) -> bool
        ensures { result ≡ is_key self tag }
    {
        match self {
            Nesting::Outer => !is_other_than_key(tag),
            Nesting::Inner => true,
        }
    }
}

pub(crate) fn is_other_than_key(tag: Tag) -> bool
    ensures { result ≡ list_any (λ wanted. is_tag wanted tag) other_than_keys }
{
    OTHER_THAN_KEYS.iter().any(|other| *other == tag)
}

/// The element with the tag.
pub(crate) fn element_at(elements: &[Element], tag: Tag) -> Option<&Element>
    ensures { option_copied result ≡ find (has_tag tag) elements.now }
{
    elements.iter().find(|element| element.tag == tag)
}

/// Returns the value of a record's element: no octets where it is absent, or a sequence.
pub fn octets_in(held: Option<&Element>) -> &[u8]
    ensures { result.now ≡ element_octets (option_copied held.entry) }
{
    match held {
        Some(element) => match &element.value {
            Value::Octets(octets) => octets.as_slice(),
            Value::Items(_) => &[],
        },
        None => &[],
    }
}

/// The items of a record's element, none where it is absent or no sequence.
pub(crate) fn items_in(held: Option<&Element>) -> &[DataSet]
    ensures { result.now ≡ items_in (option_copied held.entry) }
{
    match held {
        Some(element) => match &element.value {
            Value::Octets(_) => &[],
            Value::Items(items) => items.as_slice(),
        },
        None => &[],
    }
}
