//! Whether data sets, elements and values are the same.
ghost use Rattle.std.specs.Prelude.{◌≡◌, ◌↔◌, IsTrue};
ghost use Rattle.dq_dataset.specs.Same.{same_element, has_element};

use crate::data_set::{DataSet, Element, Value};

impl DataSet {
    /// Whether both have the same elements.
    pub fn is_same(&self, other: &DataSet) -> bool
        ensures { IsTrue result ↔ (self.now ≡ other.now) }
    {
        are_same_elements(self.elements(), other.elements())
    }

    /// Whether the element, with its VR and its value, is one of the data set's, of which the tags
    /// rise (PS3.5 section 7.1).
    pub fn has(&self, element: &Element) -> bool
        ensures { result ≡ has_element self.now element.now }
    {
        let elements = self.elements();
        let at = elements.partition_point(|held| held.tag.is_below(element.tag));
        match elements.get(at) {
            Some(held) => held.is_same(element),
            None => false,
        }
    }
}

impl Element {
    /// Returns whether both elements have the same tag, VR and value.
    pub fn is_same(&self, other: &Element) -> bool
        ensures equal { IsTrue result ↔ (self.now ≡ other.now) }
        ensures same { result ≡ same_element self.now other.now }
    {
        is_same_element(self, other)
    }
}

fn is_same_element(element: &Element, other: &Element) -> bool
    ensures { IsTrue result ↔ (element.now ≡ other.now) }
{
    element.tag == other.tag
        && element.vr == other.vr
        && is_same_value(&element.value, &other.value)
}

#[cycle(comparing)]
fn is_same_value(value: &Value, other: &Value) -> bool
    ensures { IsTrue result ↔ (value.now ≡ other.now) }
{
    match (value, other) {
        (Value::Octets(octets), Value::Octets(others)) => octets.as_slice() == others.as_slice(),
        (Value::Items(items), Value::Items(others)) => {
            are_same_items(items.as_slice(), others.as_slice())
        }
        _ => false,
    }
}

#[cycle(comparing)]
fn are_same_elements(elements: &[Element], others: &[Element]) -> bool
    ensures { IsTrue result ↔ (elements.now ≡ others.now) }
{
    let mut left = others;
    for element in elements {
        let [other, rest @ ..] = left else {
            return false;
        };
        if element.tag != other.tag || element.vr != other.vr {
            return false;
        }
        if !is_same_value(&element.value, &other.value) {
            return false;
        }
        left = rest;
    }
    left.is_empty()
}

#[cycle(comparing)]
fn are_same_items(items: &[DataSet], others: &[DataSet]) -> bool
    ensures { IsTrue result ↔ (items.now ≡ others.now) }
{
    let mut left = others;
    for item in items {
        let [other, rest @ ..] = left else {
            return false;
        };
        if !are_same_elements(item.elements(), other.elements()) {
            return false;
        }
        left = rest;
    }
    left.is_empty()
}
