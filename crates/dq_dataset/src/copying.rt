//! Copies of data sets and of their elements.
ghost use Rattle.std.specs.Prelude.{◌≡◌, IfOk};

use crate::data_set::{DataSet, Element, Value};
use dq_list::Listed;
use std::alloc::{AllocError, Global};

impl DataSet {
    pub fn copied(&self, alloc: Global) -> Result<DataSet, AllocError>
        ensures { IfOk result (λ copy. copy ≡ self.now) }
    {
        let elements = copied_elements(alloc, self.elements())?;
        Ok(DataSet::from_elements(elements))
    }
}

impl Element {
    pub fn copied(&self, alloc: Global) -> Result<Element, AllocError>
        ensures { IfOk result (λ copy. copy ≡ self.now) }
    {
        Ok(Element {
            tag: self.tag,
            vr: self.vr,
            value: copied_value(alloc, &self.value)?,
        })
    }
}

#[cycle(copying)]
fn copied_value(alloc: Global, value: &Value) -> Result<Value, AllocError>
    ensures { IfOk result (λ copy. copy ≡ value.now) }
{
    match value {
        Value::Octets(octets) => {
            let octets = Vec::from_slice(alloc, octets.inner())?;
            Ok(Value::Octets(Listed::from_inner(octets)))
        }
        Value::Items(items) => {
            let items = copied_items(alloc, items.inner())?;
            Ok(Value::Items(Listed::from_inner(items)))
        }
    }
}

#[cycle(copying)]
fn copied_elements(alloc: Global, elements: &[Element]) -> Result<Vec<Element>, AllocError>
    ensures { IfOk result (λ copies. copies.items ≡ elements.now) }
{
    let mut copies = Vec::new(alloc);
    for element in elements {
        let value = copied_value(alloc, &element.value)?;
        copies.push(Element {
            tag: element.tag,
            vr: element.vr,
            value,
        })?;
    }
    Ok(copies)
}

#[cycle(copying)]
fn copied_items(alloc: Global, items: &[DataSet]) -> Result<Vec<DataSet>, AllocError>
    ensures { IfOk result (λ copies. copies.items ≡ items.now) }
{
    let mut copies = Vec::new(alloc);
    for item in items {
        let elements = copied_elements(alloc, item.elements())?;
        copies.push(DataSet::from_elements(elements))?;
    }
    Ok(copies)
}
