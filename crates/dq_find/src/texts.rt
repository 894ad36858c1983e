//! Elements with texts.
ghost use Rattle.std.specs.Prelude.{◌≡◌, IfOk, map};
ghost use Rattle.dq_find.specs.Texts.{element_of};

use dq_dataset::{Element, Value};
use dq_list::Listed;
use dq_vr::{Tag, Vr};
use std::alloc::{AllocError, Global};

/// An element with a text, which is given without its pad.
#[derive(Clone, Copy)]
pub(crate) struct Text<'a> {
    pub(crate) tag: Tag,
    pub(crate) vr: Vr,
    pub(crate) value: &'a [u8],
}

impl Text<'_> {
    /// The element, with the pad that makes its octets even in number (PS3.5 section 6.2).
    fn element(&self, alloc: Global) -> Result<Element, AllocError>
        ensures { IfOk result (λ e. e ≡ element_of self.now) }
    {
        let mut octets = Vec::from_slice(alloc, self.value)?;
        if octets.len() % 2 == 1 {
            octets.push(if self.vr.is_text() { b' ' } else { 0 })?;
        }
        Ok(Element {
            tag: self.tag,
            vr: self.vr,
            value: Value::Octets(Listed::from_inner(octets)),
        })
    }
}

/// The elements, in their order.
pub(crate) fn elements(alloc: Global, texts: &[Text]) -> Result<Vec<Element>, AllocError>
    ensures { IfOk result (λ elements. elements.items ≡ map element_of texts.now) }
{
    let mut elements = Vec::new(alloc);
    for text in texts {
        elements.push(text.element(alloc)?)?;
    }
    Ok(elements)
}
