//! Data sets (PS3.5 section 7).
ghost use Rattle.std.specs.Prelude.{◌≡◌, find};
ghost use Rattle.std.specs.Option.{option_copied};
ghost use Rattle.dq_dataset.specs.View.{has_tag};

use dq_list::Listed;
use dq_vr::{Tag, Vr};
use std::alloc::{AllocError, Global};
use std::marker::Model;

/// The elements of a data set or of an item, in rising order of their tags.
#[cycle(data_set)]
#[derive(Drop)]
pub struct DataSet {
    elements: Listed<Element>,
}

/// One data element.
#[cycle(data_set)]
#[derive(Drop)]
pub struct Element {
    pub tag: Tag,
    pub vr: Vr,
    pub value: Value,
}

/// The value of an element.
#[cycle(data_set)]
#[derive(Drop)]
pub enum Value {
    Octets(Listed<u8>),
    Items(Listed<DataSet>),
}

impl Model for DataSet {
    ghost use Rattle.dq_dataset.specs.Tree.{ElementList, elements_code, item_count};

    ghost Value = { ElementList };

    ghost coded = { elements_code };

    ghost use Rattle.dq_dataset.specs.View.{as_elements};

    ghost view = { λ d. as_elements d.elements };

    ghost use Rattle.dq_dataset.specs.Facts.{IsDataSet};

    ghost invariant = { λ d. IsDataSet (as_elements d.elements) };

    ghost size = { item_count };

    ghost use Rattle.std.proofs.Common.{arith};
    ghost use Rattle.dq_dataset.specs.Falls.{most_le-elements};

    ghost size_decreases = { λ a h. omega (arith, most_le-elements a.elements) };
}

impl DataSet {
    ghost use Rattle.std.specs.Prelude.{List, [], ◌∷◌, ◌++◌, find, OnOk, OnErr};
    ghost use Rattle.std.specs.Option.{option_copied};
    ghost use Rattle.dq_dataset.specs.Tree.{no_elements};
    ghost use Rattle.dq_dataset.specs.View.{as_elements, elements_of, has_tag};
    ghost use Rattle.dq_dataset.specs.Facts.{IsDataSet};

    /// The data set without elements.
    pub fn new(alloc: Global) -> DataSet
        ensures { result ≡ no_elements }
    {
        DataSet::from_elements(Vec::new(alloc))
    }

    /// The data set of these elements, which have the facts of every data set.
    pub fn from_elements(elements: Vec<Element>) -> DataSet
        requires { IsDataSet (as_elements elements.items) }
        ensures { result ≡ as_elements elements.items }
    {
        DataSet {
            elements: Listed::from_inner(elements),
        }
    }

    /// Every `DataSet` has these facts (PS3.5 sections 6.2, 7.1 and 7.5).
    pub fn has_facts(&self)
        ensures { IsDataSet self.now }
    {
        let _elements = &self.elements;
    }

    /// The elements, in rising order of their tags.
    pub fn elements(&self) -> &[Element]
        ensures elements { result.now ≡ elements_of self.now }
        ensures facts { IsDataSet self.now }
    {
        self.elements.inner().as_slice()
    }

    /// The elements, in rising order of their tags.
    pub fn into_elements(self) -> Vec<Element>
        ensures elements { result.items ≡ elements_of self }
        ensures facts { IsDataSet self }
    {
        let DataSet { elements } = self;
        elements.into_inner()
    }

    /// The element with the tag.
    pub fn get(&self, tag: Tag) -> Option<&Element>
        ensures found { option_copied result ≡ find (has_tag tag) (elements_of self.now) }
        ensures facts { IsDataSet self.now }
    {
        find(self.elements(), tag)
    }

    /// Adds an element after the others. Want of memory changes nothing.
    pub fn push(&mut self, element: Element) -> Result<(), AllocError>
        requires { IsDataSet (as_elements (elements_of self.old ++ element ∷ [])) }
        ensures ok { OnOk result (elements_of self.new ≡ elements_of self.old ++ element ∷ []) }
        ensures err { OnErr result (self.new ≡ self.old) }
    {
        self.elements.push(element)
    }
}

fn find(elements: &[Element], tag: Tag) -> Option<&Element>
    ensures { option_copied result ≡ find (has_tag tag) elements.now }
{
    elements.iter().find(|element| element.tag == tag)
}
