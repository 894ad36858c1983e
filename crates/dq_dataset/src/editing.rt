//! Cutting elements out of a data set, and merging two data sets.
ghost use Rattle.std.specs.Prelude.{◌≡◌, ◌+◌, ◌<◌, [], ◌∷◌, drop, length, IfOk, IfNone, IfSome};
ghost use Rattle.dq_dataset.specs.View.{as_elements};
ghost use Rattle.dq_dataset.specs.Facts.{IsDataSet};
ghost use Rattle.dq_dataset.specs.Editing.{is_listed, cut_out, merged_elements, merged_data_set};

use crate::data_set::{DataSet, Element};
use dq_vr::Tag;
use std::alloc::{AllocError, Global};
use std::collections::VecDeque;

impl DataSet {
    /// A copy of those elements whose tags are listed, in the order of the data set.
    pub fn cut_out(&self, alloc: Global, tags: &[Tag]) -> Result<DataSet, AllocError>
        ensures { IfOk result (λ part. part ≡ cut_out tags.now self.now) }
    {
        let mut elements = Vec::new(alloc);
        let all = self.elements();
        for element in all {
            if is_listed(tags, element) {
                elements.push(element.copied(alloc)?)?;
            }
        }
        Ok(DataSet::from_elements(elements))
    }

    /// A copy of the data set with the elements of another: each takes the place of the one with
    /// its tag, or joins the others in the order of tags.
    pub fn merged(&self, alloc: Global, sent: &DataSet) -> Result<DataSet, AllocError>
        ensures { IfOk result (λ all. all ≡ merged_data_set self.now sent.now) }
    {
        let mut elements = Vec::new(alloc);
        let mut kept = self.elements();
        let mut new = sent.elements();
        while let Some((next, kept_after, new_after)) = first_merged(kept, new) {
            elements.push(next.copied(alloc)?)?;
            kept = kept_after;
            new = new_after;
        }
        Ok(DataSet::from_elements(elements))
    }

    /// `merged`, of a data set and another that are given away: their elements are moved.
    pub fn into_merged(self, alloc: Global, sent: DataSet) -> Result<DataSet, AllocError>
        ensures { IfOk result (λ all. all ≡ merged_data_set self sent) }
    {
        let mut kept = VecDeque::from_vec(self.into_elements());
        let mut new = VecDeque::from_vec(sent.into_elements());
        let mut elements = Vec::with_capacity(alloc, kept.len() + new.len())?;
        while let Some(next) = take_first_merged(&mut kept, &mut new) {
            elements.push(next)?;
        }
        Ok(DataSet::from_elements(elements))
    }
}

fn is_listed(tags: &[Tag], element: &Element) -> bool
    ensures { result ≡ is_listed tags.now element.now }
{
    tags.iter().any(|tag| element.tag == *tag)
}

type Merging<'a> = (&'a Element, &'a [Element], &'a [Element]);

/// The first element of what is merged, and what is left of both.
fn first_merged<'a>(kept: &'a [Element], sent: &'a [Element]) -> Option<Merging<'a>>
    requires { IsDataSet (as_elements kept.now) }
    ensures some { IfSome result
        (λ x. merged_elements kept.now sent.now ≡ x.0.now ∷ merged_elements x.1.now x.2.now) }
    ensures none { IfNone result (merged_elements kept.now sent.now ≡ []) }
    ensures rises { IfSome result (λ x. IsDataSet (as_elements x.1.now)) }
    ensures shorter { IfSome result
        (λ x. length x.1.now + length x.2.now < length kept.now + length sent.now) }
{
    let [new, others @ ..] = sent else {
        let [first, rest @ ..] = kept else {
            return None;
        };
        return Some((first, rest, sent));
    };
    let [first, rest @ ..] = kept else {
        return Some((new, kept, others));
    };
    if first.tag.is_below(new.tag) {
        return Some((first, rest, sent));
    }
    if first.tag == new.tag {
        return Some((new, rest, others));
    }
    Some((new, kept, others))
}

/// Takes the first element of what is merged.
fn take_first_merged(kept: &mut VecDeque<Element>, sent: &mut VecDeque<Element>) -> Option<Element>
    requires { IsDataSet (as_elements kept.old.items) }
    ensures some { IfSome result (λ e. merged_elements kept.old.items sent.old.items
        ≡ e ∷ merged_elements kept.new.items sent.new.items) }
    ensures none { IfNone result (merged_elements kept.old.items sent.old.items ≡ []) }
    ensures rises { IfSome result (λ _. IsDataSet (as_elements kept.new.items)) }
    ensures shorter { IfSome result (λ _. length kept.new.items + length sent.new.items
        < length kept.old.items + length sent.old.items) }
{
    let Some(new) = sent.front() else {
        return kept.pop_front();
    };
    let Some(first) = kept.front() else {
        return sent.pop_front();
    };
    if first.tag.is_below(new.tag) {
        return kept.pop_front();
    }
    if first.tag == new.tag {
        drop_first(kept);
        return sent.pop_front();
    }
    sent.pop_front()
}

fn drop_first(elements: &mut VecDeque<Element>)
    ensures { elements.new.items ≡ drop 1 elements.old.items }
{
    let _first = elements.pop_front();
}
