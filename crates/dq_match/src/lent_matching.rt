//! Matching of a record on its elements as they are lent, before a data set is built of them (PS3.4
//! section C.2.2.2).
ghost use Rattle.std.specs.Prelude.{◌≡◌, true, map};
ghost use Rattle.std.specs.List.{list_all};
ghost use Rattle.std.specs.Result.{result_unwrap_or};
ghost use Rattle.dq_dataset.specs.declared.header.Syntax.TheVariants.{Explicit};
ghost use Rattle.dq_dataset.specs.Lending.{lent_elements};
ghost use Rattle.dq_dataset.specs.DataSetReader.{data_set_read};
ghost use Rattle.dq_dataset.specs.Tree.{no_elements};
ghost use Rattle.dq_dataset.specs.View.{elements_of};
ghost use Rattle.dq_match.specs.AsLent.{is_left, is_met_at_once, are_the_value, asks_for, value_asked, meets_keys, all_meet};
ghost use Rattle.dq_match.specs.Prepared.{element_of_key, vr_and_value};

use crate::prepared::{PreparedKey, PreparedKeys, PreparedValue};
use dq_dataset::laws::spelling_law;
use dq_dataset::{Elements, Lent, Syntax};
use dq_vr::{Tag, Vr};

fn are_the_value(vr: Vr, octets: &[u8]) -> bool
    ensures { result ≡ are_the_value vr octets.now }
{
    vr != Vr::SQ && octets.len() % 2 == 0
}

pub(crate) fn is_left(later: &[Tag], tag: Tag) -> bool
    ensures { result ≡ is_left later.now tag }
{
    later.iter().any(|one| *one == tag)
}

fn asks_for(later: &[Tag], key: Tag, tag: Tag) -> bool
    ensures { result ≡ asks_for later.now key tag }
{
    key == tag && !is_left(later, key)
}

fn value_asked(value: &PreparedValue, held: &[u8]) -> bool
    ensures { result ≡ value_asked (vr_and_value value.now).1 (vr_and_value value.now).0 held.now }
{
    match value {
        PreparedValue::Plain(values) => values.is_met_by(held),
        PreparedValue::Nested(_, _) => true,
    }
}

/// Whether a lent element meets the keys with its tag, as far as its octets tell.
fn meets_keys(keys: &[PreparedKey], later: &[Tag], lent: Lent) -> bool
    ensures { result ≡ meets_keys later.now (map element_of_key keys.now) (record {
      tag = lent.entry.tag;
      vr = lent.entry.vr;
      syntax = lent.entry.syntax;
      octets = lent.entry.octets.now;
    }) }
{
    if !are_the_value(lent.vr, lent.octets) {
        return true;
    }
    for key in keys {
        if asks_for(later, key.tag, lent.tag) && !value_asked(&key.value, lent.octets) {
            return false;
        }
    }
    true
}

impl PreparedKeys {
    /// Whether the elements that octets spell in Explicit meet the keys, as far as it can be told
    /// before a data set is built: sequences are passed over, and keys with the tags that are left
    /// for later. Octets that spell no data set meet all keys.
    pub fn lent_meets(&self, later: &[Tag], octets: &[u8]) -> bool
        ensures as_lent { result ≡ all_meet later.now (elements_of self.now) true
            (lent_elements Explicit octets.now) }
        // A data set that meets the keys passes.
        ensures passes { list_all (is_met_at_once later.now (result_unwrap_or (data_set_read Explicit octets.now) no_elements))
            (elements_of self.now) ≡ true → result ≡ true }
    {
        spelling_law();
        let keys = self.keys();
        let mut met = true;
        let mut elements = Elements::new(octets, Syntax::Explicit);
        while let Some(next) = elements.next() {
            let Ok(lent) = next else {
                return true;
            };
            met = met && meets_keys(keys, later, lent);
        }
        met
    }
}
