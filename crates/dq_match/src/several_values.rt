//! Several values of a key, which are put in order to be looked up.
ghost use Rattle.std.specs.Prelude.{◌≡◌, ℕ, List, IfOk};
ghost use Rattle.std.specs.Cmp.Lexicographic.{slice_cmp};
ghost use Rattle.std.specs.Global.{Vec};
ghost use Rattle.std.specs.List.Sorted.{IsStrictlySortedBy};
ghost use Rattle.std.specs.Ordering.{nat_cmp};
ghost use Rattle.std.specs.List.{list_all};
ghost use Rattle.dq_list.specs.Octets.{octets_of_vectors};
ghost use Rattle.dq_value.specs.Parts.{element_values};
ghost use Rattle.dq_match.specs.SeveralValues.{is_one_of_values, is_plain_octet, is_plain};

use dq_value::values;
use dq_vr::Vr;
use std::alloc::{AllocError, Global};
use std::collections::BTreeSet;

fn is_plain_octet(octet: u8) -> bool
    ensures { result ≡ is_plain_octet octet }
{
    octet != b'*' && octet != b'?'
}

/// Whether a value has no wild card, so that it fits itself alone.
pub fn is_plain(value: &[u8]) -> bool
    ensures { result ≡ is_plain value.now }
{
    value.iter().all(|octet| is_plain_octet(*octet))
}

/// Whether no value has a wild card.
pub(crate) fn all_plain(vr: Vr, key: &[u8]) -> bool
    ensures { result ≡ list_all is_plain (element_values vr key.now) }
{
    let mut keys = values(vr, key);
    while let Some(value) = keys.next() {
        if !is_plain(value) {
            return false;
        }
    }
    true
}

/// Returns the values in the order of their octets, each once.
pub fn in_order(alloc: Global, vr: Vr, octets: &[u8]) -> Result<BTreeSet<Vec<u8>>, AllocError>
    ensures values { IfOk result (λ set. (value : List ℕ)
        → is_one_of_values value (octets_of_vectors set.keys) ≡ is_one_of_values value (element_values vr octets.now)) }
    ensures ordered { IfOk result (λ set. IsStrictlySortedBy
        (λ (a b : Vec ℕ). slice_cmp nat_cmp a.items b.items) set.keys) }
{
    let mut set = BTreeSet::new(alloc);
    let mut all = values(vr, octets);
    while let Some(value) = all.next() {
        set.insert(Vec::from_slice(alloc, value)?)?;
    }
    Ok(set)
}
