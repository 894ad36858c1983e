//! Matching of one element without items, by its VR (PS3.4 sections C.2.2.2.1 to C.2.2.2.3).
ghost use Rattle.std.specs.Prelude.{◌≡◌, true};
ghost use Rattle.std.specs.List.{list_any, list_all};
ghost use Rattle.dq_list.specs.Lengths.{is_empty};
ghost use Rattle.dq_value.specs.Parts.{element_values};
ghost use Rattle.dq_value.specs.Trimming.{is_padded, without_trailing};
ghost use Rattle.dq_match.specs.Values.{matching_of, is_name_pad, compared_name, value_meets, is_asterisk, is_universal, is_met_by_value, some_meet, octets_meet, is_well_formed_value, are_well_formed};
ghost use Rattle.dq_match.specs.SeveralValues.{AreMetByEquality};

use crate::ranges::{date_bounds, date_meets, time_bounds, time_meets};
use crate::several_values::all_plain;
use crate::wildcards::{Casing, wild_by};
use dq_value::{Parts, sole_value, values};
use dq_vr::Vr;

/// The way in which values of a VR are matched (PS3.4 section C.2.2.2).
#[derive(Clone, Copy, Debug, PartialEq, Eq)]
pub enum Matching {
    /// By wild card, with letters of either case as one.
    Name,
    /// By wild card.
    WildCard,
    /// By date or range of dates.
    Date,
    /// By time or range of times.
    Time,
    /// By equality of octets.
    Equality,
}

impl Matching {
    #[tactic(auto, unfolding(crate::specs::Values::matching_of))]
    pub(crate) fn of(vr: Vr) -> Matching
        ensures { result ≡ matching_of vr }
    {
        match vr {
            Vr::PN => Matching::Name,
            Vr::AE | Vr::CS | Vr::LO | Vr::LT => Matching::WildCard,
            Vr::SH | Vr::ST | Vr::UC | Vr::UT => Matching::WildCard,
            Vr::DA => Matching::Date,
            Vr::TM => Matching::Time,
            _ => Matching::Equality,
        }
    }

    fn value_meets(self, key: &[u8], value: &[u8]) -> bool
        ensures { result ≡ value_meets self key.now value.now }
    {
        match self {
            Matching::Name => wild_by(Casing::Folded, name_of(key), name_of(value)),
            Matching::WildCard => wild_by(Casing::Exact, key, value),
            Matching::Date => date_meets(key, value),
            Matching::Time => time_meets(key, value),
            Matching::Equality => key == value,
        }
    }

    /// Whether each value of the key is met by equality.
    #[tactic(auto, using(crate::proofs::SeveralValues::plain_by_equality))]
    pub(crate) fn is_by_equality(self, vr: Vr, key: &[u8]) -> bool
        ensures { result ≡ true → AreMetByEquality self (element_values vr key.now) }
    {
        match self {
            Matching::Equality => true,
            Matching::WildCard => all_plain(vr, key),
            _ => false,
        }
    }

    fn is_well_formed(self, key: &[u8]) -> bool
        ensures { result ≡ is_well_formed_value self key.now }
    {
        match self {
            Matching::Date => date_bounds(key).is_some(),
            Matching::Time => time_bounds(key).is_some(),
            _ => true,
        }
    }
}

fn is_name_pad(octet: u8) -> bool
    ensures { result ≡ is_name_pad octet }
{
    octet == b' ' || octet == b'^' || octet == b'='
}

/// A name without the spaces and delimiters at its end.
#[tactic(auto, using(crate::proofs::NamePads::name_pads))]
fn name_of(octets: &[u8]) -> &[u8]
    ensures { result.now ≡ without_trailing is_name_pad octets.now }
{
    let mut kept = octets;
    while let Some((last, others)) = kept.split_last() {
        if !is_name_pad(*last) {
            break;
        }
        kept = others;
    }
    kept
}

#[tactic(auto, unfolding(dq_value::specs::Trimming::is_padded))]
fn is_text_or_uid(vr: Vr) -> bool
    ensures { result ≡ is_padded vr }
{
    vr == Vr::UI || vr.is_text()
}

/// Whether a key is met by every record: it has no values, or its only value is an asterisk.
#[tactic(auto, unfolding(crate::specs::Values::is_universal))]
pub(crate) fn is_universal(vr: Vr, key: &[u8]) -> bool
    ensures { result ≡ is_universal vr key.now }
{
    has_no_values(vr, key) || (is_text_or_uid(vr) && is_asterisk(vr, key))
}

pub(crate) fn has_no_values(vr: Vr, octets: &[u8]) -> bool
    ensures { result ≡ is_empty (element_values vr octets.now) }
{
    values(vr, octets).next().is_none()
}

fn is_asterisk(vr: Vr, key: &[u8]) -> bool
    ensures { result ≡ is_asterisk (element_values vr key.now) }
{
    match sole_value(vr, key) {
        Some(value) => value == b"*".as_slice(),
        None => false,
    }
}

/// Whether some value of the key is met by the record's one.
pub(crate) fn some_key_met(matching: Matching, mut keys: Parts, value: &[u8]) -> bool
    ensures { result ≡ is_met_by_value matching keys.entry value.now }
{
    while let Some(key) = keys.next() {
        if matching.value_meets(key, value) {
            return true;
        }
    }
    false
}

/// Whether some value of the record meets some value of the key, each compared with each.
fn some_meet(matching: Matching, vr: Vr, key: &[u8], held: &[u8]) -> bool
    ensures { result ≡ some_meet matching (element_values vr key.now) (element_values vr held.now) }
{
    let mut all = values(vr, held);
    while let Some(value) = all.next() {
        if some_key_met(matching, values(vr, key), value) {
            return true;
        }
    }
    false
}

/// Whether the octets of a record's element meet a key of the VR.
#[tactic(auto, unfolding(crate::specs::Values::octets_meet))]
pub(crate) fn octets_meet(vr: Vr, key: &[u8], held: &[u8]) -> bool
    ensures { result ≡ octets_meet vr key.now held.now }
{
    is_universal(vr, key) || has_no_values(vr, held) || some_meet(Matching::of(vr), vr, key, held)
}

/// Whether each value of a date or time key is one date or time, or a range.
#[tactic(auto, unfolding(crate::specs::Values::are_well_formed))]
pub(crate) fn are_well_formed(vr: Vr, key: &[u8]) -> bool
    ensures { result ≡ are_well_formed vr key.now }
{
    is_universal(vr, key) || all_well_formed(vr, key)
}

fn all_well_formed(vr: Vr, key: &[u8]) -> bool
    ensures { result ≡ list_all (is_well_formed_value (matching_of vr)) (element_values vr key.now) }
{
    let matching = Matching::of(vr);
    let mut keys = values(vr, key);
    while let Some(value) = keys.next() {
        if !matching.is_well_formed(value) {
            return false;
        }
    }
    true
}
