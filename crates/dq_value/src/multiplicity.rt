//! The values of an element, which the backslash parts (PS3.5 section 6.4).
ghost use Rattle.std.specs.Prelude.{◌≡◌, ◌↔◌, List, ℕ, ◌∷◌};
ghost use Rattle.std.specs.Iterator.{YieldsFirstBy, item_count};
ghost use Rattle.std.specs.Option.{option_copied};
ghost use Rattle.dq_value.specs.Parts.{has_separator, value_pieces, pieces, pieces_left, parts_left, element_values, sole, IsParting};

use crate::padding::trimmed;
use crate::ranges::halves;
use dq_vr::Vr;
use std::marker::Model;

/// The values of one element, each trimmed, lent in order.
#[derive(Drop)]
pub struct Parts<'a> {
    vr: Vr,
    rest: Option<&'a [u8]>,
}

impl<'a> Model for Parts<'a> {
    ghost Value = { List (List ℕ) };

    ghost view = { λ p. parts_left p.vr (option_copied p.rest) };
}

/// The values that the octets of an element hold (PS3.5 section 6.4): none where nothing but
/// padding is there, else the pieces between backslashes where the VR has several values, each
/// trimmed.
#[tactic(auto, unfolding(crate::specs::Parts::element_values, crate::specs::Parts::parts_left, crate::specs::Parts::pieces_left))]
pub fn values(vr: Vr, octets: &[u8]) -> Parts<'_>
    ensures { result ≡ element_values vr octets.now }
{
    let rest = if trimmed(vr, octets).is_empty() {
        None
    } else {
        Some(octets)
    };
    Parts { vr, rest }
}

/// The value of an element that has exactly one.
pub fn sole_value(vr: Vr, octets: &[u8]) -> Option<&[u8]>
    ensures { option_copied result ≡ sole (element_values vr octets.now) }
{
    let mut parts = values(vr, octets);
    let first = parts.next()?;
    match parts.next() {
        Some(_) => None,
        None => Some(first),
    }
}

/// Octets have one parting, which `pieces` gives.
pub fn parting_law()
    ensures { (separator : ℕ) (octets : List ℕ) (found : List (List ℕ))
        → IsParting separator octets found ↔ (found ≡ pieces separator octets) }
{}

impl<'a> Iterator for Parts<'a> {
    type Item = &'a [u8];

    ghost next_gives = { YieldsFirstBy (λ x. x.now) (λ s. s) };

    ghost remaining = { item_count (λ s. s) };

    #[tactic(auto, unfolding(crate::specs::Parts::parts_left, crate::specs::Parts::pieces_left))]
    fn next(&mut self) -> Option<&'a [u8]> {
        let octets = self.rest?;
        let (piece, rest) = first_piece(self.vr, octets);
        self.rest = rest;
        Some(trimmed(self.vr, piece))
    }
}

/// The first value as it stands, and what is behind the separator after it.
fn first_piece(vr: Vr, octets: &[u8]) -> (&[u8], Option<&[u8]>)
    ensures { value_pieces vr octets.now ≡ result.0.now ∷ pieces_left vr (option_copied result.1) }
{
    if !has_separator(vr) {
        return (octets, None);
    }
    match halves(octets, b'\\') {
        Some((piece, others)) => (piece, Some(others)),
        None => (octets, None),
    }
}

#[tactic(auto, unfolding(crate::specs::Parts::has_separator))]
fn has_separator(vr: Vr) -> bool
    ensures { result ≡ has_separator vr }
{
    match vr {
        Vr::UI => true,
        Vr::LT | Vr::ST | Vr::UT | Vr::UR => false,
        _ => vr.is_text(),
    }
}
