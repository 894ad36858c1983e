//! Padding at the ends of values (PS3.5 section 6.2).
ghost use Rattle.std.specs.Prelude.{◌≡◌, ℕ, List};
ghost use Rattle.dq_vr.specs.declared.Vr.{Vr};
ghost use Rattle.dq_value.specs.Trimming.{is_padded, ignores_leading_spaces, is_space, is_padding, without_leading, without_trailing, without_padding, trimmed_value, IsTrimming};

use dq_vr::Vr;

/// The padding that does not count at the end of a value (PS3.5 section 6.2).
#[derive(Clone, Copy)]
pub(crate) enum Padding {
    /// Spaces, 20H.
    Spaces,
    /// Spaces and 00H.
    SpacesAndZeros,
}

/// A value without the padding at its end, spaces and 00H, and without its leading spaces where the
/// VR gives them no meaning (PS3.5 section 6.2). Values of other VRs than the character strings and
/// UI stay as they are.
#[tactic(auto, unfolding(crate::specs::Trimming::trimmed_value, crate::specs::Trimming::without_padding))]
pub fn trimmed(vr: Vr, octets: &[u8]) -> &[u8]
    ensures { result.now ≡ trimmed_value vr octets.now }
{
    let octets = if is_padded(vr) {
        without_trailing(octets, Padding::SpacesAndZeros)
    } else {
        octets
    };
    if ignores_leading_spaces(vr) {
        without_leading_spaces(octets)
    } else {
        octets
    }
}

/// Trimming takes the padding and nothing else, and all of it.
pub fn trimming_law()
    ensures trims { (vr : Vr) (octets : List ℕ)
        → IsTrimming (ignores_leading_spaces vr) (is_padded vr) octets (trimmed_value vr octets) }
    ensures again { (vr : Vr) (octets : List ℕ)
        → trimmed_value vr (trimmed_value vr octets) ≡ trimmed_value vr octets }
{}

#[tactic(auto, unfolding(crate::specs::Trimming::is_padded))]
fn is_padded(vr: Vr) -> bool
    ensures { result ≡ is_padded vr }
{
    match vr {
        Vr::UI => true,
        _ => vr.is_text(),
    }
}

#[tactic(auto, unfolding(crate::specs::Trimming::ignores_leading_spaces))]
fn ignores_leading_spaces(vr: Vr) -> bool
    ensures { result ≡ ignores_leading_spaces vr }
{
    matches!(vr, Vr::AE | Vr::CS | Vr::DS | Vr::IS | Vr::LO | Vr::SH)
}

#[tactic(auto, unfolding(crate::specs::Trimming::without_leading))]
pub(crate) fn without_leading_spaces(octets: &[u8]) -> &[u8]
    ensures { result.now ≡ without_leading is_space octets.now }
{
    let mut kept = octets;
    while let Some((b' ', others)) = kept.split_first() {
        kept = others;
    }
    kept
}

pub(crate) fn without_trailing(octets: &[u8], padding: Padding) -> &[u8]
    ensures { result.now ≡ without_trailing (is_padding padding) octets.now }
{
    let mut kept = octets;
    while let Some((last, others)) = kept.split_last() {
        if !is_padding(padding, *last) {
            break;
        }
        kept = others;
    }
    kept
}

fn is_padding(padding: Padding, octet: u8) -> bool
    ensures { result ≡ is_padding padding octet }
{
    match padding {
        Padding::Spaces => octet == b' ',
        Padding::SpacesAndZeros => octet == b' ' || octet == 0,
    }
}
