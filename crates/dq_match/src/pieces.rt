//! Pieces of a pattern, which are looked for at 128 starts of a text together (PS3.4 section
//! C.2.2.2.4).
ghost use Rattle.std.specs.Prelude.{◌≡◌, ◌≢◌, ◌⊎◌, ℕ, ◌<◌, ◌≤◌, false, length, slice_index};
ghost use Rattle.dq_match.specs.Wildcards.{any_run, stands_for};
ghost use Rattle.dq_match.specs.Scans.{IsFirstFit};
ghost use Rattle.dq_match.specs.Pieces.{is_open, Differs};

use crate::wildcards::{Casing, Scan, scanned};

/// How many starts are tried together.
pub(crate) const ABREAST: usize = 128;

/// How many octets are before a pattern's first asterisk.
fn piece_length(pattern: &[u8]) -> usize
    ensures within { result ≤ length pattern.now }
    ensures no_run { (k : ℕ) → k < result → slice_index pattern.now k ≢ any_run }
{
    pattern
        .iter()
        .position(|octet| *octet == b'*')
        .unwrap_or(pattern.len())
}

/// Rules out the starts behind which an octet of a piece does not stand for the text's.
fn rule_out(casing: Casing, wanted: u8, ahead: &[u8], starts: &mut [bool])
    requires { length starts.old ≤ length ahead.now }
    ensures { (t : ℕ) → is_open starts.new t ≡ false → (is_open starts.old t ≡ false)
        ⊎ (stands_for casing wanted (slice_index ahead.now t) ≡ false) }
{
    if wanted == b'?' {
        return;
    }
    for (at, open) in starts.iter_mut().enumerate() {
        let stands = casing.stands_for(wanted, ahead[at]);
        *open = *open && stands;
    }
}

/// How many starts are ruled out before the first that is open.
fn ruled_out(starts: &[bool]) -> usize
    ensures within { result ≤ length starts.now }
    ensures each { (t : ℕ) → t < result → is_open starts.now t ≡ false }
{
    starts.iter().position(|open| *open).unwrap_or(starts.len())
}

/// How many starts of the text, of its first 128, are before the first at which the piece may stand.
/// Starts of a text that is too short to try all of these are not tried.
fn starts_passed(casing: Casing, piece: &[u8], text: &[u8]) -> usize
    ensures within { result ≤ length text.now }
    ensures none { (t : ℕ) → t < result → Differs casing piece.now text.now t }
{
    if text.len() < piece.len() + ABREAST {
        return 0;
    }
    let mut starts = [true; ABREAST];
    for (at, wanted) in piece.iter().enumerate() {
        let (_, ahead) = text.split_at(at);
        rule_out(casing, *wanted, ahead, &mut starts);
        if at % ABREAST == 0 && ruled_out(&starts) == ABREAST {
            return ABREAST;
        }
    }
    ruled_out(&starts)
}

/// Goes along the text from the first start at which the pattern fits up to its next asterisk.
pub(crate) fn first_fit_abreast<'a>(casing: Casing, pattern: &'a [u8], text: &'a [u8]) -> Scan<'a>
    ensures { IsFirstFit casing pattern.now text.now result }
{
    let (piece, _) = pattern.split_at(piece_length(pattern));
    let mut left = text;
    while piece.len() <= left.len() {
        let (_, ahead) = left.split_at(starts_passed(casing, piece, left));
        match scanned(casing, pattern, ahead) {
            Scan::End => return Scan::End,
            Scan::Star(others, rest) => return Scan::Star(others, rest),
            Scan::Mismatch => {}
        }
        let Some((_, rest)) = ahead.split_first() else {
            return Scan::Mismatch;
        };
        left = rest;
    }
    Scan::Mismatch
}
