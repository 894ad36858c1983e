//! Ranges of values (PS3.4 section C.2.2.2.5).
ghost use Rattle.std.specs.Prelude.{◌≡◌, ◌==◌, ℕ, List, Some, option_map, position};
ghost use Rattle.std.specs.Option.{option_copied};
ghost use Rattle.dq_value.specs.Range.{Ends, IsRange, halves, range_ends, end_of};

/// The ends of a range of dates or times, A-B, A- or -B (PS3.4 section C.2.2.2.5): what stands
/// before and behind the only hyphen, `None` for an end that is left open. A text with no hyphen or
/// several, and a hyphen alone, is no range. Whether the ends are dates or times is not looked at.
#[tactic(auto, unfolding(crate::specs::Range::range_ends, crate::specs::Range::ends_of_halves))]
pub fn range_of(octets: &[u8]) -> Option<(Option<&[u8]>, Option<&[u8]>)>
    ensures { option_map (λ r. (option_copied r.0, option_copied r.1)) result ≡ range_ends octets.now }
{
    let (from, to) = halves(octets, b'-')?;
    if to.contains(&b'-') || (from.is_empty() && to.is_empty()) {
        return None;
    }
    Some((end_of(from), end_of(to)))
}

/// A range is read as its two ends, and nothing else is read as one.
pub fn range_law()
    ensures read { (octets from to : List ℕ) → IsRange octets from to
        → range_ends octets ≡ Some (end_of from, end_of to) }
    ensures only { (octets : List ℕ) (found : Ends) → range_ends octets ≡ Some found
        → (from : List ℕ) × (to : List ℕ) × IsRange octets from to
        × (found ≡ (end_of from, end_of to)) }
{}

#[tactic(auto, unfolding(crate::specs::Range::end_of))]
fn end_of(octets: &[u8]) -> Option<&[u8]>
    ensures { option_copied result ≡ end_of octets.now }
{
    if octets.is_empty() {
        None
    } else {
        Some(octets)
    }
}

/// The octets before and behind the first separator.
pub(crate) fn halves(octets: &[u8], separator: u8) -> Option<(&[u8], &[u8])>
    ensures { option_map (λ h. (h.0.now, h.1.now)) result ≡ halves separator octets.now }
{
    let at = place_of(octets, separator)?;
    let (before, behind) = octets.split_at(at);
    Some((before, behind.split_at(1).1))
}

fn place_of(octets: &[u8], separator: u8) -> Option<usize>
    ensures { result ≡ position (λ octet. octet == separator) octets.now }
{
    octets.iter().position(|octet| *octet == separator)
}
