//! Numbers in decimal digits.
ghost use Rattle.std.specs.Prelude.{◌≡◌, ◌<◌, ◌^◌, ◌*◌, length, IfSome, Some, ℕ, List};
ghost use Rattle.dq_value.specs.Digits.{number, number_after, digits};

/// The number that one to eighteen digits spell (PS3.5 section 6.2). No digits are no number.
#[tactic(auto, unfolding(crate::specs::Digits::number, crate::specs::Digits::number_after))]
pub fn number(octets: &[u8]) -> Option<u64>
    requires { length octets.now < 19 }
    ensures value { result ≡ number octets.now }
    ensures bound { IfSome result (λ n. n < 10 ^ length octets.now) }
{
    if octets.is_empty() {
        return None;
    }
    let mut number = 0;
    for octet in octets {
        match octet {
            b'0'..=b'9' => number = 10 * number + u64::from(*octet - b'0'),
            _ => return None,
        }
    }
    Some(number)
}

/// A number is read from its digits, and from nothing else.
pub fn number_law()
    ensures read { (count n : ℕ) → 0 < count → n < 10 ^ count → number (digits count n) ≡ Some n }
    ensures only { (octets : List ℕ) (n : ℕ) → number octets ≡ Some n
        → (octets ≡ digits (length octets) n) × (n < 10 ^ length octets) }
{}
