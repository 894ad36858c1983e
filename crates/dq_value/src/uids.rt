//! Unique identifiers (PS3.5 section 9.1).
ghost use Rattle.std.specs.Prelude.{◌≡◌};
ghost use Rattle.std.specs.List.{list_all};
ghost use Rattle.dq_value.specs.Uid.{is_uid, is_uid_octet};

/// Whether the octets are a UID: 1 to 64 digits and points (PS3.5 section 9.1).
#[tactic(auto, unfolding(crate::specs::Uid::is_uid))]
pub fn is_uid(octets: &[u8]) -> bool
    ensures { result ≡ is_uid octets.now }
{
    !octets.is_empty() && octets.len() <= 64 && has_uid_octets_alone(octets)
}

fn has_uid_octets_alone(octets: &[u8]) -> bool
    ensures { result ≡ list_all is_uid_octet octets.now }
{
    octets.iter().all(|octet| (b'0' <= *octet && *octet <= b'9') || *octet == b'.')
}
