//! Identifiers that ask nothing of a record.
ghost use Rattle.std.specs.Prelude.{◌≡◌};
ghost use Rattle.dq_match.specs.Universal.{has_nothing_to_meet, is_open_key, asks_nothing};

use crate::keys::Nesting;
use crate::values::is_universal;
use dq_dataset::{DataSet, Element, Value};
use dq_vr::Vr;

fn has_nothing_to_meet(vr: Vr, value: &Value) -> bool
    ensures { result ≡ has_nothing_to_meet vr value.now }
{
    match value {
        Value::Octets(octets) => is_universal(vr, octets.as_slice()),
        Value::Items(items) => items.is_empty(),
    }
}

fn is_open_key(key: &Element) -> bool
    ensures { result ≡ is_open_key key.now }
{
    !Nesting::Outer.is_key(key.tag) || has_nothing_to_meet(key.vr, &key.value)
}

/// Whether an identifier asks nothing of a record, so that every record fits it (PS3.4 section
/// C.2.2.2.3).
pub fn asks_nothing(identifier: &DataSet) -> bool
    ensures { result ≡ asks_nothing identifier.now }
{
    identifier.elements().iter().all(|key| is_open_key(key))
}
