//! The values that elements hold (PS3.5 section 6.4).
ghost use Rattle.std.specs.Prelude.{◌≡◌};
ghost use Rattle.std.specs.Option.{option_copied};
ghost use Rattle.dq_dataset.specs.Values.{sole_at};

use crate::data_set::{DataSet, Value};
use dq_value::sole_value;
use dq_vr::Tag;

impl DataSet {
    /// The value of the element with the tag, where it has exactly one, trimmed (PS3.5 section
    /// 6.4).
    #[tactic(auto, unfolding(crate::specs::Values::sole_at))]
    pub fn sole_value(&self, tag: Tag) -> Option<&[u8]>
        ensures { option_copied result ≡ sole_at tag self.now }
    {
        let element = self.get(tag)?;
        match &element.value {
            Value::Octets(octets) => sole_value(element.vr, octets.as_slice()),
            Value::Items(_) => None,
        }
    }
}
