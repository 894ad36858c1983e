//! The keys that a data set holds.
ghost use Rattle.std.specs.Prelude.{◌≡◌};
ghost use Rattle.std.specs.Option.{option_copied};
ghost use Rattle.dq_tables.specs.Keys.{uid_at, sole_item_at, id_of, entry_id};

use dq_dataset::{DataSet, Value};
use dq_value::is_uid;
use dq_vr::Tag;
use dq_vr::tags::{SCHEDULED_PROCEDURE_STEP_ID, SCHEDULED_PROCEDURE_STEP_SEQUENCE};

/// The value of the element with the tag, where it is exactly one UID (PS3.5 section 9.1).
#[tactic(auto, unfolding(crate::specs::Keys::uid_at))]
pub fn uid_at(data_set: &DataSet, tag: Tag) -> Option<&[u8]>
    ensures { option_copied result ≡ uid_at tag data_set.now }
{
    let value = data_set.sole_value(tag)?;
    if is_uid(value) { Some(value) } else { None }
}

/// The item of the sequence with the tag, where it has exactly one (PS3.5 section 7.5).
#[tactic(auto, unfolding(crate::specs::Keys::sole_item_at, crate::specs::Keys::sole_item_of))]
pub fn sole_item_at(data_set: &DataSet, tag: Tag) -> Option<&DataSet>
    ensures { option_copied result ≡ sole_item_at tag data_set.now }
{
    let element = data_set.get(tag)?;
    match &element.value {
        Value::Octets(_) => None,
        Value::Items(items) => match items.as_slice() {
            [item] => Some(item),
            _ => None,
        },
    }
}

/// The id of the only scheduled procedure step of a worklist entry, of 1 to 16 octets (PS3.4
/// section K.6.1.2.2).
#[tactic(auto, unfolding(crate::specs::Keys::entry_id))]
pub fn entry_id(data_set: &DataSet) -> Option<&[u8]>
    ensures { option_copied result ≡ entry_id data_set.now }
{
    step_id(sole_item_at(data_set, SCHEDULED_PROCEDURE_STEP_SEQUENCE)?)
}

/// The id of the scheduled procedure step that an item is of, of 1 to 16 octets (VR SH, PS3.5
/// section 6.2).
#[tactic(auto, unfolding(crate::specs::Keys::id_of))]
pub(crate) fn step_id(item: &DataSet) -> Option<&[u8]>
    ensures { option_copied result ≡ id_of item.now }
{
    let id = item.sole_value(SCHEDULED_PROCEDURE_STEP_ID)?;
    if 1 <= id.len() && id.len() <= 16 {
        Some(id)
    } else {
        None
    }
}
