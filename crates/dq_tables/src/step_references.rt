//! The worklist entries that a performed procedure step starts.
ghost use Rattle.std.specs.Prelude.{◌≡◌, ◌++◌, [], ◌∷◌, IfOk, OnOk};
ghost use Rattle.std.specs.List.{filter_map};
ghost use Rattle.dq_tables.specs.Keys.{id_of};
ghost use Rattle.dq_tables.specs.StartedEntries.{items_at, ids_named};

use crate::keys::step_id;
use dq_dataset::{DataSet, Value};
use dq_list::Listed;
use dq_vr::Tag;
use dq_vr::tags::SCHEDULED_STEP_ATTRIBUTES_SEQUENCE;
use std::alloc::{AllocError, Global};

/// The ids of the scheduled procedure steps that a performed one names, each the only value of its
/// item in the Scheduled Step Attributes Sequence (PS3.4 table F.7.2-1).
#[tactic(auto, unfolding(crate::specs::StartedEntries::ids_named))]
pub fn ids_named(alloc: Global, step: &DataSet) -> Result<Listed<Listed<u8>>, AllocError>
    ensures { IfOk result (λ ids. ids ≡ ids_named step.now) }
{
    let mut ids = Listed::empty(alloc);
    for item in items_at(step, SCHEDULED_STEP_ATTRIBUTES_SEQUENCE) {
        add_id(alloc, &mut ids, item)?;
    }
    Ok(ids)
}

/// Adds the id that an item names, if it names one.
fn add_id(alloc: Global, ids: &mut Listed<Listed<u8>>, item: &DataSet) -> Result<(), AllocError>
    ensures { OnOk result (ids.new ≡ ids.old ++ filter_map id_of (item.now ∷ [])) }
{
    if let Some(id) = step_id(item) {
        ids.push(Listed::copy_of(alloc, id)?)?;
    }
    Ok(())
}

/// The items of the sequence with the tag; none where there is no such sequence.
#[tactic(auto, unfolding(crate::specs::StartedEntries::items_at, crate::specs::StartedEntries::sequence_items))]
fn items_at(data_set: &DataSet, tag: Tag) -> &[DataSet]
    ensures { result.now ≡ items_at tag data_set.now }
{
    match data_set.get(tag) {
        Some(element) => match &element.value {
            Value::Octets(_) => &[],
            Value::Items(items) => items.as_slice(),
        },
        None => &[],
    }
}
