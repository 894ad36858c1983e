//! Which orders are complete (PS3.4 table K.6-1).
ghost use Rattle.std.specs.Prelude.{◌≡◌, Some, IfSome, is_some, option_map};
ghost use Rattle.std.specs.Option.{option_copied};
ghost use Rattle.dq_value.specs.Day.{day};
ghost use Rattle.dq_value.specs.Time.{span};
ghost use Rattle.dq_vr.specs.Tags.{scheduled_procedure_step_sequence};
ghost use Rattle.dq_tables.specs.Keys.{sole_item_at, entry_id};
ghost use Rattle.dq_worklist.specs.Orders.{has_value_at, holds, is_complete_step, is_complete, order_in};
ghost use Rattle.dq_worklist.specs.Views.{held_order};

use dq_dataset::{DataSet, Value};
use dq_tables::{entry_id, sole_item_at, uid_at};
use dq_value::{date_of, time_of, values};
use dq_vr::{Tag, tags};

/// Whether the element with the tag has a value.
#[tactic(auto, unfolding(crate::specs::Orders::has_value_at))]
fn has_value(data_set: &DataSet, tag: Tag) -> bool
    ensures { result ≡ has_value_at tag data_set.now }
{
    let Some(element) = data_set.get(tag) else {
        return false;
    };
    match &element.value {
        Value::Octets(octets) => values(element.vr, octets.as_slice()).next().is_some(),
        Value::Items(_) => false,
    }
}

fn is_date(value: Option<&[u8]>) -> bool
    ensures { result ≡ holds (option_copied value.entry) (λ v. is_some (day v)) }
{
    match value {
        Some(octets) => date_of(octets).is_some(),
        None => false,
    }
}

fn is_time(value: Option<&[u8]>) -> bool
    ensures { result ≡ holds (option_copied value.entry) (λ v. is_some (span v)) }
{
    match value {
        Some(octets) => time_of(octets).is_some(),
        None => false,
    }
}

/// Whether a scheduled procedure step has a modality and a station, and one start.
#[tactic(auto, unfolding(crate::specs::Orders::is_complete_step))]
fn is_complete_step(step: &DataSet) -> bool
    ensures { result ≡ is_complete_step step.now }
{
    has_value(step, tags::MODALITY)
        && has_value(step, tags::SCHEDULED_STATION_AE_TITLE)
        && is_date(step.sole_value(tags::SCHEDULED_PROCEDURE_STEP_START_DATE))
        && is_time(step.sole_value(tags::SCHEDULED_PROCEDURE_STEP_START_TIME))
}

fn has_complete_step(data_set: &DataSet) -> bool
    ensures { result
        ≡ holds (sole_item_at scheduled_procedure_step_sequence data_set.now) is_complete_step }
{
    match sole_item_at(data_set, tags::SCHEDULED_PROCEDURE_STEP_SEQUENCE) {
        Some(step) => is_complete_step(step),
        None => false,
    }
}

/// Whether the patient, the study and the requested procedure are named, and there is one complete
/// step.
#[tactic(auto, unfolding(crate::specs::Orders::is_complete))]
fn is_complete(data_set: &DataSet) -> bool
    ensures { result ≡ is_complete data_set.now }
{
    has_value(data_set, tags::PATIENT_NAME)
        && has_value(data_set, tags::PATIENT_ID)
        && has_value(data_set, tags::REQUESTED_PROCEDURE_ID)
        && uid_at(data_set, tags::STUDY_INSTANCE_UID).is_some()
        && has_complete_step(data_set)
}

/// A complete order: its data set, and the id of its scheduled procedure step.
#[derive(Clone, Copy)]
pub(crate) struct Order<'a> {
    pub(crate) elements: &'a DataSet,
    pub(crate) id: &'a [u8],
}

impl<'a> Order<'a> {
    /// The order that a data set is, if it is complete.
    pub(crate) fn of(data_set: &'a DataSet) -> Option<Order<'a>>
        ensures order { option_map held_order result ≡ order_in data_set.now }
        ensures own { IfSome result (λ order. entry_id data_set.now ≡ Some order.id.now) }
        ensures whole { IfSome result (λ order. order.elements.now ≡ data_set.now) }
    {
        let id = entry_id(data_set)?;
        if !is_complete(data_set) {
            return None;
        }
        Some(Order {
            elements: data_set,
            id,
        })
    }
}
