//! The attributes that a step has from its creation on (PS3.4 table F.7.2-1).
ghost use Rattle.std.specs.Prelude.{◌≡◌};
ghost use Rattle.std.specs.Option.{option_copied};
ghost use Rattle.dq_dataset.specs.Editing.{is_listed};
ghost use Rattle.dq_mpps.specs.Attributes.{is_fixed};
ghost use Rattle.dq_mpps.specs.NCreate.{has_value, has_attributes, has_attribute_values};
ghost use Rattle.dq_mpps.specs.NSet.{changes_fixed};

use dq_dataset::{DataSet, Element, Value};
use dq_value::values;
use dq_vr::{Tag, tags};

/// Those that no N-SET changes.
const FIXED: [Tag; 6] = [
    tags::MODALITY,
    tags::PERFORMED_STATION_AE_TITLE,
    tags::PERFORMED_PROCEDURE_STEP_START_DATE,
    tags::PERFORMED_PROCEDURE_STEP_START_TIME,
    tags::PERFORMED_PROCEDURE_STEP_ID,
    tags::SCHEDULED_STEP_ATTRIBUTES_SEQUENCE,
];

/// Those that an N-CREATE has to send.
const REQUIRED: [Tag; 7] = [
    tags::PERFORMED_PROCEDURE_STEP_STATUS,
    tags::MODALITY,
    tags::PERFORMED_STATION_AE_TITLE,
    tags::PERFORMED_PROCEDURE_STEP_START_DATE,
    tags::PERFORMED_PROCEDURE_STEP_START_TIME,
    tags::PERFORMED_PROCEDURE_STEP_ID,
    tags::SCHEDULED_STEP_ATTRIBUTES_SEQUENCE,
];

/// The group of the attributes of the patient.
const PATIENT_GROUP: u16 = 0x0010;

/// Whether the element has a value, or as a sequence an item.
#[tactic(auto, unfolding(crate::specs::NCreate::has_value))]
fn has_value(element: Option<&Element>) -> bool
    ensures { result ≡ has_value (option_copied element.entry) }
{
    let Some(element) = element else {
        return false;
    };
    match &element.value {
        Value::Octets(octets) => values(element.vr, octets.as_slice()).next().is_some(),
        Value::Items(items) => !items.as_slice().is_empty(),
    }
}

/// Whether a new step has each attribute that is asked for.
#[tactic(auto, unfolding(crate::specs::NCreate::has_attributes))]
pub(crate) fn has_attributes(step: &DataSet) -> bool
    ensures { result ≡ has_attributes step.now }
{
    REQUIRED.iter().all(|tag| step.get(*tag).is_some())
}

/// Whether a new step has a value of each attribute that is asked for.
#[tactic(auto, unfolding(crate::specs::NCreate::has_attribute_values))]
pub(crate) fn has_attribute_values(step: &DataSet) -> bool
    ensures { result ≡ has_attribute_values step.now }
{
    REQUIRED.iter().all(|tag| has_value(step.get(*tag)))
}

fn is_fixed(element: &Element) -> bool
    ensures { result ≡ is_fixed element.now }
{
    element.tag.group == PATIENT_GROUP || is_listed(&FIXED, element)
}

fn is_listed(tags: &[Tag], element: &Element) -> bool
    ensures { result ≡ is_listed tags.now element.now }
{
    tags.iter().any(|tag| element.tag == *tag)
}

/// Whether a fixed attribute is sent that is not as it is kept.
#[tactic(auto, unfolding(crate::specs::NSet::changes_fixed))]
pub(crate) fn changes_fixed(kept: &DataSet, sent: &DataSet) -> bool
    ensures { result ≡ changes_fixed kept.now sent.now }
{
    sent.elements()
        .iter()
        .any(|element| is_fixed(element) && !kept.has(element))
}
