//! The keys that are supported at each level, and what is left of an identifier without the others
//! (PS3.4 sections C.6.2.1 and K.6.1.2).
#![tactic(auto, using(crate::proofs::Smaller::smaller))]

ghost use Rattle.std.specs.Prelude.{◌≡◌, ◌<◌, ◌++◌, IfOk, length, drop};
ghost use Rattle.dq_dataset.specs.View.{as_elements, elements_of, items_of, list_of};
ghost use Rattle.dq_match.specs.Identifiers.{HasKnownTags};
ghost use Rattle.dq_match.specs.Supported.{key_tags, leaves, is_tag_among, is_supported, below, below_entry, below_step, supported_part, supported_items, supported_value, has_unsupported, have_unsupported, value_has_unsupported};
ghost use Rattle.dq_match.specs.declared.supported.KeyScope.TheVariants.{Identifier};

use crate::keys::is_other_than_key;
use dq_dataset::{DataSet, Element, Value};
use dq_list::Listed;
use dq_vr::study_root::{
    COMPUTED_OF_SERIES, COMPUTED_OF_STUDY, image_attributes, series_attributes, study_attributes,
};
use dq_vr::{Tag, tags};
use std::alloc::{AllocError, Global};

/// Which identifier a list of keys is for: of a Study Root query at one of its levels, or of a
/// worklist query (PS3.4 tables C.6-3 to C.6-5 and K.6-1).
#[derive(Clone, Copy, Debug, PartialEq, Eq)]
pub enum KeyList {
    Study,
    Series,
    Image,
    Entry,
}

/// The place of keys: in an Identifier, or in the items of one of its sequences.
#[derive(Clone, Copy, Debug, PartialEq, Eq)]
pub enum KeyScope {
    Identifier(KeyList),
    /// A scheduled procedure step.
    Step,
    /// A coded concept.
    Code,
    /// A reference to an instance.
    Reference,
    /// Items of which no key is supported.
    Other,
}

static ENTRY_KEYS: [Tag; 32] = [
    tags::ACCESSION_NUMBER,
    tags::REFERRING_PHYSICIAN_NAME,
    tags::ADMITTING_DIAGNOSES_DESCRIPTION,
    tags::REFERENCED_STUDY_SEQUENCE,
    tags::REFERENCED_PATIENT_SEQUENCE,
    tags::PATIENT_NAME,
    tags::PATIENT_ID,
    tags::ISSUER_OF_PATIENT_ID,
    tags::PATIENT_BIRTH_DATE,
    tags::PATIENT_SEX,
    tags::PATIENT_WEIGHT,
    tags::MEDICAL_ALERTS,
    tags::ALLERGIES,
    tags::PREGNANCY_STATUS,
    tags::PATIENT_COMMENTS,
    tags::STUDY_INSTANCE_UID,
    tags::REQUESTING_PHYSICIAN,
    tags::REQUESTING_SERVICE,
    tags::REQUESTED_PROCEDURE_DESCRIPTION,
    tags::REQUESTED_PROCEDURE_CODE_SEQUENCE,
    tags::ADMISSION_ID,
    tags::SPECIAL_NEEDS,
    tags::CURRENT_PATIENT_LOCATION,
    tags::PATIENT_STATE,
    tags::SCHEDULED_PROCEDURE_STEP_SEQUENCE,
    tags::REQUESTED_PROCEDURE_ID,
    tags::REASON_FOR_THE_REQUESTED_PROCEDURE,
    tags::REQUESTED_PROCEDURE_PRIORITY,
    tags::PATIENT_TRANSPORT_ARRANGEMENTS,
    tags::REQUESTED_PROCEDURE_COMMENTS,
    tags::PLACER_ORDER_NUMBER_IMAGING_SERVICE_REQUEST,
    tags::FILLER_ORDER_NUMBER_IMAGING_SERVICE_REQUEST,
];

static STEP_KEYS: [Tag; 12] = [
    tags::MODALITY,
    tags::SCHEDULED_STATION_AE_TITLE,
    tags::SCHEDULED_PROCEDURE_STEP_START_DATE,
    tags::SCHEDULED_PROCEDURE_STEP_START_TIME,
    tags::SCHEDULED_PERFORMING_PHYSICIAN_NAME,
    tags::SCHEDULED_PROCEDURE_STEP_DESCRIPTION,
    tags::SCHEDULED_PROTOCOL_CODE_SEQUENCE,
    tags::SCHEDULED_PROCEDURE_STEP_ID,
    tags::SCHEDULED_STATION_NAME,
    tags::SCHEDULED_PROCEDURE_STEP_LOCATION,
    tags::PRE_MEDICATION,
    tags::SCHEDULED_PROCEDURE_STEP_STATUS,
];

static CODE_KEYS: [Tag; 4] = [
    tags::CODE_VALUE,
    tags::CODING_SCHEME_DESIGNATOR,
    tags::CODING_SCHEME_VERSION,
    tags::CODE_MEANING,
];

static REFERENCE_KEYS: [Tag; 2] = [
    tags::REFERENCED_SOP_CLASS_UID,
    tags::REFERENCED_SOP_INSTANCE_UID,
];

fn is_among(tag: Tag, listed: &[Tag]) -> bool
    ensures { result ≡ is_tag_among tag listed.now }
{
    listed.iter().any(|one| *one == tag)
}

/// Whether the tag is of a level's attributes, Specific Character Set apart, which is the first of
/// those that are kept.
#[tactic(auto, using(crate::proofs::Joined::among_joined))]
fn is_key_of_level(tag: Tag, kept: &[Tag], computed: &[Tag]) -> bool
    requires { 0 < length kept.now }
    ensures { result ≡ is_tag_among tag (drop 1 kept.now ++ computed.now) }
{
    is_among(tag, &kept[1..]) || is_among(tag, computed)
}

impl KeyList {
    #[tactic(auto, unfolding(crate::specs::Supported::key_tags))]
    fn has(self, tag: Tag) -> bool
        ensures { result ≡ is_tag_among tag (key_tags self) }
    {
        match self {
            KeyList::Study => is_key_of_level(tag, study_attributes(), &COMPUTED_OF_STUDY),
            KeyList::Series => is_key_of_level(tag, series_attributes(), &COMPUTED_OF_SERIES),
            KeyList::Image => is_key_of_level(tag, image_attributes(), &[]),
            KeyList::Entry => is_among(tag, &ENTRY_KEYS),
        }
    }

    /// Whether the element stays in an identifier though it is no key.
    #[tactic(auto, unfolding(crate::specs::Supported::leaves))]
    fn leaves(self, tag: Tag) -> bool
        ensures { result ≡ leaves self tag }
    {
        match self {
            KeyList::Entry => tag == tags::SPECIFIC_CHARACTER_SET,
            _ => is_other_than_key(tag),
        }
    }
}

impl KeyScope {
    #[tactic(auto, unfolding(crate::specs::Supported::is_supported))]
    fn supports(self, tag: Tag) -> bool
        ensures { result ≡ is_supported self tag }
    {
        match self {
            KeyScope::Identifier(list) => list.has(tag) || list.leaves(tag),
            KeyScope::Step => is_among(tag, &STEP_KEYS),
            KeyScope::Code => is_among(tag, &CODE_KEYS),
            KeyScope::Reference => is_among(tag, &REFERENCE_KEYS),
            KeyScope::Other => false,
        }
    }

    /// The scope of the items of a sequence.
    #[tactic(auto, unfolding(crate::specs::Supported::below))]
    fn below(self, tag: Tag) -> KeyScope
        ensures { result ≡ below self tag }
    {
        match self {
            KeyScope::Identifier(KeyList::Entry) => below_entry(tag),
            KeyScope::Step => below_step(tag),
            _ => KeyScope::Other,
        }
    }
}

fn below_entry(tag: Tag) -> KeyScope
    ensures { result ≡ below_entry tag }
{
    if tag == tags::SCHEDULED_PROCEDURE_STEP_SEQUENCE {
        return KeyScope::Step;
    }
    if tag == tags::REQUESTED_PROCEDURE_CODE_SEQUENCE {
        return KeyScope::Code;
    }
    if tag == tags::REFERENCED_STUDY_SEQUENCE || tag == tags::REFERENCED_PATIENT_SEQUENCE {
        return KeyScope::Reference;
    }
    KeyScope::Other
}

fn below_step(tag: Tag) -> KeyScope
    ensures { result ≡ below_step tag }
{
    if tag == tags::SCHEDULED_PROTOCOL_CODE_SEQUENCE {
        KeyScope::Code
    } else {
        KeyScope::Other
    }
}

/// Returns the supported part, and whether anything is not supported.
#[cycle(supported)]
fn supported_part(
    alloc: Global,
    scope: KeyScope,
    keys: &DataSet,
) -> Result<(DataSet, bool), AllocError>
    ensures part { IfOk result (λ struck. struck.0 ≡ supported_part scope keys.now) }
    ensures optional { IfOk result (λ struck. struck.1 ≡ has_unsupported scope keys.now) }
{
    let (elements, optional) = supported_elements(alloc, scope, keys.elements())?;
    Ok((DataSet::from_elements(elements), optional))
}

#[cycle(supported)]
fn supported_elements(
    alloc: Global,
    scope: KeyScope,
    keys: &[Element],
) -> Result<(Vec<Element>, bool), AllocError>
    ensures part { IfOk result (λ struck. struck.0.items
        ≡ elements_of (supported_part scope (as_elements keys.now))) }
    ensures optional { IfOk result (λ struck. struck.1
        ≡ has_unsupported scope (as_elements keys.now)) }
{
    let mut kept = Vec::new(alloc);
    let mut optional = false;
    for key in keys {
        if !scope.supports(key.tag) {
            optional = true;
            continue;
        }
        let (value, inside) = supported_value(alloc, scope.below(key.tag), &key.value)?;
        optional = optional || inside;
        kept.push(Element {
            tag: key.tag,
            vr: key.vr,
            value,
        })?;
    }
    Ok((kept, optional))
}

#[cycle(supported)]
fn supported_value(
    alloc: Global,
    scope: KeyScope,
    value: &Value,
) -> Result<(Value, bool), AllocError>
    ensures part { IfOk result (λ struck. struck.0 ≡ supported_value scope value.now) }
    ensures optional { IfOk result (λ struck. struck.1 ≡ value_has_unsupported scope value.now) }
{
    match value {
        Value::Octets(octets) => {
            let octets = Listed::copy_of(alloc, octets.as_slice())?;
            Ok((Value::Octets(octets), false))
        }
        Value::Items(items) => {
            let (items, optional) = supported_items(alloc, scope, items.as_slice())?;
            Ok((Value::Items(Listed::from_inner(items)), optional))
        }
    }
}

#[cycle(supported)]
fn supported_items(
    alloc: Global,
    scope: KeyScope,
    items: &[DataSet],
) -> Result<(Vec<DataSet>, bool), AllocError>
    ensures part { IfOk result (λ struck. struck.0.items
        ≡ list_of (supported_items scope (items_of items.now))) }
    ensures optional { IfOk result (λ struck. struck.1
        ≡ have_unsupported scope (items_of items.now)) }
{
    let mut kept = Vec::new(alloc);
    let mut optional = false;
    for item in items {
        let (part, inside) = supported_part(alloc, scope, item)?;
        optional = optional || inside;
        kept.push(part)?;
    }
    Ok((kept, optional))
}

/// The identifier without the elements that the list does not support, inside items too, and
/// whether there were any. What is left has tags of the data dictionary alone.
#[tactic(auto, using(crate::proofs::KnownKeys::part_known))]
pub fn strike(
    alloc: Global,
    identifier: &DataSet,
    list: KeyList,
) -> Result<(DataSet, bool), AllocError>
    ensures part { IfOk result
        (λ struck. struck.0 ≡ supported_part (Identifier list) identifier.now) }
    ensures optional { IfOk result
        (λ struck. struck.1 ≡ has_unsupported (Identifier list) identifier.now) }
    ensures known { IfOk result (λ struck. HasKnownTags struck.0) }
{
    let struck = supported_part(alloc, KeyScope::Identifier(list), identifier)?;
    Ok(struck)
}
