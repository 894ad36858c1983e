//! The Study Root information model (PS3.4 section C.6.2): which attributes each level has.
ghost use Rattle.std.specs.Prelude.{◌≡◌};
ghost use Rattle.dq_vr.specs.StudyRoot.{study_attributes, series_attributes, image_attributes, kept_attributes, computed_of_study, computed_of_series};
ghost use Rattle.dq_vr.specs.declared.study_root.TheConstants as code;

use crate::{Tag, tags};

/// The attributes that are kept of what is stored: those of a study, then those of a series, then
/// those of an image. Each level begins with Specific Character Set, which is no key.
pub static KEPT_ATTRIBUTES: [Tag; 33] = [
    // A study (PS3.4 section C.6.2.1.2).
    tags::SPECIFIC_CHARACTER_SET,
    tags::STUDY_DATE,
    tags::STUDY_TIME,
    tags::ACCESSION_NUMBER,
    tags::REFERRING_PHYSICIAN_NAME,
    tags::STUDY_DESCRIPTION,
    tags::PATIENT_NAME,
    tags::PATIENT_ID,
    tags::ISSUER_OF_PATIENT_ID,
    tags::PATIENT_BIRTH_DATE,
    tags::PATIENT_SEX,
    tags::STUDY_INSTANCE_UID,
    tags::STUDY_ID,
    // A series (PS3.4 section C.6.2.1.3).
    tags::SPECIFIC_CHARACTER_SET,
    tags::SERIES_DATE,
    tags::SERIES_TIME,
    tags::MODALITY,
    tags::SERIES_DESCRIPTION,
    tags::BODY_PART_EXAMINED,
    tags::STUDY_INSTANCE_UID,
    tags::SERIES_INSTANCE_UID,
    tags::SERIES_NUMBER,
    // An image (PS3.4 section C.6.2.1.4).
    tags::SPECIFIC_CHARACTER_SET,
    tags::IMAGE_TYPE,
    tags::SOP_CLASS_UID,
    tags::SOP_INSTANCE_UID,
    tags::CONTENT_DATE,
    tags::CONTENT_TIME,
    tags::STUDY_INSTANCE_UID,
    tags::SERIES_INSTANCE_UID,
    tags::INSTANCE_NUMBER,
    tags::ROWS,
    tags::COLUMNS,
];

/// Where the attributes of a series begin, and those of an image.
const SERIES_BEGINS: usize = 13;

const IMAGE_BEGINS: usize = 22;

/// The attributes of a study that are computed when they are asked for (PS3.4 section C.3.4).
pub static COMPUTED_OF_STUDY: [Tag; 3] = [
    tags::MODALITIES_IN_STUDY,
    tags::NUMBER_OF_STUDY_RELATED_SERIES,
    tags::NUMBER_OF_STUDY_RELATED_INSTANCES,
];

/// The attributes of a series that are computed when they are asked for (PS3.4 section C.3.4).
pub static COMPUTED_OF_SERIES: [Tag; 1] = [tags::NUMBER_OF_SERIES_RELATED_INSTANCES];

/// The attributes that are kept of a study, Specific Character Set first.
pub fn study_attributes() -> &'static [Tag]
    ensures { result.now ≡ study_attributes }
{
    &KEPT_ATTRIBUTES[..SERIES_BEGINS]
}

/// The attributes that are kept of a series, Specific Character Set first.
pub fn series_attributes() -> &'static [Tag]
    ensures { result.now ≡ series_attributes }
{
    &KEPT_ATTRIBUTES[SERIES_BEGINS..IMAGE_BEGINS]
}

/// The attributes that are kept of an image, Specific Character Set first.
pub fn image_attributes() -> &'static [Tag]
    ensures { result.now ≡ image_attributes }
{
    &KEPT_ATTRIBUTES[IMAGE_BEGINS..]
}

/// The lists of the code are those of the definitions.
pub fn study_root_law()
    ensures kept { code.KEPT_ATTRIBUTES ≡ kept_attributes }
    ensures study { code.COMPUTED_OF_STUDY ≡ computed_of_study }
    ensures series { code.COMPUTED_OF_SERIES ≡ computed_of_series }
{}
