//! Attributes by their names: eight hexadecimal digits, or a keyword (PS3.6, chapter 6).
ghost use Rattle.std.specs.Prelude.{◌≡◌, map};
ghost use Rattle.dq_json.specs.Keywords.{tag_among, tag_of_keyword, tag_named};

use dq_vr::{Tag, tags};
use hex::FromHex;

/// The attributes of the dictionary by their keywords (PS3.6, chapter 6), in the order of their tags.
pub static KEYWORDS: [(&str, Tag); 160] = [
    ("SpecificCharacterSet", tags::SPECIFIC_CHARACTER_SET),
    ("ImageType", tags::IMAGE_TYPE),
    ("InstanceCreationDate", tags::INSTANCE_CREATION_DATE),
    ("InstanceCreationTime", tags::INSTANCE_CREATION_TIME),
    ("InstanceCreatorUID", tags::INSTANCE_CREATOR_UID),
    ("SOPClassUID", tags::SOP_CLASS_UID),
    ("SOPInstanceUID", tags::SOP_INSTANCE_UID),
    ("StudyDate", tags::STUDY_DATE),
    ("SeriesDate", tags::SERIES_DATE),
    ("AcquisitionDate", tags::ACQUISITION_DATE),
    ("ContentDate", tags::CONTENT_DATE),
    ("AcquisitionDateTime", tags::ACQUISITION_DATE_TIME),
    ("StudyTime", tags::STUDY_TIME),
    ("SeriesTime", tags::SERIES_TIME),
    ("AcquisitionTime", tags::ACQUISITION_TIME),
    ("ContentTime", tags::CONTENT_TIME),
    ("AccessionNumber", tags::ACCESSION_NUMBER),
    ("QueryRetrieveLevel", tags::QUERY_RETRIEVE_LEVEL),
    ("RetrieveAETitle", tags::RETRIEVE_AE_TITLE),
    ("InstanceAvailability", tags::INSTANCE_AVAILABILITY),
    ("Modality", tags::MODALITY),
    ("ModalitiesInStudy", tags::MODALITIES_IN_STUDY),
    ("SOPClassesInStudy", tags::SOP_CLASSES_IN_STUDY),
    ("ConversionType", tags::CONVERSION_TYPE),
    ("Manufacturer", tags::MANUFACTURER),
    ("InstitutionName", tags::INSTITUTION_NAME),
    ("InstitutionAddress", tags::INSTITUTION_ADDRESS),
    ("ReferringPhysicianName", tags::REFERRING_PHYSICIAN_NAME),
    ("CodeValue", tags::CODE_VALUE),
    ("CodingSchemeDesignator", tags::CODING_SCHEME_DESIGNATOR),
    ("CodingSchemeVersion", tags::CODING_SCHEME_VERSION),
    ("CodeMeaning", tags::CODE_MEANING),
    ("TimezoneOffsetFromUTC", tags::TIMEZONE_OFFSET_FROM_UTC),
    ("StationName", tags::STATION_NAME),
    ("StudyDescription", tags::STUDY_DESCRIPTION),
    ("ProcedureCodeSequence", tags::PROCEDURE_CODE_SEQUENCE),
    ("SeriesDescription", tags::SERIES_DESCRIPTION),
    (
        "InstitutionalDepartmentName",
        tags::INSTITUTIONAL_DEPARTMENT_NAME,
    ),
    ("PhysiciansOfRecord", tags::PHYSICIANS_OF_RECORD),
    ("PerformingPhysicianName", tags::PERFORMING_PHYSICIAN_NAME),
    (
        "NameOfPhysiciansReadingStudy",
        tags::NAME_OF_PHYSICIANS_READING_STUDY,
    ),
    ("OperatorsName", tags::OPERATORS_NAME),
    (
        "AdmittingDiagnosesDescription",
        tags::ADMITTING_DIAGNOSES_DESCRIPTION,
    ),
    ("ManufacturerModelName", tags::MANUFACTURER_MODEL_NAME),
    ("ReferencedStudySequence", tags::REFERENCED_STUDY_SEQUENCE),
    (
        "ReferencedPerformedProcedureStepSequence",
        tags::REFERENCED_PERFORMED_PROCEDURE_STEP_SEQUENCE,
    ),
    ("ReferencedSeriesSequence", tags::REFERENCED_SERIES_SEQUENCE),
    (
        "ReferencedPatientSequence",
        tags::REFERENCED_PATIENT_SEQUENCE,
    ),
    ("ReferencedImageSequence", tags::REFERENCED_IMAGE_SEQUENCE),
    ("ReferencedSOPClassUID", tags::REFERENCED_SOP_CLASS_UID),
    (
        "ReferencedSOPInstanceUID",
        tags::REFERENCED_SOP_INSTANCE_UID,
    ),
    ("ReferencedSOPSequence", tags::REFERENCED_SOP_SEQUENCE),
    ("DerivationDescription", tags::DERIVATION_DESCRIPTION),
    ("SourceImageSequence", tags::SOURCE_IMAGE_SEQUENCE),
    ("PatientName", tags::PATIENT_NAME),
    ("PatientID", tags::PATIENT_ID),
    ("IssuerOfPatientID", tags::ISSUER_OF_PATIENT_ID),
    ("PatientBirthDate", tags::PATIENT_BIRTH_DATE),
    ("PatientBirthTime", tags::PATIENT_BIRTH_TIME),
    ("PatientSex", tags::PATIENT_SEX),
    ("OtherPatientIDs", tags::OTHER_PATIENT_IDS),
    ("OtherPatientNames", tags::OTHER_PATIENT_NAMES),
    ("PatientAge", tags::PATIENT_AGE),
    ("PatientSize", tags::PATIENT_SIZE),
    ("PatientWeight", tags::PATIENT_WEIGHT),
    ("MedicalAlerts", tags::MEDICAL_ALERTS),
    ("Allergies", tags::ALLERGIES),
    ("EthnicGroup", tags::ETHNIC_GROUP),
    ("Occupation", tags::OCCUPATION),
    ("AdditionalPatientHistory", tags::ADDITIONAL_PATIENT_HISTORY),
    ("PregnancyStatus", tags::PREGNANCY_STATUS),
    ("PatientComments", tags::PATIENT_COMMENTS),
    ("BodyPartExamined", tags::BODY_PART_EXAMINED),
    ("SliceThickness", tags::SLICE_THICKNESS),
    ("KVP", tags::KVP),
    ("RepetitionTime", tags::REPETITION_TIME),
    ("EchoTime", tags::ECHO_TIME),
    ("DeviceSerialNumber", tags::DEVICE_SERIAL_NUMBER),
    ("SoftwareVersions", tags::SOFTWARE_VERSIONS),
    ("ProtocolName", tags::PROTOCOL_NAME),
    ("XRayTubeCurrent", tags::X_RAY_TUBE_CURRENT),
    ("PatientPosition", tags::PATIENT_POSITION),
    ("StudyInstanceUID", tags::STUDY_INSTANCE_UID),
    ("SeriesInstanceUID", tags::SERIES_INSTANCE_UID),
    ("StudyID", tags::STUDY_ID),
    ("SeriesNumber", tags::SERIES_NUMBER),
    ("AcquisitionNumber", tags::ACQUISITION_NUMBER),
    ("InstanceNumber", tags::INSTANCE_NUMBER),
    ("ImagePositionPatient", tags::IMAGE_POSITION_PATIENT),
    ("ImageOrientationPatient", tags::IMAGE_ORIENTATION_PATIENT),
    ("FrameOfReferenceUID", tags::FRAME_OF_REFERENCE_UID),
    ("Laterality", tags::LATERALITY),
    ("SliceLocation", tags::SLICE_LOCATION),
    (
        "NumberOfStudyRelatedSeries",
        tags::NUMBER_OF_STUDY_RELATED_SERIES,
    ),
    (
        "NumberOfStudyRelatedInstances",
        tags::NUMBER_OF_STUDY_RELATED_INSTANCES,
    ),
    (
        "NumberOfSeriesRelatedInstances",
        tags::NUMBER_OF_SERIES_RELATED_INSTANCES,
    ),
    ("ImageComments", tags::IMAGE_COMMENTS),
    ("SamplesPerPixel", tags::SAMPLES_PER_PIXEL),
    (
        "PhotometricInterpretation",
        tags::PHOTOMETRIC_INTERPRETATION,
    ),
    ("NumberOfFrames", tags::NUMBER_OF_FRAMES),
    ("Rows", tags::ROWS),
    ("Columns", tags::COLUMNS),
    ("PixelSpacing", tags::PIXEL_SPACING),
    ("BitsAllocated", tags::BITS_ALLOCATED),
    ("BitsStored", tags::BITS_STORED),
    ("HighBit", tags::HIGH_BIT),
    ("PixelRepresentation", tags::PIXEL_REPRESENTATION),
    ("WindowCenter", tags::WINDOW_CENTER),
    ("WindowWidth", tags::WINDOW_WIDTH),
    ("RescaleIntercept", tags::RESCALE_INTERCEPT),
    ("RescaleSlope", tags::RESCALE_SLOPE),
    ("RequestingPhysician", tags::REQUESTING_PHYSICIAN),
    ("RequestingService", tags::REQUESTING_SERVICE),
    (
        "RequestedProcedureDescription",
        tags::REQUESTED_PROCEDURE_DESCRIPTION,
    ),
    (
        "RequestedProcedureCodeSequence",
        tags::REQUESTED_PROCEDURE_CODE_SEQUENCE,
    ),
    ("AdmissionID", tags::ADMISSION_ID),
    ("SpecialNeeds", tags::SPECIAL_NEEDS),
    ("CurrentPatientLocation", tags::CURRENT_PATIENT_LOCATION),
    ("PatientState", tags::PATIENT_STATE),
    ("ScheduledStationAETitle", tags::SCHEDULED_STATION_AE_TITLE),
    (
        "ScheduledProcedureStepStartDate",
        tags::SCHEDULED_PROCEDURE_STEP_START_DATE,
    ),
    (
        "ScheduledProcedureStepStartTime",
        tags::SCHEDULED_PROCEDURE_STEP_START_TIME,
    ),
    (
        "ScheduledProcedureStepEndDate",
        tags::SCHEDULED_PROCEDURE_STEP_END_DATE,
    ),
    (
        "ScheduledProcedureStepEndTime",
        tags::SCHEDULED_PROCEDURE_STEP_END_TIME,
    ),
    (
        "ScheduledPerformingPhysicianName",
        tags::SCHEDULED_PERFORMING_PHYSICIAN_NAME,
    ),
    (
        "ScheduledProcedureStepDescription",
        tags::SCHEDULED_PROCEDURE_STEP_DESCRIPTION,
    ),
    (
        "ScheduledProtocolCodeSequence",
        tags::SCHEDULED_PROTOCOL_CODE_SEQUENCE,
    ),
    (
        "ScheduledProcedureStepID",
        tags::SCHEDULED_PROCEDURE_STEP_ID,
    ),
    ("ScheduledStationName", tags::SCHEDULED_STATION_NAME),
    (
        "ScheduledProcedureStepLocation",
        tags::SCHEDULED_PROCEDURE_STEP_LOCATION,
    ),
    ("PreMedication", tags::PRE_MEDICATION),
    (
        "ScheduledProcedureStepStatus",
        tags::SCHEDULED_PROCEDURE_STEP_STATUS,
    ),
    (
        "ScheduledProcedureStepSequence",
        tags::SCHEDULED_PROCEDURE_STEP_SEQUENCE,
    ),
    (
        "ReferencedNonImageCompositeSOPInstanceSequence",
        tags::REFERENCED_NON_IMAGE_COMPOSITE_SOP_INSTANCE_SEQUENCE,
    ),
    ("PerformedStationAETitle", tags::PERFORMED_STATION_AE_TITLE),
    ("PerformedStationName", tags::PERFORMED_STATION_NAME),
    ("PerformedLocation", tags::PERFORMED_LOCATION),
    (
        "PerformedProcedureStepStartDate",
        tags::PERFORMED_PROCEDURE_STEP_START_DATE,
    ),
    (
        "PerformedProcedureStepStartTime",
        tags::PERFORMED_PROCEDURE_STEP_START_TIME,
    ),
    (
        "PerformedProcedureStepEndDate",
        tags::PERFORMED_PROCEDURE_STEP_END_DATE,
    ),
    (
        "PerformedProcedureStepEndTime",
        tags::PERFORMED_PROCEDURE_STEP_END_TIME,
    ),
    (
        "PerformedProcedureStepStatus",
        tags::PERFORMED_PROCEDURE_STEP_STATUS,
    ),
    (
        "PerformedProcedureStepID",
        tags::PERFORMED_PROCEDURE_STEP_ID,
    ),
    (
        "PerformedProcedureStepDescription",
        tags::PERFORMED_PROCEDURE_STEP_DESCRIPTION,
    ),
    (
        "PerformedProcedureTypeDescription",
        tags::PERFORMED_PROCEDURE_TYPE_DESCRIPTION,
    ),
    (
        "PerformedProtocolCodeSequence",
        tags::PERFORMED_PROTOCOL_CODE_SEQUENCE,
    ),
    (
        "ScheduledStepAttributesSequence",
        tags::SCHEDULED_STEP_ATTRIBUTES_SEQUENCE,
    ),
    (
        "RequestAttributesSequence",
        tags::REQUEST_ATTRIBUTES_SEQUENCE,
    ),
    (
        "CommentsOnThePerformedProcedureStep",
        tags::COMMENTS_ON_THE_PERFORMED_PROCEDURE_STEP,
    ),
    (
        "PerformedProcedureStepDiscontinuationReasonCodeSequence",
        tags::PERFORMED_PROCEDURE_STEP_DISCONTINUATION_REASON_CODE_SEQUENCE,
    ),
    ("PerformedSeriesSequence", tags::PERFORMED_SERIES_SEQUENCE),
    ("RequestedProcedureID", tags::REQUESTED_PROCEDURE_ID),
    (
        "ReasonForTheRequestedProcedure",
        tags::REASON_FOR_THE_REQUESTED_PROCEDURE,
    ),
    (
        "RequestedProcedurePriority",
        tags::REQUESTED_PROCEDURE_PRIORITY,
    ),
    (
        "PatientTransportArrangements",
        tags::PATIENT_TRANSPORT_ARRANGEMENTS,
    ),
    (
        "RequestedProcedureComments",
        tags::REQUESTED_PROCEDURE_COMMENTS,
    ),
    (
        "PlacerOrderNumberImagingServiceRequest",
        tags::PLACER_ORDER_NUMBER_IMAGING_SERVICE_REQUEST,
    ),
    (
        "FillerOrderNumberImagingServiceRequest",
        tags::FILLER_ORDER_NUMBER_IMAGING_SERVICE_REQUEST,
    ),
    (
        "ImagingServiceRequestComments",
        tags::IMAGING_SERVICE_REQUEST_COMMENTS,
    ),
    ("PixelData", tags::PIXEL_DATA),
];

fn tag_among(entries: &[(&str, Tag)], word: &str) -> Option<Tag>
    ensures { result ≡ tag_among (map (λ entry. (entry.0.now, entry.1)) entries.now) word.now }
{
    for (keyword, tag) in entries {
        if *keyword == word {
            return Some(*tag);
        }
    }
    None
}

/// The tag of the attribute with the keyword.
fn tag_of_keyword(word: &str) -> Option<Tag>
    ensures { result ≡ tag_of_keyword word.now }
{
    tag_among(&KEYWORDS, word)
}

/// The tag of the attribute that a text names: by eight hexadecimal digits, as in DICOM JSON, or by a
/// keyword of the dictionary.
#[tactic(auto, unfolding(crate::specs::Keywords::named_by))]
pub fn tag_named(text: &str) -> Option<Tag>
    ensures { result ≡ tag_named text.now }
{
    match <[u8; 4] as FromHex>::from_hex(text) {
        Ok(octets) => {
            let [a, b, c, d] = octets;
            Some(Tag {
                group: u16::from_be_bytes([a, b]),
                element: u16::from_be_bytes([c, d]),
            })
        }
        Err(_) => tag_of_keyword(text),
    }
}
