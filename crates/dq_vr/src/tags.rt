//! The data dictionary (PS3.6, chapter 6): its tags by their keywords, and the VR of each.

use crate::{Tag, Vr};

/// A tag by the numbers of its group and its element.
macro_rules! tag {
    ($group:literal, $element:literal) => {
        Tag {
            group: $group,
            element: $element,
        }
    };
}

/// `SpecificCharacterSet`.
pub const SPECIFIC_CHARACTER_SET: Tag = tag!(0x0008, 0x0005);
/// `ImageType`.
pub const IMAGE_TYPE: Tag = tag!(0x0008, 0x0008);
/// `InstanceCreationDate`.
pub const INSTANCE_CREATION_DATE: Tag = tag!(0x0008, 0x0012);
/// `InstanceCreationTime`.
pub const INSTANCE_CREATION_TIME: Tag = tag!(0x0008, 0x0013);
/// `InstanceCreatorUID`.
pub const INSTANCE_CREATOR_UID: Tag = tag!(0x0008, 0x0014);
/// `SOPClassUID`.
pub const SOP_CLASS_UID: Tag = tag!(0x0008, 0x0016);
/// `SOPInstanceUID`.
pub const SOP_INSTANCE_UID: Tag = tag!(0x0008, 0x0018);
/// `StudyDate`.
pub const STUDY_DATE: Tag = tag!(0x0008, 0x0020);
/// `SeriesDate`.
pub const SERIES_DATE: Tag = tag!(0x0008, 0x0021);
/// `AcquisitionDate`.
pub const ACQUISITION_DATE: Tag = tag!(0x0008, 0x0022);
/// `ContentDate`.
pub const CONTENT_DATE: Tag = tag!(0x0008, 0x0023);
/// `AcquisitionDateTime`.
pub const ACQUISITION_DATE_TIME: Tag = tag!(0x0008, 0x002a);
/// `StudyTime`.
pub const STUDY_TIME: Tag = tag!(0x0008, 0x0030);
/// `SeriesTime`.
pub const SERIES_TIME: Tag = tag!(0x0008, 0x0031);
/// `AcquisitionTime`.
pub const ACQUISITION_TIME: Tag = tag!(0x0008, 0x0032);
/// `ContentTime`.
pub const CONTENT_TIME: Tag = tag!(0x0008, 0x0033);
/// `AccessionNumber`.
pub const ACCESSION_NUMBER: Tag = tag!(0x0008, 0x0050);
/// `QueryRetrieveLevel`.
pub const QUERY_RETRIEVE_LEVEL: Tag = tag!(0x0008, 0x0052);
/// `RetrieveAETitle`.
pub const RETRIEVE_AE_TITLE: Tag = tag!(0x0008, 0x0054);
/// `InstanceAvailability`.
pub const INSTANCE_AVAILABILITY: Tag = tag!(0x0008, 0x0056);
/// `Modality`.
pub const MODALITY: Tag = tag!(0x0008, 0x0060);
/// `ModalitiesInStudy`.
pub const MODALITIES_IN_STUDY: Tag = tag!(0x0008, 0x0061);
/// `SOPClassesInStudy`.
pub const SOP_CLASSES_IN_STUDY: Tag = tag!(0x0008, 0x0062);
/// `ConversionType`.
pub const CONVERSION_TYPE: Tag = tag!(0x0008, 0x0064);
/// `Manufacturer`.
pub const MANUFACTURER: Tag = tag!(0x0008, 0x0070);
/// `InstitutionName`.
pub const INSTITUTION_NAME: Tag = tag!(0x0008, 0x0080);
/// `InstitutionAddress`.
pub const INSTITUTION_ADDRESS: Tag = tag!(0x0008, 0x0081);
/// `ReferringPhysicianName`.
pub const REFERRING_PHYSICIAN_NAME: Tag = tag!(0x0008, 0x0090);
/// `CodeValue`.
pub const CODE_VALUE: Tag = tag!(0x0008, 0x0100);
/// `CodingSchemeDesignator`.
pub const CODING_SCHEME_DESIGNATOR: Tag = tag!(0x0008, 0x0102);
/// `CodingSchemeVersion`.
pub const CODING_SCHEME_VERSION: Tag = tag!(0x0008, 0x0103);
/// `CodeMeaning`.
pub const CODE_MEANING: Tag = tag!(0x0008, 0x0104);
/// `TimezoneOffsetFromUTC`.
pub const TIMEZONE_OFFSET_FROM_UTC: Tag = tag!(0x0008, 0x0201);
/// `StationName`.
pub const STATION_NAME: Tag = tag!(0x0008, 0x1010);
/// `StudyDescription`.
pub const STUDY_DESCRIPTION: Tag = tag!(0x0008, 0x1030);
/// `ProcedureCodeSequence`.
pub const PROCEDURE_CODE_SEQUENCE: Tag = tag!(0x0008, 0x1032);
/// `SeriesDescription`.
pub const SERIES_DESCRIPTION: Tag = tag!(0x0008, 0x103e);
/// `InstitutionalDepartmentName`.
pub const INSTITUTIONAL_DEPARTMENT_NAME: Tag = tag!(0x0008, 0x1040);
/// `PhysiciansOfRecord`.
pub const PHYSICIANS_OF_RECORD: Tag = tag!(0x0008, 0x1048);
/// `PerformingPhysicianName`.
pub const PERFORMING_PHYSICIAN_NAME: Tag = tag!(0x0008, 0x1050);
/// `NameOfPhysiciansReadingStudy`.
pub const NAME_OF_PHYSICIANS_READING_STUDY: Tag = tag!(0x0008, 0x1060);
/// `OperatorsName`.
pub const OPERATORS_NAME: Tag = tag!(0x0008, 0x1070);
/// `AdmittingDiagnosesDescription`.
pub const ADMITTING_DIAGNOSES_DESCRIPTION: Tag = tag!(0x0008, 0x1080);
/// `ManufacturerModelName`.
pub const MANUFACTURER_MODEL_NAME: Tag = tag!(0x0008, 0x1090);
/// `ReferencedStudySequence`.
pub const REFERENCED_STUDY_SEQUENCE: Tag = tag!(0x0008, 0x1110);
/// `ReferencedPerformedProcedureStepSequence`.
pub const REFERENCED_PERFORMED_PROCEDURE_STEP_SEQUENCE: Tag = tag!(0x0008, 0x1111);
/// `ReferencedSeriesSequence`.
pub const REFERENCED_SERIES_SEQUENCE: Tag = tag!(0x0008, 0x1115);
/// `ReferencedPatientSequence`.
pub const REFERENCED_PATIENT_SEQUENCE: Tag = tag!(0x0008, 0x1120);
/// `ReferencedImageSequence`.
pub const REFERENCED_IMAGE_SEQUENCE: Tag = tag!(0x0008, 0x1140);
/// `ReferencedSOPClassUID`.
pub const REFERENCED_SOP_CLASS_UID: Tag = tag!(0x0008, 0x1150);
/// `ReferencedSOPInstanceUID`.
pub const REFERENCED_SOP_INSTANCE_UID: Tag = tag!(0x0008, 0x1155);
/// `ReferencedSOPSequence`.
pub const REFERENCED_SOP_SEQUENCE: Tag = tag!(0x0008, 0x1199);
/// `DerivationDescription`.
pub const DERIVATION_DESCRIPTION: Tag = tag!(0x0008, 0x2111);
/// `SourceImageSequence`.
pub const SOURCE_IMAGE_SEQUENCE: Tag = tag!(0x0008, 0x2112);

/// `PatientName`.
pub const PATIENT_NAME: Tag = tag!(0x0010, 0x0010);
/// `PatientID`.
pub const PATIENT_ID: Tag = tag!(0x0010, 0x0020);
/// `IssuerOfPatientID`.
pub const ISSUER_OF_PATIENT_ID: Tag = tag!(0x0010, 0x0021);
/// `PatientBirthDate`.
pub const PATIENT_BIRTH_DATE: Tag = tag!(0x0010, 0x0030);
/// `PatientBirthTime`.
pub const PATIENT_BIRTH_TIME: Tag = tag!(0x0010, 0x0032);
/// `PatientSex`.
pub const PATIENT_SEX: Tag = tag!(0x0010, 0x0040);
/// `OtherPatientIDs`.
pub const OTHER_PATIENT_IDS: Tag = tag!(0x0010, 0x1000);
/// `OtherPatientNames`.
pub const OTHER_PATIENT_NAMES: Tag = tag!(0x0010, 0x1001);
/// `PatientAge`.
pub const PATIENT_AGE: Tag = tag!(0x0010, 0x1010);
/// `PatientSize`.
pub const PATIENT_SIZE: Tag = tag!(0x0010, 0x1020);
/// `PatientWeight`.
pub const PATIENT_WEIGHT: Tag = tag!(0x0010, 0x1030);
/// `MedicalAlerts`.
pub const MEDICAL_ALERTS: Tag = tag!(0x0010, 0x2000);
/// `Allergies`.
pub const ALLERGIES: Tag = tag!(0x0010, 0x2110);
/// `EthnicGroup`.
pub const ETHNIC_GROUP: Tag = tag!(0x0010, 0x2160);
/// `Occupation`.
pub const OCCUPATION: Tag = tag!(0x0010, 0x2180);
/// `AdditionalPatientHistory`.
pub const ADDITIONAL_PATIENT_HISTORY: Tag = tag!(0x0010, 0x21b0);
/// `PregnancyStatus`.
pub const PREGNANCY_STATUS: Tag = tag!(0x0010, 0x21c0);
/// `PatientComments`.
pub const PATIENT_COMMENTS: Tag = tag!(0x0010, 0x4000);

/// `BodyPartExamined`.
pub const BODY_PART_EXAMINED: Tag = tag!(0x0018, 0x0015);
/// `SliceThickness`.
pub const SLICE_THICKNESS: Tag = tag!(0x0018, 0x0050);
/// `KVP`.
pub const KVP: Tag = tag!(0x0018, 0x0060);
/// `RepetitionTime`.
pub const REPETITION_TIME: Tag = tag!(0x0018, 0x0080);
/// `EchoTime`.
pub const ECHO_TIME: Tag = tag!(0x0018, 0x0081);
/// `DeviceSerialNumber`.
pub const DEVICE_SERIAL_NUMBER: Tag = tag!(0x0018, 0x1000);
/// `SoftwareVersions`.
pub const SOFTWARE_VERSIONS: Tag = tag!(0x0018, 0x1020);
/// `ProtocolName`.
pub const PROTOCOL_NAME: Tag = tag!(0x0018, 0x1030);
/// `XRayTubeCurrent`.
pub const X_RAY_TUBE_CURRENT: Tag = tag!(0x0018, 0x1151);
/// `PatientPosition`.
pub const PATIENT_POSITION: Tag = tag!(0x0018, 0x5100);

/// `StudyInstanceUID`.
pub const STUDY_INSTANCE_UID: Tag = tag!(0x0020, 0x000d);
/// `SeriesInstanceUID`.
pub const SERIES_INSTANCE_UID: Tag = tag!(0x0020, 0x000e);
/// `StudyID`.
pub const STUDY_ID: Tag = tag!(0x0020, 0x0010);
/// `SeriesNumber`.
pub const SERIES_NUMBER: Tag = tag!(0x0020, 0x0011);
/// `AcquisitionNumber`.
pub const ACQUISITION_NUMBER: Tag = tag!(0x0020, 0x0012);
/// `InstanceNumber`.
pub const INSTANCE_NUMBER: Tag = tag!(0x0020, 0x0013);
/// `ImagePositionPatient`.
pub const IMAGE_POSITION_PATIENT: Tag = tag!(0x0020, 0x0032);
/// `ImageOrientationPatient`.
pub const IMAGE_ORIENTATION_PATIENT: Tag = tag!(0x0020, 0x0037);
/// `FrameOfReferenceUID`.
pub const FRAME_OF_REFERENCE_UID: Tag = tag!(0x0020, 0x0052);
/// `Laterality`.
pub const LATERALITY: Tag = tag!(0x0020, 0x0060);
/// `SliceLocation`.
pub const SLICE_LOCATION: Tag = tag!(0x0020, 0x1041);
/// `NumberOfStudyRelatedSeries`.
pub const NUMBER_OF_STUDY_RELATED_SERIES: Tag = tag!(0x0020, 0x1206);
/// `NumberOfStudyRelatedInstances`.
pub const NUMBER_OF_STUDY_RELATED_INSTANCES: Tag = tag!(0x0020, 0x1208);
/// `NumberOfSeriesRelatedInstances`.
pub const NUMBER_OF_SERIES_RELATED_INSTANCES: Tag = tag!(0x0020, 0x1209);
/// `ImageComments`.
pub const IMAGE_COMMENTS: Tag = tag!(0x0020, 0x4000);

/// `SamplesPerPixel`.
pub const SAMPLES_PER_PIXEL: Tag = tag!(0x0028, 0x0002);
/// `PhotometricInterpretation`.
pub const PHOTOMETRIC_INTERPRETATION: Tag = tag!(0x0028, 0x0004);
/// `NumberOfFrames`.
pub const NUMBER_OF_FRAMES: Tag = tag!(0x0028, 0x0008);
/// `Rows`.
pub const ROWS: Tag = tag!(0x0028, 0x0010);
/// `Columns`.
pub const COLUMNS: Tag = tag!(0x0028, 0x0011);
/// `PixelSpacing`.
pub const PIXEL_SPACING: Tag = tag!(0x0028, 0x0030);
/// `BitsAllocated`.
pub const BITS_ALLOCATED: Tag = tag!(0x0028, 0x0100);
/// `BitsStored`.
pub const BITS_STORED: Tag = tag!(0x0028, 0x0101);
/// `HighBit`.
pub const HIGH_BIT: Tag = tag!(0x0028, 0x0102);
/// `PixelRepresentation`.
pub const PIXEL_REPRESENTATION: Tag = tag!(0x0028, 0x0103);
/// `WindowCenter`.
pub const WINDOW_CENTER: Tag = tag!(0x0028, 0x1050);
/// `WindowWidth`.
pub const WINDOW_WIDTH: Tag = tag!(0x0028, 0x1051);
/// `RescaleIntercept`.
pub const RESCALE_INTERCEPT: Tag = tag!(0x0028, 0x1052);
/// `RescaleSlope`.
pub const RESCALE_SLOPE: Tag = tag!(0x0028, 0x1053);

/// `RequestingPhysician`.
pub const REQUESTING_PHYSICIAN: Tag = tag!(0x0032, 0x1032);
/// `RequestingService`.
pub const REQUESTING_SERVICE: Tag = tag!(0x0032, 0x1033);
/// `RequestedProcedureDescription`.
pub const REQUESTED_PROCEDURE_DESCRIPTION: Tag = tag!(0x0032, 0x1060);
/// `RequestedProcedureCodeSequence`.
pub const REQUESTED_PROCEDURE_CODE_SEQUENCE: Tag = tag!(0x0032, 0x1064);

/// `AdmissionID`.
pub const ADMISSION_ID: Tag = tag!(0x0038, 0x0010);
/// `SpecialNeeds`.
pub const SPECIAL_NEEDS: Tag = tag!(0x0038, 0x0050);
/// `CurrentPatientLocation`.
pub const CURRENT_PATIENT_LOCATION: Tag = tag!(0x0038, 0x0300);
/// `PatientState`.
pub const PATIENT_STATE: Tag = tag!(0x0038, 0x0500);

/// `ScheduledStationAETitle`.
pub const SCHEDULED_STATION_AE_TITLE: Tag = tag!(0x0040, 0x0001);
/// `ScheduledProcedureStepStartDate`.
pub const SCHEDULED_PROCEDURE_STEP_START_DATE: Tag = tag!(0x0040, 0x0002);
/// `ScheduledProcedureStepStartTime`.
pub const SCHEDULED_PROCEDURE_STEP_START_TIME: Tag = tag!(0x0040, 0x0003);
/// `ScheduledProcedureStepEndDate`.
pub const SCHEDULED_PROCEDURE_STEP_END_DATE: Tag = tag!(0x0040, 0x0004);
/// `ScheduledProcedureStepEndTime`.
pub const SCHEDULED_PROCEDURE_STEP_END_TIME: Tag = tag!(0x0040, 0x0005);
/// `ScheduledPerformingPhysicianName`.
pub const SCHEDULED_PERFORMING_PHYSICIAN_NAME: Tag = tag!(0x0040, 0x0006);
/// `ScheduledProcedureStepDescription`.
pub const SCHEDULED_PROCEDURE_STEP_DESCRIPTION: Tag = tag!(0x0040, 0x0007);
/// `ScheduledProtocolCodeSequence`.
pub const SCHEDULED_PROTOCOL_CODE_SEQUENCE: Tag = tag!(0x0040, 0x0008);
/// `ScheduledProcedureStepID`.
pub const SCHEDULED_PROCEDURE_STEP_ID: Tag = tag!(0x0040, 0x0009);
/// `ScheduledStationName`.
pub const SCHEDULED_STATION_NAME: Tag = tag!(0x0040, 0x0010);
/// `ScheduledProcedureStepLocation`.
pub const SCHEDULED_PROCEDURE_STEP_LOCATION: Tag = tag!(0x0040, 0x0011);
/// `PreMedication`.
pub const PRE_MEDICATION: Tag = tag!(0x0040, 0x0012);
/// `ScheduledProcedureStepStatus`.
pub const SCHEDULED_PROCEDURE_STEP_STATUS: Tag = tag!(0x0040, 0x0020);
/// `ScheduledProcedureStepSequence`.
pub const SCHEDULED_PROCEDURE_STEP_SEQUENCE: Tag = tag!(0x0040, 0x0100);
/// `ReferencedNonImageCompositeSOPInstanceSequence`.
pub const REFERENCED_NON_IMAGE_COMPOSITE_SOP_INSTANCE_SEQUENCE: Tag = tag!(0x0040, 0x0220);
/// `PerformedStationAETitle`.
pub const PERFORMED_STATION_AE_TITLE: Tag = tag!(0x0040, 0x0241);
/// `PerformedStationName`.
pub const PERFORMED_STATION_NAME: Tag = tag!(0x0040, 0x0242);
/// `PerformedLocation`.
pub const PERFORMED_LOCATION: Tag = tag!(0x0040, 0x0243);
/// `PerformedProcedureStepStartDate`.
pub const PERFORMED_PROCEDURE_STEP_START_DATE: Tag = tag!(0x0040, 0x0244);
/// `PerformedProcedureStepStartTime`.
pub const PERFORMED_PROCEDURE_STEP_START_TIME: Tag = tag!(0x0040, 0x0245);
/// `PerformedProcedureStepEndDate`.
pub const PERFORMED_PROCEDURE_STEP_END_DATE: Tag = tag!(0x0040, 0x0250);
/// `PerformedProcedureStepEndTime`.
pub const PERFORMED_PROCEDURE_STEP_END_TIME: Tag = tag!(0x0040, 0x0251);
/// `PerformedProcedureStepStatus`.
pub const PERFORMED_PROCEDURE_STEP_STATUS: Tag = tag!(0x0040, 0x0252);
/// `PerformedProcedureStepID`.
pub const PERFORMED_PROCEDURE_STEP_ID: Tag = tag!(0x0040, 0x0253);
/// `PerformedProcedureStepDescription`.
pub const PERFORMED_PROCEDURE_STEP_DESCRIPTION: Tag = tag!(0x0040, 0x0254);
/// `PerformedProcedureTypeDescription`.
pub const PERFORMED_PROCEDURE_TYPE_DESCRIPTION: Tag = tag!(0x0040, 0x0255);
/// `PerformedProtocolCodeSequence`.
pub const PERFORMED_PROTOCOL_CODE_SEQUENCE: Tag = tag!(0x0040, 0x0260);
/// `ScheduledStepAttributesSequence`.
pub const SCHEDULED_STEP_ATTRIBUTES_SEQUENCE: Tag = tag!(0x0040, 0x0270);
/// `RequestAttributesSequence`.
pub const REQUEST_ATTRIBUTES_SEQUENCE: Tag = tag!(0x0040, 0x0275);
/// `CommentsOnThePerformedProcedureStep`.
pub const COMMENTS_ON_THE_PERFORMED_PROCEDURE_STEP: Tag = tag!(0x0040, 0x0280);
/// `PerformedProcedureStepDiscontinuationReasonCodeSequence`.
pub const PERFORMED_PROCEDURE_STEP_DISCONTINUATION_REASON_CODE_SEQUENCE: Tag = tag!(0x0040, 0x0281);
/// `PerformedSeriesSequence`.
pub const PERFORMED_SERIES_SEQUENCE: Tag = tag!(0x0040, 0x0340);
/// `RequestedProcedureID`.
pub const REQUESTED_PROCEDURE_ID: Tag = tag!(0x0040, 0x1001);
/// `ReasonForTheRequestedProcedure`.
pub const REASON_FOR_THE_REQUESTED_PROCEDURE: Tag = tag!(0x0040, 0x1002);
/// `RequestedProcedurePriority`.
pub const REQUESTED_PROCEDURE_PRIORITY: Tag = tag!(0x0040, 0x1003);
/// `PatientTransportArrangements`.
pub const PATIENT_TRANSPORT_ARRANGEMENTS: Tag = tag!(0x0040, 0x1004);
/// `RequestedProcedureComments`.
pub const REQUESTED_PROCEDURE_COMMENTS: Tag = tag!(0x0040, 0x1400);
/// `PlacerOrderNumberImagingServiceRequest`.
pub const PLACER_ORDER_NUMBER_IMAGING_SERVICE_REQUEST: Tag = tag!(0x0040, 0x2016);
/// `FillerOrderNumberImagingServiceRequest`.
pub const FILLER_ORDER_NUMBER_IMAGING_SERVICE_REQUEST: Tag = tag!(0x0040, 0x2017);
/// `ImagingServiceRequestComments`.
pub const IMAGING_SERVICE_REQUEST_COMMENTS: Tag = tag!(0x0040, 0x2400);

/// `PixelData`.
pub const PIXEL_DATA: Tag = tag!(0x7fe0, 0x0010);

/// The data dictionary (PS3.6, chapter 6): each tag that is known here with its VR, by rising tag.
pub static DICTIONARY: [(Tag, Vr); 160] = [
    (SPECIFIC_CHARACTER_SET, Vr::CS),
    (IMAGE_TYPE, Vr::CS),
    (INSTANCE_CREATION_DATE, Vr::DA),
    (INSTANCE_CREATION_TIME, Vr::TM),
    (INSTANCE_CREATOR_UID, Vr::UI),
    (SOP_CLASS_UID, Vr::UI),
    (SOP_INSTANCE_UID, Vr::UI),
    (STUDY_DATE, Vr::DA),
    (SERIES_DATE, Vr::DA),
    (ACQUISITION_DATE, Vr::DA),
    (CONTENT_DATE, Vr::DA),
    (ACQUISITION_DATE_TIME, Vr::DT),
    (STUDY_TIME, Vr::TM),
    (SERIES_TIME, Vr::TM),
    (ACQUISITION_TIME, Vr::TM),
    (CONTENT_TIME, Vr::TM),
    (ACCESSION_NUMBER, Vr::SH),
    (QUERY_RETRIEVE_LEVEL, Vr::CS),
    (RETRIEVE_AE_TITLE, Vr::AE),
    (INSTANCE_AVAILABILITY, Vr::CS),
    (MODALITY, Vr::CS),
    (MODALITIES_IN_STUDY, Vr::CS),
    (SOP_CLASSES_IN_STUDY, Vr::UI),
    (CONVERSION_TYPE, Vr::CS),
    (MANUFACTURER, Vr::LO),
    (INSTITUTION_NAME, Vr::LO),
    (INSTITUTION_ADDRESS, Vr::ST),
    (REFERRING_PHYSICIAN_NAME, Vr::PN),
    (CODE_VALUE, Vr::SH),
    (CODING_SCHEME_DESIGNATOR, Vr::SH),
    (CODING_SCHEME_VERSION, Vr::SH),
    (CODE_MEANING, Vr::LO),
    (TIMEZONE_OFFSET_FROM_UTC, Vr::SH),
    (STATION_NAME, Vr::SH),
    (STUDY_DESCRIPTION, Vr::LO),
    (PROCEDURE_CODE_SEQUENCE, Vr::SQ),
    (SERIES_DESCRIPTION, Vr::LO),
    (INSTITUTIONAL_DEPARTMENT_NAME, Vr::LO),
    (PHYSICIANS_OF_RECORD, Vr::PN),
    (PERFORMING_PHYSICIAN_NAME, Vr::PN),
    (NAME_OF_PHYSICIANS_READING_STUDY, Vr::PN),
    (OPERATORS_NAME, Vr::PN),
    (ADMITTING_DIAGNOSES_DESCRIPTION, Vr::LO),
    (MANUFACTURER_MODEL_NAME, Vr::LO),
    (REFERENCED_STUDY_SEQUENCE, Vr::SQ),
    (REFERENCED_PERFORMED_PROCEDURE_STEP_SEQUENCE, Vr::SQ),
    (REFERENCED_SERIES_SEQUENCE, Vr::SQ),
    (REFERENCED_PATIENT_SEQUENCE, Vr::SQ),
    (REFERENCED_IMAGE_SEQUENCE, Vr::SQ),
    (REFERENCED_SOP_CLASS_UID, Vr::UI),
    (REFERENCED_SOP_INSTANCE_UID, Vr::UI),
    (REFERENCED_SOP_SEQUENCE, Vr::SQ),
    (DERIVATION_DESCRIPTION, Vr::ST),
    (SOURCE_IMAGE_SEQUENCE, Vr::SQ),
    (PATIENT_NAME, Vr::PN),
    (PATIENT_ID, Vr::LO),
    (ISSUER_OF_PATIENT_ID, Vr::LO),
    (PATIENT_BIRTH_DATE, Vr::DA),
    (PATIENT_BIRTH_TIME, Vr::TM),
    (PATIENT_SEX, Vr::CS),
    (OTHER_PATIENT_IDS, Vr::LO),
    (OTHER_PATIENT_NAMES, Vr::PN),
    (PATIENT_AGE, Vr::AS),
    (PATIENT_SIZE, Vr::DS),
    (PATIENT_WEIGHT, Vr::DS),
    (MEDICAL_ALERTS, Vr::LO),
    (ALLERGIES, Vr::LO),
    (ETHNIC_GROUP, Vr::SH),
    (OCCUPATION, Vr::SH),
    (ADDITIONAL_PATIENT_HISTORY, Vr::LT),
    (PREGNANCY_STATUS, Vr::US),
    (PATIENT_COMMENTS, Vr::LT),
    (BODY_PART_EXAMINED, Vr::CS),
    (SLICE_THICKNESS, Vr::DS),
    (KVP, Vr::DS),
    (REPETITION_TIME, Vr::DS),
    (ECHO_TIME, Vr::DS),
    (DEVICE_SERIAL_NUMBER, Vr::LO),
    (SOFTWARE_VERSIONS, Vr::LO),
    (PROTOCOL_NAME, Vr::LO),
    (X_RAY_TUBE_CURRENT, Vr::IS),
    (PATIENT_POSITION, Vr::CS),
    (STUDY_INSTANCE_UID, Vr::UI),
    (SERIES_INSTANCE_UID, Vr::UI),
    (STUDY_ID, Vr::SH),
    (SERIES_NUMBER, Vr::IS),
    (ACQUISITION_NUMBER, Vr::IS),
    (INSTANCE_NUMBER, Vr::IS),
    (IMAGE_POSITION_PATIENT, Vr::DS),
    (IMAGE_ORIENTATION_PATIENT, Vr::DS),
    (FRAME_OF_REFERENCE_UID, Vr::UI),
    (LATERALITY, Vr::CS),
    (SLICE_LOCATION, Vr::DS),
    (NUMBER_OF_STUDY_RELATED_SERIES, Vr::IS),
    (NUMBER_OF_STUDY_RELATED_INSTANCES, Vr::IS),
    (NUMBER_OF_SERIES_RELATED_INSTANCES, Vr::IS),
    (IMAGE_COMMENTS, Vr::LT),
    (SAMPLES_PER_PIXEL, Vr::US),
    (PHOTOMETRIC_INTERPRETATION, Vr::CS),
    (NUMBER_OF_FRAMES, Vr::IS),
    (ROWS, Vr::US),
    (COLUMNS, Vr::US),
    (PIXEL_SPACING, Vr::DS),
    (BITS_ALLOCATED, Vr::US),
    (BITS_STORED, Vr::US),
    (HIGH_BIT, Vr::US),
    (PIXEL_REPRESENTATION, Vr::US),
    (WINDOW_CENTER, Vr::DS),
    (WINDOW_WIDTH, Vr::DS),
    (RESCALE_INTERCEPT, Vr::DS),
    (RESCALE_SLOPE, Vr::DS),
    (REQUESTING_PHYSICIAN, Vr::PN),
    (REQUESTING_SERVICE, Vr::LO),
    (REQUESTED_PROCEDURE_DESCRIPTION, Vr::LO),
    (REQUESTED_PROCEDURE_CODE_SEQUENCE, Vr::SQ),
    (ADMISSION_ID, Vr::LO),
    (SPECIAL_NEEDS, Vr::LO),
    (CURRENT_PATIENT_LOCATION, Vr::LO),
    (PATIENT_STATE, Vr::LO),
    (SCHEDULED_STATION_AE_TITLE, Vr::AE),
    (SCHEDULED_PROCEDURE_STEP_START_DATE, Vr::DA),
    (SCHEDULED_PROCEDURE_STEP_START_TIME, Vr::TM),
    (SCHEDULED_PROCEDURE_STEP_END_DATE, Vr::DA),
    (SCHEDULED_PROCEDURE_STEP_END_TIME, Vr::TM),
    (SCHEDULED_PERFORMING_PHYSICIAN_NAME, Vr::PN),
    (SCHEDULED_PROCEDURE_STEP_DESCRIPTION, Vr::LO),
    (SCHEDULED_PROTOCOL_CODE_SEQUENCE, Vr::SQ),
    (SCHEDULED_PROCEDURE_STEP_ID, Vr::SH),
    (SCHEDULED_STATION_NAME, Vr::SH),
    (SCHEDULED_PROCEDURE_STEP_LOCATION, Vr::SH),
    (PRE_MEDICATION, Vr::LO),
    (SCHEDULED_PROCEDURE_STEP_STATUS, Vr::CS),
    (SCHEDULED_PROCEDURE_STEP_SEQUENCE, Vr::SQ),
    (REFERENCED_NON_IMAGE_COMPOSITE_SOP_INSTANCE_SEQUENCE, Vr::SQ),
    (PERFORMED_STATION_AE_TITLE, Vr::AE),
    (PERFORMED_STATION_NAME, Vr::SH),
    (PERFORMED_LOCATION, Vr::SH),
    (PERFORMED_PROCEDURE_STEP_START_DATE, Vr::DA),
    (PERFORMED_PROCEDURE_STEP_START_TIME, Vr::TM),
    (PERFORMED_PROCEDURE_STEP_END_DATE, Vr::DA),
    (PERFORMED_PROCEDURE_STEP_END_TIME, Vr::TM),
    (PERFORMED_PROCEDURE_STEP_STATUS, Vr::CS),
    (PERFORMED_PROCEDURE_STEP_ID, Vr::SH),
    (PERFORMED_PROCEDURE_STEP_DESCRIPTION, Vr::LO),
    (PERFORMED_PROCEDURE_TYPE_DESCRIPTION, Vr::LO),
    (PERFORMED_PROTOCOL_CODE_SEQUENCE, Vr::SQ),
    (SCHEDULED_STEP_ATTRIBUTES_SEQUENCE, Vr::SQ),
    (REQUEST_ATTRIBUTES_SEQUENCE, Vr::SQ),
    (COMMENTS_ON_THE_PERFORMED_PROCEDURE_STEP, Vr::ST),
    (
        PERFORMED_PROCEDURE_STEP_DISCONTINUATION_REASON_CODE_SEQUENCE,
        Vr::SQ,
    ),
    (PERFORMED_SERIES_SEQUENCE, Vr::SQ),
    (REQUESTED_PROCEDURE_ID, Vr::SH),
    (REASON_FOR_THE_REQUESTED_PROCEDURE, Vr::LO),
    (REQUESTED_PROCEDURE_PRIORITY, Vr::SH),
    (PATIENT_TRANSPORT_ARRANGEMENTS, Vr::LO),
    (REQUESTED_PROCEDURE_COMMENTS, Vr::LT),
    (PLACER_ORDER_NUMBER_IMAGING_SERVICE_REQUEST, Vr::LO),
    (FILLER_ORDER_NUMBER_IMAGING_SERVICE_REQUEST, Vr::LO),
    (IMAGING_SERVICE_REQUEST_COMMENTS, Vr::LT),
    (PIXEL_DATA, Vr::OW),
];
