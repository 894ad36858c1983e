//! The SOP classes that are served (PS3.4 annexes A, B, C, F and K), and what serves them.
ghost use Rattle.std.specs.Prelude.{◌≡◌};
ghost use Rattle.dq_assoc.specs.Classes.{uid_of, class_of, service_of};

/// The service that serves the messages of a presentation context.
#[derive(Clone, Copy, Debug, PartialEq, Eq)]
pub enum Service {
    /// PS3.4 annex A.
    Verification,
    /// PS3.4 annex B.
    Storage,
    /// Query of the study root (PS3.4 annex C).
    StudyRootFind,
    /// PS3.4 annex K.
    WorklistFind,
    /// PS3.4 annex F.
    PerformedProcedureStep,
}

/// A SOP class that is served.
#[derive(Clone, Copy, Debug, PartialEq, Eq)]
pub enum SopClass {
    Verification,
    ComputedRadiographyImageStorage,
    CtImageStorage,
    MrImageStorage,
    UltrasoundImageStorage,
    SecondaryCaptureImageStorage,
    StudyRootFind,
    ModalityWorklistFind,
    ModalityPerformedProcedureStep,
}

const SERVED: [SopClass; 9] = [
    SopClass::Verification,
    SopClass::ComputedRadiographyImageStorage,
    SopClass::CtImageStorage,
    SopClass::MrImageStorage,
    SopClass::UltrasoundImageStorage,
    SopClass::SecondaryCaptureImageStorage,
    SopClass::StudyRootFind,
    SopClass::ModalityWorklistFind,
    SopClass::ModalityPerformedProcedureStep,
];

impl SopClass {
    /// Its UID (PS3.6 annex A).
    pub fn uid(self) -> &'static [u8]
        ensures { result.now ≡ uid_of self }
    {
        match self {
            SopClass::Verification => b"1.2.840.10008.1.1",
            SopClass::ComputedRadiographyImageStorage => b"1.2.840.10008.5.1.4.1.1.1",
            SopClass::CtImageStorage => b"1.2.840.10008.5.1.4.1.1.2",
            SopClass::MrImageStorage => b"1.2.840.10008.5.1.4.1.1.4",
            SopClass::UltrasoundImageStorage => b"1.2.840.10008.5.1.4.1.1.6.1",
            SopClass::SecondaryCaptureImageStorage => b"1.2.840.10008.5.1.4.1.1.7",
            SopClass::StudyRootFind => b"1.2.840.10008.5.1.4.1.2.2.1",
            SopClass::ModalityWorklistFind => b"1.2.840.10008.5.1.4.31",
            SopClass::ModalityPerformedProcedureStep => b"1.2.840.10008.3.1.2.3.3",
        }
    }

    /// The class that is served with the UID, without its padding.
    pub fn of(uid: &[u8]) -> Option<SopClass>
        ensures { result ≡ class_of uid.now }
    {
        SERVED.iter().find(|class| class.uid() == uid).copied()
    }

    /// Returns the service that serves it.
    pub fn service(self) -> Service
        ensures { result ≡ service_of self }
    {
        match self {
            SopClass::Verification => Service::Verification,
            SopClass::ComputedRadiographyImageStorage
            | SopClass::CtImageStorage
            | SopClass::MrImageStorage
            | SopClass::UltrasoundImageStorage
            | SopClass::SecondaryCaptureImageStorage => Service::Storage,
            SopClass::StudyRootFind => Service::StudyRootFind,
            SopClass::ModalityWorklistFind => Service::WorklistFind,
            SopClass::ModalityPerformedProcedureStep => Service::PerformedProcedureStep,
        }
    }
}
