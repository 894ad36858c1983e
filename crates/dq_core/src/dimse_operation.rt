//! The operations of the services.
ghost use Rattle.std.specs.Prelude.{◌≡◌, IfSome};
ghost use Rattle.dq_core.specs.Services.{operation_named, command_field_of};

use dq_assoc::Service;
use dq_dimse::command_field;

/// An operation of a service (PS3.4 annexes A, B, C, K and F).
#[derive(Clone, Copy, Debug, PartialEq, Eq)]
pub enum DimseOperation {
    /// C-ECHO.
    Echo,
    /// C-STORE.
    Store,
    /// C-FIND of the Study Root.
    FindStudies,
    /// C-FIND of the worklist.
    FindEntries,
    /// N-CREATE of a performed procedure step.
    CreateStep,
    /// N-SET of a performed procedure step.
    SetStep,
}

impl DimseOperation {
    /// The operation of a service that a Command Field names, if the service has it.
    pub fn of(service: Service, code: u16) -> Option<DimseOperation>
        ensures named { result ≡ operation_named service code }
        ensures field { IfSome result (λ operation. command_field_of operation ≡ code) }
    {
        match service {
            Service::Verification if code == command_field::C_ECHO => Some(DimseOperation::Echo),
            Service::Storage if code == command_field::C_STORE => Some(DimseOperation::Store),
            Service::StudyRootFind if code == command_field::C_FIND => Some(
                DimseOperation::FindStudies,
            ),
            Service::WorklistFind if code == command_field::C_FIND => Some(
                DimseOperation::FindEntries,
            ),
            Service::PerformedProcedureStep if code == command_field::N_CREATE => {
                Some(DimseOperation::CreateStep)
            }
            Service::PerformedProcedureStep if code == command_field::N_SET => {
                Some(DimseOperation::SetStep)
            }
            _ => None,
        }
    }
}
