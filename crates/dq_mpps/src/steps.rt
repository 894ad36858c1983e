//! Parts that the creation and the change of a step share.
ghost use Rattle.std.specs.Prelude.{◌≡◌, IfOk};
ghost use Rattle.dq_tables.specs.Rows.{row_of};
ghost use Rattle.dq_mpps.specs.Steps.{has_status, spelled_step, in_progress};
ghost use Rattle.dq_mpps.specs.NSet.{is_ended, sends_unknown_status};

use dq_dataset::DataSet;
use dq_tables::{Kind, RecordKeys, Row};
use dq_vr::tags;
use std::alloc::{AllocError, Global};

/// The data set of a message is at most so many octets.
pub(crate) const DATA_SET_LIMIT: usize = 0x10_0000;

/// The parts of an N-CREATE or an N-SET request: the SOP Instance UID of a step, and a data set.
#[derive(Clone, Copy)]
pub(crate) struct Sent<'a> {
    pub(crate) uid: &'a [u8],
    pub(crate) data_set: &'a DataSet,
}

/// Whether the only value of the status is this one.
#[tactic(auto, unfolding(crate::specs::Steps::has_status))]
fn has_status(step: &DataSet, status: &[u8]) -> bool
    ensures { result ≡ has_status status.now step.now }
{
    match step.sole_value(tags::PERFORMED_PROCEDURE_STEP_STATUS) {
        Some(value) => value == status,
        None => false,
    }
}

/// Whether a step is in progress.
pub(crate) fn is_in_progress(step: &DataSet) -> bool
    ensures { result ≡ has_status in_progress step.now }
{
    has_status(step, b"IN PROGRESS")
}

/// Whether a step is completed or discontinued.
#[tactic(auto, unfolding(crate::specs::NSet::is_ended))]
pub(crate) fn is_ended(step: &DataSet) -> bool
    ensures { result ≡ is_ended step.now }
{
    has_status(step, b"COMPLETED") || has_status(step, b"DISCONTINUED")
}

/// Whether a status is sent that no step has.
#[tactic(auto, unfolding(crate::specs::NSet::sends_unknown_status))]
pub(crate) fn sends_unknown_status(sent: &DataSet) -> bool
    ensures { result ≡ sends_unknown_status sent.now }
{
    sent.get(tags::PERFORMED_PROCEDURE_STEP_STATUS).is_some()
        && !(is_in_progress(sent) || is_ended(sent))
}

/// The row of a step whose data set these octets spell.
pub(crate) fn step_row(
    alloc: Global,
    name: &[u8],
    uid: &[u8],
    octets: Vec<u8>,
) -> Result<Row, AllocError>
    ensures { IfOk result (λ row. row ≡ row_of name.now (spelled_step uid.now octets.items)) }
{
    let keys = RecordKeys {
        kind: Kind::Step,
        key: uid,
        above: &[],
    };
    Row::new(alloc, name, &keys, octets)
}
