//! N-SET of a performed procedure step (PS3.4 section F.7.2.2).
ghost use Rattle.std.specs.Prelude.{◌≡◌, Some, Ok, IfOk, IfSome, is_none};
ghost use Rattle.dq_dataset.specs.declared.header.Syntax.TheVariants.{Explicit};
ghost use Rattle.dq_dataset.specs.DataSetReader.{data_set_read};
ghost use Rattle.dq_dataset.specs.Canonical.{canonical};
ghost use Rattle.dq_dataset.specs.Editing.{merged_data_set};
ghost use Rattle.dq_dimse.specs.Holding.{plain_message};
ghost use Rattle.dq_tables.specs.declared.row.Kind.TheVariants.{Step};
ghost use Rattle.dq_tables.specs.Lookups.{record_at};
ghost use Rattle.dq_tables.specs.ServiceEffects.{Serves, first_refusal};
ghost use Rattle.dq_archive.specs.Archives.{Decides};
ghost use Rattle.dq_mpps.specs.NSet.{is_too_long, set_attribute_refusals, set_outcome};
ghost use Rattle.dq_mpps.specs.Views.{step_changed};

use crate::attributes::changes_fixed;
use crate::steps::{DATA_SET_LIMIT, Sent, is_ended, sends_unknown_status, step_row};
use dq_archive::{Archive, Decision};
use dq_config::Institution;
use dq_dataset::laws::{editing_law, written_law};
use dq_dataset::{DataSet, Syntax, can_be_written, write};
use dq_dimse::{Message, status};
use dq_tables::{Change, Kind, TableFault, Tables};
use std::alloc::{AllocError, Global};

/// A step is at most so many octets.
const STEP_LIMIT: usize = 0x40_0000;

/// Changes a performed procedure step of the institution, and answers the status
/// (PS3.4 section F.7.2.2). A refusal, and a fault of the tables or want of memory, change nothing.
pub fn set<T: Tables>(
    tables: &mut T,
    institution: &Institution,
    message: &Message,
    syntax: Syntax,
) -> Result<u16, TableFault>
    ensures { Serves (T.state tables.old) (T.state tables.new) institution.now.name
        (λ records. set_outcome records (plain_message message.now) syntax) result }
{
    let mut archive = Archive::new(tables, institution);
    let decision = decide_change(&mut archive, message, syntax)?;
    archive.carry_out(decision)
}

/// Decides an N-SET: its status, and the step as it changes.
fn decide_change<T: Tables>(
    archive: &mut Archive<'_, T>,
    message: &Message,
    syntax: Syntax,
) -> Result<Decision<u16>, TableFault>
    ensures { Decides T.state archive.old archive.new
        (λ records. set_outcome records (plain_message message.now) syntax) result }
{
    if message.is_over(DATA_SET_LIMIT) {
        return Ok(Decision::unchanged(status::RESOURCE_LIMITATION));
    }
    let Some(data_set) = message.data_set(archive.alloc, syntax)? else {
        return Ok(Decision::unchanged(status::PROCESSING_FAILURE));
    };
    let sent = Sent {
        uid: message.command.sop_instance.as_slice(),
        data_set: &data_set,
    };
    decide_changed_step(archive, &sent)
}

/// The same of a data set that was read, by the step that is kept with the UID.
fn decide_changed_step<T: Tables>(
    archive: &mut Archive<'_, T>,
    sent: &Sent<'_>,
) -> Result<Decision<u16>, TableFault>
    ensures { Decides T.state archive.old archive.new (λ records. step_changed sent.now.uid.now
        sent.now.data_set.now (record_at Step sent.now.uid.now records)) result }
{
    let Some(row) = archive.row(Kind::Step, sent.uid)? else {
        return Ok(Decision::unchanged(status::NO_SUCH_SOP_INSTANCE));
    };
    let kept = row.data_set(archive.alloc)?;
    if let Some(status) = attribute_refusal(&kept, sent.data_set) {
        return Ok(Decision::unchanged(status));
    }
    let Some(octets) = merged_octets(archive.alloc, &kept, sent.data_set)? else {
        return Ok(Decision::unchanged(status::RESOURCE_LIMITATION));
    };
    let name = archive.institution.name.as_slice();
    let changed = step_row(archive.alloc, name, sent.uid, octets)?;
    Ok(Decision::with_change(status::SUCCESS, Change::StepChanged(changed)))
}

/// The status that refuses what is sent, by the step as it is kept.
fn attribute_refusal(kept: &DataSet, sent: &DataSet) -> Option<u16>
    ensures { result ≡ first_refusal (set_attribute_refusals kept.now sent.now) }
{
    if is_ended(kept) {
        return Some(status::PROCESSING_FAILURE);
    }
    if changes_fixed(kept, sent) || sends_unknown_status(sent) {
        return Some(status::INVALID_ATTRIBUTE_VALUE);
    }
    None
}

/// The octets of a step after a change, unless they are over the limit.
#[tactic(auto, using(crate::proofs::StaysSound::unwritten_is_long, crate::proofs::StaysSound::long_octets))]
fn merged_octets(
    alloc: Global,
    kept: &DataSet,
    sent: &DataSet,
) -> Result<Option<Vec<u8>>, AllocError>
    ensures spelled { IfOk result (λ octets. IfSome octets (λ octets.
        octets.items ≡ canonical Explicit (merged_data_set kept.now sent.now))) }
    ensures read_back { IfOk result (λ octets. IfSome octets (λ octets.
        data_set_read Explicit octets.items ≡ Ok (merged_data_set kept.now sent.now))) }
    ensures within { IfOk result (λ octets.
        is_none octets ≡ is_too_long (merged_data_set kept.now sent.now)) }
{
    editing_law();
    written_law();
    let (_kept, _sent) = (kept.elements(), sent.elements());
    let step = kept.merged(alloc, sent)?;
    // A step of which a length cannot be written is far over the limit.
    if !can_be_written(&step, Syntax::Explicit) {
        return Ok(None);
    }
    let octets = write(alloc, &step, Syntax::Explicit)?;
    if octets.len() > STEP_LIMIT {
        return Ok(None);
    }
    Ok(Some(octets))
}
