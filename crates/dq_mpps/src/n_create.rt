//! N-CREATE of a performed procedure step (PS3.4 section F.7.2.1).
ghost use Rattle.std.specs.Prelude.{◌≡◌, true, Ok, IfOk};
ghost use Rattle.dq_value.specs.Uid.{is_uid};
ghost use Rattle.dq_dataset.specs.declared.header.Syntax.TheVariants.{Explicit};
ghost use Rattle.dq_dataset.specs.DataSetReader.{data_set_read};
ghost use Rattle.dq_dataset.specs.Canonical.{canonical, HasLengths};
ghost use Rattle.dq_config.specs.Limits.{limits_of};
ghost use Rattle.dq_dimse.specs.Holding.{plain_message};
ghost use Rattle.dq_tables.specs.Rows.{row_of};
ghost use Rattle.dq_tables.specs.ServiceEffects.{Serves, first_refusal};
ghost use Rattle.dq_archive.specs.Archives.{QueriesOnly, Decides};
ghost use Rattle.dq_mpps.specs.Steps.{step_record};
ghost use Rattle.dq_mpps.specs.NCreate.{create_attribute_refusals, create_refusals, create_outcome};
ghost use Rattle.dq_mpps.specs.Views.{step_created};

use crate::attributes::{has_attribute_values, has_attributes};
use crate::named_entries::entries_named;
use crate::steps::{DATA_SET_LIMIT, Sent, is_in_progress, step_row};
use dq_archive::{Archive, Decision};
use dq_config::Institution;
use dq_dataset::laws::written_law;
use dq_dataset::{DataSet, Syntax, write};
use dq_dimse::{Message, status};
use dq_tables::{Change, Kind, Row, TableFault, Tables};
use dq_value::is_uid;
use std::alloc::{AllocError, Global};

/// Creates a performed procedure step among the institution's rows, and answers the status
/// (PS3.4 section F.7.2.1). A refusal, and a fault of the tables or want of memory, change nothing.
pub fn create<T: Tables>(
    tables: &mut T,
    institution: &Institution,
    message: &Message,
    syntax: Syntax,
) -> Result<u16, TableFault>
    ensures { Serves (T.state tables.old) (T.state tables.new) institution.now.name
        (λ records. create_outcome (limits_of institution.now) records (plain_message message.now) syntax) result }
{
    let mut archive = Archive::new(tables, institution);
    let decision = decide_creation(&mut archive, message, syntax)?;
    archive.carry_out(decision)
}

/// Decides an N-CREATE: its status, the step that it adds, and the entries that it starts.
fn decide_creation<T: Tables>(
    archive: &mut Archive<'_, T>,
    message: &Message,
    syntax: Syntax,
) -> Result<Decision<u16>, TableFault>
    ensures { Decides T.state archive.old archive.new (λ records.
        create_outcome (limits_of archive.old.institution.now) records (plain_message message.now) syntax)
        result }
{
    if message.is_over(DATA_SET_LIMIT) {
        return Ok(Decision::unchanged(status::RESOURCE_LIMITATION));
    }
    let Some(data_set) = message.data_set(archive.alloc, syntax)? else {
        return Ok(Decision::unchanged(status::PROCESSING_FAILURE));
    };
    let uid = message.command.sop_instance.as_slice();
    if !is_uid(uid) {
        return Ok(Decision::unchanged(status::INVALID_SOP_INSTANCE));
    }
    let sent = Sent {
        uid,
        data_set: &data_set,
    };
    decide_new_step(archive, &sent)
}

/// The same of a step with a UID, which starts the entries that it names.
fn decide_new_step<T: Tables>(
    archive: &mut Archive<'_, T>,
    sent: &Sent<'_>,
) -> Result<Decision<u16>, TableFault>
    requires uid { is_uid sent.now.uid.now ≡ true }
    requires lengths { HasLengths Explicit sent.now.data_set.now }
    ensures { Decides T.state archive.old archive.new (step_created
        (limits_of archive.old.institution.now) sent.now.uid.now sent.now.data_set.now) result }
{
    if let Some(status) = refusal(archive, sent)? {
        return Ok(Decision::unchanged(status));
    }
    let keys = entries_named(archive, sent.data_set)?;
    let row = new_row(archive.alloc, archive.institution.name.as_slice(), sent)?;
    Ok(Decision::with_change(status::SUCCESS, Change::StepAdded(row, keys)))
}

/// The status of the first refusal of a new step.
fn refusal<T: Tables>(
    archive: &mut Archive<'_, T>,
    sent: &Sent<'_>,
) -> Result<Option<u16>, TableFault>
    ensures { QueriesOnly T.state archive.old archive.new (λ records. first_refusal (create_refusals
        (limits_of archive.old.institution.now) records sent.now.uid.now sent.now.data_set.now)) result }
{
    if archive.has(Kind::Step, sent.uid)? {
        return Ok(Some(status::DUPLICATE_SOP_INSTANCE));
    }
    if let Some(status) = attribute_refusal(sent.data_set) {
        return Ok(Some(status));
    }
    let count = archive.count(Kind::Step)?;
    if u64::from(archive.institution.steps) <= count {
        return Ok(Some(status::RESOURCE_LIMITATION));
    }
    Ok(None)
}

/// The status that refuses the attributes of a new step.
fn attribute_refusal(step: &DataSet) -> Option<u16>
    ensures { result ≡ first_refusal (create_attribute_refusals step.now) }
{
    if !has_attributes(step) {
        return Some(status::MISSING_ATTRIBUTE);
    }
    if !has_attribute_values(step) {
        return Some(status::MISSING_ATTRIBUTE_VALUE);
    }
    if !is_in_progress(step) {
        return Some(status::INVALID_ATTRIBUTE_VALUE);
    }
    None
}

/// The row of a new step.
fn new_row(alloc: Global, name: &[u8], sent: &Sent<'_>) -> Result<Row, AllocError>
    requires { HasLengths Explicit sent.now.data_set.now }
    ensures row { IfOk result (λ row. row
        ≡ row_of name.now (step_record sent.now.uid.now sent.now.data_set.now)) }
    ensures read_back { IfOk result (λ row.
        data_set_read Explicit (canonical Explicit sent.now.data_set.now) ≡ Ok sent.now.data_set.now) }
{
    written_law();
    let _elements = sent.data_set.elements();
    let octets = write(alloc, sent.data_set, Syntax::Explicit)?;
    step_row(alloc, name, sent.uid, octets)
}
