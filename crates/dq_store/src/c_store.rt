//! C-STORE (PS3.4 section B.2.3).
ghost use Rattle.std.specs.Prelude.{◌≡◌, true, List, IfOk, OnOk};
ghost use Rattle.dq_dataset.specs.declared.header.Syntax.TheVariants.{Explicit};
ghost use Rattle.dq_dataset.specs.Canonical.{HasLengths};
ghost use Rattle.dq_dimse.specs.Holding.{Refines, is_stored};
ghost use Rattle.dq_dimse.specs.Received.{Message as Received};
ghost use Rattle.dq_config.specs.Limits.{limits_of};
ghost use Rattle.dq_tables.specs.declared.row.Row.{Row as TheRow};
ghost use Rattle.dq_tables.specs.Rows.{IsRising, of};
ghost use Rattle.dq_tables.specs.TableStates.{HealthAfter, IsSettled};
ghost use Rattle.dq_tables.specs.ServiceEffects.{Serves};
ghost use Rattle.dq_archive.specs.Archives.{Decides};
ghost use Rattle.dq_archive.specs.Decisions.{edits_in, answer_and_edits, FitsIf, IsOwn};
ghost use Rattle.dq_archive.specs.Additions.{IsTold};
ghost use Rattle.dq_store.specs.CStore.{store_outcome, stored_edits, kept_among};
ghost use Rattle.dq_store.specs.CStore.{study_record, series_record};
ghost use Rattle.dq_store.specs.Views.{instance_of, instance_stored, records_kept, kept_status, HasUids, new_if, new_rows};

use crate::instance::Instance;
use crate::kept_instance::{kept_unless_refused, stored_status};
use crate::kept_rows::KeptRows;
use dq_archive::{Addition, Archive, Decision};
use dq_config::Institution;
use dq_dataset::laws::{editing_law, fault_law, spelling_law, written_law};
use dq_dataset::{Sifted, Syntax, can_be_written};
use dq_dimse::{Body, Message, status};
use dq_list::Listed;
use dq_tables::{Change, Row, TableFault, Tables};
use std::alloc::{AllocError, Global};

/// Stores an instance among the institution's rows, and answers the status (PS3.4 section B.2.3). A
/// refusal, and a fault of the tables or want of memory, change nothing. The message is a C-STORE:
/// its data set was sifted as it came, unless it passed its limit.
pub fn store<T: Tables>(
    tables: &mut T,
    institution: &Institution,
    message: &Message,
    syntax: Syntax,
) -> Result<u16, TableFault>
    requires { is_stored message.now.command ≡ true }
    // Whatever message this one stands for.
    ensures serves { (sent : Received) → Refines syntax message.now sent →
        Serves (T.state tables.old) (T.state tables.new) institution.now.name
        (λ records. store_outcome (limits_of institution.now) records sent syntax) result }
    ensures goes { HealthAfter (T.state tables.old) (T.state tables.new) result }
    ensures settles { (T.state tables.new).honest →
        OnOk result (IsSettled (T.state tables.old) → IsSettled (T.state tables.new)) }
{
    let mut added = Listed::empty(tables.alloc());
    store_telling(tables, institution, message, syntax, &mut added)
}

/// Stores an instance as `store` does, and tells which studies, series and images are new.
pub fn store_telling<T: Tables>(
    tables: &mut T,
    institution: &Institution,
    message: &Message,
    syntax: Syntax,
    added: &mut Listed<Addition>,
) -> Result<u16, TableFault>
    requires { is_stored message.now.command ≡ true }
    // Whatever message this one stands for.
    ensures serves { (sent : Received) → Refines syntax message.now sent →
        Serves (T.state tables.old) (T.state tables.new) institution.now.name
        (λ records. store_outcome (limits_of institution.now) records sent syntax) result }
    ensures goes { HealthAfter (T.state tables.old) (T.state tables.new) result }
    ensures settles { (T.state tables.new).honest →
        OnOk result (IsSettled (T.state tables.old) → IsSettled (T.state tables.new)) }
    ensures told { (T.state tables.new).honest → OnOk result
        (IsTold institution.now.name (T.state tables.old).rows (T.state tables.new).rows
        added.old added.new) }
{
    spelling_law();
    fault_law();
    let Body::Sifted(sifted) = &message.body else {
        return Ok(status::OUT_OF_RESOURCES);
    };
    let (data_set, other) = match sifted {
        Sifted::Kept(data_set, other) => (data_set, *other),
        Sifted::Large => return Ok(status::OUT_OF_RESOURCES),
        Sifted::Fault(_) => return Ok(status::CANNOT_UNDERSTAND),
    };
    let Some(sent) = Instance::of(&message.command, data_set, other) else {
        return Ok(status::DOES_NOT_MATCH_SOP_CLASS);
    };
    // A data set that a sieve keeps can be written.
    if !can_be_written(data_set, Syntax::Explicit) {
        return Ok(status::OUT_OF_RESOURCES);
    }
    store_instance(tables, institution, &sent, added)
}

/// Stores an instance that was read.
fn store_instance<T: Tables>(
    tables: &mut T,
    institution: &Institution,
    sent: &Instance<'_>,
    added: &mut Listed<Addition>,
) -> Result<u16, TableFault>
    requires lengths { HasLengths Explicit sent.now.data_set.now }
    requires own { HasUids sent.now }
    ensures serves { Serves (T.state tables.old) (T.state tables.new) institution.now.name
        (λ records. instance_stored (limits_of institution.now) records sent.now.other
        (instance_of sent.now)) result }
    ensures told { (T.state tables.new).honest → OnOk result
        (IsTold institution.now.name (T.state tables.old).rows (T.state tables.new).rows
        added.old added.new) }
{
    let mut archive = Archive::new(tables, institution);
    let decision = decide_instance(&mut archive, sent)?;
    archive.carry_out_telling(decision, added)
}

/// Decides which records an instance that was read adds.
fn decide_instance<T: Tables>(
    archive: &mut Archive<'_, T>,
    sent: &Instance<'_>,
) -> Result<Decision<u16>, TableFault>
    requires lengths { HasLengths Explicit sent.now.data_set.now }
    requires own { HasUids sent.now }
    ensures { Decides T.state archive.old archive.new (λ records. instance_stored
        (limits_of archive.old.institution.now) records sent.now.other (instance_of sent.now)) result }
{
    let kept = match kept_unless_refused(archive, sent)? {
        Ok(kept) => kept,
        Err(status) => return Ok(Decision::unchanged(status)),
    };
    let name = archive.institution.name.as_slice();
    let decision = kept_decision(archive.alloc, name, &kept, sent)?;
    Ok(decision)
}

/// The status of an instance that is not refused, and the change that keeps it.
fn kept_decision(
    alloc: Global,
    name: &[u8],
    kept: &KeptRows,
    sent: &Instance<'_>,
) -> Result<Decision<u16>, AllocError>
    requires lengths { HasLengths Explicit sent.now.data_set.now }
    requires own { HasUids sent.now }
    ensures made { IfOk result (λ decision. answer_and_edits decision ≡ (
      kept_status sent.now.other (records_kept kept.now) (instance_of sent.now),
      stored_edits (records_kept kept.now) (instance_of sent.now),
    )) }
    ensures own { IfOk result (λ decision. IsOwn name.now decision.change) }
    ensures fits { IfOk result (λ decision. (rows : List TheRow) → IsRising rows
        → records_kept kept.now ≡ kept_among (of name.now rows) (instance_of sent.now)
        → FitsIf rows decision.change) }
{
    let answer = stored_status(alloc, kept, sent)?;
    let change = new_change(alloc, name, kept, sent)?;
    Ok(Decision { answer, change })
}

/// The change that keeps an instance, unless it is kept already.
fn new_change(
    alloc: Global,
    name: &[u8],
    kept: &KeptRows,
    sent: &Instance<'_>,
) -> Result<Option<Change>, AllocError>
    requires lengths { HasLengths Explicit sent.now.data_set.now }
    requires own { HasUids sent.now }
    ensures edits { IfOk result (λ change.
        edits_in change ≡ stored_edits (records_kept kept.now) (instance_of sent.now)) }
    ensures own { IfOk result (λ change. IsOwn name.now change) }
    ensures fits { IfOk result (λ change. (rows : List TheRow) → IsRising rows
        → records_kept kept.now ≡ kept_among (of name.now rows) (instance_of sent.now)
        → FitsIf rows change) }
{
    written_law();
    editing_law();
    let _elements = sent.data_set.elements();
    if kept.image.is_some() {
        return Ok(None);
    }
    let change = new_rows(alloc, name, kept, sent)?;
    Ok(Some(change))
}

/// The row of the study of an instance, where it is new.
fn new_study(
    alloc: Global,
    name: &[u8],
    kept: &KeptRows,
    sent: &Instance<'_>,
) -> Result<Option<Row>, AllocError>
    requires { HasLengths Explicit sent.now.data_set.now }
    ensures { IfOk result (λ row. row ≡ new_if name.now (records_kept kept.now).study
        (study_record (instance_of sent.now))) }
{
    match &kept.study {
        Some(_) => Ok(None),
        None => Ok(Some(sent.study_row(alloc, name)?)),
    }
}

/// The row of the series of an instance, where it is new.
fn new_series(
    alloc: Global,
    name: &[u8],
    kept: &KeptRows,
    sent: &Instance<'_>,
) -> Result<Option<Row>, AllocError>
    requires { HasLengths Explicit sent.now.data_set.now }
    ensures { IfOk result (λ row. row ≡ new_if name.now (records_kept kept.now).series
        (series_record (instance_of sent.now))) }
{
    match &kept.series {
        Some(_) => Ok(None),
        None => Ok(Some(sent.series_row(alloc, name)?)),
    }
}

/// The rows of an instance that is new, with those of its study and its series where they are new
/// too.
fn new_rows(
    alloc: Global,
    name: &[u8],
    kept: &KeptRows,
    sent: &Instance<'_>,
) -> Result<Change, AllocError>
    requires { HasLengths Explicit sent.now.data_set.now }
    ensures { IfOk result (λ change.
        change ≡ new_rows name.now (records_kept kept.now) (instance_of sent.now)) }
{
    let study = new_study(alloc, name, kept, sent)?;
    let series = new_series(alloc, name, kept, sent)?;
    let image = sent.image_row(alloc, name)?;
    Ok(Change::Stored {
        study,
        series,
        image,
    })
}
