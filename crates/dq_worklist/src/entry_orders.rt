//! Entries of the worklist, scheduled and withdrawn (PS3.4 section K.6.1).
ghost use Rattle.std.specs.Prelude.{◌≡◌, List, None, Some, IfOk, IfSome};
ghost use Rattle.dq_config.specs.Limits.{limits_of};
ghost use Rattle.dq_tables.specs.Rows.{Record, row_of};
ghost use Rattle.dq_tables.specs.ServiceEffects.{Serves};
ghost use Rattle.dq_archive.specs.Archives.{QueriesOnly, Decides};
ghost use Rattle.dq_worklist.specs.Orders.{entry_of, refusal_number, schedule_outcome, withdrawn};
ghost use Rattle.dq_worklist.specs.Views.{held_order, CanBeKept, data_set_within, record_refusal};

use crate::completeness::Order;
use crate::refusal::Refusal;
use dq_archive::{Archive, Decision};
use dq_config::Institution;
use dq_dataset::laws::written_law;
use dq_dataset::{DataSet, ReadFault, Syntax, read, write};
use dq_list::Listed;
use dq_tables::{Change, Kind, RecordKeys, Row, TableFault, Tables};
use std::alloc::{AllocError, Global};

/// An order is at most so many octets.
const ORDER_LIMIT: usize = 0x10_0000;

/// Keeps an order, in Explicit, as an entry of the institution's worklist, and answers nothing, or
/// the number of the refusal: 1 where it is unreadable or over 1,048,576 octets, 2 where it is not
/// complete (PS3.4 table K.6-1), 3 where there is an entry with its id, and 4 where the entries are
/// at their limit. A refusal, and a fault, change nothing.
pub fn schedule<T: Tables>(
    tables: &mut T,
    institution: &Institution,
    octets: &[u8],
) -> Result<Option<u16>, TableFault>
    ensures { Serves (T.state tables.old) (T.state tables.new) institution.now.name
        (λ (records : List Record). schedule_outcome (limits_of institution.now) records octets.now)
        result }
{
    let mut archive = Archive::new(tables, institution);
    let decision = decide_order(&mut archive, octets)?;
    archive.carry_out(decision)
}

/// Removes the entry with the id, as it is given, and answers nothing, or 5 where there is none.
pub fn withdraw<T: Tables>(
    tables: &mut T,
    institution: &Institution,
    id: &[u8],
) -> Result<Option<u16>, TableFault>
    ensures { Serves (T.state tables.old) (T.state tables.new) institution.now.name
        (λ (records : List Record). withdrawn records id.now) result }
{
    let mut archive = Archive::new(tables, institution);
    let decision = decide_withdrawal(&mut archive, id)?;
    archive.carry_out(decision)
}

/// A refusal, which changes nothing.
fn refused(refusal: Refusal) -> Decision<Option<u16>>
    ensures { result ≡ record { answer = Some (refusal_number refusal); change = None } }
{
    Decision::unchanged(Some(refusal.number()))
}

/// Decides an order: the entry that it adds, or its refusal.
fn decide_order<T: Tables>(
    archive: &mut Archive<'_, T>,
    octets: &[u8],
) -> Result<Decision<Option<u16>>, TableFault>
    ensures { Decides T.state archive.old archive.new (λ records.
        schedule_outcome (limits_of archive.old.institution.now) records octets.now) result }
{
    written_law();
    let Some(data_set) = data_set_within(archive.alloc, octets)? else {
        return Ok(refused(Refusal::Malformed));
    };
    let Some(order) = Order::of(&data_set) else {
        return Ok(refused(Refusal::Incomplete));
    };
    if let Some(refusal) = record_refusal(archive, order.id)? {
        return Ok(refused(refusal));
    }
    let _elements = data_set.elements();
    let row = entry_row(archive.alloc, archive.institution.name.as_slice(), &order)?;
    Ok(Decision::with_change(None, Change::EntryAdded(row)))
}

/// The data set of an order, if the octets spell one and are not too many.
fn data_set_within(alloc: Global, octets: &[u8]) -> Result<Option<DataSet>, AllocError>
    ensures read { IfOk result (λ data_set. data_set ≡ data_set_within octets.now) }
    ensures short { IfOk result (λ data_set. IfSome data_set (λ d. CanBeKept d)) }
{
    if octets.len() > ORDER_LIMIT {
        return Ok(None);
    }
    match read(alloc, octets, Syntax::Explicit) {
        Ok(data_set) => Ok(Some(data_set)),
        Err(ReadFault::NoMemory) => Err(AllocError),
        Err(_) => Ok(None),
    }
}

/// The refusal of an order because of what is kept already.
fn record_refusal<T: Tables>(
    archive: &mut Archive<'_, T>,
    id: &[u8],
) -> Result<Option<Refusal>, TableFault>
    ensures { QueriesOnly T.state archive.old archive.new (λ records.
        record_refusal (limits_of archive.old.institution.now) records id.now) result }
{
    if archive.has(Kind::Entry, id)? {
        return Ok(Some(Refusal::Taken));
    }
    let count = archive.count(Kind::Entry)?;
    if u64::from(archive.institution.entries) <= count {
        return Ok(Some(Refusal::Full));
    }
    Ok(None)
}

/// The row of an entry.
fn entry_row(alloc: Global, name: &[u8], order: &Order<'_>) -> Result<Row, AllocError>
    requires { CanBeKept order.now.elements.now }
    ensures { IfOk result (λ row. row ≡ row_of name.now (entry_of (held_order order.now))) }
{
    let keys = RecordKeys {
        kind: Kind::Entry,
        key: order.id,
        above: &[],
    };
    let octets = write(alloc, order.elements, Syntax::Explicit)?;
    Row::new(alloc, name, &keys, octets)
}

/// Decides a withdrawal of the entry with the id.
#[tactic(auto, using(crate::proofs::Orders::there, crate::proofs::Orders::not_there, dq_archive::proofs::Lookups::there_own))]
fn decide_withdrawal<T: Tables>(
    archive: &mut Archive<'_, T>,
    id: &[u8],
) -> Result<Decision<Option<u16>>, TableFault>
    ensures { Decides T.state archive.old archive.new (λ records. withdrawn records id.now) result }
{
    if !archive.has(Kind::Entry, id)? {
        return Ok(refused(Refusal::NoSuchEntry));
    }
    let inst = Listed::copy_of(archive.alloc, archive.institution.name.as_slice())?;
    let key = Listed::copy_of(archive.alloc, id)?;
    Ok(Decision::with_change(None, Change::EntryRemoved(inst, key)))
}
