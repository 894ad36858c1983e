//! Messages assembled from presentation data values (PS3.7 section 6.3.1, PS3.8 annex E).
ghost use Rattle.std.specs.Prelude.{◌≡◌, ◌≤◌, ℕ, false, not, ◌&&◌, List, [], ◌∷◌, ◌++◌, length};
ghost use Rattle.std.specs.Prelude.{Some, None, IfOk, OnOk, IfErr, OnErr};
ghost use Rattle.dq_dimse.specs.Received.{Message as Received};
ghost use Rattle.dq_dimse.specs.Assembling.{Assembly, PartialMessage as Pure};
ghost use Rattle.dq_dimse.specs.Assembling.{after_command, after_data, begun_with};
ghost use Rattle.dq_dimse.specs.Assembling.{command_completed, gather, with_fragment};
ghost use Rattle.dq_dimse.specs.Assembling.{messages, messages_from, assembly_from};
ghost use Rattle.dq_dimse.specs.Assembling.{IsPdvKept, IsKeptCommand, IsKeptData, NeedsMemory};
ghost use Rattle.dq_dimse.specs.Commands.{command_of};
ghost use Rattle.dq_dimse.specs.Holding.{AddsMessage, Assembles, PendingRefines, HasGathered, MakesGathering};
ghost use Rattle.dq_dimse.specs.Holding.{BodyRefines, IncomingRefines, Refines, WasGivenPdvs};
ghost use Rattle.dq_dimse.specs.Holding.{accepted_with, fault_held, accepted_ids, is_sifted, is_stored, spent_with};
ghost use Rattle.dq_dimse.specs.Messages.{data_limit};

use crate::command::{Body, Command, Message};
use crate::fault::DimseFault;
use crate::{command_field, command_reader};
use dq_dataset::{Sieve, Syntax};
use dq_list::Listed;
use dq_pdu::Pdv;
use dq_vr::study_root::KEPT_ATTRIBUTES;
use std::alloc::{AllocError, Global};
use std::marker::Model;
use std::mem;

/// A command set is at most so many octets.
const COMMAND_LIMIT: usize = 16_384;
/// The data set of a C-STORE is at most so many octets.
const STORE_LIMIT: usize = 4_294_967_295;
/// The data set of any other command, an Identifier among them, is at most so many octets.
pub(crate) const OTHER_LIMIT: usize = 1_048_576;

/// A presentation context that was accepted (PS3.8 section 7.1.1).
#[derive(Clone, Copy, Debug, PartialEq, Eq)]
pub struct Accepted {
    pub id: u8,
    /// The transfer syntax of its data sets.
    pub syntax: Syntax,
}

/// The part of a data set that came.
#[derive(Drop)]
pub(crate) enum IncomingDataSet {
    /// Its fragments so far.
    Octets(Listed<u8>),
    /// Those of a C-STORE in a sieve, and the number of octets for which there is room.
    Sifting(Sieve, usize),
    /// It passed its limit, and is discarded.
    ExceededLimit,
}

/// A message whose command set is whole, and whose data set is still to come.
#[derive(Drop)]
pub(crate) struct PendingMessage {
    pub context: Accepted,
    pub command: Command,
    pub data_set: IncomingDataSet,
}

/// The state that an assembler holds between two PDVs.
#[derive(Drop)]
pub(crate) enum PartialMessage {
    Nothing,
    /// The fragments of a command set so far, and their context.
    CommandPart(Accepted, Listed<u8>),
    DataPart(PendingMessage),
    Spent(DimseFault),
}

/// Assembles messages from presentation data values.
#[derive(Drop)]
pub struct Assembler {
    alloc: Global,
    accepted: Listed<Accepted>,
    gathered: PartialMessage,
}

impl Model for Assembler {
    ghost use Rattle.std.specs.Coded.{codes};
    ghost use Rattle.dq_dimse.specs.Holding.{Holding};
    ghost use Rattle.dq_dataset.specs.contracts.data_set.DataSet as data_set;

    ghost Value = { Holding };

    ghost coded = { Prim.hlevel (codes, data_set.the_row.coded) };

    ghost view = { λ a. record { accepted = a.accepted; gathered = a.gathered } };
}

/// The accepted context with an id.
fn accepted_with(id: u8, accepted: &[Accepted]) -> Option<Accepted>
    ensures { result ≡ accepted_with id accepted.now }
{
    accepted.iter().find(|context| context.id == id).copied()
}

/// The limit of a command's data set.
fn data_limit(command: &Command) -> usize
    ensures { result ≡ data_limit command.now }
{
    if command.code == command_field::C_STORE {
        STORE_LIMIT
    } else {
        OTHER_LIMIT
    }
}

impl IncomingDataSet {
    /// Returns what came of the data set of a command before its first fragment.
    fn of(alloc: Global, command: &Command, syntax: Syntax) -> IncomingDataSet
        ensures { (context : ℕ) → IncomingRefines syntax result (begun_with context command.now) }
    {
        if command.code == command_field::C_STORE {
            let sieve = Sieve::new(alloc, syntax, &KEPT_ATTRIBUTES);
            IncomingDataSet::Sifting(sieve, STORE_LIMIT)
        } else {
            IncomingDataSet::Octets(Listed::empty(alloc))
        }
    }

    /// That with one more fragment. What passes the limit is discarded.
    fn with_fragment(self, limit: usize, fragment: &[u8]) -> Result<IncomingDataSet, AllocError>
        ensures value { (syntax : Syntax) (message : Received) →
            IncomingRefines syntax self message → limit ≡ data_limit message.command → IfOk result
            (λ part. IncomingRefines syntax part (with_fragment message fragment.now)) }
        ensures memory { (syntax : Syntax) (message : Received) →
            IncomingRefines syntax self message → limit ≡ data_limit message.command →
            OnErr result ((message.over ≡ false)
            × (length (message.octets ++ fragment.now) ≤ data_limit message.command)) }
    {
        match self {
            IncomingDataSet::Octets(octets) => {
                let mut octets = octets.into_inner();
                if octets.len() + fragment.len() > limit {
                    return Ok(IncomingDataSet::ExceededLimit);
                }
                octets.extend_from_slice(fragment)?;
                Ok(IncomingDataSet::Octets(Listed::from_inner(octets)))
            }
            IncomingDataSet::Sifting(mut sieve, room) => {
                if fragment.len() > room {
                    return Ok(IncomingDataSet::ExceededLimit);
                }
                sieve.feed(fragment)?;
                Ok(IncomingDataSet::Sifting(sieve, room - fragment.len()))
            }
            IncomingDataSet::ExceededLimit => Ok(IncomingDataSet::ExceededLimit),
        }
    }

    /// Whether the data set passed its limit.
    fn has_exceeded_limit(&self) -> bool
        ensures { (syntax : Syntax) (message : Received) → IncomingRefines syntax self.now message →
            result ≡ message.over }
    {
        match self {
            IncomingDataSet::Octets(_) | IncomingDataSet::Sifting(..) => false,
            IncomingDataSet::ExceededLimit => true,
        }
    }

    /// Returns what is held of the data set, when it is whole.
    fn into_body(self, alloc: Global) -> Body
        ensures body { (syntax : Syntax) (message : Received) →
            IncomingRefines syntax self message → BodyRefines syntax result message.octets }
        ensures sifted { (syntax : Syntax) (message : Received) →
            IncomingRefines syntax self message →
            is_sifted result ≡ (is_stored message.command && not message.over) }
    {
        match self {
            IncomingDataSet::Octets(octets) => Body::Octets(octets),
            IncomingDataSet::Sifting(sieve, _) => Body::Sifted(sieve.finish()),
            IncomingDataSet::ExceededLimit => Body::Octets(Listed::empty(alloc)),
        }
    }
}

impl PendingMessage {
    /// A message of whose data set nothing came yet.
    fn new(alloc: Global, context: Accepted, command: Command) -> PendingMessage
        ensures begun { PendingRefines result (begun_with context.id command) }
        ensures context { result.context ≡ context }
    {
        let data_set = IncomingDataSet::of(alloc, &command, context.syntax);
        PendingMessage {
            context,
            command,
            data_set,
        }
    }

    /// The message with one more fragment of its data set.
    fn with_fragment(self, fragment: &[u8]) -> Result<PendingMessage, AllocError>
        ensures value { (message : Received) → PendingRefines self message →
            IfOk result (λ grown. PendingRefines grown (with_fragment message fragment.now)) }
        ensures context { IfOk result (λ grown. grown.context ≡ self.context) }
        ensures memory { (message : Received) → PendingRefines self message →
            OnErr result ((message.over ≡ false)
            × (length (message.octets ++ fragment.now) ≤ data_limit message.command)) }
    {
        let PendingMessage {
            context,
            command,
            data_set,
        } = self;
        let data_set = data_set.with_fragment(data_limit(&command), fragment)?;
        Ok(PendingMessage {
            context,
            command,
            data_set,
        })
    }

    /// The message, when its data set is whole.
    fn into_message(self, alloc: Global) -> Message
        ensures { (message : Received) → PendingRefines self message →
            Refines self.context.syntax result message }
    {
        let PendingMessage {
            context,
            command,
            data_set,
        } = self;
        let over = data_set.has_exceeded_limit();
        let body = data_set.into_body(alloc);
        Message {
            context: context.id,
            command,
            body,
            over,
        }
    }
}

/// Returns what the octets of a whole command set make: a message, or one whose data set follows.
fn command_completed(
    alloc: Global,
    context: Accepted,
    octets: &[u8],
) -> Result<(Option<Message>, PartialMessage), DimseFault>
    ensures made { (accepted : List Accepted) → accepted_with context.id accepted ≡ Some context →
        MakesGathering accepted result (command_completed context.id (command_of octets.now)) }
    ensures unspent { IfOk result (λ x. fault_held x.1 ≡ None) }
{
    let begun = PendingMessage::new(alloc, context, command_reader::command_of(alloc, octets)?);
    if begun.command.with_data {
        Ok((None, PartialMessage::DataPart(begun)))
    } else {
        Ok((Some(begun.into_message(alloc)), PartialMessage::Nothing))
    }
}

/// A PDV of the right context after the fragments of a command set so far.
fn after_command(
    alloc: Global,
    context: Accepted,
    mut octets: Vec<u8>,
    pdv: &Pdv,
) -> Result<(Option<Message>, PartialMessage), DimseFault>
    ensures made { (accepted : List Accepted) → accepted_with context.id accepted ≡ Some context →
        MakesGathering accepted result (after_command context.id octets.items pdv.now) }
    ensures unspent { IfOk result (λ x. fault_held x.1 ≡ None) }
    ensures memory { result ≡ Err DimseFault.NoMemory → IsKeptCommand octets.items pdv.now }
{
    if !pdv.command {
        return Err(DimseFault::WrongKind);
    }
    let fragment = pdv.octets.inner();
    if octets.len() + fragment.len() > COMMAND_LIMIT {
        return Err(DimseFault::BadCommand);
    }
    octets.extend_from_slice(fragment)?;
    if pdv.last {
        command_completed(alloc, context, &octets)
    } else {
        let octets = Listed::from_inner(octets);
        Ok((None, PartialMessage::CommandPart(context, octets)))
    }
}

/// A PDV of the right context after a command set and the fragments of a data set so far.
fn after_data(
    alloc: Global,
    begun: PendingMessage,
    pdv: &Pdv,
) -> Result<(Option<Message>, PartialMessage), DimseFault>
    ensures made { (accepted : List Accepted) (message : Received) →
        accepted_with begun.context.id accepted ≡ Some begun.context →
        PendingRefines begun message → MakesGathering accepted result (after_data message pdv.now) }
    ensures unspent { IfOk result (λ x. fault_held x.1 ≡ None) }
    ensures memory { (message : Received) → PendingRefines begun message →
        result ≡ Err DimseFault.NoMemory → IsKeptData message pdv.now }
{
    if pdv.command {
        return Err(DimseFault::WrongKind);
    }
    let begun = begun.with_fragment(pdv.octets.as_slice())?;
    if pdv.last {
        Ok((Some(begun.into_message(alloc)), PartialMessage::Nothing))
    } else {
        Ok((None, PartialMessage::DataPart(begun)))
    }
}

/// Adds one more PDV to what was gathered.
fn gather(
    alloc: Global,
    accepted: &[Accepted],
    gathered: PartialMessage,
    pdv: &Pdv,
) -> Result<(Option<Message>, PartialMessage), DimseFault>
    ensures made { (before : Pure) → HasGathered accepted.now gathered before →
        MakesGathering accepted.now result (gather (accepted_ids accepted.now) before pdv.now) }
    ensures unspent { IfOk result (λ x. fault_held x.1 ≡ None) }
    ensures stays { (fault : DimseFault) → gathered ≡ PartialMessage.Spent fault → result ≡ Err fault }
    ensures memory { (before : Pure) → HasGathered accepted.now gathered before →
        result ≡ Err DimseFault.NoMemory → IsPdvKept (accepted_ids accepted.now) before pdv.now }
{
    match gathered {
        PartialMessage::Nothing => {
            let Some(context) = accepted_with(pdv.context, accepted) else {
                return Err(DimseFault::WrongContext);
            };
            after_command(alloc, context, Vec::new(alloc), pdv)
        }
        PartialMessage::CommandPart(context, octets) => {
            if pdv.context != context.id {
                return Err(DimseFault::WrongContext);
            }
            after_command(alloc, context, octets.into_inner(), pdv)
        }
        PartialMessage::DataPart(begun) => {
            if pdv.context != begun.context.id {
                return Err(DimseFault::WrongContext);
            }
            after_data(alloc, begun, pdv)
        }
        PartialMessage::Spent(fault) => Err(fault),
    }
}

impl Assembler {
    /// An assembler for the accepted contexts, which was given no PDV. It takes no memory.
    pub fn new(alloc: Global, accepted: Listed<Accepted>) -> Self
        ensures { WasGivenPdvs accepted [] result }
    {
        Assembler {
            alloc,
            accepted,
            gathered: PartialMessage::Nothing,
        }
    }

    /// Takes the next PDV and gives the message that it completes. A run of PDVs takes time in
    /// proportion to its octets. After a fault it answers the same fault to every PDV.
    ///
    /// `WrongContext` where the context is not accepted, or not that of the message begun;
    /// `WrongKind` for a data fragment where a command fragment is due, or the reverse;
    /// `BadCommand` where the fragments are no command set, or over 16,384 octets (PS3.7 section
    /// 6.3.1, PS3.8 annex E).
    pub fn take(&mut self, pdv: &Pdv) -> Result<Option<Message>, DimseFault>
        // Whatever PDVs the assembler was given: the message, or the fault, that one more adds.
        ensures adds { (accepted : List Accepted) (pdvs : List Pdv) →
            WasGivenPdvs accepted pdvs self.old →
            AddsMessage accepted result (messages (accepted_ids accepted) pdvs).list
            (messages (accepted_ids accepted) (pdvs ++ pdv.now ∷ [])) }
        ensures stands { (accepted : List Accepted) (pdvs : List Pdv) →
            WasGivenPdvs accepted pdvs self.old →
            OnOk result (WasGivenPdvs accepted (pdvs ++ pdv.now ∷ []) self.new) }
        // The additions of one PDV to whatever the assembler stands for.
        ensures exact { (assembly : Assembly) → Assembles self.old assembly →
            AddsMessage self.old.accepted result [] (messages_from assembly (pdv.now ∷ [])) }
        ensures next { (assembly : Assembly) → Assembles self.old assembly →
            OnOk result (Assembles self.new (assembly_from assembly (pdv.now ∷ []))) }
        ensures spent { IfErr result (λ fault. spent_with self.new ≡ Some fault) }
        ensures unspent { OnOk result (spent_with self.new ≡ None) }
        ensures stays { (fault : DimseFault) →
            spent_with self.old ≡ Some fault → result ≡ Err fault }
        ensures keeps { self.new.accepted ≡ self.old.accepted }
        // Memory runs out only where octets are kept or read.
        ensures memory { (assembly : Assembly) → Assembles self.old assembly →
            result ≡ Err DimseFault.NoMemory → NeedsMemory assembly pdv.now }
    {
        let before = mem::replace(
            &mut self.gathered,
            PartialMessage::Spent(DimseFault::NoMemory),
        );
        match gather(self.alloc, self.accepted.as_slice(), before, pdv) {
            Ok((message, gathered)) => {
                self.gathered = gathered;
                Ok(message)
            }
            Err(fault) => {
                self.gathered = PartialMessage::Spent(fault);
                Err(fault)
            }
        }
    }
}
