//! The responses to a message, a page at a time (PS3.4 sections C.4.1 and K.4.1).
ghost use Rattle.std.specs.Prelude.{◌≡◌, ◌≤◌, ◌++◌, ◌∷◌, [], List, length, take, true, false, Some, None, option_map, IfOk, OnOk};
ghost use Rattle.dq_dimse.specs.CommandRefs.{command_of_ref};
ghost use Rattle.dq_core.specs.Services.{is_of_instance, named_instance, response_command, response, pending_status};
ghost use Rattle.dq_core.specs.Pages.{responses_octets, rest, without_first, page, cancel_reaction};
ghost use Rattle.dq_tables.specs.Rows.{Record};
ghost use Rattle.dq_archive.specs.PastArchives.{state_in, records_in};
ghost use Rattle.dq_core.specs.declared.pages.OpenQuery.{OpenQuery as HeldQuery};
ghost use Rattle.dq_core.specs.Queries.{at_hand, open_query_of, open_query_in, command_octets, LooksBack};

use crate::answers::Answers;
use crate::notes::{EventNotes, ServedNote};
use dq_archive::Past;
use dq_assoc::{AcceptedContext, PeerLimit, SopClass};
use dq_dimse::{Command, CommandRef, append_command, append_data_set, command_field, status};
use dq_tables::{TableFault, Tables};
use std::alloc::{AllocError, Global};

/// How many pending responses are sent at once.
const PAGE_LENGTH: usize = 64;

/// Responses that were not sent: the context and the command of the message that they answer, the
/// longest PDU that the peer takes, the answers that are left, how much its institution's log of
/// additions had as it began, and what is to be noted of it.
#[derive(Drop)]
pub(crate) struct OpenQuery {
    pub context: AcceptedContext,
    pub command: Command,
    pub limit: PeerLimit,
    pub answers: Answers,
    pub since: usize,
    pub note: Option<ServedNote>,
}

/// Whether the response to an operation names an instance (PS3.7 sections 9.3.1.2, 10.3.3.2 and
/// 10.3.5.2).
fn is_of_instance(code: u16) -> bool
    ensures { result ≡ is_of_instance code }
{
    code == command_field::C_STORE
        || code == command_field::N_CREATE
        || code == command_field::N_SET
}

/// The instance that a response names: that of the command, or none.
fn named_instance(command: &Command, status: u16) -> &[u8]
    ensures { result.now ≡ named_instance command.now status }
{
    if status == status::UNRECOGNIZED_OPERATION || !is_of_instance(command.code) {
        return &[];
    }
    command.sop_instance.as_slice()
}

/// The command of a response of a context's class (PS3.7 section 9.3).
fn response_command(
    class: SopClass,
    command: &Command,
    status: u16,
    with_data: bool,
) -> CommandRef<'_>
    ensures { command_of_ref result ≡ response_command class command.now status with_data }
{
    CommandRef {
        code: command.code | command_field::RESPONSE_BIT,
        id: command.id,
        sop_class: class.uid(),
        sop_instance: named_instance(command, status),
        with_data,
        status,
    }
}

/// The status of the responses before the last (PS3.4 section C.4.1.1.4).
fn pending_status(optional: bool) -> u16
    ensures { result ≡ pending_status optional }
{
    if optional {
        status::PENDING_WITHOUT_OPTIONAL_KEYS
    } else {
        status::PENDING
    }
}

/// Where responses go: the context and the command of the message that they answer, and the longest
/// PDU that the peer takes.
#[derive(Clone, Copy)]
pub(crate) struct Recipient<'a> {
    alloc: Global,
    context: AcceptedContext,
    command: &'a Command,
    limit: PeerLimit,
}

impl<'a> Recipient<'a> {
    pub(crate) fn new(
        alloc: Global,
        context: AcceptedContext,
        command: &'a Command,
        limit: PeerLimit,
    ) -> Self
        ensures { (result.context ≡ context) × (result.command.now ≡ command.now)
            × (result.limit ≡ limit) }
    {
        Recipient {
            alloc,
            context,
            command,
            limit,
        }
    }

    /// Adds the command set of a response with a status.
    pub(crate) fn put_command(
        self,
        status: u16,
        with_data: bool,
        out: &mut Vec<u8>,
    ) -> Result<(), AllocError>
        ensures { OnOk result (out.new.items ≡ out.old.items ++ command_octets self.entry.context
            self.entry.limit self.entry.command.now status with_data) }
    {
        let Recipient {
            alloc,
            context,
            command,
            limit,
        } = self;
        let response = response_command(context.class, command, status, with_data);
        append_command(alloc, out, context.id, response, limit.octets())?;
        Ok(())
    }
}

impl OpenQuery {
    fn recipient(&self, alloc: Global) -> Recipient<'_>
        ensures { (result.context ≡ self.now.context)
            × (result.command.now ≡ self.now.command) × (result.limit ≡ self.now.limit) }
    {
        Recipient::new(alloc, self.context, &self.command, self.limit)
    }

    /// Sends so many of the pending responses that are at hand.
    fn send_pending(
        &mut self,
        alloc: Global,
        count: usize,
        out: &mut Vec<u8>,
    ) -> Result<(), AllocError>
        requires { count ≤ length (at_hand self.old.answers) }
        ensures sent { (records : List Record) → OnOk result (out.new.items ≡ out.old.items
            ++ responses_octets (open_query_of records self.old)
            (take count (open_query_of records self.old).left.pending)) }
        ensures left { (records : List Record) → OnOk result (open_query_of records self.new
            ≡ without_first count (open_query_of records self.old)) }
        ensures since { self.new.since ≡ self.old.since }
    {
        if count == 0 {
            return Ok(());
        }
        let status = pending_status(self.answers.optional());
        // The same before each answer.
        let mut command = Vec::new(alloc);
        self.recipient(alloc)
            .put_command(status, true, &mut command)?;
        for _ in 0..count {
            let next = self.answers.next_octets(alloc, self.context.syntax)?;
            let Some(octets) = next else {
                return Ok(());
            };
            out.extend_from_slice(&command)?;
            append_data_set(out, self.context.id, &octets, self.limit.octets())?;
        }
        self.count(count);
        Ok(())
    }

    /// Counts answers that were sent, for the note.
    fn count(&mut self, answers: usize)
        ensures { self.new ≡ record self.old { note = self.new.note } }
    {
        if let Some(note) = &mut self.note {
            note.answers = note.answers.saturating_add(answers);
        }
    }

    /// Sends the final response, with a status.
    fn send_final(&self, alloc: Global, status: u16, out: &mut Vec<u8>) -> Result<(), AllocError>
        ensures { (records : List Record) → OnOk result (out.new.items ≡ out.old.items
            ++ responses_octets (open_query_of records self.now)
            (response self.now.context.class self.now.command status None ∷ [])) }
    {
        self.recipient(alloc).put_command(status, false, out)?;
        Ok(())
    }

    /// Sends all that is left.
    pub(crate) fn send_rest<T: Tables>(
        mut self,
        archive: &mut Past<'_, T>,
        out: &mut Vec<u8>,
        notes: &mut EventNotes,
    ) -> Result<(), TableFault>
        ensures looks { LooksBack T.state archive.old archive.new result }
        ensures sent { (state_in T.state archive.new).honest → OnOk result (out.new.items
            ≡ out.old.items ++ rest (open_query_of (records_in T.state archive.old) self)) }
    {
        self.answers.find(archive, None)?;
        let count = self.answers.at_hand();
        self.send_pending(archive.alloc, count, out)?;
        let status = self.answers.status();
        self.send_final(archive.alloc, status, out)?;
        notes.serve(self.note, status);
        Ok(())
    }

    /// Sends a page: the next pending responses, and the final one where none of them is left.
    /// Gives back what is left; answers that were all found are then held as octets.
    pub(crate) fn send_page<T: Tables>(
        mut self,
        archive: &mut Past<'_, T>,
        out: &mut Vec<u8>,
        notes: &mut EventNotes,
    ) -> Result<Option<Self>, TableFault>
        ensures looks { LooksBack T.state archive.old archive.new result }
        ensures sent { (state_in T.state archive.new).honest → IfOk result (λ query.
            let records = records_in T.state archive.old in
            (out.new.items ≡ out.old.items ++ (page (open_query_of records self)).octets)
            × (open_query_in records query ≡ (page (open_query_of records self)).query)) }
        ensures since { IfOk result (λ query. (left : HeldQuery) → query ≡ Some left
            → left.since ≡ self.since) }
    {
        self.answers.find(archive, Some(PAGE_LENGTH + 1))?;
        if self.answers.at_hand() <= PAGE_LENGTH {
            self.send_rest(archive, out, notes)?;
            return Ok(None);
        }
        self.send_pending(archive.alloc, PAGE_LENGTH, out)?;
        self.answers.pack(archive.alloc)?;
        Ok(Some(self))
    }

    /// Answers a C-CANCEL of the message with an id: where that is the one which is answered here,
    /// the final response is sent, and nothing more. Gives back what is left.
    pub(crate) fn cancel(
        self,
        alloc: Global,
        id: u16,
        out: &mut Vec<u8>,
        notes: &mut EventNotes,
    ) -> Result<Option<Self>, AllocError>
        ensures sent { (records : List Record) → IfOk result (λ query.
            let reaction = cancel_reaction id (open_query_of records self) in
            (out.new.items ≡ out.old.items ++ reaction.octets)
            × (open_query_in records query ≡ reaction.query)) }
        ensures since { IfOk result (λ query. (left : HeldQuery) → query ≡ Some left
            → left.since ≡ self.since) }
    {
        if id != self.command.id {
            return Ok(Some(self));
        }
        self.send_final(alloc, status::CANCEL, out)?;
        notes.serve(self.note, status::CANCEL);
        Ok(None)
    }
}
