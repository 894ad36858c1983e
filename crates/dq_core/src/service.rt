//! Answers to messages, by the service of their context.

ghost use Rattle.std.specs.Prelude.{◌≡◌, ◌≢◌, ◌++◌, [], List, drop, true, IfOk, IfErr, OnOk, OnErr, None, Some};
ghost use Rattle.dq_dimse.specs.Holding.{AllRefine, Refines, RefinesOn, plain_message};
ghost use Rattle.dq_dimse.specs.Received.{Message as Received};
ghost use Rattle.dq_assoc.specs.Holding.{accepted_by};
ghost use Rattle.dq_config.specs.Limits.{limits_of};
ghost use Rattle.dq_tables.specs.Rows.{Record, of};
ghost use Rattle.dq_find.specs.LazyAnswers.{found_then};
ghost use Rattle.dq_core.specs.Services.{command_field_of, operation_outcome, message_outcome, identifier_of, identifier_on};
ghost use Rattle.dq_core.specs.Stepping.{HealthAfter, MayLeaveAfter};
ghost use Rattle.dq_tables.specs.TableStates.{Reads};
ghost use Rattle.dq_core.specs.Pages.{rest, page};
ghost use Rattle.dq_core.specs.declared.pages.OpenQuery.{OpenQuery as HeldQuery};
ghost use Rattle.dq_core.specs.Effects.{Operates, AnswerApplied, AnswerPartlyApplied, Taken as Pure, served_answer, messages_answer, taken_answer};
ghost use Rattle.dq_archive.specs.Additions.{IsTold};
ghost use Rattle.dq_core.specs.Queries.{outcome_found, open_query_of, records_since, query_then, IsBegun};
ghost use Rattle.dq_core.specs.Slots.{IsTaken};

use crate::answer_queue::AnswerQueue;
use crate::answers::{Answers, MessageOutcome, OperationOutcome};
use crate::dimse_operation::DimseOperation;
use crate::fault::Fault;
use crate::notes::EventNotes;
use crate::pages::{OpenQuery, Recipient};
use crate::slot::Taken;
use dq_archive::{Addition, Past};
use dq_assoc::{AcceptedContext, Agreement};
use dq_config::Institution;
use dq_dataset::Syntax;
use dq_dimse::{Message, command_field, status};
use dq_find::{LazyAnswers, begin_find};
use dq_list::Listed;
use dq_match::Found;
use dq_mpps::{create, set};
use dq_store::store_telling;
use dq_tables::laws::{honest_rows_are_sound, own_records_are_edited};
use dq_tables::{TableFault, Tables};
use dq_worklist::query_with_identifier;
use std::alloc::{AllocError, Global};

/// Who serves the messages of a connection: the institution that has it, by what is agreed on it.
#[derive(Clone, Copy)]
pub(crate) struct Provider<'a> {
    pub institution: &'a Institution,
    pub agreement: &'a Agreement,
}

/// The institution that has a connection, and what was added there while searches were open.
#[derive(Clone, Copy)]
pub(crate) struct SearchScope<'a> {
    pub institution: &'a Institution,
    pub log: &'a [Addition],
}

/// The answer on a connection: octets, and the C-FIND that is open on it afterwards.
#[derive(Drop)]
pub(crate) struct Answered {
    pub octets: Vec<u8>,
    pub query: Option<OpenQuery>,
}

/// Answers that were all found.
fn all_found(alloc: Global, found: Found) -> MessageOutcome
    ensures { (records : List Record) → outcome_found records result ≡ found }
{
    MessageOutcome::Answers(Answers::Found(AnswerQueue::new(alloc, found)))
}

/// The answers to a query that began, or the status that refuses it.
fn lazy_or_refused(asked: Result<LazyAnswers, u16>) -> MessageOutcome
    ensures { (records : List Record) → outcome_found records result ≡ found_then asked records }
{
    match asked {
        Ok(lazy) => MessageOutcome::Answers(Answers::Lazy(lazy)),
        Err(status) => MessageOutcome::Status(status),
    }
}

impl<'a> Provider<'a> {
    /// The records in which its searches look.
    fn search_scope(self, log: &'a [Addition]) -> SearchScope<'a>
        ensures { (result.institution ≡ self.entry.institution) × (result.log ≡ log.entry) }
    {
        SearchScope {
            institution: self.institution,
            log,
        }
    }

    /// Makes the edits of an operation, and answers it. Each operation has its place here. Gives back
    /// the identifier of a C-FIND too, where it can be read.
    fn perform<T: Tables>(
        self,
        operation: DimseOperation,
        message: &Message,
        syntax: Syntax,
        tables: &mut T,
        log: &mut Listed<Addition>,
    ) -> Result<OperationOutcome, Fault>
        requires { command_field_of operation ≡ message.now.command.code }
        ensures serves { (sent : Received) → Refines syntax message.now sent →
            Operates (T.state tables.old) (T.state tables.new) self.entry.institution.now.name
            (operation_outcome operation self.entry.agreement.now.called syntax
            (limits_of self.entry.institution.now) sent) result }
        ensures identifier { IfOk result (λ given. given.identifier
            ≡ identifier_of operation syntax (plain_message message.now)) }
        ensures told { (T.state tables.new).honest → OnOk result
            (IsTold self.entry.institution.now.name (T.state tables.old).rows
            (T.state tables.new).rows log.old log.new) }
        ensures goes { HealthAfter (T.state tables.old) (T.state tables.new) result }
        ensures fault { IfErr result (λ fault. fault ≢ Fault.Stopped) }
    {
        honest_rows_are_sound::<T>();
        let Provider {
            institution,
            agreement,
        } = self;
        match operation {
            DimseOperation::Echo => Ok(OperationOutcome::of_status(status::SUCCESS)),
            DimseOperation::Store => {
                let status = store_telling(tables, institution, message, syntax, log)?;
                Ok(OperationOutcome::of_status(status))
            }
            DimseOperation::FindStudies => {
                let called = &agreement.called;
                let (asked, identifier) = begin_find(tables, institution, called, message, syntax)?;
                Ok(OperationOutcome {
                    outcome: lazy_or_refused(asked),
                    identifier,
                })
            }
            DimseOperation::FindEntries => {
                let (found, identifier) = query_with_identifier(
                    tables,
                    institution,
                    message,
                    syntax,
                )?;
                Ok(OperationOutcome {
                    outcome: all_found(tables.alloc(), found),
                    identifier,
                })
            }
            DimseOperation::CreateStep => {
                let status = create(tables, institution, message, syntax)?;
                Ok(OperationOutcome::of_status(status))
            }
            DimseOperation::SetStep => {
                let status = set(tables, institution, message, syntax)?;
                Ok(OperationOutcome::of_status(status))
            }
        }
    }

    /// The outcome of a message that has a response: its refusal, or that of its operation. The
    /// operation is tested first, and then the class (PS3.7 annex C). Gives back what `perform` does.
    fn outcome<T: Tables>(
        self,
        context: AcceptedContext,
        message: &Message,
        tables: &mut T,
        log: &mut Listed<Addition>,
    ) -> Result<OperationOutcome, Fault>
        ensures serves { (sent : Received) → Refines context.syntax message.now sent →
            Operates (T.state tables.old) (T.state tables.new) self.entry.institution.now.name
            (message_outcome self.entry.agreement.now context
            (limits_of self.entry.institution.now) sent) result }
        ensures identifier { IfOk result (λ given. given.identifier
            ≡ identifier_on context (plain_message message.now)) }
        ensures told { (T.state tables.new).honest → OnOk result
            (IsTold self.entry.institution.now.name (T.state tables.old).rows
            (T.state tables.new).rows log.old log.new) }
        ensures goes { HealthAfter (T.state tables.old) (T.state tables.new) result }
        ensures fault { IfErr result (λ fault. fault ≢ Fault.Stopped) }
    {
        let command = &message.command;
        let Some(operation) = DimseOperation::of(context.class.service(), command.code) else {
            return Ok(OperationOutcome::of_status(status::UNRECOGNIZED_OPERATION));
        };
        if command.sop_class.as_slice() != context.class.uid() {
            return Ok(OperationOutcome::of_status(status::SOP_CLASS_NOT_SUPPORTED));
        }
        self.perform(operation, message, context.syntax, tables, log)
    }

    /// Serves a message while no C-FIND is open: makes its edits, and sends the first page of its
    /// responses. None comes on a context that was not accepted, and none to a C-CANCEL. Gives back
    /// the octets with those that are sent, and what is left of the responses.
    fn serve<T: Tables>(
        self,
        octets: Vec<u8>,
        message: Message,
        tables: &mut T,
        log: &mut Listed<Addition>,
        notes: &mut EventNotes,
    ) -> Result<Answered, Fault>
        ensures goes { HealthAfter (T.state tables.old) (T.state tables.new) result }
        ensures does { (T.state tables.new).honest → (sent : Received) →
            RefinesOn (accepted_by self.entry.agreement.now) message sent → IfOk result (λ given.
            AnswerApplied (Some self.entry.institution.now)
            (served_answer (limits_of self.entry.institution.now) self.entry.agreement.now
            (of self.entry.institution.now.name (T.state tables.old).rows) None sent)
            (T.state tables.old).rows (T.state tables.new).rows octets.items given.octets.items
            (query_then self.entry.institution.now.name (T.state tables.new).rows log.new
            given.query)) }
        ensures stops { (T.state tables.new).honest → (sent : Received) →
            RefinesOn (accepted_by self.entry.agreement.now) message sent → OnErr result (
            AnswerPartlyApplied (Some self.entry.institution.now)
            (served_answer (limits_of self.entry.institution.now) self.entry.agreement.now
            (of self.entry.institution.now.name (T.state tables.old).rows) None sent)
            (T.state tables.old).rows (T.state tables.new).rows
            (MayLeaveAfter (T.state tables.old) (T.state tables.new))) }
        ensures told { (T.state tables.new).honest → OnOk result
            (IsTold self.entry.institution.now.name (T.state tables.old).rows
            (T.state tables.new).rows log.old log.new) }
        ensures begun { IfOk result (λ given. IsBegun log.new given.query) }
        ensures fault { IfErr result (λ fault. fault ≢ Fault.Stopped) }
    {
        let Some(context) = self.agreement.context(message.context) else {
            return Ok(Answered {
                octets,
                query: None,
            });
        };
        if message.command.code == command_field::C_CANCEL {
            return Ok(Answered {
                octets,
                query: None,
            });
        }
        let OperationOutcome {
            outcome,
            identifier,
        } = self.outcome(context, &message, tables, log)?;
        let note = notes.begin(context.class.service(), identifier);
        let limit = self.agreement.limit;
        let mut octets = octets;
        let answers = match outcome {
            MessageOutcome::Answers(answers) => answers,
            MessageOutcome::Status(status) => {
                let recipient = Recipient::new(tables.alloc(), context, &message.command, limit);
                recipient.put_command(status, false, &mut octets)?;
                notes.serve(note, status);
                return Ok(Answered {
                    octets,
                    query: None,
                });
            }
        };
        let query = OpenQuery {
            context,
            command: message.command,
            limit,
            answers,
            since: log.len(),
            note,
        };
        let scope = self.search_scope(log.as_slice());
        let query = send_page(scope, query, tables, &mut octets, notes)?;
        Ok(Answered { octets, query })
    }

    /// Answers a message: a C-CANCEL ends the C-FIND that is open, where it is of that, and any
    /// other message is served after all that is left of it.
    fn respond<T: Tables>(
        self,
        answered: Answered,
        message: Message,
        tables: &mut T,
        log: &mut Listed<Addition>,
        notes: &mut EventNotes,
    ) -> Result<Answered, Fault>
        ensures goes { HealthAfter (T.state tables.old) (T.state tables.new) result }
        ensures does { (T.state tables.new).honest → (sent : Received) →
            RefinesOn (accepted_by self.entry.agreement.now) message sent → IfOk result (λ given.
            AnswerApplied (Some self.entry.institution.now)
            (served_answer (limits_of self.entry.institution.now) self.entry.agreement.now
            (of self.entry.institution.now.name (T.state tables.old).rows)
            (query_then self.entry.institution.now.name (T.state tables.old).rows log.old
            answered.query) sent)
            (T.state tables.old).rows (T.state tables.new).rows
            answered.octets.items given.octets.items
            (query_then self.entry.institution.now.name (T.state tables.new).rows log.new
            given.query)) }
        ensures stops { (T.state tables.new).honest → (sent : Received) →
            RefinesOn (accepted_by self.entry.agreement.now) message sent → OnErr result (
            AnswerPartlyApplied (Some self.entry.institution.now)
            (served_answer (limits_of self.entry.institution.now) self.entry.agreement.now
            (of self.entry.institution.now.name (T.state tables.old).rows)
            (query_then self.entry.institution.now.name (T.state tables.old).rows log.old
            answered.query) sent)
            (T.state tables.old).rows (T.state tables.new).rows
            (MayLeaveAfter (T.state tables.old) (T.state tables.new))) }
        ensures told { (T.state tables.new).honest → OnOk result
            (IsTold self.entry.institution.now.name (T.state tables.old).rows
            (T.state tables.new).rows log.old log.new) }
        ensures begun { IsBegun log.old answered.query →
            IfOk result (λ given. IsBegun log.new given.query) }
        ensures fault { IfErr result (λ fault. fault ≢ Fault.Stopped) }
    {
        let Answered { mut octets, query } = answered;
        let Some(open) = query else {
            return self.serve(octets, message, tables, log, notes);
        };
        if message.command.code == command_field::C_CANCEL {
            let id = message.command.id;
            let query = open.cancel(tables.alloc(), id, &mut octets, notes)?;
            return Ok(Answered { octets, query });
        }
        let scope = self.search_scope(log.as_slice());
        send_rest(scope, open, tables, &mut octets, notes)?;
        self.serve(octets, message, tables, log, notes)
    }

    /// Answers messages, in order.
    fn respond_all<T: Tables>(
        self,
        answered: Answered,
        messages: Vec<Message>,
        tables: &mut T,
        log: &mut Listed<Addition>,
        notes: &mut EventNotes,
    ) -> Result<Answered, Fault>
        ensures goes { HealthAfter (T.state tables.old) (T.state tables.new) result }
        ensures does { (T.state tables.new).honest → (sent : List Received) →
            AllRefine (accepted_by self.entry.agreement.now) messages.items sent →
            IfOk result (λ given. AnswerApplied (Some self.entry.institution.now)
            (messages_answer (limits_of self.entry.institution.now) self.entry.agreement.now
            (of self.entry.institution.now.name (T.state tables.old).rows)
            (query_then self.entry.institution.now.name (T.state tables.old).rows log.old
            answered.query) sent)
            (T.state tables.old).rows (T.state tables.new).rows
            answered.octets.items given.octets.items
            (query_then self.entry.institution.now.name (T.state tables.new).rows log.new
            given.query)) }
        ensures stops { (T.state tables.new).honest → (sent : List Received) →
            AllRefine (accepted_by self.entry.agreement.now) messages.items sent → OnErr result (
            AnswerPartlyApplied (Some self.entry.institution.now)
            (messages_answer (limits_of self.entry.institution.now) self.entry.agreement.now
            (of self.entry.institution.now.name (T.state tables.old).rows)
            (query_then self.entry.institution.now.name (T.state tables.old).rows log.old
            answered.query) sent)
            (T.state tables.old).rows (T.state tables.new).rows
            (MayLeaveAfter (T.state tables.old) (T.state tables.new))) }
        ensures told { (T.state tables.new).honest → OnOk result
            (IsTold self.entry.institution.now.name (T.state tables.old).rows
            (T.state tables.new).rows log.old log.new) }
        ensures begun { IsBegun log.old answered.query →
            IfOk result (λ given. IsBegun log.new given.query) }
        ensures fault { IfErr result (λ fault. fault ≢ Fault.Stopped) }
    {
        own_records_are_edited();
        let mut answered = answered;
        for message in messages {
            answered = self.respond(answered, message, tables, log, notes)?;
        }
        Ok(answered)
    }

    /// Answers what was taken: the acceptance, then the responses of the services, and then the
    /// octets of what came last.
    pub(crate) fn answer<T: Tables>(
        self,
        query: Option<OpenQuery>,
        taken: Taken,
        tables: &mut T,
        log: &mut Listed<Addition>,
        notes: &mut EventNotes,
    ) -> Result<Answered, Fault>
        ensures goes { HealthAfter (T.state tables.old) (T.state tables.new) result }
        ensures does { (T.state tables.new).honest → (t : Pure) →
            IsTaken (Some self.entry.agreement.now) taken t → IfOk result (λ given.
            AnswerApplied (Some self.entry.institution.now)
            (taken_answer (limits_of self.entry.institution.now)
            (of self.entry.institution.now.name (T.state tables.old).rows)
            (Some self.entry.agreement.now)
            (query_then self.entry.institution.now.name (T.state tables.old).rows log.old query) t)
            (T.state tables.old).rows (T.state tables.new).rows [] given.octets.items
            (query_then self.entry.institution.now.name (T.state tables.new).rows log.new
            given.query)) }
        ensures stops { (T.state tables.new).honest → (t : Pure) →
            IsTaken (Some self.entry.agreement.now) taken t → OnErr result (
            AnswerPartlyApplied (Some self.entry.institution.now)
            (taken_answer (limits_of self.entry.institution.now)
            (of self.entry.institution.now.name (T.state tables.old).rows)
            (Some self.entry.agreement.now)
            (query_then self.entry.institution.now.name (T.state tables.old).rows log.old query) t)
            (T.state tables.old).rows (T.state tables.new).rows
            (MayLeaveAfter (T.state tables.old) (T.state tables.new))) }
        ensures told { (T.state tables.new).honest → OnOk result
            (IsTold self.entry.institution.now.name (T.state tables.old).rows
            (T.state tables.new).rows log.old log.new) }
        ensures begun { IsBegun log.old query → IfOk result (λ given. IsBegun log.new given.query) }
        ensures fault { IfErr result (λ fault. fault ≢ Fault.Stopped) }
    {
        let Taken { opening, step } = taken;
        let answered = Answered {
            octets: opening.into_inner(),
            query,
        };
        let messages = step.messages.into_inner();
        let mut answered = self.respond_all(answered, messages, tables, log, notes)?;
        answered.octets.extend_from_slice(step.octets.as_slice())?;
        Ok(answered)
    }
}

/// Sends all that is left of a C-FIND of an institution, by what was logged since it began.
fn send_rest<T: Tables>(
    scope: SearchScope<'_>,
    query: OpenQuery,
    tables: &mut T,
    out: &mut Vec<u8>,
    notes: &mut EventNotes,
) -> Result<(), TableFault>
    ensures reads { Reads (T.state tables.old) (T.state tables.new) result }
    ensures sent { (T.state tables.new).honest → OnOk result (out.new.items ≡ out.old.items
        ++ rest (open_query_of (records_since scope.entry.institution.now.name
        (T.state tables.old).rows scope.entry.log.now query.since) query)) }
{
    let later = since(scope.log, query.since);
    let mut archive = Past::new(tables, scope.institution, later);
    query.send_rest(&mut archive, out, notes)
}

/// Sends the next page of a C-FIND of an institution, by what was logged since it began.
pub(crate) fn send_page<T: Tables>(
    scope: SearchScope<'_>,
    query: OpenQuery,
    tables: &mut T,
    out: &mut Vec<u8>,
    notes: &mut EventNotes,
) -> Result<Option<OpenQuery>, TableFault>
    ensures reads { Reads (T.state tables.old) (T.state tables.new) result }
    ensures sent { (T.state tables.new).honest → IfOk result (λ left.
        let name = scope.entry.institution.now.name in
        let asked = open_query_of (records_since name (T.state tables.old).rows
        scope.entry.log.now query.since) query in
        (out.new.items ≡ out.old.items ++ (page asked).octets)
        × (query_then name (T.state tables.old).rows scope.entry.log.now left
        ≡ (page asked).query)) }
    ensures since { IfOk result (λ left. (q : HeldQuery) → left ≡ Some q
        → q.since ≡ query.since) }
{
    let later = since(scope.log, query.since);
    let mut archive = Past::new(tables, scope.institution, later);
    let left = query.send_page(&mut archive, out, notes)?;
    Ok(left)
}

/// Returns the additions that were logged after so many.
fn since(log: &[Addition], count: usize) -> &[Addition]
    ensures { result.now ≡ drop count log.now }
{
    &log[count.min(log.len())..]
}

/// Answers what was taken on a connection that no institution has, or on which nothing is agreed:
/// no service is reached.
pub(crate) fn answer_unserved(
    query: Option<OpenQuery>,
    taken: Taken,
) -> Result<Answered, AllocError>
    ensures { IfOk result (λ given.
        (given.octets.items ≡ taken.opening ++ taken.step.octets) × (given.query ≡ query)) }
{
    let Taken { opening, step } = taken;
    let mut octets = opening.into_inner();
    octets.extend_from_slice(step.octets.as_slice())?;
    Ok(Answered { octets, query })
}
