//! An association: what each PDU leads to, by the table of states (PS3.8 section 9.2).
ghost use Rattle.std.specs.Prelude.{◌≡◌, ◌∷◌, [], ◌++◌, List, Option, true, false, if◌then◌else◌, IsTrue, IfOk, OnOk, Some, None, is_some};
ghost use Rattle.std.specs.Option.{option_copied};
ghost use Rattle.dq_pdu.specs.declared.fault.PduFault.{PduFault};
ghost use Rattle.dq_dimse.specs.Assembling.{Assembly, spent_by, messages_from, assembly_from};
ghost use Rattle.dq_dimse.specs.Holding.{Assembles, AllRefine, spent_with};
ghost use Rattle.dq_dimse.specs.Received.{Message as Received};
ghost use Rattle.dq_dimse.specs.declared.assembler.Accepted.{Accepted};
ghost use Rattle.dq_assoc.specs.Negotiation.{agreement_of, acceptance_of, peer_limit};
ghost use Rattle.dq_assoc.specs.Table.{Requested, accepted_line, line, answer_octets};
ghost use Rattle.dq_assoc.specs.Inputs.{reason_of};
ghost use Rattle.dq_assoc.specs.Associations.{HeldState as Pure};
ghost use Rattle.dq_assoc.specs.After.{state_of, is_closed, association_at, association_from, open_if, inputs_from, TakesPdu};
ghost use Rattle.dq_assoc.specs.AssociationEnds.{last_pdu};
ghost use Rattle.dq_assoc.specs.Steps.{after_messages, step_of, pdvs_step, fault_end, step_of_inputs};
ghost use Rattle.dq_assoc.specs.Holding.{IsStep, Stands, WasGivenPdus, accepted_by, accepted_in, held_agreement, held_state, is_unspent};

use crate::agreement::{Agreement, PeerLimit};
use crate::association_end::{AssociationEnd, INVALID_PARAMETER, UNRECOGNIZED_PDU};
use crate::negotiation;
use dq_dimse::{Assembler, DimseFault, Message};
use dq_list::Listed;
use dq_pdu::{Pdu, PduFault, Pdv, Request, writable, write_pdu};
use std::alloc::{AllocError, Global};
use std::marker::Model;
use std::mem;

/// The state of an association (PS3.8 section 9.2).
#[derive(Clone, Copy, Debug, PartialEq, Eq)]
pub enum State {
    /// Sta2: awaiting the request.
    Waiting,
    /// Sta6: ready for data transfer.
    Open,
    /// Sta13, or Sta1: the connection is to be closed.
    Closed,
}

/// The verdict on a request's titles.
#[derive(Clone, Copy, Debug, PartialEq, Eq)]
pub enum Verdict {
    /// They name an institution that takes one more association.
    Accept,
    /// They name no institution.
    Nowhere,
    /// The institution's associations are at their limit.
    Busy,
}

/// The outcome of a PDU: messages to be answered first, then octets, whether the connection is
/// closed, and how the association ends, if it does.
#[derive(Drop)]
pub struct Step {
    pub messages: Listed<Message>,
    pub octets: Listed<u8>,
    pub close: bool,
    pub end: Option<AssociationEnd>,
}

/// The state that an association holds between two PDUs.
#[derive(Drop)]
pub(crate) enum Held {
    Waiting,
    Open(Agreement, Assembler),
    Closed(Option<Agreement>),
}

impl Held {
    /// Returns what was agreed on.
    fn into_agreement(self) -> Option<Agreement>
        ensures { result ≡ held_agreement self }
    {
        match self {
            Held::Waiting => None,
            Held::Open(agreement, _) => Some(agreement),
            Held::Closed(agreement) => agreement,
        }
    }
}

/// An association.
#[derive(Drop)]
pub struct Association {
    alloc: Global,
    held: Held,
}

impl Model for Association {
    ghost use Rattle.std.specs.Prelude.{IsTrue};
    ghost use Rattle.dq_assoc.specs.declared.association.Held.{Held};
    ghost use Rattle.std.specs.Coded.{codes};
    ghost use Rattle.dq_dataset.specs.contracts.data_set.DataSet as data_set;
    ghost use Rattle.dq_assoc.specs.Holding.{is_unspent};

    ghost Value = { Held };

    ghost coded = { Prim.hlevel (codes, data_set.the_row.coded) };

    ghost view = { λ a. a.held };

    ghost invariant = { λ a. IsTrue (is_unspent a.held) };
}

/// The octets of the PDU that tells the peer of an end, if there is one.
fn octets_of(alloc: Global, end: Option<AssociationEnd>) -> Result<Vec<u8>, AllocError>
    ensures { IfOk result (λ octets. octets.items ≡ answer_octets (last_pdu end)) }
{
    let Some(end) = end else {
        return Ok(Vec::new(alloc));
    };
    let pdu = end.pdu();
    match &pdu {
        None => Ok(Vec::new(alloc)),
        Some(pdu) => write_pdu(alloc, pdu),
    }
}

/// A step that closes after messages, and tells how the association ends, if it does.
fn closing_step(
    alloc: Global,
    messages: Listed<Message>,
    end: Option<AssociationEnd>,
) -> Result<Step, AllocError>
    ensures { IfOk result (λ step. step ≡ record {
      messages = messages;
      octets = answer_octets (last_pdu end);
      close = true;
      end = end;
    }) }
{
    Ok(Step {
        messages,
        octets: Listed::from_inner(octets_of(alloc, end)?),
        close: true,
        end,
    })
}

/// A step after messages.
fn after_messages(mut messages: Vec<Message>, last: Step) -> Result<Step, AllocError>
    ensures { IfOk result (λ step.
        step ≡ record last { messages = messages.items ++ last.messages }) }
{
    messages.append(&mut last.messages.into_inner())?;
    Ok(Step {
        messages: Listed::from_inner(messages),
        octets: last.octets,
        close: last.close,
        end: last.end,
    })
}

/// The reason of the abort that answers a fault of the stream.
fn reason_of(fault: PduFault) -> u8
    ensures { result ≡ reason_of fault }
{
    match fault {
        PduFault::Unrecognized => UNRECOGNIZED_PDU,
        PduFault::TooLong | PduFault::Malformed => INVALID_PARAMETER,
    }
}

/// Returns the end that a fault of the stream brings.
fn fault_end(state: State, fault: PduFault) -> Option<AssociationEnd>
    ensures { result ≡ fault_end state fault }
{
    match state {
        State::Waiting => Some(AssociationEnd::user_abort()),
        State::Open => Some(AssociationEnd::provider_abort(reason_of(fault))),
        State::Closed => None,
    }
}

/// The outcome of PDVs: the messages that they complete, and whether they are not messages.
#[derive(Drop)]
struct Read {
    messages: Listed<Message>,
    is_faulty: bool,
}

/// Gives a PDV to an assembler, and the message that it completes to `messages`. Answers whether
/// it is faulty.
fn take_pdv(
    assembler: &mut Assembler,
    pdv: &Pdv,
    messages: &mut Listed<Message>,
) -> Result<bool, AllocError>
    ensures messages { (assembly : Assembly) (before : List Received) →
        Assembles assembler.old assembly →
        AllRefine assembler.old.accepted messages.old before →
        OnOk result (AllRefine assembler.old.accepted messages.new
        (before ++ (messages_from assembly (pdv.now ∷ [])).list)) }
    ensures fault { (assembly : Assembly) → Assembles assembler.old assembly →
        IfOk result (λ is_faulty.
        is_faulty ≡ is_some (messages_from assembly (pdv.now ∷ [])).fault) }
    ensures next { (assembly : Assembly) → Assembles assembler.old assembly →
        IfOk result (λ is_faulty. is_faulty ≡ false →
        Assembles assembler.new (assembly_from assembly (pdv.now ∷ []))) }
    ensures unspent { IfOk result (λ is_faulty. is_faulty ≡ false →
        spent_with assembler.new ≡ None) }
    ensures keeps { assembler.new.accepted ≡ assembler.old.accepted }
{
    match assembler.take(pdv) {
        Ok(None) => Ok(false),
        Ok(Some(message)) => {
            messages.push(message)?;
            Ok(false)
        }
        Err(DimseFault::NoMemory) => Err(AllocError),
        Err(_) => Ok(true),
    }
}

/// Gives PDVs to an assembler, up to one that is faulty.
fn read_pdvs(alloc: Global, assembler: &mut Assembler, pdvs: &[Pdv]) -> Result<Read, AllocError>
    requires { spent_with assembler.old ≡ None }
    ensures messages { (assembly : Assembly) → Assembles assembler.old assembly →
        IfOk result (λ read. AllRefine assembler.old.accepted read.messages
        (messages_from assembly pdvs.now).list) }
    ensures fault { (assembly : Assembly) → Assembles assembler.old assembly →
        IfOk result (λ read. read.is_faulty ≡ is_some (messages_from assembly pdvs.now).fault) }
    ensures next { (assembly : Assembly) → Assembles assembler.old assembly →
        IfOk result (λ read. read.is_faulty ≡ false →
        Assembles assembler.new (assembly_from assembly pdvs.now)) }
    ensures unspent { IfOk result (λ read. read.is_faulty ≡ false →
        spent_with assembler.new ≡ None) }
    ensures keeps { assembler.new.accepted ≡ assembler.old.accepted }
{
    let mut messages = Listed::empty(alloc);
    for pdv in pdvs {
        let is_faulty = take_pdv(assembler, pdv, &mut messages)?;
        if is_faulty {
            return Ok(Read {
                messages,
                is_faulty,
            });
        }
    }
    Ok(Read {
        messages,
        is_faulty: false,
    })
}

/// Returns the state that an association holds once its request is accepted.
fn opened(alloc: Global, request: &Request, limit: PeerLimit) -> Result<Held, AllocError>
    requires { limit ≡ peer_limit request.now }
    ensures { IfOk result (λ held. Stands held (association_at State.Open request.now)) }
{
    let agreement = negotiation::agreement_of(alloc, request, limit)?;
    let assembler = Assembler::new(alloc, agreement.accepted(alloc)?);
    Ok(Held::Open(agreement, assembler))
}

impl Association {
    /// Creates an association that awaits its request. It takes no memory.
    pub fn new(alloc: Global) -> Self
        ensures after { WasGivenPdus [] result }
        ensures state { held_state result ≡ State.Waiting }
    {
        Association {
            alloc,
            held: Held::Waiting,
        }
    }

    /// Resets the association for another connection: it awaits its request again. It takes no
    /// memory.
    pub fn reset(&mut self)
        ensures after { WasGivenPdus [] self.new }
        ensures state { held_state self.new ≡ State.Waiting }
    {
        self.hold(Held::Waiting);
    }

    /// Holds this in the place of what was held.
    fn hold(&mut self, held: Held)
        requires { IsTrue (is_unspent held) }
        ensures { self.new ≡ held }
    {
        self.held = held;
    }

    /// The state that the association is in.
    pub fn state(&self) -> State
        ensures { result ≡ held_state self.now }
    {
        match self.held {
            Held::Waiting => State::Waiting,
            Held::Open(..) => State::Open,
            Held::Closed(_) => State::Closed,
        }
    }

    /// Returns what the association agreed on with its request, also after it is closed.
    pub fn agreement(&self) -> Option<&Agreement>
        ensures { option_copied result ≡ held_agreement self.now }
    {
        match &self.held {
            Held::Waiting => None,
            Held::Open(agreement, _) => Some(agreement),
            Held::Closed(agreement) => agreement.as_ref(),
        }
    }

    /// Answers the request (PS3.8 sections 9.3.2 to 9.3.4). After an error the association is
    /// dropped.
    pub fn accept(&mut self, request: Request, verdict: Verdict) -> Result<Step, AllocError>
        requires { held_state self.old ≡ State.Waiting }
        ensures step { IfOk result (λ step. (accepted : List Accepted) →
            IsStep accepted step (step_of (line State.Waiting verdict (Requested request)))) }
        ensures close { IfOk result (λ step. step.close ≡ is_closed (held_state self.new)) }
        ensures after { IfOk result (λ step.
            step.close ≡ false → WasGivenPdus (Pdu.Request request ∷ []) self.new) }
        ensures agreement { IfOk result (λ step.
            step.close ≡ false → held_agreement self.new ≡ Some (agreement_of request)) }
        ensures refused { IfOk result (λ step.
            step.close ≡ true → held_agreement self.new ≡ None) }
    {
        self.hold(Held::Closed(None));
        match negotiation::peer_limit(&request, verdict) {
            Ok(limit) => self.open_unless_stray(&request, limit),
            Err(rejection) => {
                // AE-6, AE-8
                let end = AssociationEnd::Rejected(rejection);
                closing_step(self.alloc, Listed::empty(self.alloc), Some(end))
            }
        }
    }

    /// Answers a request that is not rejected.
    fn open_unless_stray(&mut self, request: &Request, limit: PeerLimit) -> Result<Step, AllocError>
        requires closed { self.old ≡ Held.Closed None }
        requires limit { limit ≡ peer_limit request.now }
        ensures step { IfOk result (λ step. (accepted : List Accepted) →
            IsStep accepted step (step_of (accepted_line (acceptance_of request.now)))) }
        ensures close { IfOk result (λ step. step.close ≡ is_closed (held_state self.new)) }
        ensures exact { OnOk result (
            let next = (accepted_line (acceptance_of request.now)).next in
            Stands self.new (association_at next request.now)) }
    {
        let answer = negotiation::acceptance(self.alloc, request)?;
        if !writable(&answer) {
            let end = AssociationEnd::user_abort();
            return closing_step(self.alloc, Listed::empty(self.alloc), Some(end));
        }
        // AE-7
        let octets = write_pdu(self.alloc, &answer)?;
        let held = opened(self.alloc, request, limit)?;
        self.hold(held);
        Ok(Step {
            messages: Listed::empty(self.alloc),
            octets: Listed::from_inner(octets),
            close: false,
            end: None,
        })
    }

    /// Takes PDVs, which are the messages of an open association or close it.
    fn take_pdvs(
        &mut self,
        agreement: Agreement,
        mut assembler: Assembler,
        pdvs: &[Pdv],
    ) -> Result<Step, AllocError>
        requires closed { self.old ≡ Held.Closed None }
        requires unspent { spent_with assembler ≡ None }
        ensures step { (assembly : Assembly) → Assembles assembler assembly →
            IfOk result (λ step. IsStep assembler.accepted step
            (pdvs_step (messages_from assembly pdvs.now))) }
        ensures close { IfOk result (λ step. step.close ≡ is_closed (held_state self.new)) }
        ensures exact { (assembly : Assembly) → Assembles assembler assembly →
            assembler.accepted ≡ accepted_by agreement →
            OnOk result (let next = assembly_from assembly pdvs.now in
            Stands self.new (open_if (spent_by next) agreement next)) }
        ensures agreement { OnOk result (held_agreement self.new ≡ Some agreement) }
    {
        let read = read_pdvs(self.alloc, &mut assembler, pdvs)?;
        if read.is_faulty {
            self.hold(Held::Closed(Some(agreement)));
            let end = AssociationEnd::provider_abort(INVALID_PARAMETER);
            return closing_step(self.alloc, read.messages, Some(end));
        }
        self.hold(Held::Open(agreement, assembler));
        // DT-2
        Ok(Step {
            messages: read.messages,
            octets: Listed::empty(self.alloc),
            close: false,
            end: None,
        })
    }

    /// Takes a PDU after the request, or one that stands in its place. After an error the
    /// association is dropped.
    pub fn take(&mut self, pdu: Pdu) -> Result<Step, AllocError>
        requires { TakesPdu (held_state self.old) pdu }
        // Whatever association this one stands for: what the PDU leads to, and where it leaves it.
        ensures step { (association : Pure) → Stands self.old association →
            IfOk result (λ step. IsStep (accepted_in (held_agreement self.old)) step
            (step_of_inputs (state_of association) (inputs_from association (pdu ∷ []) None))) }
        ensures close { IfOk result (λ step. step.close ≡ is_closed (held_state self.new)) }
        ensures next { (association : Pure) → Stands self.old association →
            OnOk result (Stands self.new (association_from association (pdu ∷ []))) }
        ensures agreement { OnOk result (held_agreement self.new ≡ held_agreement self.old) }
    {
        let messages = Listed::empty(self.alloc);
        match mem::replace(&mut self.held, Held::Closed(None)) {
            Held::Closed(_) => unreachable!(),
            Held::Waiting => {
                let end = AssociationEnd::before_request(&pdu);
                closing_step(self.alloc, messages, Some(end))
            }
            Held::Open(agreement, assembler) => match &pdu {
                Pdu::PData(pdvs) => self.take_pdvs(agreement, assembler, pdvs.as_slice()),
                _ => {
                    self.hold(Held::Closed(Some(agreement)));
                    closing_step(self.alloc, messages, Some(AssociationEnd::by_pdu(&pdu)))
                }
            },
        }
    }

    /// Takes PDUs in order after the request, up to one that closes, and then a fault of the
    /// stream. After an error the association is dropped.
    pub fn take_all(&mut self, pdus: Vec<Pdu>, fault: Option<PduFault>) -> Result<Step, AllocError>
        requires { held_state self.old ≡ State.Open }
        ensures step { (association : Pure) → Stands self.old association →
            IfOk result (λ step. IsStep (accepted_in (held_agreement self.old)) step
            (step_of_inputs State.Open (inputs_from association pdus.items fault))) }
        ensures close { IfOk result (λ step. step.close ≡ is_closed (held_state self.new)) }
        ensures next { (association : Pure) → Stands self.old association →
            IfOk result (λ step. step.close ≡ false →
            (fault ≡ None) × Stands self.new (association_from association pdus.items)) }
        ensures agreement { OnOk result (held_agreement self.new ≡ held_agreement self.old) }
    {
        let mut messages = Vec::new(self.alloc);
        for pdu in pdus {
            let step = self.take(pdu)?;
            if step.close {
                return after_messages(messages, step);
            }
            messages.append(&mut step.messages.into_inner())?;
        }
        self.end(messages, fault)
    }

    /// Returns the step that messages lead to, and then a fault of the stream if there is one.
    fn end(&mut self, messages: Vec<Message>, fault: Option<PduFault>) -> Result<Step, AllocError>
        requires { held_state self.old ≡ State.Open }
        ensures step { (association : Pure) (before : List Received) → Stands self.old association →
            let accepted = accepted_in (held_agreement self.old) in
            AllRefine accepted messages.items before → IfOk result (λ step. IsStep accepted step
            (after_messages before (step_of_inputs State.Open (inputs_from association [] fault)))) }
        ensures close { IfOk result (λ step. step.close ≡ is_closed (held_state self.new)) }
        ensures kept { IfOk result (λ step. step.close ≡ false →
            (fault ≡ None) × (self.new ≡ self.old)) }
        ensures agreement { OnOk result (held_agreement self.new ≡ held_agreement self.old) }
    {
        match fault {
            None => Ok(Step {
                messages: Listed::from_inner(messages),
                octets: Listed::empty(self.alloc),
                close: false,
                end: None,
            }),
            Some(fault) => after_messages(messages, self.stop(fault)?),
        }
    }

    /// Answers a fault of the stream, and is closed from then on: AA-1 in Sta2, AA-8 in Sta6. One
    /// that was closed before answers nothing.
    pub fn stop(&mut self, fault: PduFault) -> Result<Step, AllocError>
        ensures step { (association : Pure) → Stands self.old association →
            IfOk result (λ step. (accepted : List Accepted) → IsStep accepted step
            (step_of_inputs (state_of association) (inputs_from association [] (Some fault)))) }
        ensures close { IfOk result (λ step. step.close ≡ true) }
        ensures state { held_state self.new ≡ State.Closed }
        ensures agreement { held_agreement self.new ≡ held_agreement self.old }
    {
        let end = fault_end(self.state(), fault);
        let held = mem::replace(&mut self.held, Held::Closed(None));
        self.hold(Held::Closed(held.into_agreement()));
        closing_step(self.alloc, Listed::empty(self.alloc), end)
    }
}
