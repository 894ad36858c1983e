ghost use Rattle.std.specs.Prelude.{◌≡◌, ◌≢◌, ◌⊎◌, List, [], ◌∷◌, ◌++◌, Option, Some, None, false, IfOk, IfErr, OnOk, OnErr, IsOk, true};
ghost use Rattle.std.specs.Option.{option_copied};
ghost use Rattle.dq_pdu.specs.declared.pdu.Pdu.{Pdu};
ghost use Rattle.dq_pdu.specs.declared.pdu.Pdu.TheVariants as pdu;
ghost use Rattle.dq_pdu.specs.Inboxes.{InboxAfter};
ghost use Rattle.dq_assoc.specs.declared.association.State.TheVariants.{Waiting};
ghost use Rattle.dq_assoc.specs.declared.association.Verdict.TheVariants.{Nowhere};
ghost use Rattle.dq_assoc.specs.After.{state_of, agreement_in, inputs_from};
ghost use Rattle.dq_assoc.specs.Associations as pure;
ghost use Rattle.dq_assoc.specs.Associations.{HeldState};
ghost use Rattle.dq_assoc.specs.Holding.{Stands, held_agreement, held_state};
ghost use Rattle.dq_config.specs.declared.config.Institution.{Institution};
ghost use Rattle.dq_core.specs.Effects.{AnswerApplied, AnswerPartlyApplied, Taken as Pure, agreement_after, taken_inputs};
ghost use Rattle.dq_core.specs.Notes.{titles_of};
ghost use Rattle.dq_core.specs.Pages.{next_page};
ghost use Rattle.dq_tables.specs.declared.row.Row.{Row};
ghost use Rattle.dq_core.specs.Queries.{IsBegun, IsToldBy, query_by};
ghost use Rattle.dq_core.specs.Slots.{IsTaken, StandsAt, connection_answer, associated_institution, institution_at, is_searching, query_at, IsBegunAt};
ghost use Rattle.dq_core.specs.Stepping.{HealthAfter, MayLeaveAfter};

use crate::additions::Additions;
use crate::fault::Fault;
use crate::notes::{EventNotes, Titles};
use crate::pages::OpenQuery;
use crate::service::{Provider, SearchScope, answer_unserved, send_page};
use dq_archive::Addition;
use dq_assoc::laws::{an_association_after_pdus, pdus_in_parts};
use dq_assoc::{Agreement, Association, State, Step, Verdict};
use dq_config::{Config, Institution};
use dq_list::Listed;
use dq_pdu::{Fed, Inbox, Pdu, Request};
use dq_tables::Tables;
use std::alloc::{AllocError, Global};

/// A connection that is held: its number, what came on it so far, its association, the titles of its
/// request once that is whole, the name of the institution that has it once its request was accepted,
/// and the C-FIND whose responses were not all sent, if there is one.
#[derive(Drop)]
pub(crate) struct Slot {
    pub number: u64,
    pub inbox: Inbox,
    pub association: Association,
    pub titles: Option<Titles>,
    pub institution: Option<Listed<u8>>,
    pub query: Option<OpenQuery>,
}

/// Who is called on a connection: the institution that has its titles, if one has, and whether it
/// takes the association.
#[derive(Clone, Copy)]
pub(crate) struct Called<'a> {
    pub institution: Option<&'a Institution>,
    pub verdict: Verdict,
}

/// The outcome of PDUs: the acceptance of a request, and the step of what comes after it.
#[derive(Drop)]
pub(crate) struct Taken {
    pub opening: Listed<u8>,
    pub step: Step,
}

impl Slot {
    /// A connection that is opened. It takes no memory.
    pub(crate) fn new(alloc: Global, number: u64) -> Self
        ensures number { result.number ≡ number }
        ensures inbox { InboxAfter [] result.inbox }
        ensures stands { (institution : Option Institution) → StandsAt institution result [] }
        ensures query { result.query ≡ None }
    {
        Slot {
            number,
            inbox: Inbox::new(alloc),
            association: Association::new(alloc),
            titles: None,
            institution: None,
            query: None,
        }
    }

    /// Makes it one that is opened under another number. It takes no memory, and nothing of the
    /// connection that had it is left.
    pub(crate) fn reset(&mut self, number: u64)
        ensures number { self.new.number ≡ number }
        ensures inbox { InboxAfter [] self.new.inbox }
        ensures stands { (institution : Option Institution) → StandsAt institution self.new [] }
        ensures query { self.new.query ≡ None }
    {
        self.number = number;
        self.inbox.reset();
        self.association.reset();
        self.titles = None;
        self.institution = None;
        self.query = None;
    }

    /// Whether a C-FIND is open on a connection of the institution of a name.
    pub(crate) fn is_searching(&self, name: &[u8]) -> bool
        ensures { result ≡ is_searching name.now self.now }
    {
        match (&self.institution, &self.query) {
            (Some(institution), Some(_)) => institution.as_slice() == name,
            _ => false,
        }
    }

    /// Sends the next page of the responses that are left. Where none are, it takes no memory.
    pub(crate) fn send_page<T: Tables>(
        &mut self,
        config: &Config,
        additions: &Additions,
        tables: &mut T,
        notes: &mut EventNotes,
    ) -> Result<Vec<u8>, Fault>
        ensures goes { HealthAfter (T.state tables.old) (T.state tables.new) result }
        ensures same { (T.state tables.new).honest →
            (T.state tables.new).rows ≡ (T.state tables.old).rows }
        ensures crash { (T.state tables.new).honest → (r : List Row) →
            (T.state tables.new).may_leave r → (T.state tables.old).may_leave r }
        ensures page { (T.state tables.new).honest →
            IsBegunAt config.now additions.now.logs.items self.old.institution self.old.query →
            IfOk result (λ octets. octets.items ≡ (next_page
            (query_at config.now (T.state tables.old).rows additions.now.logs.items
            self.old.institution self.old.query)).octets) }
        ensures left { (T.state tables.new).honest →
            IsBegunAt config.now additions.now.logs.items self.old.institution self.old.query →
            OnOk result (query_at config.now (T.state tables.old).rows additions.now.logs.items
            self.old.institution self.new.query ≡ (next_page
            (query_at config.now (T.state tables.old).rows additions.now.logs.items
            self.old.institution self.old.query)).query) }
        ensures begun { IsBegunAt config.now additions.now.logs.items self.old.institution
            self.old.query → OnOk result
            (IsBegunAt config.now additions.now.logs.items self.old.institution self.new.query) }
        ensures keeps { self.new ≡ record self.old { query = self.new.query } }
        ensures fault { IfErr result (λ fault. fault ≢ Fault.Stopped) }
        ensures quiet { self.old.query ≡ None → IsOk result }
    {
        let mut octets = Vec::new(tables.alloc());
        let Some(query) = self.query.take() else {
            return Ok(octets);
        };
        let Some(institution) = institution_of(config, &self.institution) else {
            return Ok(octets);
        };
        let scope = SearchScope {
            institution,
            log: additions.of(config, institution.name.as_slice()),
        };
        self.query = send_page(scope, query, tables, &mut octets, notes)?;
        Ok(octets)
    }

    /// Answers what was taken: by the institution that has the connection, where one has and
    /// something is agreed on it.
    pub(crate) fn answer<T: Tables>(
        &mut self,
        institution: Option<&Institution>,
        taken: Taken,
        tables: &mut T,
        log: &mut Listed<Addition>,
        notes: &mut EventNotes,
    ) -> Result<Vec<u8>, Fault>
        ensures goes { HealthAfter (T.state tables.old) (T.state tables.new) result }
        ensures does { (T.state tables.new).honest → (t : Pure) →
            IsTaken (held_agreement self.old.association) taken t → IfOk result (λ octets.
            AnswerApplied (option_copied institution.entry)
            (connection_answer (option_copied institution.entry) (T.state tables.old).rows
            (held_agreement self.old.association)
            (query_by (option_copied institution.entry) (T.state tables.old).rows log.old
            self.old.query) t)
            (T.state tables.old).rows (T.state tables.new).rows [] octets.items
            (query_by (option_copied institution.entry) (T.state tables.new).rows log.new
            self.new.query)) }
        ensures stops { (T.state tables.new).honest → (t : Pure) →
            IsTaken (held_agreement self.old.association) taken t → OnErr result (
            AnswerPartlyApplied (option_copied institution.entry)
            (connection_answer (option_copied institution.entry) (T.state tables.old).rows
            (held_agreement self.old.association)
            (query_by (option_copied institution.entry) (T.state tables.old).rows log.old
            self.old.query) t)
            (T.state tables.old).rows (T.state tables.new).rows
            (MayLeaveAfter (T.state tables.old) (T.state tables.new))) }
        ensures told { (T.state tables.new).honest → OnOk result
            (IsToldBy (option_copied institution.entry) (T.state tables.old).rows
            (T.state tables.new).rows log.old log.new) }
        ensures begun { IsBegun log.old self.old.query →
            OnOk result (IsBegun log.new self.new.query) }
        ensures unserved { associated_institution (option_copied institution.entry)
            (held_agreement self.old.association) ≡ None →
            OnOk result (self.new.query ≡ self.old.query) }
        ensures fault { IfErr result (λ fault. fault ≢ Fault.Stopped) }
        ensures keeps { self.new ≡ record self.old { query = self.new.query } }
    {
        let query = self.query.take();
        let (Some(institution), Some(agreement)) = (institution, self.association.agreement())
        else {
            let answered = answer_unserved(query, taken)?;
            self.query = answered.query;
            return Ok(answered.octets);
        };
        let provider = Provider {
            institution,
            agreement,
        };
        let answered = provider.answer(query, taken, tables, log, notes)?;
        self.query = answered.query;
        Ok(answered.octets)
    }

    /// Takes PDUs in order, up to one that closes, and then a fault of the stream (PS3.8 section
    /// 9.2). A request that is accepted gives the slot its institution.
    pub(crate) fn take(
        &mut self,
        alloc: Global,
        called: Called,
        fed: Fed,
    ) -> Result<Taken, AllocError>
        ensures taken { (association : HeldState) → Stands self.old.association association →
            IfOk result (λ t. IsTaken (held_agreement self.new.association) t
            (taken_inputs called.entry.verdict (state_of association)
            (inputs_from association fed.pdus fed.fault))) }
        ensures agreement { (association : HeldState) → Stands self.old.association association →
            (before : List Pdu) →
            StandsAt (option_copied called.entry.institution) self.old before →
            IfOk result (λ t. (t.step.messages ≡ []) ⊎ (held_agreement self.new.association
            ≡ agreement_after (agreement_in association)
            (inputs_from association fed.pdus fed.fault))) }
        ensures stands { (before : List Pdu) →
            StandsAt (option_copied called.entry.institution) self.old before →
            (option_copied called.entry.institution ≡ None → called.entry.verdict ≡ Nowhere) →
            IfOk result (λ t. t.step.close ≡ false →
            (fed.fault ≡ None)
            × StandsAt (option_copied called.entry.institution) self.new (before ++ fed.pdus)) }
        ensures keeps { (self.new.number ≡ self.old.number) × (self.new.inbox ≡ self.old.inbox)
            × (self.new.query ≡ self.old.query) }
        ensures slot_institution { held_state self.old.association ≡ Waiting
            ⊎ (self.new.institution ≡ self.old.institution) }
    {
        an_association_after_pdus();
        pdus_in_parts();
        match self.association.state() {
            State::Waiting => self.begin(alloc, called, fed),
            State::Open => Ok(Taken {
                opening: Listed::empty(alloc),
                step: self.association.take_all(fed.pdus.into_inner(), fed.fault)?,
            }),
            State::Closed => Ok(Taken {
                opening: Listed::empty(alloc),
                step: nothing(alloc, true),
            }),
        }
    }

    /// Takes the first PDUs.
    fn begin(&mut self, alloc: Global, called: Called, fed: Fed) -> Result<Taken, AllocError>
        requires { held_state self.old.association ≡ Waiting }
        ensures taken { IfOk result (λ t. IsTaken (held_agreement self.new.association) t
            (taken_inputs called.entry.verdict Waiting
            (inputs_from pure.Waiting fed.pdus fed.fault))) }
        ensures agreement { IfOk result (λ t. (t.step.messages ≡ [])
            ⊎ (held_agreement self.new.association
            ≡ agreement_after None (inputs_from pure.Waiting fed.pdus fed.fault))) }
        ensures stands { StandsAt (option_copied called.entry.institution) self.old [] →
            (option_copied called.entry.institution ≡ None → called.entry.verdict ≡ Nowhere) →
            IfOk result (λ t. t.step.close ≡ false →
            (fed.fault ≡ None)
            × StandsAt (option_copied called.entry.institution) self.new fed.pdus) }
        ensures keeps { (self.new.number ≡ self.old.number) × (self.new.inbox ≡ self.old.inbox)
            × (self.new.query ≡ self.old.query) }
    {
        let mut pdus = fed.pdus.into_inner();
        if pdus.is_empty() {
            let step = match fed.fault {
                None => nothing(alloc, false),
                Some(fault) => self.association.stop(fault)?,
            };
            return Ok(Taken {
                opening: Listed::empty(alloc),
                step,
            });
        }
        match pdus.remove(0) {
            Pdu::Request(request) => {
                let rest = Fed {
                    pdus: Listed::from_inner(pdus),
                    fault: fed.fault,
                };
                self.accept(alloc, called, request, rest)
            }
            pdu => Ok(Taken {
                opening: Listed::empty(alloc),
                step: self.association.take(pdu)?,
            }),
        }
    }

    /// Answers the request (PS3.8 section 9.3.2), and takes the PDUs after it.
    fn accept(
        &mut self,
        alloc: Global,
        called: Called,
        request: Request,
        rest: Fed,
    ) -> Result<Taken, AllocError>
        requires { held_state self.old.association ≡ Waiting }
        ensures titles { self.new.titles ≡ Some (titles_of request) }
        ensures taken { IfOk result (λ t. IsTaken (held_agreement self.new.association) t
            (taken_inputs called.entry.verdict Waiting
            (inputs_from pure.Waiting (pdu.Request request ∷ rest.pdus) rest.fault))) }
        ensures agreement { IfOk result (λ t. (t.step.messages ≡ [])
            ⊎ (held_agreement self.new.association ≡ agreement_after None
            (inputs_from pure.Waiting (pdu.Request request ∷ rest.pdus) rest.fault))) }
        ensures stands { StandsAt (option_copied called.entry.institution) self.old [] →
            (option_copied called.entry.institution ≡ None → called.entry.verdict ≡ Nowhere) →
            IfOk result (λ t. t.step.close ≡ false → (rest.fault ≡ None)
            × StandsAt (option_copied called.entry.institution) self.new
            (pdu.Request request ∷ rest.pdus)) }
        ensures keeps { (self.new.number ≡ self.old.number) × (self.new.inbox ≡ self.old.inbox)
            × (self.new.query ≡ self.old.query) }
    {
        pdus_in_parts();
        self.titles = Some(Titles::of(&request));
        let answer = self.association.accept(request, called.verdict)?;
        if answer.close {
            return Ok(Taken {
                opening: Listed::empty(alloc),
                step: answer,
            });
        }
        self.institution = associated_name(
            alloc,
            called.institution,
            self.association.agreement(),
        )?;
        let pdus = rest.pdus.into_inner();
        let step = self.association.take_all(pdus, rest.fault)?;
        Ok(Taken {
            opening: answer.octets,
            step,
        })
    }
}

/// The institution of a slot.
fn institution_of<'a>(config: &'a Config, name: &Option<Listed<u8>>) -> Option<&'a Institution>
    ensures { option_copied result ≡ institution_at config.now name.now }
{
    match name {
        Some(name) => config.institution(name.as_slice()),
        None => None,
    }
}

/// The name of the institution that has a connection on which something is agreed.
fn associated_name(
    alloc: Global,
    institution: Option<&Institution>,
    agreement: Option<&Agreement>,
) -> Result<Option<Listed<u8>>, AllocError>
    ensures { IfOk result (λ name. name
        ≡ associated_institution (option_copied institution.entry) (option_copied agreement.entry)) }
{
    let (Some(institution), Some(_)) = (institution, agreement) else {
        return Ok(None);
    };
    Ok(Some(Listed::copy_of(alloc, institution.name.as_slice())?))
}

/// A step that answers nothing.
fn nothing(alloc: Global, close: bool) -> Step
    ensures { result ≡ record { messages = []; octets = []; close = close; end = None } }
{
    Step {
        messages: Listed::empty(alloc),
        octets: Listed::empty(alloc),
        close,
        end: None,
    }
}
