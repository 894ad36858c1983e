//! The outcomes for the octets that came from a connection.
ghost use Rattle.std.specs.Prelude.{◌≡◌, ℕ, List, map, string_bytes, IfOk, IfSome};
ghost use Rattle.dq_web.specs.Answers.{IsReplyTo, IsResponse};
ghost use Rattle.dq_web.specs.Guards.{IsProxy};
ghost use Rattle.dq_web.specs.ParsedRequests.{IsJudged};
ghost use Rattle.dq_web.specs.declared.guard.Guard.{Guard};
ghost use Rattle.dq_web.specs.Requests.{IsCutOff, IsRequest};
ghost use Rattle.dq_web.specs.declared.cutting.Cut.{Cut};
ghost use Rattle.dq_web.specs.declared.cutting.Cut.TheVariants as cut;
ghost use Rattle.dq_http.specs.RequestOutcomes.{unread_framing, IsFramed, IsGiven, IsGivenAs, IsAnswer, IsAwaited, IsOutcome, IsTooLate, IsBegunNoted};
ghost use Rattle.dq_http.specs.Places.{is_proxy};
ghost use Rattle.dq_http.specs.InstitutionLimits.{limits_of};

use crate::request_log::{UNREADABLE, has_address, words_of};
use dq_config::Institution;
use dq_list::Listed;
use dq_request::Response;
use dq_web::{
    Counters, Cut, Framing, Guard, Head, HttpRequest, Judgement, Keys, ParsedRequest, Question,
    Refusal, ResourceKind, Written, answered, ask, cut_off, document, healthy, judge, kind_at,
    misspelled, permitted, refused, unreadable,
};
use httpdate::HttpDate;
use std::alloc::{AllocError, Global};
use std::net::{IpAddr, SocketAddr};

/// The outcome for the octets that came from a connection.
#[derive(Drop)]
pub(crate) enum RequestOutcome {
    /// Nothing yet: a head is not whole.
    AwaitHead,
    /// Nothing yet: a head is let in, and its body has not come.
    AwaitBody,
    /// The client, whose head is let in, is told to go on.
    GoOn,
    /// A response is written, and nothing comes after it: the words of the request in the log, and it.
    Refuse(String, Written),
    /// A request of this extent is answered, the last one if that is said.
    Answer(Answer),
}

/// A request that is whole: its words in the log, its extent, whether it is the last one, and its
/// response, or what it asks of the server.
#[derive(Drop)]
pub(crate) struct Answer {
    pub words: String,
    pub extent: usize,
    pub is_last: bool,
    pub given: Given,
}

#[derive(Drop)]
pub(crate) enum Given {
    Response(Written),
    Question(Question),
}

/// The state that requests are answered by: the guard, the names and limits of institutions, and the
/// counts of what was served.
#[derive(Drop)]
pub struct HttpState {
    pub(crate) alloc: Global,
    guard: Guard,
    institutions: Vec<Institution>,
    counters: Counters,
}

/// How a response to octets is framed in which no head stands.
fn unread_framing(date: Option<HttpDate>) -> Framing
    ensures { result ≡ unread_framing date }
{
    Framing {
        is_last: true,
        is_head: false,
        date,
        viewer: None,
        kind: ResourceKind::Nowhere,
    }
}

/// The outcome for a head that is let in, and whose body has not come.
fn awaiting(head: &Head<'_>) -> RequestOutcome
    ensures { (guard : Guard) (came : List ℕ) → IsAwaited guard came head.now
        → IsOutcome guard came result }
{
    if head.is_expecting() {
        RequestOutcome::GoOn
    } else {
        RequestOutcome::AwaitBody
    }
}

/// Returns the parts of an institution that count here: its name and its limits.
fn limits_of(alloc: Global, institution: &Institution) -> Result<Institution, AllocError>
    ensures { IfOk result (λ known. known ≡ limits_of institution.now) }
{
    Ok(Institution {
        name: Listed::copy_of(alloc, institution.name.as_slice())?,
        routes: Listed::empty(alloc),
        studies: institution.studies,
        images: institution.images,
        entries: institution.entries,
        steps: institution.steps,
        associations: institution.associations,
    })
}

impl HttpState {
    /// Creates the state for institutions, behind a guard.
    pub fn new(
        alloc: Global,
        guard: Guard,
        institutions: &[Institution],
    ) -> Result<Self, AllocError>
        ensures guard { IfOk result (λ state. state.guard ≡ guard) }
        ensures limits { IfOk result (λ state.
            state.institutions.items ≡ map limits_of institutions.now) }
    {
        let mut known = Vec::new(alloc);
        for institution in institutions {
            known.push(limits_of(alloc, institution)?)?;
        }
        Ok(HttpState {
            alloc,
            guard,
            institutions: known,
            counters: Counters::default(),
        })
    }

    /// Takes the counts of what was served until now.
    pub(crate) fn set_counters(&mut self, counters: Counters)
        ensures { self.new ≡ record self.old { counters = counters } }
    {
        self.counters = counters;
    }

    /// Takes other keys in place of those that it has.
    pub(crate) fn set_keys(&mut self, keys: Keys)
        ensures { self.new ≡ record self.old { guard = record self.old.guard { keys = keys } } }
    {
        self.guard.keys = keys;
    }

    /// Returns the outcome for octets that came, at a time.
    pub(crate) fn outcome_for(
        &self,
        came: &[u8],
        date: Option<HttpDate>,
    ) -> Result<RequestOutcome, AllocError>
        ensures { IfOk result (IsOutcome self.now.guard came.now) }
    {
        match cut_off(came) {
            Cut::Unfinished => Ok(RequestOutcome::AwaitHead),
            Cut::Begun(head) => self.outcome_for_head(&head, date),
            Cut::Refused(refusal) => {
                let framing = unread_framing(date);
                let words = String::from_str(self.alloc, UNREADABLE)?;
                Ok(RequestOutcome::Refuse(words, refused(self.alloc, refusal, &framing)?))
            }
            Cut::Whole(request) => Ok(RequestOutcome::Answer(self.answer_to(&request, date)?)),
        }
    }

    /// How a response to a head is framed.
    fn framing_of(
        &self,
        head: &Head<'_>,
        is_last: bool,
        date: Option<HttpDate>,
    ) -> Result<Framing, AllocError>
        ensures { IfOk result (IsFramed self.now.guard head.now is_last) }
    {
        Ok(Framing {
            is_last,
            is_head: head.is_head(),
            date,
            viewer: self.guard.viewer_of(self.alloc, &head.fields)?,
            kind: kind_at(head),
        })
    }

    /// Returns the outcome for a head whose body has not come.
    fn outcome_for_head(
        &self,
        head: &Head<'_>,
        date: Option<HttpDate>,
    ) -> Result<RequestOutcome, AllocError>
        ensures { (came : List ℕ) → IsCutOff came (cut.Begun head.now)
            → IfOk result (IsOutcome self.now.guard came) }
    {
        let framing = self.framing_of(head, true, date)?;
        match judge(self.alloc, &self.guard, head)? {
            Judgement::Refused(refusal) => {
                let words = words_of(self.alloc, &[], head)?;
                Ok(RequestOutcome::Refuse(words, refused(self.alloc, refusal, &framing)?))
            }
            Judgement::Open { .. } => Ok(awaiting(head)),
            Judgement::Opened { .. } => Ok(awaiting(head)),
        }
    }

    /// The response to a request that did not come in the time that it has.
    pub(crate) fn too_late(&self, date: Option<HttpDate>) -> Result<Written, AllocError>
        ensures { IfOk result (IsTooLate date) }
    {
        refused(self.alloc, Refusal::Time, &unread_framing(date))
    }

    /// Returns the address from which the request at the front of octets came, as the proxy says it.
    pub(crate) fn forwarded(&self, peer: Option<SocketAddr>, came: &[u8]) -> Option<IpAddr>
        ensures { IfSome result (λ _. IsProxy self.now.guard.proxy peer) }
    {
        if !self.guard.is_proxy(peer) {
            return None;
        }
        match cut_off(came) {
            Cut::Begun(head) => self.guard.forwarded(peer, &head.fields),
            Cut::Whole(request) => self.guard.forwarded(peer, &request.head.fields),
            Cut::Unfinished | Cut::Refused(_) => None,
        }
    }

    /// Whether a peer is the proxy.
    pub(crate) fn is_proxy(&self, peer: Option<SocketAddr>) -> bool
        ensures { result ≡ is_proxy self.now.guard.proxy peer }
    {
        match self.guard.proxy {
            Some(proxy) => has_address(peer, proxy),
            None => false,
        }
    }

    /// The words in the log of a request that has not come whole.
    pub(crate) fn words_of_begun(&self, came: &[u8]) -> Result<String, AllocError>
        ensures { IfOk result (λ words. (begun : Cut) × IsCutOff came.now begun
            × IsBegunNoted self.now.guard begun (string_bytes words)) }
    {
        match cut_off(came) {
            Cut::Begun(head) => {
                let judgement = judge(self.alloc, &self.guard, &head)?;
                words_of(self.alloc, judgement.label(), &head)
            }
            _ => String::from_str(self.alloc, UNREADABLE),
        }
    }

    /// Returns what a request is given by what it asks.
    fn given_for(
        &self,
        judgement: Judgement<'_>,
        request: &HttpRequest<'_>,
        framing: Framing,
    ) -> Result<Given, AllocError>
        ensures { (guard : Guard) → IsJudged guard request.now.head judgement.entry
            → IfOk result (IsGiven guard request.now framing) }
    {
        let alloc = self.alloc;
        match ask(alloc, judgement, request)? {
            ParsedRequest::Refused(refusal) => {
                Ok(Given::Response(refused(alloc, refusal, &framing)?))
            }
            ParsedRequest::Misspelled(word) => {
                Ok(Given::Response(misspelled(alloc, word.as_str(), &framing)?))
            }
            ParsedRequest::Unreadable(fault) => {
                Ok(Given::Response(unreadable(alloc, fault, &framing)?))
            }
            ParsedRequest::Document(which) => {
                Ok(Given::Response(document(alloc, which, &framing)?))
            }
            ParsedRequest::Health => Ok(Given::Response(healthy(alloc, &framing)?)),
            ParsedRequest::Preflight => Ok(Given::Response(permitted(alloc, &framing)?)),
            ParsedRequest::Question(mut question) => {
                question.framing = framing;
                Ok(Given::Question(question))
            }
        }
    }

    /// Returns what a request is given by the judgement of its head.
    fn given_as(
        &self,
        judgement: Judgement<'_>,
        request: &HttpRequest<'_>,
        framing: Framing,
    ) -> Result<Given, AllocError>
        ensures { (guard : Guard) → IsJudged guard request.now.head judgement.entry
            → IfOk result (IsGivenAs judgement.entry guard request.now framing) }
    {
        match judgement {
            Judgement::Refused(refusal) => {
                Ok(Given::Response(refused(self.alloc, refusal, &framing)?))
            }
            Judgement::Open { .. } => self.given_for(judgement, request, framing),
            Judgement::Opened { .. } => self.given_for(judgement, request, framing),
        }
    }

    /// The answer to a request that is whole.
    fn answer_to(
        &self,
        request: &HttpRequest<'_>,
        date: Option<HttpDate>,
    ) -> Result<Answer, AllocError>
        ensures { (came : List ℕ) → IsRequest came request.now
            → IfOk result (IsAnswer self.now.guard came) }
    {
        let is_last = request.head.is_last;
        let framing = self.framing_of(&request.head, is_last, date)?;
        let judgement = judge(self.alloc, &self.guard, &request.head)?;
        Ok(Answer {
            words: words_of(self.alloc, judgement.label(), &request.head)?,
            extent: request.extent,
            is_last,
            given: self.given_as(judgement, request, framing)?,
        })
    }

    /// The response of HTTP to a question that is answered so.
    pub(crate) fn response_to(
        &self,
        question: &Question,
        response: &Response,
    ) -> Result<Written, AllocError>
        ensures { IfOk result (IsResponse (IsReplyTo question.now response.now
            self.now.institutions.items) question.now.framing) }
    {
        let institutions = self.institutions.as_slice();
        answered(self.alloc, question, response, institutions, &self.counters)
    }
}
