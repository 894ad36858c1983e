//! A connection of the web front.
ghost use Rattle.std.specs.Prelude.{◌≡◌, Some, option_copied, string_bytes, IfOk, OnErr, OnOk};
ghost use Rattle.std.specs.Bool.{OnTrue};
ghost use Rattle.dq_web.specs.Answers.{IsReplyTo, IsResponse};
ghost use Rattle.dq_http.specs.HttpConnections.{IsNew, IsNoted, IsNotedOr, IsOver, IsRest, WritesRest, IsSent, IsRead, IsTakenOff, with_response, AnswersAt, seen, awaiting_body, begun_wait, is_late, IsSender, IsRefusedLate, TakesAnswer, Takes, TakesFront, is_to_take, TakesUp, TakesOrRefuses, Moves, Turns, is_waiting, is_busy, asked_in, asks_report};
ghost use Rattle.dq_http.specs.Places.{is_of, is_idle};

use crate::http_state::{Answer, Given, HttpState, RequestOutcome};
use crate::request_log::{Notes, Sender, has_address};
use dq_list::Listed;
use dq_request::{Request, Response};
use dq_web::{Question, Status, Written};
use dq_wires::{ReadTurn, WireFault, Wires};
use std::alloc::{AllocError, Global};
use std::net::{IpAddr, SocketAddr};
use std::time::Instant;

/// The seconds in which the head of a request has to come, from the first octet of it, and of the first
/// request from when the connection came.
const HEAD_SECONDS: u64 = 15;

/// The seconds in which its body has to come, from the end of its head.
const BODY_SECONDS: u64 = 60;

/// The response that a client waits for if it asks to go on with the body of its request (RFC 9110
/// section 10.1.1).
const CONTINUE: &[u8] = b"HTTP/1.1 100 Continue\r\n\r\n";

/// The stage of a connection's request.
#[derive(Drop)]
pub(crate) enum Stage {
    /// It is read.
    Reading,
    /// It waits for the server's response.
    Waiting(Question),
    /// A response is written: so many of its octets were.
    Writing(Listed<u8>, usize),
    /// The last response was written: nothing is read behind it (RFC 9112 section 9.6).
    Over,
}

/// A connection: its place among the wires, the sender of its request, what came and is not
/// taken, what becomes of its request, and whether nothing comes after the response.
#[derive(Drop)]
pub(crate) struct HttpConnection {
    pub place: usize,
    pub peer: Sender,
    pub came: Vec<u8>,
    pub stage: Stage,
    pub is_last: bool,
    /// The octets that came have not been looked at since the last of them.
    pub is_fresh: bool,
    /// The client was told to go on with the body of its request.
    pub is_continued: bool,
    /// The head of its request is whole, and its body has not come.
    pub awaits_body: bool,
    /// When the wait for its head or for its body began, if one is waited for.
    pub since: Option<Instant>,
    /// The words of its request in the log, and when that was whole.
    pub words: String,
    pub begun: Option<Instant>,
}

impl HttpConnection {
    /// One that has just come, at an instant if it is known.
    pub fn new(alloc: Global, place: usize, peer: Option<SocketAddr>, now: Option<Instant>) -> Self
        ensures comes { IsNew place peer result }
        ensures since { result.since ≡ now }
    {
        HttpConnection {
            place,
            peer: Sender::direct(peer),
            came: Vec::new(alloc),
            stage: Stage::Reading,
            is_last: false,
            is_fresh: false,
            is_continued: false,
            awaits_body: false,
            since: now,
            words: String::new(alloc),
            begun: None,
        }
    }

    /// Whether its peer has an address.
    pub fn is_of(&self, address: IpAddr) -> bool
        ensures { result ≡ is_of address self.now }
    {
        has_address(self.peer.address, address)
    }

    /// Whether its last request was answered, and nothing of the next one has come.
    pub fn is_idle(&self) -> bool
        ensures { result ≡ is_idle self.now }
    {
        matches!(self.stage, Stage::Reading) && self.came.is_empty() && self.since.is_none()
    }

    /// Whether its request waits for the server's response.
    pub fn is_waiting(&self) -> bool
        ensures { result ≡ is_waiting self.now }
    {
        matches!(self.stage, Stage::Waiting(_))
    }

    /// Returns the request whose answer it waits for.
    pub fn asked(&self) -> Option<&Request>
        ensures { option_copied result ≡ asked_in self.now.stage }
    {
        match &self.stage {
            Stage::Waiting(question) => Some(&question.asked),
            Stage::Reading | Stage::Writing(..) | Stage::Over => None,
        }
    }

    /// Whether it waits for a report of the counts.
    pub fn wants_counts(&self) -> bool
        ensures { result ≡ asks_report self.now }
    {
        matches!(self.asked(), Some(Request::Report))
    }

    /// Whether there is something to do that no octet has to come for.
    pub fn is_busy(&self) -> bool
        ensures { result ≡ is_busy self.now }
    {
        match self.stage {
            Stage::Reading => self.is_fresh,
            Stage::Waiting(_) | Stage::Over => true,
            Stage::Writing(..) => false,
        }
    }

    /// Keeps a response to be written.
    fn put(&mut self, octets: Vec<u8>)
        ensures { self.new ≡ with_response self.old octets.items }
    {
        self.stage = Stage::Writing(Listed::from_inner(octets), 0);
    }

    /// Notes the status of the response to its request, or that there is no memory for one.
    pub fn tell(&self, status: Option<Status>, notes: &mut Notes) -> Result<(), AllocError>
        ensures line { OnOk result (IsNoted self.now notes.old notes.new status) }
        ensures lost { OnErr result (string_bytes notes.new.lines ≡ string_bytes notes.old.lines) }
    {
        notes.tell(self.peer, self.words.as_str(), self.begun, status)
    }

    // The response of HTTP to its question, whose status is noted.
    fn response_to(
        &self,
        question: &Question,
        response: &Response,
        state: &HttpState,
        notes: &mut Notes,
    ) -> Result<Written, AllocError>
        ensures response { IfOk result (IsResponse (IsReplyTo question.now response.now
            state.now.institutions.items) question.now.framing) }
        ensures noted { IfOk result (λ written.
            IsNoted self.now notes.old notes.new (Some written.status)) }
        ensures lost { OnErr result (string_bytes notes.new.lines ≡ string_bytes notes.old.lines) }
    {
        let written = state.response_to(question, response)?;
        self.tell(Some(written.status), notes)?;
        notes.count(&written);
        Ok(written)
    }

    /// Answers its question, if one waits, and notes that. Where there is no memory for the response, none is
    /// written, and the connection is over. An error says that there is no memory for the note of that.
    pub fn answer(
        &mut self,
        response: &Response,
        state: &HttpState,
        notes: &mut Notes,
    ) -> Result<(), AllocError>
        ensures { AnswersAt state.now.institutions.items self.old.stage response.now
            (IsNotedOr result self.old notes.old notes.new) self.old self.new }
    {
        let Stage::Waiting(question) = &self.stage else {
            return Ok(());
        };
        match self.response_to(question, response, state, notes) {
            Ok(written) => {
                self.put(written.octets);
                Ok(())
            }
            Err(AllocError) => {
                self.stage = Stage::Over;
                self.tell(None, notes)
            }
        }
    }

    /// Returns the rest of its response.
    fn rest(&self) -> Option<&[u8]>
        ensures { IsRest self.now.stage result }
    {
        let Stage::Writing(response, written) = &self.stage else {
            return None;
        };
        match response.as_slice().split_at_checked(*written) {
            Some((_, rest)) => Some(rest),
            None => None,
        }
    }

    /// Writes what is left of its response at its own place. The answer is whether the connection is still
    /// there: it is not once the last response was written.
    fn write<W: Wires>(&mut self, wires: &mut W) -> bool
        ensures told { WritesRest self.old.place self.old.stage (W.log wires.old) (W.log wires.new) }
        ensures wrote { OnTrue result (Moves self.old.stage self.old self.new) }
    {
        let Some(rest) = self.rest() else {
            return false;
        };
        let left = rest.len();
        match wires.write(self.place, rest) {
            Ok(count) => {
                self.advance(count, count >= left);
                !matches!(self.stage, Stage::Over)
            }
            Err(WireFault) => false,
        }
    }

    /// Counts octets that were written, the last ones of the response if that is said.
    fn advance(&mut self, count: usize, is_whole: bool)
        ensures { IsSent self.old self.new }
    {
        let Stage::Writing(_, written) = &mut self.stage else {
            return;
        };
        if !is_whole {
            *written = written.saturating_add(count);
        } else if self.is_last {
            self.stage = Stage::Over;
        } else {
            self.stage = Stage::Reading;
        }
    }

    /// Reads what came. The answer is whether the connection is still there.
    fn read<W: Wires>(&mut self, wires: &mut W, buffer: &mut [u8]) -> Result<bool, AllocError>
        ensures over { IsOver self.old.stage → (self.new ≡ self.old) × (wires.new ≡ wires.old) }
        ensures came { IfOk result (λ there. OnTrue there (IsRead self.old self.new)) }
    {
        if let Stage::Over = self.stage {
            return Ok(false);
        }
        match wires.read(self.place, buffer) {
            Ok(ReadTurn::Got(count)) => {
                let Some(came) = buffer.get(..count) else {
                    return Ok(false);
                };
                self.is_fresh = true;
                self.came.extend_from_slice(came)?;
                Ok(true)
            }
            Ok(ReadTurn::Nothing) => Ok(true),
            Ok(ReadTurn::Ended) | Err(WireFault) => Ok(false),
        }
    }

    /// Takes off the octets of a request that is whole.
    fn take_off(&mut self, extent: usize) -> Result<(), AllocError>
        ensures { OnOk result (IsTakenOff extent self.old self.new) }
    {
        let end = extent.min(self.came.len());
        let rest = self.came.split_off(end)?;
        self.came = rest;
        self.is_fresh = !self.came.is_empty();
        self.is_continued = false;
        self.awaits_body = false;
        self.since = None;
        Ok(())
    }

    // Takes the answer to the request that stands at the front of what came.
    fn take(&mut self, answer: Answer, notes: &mut Notes) -> Result<(), AllocError>
        ensures { OnOk result (TakesAnswer answer self.old self.new) }
    {
        self.take_off(answer.extent)?;
        self.is_last = answer.is_last;
        self.words = answer.words;
        self.begun = notes.now();
        match answer.given {
            Given::Response(written) => {
                notes.count(&written);
                self.tell(Some(written.status), notes)?;
                self.put(written.octets);
            }
            Given::Question(question) => self.stage = Stage::Waiting(question),
        }
        Ok(())
    }

    // Waits for the body of its request, from now on or since before.
    fn await_body(&mut self, now: Option<Instant>)
        ensures { self.new ≡ awaiting_body now (seen self.old) }
    {
        self.is_fresh = false;
        if !self.awaits_body {
            self.awaits_body = true;
            self.since = now;
        }
    }

    // Tells the client to go on, once.
    fn go_on(&mut self, alloc: Global, now: Option<Instant>) -> Result<(), AllocError>
        ensures { OnOk result (Takes now RequestOutcome.GoOn self.old self.new) }
    {
        self.await_body(now);
        if self.is_continued {
            return Ok(());
        }
        self.is_continued = true;
        self.put(Vec::from_slice(alloc, CONTINUE)?);
        Ok(())
    }

    // Reads from where its request came, as a proxy says it.
    fn read_sender(&mut self, state: &HttpState)
        ensures { IsSender state.now.guard.proxy self.old self.new }
    {
        self.peer.forwarded = state.forwarded(self.peer.address, self.came.as_slice());
    }

    // Does what is to be done for what came.
    fn take_front(
        &mut self,
        state: &HttpState,
        notes: &mut Notes,
        now: Option<Instant>,
    ) -> Result<(), AllocError>
        ensures { OnOk result (TakesFront state.now.guard now self.old self.new) }
    {
        match state.outcome_for(self.came.as_slice(), notes.date())? {
            RequestOutcome::AwaitHead => self.is_fresh = false,
            RequestOutcome::AwaitBody => self.await_body(now),
            RequestOutcome::GoOn => self.go_on(state.alloc, now)?,
            RequestOutcome::Refuse(words, written) => {
                let begun = notes.now();
                notes.count(&written);
                notes.tell(self.peer, words.as_str(), begun, Some(written.status))?;
                self.is_fresh = false;
                self.is_last = true;
                self.put(written.octets);
            }
            RequestOutcome::Answer(answer) => self.take(answer, notes)?,
        }
        Ok(())
    }

    // Whether a request is read, and something came that was not looked at.
    fn is_to_take(&self) -> bool
        ensures { result ≡ is_to_take self.now }
    {
        self.is_fresh && matches!(self.stage, Stage::Reading)
    }

    // Takes up what came, where a request is read and there is something new.
    fn take_up(
        &mut self,
        state: &HttpState,
        notes: &mut Notes,
        now: Option<Instant>,
    ) -> Result<(), AllocError>
        ensures { OnOk result (TakesUp state.now.guard now self.old self.new) }
    {
        if !self.is_to_take() {
            return Ok(());
        }
        self.read_sender(state);
        self.take_front(state, notes, now)?;
        Ok(())
    }

    // A response is written, or what comes is read. The answer is whether the connection is still there.
    fn moves<W: Wires>(&mut self, wires: &mut W, buffer: &mut [u8]) -> Result<bool, AllocError>
        ensures { IfOk result (λ there. OnTrue there (Moves self.old.stage self.old self.new)) }
    {
        match self.stage {
            Stage::Writing(..) => Ok(self.write(wires)),
            Stage::Reading if self.is_fresh => Ok(true),
            Stage::Reading => self.read(wires, buffer),
            Stage::Waiting(_) => Ok(true),
            Stage::Over => Ok(false),
        }
    }

    // The first octets of a request have come.
    fn begin_wait(&mut self, now: Option<Instant>)
        ensures { self.new ≡ begun_wait now self.old }
    {
        if self.since.is_none() && !self.came.is_empty() {
            self.since = now;
        }
    }

    // Whether the head or the body that it waits for has not come in the time that it has. What has just come
    // is looked at first: it may have waited for the server.
    fn is_late(&self, now: Option<Instant>) -> bool
        ensures { result ≡ is_late now self.now }
    {
        let seconds = if self.awaits_body {
            BODY_SECONDS
        } else {
            HEAD_SECONDS
        };
        match (now, self.since) {
            (Some(now), Some(since)) => {
                now.duration_since(since).as_secs() >= seconds
                    && matches!(self.stage, Stage::Reading)
                    && !self.is_fresh
            }
            _ => false,
        }
    }

    // Refuses a request that is late.
    fn refuse_late(&mut self, state: &HttpState, notes: &mut Notes) -> Result<(), AllocError>
        ensures { OnOk result (IsRefusedLate state.now.guard.proxy self.old self.new) }
    {
        self.read_sender(state);
        let words = state.words_of_begun(self.came.as_slice())?;
        let written = state.too_late(notes.date())?;
        notes.count(&written);
        notes.tell(self.peer, words.as_str(), self.since, Some(written.status))?;
        self.is_fresh = false;
        self.is_last = true;
        self.put(written.octets);
        Ok(())
    }

    // Takes up what came, or refuses what is late.
    fn take_or_refuse(
        &mut self,
        state: &HttpState,
        notes: &mut Notes,
        now: Option<Instant>,
    ) -> Result<(), AllocError>
        ensures { OnOk result (TakesOrRefuses state.now.guard now self.old self.new) }
    {
        if self.is_late(now) {
            self.refuse_late(state, notes)
        } else {
            self.take_up(state, notes, now)
        }
    }

    // Its turn at an instant, for which there may be no memory.
    fn try_turn<W: Wires>(
        &mut self,
        wires: &mut W,
        buffer: &mut [u8],
        state: &HttpState,
        notes: &mut Notes,
        now: Option<Instant>,
    ) -> Result<bool, AllocError>
        ensures { IfOk result (λ there. OnTrue there (Turns state.now.guard now self.old self.new)) }
    {
        let is_there = self.moves(wires, buffer)?;
        if !is_there {
            return Ok(false);
        }
        if self.is_late(now) && self.came.is_empty() {
            return Ok(false);
        }
        self.begin_wait(now);
        self.take_or_refuse(state, notes, now)?;
        Ok(true)
    }

    /// Its turn at an instant: a response is written, or what comes is read, and taken up, unless it is
    /// late. The answer is whether the connection is still there: one on which nothing has come in the
    /// time that a head has is not, nor one for which there is no memory, as is noted.
    pub fn turn<W: Wires>(
        &mut self,
        wires: &mut W,
        buffer: &mut [u8],
        state: &HttpState,
        notes: &mut Notes,
        now: Option<Instant>,
    ) -> bool
        ensures { OnTrue result (Turns state.now.guard now self.old self.new) }
    {
        match self.try_turn(wires, buffer, state, notes, now) {
            Ok(is_there) => is_there,
            Err(AllocError) => {
                self.read_sender(state);
                let _ = notes.tell_unread(self.peer, self.since);
                false
            }
        }
    }
}
