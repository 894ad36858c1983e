//! The console: orders of the worklist, reports, copies of the store and searches, that are asked for
//! by lines over wires of their own; and the requests of a web front.
ghost use Rattle.std.specs.Prelude.{◌≡◌, [], option_map, string_bytes, IfOk, IfErr, OnOk, OnErr};
ghost use Rattle.dq_request.specs.declared.request.Request.{Request};
ghost use Rattle.dq_console.specs.Requests.{GoesOn};
ghost use Rattle.dq_console.specs.RequestNotes.{is_bad, IsNameNoted, NotesRequest, NotesLine};
ghost use Rattle.dq_console.specs.ClientTurns.{Does, Halted, HaltedAt, IsNotObeyed, IsNotAnswered, ClientTurnMade, Visited, AllVisited, SomeVisited, LineAnswered, LineUnanswered, Responds, RespondedBy, Attends, Interrupted, LetsIn, IsReread, IsFrontServed, HasFrontTurn};

use crate::answer_error::AnswerError;
use crate::asks::Asks;
use crate::backup::Backups;
use crate::console_client::{ConsoleClient, Next};
use crate::console_line::{
    BAD_LINE, ConsoleLine, keys_text, line_in, misspelled_text, response_text,
};
use crate::requests::serve;
use dq_core::Fault;
use dq_list::Listed;
use dq_request::{Request, Response};
use dq_tables::Tables;
use dq_wires::laws::{calls_are_a_serving, servings_are_answered, steps_are_a_history};
use dq_wires::{READ_MOST, Turner, WireFault, Wires};
use std::alloc::{AllocError, Global};
use std::mem;

/// The most clients at a time.
const MOST_CLIENTS: usize = 8;

fn is_bad(line: &ConsoleLine) -> bool
    ensures { result ≡ is_bad line.now }
{
    matches!(line, ConsoleLine::Bad)
}

/// The name of an institution in a note, and `-` if it is no text.
fn noted_name(octets: &[u8]) -> &str
    ensures { IsNameNoted octets.now result.now }
{
    match str::from_utf8(octets) {
        Ok(name) => name,
        Err(_) => "-",
    }
}

/// Returns the note of a request before its answer: an order's word and institution, or the word of
/// a copy. There is no note of counts, nor of a search. An entry is not told, nor whose it is.
fn request_note(alloc: Global, request: &Request) -> Result<Option<String>, AllocError>
    ensures { IfOk result (λ note. NotesRequest request.now (option_map string_bytes note)) }
{
    match request {
        Request::Schedule { institution, .. } => {
            let name = noted_name(institution.as_slice());
            Ok(Some(format!(in alloc; "schedule {name} ")?))
        }
        Request::Withdraw { institution, .. } => {
            let name = noted_name(institution.as_slice());
            Ok(Some(format!(in alloc; "withdraw {name} ")?))
        }
        Request::Backup(_) => Ok(Some(String::from_str(alloc, "backup ")?)),
        Request::Search(_) | Request::Counts(_) | Request::Report => Ok(None),
    }
}

/// Returns the note of a line before its answer.
fn line_note(alloc: Global, line: &ConsoleLine) -> Result<Option<String>, AllocError>
    ensures { IfOk result (λ note. NotesLine line.now (option_map string_bytes note)) }
{
    match line {
        ConsoleLine::Asked(request) => request_note(alloc, request),
        ConsoleLine::Keys => Ok(Some(String::from_str(alloc, "keys ")?)),
        ConsoleLine::Misspelled(_) => Ok(None),
        ConsoleLine::Bad => Ok(Some(String::new(alloc))),
    }
}

// Adds a note with the answer, unless there is no memory for it.
fn keep_note(notes: &mut String, note: Option<String>, answer: &[u8]) -> Result<(), AllocError> {
    if let Some(note) = note {
        notes.push_str(note.as_str())?;
        notes.push_str(str::from_utf8(answer).unwrap_or("\n"))?;
    }
    Ok(())
}

/// The part of the console that attends to clients: its wires, the names of the institutions, and
/// notes of what it did.
#[derive(Drop)]
pub struct ConsoleHandler<W> {
    alloc: Global,
    pub wires: W,
    pub names: Vec<Listed<u8>>,
    buffer: Vec<u8>,
    notes: String,
}

impl<W: Wires + Drop> ConsoleHandler<W> {
    /// Returns the answer to a line, once what it asks is done.
    #[tactic(auto, using(crate::proofs::Rereading::reread_none, crate::proofs::Rereading::reread_one))]
    fn answer_to<T: Tables, B: Backups<T>, F: Asks>(
        &self,
        turner: &mut Turner<T>,
        backups: &B,
        front: &mut F,
        line: &ConsoleLine,
    ) -> Result<Vec<u8>, AnswerError>
        ensures answered { IfOk result (λ text. LineAnswered T.state (B.copied backups.now)
            self.now.names.items (F.rereads front.old front.new) turner.old.server turner.new.server
            line.now text.items) }
        ensures hold { turner.new.hold ≡ turner.old.hold }
        ensures fault { GoesOn result (turner.new.fault ≡ turner.old.fault) }
        ensures front { IsReread F.rereads front.old front.new }
        ensures cut { IfErr result
            (LineUnanswered T.state turner.old.server turner.new.server line.now) }
    {
        match line {
            ConsoleLine::Asked(request) => {
                let names = self.names.as_slice();
                let response = serve(self.alloc, turner, backups, names, request)?;
                Ok(response_text(self.alloc, &response)?)
            }
            ConsoleLine::Keys => Ok(keys_text(self.alloc, front.read_keys())?),
            ConsoleLine::Misspelled(word) => Ok(misspelled_text(self.alloc, word.as_str())?),
            ConsoleLine::Bad => Ok(Vec::from_slice(self.alloc, BAD_LINE.as_bytes())?),
        }
    }

    // Does what a line tells, and gives the client its answer. The first bad line is the last that
    // is taken of a client.
    #[tactic(auto, using(crate::proofs::Rereading::reread_none))]
    fn obey<T: Tables, B: Backups<T>, F: Asks>(
        &mut self,
        client: &mut ConsoleClient,
        octets: &[u8],
        turner: &mut Turner<T>,
        backups: &B,
        front: &mut F,
    ) -> Result<(), AnswerError>
        ensures does { OnOk result (Does T.state self.old.names.items turner.old turner.new
            octets.now client.old client.new (F.rereads front.old front.new)) }
        ensures front { IsReread F.rereads front.old front.new }
        ensures wires { self.new.wires ≡ self.old.wires }
        ensures names { self.new.names.items ≡ self.old.names.items }
        ensures cut { IfErr result (IsNotObeyed T.state turner.old turner.new octets.now) }
    {
        calls_are_a_serving::<T>();
        steps_are_a_history::<T>();
        servings_are_answered::<T>();
        let line = line_in(self.alloc, octets)?;
        let note = line_note(self.alloc, &line)?;
        let is_last = is_bad(&line);
        let answer = self.answer_to(turner, backups, front, &line)?;
        let _ = keep_note(&mut self.notes, note, answer.as_slice());
        client.put(answer, is_last);
        Ok(())
    }

    // Answers a request.
    fn respond<T: Tables, B: Backups<T>>(
        &mut self,
        request: &Request,
        turner: &mut Turner<T>,
        backups: &B,
    ) -> Result<Response, AnswerError>
        ensures answers { IfOk result (Responds T.state self.old.names.items turner.old turner.new
            request.now) }
        ensures wires { self.new.wires ≡ self.old.wires }
        ensures names { self.new.names.items ≡ self.old.names.items }
        ensures cut { IfErr result (IsNotAnswered T.state turner.old turner.new request.now) }
    {
        calls_are_a_serving::<T>();
        steps_are_a_history::<T>();
        servings_are_answered::<T>();
        let note = request_note(self.alloc, request)?;
        let response = serve(self.alloc, turner, backups, self.names.as_slice(), request)?;
        if note.is_some() {
            let answer = response_text(self.alloc, &response)?;
            let _ = keep_note(&mut self.notes, note, answer.as_slice());
        }
        Ok(response)
    }

    // The turn of a client, but for its shut. The answer is whether it is still there: one for whose
    // line or answer there is no memory is not.
    #[tactic(auto, using(crate::proofs::Rereading::reread_none))]
    fn client_turn<T: Tables, B: Backups<T>, F: Asks>(
        &mut self,
        client: &mut ConsoleClient,
        turner: &mut Turner<T>,
        backups: &B,
        front: &mut F,
    ) -> Result<bool, Fault>
        ensures front { IsReread F.rereads front.old front.new }
        ensures went { IfOk result (ClientTurnMade T.state self.old.names.items (W.log self.old.wires)
            (W.log self.new.wires) turner.old turner.new client.old client.new) }
        ensures names { self.new.names.items ≡ self.old.names.items }
        ensures cut { OnErr result (HaltedAt T.state (W.log self.old.wires)
            (W.log self.new.wires) turner.old turner.new client.old) }
    {
        match client.next(&mut self.wires, self.buffer.as_mut_slice()) {
            Next::Held => Ok(true),
            Next::Left => Ok(false),
            Next::Line(octets) => {
                match self.obey(client, octets.as_slice(), turner, backups, front) {
                    Ok(()) => Ok(client.send(&mut self.wires)),
                    Err(AnswerError::NoMemory) => Ok(false),
                    Err(AnswerError::Server(fault)) => Err(fault),
                }
            }
        }
    }

    // The turn of a client, which is let go if it is gone.
    fn visit<T: Tables, B: Backups<T>, F: Asks>(
        &mut self,
        client: &mut ConsoleClient,
        turner: &mut Turner<T>,
        backups: &B,
        front: &mut F,
    ) -> Result<bool, Fault>
        ensures front { IsReread F.rereads front.old front.new }
        ensures went { IfOk result (Visited T.state self.old.names.items (W.log self.old.wires)
            (W.log self.new.wires) turner.old turner.new client.old client.new) }
        ensures names { self.new.names.items ≡ self.old.names.items }
        ensures cut { OnErr result (HaltedAt T.state (W.log self.old.wires)
            (W.log self.new.wires) turner.old turner.new client.old) }
    {
        let place = client.place();
        if self.client_turn(client, turner, backups, front)? {
            return Ok(true);
        }
        let _ = self.wires.shut(place);
        Ok(false)
    }
}

/// The console of a server, with those who call it, and its web front.
#[derive(Drop)]
pub struct Console<W, F> {
    pub handler: ConsoleHandler<W>,
    pub clients: Vec<ConsoleClient>,
    pub front: F,
}

impl<W: Wires + Drop, F: Asks + Drop> Console<W, F> {
    /// Creates a console without clients, over wires, for the institutions with these names.
    pub fn new(
        alloc: Global,
        wires: W,
        front: F,
        names: Vec<Listed<u8>>,
    ) -> Result<Self, AllocError>
        ensures wires { IfOk result (λ console. console.handler.wires ≡ wires) }
        ensures names { IfOk result (λ console. console.handler.names.items ≡ names.items) }
        ensures clients { IfOk result (λ console. console.clients.items ≡ []) }
        ensures front { IfOk result (λ console. console.front ≡ front) }
    {
        let mut buffer = Vec::new(alloc);
        buffer.resize(READ_MOST, 0)?;
        Ok(Console {
            handler: ConsoleHandler {
                alloc,
                wires,
                names,
                buffer,
                notes: String::new(alloc),
            },
            clients: Vec::new(alloc),
            front,
        })
    }

    /// The notes of the orders and bad lines since it was last asked, a line each.
    pub fn take_notes(&mut self) -> String
        ensures wires { self.new.handler.wires ≡ self.old.handler.wires }
        ensures names { self.new.handler.names.items ≡ self.old.handler.names.items }
        ensures clients { self.new.clients.items ≡ self.old.clients.items }
        ensures front { self.new.front ≡ self.old.front }
    {
        mem::replace(&mut self.handler.notes, String::new(self.handler.alloc))
    }

    // Lets a client in where there is room. One for whom there is no memory is let go.
    fn let_in(&mut self)
        ensures lets { LetsIn (W.log self.old.handler.wires) (W.log self.new.handler.wires)
            self.old.clients.items self.new.clients.items }
        ensures names { self.new.handler.names.items ≡ self.old.handler.names.items }
        ensures front { self.new.front ≡ self.old.front }
    {
        if self.clients.len() >= MOST_CLIENTS {
            return;
        }
        let place = match self.handler.wires.accept() {
            Ok(Some(place)) => place,
            Ok(None) => return,
            Err(WireFault) => return,
        };
        let client = ConsoleClient::new(self.handler.alloc, place);
        if self.clients.push(client).is_ok() {
            return;
        }
        let _ = self.handler.wires.shut(place);
    }

    // The turns of the clients, in order.
    fn attend<T: Tables, B: Backups<T>>(
        &mut self,
        turner: &mut Turner<T>,
        backups: &B,
    ) -> Result<(), Fault>
        ensures went { OnOk result (AllVisited T.state self.old.handler.names.items
            (W.log self.old.handler.wires) (W.log self.new.handler.wires) turner.old turner.new
            self.old.clients.items self.new.clients.items) }
        ensures names { OnOk result (self.new.handler.names.items ≡ self.old.handler.names.items) }
        ensures front { OnOk result (IsReread F.rereads self.old.front self.new.front) }
        ensures cut { OnErr result (SomeVisited T.state self.old.handler.names.items
            (W.log self.old.handler.wires) (W.log self.new.handler.wires) turner.old turner.new
            self.old.clients.items) }
    {
        let mut at = 0;
        while at < self.clients.len() {
            let client = &mut self.clients[at];
            if self
                .handler
                .visit(client, turner, backups, &mut self.front)?
            {
                at += 1;
            } else {
                let _ = self.clients.remove(at);
            }
        }
        Ok(())
    }

    // Answers the request of the web front that waits, if one does. If there is no memory for the
    // answer, who asks it is let go.
    fn respond<T: Tables, B: Backups<T>>(
        &mut self,
        turner: &mut Turner<T>,
        backups: &B,
    ) -> Result<(), Fault>
        ensures went { OnOk result (RespondedBy T.state self.old.handler.names.items turner.old turner.new
            (IsFrontServed F.waiting F.answers F.lets_go self.old.front self.new.front)) }
        ensures wires { OnOk result (self.new.handler.wires ≡ self.old.handler.wires) }
        ensures names { OnOk result (self.new.handler.names.items ≡ self.old.handler.names.items) }
        ensures clients { OnOk result (self.new.clients.items ≡ self.old.clients.items) }
        ensures cut { OnErr result (Halted T.state turner.old turner.new) }
        ensures untouched { OnErr result (self.new.handler.wires ≡ self.old.handler.wires) }
    {
        let Some(request) = self.front.next() else {
            return Ok(());
        };
        match self.handler.respond(request, turner, backups) {
            Ok(response) => self.front.answer(&response),
            Err(AnswerError::NoMemory) => self.front.let_go(),
            Err(AnswerError::Server(fault)) => return Err(fault),
        }
        Ok(())
    }

    /// Makes one turn. A client is let in where there is room. Then each that is there has its
    /// turn: what is not written of its answer is offered, or else a line is taken and answered,
    /// if one has come whole, or else is read. Then the request of the web front that waits is answered. Nothing is
    /// asked of other connections. What fails of a client, or of the wires, ends only that client, and
    /// so does want of memory for its line or its answer: a visitor of the web front is let go then, too. Only
    /// a fault of the server ends more. Where a line asks so, the web front's keys are read anew. A search is answered by what the institution that it
    /// names is shown of the rows as they are then, and counts are of these.
    pub fn turn<T: Tables, B: Backups<T>>(
        &mut self,
        turner: &mut Turner<T>,
        backups: &B,
    ) -> Result<(), Fault>
        ensures went { OnOk result (Attends T.state self.old.handler.names.items
            (W.log self.old.handler.wires) (W.log self.new.handler.wires) turner.old turner.new
            self.old.clients.items self.new.clients.items
            (HasFrontTurn F.waiting F.answers F.lets_go F.rereads self.old.front self.new.front)) }
        ensures names { OnOk result (self.new.handler.names.items ≡ self.old.handler.names.items) }
        ensures cut { OnErr result (Interrupted T.state self.old.handler.names.items
            (W.log self.old.handler.wires) (W.log self.new.handler.wires) turner.old turner.new
            self.old.clients.items) }
    {
        self.let_in();
        self.attend(turner, backups)?;
        self.respond(turner, backups)?;
        Ok(())
    }
}
