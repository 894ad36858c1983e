//! The sockets of the program: those of associations, with their log, those of the console, and the web front.
ghost use Rattle.std.specs.Prelude.{◌≡◌, ◌≤◌, length, option_copied, IfOk};
ghost use Rattle.dq_wires.specs.Logs.{IfGot, failures_after_accept};

use crate::key_files::reread_keys;
use dq_assoc::{AssociationEnd, Service};
use dq_captures::Host;
use dq_console::{Asks, KeysError};
use dq_core::{LogEvent, Note, Notes};
use dq_http::HttpServer;
use dq_request::{Request, Response};
use dq_tables::Tables;
use dq_web::{Counters, Service as CountedService};
use dq_wires::{
    Called, GivesUp, LogEnd, LoggedWires, Progress, ReadTurn, SocketClient, SocketWires, Turner,
    WireFault, Wires,
};
use std::alloc::Global;
use std::time::{Duration, Instant};
use std::{fs, io};

/// The octets of a page of memory.
const PAGE_OCTETS: u64 = 4096;

/// Wires whose connections are told of in a log, if there is one, and counted, if that is asked. The
/// program's are sockets.
#[derive(Drop)]
pub struct AssociationSockets<W> {
    pub logged: LoggedWires<W, LogEnd>,
    pub counted: Option<Counted>,
}

/// The wires of the console, if there is one. The program's are sockets.
#[derive(Drop)]
pub struct ConsoleSockets<W> {
    pub wires: Option<W>,
}

/// The web front, if there is one, with the path of the file of its keys.
#[derive(Drop)]
pub struct HttpSockets {
    alloc: Global,
    folder: HostRuntime,
    keys: String,
    pub front: Option<HttpServer<SocketWires>>,
}

/// Counts of what was served, the numbers of the connections with an association, when the turn
/// began, and whether something was served in it.
#[derive(Drop)]
pub struct Counted {
    pub counters: Counters,
    open: Vec<u64>,
    begun: Option<Instant>,
    is_served: bool,
}

/// The octets of memory that the program has, as the system tells; 0 where it does not.
fn resident_octets(rt: &HostRuntime) -> u64 {
    let Ok(text) = fs::read_to_string(rt, "/proc/self/statm") else {
        return 0;
    };
    let pages = match text.split_whitespace().nth(1) {
        Some(word) => word.parse::<u64>().unwrap_or(0),
        None => 0,
    };
    pages.saturating_mul(PAGE_OCTETS)
}

/// Returns the counted service that a service counts as.
fn counted_as(service: Service) -> CountedService {
    match service {
        Service::Verification => CountedService::Echo,
        Service::Storage => CountedService::Store,
        Service::StudyRootFind => CountedService::Find,
        Service::WorklistFind => CountedService::Worklist,
        Service::PerformedProcedureStep => CountedService::Step,
    }
}

impl Counted {
    /// Counts of which nothing was served yet.
    pub fn new(alloc: Global) -> Self {
        Counted {
            counters: Counters::default(),
            open: Vec::new(alloc),
            begun: None,
            is_served: false,
        }
    }

    // Takes a connection from those with an association. The answer is whether it was one.
    fn close(&mut self, number: u64) -> bool {
        match self.open.iter().position(|it| *it == number) {
            Some(at) => {
                let _ = self.open.swap_remove(at);
                true
            }
            None => false,
        }
    }

    // Counts an association that was rejected, or that ended on the connection of a number.
    fn count_end(&mut self, end: AssociationEnd, number: u64) {
        match end {
            AssociationEnd::Rejected(_) => self.counters.reject(),
            AssociationEnd::Aborted(..) if self.close(number) => self.counters.abort(),
            AssociationEnd::Released if self.close(number) => self.counters.release(),
            AssociationEnd::Aborted(..) | AssociationEnd::Released => {}
        }
    }

    fn count(&mut self, note: &Note) {
        match &note.noted {
            LogEvent::Accepted { .. } => {
                if self.open.push(note.number).is_ok() {
                    self.counters.accept();
                }
            }
            LogEvent::Closed { end, .. } => self.count_end(*end, note.number),
            LogEvent::Ended if self.close(note.number) => self.counters.lose(),
            LogEvent::Ended => {}
            LogEvent::Served {
                service,
                status,
                ..
            } => self.counters.serve(counted_as(*service), *status),
        }
    }

    // Counts what associations were served. The first turn begins with this.
    fn count_all(&mut self, notes: &Notes, clock: &HostRuntime) {
        if self.begun.is_none() {
            self.begin_turn(clock);
        }
        for note in notes.list.as_slice() {
            self.count(note);
            self.is_served = true;
        }
    }

    // A turn begins.
    fn begin_turn(&mut self, clock: &HostRuntime) {
        self.begun = Instant::now(clock).ok();
        self.is_served = false;
    }

    // A turn ends. How long it took is counted where something was served in it.
    fn end_turn(&mut self, clock: &HostRuntime) {
        if !self.is_served {
            return;
        }
        if let (Some(begun), Ok(now)) = (self.begun, Instant::now(clock)) {
            let passed = now.duration_since(begun).as_micros();
            self.counters
                .turn(u64::try_from(passed).unwrap_or(u64::MAX));
        }
    }
}

impl<W> AssociationSockets<W> {
    /// Tells the log what was served since this was last asked, and counts it.
    pub fn tell<T: Tables>(&mut self, turner: &mut Turner<T>, clock: &HostRuntime)
        ensures { turner.new ≡ turner.old }
    {
        if self.logged.log.is_none() && self.counted.is_none() {
            return;
        }
        let notes = turner.take_notes();
        if let Some(counted) = &mut self.counted {
            counted.count_all(&notes, clock);
        }
        if let Some(log) = &mut self.logged.log {
            log.tell(&notes, clock);
        }
    }

    /// Has this turn counted, if the console or the web front served something in it.
    pub fn mark_served(&mut self, is_served: bool) {
        if let Some(counted) = &mut self.counted {
            counted.is_served = counted.is_served || is_served;
        }
    }

    /// Begins a turn, after a rest.
    pub fn begin_turn(&mut self, clock: &HostRuntime) {
        if let Some(counted) = &mut self.counted {
            counted.begin_turn(clock);
        }
    }

    /// Ends a turn, before a rest.
    pub fn end_turn(&mut self, clock: &HostRuntime) {
        if let Some(counted) = &mut self.counted {
            counted.end_turn(clock);
        }
    }
}

impl<W: Wires + GivesUp> Wires for AssociationSockets<W> {
    ghost log = { λ sockets. W.log sockets.logged.wires };

    ghost failed_accepts = { λ sockets. W.failed_accepts sockets.logged.wires };

    fn accept(&mut self) -> Result<Option<usize>, WireFault> {
        self.logged.accept()
    }

    fn read(&mut self, place: usize, buffer: &mut [u8]) -> Result<ReadTurn, WireFault> {
        self.logged.read(place, buffer)
    }

    fn write(&mut self, place: usize, octets: &[u8]) -> Result<usize, WireFault> {
        self.logged.write(place, octets)
    }

    fn learn(&mut self, place: usize, progress: Progress) {
        self.logged.learn(place, progress);
    }

    fn shut(&mut self, place: usize) -> Result<(), WireFault> {
        self.logged.shut(place)
    }
}

impl<H: Host> Called<H> for AssociationSockets<SocketWires> {
    fn connect(&self, machine: &H) -> Result<SocketClient, WireFault> {
        match self.logged.wires.address() {
            Ok(address) => SocketClient::connect(machine.runtime(), address).or(Err(WireFault)),
            Err(_) => Err(WireFault),
        }
    }

    fn look(&mut self, machine: &H) -> Result<(), WireFault> {
        let looked = self.logged.wires.rest(machine.runtime(), Duration::ZERO);
        looked.or(Err(WireFault))
    }
}

impl ConsoleSockets<SocketWires> {
    /// Whether calls did something in this turn.
    pub fn is_busy(&self) -> bool {
        match &self.wires {
            Some(wires) => wires.is_busy(),
            None => false,
        }
    }

    /// Begins a turn: nothing was done in it yet.
    pub fn begin_turn(&mut self) {
        if let Some(wires) = &mut self.wires {
            wires.begin_turn();
        }
    }

    /// Looks what may be done, after the sockets beside these rested.
    pub fn look(&mut self, clock: &HostRuntime, is_called: bool) -> io::Result<()> {
        match &mut self.wires {
            Some(wires) => wires.look_beside(clock, is_called),
            None => Ok(()),
        }
    }
}

impl<W: Wires> Wires for ConsoleSockets<W> {
    ghost use Rattle.std.specs.Prelude.{option_map, unwrap_or};
    ghost use Rattle.std.specs.Option.{option_and_then};

    ghost log = { λ sockets. option_and_then W.log sockets.wires };

    ghost failed_accepts = { λ sockets. unwrap_or (option_map W.failed_accepts sockets.wires) 0 };

    fn accept(&mut self) -> Result<Option<usize>, WireFault> {
        match &mut self.wires {
            Some(wires) => wires.accept(),
            None => Ok(None),
        }
    }

    fn read(&mut self, place: usize, buffer: &mut [u8]) -> Result<ReadTurn, WireFault> {
        match &mut self.wires {
            Some(wires) => wires.read(place, buffer),
            None => Err(WireFault),
        }
    }

    fn write(&mut self, place: usize, octets: &[u8]) -> Result<usize, WireFault> {
        match &mut self.wires {
            Some(wires) => wires.write(place, octets),
            None => Err(WireFault),
        }
    }

    fn shut(&mut self, place: usize) -> Result<(), WireFault> {
        match &mut self.wires {
            Some(wires) => wires.shut(place),
            None => Err(WireFault),
        }
    }
}

impl HttpSockets {
    /// Those of a web front, if there is one, whose keys are in the file at a path.
    pub fn new(
        alloc: Global,
        folder: &HostRuntime,
        front: Option<HttpServer<SocketWires>>,
        keys: String,
    ) -> Self
        ensures { result.front ≡ front }
    {
        HttpSockets {
            alloc,
            folder: *folder,
            keys,
            front,
        }
    }

    /// The turn of the web front. A request for metrics is answered by the counts of what was served.
    /// The notes go to the log.
    pub fn attend(&mut self, beside: &mut AssociationSockets<SocketWires>, rt: &HostRuntime) {
        let Some(front) = &mut self.front else {
            return;
        };
        front.attend();
        if let Some(counted) = &beside.counted {
            if front.wants_counts() {
                let mut counters = counted.counters;
                counters.memory = resident_octets(rt);
                front.set_counters(counters);
            }
        }
        let notes = front.take_notes();
        beside.mark_served(!notes.is_empty());
        if let Some(log) = &mut beside.logged.log {
            log.note_web(notes.as_str());
        }
    }

    /// Whether there is something to do that no octet has to come for, or was in this turn.
    pub fn is_busy(&self) -> bool {
        match &self.front {
            Some(front) => front.is_busy() || front.wires.is_busy(),
            None => false,
        }
    }

    /// Begins a turn: nothing was done in it yet.
    pub fn begin_turn(&mut self) {
        if let Some(front) = &mut self.front {
            front.wires.begin_turn();
        }
    }

    /// Returns how long those beside these may rest, of a rest that is so long at most.
    pub fn longest_rest(&self, most: Duration) -> Duration {
        match &self.front {
            Some(front) => front.wires.longest_rest(most),
            None => most,
        }
    }

    /// Looks what may be done, after the sockets beside these rested.
    pub fn look(&mut self, clock: &HostRuntime, is_called: bool) -> io::Result<()> {
        match &mut self.front {
            Some(front) => front.wires.look_beside(clock, is_called),
            None => Ok(()),
        }
    }
}

impl Asks for HttpSockets {
    ghost use Rattle.std.specs.Option.{option_and_then};
    ghost use Rattle.dq_http.specs.RequestQueue.{next_of};
    ghost use Rattle.dq_app.specs.HttpAnswers.{IsAnswered, IsLetGo, AreReread};

    ghost waiting = { λ sockets. option_and_then next_of sockets.front };

    ghost answers = { λ old new response. IsAnswered old.front new.front response };

    ghost lets_go = { λ old new. IsLetGo old.front new.front };

    ghost rereads = { λ old new outcome. AreReread old.front new.front outcome };

    fn next(&self) -> Option<&Request> {
        match &self.front {
            Some(front) => front.next(),
            None => None,
        }
    }

    fn answer(&mut self, response: &Response) {
        if let Some(front) = &mut self.front {
            front.answer(response);
        }
    }

    fn let_go(&mut self) {
        if let Some(front) = &mut self.front {
            front.let_go();
        }
    }

    fn read_keys(&mut self) -> Result<(), KeysError> {
        match &mut self.front {
            Some(front) => reread_keys(self.alloc, &self.folder, self.keys.as_str(), front),
            None => Err(KeysError::NoFront),
        }
    }
}
