//! A capture, played in one process: its events are brought by clients that connect to the server.
ghost use Rattle.std.specs.Prelude.{◌≡◌, ◌≢◌, ◌<◌, ◌+◌, ◌∷◌, ◌++◌, ◌≤◌, [], ℕ, List, None, length, take, drop, map, IsTrue, IfOk, IfSome, OnOk};
ghost use Rattle.std.specs.List.{position};
ghost use Rattle.dq_tables.specs.declared.row.Row.{Row};
ghost use Rattle.dq_core.specs.Histories.{is_above, opened_numbers};
ghost use Rattle.dq_core.specs.ServerView.{ServerView, Refines};
ghost use Rattle.dq_wires.specs.HeldConnections.{connection_with};
ghost use Rattle.dq_wires.specs.Turns.{Hold};
ghost use Rattle.dq_wires.specs.Turners.{IsOrder};
ghost use Rattle.dq_wires.specs.Servings.{Act, nothing_held, Serving};
ghost use Rattle.dq_wires.specs.Looping.{orders_of, capture_number, has_number, sent_number, IsHeard, IsPlayed, ArePlayed, IsCome, ActsOn, PlaysOn};

use crate::calls::{ReadTurn, WireFault};
use crate::fault::TurnFault;
use crate::limits::{MOST_TURNS, READ_MOST};
use crate::loopback::clients::{Called, SocketClient};
use crate::loopback::counted::CountedWires;
use crate::turns::{Turner, turn_all};
use crate::wires::Wires;
use dq_core::{Event, Server};
use dq_list::Listed;
use dq_tables::Tables;
use std::alloc::{AllocError, Global};

// How often a client looks, after a turn, for what was written in it.
const MOST_LOOKS: u64 = 1_000_000;

/// All octets that a connection of a capture was sent.
#[derive(Drop)]
pub struct Sent {
    /// The connection's number in the capture.
    pub number: u64,
    pub octets: Listed<u8>,
}

/// The client's side of a connection: the client, as long as the server holds the connection, and
/// all octets that it was sent.
#[derive(Drop)]
struct Side {
    client: Option<SocketClient>,
    heard: Vec<u8>,
}

impl Side {
    /// Sends the first of these octets. The answer are the others.
    fn send<'a>(&mut self, octets: &'a [u8]) -> &'a [u8]
        ensures rest { (count : ℕ) × (count ≤ length octets.now) × (result.now ≡ drop count octets.now) }
        ensures heard { self.new.heard ≡ self.old.heard }
    {
        let Some(client) = &mut self.client else {
            return octets;
        };
        match client.send(octets) {
            Ok(count) => &octets[count..],
            Err(WireFault) => octets,
        }
    }

    /// Keeps what came, and answers how many octets.
    fn receive(&mut self, buffer: &mut [u8]) -> Result<usize, TurnFault>
        ensures { IfOk result (λ count.
            self.new.heard.items ≡ self.old.heard.items ++ take count buffer.new) }
    {
        let Some(client) = &mut self.client else {
            return Err(TurnFault::Network);
        };
        match client.receive(buffer)? {
            ReadTurn::Got(count) => {
                self.heard.extend_from_slice(&buffer[..count])?;
                Ok(count)
            }
            ReadTurn::Nothing => Ok(0),
            ReadTurn::Ended => Err(TurnFault::Network),
        }
    }

    /// Sends no more.
    fn end(&mut self) -> Result<(), TurnFault>
        ensures { self.new.heard ≡ self.old.heard }
    {
        if let Some(client) = &mut self.client {
            client.end()?;
        }
        Ok(())
    }
}

/// A connection of the capture: its number there.
#[derive(Drop)]
struct CaptureConnection {
    number: u64,
    side: Side,
}

impl CaptureConnection {
    /// Returns what it was sent.
    fn into_sent(self) -> Sent
        ensures { result.number ≡ self.number }
    {
        let CaptureConnection { number, side } = self;
        let Side { client: _, heard } = side;
        Sent {
            number,
            octets: Listed::from_inner(heard),
        }
    }
}

/// The condition that is awaited on a connection, unless the server lets go of it.
#[derive(Clone, Copy)]
enum Wanted {
    /// So many octets were heard on it, or a reply has closed it.
    Heard(u64),
    /// It is held no more.
    Gone,
}

/// A server, and the machine over which clients connect to it. It has so many turns left; the
/// clients have taken so many octets.
struct Loopback<'a, T, W, M> {
    turner: Turner<T>,
    wires: CountedWires<W>,
    machine: &'a M,
    turns: u64,
    taken: u64,
    buffer: Vec<u8>,
}

impl<T: Drop, W: Drop, M> Drop for Loopback<'_, T, W, M> {
    fn drop(self) {
        let Loopback {
            turner: _,
            wires: _,
            machine: _,
            turns: _,
            taken: _,
            buffer: _,
        } = self;
    }
}

impl<'a, T: Tables, W: Called<M>, M> Loopback<'a, T, W, M> {
    /// One turn, of those that are left.
    fn turn(&mut self) -> Result<(), TurnFault>
        requires { self.old.turner.fault ≡ None }
        ensures acts { OnOk result (ActsOn T.state (W.log self.old.wires.wires)
            (W.log self.new.wires.wires) self.old.turner self.new.turner []) }
        ensures fewer { OnOk result (self.new.turns < self.old.turns) }
    {
        if self.turns == 0 {
            return Err(TurnFault::Network);
        }
        self.turns -= 1;
        turn_all(&mut self.turner, &mut self.wires, 1)?;
        self.wires.wires.look(self.machine)?;
        Ok(())
    }

    /// Whether what is wanted came to be.
    fn is_come(&self, given: u64, wanted: Wanted) -> bool
        ensures { IsTrue result → IsCome wanted (connection_with given self.now.turner.hold.held) }
    {
        match self.turner.connection(given) {
            None => true,
            Some(wire) => match wanted {
                Wanted::Heard(count) => wire.heard() == count || wire.is_closed(),
                Wanted::Gone => false,
            },
        }
    }

    /// Whether that is so, no C-FIND is open, nothing is unsent, and the clients have taken all that
    /// was written.
    fn is_over(&self, given: u64, wanted: Wanted) -> bool
        ensures { IsTrue result → IsCome wanted (connection_with given self.now.turner.hold.held) }
    {
        self.is_come(given, wanted)
            && !self.turner.is_pending()
            && !self.turner.is_sending()
            && self.taken >= self.wires.written
    }

    /// Turns, while the client sends octets and takes what is written, until all is over.
    fn exchange(
        &mut self,
        line: &mut CaptureConnection,
        given: u64,
        octets: &[u8],
        wanted: Wanted,
    ) -> Result<(), TurnFault>
        requires { self.old.turner.fault ≡ None }
        ensures acts { OnOk result (ActsOn T.state (W.log self.old.wires.wires)
            (W.log self.new.wires.wires) self.old.turner self.new.turner []) }
        ensures come { OnOk result
            (IsCome wanted (connection_with given self.new.turner.hold.held)) }
        ensures number { line.new.number ≡ line.old.number }
    {
        let mut rest = octets;
        'turns: while !self.is_over(given, wanted) {
            rest = line.side.send(rest);
            self.turn()?;
            let written = self.wires.written;
            hear(
                &mut line.side,
                written,
                &mut self.taken,
                self.buffer.as_mut_slice(),
            )?;
        }
        if !self.turner.server().holds(given) {
            line.side.client = None;
        }
        Ok(())
    }

    /// A client connects, and is accepted.
    fn open(
        &mut self,
        lines: &mut Vec<CaptureConnection>,
        alloc: Global,
        number: u64,
    ) -> Result<(), TurnFault>
        requires { self.old.turner.fault ≡ None }
        ensures acts { OnOk result (ActsOn T.state (W.log self.old.wires.wires)
            (W.log self.new.wires.wires) self.old.turner self.new.turner []) }
        ensures opened { OnOk result ((self.old.turner.hold.newest ≡ length lines.old.items)
            × (self.new.turner.hold.newest ≡ length lines.old.items + 1)
            × (connection_with self.new.turner.hold.newest self.new.turner.hold.held ≢ None)) }
        ensures number { OnOk result (map capture_number lines.new.items
            ≡ map capture_number lines.old.items ++ number ∷ []) }
    {
        let given = given_at(lines.len())?;
        if self.turner.newest() != lines.len() as u64 {
            return Err(TurnFault::Network);
        }
        let client = self.wires.wires.connect(self.machine)?;
        'turns: while self.turner.newest() < given {
            self.turn()?;
        }
        if self.turner.newest() != given {
            return Err(TurnFault::Network);
        }
        let Some(_wire) = self.turner.connection(given) else {
            return Err(TurnFault::Network);
        };
        lines.push(CaptureConnection {
            number,
            side: Side {
                client: Some(client),
                heard: Vec::new(alloc),
            },
        })?;
        Ok(())
    }

    /// The client sends octets, until the server has stepped them all.
    fn send(
        &mut self,
        line: &mut CaptureConnection,
        given: u64,
        octets: &[u8],
    ) -> Result<(), TurnFault>
        requires { self.old.turner.fault ≡ None }
        ensures acts { OnOk result (ActsOn T.state (W.log self.old.wires.wires)
            (W.log self.new.wires.wires) self.old.turner self.new.turner []) }
        ensures heard { OnOk result (IsHeard octets.now
            (connection_with given self.old.turner.hold.held)
            (connection_with given self.new.turner.hold.held)) }
        ensures number { line.new.number ≡ line.old.number }
    {
        let Some(wire) = self.turner.connection(given) else {
            return Ok(());
        };
        let Some(count) = wire.heard().checked_add(octets.len() as u64) else {
            return Err(TurnFault::NoMemory);
        };
        self.exchange(line, given, octets, Wanted::Heard(count))?;
        let Some(_wire) = self.turner.connection(given) else {
            return Err(TurnFault::Network);
        };
        Ok(())
    }

    /// The client sends no more, until the server has let go of the connection.
    fn end(&mut self, line: &mut CaptureConnection, given: u64) -> Result<(), TurnFault>
        requires { self.old.turner.fault ≡ None }
        ensures acts { OnOk result (ActsOn T.state (W.log self.old.wires.wires)
            (W.log self.new.wires.wires) self.old.turner self.new.turner []) }
        ensures gone { OnOk result (connection_with given self.new.turner.hold.held ≡ None) }
        ensures number { line.new.number ≡ line.old.number }
    {
        line.side.end()?;
        self.exchange(line, given, &[], Wanted::Gone)
    }

    /// Steps an order of the console.
    fn order(&mut self, event: Event) -> Result<(), TurnFault>
        requires working { self.old.turner.fault ≡ None }
        requires order { IsOrder event }
        ensures { OnOk result (ActsOn T.state (W.log self.old.wires.wires)
            (W.log self.new.wires.wires) self.old.turner self.new.turner (event ∷ [])) }
    {
        let _reply = self.turner.console(event)?;
        Ok(())
    }

    /// Has an event come about. One of a connection that was not opened is passed over, and so is a
    /// pull: turns pull by themselves.
    fn play(
        &mut self,
        lines: &mut Vec<CaptureConnection>,
        alloc: Global,
        event: Event,
    ) -> Result<(), TurnFault>
        requires { self.old.turner.fault ≡ None }
        ensures acts { OnOk result (ActsOn T.state (W.log self.old.wires.wires)
            (W.log self.new.wires.wires) self.old.turner self.new.turner
            (orders_of (event ∷ []))) }
        ensures played { OnOk result (IsPlayed (map capture_number lines.old.items) event
            self.old.turner.hold self.new.turner.hold) }
        ensures numbers { OnOk result (map capture_number lines.new.items
            ≡ map capture_number lines.old.items ++ opened_numbers (event ∷ [])) }
    {
        match event {
            Event::Open(number) => self.open(lines, alloc, number),
            Event::Piece(number, octets) => match index_with(lines.as_slice(), number) {
                Some(at) => {
                    let given = given_at(at)?;
                    self.send(&mut lines[at], given, octets.as_slice())
                }
                None => Ok(()),
            },
            Event::End(number) => match index_with(lines.as_slice(), number) {
                Some(at) => {
                    let given = given_at(at)?;
                    self.end(&mut lines[at], given)
                }
                None => Ok(()),
            },
            Event::Pull(_) => Ok(()),
            Event::Schedule { inst, octets } => self.order(Event::Schedule { inst, octets }),
            Event::Withdraw { inst, id } => self.order(Event::Withdraw { inst, id }),
        }
    }

    /// Has events come about, each before the next.
    fn play_all(
        &mut self,
        lines: &mut Vec<CaptureConnection>,
        alloc: Global,
        events: Vec<Event>,
    ) -> Result<(), TurnFault>
        requires working { self.old.turner.fault ≡ None }
        requires empty { lines.old.items ≡ [] }
        ensures plays { OnOk result (PlaysOn T.state (W.log self.old.wires.wires)
            (W.log self.new.wires.wires) self.old.turner self.new.turner events.items) }
        ensures numbers { OnOk result
            (map capture_number lines.new.items ≡ opened_numbers events.items) }
    {
        for event in events {
            self.play(lines, alloc, event)?;
        }
        Ok(())
    }
}

/// The client takes what was written.
fn hear(
    side: &mut Side,
    written: u64,
    taken: &mut u64,
    buffer: &mut [u8],
) -> Result<(), TurnFault> {
    for _look in 0..MOST_LOOKS {
        if *taken >= written {
            break;
        }
        let count = side.receive(buffer)?;
        *taken = taken.saturating_add(count as u64);
    }
    Ok(())
}

/// Where the connection of a number stands, if one was opened.
fn index_with(lines: &[CaptureConnection], number: u64) -> Option<usize>
    ensures at { result ≡ position (has_number number) lines.now }
    ensures within { IfSome result (λ at. at < length lines.now) }
{
    lines.iter().position(|line| line.number == number)
}

/// The server's number of the connection at a place: it counts them from 1.
fn given_at(at: usize) -> Result<u64, TurnFault>
    ensures { IfOk result (λ given. given ≡ at + 1) }
{
    (at as u64).checked_add(1).ok_or(TurnFault::Network)
}

/// Returns what each connection was sent.
fn sent_on(alloc: Global, lines: Vec<CaptureConnection>) -> Result<Vec<Sent>, AllocError>
    ensures { IfOk result (λ sent. map sent_number sent.items ≡ map capture_number lines.items) }
{
    let mut all = Vec::with_capacity(alloc, lines.len())?;
    for line in lines {
        all.push(line.into_sent())?;
    }
    Ok(all)
}

/// Plays the events of a capture over wires, each before the next: clients connect, send octets and
/// end, until the server has taken it up and they have taken all that was answered; orders go to
/// the console; an event of a connection that was not opened, and a pull, are passed over. The
/// answer is what each connection was sent, in the order in which they were opened. `Network` also
/// tells that a client failed, that the server lost a connection, or that there were more than
/// `MOST_TURNS` turns.
pub fn loop_back<T: Tables + Drop, W: Called<M> + Drop, M>(
    alloc: Global,
    server: Server<T>,
    wires: W,
    machine: &M,
    events: Vec<Event>,
) -> Result<Vec<Sent>, TurnFault>
    requires { IsTrue (is_above server.newest 0) }
    ensures sent { IfOk result
        (λ sent. map sent_number sent.items ≡ opened_numbers events.items) }
    // The work done is a serving, by acts in which the events came about, in order.
    ensures served { (rows : List Row) → Refines T.state rows server [] → OnOk result
        ((acts : List Act) × (left : W) × (last : ServerView T) × (hold : Hold)
        × ArePlayed [] nothing_held events.items acts
        × Serving T.state rows (W.log wires) (W.log left) server last hold acts) }
{
    let mut buffer = Vec::new(alloc);
    buffer.resize(READ_MOST, 0)?;
    let mut lines = Vec::new(alloc);
    let mut loopback = Loopback {
        turner: Turner::new(alloc, server),
        wires: CountedWires::new(wires),
        machine,
        turns: MOST_TURNS,
        taken: 0,
        buffer,
    };
    loopback.play_all(&mut lines, alloc, events)?;
    Ok(sent_on(alloc, lines)?)
}
