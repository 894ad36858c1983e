//! Wires over sockets.
ghost use Rattle.std.specs.Prelude.{◌≡◌, ◌≤◌, true, length, Some, None, Ok, IsOk, IfOk, IfSome};
ghost use Rattle.std.specs.Duration.{as_nanos};
ghost use Rattle.dq_wires.specs.Lingering.{longest_rest, MayLinger};
ghost use Rattle.dq_wires.specs.Logs.{IfGot};
ghost use Rattle.dq_wires.specs.SocketLimits.{crowded_end};
ghost use Rattle.dq_wires.specs.SocketTurns.{is_preceded, is_behind};
ghost use Rattle.dq_wires.specs.Sockets.{IsIdle, BeginsTurn, IsOffered, IsShared, is_recent, is_tcp, is_put_off, TakesTurn};

mod lingering;
mod slots;
mod socket;
mod socket_connection;

use crate::calls::{Progress, ReadTurn, WireFault};
use crate::given_up::{GivenUp, GivesUp, Limits, Reason};
use crate::limits::MOST_WIRES;
use crate::sockets::lingering::LingeringSockets;
use crate::sockets::socket::{Door, Socket};
use crate::sockets::socket_connection::SocketConnection;
use crate::wires::Wires;
use mio::unix::SourceFd;
use mio::{Events, Interest, Poll, Token};
use std::alloc::Global;
use std::io::{self, ErrorKind};
use std::net::SocketAddr;
use std::os::fd::AsRawFd;
use std::time::{Clock, Duration, Instant};

// The tokens of the listening socket and of other wires. Those of connections are their places.
const LISTENER: Token = Token(MOST_WIRES);

const OTHERS: Token = Token(MOST_WIRES + 1);

const MOST_EVENTS: usize = MOST_WIRES + 2;

/// For so many milliseconds the system is not asked again what may be done, while there is something
/// to do, and all connections are read that can be.
const SHORT: u64 = 1;

// The errors of accept(2) that are no fault of the listening socket. The first four tell of
// descriptors and buffers that are used up (ENOMEM, ENFILE, EMFILE, ENOBUFS), the others of a call
// that was interrupted (EINTR) and of a peer that is gone or not let in (EPERM, ENONET, EPROTO,
// ENOPROTOOPT, EOPNOTSUPP, ENETDOWN, ENETUNREACH, ECONNABORTED, ETIMEDOUT, EHOSTDOWN, EHOSTUNREACH).
const PASSING: [i32; 16] = [
    12, 23, 24, 105, 4, 1, 64, 71, 92, 95, 100, 101, 103, 110, 112, 113,
];

/// Wires over the sockets of connections that come to a listening one. They ask the system only for
/// what it has told to be ready, and tell no calls to contracts. A connection that they give up is
/// one that ended. Where reads between two rests take long, one connection is read of those that have
/// the same titles, and of the answers that go on one does in each turn. The others bring and take
/// nothing until it is their turn: one peer's many do not slow others. A socket of TCP that was shut is
/// read for two seconds at most, until its peer closes it.
#[derive(Drop)]
pub struct SocketWires {
    clock: HostRuntime,
    poll: Poll,
    events: Events,
    door: Door,
    is_called: bool,
    is_called_beside: bool,
    connections: Vec<Option<SocketConnection>>,
    lingering: LingeringSockets,
    is_busy: bool,
    reading: Reading,
    /// Whether an answer went on in this turn.
    has_gone_on: bool,
    limits: Limits,
    turned_away: Option<GivenUp>,
    rested: Option<Instant>,
    /// How many accepts have failed, as far as a `u64` counts.
    failed_accepts: u64,
}

/// The reads between two rests: since when, and whether connections were passed over in them or in
/// those before.
#[derive(Clone, Copy, Default)]
struct Reading {
    begun: Option<Instant>,
    is_short: bool,
    was_short: bool,
}

impl SocketWires {
    /// Listens at an address, on a port that the system chooses where it is 0.
    pub fn listen(alloc: Global, rt: &HostRuntime, address: SocketAddr) -> io::Result<Self>
        ensures { IfOk result IsIdle }
    {
        Self::behind(alloc, rt, Door::at_address(rt, address)?)
    }

    /// Listens at a path, for connections of the machine itself. The file is its owner's alone. Where
    /// the file of a socket is there on which nobody listens, it is made anew.
    pub fn listen_at(alloc: Global, rt: &HostRuntime, path: &str) -> io::Result<Self>
        ensures { IfOk result IsIdle }
    {
        Self::behind(alloc, rt, Door::at_path(rt, path)?)
    }

    // Over the connections that come to a listening socket.
    fn behind(alloc: Global, rt: &HostRuntime, mut door: Door) -> io::Result<Self>
        ensures { IfOk result IsIdle }
    {
        let poll = Poll::new(rt)?;
        door.register(poll.registry(), LISTENER)?;
        let events = Events::with_capacity(alloc, MOST_EVENTS)?;
        let connections = slots::none(alloc)?;
        let lingering = LingeringSockets::none(alloc)?;
        Ok(SocketWires {
            clock: *rt,
            poll,
            events,
            door,
            is_called: true,
            is_called_beside: false,
            connections,
            lingering,
            is_busy: false,
            reading: Reading::default(),
            has_gone_on: false,
            limits: Limits::default(),
            turned_away: None,
            rested: None,
            failed_accepts: 0,
        })
    }

    /// The address at which it listens.
    pub fn address(&self) -> io::Result<SocketAddr>
        ensures { IsOk result → is_tcp self.now.door ≡ true }
    {
        self.door.address()
    }

    /// Gives up connections from now on as these limits say, and at first none. Time is counted from
    /// rest to rest.
    pub fn set_limits(&mut self, limits: Limits)
        ensures { self.new ≡ record self.old { limits = limits } }
    {
        self.limits = limits;
    }

    /// Waits until something may be done, so long at most. After calls that did something it only
    /// looks what else there is, unless it has done so within a millisecond.
    pub fn rest(&mut self, clock: &impl Clock, most: Duration) -> io::Result<()> {
        let is_busy = self.is_busy;
        self.begin_turn();
        if is_busy && self.is_fresh(Instant::now(clock)?) {
            return Ok(());
        }
        self.look(clock, if is_busy { Duration::ZERO } else { most })
    }

    /// Begins a turn: nothing was done in it yet.
    pub fn begin_turn(&mut self)
        ensures { BeginsTurn self.old self.new }
    {
        self.is_busy = false;
        self.has_gone_on = false;
        self.reading = Reading {
            was_short: self.reading.is_short,
            ..Reading::default()
        };
        slots::begin_turn(self.connections.as_mut_slice());
    }

    // Whether the system was asked lately.
    fn is_fresh(&self, now: Instant) -> bool
        ensures { result ≡ is_recent now self.now.rested }
    {
        match self.rested {
            Some(before) => {
                now.duration_since(before).as_nanos() < Duration::from_millis(SHORT).as_nanos()
            }
            None => false,
        }
    }

    // Asks the system what may be done, and waits for it so long at most.
    fn look(&mut self, clock: &impl Clock, most: Duration) -> io::Result<()> {
        let most = self.longest_rest(most);
        self.poll.poll(&mut self.events, Some(most))?;
        for event in self.events.iter() {
            let Token(place) = event.token();
            if event.token() == LISTENER {
                self.is_called = true;
            } else if event.token() == OTHERS {
                self.is_called_beside = true;
            } else if let Some(Some(connection)) = self.connections.get_mut(place) {
                connection.wake(event);
            }
        }
        let now = Instant::now(clock)?;
        self.grow_old(now);
        self.lingering.read(now);
        Ok(())
    }

    /// Returns how long a rest may be, of one that is so long at most: it is short while sockets
    /// linger that were shut.
    pub fn longest_rest(&self, most: Duration) -> Duration
        ensures { as_nanos result ≡ longest_rest (as_nanos most) self.now.lingering.sockets.items }
    {
        self.lingering.longest_rest(most)
    }

    // The time since the system was last asked has passed on each connection.
    fn grow_old(&mut self, now: Instant)
        ensures rested { self.new.rested ≡ Some now }
        ensures others { self.new ≡ record self.old { rested = Some now; connections = self.new.connections } }
    {
        if let Some(before) = self.rested {
            let time = now.duration_since(before);
            for slot in self.connections.iter_mut() {
                if let Some(connection) = slot {
                    connection.grow_old(time);
                }
            }
        }
        self.rested = Some(now);
    }

    /// Has `rest` end also where something may be done on other wires.
    pub fn watch(&mut self, others: &Self) -> io::Result<()> {
        let descriptor = others.poll.as_raw_fd();
        self.poll
            .registry()
            .register(&mut SourceFd(&descriptor), OTHERS, Interest::READABLE)
    }

    /// Rests until something may be done on these wires or on those that they watch. The answer is
    /// whether something may be done on those.
    pub fn rest_beside(&mut self, clock: &impl Clock, most: Duration) -> io::Result<bool> {
        self.rest(clock, most)?;
        let is_called = self.is_called_beside;
        self.is_called_beside = false;
        Ok(is_called)
    }

    /// Looks what may be done, after others that watch these wires rested: where they were called, or
    /// these were not asked lately. A failure is none of the others'.
    pub fn look_beside(&mut self, clock: &impl Clock, is_called: bool) -> io::Result<()> {
        if is_called || !self.is_fresh(Instant::now(clock)?) {
            let _ = self.look(clock, Duration::ZERO);
        }
        Ok(())
    }

    /// Whether calls did something in this turn.
    pub fn is_busy(&self) -> bool
        ensures { result ≡ self.now.is_busy }
    {
        self.is_busy
    }

    // Whether reads have taken long since the first one after a rest.
    fn is_long(&mut self) -> bool
        ensures { self.new ≡ record self.old { reading = record self.old.reading { begun = self.new.reading.begun } } }
    {
        let Ok(now) = Instant::now(&self.clock) else {
            return false;
        };
        let begun = self.reading.begun.unwrap_or(now);
        self.reading.begun = Some(begun);
        now.duration_since(begun) >= Duration::from_millis(SHORT)
    }

    // Whether a connection that can be read, and comes from another machine, leaves its read to one of
    // the same titles: to one that was passed over more often, and where reads have taken long also to
    // one that was read.
    fn gives_way(&mut self, place: usize) -> bool
        ensures { IsShared place self.old self.new result }
    {
        match slots::connection_at(self.connections.as_slice(), place) {
            Some(connection) if connection.is_waiting() && connection.peer().is_some() => {}
            _ => return false,
        }
        let is_long = self.is_long();
        if !is_long && !self.reading.is_short && !self.reading.was_short {
            return false;
        }
        if !self.is_preceded(place, is_long) {
            return false;
        }
        self.is_busy = true;
        self.reading.is_short = true;
        slots::pass_over(self.connections.as_mut_slice(), place);
        true
    }

    // Whether there is one to which it leaves its read.
    fn is_preceded(&self, place: usize, is_long: bool) -> bool
        ensures { result ≡ is_preceded is_long place self.now.connections.items }
    {
        let slots = self.connections.as_slice();
        match slots::connection_at(slots, place) {
            Some(connection) => slots::has_precedent(slots, place, connection, is_long),
            None => false,
        }
    }

    // Whether what goes on with an answer is left to a later turn. Each part of one is a page that had
    // to be found, so one answer goes on in a turn: that which was put off most often.
    fn is_put_off(&mut self, place: usize) -> bool
        ensures { IsOffered place self.old self.new result }
    {
        match slots::connection_at(self.connections.as_slice(), place) {
            Some(connection) if connection.goes_on() => {}
            _ => return false,
        }
        if !self.has_gone_on && !self.is_behind(place) {
            self.has_gone_on = true;
            return false;
        }
        self.is_busy = true;
        slots::put_off(self.connections.as_mut_slice(), place);
        true
    }

    // Whether another's answer goes on before that of the connection at a place.
    fn is_behind(&self, place: usize) -> bool
        ensures { result ≡ is_behind place self.now.connections.items }
    {
        let slots = self.connections.as_slice();
        match slots::connection_at(slots, place) {
            Some(connection) => slots::has_older(slots, connection),
            None => false,
        }
    }

    // The end of a connection of whose address there are as many as may be.
    fn one_too_many(&self, peer: Option<SocketAddr>) -> Option<GivenUp>
        ensures { result ≡ crowded_end self.now.limits.peer_connections peer self.now.connections.items }
    {
        let most = self.limits.peer_connections?;
        let address = peer?;
        if slots::count_of(self.connections.as_slice(), address) < most {
            return None;
        }
        Some(GivenUp {
            peer,
            reason: Reason::PeerConnections,
        })
    }

    // Takes in a connection that came, unless there are as many of its peer's address as may be.
    fn admit(&mut self, place: usize, socket: Socket, peer: Option<SocketAddr>) -> Option<usize>
        ensures turned_away { self.new.turned_away
            ≡ crowded_end self.old.limits.peer_connections peer self.old.connections.items }
        ensures came { IfSome result (λ _. self.new.turned_away ≡ None) }
        ensures failed { self.new.failed_accepts ≡ self.old.failed_accepts }
    {
        self.is_busy = true;
        self.turned_away = self.one_too_many(peer);
        if self.turned_away.is_some() {
            return None;
        }
        self.hold(place, socket, peer)
    }

    // Reads the connection at a place, unless it leaves its read to another.
    fn read_in_turn(&mut self, place: usize, buffer: &mut [u8]) -> Result<ReadTurn, WireFault>
        ensures turn { TakesTurn place self.old self.new result }
        ensures bound { IfGot result (λ count. count ≤ length buffer.old) }
        ensures failed { self.new.failed_accepts ≡ self.old.failed_accepts }
    {
        if self.gives_way(place) {
            return Ok(ReadTurn::Nothing);
        }
        let Some(Some(connection)) = self.connections.get_mut(place) else {
            return Err(WireFault);
        };
        match connection.read(buffer, &self.limits)? {
            ReadTurn::Nothing => Ok(ReadTurn::Nothing),
            turn => {
                self.is_busy = true;
                Ok(turn)
            }
        }
    }

    // Writes on the connection at a place, unless what it is offered is left to a later turn.
    fn write_in_turn(&mut self, place: usize, octets: &[u8]) -> Result<usize, WireFault>
        ensures waits { is_put_off place self.old ≡ true → result ≡ Ok 0 }
        ensures bound { IfOk result (λ count. count ≤ length octets.now) }
        ensures failed { self.new.failed_accepts ≡ self.old.failed_accepts }
    {
        if self.is_put_off(place) {
            return Ok(0);
        }
        let Some(Some(connection)) = self.connections.get_mut(place) else {
            return Err(WireFault);
        };
        match connection.write(octets, &self.limits)? {
            0 => Ok(0),
            count => {
                self.is_busy = true;
                Ok(count)
            }
        }
    }

    // Holds a connection at a place, unless its peer is gone.
    fn hold(&mut self, place: usize, mut socket: Socket, peer: Option<SocketAddr>) -> Option<usize>
        ensures turned_away { self.new.turned_away ≡ self.old.turned_away }
        ensures place { IfSome result (λ at. at ≡ place) }
        ensures failed { self.new.failed_accepts ≡ self.old.failed_accepts }
    {
        socket.register(self.poll.registry(), Token(place)).ok()?;
        let slot = self.connections.get_mut(place)?;
        *slot = Some(SocketConnection::new(socket, peer));
        Some(place)
    }

    // Sends no more on a connection. Its socket lingers if it is one of TCP: on one of the machine
    // itself the peer has what was sent, whatever is unread.
    fn end(&mut self, connection: SocketConnection) -> Result<(), WireFault>
        ensures others { self.new ≡ record self.old { lingering = self.new.lingering } }
        ensures lingering { MayLinger self.old.lingering.sockets.items self.new.lingering.sockets.items }
    {
        if let Socket::Tcp(stream) = connection.end()?
            && let Ok(since) = Instant::now(&self.clock)
        {
            self.lingering.admit(self.poll.registry(), stream, since);
        }
        Ok(())
    }
}

// Whether the next accept may succeed.
fn is_passing(error: &io::Error) -> bool {
    match error.raw_os_error() {
        Some(code) => PASSING.contains(&code),
        None => false,
    }
}

impl Wires for SocketWires {
    ghost use Rattle.std.specs.Prelude.{None};

    ghost log = { λ _. None };

    ghost failed_accepts = { λ sockets. sockets.failed_accepts };

    fn accept(&mut self) -> Result<Option<usize>, WireFault> {
        self.turned_away = None;
        if !self.is_called {
            return Ok(None);
        }
        let Some(place) = self
            .connections
            .iter()
            .position(|connection| connection.is_none())
        else {
            return Ok(None);
        };
        match self.door.accept() {
            Ok((socket, peer)) => { Ok(self.admit(place, socket, peer)) }
            Err(error) => {
                if error.kind() == ErrorKind::WouldBlock {
                    self.is_called = false;
                } else if !is_passing(&error) {
                    self.failed_accepts = self.failed_accepts.saturating_add(1);
                    return Err(WireFault);
                }
                Ok(None)
            }
        }
    }

    fn read(&mut self, place: usize, buffer: &mut [u8]) -> Result<ReadTurn, WireFault> {
        self.read_in_turn(place, buffer)
    }

    fn write(&mut self, place: usize, octets: &[u8]) -> Result<usize, WireFault> {
        self.write_in_turn(place, octets)
    }

    fn learn(&mut self, place: usize, progress: Progress) {
        if let Some(Some(connection)) = self.connections.get_mut(place) {
            connection.learn(progress);
        }
    }

    fn shut(&mut self, place: usize) -> Result<(), WireFault> {
        let Some(slot) = self.connections.get_mut(place) else {
            return Err(WireFault);
        };
        self.is_busy = true;
        match slot.take() {
            None => Err(WireFault),
            Some(connection) => self.end(connection),
        }
    }
}

impl GivesUp for SocketWires {
    ghost use Rattle.dq_wires.specs.Sockets.{peer_of_place, end_of_place};

    ghost peer_at = { peer_of_place };

    ghost given_up_at = { end_of_place };

    ghost turned_away_last = { λ sockets. sockets.turned_away };

    fn peer(&self, place: usize) -> Option<SocketAddr> {
        match slots::connection_at(self.connections.as_slice(), place) {
            Some(connection) => connection.peer(),
            None => None,
        }
    }

    fn given_up(&self, place: usize) -> Option<GivenUp> {
        match slots::connection_at(self.connections.as_slice(), place) {
            Some(connection) => connection.given_up(),
            None => None,
        }
    }

    fn turned_away(&self) -> Option<GivenUp> {
        self.turned_away
    }
}
