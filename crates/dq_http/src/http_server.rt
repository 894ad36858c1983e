//! The web front over wires.
ghost use Rattle.std.specs.Prelude.{◌≡◌, [], length, option_copied, IfOk};
ghost use Rattle.std.specs.List.{filter, list_any};
ghost use Rattle.dq_http.specs.HttpConnections.{asks_report, is_busy};
ghost use Rattle.dq_http.specs.Places.{is_of, is_crowded, LetsIn, LetsOneIn, with_room, LeavesRoom};
ghost use Rattle.dq_http.specs.RequestQueue.{first_waiting, next_of, Answered, LetsGo, LetsGoAs, Attended, with_keys};

use crate::http_connection::HttpConnection;
use crate::http_state::HttpState;
use crate::request_log::{Notes, Sender};
use dq_request::{Request, Response};
use dq_web::{Counters, Keys};
use dq_wires::{GivenUp, GivesUp, READ_MOST, Reason, Wires};
use std::alloc::AllocError;
use std::net::{IpAddr, SocketAddr};
use std::time::Instant;

/// The most connections at a time.
const MOST_CONNECTIONS: usize = 64;

/// The most that may be idle: eight places are kept for those whose request is still to come.
const MOST_IDLE: usize = 56;

/// Connections of HTTP over wires, and what they ask. They stand in the order in which they are
/// answered: the first whose request waits is the next, and then it is the last.
#[derive(Drop)]
pub struct HttpServer<W> {
    pub wires: W,
    state: HttpState,
    notes: Notes,
    connections: Vec<HttpConnection>,
    buffer: Vec<u8>,
    /// How many connections there may be of one address that is not the proxy's.
    peer_connections: Option<usize>,
}

/// How many connections have an address.
fn held_of(connections: &[HttpConnection], address: IpAddr) -> usize
    ensures { result ≡ length (filter (is_of address) connections.now) }
{
    connections
        .iter()
        .filter(|connection| connection.is_of(address))
        .count()
}

impl<W: Wires + GivesUp + Drop> HttpServer<W> {
    /// Creates a server over wires, with so many connections of one address at most.
    pub fn new(
        rt: &HostRuntime,
        wires: W,
        state: HttpState,
        peer_connections: Option<usize>,
    ) -> Result<Self, AllocError>
        ensures wires { IfOk result (λ server. server.wires ≡ wires) }
        ensures state { IfOk result (λ server. server.state ≡ state) }
        ensures connections { IfOk result (λ server. server.connections.items ≡ []) }
        ensures peers { IfOk result (λ server. server.peer_connections ≡ peer_connections) }
    {
        let alloc = state.alloc;
        let mut buffer = Vec::new(alloc);
        buffer.resize(READ_MOST, 0)?;
        Ok(HttpServer {
            wires,
            state,
            notes: Notes::new(alloc, rt),
            connections: Vec::new(alloc),
            buffer,
            peer_connections,
        })
    }

    // Where the first connection stands whose request waits.
    fn first_waiting(&self) -> Option<usize>
        ensures { result ≡ first_waiting self.now.connections.items }
    {
        self.connections
            .iter()
            .position(|connection| connection.is_waiting())
    }

    /// The request that is to be answered next, if one waits.
    pub fn next(&self) -> Option<&Request>
        ensures { option_copied result ≡ next_of self.now }
    {
        let at = self.first_waiting()?;
        self.connections.get(at)?.asked()
    }

    /// Answers the request that waits first, and notes that. Its connection is then the last to be answered, and
    /// all others are as they were.
    pub fn answer(&mut self, response: &Response)
        ensures { Answered self.old self.new response.now }
    {
        let Some(at) = self.first_waiting() else {
            return;
        };
        if let Some(connection) = self.connections.get_mut(at) {
            let _ = connection.answer(response, &self.state, &mut self.notes);
            self.connections.rotate_left(at + 1);
        }
    }

    /// Lets the connection go whose request waits first, unanswered, and notes that. All others are as they were.
    pub fn let_go(&mut self)
        ensures { LetsGo (W.log self.old.wires) (W.log self.new.wires) self.old self.new }
    {
        let _ = self.try_let_go();
    }

    // The same. An error says that there is no memory for the note.
    fn try_let_go(&mut self) -> Result<(), AllocError>
        ensures { LetsGoAs result (W.log self.old.wires) (W.log self.new.wires) self.old self.new }
    {
        let Some(at) = self.first_waiting() else {
            return Ok(());
        };
        let connection = self.connections.remove(at);
        let _ = self.wires.shut(connection.place);
        connection.tell(None, &mut self.notes)
    }

    /// Whether a request waits that asks for metrics.
    pub fn wants_counts(&self) -> bool
        ensures { result ≡ list_any asks_report self.now.connections.items }
    {
        self.connections
            .iter()
            .any(|connection| connection.wants_counts())
    }

    /// Takes the counts of what was served until now, beside those of its own requests.
    pub fn set_counters(&mut self, counters: Counters)
        ensures { self.new ≡ record self.old {
          state = record self.old.state {
            counters = record counters { requests = self.old.notes.requests };
          };
        } }
    {
        let mut counters = counters;
        counters.requests = self.notes.requests();
        self.state.set_counters(counters);
    }

    /// Takes other keys in place of those that it has. Requests that were let in by them go on to be
    /// answered.
    pub fn set_keys(&mut self, keys: Keys)
        ensures { self.new ≡ with_keys keys self.old }
    {
        self.state.set_keys(keys);
    }

    /// Returns the notes of the requests since this was last asked, a line each.
    pub fn take_notes(&mut self) -> String
        ensures taken { result ≡ self.old.notes.lines }
        ensures left { self.new ≡ record self.old { notes = self.new.notes } }
    {
        self.notes.take()
    }

    /// Whether there is something to do that no octet has to come for.
    pub fn is_busy(&self) -> bool
        ensures { result ≡ list_any is_busy self.now.connections.items }
    {
        self.connections
            .iter()
            .any(|connection| connection.is_busy())
    }

    /// The turn of all connections: those that come are let in, responses are written, and requests
    /// are read. A connection that fails, or for which there is no memory, is let go. While there are
    /// more than may be idle, idle ones are let go, those that are answered next first.
    pub fn attend(&mut self)
        ensures attended { Attended self.old self.new }
        ensures room { LeavesRoom self.new.connections.items }
    {
        let now = self.notes.now();
        self.let_in(now);
        let mut at = 0;
        while at < self.connections.len() {
            let connection = &mut self.connections[at];
            let place = connection.place;
            let buffer = self.buffer.as_mut_slice();
            if connection.turn(&mut self.wires, buffer, &self.state, &mut self.notes, now) {
                at += 1;
            } else {
                let _ = self.connections.remove(at);
                let _ = self.wires.shut(place);
            }
        }
        self.make_room();
    }

    // Lets idle connections go, in their order, while there are more connections than may be idle.
    fn make_room(&mut self)
        ensures gone { self.new.connections.items ≡ with_room self.old.connections.items }
        ensures room { LeavesRoom self.new.connections.items }
        ensures state { self.new.state ≡ self.old.state }
        ensures most { self.new.peer_connections ≡ self.old.peer_connections }
    {
        let mut at = 0;
        while at < self.connections.len() && self.connections.len() > MOST_IDLE {
            if self.connections[at].is_idle() {
                let idle = self.connections.remove(at);
                let _ = self.wires.shut(idle.place);
            } else {
                at += 1;
            }
        }
    }

    // Whether there are as many connections of a peer's address as may be. Of the proxy's there may be any
    // number.
    fn is_crowded(&self, peer: Option<SocketAddr>) -> bool
        ensures { result ≡ is_crowded self.now.peer_connections self.now.state.guard.proxy
            self.now.connections.items peer }
    {
        let (Some(most), Some(address)) = (self.peer_connections, peer) else {
            return false;
        };
        if self.state.is_proxy(peer) {
            return false;
        }
        held_of(self.connections.as_slice(), address.ip()) >= most
    }

    // Lets a connection in that came. One for which there is no memory is let go, and one of whose address
    // there are as many as may be.
    fn admit(&mut self, place: usize, now: Option<Instant>)
        ensures came { LetsOneIn self.old.peer_connections self.old.state.guard.proxy
            self.old.connections.items self.new.connections.items }
        ensures state { self.new.state ≡ self.old.state }
        ensures most { self.new.peer_connections ≡ self.old.peer_connections }
    {
        let peer = self.wires.peer(place);
        if self.is_crowded(peer) {
            self.notes.turn_away(Some(GivenUp {
                peer,
                reason: Reason::PeerConnections,
            }));
            let _ = self.wires.shut(place);
            return;
        }
        let connection = HttpConnection::new(self.state.alloc, place, peer, now);
        if self.connections.push(connection).is_ok() {
            return;
        }
        let _ = self.notes.tell_unread(Sender::direct(peer), now);
        let _ = self.wires.shut(place);
    }

    // Lets those in that come, as long as there is room.
    #[tactic(auto, using(crate::proofs::Room::lets_none))]
    fn let_in(&mut self, now: Option<Instant>)
        ensures came { LetsIn self.old.peer_connections self.old.state.guard.proxy
            self.old.connections.items self.new.connections.items }
        ensures state { self.new.state ≡ self.old.state }
        ensures most { self.new.peer_connections ≡ self.old.peer_connections }
    {
        for _connection in self.connections.len()..MOST_CONNECTIONS {
            let Ok(Some(place)) = self.wires.accept() else {
                self.notes.turn_away(self.wires.turned_away());
                return;
            };
            self.admit(place, now);
        }
    }
}
