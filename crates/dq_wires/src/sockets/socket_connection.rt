//! A connection over a socket, and when it is given up.
ghost use Rattle.std.specs.Prelude.{◌≡◌, ◌≤◌, length, false, is_some, IsOk, IfOk};
ghost use Rattle.dq_wires.specs.Logs.{IfGot};
ghost use Rattle.dq_wires.specs.SocketTurns.{have_same_titles, is_waiting, goes_before, goes_on, goes_on_before, turn_begun, passed_over, put_off, heard_from};
ghost use Rattle.dq_wires.specs.SocketLimits.{fresh_connection, learned, answered, woken, GrewOld, has_run_out, runs_artim, is_late, reason_to_end, ended_for, IsRead, IsReceived, IsSent, IsWritten, has_address, end_of};

use crate::calls::{Progress, ReadTurn, WireFault};
use crate::given_up::{GivenUp, Limits, Reason};
use crate::sockets::socket::Socket;
use dq_core::Titles;
use mio::event::Event;
use std::io::ErrorKind;
use std::net::SocketAddr;
use std::time::Duration;

/// How far a connection is.
#[derive(Clone, Copy)]
enum Stage {
    /// Nothing was answered: no A-ASSOCIATE-RQ has come whole.
    Unasked,
    /// The same, and the ARTIM timer had run out when it was last read.
    Overdue,
    /// Something was answered.
    Open,
    /// The last PDU was answered.
    Closing,
}

impl Stage {
    // Whether the ARTIM timer runs (PS3.8 section 9.1.5).
    fn runs_artim(&self) -> bool
        ensures { result ≡ runs_artim self.now }
    {
        match self {
            Stage::Open => false,
            Stage::Unasked | Stage::Overdue | Stage::Closing => true,
        }
    }
}

// Whether there is a limit, and so much time has passed.
fn has_run_out(limit: Option<Duration>, passed: Duration) -> bool
    ensures { result ≡ has_run_out limit passed }
{
    match limit {
        Some(limit) => passed.as_nanos() >= limit.as_nanos(),
        None => false,
    }
}

/// Flags for what the system may have for a connection.
#[derive(Clone, Copy)]
struct Readiness {
    is_readable: bool,
    is_writable: bool,
    /// Whether the peer sends no more, or the connection broke.
    is_ending: bool,
}

/// A connection's share of the reads, which it shares with others of the same titles, and of the
/// further parts of answers, which it shares with all.
#[derive(Clone, Copy)]
struct Share {
    /// The titles of its request, once that has come whole.
    titles: Option<Titles>,
    /// Whether it was read since the turn began.
    is_read: bool,
    /// How often another was read in its place since it was read last.
    passed_over: u64,
    /// Whether all that was offered was written since octets came: what is offered next goes on with
    /// the answer to these.
    is_answered: bool,
    /// How often its answer was put off since it last went on.
    put_off: u64,
}

impl Share {
    // Whether another has the same titles, or neither has told any.
    fn is_alike(&self, other: &Share) -> bool
        ensures { result ≡ have_same_titles self.now.titles other.now.titles }
    {
        match (&self.titles, &other.titles) {
            (Some(own), Some(titles)) => own.are_alike(titles),
            (None, None) => true,
            _ => false,
        }
    }
}

/// A connection: its socket and its peer's address, what the system may have for it, its share of
/// the turns, whether octets wait to be sent, since when no octet has passed, how far it is and since
/// when, and why it was given up, if it was.
#[derive(Drop)]
pub(crate) struct SocketConnection {
    socket: Socket,
    peer: Option<SocketAddr>,
    ready: Readiness,
    share: Share,
    is_sending: bool,
    silence: Duration,
    stage: Stage,
    waited: Duration,
    reason: Option<Reason>,
}

impl SocketConnection {
    /// One that has just come.
    pub(crate) fn new(socket: Socket, peer: Option<SocketAddr>) -> Self
        ensures { result ≡ fresh_connection socket peer }
    {
        SocketConnection {
            socket,
            peer,
            ready: Readiness {
                is_readable: true,
                is_writable: true,
                is_ending: false,
            },
            share: Share {
                titles: None,
                is_read: false,
                passed_over: 0,
                is_answered: false,
                put_off: 0,
            },
            is_sending: false,
            silence: Duration::ZERO,
            stage: Stage::Unasked,
            waited: Duration::ZERO,
            reason: None,
        }
    }

    /// Its peer's address.
    pub(crate) fn peer(&self) -> Option<SocketAddr>
        ensures { result ≡ self.now.peer }
    {
        self.peer
    }

    /// Its end, if it was given up.
    pub(crate) fn given_up(&self) -> Option<GivenUp>
        ensures { result ≡ end_of self.now }
    {
        let reason = self.reason?;
        Some(GivenUp {
            peer: self.peer,
            reason,
        })
    }

    /// Whether its peer has the same address as another.
    pub(crate) fn is_of(&self, peer: SocketAddr) -> bool
        ensures { result ≡ has_address self.now.peer peer }
    {
        match self.peer {
            Some(own) => own.ip() == peer.ip(),
            None => false,
        }
    }

    /// Takes what the system tells of the connection. Whatever that is, writing is tried.
    pub(crate) fn wake(&mut self, event: &Event)
        ensures { self.new ≡ woken event.now self.old }
    {
        if event.is_read_closed() || event.is_error() {
            self.ready.is_ending = true;
        }
        if event.is_readable() || self.ready.is_ending {
            self.ready.is_readable = true;
        }
        self.ready.is_writable = true;
    }

    /// Begins a turn, in which it was not read yet.
    pub(crate) fn begin_turn(&mut self)
        ensures { self.new ≡ turn_begun self.old }
    {
        self.share.is_read = false;
    }

    /// Whether octets may be read, and none wait to be sent.
    pub(crate) fn is_waiting(&self) -> bool
        ensures { result ≡ is_waiting self.now }
    {
        self.ready.is_readable && !self.is_sending
    }

    /// Whether another leaves its read to it: both have the same titles, or told none yet, and it was
    /// passed over more often, or where reads have taken long was read already.
    pub(crate) fn goes_before(&self, other: &SocketConnection, is_long: bool) -> bool
        ensures { result ≡ goes_before is_long self.now other.now }
    {
        self.share.is_alike(&other.share)
            && (is_long && self.share.is_read
                || self.is_waiting() && self.share.passed_over > other.share.passed_over)
    }

    /// Learns how far its association is.
    pub(crate) fn learn(&mut self, progress: Progress)
        ensures { self.new ≡ learned progress self.old }
    {
        self.share.titles = self.share.titles.or(progress.titles);
        if progress.is_over {
            self.stage = Stage::Closing;
            self.waited = Duration::ZERO;
        }
    }

    /// Notes that it leaves its read to another.
    pub(crate) fn give_way(&mut self)
        ensures { self.new ≡ passed_over self.old }
    {
        self.share.passed_over = self.share.passed_over.saturating_add(1);
    }

    /// Whether what it is offered goes on with an answer, and the system may take it.
    pub(crate) fn goes_on(&self) -> bool
        ensures { result ≡ goes_on self.now }
    {
        self.share.is_answered && self.ready.is_writable
    }

    /// Whether its answer waits to go on, and was put off more often than another's.
    pub(crate) fn goes_on_before(&self, other: &SocketConnection) -> bool
        ensures { result ≡ goes_on_before self.now other.now }
    {
        self.goes_on() && self.is_sending && self.share.put_off > other.share.put_off
    }

    /// Notes that what it is offered is left to a later turn.
    pub(crate) fn put_off(&mut self)
        ensures { self.new ≡ put_off self.old }
    {
        self.is_sending = true;
        self.share.put_off = self.share.put_off.saturating_add(1);
    }

    /// Time has passed.
    pub(crate) fn grow_old(&mut self, time: Duration)
        ensures { GrewOld time self.old self.new }
    {
        self.silence = self.silence.saturating_add(time);
        self.waited = self.waited.saturating_add(time);
    }

    // Whether the ARTIM timer runs, and has run out (PS3.8 section 9.1.5).
    fn is_late(&self, limits: &Limits) -> bool
        ensures { result ≡ is_late limits.now self.now }
    {
        self.stage.runs_artim() && has_run_out(limits.artim, self.waited)
    }

    // Whether it is given up, now that nothing came or went on it.
    fn is_over(&mut self, limits: &Limits) -> bool
        ensures over { result ≡ is_some (reason_to_end limits.now self.old) }
        ensures reason { self.new ≡ ended_for (reason_to_end limits.now self.old) self.old }
    {
        if self.is_late(limits) {
            self.reason = Some(Reason::Artim);
            return true;
        }
        if has_run_out(limits.quiet, self.silence) {
            self.reason = Some(Reason::Quiet);
            return true;
        }
        false
    }

    /// Reads what came. Once the ARTIM timer has run out it is read once more: what came while
    /// others had their turn is no delay of the peer's.
    pub(crate) fn read(&mut self, buffer: &mut [u8], limits: &Limits) -> Result<ReadTurn, WireFault>
        ensures bound { IfGot result (λ count. count ≤ length buffer.old) }
        ensures read { IsRead limits.now self.old self.new result }
        ensures overdue { self.old.stage ≡ Stage.Overdue → result ≡ Ok ReadTurn.Ended }
    {
        if let Stage::Overdue = self.stage {
            self.reason = Some(Reason::Artim);
            return Ok(ReadTurn::Ended);
        }
        match self.receive(buffer)? {
            ReadTurn::Nothing => {
                if self.is_over(limits) {
                    return Ok(ReadTurn::Ended);
                }
                Ok(ReadTurn::Nothing)
            }
            ReadTurn::Got(count) => {
                if self.is_late(limits) {
                    self.stage = Stage::Overdue;
                }
                Ok(ReadTurn::Got(count))
            }
            ReadTurn::Ended => Ok(ReadTurn::Ended),
        }
    }

    // Reads what the system has for it.
    fn receive(&mut self, buffer: &mut [u8]) -> Result<ReadTurn, WireFault>
        ensures bound { IfGot result (λ count. count ≤ length buffer.old) }
        ensures received { IsReceived self.old self.new result }
    {
        if !self.ready.is_readable {
            return Ok(ReadTurn::Nothing);
        }
        match self.socket.read(buffer) {
            Ok(0) => Ok(ReadTurn::Ended),
            Ok(count) => {
                self.take();
                // Where there was room for more, the system has no more: it tells what comes later.
                if count < buffer.len() {
                    self.ready.is_readable = self.ready.is_ending;
                }
                Ok(ReadTurn::Got(count))
            }
            Err(error) => match error.kind() {
                ErrorKind::Interrupted => Ok(ReadTurn::Nothing),
                ErrorKind::WouldBlock => {
                    self.ready.is_readable = false;
                    Ok(ReadTurn::Nothing)
                }
                _ => Err(WireFault),
            },
        }
    }

    // Octets came.
    fn take(&mut self)
        ensures { self.new ≡ heard_from self.old }
    {
        self.share.is_read = true;
        self.share.passed_over = 0;
        self.share.is_answered = false;
        self.silence = Duration::ZERO;
    }

    /// Writes the first of these octets.
    pub(crate) fn write(&mut self, octets: &[u8], limits: &Limits) -> Result<usize, WireFault>
        ensures bound { IfOk result (λ count. count ≤ length octets.now) }
        ensures written { IsWritten limits.now (length octets.now) self.old self.new result }
        ensures late { IsOk result → is_late limits.now (answered self.old) ≡ false }
    {
        self.answer();
        if self.is_late(limits) {
            self.reason = Some(Reason::Artim);
            return Err(WireFault);
        }
        match self.send(octets)? {
            0 => {
                if self.is_over(limits) {
                    return Err(WireFault);
                }
                Ok(0)
            }
            count => Ok(count),
        }
    }

    // Something is answered. After the last PDU the ARTIM timer goes on.
    fn answer(&mut self)
        ensures { self.new ≡ answered self.old }
    {
        match self.stage {
            Stage::Closing => {}
            Stage::Unasked | Stage::Overdue | Stage::Open => self.stage = Stage::Open,
        }
    }

    // Writes as many octets as the system takes.
    fn send(&mut self, octets: &[u8]) -> Result<usize, WireFault>
        ensures bound { IfOk result (λ count. count ≤ length octets.now) }
        ensures sent { IsSent (length octets.now) self.old self.new result }
    {
        if !self.ready.is_writable {
            return Ok(0);
        }
        self.is_sending = true;
        match self.socket.write(octets) {
            Ok(count) => {
                self.silence = Duration::ZERO;
                self.is_sending = count < octets.len();
                self.share.is_answered = !self.is_sending;
                self.share.put_off = 0;
                Ok(count)
            }
            Err(error) => match error.kind() {
                ErrorKind::Interrupted => Ok(0),
                ErrorKind::WouldBlock => {
                    self.ready.is_writable = false;
                    Ok(0)
                }
                _ => Err(WireFault),
            },
        }
    }

    /// Sends no more. The answer is its socket.
    pub(crate) fn end(self) -> Result<Socket, WireFault>
        ensures { IfOk result (λ socket. socket ≡ self.socket) }
    {
        self.socket.end().or(Err(WireFault))?;
        Ok(self.socket)
    }
}
