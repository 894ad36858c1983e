//! A log of connections and their associations.
ghost use Rattle.std.specs.Prelude.{◌≡◌, ◌⊎◌, ◌++◌, [], ◌∷◌, map};
ghost use Rattle.dq_wires.specs.Lines.{has_line};
ghost use Rattle.dq_wires.specs.LogWords.{milliseconds_between};
ghost use Rattle.dq_wires.specs.Watching.{newly_watched, shut_at, without_associations, without_shut};

use crate::given_up::GivenUp;
use crate::log::log_line::{LineContent, LogLine};
use crate::watched::Watched;
use dq_assoc::{AssociationEnd, Service};
use dq_core::{LogEvent, Note, Notes};
use jiff::Timestamp;
use std::alloc::{AllocError, Global};
use std::io::Write;
use std::net::SocketAddr;
use std::time::Clock;

/// A log of connections, by lines. Each begins with the time (RFC 3339, in UTC) and the number of
/// the connection, or `-` where it is about none that has a number:
///
/// - `- started 0.1.0`: the server starts, and its version;
/// - `1 accepted NORTH ARCHIVE CT1 192.0.2.7:40112 3 contexts`: the institution, the called and the
///   calling title, the peer's address, and how many presentation contexts were accepted;
/// - `2 rejected ARCHIVE CT9 192.0.2.7:40113 1 1 1 ..`: the titles and the address, then the
///   rejection's result, source and reason (PS3.8 section 9.3.4), and what is meant by them;
/// - `3 aborted by the peer 0 0`, `3 aborted by the server 2 6`: the abort's source and reason
///   (PS3.8 section 9.3.8), also where no association had been accepted;
/// - `1 worklist query modality CT station CT1 day 20240705 keys 00100010,00400100 status 0000
///   answers 3 ms 2`, and the same with `study`: what a C-FIND asks for of the modality, the station
///   and the day, the tags of all keys, the status of the final response, how many answers were
///   sent, and how long the turn took in which the last one was. It is told then;
/// - `1 ended released 3.250 s stores 2 searches 1 answers 3 steps 0 refused 1`: an accepted
///   association ended, also as `aborted`, or `lost` with its connection;
/// - `4 given up 192.0.2.7:40112 artim`, and the same with `quiet`: the peer's address, and why;
/// - `- given up 192.0.2.7:40112 peer-connections`: it was closed as it came;
/// - `- console schedule NORTH done`: an order of the console, and what was answered;
/// - `- web 192.0.2.7:40113 viewer GET NORTH /rs/studies 200 ms 3`: a request of the web front: its
///   peer (and the address that a proxy gives for it), the label of its token, its method, the
///   institution, the path below that, the status of the response, and how many milliseconds it took;
/// - `- stopped fault 2`, `- stopped network`: the server stops;
/// - `- 3 lines are lost`: so many could not be written before this one.
///
/// The numbers are counted from 1, in the order in which connections come. Titles and values are
/// without the spaces at their ends; `?` stands for each octet of them that is no graphic character
/// of ASCII, and `-` for an empty one. Nothing else is told of a data set: the notes of the server,
/// from which the lines are, hold nothing else.
///
/// A line that cannot be written is counted, and the next one that can says how many were lost. It
/// begins a line of its own where the one before was cut.
#[derive(Drop)]
pub struct AssociationLog<L> {
    alloc: Global,
    lines: L,
    lost: u64,
    is_torn: bool,
    time: Timestamp,
    newest: u64,
    watched: Vec<Watched>,
}

impl<L: Write + Drop> AssociationLog<L> {
    /// The log of wires on which no connection has come yet.
    pub fn new(alloc: Global, lines: L) -> Self
        ensures { result.watched.items ≡ [] }
    {
        AssociationLog {
            alloc,
            lines,
            lost: 0,
            is_torn: false,
            time: Timestamp::UNIX_EPOCH,
            newest: 0,
            watched: Vec::new(alloc),
        }
    }

    /// Tells that the server starts, and its version.
    pub fn start(&mut self, version: &str)
        ensures { self.new.watched ≡ self.old.watched }
    {
        self.put(None, LineContent::Started(version));
    }

    /// Lines have from now on the time of a clock. Where it fails they keep the time before.
    pub fn read_clock(&mut self, clock: &impl Clock)
        ensures { self.new.watched ≡ self.old.watched }
    {
        if let Ok(time) = Timestamp::now(clock) {
            self.time = time;
        }
    }

    /// A connection came. Where there is no memory for it, it is not watched.
    pub(crate) fn begin(&mut self, place: usize, peer: Option<SocketAddr>)
        ensures { (self.new.watched.items ≡ self.old.watched.items
            ++ newly_watched place self.new.newest peer ∷ [])
            ⊎ (self.new.watched.items ≡ self.old.watched.items) }
    {
        self.newest = self.newest.saturating_add(1);
        let watched = Watched::new(place, self.newest, peer);
        if self.watched.push(watched).is_err() {
            self.lose(1);
        }
    }

    /// A connection was closed as it came.
    pub(crate) fn turn_away(&mut self, given_up: GivenUp)
        ensures { self.new.watched ≡ self.old.watched }
    {
        self.put(None, LineContent::GivenUp(given_up));
    }

    /// A connection is gone, and was given up if that is said.
    pub(crate) fn end(&mut self, place: usize, given_up: Option<GivenUp>)
        ensures { self.new.watched.items ≡ map (shut_at place) self.old.watched.items }
    {
        let mut number = None;
        for watched in self.watched.iter_mut() {
            if watched.place == place && !watched.is_shut {
                watched.is_shut = true;
                number = Some(watched.number);
            }
        }
        if let (Some(_), Some(given_up)) = (number, given_up) {
            self.put(number, LineContent::GivenUp(given_up));
        }
    }

    /// Tells the notes of a turn, which began when the clock was last read. From then on connections
    /// that are gone are not watched any more.
    pub fn tell(&mut self, notes: &Notes, clock: &impl Clock)
        ensures { without_associations self.new.watched.items
            ≡ without_associations (without_shut self.old.watched.items) }
    {
        let begun = self.time;
        self.read_clock(clock);
        let milliseconds = milliseconds_between(begun, self.time);
        for note in notes.list.as_slice() {
            self.tell_note(note, milliseconds);
        }
        self.lose(notes.lost);
        self.watched.retain(|watched| !watched.is_shut);
    }

    // Tells a note, if there is a line of it, and the end of an association that it brings.
    fn tell_note(&mut self, note: &Note, milliseconds: u64)
        ensures { without_associations self.new.watched.items ≡ without_associations self.old.watched.items }
    {
        let Note { number, noted } = note;
        let time = self.time;
        let mut peer = None;
        let mut ended = None;
        for watched in self.watched.iter_mut() {
            if watched.number == *number {
                watched.count(noted, time);
                peer = watched.peer;
                ended = watched.close(noted);
            }
        }
        if is_told(noted) {
            self.put(
                Some(*number),
                LineContent::Event {
                    noted,
                    peer,
                    milliseconds,
                },
            );
        }
        if let Some(opened) = ended {
            self.put(
                Some(*number),
                LineContent::Ended {
                    noted,
                    counts: opened.counts,
                    milliseconds: milliseconds_between(opened.since, time),
                },
            );
        }
    }

    /// Tells notes of the console, a line each.
    pub fn note(&mut self, notes: &str)
        ensures { self.new.watched ≡ self.old.watched }
    {
        for note in notes.lines() {
            self.put(None, LineContent::Console(note));
        }
    }

    /// Tells notes of the web front, a line each.
    pub fn note_web(&mut self, notes: &str)
        ensures { self.new.watched ≡ self.old.watched }
    {
        for note in notes.lines() {
            self.put(None, LineContent::Web(note));
        }
    }

    /// Tells that the server stops: by a fault of a number, or for want of connections.
    pub fn stop(&mut self, fault: Option<u8>)
        ensures { self.new.watched ≡ self.old.watched }
    {
        self.put(None, LineContent::Stopped(fault));
    }

    // Writes a line, after one that says how many before it were lost.
    fn put(&mut self, number: Option<u64>, told: LineContent)
        ensures { self.new.watched ≡ self.old.watched }
    {
        if self.lost > 0 {
            if !self.is_put(None, LineContent::Lost(self.lost)) {
                return self.lose(1);
            }
            self.lost = 0;
        }
        if !self.is_put(number, told) {
            self.lose(1);
        }
    }

    // Writes a line, and answers whether all of it was taken.
    fn is_put(&mut self, number: Option<u64>, told: LineContent) -> bool
        ensures { self.new.watched ≡ self.old.watched }
    {
        let line = LogLine {
            time: self.time,
            number,
            told,
        };
        let start = if self.is_torn { "\n" } else { "" };
        let Ok(text) = format!(in self.alloc; "{start}{line}\n") else {
            return false;
        };
        match self.lines.write(text.as_bytes()) {
            Ok(count) => {
                self.is_torn = count < text.len() && (count > 0 || self.is_torn);
                count == text.len() && self.lines.flush().is_ok()
            }
            Err(_) => false,
        }
    }

    fn lose(&mut self, count: u64)
        ensures { self.new.watched ≡ self.old.watched }
    {
        self.lost = self.lost.saturating_add(count);
    }
}

/// Whether what was noted has a line of its own: of messages only queries have.
fn is_told(noted: &LogEvent) -> bool
    ensures { result ≡ has_line noted.now }
{
    match noted {
        LogEvent::Ended
        | LogEvent::Closed {
            end: AssociationEnd::Released,
            ..
        } => false,
        LogEvent::Accepted { .. } | LogEvent::Closed { .. } => true,
        LogEvent::Served { service, .. } => {
            *service == Service::StudyRootFind || *service == Service::WorklistFind
        }
    }
}

/// How many milliseconds passed from one time to another, and none where the clock was set back.
fn milliseconds_between(from: Timestamp, to: Timestamp) -> u64
    ensures { result ≡ milliseconds_between from to }
{
    let passed = to.as_millisecond().saturating_sub(from.as_millisecond());
    u64::try_from(passed).unwrap_or(0)
}
