//! The lines of a log.
ghost use Rattle.std.specs.Prelude.{◌≡◌};
ghost use Rattle.dq_value.specs.Title.{without_spaces};
ghost use Rattle.dq_wires.specs.LogWords.{rejection_words, ending_word, party_word, searched_word};

use crate::given_up::GivenUp;
use crate::watched::ServedCounts;
use dq_assoc::{AssociationEnd, Party, Rejection, Service};
use dq_core::{LogEvent, QuerySummary, Titles};
use dq_list::Listed;
use dq_value::stripped;
use dq_vr::Tag;
use jiff::Timestamp;
use std::fmt;
use std::net::SocketAddr;

/// The content of a line.
#[derive(Clone, Copy)]
pub(crate) enum LineContent<'a> {
    /// The server starts, of a version.
    Started(&'a str),
    /// An event that was noted, with the peer's address, and how many milliseconds its turn took.
    Event {
        noted: &'a LogEvent,
        peer: Option<SocketAddr>,
        milliseconds: u64,
    },
    /// An association ended, by what was noted, after so many milliseconds.
    Ended {
        noted: &'a LogEvent,
        counts: ServedCounts,
        milliseconds: u64,
    },
    /// A connection was given up.
    GivenUp(GivenUp),
    /// An order of the console, and what was answered.
    Console(&'a str),
    /// A request of the web front, and what was answered.
    Web(&'a str),
    /// The server stops by a fault of a number, or for want of connections.
    Stopped(Option<u8>),
    /// So many lines could not be written.
    Lost(u64),
}

/// A line: the time, the number of the connection that it is about, or none, and what is told.
#[derive(Clone, Copy)]
pub(crate) struct LogLine<'a> {
    pub time: Timestamp,
    pub number: Option<u64>,
    pub told: LineContent<'a>,
}

/// Octets as one word: `-` where there are none, and `?` for each that is no graphic character of
/// ASCII.
#[derive(Clone, Copy)]
struct Word<'a>(&'a [u8]);

/// An address, or `-`.
#[derive(Clone, Copy)]
struct Address(Option<SocketAddr>);

/// A pair of titles, the called one first, if a request told them.
#[derive(Clone, Copy)]
struct Pair(Option<Titles>);

/// Tags as eight hexadecimal digits each, or `-` where there are none.
#[derive(Clone, Copy)]
struct Keys<'a>(&'a [Tag]);

impl fmt::Display for Word<'_> {
    fn fmt<W: fmt::Write>(&self, f: &mut fmt::Formatter<W>) -> fmt::Result {
        if self.0.is_empty() {
            return f.write_str("-");
        }
        for octet in self.0 {
            let shown = if octet.is_ascii_graphic() {
                *octet
            } else {
                b'?'
            };
            f.write_char(char::from(shown))?;
        }
        Ok(())
    }
}

impl fmt::Display for Address {
    fn fmt<W: fmt::Write>(&self, f: &mut fmt::Formatter<W>) -> fmt::Result {
        match self.0 {
            Some(peer) => write!(f, "{peer}"),
            None => f.write_str("-"),
        }
    }
}

impl fmt::Display for Pair {
    fn fmt<W: fmt::Write>(&self, f: &mut fmt::Formatter<W>) -> fmt::Result {
        let Some(titles) = &self.0 else {
            return f.write_str("- -");
        };
        let called = Word(stripped(&titles.called));
        let calling = Word(stripped(&titles.calling));
        write!(f, "{called} {calling}")
    }
}

impl fmt::Display for Keys<'_> {
    fn fmt<W: fmt::Write>(&self, f: &mut fmt::Formatter<W>) -> fmt::Result {
        let mut mark = "";
        for tag in self.0 {
            write!(f, "{mark}{:04x}{:04x}", tag.group, tag.element)?;
            mark = ",";
        }
        if self.0.is_empty() {
            return f.write_str("-");
        }
        Ok(())
    }
}

/// Returns what is meant by a rejection.
fn rejection_words(rejection: Rejection) -> &'static str
    ensures { result.now ≡ rejection_words rejection }
{
    match rejection {
        Rejection::ProtocolVersion => "another protocol version",
        Rejection::ApplicationContext => "another application context than DICOM's",
        Rejection::MaximumLength => "a maximum length below 8",
        Rejection::Titles => "no institution has these titles",
        Rejection::Associations => "the institution has as many associations as it may",
    }
}

/// How an association ended, in a word.
fn ending_of(noted: &LogEvent) -> &'static str
    ensures { result.now ≡ ending_word noted.now }
{
    match noted {
        LogEvent::Closed {
            end: AssociationEnd::Released,
            ..
        } => "released",
        LogEvent::Closed { .. } => "aborted",
        _ => "lost",
    }
}

/// Who aborts, in a word.
fn name_of(party: Party) -> &'static str
    ensures { result.now ≡ party_word party }
{
    match party {
        Party::Peer => "peer",
        Party::Server => "server",
    }
}

/// Returns the word for what a service searches.
fn searched_by(service: Service) -> &'static str
    ensures { result.now ≡ searched_word service }
{
    match service {
        Service::WorklistFind => "worklist",
        _ => "study",
    }
}

/// Returns a value as a word, without the spaces at its ends.
fn word_of(value: &Listed<u8>) -> Word<'_>
    ensures { result.0.now ≡ without_spaces value.now }
{
    Word(stripped(value.as_slice()))
}

/// Writes what a C-FIND asks for, if it could be read.
fn write_query<W: fmt::Write>(
    f: &mut fmt::Formatter<W>,
    query: Option<&QuerySummary>,
) -> fmt::Result {
    let Some(query) = query else {
        return f.write_str("unread");
    };
    write!(
        f,
        "modality {} station {} day {} keys {}",
        word_of(&query.modality),
        word_of(&query.station),
        word_of(&query.day),
        Keys(query.keys.as_slice())
    )
}

/// Writes why an association was rejected or aborted.
fn write_end<W: fmt::Write>(
    f: &mut fmt::Formatter<W>,
    pair: Pair,
    end: AssociationEnd,
    peer: Address,
) -> fmt::Result {
    match end {
        AssociationEnd::Rejected(rejection) => {
            let (result, source, reason) = rejection.numbers();
            let words = rejection_words(rejection);
            write!(
                f,
                "rejected {pair} {peer} {result} {source} {reason} {words}"
            )
        }
        AssociationEnd::Aborted(party, source, reason) => {
            write!(f, "aborted by the {} {source} {reason}", name_of(party))
        }
        AssociationEnd::Released => Ok(()),
    }
}

/// Writes what was noted. The end of an association has a line of its own.
fn write_noted<W: fmt::Write>(
    f: &mut fmt::Formatter<W>,
    noted: &LogEvent,
    peer: Address,
    milliseconds: u64,
) -> fmt::Result {
    match noted {
        LogEvent::Accepted {
            institution,
            titles,
            contexts,
        } => {
            let name = Word(institution.as_slice());
            let pair = Pair(Some(*titles));
            let noun = if *contexts == 1 {
                "context"
            } else {
                "contexts"
            };
            write!(f, "accepted {name} {pair} {peer} {contexts} {noun}")
        }
        LogEvent::Served {
            service,
            status,
            answers,
            query,
        } => {
            write!(f, "{} query ", searched_by(*service))?;
            write_query(f, query.as_ref())?;
            write!(
                f,
                " status {status:04x} answers {answers} ms {milliseconds}"
            )
        }
        LogEvent::Closed { titles, end } => write_end(f, Pair(*titles), *end, peer),
        LogEvent::Ended => Ok(()),
    }
}

impl fmt::Display for LogLine<'_> {
    fn fmt<W: fmt::Write>(&self, f: &mut fmt::Formatter<W>) -> fmt::Result {
        write!(f, "{:.3} ", self.time)?;
        match self.number {
            Some(number) => write!(f, "{number} ")?,
            None => f.write_str("- ")?,
        }
        match self.told {
            LineContent::Event {
                noted,
                peer,
                milliseconds,
            } => write_noted(f, noted, Address(peer), milliseconds),
            LineContent::Ended {
                noted,
                counts,
                milliseconds,
            } => {
                let (seconds, rest) = (milliseconds / 1000, milliseconds % 1000);
                write!(
                    f,
                    "ended {} {seconds}.{rest:03} s {counts}",
                    ending_of(noted)
                )
            }
            LineContent::Started(version) => write!(f, "started {version}"),
            LineContent::GivenUp(given_up) => write!(f, "{given_up}"),
            LineContent::Console(note) => write!(f, "console {note}"),
            LineContent::Web(note) => write!(f, "web {note}"),
            LineContent::Stopped(Some(fault)) => write!(f, "stopped fault {fault}"),
            LineContent::Stopped(None) => f.write_str("stopped network"),
            LineContent::Lost(count) => write!(f, "{count} lines are lost"),
        }
    }
}
