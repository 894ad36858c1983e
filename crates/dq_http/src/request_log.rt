//! The log's note of a request.
ghost use Rattle.std.specs.Prelude.{◌≡◌, ◌++◌, ◌==◌, [], None, codes, position, string_bytes, take, IfOk, OnErr, OnOk};
ghost use Rattle.std.specs.List.{list_all};
ghost use Rattle.dq_web.specs.Counting.{with_request};
ghost use Rattle.dq_wires.specs.LogWords.{peer_text};
ghost use Rattle.dq_http.specs.Notes.{told_octet, told_text, is_of_name, path_of, parts_of, words_text, sender_text, outcome_text, direct_sender, has_address, HasNote};

use dq_web::{Head, RequestCounts, Status, Written};
use dq_wires::GivenUp;
use httpdate::HttpDate;
use std::alloc::{AllocError, Global};
use std::mem;
use std::net::{IpAddr, SocketAddr};
use std::time::{Instant, SystemTime};

/// The most octets of a path that are told.
const TOLD_MOST: usize = 128;

/// An octet as it is told: one that is no graphic character of ASCII as a question mark.
fn told(octet: u8) -> char
    ensures { result ≡ told_octet octet }
{
    if octet.is_ascii_graphic() {
        char::from(octet)
    } else {
        '?'
    }
}

/// The first octets, no more than the most that are told.
fn front_of(octets: &[u8]) -> &[u8]
    ensures { result.now ≡ take 128 octets.now }
{
    octets.split_at(TOLD_MOST.min(octets.len())).0
}

/// Adds octets as they are told, no more than the most, and a hyphen where there are none.
fn put_told(text: &mut String, octets: &[u8]) -> Result<(), AllocError>
    ensures { OnOk result (string_bytes text.new ≡ string_bytes text.old ++ told_text octets.now) }
{
    if octets.is_empty() {
        return text.push('-');
    }
    let front = front_of(octets);
    for octet in front {
        text.push(told(*octet))?;
    }
    Ok(())
}

/// Where an octet stands first.
fn place_of(octet: u8, octets: &[u8]) -> Option<usize>
    ensures { result ≡ position (λ it. it == octet) octets.now }
{
    octets.iter().position(|it| *it == octet)
}

/// Returns the part of a target before its query.
fn path_of(target: &[u8]) -> &[u8]
    ensures { result.now ≡ path_of target.now }
{
    match place_of(b'?', target) {
        Some(end) => target.get(..end).unwrap_or(target),
        None => target,
    }
}

fn is_of_name(octet: &u8) -> bool
    ensures { result ≡ is_of_name octet.now }
{
    octet.is_ascii_uppercase() || octet.is_ascii_digit() || *octet == b'_'
}

fn are_of_name(octets: &[u8]) -> bool
    ensures { result ≡ list_all is_of_name octets.now }
{
    octets.iter().all(is_of_name)
}

/// The name of the institution with which a path begins, and the path below that. There is no name
/// where a path has but one part.
fn parts_of(path: &[u8]) -> (&[u8], &[u8])
    ensures { (result.0.now, result.1.now) ≡ parts_of path.now }
{
    let Some((slash, rest)) = path.split_first() else {
        return (&[], path);
    };
    match place_of(b'/', rest) {
        Some(end) if *slash == b'/' && are_of_name(rest.split_at(end).0) => rest.split_at(end),
        _ => (&[], path),
    }
}

/// The words of a request in a log: the label of the access token that let it in, its method, its
/// institution, each a hyphen if there is none, and the path below that without its query.
pub(crate) fn words_of(alloc: Global, label: &[u8], head: &Head<'_>) -> Result<String, AllocError>
    ensures { IfOk result (λ words. string_bytes words ≡ words_text label.now head.now) }
{
    let (name, below) = parts_of(path_of(head.target));
    let mut text = String::new(alloc);
    put_told(&mut text, label)?;
    text.push(' ')?;
    put_told(&mut text, head.method)?;
    text.push(' ')?;
    put_told(&mut text, name)?;
    text.push(' ')?;
    put_told(&mut text, below)?;
    Ok(text)
}

/// The words of a request that cannot be read.
pub(crate) const UNREADABLE: &str = "- - - -";

/// The sender of a request: the address of its peer, if that is known, and that from which the peer
/// says that the request came, if it is a proxy that is believed.
#[derive(Clone, Copy)]
pub(crate) struct Sender {
    pub address: Option<SocketAddr>,
    pub forwarded: Option<IpAddr>,
}

impl Sender {
    /// A peer for whom no proxy has spoken.
    pub fn direct(peer: Option<SocketAddr>) -> Self
        ensures { result ≡ direct_sender peer }
    {
        Sender {
            address: peer,
            forwarded: None,
        }
    }
}

/// Whether a peer has an address.
pub(crate) fn has_address(peer: Option<SocketAddr>, address: IpAddr) -> bool
    ensures { result ≡ has_address peer address }
{
    match peer {
        Some(peer) => peer.ip() == address,
        None => false,
    }
}

/// The address of a peer, or a hyphen where it is not known.
fn peer_text(alloc: Global, peer: Option<SocketAddr>) -> Result<String, AllocError>
    ensures { IfOk result (λ text. string_bytes text ≡ peer_text peer) }
{
    match peer {
        Some(peer) => format!(in alloc; "{peer}"),
        None => String::from_str(alloc, "-"),
    }
}

/// The address of a sender, followed by that from which its request came.
fn sender_text(alloc: Global, sender: Sender) -> Result<String, AllocError>
    ensures { IfOk result (λ text. string_bytes text ≡ sender_text sender) }
{
    let peer = peer_text(alloc, sender.address)?;
    match sender.forwarded {
        Some(address) => format!(in alloc; "{peer} for {address}"),
        None => Ok(peer),
    }
}

/// The outcome of a request: the status code of its response, or that there is no memory for one.
fn outcome_text(alloc: Global, status: Option<Status>) -> Result<String, AllocError>
    ensures { IfOk result (λ text. string_bytes text ≡ outcome_text status) }
{
    match status {
        Some(status) => format!(in alloc; "{}", status.code()),
        None => String::from_str(alloc, "no memory"),
    }
}

/// A clock, the notes of requests, a line each, and how many were answered.
#[derive(Drop)]
pub(crate) struct Notes {
    alloc: Global,
    clock: HostRuntime,
    lines: String,
    requests: RequestCounts,
}

impl Notes {
    /// No notes yet.
    pub fn new(alloc: Global, rt: &HostRuntime) -> Self
        ensures { string_bytes result.lines ≡ [] }
    {
        Notes {
            alloc,
            clock: *rt,
            lines: String::new(alloc),
            requests: RequestCounts::default(),
        }
    }

    /// The date of the clock, if it says one.
    pub fn date(&self) -> Option<HttpDate> {
        match SystemTime::now(&self.clock) {
            Ok(time) => HttpDate::try_from(time).ok(),
            Err(_) => None,
        }
    }

    /// The instant of the clock, if it says one.
    pub fn now(&self) -> Option<Instant> {
        Instant::now(&self.clock).ok()
    }

    /// Counts a response.
    pub fn count(&mut self, written: &Written)
        ensures { self.new ≡ record self.old {
          requests = with_request written.now.kind written.now.status self.old.requests;
        } }
    {
        self.requests.count(written.kind, written.status);
    }

    /// Returns how many requests were answered.
    pub fn requests(&self) -> RequestCounts
        ensures { result ≡ self.now.requests }
    {
        self.requests
    }

    /// Adds a note of a peer's request that was whole at an instant, and of the status of its response, or that
    /// there is no memory for one.
    pub fn tell(
        &mut self,
        peer: Sender,
        words: &str,
        begun: Option<Instant>,
        status: Option<Status>,
    ) -> Result<(), AllocError>
        ensures line { OnOk result (HasNote peer words.now status (string_bytes self.old.lines)
            (string_bytes self.new.lines)) }
        ensures lost { OnErr result (string_bytes self.new.lines ≡ string_bytes self.old.lines) }
        ensures requests { self.new.requests ≡ self.old.requests }
    {
        let milliseconds = match (begun, self.now()) {
            (Some(begun), Some(now)) => now.duration_since(begun).as_millis(),
            _ => 0,
        };
        let outcome = outcome_text(self.alloc, status)?;
        let peer = sender_text(self.alloc, peer)?;
        let line = format!(in self.alloc; "{peer} {words} {outcome} ms {milliseconds}\n")?;
        self.lines.push_str(line.as_str())
    }

    /// Adds a note of a peer that is let go before its request is read, for want of memory.
    pub fn tell_unread(&mut self, peer: Sender, begun: Option<Instant>) -> Result<(), AllocError>
        ensures { OnOk result (HasNote peer (codes "- - - -") None (string_bytes self.old.lines)
            (string_bytes self.new.lines)) }
    {
        self.tell(peer, UNREADABLE, begun, None)
    }

    /// Adds a note of a connection that was closed when it came, if one was.
    pub fn turn_away(&mut self, turned_away: Option<GivenUp>)
        ensures { turned_away ≡ None → self.new ≡ self.old }
    {
        let Some(given_up) = turned_away else {
            return;
        };
        if let Ok(line) = format!(in self.alloc; "{given_up}\n") {
            let _ = self.lines.push_str(line.as_str());
        }
    }

    /// The notes since this was last asked.
    pub fn take(&mut self) -> String
        ensures taken { result ≡ self.old.lines }
        ensures left { string_bytes self.new.lines ≡ [] }
        ensures requests { self.new.requests ≡ self.old.requests }
    {
        mem::replace(&mut self.lines, String::new(self.alloc))
    }
}
