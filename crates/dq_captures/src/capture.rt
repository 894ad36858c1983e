//! Captures: the text of a history, an event a line.

ghost use Rattle.std.specs.Prelude.{◌≡◌, ℕ, ◌++◌, ◌∷◌, [], List, codes, IfOk, IsErrOf, MatchOption, MatchResult};
ghost use Rattle.dq_core.specs.declared.event.Event.{Event};
ghost use Rattle.dq_core.specs.Histories.{rises_from, newest_after};
ghost use Rattle.dq_core.specs.Soundness.{BringOctets};
ghost use Rattle.dq_captures.specs.Captures.{lines_of, is_skipped, IsNumber, SpellOctets, SpellsPiece, SpellsOrder, SpellsEvent, AreCapture, IsFirstBadLine, Finds};

use dq_config::is_name;
use dq_core::Event;
use dq_list::Listed;
use hex::FromHexError;
use std::alloc::{AllocError, Global};
use thiserror::Error;

/// The reason why a capture cannot be read.
#[derive(Clone, Copy, Debug, PartialEq, Eq, Error)]
pub enum CaptureFault {
    /// The first bad line, counted from 1.
    #[error("capture line {0}")]
    Line(u64),
    #[error("memory ran out")]
    NoMemory,
}

/// Returns the rest of a line after a word at its front.
fn behind<'a>(line: &'a str, word: &str) -> Option<&'a str>
    ensures { MatchOption result ((rest : List ℕ) → line.now ≡ word.now ++ rest → ⊥)
        (λ rest. line.now ≡ word.now ++ rest.now) }
{
    line.strip_prefix(word)
}

// `parse` takes a sign, and zeros in front.
fn number_of(digits: &str) -> Option<u64>
    ensures { Finds (IsNumber digits.now) result }
{
    if digits.starts_with('+') {
        return None;
    }
    if digits.len() > 1 && digits.starts_with('0') {
        return None;
    }
    digits.parse::<u64>().ok()
}

fn octets_of(alloc: Global, text: &str) -> Result<Option<Vec<u8>>, AllocError>
    ensures { IfOk result (λ found. MatchOption found
        ((octets : List ℕ) → SpellOctets text.now octets → ⊥)
        (λ octets. SpellOctets text.now octets.items)) }
{
    if text == "-" {
        return Ok(Some(Vec::new(alloc)));
    }
    if text.is_empty() {
        return Ok(None);
    }
    match hex::decode(alloc, text) {
        Ok(octets) => Ok(Some(octets)),
        Err(FromHexError::OutOfMemory) => Err(AllocError),
        Err(_) => Ok(None),
    }
}

fn piece_of(alloc: Global, rest: &str) -> Result<Option<Event>, AllocError>
    ensures { IfOk result (Finds (SpellsPiece rest.now)) }
{
    let Some((digits, text)) = rest.split_once(' ') else {
        return Ok(None);
    };
    let Some(number) = number_of(digits) else {
        return Ok(None);
    };
    let Some(octets) = octets_of(alloc, text)? else {
        return Ok(None);
    };
    Ok(Some(Event::Piece(number, Listed::from_inner(octets))))
}

/// An order of the console: the institution's name, and the octets.
fn order_of(alloc: Global, rest: &str) -> Result<Option<(Listed<u8>, Listed<u8>)>, AllocError>
    ensures { IfOk result (λ found. MatchOption found
        ((name octets : List ℕ) → SpellsOrder rest.now name octets → ⊥)
        (λ order. SpellsOrder rest.now order.0 order.1)) }
{
    let Some((name, text)) = rest.split_once(' ') else {
        return Ok(None);
    };
    if !is_name(name.as_bytes()) {
        return Ok(None);
    }
    let Some(octets) = octets_of(alloc, text)? else {
        return Ok(None);
    };
    let name = Vec::from_slice(alloc, name.as_bytes())?;
    Ok(Some((Listed::from_inner(name), Listed::from_inner(octets))))
}

fn schedule_of(alloc: Global, rest: &str) -> Result<Option<Event>, AllocError>
    ensures { IfOk result (λ found. (line : List ℕ) → line ≡ codes "schedule " ++ rest.now →
        Finds (SpellsEvent line) found) }
{
    match order_of(alloc, rest)? {
        Some((inst, octets)) => Ok(Some(Event::Schedule { inst, octets })),
        None => Ok(None),
    }
}

fn withdrawal_of(alloc: Global, rest: &str) -> Result<Option<Event>, AllocError>
    ensures { IfOk result (λ found. (line : List ℕ) → line ≡ codes "withdraw " ++ rest.now →
        Finds (SpellsEvent line) found) }
{
    match order_of(alloc, rest)? {
        Some((inst, id)) => Ok(Some(Event::Withdraw { inst, id })),
        None => Ok(None),
    }
}

/// The event that a line tells.
pub fn event_of(alloc: Global, line: &str) -> Result<Option<Event>, AllocError>
    ensures { IfOk result (Finds (SpellsEvent line.now)) }
{
    if let Some(digits) = behind(line, "open ") {
        return Ok(number_of(digits).map(Event::Open));
    }
    if let Some(digits) = behind(line, "end ") {
        return Ok(number_of(digits).map(Event::End));
    }
    if let Some(digits) = behind(line, "pull ") {
        return Ok(number_of(digits).map(Event::Pull));
    }
    if let Some(rest) = behind(line, "piece ") {
        return piece_of(alloc, rest);
    }
    if let Some(rest) = behind(line, "schedule ") {
        return schedule_of(alloc, rest);
    }
    match behind(line, "withdraw ") {
        Some(rest) => withdrawal_of(alloc, rest),
        None => Ok(None),
    }
}

fn is_skipped(line: &str) -> bool
    ensures { result ≡ is_skipped line.now }
{
    line.is_empty() || line.starts_with('#')
}

fn rises(newest: Option<u64>, event: &Event) -> bool
    ensures { result ≡ rises_from newest (event.now ∷ []) }
{
    match (newest, event) {
        (Some(newest), Event::Open(number)) => newest < *number,
        _ => true,
    }
}

fn newest_after(newest: Option<u64>, event: &Event) -> Option<u64>
    ensures { result ≡ newest_after newest (event.now ∷ []) }
{
    match event {
        Event::Open(number) => Some(*number),
        _ => newest,
    }
}

fn read_lines(alloc: Global, text: &str) -> Result<Vec<Event>, CaptureFault>
    ensures events { IfOk result (λ events. AreCapture (lines_of text.now) events.items) }
    ensures line { (number : ℕ) → IsErrOf result (CaptureFault.Line number)
        → IsFirstBadLine (lines_of text.now) number }
{
    let mut events = Vec::new(alloc);
    let mut newest = None;
    let mut number: u64 = 0;
    for line in text.split('\n') {
        number += 1;
        if is_skipped(line) {
            continue;
        }
        let event = match event_of(alloc, line) {
            Ok(Some(event)) => event,
            Ok(None) => return Err(CaptureFault::Line(number)),
            Err(AllocError) => return Err(CaptureFault::NoMemory),
        };
        if !rises(newest, &event) {
            return Err(CaptureFault::Line(number));
        }
        newest = newest_after(newest, &event);
        if events.push(event).is_err() {
            return Err(CaptureFault::NoMemory);
        }
    }
    Ok(events)
}

/// The events that the lines of a text tell, or the number of the first bad line, counted from 1.
pub fn read_capture(alloc: Global, text: &str) -> Result<Vec<Event>, CaptureFault>
    ensures events { IfOk result (λ events. AreCapture (lines_of text.now) events.items) }
    ensures line { (number : ℕ) → IsErrOf result (CaptureFault.Line number)
        → IsFirstBadLine (lines_of text.now) number }
    // Lines that tell events are read, unless memory runs out.
    ensures only { (events : List Event) → AreCapture (lines_of text.now) events →
        MatchResult result (λ read. read.items ≡ events) (λ fault. fault ≡ CaptureFault.NoMemory) }
    // The events bring octets, numbers below 256.
    ensures octets { IfOk result (λ events. BringOctets events.items) }
{
    read_lines(alloc, text)
}

/// The events of a capture bring octets, numbers below 256.
pub fn captures_bring_octets()
    ensures { (lines : List (List ℕ)) (events : List Event) →
        AreCapture lines events → BringOctets events }
{}

/// Lines tell at most one list of events.
pub fn lines_tell_one()
    ensures { (lines : List (List ℕ)) (es fs : List Event) →
        AreCapture lines es → AreCapture lines fs → es ≡ fs }
{}
