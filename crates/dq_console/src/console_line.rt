//! The console's lines: how they spell what is asked and what is answered.
ghost use Rattle.std.specs.Prelude.{◌≡◌, ◌++◌, ◌∷◌, ℕ, List, [], filter, codes, IfOk, OnOk, MatchOption, MatchBool, string_bytes};
ghost use Rattle.std.specs.Fmt.{decimal};
ghost use Rattle.dq_captures.specs.Reports.{kind_word};
ghost use Rattle.dq_request.specs.Searches.{TakesWords, StopsAt};
ghost use Rattle.dq_wires.specs.Turners.{IsOrder};
ghost use Rattle.dq_console.specs.ConsoleLines.{subject_word, name_in, is_word, words_of, words_in, TellsLine, IsAskedBy, SpellsOrder, SpellsSearch, count_in, count_text, counted_line, counted_text, json_lines, answers_text, refused_text, misspelled_text, keys_error_word, keys_text, response_text};

use crate::asks::KeysError;
use crate::counting::KINDS;
use dq_captures::event_of;
use dq_core::Event;
use dq_dataset::DataSet;
use dq_json::json_of;
use dq_list::Listed;
use dq_request::{Counted, Counts, Request, Response, Search, Subject};
use dq_tables::Kind;
use std::alloc::{AllocError, Global};

/// The most that is shown of a search at a time, where no limit is given.
const PAGE_MOST: usize = 1000;

/// The answer to a line that tells nothing.
pub const BAD_LINE: &str = "bad line\n";

/// The meaning of a line of the console.
#[derive(Drop)]
pub enum ConsoleLine {
    Asked(Request),
    /// The web front's keys are to be read anew.
    Keys,
    /// A word of a search that is none.
    Misspelled(String),
    Bad,
}

/// The word of a search, and the space behind it.
fn subject_word(subject: Subject) -> &'static str
    ensures { result.now ≡ subject_word subject }
{
    match subject {
        Subject::Studies => "studies ",
        Subject::Series => "series ",
        Subject::Images => "images ",
        Subject::StudyImages => "study-images ",
        Subject::Worklist => "worklist ",
        Subject::Steps => "steps ",
    }
}

/// Returns the rest of a line after the word of a search, if the line begins with it.
fn behind(subject: Subject, line: &str) -> Option<&str>
    ensures { MatchOption result ((rest : List ℕ) → line.now ≡ subject_word subject ++ rest → ⊥)
        (λ rest. line.now ≡ subject_word subject ++ rest.now) }
{
    line.strip_prefix(subject_word(subject))
}

/// Returns the subject that a line searches, and the rest after its word.
fn subject_in(line: &str) -> Option<(Subject, &str)>
    ensures { MatchOption result
        ((subject : Subject) (rest : List ℕ) → line.now ≡ subject_word subject ++ rest → ⊥)
        (λ found. line.now ≡ subject_word found.0 ++ found.1.now) }
{
    if let Some(rest) = behind(Subject::Studies, line) {
        return Some((Subject::Studies, rest));
    }
    if let Some(rest) = behind(Subject::Series, line) {
        return Some((Subject::Series, rest));
    }
    if let Some(rest) = behind(Subject::Images, line) {
        return Some((Subject::Images, rest));
    }
    if let Some(rest) = behind(Subject::StudyImages, line) {
        return Some((Subject::StudyImages, rest));
    }
    if let Some(rest) = behind(Subject::Worklist, line) {
        return Some((Subject::Worklist, rest));
    }
    if let Some(rest) = behind(Subject::Steps, line) {
        return Some((Subject::Steps, rest));
    }
    None
}

/// The name of an institution, before the first space, and what comes behind that.
fn name_and_words(rest: &str) -> (&str, &str)
    ensures { (result.0.now ≡ name_in rest.now) × (words_in rest.now ≡ words_of result.1.now) }
{
    match rest.split_once(' ') {
        Some(parts) => parts,
        None => (rest, ""),
    }
}

/// Takes what stands between two spaces as a word of a search, if it is one. The answer is whether the search goes on.
fn take_part(alloc: Global, search: &mut Search, part: &str) -> Result<bool, AllocError>
    ensures { IfOk result (λ is_taken. MatchBool is_taken
        (TakesWords (filter is_word (part.now ∷ [])) search.old search.new)
        (StopsAt part.now (filter is_word (part.now ∷ [])) search.old)) }
{
    if part.is_empty() {
        return Ok(true);
    }
    search.take_word(alloc, part)
}

/// Takes the words of a search, between spaces. The answer is the first that is none, if there is one.
fn take_words<'a>(
    alloc: Global,
    search: &mut Search,
    words: &'a str,
) -> Result<Option<&'a str>, AllocError>
    ensures { IfOk result (λ refused. MatchOption refused
        (TakesWords (words_of words.now) search.old search.new)
        (λ word. StopsAt word.now (words_of words.now) search.old)) }
{
    for part in words.split(' ') {
        if !take_part(alloc, search, part)? {
            return Ok(Some(part));
        }
    }
    Ok(None)
}

/// A search, whose words are taken one after the other.
fn search_of(alloc: Global, subject: Subject, rest: &str) -> Result<ConsoleLine, AllocError>
    ensures { IfOk result (SpellsSearch subject rest.now) }
{
    let (name, words) = name_and_words(rest);
    let institution = Listed::copy_of(alloc, name.as_bytes())?;
    let mut search = Search::new(alloc, subject, institution, PAGE_MOST);
    match take_words(alloc, &mut search, words)? {
        None => Ok(ConsoleLine::Asked(Request::Search(search))),
        Some(word) => Ok(ConsoleLine::Misspelled(String::from_str(alloc, word)?)),
    }
}

fn is_order(event: &Event) -> bool
    ensures { MatchBool result (IsOrder event.now) (IsOrder event.now → ⊥) }
{
    match event {
        Event::Schedule { .. } | Event::Withdraw { .. } => true,
        Event::Open(_) | Event::Piece(..) | Event::End(_) | Event::Pull(_) => false,
    }
}

/// Returns the request of an order.
fn asked_by(order: Event) -> ConsoleLine
    requires { IsOrder order }
    ensures { IsAskedBy order result }
{
    match order {
        Event::Schedule { inst, octets } => ConsoleLine::Asked(Request::Schedule {
            institution: inst,
            octets,
        }),
        Event::Withdraw { inst, id } => ConsoleLine::Asked(Request::Withdraw {
            institution: inst,
            id,
        }),
        Event::Open(_) | Event::Piece(..) | Event::End(_) | Event::Pull(_) => ConsoleLine::Bad,
    }
}

/// Returns the request of an order spelled as in a capture.
fn order_of(alloc: Global, line: &str) -> Result<ConsoleLine, AllocError>
    ensures { IfOk result (SpellsOrder line.now) }
{
    match event_of(alloc, line)? {
        Some(event) => {
            if is_order(&event) {
                Ok(asked_by(event))
            } else {
                Ok(ConsoleLine::Bad)
            }
        }
        None => Ok(ConsoleLine::Bad),
    }
}

/// The path of a copy that a line asks for.
fn backup_path(line: &str) -> Option<&str>
    ensures { MatchOption result ((path : List ℕ) → line.now ≡ codes "backup " ++ path → ⊥)
        (λ path. line.now ≡ codes "backup " ++ path.now) }
{
    line.strip_prefix("backup ")
}

/// Returns the meaning of a text.
fn line_of(alloc: Global, text: &str) -> Result<ConsoleLine, AllocError>
    ensures { IfOk result (TellsLine text.now) }
{
    if text == "keys" {
        return Ok(ConsoleLine::Keys);
    }
    if text == "report" {
        return Ok(ConsoleLine::Asked(Request::Report));
    }
    if let Some(path) = backup_path(text) {
        return Ok(ConsoleLine::Asked(Request::Backup(String::from_str(alloc, path)?)));
    }
    match subject_in(text) {
        Some((subject, rest)) => search_of(alloc, subject, rest),
        None => order_of(alloc, text),
    }
}

/// Returns the meaning of octets, which are text or no line.
pub fn line_in(alloc: Global, octets: &[u8]) -> Result<ConsoleLine, AllocError>
    ensures { IfOk result (TellsLine octets.now) }
{
    match str::from_utf8(octets) {
        Ok(text) => line_of(alloc, text),
        Err(_) => Ok(ConsoleLine::Bad),
    }
}

/// Adds a line of DICOM JSON for each data set.
fn put_lines(alloc: Global, text: &mut Vec<u8>, answers: &[DataSet]) -> Result<(), AllocError>
    ensures { OnOk result (text.new.items ≡ text.old.items ++ json_lines answers.now) }
{
    for answer in answers {
        text.extend_from_slice(json_of(alloc, answer)?.as_slice())?;
        text.push(b'\n')?;
    }
    Ok(())
}

/// A line for each data set, and how many they are.
fn answers_text(alloc: Global, answers: &[DataSet]) -> Result<Vec<u8>, AllocError>
    ensures { IfOk result (λ text. text.items ≡ answers_text answers.now) }
{
    let mut text = Vec::new(alloc);
    put_lines(alloc, &mut text, answers)?;
    let end = format!(in alloc; "end {}\n", answers.len())?;
    text.extend_from_slice(end.as_bytes())?;
    Ok(text)
}

fn kind_word(kind: Kind) -> &'static str
    ensures { result.now ≡ kind_word kind }
{
    match kind {
        Kind::Study => "studies",
        Kind::Series => "series",
        Kind::Image => "images",
        Kind::Entry => "entries",
        Kind::Step => "steps",
    }
}

fn count_in(counts: &Counts, kind: Kind) -> u64
    ensures { result ≡ count_in counts.now kind }
{
    match kind {
        Kind::Study => counts.studies,
        Kind::Series => counts.series,
        Kind::Image => counts.images,
        Kind::Entry => counts.entries,
        Kind::Step => counts.steps,
    }
}

/// A count, after the word for it.
fn count_text(alloc: Global, counts: &Counts, kind: Kind) -> Result<String, AllocError>
    ensures { IfOk result (λ text. string_bytes text ≡ count_text counts.now kind) }
{
    format!(in alloc; " {} {}", kind_word(kind), count_in(counts, kind))
}

/// Adds how much an institution keeps.
pub fn put_counted_line(
    alloc: Global,
    text: &mut Vec<u8>,
    counted: &Counted,
) -> Result<(), AllocError>
    ensures { OnOk result (text.new.items ≡ text.old.items ++ counted_line counted.now) }
{
    text.extend_from_slice(counted.institution.as_slice())?;
    for kind in &KINDS {
        text.extend_from_slice(count_text(alloc, &counted.counts, *kind)?.as_bytes())?;
    }
    text.push(b'\n')?;
    Ok(())
}

/// A line for each institution.
pub fn counted_text(alloc: Global, all: &[Counted]) -> Result<Vec<u8>, AllocError>
    ensures { IfOk result (λ text. text.items ≡ counted_text all.now) }
{
    let mut text = Vec::new(alloc);
    for counted in all {
        put_counted_line(alloc, &mut text, counted)?;
    }
    Ok(text)
}

/// A refusal, by what is refused.
fn refused_text(alloc: Global, why: &str) -> Result<Vec<u8>, AllocError>
    ensures { IfOk result (λ text. text.items ≡ refused_text why.now) }
{
    let mut text = Vec::from_slice(alloc, b"refused ")?;
    text.extend_from_slice(why.as_bytes())?;
    text.push(b'\n')?;
    Ok(text)
}

/// Returns the answer to a word that is none of a search.
pub fn misspelled_text(alloc: Global, word: &str) -> Result<Vec<u8>, AllocError>
    ensures { IfOk result (λ text. text.items ≡ misspelled_text word.now) }
{
    let mut why = String::from_str(alloc, "keyword ")?;
    why.push_str(word)?;
    refused_text(alloc, why.as_str())
}

/// The word for why keys were not read anew.
fn keys_error_word(alloc: Global, error: KeysError) -> Result<String, AllocError>
    ensures { IfOk result (λ word. string_bytes word ≡ keys_error_word error) }
{
    match error {
        KeysError::NoFront => String::from_str(alloc, "no web front"),
        KeysError::Failed => String::from_str(alloc, "failed"),
        KeysError::Line(number) => format!(in alloc; "line {number}"),
        KeysError::NoMemory => String::from_str(alloc, "memory"),
    }
}

/// How it is told that keys were read anew, or why not.
pub fn keys_text(alloc: Global, outcome: Result<(), KeysError>) -> Result<Vec<u8>, AllocError>
    ensures { IfOk result (λ text. text.items ≡ keys_text outcome) }
{
    match outcome {
        Ok(()) => Vec::from_slice(alloc, b"done\n"),
        Err(error) => refused_text(alloc, keys_error_word(alloc, error)?.as_str()),
    }
}

/// How an answer is told.
pub fn response_text(alloc: Global, response: &Response) -> Result<Vec<u8>, AllocError>
    ensures { IfOk result (λ text. text.items ≡ response_text response.now) }
{
    match response {
        Response::Found(answers) => answers_text(alloc, answers.as_slice()),
        Response::Counted(all) => counted_text(alloc, all.as_slice()),
        Response::Done => Vec::from_slice(alloc, b"done\n"),
        Response::Refused(cause) => refused_text(alloc, cause.text(alloc)?.as_str()),
    }
}
