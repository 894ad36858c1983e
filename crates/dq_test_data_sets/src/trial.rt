//! Trials: octets that are read as a data set, and the canonical spellings of what was read.
ghost use Rattle.std.specs.Prelude.{◌≡◌, ◌<◌, ◌^◌, length, string_bytes, IfOk};
ghost use Rattle.dq_dataset.specs.DataSetReader.{data_set_read};
ghost use Rattle.dq_test_data_sets.specs.Answers.{reading_answer, spelled_octets, answer_text};

use crate::named::{json_text, read_text, tag_text};
use crate::sift::{Sifting, sifted_text, tags_of};
use crate::stop::Stop;
use dq_dataset::{ReadFault, Syntax, laws, read, write};
use dq_list::Listed;
use hex::FromHexError;
use std::alloc::{AllocError, Global};
use std::io::{self, Read, Write};

/// The first fault of octets, or the canonical spellings of the data set that they spell.
#[derive(Drop)]
pub(crate) enum Answer {
    Fault(ReadFault),
    Spelled {
        explicit: Listed<u8>,
        implicit: Listed<u8>,
    },
}

pub(crate) fn octets_text(alloc: Global, octets: &[u8]) -> Result<String, AllocError>
    ensures { IfOk result (λ text. string_bytes text ≡ spelled_octets octets.now) }
{
    if octets.is_empty() {
        String::from_str(alloc, "-")
    } else {
        hex::encode(alloc, octets)
    }
}

fn answer_text(alloc: Global, answer: &Answer) -> Result<String, AllocError>
    ensures { IfOk result (λ text. string_bytes text ≡ answer_text answer.now) }
{
    match answer {
        Answer::Fault(fault) => format!(in alloc; "fault {}", fault.number()),
        Answer::Spelled { explicit, implicit } => {
            let explicit = octets_text(alloc, explicit.inner().as_slice())?;
            let implicit = octets_text(alloc, implicit.inner().as_slice())?;
            format!(in alloc; "{explicit} {implicit}")
        }
    }
}

fn answer_to(alloc: Global, octets: &[u8], syntax: Syntax) -> Result<Answer, AllocError>
    requires { length octets.now < 2 ^ 31 }
    ensures { IfOk result (λ found. found ≡ reading_answer (data_set_read syntax octets.now)) }
{
    laws::spelling_law();
    match read(alloc, octets, syntax) {
        Ok(data_set) => {
            let copy = data_set.copied(alloc)?;
            Ok(Answer::Spelled {
                explicit: Listed::from_inner(write(alloc, &copy, Syntax::Explicit)?),
                implicit: Listed::from_inner(write(alloc, &data_set, Syntax::Implicit)?),
            })
        }
        Err(ReadFault::NoMemory) => Err(AllocError),
        Err(fault) => Ok(Answer::Fault(fault)),
    }
}

/// The text of what the octets are read as: `fault N`, or both canonical spellings in hexadecimal.
pub(crate) fn answered(alloc: Global, octets: &[u8], syntax: Syntax) -> Result<String, AllocError>
    requires { length octets.now < 2 ^ 31 }
    ensures { IfOk result
        (λ text. string_bytes text ≡ answer_text (reading_answer (data_set_read syntax octets.now))) }
{
    let found = answer_to(alloc, octets, syntax)?;
    answer_text(alloc, &found)
}

fn octets_of(alloc: Global, text: &str) -> Result<Option<Vec<u8>>, AllocError> {
    if text == "-" {
        return Ok(Some(Vec::new(alloc)));
    }
    match hex::decode(alloc, text) {
        Ok(octets) if !octets.is_empty() => Ok(Some(octets)),
        Err(FromHexError::OutOfMemory) => Err(AllocError),
        _ => Ok(None),
    }
}

fn syntax_of(name: &str) -> Option<Syntax> {
    match name {
        "implicit" => Some(Syntax::Implicit),
        "explicit" => Some(Syntax::Explicit),
        _ => None,
    }
}

/// Returns the request in the words `LIST FIRST EACH`: a list of tags, the octets of the first
/// piece, and those of each further one.
fn sifting_of(words: &str, syntax: Syntax) -> Option<Sifting> {
    let (name, lengths) = words.split_once(' ')?;
    let (first, each) = lengths.split_once(' ')?;
    Some(Sifting {
        syntax,
        tags: tags_of(name)?,
        first: first.parse::<u32>().ok()? as usize,
        each: each.parse::<u32>().ok()? as usize,
    })
}

/// Returns the answer to the octets that follow the words: `implicit` or `explicit`, and before it
/// `sift LIST FIRST EACH` if they are to be sifted, or `json`; or `tag` before a name; or `read` before JSON.
fn answer_by(alloc: Global, words: &str, octets: &[u8]) -> Result<Option<String>, AllocError>
    requires { length octets.now < 2 ^ 31 }
{
    if let Some(syntax) = syntax_of(words) {
        return Ok(Some(answered(alloc, octets, syntax)?));
    }
    if words == "tag" {
        return Ok(Some(tag_text(alloc, octets)?));
    }
    if words == "read" {
        return Ok(Some(read_text(alloc, octets)?));
    }
    let Some((words, name)) = words.rsplit_once(' ') else {
        return Ok(None);
    };
    if let ("json", Some(syntax)) = (words, syntax_of(name)) {
        return Ok(Some(json_text(alloc, octets, syntax)?));
    }
    let (Some(words), Some(syntax)) = (words.strip_prefix("sift "), syntax_of(name)) else {
        return Ok(None);
    };
    match sifting_of(words, syntax) {
        Some(by) => Ok(Some(sifted_text(alloc, octets, by)?)),
        None => Ok(None),
    }
}

/// Octets stand last in a line, in hexadecimal digits, with a hyphen for none. None is answered for any
/// other line.
fn answered_line(alloc: Global, line: &str) -> Result<Option<String>, AllocError> {
    let Some((words, text)) = line.rsplit_once(' ') else {
        return Ok(None);
    };
    match octets_of(alloc, text)? {
        Some(octets) if octets.len() < 1 << 31 => answer_by(alloc, words, octets.as_slice()),
        _ => Ok(None),
    }
}

fn read_input<R: Read + Drop>(alloc: Global, input: R) -> Result<Vec<u8>, Stop> {
    let mut input = input;
    let mut octets = Vec::new(alloc);
    match input.read_to_end(&mut octets) {
        Ok(_) => Ok(octets),
        Err(error) if error.kind() == io::ErrorKind::OutOfMemory => Err(Stop::from(AllocError)),
        Err(_) => Err(Stop::Line(0)),
    }
}

/// Answers each line of the input with a line of the output, up to the first line that is bad.
/// Empty lines and lines that begin with `#` are skipped.
pub(crate) fn run_trials<R: Read + Drop, W: Write>(
    alloc: Global,
    input: R,
    output: &mut W,
) -> Result<(), Stop> {
    let octets = read_input(alloc, input)?;
    let Ok(text) = str::from_utf8(octets.as_slice()) else {
        return Err(Stop::Line(0));
    };
    for (before, line) in text.lines().enumerate() {
        if line.is_empty() || line.starts_with('#') {
            continue;
        }
        let Some(mut answer) = answered_line(alloc, line)? else {
            return Err(Stop::Line(before as u64 + 1));
        };
        answer.push('\n')?;
        output.write_all(answer.as_bytes())?;
    }
    Ok(())
}
