//! The words of the command line.
ghost use Rattle.std.specs.Prelude.{◌≡◌, ◌≢◌, ℕ, List, None, Some, map, IfOk, IfErr};
ghost use Rattle.clap.specs.Words.{kind_of};
ghost use Rattle.dq_cli.specs.CommandLine.{line_of, command_in, command_asked};

use crate::commands::{PROGRAM_NAME, command};
use crate::options::{Misuse, parsed_command_in, reproach, values_in};
use crate::parsed_command::ParsedCommand;
use clap::error::ErrorKind;
use std::alloc::{AllocError, Global};
use std::convert::AsStr;

/// The whole command line: the program's own name, and the words.
pub fn line_of<S: AsStr>(alloc: Global, words: &[S]) -> Result<Vec<&str>, AllocError>
    ensures { IfOk result (λ line. map (λ word. word.now) line.items
        ≡ line_of (map S.text words.entry.now)) }
{
    let mut line = Vec::new(alloc);
    line.push(PROGRAM_NAME)?;
    for word in words {
        line.push(word.as_str())?;
    }
    Ok(line)
}

/// The error of options that are not taken.
fn misused(alloc: Global, misuse: Misuse) -> Result<clap::Error, AllocError> {
    let (kind, text) = reproach(misuse);
    command(alloc)?.error(kind, text)
}

/// Reads a command line.
pub fn parse<'a>(alloc: Global, line: &'a [&'a str]) -> Result<ParsedCommand<'a>, clap::Error>
    ensures ok { IfOk result (λ found. (words : List (List ℕ)) →
        map (λ word. word.now) line.entry.now ≡ line_of words →
        command_asked words ≡ Some (command_in found)) }
    ensures err { IfErr result (λ error. (words : List (List ℕ)) →
        map (λ word. word.now) line.entry.now ≡ line_of words →
        kind_of error ≢ ErrorKind.OutOfMemory → command_asked words ≡ None) }
{
    let matches = match command(alloc)?.try_get_matches_from(line) {
        Ok(matches) => matches,
        Err(error) => return Err(error),
    };
    let only = values_in(alloc, &matches, "only")?;
    match parsed_command_in(&matches, only) {
        Ok(parsed) => Ok(parsed),
        Err(misuse) => Err(misused(alloc, misuse)?),
    }
}
