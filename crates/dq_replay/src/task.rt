//! The program's tasks: it replays a history, or reports the rows that are kept after it.
ghost use Rattle.std.specs.Prelude.{◌≡◌, ◌++◌, [], codes, IsTrue, IfOk, OnOk, string_bytes};
ghost use Rattle.std.specs.Fmt.{decimal};
ghost use Rattle.std.specs.Io.KnownBytes.{Appends};
ghost use Rattle.dq_core.specs.Histories.{is_well_formed_history};
ghost use Rattle.dq_core.specs.Shared.{replies, world_after};
ghost use Rattle.dq_captures.specs.ReplyLines.{reply_lines};
ghost use Rattle.dq_captures.specs.Reports.{kind_word, count_text, names_of, report_line, report_text};

use crate::stop::Stop;
use dq_captures::{Sink, print_replies};
use dq_config::{Config, Institution};
use dq_core::{Event, Outcome, run};
use dq_list::Listed;
use dq_tables::{Kind, PlainTables, Tables};
use std::alloc::{AllocError, Global};

/// A task over a history.
#[derive(Clone, Copy, Debug, PartialEq, Eq)]
pub(crate) enum Task {
    Replay,
    Report,
}

impl Task {
    fn named(word: &str) -> Option<Task> {
        match word {
            "replay" => Some(Task::Replay),
            "report" => Some(Task::Report),
            _ => None,
        }
    }
}

/// The request in the words of the command line: a task, and the path of a configuration.
#[derive(Clone, Copy, Debug, PartialEq, Eq)]
pub(crate) struct Request<'a> {
    pub(crate) task: Task,
    pub(crate) config: Option<&'a str>,
}

impl<'a> Request<'a> {
    /// Returns what the words ask for: `replay` or `report`, with `--config FILE` or `--config=FILE`, or
    /// nothing, which is a replay.
    pub(crate) fn of(words: &'a [String]) -> Option<Request<'a>> {
        let Some((command, options)) = words.split_first() else {
            return Some(Request {
                task: Task::Replay,
                config: None,
            });
        };
        let task = Task::named(command.as_str())?;
        let config = match options.len() {
            0 => None,
            1 => Some(options[0].as_str().strip_prefix("--config=")?),
            2 if options[0].as_str() == "--config" => Some(options[1].as_str()),
            _ => return None,
        };
        Some(Request { task, config })
    }
}

/// Plays a history over rows in memory, of which there are none at first, and prints a line for each
/// reply. The replies before a fault are printed.
pub(crate) fn replay<W: Sink>(
    alloc: Global,
    config: Config,
    events: Vec<Event>,
    output: &mut W,
) -> Result<(), Stop>
    requires formed { IsTrue (is_well_formed_history events.items) }
    ensures replayed { OnOk result (Appends (W.written output.old) (W.written output.new)
        (reply_lines (replies config [] events.items))) }
{
    let outcome = run(alloc, config, PlainTables::new(alloc), events)?;
    let Outcome {
        replies,
        fault,
        tables: _,
    } = outcome;
    if print_replies(replies.as_slice(), output).is_err() || output.finish().is_err() {
        return Err(Stop::Output);
    }
    match fault {
        None => Ok(()),
        Some(fault) => Err(Stop::from(fault)),
    }
}

/// Every kind of rows, in the order of a report.
static KINDS: [Kind; 5] = [
    Kind::Study,
    Kind::Series,
    Kind::Image,
    Kind::Entry,
    Kind::Step,
];

fn kind_word(kind: Kind) -> &'static str
    ensures { result.now ≡ kind_word kind }
{
    match kind {
        Kind::Study => "studies",
        Kind::Series => "series",
        Kind::Image => "images",
        Kind::Entry => "entries",
        Kind::Step => "steps",
    }
}

/// Returns a count of rows of a kind, after the word for them.
fn count_text(alloc: Global, kind: Kind, count: u64) -> Result<String, AllocError>
    ensures { IfOk result (λ text. string_bytes text
        ≡ codes " " ++ kind_word kind ++ codes " " ++ decimal count) }
{
    format!(in alloc; " {} {count}", kind_word(kind))
}

/// Adds how many rows of a kind an institution has.
fn put_count(
    alloc: Global,
    text: &mut Vec<u8>,
    tables: &mut PlainTables,
    name: &[u8],
    kind: Kind,
) -> Result<(), Stop>
    ensures count { OnOk result (text.new.items
        ≡ text.old.items ++ count_text (⟦<PlainTables as Tables>⟧.state tables.old).rows name.now kind) }
    ensures rows { OnOk result
        ((⟦<PlainTables as Tables>⟧.state tables.new).rows ≡ (⟦<PlainTables as Tables>⟧.state tables.old).rows) }
{
    let count = tables.count(kind, name)?;
    text.extend_from_slice(count_text(alloc, kind, count)?.as_bytes())?;
    Ok(())
}

/// Adds the line of an institution.
fn put_line(
    alloc: Global,
    text: &mut Vec<u8>,
    tables: &mut PlainTables,
    name: &[u8],
) -> Result<(), Stop>
    ensures line { OnOk result (text.new.items
        ≡ text.old.items ++ report_line (⟦<PlainTables as Tables>⟧.state tables.old).rows name.now) }
    ensures rows { OnOk result
        ((⟦<PlainTables as Tables>⟧.state tables.new).rows ≡ (⟦<PlainTables as Tables>⟧.state tables.old).rows) }
{
    text.extend_from_slice(name)?;
    for kind in &KINDS {
        put_count(alloc, text, tables, name, *kind)?;
    }
    text.push(b'\n')?;
    Ok(())
}

/// Returns the lines of a report.
fn lines_of(alloc: Global, tables: &mut PlainTables, names: &[Listed<u8>]) -> Result<Vec<u8>, Stop>
    ensures { IfOk result (λ text. text.items
        ≡ report_text (⟦<PlainTables as Tables>⟧.state tables.old).rows names.now) }
{
    let mut text = Vec::new(alloc);
    for name in names {
        put_line(alloc, &mut text, tables, name.as_slice())?;
    }
    Ok(text)
}

/// Returns the names of institutions, in their order.
fn names_of(alloc: Global, institutions: &[Institution]) -> Result<Vec<Listed<u8>>, AllocError>
    ensures { IfOk result (λ names. names.items ≡ names_of institutions.now) }
{
    let mut names = Vec::new(alloc);
    for institution in institutions {
        names.push(Listed::copy_of(alloc, institution.name.as_slice())?)?;
    }
    Ok(names)
}

/// Plays a history over rows in memory, of which there are none at first, and prints for each
/// institution how many rows it has then. Nothing is printed if a fault came.
pub(crate) fn report<W: Sink>(
    alloc: Global,
    config: Config,
    events: Vec<Event>,
    output: &mut W,
) -> Result<(), Stop>
    requires formed { IsTrue (is_well_formed_history events.items) }
    ensures reported { OnOk result (Appends (W.written output.old) (W.written output.new)
        (report_text (world_after config [] events.items).rows (names_of config))) }
{
    let names = names_of(alloc, config.institutions())?;
    let Outcome {
        replies: _,
        fault,
        mut tables,
    } = run(alloc, config, PlainTables::new(alloc), events)?;
    if let Some(fault) = fault {
        return Err(Stop::from(fault));
    }
    let text = lines_of(alloc, &mut tables, names.as_slice())?;
    if output.put(text.as_slice()).is_err() || output.finish().is_err() {
        return Err(Stop::Output);
    }
    Ok(())
}
