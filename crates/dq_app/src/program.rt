//! The program without its surroundings: words, a configuration, an input, stores and two outputs,
//! and the exit status.
ghost use Rattle.std.specs.Prelude.{◌≡◌, ◌≢◌, ◌≤◌, ◌⊎◌, None, Some, false, map, IsTrue, IfOk, IfErr, OnOk};
ghost use Rattle.std.specs.IoError.{error_kind};
ghost use Rattle.std.specs.Io.KnownBytes.{Keeps, Appends};
ghost use Rattle.clap.specs.Words.{kind_of};
ghost use Rattle.dq_core.specs.Histories.{is_well_formed_history};
ghost use Rattle.dq_core.specs.Shared.{world_after};
ghost use Rattle.dq_captures.specs.Surroundings.{BreaksOff};
ghost use Rattle.dq_cli.specs.CommandLine.{Command, command_asked, place_asked, request_asked, command_in};
ghost use Rattle.dq_app.specs.Program.{no_memory, status_of, IsTold, no_text_line, RefusesStore, EndsTask, CutsTask, StopsPlay, IsReplayed, AsFarAsHonest, IsOver, IsTaskDone, text_of, IsInStore, unclosed_store};
ghost use Rattle.dq_app.specs.Commands.{IsDone, EndsEarly};

use crate::checking::check;
use crate::copying::copy;
use crate::exporting::export_rows;
use crate::looping::loop_over;
use crate::migrating::migrate;
use crate::network::Network;
use crate::replay_input::{History, configured, read_events};
use crate::replay_output::answer;
use crate::reporting::report;
use crate::serving::serve;
use crate::stop::Stop;
use crate::stores::Stores;
use clap::error::ErrorKind;
use dq_captures::{Folder, Sink, Source, put_text};
use dq_cli::{CaptureCommand, Keeper, ParsedCommand, Task, line_of, parse};
use dq_tables::Tables;
use std::alloc::{AllocError, Global};
use std::convert::AsStr;
use std::io;
use std::io::ErrorKind as IoKind;

/// Does a task over the rows that are there, and gives back what keeps them.
fn do_task<T: Tables + Drop, W: Sink>(
    alloc: Global,
    task: Task,
    history: History,
    tables: T,
    output: &mut W,
) -> Result<T, Stop>
    requires formed { IsTrue (is_well_formed_history history.events.items) }
    requires unfailed { (T.state tables).failed ≡ false }
    ensures kept { IfOk result (λ kept. (T.state kept).honest → (T.state kept).rows
        ≡ (world_after history.config (T.state tables).rows history.events.items).rows) }
    ensures done { IfOk result (λ kept. (T.state kept).honest → Appends (W.written output.old)
        (W.written output.new) (text_of task history.config (T.state tables).rows history.events.items)) }
    ensures was_honest { IfOk result (λ kept. (T.state kept).honest → (T.state tables).honest) }
    ensures flushed { OnOk result (W.is_flushed output.new) }
    ensures ends { IfErr result (EndsTask (W.may_fail output.old)) }
    ensures cut { IfErr result (λ stop. AsFarAsHonest T.state ((T.state tables).honest
        × CutsTask task (W.written output.old) (W.written output.new) history.config
        (T.state tables).rows history.events.items stop)) }
{
    match task {
        Task::Replay => answer(alloc, history, tables, output),
        Task::Report => report(alloc, history, tables, output),
    }
}

/// Does a task over the rows that a keeper has, and closes it where it is a store.
fn do_over<Rt: AllocGlobal + Stores, W: Sink>(
    rt: &Rt,
    asked: CaptureCommand<'_>,
    history: History,
    output: &mut W,
) -> Result<(), Stop>
    requires { IsTrue (is_well_formed_history history.events.items) }
    ensures done { OnOk result (IsTaskDone Rt.File.state (Rt.stored rt.now) (Rt.closed rt.now)
        (W.written output.old) (W.written output.new) (place_asked asked.entry.keeper)
        asked.entry.task history.config history.events.items) }
    ensures flushed { OnOk result (W.is_flushed output.new) }
    ensures stops { IfErr result (λ stop.
        (Keeps (W.written output.old) (W.written output.new) × RefusesStore stop)
        ⊎ (EndsTask (W.may_fail output.old) stop
        × IsOver Rt.File.state (Rt.stored rt.now) (place_asked asked.entry.keeper) (λ rows.
        CutsTask asked.entry.task (W.written output.old) (W.written output.new) history.config rows
        history.events.items stop))
        ⊎ (IsInStore (place_asked asked.entry.keeper) × (stop ≡ unclosed_store)
        × IsOver Rt.File.state (Rt.stored rt.now) (place_asked asked.entry.keeper) (λ rows.
        Appends (W.written output.old) (W.written output.new)
        (text_of asked.entry.task history.config rows history.events.items)))) }
{
    match asked.keeper {
        Keeper::Memory => {
            let tables = rt.memory(rt.alloc())?;
            do_task(rt.alloc(), asked.task, history, tables, output)?;
        }
        Keeper::New(path) => {
            let tables = rt.new_store(rt.alloc(), path)?;
            let filled = do_task(rt.alloc(), asked.task, history, tables, output)?;
            rt.close(filled)?;
        }
        Keeper::Found(path) => {
            let tables = rt.store(rt.alloc(), path)?;
            let kept = do_task(rt.alloc(), asked.task, history, tables, output)?;
            rt.close(kept)?;
        }
    }
    Ok(())
}

/// Does what is asked: reads the configuration, then the capture, opens what keeps the rows, prints
/// the replies or the report, and closes the store, if there is one.
fn play<Rt: AllocGlobal + Folder + Stores, R: Source, W: Sink>(
    rt: &Rt,
    asked: CaptureCommand<'_>,
    input: R,
    output: &mut W,
) -> Result<(), Stop>
    ensures done { OnOk result (IsReplayed Rt.File.state (Rt.held rt.now) (Rt.stored rt.now)
        (Rt.closed rt.now) (R.octets input) (W.written output.old) (W.written output.new)
        (request_asked asked.entry)) }
    ensures flushed { OnOk result (W.is_flushed output.new) }
    ensures stops { IfErr result (StopsPlay Rt.File.state (request_asked asked.entry)
        (Rt.may_fail rt.now) (Rt.held rt.now) (Rt.stored rt.now) (R.may_fail input) (R.octets input)
        (W.may_fail output.old) (W.written output.old) (W.written output.new)) }
{
    let config = configured(rt, asked.config)?;
    let events = read_events(rt.alloc(), input)?;
    do_over(rt, asked, History { config, events }, output)
}

/// Does what a command line asks for.
fn do_command<Rt: AllocGlobal + Folder + Stores + Network, R: Source, W: Sink>(
    rt: &Rt,
    parsed: ParsedCommand<'_>,
    input: R,
    output: &mut W,
) -> Result<(), Stop>
    ensures flushed { OnOk result (W.is_flushed output.new) }
    ensures done { OnOk result (IsDone Rt.Wired.log Rt.Console.log Rt.File.state (Rt.held rt.now)
        (Rt.stored rt.now) (Rt.migrated rt.now) (Rt.copied rt.now) (Rt.closed rt.now)
        (R.octets input) (W.written output.old) (W.written output.new) (command_in parsed.entry)) }
    ensures stops { IfErr result (EndsEarly Rt.Wired.log Rt.Console.log Rt.File.state (Rt.held rt.now)
        (Rt.stored rt.now) (R.octets input) (W.written output.old) (W.written output.new) (Rt.may_fail rt.now)
        (R.may_fail input) (W.may_fail output.old) (Rt.may_break rt.now) (command_in parsed.entry)) }
{
    match parsed {
        ParsedCommand::Play(asked) => play(rt, asked, input, output),
        ParsedCommand::Serve(service) => serve(rt, service, output),
        ParsedCommand::Loop(config) => loop_over(rt, config, input, output),
        ParsedCommand::Migrate(files) => migrate(rt, files, output),
        ParsedCommand::Check(inspection) => check(rt, inspection, output),
        ParsedCommand::Copy(copying) => copy(rt, &copying, output),
        ParsedCommand::Export(export) => export_rows(rt, export, output),
    }
}

/// Tells of a stop. The exit status is its own.
fn stopped<E: Sink>(stop: Stop, errors: &mut E) -> u8
    ensures status { result ≡ status_of stop }
    ensures told { IsTold (E.may_fail errors.old) (E.written errors.old) (E.written errors.new)
        stop }
{
    let _ = stop.tell(errors);
    stop.status()
}

/// Tells why a command line is not read, in its own text where it is not understood.
fn refused<E: Sink>(error: &clap::Error, errors: &mut E) -> u8
    ensures memory { kind_of error.now ≡ ErrorKind.OutOfMemory → (result ≡ 4)
        × IsTold (E.may_fail errors.old) (E.written errors.old) (E.written errors.new)
        (Stop.Fault no_memory) }
    ensures usage { kind_of error.now ≢ ErrorKind.OutOfMemory → result ≡ 1 }
{
    if error.kind() == ErrorKind::OutOfMemory {
        return stopped(Stop::from(AllocError), errors);
    }
    let _ = errors.put_line(error);
    Stop::Usage.status()
}

/// Runs the program over what opens its files and stores and listens, on its words and its input,
/// with its two outputs. Returns the exit status: 0 where all was done, 1 for words that are not
/// understood, 2 for a refused configuration, 3 for a bad capture, 4 for a fault, a store that is
/// refused or not closed, or where the output cannot be written, and 5 where no connections can
/// come in.
pub fn perform<Rt: AllocGlobal + Folder + Stores + Network, S: AsStr, R: Source, W: Sink, E: Sink>(
    rt: &Rt,
    words: &[S],
    input: R,
    output: &mut W,
    errors: &mut E,
) -> u8
    ensures statuses { result ≤ 5 }
    ensures flushed { result ≡ 0 → W.is_flushed output.new }
    ensures quiet { result ≡ 0 → Keeps (E.written errors.old) (E.written errors.new) }
    ensures usage { result ≡ 1 → (command_asked (map S.text words.now) ≡ None)
        × Keeps (W.written output.old) (W.written output.new) }
    ensures refused { command_asked (map S.text words.now) ≡ None → (result ≡ 1) ⊎ (result ≡ 4) }
    // At 0 all was done that the words ask for.
    ensures done { (command : Command) → command_asked (map S.text words.now) ≡ Some command → result ≡ 0 →
        IsDone Rt.Wired.log Rt.Console.log Rt.File.state (Rt.held rt.now) (Rt.stored rt.now)
        (Rt.migrated rt.now) (Rt.copied rt.now) (Rt.closed rt.now) (R.octets input)
        (W.written output.old) (W.written output.new) command }
    // At any other status it stopped short of its end, as is told, and this is what was done.
    ensures stops { (command : Command) → command_asked (map S.text words.now) ≡ Some command → result ≢ 0 →
        (stop : Stop) × (result ≡ status_of stop)
        × IsTold (E.may_fail errors.old) (E.written errors.old) (E.written errors.new) stop
        × EndsEarly Rt.Wired.log Rt.Console.log Rt.File.state (Rt.held rt.now) (Rt.stored rt.now)
        (R.octets input) (W.written output.old) (W.written output.new) (Rt.may_fail rt.now) (R.may_fail input)
        (W.may_fail output.old) (Rt.may_break rt.now) command stop }
{
    let line = match line_of(rt.alloc(), words) {
        Ok(line) => line,
        Err(error) => return stopped(Stop::from(error), errors),
    };
    match parse(rt.alloc(), line.as_slice()) {
        Ok(parsed) => match do_command(rt, parsed, input, output) {
            Ok(()) => 0,
            Err(stop) => stopped(stop, errors),
        },
        Err(error) => refused(&error, errors),
    }
}

/// Tells why the words of the command line cannot be read: one of them is not UTF-8, or memory ran
/// out. Returns the exit status.
pub fn unworded<E: Sink>(error: &io::Error, errors: &mut E) -> u8
    ensures memory { error_kind error.now ≡ IoKind.OutOfMemory → (result ≡ 4)
        × IsTold (E.may_fail errors.old) (E.written errors.old) (E.written errors.new)
        (Stop.Fault no_memory) }
    ensures usage { error_kind error.now ≢ IoKind.OutOfMemory → (result ≡ 1)
        × (Appends (E.written errors.old) (E.written errors.new) no_text_line
        ⊎ BreaksOff (E.may_fail errors.old) (E.written errors.old) (E.written errors.new)
        no_text_line) }
{
    if error.kind() == io::ErrorKind::OutOfMemory {
        return stopped(Stop::from(AllocError), errors);
    }
    let _ = put_text("a word of the command line is not UTF-8\n", errors);
    Stop::Usage.status()
}
