//! A DICOM server, over captures and over sockets: events in, the octets of its answers out.
#![tactic(auto)]

mod file_stores;
mod machine;

ghost use Rattle.std.specs.Prelude.{◌≡◌, ◌≢◌, ◌≤◌, Some, map};
ghost use Rattle.std.specs.Io.KnownBytes.{Keeps};
ghost use Rattle.dq_cli.specs.CommandLine.{Command, command_asked};
ghost use Rattle.dq_app.specs.Commands.{IsDone, EndsEarly};
ghost use Rattle.dq_app.specs.Program.{status_of, IsTold};
ghost use Rattle.dq_app.specs.declared.stop.Stop.{Stop};

use dq_app::{Folder, Network, Sink, Source, perform, unworded};
use dq_wires::Wires;
use file_stores::{FileStores, ProgramStores};
use machine::Machine;
use std::convert::AsStr;
use std::env;
use std::io::{self, BufWriter, Write};
use std::process::ExitCode;

/// Does what the words of the command line ask for, as `perform` says it, on the machine with these
/// stores.
fn play_here<'a, F: FileStores, R: Source, W: Sink, E: Sink>(
    machine: &Machine<'a, F>,
    words: &[String],
    input: R,
    output: &mut W,
    errors: &mut E,
) -> u8
    ensures statuses { result ≤ 5 }
    ensures flushed { result ≡ 0 → W.is_flushed output.new }
    ensures quiet { result ≡ 0 → Keeps (E.written errors.old) (E.written errors.new) }
    // At 0 all was done that the words ask for.
    ensures done { (command : Command) → command_asked (map ⟦<String as AsStr>⟧.text words.now) ≡ Some command
        → result ≡ 0 → IsDone ⟦<<Machine<'a, F> as Network>::Wired as Wires>⟧.log
        ⟦<<Machine<'a, F> as Network>::Console as Wires>⟧.log F.Kept.state
        (⟦<Machine<'a, F> as Folder>⟧.held machine.now) F.stored F.migrated F.copied F.closed
        (R.octets input) (W.written output.old) (W.written output.new) command }
    // At any other status it stopped short of its end, as is told, and this is what was done.
    ensures stops { (command : Command) → command_asked (map ⟦<String as AsStr>⟧.text words.now) ≡ Some command
        → result ≢ 0 → (stop : Stop) × (result ≡ status_of stop)
        × IsTold (E.may_fail errors.old) (E.written errors.old) (E.written errors.new) stop
        × EndsEarly ⟦<<Machine<'a, F> as Network>::Wired as Wires>⟧.log
        ⟦<<Machine<'a, F> as Network>::Console as Wires>⟧.log F.Kept.state
        (⟦<Machine<'a, F> as Folder>⟧.held machine.now) F.stored
        (R.octets input) (W.written output.old) (W.written output.new)
        (⟦<Machine<'a, F> as Folder>⟧.may_fail machine.now) (R.may_fail input)
        (W.may_fail output.old) (⟦<Machine<'a, F> as Network>⟧.may_break machine.now) command stop }
{
    perform(machine, words, input, output, errors)
}

fn play<E: Write>(rt: &HostRuntime, errors: &mut E) -> io::Result<u8> {
    let words: Vec<String> = env::args(rt)?.skip(1).collect(rt.alloc())?;
    let mut output = BufWriter::new(rt.alloc(), io::writer(rt))?;
    let machine = Machine::<ProgramStores>::new(rt);
    Ok(play_here(&machine, words.as_slice(), rt.reader(), &mut output, errors))
}

fn main(rt: HostRuntime) -> ExitCode {
    let mut errors = rt.stderr();
    match play(&rt, &mut errors) {
        Ok(status) => ExitCode::from(status),
        Err(error) => ExitCode::from(unworded(&error, &mut errors)),
    }
}
