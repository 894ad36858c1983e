//! Replays a capture, or reports what it leaves, over rows in memory. It is small, so that it compiles in
//! a minute; what it prints is what `dq_server` prints for the same words.
#![tactic(auto)]

mod history;
mod stop;
mod task;

use dq_captures::{Folder, Sink, Source};
use history::{configured, read_events};
use std::env;
use std::io::{self, BufWriter};
use std::process::ExitCode;
use stop::Stop;
use task::{Request, Task, replay, report};

/// Reads the configuration, then the capture, and does what the words ask for.
fn perform<Rt: AllocGlobal + Folder, R: Source, W: Sink>(
    rt: &Rt,
    words: &[String],
    input: R,
    output: &mut W,
) -> Result<(), Stop> {
    let request = Request::of(words).ok_or(Stop::Usage)?;
    let config = configured(rt, request.config)?;
    let events = read_events(rt.alloc(), input)?;
    match request.task {
        Task::Replay => replay(rt.alloc(), config, events, output),
        Task::Report => report(rt.alloc(), config, events, output),
    }
}

fn play(rt: &HostRuntime) -> Result<(), Stop> {
    let words: Vec<String> = env::args(rt)?.skip(1).collect(rt.alloc())?;
    let mut output = BufWriter::new(rt.alloc(), io::writer(rt))?;
    perform(rt, words.as_slice(), rt.reader(), &mut output)
}

fn main(rt: HostRuntime) -> ExitCode {
    match play(&rt) {
        Ok(()) => ExitCode::SUCCESS,
        Err(stop) => {
            if stop != Stop::Output {
                let _ = eprintln!(rt; "{stop}");
            }
            ExitCode::from(stop.status())
        }
    }
}
