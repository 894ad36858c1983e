//! A bench of trials for data sets, for the suites: it reads octets that lines give, and answers
//! the first fault or the canonical spellings, or what a list of tags leaves of them, or their JSON;
//! or it reads JSON.
#![tactic(auto)]

mod cost;
mod named;
mod sift;
mod stop;
mod trial;

use cost::{Shape, print_costs, take_memory};
use std::process::ExitCode;
use std::rt::Env;
use std::time::CpuClock;
use std::{env, io};
use stop::Stop;
use trial::run_trials;

/// The request in the words, with a number of calls.
#[derive(Clone, Copy, PartialEq, Eq)]
enum Request {
    Cost {
        shape: Shape,
        is_half: bool,
        calls: u32,
    },
    Memory {
        shape: Shape,
        calls: u32,
    },
}

/// The words are `cost SHAPE N`, `cost SHAPE N half` or `memory SHAPE N`.
fn request_of(words: &[String]) -> Option<Request> {
    let shape = Shape::of(words.get(1)?.as_str())?;
    let calls = words.get(2)?.parse::<u32>().ok()?;
    let is_half = words.len() == 4 && words[3].as_str() == "half";
    match words[0].as_str() {
        "cost" if is_half || words.len() == 3 => Some(Request::Cost {
            shape,
            is_half,
            calls,
        }),
        "memory" if words.len() == 3 => Some(Request::Memory { shape, calls }),
        _ => None,
    }
}

fn perform<R: Env + AllocGlobal + Input + Print + CpuClock>(rt: &R) -> Result<(), Stop> {
    let words: Vec<String> = env::args(rt)?.skip(1).collect(rt.alloc())?;
    if words.is_empty() {
        return run_trials(rt.alloc(), rt.reader(), &mut io::writer(rt));
    }
    match request_of(words.as_slice()).ok_or(Stop::Usage)? {
        Request::Cost {
            shape,
            is_half,
            calls,
        } => print_costs(rt, shape, is_half, calls),
        Request::Memory { shape, calls } => take_memory(rt.alloc(), shape, calls),
    }
}

fn main(rt: HostRuntime) -> ExitCode {
    match perform(&rt) {
        Ok(()) => ExitCode::SUCCESS,
        Err(stop) => {
            let _ = stop.tell(&rt);
            ExitCode::from(stop.status())
        }
    }
}
