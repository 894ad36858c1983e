//! The configuration and the capture of a replay.
ghost use Rattle.std.specs.Prelude.{◌≡◌, ◌≤◌, IsTrue, IfOk, IfErr, IfSome, Ok, length};
ghost use Rattle.std.specs.Option.{option_copied};
ghost use Rattle.std.specs.Str.{IsUtf8};
ghost use Rattle.dq_config.specs.Conditions.{configuration};
ghost use Rattle.dq_core.specs.Histories.{is_well_formed_history};
ghost use Rattle.dq_app.specs.Program.{capture_limit, IsConfigured, TellsEvents, RefusesConfig, RefusesFile, RefusesCapture};

use crate::stop::Stop;
use dq_captures::{Folder, Source, read_capture};
use dq_config::Config;
use dq_core::Event;
use std::alloc::Global;

/// A configuration, and the events that a capture tells.
#[derive(Drop)]
pub struct History {
    pub config: Config,
    pub events: Vec<Event>,
}

/// The most octets that a capture may have.
const CAPTURE_LIMIT: u64 = 67_108_864;

/// The configuration of a file.
fn read_config<Rt: AllocGlobal + Folder>(rt: &Rt, path: &str) -> Result<Config, Stop>
    ensures read { IfOk result (λ config. IfSome (Rt.held rt.now path.now) (λ octets.
        IsUtf8 octets × (configuration octets ≡ Ok config))) }
    ensures refused { IfErr result
        (RefusesConfig (Rt.may_fail rt.now path.now) (Rt.held rt.now path.now)) }
{
    let octets = match rt.read_file(rt.alloc(), path) {
        Ok(octets) => octets,
        Err(unread) => return Err(Stop::of_file(unread)),
    };
    let Ok(text) = str::from_utf8(octets.as_slice()) else {
        return Err(Stop::Config(0));
    };
    match Config::read(rt.alloc(), text) {
        Ok(config) => Ok(config),
        Err(fault) => Err(Stop::from(fault)),
    }
}

/// The configuration of the file, or the one that is built in.
pub fn configured<Rt: AllocGlobal + Folder>(rt: &Rt, file: Option<&str>) -> Result<Config, Stop>
    ensures read { IfOk result (IsConfigured (Rt.held rt.now) (option_copied file.entry)) }
    ensures refused { IfErr result
        (RefusesFile (Rt.may_fail rt.now) (Rt.held rt.now) (option_copied file.entry)) }
{
    match file {
        Some(path) => read_config(rt, path),
        None => Ok(Config::built_in(rt.alloc())?),
    }
}

/// The octets of a capture, which may not be too long.
fn read_octets<R: Source>(alloc: Global, input: R) -> Result<Vec<u8>, Stop>
    ensures read { IfOk result (λ read. IfSome (R.octets input) (λ octets.
        (read.items ≡ octets) × (length octets ≤ capture_limit))) }
    ensures refused { IfErr result (RefusesCapture (R.may_fail input) (R.octets input)) }
{
    let octets = match input.read_up_to(alloc, CAPTURE_LIMIT + 1) {
        Ok(octets) => octets,
        Err(unread) => return Err(Stop::of_input(unread)),
    };
    if octets.len() as u64 > CAPTURE_LIMIT {
        return Err(Stop::Capture(0));
    }
    Ok(octets)
}

/// The events that a capture tells.
pub fn read_events<R: Source>(alloc: Global, input: R) -> Result<Vec<Event>, Stop>
    ensures read { IfOk result (λ events. IfSome (R.octets input) (λ octets.
        TellsEvents octets events.items)) }
    ensures formed { IfOk result (λ events. IsTrue (is_well_formed_history events.items)) }
    ensures refused { IfErr result (RefusesCapture (R.may_fail input) (R.octets input)) }
{
    let octets = read_octets(alloc, input)?;
    let Ok(text) = str::from_utf8(octets.as_slice()) else {
        return Err(Stop::Capture(0));
    };
    Ok(read_capture(alloc, text)?)
}
