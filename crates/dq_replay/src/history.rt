//! The configuration and the events of a replay.
ghost use Rattle.std.specs.Prelude.{◌≡◌, IsTrue, IfOk, IfSome};
ghost use Rattle.dq_captures.specs.Captures.{lines_of, AreCapture};
ghost use Rattle.dq_core.specs.Histories.{is_well_formed_history};

use crate::stop::Stop;
use dq_captures::{Folder, Source, read_capture};
use dq_config::Config;
use dq_core::Event;
use std::alloc::Global;

/// The most octets that a capture may have.
const CAPTURE_LIMIT: u64 = 67_108_864;

/// Returns the configuration of a file, or the one that is built in.
pub(crate) fn configured<Rt: AllocGlobal + Folder>(
    rt: &Rt,
    file: Option<&str>,
) -> Result<Config, Stop> {
    let Some(path) = file else {
        return Ok(Config::built_in(rt.alloc())?);
    };
    let octets = match rt.read_file(rt.alloc(), path) {
        Ok(octets) => octets,
        Err(unread) => return Err(Stop::of_file(unread)),
    };
    let Ok(text) = str::from_utf8(octets.as_slice()) else {
        return Err(Stop::Config(0));
    };
    Ok(Config::read(rt.alloc(), text)?)
}

/// Returns the octets of a capture.
fn read_octets<R: Source>(alloc: Global, input: R) -> Result<Vec<u8>, Stop>
    ensures { IfOk result (λ read. IfSome (R.octets input) (λ octets. read.items ≡ octets)) }
{
    let octets = match input.read_up_to(alloc, CAPTURE_LIMIT + 1) {
        Ok(octets) => octets,
        Err(unread) => return Err(Stop::of_input(unread)),
    };
    if octets.len() as u64 > CAPTURE_LIMIT {
        return Err(Stop::Capture(0));
    }
    Ok(octets)
}

/// Returns the events of a capture.
pub(crate) fn read_events<R: Source>(alloc: Global, input: R) -> Result<Vec<Event>, Stop>
    ensures read { IfOk result (λ events. IfSome (R.octets input) (λ octets.
        AreCapture (lines_of octets) events.items)) }
    ensures formed { IfOk result (λ events. IsTrue (is_well_formed_history events.items)) }
{
    let octets = read_octets(alloc, input)?;
    let Ok(text) = str::from_utf8(octets.as_slice()) else {
        return Err(Stop::Capture(0));
    };
    Ok(read_capture(alloc, text)?)
}
