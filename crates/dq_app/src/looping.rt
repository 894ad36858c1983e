//! A capture that is played over sockets.
ghost use Rattle.std.specs.Prelude.{◌≡◌, IfErr, OnOk};
ghost use Rattle.std.specs.Option.{option_copied};
ghost use Rattle.std.specs.Io.KnownBytes.{Appends};
ghost use Rattle.dq_captures.specs.Surroundings.{BreaksOff};
ghost use Rattle.dq_app.specs.Looping.{sent_text, IsLooped, EndsLoop};

use crate::network::{Listening, Network};
use crate::replay_input::{configured, read_events};
use crate::stop::Stop;
use crate::stores::Stores;
use dq_captures::{Folder, Sink, Source, put_sent};
use dq_core::Server;
use dq_wires::laws::{calls_are_a_serving, servings_are_answered};
use dq_wires::{Limits, Sent, loop_back};

const LOOPBACK: Listening<'static> = Listening {
    address: "127.0.0.1",
    port: 0,
    limits: Limits {
        artim: None,
        quiet: None,
        peer_connections: None,
    },
    log: None,
};

/// Prints a line for each connection, and hands them on.
fn print_sent<W: Sink>(all: &[Sent], output: &mut W) -> Result<(), Stop>
    ensures done { OnOk result
        (Appends (W.written output.old) (W.written output.new) (sent_text all.now)) }
    ensures flushed { OnOk result (W.is_flushed output.new) }
    ensures cut { IfErr result (λ stop. (stop ≡ Stop.Output) × BreaksOff (W.may_fail output.old)
        (W.written output.old) (W.written output.new) (sent_text all.now)) }
{
    for sent in all {
        if put_sent(sent.number, sent.octets.as_slice(), false, output).is_err() {
            return Err(Stop::Output);
        }
    }
    if output.finish().is_err() {
        return Err(Stop::Output);
    }
    Ok(())
}

/// Plays a capture over connections in one process, from no rows, and prints what each was sent.
pub fn loop_over<Rt: AllocGlobal + Folder + Stores + Network, R: Source, W: Sink>(
    rt: &Rt,
    file: Option<&str>,
    input: R,
    output: &mut W,
) -> Result<(), Stop>
    ensures done { OnOk result (IsLooped Rt.Wired.log (Rt.held rt.now) (option_copied file.entry)
        (R.octets input) (Appends (W.written output.old) (W.written output.new))) }
    ensures flushed { OnOk result (W.is_flushed output.new) }
    ensures ends { IfErr result (EndsLoop Rt.Wired.log (Rt.held rt.now)
        (option_copied file.entry) (R.octets input) (W.may_fail output.old)
        (W.written output.old) (W.written output.new)) }
{
    calls_are_a_serving::<Rt::Memory>();
    servings_are_answered::<Rt::Memory>();
    let config = configured(rt, file)?;
    let events = read_events(rt.alloc(), input)?;
    let server = Server::new(rt.alloc(), config, rt.memory(rt.alloc())?)?;
    let wires = rt.listen(rt.alloc(), LOOPBACK)?;
    let all = loop_back(rt.alloc(), server, wires, rt, events)?;
    print_sent(all.as_slice(), output)
}
