//! The turn of one connection.
ghost use Rattle.std.specs.Prelude.{◌≡◌, length, Some, IfOk, IfErr, OnOk, OnErr};
ghost use Rattle.dq_core.specs.declared.event.Event.TheVariants.{End, Pull};
ghost use Rattle.dq_wires.specs.Steps.{StopsBy};
ghost use Rattle.dq_wires.specs.ConnectionActions.{IsSending, IsListening};
ghost use Rattle.dq_wires.specs.Limits.{most_read};
ghost use Rattle.dq_wires.specs.ServerSteps.{Moves, Fails};
ghost use Rattle.dq_wires.specs.ConnectionTurns.{Ends, Hears, Waits, FailsToHear, ActionDone, ActionCut};

use crate::calls::{Progress, ReadTurn, WireFault};
use crate::fault::TurnFault;
use crate::limits::READ_MOST;
use crate::turns::served_connection::ServedConnection;
use crate::turns::server_step::step_event;
use crate::wires::Wires;
use dq_core::{Event, Server};
use dq_list::Listed;
use dq_tables::Tables;
use std::alloc::Global;

/// Steps the end of a connection, and gives it up.
fn leave<T: Tables, W: Wires>(
    wire: &ServedConnection,
    server: &mut Server<T>,
    wires: &mut W,
) -> Result<(), TurnFault>
    ensures ends { OnOk result (Ends (Moves T.state) (W.log wires.old)
        (W.log wires.new) server.old server.new wire.now) }
    ensures stops { IfErr result (StopsBy (Fails T.state) server.old server.new
        (Some (End wire.now.number))) }
    ensures kept { OnErr result (wires.new ≡ wires.old) }
    ensures failed { W.failed_accepts wires.new ≡ W.failed_accepts wires.old }
    ensures newest { OnOk result (server.new.newest ≡ server.old.newest) }
{
    step_event(server, Event::End(wire.number()))?;
    let _ = wires.shut(wire.place());
    Ok(())
}

/// Steps octets that came, and keeps what is answered.
fn hear<T: Tables>(
    alloc: Global,
    wire: &mut ServedConnection,
    server: &mut Server<T>,
    octets: &[u8],
) -> Result<(), TurnFault>
    requires { IsListening wire.old }
    ensures hears { OnOk result (Hears (Moves T.state) server.old server.new
        wire.old wire.new octets.now) }
    ensures stops { IfErr result (FailsToHear (Fails T.state) server.old
        server.new wire.old octets.now) }
    ensures newest { OnOk result (server.new.newest ≡ server.old.newest) }
{
    let piece = Listed::copy_of(alloc, octets)?;
    wire.hear(octets.len())?;
    let reply = step_event(server, Event::Piece(wire.number(), piece))?;
    wire.answer(reply);
    Ok(())
}

/// Nothing came: where a C-FIND is open the next of its answers are pulled, and kept.
fn pull<T: Tables>(wire: &mut ServedConnection, server: &mut Server<T>) -> Result<(), TurnFault>
    requires { IsListening wire.old }
    ensures waits { OnOk result (Waits (Moves T.state) server.old server.new wire.old wire.new) }
    ensures stops { IfErr result (StopsBy (Fails T.state) server.old server.new
        (Some (Pull wire.old.number))) }
    ensures newest { OnOk result (server.new.newest ≡ server.old.newest) }
{
    if server.pending(wire.number()) {
        let reply = step_event(server, Event::Pull(wire.number()))?;
        wire.answer(reply);
    }
    Ok(())
}

/// Offers the unsent octets. Where that fails the connection is given up, and its end is stepped
/// unless a reply closed it. The answer is whether it is still held.
fn send<T: Tables, W: Wires>(
    wire: &mut ServedConnection,
    server: &mut Server<T>,
    wires: &mut W,
) -> Result<bool, TurnFault>
    requires { IsSending wire.old }
    ensures went { IfOk result (ActionDone (Moves T.state) (W.log wires.old)
        (W.log wires.new) server.old server.new wire.old wire.new) }
    ensures off { IfErr result (ActionCut (Fails T.state) (W.log wires.old)
        (W.log wires.new) server.old server.new wire.old) }
    ensures failed { W.failed_accepts wires.new ≡ W.failed_accepts wires.old }
    ensures newest { OnOk result (server.new.newest ≡ server.old.newest) }
{
    match wires.write(wire.place(), wire.unsent()) {
        Ok(count) => {
            wire.wrote(count);
            Ok(true)
        }
        Err(WireFault) => {
            if wire.is_closed() {
                let _ = wires.shut(wire.place());
            } else {
                leave(wire, server, wires)?;
            }
            Ok(false)
        }
    }
}

/// Steps what came, or the end; where nothing came it pulls what is pending. The answer is whether
/// the connection is still held.
fn receive<T: Tables, W: Wires>(
    alloc: Global,
    wire: &mut ServedConnection,
    server: &mut Server<T>,
    wires: &mut W,
    buffer: &mut [u8],
) -> Result<bool, TurnFault>
    requires listening { IsListening wire.old }
    requires room { length buffer.old ≡ most_read }
    ensures went { IfOk result (ActionDone (Moves T.state) (W.log wires.old)
        (W.log wires.new) server.old server.new wire.old wire.new) }
    ensures off { IfErr result (ActionCut (Fails T.state) (W.log wires.old)
        (W.log wires.new) server.old server.new wire.old) }
    ensures failed { W.failed_accepts wires.new ≡ W.failed_accepts wires.old }
    ensures newest { OnOk result (server.new.newest ≡ server.old.newest) }
{
    match wires.read(wire.place(), buffer) {
        Ok(ReadTurn::Got(count)) => {
            hear(alloc, wire, server, &buffer[..count])?;
            let progress = Progress {
                titles: server.titles(wire.number()),
                is_over: wire.is_closed(),
            };
            wires.learn(wire.place(), progress);
            Ok(true)
        }
        Ok(ReadTurn::Nothing) => {
            pull(wire, server)?;
            Ok(true)
        }
        Ok(ReadTurn::Ended) => {
            leave(wire, server, wires)?;
            Ok(false)
        }
        Err(WireFault) => {
            leave(wire, server, wires)?;
            Ok(false)
        }
    }
}

/// The turn of one connection: unsent octets are written, a closed one that has none is given up,
/// and from any other is read, and pulled where nothing came. The answer is whether it is still
/// held.
pub(crate) fn turn_connection<T: Tables, W: Wires>(
    alloc: Global,
    wire: &mut ServedConnection,
    server: &mut Server<T>,
    wires: &mut W,
    buffer: &mut [u8],
) -> Result<bool, TurnFault>
    requires room { length buffer.old ≡ most_read }
    ensures went { IfOk result (ActionDone (Moves T.state) (W.log wires.old)
        (W.log wires.new) server.old server.new wire.old wire.new) }
    ensures off { IfErr result (ActionCut (Fails T.state) (W.log wires.old)
        (W.log wires.new) server.old server.new wire.old) }
    ensures failed { W.failed_accepts wires.new ≡ W.failed_accepts wires.old }
    ensures newest { OnOk result (server.new.newest ≡ server.old.newest) }
{
    if wire.is_sending() {
        return send(wire, server, wires);
    }
    if wire.is_closed() {
        let _ = wires.shut(wire.place());
        return Ok(false);
    }
    receive(alloc, wire, server, wires, buffer)
}
