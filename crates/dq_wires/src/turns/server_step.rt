//! One event, stepped.
ghost use Rattle.std.specs.Prelude.{◌≡◌, Some, IfOk, IfErr, OnOk};
ghost use Rattle.dq_core.specs.Stepping.{Opens};
ghost use Rattle.dq_wires.specs.Steps.{StopsBy};
ghost use Rattle.dq_wires.specs.ServerSteps.{Stepped, Fails};
ghost use Rattle.dq_wires.specs.Turners.{IsOrder};

use crate::fault::TurnFault;
use dq_core::{Event, Fault, Reply, Server};
use dq_tables::Tables;

/// Steps an event.
pub(crate) fn step_event<T: Tables>(
    server: &mut Server<T>,
    event: Event,
) -> Result<Reply, TurnFault>
    requires { Opens server.old.newest event }
    ensures stepped { IfOk result (Stepped T.state server.old server.new event) }
    ensures stops { IfErr result
        (StopsBy (Fails T.state) server.old server.new (Some event)) }
{
    match server.step(event) {
        Ok(reply) => Ok(reply),
        Err(fault) => Err(TurnFault::Server(fault)),
    }
}

/// Steps an order of the console.
pub(crate) fn step_order<T: Tables>(server: &mut Server<T>, event: Event) -> Result<Reply, Fault>
    requires { IsOrder event }
    ensures stepped { IfOk result (Stepped T.state server.old server.new event) }
    ensures fails { IfErr result (Fails T.state server.old server.new event) }
    ensures newest { OnOk result (server.new.newest ≡ server.old.newest) }
{
    server.step(event)
}
