//! Turns of all connections.
ghost use Rattle.std.specs.Prelude.{◌≡◌, ◌+◌, length, IsTrue, IfErr, OnOk};
ghost use Rattle.dq_core.specs.Histories.{is_above};
ghost use Rattle.dq_wires.specs.Limits.{most_read};
ghost use Rattle.dq_wires.specs.ServerSteps.{Moves, Fails};
ghost use Rattle.dq_wires.specs.Turns.{has_room_for_connection, TurnsWent, TurnsCut};
ghost use Rattle.dq_wires.specs.Turners.{failures_after_turns};
ghost use Rattle.dq_wires.specs.TurnOutcomes.{hold_in, RoundWent, RoundCut, TakingWent, TurnWent, TurnCut};

use crate::calls::WireFault;
use crate::fault::TurnFault;
use crate::limits::{MOST_WIRES, READ_MOST};
use crate::turns::connection_turn::turn_connection;
use crate::turns::served_connection::ServedConnection;
use crate::turns::server_step::step_event;
use crate::wires::Wires;
use dq_core::{Event, Server};
use dq_tables::Tables;
use std::alloc::Global;

/// The turns of all connections, in order.
fn turn_held<T: Tables, W: Wires>(
    alloc: Global,
    held: &mut Vec<ServedConnection>,
    server: &mut Server<T>,
    wires: &mut W,
    buffer: &mut [u8],
) -> Result<(), TurnFault>
    requires room { length buffer.old ≡ most_read }
    ensures went { OnOk result (RoundWent (Moves T.state) (W.log wires.old)
        (W.log wires.new) server.old server.new held.old.items held.new.items) }
    ensures cut { IfErr result (RoundCut (Moves T.state)
        (Fails T.state) (W.log wires.old) (W.log wires.new) server.old server.new
        held.old.items) }
    ensures failed { W.failed_accepts wires.new ≡ W.failed_accepts wires.old }
    ensures newest { OnOk result (server.new.newest ≡ server.old.newest) }
{
    let mut at = 0;
    while at < held.len() {
        if turn_connection(alloc, &mut held[at], server, wires, buffer)? {
            at += 1;
        } else {
            let _ = held.remove(at);
        }
    }
    Ok(())
}

/// Whether one more can come.
fn has_room(held: &[ServedConnection], newest: u64) -> bool
    ensures { result ≡ has_room_for_connection (record { held = held.now; newest = newest }) }
{
    held.len() < MOST_WIRES && newest < u64::MAX
}

/// The connections that are held, the number that was given last, and what turns of them need.
#[derive(Drop)]
pub(crate) struct ConnectionSet {
    pub(crate) alloc: Global,
    pub(crate) held: Vec<ServedConnection>,
    pub(crate) newest: u64,
    pub(crate) buffer: Vec<u8>,
}

impl ConnectionSet {
    /// Accepts a connection where there is room, and opens it under the next number.
    fn accept_connection<T: Tables, W: Wires>(
        &mut self,
        server: &mut Server<T>,
        wires: &mut W,
    ) -> Result<(), TurnFault>
        requires { IsTrue (is_above server.old.newest (self.old.newest + 1)) }
        ensures went { OnOk result (TakingWent (Moves T.state) (W.log wires.old)
            (W.log wires.new) server.old server.new (hold_in self.old) (hold_in self.new)) }
        ensures cut { IfErr result (TurnCut (Moves T.state) (Fails T.state) (W.log wires.old)
            (W.log wires.new) server.old server.new (hold_in self.old)) }
        ensures failed { W.failed_accepts wires.new
            ≡ failures_after_turns (W.failed_accepts wires.old) result }
        ensures opens { OnOk result (IsTrue (is_above server.new.newest (self.new.newest + 1))) }
        ensures buffer { OnOk result (self.new.buffer ≡ self.old.buffer) }
    {
        if !has_room(self.held.as_slice(), self.newest) {
            return Ok(());
        }
        self.held.reserve(1)?;
        let place = match wires.accept() {
            Ok(Some(place)) => place,
            Ok(None) => return Ok(()),
            Err(WireFault) => return Err(TurnFault::Network),
        };
        let number = self.newest + 1;
        step_event(server, Event::Open(number))?;
        self.newest = number;
        self.held
            .push(ServedConnection::new(self.alloc, place, number))?;
        Ok(())
    }

    /// One turn of all.
    fn turn_once<T: Tables, W: Wires>(
        &mut self,
        server: &mut Server<T>,
        wires: &mut W,
    ) -> Result<(), TurnFault>
        requires { IsTrue (is_above server.old.newest (self.old.newest + 1)) }
        ensures went { OnOk result (TurnWent (Moves T.state) (W.log wires.old)
            (W.log wires.new) server.old server.new (hold_in self.old) (hold_in self.new)) }
        ensures cut { IfErr result (TurnCut (Moves T.state) (Fails T.state) (W.log wires.old)
            (W.log wires.new) server.old server.new (hold_in self.old)) }
        ensures failed { W.failed_accepts wires.new
            ≡ failures_after_turns (W.failed_accepts wires.old) result }
        ensures opens { OnOk result (IsTrue (is_above server.new.newest (self.new.newest + 1))) }
    {
        self.buffer.resize(READ_MOST, 0)?;
        self.accept_connection(server, wires)?;
        let buffer = self.buffer.as_mut_slice();
        turn_held(self.alloc, &mut self.held, server, wires, buffer)
    }

    /// So many turns, up to a fault.
    pub(crate) fn turn_times<T: Tables, W: Wires>(
        &mut self,
        server: &mut Server<T>,
        wires: &mut W,
        turns: u64,
    ) -> Result<(), TurnFault>
        requires { IsTrue (is_above server.old.newest (self.old.newest + 1)) }
        ensures went { OnOk result (TurnsWent (Moves T.state) (W.log wires.old)
            (W.log wires.new) server.old server.new (hold_in self.old) (hold_in self.new)
            turns) }
        ensures cut { IfErr result (TurnsCut (Moves T.state) (Fails T.state) (W.log wires.old)
            (W.log wires.new) server.old server.new (hold_in self.old) turns) }
        ensures failed { W.failed_accepts wires.new
            ≡ failures_after_turns (W.failed_accepts wires.old) result }
        ensures opens { OnOk result (IsTrue (is_above server.new.newest (self.new.newest + 1))) }
    {
        for _turn in 0..turns {
            self.turn_once(server, wires)?;
        }
        Ok(())
    }
}
