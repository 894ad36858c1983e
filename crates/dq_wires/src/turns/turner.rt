//! The server over wires.
ghost use Rattle.std.specs.Prelude.{◌≡◌, [], IsTrue, None, Some, Err, false, true, IfOk, IfErr, IfSome, OnOk, OnErr};
ghost use Rattle.std.specs.List.{list_any};
ghost use Rattle.std.specs.Option.{option_copied};
ghost use Rattle.dq_core.specs.Histories.{is_above};
ghost use Rattle.dq_core.specs.Looking.{Looked, FailsToLook};
ghost use Rattle.dq_wires.specs.ServerSteps.{Stepped, Moves, Fails};
ghost use Rattle.dq_wires.specs.HeldConnections.{connection_with, has_unsent};
ghost use Rattle.dq_wires.specs.Turns.{TurnsWent, TurnsCut};
ghost use Rattle.dq_wires.specs.Turners.{IsOrder, first_fault, EndsInFailedAccept, failures_after_turns, is_searching};

use crate::fault::TurnFault;
use crate::turns::connection_set::ConnectionSet;
use crate::turns::served_connection::ServedConnection;
use crate::turns::server_step::step_order;
use crate::wires::Wires;
use dq_core::{Event, Fault, Notes, Reply, Server, TableInspection};
use dq_tables::Tables;
use std::alloc::Global;
use std::marker::Model;

/// A server with the connections that it holds over wires.
#[derive(Drop)]
pub struct Turner<T> {
    server: Server<T>,
    holding: ConnectionSet,
    fault: Option<TurnFault>,
}

impl<T> Model for Turner<T> {
    ghost use Rattle.std.specs.Prelude.{◌≡◌, None};
    ghost use Rattle.std.specs.Coded.{codes};
    ghost use Rattle.dq_dataset.specs.contracts.data_set.DataSet as data_set;
    ghost use Rattle.slab.specs.Slab.{slab_code};
    ghost use Rattle.std_collections.specs.Layout.BTreeMap.{btree_map_code};
    ghost use Rattle.dq_wires.specs.TurnOutcomes.{hold_in};
    ghost use Rattle.dq_wires.specs.Turners.{TurnerView, NextOpens};

    ghost Value = { TurnerView T };

    ghost coded = { Prim.hlevel (codes, data_set.the_row.coded, T.code, slab_code, btree_map_code) };

    ghost view = { λ t. record {
      server = t.server;
      hold = hold_in t.holding;
      fault = t.fault;
    } };

    ghost invariant = { λ t. t.fault ≡ None → NextOpens t.server.newest t.holding.newest };
}

impl<T: Tables> Turner<T> {
    /// Creates a turner of a server that has opened no connection. It holds none.
    pub fn new(alloc: Global, server: Server<T>) -> Self
        requires { IsTrue (is_above server.newest 0) }
        ensures server { result.server ≡ server }
        ensures hold { result.hold ≡ record { held = []; newest = 0 } }
        ensures fault { result.fault ≡ None }
    {
        Turner {
            server,
            holding: ConnectionSet {
                alloc,
                held: Vec::new(alloc),
                newest: 0,
                buffer: Vec::new(alloc),
            },
            fault: None,
        }
    }

    /// The server.
    pub fn server(&self) -> &Server<T>
        ensures { result.now ≡ self.now.server }
    {
        &self.server
    }

    /// The notes of what was served since it was last asked, for a log. What was served before it
    /// was asked first is not noted.
    pub fn take_notes(&mut self) -> Notes
        ensures { self.new ≡ self.old }
    {
        self.server.take_notes()
    }

    /// The server, when no more turns are made.
    pub fn into_server(self) -> Server<T>
        ensures { result ≡ self.server }
    {
        let Turner {
            server,
            holding: _,
            fault: _,
        } = self;
        server
    }

    /// The connection of a number, if it is held.
    #[tactic(auto, unfolding(crate::specs::HeldConnections::connection_with))]
    pub(crate) fn connection(&self, number: u64) -> Option<&ServedConnection>
        ensures { option_copied result ≡ connection_with number self.now.hold.held }
    {
        self.holding
            .held
            .iter()
            .find(|wire| wire.number() == number)
    }

    /// The number that was given last; 0 before the first.
    pub(crate) fn newest(&self) -> u64
        ensures { result ≡ self.now.hold.newest }
    {
        self.holding.newest
    }

    /// Whether octets were answered that are not yet written.
    pub(crate) fn is_sending(&self) -> bool
        ensures { result ≡ list_any has_unsent self.now.hold.held }
    {
        self.holding.held.iter().any(|wire| wire.is_sending())
    }

    /// Whether a C-FIND is open.
    pub(crate) fn is_pending(&self) -> bool
        ensures { result ≡ list_any (is_searching self.now.server) self.now.hold.held }
    {
        self.holding.held.iter().any(|wire| self.is_searching(wire))
    }

    // Whether a C-FIND is open on a connection.
    fn is_searching(&self, wire: &ServedConnection) -> bool
        ensures { result ≡ is_searching self.now.server wire.now }
    {
        self.server.pending(wire.number())
    }

    /// Whether octets were answered that were not yet offered. The next turn then has something to
    /// do, whether or not anything comes.
    pub fn has_new_answers(&self) -> bool
        ensures { IsTrue result → list_any has_unsent self.now.hold.held ≡ true }
    {
        self.is_sending() && self.holding.held.iter().any(|wire| wire.is_new())
    }

    /// Steps an order of the console. A fault stops the turner.
    pub fn console(&mut self, event: Event) -> Result<Reply, Fault>
        requires { IsOrder event }
        ensures stepped { IfOk result
            (Stepped T.state self.old.server self.new.server event) }
        ensures fails { IfErr result
            (Fails T.state self.old.server self.new.server event) }
        ensures hold { self.new.hold ≡ self.old.hold }
        ensures fault { OnOk result (self.new.fault ≡ self.old.fault) }
        ensures stops { IfErr result (λ why.
            self.new.fault ≡ Some (first_fault self.old.fault (TurnFault.Server why))) }
    {
        match step_order(&mut self.server, event) {
            Ok(reply) => Ok(reply),
            Err(fault) => {
                self.fault = self.fault.or(Some(TurnFault::Server(fault)));
                Err(fault)
            }
        }
    }

    /// Looks at what keeps the rows. It is not an event, and changes nothing. A fault stops the
    /// turner. If the server has stopped before, the look returns `Stopped`, and the turner stays as
    /// it is.
    pub fn look<L: TableInspection<T>>(&mut self, look: &L) -> Result<L::Seen, Fault>
        ensures shows { (T.state self.new.server.tables).honest → IfOk result
            (L.shows look.now self.old.server.institutions (T.state self.old.server.tables).rows) }
        ensures looked { OnOk result (Looked T.state self.old.server self.new.server) }
        ensures fails { IfErr result (FailsToLook T.state self.old.server self.new.server) }
        ensures may_fail { OnErr result
            (self.old.server.spent ≡ false → L.may_fail look.now) }
        ensures hold { self.new.hold ≡ self.old.hold }
        ensures fault { OnOk result (self.new.fault ≡ self.old.fault) }
        ensures stops { self.old.server.spent ≡ false → IfErr result (λ why.
            self.new.fault ≡ Some (first_fault self.old.fault (TurnFault.Server why))) }
        ensures unchanged { self.old.server.spent ≡ true → self.new ≡ self.old }
    {
        match self.server.look(look) {
            Ok(seen) => Ok(seen),
            Err(Fault::Stopped) => Err(Fault::Stopped),
            Err(fault) => {
                self.fault = self.fault.or(Some(TurnFault::Server(fault)));
                Err(fault)
            }
        }
    }
}

/// Makes so many turns of all connections. In a turn a connection is accepted where there is room,
/// and then each that is held has its turn, by rising number: unsent octets are written; one that
/// a reply closed is given up when all is written; from any other is read, and what came is
/// stepped; where nothing came and a C-FIND is open the next page of its answers is pulled. A fault
/// stops the turner, and is answered from then on.
pub fn turn_all<T: Tables, W: Wires>(
    turner: &mut Turner<T>,
    wires: &mut W,
    turns: u64,
) -> Result<(), TurnFault>
    ensures went { turner.old.fault ≡ None → OnOk result
        (TurnsWent (Moves T.state) (W.log wires.old) (W.log wires.new)
        turner.old.server turner.new.server turner.old.hold turner.new.hold turns) }
    ensures cut { turner.old.fault ≡ None → IfErr result
        (TurnsCut (Moves T.state) (Fails T.state)
        (W.log wires.old) (W.log wires.new) turner.old.server turner.new.server turner.old.hold
        turns) }
    ensures fault { turner.old.fault ≡ None → OnOk result (turner.new.fault ≡ None) }
    ensures stops { turner.old.fault ≡ None →
        IfErr result (λ fault. turner.new.fault ≡ Some fault) }
    // No connection can be accepted any more only where an accept failed.
    ensures network { turner.old.fault ≡ None → result ≡ Err TurnFault.Network →
        EndsInFailedAccept (W.log wires.new) }
    // One accept failed where no connection can be accepted any more, and none otherwise. The count
    // of failed accepts shows it, also over wires that tell no calls.
    ensures failed { turner.old.fault ≡ None → W.failed_accepts wires.new
        ≡ failures_after_turns (W.failed_accepts wires.old) result }
    // After a fault nothing is done.
    ensures stopped { IfSome turner.old.fault (λ fault. result ≡ Err fault) }
    ensures unchanged { IfSome turner.old.fault (λ _. turner.new ≡ turner.old) }
    ensures untouched { IfSome turner.old.fault (λ _. wires.new ≡ wires.old) }
{
    if let Some(fault) = turner.fault {
        return Err(fault);
    }
    let turned = turner.holding.turn_times(&mut turner.server, wires, turns);
    turner.fault = turned.err();
    turned
}
