//! The server's connections over wires: what comes on them is stepped, and what is answered is
//! written.
#![tactic(auto)]

mod calls;
mod fault;
mod given_up;
pub mod laws;
mod limits;
mod log;
mod loopback;
mod sockets;
mod turns;
mod watched;
mod wires;

pub use calls::{Call, Progress, ReadOutcome, ReadTurn, WireFault};
pub use fault::TurnFault;
pub use given_up::{GivenUp, GivesUp, Limits, Reason};
pub use limits::{MOST_TURNS, MOST_WIRES, READ_MOST};
pub use log::{AssociationLog, LogEnd, LoggedWires};
pub use loopback::{Called, MemoryWires, Script, Sent, SocketClient, loop_back};
pub use sockets::SocketWires;
pub use turns::{Turner, turn_all};
pub use wires::Wires;
