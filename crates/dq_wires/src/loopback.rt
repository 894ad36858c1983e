//! Connections in memory: a script in place of sockets, and clients in the same process.
mod clients;
mod counted;
mod looping;
mod memory;

pub use clients::{Called, SocketClient};
pub use looping::{Sent, loop_back};
pub use memory::{MemoryWires, Script};
