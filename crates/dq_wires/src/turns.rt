//! Turns of the connections: what comes on each is stepped, and what is answered is written.
mod connection_set;
mod connection_turn;
mod served_connection;
mod server_step;
mod turner;

pub use turner::{Turner, turn_all};
