mod logging;
mod programs;
mod servers;
mod sockets;
mod wires;
