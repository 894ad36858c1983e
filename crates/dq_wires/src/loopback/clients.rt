//! Clients of the server that listens, over sockets.
ghost use Rattle.std.specs.Prelude.{◌≡◌, ◌≤◌, length, IfOk};
ghost use Rattle.dq_wires.specs.Logs.{IfGot};

use crate::calls::{ReadTurn, WireFault};
use crate::wires::Wires;
use mio::net::TcpStream;
use std::io::{self, ErrorKind, Read, Write};
use std::net::{Net, Shutdown, SocketAddr};

/// Wires that clients in the same process can call, over the network of a machine.
pub trait Called<M>: Wires {
    /// A client that connects to where they listen.
    fn connect(&self, machine: &M) -> Result<SocketClient, WireFault>;

    /// Looks what there is to be done. It is no call.
    fn look(&mut self, machine: &M) -> Result<(), WireFault>
        ensures { Self.log self.new ≡ Self.log self.old };
}

/// The client's end of a connection over a socket. No call waits.
#[derive(Drop)]
pub struct SocketClient {
    stream: TcpStream,
}

impl SocketClient {
    /// Connects to an address, and returns at once.
    pub fn connect(net: &impl Net, address: SocketAddr) -> io::Result<Self> {
        let stream = TcpStream::connect(net, address)?;
        // small pieces go out one by one, and do not wait for acknowledgements
        stream.set_nodelay(true)?;
        Ok(SocketClient { stream })
    }

    /// Sends the first of these octets, and answers how many: 0 is not now.
    pub(crate) fn send(&mut self, octets: &[u8]) -> Result<usize, WireFault>
        ensures { IfOk result (λ count. count ≤ length octets.now) }
    {
        match self.stream.write(octets) {
            Ok(count) => Ok(count),
            Err(error) => match error.kind() {
                ErrorKind::Interrupted | ErrorKind::WouldBlock => Ok(0),
                _ => Err(WireFault),
            },
        }
    }

    /// The octets that came, as many as the buffer has room for.
    pub(crate) fn receive(&mut self, buffer: &mut [u8]) -> Result<ReadTurn, WireFault>
        ensures { IfGot result (λ count. count ≤ length buffer.old) }
    {
        match self.stream.read(buffer) {
            Ok(0) => Ok(ReadTurn::Ended),
            Ok(count) => Ok(ReadTurn::Got(count)),
            Err(error) => match error.kind() {
                ErrorKind::Interrupted | ErrorKind::WouldBlock => Ok(ReadTurn::Nothing),
                _ => Err(WireFault),
            },
        }
    }

    /// Sends no more.
    pub(crate) fn end(&mut self) -> Result<(), WireFault> {
        self.stream.shutdown(Shutdown::Write).or(Err(WireFault))
    }
}
