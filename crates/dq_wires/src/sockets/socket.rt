//! The sockets of connections, over TCP or of the machine itself.
ghost use Rattle.std.specs.Prelude.{◌≡◌, ◌≤◌, length, true, false, is_some, IsOk, IfOk};
ghost use Rattle.dq_wires.specs.Sockets.{is_tcp};

use mio::event::Source;
use mio::net::{TcpListener, TcpStream, UnixListener, UnixStream};
use mio::{Interest, Registry, Token};
use std::fs::{self, Files, Permissions};
use std::io::{self, ErrorKind, Read, Write};
use std::net::{Net, Shutdown, SocketAddr};
use std::os::unix::fs::{FileTypeExt, PermissionsExt};

/// Reads and writes are its owner's alone.
const OWNER_ALONE: u32 = 0o600;

/// More than wait for a listening socket on any system.
const MOST_WAITING: u32 = 1_000_000;

/// A listening socket.
#[derive(Drop)]
pub(crate) enum Door {
    Tcp(TcpListener),
    Unix(UnixListener),
}

impl Door {
    /// One at an address, on a port that the system chooses where it is 0.
    pub(crate) fn at_address(net: &impl Net, address: SocketAddr) -> io::Result<Door>
        ensures { IfOk result (λ door. is_tcp door ≡ true) }
    {
        Ok(Door::Tcp(TcpListener::bind(net, address)?))
    }

    /// One at a path, whose file is made for its owner alone. The file of a socket on which nobody
    /// listens goes. Whoever came before the file had its rights is turned away.
    pub(crate) fn at_path<R: Files + Net>(rt: &R, path: &str) -> io::Result<Door>
        ensures { IfOk result (λ door. is_tcp door ≡ false) }
    {
        remove_stale(rt, path)?;
        let listener = UnixListener::bind(rt, path)?;
        fs::set_permissions(rt, path, Permissions::from_mode(OWNER_ALONE))?;
        for _ in 0..MOST_WAITING {
            if listener.accept().is_err() {
                break;
            }
        }
        Ok(Door::Unix(listener))
    }

    /// The address of one over TCP.
    pub(crate) fn address(&self) -> io::Result<SocketAddr>
        ensures { IsOk result → is_tcp self.now ≡ true }
    {
        match self {
            Door::Tcp(listener) => listener.local_addr(),
            Door::Unix(_) => Err(io::Error::from(ErrorKind::Unsupported)),
        }
    }

    /// The next connection, with its peer's address where it has one.
    pub(crate) fn accept(&self) -> io::Result<(Socket, Option<SocketAddr>)>
        ensures { IfOk result (λ came. is_some came.1 ≡ is_tcp self.now) }
    {
        match self {
            Door::Tcp(listener) => {
                let (stream, peer) = listener.accept()?;
                Ok((Socket::Tcp(stream), Some(peer)))
            }
            Door::Unix(listener) => {
                let (stream, _) = listener.accept()?;
                Ok((Socket::Unix(stream), None))
            }
        }
    }

    /// Has events tell when one has come.
    pub(crate) fn register(&mut self, registry: &Registry, token: Token) -> io::Result<()>
        ensures { is_tcp self.new ≡ is_tcp self.old }
    {
        match self {
            Door::Tcp(listener) => registry.register(listener, token, Interest::READABLE),
            Door::Unix(listener) => registry.register(listener, token, Interest::READABLE),
        }
    }
}

// Removes the file of a socket at a path, if nobody listens there. Any other file stays.
fn remove_stale<R: Files + Net>(rt: &R, path: &str) -> io::Result<()> {
    match UnixStream::connect(rt, path) {
        Err(error) if error.kind() == ErrorKind::ConnectionRefused => {
            if fs::symlink_metadata(rt, path)?.file_type().is_socket() {
                fs::remove_file(rt, path)?;
            }
            Ok(())
        }
        _ => Ok(()),
    }
}

/// The socket of a connection.
#[derive(Drop)]
pub(crate) enum Socket {
    Tcp(TcpStream),
    Unix(UnixStream),
}

impl Socket {
    /// The octets that came, without waiting.
    pub(crate) fn read(&mut self, buffer: &mut [u8]) -> io::Result<usize>
        ensures { IfOk result (λ count. count ≤ length buffer.old) }
    {
        match self {
            Socket::Tcp(stream) => stream.read(buffer),
            Socket::Unix(stream) => stream.read(buffer),
        }
    }

    /// Sends the first of these octets, without waiting.
    pub(crate) fn write(&mut self, octets: &[u8]) -> io::Result<usize>
        ensures { IfOk result (λ count. count ≤ length octets.now) }
    {
        match self {
            Socket::Tcp(stream) => stream.write(octets),
            Socket::Unix(stream) => stream.write(octets),
        }
    }

    /// Sends no more.
    pub(crate) fn end(&self) -> io::Result<()> {
        match self {
            Socket::Tcp(stream) => stream.shutdown(Shutdown::Write),
            Socket::Unix(stream) => stream.shutdown(Shutdown::Write),
        }
    }

    /// Has events tell when it may be read or written. What is written goes out at once.
    pub(crate) fn register(&mut self, registry: &Registry, token: Token) -> io::Result<()> {
        let both = Interest::READABLE | Interest::WRITABLE;
        match self {
            Socket::Tcp(stream) => {
                stream.set_nodelay(true)?;
                registry.register(stream, token, both)
            }
            Socket::Unix(stream) => registry.register(stream, token, both),
        }
    }
}
