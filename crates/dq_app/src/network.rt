//! Where connections come in.
ghost use Rattle.std.specs.Prelude.{◌≡◌, ℕ, List, [], Option, Some, option_map, IfOk, IfSome, IsErrOf, OnErr};
ghost use Rattle.std.specs.Option.{option_copied};
ghost use Rattle.dq_cli.specs.CommandLine.{WebFront, web_front_in};
ghost use Rattle.dq_web.specs.KeyFiles.{key_lines, AreSpelled};
ghost use Rattle.dq_wires.specs.declared.given_up.Limits.{Limits};
ghost use Rattle.dq_app.specs.Entrances.{IsConsoleAt, IsFrontFor};
ghost use Rattle.dq_app.specs.Serving.{limit_of, IsProxyNamed};

use crate::key_files::keys_of;
use crate::server_sockets::{AssociationSockets, ConsoleSockets, Counted, HttpSockets};
use dq_captures::{Folder, Host};
use dq_cli::{VERSION, Web};
use dq_config::Institution;
use dq_console::{Asks, KeysError};
use dq_http::{HttpServer, HttpState};
use dq_list::Listed;
use dq_tables::Tables;
use dq_web::Guard;
use dq_wires::{AssociationLog, Called, Limits, LogEnd, LoggedWires, SocketWires, Turner, Wires};
use std::alloc::{AllocError, Global};
use std::io;
use std::net::{IpAddr, SocketAddr};
use std::time::Duration;

/// A client of the console that says nothing for so many seconds is let go.
const CONSOLE_QUIET: u64 = 60;

/// The same of the web front: a little more than a body has, so that who is late with one is told so.
const WEB_QUIET: u64 = 65;

/// The reason why no connection can come in.
#[derive(Clone, Copy, Debug, PartialEq, Eq)]
pub enum ListenError {
    /// The address is none, or the port or the path cannot be had, or the log's file.
    Failed,
    /// A line of the keys of the web front is bad. 0 stands for a file that cannot be read, is no text,
    /// or has no key.
    Keys(u64),
    NoMemory,
}

impl From<AllocError> for ListenError {
    ghost use Rattle.std.specs.Prelude.{◌≡◌};
    ghost use Rattle.dq_app.specs.declared.network.ListenError.TheVariants.{NoMemory};

    ghost from_gives = { λ _ listen_error. listen_error ≡ NoMemory };

    fn from(_error: AllocError) -> ListenError {
        ListenError::NoMemory
    }
}

/// The log of connections: its file, unless it is standard error.
#[derive(Clone, Copy)]
pub struct Logging<'a> {
    pub file: Option<&'a str>,
}

/// Where connections come in, when they are given up, and their log, if there is one.
#[derive(Clone, Copy)]
pub struct Listening<'a> {
    pub address: &'a str,
    pub port: u16,
    pub limits: Limits,
    pub log: Option<Logging<'a>>,
}

impl From<KeysError> for ListenError {
    ghost use Rattle.std.specs.Prelude.{◌≡◌};
    ghost use Rattle.dq_app.specs.Entrances.{listen_error_of_keys};

    ghost from_gives = { λ error listen_error. listen_error ≡ listen_error_of_keys error };

    fn from(error: KeysError) -> ListenError {
        match error {
            KeysError::NoFront => ListenError::Failed,
            KeysError::Failed => ListenError::Keys(0),
            KeysError::Line(line) => ListenError::Keys(line),
            KeysError::NoMemory => ListenError::NoMemory,
        }
    }
}

/// Where clients come in that are no associations: at the path of the console, and by the web front, as
/// far as they are there.
#[derive(Clone, Copy)]
pub struct Entrance<'a> {
    pub console: Option<&'a str>,
    pub web: Option<Web<'a>>,
}

/// A network, which listens for connections.
pub trait Network {
    /// The wires over which they come.
    type Wired: Called<Self> + Drop;

    /// Those over which clients of the console come.
    type Console: Wires + Drop;

    /// The web front.
    type Http: Asks + Drop;

    /// It may be that nobody can be listened for, or waited for.
    ghost may_break: { Self → Type 0 };

    /// Wires on which connections come in at an address and a port, and are given up by these limits.
    ghost listens: { Self.Wired → List ℕ → ℕ → Limits → Type 0 };

    /// Clients come in at the path of a console, and requests by a web front, as far as they are there.
    ghost admits: { Self.Console → Self.Http → Option (List ℕ) → Option WebFront → Type 0 };

    /// Listens at a port of an address. The wires were not called.
    fn listen(&self, alloc: Global, listening: Listening<'_>) -> Result<Self::Wired, ListenError>
        ensures uncalled { IfOk result (λ wires.
            IfSome (Self.Wired.log wires) (λ calls. calls ≡ [])) }
        ensures listens { IfOk result (λ wires. listens wires listening.entry.address.now
            listening.entry.port listening.entry.limits) }
        ensures failed { IsErrOf result ListenError.Failed → may_break self.now };

    /// Listens for clients and for requests of a web front, beside other wires: who rests over all is woken
    /// by each. The web front is one of these institutions. The new wires were not called.
    fn listen_beside(
        &self,
        alloc: Global,
        entrance: Entrance<'_>,
        institutions: &[Institution],
        wires: &mut Self::Wired,
    ) -> Result<(Self::Console, Self::Http), ListenError>
        ensures beside { IfOk result (λ clients.
            IfSome (Self.Console.log clients.0) (λ calls. calls ≡ [])) }
        ensures admits { IfOk result (λ clients. admits clients.0 clients.1
            (option_copied entrance.entry.console) (option_map web_front_in entrance.entry.web)) }
        ensures same { Self.Wired.log wires.new ≡ Self.Wired.log wires.old }
        ensures failed { IsErrOf result ListenError.Failed → may_break self.now };

    /// Waits until something may be done over the wires, so long at most.
    fn rest(&self, wires: &mut Self::Wired, most: Duration) -> io::Result<()>
        ensures same { Self.Wired.log wires.new ≡ Self.Wired.log wires.old }
        ensures failed { OnErr result (may_break self.now) };

    /// Waits until something may be done over the wires, over those of the console or by the web front, which
    /// has its turn.
    fn rest_with(
        &self,
        wires: &mut Self::Wired,
        console: &mut Self::Console,
        front: &mut Self::Http,
        most: Duration,
    ) -> io::Result<()>
        ensures same { Self.Wired.log wires.new ≡ Self.Wired.log wires.old }
        ensures console { Self.Console.log console.new ≡ Self.Console.log console.old }
        ensures failed { OnErr result (may_break self.now) };

    /// Tells in the log of the wires, if they have one, what was served since this was last asked.
    fn tell<T: Tables>(&self, wires: &mut Self::Wired, turner: &mut Turner<T>)
        ensures log { Self.Wired.log wires.new ≡ Self.Wired.log wires.old }
        ensures turner { turner.new ≡ turner.old };

    /// Tells notes of the console there, a line each.
    fn note(&self, wires: &mut Self::Wired, notes: &str)
        ensures { Self.Wired.log wires.new ≡ Self.Wired.log wires.old };

    /// Tells there that the server stops: by a fault of a number, or for want of connections.
    fn note_stop(&self, wires: &mut Self::Wired, fault: Option<u8>)
        ensures { Self.Wired.log wires.new ≡ Self.Wired.log wires.old };
}

// Why no connections come in, by the error of what listens.
fn listen_error_of(error: &io::Error) -> ListenError {
    match error.kind() {
        io::ErrorKind::OutOfMemory => ListenError::NoMemory,
        _ => ListenError::Failed,
    }
}

fn sockets_at(
    alloc: Global,
    rt: &HostRuntime,
    address: IpAddr,
    port: u16,
) -> Result<SocketWires, ListenError> {
    match SocketWires::listen(alloc, rt, SocketAddr::new(address, port)) {
        Ok(wires) => Ok(wires),
        Err(error) => Err(listen_error_of(&error)),
    }
}

// Where the lines of a log go.
fn log_end(alloc: Global, rt: &HostRuntime, file: Option<&str>) -> io::Result<LogEnd> {
    match file {
        Some(path) => LogEnd::file(alloc, rt, path),
        None => LogEnd::errors(alloc, rt),
    }
}

fn log_of(
    alloc: Global,
    rt: &HostRuntime,
    logging: Logging<'_>,
) -> Result<AssociationLog<LogEnd>, ListenError> {
    match log_end(alloc, rt, logging.file) {
        Ok(end) => {
            let mut log = AssociationLog::new(alloc, end);
            log.read_clock(rt);
            log.start(VERSION);
            Ok(log)
        }
        Err(error) => Err(listen_error_of(&error)),
    }
}

/// A count, where it is limited: 0 is no limit.
pub(crate) fn limit_of(count: u32) -> Option<u32>
    ensures { result ≡ limit_of count }
{
    if count > 0 { Some(count) } else { None }
}

/// How many connections of an address there may be.
pub(crate) fn connections_of(count: u32) -> Option<usize>
    ensures { result ≡ limit_of count }
{
    let count = limit_of(count)?;
    Some(count as usize)
}

// Has those who say nothing for so many seconds let go.
fn limit_clients(wires: &mut SocketWires, quiet: u64) {
    wires.set_limits(Limits {
        artim: None,
        quiet: Some(Duration::from_secs(quiet)),
        peer_connections: None,
    });
}

// The sockets of the console.
fn console_at(alloc: Global, rt: &HostRuntime, path: &str) -> Result<SocketWires, ListenError> {
    match SocketWires::listen_at(alloc, rt, path) {
        Ok(mut wires) => {
            limit_clients(&mut wires, CONSOLE_QUIET);
            Ok(wires)
        }
        Err(error) => Err(listen_error_of(&error)),
    }
}

/// The sockets of the console, if there is a path.
fn console_for(
    alloc: Global,
    rt: &HostRuntime,
    path: Option<&str>,
) -> Result<Option<SocketWires>, ListenError>
    ensures { IfOk result (λ console. IsConsoleAt console (option_copied path.entry)) }
{
    match path {
        Some(path) => Ok(Some(console_at(alloc, rt, path)?)),
        None => Ok(None),
    }
}

/// The octets of a text, if there is one.
fn octets_of(alloc: Global, text: Option<&str>) -> Result<Option<Listed<u8>>, AllocError>
    ensures { IfOk result (λ octets. octets ≡ option_copied text.entry) }
{
    match text {
        Some(text) => Ok(Some(Listed::copy_of(alloc, text.as_bytes())?)),
        None => Ok(None),
    }
}

/// The address of the proxy before a web front, if one is named.
fn proxy_of(web: Web<'_>) -> Result<Option<IpAddr>, ListenError>
    ensures { IfOk result (IsProxyNamed (option_copied web.entry.proxy)) }
{
    let Some(text) = web.proxy else {
        return Ok(None);
    };
    match text.parse::<IpAddr>() {
        Ok(address) => Ok(Some(address)),
        Err(_) => Err(ListenError::Failed),
    }
}

/// The guard of a web front: the keys of its file, its host, the origin of its viewer, and the address of
/// its proxy.
fn guard_of<F: Folder>(alloc: Global, folder: &F, web: Web<'_>) -> Result<Guard, ListenError>
    ensures keys { IfOk result (λ guard. IfSome (F.held folder.now web.entry.keys.now) (λ octets.
        AreSpelled (key_lines octets) guard.keys.entries)) }
    ensures host { IfOk result (λ guard. guard.host ≡ option_copied web.entry.host) }
    ensures viewer { IfOk result (λ guard. guard.viewer ≡ option_copied web.entry.origin) }
    ensures proxy { IfOk result (λ guard. IsProxyNamed (option_copied web.entry.proxy) guard.proxy) }
{
    let keys = keys_of(alloc, folder, web.keys)?;
    let host = octets_of(alloc, web.host)?;
    let viewer = octets_of(alloc, web.origin)?;
    let proxy = proxy_of(web)?;
    Ok(Guard {
        keys,
        host,
        viewer,
        proxy,
    })
}

/// The web front of institutions.
fn front_at<H: Host>(
    alloc: Global,
    host: &H,
    web: Web<'_>,
    institutions: &[Institution],
) -> Result<HttpServer<SocketWires>, ListenError>
    ensures { IfOk result (λ front. IsFrontFor (Some front) (Some (web_front_in web.entry))) }
{
    let state = HttpState::new(alloc, guard_of(alloc, host, web)?, institutions)?;
    let rt = host.runtime();
    let Ok(address) = web.address.parse::<IpAddr>() else {
        return Err(ListenError::Failed);
    };
    let mut wires = sockets_at(alloc, rt, address, web.port)?;
    let peers = connections_of(web.peer_connections);
    limit_clients(&mut wires, WEB_QUIET);
    Ok(HttpServer::new(rt, wires, state, peers)?)
}

/// The web front of institutions, if it is asked for.
fn front_for<H: Host>(
    alloc: Global,
    host: &H,
    web: Option<Web<'_>>,
    institutions: &[Institution],
) -> Result<Option<HttpServer<SocketWires>>, ListenError>
    ensures { IfOk result (λ front. IsFrontFor front (option_map web_front_in web.entry)) }
{
    match web {
        Some(web) => Ok(Some(front_at(alloc, host, web, institutions)?)),
        None => Ok(None),
    }
}

// Has a rest over sockets end where something may be done on others.
fn watch(
    sockets: &mut AssociationSockets<SocketWires>,
    others: &SocketWires,
) -> Result<(), ListenError> {
    match sockets.logged.wires.watch(others) {
        Ok(()) => Ok(()),
        Err(error) => Err(listen_error_of(&error)),
    }
}

impl<H: Host> Network for H {
    type Wired = AssociationSockets<SocketWires>;

    type Console = ConsoleSockets<SocketWires>;

    type Http = HttpSockets;

    ghost may_break = { λ _. Unit {0} };

    ghost listens = { λ _ _ _ _. Unit {0} };

    // That they come in at the path and the port, and with which keys, no contract of the system says.
    ghost admits = { λ console http path web.
        IsConsoleAt console.wires path × IsFrontFor http.front web };

    fn listen(&self, alloc: Global, listening: Listening<'_>) -> Result<Self::Wired, ListenError> {
        let Ok(address) = listening.address.parse::<IpAddr>() else {
            return Err(ListenError::Failed);
        };
        let mut wires = sockets_at(alloc, self.runtime(), address, listening.port)?;
        wires.set_limits(listening.limits);
        let log = match listening.log {
            Some(logging) => Some(log_of(alloc, self.runtime(), logging)?),
            None => None,
        };
        Ok(AssociationSockets {
            logged: LoggedWires { wires, log },
            counted: None,
        })
    }

    fn listen_beside(
        &self,
        alloc: Global,
        entrance: Entrance<'_>,
        institutions: &[Institution],
        wires: &mut Self::Wired,
    ) -> Result<(Self::Console, Self::Http), ListenError> {
        let console = console_for(alloc, self.runtime(), entrance.console)?;
        if let Some(console) = &console {
            watch(wires, console)?;
        }
        let front = front_for(alloc, self, entrance.web, institutions)?;
        if let Some(front) = &front {
            watch(wires, &front.wires)?;
            wires.counted = Some(Counted::new(alloc));
        }
        let keys = match entrance.web {
            Some(web) => String::from_str(alloc, web.keys)?,
            None => String::new(alloc),
        };
        Ok((
            ConsoleSockets { wires: console },
            HttpSockets::new(alloc, self.runtime(), front, keys),
        ))
    }

    fn rest(&self, wires: &mut Self::Wired, most: Duration) -> io::Result<()> {
        let rested = wires.logged.wires.rest(self.runtime(), most);
        wires.logged.read_clock(self.runtime());
        rested
    }

    fn rest_with(
        &self,
        wires: &mut Self::Wired,
        console: &mut Self::Console,
        front: &mut Self::Http,
        most: Duration,
    ) -> io::Result<()> {
        front.attend(wires, self.runtime());
        wires.mark_served(console.is_busy());
        let is_busy = console.is_busy() || front.is_busy();
        let most = if is_busy {
            Duration::ZERO
        } else {
            front.longest_rest(most)
        };
        console.begin_turn();
        front.begin_turn();
        wires.end_turn(self.runtime());
        let rested = wires.logged.wires.rest_beside(self.runtime(), most);
        wires.begin_turn(self.runtime());
        wires.logged.read_clock(self.runtime());
        let is_called = rested?;
        console.look(self.runtime(), is_called)?;
        front.look(self.runtime(), is_called)?;
        front.attend(wires, self.runtime());
        Ok(())
    }

    fn tell<T: Tables>(&self, wires: &mut Self::Wired, turner: &mut Turner<T>) {
        wires.tell(turner, self.runtime());
    }

    fn note(&self, wires: &mut Self::Wired, notes: &str) {
        if let Some(log) = &mut wires.logged.log {
            log.note(notes);
        }
    }

    fn note_stop(&self, wires: &mut Self::Wired, fault: Option<u8>) {
        if let Some(log) = &mut wires.logged.log {
            log.stop(fault);
        }
    }
}
