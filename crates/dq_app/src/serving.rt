//! Connections that come in, served.
ghost use Rattle.std.specs.Prelude.{◌≡◌, [], None, option_map, IfErr, OnOk, OnErr, IfOk};
ghost use Rattle.std.specs.Duration.{as_nanos};
ghost use Rattle.std.specs.Option.{option_copied};
ghost use Rattle.std.specs.Io.KnownBytes.{Appends};
ghost use Rattle.dq_core.specs.ServerView.{Refines};
ghost use Rattle.dq_wires.specs.ServerSteps.{Moves, Fails};
ghost use Rattle.dq_wires.specs.Turns.{TurnsWent, TurnsCut};
ghost use Rattle.dq_cli.specs.CommandLine.{clients_of, serving_in, web_front_in};
ghost use Rattle.dq_captures.specs.Reports.{names_of};
ghost use Rattle.dq_captures.specs.Surroundings.{BreaksOff};
ghost use Rattle.dq_app.specs.Program.{AsFarAsHonest};
ghost use Rattle.dq_app.specs.Rounds.{RoundsWent, RoundsCut, AreBeside, AreBesideTo, IsAttended, IsInterrupted, Begins, view_of};
ghost use Rattle.dq_app.specs.Serving.{ready_text, turn_count, limit_of, nanoseconds, AreLimits, ListensAs, IsUncalled, IsListenError, Served, ServedUpTo, EndsService, IsServed, StopsService};

use crate::backup::OfFiles;
use crate::network::{Entrance, Listening, Logging, Network, connections_of, limit_of};
use crate::replay_input::configured;
use crate::reporting::names_of;
use crate::stop::Stop;
use crate::stores::Stores;
use dq_captures::{Folder, Sink, put_numbered};
use dq_cli::{Keeper, Service};
use dq_config::Institution;
use dq_console::{Backups, Console, OfMemory};
use dq_core::{Fault, Server};
use dq_tables::Tables;
use dq_wires::laws::{calls_are_a_serving, servings_are_answered, steps_are_a_history};
use dq_wires::{Limits, TurnFault, Turner, Wires, turn_all};
use std::alloc::Global;
use std::io;
use std::time::Duration;

/// Where connections come in: the wires of associations, and the console with its web front, if there
/// is one.
#[derive(Drop)]
struct Listeners<N: Network> {
    wires: N::Wired,
    console: Option<Console<N::Console, N::Http>>,
}

/// The file by which clients come in that are no associations, if they do.
fn clients_at<'a>(service: Service<'a>) -> Option<&'a str>
    ensures { option_copied result ≡ clients_of (serving_in service.entry) }
{
    match (service.console, service.web) {
        (Some(path), _) => Some(path),
        (None, Some(web)) => Some(web.keys),
        (None, None) => None,
    }
}

/// The console of the clients of a service, beside its wires.
fn console_beside<N: Network>(
    alloc: Global,
    network: &N,
    service: Service<'_>,
    institutions: &[Institution],
    wires: &mut N::Wired,
) -> Result<Console<N::Console, N::Http>, Stop>
    ensures same { N.Wired.log wires.new ≡ N.Wired.log wires.old }
    ensures uncalled { IfOk result (λ console. IsUncalled (N.Console.log console.handler.wires)) }
    ensures clients { IfOk result (λ console. console.clients.items ≡ []) }
    ensures admits { IfOk result (λ console. N.admits console.handler.wires console.front
        (option_copied service.entry.console) (option_map web_front_in service.entry.web)) }
    ensures names { IfOk result (λ console. console.handler.names.items ≡ names_of institutions.now) }
    ensures stops { IfErr result (IsListenError (N.may_break network.now)) }
{
    let entrance = Entrance {
        console: service.console,
        web: service.web,
    };
    let beside = network.listen_beside(alloc, entrance, institutions, wires)?;
    let (console, front) = beside;
    let names = names_of(alloc, institutions)?;
    Ok(Console::new(alloc, console, front, names)?)
}

/// The console of the clients of a service, if any can come in.
fn console_of<N: Network>(
    alloc: Global,
    network: &N,
    service: Service<'_>,
    institutions: &[Institution],
    wires: &mut N::Wired,
) -> Result<Option<Console<N::Console, N::Http>>, Stop>
    ensures same { N.Wired.log wires.new ≡ N.Wired.log wires.old }
    ensures begins { IfOk result (Begins N.Console.log institutions.now
        (clients_of (serving_in service.entry))) }
    ensures stops { IfErr result (IsListenError (N.may_break network.now)) }
{
    match clients_at(service) {
        None => Ok(None),
        Some(_) => {
            let console = console_beside(alloc, network, service, institutions, wires)?;
            Ok(Some(console))
        }
    }
}

/// A number of seconds, if there is one.
fn time_of(seconds: Option<u32>) -> Option<Duration>
    ensures { option_map as_nanos result ≡ option_map nanoseconds seconds }
{
    let seconds = seconds?;
    Some(Duration::from_secs(u64::from(seconds)))
}

/// When the words of a service have connections given up.
fn limits_of(service: Service<'_>) -> Limits
    ensures { AreLimits (serving_in service.entry) result }
{
    Limits {
        artim: time_of(limit_of(service.artim)),
        quiet: time_of(service.quiet),
        peer_connections: connections_of(service.peer_connections),
    }
}

/// The log that the words of a service ask for.
fn logging_of(service: Service<'_>) -> Option<Logging<'_>> {
    if service.is_logged || service.log_file.is_some() {
        return Some(Logging {
            file: service.log_file,
        });
    }
    None
}

/// Tells in the log why the server stops.
fn note_stop<N: Network>(network: &N, wires: &mut N::Wired, stop: Stop)
    ensures { N.Wired.log wires.new ≡ N.Wired.log wires.old }
{
    match stop {
        Stop::Fault(number) => network.note_stop(wires, Some(number)),
        Stop::Network => network.note_stop(wires, None),
        _ => {}
    }
}

/// Listens where the words of a service say.
fn listen<N: Network>(alloc: Global, network: &N, service: Service<'_>) -> Result<N::Wired, Stop>
    ensures uncalled { IfOk result (λ wires. IsUncalled (N.Wired.log wires)) }
    ensures listens { IfOk result (ListensAs N.listens (serving_in service.entry)) }
    ensures stops { IfErr result (IsListenError (N.may_break network.now)) }
{
    let listening = Listening {
        address: service.address,
        port: service.port,
        limits: limits_of(service),
        log: logging_of(service),
    };
    Ok(network.listen(alloc, listening)?)
}

/// How long may be rested before the next turn. What was answered and not yet offered waits for
/// nothing: no wire will tell that the next page of a search can be written.
fn rest_of<T: Tables>(turner: &Turner<T>, most: Duration) -> Duration {
    if turner.has_new_answers() {
        return Duration::ZERO;
    }
    most
}

/// One turn of all connections. The log is told what is served in it.
fn turn_told<N: Network, T: Tables>(
    network: &N,
    turner: &mut Turner<T>,
    wires: &mut N::Wired,
) -> Result<(), TurnFault>
    requires working { turner.old.fault ≡ None }
    ensures went { OnOk result (TurnsWent (Moves T.state) (N.Wired.log wires.old)
        (N.Wired.log wires.new) turner.old.server turner.new.server turner.old.hold
        turner.new.hold 1) }
    ensures cut { IfErr result (TurnsCut (Moves T.state) (Fails T.state)
        (N.Wired.log wires.old) (N.Wired.log wires.new) turner.old.server turner.new.server
        turner.old.hold 1) }
    ensures fault { OnOk result (turner.new.fault ≡ None) }
{
    network.tell(wires, turner);
    let turned = turn_all(turner, wires, 1);
    network.tell(wires, turner);
    turned
}

/// Attends to the clients of the console and to the web front, if there are any. The log is told of it.
fn attend<N: Network, T: Tables, B: Backups<T>>(
    network: &N,
    backups: &B,
    turner: &mut Turner<T>,
    listeners: &mut Listeners<N>,
) -> Result<(), Fault>
    ensures same { N.Wired.log listeners.new.wires ≡ N.Wired.log listeners.old.wires }
    ensures went { OnOk result (IsAttended T.state turner.old turner.new
        (view_of N.Console.log listeners.old.console)
        (view_of N.Console.log listeners.new.console)) }
    ensures cut { OnErr result (IsInterrupted T.state turner.old turner.new
        (view_of N.Console.log listeners.old.console)
        (view_of N.Console.log listeners.new.console)) }
{
    let Some(console) = &mut listeners.console else {
        return Ok(());
    };
    console.turn(turner, backups)?;
    let notes = console.take_notes();
    network.note(&mut listeners.wires, notes.as_str());
    Ok(())
}

/// Waits until something may be done by any of these, so long at most.
fn rest<N: Network>(network: &N, listeners: &mut Listeners<N>, most: Duration) -> io::Result<()>
    ensures same { N.Wired.log listeners.new.wires ≡ N.Wired.log listeners.old.wires }
    ensures console { view_of N.Console.log listeners.new.console
        ≡ view_of N.Console.log listeners.old.console }
    ensures failed { OnErr result (N.may_break network.now) }
{
    match &mut listeners.console {
        None => network.rest(&mut listeners.wires, most),
        Some(console) => network.rest_with(
            &mut listeners.wires,
            &mut console.handler.wires,
            &mut console.front,
            most,
        ),
    }
}

/// One round: a turn of all connections, one of the console if there is one, and a rest.
fn turn_once<N: Network, T: Tables, B: Backups<T>>(
    network: &N,
    backups: &B,
    turner: &mut Turner<T>,
    listeners: &mut Listeners<N>,
    most: Duration,
) -> Result<(), Stop>
    requires working { turner.old.fault ≡ None }
    ensures went { OnOk result (RoundsWent T.state (N.Wired.log listeners.old.wires)
        (N.Wired.log listeners.new.wires) turner.old turner.new 1
        (AreBeside T.state (N.Wired.log listeners.old.wires) turner.old turner.new.server
        (view_of N.Console.log listeners.old.console)
        (view_of N.Console.log listeners.new.console))) }
    ensures cut { IfErr result (RoundsCut T.state (N.may_break network.now)
        (N.Wired.log listeners.old.wires) (N.Wired.log listeners.new.wires) turner.old
        turner.new.server 1 (AreBesideTo T.state (N.Wired.log listeners.old.wires) turner.old
        turner.new.server (view_of N.Console.log listeners.old.console)
        (view_of N.Console.log listeners.new.console))) }
{
    calls_are_a_serving::<T>();
    steps_are_a_history::<T>();
    turn_told(network, turner, &mut listeners.wires)?;
    let most = rest_of(turner, most);
    attend(network, backups, turner, listeners)?;
    if rest(network, listeners, most).is_err() {
        return Err(Stop::Network);
    }
    Ok(())
}

/// How many turns, and how long is rested after each at most.
#[derive(Clone, Copy)]
struct Pace {
    turns: u64,
    rest: Duration,
}

impl Pace {
    /// A service without an end rests until something may be done; with one, its turns do not last.
    fn of(turns: Option<u32>) -> Self
        ensures { result.turns ≡ turn_count turns }
    {
        match turns {
            None => Pace {
                turns: u64::MAX,
                rest: Duration::from_secs(1),
            },
            Some(turns) => Pace {
                turns: u64::from(turns),
                rest: Duration::from_millis(1),
            },
        }
    }
}

/// So many rounds.
fn serve_rounds<N: Network, T: Tables, B: Backups<T>>(
    network: &N,
    backups: &B,
    turner: &mut Turner<T>,
    listeners: &mut Listeners<N>,
    pace: Pace,
) -> Result<(), Stop>
    requires working { turner.old.fault ≡ None }
    ensures went { OnOk result (RoundsWent T.state (N.Wired.log listeners.old.wires)
        (N.Wired.log listeners.new.wires) turner.old turner.new pace.turns
        (AreBeside T.state (N.Wired.log listeners.old.wires) turner.old turner.new.server
        (view_of N.Console.log listeners.old.console)
        (view_of N.Console.log listeners.new.console))) }
    ensures cut { IfErr result (RoundsCut T.state (N.may_break network.now)
        (N.Wired.log listeners.old.wires) (N.Wired.log listeners.new.wires) turner.old
        turner.new.server pace.turns (AreBesideTo T.state (N.Wired.log listeners.old.wires)
        turner.old turner.new.server (view_of N.Console.log listeners.old.console)
        (view_of N.Console.log listeners.new.console))) }
{
    for _turn in 0..pace.turns {
        turn_once(network, backups, turner, listeners, pace.rest)?;
    }
    Ok(())
}

/// Prints that connections can come in.
fn put_ready<W: Sink>(port: u16, output: &mut W) -> Result<(), Stop>
    ensures ready { OnOk result (Appends (W.written output.old) (W.written output.new)
        (ready_text port)) }
    ensures flushed { OnOk result (W.is_flushed output.new) }
    ensures cut { IfErr result (λ stop. (stop ≡ Stop.Output) × BreaksOff (W.may_fail output.old)
        (W.written output.old) (W.written output.new) (ready_text port)) }
{
    if put_numbered("ready ", u64::from(port), output).is_err() {
        return Err(Stop::Output);
    }
    if output.finish().is_err() {
        return Err(Stop::Output);
    }
    Ok(())
}

/// Listens, prints that connections can come in, serves them by a server that was asked for nothing
/// yet, and gives back what keeps the rows, which are those after the events that were served.
pub fn serve_by<N: AllocGlobal + Network, T: Tables + Drop, B: Backups<T>, W: Sink>(
    network: &N,
    backups: &B,
    service: Service<'_>,
    server: Server<T>,
    output: &mut W,
) -> Result<T, Stop>
    requires begins { Refines T.state (T.state server.tables).rows server [] }
    ensures ready { OnOk result (Appends (W.written output.old) (W.written output.new)
        (ready_text service.entry.port)) }
    ensures flushed { OnOk result (W.is_flushed output.new) }
    ensures served { IfOk result (λ tables. (T.state tables).honest →
        (T.state server.tables).honest × Served N.Wired.log N.Console.log server.institutions
        (T.state server.tables).rows (turn_count service.entry.turns)
        (clients_of (serving_in service.entry)) (T.state tables).rows) }
    ensures ends { IfErr result (EndsService (N.may_break network.now) (W.may_fail output.old)
        (W.written output.old) (W.written output.new) service.entry.port (λ stop.
        AsFarAsHonest T.state ((T.state server.tables).honest × ServedUpTo N.Wired.log
        N.Console.log (N.may_break network.now) server.institutions
        (T.state server.tables).rows (turn_count service.entry.turns)
        (clients_of (serving_in service.entry)) stop))) }
{
    steps_are_a_history::<T>();
    calls_are_a_serving::<T>();
    servings_are_answered::<T>();
    let alloc = network.alloc();
    let pace = Pace::of(service.turns);
    let mut wires = listen(alloc, network, service)?;
    let console = console_of(alloc, network, service, server.institutions(), &mut wires)?;
    put_ready(service.port, output)?;
    let mut listeners = Listeners { wires, console };
    let mut turner = Turner::new(alloc, server);
    match serve_rounds(network, backups, &mut turner, &mut listeners, pace) {
        Ok(()) => Ok(turner.into_server().into_tables()),
        Err(stop) => {
            note_stop(network, &mut listeners.wires, stop);
            Err(stop)
        }
    }
}

/// Serves connections: reads the configuration, opens what keeps the rows, listens, prints that
/// connections can come in, turns, and closes the store, if there is one.
pub fn serve<Rt: AllocGlobal + Folder + Stores + Network, W: Sink>(
    rt: &Rt,
    service: Service<'_>,
    output: &mut W,
) -> Result<(), Stop>
    ensures done { OnOk result (IsServed Rt.Wired.log Rt.Console.log Rt.File.state (Rt.held rt.now)
        (Rt.stored rt.now) (W.written output.old) (W.written output.new) (serving_in service.entry)
        (Rt.closed rt.now)) }
    ensures flushed { OnOk result (W.is_flushed output.new) }
    ensures stops { IfErr result (StopsService Rt.Wired.log Rt.Console.log Rt.File.state
        (Rt.held rt.now) (Rt.stored rt.now) (W.written output.old) (W.written output.new)
        (serving_in service.entry) (Rt.may_break rt.now) (Rt.may_fail rt.now)
        (W.may_fail output.old)) }
{
    let config = configured(rt, service.config)?;
    match service.keeper {
        Keeper::Memory => {
            let server = Server::new(rt.alloc(), config, rt.memory(rt.alloc())?)?;
            serve_by(rt, &OfMemory, service, server, output)?;
        }
        Keeper::New(path) => {
            let server = Server::new(rt.alloc(), config, rt.new_store(rt.alloc(), path)?)?;
            let filled = serve_by(rt, &OfFiles(rt), service, server, output)?;
            rt.close(filled)?;
        }
        Keeper::Found(path) => {
            let server = Server::new(rt.alloc(), config, rt.store(rt.alloc(), path)?)?;
            let kept = serve_by(rt, &OfFiles(rt), service, server, output)?;
            rt.close(kept)?;
        }
    }
    Ok(())
}
