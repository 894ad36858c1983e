//! The subcommands of the program, with their options and the help of each.
ghost use Rattle.std.specs.Prelude.{◌≡◌, false, IfOk};
ghost use Rattle.clap.specs.declared.builder.command.Command.TheViews.{out-Command as fields_of};
ghost use Rattle.clap.specs.Words.{app_of, rule_of};
ghost use Rattle.dq_cli.specs.Clap.{value_rule, task_app, listening_app, limiting_app, web_app, serve_app, loopback_app, migrate_app, check_app, copy_app, export_app, tasks_app, serving_app, command};

use crate::help::{CAPTURES, STATUSES};
use clap::{Arg, ArgAction, Command};
use std::alloc::{AllocError, Global};

pub(crate) const PROGRAM_NAME: &str = "dq_server";

/// A text with the version of the program, with which CHANGELOG.md begins, between two others.
macro_rules! versioned {
    ($before:literal, $after:literal) => {
        concat!($before, "0.1.0", $after)
    };
}

/// The version of the program.
pub const VERSION: &str = versioned!("", "");

/// The description of the program, with which its help begins.
const ABOUT: &str = versioned!(
    "Newtiron ",
    ", a DICOM server for metadata, of several hospitals"
);

/// The help of the option that names the configuration.
const CONFIGURATION: &str = "The configuration [default: the one that is built in]";

/// An option that takes a value.
fn value_option<'a>(alloc: Global, name: &'a str, value: &'a str, help: &'a str) -> Arg<'a>
    ensures rule { rule_of result ≡ value_rule name.entry.now }
    ensures local { result.global ≡ false }
{
    Arg::new(alloc, name)
        .long(name)
        .value_name(value)
        .help(help)
}

/// A subcommand with the options that name files.
fn task_command<'a>(alloc: Global, name: &'a str, about: &'a str) -> Result<Command<'a>, AllocError>
    ensures app { IfOk result (λ built. app_of built ≡ task_app name.entry.now) }
    ensures local { IfOk result (λ built. (fields_of built).has_globals ≡ false) }
{
    let config = value_option(alloc, "config", "FILE", CONFIGURATION);
    let configured = Command::new(alloc, name)
        .about(about)
        .after_help(STATUSES)
        .arg(config)?;
    let new = value_option(
        alloc,
        "new",
        "FILE",
        "Keeps the rows in a new store [default: in memory]",
    );
    let begun = configured.arg(new)?;
    let store = value_option(
        alloc,
        "store",
        "FILE",
        "Keeps the rows in a store that is there",
    );
    let command = begun.arg(store)?;
    Ok(command)
}

/// The subcommand that serves, with the options of its connections.
fn listening_command<'a>(alloc: Global) -> Result<Command<'a>, AllocError>
    ensures app { IfOk result (λ built. app_of built ≡ listening_app) }
    ensures local { IfOk result (λ built. (fields_of built).has_globals ≡ false) }
{
    let command = task_command(alloc, "serve", "Serves connections over TCP")?;
    let port = value_option(
        alloc,
        "port",
        "PORT",
        "The port at which connections come in, 1 to 65535",
    )
    .required(true);
    let ported = command.arg(port)?;
    let turns = value_option(
        alloc,
        "turns",
        "N",
        "Ends after N turns, 0 to 4294967295 [default: never]",
    );
    let ended = ported.arg(turns)?;
    let listen = value_option(
        alloc,
        "listen",
        "ADDRESS",
        "The address at which they come in [default: 127.0.0.1]",
    );
    let listening = ended.arg(listen)?;
    Ok(listening)
}

/// The subcommand that serves, with the options that give connections up.
fn limiting_command<'a>(alloc: Global) -> Result<Command<'a>, AllocError>
    ensures app { IfOk result (λ built. app_of built ≡ limiting_app) }
    ensures local { IfOk result (λ built. (fields_of built).has_globals ≡ false) }
{
    let listening = listening_command(alloc)?;
    let artim = value_option(
        alloc,
        "artim",
        "SECONDS",
        "The time to ask for an association, and to take the last PDU; 0 is no limit [default: 30]",
    );
    let limited = listening.arg(artim)?;
    let quiet = value_option(
        alloc,
        "quiet",
        "SECONDS",
        "Ends a connection when no octet passes in either direction for so long [default: never]",
    );
    let quieted = limited.arg(quiet)?;
    let peers = value_option(
        alloc,
        "peer-connections",
        "N",
        "Closes a connection at once when N of its address are there; 0 is no limit [default: 0]",
    );
    let limiting = quieted.arg(peers)?;
    Ok(limiting)
}

/// The subcommand that serves, with the options of the web front.
fn web_command<'a>(alloc: Global) -> Result<Command<'a>, AllocError>
    ensures app { IfOk result (λ built. app_of built ≡ web_app) }
    ensures local { IfOk result (λ built. (fields_of built).has_globals ≡ false) }
{
    let limiting = limiting_command(alloc)?;
    let web = value_option(
        alloc,
        "web",
        "PORT",
        "The port of a page, of searches over HTTP and of metrics [default: there are none]",
    );
    let begun = limiting.arg(web)?;
    let keys = value_option(
        alloc,
        "web-keys",
        "FILE",
        "The keys of their readers: an institution's name and a SHA-256 a line",
    );
    let keyed = begun.arg(keys)?;
    let listen = value_option(
        alloc,
        "web-listen",
        "ADDRESS",
        "The address of that port [default: 127.0.0.1]",
    );
    let listening = keyed.arg(listen)?;
    let host = value_option(
        alloc,
        "web-host",
        "HOST",
        "The host that a proxy before it is called by",
    );
    let hosted = listening.arg(host)?;
    let origin = value_option(
        alloc,
        "web-origin",
        "ORIGIN",
        "The origin of a viewer whose pages may search too, as https://viewer.example [default: none]",
    );
    let opened = hosted.arg(origin)?;
    let proxy = value_option(
        alloc,
        "web-proxy",
        "ADDRESS",
        "The address of a proxy before it, which says where requests came from [default: none]",
    );
    let proxied = opened.arg(proxy)?;
    let peers = value_option(
        alloc,
        "web-peer-connections",
        "N",
        "Closes a connection to it at once when N of its address are there; 0 is no limit [default: 16]",
    );
    let fronted = proxied.arg(peers)?;
    Ok(fronted)
}

/// The subcommand that serves.
fn serve_command<'a>(alloc: Global) -> Result<Command<'a>, AllocError>
    ensures app { IfOk result (λ built. app_of built ≡ serve_app) }
    ensures local { IfOk result (λ built. (fields_of built).has_globals ≡ false) }
{
    let command = web_command(alloc)?;
    let console = value_option(
        alloc,
        "console",
        "PATH",
        "The Unix socket that takes orders, made for its owner alone [default: none is taken]",
    );
    let ordered = command.arg(console)?;
    let log_file = value_option(
        alloc,
        "log-file",
        "FILE",
        "Appends these lines to a file, in place of standard error",
    );
    let filed = ordered.arg(log_file)?;
    let log = Arg::new(alloc, "log")
        .long("log")
        .action(ArgAction::SetTrue)
        .help("Tells on standard error what becomes of each connection");
    let logged = filed.arg(log)?;
    Ok(logged)
}

/// The subcommand that plays a capture over sockets.
fn loopback_command<'a>(alloc: Global) -> Result<Command<'a>, AllocError>
    ensures app { IfOk result (λ built. app_of built ≡ loopback_app) }
    ensures local { IfOk result (λ built. (fields_of built).has_globals ≡ false) }
{
    let config = value_option(alloc, "config", "FILE", CONFIGURATION);
    let command = Command::new(alloc, "loopback")
        .about("Plays a capture from standard input over sockets, and prints what each was sent")
        .after_help(STATUSES)
        .arg(config)?;
    Ok(command)
}

/// The subcommand that migrates a store.
fn migrate_command<'a>(alloc: Global) -> Result<Command<'a>, AllocError>
    ensures app { IfOk result (λ built. app_of built ≡ migrate_app) }
    ensures local { IfOk result (λ built. (fields_of built).has_globals ≡ false) }
{
    let from = value_option(
        alloc,
        "from",
        "FILE",
        "The store of version 1, which stays as it is",
    )
    .required(true);
    let begun = Command::new(alloc, "migrate")
        .about("Makes a new store of the rows of one of version 1; it reads no standard input")
        .after_help(STATUSES)
        .arg(from)?;
    let to = value_option(
        alloc,
        "to",
        "FILE",
        "The new store, which is made; it must not be there, or be empty",
    )
    .required(true);
    let command = begun.arg(to)?;
    Ok(command)
}

/// The subcommand that checks a configuration.
fn check_command<'a>(alloc: Global) -> Result<Command<'a>, AllocError>
    ensures app { IfOk result (λ built. app_of built ≡ check_app) }
    ensures local { IfOk result (λ built. (fields_of built).has_globals ≡ false) }
{
    let config = value_option(
        alloc,
        "config",
        "FILE",
        "The configuration; what is wrong with it is told in words",
    )
    .required(true);
    let begun = Command::new(alloc, "check")
        .about("Lists the institutions of a configuration; it reads no standard input")
        .after_help(STATUSES)
        .arg(config)?;
    let store = value_option(
        alloc,
        "store",
        "FILE",
        "Counts the rows of each institution in a store, which is only read",
    );
    let command = begun.arg(store)?;
    Ok(command)
}

/// The subcommand that copies a store.
fn copy_command<'a>(alloc: Global) -> Result<Command<'a>, AllocError>
    ensures app { IfOk result (λ built. app_of built ≡ copy_app) }
    ensures local { IfOk result (λ built. (fields_of built).has_globals ≡ false) }
{
    let from = value_option(alloc, "from", "FILE", "The store, which stays as it is").required(
        true,
    );
    let begun = Command::new(alloc, "copy")
        .about("Makes a new store of the rows of another one; it reads no standard input")
        .after_help(STATUSES)
        .arg(from)?;
    let to = value_option(
        alloc,
        "to",
        "FILE",
        "The new store, which is made; it must not be there, or be empty",
    )
    .required(true);
    let made = begun.arg(to)?;
    let only = value_option(
        alloc,
        "only",
        "NAME",
        "An institution whose rows are copied, once for each [default: all]",
    )
    .action(ArgAction::Append);
    let command = made.arg(only)?;
    Ok(command)
}

/// The subcommand that exports the rows of an institution.
fn export_command<'a>(alloc: Global) -> Result<Command<'a>, AllocError>
    ensures app { IfOk result (λ built. app_of built ≡ export_app) }
    ensures local { IfOk result (λ built. (fields_of built).has_globals ≡ false) }
{
    let store = value_option(alloc, "store", "FILE", "The store, which stays as it is").required(
        true,
    );
    let begun = Command::new(alloc, "export")
        .about("Prints the rows of an institution as DICOM JSON; it reads no standard input")
        .after_help(STATUSES)
        .arg(store)?;
    let only = value_option(
        alloc,
        "only",
        "NAME",
        "The institution; one without rows prints nothing",
    )
    .required(true);
    let named = begun.arg(only)?;
    let kind = value_option(
        alloc,
        "kind",
        "KIND",
        "studies, series, images, worklist or steps [default: all, in this order]",
    );
    let command = named.arg(kind)?;
    Ok(command)
}

/// The program, with its tasks over a capture.
fn tasks_command<'a>(alloc: Global) -> Result<Command<'a>, AllocError>
    ensures app { IfOk result (λ built. app_of built ≡ tasks_app) }
    ensures local { IfOk result (λ built. (fields_of built).has_globals ≡ false) }
{
    let replay = task_command(
        alloc,
        "replay",
        "Replays a capture from standard input (the default)",
    )?;
    let replaying = Command::new(alloc, PROGRAM_NAME)
        .about(ABOUT)
        .version(VERSION)
        .after_help(CAPTURES)
        .subcommand(replay)?;
    let report = task_command(
        alloc,
        "report",
        "Counts what is kept after a capture from standard input",
    )?;
    let reporting = replaying.subcommand(report)?;
    Ok(reporting)
}

/// The same, with those that serve.
fn serving_command<'a>(alloc: Global) -> Result<Command<'a>, AllocError>
    ensures app { IfOk result (λ built. app_of built ≡ serving_app) }
    ensures local { IfOk result (λ built. (fields_of built).has_globals ≡ false) }
{
    let tasks = tasks_command(alloc)?;
    let served = tasks.subcommand(serve_command(alloc)?)?;
    let looped = served.subcommand(loopback_command(alloc)?)?;
    Ok(looped)
}

/// The command line of the program.
pub(crate) fn command<'a>(alloc: Global) -> Result<Command<'a>, AllocError>
    ensures { IfOk result (λ built. app_of built ≡ command) }
{
    let serving = serving_command(alloc)?;
    let migrating = serving.subcommand(migrate_command(alloc)?)?;
    let checking = migrating.subcommand(check_command(alloc)?)?;
    let copying = checking.subcommand(copy_command(alloc)?)?;
    let command = copying.subcommand(export_command(alloc)?)?;
    Ok(command)
}
