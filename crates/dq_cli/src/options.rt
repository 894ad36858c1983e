//! The requests in the options of a subcommand, and the errors of those that are not taken.
ghost use Rattle.std.specs.Prelude.{◌≡◌, ◌==◌, true, false, map, length, drop, option_map, option_and_then, codes, IfOk, MatchOption};
ghost use Rattle.std.specs.List.{list_all, starts_with};
ghost use Rattle.std.specs.Option.{option_copied};
ghost use Rattle.std.specs.Result.{result_ok};
ghost use Rattle.clap.specs.Words.{subcommand_rows_of};
ghost use Rattle.dq_cli.specs.CommandLine.{place_named, place_asked, port_told, number_told, seconds_told, told_if_given, is_of_host, is_host, before_colon, after_colon, is_host_and_port, is_behind, origin_told, origin_named, web_named, web_front_in, request_asked, subcommand_request, serving_in, serving_of, migration_in, migration_of, checking_in, checking_of, duplicating_in, duplicating_of, kind_told, exporting_in, exporting_of, command_in, command_of};
ghost use Rattle.dq_cli.specs.Clap.{value_in, values_in, is_given, is_subcommand};

use crate::parsed_command::{
    CaptureCommand, Copying, Export, Inspection, Keeper, Migration, ParsedCommand, RowKind,
    Service, Task, Web,
};
use clap::ArgMatches;
use clap::error::ErrorKind;
use std::alloc::{AllocError, Global};

const LOOPBACK_ADDRESS: &str = "127.0.0.1";

/// For how many seconds the ARTIM timer of PS3.8 section 9.1.5 runs where none are named.
const ARTIM_SECONDS: u32 = 30;

/// The number that stands for any number of connections of one address.
const NO_PEER_LIMIT: u32 = 0;

/// How many connections of one address may come to the web front where no number is named.
const WEB_PEERS: u32 = 16;

/// Why options are not taken.
#[derive(Clone, Copy, PartialEq, Eq)]
pub(crate) enum Misuse {
    /// They name two stores.
    TwoStores,
    /// The port is none.
    NoPort,
    /// The number of turns is none.
    NoTurns,
    /// The number of seconds of silence is none.
    NoSeconds,
    /// The number of seconds of ARTIM is none.
    NoArtim,
    /// The number of connections of one address is none.
    NoPeers,
    /// One of the files of a migration or a copy is not named.
    NoFile,
    /// The configuration that is to be checked is not named.
    NoConfig,
    /// The port of the web front is none, or only one of its port and its keys is named.
    NoWeb,
    /// The origin of the viewer is none.
    NoOrigin,
    /// The number of connections of one address to the web front is none.
    NoWebPeers,
    /// The store or the institution of an export is not named.
    NoInstitution,
    /// The word for a kind of rows is none.
    NoKind,
}

/// The value of an option of the subcommand.
fn value_in<'a>(matches: &ArgMatches<'a>, name: &str) -> Option<&'a str>
    ensures { option_copied result ≡ value_in name.now (subcommand_rows_of matches.now) }
{
    let (_, options) = matches.subcommand()?;
    options.get_str(name)
}

/// The values of an option of the subcommand that may be given several times.
pub(crate) fn values_in<'a>(
    alloc: Global,
    matches: &ArgMatches<'a>,
    name: &str,
) -> Result<Vec<&'a str>, AllocError>
    ensures { IfOk result (λ values. map (λ value. value.now) values.items
        ≡ values_in name.now (subcommand_rows_of matches.now)) }
{
    let Some((_, options)) = matches.subcommand() else {
        return Ok(Vec::new(alloc));
    };
    match options.get_strs(name) {
        Some(values) => Vec::from_slice(alloc, values),
        None => Ok(Vec::new(alloc)),
    }
}

/// Whether an option of the subcommand that takes no value is there.
fn is_given(matches: &ArgMatches, name: &str) -> bool
    ensures { result ≡ is_given name.now (subcommand_rows_of matches.now) }
{
    match value_in(matches, name) {
        Some(text) => text == "true",
        None => false,
    }
}

/// Whether the subcommand has a name.
fn is_named(matches: &ArgMatches, name: &str) -> bool
    ensures { result ≡ is_subcommand name.now (subcommand_rows_of matches.now) }
{
    match matches.subcommand() {
        Some((found, _)) => found == name,
        None => false,
    }
}

/// Where the options say that rows are kept.
fn keeper_in<'a>(matches: &ArgMatches<'a>) -> Result<Keeper<'a>, Misuse>
    ensures { option_map place_asked (result_ok result)
        ≡ place_named (subcommand_rows_of matches.now) }
{
    match (value_in(matches, "new"), value_in(matches, "store")) {
        (None, None) => Ok(Keeper::Memory),
        (Some(path), None) => Ok(Keeper::New(path)),
        (None, Some(path)) => Ok(Keeper::Found(path)),
        (Some(_), Some(_)) => Err(Misuse::TwoStores),
    }
}

// `parse` takes a sign in front.
fn port_told(text: &str) -> Option<u16>
    ensures { result ≡ port_told text.now }
{
    if text.starts_with('+') {
        return None;
    }
    let port = text.parse::<u16>().ok()?;
    if port > 0 { Some(port) } else { None }
}

fn number_told(text: &str) -> Option<u32>
    ensures { result ≡ number_told text.now }
{
    if text.starts_with('+') {
        return None;
    }
    text.parse::<u32>().ok()
}

fn seconds_told(text: &str) -> Option<u32>
    ensures { result ≡ seconds_told text.now }
{
    if text.starts_with('+') {
        return None;
    }
    let seconds = text.parse::<u32>().ok()?;
    if seconds > 0 { Some(seconds) } else { None }
}

/// The kind of rows that a word names.
fn kind_told(text: &str) -> Option<RowKind>
    ensures { result ≡ kind_told text.now }
{
    if text == "studies" {
        Some(RowKind::Studies)
    } else if text == "series" {
        Some(RowKind::Series)
    } else if text == "images" {
        Some(RowKind::Images)
    } else if text == "worklist" {
        Some(RowKind::Worklist)
    } else if text == "steps" {
        Some(RowKind::Steps)
    } else {
        None
    }
}

/// The port that an option names.
fn port_in(matches: &ArgMatches) -> Result<u16, Misuse>
    ensures { result_ok result
        ≡ option_and_then port_told (value_in (codes "port") (subcommand_rows_of matches.now)) }
{
    match value_in(matches, "port") {
        Some(text) => port_told(text).ok_or(Misuse::NoPort),
        None => Err(Misuse::NoPort),
    }
}

/// The number that an option names, if it is there.
fn number_in(matches: &ArgMatches, name: &str, misuse: Misuse) -> Result<Option<u32>, Misuse>
    ensures { result_ok result
        ≡ told_if_given number_told (value_in name.now (subcommand_rows_of matches.now)) }
{
    match value_in(matches, name) {
        None => Ok(None),
        Some(text) => match number_told(text) {
            Some(number) => Ok(Some(number)),
            None => Err(misuse),
        },
    }
}

/// The number of seconds of silence that an option names, if it is there.
fn quiet_in(matches: &ArgMatches) -> Result<Option<u32>, Misuse>
    ensures { result_ok result
        ≡ told_if_given seconds_told (value_in (codes "quiet") (subcommand_rows_of matches.now)) }
{
    match value_in(matches, "quiet") {
        None => Ok(None),
        Some(text) => match seconds_told(text) {
            Some(seconds) => Ok(Some(seconds)),
            None => Err(Misuse::NoSeconds),
        },
    }
}

fn is_of_host(octet: u8) -> bool
    ensures { result ≡ is_of_host octet }
{
    octet.is_ascii_lowercase() || octet.is_ascii_digit() || octet == b'-' || octet == b'.'
}

fn are_of_host(octets: &[u8]) -> bool
    ensures { result ≡ list_all is_of_host octets.now }
{
    octets.iter().all(|octet| is_of_host(*octet))
}

/// Whether a text is a name of hosts or an IPv4 address, as browsers write it.
fn is_host(text: &str) -> bool
    ensures { result ≡ is_host text.now }
{
    !text.is_empty() && are_of_host(text.as_bytes())
}

/// Returns what stands before the first colon of a text, or all of it.
fn before_colon(text: &str) -> &str
    ensures { result.now ≡ before_colon text.now }
{
    match text.split_once(':') {
        Some((front, _)) => front,
        None => text,
    }
}

/// Returns what stands after the first colon of a text, or nothing.
fn after_colon(text: &str) -> &str
    ensures { result.now ≡ after_colon text.now }
{
    match text.split_once(':') {
        Some((_, rest)) => rest,
        None => "",
    }
}

/// Whether a text is a host, with or without a port.
fn is_host_and_port(text: &str) -> bool
    ensures { result ≡ is_host_and_port text.now }
{
    let host = before_colon(text);
    is_host(host) && (host.len() == text.len() || port_told(after_colon(text)).is_some())
}

/// Returns the rest of a text behind a word at its front.
fn behind<'a>(text: &'a str, word: &str) -> Option<&'a str>
    ensures { MatchOption result (starts_with ◌==◌ text.now word.now ≡ false)
        (λ rest. (starts_with ◌==◌ text.now word.now ≡ true)
        × (rest.now ≡ drop (length word.now) text.now)) }
{
    text.strip_prefix(word)
}

/// Whether a text is a scheme, and a host behind it.
fn is_behind(scheme: &str, text: &str) -> bool
    ensures { result ≡ is_behind scheme.now text.now }
{
    match behind(text, scheme) {
        Some(rest) => is_host_and_port(rest),
        None => false,
    }
}

/// The origin that a text tells, as browsers write it (RFC 6454 section 6.2).
fn origin_told(text: &str) -> Option<&str>
    ensures { option_copied result ≡ origin_told text.now }
{
    if is_behind("http://", text) || is_behind("https://", text) {
        Some(text)
    } else {
        None
    }
}

/// The origin of the viewer that an option names, if it is there.
fn origin_in<'a>(matches: &ArgMatches<'a>) -> Result<Option<&'a str>, Misuse>
    ensures { option_map option_copied (result_ok result)
        ≡ origin_named (subcommand_rows_of matches.now) }
{
    match value_in(matches, "web-origin") {
        None => Ok(None),
        Some(text) => match origin_told(text) {
            Some(origin) => Ok(Some(origin)),
            None => Err(Misuse::NoOrigin),
        },
    }
}

/// The web front that the options name.
fn web_in<'a>(matches: &ArgMatches<'a>) -> Result<Option<Web<'a>>, Misuse>
    ensures { option_map (option_map web_front_in) (result_ok result)
        ≡ web_named (subcommand_rows_of matches.now) }
{
    let address = value_in(matches, "web-listen");
    let host = value_in(matches, "web-host");
    let origin = origin_in(matches)?;
    let proxy = value_in(matches, "web-proxy");
    let peers = number_in(matches, "web-peer-connections", Misuse::NoWebPeers)?;
    match (value_in(matches, "web"), value_in(matches, "web-keys")) {
        (Some(text), Some(keys)) => match port_told(text) {
            Some(port) => Ok(Some(Web {
                port,
                address: address.unwrap_or(LOOPBACK_ADDRESS),
                host,
                origin,
                proxy,
                keys,
                peer_connections: peers.unwrap_or(WEB_PEERS),
            })),
            None => Err(Misuse::NoWeb),
        },
        (None, None) => match (address, host, origin, proxy, peers) {
            (None, None, None, None, None) => Ok(None),
            _ => Err(Misuse::NoWeb),
        },
        _ => Err(Misuse::NoWeb),
    }
}

/// The kind of rows that an option names, if it is there.
fn kind_in(matches: &ArgMatches) -> Result<Option<RowKind>, Misuse>
    ensures { result_ok result
        ≡ told_if_given kind_told (value_in (codes "kind") (subcommand_rows_of matches.now)) }
{
    match value_in(matches, "kind") {
        None => Ok(None),
        Some(text) => match kind_told(text) {
            Some(kind) => Ok(Some(kind)),
            None => Err(Misuse::NoKind),
        },
    }
}

/// Returns the request for a capture.
fn capture_command_in<'a>(matches: &ArgMatches<'a>) -> Result<CaptureCommand<'a>, Misuse>
    ensures { option_map request_asked (result_ok result)
        ≡ subcommand_request (subcommand_rows_of matches.now) }
{
    let keeper = keeper_in(matches)?;
    let task = if is_named(matches, "report") {
        Task::Report
    } else {
        Task::Replay
    };
    Ok(CaptureCommand {
        task,
        config: value_in(matches, "config"),
        keeper,
    })
}

/// Returns the request in the options of `serve`.
fn service_in<'a>(matches: &ArgMatches<'a>) -> Result<Service<'a>, Misuse>
    ensures { option_map serving_in (result_ok result)
        ≡ serving_of (subcommand_rows_of matches.now) }
{
    let port = port_in(matches)?;
    let turns = number_in(matches, "turns", Misuse::NoTurns)?;
    let quiet = quiet_in(matches)?;
    let artim = number_in(matches, "artim", Misuse::NoArtim)?;
    let peers = number_in(matches, "peer-connections", Misuse::NoPeers)?;
    let web = web_in(matches)?;
    let keeper = keeper_in(matches)?;
    Ok(Service {
        port,
        address: value_in(matches, "listen").unwrap_or(LOOPBACK_ADDRESS),
        artim: artim.unwrap_or(ARTIM_SECONDS),
        quiet,
        peer_connections: peers.unwrap_or(NO_PEER_LIMIT),
        is_logged: is_given(matches, "log"),
        log_file: value_in(matches, "log-file"),
        console: value_in(matches, "console"),
        web,
        turns,
        config: value_in(matches, "config"),
        keeper,
    })
}

/// Which store is migrated.
fn migration_in<'a>(matches: &ArgMatches<'a>) -> Result<Migration<'a>, Misuse>
    ensures { option_map migration_in (result_ok result)
        ≡ migration_of (subcommand_rows_of matches.now) }
{
    match (value_in(matches, "from"), value_in(matches, "to")) {
        (Some(from), Some(to)) => Ok(Migration { from, to }),
        _ => Err(Misuse::NoFile),
    }
}

/// Which configuration is checked.
fn inspection_in<'a>(matches: &ArgMatches<'a>) -> Result<Inspection<'a>, Misuse>
    ensures { option_map checking_in (result_ok result)
        ≡ checking_of (subcommand_rows_of matches.now) }
{
    match value_in(matches, "config") {
        Some(config) => Ok(Inspection {
            config,
            store: value_in(matches, "store"),
        }),
        None => Err(Misuse::NoConfig),
    }
}

/// Which store is copied, of whose rows.
fn copying_in<'a>(matches: &ArgMatches<'a>, only: Vec<&'a str>) -> Result<Copying<'a>, Misuse>
    requires { map (λ name. name.now) only.items
        ≡ values_in (codes "only") (subcommand_rows_of matches.now) }
    ensures { option_map duplicating_in (result_ok result)
        ≡ duplicating_of (subcommand_rows_of matches.now) }
{
    match (value_in(matches, "from"), value_in(matches, "to")) {
        (Some(from), Some(to)) => Ok(Copying { from, to, only }),
        _ => Err(Misuse::NoFile),
    }
}

/// Which rows are exported, of which store.
fn export_in<'a>(matches: &ArgMatches<'a>) -> Result<Export<'a>, Misuse>
    ensures { option_map exporting_in (result_ok result)
        ≡ exporting_of (subcommand_rows_of matches.now) }
{
    let kind = kind_in(matches)?;
    match (value_in(matches, "store"), value_in(matches, "only")) {
        (Some(store), Some(only)) => Ok(Export { store, only, kind }),
        _ => Err(Misuse::NoInstitution),
    }
}

/// Returns the request of the subcommand with its options, a replay if there is no subcommand.
pub(crate) fn parsed_command_in<'a>(
    matches: &ArgMatches<'a>,
    only: Vec<&'a str>,
) -> Result<ParsedCommand<'a>, Misuse>
    requires { map (λ name. name.now) only.items
        ≡ values_in (codes "only") (subcommand_rows_of matches.now) }
    ensures { option_map command_in (result_ok result)
        ≡ command_of (subcommand_rows_of matches.now) }
{
    if is_named(matches, "serve") {
        Ok(ParsedCommand::Serve(service_in(matches)?))
    } else if is_named(matches, "loopback") {
        Ok(ParsedCommand::Loop(value_in(matches, "config")))
    } else if is_named(matches, "migrate") {
        Ok(ParsedCommand::Migrate(migration_in(matches)?))
    } else if is_named(matches, "check") {
        Ok(ParsedCommand::Check(inspection_in(matches)?))
    } else if is_named(matches, "copy") {
        Ok(ParsedCommand::Copy(copying_in(matches, only)?))
    } else if is_named(matches, "export") {
        Ok(ParsedCommand::Export(export_in(matches)?))
    } else {
        Ok(ParsedCommand::Play(capture_command_in(matches)?))
    }
}

/// Returns the error of options that are not taken, in words.
pub(crate) fn reproach(misuse: Misuse) -> (ErrorKind, &'static str) {
    match misuse {
        Misuse::TwoStores => (
            ErrorKind::ArgumentConflict,
            "the argument '--new <FILE>' cannot be used with '--store <FILE>'",
        ),
        Misuse::NoPort => (
            ErrorKind::ValueValidation,
            "the argument '--port <PORT>' takes a number from 1 to 65535",
        ),
        Misuse::NoTurns => (
            ErrorKind::ValueValidation,
            "the argument '--turns <N>' takes a number from 0 to 4294967295",
        ),
        Misuse::NoSeconds => (
            ErrorKind::ValueValidation,
            "the argument '--quiet <SECONDS>' takes a number from 1 to 4294967295",
        ),
        Misuse::NoArtim => (
            ErrorKind::ValueValidation,
            "the argument '--artim <SECONDS>' takes a number from 0 to 4294967295",
        ),
        Misuse::NoPeers => (
            ErrorKind::ValueValidation,
            "the argument '--peer-connections <N>' takes a number from 0 to 4294967295",
        ),
        Misuse::NoFile => (
            ErrorKind::MissingRequiredArgument,
            "the arguments '--from <FILE>' and '--to <FILE>' are required",
        ),
        Misuse::NoConfig => (
            ErrorKind::MissingRequiredArgument,
            "the argument '--config <FILE>' is required",
        ),
        Misuse::NoWeb => (
            ErrorKind::ValueValidation,
            "the arguments '--web <PORT>', from 1 to 65535, and '--web-keys <FILE>' go together",
        ),
        Misuse::NoOrigin => (
            ErrorKind::ValueValidation,
            "the argument '--web-origin <ORIGIN>' takes http:// or https://, and a host in small letters with or without a port",
        ),
        Misuse::NoWebPeers => (
            ErrorKind::ValueValidation,
            "the argument '--web-peer-connections <N>' takes a number from 0 to 4294967295",
        ),
        Misuse::NoInstitution => (
            ErrorKind::MissingRequiredArgument,
            "the arguments '--store <FILE>' and '--only <NAME>' are required",
        ),
        Misuse::NoKind => (
            ErrorKind::ValueValidation,
            "the argument '--kind <KIND>' takes studies, series, images, worklist or steps",
        ),
    }
}
