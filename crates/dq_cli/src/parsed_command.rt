//! The command that a command line asks for.

/// A task over a capture.
#[derive(Clone, Copy, Debug, PartialEq, Eq)]
pub enum Task {
    /// Its replies are printed.
    Replay,
    /// The rows that are kept after it are counted.
    Report,
}

/// Where the rows are kept.
#[derive(Clone, Copy)]
pub enum Keeper<'a> {
    /// In memory, for the time of the run.
    Memory,
    /// In a store that is made in a file.
    New(&'a str),
    /// In the store that a file holds.
    Found(&'a str),
}

/// The request for a capture: a task, the configuration's file if one is named, and where the rows
/// are kept.
#[derive(Clone, Copy)]
pub struct CaptureCommand<'a> {
    pub task: Task,
    pub config: Option<&'a str>,
    pub keeper: Keeper<'a>,
}

/// Where requests of the web front come in: a port of an address; the host that a proxy before it is
/// called by, the origin of a viewer whose pages may read, and the address of that proxy, if they are
/// named; the file of its keys; and how many connections may come of one address, 0 any number.
#[derive(Clone, Copy)]
pub struct Web<'a> {
    pub port: u16,
    pub address: &'a str,
    pub host: Option<&'a str>,
    pub origin: Option<&'a str>,
    pub proxy: Option<&'a str>,
    pub keys: &'a str,
    pub peer_connections: u32,
}

/// The request of `serve`: the port and the address where connections come in; for how many seconds
/// ARTIM runs (PS3.8 section 9.1.5), 0 for ever; after how many seconds of silence a connection
/// counts as ended, if it does; how many may come from one address, 0 any number; whether what
/// becomes of them is logged, and the file of the log if one is named; the path of the console and
/// the web front, if they are there; after how many turns the service ends, if it ends; the
/// configuration's file if one is named, and where the rows are kept.
#[derive(Clone, Copy)]
pub struct Service<'a> {
    pub port: u16,
    pub address: &'a str,
    pub artim: u32,
    pub quiet: Option<u32>,
    pub peer_connections: u32,
    pub is_logged: bool,
    pub log_file: Option<&'a str>,
    pub console: Option<&'a str>,
    pub web: Option<Web<'a>>,
    pub turns: Option<u32>,
    pub config: Option<&'a str>,
    pub keeper: Keeper<'a>,
}

/// The file of a store of the version before, and the file in which the new one is made.
#[derive(Clone, Copy)]
pub struct Migration<'a> {
    pub from: &'a str,
    pub to: &'a str,
}

/// The file of a configuration that is checked, and that of a store, if one is named.
#[derive(Clone, Copy)]
pub struct Inspection<'a> {
    pub config: &'a str,
    pub store: Option<&'a str>,
}

/// The file of a store, the file in which a copy is made, and the names of the institutions whose
/// rows it has: of all, where none is named.
#[derive(Drop)]
pub struct Copying<'a> {
    pub from: &'a str,
    pub to: &'a str,
    pub only: Vec<&'a str>,
}

/// Which rows of an institution are exported.
#[derive(Clone, Copy, Debug, PartialEq, Eq)]
pub enum RowKind {
    Studies,
    Series,
    Images,
    Worklist,
    Steps,
}

/// The file of a store, the name of the institution whose rows are exported, and their kind: every
/// kind, where none is named.
#[derive(Clone, Copy)]
pub struct Export<'a> {
    pub store: &'a str,
    pub only: &'a str,
    pub kind: Option<RowKind>,
}

/// The command that a command line asks for.
#[derive(Drop)]
pub enum ParsedCommand<'a> {
    /// A task over a capture.
    Play(CaptureCommand<'a>),
    /// To serve connections.
    Serve(Service<'a>),
    /// To play a capture over sockets, with the configuration's file if one is named.
    Loop(Option<&'a str>),
    /// To migrate a store.
    Migrate(Migration<'a>),
    /// To check a configuration.
    Check(Inspection<'a>),
    /// To copy a store.
    Copy(Copying<'a>),
    /// To export the rows of an institution.
    Export(Export<'a>),
}
