//! Two hospitals store the same instance, in a store of files in memory, one of which stops.
mod reopening;

use dq_config::Config;
use dq_core::{Event, Outcome, Reply, run, well_formed};
use dq_list::Listed;
use dq_sql::{SqlTables, StoreFault};
use dq_tables::{PlainTables, Tables};
use sqlite::{Alter, Connection, FileStore, Files, Options};
use sqlite_disk::{Crash, Disk, Fuse, Memory};
use std::alloc::{AllocError, Global};
use std::process::Abort;
use std::test::*;

const CONFIG: &str = "[[institution]]
name = \"NORTH\"
routes = [{ called = \"ARCHIVE\", calling = \"CT1\" }]
studies = 1
images = 1
entries = 1
steps = 1
associations = 1

[[institution]]
name = \"SOUTH\"
routes = [{ called = \"ARCHIVE\", calling = \"CT2\" }]
studies = 1
images = 1
entries = 1
steps = 1
associations = 1
";

/// NORTH's request for CT storage and for Study Root queries, in Explicit.
const REQUEST: [u8; 242] = *b"\x01\0\0\0\0\xec\0\x01\0\0\
ARCHIVE         CT1             \
\0\0\0\0\0\0\0\0\0\0\0\0\0\0\0\0\0\0\0\0\0\0\0\0\0\0\0\0\0\0\0\0\
\x10\0\0\x151.2.840.10008.3.1.1.1\
\x20\0\0\x38\x01\0\0\0\
\x30\0\0\x191.2.840.10008.5.1.4.1.1.2\
\x40\0\0\x131.2.840.10008.1.2.1\
\x20\0\0\x3a\x03\0\0\0\
\x30\0\0\x1b1.2.840.10008.5.1.4.1.2.2.1\
\x40\0\0\x131.2.840.10008.1.2.1\
\x50\0\0\x11\x51\0\0\x04\0\0\x40\0\
\x52\0\0\x051.2.3";

/// Where a request differs in SOUTH's calling title.
const TITLE: usize = 28;

/// NORTH's C-STORE of the instance 1.2.9 of the patient DOE^A.
const STORE: [u8; 204] = *b"\x04\0\0\0\0\x60\0\0\0\x5c\x01\x03\
\0\0\0\0\x04\0\0\0\x4e\0\0\0\
\0\0\x02\0\x1a\0\0\x001.2.840.10008.5.1.4.1.1.2\0\
\0\0\0\x01\x02\0\0\0\x01\0\
\0\0\x10\x01\x02\0\0\0\x01\0\
\0\0\0\x08\x02\0\0\0\x01\0\
\0\0\0\x10\x06\0\0\x001.2.9\0\
\x04\0\0\0\0\x60\0\0\0\x5c\x01\x02\
\x08\0\x16\0UI\x1a\x001.2.840.10008.5.1.4.1.1.2\0\
\x08\0\x18\0UI\x06\x001.2.9\0\
\x10\0\x10\0PN\x06\0DOE^A \
\x20\0\x0d\0UI\x06\x001.2.3\0\
\x20\0\x0e\0UI\x06\x001.2.5\0";

/// The response that it is kept.
const STORED: &[u8] = b"\x04\0\0\0\0\x6a\0\0\0\x66\x01\x03\
\0\0\0\0\x04\0\0\0\x58\0\0\0\
\0\0\x02\0\x1a\0\0\x001.2.840.10008.5.1.4.1.1.2\0\
\0\0\0\x01\x02\0\0\0\x01\x80\
\0\0\x20\x01\x02\0\0\0\x01\0\
\0\0\0\x08\x02\0\0\0\x01\x01\
\0\0\0\x09\x02\0\0\0\0\0\
\0\0\0\x10\x06\0\0\x001.2.9\0";

/// A C-FIND of all studies: the patient's name, and how many series and images there are.
const FIND: &[u8] = b"\x04\0\0\0\0\x54\0\0\0\x50\x03\x03\
\0\0\0\0\x04\0\0\0\x42\0\0\0\
\0\0\x02\0\x1c\0\0\x001.2.840.10008.5.1.4.1.2.2.1\0\
\0\0\0\x01\x02\0\0\0\x20\0\
\0\0\x10\x01\x02\0\0\0\x02\0\
\0\0\0\x08\x02\0\0\0\x01\0\
\x04\0\0\0\0\x2c\0\0\0\x28\x03\x02\
\x08\0\x52\0CS\x06\0STUDY \
\x10\0\x10\0PN\0\0\
\x20\0\x06\x12IS\0\0\
\x20\0\x08\x12IS\0\0";

/// The final response, where there is no study.
const NOT_FOUND: &[u8] = b"\x04\0\0\0\0\x5e\0\0\0\x5a\x03\x03\
\0\0\0\0\x04\0\0\0\x4c\0\0\0\
\0\0\x02\0\x1c\0\0\x001.2.840.10008.5.1.4.1.2.2.1\0\
\0\0\0\x01\x02\0\0\0\x20\x80\
\0\0\x20\x01\x02\0\0\0\x02\0\
\0\0\0\x08\x02\0\0\0\x01\x01\
\0\0\0\x09\x02\0\0\0\0\0";

/// The responses where there is a study of DOE^A, of one series with one image.
const FOUND: [u8; 296] = *b"\x04\0\0\0\0\x5e\0\0\0\x5a\x03\x03\
\0\0\0\0\x04\0\0\0\x4c\0\0\0\
\0\0\x02\0\x1c\0\0\x001.2.840.10008.5.1.4.1.2.2.1\0\
\0\0\0\x01\x02\0\0\0\x20\x80\
\0\0\x20\x01\x02\0\0\0\x02\0\
\0\0\0\x08\x02\0\0\0\x01\0\
\0\0\0\x09\x02\0\0\0\0\xff\
\x04\0\0\0\0\x5a\0\0\0\x56\x03\x02\
\x08\0\x52\0CS\x06\0STUDY \
\x08\0\x54\0AE\x08\0ARCHIVE \
\x08\0\x56\0CS\x0c\0UNAVAILABLE \
\x10\0\x10\0PN\x06\0DOE^A \
\x20\0\x06\x12IS\x02\x001 \
\x20\0\x08\x12IS\x02\x001 \
\x04\0\0\0\0\x5e\0\0\0\x5a\x03\x03\
\0\0\0\0\x04\0\0\0\x4c\0\0\0\
\0\0\x02\0\x1c\0\0\x001.2.840.10008.5.1.4.1.2.2.1\0\
\0\0\0\x01\x02\0\0\0\x20\x80\
\0\0\x20\x01\x02\0\0\0\x02\0\
\0\0\0\x08\x02\0\0\0\x01\x01\
\0\0\0\x09\x02\0\0\0\0\0";

/// Where the name of SOUTH's patient, ROE^A, differs in what is stored and in what is found.
const PATIENT: usize = 170;

/// A hospital's connection, the digit of its calling title, and the first letter of its patient.
const HOSPITALS: [(u64, u8, u8); 2] = [(1, b'1', b'D'), (2, b'2', b'R')];

/// How many replies come before those to what the hospitals send.
const BEGUN: usize = 4;

/// The events that open an association of each hospital.
fn begun(alloc: Global) -> Result<Vec<Event>, AllocError> {
    let mut events = Vec::new(alloc);
    events.push(Event::Open(1))?;
    events.push(Event::Open(2))?;
    for (conn, title, _) in HOSPITALS {
        let mut request = REQUEST;
        request[TITLE] = title;
        events.push(Event::Piece(conn, Listed::copy_of(alloc, &request)?))?;
    }
    Ok(events)
}

/// Each hospital in turn stores its instance.
fn stores(alloc: Global) -> Result<Vec<Event>, AllocError> {
    let mut events = begun(alloc)?;
    for (conn, _, patient) in HOSPITALS {
        let mut store = STORE;
        store[PATIENT] = patient;
        events.push(Event::Piece(conn, Listed::copy_of(alloc, &store)?))?;
    }
    Ok(events)
}

/// Each hospital in turn asks for its studies.
fn searches(alloc: Global) -> Result<Vec<Event>, AllocError> {
    let mut events = begun(alloc)?;
    for (conn, _, _) in HOSPITALS {
        events.push(Event::Piece(conn, Listed::copy_of(alloc, FIND)?))?;
    }
    Ok(events)
}

/// A configuration that is read. Where its text is known, the check of a caller goes through it.
fn configured(alloc: Global, text: &str) -> Result<Config, Fail> {
    Ok(Config::read(alloc, text)?)
}

/// Returns the outcome of a history over tables.
fn played<T: Tables + Drop>(
    alloc: Global,
    tables: T,
    events: Vec<Event>,
) -> Result<Outcome<T>, Fail> {
    let config = configured(alloc, CONFIG)?;
    if tables.failed() || !well_formed(&events) {
        return Err("a history that is not played".into());
    }
    Ok(run(alloc, config, tables, events)?)
}

/// Whether a reply is these octets, and the connection stays open.
fn is_answer(reply: &Reply, wanted: &[u8]) -> bool {
    match reply {
        Reply::Octets {
            conn: _,
            octets,
            close,
        } => !*close && octets.as_slice() == wanted,
        Reply::Done | Reply::Refused(_) | Reply::Ignored => false,
    }
}

/// How many of the hospitals were told that their instance is kept.
fn stored(replies: &[Reply]) -> Result<usize, Fail> {
    let answers = replies.get(BEGUN..).ok_or("associations")?;
    if answers.iter().all(|reply| is_answer(reply, STORED)) {
        Ok(answers.len())
    } else {
        Err("an instance is refused".into())
    }
}

/// Whether a hospital's study is found, whole and alone, or none.
fn is_found(reply: &Reply, patient: u8) -> Result<bool, Fail> {
    let mut found = FOUND;
    found[PATIENT] = patient;
    let is_found = is_answer(reply, &found);
    if is_found || is_answer(reply, NOT_FOUND) {
        Ok(is_found)
    } else {
        Err("another answer".into())
    }
}

/// Of how many of the hospitals the study is found: the first ones.
fn found(replies: &[Reply]) -> Result<usize, Fail> {
    let [_, _, _, _, north, south] = replies else {
        return Err("searches that are not answered".into());
    };
    match (is_found(north, b'D')?, is_found(south, b'R')?) {
        (false, false) => Ok(0),
        (true, false) => Ok(1),
        (true, true) => Ok(2),
        (false, true) => Err("the second instance without the first one".into()),
    }
}

/// How many instances are answered as kept over tables, and the tables after that.
fn answered<T: Tables + Drop>(alloc: Global, tables: T) -> Result<(usize, T), Fail> {
    let outcome = played(alloc, tables, stores(alloc)?)?;
    let answered = stored(outcome.replies.as_slice())?;
    Ok((answered, outcome.tables))
}

/// The replies to searches over rows in a vector, which has the first instances.
fn replies_of_plain(alloc: Global, instances: usize) -> Result<Listed<Reply>, Fail> {
    let mut events = stores(alloc)?;
    events.truncate(BEGUN.saturating_add(instances));
    let kept = played(alloc, PlainTables::new(alloc), events)?.tables;
    Ok(played(alloc, kept, searches(alloc)?)?.replies)
}

/// Whether two replies are the same octets.
fn are_same(one: &Reply, other: &Reply) -> bool {
    match (one, other) {
        (
            Reply::Octets { octets, close, .. },
            Reply::Octets {
                octets: others,
                close: is_last,
                ..
            },
        ) => octets.as_slice() == others.as_slice() && close == is_last,
        (Reply::Done, Reply::Done) => true,
        _ => false,
    }
}

/// How many instances are found in tables. The searches are answered as over rows in a vector.
fn left<T: Tables + Drop>(alloc: Global, tables: T) -> Result<usize, Fail> {
    let replies = played(alloc, tables, searches(alloc)?)?.replies;
    let count = found(replies.as_slice())?;
    let others = replies_of_plain(alloc, count)?;
    let (replies, others) = (replies.as_slice(), others.as_slice());
    if replies.len() != others.len() {
        return Err("rows in a vector are answered less or more".into());
    }
    for (reply, other) in replies.iter().zip(others.iter()) {
        if !are_same(reply, other) {
            return Err("rows in a vector are answered otherwise".into());
        }
    }
    Ok(count)
}

/// A file in memory that fails from some call on.
type File = Fuse<Memory>;

/// Which of the two files stops.
#[derive(Clone, Copy)]
enum Stopping {
    Log,
    Database,
}

impl Stopping {
    /// Empty files, of which this one passes so many calls on.
    fn after(self, alloc: Global, calls: u64) -> Files<File> {
        let (log, db) = match self {
            Stopping::Log => (calls, u64::MAX),
            Stopping::Database => (u64::MAX, calls),
        };
        Files {
            log: Fuse::new(Memory::new(alloc), log),
            db: Fuse::new(Memory::new(alloc), db),
        }
    }
}

/// A store of two files. What is asked of it here is proved for any such store, which is cheaper
/// than to prove it for `FileStore`.
trait OfFiles: Alter + Drop {
    /// A connection to files, if they can be opened. Each commit is copied into the database file.
    fn opened(alloc: Global, files: Files<File>) -> Option<Connection<Self>>;

    fn closed(self) -> Files<File>;
}

impl OfFiles for FileStore<File> {
    fn opened(alloc: Global, files: Files<File>) -> Option<Connection<FileStore<File>>> {
        if !files.may_be_used() {
            return None;
        }
        let mut options = Options::new(1);
        options.checkpoint_frames = 1;
        Connection::open_files(alloc, files, options).ok()
    }

    fn closed(self) -> Files<File> {
        self.close()
    }
}

/// Whether one of the files has stopped.
fn have_stopped(files: &mut Files<File>) -> bool {
    !files.may_be_used() || files.log.len().is_err() || files.db.len().is_err()
}

/// Tables over new files, if these do not stop before.
fn new_tables<S: OfFiles>(alloc: Global, files: Files<File>) -> Result<Option<SqlTables<S>>, Fail> {
    let Some(conn) = S::opened(alloc, files) else {
        return Ok(None);
    };
    match SqlTables::open_lent(alloc, conn) {
        Ok(tables) => Ok(Some(tables)),
        Err((StoreFault::Store, _)) => Ok(None),
        Err((fault, _)) => Err(fault.into()),
    }
}

fn files_of<S: OfFiles>(tables: SqlTables<S>) -> Files<File> {
    tables.into_connection().into_store().closed()
}

/// The part of the octets written since the last sync that a crash leaves. Each is an outcome of
/// the model that the program opens its files under.
#[derive(Clone, Copy)]
enum Remains {
    /// Nothing.
    Synced,
    /// All, as where the process is killed.
    Written,
    /// The first of each two blocks of 512 octets.
    FirstBlocks,
    /// The second of each two blocks.
    SecondBlocks,
    /// The later half. A log is written from its front on, so that this is a crash after writes that
    /// reached the disk in another order.
    LaterHalf,
    /// The right places, with octets that nobody wrote.
    Torn,
}

const OUTCOMES: [Remains; 6] = [
    Remains::Synced,
    Remains::Written,
    Remains::FirstBlocks,
    Remains::SecondBlocks,
    Remains::LaterHalf,
    Remains::Torn,
];

/// An octet that no store here has often.
const TORN: u8 = 0xa5;

impl Remains {
    /// Whether what was written at a place is left there.
    fn keeps(self, at: usize, middle: usize) -> bool {
        match self {
            Remains::Synced | Remains::Torn => false,
            Remains::Written => true,
            Remains::FirstBlocks => at / 512 % 2 == 0,
            Remains::SecondBlocks => at / 512 % 2 == 1,
            Remains::LaterHalf => at >= middle,
        }
    }

    /// The octet at a place, of what was synced and what was written there.
    fn octet(self, at: usize, middle: usize, synced: Option<u8>, written: Option<u8>) -> u8 {
        let old = synced.unwrap_or(0);
        let Some(new) = written else {
            return old;
        };
        if synced == Some(new) || self.keeps(at, middle) {
            return new;
        }
        match self {
            Remains::Torn => TORN,
            _ => old,
        }
    }
}

/// The place in the middle of what was written.
fn middle(synced: &[u8], written: &[u8]) -> usize {
    let (mut first, mut last) = (written.len(), 0);
    for at in 0..written.len() {
        if synced.get(at) != written.get(at) {
            first = first.min(at);
            last = at;
        }
    }
    first.saturating_add(last.saturating_sub(first) / 2)
}

/// The octets that a crash leaves of a file. One that was cut may be as long as it was.
fn mixed(
    alloc: Global,
    synced: &[u8],
    written: &[u8],
    left: Remains,
) -> Result<Vec<u8>, AllocError> {
    match left {
        Remains::Synced => return Vec::from_slice(alloc, synced),
        Remains::Written => return Vec::from_slice(alloc, written),
        _ => {}
    }
    let middle = middle(synced, written);
    let mut octets = Vec::new(alloc);
    for at in 0..synced.len().max(written.len()) {
        let (old, new) = (synced.get(at).copied(), written.get(at).copied());
        octets.push(left.octet(at, middle, old, new))?;
    }
    Ok(octets)
}

/// A file with these octets.
fn file_with(alloc: Global, octets: &[u8]) -> Option<File> {
    let mut file = Fuse::new(Memory::new(alloc), u64::MAX);
    if octets.is_empty() {
        return Some(file);
    }
    file.write_at(0, octets).ok()?;
    file.sync().ok()?;
    Some(file)
}

/// Returns what a crash leaves of a file.
fn crashed(alloc: Global, mut file: File, left: Remains) -> Option<File> {
    let written = Vec::from_slice(alloc, file.inner().bytes()).ok()?;
    file.crash();
    let octets = mixed(alloc, file.inner().bytes(), &written, left).ok()?;
    file_with(alloc, &octets)
}

/// A connection to what a crash leaves of files, if they can be opened.
fn reopened<S: OfFiles>(alloc: Global, files: Files<File>, left: Remains) -> Option<Connection<S>> {
    let Files { log, db } = files;
    let files = Files {
        log: crashed(alloc, log, left)?,
        db: crashed(alloc, db, left)?,
    };
    S::opened(alloc, files)
}

/// Tables over what a crash leaves of files.
fn adopted<S: OfFiles>(
    alloc: Global,
    files: Files<File>,
    left: Remains,
) -> Result<SqlTables<S>, Fail> {
    let conn = reopened(alloc, files, left).ok_or("what a crash leaves is a database")?;
    match SqlTables::adopt_lent(alloc, conn) {
        Ok(tables) => Ok(tables),
        Err((fault, _)) => Err(fault.into()),
    }
}

/// The outcome of a run: whether a file stopped in it, how many instances were answered as kept,
/// and how many a crash leaves.
#[derive(Clone, Copy)]
struct Run {
    is_stopped: bool,
    answered: usize,
    left: usize,
}

/// A run over tables.
fn ran<S: OfFiles>(alloc: Global, tables: SqlTables<S>, after: Remains) -> Result<Run, Fail> {
    let (answered, tables) = answered(alloc, tables)?;
    let mut files = files_of(tables);
    Ok(Run {
        is_stopped: have_stopped(&mut files),
        answered,
        left: left(alloc, adopted::<S>(alloc, files, after)?)?,
    })
}

/// More calls than a run makes of one of its files.
const CALLS: u64 = 1000;

/// A file stops at each of its calls in turn, until a run ends without a stop. A crash leaves the
/// instances that were answered as kept, with the one in hand or without.
fn stop_at_each_call<S: OfFiles>(
    rt: &impl Abort,
    alloc: Global,
    stopping: Stopping,
    after: Remains,
) -> Result<(), Fail> {
    let mut was_stopped = false;
    for calls in 0..CALLS {
        let Some(tables) = new_tables::<S>(alloc, stopping.after(alloc, calls))? else {
            continue;
        };
        let Run {
            is_stopped,
            answered,
            left,
        } = ran(alloc, tables, after)?;
        if !is_stopped {
            assert_eq!(rt; (answered, left, was_stopped), (2, 2, true));
            return Ok(());
        }
        let is_whole = answered <= left && left - answered <= 1;
        assert!(rt; is_whole, "after {calls} calls");
        was_stopped = true;
    }
    Err("each run was stopped".into())
}

fn each_file_stops<S: OfFiles>(rt: &impl Abort, alloc: Global) -> Result<(), Fail> {
    for left in OUTCOMES {
        stop_at_each_call::<S>(rt, alloc, Stopping::Log, left)?;
        stop_at_each_call::<S>(rt, alloc, Stopping::Database, left)?;
    }
    Ok(())
}

#[test]
fn a_file_that_stops_leaves_what_was_answered(rt: HostRuntime) -> Result<(), Fail> {
    each_file_stops::<FileStore<File>>(&rt, rt.alloc())
}
