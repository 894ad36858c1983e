//! Counts that the server keeps of itself for the operator. Each sum stops at the most that it can
//! hold.
ghost use Rattle.std.specs.Prelude.{◌≡◌, ◌<◌, ◌≤◌};
ghost use Rattle.dq_web.specs.Counting.{one_more, one_less, class_of, after, within, Served, turns_after, row_of, column_of, place_of, count_of, with_request};

use crate::resource::ResourceKind;
use crate::status::Status;

/// The services whose operations are counted.
#[derive(Clone, Copy, Debug, PartialEq, Eq)]
pub enum Service {
    Echo,
    Store,
    Find,
    Worklist,
    Step,
}

/// The class of a status (PS3.7 annex C).
#[derive(Clone, Copy, Debug, PartialEq, Eq)]
pub enum Class {
    Success,
    Warning,
    Refused,
    /// More answers follow, so the operation is not done.
    Pending,
}

/// The operations of a service, by the class of their status.
#[derive(Clone, Copy, Debug, Default, PartialEq, Eq)]
pub struct Operations {
    pub success: u64,
    pub warning: u64,
    pub refused: u64,
}

/// How many turns of the server took at most so long, and all of them.
#[derive(Clone, Copy, Debug, Default, PartialEq, Eq)]
pub struct Turns {
    pub within_1_ms: u64,
    pub within_5_ms: u64,
    pub within_10_ms: u64,
    pub within_50_ms: u64,
    pub within_100_ms: u64,
    pub within_500_ms: u64,
    pub within_1_s: u64,
    pub all: u64,
    pub micros: u64,
}

/// How many kinds of resources there are, and how many statuses.
const KINDS: usize = 11;

const STATUSES: usize = 19;

/// How many requests of the web front were answered, by the kind of their resource and the status of
/// the response: a row of all statuses for each kind.
#[derive(Clone, Copy, Debug, Default, PartialEq, Eq)]
pub struct RequestCounts {
    counts: [u64; KINDS * STATUSES],
}

/// The server's counts of itself since it started.
#[derive(Clone, Copy, Debug, Default, PartialEq, Eq)]
pub struct Counters {
    pub current: u64,
    pub accepted: u64,
    pub rejected: u64,
    pub released: u64,
    pub aborted: u64,
    pub lost: u64,
    pub echo: Operations,
    pub store: Operations,
    pub find: Operations,
    pub worklist: Operations,
    pub step: Operations,
    pub turns: Turns,
    pub memory: u64,
    pub requests: RequestCounts,
}

/// The class of a status: success, warning, pending, or else refused.
fn class_of(status: u16) -> Class
    ensures { result ≡ class_of status }
{
    match status {
        0 => Class::Success,
        0xff00 | 0xff01 => Class::Pending,
        1 | 0x107 | 0x116 => Class::Warning,
        _ => {
            if status / 0x1000 == 0xb {
                Class::Warning
            } else {
                Class::Refused
            }
        }
    }
}

fn one_more(count: u64) -> u64
    ensures { result ≡ one_more count }
{
    count.saturating_add(1)
}

fn one_less(count: u64) -> u64
    ensures { result ≡ one_less count }
{
    count.saturating_sub(1)
}

impl Operations {
    /// The operations with one more of a class.
    fn after(self, class: Class) -> Operations
        ensures { result ≡ after class self }
    {
        let mut operations = self;
        match class {
            Class::Success => operations.success = one_more(self.success),
            Class::Warning => operations.warning = one_more(self.warning),
            Class::Refused => operations.refused = one_more(self.refused),
            Class::Pending => {}
        }
        operations
    }
}

/// One more, where a turn took at most so long.
fn within(count: u64, micros: u64, most: u64) -> u64
    ensures { result ≡ within count micros most }
{
    if micros <= most {
        one_more(count)
    } else {
        count
    }
}

impl Turns {
    /// The turns with one more.
    fn after(self, micros: u64) -> Turns
        ensures { result ≡ turns_after micros self }
    {
        Turns {
            within_1_ms: within(self.within_1_ms, micros, 1_000),
            within_5_ms: within(self.within_5_ms, micros, 5_000),
            within_10_ms: within(self.within_10_ms, micros, 10_000),
            within_50_ms: within(self.within_50_ms, micros, 50_000),
            within_100_ms: within(self.within_100_ms, micros, 100_000),
            within_500_ms: within(self.within_500_ms, micros, 500_000),
            within_1_s: within(self.within_1_s, micros, 1_000_000),
            all: one_more(self.all),
            micros: self.micros.saturating_add(micros),
        }
    }
}

/// The row of a kind.
fn row_of(kind: ResourceKind) -> usize
    ensures row { result ≡ row_of kind }
    ensures within { result ≤ 10 }
{
    match kind {
        ResourceKind::Studies => 0,
        ResourceKind::Series => 1,
        ResourceKind::Instances => 2,
        ResourceKind::Worklist => 3,
        ResourceKind::Steps => 4,
        ResourceKind::Counts => 5,
        ResourceKind::Page => 6,
        ResourceKind::Health => 7,
        ResourceKind::Metrics => 8,
        ResourceKind::Backup => 9,
        ResourceKind::Nowhere => 10,
    }
}

/// The column of a status.
fn column_of(status: Status) -> usize
    ensures column { result ≡ column_of status }
    ensures within { result ≤ 18 }
{
    match status {
        Status::Done => 0,
        Status::Created => 1,
        Status::NoContent | Status::Preflight => 2,
        Status::BadRequest => 3,
        Status::Unauthorized => 4,
        Status::Forbidden => 5,
        Status::NotFound => 6,
        Status::MethodNotAllowed(_) => 7,
        Status::NotAcceptable => 8,
        Status::RequestTimeout => 9,
        Status::Conflict => 10,
        Status::TooLarge => 11,
        Status::UnsupportedMediaType => 12,
        Status::Misdirected => 13,
        Status::HeadTooLarge => 14,
        Status::ServerError => 15,
        Status::NotImplemented => 16,
        Status::Unavailable => 17,
        Status::Full => 18,
    }
}

fn place_of(kind: ResourceKind, status: Status) -> usize
    ensures place { result ≡ place_of kind status }
    ensures within { result < 209 }
{
    row_of(kind) * STATUSES + column_of(status)
}

impl RequestCounts {
    /// Counts a request for a resource of a kind that was answered with a status.
    pub fn count(&mut self, kind: ResourceKind, status: Status)
        ensures { self.new ≡ with_request kind status self.old }
    {
        let at = place_of(kind, status);
        self.counts[at] = one_more(self.counts[at]);
    }

    /// Returns how many requests for resources of a kind were answered with a status.
    pub(crate) fn of(&self, kind: ResourceKind, status: Status) -> u64
        ensures { result ≡ count_of kind status self.now }
    {
        self.counts[place_of(kind, status)]
    }
}

impl Counters {
    /// Counts an association that is accepted.
    pub fn accept(&mut self)
        ensures { self.new ≡ record self.old {
          current = one_more self.old.current;
          accepted = one_more self.old.accepted;
        } }
    {
        self.current = one_more(self.current);
        self.accepted = one_more(self.accepted);
    }

    /// Counts an association that is rejected.
    pub fn reject(&mut self)
        ensures { self.new ≡ record self.old { rejected = one_more self.old.rejected } }
    {
        self.rejected = one_more(self.rejected);
    }

    /// Counts an association that is released.
    pub fn release(&mut self)
        ensures { self.new ≡ record self.old {
          current = one_less self.old.current;
          released = one_more self.old.released;
        } }
    {
        self.current = one_less(self.current);
        self.released = one_more(self.released);
    }

    /// Counts an association that is aborted.
    pub fn abort(&mut self)
        ensures { self.new ≡ record self.old {
          current = one_less self.old.current;
          aborted = one_more self.old.aborted;
        } }
    {
        self.current = one_less(self.current);
        self.aborted = one_more(self.aborted);
    }

    /// Counts an association that is lost with its connection.
    pub fn lose(&mut self)
        ensures { self.new ≡ record self.old {
          current = one_less self.old.current;
          lost = one_more self.old.lost;
        } }
    {
        self.current = one_less(self.current);
        self.lost = one_more(self.lost);
    }

    /// Counts an operation of a service, by its status. A pending status counts nothing.
    pub fn serve(&mut self, service: Service, status: u16)
        ensures { Served service (class_of status) self.old self.new }
    {
        let class = class_of(status);
        match service {
            Service::Echo => self.echo = self.echo.after(class),
            Service::Store => self.store = self.store.after(class),
            Service::Find => self.find = self.find.after(class),
            Service::Worklist => self.worklist = self.worklist.after(class),
            Service::Step => self.step = self.step.after(class),
        }
    }

    /// Counts a turn of the server, by the microseconds that it took.
    pub fn turn(&mut self, micros: u64)
        ensures { self.new ≡ record self.old { turns = turns_after micros self.old.turns } }
    {
        self.turns = self.turns.after(micros);
    }
}
