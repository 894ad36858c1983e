//! Wires in memory, which play what they are given.
ghost use Rattle.std.specs.Prelude.{◌≡◌, ◌≤◌, ◌<◌, [], length, position, Some, IfOk, IfSome, option_copied};
ghost use Rattle.dq_wires.specs.Logs.{Logs, IfGot, what_came};
ghost use Rattle.dq_wires.specs.Scripts.{is_read_at, IsNextRead};

use crate::calls::{Call, ReadOutcome, ReadTurn, WireFault};
use crate::given_up::{GivenUp, GivesUp};
use crate::wires::Wires;
use dq_list::Listed;
use std::alloc::{AllocError, Global};
use std::collections::VecDeque;
use std::net::SocketAddr;

/// The answers to calls, each kind in its own order. If none of a kind is left, no connection
/// comes, nothing is read, all octets are taken, and a connection is given up.
#[derive(Drop)]
pub struct Script {
    pub accepts: VecDeque<Result<Option<usize>, WireFault>>,
    /// The outcomes of reads, each with the place at which it is read. Octets for which the buffer
    /// has no room are lost.
    pub reads: Vec<(usize, ReadOutcome)>,
    /// The number of octets that each write takes, if as many are offered.
    pub writes: VecDeque<Result<usize, WireFault>>,
    pub shuts: VecDeque<Result<(), WireFault>>,
}

impl Script {
    /// The script that has no answer.
    pub fn empty(alloc: Global) -> Self
        ensures accepts { result.accepts.items ≡ [] }
        ensures reads { result.reads.items ≡ [] }
        ensures writes { result.writes.items ≡ [] }
        ensures shuts { result.shuts.items ≡ [] }
    {
        Script {
            accepts: VecDeque::new(alloc),
            reads: Vec::new(alloc),
            writes: VecDeque::new(alloc),
            shuts: VecDeque::new(alloc),
        }
    }

    // Takes what comes next at a place.
    fn take_read(&mut self, place: usize) -> ReadOutcome
        ensures came { IsNextRead self.old.reads.items (position (is_read_at place) self.old.reads.items)
            result self.new.reads.items }
        ensures others { self.new ≡ record self.old { reads = self.new.reads } }
    {
        match next_at(self.reads.as_slice(), place) {
            None => ReadOutcome::Nothing,
            Some(at) => {
                let (_, came) = self.reads.remove(at);
                came
            }
        }
    }
}

// Where the next read at a place is written, if there is one.
fn next_at(reads: &[(usize, ReadOutcome)], place: usize) -> Option<usize>
    ensures at { result ≡ position (is_read_at place) reads.now }
    ensures within { IfSome result (λ at. at < length reads.now) }
{
    reads.iter().position(|read| read.0 == place)
}

/// Wires that play a script, and tell their calls as long as there is memory for them.
#[derive(Drop)]
pub struct MemoryWires {
    alloc: Global,
    script: Script,
    calls: Option<Vec<Call>>,
    failed_accepts: u64,
}

impl MemoryWires {
    ghost use Rattle.dq_wires.specs.Scripts.{calls_so_far};

    /// Wires that were not called, and that play the script.
    pub fn new(alloc: Global, script: Script) -> Self
        ensures uncalled { calls_so_far result ≡ Some [] }
        ensures plays { result.script ≡ script }
    {
        MemoryWires {
            alloc,
            script,
            calls: Some(Vec::new(alloc)),
            failed_accepts: 0,
        }
    }

    /// The calls so far, unless memory ran out for one.
    pub fn calls(&self) -> Option<&[Call]>
        ensures { option_copied result ≡ calls_so_far self.now }
    {
        match &self.calls {
            None => None,
            Some(calls) => Some(calls.as_slice()),
        }
    }

    fn tell(&mut self, call: Result<Call, AllocError>)
        ensures told { (it : Call) → IfOk call (λ call. call ≡ it) →
            Logs (calls_so_far self.old) (calls_so_far self.new) it }
        ensures failed { self.new.failed_accepts ≡ self.old.failed_accepts }
    {
        let is_told = match (&mut self.calls, call) {
            (Some(calls), Ok(call)) => calls.push(call).is_ok(),
            _ => false,
        };
        if !is_told {
            self.calls = None;
        }
    }
}

// The first octets, as many as the buffer has room for.
fn fill(octets: &[u8], buffer: &mut [u8]) -> usize
    ensures { result ≤ length buffer.old }
{
    let count = octets.len().min(buffer.len());
    for (to, from) in buffer.iter_mut().zip(octets) {
        *to = *from;
    }
    count
}

fn copied(alloc: Global, octets: &[u8]) -> Result<ReadOutcome, AllocError>
    ensures { IfOk result (λ came. came ≡ ReadOutcome.Octets octets.now) }
{
    Ok(ReadOutcome::Octets(Listed::copy_of(alloc, octets)?))
}

fn came_of(
    alloc: Global,
    answer: &Result<ReadTurn, WireFault>,
    buffer: &[u8],
) -> Result<ReadOutcome, AllocError>
    requires { IfGot answer.now (λ count. count ≤ length buffer.now) }
    ensures { IfOk result (λ came. came ≡ what_came answer.now buffer.now) }
{
    match answer {
        Ok(ReadTurn::Got(count)) => copied(alloc, &buffer[..*count]),
        Ok(ReadTurn::Nothing) => Ok(ReadOutcome::Nothing),
        Ok(ReadTurn::Ended) => Ok(ReadOutcome::Ended),
        Err(WireFault) => Ok(ReadOutcome::Failed),
    }
}

impl Wires for MemoryWires {
    ghost use Rattle.dq_wires.specs.Scripts.{calls_so_far};

    ghost log = { calls_so_far };

    ghost failed_accepts = { λ wires. wires.failed_accepts };

    fn accept(&mut self) -> Result<Option<usize>, WireFault> {
        let answer = self.script.accepts.pop_front().unwrap_or(Ok(None));
        if answer.is_err() {
            self.failed_accepts = self.failed_accepts.saturating_add(1);
        }
        self.tell(Ok(Call::Accept(answer)));
        answer
    }

    fn read(&mut self, place: usize, buffer: &mut [u8]) -> Result<ReadTurn, WireFault> {
        let answer = match self.script.take_read(place) {
            ReadOutcome::Octets(octets) => Ok(ReadTurn::Got(fill(octets.as_slice(), buffer))),
            ReadOutcome::Nothing => Ok(ReadTurn::Nothing),
            ReadOutcome::Ended => Ok(ReadTurn::Ended),
            ReadOutcome::Failed => Err(WireFault),
        };
        let room = buffer.len();
        let call = match came_of(self.alloc, &answer, buffer) {
            Ok(came) => Ok(Call::Read { place, room, came }),
            Err(error) => Err(error),
        };
        self.tell(call);
        answer
    }

    fn write(&mut self, place: usize, octets: &[u8]) -> Result<usize, WireFault> {
        let taken = match self.script.writes.pop_front() {
            Some(Ok(count)) => Ok(count.min(octets.len())),
            Some(Err(fault)) => Err(fault),
            None => Ok(octets.len()),
        };
        let call = match Listed::copy_of(self.alloc, octets) {
            Ok(octets) => Ok(Call::Write {
                place,
                octets,
                taken,
            }),
            Err(error) => Err(error),
        };
        self.tell(call);
        taken
    }

    fn shut(&mut self, place: usize) -> Result<(), WireFault> {
        let answer = self.script.shuts.pop_front().unwrap_or(Ok(()));
        self.tell(Ok(Call::Shut { place, answer }));
        answer
    }
}

// They tell no peers, and give up no connection by themselves.
impl GivesUp for MemoryWires {
    ghost use Rattle.std.specs.Prelude.{None};

    ghost peer_at = { λ _ _. None };

    ghost given_up_at = { λ _ _. None };

    ghost turned_away_last = { λ _. None };

    fn peer(&self, _place: usize) -> Option<SocketAddr> {
        None
    }

    fn given_up(&self, _place: usize) -> Option<GivenUp> {
        None
    }

    fn turned_away(&self) -> Option<GivenUp> {
        None
    }
}
