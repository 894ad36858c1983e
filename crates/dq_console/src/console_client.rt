//! Who calls the console.
ghost use Rattle.std.specs.Prelude.{◌≡◌, ◌≢◌, [], length, position, option_map, if◌then◌else◌, IfOk, MatchBool};
ghost use Rattle.dq_console.specs.Console.{new_client, is_line_end, line_to, client_with_answer};
ghost use Rattle.dq_console.specs.ClientTurns.{TakesLine, Reads, Writes, ComesNext};

use dq_wires::{ReadTurn, WireFault, Wires};
use std::alloc::{AllocError, Global};
use std::marker::Model;
use std::mem;

/// The most octets of a line: those of an entry of 1,048,576 octets in hexadecimal, and of the words
/// before them.
const LINE_MOST: usize = 2_097_152 + 256;

/// The next thing from a client: a line, nothing yet, or that it is gone.
#[derive(Drop)]
pub enum Next {
    Line(Vec<u8>),
    Held,
    Left,
}

impl Next {
    fn of(held: bool) -> Self
        ensures { result ≡ (if held then Next.Held else Next.Left) }
    {
        if held { Next::Held } else { Next::Left }
    }
}

/// Where the first line ends, if it is whole.
fn end_in(octets: &[u8]) -> Option<usize>
    ensures { result ≡ position is_line_end octets.now }
{
    octets.iter().position(|octet| *octet == b'\n')
}

/// The line that ends there, and an empty one in the place of one that is too long.
fn line_to(mut octets: Vec<u8>, end: usize) -> Vec<u8>
    ensures { result.items ≡ line_to end octets.items }
{
    octets.truncate(if end > LINE_MOST { 0 } else { end });
    octets
}

/// A client of the console: its place among the wires, the octets that came and are not taken, how
/// many of these were searched for the end of a line, the answer, how much of it is written, and
/// whether nothing more is taken.
#[derive(Drop)]
pub struct ConsoleClient {
    alloc: Global,
    place: usize,
    came: Vec<u8>,
    searched: usize,
    answer: Vec<u8>,
    written: usize,
    is_over: bool,
}

impl Model for ConsoleClient {
    ghost use Rattle.std.specs.Prelude.{◌≤◌, length, drop};
    ghost use Rattle.dq_console.specs.Console.{HeldClient, first_line_length};

    ghost Value = { HeldClient };

    ghost view = { λ c. record {
      place = c.place;
      came = c.came.items;
      unsent = drop c.written c.answer.items;
      is_over = c.is_over;
    } };

    ghost invariant = { λ c. (c.written ≤ length c.answer.items)
        × (c.searched ≤ length c.came.items) × (c.searched ≤ first_line_length c.came.items) };
}

impl ConsoleClient {
    /// Creates a client that has just come.
    pub fn new(alloc: Global, place: usize) -> Self
        ensures { result ≡ new_client place }
    {
        ConsoleClient {
            alloc,
            place,
            came: Vec::new(alloc),
            searched: 0,
            answer: Vec::new(alloc),
            written: 0,
            is_over: false,
        }
    }

    /// Its place among the wires.
    pub fn place(&self) -> usize
        ensures { result ≡ self.now.place }
    {
        self.place
    }

    fn is_sending(&self) -> bool
        ensures { MatchBool result (self.now.unsent ≢ []) (self.now.unsent ≡ []) }
    {
        !self.answer[self.written..].is_empty()
    }

    /// Keeps what is to be written, and whether nothing more is taken.
    pub fn put(&mut self, answer: Vec<u8>, is_over: bool)
        ensures { self.new ≡ client_with_answer self.old answer.items is_over }
    {
        self.answer = answer;
        self.written = 0;
        self.is_over = is_over;
    }

    /// Offers what is not written of the answer. The answer is whether the client is still there.
    pub fn send<W: Wires>(&mut self, wires: &mut W) -> bool
        ensures { Writes (W.log wires.old) (W.log wires.new) self.old self.new result }
    {
        match wires.write(self.place, &self.answer[self.written..]) {
            Ok(count) => {
                let unsent = self.answer.len() - self.written;
                prove!(count <= unsent);
                self.written += count;
                true
            }
            Err(WireFault) => false,
        }
    }

    // The next line that is whole or too long.
    fn take_line(&mut self) -> Result<Option<Vec<u8>>, AllocError>
        ensures { IfOk result (λ line.
            TakesLine self.old self.new (option_map (λ it. it.items) line)) }
    {
        let Some(at) = end_in(&self.came[self.searched..]) else {
            self.searched = self.came.len();
            if self.came.len() <= LINE_MOST {
                return Ok(None);
            }
            self.came.clear();
            self.searched = 0;
            return Ok(Some(Vec::new(self.alloc)));
        };
        let end = self.searched + at;
        let rest = self.came.split_off(end + 1)?;
        let line = mem::replace(&mut self.came, rest);
        self.searched = 0;
        Ok(Some(line_to(line, end)))
    }

    // Keeps what came. The answer is whether the client is still there.
    fn receive<W: Wires>(&mut self, wires: &mut W, buffer: &mut [u8]) -> bool
        ensures { Reads (W.log wires.old) (W.log wires.new) (length buffer.old)
            self.old self.new result }
    {
        match wires.read(self.place, buffer) {
            Ok(ReadTurn::Got(count)) => self.came.extend_from_slice(&buffer[..count]).is_ok(),
            Ok(ReadTurn::Nothing) => true,
            Ok(ReadTurn::Ended) => false,
            Err(WireFault) => false,
        }
    }

    /// Returns what comes next: the unwritten rest of an answer goes first, then a line is taken,
    /// and otherwise the client is read. A client for whom there is no memory is disconnected.
    pub fn next<W: Wires>(&mut self, wires: &mut W, buffer: &mut [u8]) -> Next
        ensures { ComesNext (W.log wires.old) (W.log wires.new) self.old self.new result }
    {
        if self.is_sending() {
            return Next::of(self.send(wires));
        }
        if self.is_over {
            return Next::Left;
        }
        match self.take_line() {
            Ok(Some(line)) => Next::Line(line),
            Ok(None) => Next::of(self.receive(wires, buffer)),
            Err(AllocError) => Next::Left,
        }
    }
}
