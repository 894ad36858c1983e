//! The printed lines of replies. Printing them takes no memory.
ghost use Rattle.std.specs.Prelude.{◌≡◌, ◌++◌, IfOk, IfErr, OnOk, OnErr};
ghost use Rattle.std.specs.Fmt.{decimal};
ghost use Rattle.std.specs.Io.KnownBytes.{Appends};
ghost use Rattle.hex.specs.Hex.{encode_lower};
ghost use Rattle.dq_captures.specs.ReplyLines.{octets_text, reply_line_end, numbered_line, octets_line, printed_line, reply_lines};
ghost use Rattle.dq_captures.specs.Surroundings.{BreaksOff};

use crate::surroundings::Sink;
use dq_core::Reply;
use itoa::Buffer;
use std::alloc::{AllocError, Global};
use std::io;
use thiserror::Error;

/// The reason why replies could not be printed.
#[derive(Clone, Copy, Debug, PartialEq, Eq, Error)]
pub enum PrintFault {
    /// It is never answered: printing takes no memory.
    #[error("memory ran out")]
    NoMemory = 1,
    #[error("the output cannot be written")]
    Output = 2,
}

impl PrintFault {
    ghost use Rattle.dq_captures.specs.Faults.{print_fault_number};

    /// Returns the number of the fault, 1 or 2, in the order in which the faults are declared.
    pub fn number(self) -> u8
        ensures { result ≡ print_fault_number self }
    {
        self as u8
    }
}

/// Writes a text.
pub fn put_text<W: Sink>(text: &str, output: &mut W) -> io::Result<()>
    ensures written { OnOk result
        (Appends (W.written output.old) (W.written output.new) text.now) }
    ensures part { OnErr result (BreaksOff (W.may_fail output.old) (W.written output.old)
        (W.written output.new) text.now) }
    ensures fails { W.may_fail output.new → W.may_fail output.old }
{
    output.put(text.as_bytes())?;
    Ok(())
}

/// How many octets are spelled at a time.
const SPELLED_MOST: usize = 64;

/// Writes octets in hexadecimal.
fn put_hex<W: Sink>(octets: &[u8], output: &mut W) -> io::Result<()>
    ensures written { OnOk result
        (Appends (W.written output.old) (W.written output.new) (encode_lower octets.now)) }
    ensures part { OnErr result (BreaksOff (W.may_fail output.old) (W.written output.old)
        (W.written output.new) (encode_lower octets.now)) }
    ensures fails { W.may_fail output.new → W.may_fail output.old }
{
    let mut digits = [0u8; 2 * SPELLED_MOST];
    let mut rest = octets;
    'chunks: while !rest.is_empty() {
        let (first, later) = rest.split_at(rest.len().min(SPELLED_MOST));
        let spelled = &mut digits[..2 * first.len()];
        let _ = hex::encode_to_slice(first, spelled);
        output.put(spelled)?;
        rest = later;
    }
    Ok(())
}

/// Writes octets in hexadecimal, and a hyphen for none.
fn put_octets<W: Sink>(octets: &[u8], output: &mut W) -> io::Result<()>
    ensures written { OnOk result
        (Appends (W.written output.old) (W.written output.new) (octets_text octets.now)) }
    ensures part { OnErr result (BreaksOff (W.may_fail output.old) (W.written output.old)
        (W.written output.new) (octets_text octets.now)) }
    ensures fails { W.may_fail output.new → W.may_fail output.old }
{
    if octets.is_empty() {
        return put_text("-", output);
    }
    put_hex(octets, output)
}

/// Writes a number, and a text after it.
fn put_number<W: Sink>(number: u64, text: &str, output: &mut W) -> io::Result<()>
    ensures written { OnOk result
        (Appends (W.written output.old) (W.written output.new) (decimal number ++ text.now)) }
    ensures part { OnErr result (BreaksOff (W.may_fail output.old) (W.written output.old)
        (W.written output.new) (decimal number ++ text.now)) }
    ensures fails { W.may_fail output.new → W.may_fail output.old }
{
    let mut digits = Buffer::new();
    put_text(digits.format(number), output)?;
    put_text(text, output)?;
    Ok(())
}

/// Writes a line: a text, and a number after it.
pub fn put_numbered<W: Sink>(text: &str, number: u64, output: &mut W) -> io::Result<()>
    ensures written { OnOk result (Appends (W.written output.old) (W.written output.new)
        (numbered_line text.now number)) }
    ensures part { OnErr result (BreaksOff (W.may_fail output.old) (W.written output.old)
        (W.written output.new) (numbered_line text.now number)) }
    ensures fails { W.may_fail output.new → W.may_fail output.old }
{
    put_text(text, output)?;
    put_number(number, "\n", output)?;
    Ok(())
}

fn line_end(close: bool) -> &'static str
    ensures { result.now ≡ reply_line_end close }
{
    if close { " close\n" } else { "\n" }
}

/// Writes a line: the number of a connection, octets that it is sent, and whether it is closed.
pub fn put_sent<W: Sink>(number: u64, octets: &[u8], close: bool, output: &mut W) -> io::Result<()>
    ensures written { OnOk result (Appends (W.written output.old) (W.written output.new)
        (octets_line number octets.now close)) }
    ensures part { OnErr result (BreaksOff (W.may_fail output.old) (W.written output.old)
        (W.written output.new) (octets_line number octets.now close)) }
    ensures fails { W.may_fail output.new → W.may_fail output.old }
{
    put_number(number, " ", output)?;
    put_octets(octets, output)?;
    put_text(line_end(close), output)?;
    Ok(())
}

/// Writes the line of a reply.
fn put_reply<W: Sink>(reply: &Reply, output: &mut W) -> io::Result<()>
    ensures written { OnOk result
        (Appends (W.written output.old) (W.written output.new) (printed_line reply.now)) }
    ensures part { OnErr result (BreaksOff (W.may_fail output.old) (W.written output.old)
        (W.written output.new) (printed_line reply.now)) }
    ensures fails { W.may_fail output.new → W.may_fail output.old }
{
    match reply {
        Reply::Octets {
            conn,
            octets,
            close,
        } => put_sent(*conn, octets.as_slice(), *close, output),
        Reply::Done => put_text("done\n", output),
        Reply::Refused(number) => put_numbered("refused ", u64::from(*number), output),
        Reply::Ignored => put_text("ignored\n", output),
    }
}

/// The line of a reply.
pub fn printed_line(alloc: Global, reply: &Reply) -> Result<Vec<u8>, AllocError>
    ensures { IfOk result (λ line. line.items ≡ printed_line reply.now) }
{
    let mut line = Vec::new(alloc);
    match put_reply(reply, &mut line) {
        Ok(()) => Ok(line),
        Err(_) => Err(AllocError),
    }
}

/// Writes a line for each reply.
pub fn print_replies<W: Sink>(replies: &[Reply], output: &mut W) -> Result<(), PrintFault>
    ensures written { OnOk result
        (Appends (W.written output.old) (W.written output.new) (reply_lines replies.now)) }
    // Only where the output fails. The first octets of the lines were then written.
    ensures fault { IfErr result (λ fault. fault ≡ PrintFault.Output) }
    ensures part { OnErr result (BreaksOff (W.may_fail output.old) (W.written output.old)
        (W.written output.new) (reply_lines replies.now)) }
    ensures fails { W.may_fail output.new → W.may_fail output.old }
{
    for reply in replies {
        if put_reply(reply, output).is_err() {
            return Err(PrintFault::Output);
        }
    }
    Ok(())
}
