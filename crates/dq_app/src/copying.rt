//! A store, copied to a new one.
ghost use Rattle.std.specs.Prelude.{◌≡◌, List, length, IfErr, OnOk};
ghost use Rattle.std.specs.Io.KnownBytes.{Appends};
ghost use Rattle.dq_tables.specs.declared.row.Row.{Row};
ghost use Rattle.dq_captures.specs.Surroundings.{BreaksOff};
ghost use Rattle.dq_cli.specs.CommandLine.{duplicating_in};
ghost use Rattle.dq_app.specs.Copies.{copied_line, EndsCopy};

use crate::stop::Stop;
use crate::stores::Stores;
use dq_captures::{Sink, put_numbered};
use dq_cli::Copying;

/// Prints how many rows the new store has.
fn put_count<W: Sink>(count: u64, output: &mut W) -> Result<(), Stop>
    ensures line { OnOk result
        (Appends (W.written output.old) (W.written output.new) (copied_line count)) }
    ensures flushed { OnOk result (W.is_flushed output.new) }
    ensures cut { IfErr result (λ stop. (stop ≡ Stop.Output) × BreaksOff (W.may_fail output.old)
        (W.written output.old) (W.written output.new) (copied_line count)) }
{
    if put_numbered("copied rows ", count, output).is_err() {
        return Err(Stop::Output);
    }
    if output.finish().is_err() {
        return Err(Stop::Output);
    }
    Ok(())
}

/// Makes a new store of the rows of another one, and closes it: of the institutions that are named, or
/// of all. It then prints how many rows they are. Neither a configuration nor a capture is read.
pub fn copy<Rt: AllocGlobal + Stores, W: Sink>(
    rt: &Rt,
    copying: &Copying<'_>,
    output: &mut W,
) -> Result<(), Stop>
    ensures done { OnOk result ((kept : List Row) × Rt.closed rt.now kept
        × Rt.copied rt.now (duplicating_in copying.now).from (duplicating_in copying.now).only kept
        × Appends (W.written output.old) (W.written output.new) (copied_line (length kept))) }
    ensures flushed { OnOk result (W.is_flushed output.new) }
    ensures ends { IfErr result
        (EndsCopy (W.may_fail output.old) (W.written output.old) (W.written output.new)) }
{
    let only = copying.only.as_slice();
    let count = rt.copy(rt.alloc(), copying.from, copying.to, only)??;
    put_count(count, output)
}
