//! A store of the version before, made anew.
ghost use Rattle.std.specs.Prelude.{List, IfErr, OnOk};
ghost use Rattle.std.specs.Io.KnownBytes.{Appends};
ghost use Rattle.dq_tables.specs.declared.row.Row.{Row};
ghost use Rattle.dq_app.specs.Program.{migrated_line, EndsMigration};

use crate::reporting::put_whole;
use crate::stop::Stop;
use crate::stores::Stores;
use dq_captures::Sink;
use dq_cli::Migration;

/// The line that is printed once the new store is made.
const MIGRATED: &[u8] = b"migrated\n";

/// Makes a new store of the rows of one of the version before, prints that it is made, and closes it.
/// Neither a configuration nor a capture is read.
pub fn migrate<Rt: AllocGlobal + Stores, W: Sink>(
    rt: &Rt,
    files: Migration<'_>,
    output: &mut W,
) -> Result<(), Stop>
    ensures done { OnOk result
        (Appends (W.written output.old) (W.written output.new) migrated_line) }
    ensures made { OnOk result ((kept : List Row) × Rt.closed rt.now kept
        × Rt.migrated rt.now files.entry.from.now kept) }
    ensures flushed { OnOk result (W.is_flushed output.new) }
    ensures ends { IfErr result
        (EndsMigration (W.may_fail output.old) (W.written output.old) (W.written output.new)) }
{
    let made = rt.migrate(rt.alloc(), files.from, files.to)?;
    put_whole(MIGRATED, output)?;
    rt.close(made)?;
    Ok(())
}
