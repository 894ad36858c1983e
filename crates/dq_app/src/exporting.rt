//! The rows of an institution, exported as DICOM JSON, a line each.
ghost use Rattle.std.specs.Prelude.{◌≡◌, ◌≢◌, map, IfOk, IfErr, OnOk};
ghost use Rattle.std.specs.Io.KnownBytes.{Appends};
ghost use Rattle.dq_tables.specs.declared.row.Row.{Row};
ghost use Rattle.dq_tables.specs.Lookups.{rows_of};
ghost use Rattle.dq_tables.specs.Records.{data_set_of};
ghost use Rattle.dq_tables.specs.Rows.{of};
ghost use Rattle.dq_cli.specs.CommandLine.{exporting_in};
ghost use Rattle.dq_app.specs.Program.{Breaks, EndsTask, AreOnlyRead};
ghost use Rattle.dq_console.specs.ConsoleLines.{json_line, json_lines};
ghost use Rattle.dq_app.specs.Exports.{kind_named, kinds_asked, data_sets_of, exported_data_sets, exported_of, export_text, CutsLines, IsExported, StopsExport};

use crate::stop::Stop;
use crate::stores::Stores;
use dq_captures::Sink;
use dq_cli::{Export, RowKind};
use dq_console::KINDS;
use dq_core::Fault;
use dq_json::json_of;
use dq_list::Listed;
use dq_tables::{Kind, Row, Tables};
use std::alloc::{AllocError, Global};

/// The kind of the rows that a word names.
fn kind_named(kind: RowKind) -> Kind
    ensures { result ≡ kind_named kind }
{
    match kind {
        RowKind::Studies => Kind::Study,
        RowKind::Series => Kind::Series,
        RowKind::Images => Kind::Image,
        RowKind::Worklist => Kind::Entry,
        RowKind::Steps => Kind::Step,
    }
}

/// The line of a row.
fn line_of(alloc: Global, row: &Row) -> Result<Vec<u8>, AllocError>
    ensures { IfOk result (λ line. line.items ≡ json_line (data_set_of row.now.octets)) }
{
    let mut line = json_of(alloc, &row.data_set(alloc)?)?;
    line.push(b'\n')?;
    Ok(line)
}

/// Prints the line of a row.
fn put_row<W: Sink>(alloc: Global, row: &Row, output: &mut W) -> Result<(), Stop>
    ensures done { OnOk result (Appends (W.written output.old) (W.written output.new)
        (json_line (data_set_of row.now.octets))) }
    ensures ends { IfErr result (EndsTask (W.may_fail output.old)) }
    ensures cut { IfErr result (Breaks (W.written output.old) (W.written output.new)
        (json_line (data_set_of row.now.octets))) }
    ensures fails { W.may_fail output.new → W.may_fail output.old }
{
    let line = line_of(alloc, row)?;
    if output.put(line.as_slice()).is_err() {
        return Err(Stop::Output);
    }
    Ok(())
}

/// Prints the lines of rows.
fn put_rows<W: Sink>(alloc: Global, rows: &[Row], output: &mut W) -> Result<(), Stop>
    ensures done { OnOk result (Appends (W.written output.old) (W.written output.new)
        (json_lines (map (λ (row : Row). data_set_of row.octets) rows.now))) }
    ensures ends { IfErr result (EndsTask (W.may_fail output.old)) }
    ensures cut { IfErr result (CutsLines (W.written output.old) (W.written output.new)
        (map (λ (row : Row). data_set_of row.octets) rows.now)) }
    ensures fails { W.may_fail output.new → W.may_fail output.old }
{
    for row in rows {
        put_row(alloc, row, output)?;
    }
    Ok(())
}

/// The institution's rows of a kind.
fn read_kind<T: Tables>(tables: &mut T, name: &[u8], kind: Kind) -> Result<Listed<Row>, Fault>
    ensures found { (T.state tables.new).honest → IfOk result (λ found.
        found ≡ rows_of kind name.now (T.state tables.old).rows) }
    ensures kept { AreOnlyRead (T.state tables.old) (T.state tables.new) }
    ensures fault { IfErr result (λ fault. fault ≢ Fault.Stopped) }
{
    Ok(tables.rows_of(kind, name)?)
}

/// Prints the lines of an institution's rows of a kind.
fn put_kind<T: Tables, W: Sink>(
    alloc: Global,
    tables: &mut T,
    name: &[u8],
    kind: Kind,
    output: &mut W,
) -> Result<(), Stop>
    ensures done { (T.state tables.new).honest → OnOk result (Appends (W.written output.old)
        (W.written output.new)
        (json_lines (data_sets_of (of name.now (T.state tables.old).rows) kind))) }
    ensures kept { AreOnlyRead (T.state tables.old) (T.state tables.new) }
    ensures ends { IfErr result (EndsTask (W.may_fail output.old)) }
    ensures cut { (T.state tables.new).honest → IfErr result (CutsLines (W.written output.old)
        (W.written output.new) (data_sets_of (of name.now (T.state tables.old).rows) kind)) }
    ensures fails { W.may_fail output.new → W.may_fail output.old }
{
    let rows = read_kind(tables, name, kind)?;
    put_rows(alloc, rows.as_slice(), output)
}

/// Prints the lines of an institution's rows of some kinds, one kind after another. The rows of one
/// kind alone are in memory at a time.
fn put_kinds<T: Tables, W: Sink>(
    alloc: Global,
    tables: &mut T,
    name: &[u8],
    kinds: &[Kind],
    output: &mut W,
) -> Result<(), Stop>
    ensures done { (T.state tables.new).honest → OnOk result (Appends (W.written output.old)
        (W.written output.new)
        (json_lines (exported_data_sets (of name.now (T.state tables.old).rows) kinds.now))) }
    ensures kept { AreOnlyRead (T.state tables.old) (T.state tables.new) }
    ensures ends { IfErr result (EndsTask (W.may_fail output.old)) }
    ensures cut { (T.state tables.new).honest → IfErr result (CutsLines (W.written output.old)
        (W.written output.new) (exported_data_sets (of name.now (T.state tables.old).rows) kinds.now)) }
    ensures fails { W.may_fail output.new → W.may_fail output.old }
{
    for kind in kinds {
        put_kind(alloc, tables, name, *kind, output)?;
    }
    Ok(())
}

/// Prints the lines of an institution's rows of the kind that is asked for, or of every kind.
fn put_asked<T: Tables, W: Sink>(
    alloc: Global,
    tables: &mut T,
    export: Export<'_>,
    output: &mut W,
) -> Result<(), Stop>
    ensures done { (T.state tables.new).honest → OnOk result (Appends (W.written output.old)
        (W.written output.new) (json_lines
        (exported_data_sets (of export.entry.only.now (T.state tables.old).rows) (kinds_asked export.entry.kind)))) }
    ensures kept { AreOnlyRead (T.state tables.old) (T.state tables.new) }
    ensures ends { IfErr result (EndsTask (W.may_fail output.old)) }
    ensures cut { (T.state tables.new).honest → IfErr result (CutsLines (W.written output.old)
        (W.written output.new)
        (exported_data_sets (of export.entry.only.now (T.state tables.old).rows) (kinds_asked export.entry.kind))) }
    ensures fails { W.may_fail output.new → W.may_fail output.old }
{
    let name = export.only.as_bytes();
    match export.kind {
        None => put_kinds(alloc, tables, name, &KINDS, output),
        Some(kind) => put_kinds(alloc, tables, name, &[kind_named(kind)], output),
    }
}

/// Prints a line of DICOM JSON for each row of an institution, and hands them on.
fn put_export<T: Tables, W: Sink>(
    alloc: Global,
    tables: &mut T,
    export: Export<'_>,
    output: &mut W,
) -> Result<(), Stop>
    ensures done { (T.state tables.new).honest → OnOk result (Appends (W.written output.old)
        (W.written output.new) (export_text (T.state tables.old).rows (exporting_in export.entry))) }
    ensures flushed { OnOk result (W.is_flushed output.new) }
    ensures kept { AreOnlyRead (T.state tables.old) (T.state tables.new) }
    ensures ends { IfErr result (EndsTask (W.may_fail output.old)) }
    ensures cut { (T.state tables.new).honest → IfErr result (CutsLines (W.written output.old)
        (W.written output.new) (exported_of (T.state tables.old).rows (exporting_in export.entry))) }
{
    put_asked(alloc, tables, export, output)?;
    if output.finish().is_err() {
        return Err(Stop::Output);
    }
    Ok(())
}

/// Exports the rows of an institution in a store, which is only read, and closes that. Neither a
/// configuration nor a capture is read.
pub fn export_rows<Rt: AllocGlobal + Stores, W: Sink>(
    rt: &Rt,
    export: Export<'_>,
    output: &mut W,
) -> Result<(), Stop>
    ensures done { OnOk result (IsExported Rt.File.state (Rt.stored rt.now) (W.written output.old)
        (W.written output.new) (Rt.closed rt.now) (exporting_in export.entry)) }
    ensures flushed { OnOk result (W.is_flushed output.new) }
    ensures stops { IfErr result (StopsExport Rt.File.state (Rt.stored rt.now) (W.written output.old)
        (W.written output.new) (W.may_fail output.old) (exporting_in export.entry)) }
{
    let mut tables = rt.store(rt.alloc(), export.store)?;
    put_export(rt.alloc(), &mut tables, export, output)?;
    rt.close(tables)?;
    Ok(())
}
