//! Counts of the rows that are kept after a capture.
ghost use Rattle.std.specs.Prelude.{◌≡◌, ◌≢◌, false, IsTrue, IfOk, IfErr, OnOk};
ghost use Rattle.std.specs.Io.KnownBytes.{Appends};
ghost use Rattle.dq_core.specs.declared.fault.Fault.{Fault};
ghost use Rattle.dq_core.specs.Histories.{is_well_formed_history};
ghost use Rattle.dq_core.specs.Shared.{world_after};
ghost use Rattle.dq_cli.specs.declared.parsed_command.Task.TheVariants.{Report};
ghost use Rattle.dq_console.specs.Requests.{fault_of};
ghost use Rattle.dq_app.specs.Program.{text_of, Breaks, EndsTask, AsFarAsHonest, AreOnlyRead};
ghost use Rattle.dq_captures.specs.Reports.{names_of, report_text};

use crate::replay_input::History;
use crate::replay_output::outcome_of;
use crate::stop::Stop;
use dq_captures::Sink;
use dq_config::Institution;
use dq_console::{AnswerError, Counting, all_counted, counted_text};
use dq_core::{Fault, Outcome};
use dq_list::Listed;
use dq_tables::{Kind, Tables};
use std::alloc::{AllocError, Global};

/// Tables, as what is kept after a history.
#[derive(Drop)]
pub struct Kept<T> {
    pub tables: T,
}

impl<T: Tables> Counting for Kept<T> {
    ghost use Rattle.std.proofs.Common.{refl, ◌∙◌};

    ghost rows = { λ kept. (T.state kept.tables).rows };

    ghost is_honest = { λ kept. (T.state kept.tables).honest };

    ghost leads = { λ old new. AreOnlyRead (T.state old.tables) (T.state new.tables) };

    ghost fails = { λ _ _ error. fault_of error ≢ Fault.Stopped };

    fn count_rows(&mut self, kind: Kind, name: &[u8]) -> Result<u64, AnswerError> {
        match self.tables.count(kind, name) {
            Ok(count) => Ok(count),
            Err(fault) => Err(AnswerError::Server(Fault::from(fault))),
        }
    }

    ghost leads_nowhere = { λ it honest. (honest, refl) };

    ghost leads_on = { λ old mid new one next honest.
        ((one (next honest).0).0, (next honest).1 ∙ (one (next honest).0).1) };

    ghost fails_later = { λ old mid new fault one fails. fails };

    ghost wants_memory = { λ old new one is. Prim.cc };

    ghost keeps_rows = { λ old new one honest. one honest };
}

/// The names of institutions, in their order.
pub fn names_of(alloc: Global, institutions: &[Institution]) -> Result<Vec<Listed<u8>>, AllocError>
    ensures { IfOk result (λ names. names.items ≡ names_of institutions.now) }
{
    let mut names = Vec::new(alloc);
    for institution in institutions {
        names.push(Listed::copy_of(alloc, institution.name.as_slice())?)?;
    }
    Ok(names)
}

/// Returns the tables that are kept after a history, over the rows that are there.
fn kept_after<T: Tables + Drop>(alloc: Global, history: History, tables: T) -> Result<T, Fault>
    requires formed { IsTrue (is_well_formed_history history.events.items) }
    requires unfailed { (T.state tables).failed ≡ false }
    ensures kept { IfOk result (λ kept. (T.state kept).honest → (T.state kept).rows
        ≡ (world_after history.config (T.state tables).rows history.events.items).rows) }
    ensures was_honest { IfOk result (λ kept. (T.state kept).honest → (T.state tables).honest) }
    ensures fault { IfErr result (λ fault. fault ≢ Fault.Stopped) }
{
    let Outcome {
        replies: _,
        fault,
        tables,
    } = outcome_of(alloc, history, tables)?;
    match fault {
        None => Ok(tables),
        Some(fault) => Err(fault),
    }
}

/// The lines of institutions, each with how much it keeps.
fn lines_of<C: Counting>(
    alloc: Global,
    rows: &mut C,
    names: &[Listed<u8>],
) -> Result<Vec<u8>, AnswerError>
    ensures lines { C.is_honest rows.new → IfOk result (λ text. text.items
        ≡ report_text (C.rows rows.old) names.now) }
    ensures leads { OnOk result (C.leads rows.old rows.new) }
    ensures fails { IfErr result (C.fails rows.old rows.new) }
{
    let all = all_counted(alloc, rows, names)?;
    let text = counted_text(alloc, all.as_slice())?;
    Ok(text)
}

/// The text of a report, and what keeps the rows that it counts.
fn report_of<T: Tables + Drop>(
    alloc: Global,
    history: History,
    tables: T,
) -> Result<(Vec<u8>, T), Fault>
    requires formed { IsTrue (is_well_formed_history history.events.items) }
    requires unfailed { (T.state tables).failed ≡ false }
    ensures text { IfOk result (λ it. (T.state it.1).honest → it.0.items
        ≡ text_of Report history.config (T.state tables).rows history.events.items) }
    ensures kept { IfOk result (λ it. (T.state it.1).honest → (T.state it.1).rows
        ≡ (world_after history.config (T.state tables).rows history.events.items).rows) }
    ensures was_honest { IfOk result (λ it. (T.state it.1).honest → (T.state tables).honest) }
    ensures fault { IfErr result (λ fault. fault ≢ Fault.Stopped) }
{
    let names = names_of(alloc, history.config.institutions())?;
    let mut kept = Kept {
        tables: kept_after(alloc, history, tables)?,
    };
    let text = lines_of(alloc, &mut kept, names.as_slice())?;
    let Kept { tables } = kept;
    Ok((text, tables))
}

/// Writes a text and hands it on.
pub fn put_whole<W: Sink>(text: &[u8], output: &mut W) -> Result<(), Stop>
    ensures done { OnOk result (Appends (W.written output.old) (W.written output.new) text.now) }
    ensures flushed { OnOk result (W.is_flushed output.new) }
    ensures ends { IfErr result (λ stop. (stop ≡ Stop.Output) × W.may_fail output.old) }
    ensures cut { IfErr result (Breaks (W.written output.old) (W.written output.new) text.now) }
{
    if output.put(text).is_err() {
        return Err(Stop::Output);
    }
    if output.finish().is_err() {
        return Err(Stop::Output);
    }
    Ok(())
}

/// Counts what is kept after the events of a capture, over the rows that are there, and prints a
/// line for each institution in the order of the configuration. It gives back what keeps the rows.
/// Where a fault comes, no line is printed.
pub fn report<T: Tables + Drop, W: Sink>(
    alloc: Global,
    history: History,
    tables: T,
    output: &mut W,
) -> Result<T, Stop>
    requires formed { IsTrue (is_well_formed_history history.events.items) }
    requires unfailed { (T.state tables).failed ≡ false }
    ensures kept { IfOk result (λ kept. (T.state kept).honest → (T.state kept).rows
        ≡ (world_after history.config (T.state tables).rows history.events.items).rows) }
    ensures done { IfOk result (λ kept. (T.state kept).honest → Appends (W.written output.old)
        (W.written output.new) (text_of Report history.config (T.state tables).rows history.events.items)) }
    ensures was_honest { IfOk result (λ kept. (T.state kept).honest → (T.state tables).honest) }
    ensures flushed { OnOk result (W.is_flushed output.new) }
    ensures ends { IfErr result (EndsTask (W.may_fail output.old)) }
    ensures cut { IfErr result (λ stop. AsFarAsHonest T.state ((T.state tables).honest
        × Breaks (W.written output.old) (W.written output.new)
        (text_of Report history.config (T.state tables).rows history.events.items) stop)) }
{
    let (text, kept) = report_of(alloc, history, tables)?;
    put_whole(text.as_slice(), output)?;
    Ok(kept)
}
