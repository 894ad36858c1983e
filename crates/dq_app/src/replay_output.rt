//! The replies to a capture, printed.
ghost use Rattle.std.specs.Prelude.{◌≡◌, ◌≢◌, false, None, Some, IsTrue, IsOk, IfOk, IfErr, OnOk};
ghost use Rattle.std.specs.Io.KnownBytes.{Appends};
ghost use Rattle.dq_core.specs.Histories.{is_well_formed_history};
ghost use Rattle.dq_core.specs.Shared.{replies, world_after};
ghost use Rattle.dq_captures.specs.ReplyLines.{reply_lines};
ghost use Rattle.dq_app.specs.Program.{AreGiven, CutsGiven, Cuts, EndsTask, AsFarAsHonest};

use crate::replay_input::History;
use crate::stop::Stop;
use dq_captures::{Sink, print_replies};
use dq_core::{Fault, Outcome, Reply, run};
use dq_tables::Tables;
use std::alloc::Global;

/// Returns the outcome of a history over the rows that are there.
pub fn outcome_of<T: Tables + Drop>(
    alloc: Global,
    history: History,
    tables: T,
) -> Result<Outcome<T>, Fault>
    requires formed { IsTrue (is_well_formed_history history.events.items) }
    requires unfailed { (T.state tables).failed ≡ false }
    ensures given { IfOk result (λ outcome. (T.state outcome.tables).honest →
        AreGiven history.config (T.state tables).rows history.events.items outcome.replies
        outcome.fault) }
    ensures kept { IfOk result (λ outcome. (T.state outcome.tables).honest →
        outcome.fault ≡ None → (T.state outcome.tables).rows
        ≡ (world_after history.config (T.state tables).rows history.events.items).rows) }
    ensures was_honest { IfOk result (λ outcome.
        (T.state outcome.tables).honest → (T.state tables).honest) }
    ensures fault { IfOk result (λ outcome. outcome.fault ≢ Some Fault.Stopped) }
    ensures outcome { IsOk result }
{
    let History { config, events } = history;
    let outcome = run(alloc, config, tables, events)?;
    Ok(outcome)
}

/// Prints replies, hands them on, and stops where a fault came.
fn print_all<W: Sink>(replies: &[Reply], fault: Option<Fault>, output: &mut W) -> Result<(), Stop>
    requires { fault ≢ Some Fault.Stopped }
    ensures done { OnOk result
        (Appends (W.written output.old) (W.written output.new) (reply_lines replies.now)) }
    ensures flushed { OnOk result (W.is_flushed output.new) }
    ensures unfaulted { OnOk result (fault ≡ None) }
    ensures ends { IfErr result (EndsTask (W.may_fail output.old)) }
    // All replies are printed before a fault is told.
    ensures cut { IfErr result (CutsGiven (W.written output.old) (W.written output.new)
        replies.now fault) }
{
    if print_replies(replies, output).is_err() {
        return Err(Stop::Output);
    }
    if output.finish().is_err() {
        return Err(Stop::Output);
    }
    match fault {
        None => Ok(()),
        Some(fault) => Err(Stop::from(fault)),
    }
}

/// Answers the events of a capture, over the rows that are there, prints the replies, and gives back
/// what keeps the rows.
pub fn answer<T: Tables + Drop, W: Sink>(
    alloc: Global,
    history: History,
    tables: T,
    output: &mut W,
) -> Result<T, Stop>
    requires formed { IsTrue (is_well_formed_history history.events.items) }
    requires unfailed { (T.state tables).failed ≡ false }
    ensures kept { IfOk result (λ kept. (T.state kept).honest → (T.state kept).rows
        ≡ (world_after history.config (T.state tables).rows history.events.items).rows) }
    ensures done { IfOk result (λ kept. (T.state kept).honest →
        Appends (W.written output.old) (W.written output.new)
        (reply_lines (replies history.config (T.state tables).rows history.events.items))) }
    ensures was_honest { IfOk result (λ kept. (T.state kept).honest → (T.state tables).honest) }
    ensures flushed { OnOk result (W.is_flushed output.new) }
    ensures ends { IfErr result (EndsTask (W.may_fail output.old)) }
    ensures cut { IfErr result (λ stop. AsFarAsHonest T.state ((T.state tables).honest
        × Cuts (W.written output.old) (W.written output.new) history.config
        (T.state tables).rows history.events.items stop)) }
{
    let outcome = outcome_of(alloc, history, tables)?;
    let Outcome {
        replies,
        fault,
        tables: kept,
    } = outcome;
    print_all(replies.as_slice(), fault, output)?;
    Ok(kept)
}
