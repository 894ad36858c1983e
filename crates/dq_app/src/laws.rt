//! Laws of the parts of the program together.
ghost use Rattle.std.specs.Prelude.{◌≡◌, ◌≢◌, ℕ, List, IfSome};
ghost use Rattle.dq_tables.specs.declared.row.Kind.{Kind};
ghost use Rattle.dq_tables.specs.declared.row.Row.{Row};
ghost use Rattle.dq_tables.specs.Lookups.{records_of};
ghost use Rattle.dq_tables.specs.Records.{AreInOrder};
ghost use Rattle.dq_tables.specs.Rows.{Edit, IsRising, after, by, of};
ghost use Rattle.dq_captures.specs.Captures.{lines_of};
ghost use Rattle.dq_cli.specs.CommandLine.{Exporting};
ghost use Rattle.dq_app.specs.Exports.{export_text};
ghost use Rattle.dq_app.specs.Replays.{IsExactReplay};

use crate::stores::Stores;
use dq_captures::read_capture;
use dq_config::Config;
use dq_core::laws::associations_are_answered_in_full;
use dq_core::{Outcome, run};

/// A replay of a capture over a store that is there, as `replay --store` makes it. Nothing is asked but
/// that the store is honest: on each connection of an institution the replies send its conversation.
/// In it each C-FIND that ends with 0000 has exactly the records that match.
pub fn replays_of_stores_are_exact<Rt: AllocGlobal + Stores>(
    rt: &Rt,
    path: &str,
    config: Config,
    text: &str,
) -> Option<Outcome<Rt::File>>
    ensures { IfSome result (λ outcome. (Rt.File.state outcome.tables).honest →
        IsExactReplay (Rt.stored rt.now path.now) (lines_of text.now) config outcome.replies
        (Rt.File.state outcome.tables).rows) }
{
    associations_are_answered_in_full();
    let Ok(events) = read_capture(rt.alloc(), text) else {
        return None;
    };
    let Ok(tables) = rt.store(rt.alloc(), path) else {
        return None;
    };
    match run(rt.alloc(), config, tables, events) {
        Ok(outcome) => Some(outcome),
        Err(_) => None,
    }
}

/// The output of an export depends only on the institution's own records: changes of another one
/// leave it as it is. Each of these records is exported once, in the order of the keys.
#[tactic(auto, using(crate::proofs::Exported::own_alone, crate::proofs::Exported::others_stay, crate::proofs::Exported::in_order))]
pub fn exports_are_of_own_records()
    ensures own { (exporting : Exporting) (one other : List Row)
        → of exporting.only one ≡ of exporting.only other
        → export_text one exporting ≡ export_text other exporting }
    ensures others { (exporting : Exporting) (name : List ℕ) → name ≢ exporting.only
        → (edits : List Edit) (rows : List Row) → IsRising rows
        → export_text (after (by name edits) rows) exporting ≡ export_text rows exporting }
    ensures ordered { (exporting : Exporting) (kind : Kind) (rows : List Row) → IsRising rows
        → AreInOrder (records_of kind (of exporting.only rows)) }
{}
