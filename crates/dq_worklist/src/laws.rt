//! Laws of the worklist. Each function's contract is a law; its body changes nothing.
ghost use Rattle.std.specs.Prelude.{◌≡◌, ◌≢◌, ℕ, Bool, true, false, List, [], ◌∷◌, Some, None, Ok, codes};
ghost use Rattle.std.specs.List.{AllByRecursion};
ghost use Rattle.dq_list.specs.Octets.{AreOctets};
ghost use Rattle.dq_dataset.specs.declared.header.Syntax.{Syntax};
ghost use Rattle.dq_dataset.specs.declared.header.Syntax.TheVariants.{Explicit};
ghost use Rattle.dq_dataset.specs.Tree.{ElementList};
ghost use Rattle.dq_dataset.specs.DataSetReader.{data_set_read};
ghost use Rattle.dq_dataset.specs.Facts.{IsDataSet};
ghost use Rattle.dq_list.specs.Among.{IsAmong};
ghost use Rattle.dq_dimse.specs.Statuses.{success};
ghost use Rattle.dq_dimse.specs.Received.{Message};
ghost use Rattle.dq_dimse.specs.Receiving.{identifier_in};
ghost use Rattle.dq_config.specs.Limits.{Limits};
ghost use Rattle.dq_match.specs.Matching.{fits};
ghost use Rattle.dq_match.specs.Responses.{shown_data_set};
ghost use Rattle.dq_tables.specs.declared.row.Kind.TheVariants.{Entry};
ghost use Rattle.dq_tables.specs.declared.row.Row.{Row};
ghost use Rattle.dq_tables.specs.Rows.{Record, Edit, IsRising, as_started, rows_named, of, by, after, records_after_edits};
ghost use Rattle.dq_tables.specs.Records.{data_set_of};
ghost use Rattle.dq_tables.specs.Sound.{IsSound};
ghost use Rattle.dq_worklist.specs.Orders.{Order, read_order, has_entry, schedule_outcome, withdrawn};
ghost use Rattle.dq_worklist.specs.Answers.{AreEntryAnswers};
ghost use Rattle.dq_worklist.specs.Examples.{worklist_request, asked_steps, entry, example_answer, found_entries};
ghost use Rattle.dq_worklist.specs.Queries.{worklist_query, answers_of_entries, worklist_outcome, keys_outcome};
ghost use Rattle.dq_worklist.specs.declared.worklist_query.Query.{Query};

use dq_dataset::laws::{spelling_law, written_law};

/// An order that is refused changes no record.
pub fn refused_orders_change_nothing()
    ensures scheduled { (limits : Limits) (records : List Record) (octets : List ℕ)
        (number : ℕ) (edits : List Edit)
        → schedule_outcome limits records octets ≡ (Some number, edits) → edits ≡ [] }
    ensures withdrawn { (records : List Record) (id : List ℕ) (number : ℕ) (edits : List Edit)
        → withdrawn records id ≡ (Some number, edits) → edits ≡ [] }
{}

/// A query is answered with what its keys are shown of the entries that match, each once, in the
/// order of their ids (PS3.4 section K.4.1.2.1).
pub fn answers_are_the_matching_records_in_order()
    ensures answered { (institution : List ℕ) (rows : List Row) (message : Message)
        (syntax : Syntax) (query : Query) → IsRising rows → worklist_query message syntax ≡ Ok query
        → AreEntryAnswers (of institution rows) query.keys
        (worklist_outcome (of institution rows) message syntax).answers }
    ensures succeeded { (institution : List ℕ) (rows : List Row) (message : Message)
        (syntax : Syntax) → IsRising rows
        → (worklist_outcome (of institution rows) message syntax).status ≡ success
        → (query : Query) × (worklist_query message syntax ≡ Ok query)
        × AreEntryAnswers (of institution rows) query.keys
        (worklist_outcome (of institution rows) message syntax).answers }
    ensures alone { (records : List Record) (keys : ElementList)
        (one other : List ElementList) → AreEntryAnswers records keys one
        → AreEntryAnswers records keys other → one ≡ other }
{}

/// Keys that no message brought are answered as the identifier of a message is.
#[tactic(auto, using(crate::proofs::Queries::same_by_keys))]
pub fn keys_are_answered_as_in_a_message()
    ensures { (records : List Record) (message : Message) (syntax : Syntax)
        (identifier : ElementList) → identifier_in message syntax ≡ Ok identifier
        → worklist_outcome records message syntax ≡ keys_outcome records identifier }
{}

/// A query that is refused has no answers (PS3.4 section K.4.1.1.4).
#[tactic(auto, using(crate::proofs::Queries::none_refused))]
pub fn what_is_refused_has_no_answers()
    ensures { (records : List Record) (message : Message) (syntax : Syntax)
        → (worklist_outcome records message syntax).status ≢ success
        → (worklist_outcome records message syntax).answers ≡ [] }
{}

/// Entries of other institutions are not listed.
#[tactic(auto, using(crate::proofs::Afterwards::listed_alike))]
pub fn own_entries_alone_are_listed()
    ensures { (g h : List ℕ) → h ≢ g → (edits : List Edit) (rows : List Row)
        (message : Message) (syntax : Syntax) → IsRising rows
        → worklist_outcome (of g (after (by h edits) rows)) message syntax
        ≡ worklist_outcome (of g rows) message syntax }
{}

/// Rows under other names do not enter what an order is answered nor its edits, and stay as they are.
#[tactic(auto, using(crate::proofs::Afterwards::scheduled_alike, crate::proofs::Afterwards::withdrawn_alike, crate::proofs::Afterwards::others_scheduled, crate::proofs::Afterwards::others_withdrawn))]
pub fn orders_of_institutions_are_apart()
    ensures scheduled { (own : List ℕ) (rows alike : List Row) (limits : Limits) (octets : List ℕ)
        → rows_named own rows ≡ rows_named own alike
        → schedule_outcome limits (of own rows) octets ≡ schedule_outcome limits (of own alike) octets }
    ensures withdrawn { (own : List ℕ) (rows alike : List Row) (id : List ℕ)
        → rows_named own rows ≡ rows_named own alike
        → withdrawn (of own rows) id ≡ withdrawn (of own alike) id }
    ensures others_scheduled { (own other : List ℕ) → own ≢ other → (limits : Limits)
        (rows : List Row) (octets : List ℕ) → IsRising rows
        → of other (after (by own (schedule_outcome limits (of own rows) octets).1) rows)
        ≡ of other rows }
    ensures others_withdrawn { (own other : List ℕ) → own ≢ other → (rows : List Row)
        (id : List ℕ) → IsRising rows
        → of other (after (by own (withdrawn (of own rows) id).1) rows) ≡ of other rows }
{}

/// A scheduled order is an entry, and is among the answers to the keys that it fits.
pub fn what_is_scheduled_is_found()
    ensures there { (limits : Limits) (records : List Record) (octets : List ℕ)
        (edits : List Edit) (order : Order) → schedule_outcome limits records octets ≡ (None, edits)
        → read_order (data_set_read Explicit octets) ≡ Some order
        → has_entry (records_after_edits edits records) order.id ≡ true }
    ensures found { (limits : Limits) (records : List Record) (octets : List ℕ)
        (edits : List Edit) (order : Order) (keys : ElementList)
        → AreOctets octets → schedule_outcome limits records octets ≡ (None, edits)
        → read_order (data_set_read Explicit octets) ≡ Some order → fits keys order.elements ≡ true
        → IsAmong (shown_data_set keys order.elements) (answers_of_entries (records_after_edits edits records) keys) }
{
    spelling_law();
    written_law();
}

/// The id of an entry that was withdrawn is free again.
#[tactic(auto, using(crate::proofs::Afterwards::withdrawn_is_free))]
pub fn a_withdrawn_id_is_free()
    ensures { (records : List Record) (id : List ℕ) (edits : List Edit)
        → withdrawn records id ≡ (None, edits) → has_entry (records_after_edits edits records) id ≡ false }
{}

/// On a worked example: an entry is listed, with what is asked for, by the modality of its step,
/// and is not by another, nor once a performed procedure step has started it.
pub fn an_entry_is_listed_by_its_modality()
    ensures one { worklist_outcome (entry ∷ []) (worklist_request (asked_steps (codes "CT"))) Explicit
        ≡ found_entries (example_answer ∷ []) }
    ensures nothing { worklist_outcome (entry ∷ []) (worklist_request (asked_steps (codes "MR"))) Explicit
        ≡ found_entries [] }
    ensures started { worklist_outcome (as_started entry ∷ []) (worklist_request (asked_steps (codes "CT"))) Explicit
        ≡ found_entries [] }
{}

/// Sound rows stay sound, whatever octets are scheduled, and whatever is withdrawn.
pub fn sound_rows_stay_sound()
    ensures scheduled { (h : List ℕ) (limits : Limits) (rows : List Row) (octets : List ℕ)
        → AreOctets octets → IsSound rows
        → IsSound (after (by h (schedule_outcome limits (of h rows) octets).1) rows) }
    ensures withdrawn { (h : List ℕ) (rows : List Row) (id : List ℕ) → IsSound rows
        → IsSound (after (by h (withdrawn (of h rows) id).1) rows) }
{
    spelling_law();
    written_law();
}

/// Rows whose octets spell data sets stay such, whatever octets are scheduled, and whatever is
/// withdrawn.
pub fn rows_hold_data_sets()
    ensures scheduled { (h : List ℕ) (limits : Limits) (rows : List Row) (octets : List ℕ)
        → AreOctets octets
        → AllByRecursion (λ (row : Row). IsDataSet (data_set_of row.octets)) rows
        → AllByRecursion (λ (row : Row). IsDataSet (data_set_of row.octets))
        (after (by h (schedule_outcome limits (of h rows) octets).1) rows) }
    ensures withdrawn { (h : List ℕ) (rows : List Row) (id : List ℕ)
        → AllByRecursion (λ (row : Row). IsDataSet (data_set_of row.octets)) rows
        → AllByRecursion (λ (row : Row). IsDataSet (data_set_of row.octets))
        (after (by h (withdrawn (of h rows) id).1) rows) }
{
    spelling_law();
    written_law();
}

/// A property of each row, and of any entry, holds of each row afterwards: orders leave the rows
/// of studies, series, images and steps.
pub fn rows_of_other_kinds_stay()
    ensures scheduled { (holds : Row → Bool)
        → ((row : Row) → row.kind ≡ Entry → holds row ≡ true)
        → (h : List ℕ) (limits : Limits) (rows : List Row) (octets : List ℕ)
        → AllByRecursion (λ (row : Row). holds row ≡ true) rows
        → AllByRecursion (λ (row : Row). holds row ≡ true)
        (after (by h (schedule_outcome limits (of h rows) octets).1) rows) }
    ensures withdrawn { (holds : Row → Bool) (h : List ℕ) (rows : List Row) (id : List ℕ)
        → AllByRecursion (λ (row : Row). holds row ≡ true) rows
        → AllByRecursion (λ (row : Row). holds row ≡ true)
        (after (by h (withdrawn (of h rows) id).1) rows) }
{}
