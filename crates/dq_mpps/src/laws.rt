//! Laws that follow from the definitions. Each function's contract is a law; its body changes
//! nothing.
ghost use Rattle.std.specs.Prelude.{◌≡◌, ◌≢◌, ◌⊎◌, ℕ, Bool, [], List, Some, true, false};
ghost use Rattle.std.specs.List.{AllByRecursion};
ghost use Rattle.std.specs.Option.{option_or};
ghost use Rattle.std.specs.Result.{result_unwrap_or};
ghost use Rattle.dq_list.specs.Octets.{AreOctets};
ghost use Rattle.dq_vr.specs.declared.Tag.{Tag};
ghost use Rattle.dq_dataset.specs.declared.header.Syntax.{Syntax};
ghost use Rattle.dq_dataset.specs.declared.data_set.Element.{Element};
ghost use Rattle.dq_dataset.specs.Tree.{ElementList, no_elements};
ghost use Rattle.dq_dataset.specs.DataSetReader.{data_set_read};
ghost use Rattle.dq_dataset.specs.Facts.{IsDataSet};
ghost use Rattle.dq_dataset.specs.Editing.{merged_data_set};
ghost use Rattle.dq_dataset.specs.Values.{element_at};
ghost use Rattle.dq_dimse.specs.Received.{Message};
ghost use Rattle.dq_dimse.specs.Statuses.{success};
ghost use Rattle.dq_config.specs.Limits.{Limits};
ghost use Rattle.dq_tables.specs.declared.row.Kind.TheVariants.{Entry, Step};
ghost use Rattle.dq_tables.specs.declared.row.Row.{Row};
ghost use Rattle.dq_tables.specs.Rows.{Record, Edit, IsRising, of, by, after, records_after_edits};
ghost use Rattle.dq_tables.specs.Lookups.{record_at};
ghost use Rattle.dq_tables.specs.Records.{data_set_of};
ghost use Rattle.dq_tables.specs.Sound.{IsSound};
ghost use Rattle.dq_mpps.specs.Attributes.{is_fixed};
ghost use Rattle.dq_mpps.specs.NCreate.{create_outcome};
ghost use Rattle.dq_mpps.specs.CreatedStep.{IsCreated};
ghost use Rattle.dq_mpps.specs.ChangedStep.{step_at, IsStepChanged};
ghost use Rattle.dq_mpps.specs.NSet.{kept_data_set, is_ended, is_short_step, changes_fixed, set_outcome};

use dq_dataset::laws::{editing_law, spelling_law, written_law};

/// A request that is not answered by success changes no record.
#[tactic(auto, using(crate::proofs::Refusals::created_unless, crate::proofs::Refusals::changed_unless))]
pub fn refusals_change_nothing()
    ensures created { (limits : Limits) (records : List Record) (message : Message)
        (syntax : Syntax) → (create_outcome limits records message syntax).0 ≢ success
        → (create_outcome limits records message syntax).1 ≡ [] }
    ensures changed { (records : List Record) (message : Message) (syntax : Syntax)
        → (set_outcome records message syntax).0 ≢ success
        → (set_outcome records message syntax).1 ≡ [] }
{}

/// A step that is kept is not created again, and one that is completed or discontinued stays as it
/// is (PS3.4 section F.7.2.2).
#[tactic(auto, using(crate::proofs::Refusals::created_again, crate::proofs::Refusals::ended_stays))]
pub fn kept_steps_stay()
    ensures created { (limits : Limits) (records : List Record) (message : Message)
        (syntax : Syntax) (kept : Record)
        → record_at Step message.command.sop_instance records ≡ Some kept
        → (create_outcome limits records message syntax).1 ≡ [] }
    ensures ended { (records : List Record) (message : Message) (syntax : Syntax) (kept : Record)
        → record_at Step message.command.sop_instance records ≡ Some kept
        → is_ended (kept_data_set (Some kept)) ≡ true
        → (set_outcome records message syntax).1 ≡ [] }
{}

/// After a change that is not refused each element that was sent stands, and any other as it was
/// kept (PS3.7 section 10.1.3).
#[tactic(auto, using(crate::proofs::AttributesAfter::standing_after))]
pub fn what_is_sent_stands()
    ensures { (kept sent : ElementList) → IsDataSet sent → (tag : Tag)
        → element_at tag (merged_data_set kept sent)
        ≡ option_or (element_at tag sent) (element_at tag kept) }
{}

/// A change that is not refused leaves the attributes of the patient and the other fixed ones as
/// they are kept (PS3.4 table F.7.2-1).
#[tactic(auto, using(crate::proofs::AttributesAfter::fixed_stay))]
pub fn fixed_attributes_stay()
    ensures { (kept sent : ElementList) → IsDataSet kept → IsDataSet sent
        → changes_fixed kept sent ≡ false → (e : Element) → is_fixed e ≡ true
        → element_at e.tag (merged_data_set kept sent) ≡ element_at e.tag kept }
{}

/// After a change that is not refused what was sent stands in the step, and all else of it as it was
/// kept. What is fixed stays, and so does each other record (PS3.4 section F.7.2.2). A change that is
/// refused leaves all records.
pub fn changed_steps_hold_what_was_sent()
    ensures changed { (records : List Record) (message : Message) (syntax : Syntax)
        → AreOctets message.octets → IsDataSet (step_at message.command.sop_instance records)
        → (set_outcome records message syntax).0 ≡ success
        → IsStepChanged records (records_after_edits (set_outcome records message syntax).1 records)
        message.command.sop_instance
        (result_unwrap_or (data_set_read syntax message.octets) no_elements) }
    ensures refused { (records : List Record) (message : Message) (syntax : Syntax)
        → (set_outcome records message syntax).0 ≢ success
        → records_after_edits (set_outcome records message syntax).1 records ≡ records }
{
    spelling_law();
    editing_law();
    written_law();
}

/// Other institutions' records do not affect any status or edit.
#[tactic(auto, using(crate::proofs::Others::created_alike, crate::proofs::Others::changed_alike))]
pub fn other_institutions_change_no_status()
    ensures created { (own other : List ℕ) → other ≢ own → (edits : List Edit) (rows : List Row)
        → IsRising rows → (limits : Limits) (message : Message) (syntax : Syntax)
        → create_outcome limits (of own (after (by other edits) rows)) message syntax
        ≡ create_outcome limits (of own rows) message syntax }
    ensures changed { (own other : List ℕ) → other ≢ own → (edits : List Edit) (rows : List Row)
        → IsRising rows → (message : Message) (syntax : Syntax)
        → set_outcome (of own (after (by other edits) rows)) message syntax
        ≡ set_outcome (of own rows) message syntax }
{}

/// A step that is created is kept, and has started the entries that it names: an entry is started
/// afterwards exactly where it was before or is named. Nothing else of the records changes.
pub fn named_entries_are_started()
    ensures { (limits : Limits) (records : List Record) (message : Message) (syntax : Syntax)
        → (create_outcome limits records message syntax).0 ≡ success
        → IsCreated records (records_after_edits (create_outcome limits records message syntax).1 records)
        message.command.sop_instance
        (result_unwrap_or (data_set_read syntax message.octets) no_elements) }
{}

/// Sound rows stay sound, whatever octets a step is created from, and where the rows hold data sets
/// also whatever octets one is changed by.
pub fn sound_rows_stay_sound()
    ensures created { (h : List ℕ) (limits : Limits) (rows : List Row) (message : Message)
        (syntax : Syntax) → AreOctets message.octets → IsSound rows
        → IsSound (after (by h (create_outcome limits (of h rows) message syntax).1) rows) }
    ensures changed { (h : List ℕ) (rows : List Row) (message : Message) (syntax : Syntax)
        → AreOctets message.octets → IsSound rows
        → AllByRecursion (λ (row : Row). IsDataSet (data_set_of row.octets)) rows
        → IsSound (after (by h (set_outcome (of h rows) message syntax).1) rows) }
{
    spelling_law();
    editing_law();
    written_law();
}

/// Rows whose octets spell data sets stay such, whatever octets a step is created from (of rows in
/// order) or changed by.
pub fn rows_hold_data_sets()
    ensures created { (h : List ℕ) (limits : Limits) (rows : List Row) (message : Message)
        (syntax : Syntax) → AreOctets message.octets → IsRising rows
        → AllByRecursion (λ (row : Row). IsDataSet (data_set_of row.octets)) rows
        → AllByRecursion (λ (row : Row). IsDataSet (data_set_of row.octets))
        (after (by h (create_outcome limits (of h rows) message syntax).1) rows) }
    ensures changed { (h : List ℕ) (rows : List Row) (message : Message) (syntax : Syntax)
        → AreOctets message.octets
        → AllByRecursion (λ (row : Row). IsDataSet (data_set_of row.octets)) rows
        → AllByRecursion (λ (row : Row). IsDataSet (data_set_of row.octets))
        (after (by h (set_outcome (of h rows) message syntax).1) rows) }
{
    spelling_law();
    editing_law();
    written_law();
}

/// A property of each row, and of any entry and any step, holds of each row afterwards: steps
/// that are created and changed leave the rows of studies, series and images.
pub fn rows_of_other_kinds_stay()
    ensures created { (holds : Row → Bool)
        → ((row : Row) → (row.kind ≡ Entry) ⊎ (row.kind ≡ Step) → holds row ≡ true)
        → (h : List ℕ) (limits : Limits) (rows : List Row) (message : Message) (syntax : Syntax)
        → IsRising rows → AllByRecursion (λ (row : Row). holds row ≡ true) rows
        → AllByRecursion (λ (row : Row). holds row ≡ true)
        (after (by h (create_outcome limits (of h rows) message syntax).1) rows) }
    ensures changed { (holds : Row → Bool)
        → ((row : Row) → row.kind ≡ Step → holds row ≡ true)
        → (h : List ℕ) (rows : List Row) (message : Message) (syntax : Syntax)
        → AllByRecursion (λ (row : Row). holds row ≡ true) rows
        → AllByRecursion (λ (row : Row). holds row ≡ true)
        (after (by h (set_outcome (of h rows) message syntax).1) rows) }
{}

/// A step that is kept has at most 4,194,304 octets, whatever it is created from and changed by.
pub fn kept_steps_are_short()
    ensures created { (h : List ℕ) (limits : Limits) (rows : List Row) (message : Message)
        (syntax : Syntax) → AreOctets message.octets → IsRising rows
        → AllByRecursion (λ (row : Row). is_short_step row ≡ true) rows
        → AllByRecursion (λ (row : Row). is_short_step row ≡ true)
        (after (by h (create_outcome limits (of h rows) message syntax).1) rows) }
    ensures changed { (h : List ℕ) (rows : List Row) (message : Message) (syntax : Syntax)
        → AllByRecursion (λ (row : Row). is_short_step row ≡ true) rows
        → AllByRecursion (λ (row : Row). is_short_step row ≡ true)
        (after (by h (set_outcome (of h rows) message syntax).1) rows) }
{
    spelling_law();
}
