//! Laws of C-STORE. Each function's contract is a law; its body changes nothing.
ghost use Rattle.std.specs.Prelude.{◌≡◌, ◌≢◌, ◌⊎◌, ◌||◌, ℕ, Bool, true, false, List, [], Some, Ok};
ghost use Rattle.std.specs.List.{AllByRecursion};
ghost use Rattle.std.specs.Result.{result_unwrap_or};
ghost use Rattle.dq_list.specs.Octets.{AreOctets};
ghost use Rattle.dq_dataset.specs.declared.header.Syntax.{Syntax};
ghost use Rattle.dq_dataset.specs.declared.data_set.Element.{Element};
ghost use Rattle.dq_dataset.specs.Tree.{ElementList, no_elements};
ghost use Rattle.dq_dataset.specs.DataSetReader.{data_set_read};
ghost use Rattle.dq_dataset.specs.Editing.{is_listed};
ghost use Rattle.dq_dataset.specs.Facts.{IsDataSet};
ghost use Rattle.dq_vr.specs.StudyRoot.{kept_attributes};
ghost use Rattle.dq_dimse.specs.Received.{Message};
ghost use Rattle.dq_dimse.specs.Statuses.{success, elements_discarded};
ghost use Rattle.dq_config.specs.Limits.{Limits};
ghost use Rattle.dq_tables.specs.declared.row.Kind.{Kind};
ghost use Rattle.dq_tables.specs.declared.row.Kind.TheVariants.{Study, Series, Image};
ghost use Rattle.dq_tables.specs.declared.row.Row.{Row};
ghost use Rattle.dq_tables.specs.Rows.{Record, Edit, IsRising, of, by, after, records_after_edits};
ghost use Rattle.dq_tables.specs.Lookups.{record_at};
ghost use Rattle.dq_tables.specs.Records.{data_set_of};
ghost use Rattle.dq_tables.specs.Sound.{IsSound};
ghost use Rattle.dq_vr.specs.StudyRoot.{study_attributes, series_attributes, image_attributes};
ghost use Rattle.dq_store.specs.Levels.{IsReadBack, is_of_its_level, is_kept_in, stands_whole};
ghost use Rattle.dq_store.specs.CStore.{instance_in, keeps_too_much, store_outcome};

use dq_dataset::laws::{editing_law, spelling_law, written_law};

/// Kept records stay as they are, whatever is stored: the first instance that is stored makes the
/// records of its study and its series, and a repeated one changes nothing.
#[tactic(auto, using(crate::proofs::OtherRows::kept_stays))]
pub fn kept_records_stay()
    ensures { (limits : Limits) (records : List Record) (message : Message) (syntax : Syntax)
        → (kind : Kind) (key : List ℕ) (r : Record) → record_at kind key records ≡ Some r
        → record_at kind key (records_after_edits (store_outcome limits records message syntax).1 records) ≡ Some r }
{}

/// A status other than 0000 and B006 refuses, and changes nothing.
#[tactic(auto, using(crate::proofs::Outcomes::refused_changes_nothing))]
pub fn refusals_change_nothing()
    ensures { (limits : Limits) (records : List Record) (message : Message) (syntax : Syntax)
        → ((store_outcome limits records message syntax).1 ≡ [])
        ⊎ (((store_outcome limits records message syntax).0 ≡ success)
        ⊎ ((store_outcome limits records message syntax).0 ≡ elements_discarded)) }
{}

/// One institution's C-STORE leaves the records of every other, and another's records do not
/// affect its status or what is kept.
#[tactic(auto, using(crate::proofs::OtherRows::others_stay, crate::proofs::OtherRows::own_records_decide))]
pub fn institutions_are_apart()
    ensures others { (g h : List ℕ) → h ≢ g
        → (limits : Limits) (rows : List Row) (message : Message) (syntax : Syntax) → IsRising rows
        → of g (after (by h (store_outcome limits (of h rows) message syntax).1) rows) ≡ of g rows }
    ensures own { (g h : List ℕ) → g ≢ h
        → (es : List Edit) (limits : Limits) (rows : List Row) (message : Message) (syntax : Syntax)
        → IsRising rows
        → store_outcome limits (of h (after (by g es) rows)) message syntax
        ≡ store_outcome limits (of h rows) message syntax }
{}

/// Sound rows stay sound, whatever octets are stored.
pub fn sound_rows_stay_sound()
    ensures { (h : List ℕ) (limits : Limits) (rows : List Row) (message : Message) (syntax : Syntax)
        → AreOctets message.octets → IsSound rows
        → IsSound (after (by h (store_outcome limits (of h rows) message syntax).1) rows) }
{
    spelling_law();
    editing_law();
    written_law();
}

/// Rows whose octets spell data sets stay such, whatever octets are stored.
pub fn rows_hold_data_sets()
    ensures { (h : List ℕ) (limits : Limits) (rows : List Row) (message : Message) (syntax : Syntax)
        → AreOctets message.octets
        → AllByRecursion (λ (row : Row). IsDataSet (data_set_of row.octets)) rows
        → AllByRecursion (λ (row : Row). IsDataSet (data_set_of row.octets))
        (after (by h (store_outcome limits (of h rows) message syntax).1) rows) }
{
    spelling_law();
    editing_law();
    written_law();
}

/// The kept attributes of a stored object are those of a study, of a series and of an image.
#[tactic(auto, using(crate::proofs::Levels::kept_are_of_levels))]
pub fn kept_attributes_are_those_of_the_levels()
    ensures { (e : Element) → is_listed kept_attributes e
        ≡ (is_listed study_attributes e
        || (is_listed series_attributes e || is_listed image_attributes e)) }
{}

/// Records that hold attributes of their own level alone stay such, whatever octets are stored.
pub fn records_keep_to_their_levels()
    ensures { (h : List ℕ) (limits : Limits) (rows : List Row) (message : Message) (syntax : Syntax)
        → AreOctets message.octets → AllByRecursion (λ (row : Row). is_of_its_level row ≡ true) rows
        → AllByRecursion (λ (row : Row). is_of_its_level row ≡ true)
        (after (by h (store_outcome limits (of h rows) message syntax).1) rows) }
{
    spelling_law();
    editing_law();
    written_law();
}

/// The data sets of the records that an instance makes are read back from their octets.
fn made_data_sets_are_read_back()
    ensures { (octets : List ℕ) (syntax : Syntax) → AreOctets octets → (d : ElementList)
        → data_set_read syntax octets ≡ Ok d → keeps_too_much d ≡ false
        → IsReadBack study_attributes d × IsReadBack series_attributes d × IsReadBack image_attributes d }
{
    spelling_law();
    editing_law();
    written_law();
}

/// Over sound rows, an instance is answered 0000 exactly if each element that was sent is one of
/// those that are kept of a stored object and is afterwards, with equal octets, in the record of its
/// study, of its series or of its image, and B006 if one is not (PS3.4 section B.2.3). If each record
/// has only attributes of its own level, whatever is there is one of those that are kept.
pub fn the_status_says_what_stands()
    ensures kept { (h : List ℕ) (limits : Limits) (rows : List Row) (message : Message)
        (syntax : Syntax) → AreOctets message.octets → IsSound rows
        → (store_outcome limits (of h rows) message syntax).0 ≡ success
        → is_kept_in (of h (after (by h (store_outcome limits (of h rows) message syntax).1) rows))
        (instance_in (result_unwrap_or (data_set_read syntax message.octets) no_elements)) ≡ true }
    ensures cut { (h : List ℕ) (limits : Limits) (rows : List Row) (message : Message)
        (syntax : Syntax) → AreOctets message.octets → IsSound rows
        → (store_outcome limits (of h rows) message syntax).0 ≡ elements_discarded
        → is_kept_in (of h (after (by h (store_outcome limits (of h rows) message syntax).1) rows))
        (instance_in (result_unwrap_or (data_set_read syntax message.octets) no_elements)) ≡ false }
    ensures whole { (h : List ℕ) (limits : Limits) (rows : List Row) (message : Message)
        (syntax : Syntax) → AreOctets message.octets → IsSound rows
        → AllByRecursion (λ (row : Row). is_of_its_level row ≡ true) rows
        → (store_outcome limits (of h rows) message syntax).0 ≡ success
        → stands_whole (of h (after (by h (store_outcome limits (of h rows) message syntax).1) rows))
        (instance_in (result_unwrap_or (data_set_read syntax message.octets) no_elements)) ≡ true }
    ensures discarded { (h : List ℕ) (limits : Limits) (rows : List Row) (message : Message)
        (syntax : Syntax) → AreOctets message.octets → IsSound rows
        → AllByRecursion (λ (row : Row). is_of_its_level row ≡ true) rows
        → (store_outcome limits (of h rows) message syntax).0 ≡ elements_discarded
        → stands_whole (of h (after (by h (store_outcome limits (of h rows) message syntax).1) rows))
        (instance_in (result_unwrap_or (data_set_read syntax message.octets) no_elements)) ≡ false }
{
    made_data_sets_are_read_back();
}

/// A property of each row, and of any study, series and image, holds of each row afterwards: a
/// C-STORE leaves the rows of entries and steps.
pub fn rows_of_other_kinds_stay()
    ensures { (holds : Row → Bool)
        → ((row : Row) → (row.kind ≡ Study) ⊎ ((row.kind ≡ Series) ⊎ (row.kind ≡ Image))
        → holds row ≡ true)
        → (h : List ℕ) (limits : Limits) (rows : List Row) (message : Message) (syntax : Syntax)
        → AllByRecursion (λ (row : Row). holds row ≡ true) rows
        → AllByRecursion (λ (row : Row). holds row ≡ true)
        (after (by h (store_outcome limits (of h rows) message syntax).1) rows) }
{}
