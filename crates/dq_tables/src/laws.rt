//! Laws of rows and of their changes. Each function's contract is a law; its body changes nothing.

ghost use Rattle.std.specs.Prelude.{◌≡◌, ◌≢◌, ◌≤◌, ◌≤ℤ◌, ℕ, ℤ, pos, List, ◌∷◌, map, length, option_map, false, true, Some, None, IsPermutation};
ghost use Rattle.dq_list.specs.Among.{IsAmong};
ghost use Rattle.dq_value.specs.Day.{date_in, day};
ghost use Rattle.dq_tables.specs.declared.choice.Choice.{Choice};
ghost use Rattle.dq_tables.specs.declared.row.Kind.{Kind};
ghost use Rattle.dq_tables.specs.declared.row.Kind.TheVariants.{Entry};
ghost use Rattle.dq_tables.specs.declared.row.Row.{Row};
ghost use Rattle.dq_tables.specs.declared.change.Change.{Change};
ghost use Rattle.dq_tables.specs.Rows.{Edit, Put, Remove, Start, record_of, row_place_of, place, rows_elsewhere, after_edit, records_after_edits, edited_all, of, IsRising, Operation, by, after, after_all, own_edits, operation_of, row_of};
ghost use Rattle.dq_tables.specs.Lookups.{row_at, rows_of, rows_above, rows_after, waiting_entries, record_at, records_of, records_above, records_after, waiting_among};
ghost use Rattle.dq_tables.specs.StudyChoices.{studies_in, studies_among};
ghost use Rattle.dq_tables.specs.Labels.{date_number, day_named, day_of};
ghost use Rattle.dq_tables.specs.Records.{AreInOrder};
ghost use Rattle.dq_tables.specs.Sound.{IsSound, ChangeFits};

use crate::plain::PlainTables;
use crate::tables::Tables;
use dq_value::date_law;

/// The records of an institution after its operations are its records edited, whatever else is
/// kept.
#[tactic(auto, using(crate::proofs::Lens::lens, crate::proofs::Lens::lens_all))]
pub fn own_records_are_edited()
    ensures one { (h : List ℕ) (es : List Edit) (rows : List Row)
        → of h (after (by h es) rows) ≡ records_after_edits es (of h rows) }
    ensures all { (h : List ℕ) (changes : List (List Edit)) (rows : List Row)
        → of h (after_all (map (by h) changes) rows) ≡ edited_all changes (of h rows) }
{}

/// The records of every other institution stay as they were.
#[tactic(auto, using(crate::proofs::Lens::others, crate::proofs::Lens::others_all))]
pub fn other_records_stay()
    ensures one { (g h : List ℕ) → h ≢ g → (es : List Edit) (rows : List Row) → IsRising rows
        → of g (after (by h es) rows) ≡ of g rows }
    ensures all { (g h : List ℕ) → h ≢ g → (changes : List (List Edit)) (rows : List Row)
        → IsRising rows
        → of g (after_all (map (by h) changes) rows) ≡ of g rows }
{}

/// The records of an institution after operations of several are its records after its own.
#[tactic(auto, using(crate::proofs::Lens::own_all))]
pub fn own_operations_alone_count()
    ensures { (h : List ℕ) (os : List Operation) (rows : List Row) → IsRising rows
        → of h (after_all os rows) ≡ edited_all (own_edits h os) (of h rows) }
{}

/// Rows stay in order, each at a place of its own.
#[tactic(auto, using(crate::proofs::Lens::rising, crate::proofs::Lens::rising_all))]
pub fn rows_stay_in_order()
    ensures one { (o : Operation) (rows : List Row) → IsRising rows → IsRising (after o rows) }
    ensures all { (os : List Operation) (rows : List Row) → IsRising rows
        → IsRising (after_all os rows) }
{}

/// Sound rows stay sound by a change that fits them.
#[tactic(auto, using(crate::proofs::Soundness::change_sound))]
pub fn sound_rows_stay_sound()
    ensures { (rows : List Row) (change : Change) → IsSound rows → ChangeFits rows change
        → IsSound (after (operation_of change) rows) }
{}

/// A lookup among the rows by an institution's name finds what a lookup among its records does.
#[tactic(auto, using(crate::proofs::OwnRows::found_own, crate::proofs::OwnRows::listed_own, crate::proofs::OwnRows::above_own, crate::proofs::OwnRows::after_own, crate::proofs::OwnRows::chosen_own, crate::proofs::OwnRows::waiting_own, crate::proofs::OwnRows::counted_own))]
pub fn rows_are_found_among_records()
    ensures found { (kind : Kind) (h key : List ℕ) (rows : List Row)
        → row_at kind h key rows ≡ option_map (row_of h) (record_at kind key (of h rows)) }
    ensures listed { (kind : Kind) (h : List ℕ) (rows : List Row)
        → rows_of kind h rows ≡ map (row_of h) (records_of kind (of h rows)) }
    ensures above { (kind : Kind) (h above : List ℕ) (rows : List Row)
        → rows_above kind h above rows ≡ map (row_of h) (records_above kind above (of h rows)) }
    ensures after { (kind : Kind) (h key : List ℕ) (rows : List Row)
        → rows_after kind h key rows ≡ map (row_of h) (records_after kind key (of h rows)) }
    ensures chosen { (choice : Choice) (h : List ℕ) (rows : List Row)
        → studies_in choice h rows ≡ map (row_of h) (studies_among choice (of h rows)) }
    ensures waiting { (h : List ℕ) (rows : List Row)
        → waiting_entries h rows ≡ map (row_of h) (waiting_among (of h rows)) }
    ensures counted { (kind : Kind) (h : List ℕ) (rows : List Row)
        → length (rows_of kind h rows) ≡ length (records_of kind (of h rows)) }
{}

/// The records of a kind, and those of them under another record, are in the order of their keys.
#[tactic(auto, using(crate::proofs::RecordLists::listed_in_order, crate::proofs::RecordLists::above_in_order))]
pub fn records_are_in_order()
    ensures listed { (kind : Kind) (institution : List ℕ) (rows : List Row) → IsRising rows
        → AreInOrder (records_of kind (of institution rows)) }
    ensures above { (kind : Kind) (institution above : List ℕ) (rows : List Row) → IsRising rows
        → AreInOrder (records_above kind above (of institution rows)) }
{}

/// An honest keeper of rows keeps sound rows, which are in order, and a crash leaves sound rows.
pub fn honest_rows_are_sound<T: Tables>()
    ensures sound { (it : T) → (T.state it).honest → IsSound (T.state it).rows }
    ensures rising { (it : T) → (T.state it).honest → IsRising (T.state it).rows }
    ensures left { (it : T) → (T.state it).honest
        → (r : List Row) → (T.state it).may_leave r → IsSound r }
{}

/// Rows in memory are always honest, their keeper never fails, and a crash leaves none of them.
pub fn plain_tables_never_fail()
    ensures honest { (it : PlainTables) → (⟦<PlainTables as Tables>⟧.state it).honest }
    ensures failed { (it : PlainTables) → (⟦<PlainTables as Tables>⟧.state it).failed ≡ false }
    ensures crash { (it : PlainTables) (r : List Row)
        → (⟦<PlainTables as Tables>⟧.state it).may_leave r → ⊥ }
{}

/// Two lists of rows in order are one list where they have the same members, and so where one is
/// the other rearranged.
#[tactic(auto, using(crate::proofs::OneOrder::one_list, crate::proofs::OneOrder::one_order))]
pub fn rows_have_one_order()
    ensures members { (xs ys : List Row) → IsRising xs → IsRising ys
        → ((row : Row) → IsAmong row xs → IsAmong row ys)
        → ((row : Row) → IsAmong row ys → IsAmong row xs) → xs ≡ ys }
    ensures rearranged { (xs ys : List Row) → IsRising xs → IsRising ys → IsPermutation xs ys
        → xs ≡ ys }
{}

/// A row that is put is there, and so are the rows elsewhere. Where its place was free, those are
/// all rows.
#[tactic(auto, using(crate::proofs::Members::put_has, crate::proofs::Members::added_has))]
pub fn put_rows_are_there()
    ensures put { (row : Row) (rows : List Row) → IsRising rows
        → IsPermutation (row ∷ rows_elsewhere (row_place_of row) rows)
        (after_edit row.inst (Put (record_of row)) rows) }
    ensures added { (row : Row) (rows : List Row) → IsRising rows
        → row_at row.kind row.inst row.key rows ≡ None
        → IsPermutation (row ∷ rows) (after_edit row.inst (Put (record_of row)) rows) }
{}

/// Where a row is removed the rows elsewhere are left.
#[tactic(auto, using(crate::proofs::Members::removed_has))]
pub fn other_rows_are_left()
    ensures { (kind : Kind) (institution key : List ℕ) (rows : List Row) → IsRising rows
        → after_edit institution (Remove kind key) rows
        ≡ rows_elsewhere (place kind institution key) rows }
{}

/// An entry that is started is there as it was but for that, and so are the rows elsewhere. Where
/// none has the key, the rows stay as they were.
#[tactic(auto, using(crate::proofs::StartedEntries::start_has, crate::proofs::StartedEntries::start_of_none))]
pub fn started_entries_are_there()
    ensures started { (institution key : List ℕ) (row : Row) (rows : List Row) → IsRising rows
        → row_at Entry institution key rows ≡ Some row
        → IsPermutation
        ((record row { started = true }) ∷ rows_elsewhere (place Entry institution key) rows)
        (after_edit institution (Start key) rows) }
    ensures none { (institution key : List ℕ) (rows : List Row) → IsRising rows
        → row_at Entry institution key rows ≡ None
        → after_edit institution (Start key) rows ≡ rows }
{}

/// The number YYYYMMDD of a day is that of its date, and a day that is not after another is no
/// greater number. The day of a study is never negative.
pub fn day_numbers_are_in_order()
    ensures named { (octets : List ℕ)
        → option_map pos (day_named octets) ≡ option_map date_number (date_in octets) }
    ensures ordered { (a b : List ℕ) (x y : ℤ) (m n : ℕ) → day a ≡ Some x → day b ≡ Some y
        → day_named a ≡ Some m → day_named b ≡ Some n → x ≤ℤ y → m ≤ n }
    ensures natural { (row : Row) (z : ℤ) → day_of row ≡ Some z → pos 0 ≤ℤ z }
{
    date_law();
}
