//! Keepers of rows.
ghost use Rattle.std.specs.Prelude.{◌≡◌, ◌≤◌, None, List, length, take, drop, IfOk, IfSome};
ghost use Rattle.std.specs.Option.{option_copied};
ghost use Rattle.dq_tables.specs.declared.row.Kind.TheVariants.{Study, Series, Image, Entry, Step};
ghost use Rattle.dq_tables.specs.declared.row.Row.{Row};
ghost use Rattle.dq_tables.specs.Rows.{after, operation_of};
ghost use Rattle.dq_tables.specs.Lookups.{row_at, rows_of, rows_above, rows_after, rows_behind, waiting_entries};
ghost use Rattle.dq_tables.specs.StudyChoices.{studies_in};
ghost use Rattle.dq_tables.specs.Sound.{IsSound, ChangeFits};
ghost use Rattle.dq_tables.specs.TableStates.{State, Reads, Writes};

use crate::change::Change;
use crate::choice::Choice;
use crate::fault::TableFault;
use crate::row::{Kind, Row};
use dq_list::Listed;
use std::alloc::Global;

/// A keeper of the rows of several institutions.
///
/// Each call answers from the rows, or answers a fault and leaves them as they were. Lists are in
/// the order of the keys, octet by octet. What is answered is allocated by the keeper's allocator.
pub trait Tables {
    /// The state that contracts see.
    ghost state: { Self → State };

    /// The allocator that it was made with.
    fn alloc(&self) -> Global;

    /// The institution's row of a kind with the key.
    fn row(&mut self, kind: Kind, institution: &[u8], key: &[u8]) -> Result<Option<Row>, TableFault>
        ensures found { (state self.new).honest → IfOk result
            (λ row. row ≡ row_at kind institution.now key.now (state self.old).rows) }
        ensures reads { Reads (state self.old) (state self.new) result };

    /// The institution's rows of a kind.
    fn rows_of(&mut self, kind: Kind, institution: &[u8]) -> Result<Listed<Row>, TableFault>
        ensures found { (state self.new).honest → IfOk result
            (λ list. list ≡ rows_of kind institution.now (state self.old).rows) }
        ensures reads { Reads (state self.old) (state self.new) result };

    /// The institution's rows of a kind from a place on, at most so many.
    fn rows_from(
        &mut self,
        kind: Kind,
        institution: &[u8],
        from: usize,
        most: usize,
    ) -> Result<Listed<Row>, TableFault>
        ensures found { (state self.new).honest → IfOk result
            (λ list. list ≡ take most (drop from
            (rows_of kind institution.now (state self.old).rows))) }
        ensures reads { Reads (state self.old) (state self.new) result };

    /// The institution's rows of a kind with keys behind a key, at most so many.
    fn rows_after(
        &mut self,
        kind: Kind,
        institution: &[u8],
        key: &[u8],
        most: usize,
    ) -> Result<Listed<Row>, TableFault>
        ensures found { (state self.new).honest → IfOk result
            (λ list. list ≡ take most
            (rows_after kind institution.now key.now (state self.old).rows)) }
        ensures reads { Reads (state self.old) (state self.new) result };

    /// The institution's rows of a kind under the row with the key `above`.
    fn rows_above(
        &mut self,
        kind: Kind,
        institution: &[u8],
        above: &[u8],
    ) -> Result<Listed<Row>, TableFault>
        ensures found { (state self.new).honest → IfOk result
            (λ list. list ≡ rows_above kind institution.now above.now (state self.old).rows) }
        ensures reads { Reads (state self.old) (state self.new) result };

    /// Those of them with keys behind a key, or all without a key, at most so many.
    fn rows_above_after(
        &mut self,
        kind: Kind,
        institution: &[u8],
        above: &[u8],
        after: Option<&[u8]>,
        most: usize,
    ) -> Result<Listed<Row>, TableFault>
        ensures found { (state self.new).honest → IfOk result
            (λ list. list ≡ take most (rows_behind (option_copied after.entry)
            (rows_above kind institution.now above.now (state self.old).rows))) }
        ensures reads { Reads (state self.old) (state self.new) result };

    /// The institution's studies that a choice takes. There may be no answer where the institution has so
    /// many studies or more, so that few are read at once.
    fn few_studies_in(
        &mut self,
        institution: &[u8],
        choice: &Choice,
        many: usize,
    ) -> Result<Option<Listed<Row>>, TableFault>
        ensures found { (state self.new).honest → IfOk result (λ few. IfSome few
            (λ list. list ≡ studies_in choice.now institution.now (state self.old).rows)) }
        ensures many { (state self.new).honest → IfOk result (λ few. few ≡ None
            → many ≤ length (rows_of Study institution.now (state self.old).rows)) }
        ensures reads { Reads (state self.old) (state self.new) result };

    /// The institution's worklist entries that no performed procedure step has started (PS3.4
    /// section K.6.1.2), those with keys behind a key, or all without a key, at most so many.
    fn waiting_after(
        &mut self,
        institution: &[u8],
        after: Option<&[u8]>,
        most: usize,
    ) -> Result<Listed<Row>, TableFault>
        ensures found { (state self.new).honest → IfOk result
            (λ list. list ≡ take most (rows_behind (option_copied after.entry)
            (waiting_entries institution.now (state self.old).rows))) }
        ensures reads { Reads (state self.old) (state self.new) result };

    /// How many rows of a kind the institution has.
    fn count(&mut self, kind: Kind, institution: &[u8]) -> Result<u64, TableFault>
        ensures found { (state self.new).honest → IfOk result
            (λ number. number ≡ length (rows_of kind institution.now (state self.old).rows)) }
        ensures reads { Reads (state self.old) (state self.new) result };

    /// How many rows of a kind the institution has under the row with the key `above`.
    fn count_above(
        &mut self,
        kind: Kind,
        institution: &[u8],
        above: &[u8],
    ) -> Result<u64, TableFault>
        ensures found { (state self.new).honest → IfOk result
            (λ number. number
            ≡ length (rows_above kind institution.now above.now (state self.old).rows)) }
        ensures reads { Reads (state self.old) (state self.new) result };

    /// Whether a call has answered `Store`. It takes no memory.
    fn failed(&self) -> bool
        ensures { result ≡ (state self.now).failed };

    /// Makes one change, whole or not at all.
    fn apply(&mut self, change: &Change) -> Result<(), TableFault>
        requires { (state self.old).honest → ChangeFits (state self.old).rows change.now }
        ensures { Writes (state self.old) (state self.new)
            (after (operation_of change.now) (state self.old).rows) result };

    /// The rows are sound.
    ghost sound: { (it : Self) → (state it).honest → IsSound (state it).rows };

    /// The rows that a crash may leave are sound.
    ghost left_sound: { (it : Self) → (state it).honest
        → (r : List Row) → (state it).may_leave r → IsSound r };

    /// The institution's study with the key.
    final fn study(&mut self, institution: &[u8], key: &[u8]) -> Result<Option<Row>, TableFault>
        ensures found { (state self.new).honest → IfOk result
            (λ row. row ≡ row_at Study institution.now key.now (state self.old).rows) }
        ensures reads { Reads (state self.old) (state self.new) result }
    {
        self.row(Kind::Study, institution, key)
    }

    /// The institution's series with the key.
    final fn series(&mut self, institution: &[u8], key: &[u8]) -> Result<Option<Row>, TableFault>
        ensures found { (state self.new).honest → IfOk result
            (λ row. row ≡ row_at Series institution.now key.now (state self.old).rows) }
        ensures reads { Reads (state self.old) (state self.new) result }
    {
        self.row(Kind::Series, institution, key)
    }

    /// The institution's image with the key.
    final fn image(&mut self, institution: &[u8], key: &[u8]) -> Result<Option<Row>, TableFault>
        ensures found { (state self.new).honest → IfOk result
            (λ row. row ≡ row_at Image institution.now key.now (state self.old).rows) }
        ensures reads { Reads (state self.old) (state self.new) result }
    {
        self.row(Kind::Image, institution, key)
    }

    /// The institution's worklist entry with the key.
    final fn entry(&mut self, institution: &[u8], key: &[u8]) -> Result<Option<Row>, TableFault>
        ensures found { (state self.new).honest → IfOk result
            (λ row. row ≡ row_at Entry institution.now key.now (state self.old).rows) }
        ensures reads { Reads (state self.old) (state self.new) result }
    {
        self.row(Kind::Entry, institution, key)
    }

    /// The institution's performed procedure step with the key.
    final fn step(&mut self, institution: &[u8], key: &[u8]) -> Result<Option<Row>, TableFault>
        ensures found { (state self.new).honest → IfOk result
            (λ row. row ≡ row_at Step institution.now key.now (state self.old).rows) }
        ensures reads { Reads (state self.old) (state self.new) result }
    {
        self.row(Kind::Step, institution, key)
    }

    /// The institution's studies.
    final fn studies(&mut self, institution: &[u8]) -> Result<Listed<Row>, TableFault>
        ensures found { (state self.new).honest → IfOk result
            (λ list. list ≡ rows_of Study institution.now (state self.old).rows) }
        ensures reads { Reads (state self.old) (state self.new) result }
    {
        self.rows_of(Kind::Study, institution)
    }

    /// The institution's worklist entries.
    final fn entries(&mut self, institution: &[u8]) -> Result<Listed<Row>, TableFault>
        ensures found { (state self.new).honest → IfOk result
            (λ list. list ≡ rows_of Entry institution.now (state self.old).rows) }
        ensures reads { Reads (state self.old) (state self.new) result }
    {
        self.rows_of(Kind::Entry, institution)
    }

    /// The institution's performed procedure steps.
    final fn steps(&mut self, institution: &[u8]) -> Result<Listed<Row>, TableFault>
        ensures found { (state self.new).honest → IfOk result
            (λ list. list ≡ rows_of Step institution.now (state self.old).rows) }
        ensures reads { Reads (state self.old) (state self.new) result }
    {
        self.rows_of(Kind::Step, institution)
    }

    /// The series of the institution's study with the key `above`.
    final fn series_of(
        &mut self,
        institution: &[u8],
        above: &[u8],
    ) -> Result<Listed<Row>, TableFault>
        ensures found { (state self.new).honest → IfOk result
            (λ list. list ≡ rows_above Series institution.now above.now (state self.old).rows) }
        ensures reads { Reads (state self.old) (state self.new) result }
    {
        self.rows_above(Kind::Series, institution, above)
    }

    /// The images of the institution's series with the key `above`.
    final fn images_of(
        &mut self,
        institution: &[u8],
        above: &[u8],
    ) -> Result<Listed<Row>, TableFault>
        ensures found { (state self.new).honest → IfOk result
            (λ list. list ≡ rows_above Image institution.now above.now (state self.old).rows) }
        ensures reads { Reads (state self.old) (state self.new) result }
    {
        self.rows_above(Kind::Image, institution, above)
    }
}
