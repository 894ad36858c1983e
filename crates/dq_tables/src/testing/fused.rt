//! Tables that fail, for tests.
ghost use Rattle.std.specs.Prelude.{◌≡◌, ◌≤◌, ◌||◌, false, true, None, length, take, drop, OnOk, IfOk, IfErr, IfSome, List};
ghost use Rattle.std.specs.Option.{option_copied};
ghost use Rattle.dq_tables.specs.declared.row.Kind.TheVariants.{Study};
ghost use Rattle.dq_tables.specs.declared.fault.TableFault.TheVariants.{Store};
ghost use Rattle.dq_tables.specs.declared.row.Row.{Row};
ghost use Rattle.dq_tables.specs.Rows.{after, operation_of};
ghost use Rattle.dq_tables.specs.Lookups.{row_at, rows_of, rows_above, rows_after, rows_behind, waiting_entries};
ghost use Rattle.dq_tables.specs.StudyChoices.{studies_in};
ghost use Rattle.dq_tables.specs.Sound.{ChangeFits};
ghost use Rattle.dq_tables.specs.TableStates.{Reads, Writes};
ghost use Rattle.dq_tables.specs.Faults.{burnt};

use crate::change::Change;
use crate::choice::Choice;
use crate::fault::TableFault;
use crate::row::{Kind, Row};
use crate::tables::Tables;
use crate::testing::fuse::Fuse;
use dq_list::Listed;
use std::alloc::Global;

/// Tables that make a number of changes, and then answer `Store` to the next and to each call after
/// it.
#[derive(Drop)]
pub struct Fused<T> {
    tables: T,
    fuse: Fuse,
}

impl<T: Tables> Fused<T> {
    /// The tables, for so many changes. It takes no memory.
    pub fn new(tables: T, left: u64) -> Fused<T>
        ensures rows { (⟦<Fused<T> as Tables>⟧.state result).rows ≡ (T.state tables).rows }
        ensures honest { (T.state tables).honest → (⟦<Fused<T> as Tables>⟧.state result).honest }
        ensures was_honest { (⟦<Fused<T> as Tables>⟧.state result).honest
            → (T.state tables).honest }
        ensures failed { (⟦<Fused<T> as Tables>⟧.state result).failed ≡ (T.state tables).failed }
        ensures crash { (r : List Row) → (⟦<Fused<T> as Tables>⟧.state result).may_leave r
            → (T.state tables).may_leave r }
        ensures fuse { result.fuse ≡ record { left = left; blown = false } }
    {
        Fused {
            tables,
            fuse: Fuse { left, blown: false },
        }
    }

    /// Returns how many changes it will still make, and whether it answers `Store` to each call.
    pub fn fuse(&self) -> Fuse
        ensures { result ≡ self.now.fuse }
    {
        let Fused { fuse, .. } = self;
        *fuse
    }

    fn check(&self) -> Result<(), TableFault>
        ensures ok { OnOk result (self.now.fuse.blown ≡ false) }
        ensures err { IfErr result (λ fault. (fault ≡ Store) × (self.now.fuse.blown ≡ true)) }
    {
        if self.fuse.blown {
            return Err(TableFault::Store);
        }
        Ok(())
    }
}

impl<T: Tables> Tables for Fused<T> {
    ghost state = { λ f. record {
      rows = (T.state f.tables).rows;
      honest = (T.state f.tables).honest;
      failed = f.fuse.blown || (T.state f.tables).failed;
      may_leave = (T.state f.tables).may_leave;
    } };

    ghost sound = { λ f h. T.sound f.tables h };

    ghost left_sound = { λ f h r left. T.left_sound f.tables h r left };

    fn alloc(&self) -> Global {
        self.tables.alloc()
    }

    fn row(&mut self, kind: Kind, institution: &[u8], key: &[u8]) -> Result<Option<Row>, TableFault>
        ensures found { (⟦<Fused<T> as Tables>⟧.state self.new).honest → IfOk result
            (λ found. found
            ≡ row_at kind institution.now key.now (⟦<Fused<T> as Tables>⟧.state self.old).rows) }
        ensures reads { Reads (⟦<Fused<T> as Tables>⟧.state self.old)
            (⟦<Fused<T> as Tables>⟧.state self.new) result }
        ensures fuse { self.new.fuse ≡ self.old.fuse }
        ensures blown { self.old.fuse.blown ≡ true → result ≡ Err Store }
    {
        self.check()?;
        self.tables.row(kind, institution, key)
    }

    fn rows_of(&mut self, kind: Kind, institution: &[u8]) -> Result<Listed<Row>, TableFault>
        ensures found { (⟦<Fused<T> as Tables>⟧.state self.new).honest → IfOk result
            (λ found. found
            ≡ rows_of kind institution.now (⟦<Fused<T> as Tables>⟧.state self.old).rows) }
        ensures reads { Reads (⟦<Fused<T> as Tables>⟧.state self.old)
            (⟦<Fused<T> as Tables>⟧.state self.new) result }
        ensures fuse { self.new.fuse ≡ self.old.fuse }
        ensures blown { self.old.fuse.blown ≡ true → result ≡ Err Store }
    {
        self.check()?;
        self.tables.rows_of(kind, institution)
    }

    fn rows_from(
        &mut self,
        kind: Kind,
        institution: &[u8],
        from: usize,
        most: usize,
    ) -> Result<Listed<Row>, TableFault>
        ensures found { (⟦<Fused<T> as Tables>⟧.state self.new).honest → IfOk result
            (λ found. found ≡ take most (drop from
            (rows_of kind institution.now (⟦<Fused<T> as Tables>⟧.state self.old).rows))) }
        ensures reads { Reads (⟦<Fused<T> as Tables>⟧.state self.old)
            (⟦<Fused<T> as Tables>⟧.state self.new) result }
        ensures fuse { self.new.fuse ≡ self.old.fuse }
        ensures blown { self.old.fuse.blown ≡ true → result ≡ Err Store }
    {
        self.check()?;
        self.tables.rows_from(kind, institution, from, most)
    }

    fn rows_after(
        &mut self,
        kind: Kind,
        institution: &[u8],
        key: &[u8],
        most: usize,
    ) -> Result<Listed<Row>, TableFault>
        ensures found { (⟦<Fused<T> as Tables>⟧.state self.new).honest → IfOk result
            (λ found. found ≡ take most (rows_after kind institution.now key.now
            (⟦<Fused<T> as Tables>⟧.state self.old).rows)) }
        ensures reads { Reads (⟦<Fused<T> as Tables>⟧.state self.old)
            (⟦<Fused<T> as Tables>⟧.state self.new) result }
        ensures fuse { self.new.fuse ≡ self.old.fuse }
        ensures blown { self.old.fuse.blown ≡ true → result ≡ Err Store }
    {
        self.check()?;
        self.tables.rows_after(kind, institution, key, most)
    }

    fn rows_above(
        &mut self,
        kind: Kind,
        institution: &[u8],
        above: &[u8],
    ) -> Result<Listed<Row>, TableFault>
        ensures found { (⟦<Fused<T> as Tables>⟧.state self.new).honest → IfOk result
            (λ found. found
            ≡ rows_above kind institution.now above.now (⟦<Fused<T> as Tables>⟧.state self.old).rows) }
        ensures reads { Reads (⟦<Fused<T> as Tables>⟧.state self.old)
            (⟦<Fused<T> as Tables>⟧.state self.new) result }
        ensures fuse { self.new.fuse ≡ self.old.fuse }
        ensures blown { self.old.fuse.blown ≡ true → result ≡ Err Store }
    {
        self.check()?;
        self.tables.rows_above(kind, institution, above)
    }

    fn rows_above_after(
        &mut self,
        kind: Kind,
        institution: &[u8],
        above: &[u8],
        after: Option<&[u8]>,
        most: usize,
    ) -> Result<Listed<Row>, TableFault>
        ensures found { (⟦<Fused<T> as Tables>⟧.state self.new).honest → IfOk result
            (λ found. found ≡ take most (rows_behind (option_copied after.entry)
            (rows_above kind institution.now above.now (⟦<Fused<T> as Tables>⟧.state self.old).rows))) }
        ensures reads { Reads (⟦<Fused<T> as Tables>⟧.state self.old)
            (⟦<Fused<T> as Tables>⟧.state self.new) result }
        ensures fuse { self.new.fuse ≡ self.old.fuse }
        ensures blown { self.old.fuse.blown ≡ true → result ≡ Err Store }
    {
        self.check()?;
        self.tables
            .rows_above_after(kind, institution, above, after, most)
    }

    fn few_studies_in(
        &mut self,
        institution: &[u8],
        choice: &Choice,
        many: usize,
    ) -> Result<Option<Listed<Row>>, TableFault>
        ensures found { (⟦<Fused<T> as Tables>⟧.state self.new).honest → IfOk result (λ few. IfSome few
            (λ found. found
            ≡ studies_in choice.now institution.now (⟦<Fused<T> as Tables>⟧.state self.old).rows)) }
        ensures many { (⟦<Fused<T> as Tables>⟧.state self.new).honest → IfOk result (λ few. few ≡ None
            → many ≤ length (rows_of Study institution.now (⟦<Fused<T> as Tables>⟧.state self.old).rows)) }
        ensures reads { Reads (⟦<Fused<T> as Tables>⟧.state self.old)
            (⟦<Fused<T> as Tables>⟧.state self.new) result }
        ensures fuse { self.new.fuse ≡ self.old.fuse }
        ensures blown { self.old.fuse.blown ≡ true → result ≡ Err Store }
    {
        self.check()?;
        self.tables.few_studies_in(institution, choice, many)
    }

    fn waiting_after(
        &mut self,
        institution: &[u8],
        after: Option<&[u8]>,
        most: usize,
    ) -> Result<Listed<Row>, TableFault>
        ensures found { (⟦<Fused<T> as Tables>⟧.state self.new).honest → IfOk result
            (λ found. found ≡ take most (rows_behind (option_copied after.entry)
            (waiting_entries institution.now (⟦<Fused<T> as Tables>⟧.state self.old).rows))) }
        ensures reads { Reads (⟦<Fused<T> as Tables>⟧.state self.old)
            (⟦<Fused<T> as Tables>⟧.state self.new) result }
        ensures fuse { self.new.fuse ≡ self.old.fuse }
        ensures blown { self.old.fuse.blown ≡ true → result ≡ Err Store }
    {
        self.check()?;
        self.tables.waiting_after(institution, after, most)
    }

    fn count(&mut self, kind: Kind, institution: &[u8]) -> Result<u64, TableFault>
        ensures found { (⟦<Fused<T> as Tables>⟧.state self.new).honest → IfOk result
            (λ found. found
            ≡ length (rows_of kind institution.now (⟦<Fused<T> as Tables>⟧.state self.old).rows)) }
        ensures reads { Reads (⟦<Fused<T> as Tables>⟧.state self.old)
            (⟦<Fused<T> as Tables>⟧.state self.new) result }
        ensures fuse { self.new.fuse ≡ self.old.fuse }
        ensures blown { self.old.fuse.blown ≡ true → result ≡ Err Store }
    {
        self.check()?;
        self.tables.count(kind, institution)
    }

    fn count_above(
        &mut self,
        kind: Kind,
        institution: &[u8],
        above: &[u8],
    ) -> Result<u64, TableFault>
        ensures found { (⟦<Fused<T> as Tables>⟧.state self.new).honest → IfOk result
            (λ found. found
            ≡ length (rows_above kind institution.now above.now
            (⟦<Fused<T> as Tables>⟧.state self.old).rows)) }
        ensures reads { Reads (⟦<Fused<T> as Tables>⟧.state self.old)
            (⟦<Fused<T> as Tables>⟧.state self.new) result }
        ensures fuse { self.new.fuse ≡ self.old.fuse }
        ensures blown { self.old.fuse.blown ≡ true → result ≡ Err Store }
    {
        self.check()?;
        self.tables.count_above(kind, institution, above)
    }

    fn failed(&self) -> bool {
        self.fuse.blown || self.tables.failed()
    }

    fn apply(&mut self, change: &Change) -> Result<(), TableFault>
        requires { (⟦<Fused<T> as Tables>⟧.state self.old).honest
            → ChangeFits (⟦<Fused<T> as Tables>⟧.state self.old).rows change.now }
        ensures writes { Writes (⟦<Fused<T> as Tables>⟧.state self.old)
            (⟦<Fused<T> as Tables>⟧.state self.new)
            (after (operation_of change.now) (⟦<Fused<T> as Tables>⟧.state self.old).rows) result }
        ensures fuse { self.new.fuse ≡ burnt self.old.fuse }
        ensures blown { self.new.fuse.blown ≡ true → result ≡ Err Store }
    {
        self.check()?;
        if self.fuse.left == 0 {
            self.fuse.blown = true;
            return Err(TableFault::Store);
        }
        self.fuse.left -= 1;
        self.tables.apply(change)
    }
}
