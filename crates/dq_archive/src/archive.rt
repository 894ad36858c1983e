//! One institution's part of the rows that tables keep.
ghost use Rattle.std.specs.Prelude.{◌≡◌, is_some, length, map, option_map, take, OnOk};
ghost use Rattle.std.specs.Option.{option_copied};
ghost use Rattle.dq_tables.specs.Rows.{row_of};
ghost use Rattle.dq_tables.specs.Lookups.{record_at, records_of, records_behind, waiting_among};
ghost use Rattle.dq_tables.specs.ServiceEffects.{Serves};
ghost use Rattle.dq_archive.specs.Archives.{IsOver, IsSame, state_in, QueriesOnly};
ghost use Rattle.dq_archive.specs.Decisions.{answer_and_edits, IsOwn, FitsIf};
ghost use Rattle.dq_archive.specs.Additions.{IsTold};

use crate::additions::{Addition, tell_if};
use crate::decision::Decision;
use dq_config::Institution;
use dq_list::Listed;
use dq_tables::laws::honest_rows_are_sound;
use dq_tables::{Kind, Row, TableFault, Tables, make_change};
use std::alloc::Global;

/// One institution's records, among the rows of several that tables keep. They are looked up here,
/// and `carry_out` alone changes them.
#[derive(Drop)]
pub struct Archive<'a, T> {
    pub alloc: Global,
    pub institution: &'a Institution,
    tables: &'a mut T,
}

impl<'a, T: Tables> Archive<'a, T> {
    /// The archive of an institution.
    pub fn new(tables: &'a mut T, institution: &'a Institution) -> Archive<'a, T>
        ensures tables { IsOver tables.entry result }
        ensures institution { result.institution ≡ institution.entry }
    {
        Archive {
            alloc: tables.alloc(),
            institution,
            tables,
        }
    }

    /// Whether a record of a kind has the key.
    pub fn has(&mut self, kind: Kind, key: &[u8]) -> Result<bool, TableFault>
        ensures { QueriesOnly T.state self.old self.new
            (λ records. is_some (record_at kind key.now records)) result }
    {
        let row = self.row(kind, key)?;
        Ok(row.is_some())
    }

    /// Returns the record of a kind with the key, as a row.
    pub fn row(&mut self, kind: Kind, key: &[u8]) -> Result<Option<Row>, TableFault>
        ensures { QueriesOnly T.state self.old self.new (λ records.
            option_map (row_of self.old.institution.now.name) (record_at kind key.now records))
            result }
    {
        let name = self.institution.name.as_slice();
        self.tables.row(kind, name, key)
    }

    /// Counts the institution's records of a kind.
    pub fn count(&mut self, kind: Kind) -> Result<u64, TableFault>
        ensures { QueriesOnly T.state self.old self.new
            (λ records. length (records_of kind records)) result }
    {
        let name = self.institution.name.as_slice();
        self.tables.count(kind, name)
    }

    /// The worklist entries that wait, as rows in the order of their keys: no performed procedure step has
    /// started them (PS3.4 section K.6.1.2). Those with keys behind a key, or all without a key, at most so
    /// many.
    pub fn waiting_after(
        &mut self,
        after: Option<&[u8]>,
        most: usize,
    ) -> Result<Listed<Row>, TableFault>
        ensures { QueriesOnly T.state self.old self.new (λ records.
            map (row_of self.old.institution.now.name)
            (take most (records_behind (option_copied after.entry) (waiting_among records)))) result }
    {
        let name = self.institution.name.as_slice();
        self.tables.waiting_after(name, after, most)
    }

    /// Makes the change of a decision, whole or not at all, and gives the answer. The records of
    /// every other institution stay.
    pub fn carry_out<A: Drop>(&mut self, decision: Decision<A>) -> Result<A, TableFault>
        requires own { IsOwn self.old.institution.now.name decision.change }
        requires fits { (state_in T.state self.old).honest
            → FitsIf (state_in T.state self.old).rows decision.change }
        ensures same { IsSame self.old self.new }
        ensures serves { Serves (state_in T.state self.old) (state_in T.state self.new)
            self.old.institution.now.name (λ _. answer_and_edits decision) result }
    {
        let Decision { answer, change } = decision;
        let Some(change) = change else {
            return Ok(answer);
        };
        make_change(self.tables, change)?;
        Ok(answer)
    }

    /// Makes the change of a decision as `carry_out` does, and tells what it adds to the studies,
    /// the series and the images.
    pub fn carry_out_telling<A: Drop>(
        &mut self,
        decision: Decision<A>,
        added: &mut Listed<Addition>,
    ) -> Result<A, TableFault>
        requires own { IsOwn self.old.institution.now.name decision.change }
        requires fits { (state_in T.state self.old).honest
            → FitsIf (state_in T.state self.old).rows decision.change }
        ensures same { IsSame self.old self.new }
        ensures serves { Serves (state_in T.state self.old) (state_in T.state self.new)
            self.old.institution.now.name (λ _. answer_and_edits decision) result }
        ensures told { (state_in T.state self.new).honest → OnOk result
            (IsTold self.old.institution.now.name (state_in T.state self.old).rows
            (state_in T.state self.new).rows added.old added.new) }
    {
        honest_rows_are_sound::<T>();
        tell_if(self.alloc, &decision.change, added)?;
        self.carry_out(decision)
    }
}
