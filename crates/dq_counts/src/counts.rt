//! How many rows there are, remembered so that a change need not count them again.
ghost use Rattle.std.specs.Prelude.{◌≡◌, List, ◌∷◌, length, IfSome, MatchBool};
ghost use Rattle.dq_tables.specs.declared.row.Row.{Row};
ghost use Rattle.dq_tables.specs.Rows.{IsRising, after, operation_of};
ghost use Rattle.dq_tables.specs.Lookups.{rows_of};
ghost use Rattle.dq_tables.specs.Sound.{ChangeFits};
ghost use Rattle.dq_counts.specs.Counts.{IsRight, AreRight, Differ, with_one_more};

use dq_list::Listed;
use dq_tables::{Change, Kind, Row};
use std::alloc::{AllocError, Global};

/// A row more than before, or a row fewer.
#[derive(Clone, Copy)]
enum Difference {
    OneMore,
    OneFewer,
}

/// How many rows of a kind an institution has. A number that its type cannot hold is not known.
#[derive(Drop)]
struct Count {
    kind: Kind,
    institution: Listed<u8>,
    number: Option<u64>,
}

impl Count {
    fn is_of(&self, kind: Kind, institution: &[u8]) -> bool
        ensures { MatchBool result ((self.now.kind ≡ kind) × (self.now.institution ≡ institution.now))
            (¬ ((self.now.kind ≡ kind) × (self.now.institution ≡ institution.now))) }
    {
        self.kind == kind && self.institution.as_slice() == institution
    }

    /// The institution has a row more or fewer of the kind.
    #[tactic(auto, using(crate::proofs::RightCounts::one_more, crate::proofs::RightCounts::no_more))]
    fn change(&mut self, difference: Difference, kind: Kind, institution: &[u8])
        ensures { (row : Row) (before after : List Row) → row.kind ≡ kind → row.inst ≡ institution.now
            → Differ difference row before after → IsRight before self.old → IsRight after self.new }
    {
        if self.is_of(kind, institution) {
            self.number = match difference {
                Difference::OneMore => self.number.and_then(|number| number.checked_add(1)),
                Difference::OneFewer => self.number.and_then(|number| number.checked_sub(1)),
            };
        }
    }
}

/// How many rows of some kinds some institutions have.
#[derive(Drop)]
pub(crate) struct Counts {
    known: Vec<Count>,
}

impl Counts {
    /// No counts. It takes no memory.
    pub(crate) fn new(alloc: Global) -> Counts
        ensures { (rows : List Row) → AreRight rows result }
    {
        Counts {
            known: Vec::new(alloc),
        }
    }

    /// How many rows of a kind the institution has, where that is known.
    pub(crate) fn get(&self, kind: Kind, institution: &[u8]) -> Option<u64>
        ensures { (rows : List Row) → AreRight rows self.now
            → IfSome result (λ number. number ≡ length (rows_of kind institution.now rows)) }
    {
        self.known
            .iter()
            .find(|count| count.is_of(kind, institution))?
            .number
    }

    /// Remembers how many rows of a kind the institution has.
    pub(crate) fn note(
        &mut self,
        alloc: Global,
        kind: Kind,
        institution: &[u8],
        number: u64,
    ) -> Result<(), AllocError>
        ensures { (rows : List Row) → number ≡ length (rows_of kind institution.now rows)
            → AreRight rows self.old → AreRight rows self.new }
    {
        let name = Listed::copy_of(alloc, institution)?;
        self.known.push(Count {
            kind,
            institution: name,
            number: Some(number),
        })?;
        Ok(())
    }

    /// The institution has a row more or fewer of the kind.
    fn change(&mut self, difference: Difference, kind: Kind, institution: &[u8])
        ensures { (row : Row) (before after : List Row) → row.kind ≡ kind → row.inst ≡ institution.now
            → Differ difference row before after → AreRight before self.old → AreRight after self.new }
    {
        for count in self.known.iter_mut() {
            count.change(difference, kind, institution);
        }
    }

    /// There is this row more.
    fn add(&mut self, row: &Row)
        ensures { (rows : List Row) → AreRight rows self.old → AreRight (row.now ∷ rows) self.new }
    {
        self.change(Difference::OneMore, row.kind, row.inst.as_slice());
    }

    /// There is this row more, if there is one.
    fn add_if(&mut self, row: &Option<Row>)
        ensures { (rows : List Row) → AreRight rows self.old
            → AreRight (with_one_more row.now rows) self.new }
    {
        if let Some(row) = row {
            self.add(row);
        }
    }

    /// A change was made.
    pub(crate) fn follow(&mut self, change: &Change)
        ensures { (rows : List Row) → IsRising rows → ChangeFits rows change.now → AreRight rows self.old
            → AreRight (after (operation_of change.now) rows) self.new }
    {
        match change {
            Change::Stored {
                study,
                series,
                image,
            } => {
                self.add_if(study);
                self.add_if(series);
                self.add(image);
            }
            Change::EntryAdded(row) => self.add(row),
            Change::EntryRemoved(institution, _) => {
                self.change(Difference::OneFewer, Kind::Entry, institution.as_slice());
            }
            Change::StepAdded(row, _) => self.add(row),
            Change::StepChanged(_) => {}
        }
    }
}
