//! How much institutions keep.
ghost use Rattle.std.specs.Prelude.{◌≡◌, List, length, map, IfOk, IfErr, OnOk};
ghost use Rattle.dq_tables.specs.declared.row.Row.{Row};
ghost use Rattle.dq_tables.specs.Lookups.{rows_of};
ghost use Rattle.dq_console.specs.declared.answer_error.AnswerError.{AnswerError};
ghost use Rattle.dq_console.specs.Requests.{counts_of, institution_counts};

use crate::answer_error::AnswerError;
use dq_list::Listed;
use dq_request::{Counted, Counts};
use dq_tables::Kind;
use std::alloc::Global;

/// Every kind of rows, in its order.
pub static KINDS: [Kind; 5] = [
    Kind::Study,
    Kind::Series,
    Kind::Image,
    Kind::Entry,
    Kind::Step,
];

/// A place where rows are counted.
pub trait Counting {
    /// The rows that are there.
    ghost rows: { Self → List Row };

    /// They are what is counted.
    ghost is_honest: { Self → Type 0 };

    /// Counts lead from one to the other.
    ghost leads: { Self → Self → Type 0 };

    /// Counts lead there, and end by this fault.
    ghost fails: { Self → Self → AnswerError → Type 0 };

    /// How many rows of a kind the institution of a name has.
    fn count_rows(&mut self, kind: Kind, name: &[u8]) -> Result<u64, AnswerError>
        ensures found { is_honest self.new → IfOk result (λ count.
            count ≡ length (rows_of kind name.now (rows self.old))) }
        ensures leads { OnOk result (leads self.old self.new) }
        ensures fails { IfErr result (fails self.old self.new) };

    ghost leads_nowhere: { (it : Self) → leads it it };

    ghost leads_on: { (old mid new : Self) → leads old mid → leads mid new → leads old new };

    ghost fails_later: { (old mid new : Self) (error : AnswerError) → leads old mid
        → fails mid new error → fails old new error };

    ghost wants_memory: { (old new : Self) → leads old new → fails old new AnswerError.NoMemory };

    ghost keeps_rows: { (old new : Self) → leads old new → is_honest new
        → is_honest old × (rows new ≡ rows old) };
}

/// How many rows of each kind the institution of a name has.
pub fn counts_of<C: Counting>(rows: &mut C, name: &[u8]) -> Result<Counts, AnswerError>
    ensures counts { C.is_honest rows.new → IfOk result (λ counts.
        counts ≡ counts_of (C.rows rows.old) name.now) }
    ensures leads { OnOk result (C.leads rows.old rows.new) }
    ensures fails { IfErr result (C.fails rows.old rows.new) }
{
    let studies = rows.count_rows(Kind::Study, name)?;
    let series = rows.count_rows(Kind::Series, name)?;
    let images = rows.count_rows(Kind::Image, name)?;
    let entries = rows.count_rows(Kind::Entry, name)?;
    let steps = rows.count_rows(Kind::Step, name)?;
    Ok(Counts {
        studies,
        series,
        images,
        entries,
        steps,
    })
}

/// How much the institution of a name keeps.
pub fn counted<C: Counting>(
    alloc: Global,
    rows: &mut C,
    name: &[u8],
) -> Result<Counted, AnswerError>
    ensures counted { C.is_honest rows.new → IfOk result (λ it.
        it ≡ institution_counts (C.rows rows.old) name.now) }
    ensures leads { OnOk result (C.leads rows.old rows.new) }
    ensures fails { IfErr result (C.fails rows.old rows.new) }
{
    let counts = counts_of(rows, name)?;
    Ok(Counted {
        institution: Listed::copy_of(alloc, name)?,
        counts,
    })
}

/// How much institutions keep, in their order.
pub fn all_counted<C: Counting>(
    alloc: Global,
    rows: &mut C,
    names: &[Listed<u8>],
) -> Result<Listed<Counted>, AnswerError>
    ensures counted { C.is_honest rows.new → IfOk result (λ all.
        all ≡ map (institution_counts (C.rows rows.old)) names.now) }
    ensures leads { OnOk result (C.leads rows.old rows.new) }
    ensures fails { IfErr result (C.fails rows.old rows.new) }
{
    let mut all = Listed::empty(alloc);
    for name in names {
        all.push(counted(alloc, rows, name.as_slice())?)?;
    }
    Ok(all)
}
