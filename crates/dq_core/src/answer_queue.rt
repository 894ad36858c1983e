//! The answers to a query that were not sent yet.
ghost use Rattle.std.specs.Prelude.{◌≡◌, ◌∷◌, [], length, IfOk, OnOk, MatchOption};
ghost use Rattle.dq_dataset.specs.Canonical.{canonical};
ghost use Rattle.dq_dataset.specs.Tree.{ElementList};
ghost use Rattle.dq_find.specs.Pages.{HasGiven};

use dq_dataset::{DataSet, PackedDataSet, Syntax, can_be_written, write};
use dq_find::Pages;
use dq_match::Found;
use std::alloc::{AllocError, Global};
use std::marker::Model;

/// The answers to a query that are left: as they were found, or held as octets, in a quarter of the
/// memory. Contracts see what is left of what was found.
#[derive(Drop)]
pub(crate) struct AnswerQueue {
    pages: Pages,
    /// The last one first, so that taking one moves none.
    packed: Vec<PackedDataSet>,
}

impl Model for AnswerQueue {
    ghost use Rattle.std.specs.Prelude.{◌≡◌, ◌⊎◌, [], ◌++◌, reverse};
    ghost use Rattle.std.specs.Coded.{codes};
    ghost use Rattle.dq_match.specs.declared.responses.Found.{Found};
    ghost use Rattle.dq_match.specs.contracts.responses.Found as found;

    ghost Value = { Found };

    ghost coded = { Prim.hlevel (codes, found.the_row.coded) };

    ghost view = { λ queue. record {
      status = queue.pages.status;
      optional = queue.pages.optional;
      answers = queue.pages.answers ++ reverse queue.packed.items;
    } };

    // All are as they were found, or all are octets.
    ghost invariant = { λ queue. (queue.pages.answers ≡ []) ⊎ (queue.packed.items ≡ []) };
}

/// The octets of an answer. Those of one with a length that can't be written want memory.
pub(crate) fn answer_octets(
    alloc: Global,
    answer: &DataSet,
    syntax: Syntax,
) -> Result<Vec<u8>, AllocError>
    ensures { IfOk result (λ octets. octets.items ≡ canonical syntax answer.now) }
{
    if !can_be_written(answer, syntax) {
        return Err(AllocError);
    }
    write(alloc, answer, syntax)
}

/// The octets of an answer that is held as those of Explicit.
fn packed_octets(
    alloc: Global,
    answer: PackedDataSet,
    syntax: Syntax,
) -> Result<Vec<u8>, AllocError>
    ensures { IfOk result (λ octets. octets.items ≡ canonical syntax answer) }
{
    match syntax {
        Syntax::Explicit => Ok(answer.into_octets().into_inner()),
        Syntax::Implicit => answer_octets(alloc, &answer.data_set(alloc)?, syntax),
    }
}

impl AnswerQueue {
    /// Returns a queue of what was found, of which nothing is sent yet.
    pub(crate) fn new(alloc: Global, found: Found) -> AnswerQueue
        ensures { result ≡ found }
    {
        AnswerQueue {
            pages: Pages::new(found),
            packed: Vec::new(alloc),
        }
    }

    /// Holds all answers that are left as octets.
    pub(crate) fn pack(&mut self, alloc: Global) -> Result<(), AllocError>
        ensures { OnOk result (self.new ≡ self.old) }
    {
        if !self.packed.is_empty() {
            return Ok(());
        }
        let mut packed = Vec::with_capacity(alloc, self.pages.left())?;
        while let Some(answer) = self.pages.next() {
            packed.push(PackedDataSet::new(alloc, &answer)?)?;
        }
        packed.reverse();
        self.packed = packed;
        Ok(())
    }

    /// The octets of the first of the answers that are left; after it the others are.
    pub(crate) fn next_octets(
        &mut self,
        alloc: Global,
        syntax: Syntax,
    ) -> Result<Option<Vec<u8>>, AllocError>
        ensures { IfOk result (λ octets. MatchOption octets
            ((self.old.answers ≡ []) × (self.new ≡ self.old))
            (λ octets. (answer : ElementList) × HasGiven self.old (answer ∷ []) self.new
            × (octets.items ≡ canonical syntax answer))) }
    {
        if let Some(answer) = self.pages.next() {
            return Ok(Some(answer_octets(alloc, &answer, syntax)?));
        }
        match self.packed.pop() {
            Some(answer) => Ok(Some(packed_octets(alloc, answer, syntax)?)),
            None => Ok(None),
        }
    }

    /// How many answers are left.
    pub(crate) fn left(&self) -> usize
        ensures { result ≡ length self.now.answers }
    {
        if self.packed.is_empty() {
            self.pages.left()
        } else {
            self.packed.len()
        }
    }

    /// The final status.
    pub(crate) fn status(&self) -> u16
        ensures { result ≡ self.now.status }
    {
        self.pages.status()
    }

    /// Whether keys were left out that are not supported.
    pub(crate) fn optional(&self) -> bool
        ensures { result ≡ self.now.optional }
    {
        self.pages.optional()
    }
}
