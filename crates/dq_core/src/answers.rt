//! The outcome of a message, and the answers to a query that were not sent.
ghost use Rattle.std.specs.Prelude.{◌≡◌, ◌∷◌, [], length, None, IfOk, OnOk, MatchOption};
ghost use Rattle.dq_dataset.specs.Canonical.{canonical};
ghost use Rattle.dq_dataset.specs.Tree.{ElementList};
ghost use Rattle.dq_core.specs.declared.answers.MessageOutcome.TheVariants as outcome;
ghost use Rattle.dq_core.specs.Queries.{at_hand, status_of, optional_of, Brings, Gives};

use crate::answer_queue::{AnswerQueue, answer_octets};
use dq_archive::Past;
use dq_dataset::{DataSet, Syntax};
use dq_dimse::status::SUCCESS;
use dq_find::LazyAnswers;
use dq_tables::{TableFault, Tables};
use std::alloc::{AllocError, Global};

/// The answers to a query that are left: those that were found as it began, or those that are found
/// as they are asked for.
#[derive(Drop)]
pub(crate) enum Answers {
    Found(AnswerQueue),
    Lazy(LazyAnswers),
}

/// The outcome of a message: a status without answers, or the answers to a C-FIND and its status.
#[derive(Drop)]
pub(crate) enum MessageOutcome {
    Status(u16),
    Answers(Answers),
}

/// What an operation gives: the outcome of its message, and the identifier that a C-FIND read, which
/// tells the log what was asked.
#[derive(Drop)]
pub(crate) struct OperationOutcome {
    pub outcome: MessageOutcome,
    pub identifier: Option<DataSet>,
}

impl OperationOutcome {
    /// A status, of a message of which no identifier was read.
    pub(crate) fn of_status(status: u16) -> Self
        ensures { (result.outcome ≡ outcome.Status status) × (result.identifier ≡ None) }
    {
        OperationOutcome {
            outcome: MessageOutcome::Status(status),
            identifier: None,
        }
    }
}

impl Answers {
    /// Finds answers until so many are at hand, or all; all where there is no number.
    pub(crate) fn find<T: Tables>(
        &mut self,
        archive: &mut Past<'_, T>,
        number: Option<usize>,
    ) -> Result<(), TableFault>
        ensures { Brings T.state archive.old archive.new number self.old self.new result }
    {
        match self {
            Answers::Found(_) => Ok(()),
            Answers::Lazy(lazy) => lazy.find(archive, number),
        }
    }

    /// How many answers are at hand.
    pub(crate) fn at_hand(&self) -> usize
        ensures { result ≡ length (at_hand self.now) }
    {
        match self {
            Answers::Found(queue) => queue.left(),
            Answers::Lazy(lazy) => lazy.found(),
        }
    }

    /// The octets of the first of the answers that are at hand; after it the others are left.
    pub(crate) fn next_octets(
        &mut self,
        alloc: Global,
        syntax: Syntax,
    ) -> Result<Option<Vec<u8>>, AllocError>
        ensures { IfOk result (λ octets. MatchOption octets
            ((at_hand self.old ≡ []) × (self.new ≡ self.old))
            (λ octets. (answer : ElementList) × Gives self.old answer self.new
            × (octets.items ≡ canonical syntax answer))) }
    {
        match self {
            Answers::Found(queue) => queue.next_octets(alloc, syntax),
            Answers::Lazy(lazy) => match lazy.next() {
                Some(answer) => Ok(Some(answer_octets(alloc, &answer, syntax)?)),
                None => Ok(None),
            },
        }
    }

    /// Holds answers that were all found as octets.
    pub(crate) fn pack(&mut self, alloc: Global) -> Result<(), AllocError>
        ensures { OnOk result (self.new ≡ self.old) }
    {
        match self {
            Answers::Found(queue) => queue.pack(alloc),
            Answers::Lazy(_) => Ok(()),
        }
    }

    /// The final status.
    pub(crate) fn status(&self) -> u16
        ensures { result ≡ status_of self.now }
    {
        match self {
            Answers::Found(queue) => queue.status(),
            Answers::Lazy(_) => SUCCESS,
        }
    }

    /// Whether keys were left out that are not supported.
    pub(crate) fn optional(&self) -> bool
        ensures { result ≡ optional_of self.now }
    {
        match self {
            Answers::Found(queue) => queue.optional(),
            Answers::Lazy(lazy) => lazy.optional(),
        }
    }
}
