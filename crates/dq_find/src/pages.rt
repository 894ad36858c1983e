//! The answers to a query as they are given one after the other (PS3.4 sections C.4.1.3 and
//! K.4.1.3).
ghost use Rattle.std.specs.Prelude.{◌≡◌, [], ◌∷◌, length, MatchOption};
ghost use Rattle.dq_find.specs.Pages.{HasGiven};

use dq_dataset::DataSet;
use dq_match::Found;
use std::marker::Model;

/// The answers to a query that were not given yet, with its final status and whether keys were left
/// out. Contracts see what is left of what was found.
#[derive(Drop)]
pub struct Pages {
    status: u16,
    optional: bool,
    /// The last one first, so that giving one moves none.
    answers: Vec<DataSet>,
}

impl Model for Pages {
    ghost use Rattle.std.specs.Prelude.{reverse};
    ghost use Rattle.std.specs.Coded.{codes};
    ghost use Rattle.dq_match.specs.declared.responses.Found.{Found};
    ghost use Rattle.dq_match.specs.contracts.responses.Found as found;

    ghost Value = { Found };

    ghost coded = { Prim.hlevel (codes, found.the_row.coded) };

    ghost view = { λ pages. record {
      status = pages.status;
      optional = pages.optional;
      answers = reverse pages.answers.items;
    } };
}

impl Pages {
    /// Creates pages of the answers that were found. None is given yet.
    pub fn new(found: Found) -> Pages
        ensures { result ≡ found }
    {
        let mut answers = found.answers.into_inner();
        answers.reverse();
        Pages {
            status: found.status,
            optional: found.optional,
            answers,
        }
    }

    /// The first of the answers that are left; after it the others are.
    pub fn next(&mut self) -> Option<DataSet>
        ensures { MatchOption result ((self.old.answers ≡ []) × (self.new ≡ self.old))
            (λ answer. HasGiven self.old (answer ∷ []) self.new) }
    {
        self.answers.pop()
    }

    /// Returns how many answers are left.
    pub fn left(&self) -> usize
        ensures { result ≡ length self.now.answers }
    {
        self.answers.len()
    }

    /// The final status.
    pub fn status(&self) -> u16
        ensures { result ≡ self.now.status }
    {
        self.status
    }

    /// Whether keys were left out that are not supported.
    pub fn optional(&self) -> bool
        ensures { result ≡ self.now.optional }
    {
        self.optional
    }
}
