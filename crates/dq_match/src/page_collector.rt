//! Collects a page of answers that come one after the other.
ghost use Rattle.std.specs.Prelude.{◌≡◌, ◌-◌, [], true, None, Some, List, min, not, IfOk};
ghost use Rattle.std.specs.List.{cons_option};
ghost use Rattle.dq_dataset.specs.Tree.{ElementList};
ghost use Rattle.dq_match.specs.Parts.{has_room, with_others};
ghost use Rattle.dq_match.specs.ShownPages.{answer_octets, page_most, page_octets};

use crate::shown_page::{PAGE_OCTETS, ShownPage, octets_of_answer};
use dq_dataset::DataSet;
use dq_list::Listed;
use std::alloc::{AllocError, Global};

/// What a page has still room for: so many answers, as long as they have so many octets to fill.
#[derive(Clone, Copy)]
pub(crate) struct PageRoom {
    answers: usize,
    octets: u32,
}

impl PageRoom {
    fn is_used_up(self) -> bool
        ensures { result ≡ not (has_room self) }
    {
        self.answers == 0 || self.octets == 0
    }

    /// What is left of it with an answer more.
    fn without(self, answer: &DataSet) -> PageRoom
        ensures { result ≡ record {
          answers = self.answers - 1;
          octets = self.octets - answer_octets answer.now;
        } }
    {
        PageRoom {
            answers: self.answers.saturating_sub(1),
            octets: self.octets.saturating_sub(octets_of_answer(answer)),
        }
    }
}

/// All answers to a query, or a page of them.
#[derive(Drop)]
pub struct PageCollector {
    before: usize,
    left: Option<PageRoom>,
    answers: Listed<DataSet>,
}

impl PageCollector {
    /// Takes all answers.
    pub fn of_all(alloc: Global) -> PageCollector
        ensures { result ≡ record { before = 0; left = None; answers = [] } }
    {
        PageCollector {
            before: 0,
            left: None,
            answers: Listed::empty(alloc),
        }
    }

    /// Takes the answers of a page.
    pub fn of_page(alloc: Global, page: ShownPage) -> PageCollector
        ensures { result ≡ record {
          before = page.offset;
          left = Some (record { answers = min page.limit page_most; octets = page_octets });
          answers = [];
        } }
    {
        PageCollector {
            before: page.offset,
            left: Some(PageRoom {
                answers: page.most(),
                octets: PAGE_OCTETS,
            }),
            answers: Listed::empty(alloc),
        }
    }

    /// Whether no answer is taken any more.
    pub fn is_full(&self) -> bool
        ensures { result ≡ true → (others : List ElementList)
            → with_others self.now others ≡ self.now.answers }
    {
        match self.left {
            Some(room) => room.is_used_up(),
            None => false,
        }
    }

    /// Takes the answer that comes next, where there is one and it is of the page.
    pub fn take(&mut self, answer: Option<DataSet>) -> Result<(), AllocError>
        ensures { IfOk result (λ _. (others : List ElementList)
            → with_others self.new others ≡ with_others self.old (cons_option answer others)) }
    {
        let Some(answer) = answer else {
            return Ok(());
        };
        if self.before > 0 {
            self.before -= 1;
            return Ok(());
        }
        match self.left {
            Some(room) if room.is_used_up() => return Ok(()),
            Some(room) => self.left = Some(room.without(&answer)),
            None => {}
        }
        self.answers.push(answer)?;
        Ok(())
    }

    /// The answers of the page, where no other one comes.
    pub fn into_answers(self) -> Listed<DataSet>
        ensures { result ≡ with_others self [] }
    {
        self.answers
    }
}
