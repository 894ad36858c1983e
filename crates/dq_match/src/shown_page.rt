//! A page of answers.
ghost use Rattle.std.specs.Prelude.{◌≡◌, min};
ghost use Rattle.dq_match.specs.ShownPages.{page_most, page_octets, answer_octets, octets_of_answers, is_filled};

use dq_dataset::{DataSet, Syntax, elements_length};

/// The most answers that a page shows.
const PAGE_MOST: usize = 1000;

/// So many octets of answers in Explicit VR Little Endian fill a page.
pub(crate) const PAGE_OCTETS: u32 = 8 * 1024 * 1024;

/// A page: what comes after so many answers, and of that no more than the limit, nor than 1,000, up to
/// the answer with which the page has 8 MiB.
#[derive(Clone, Copy, Debug, PartialEq, Eq)]
pub struct ShownPage {
    pub offset: usize,
    pub limit: usize,
}

/// The octets of an answer, but no more than FFFFFFFFH.
pub(crate) fn octets_of_answer(answer: &DataSet) -> u32
    ensures { result ≡ min (answer_octets answer.now) 0xFFFFFFFF }
{
    elements_length(answer.elements(), Syntax::Explicit)
}

/// The octets of answers, but no more than those that fill a page.
fn octets_of(answers: &[DataSet]) -> u32
    ensures { result ≡ min (octets_of_answers answers.now) page_octets }
{
    let mut octets: u32 = 0;
    for answer in answers {
        octets = octets
            .saturating_add(octets_of_answer(answer))
            .min(PAGE_OCTETS);
    }
    octets
}

impl ShownPage {
    /// The most answers that it shows.
    pub fn most(self) -> usize
        ensures { result ≡ min self.limit page_most }
    {
        self.limit.min(PAGE_MOST)
    }

    /// Whether answers fill it: there may be others behind those that it shows.
    pub fn is_filled_by(self, answers: &[DataSet]) -> bool
        ensures { result ≡ is_filled self answers.now }
    {
        answers.len() >= self.most() || octets_of(answers) >= PAGE_OCTETS
    }
}
