//! How a query is refused (PS3.4 sections C.4.1 and K.4.1).
ghost use Rattle.std.specs.Prelude.{◌≡◌};
ghost use Rattle.dq_match.specs.Answers.{refused_with};

use crate::responses::Found;
use dq_list::Listed;
use std::alloc::Global;

impl Found {
    /// The refusal of a query with a status, which has no answers (PS3.4 section C.4.1.1.4).
    pub fn refused(alloc: Global, status: u16) -> Found
        ensures { result ≡ refused_with status }
    {
        Found {
            status,
            optional: false,
            answers: Listed::empty(alloc),
        }
    }
}
