//! Decisions of services.
ghost use Rattle.std.specs.Prelude.{◌≡◌, None, Some};

use dq_tables::Change;

/// A service's answer, and the change that goes with it, if any. Nothing is changed yet.
#[derive(Drop)]
pub struct Decision<A> {
    pub answer: A,
    pub change: Option<Change>,
}

impl<A> Decision<A> {
    /// An answer that changes nothing.
    pub fn unchanged(answer: A) -> Self
        ensures { result ≡ record { answer = answer; change = None } }
    {
        Decision {
            answer,
            change: None,
        }
    }

    /// An answer, and a change that goes with it.
    pub fn with_change(answer: A, change: Change) -> Self
        ensures { result ≡ record { answer = answer; change = Some change } }
    {
        Decision {
            answer,
            change: Some(change),
        }
    }
}
