//! Why an order is refused.
ghost use Rattle.std.specs.Prelude.{◌≡◌};

/// An order for the worklist that is refused.
#[derive(Clone, Copy, Debug, PartialEq, Eq)]
pub enum Refusal {
    /// The octets spell no data set in Explicit, or they are too many.
    Malformed = 1,
    /// An attribute that an entry must have is missing.
    Incomplete = 2,
    /// There is an entry with the id.
    Taken = 3,
    /// The entries are at their limit.
    Full = 4,
    /// There is no entry with the id.
    NoSuchEntry = 5,
}

impl Refusal {
    ghost use Rattle.dq_worklist.specs.Orders.{refusal_number};

    /// Returns the number of the refusal, 1 to 5, in the order in which the refusals are declared.
    pub fn number(self) -> u16
        ensures { result ≡ refusal_number self }
    {
        self as u16
    }
}
