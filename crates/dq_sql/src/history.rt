//! The rows that were kept so far, as clauses speak of them.
ghost use Rattle.std.specs.Prelude.{◌≡◌, List, []};
ghost use base.Fml.{ftrue};
ghost use Rattle.dq_tables.specs.declared.row.Row.{Row};
ghost use Rattle.dq_tables.specs.Rows.{after, operation_of};

use dq_list::Listed;
use dq_tables::{Change, Row};
use std::marker::Model;

/// The rows of a store when it was opened, and each change since. It takes no memory, and its
/// calls do nothing: clauses alone see the rows, also once a fault has shut the store.
#[derive(Drop)]
pub(crate) struct History {
    ghost rows: { List Row },
}

impl Model for History {
    ghost also_owns = { λ _. ftrue };
}

impl History {
    /// That of a store with these rows.
    pub(crate) fn from_rows(_rows: &Listed<Row>) -> History
        ensures { result.rows ≡ _rows.now }
    {
        History {}
    }

    /// That with one more change.
    pub(crate) fn then(&self, _change: &Change) -> History
        ensures { result.rows ≡ after (operation_of _change.now) self.now.rows }
    {
        History {}
    }
}
