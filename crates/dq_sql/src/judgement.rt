//! Found rows, each judged as it is read.
ghost use Rattle.std.specs.Prelude.{◌≡◌, [], ◌∷◌, ◌++◌, List, IfSome, OnOk};
ghost use Rattle.sqlite_value.specs.Order.{Row as Values};
ghost use Rattle.dq_tables.specs.Rows.{IsRising};
ghost use Rattle.dq_sql.specs.FoundStores.{IsJudged};

use crate::ids::ids_then;
use crate::row_order::rows_then;
use dq_tables::Row;
use sqlite::Error;
use std::alloc::{AllocError, Global};

/// The rows that were found so far: their rowids while all are whole numbers, and their rows in
/// order while all are good and no two of one place.
#[derive(Drop)]
pub(crate) struct Judgement {
    pub(crate) ids: Option<Vec<i64>>,
    pub(crate) rows: Option<Vec<Row>>,
}

/// An empty vector with room for so many, or without room where there is no memory for it.
fn roomy<T>(alloc: Global, room: usize) -> Vec<T>
    ensures { result.items ≡ [] }
{
    match Vec::with_capacity(alloc, room) {
        Ok(items) => items,
        Err(AllocError) => Vec::new(alloc),
    }
}

impl Judgement {
    /// The judgement of no rows, with room for so many, where there is memory for it.
    pub(crate) fn new(alloc: Global, room: usize) -> Judgement
        ensures { IsJudged [] result }
    {
        Judgement {
            ids: Some(roomy(alloc, room)),
            rows: Some(roomy(alloc, room)),
        }
    }

    /// Judges one more row. One that is bad ends what is kept, and not the reading. It is not kept
    /// itself, so that the octets of a large store are held once.
    pub(crate) fn judge(&mut self, alloc: Global, found: &sqlite::Row) -> Result<(), Error>
        requires { IfSome self.old.rows (λ rows. IsRising rows.items) }
        ensures { OnOk result ((seen : List Values) → IsJudged seen self.old
            → IsJudged (seen ++ found.now ∷ []) self.new) }
    {
        self.ids = ids_then(self.ids.take(), found)?;
        self.rows = rows_then(alloc, self.rows.take(), found)?;
        Ok(())
    }
}
