//! Windows on a list, and pages behind a key.
ghost use Rattle.std.specs.Prelude.{◌≡◌, pos, take, drop, option_copied, IfSome, IfOk};
ghost use Rattle.sqlite_value.specs.declared.value.Value.TheVariants.{Int};
ghost use Rattle.sqlite_value.specs.Value.{owned};
ghost use Rattle.dq_sql.specs.RowReads.{key_or_number};

use dq_list::Listed;
use dq_tables::{Row, TableFault};
use sqlite::types::ValueRef;

/// A window on a list: what stands from a place on, at most so many.
#[derive(Clone, Copy)]
pub(crate) struct Window {
    pub(crate) from: usize,
    pub(crate) most: usize,
}

impl Window {
    /// The rows of a list that stand in it.
    pub(crate) fn of(self, rows: Listed<Row>) -> Listed<Row>
        ensures { result ≡ take self.most (drop self.from rows) }
    {
        let mut rows = rows.into_inner();
        let before = self.from.min(rows.len());
        let _ = rows.drain(..before);
        rows.truncate(self.most);
        Listed::from_inner(rows)
    }

    /// How many rows it has at most and how many it passes over, where SQL has such whole numbers.
    pub(crate) fn limit_and_offset(self) -> Option<(ValueRef<'static>, ValueRef<'static>)>
        ensures { IfSome result (λ numbers. (owned numbers.0 ≡ Int (pos self.most))
            × (owned numbers.1 ≡ Int (pos self.from))) }
    {
        match (i64::try_from(self.most), i64::try_from(self.from)) {
            (Ok(most), Ok(from)) => Some((ValueRef::Int(most), ValueRef::Int(from))),
            _ => None,
        }
    }
}

/// So many rows at most, as SQL has the number. More than SQL has numbers for find no memory.
pub(crate) fn limit_of(most: usize) -> Result<ValueRef<'static>, TableFault>
    ensures { IfOk result (λ number. owned number ≡ Int (pos most)) }
{
    match i64::try_from(most) {
        Ok(most) => Ok(ValueRef::Int(most)),
        Err(_) => Err(TableFault::NoMemory),
    }
}

/// What a key is behind: a key, or a number where there is none. In SQL's order a blob is above every
/// number.
pub(crate) fn key_or_number(after: Option<&[u8]>) -> ValueRef<'_>
    ensures { owned result ≡ key_or_number (option_copied after.entry) }
{
    match after {
        Some(key) => ValueRef::Blob(key),
        None => ValueRef::Int(0),
    }
}

/// A page of rows in the order of their keys: those behind a key, or all where there is none, at most
/// so many.
#[derive(Clone, Copy)]
pub(crate) struct KeyPage<'a> {
    pub(crate) after: Option<&'a [u8]>,
    pub(crate) most: usize,
}
