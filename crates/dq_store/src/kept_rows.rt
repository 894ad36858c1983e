//! The rows of an instance, and how many there may be.

use dq_tables::{Kind, Row};

/// The rows that are kept already of a study, a series and an image.
#[derive(Drop)]
pub(crate) struct KeptRows {
    pub(crate) study: Option<Row>,
    pub(crate) series: Option<Row>,
    pub(crate) image: Option<Row>,
}

/// How many rows of a kind there may be, and the row of an instance that is kept already: it needs
/// no more room.
#[derive(Clone, Copy)]
pub(crate) struct Quota<'a> {
    pub(crate) kind: Kind,
    pub(crate) kept: &'a Option<Row>,
    pub(crate) limit: u32,
}
