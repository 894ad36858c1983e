use crate::row::Row;
use dq_list::Listed;

/// One change of the rows. It happens whole or not at all.
#[derive(Drop)]
pub enum Change {
    /// An image, with its study and its series where they are new.
    Stored {
        study: Option<Row>,
        series: Option<Row>,
        image: Row,
    },
    EntryAdded(Row),
    /// The entry of the institution with the key.
    EntryRemoved(Listed<u8>, Listed<u8>),
    /// The step, and the keys of the entries of its institution that it starts.
    StepAdded(Row, Listed<Listed<u8>>),
    /// The row takes the place of that with its key.
    StepChanged(Row),
}
