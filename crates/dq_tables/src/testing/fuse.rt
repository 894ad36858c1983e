//! The limit on how many changes are made.

/// The number of changes that are still made, and whether one more was asked for.
#[derive(Debug, Clone, Copy, PartialEq, Eq)]
pub struct Fuse {
    pub left: u64,
    pub blown: bool,
}
