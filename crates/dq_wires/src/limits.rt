//! How much there is of what is limited.

/// The greatest number of connections at a time. While there are as many, no other is accepted.
pub const MOST_WIRES: usize = 64;

/// The greatest number of octets in one read.
pub const READ_MOST: usize = 16_384;

/// The greatest number of turns in which a capture is played in one process.
pub const MOST_TURNS: u64 = 1_000_000;
