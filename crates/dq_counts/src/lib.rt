//! A keeper of rows that remembers how many there are, over any other keeper.
#![tactic(auto)]

mod counted_tables;
mod counts;

pub use counted_tables::CountedTables;
