//! Tests of what is left of rows in SQLite where a file stops, in a crate of their own: each
//! function over a store of files is dear to prove.
#![tactic(auto)]

#[cfg(test)]
mod tests;
