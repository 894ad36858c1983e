//! Tests of the public calls of the crates below this one, in a crate of their own: a crate that
//! has tests is proved once more for them.
#![tactic(auto)]

#[cfg(test)]
mod tests;
