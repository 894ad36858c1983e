//! Tests of the server, of connections and of the program, beside `dq_test_calls`, so that those of the
//! crates below need not wait for what they stand on.
#![tactic(auto)]

#[cfg(test)]
mod tests;
