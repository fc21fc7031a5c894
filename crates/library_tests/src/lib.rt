//! Tests of the libraries that need code: what no clause says, and what no table of cases asks. The library itself is
//! empty.
#![tactic(auto)]

#[cfg(test)]
mod tests;
