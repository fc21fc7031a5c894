//! Derivations of the sequent calculus as trees, each with what makes it one.
#![tactic(auto)]

mod derivation;
pub mod laws;
mod lines;
mod tree;

pub use derivation::Derivation;
pub use tree::{DTree, DTrees, Forms, RuleName, With};
