//! Which rewrite rule fits a term or a formula, and the parts that its binders stand for there.
#![tactic(auto)]

mod finding;
mod index;
pub mod laws;
mod lifting;
mod lowering;
mod matching;
mod occurrence;
mod part;
mod putting;
mod results;

pub use index::{Index, Match};
pub use part::{Part, Parts};
