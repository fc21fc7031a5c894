//! From a closed tableau to a derivation of the sequent calculus. The definition stands in `specs/Trees`, and what it
//! promises in `laws`.
#![tactic(auto)]

mod convert;
mod derive;
pub mod laws;
mod lists;
mod rules;
mod uses;
mod walk;

pub use derive::derivation_of;
