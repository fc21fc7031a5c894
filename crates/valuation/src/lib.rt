//! The valuation that a branch gives to the ground atoms of a problem without quantifiers and equality. The definitions stand
//! in `specs/`, and what they promise in `laws`.
#![tactic(auto)]

pub mod laws;
mod truth;
mod valued;

pub use truth::eval;
pub use valued::{Valuation, Valued, valuation_of};
