//! Leftmost innermost normal forms, within a limit of steps and of depth.
#![tactic(auto)]

mod connective;
mod copies;
mod forms;
mod keeping;
pub mod laws;
mod normalising;
mod terms;

pub use keeping::Normaliser;
pub use normalising::NormalStop;
