//! The proof term of a derivation, and the file of a goal.
#![tactic(auto)]

mod arguments;
mod derivation;
mod equal;
mod goal;
mod hypotheses;
mod joined;
pub mod laws;
mod node;
mod numbers;
mod place;
mod quantified;
mod rules;
mod shapes;

pub use goal::goal_of;
