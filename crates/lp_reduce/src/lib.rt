//! Leftmost innermost reduction in the lambda-Pi calculus modulo rewriting, and normal forms with the number of their steps.
#![tactic(auto)]

mod entry;
mod instance;
pub mod laws;
mod normal;
mod number;
mod step;

pub use normal::{ReduceStop, lp_normal, lp_normal_from};
