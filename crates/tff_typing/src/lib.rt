//! Types the statements of a problem: declarations, premises and the conjecture.
#![tactic(auto)]

mod declarations;
mod fault;
mod forms;
pub mod laws;
mod problem;
mod scope;
mod state;
mod statements;
mod symbols;
mod terms;
mod trees;
mod typed;
mod types;
mod uses;

pub use fault::{Fault, Found};
pub use typed::{TypeRefusal, TypeStop, type_problem};
