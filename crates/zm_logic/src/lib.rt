//! Typed, polymorphic first-order logic: types, terms, formulas and problems, and the definitions that every other
//! crate stands on: typing, rewriting, the sequent calculus, truth under a valuation.
#![tactic(auto)]

mod closing;
mod copies;
pub mod laws;
mod measures;
mod opening;
mod problem;
mod results;
mod rule;
mod sameness;
mod text;
mod tree;

pub use closing::close_form;
pub use copies::{copy_rules, copy_symbols};
pub use opening::{open_form, open_type};
pub use problem::{Premise, Premises, Problem, Role, Sense, Symbol, Symbols, TypedProblem};
pub use rule::{Binder, Binders, Rule, Rules, Side};
pub use text::Text;
pub use tree::{Form, SymId, Term, Terms, Ty, Tys};
