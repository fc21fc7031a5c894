//! Which premises of a problem are rewrite rules, and which are kept as formulas.
#![tactic(auto)]

pub mod laws;
mod selection;

pub use selection::{RuleOf, Selection, keep_all};
