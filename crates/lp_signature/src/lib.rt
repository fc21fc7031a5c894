//! The signature of a problem in the lambda-Pi calculus: the prelude of proof files, which has propositions as types with
//! proofs, types as terms with elements, and the rules of the connectives; and the translation of types, terms and formulas.
#![tactic(auto)]

mod contexts;
mod declarations;
mod eliminations;
pub mod laws;
mod names;
mod parts;
mod problem;
mod rewrites;
mod scope;
mod symbols;
mod translation;
pub mod typed_laws;
mod whole;

pub use names::{constant, premise_name};
pub use problem::signature_of;
pub use scope::{Bound, Scope};
pub use translation::{translate_form, translate_term, translate_type};
pub use whole::prelude;
