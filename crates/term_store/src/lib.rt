//! Types, terms and formulas whose equal parts are stored once: an id is the place of a tree in the store, and ids of
//! one store are equal exactly where their trees are equal.
#![tactic(auto)]

mod change;
mod change_terms;
mod change_types;
mod connective;
mod copies;
mod depths;
mod enter;
mod fault;
mod ids;
mod memo;
mod node;
mod opening;
mod puts;
mod reads;
mod store;
mod trees;

pub use fault::{EnterFault, MkFault, OpenFault};
pub use ids::{FormId, FormIds, TermId, TermIds, TyId, TyIds};
pub use node::{FormNode, TermNode, TyNode};
pub use opening::{Opening, Redex};
pub use store::{MAX_DEPTH, Store};
