//! What the formulas of a branch offer together: instances of quantified formulas, from bindings that make an atom or an
//! equality and a negated one the same. The steps of equality have their place in the definitions; the calls here have
//! the condition that no unnegated equality is on the branch, which leaves none of them.
#![tactic(auto)]

mod checked;
mod declared;
mod instances;
pub mod laws;
mod matching;
mod pairs;
mod typing;

pub use pairs::{pair_offers, single_offers};
pub use param_store::OfferFault;
