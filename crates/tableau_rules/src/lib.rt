//! What a formula by itself gives to be done: alpha, beta, delta, and gamma with its metavariable.
#![tactic(auto)]

mod children;
mod opening;
mod own;
mod split;

pub use own::own_offers;
pub use param_store::OfferFault;
