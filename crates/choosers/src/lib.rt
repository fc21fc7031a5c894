//! What a chooser sees of the offers of a branch.
#![tactic(auto)]

mod offer;

pub use offer::{Kind, Offer};
