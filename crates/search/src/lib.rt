//! Search for a closed tableau of a problem, and how many Steps it can need where the problem has no quantifier and no
//! equality. The definitions stand in `specs/`, and what they promise of tableaux in `laws`.
#![tactic(auto)]

pub mod laws;
mod measures;
mod run;

pub use branch::{Closed, Open, Tableau, Why};
pub use measures::{need, weight};
pub use run::{Budget, Searched, search};
