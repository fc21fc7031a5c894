//! The proof terms of the rules of the sequent calculus, made of the terms of what they act on and of their children. A term may
//! be wanting for memory, and then what is made of it is wanting too: so calls stand in one another as terms do.
#![tactic(auto)]

pub mod connectives;
pub mod equalities;
pub mod equivalences;
pub mod parts;
pub mod quantifiers;
