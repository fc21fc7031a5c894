//! Prints terms and files of lambda-Pi as Dedukti text.
#![tactic(auto)]

mod file;
mod pieces;
mod term;

pub use file::print;
pub use term::print_term;
