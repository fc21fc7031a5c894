//! Terms, signatures and files of the lambda-Pi calculus modulo rewriting, and the definitions of reduction, conversion,
//! typing and well-formed signatures.
#![tactic(auto)]

mod changing;
mod copying;
mod file;
pub mod laws;
mod sameness;
mod term;
mod text;

pub use changing::{close, open, substitute};
pub use file::{DkFile, Entries, Entry};
pub use term::{Lp, Lps, NUMBER_LIMIT};
pub use text::Text;
