//! The check of Dedukti files by inference of types in the lambda-Pi calculus modulo rewriting.
#![tactic(auto)]

mod asking;
mod entry;
mod file;
mod infer;
pub mod laws;
mod lookup;
mod stop;
mod term;
mod verdict;

pub use file::check;
pub use verdict::{CheckRefusal, Class, DkPath, DkPlace, Verdict};
