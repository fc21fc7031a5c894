//! Reads Dedukti text: the whole grammar with names resolved, and each refusal with its place.
//!
//! A text is read in loops over a stack of the reader's own, so terms may nest as deep as they like
//! in what is refused, and 8,000 deep in what is read.
#![tactic(auto)]

mod ahead;
mod blank;
mod entry;
mod judge;
mod lexer;
mod machine;
mod mark;
mod names;
mod piece;
mod read;
mod refusal;
mod rule;
mod scope;
mod stack;
mod token;

pub use read::read_dk;
pub use refusal::{DkReadRefusal, Form};
