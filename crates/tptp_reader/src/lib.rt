//! Reads the statements of the TPTP languages FOF and TFF1 from bytes, one at a time.
#![tactic(auto)]

mod bodies;
mod brackets;
mod built;
mod cursor;
mod depths;
mod ending;
mod escapes;
mod forms;
mod heads;
mod lexeme;
mod names;
mod nesting;
mod parse;
mod parts;
mod read;
mod refusal;
mod roles;
mod rows;
mod statement;
mod terms;
mod text;
mod tokens;
mod tops;
mod tree;
mod types;
mod wide;
mod words;

pub use read::{answers_are_equal, read_statement};
pub use refusal::{ReadRefusal, UnsupportedForm};
pub use statement::{Body, Read, Statement};
pub use text::Text;
pub use tree::{
    RawForm, RawRole, RawTerm, RawTerms, RawTop, RawType, RawTypes, RawVar, RawVars, Texts,
};
