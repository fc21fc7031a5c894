//! Tables of cases in files: what is read, what is answered, and how many of the cases hold.
//!
//! A line that begins with `#` is a remark, and a blank line ends a case. Each other line is a word and, behind one
//! space, a value up to the end of the line. In a value `\n`, `\t`, `\r`, `\\`, `\s` and `\xHH` stand for a newline, a
//! tab, a carriage return, a backslash, a space and the byte of two hexadecimal digits; no other backslash is allowed.
//! `word*N value` stands for the value N times.
//!
//! A case that begins with the word `shared` is none: the fields behind that word stand behind those of each case that
//! follows, up to the next `shared`.
#![tactic(auto)]

mod case;
mod escapes;
mod fields;
mod printed;
mod reader;
mod score;
mod shared;
mod table;

pub use case::{Case, CaseFault, Field};
pub use table::{Table, table_holds};
