//! Reads the tokens of the TPTP language from bytes, one after another.
//!
//! White space is space, tab, carriage return and newline. `%` begins a comment to the end of the line, and `/*` one to
//! the next `*/`; comments may hold any bytes.
//!
//! | token | form |
//! |---|---|
//! | lower | `a` to `z`, then letters, digits, `_` |
//! | upper | `A` to `Z`, then letters, digits, `_` |
//! | dollar | `$` or `$$`, then a lower |
//! | quoted | `'`, one or more of bytes 32 to 126 other than `'` and `\`, or `\'`, `\\`, then `'` |
//! | distinct | the same with `"` in place of `'` |
//! | number | optional `+` or `-`, digits, optionally `.` or `/` and digits, optionally `E` or `e`, a sign, digits |
//! | sign | the longest of `( ) [ ] , . : & \| ~ => <= <=> <~> ~& ~\| = != ! ? !> > * @ ^ + -` |
//!
//! A number takes a `.` or `/` only where a digit follows it. The sign of an exponent is never left out. A `/*` without
//! its `*/` begins no comment, and as no token begins with `/` either, the fault is there.
#![tactic(auto)]

mod blank;
mod lexer;
mod numbers;
mod quoted;
mod signs;
mod token;
mod words;

pub use lexer::{LexFault, Lexer, Token};
pub use signs::Sign;
pub use token::TokenKind;
