//! The tables of texts: what is read of each, and how many of the cases hold.
#![tactic(auto)]

mod gathering;
mod statements;
mod tokens;
mod trees;
mod typing;

use case_tables::table_holds;
use gathering::Gathering;
use statements::Statements;
use std::process::ExitCode;
use tokens::Tokens;
use trees::Trees;
use typing::Typing;

/// Tries the cases of each table, and ends with status 1 where one doesn't hold.
fn main(rt: HostRuntime) -> ExitCode {
    let mut held = true;
    held &= table_holds(&rt, &Tokens);
    held &= table_holds(&rt, &Statements);
    held &= table_holds(&rt, &Trees);
    held &= table_holds(&rt, &Gathering);
    held &= table_holds(&rt, &Typing);
    ExitCode::from(u8::from(!held))
}
