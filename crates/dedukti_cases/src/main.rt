//! The tables of Dedukti texts: what is read and printed of each, and how many of the cases hold.
#![tactic(auto)]

mod proofs;
mod texts;

use case_tables::table_holds;
use proofs::Proofs;
use std::process::ExitCode;
use texts::Texts;

/// Tries the cases of the tables, and ends with status 1 where one doesn't hold.
fn main(rt: HostRuntime) -> ExitCode {
    let mut held = true;
    held &= table_holds(&rt, &Texts);
    held &= table_holds(&rt, &Proofs);
    ExitCode::from(u8::from(!held))
}
