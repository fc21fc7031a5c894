//! The table of files that are checked: what the checker finds in each, and how many of the cases hold.
#![tactic(auto)]

mod checks;
mod terms;

use case_tables::table_holds;
use checks::Checks;
use std::process::ExitCode;

/// Tries the cases of the table, and ends with status 1 where one doesn't hold.
fn main(rt: HostRuntime) -> ExitCode {
    let held = table_holds(&rt, &Checks);
    ExitCode::from(u8::from(!held))
}
