//! Tables of cases that must not hold: each file breaks one rule of their format, or wants another answer than the one it
//! gets. What the reader of tables says of them is this program's stored output; it ends with status 0 where none holds.
#![tactic(auto)]

use case_tables::{Case, CaseFault, Table, table_holds};
use std::alloc::Global;
use std::process::ExitCode;

/// A table whose answer is the text itself.
#[derive(Clone, Copy)]
struct Echo {
    name: &'static str,
}

impl Table for Echo {
    fn name(&self) -> &'static str {
        self.name
    }

    fn words(&self) -> &'static [&'static str] {
        &["number"]
    }

    fn answer(&self, alloc: Global, case: &Case) -> Result<Vec<u8>, CaseFault> {
        let _ = case.number("number", 0)?;
        case.wanted(alloc, "text")
    }
}

/// The tables, one for each fault; the last one has no file.
const TABLES: &[&str] = &[
    "wrong_answer",
    "unknown_word",
    "no_text",
    "no_answer",
    "unknown_escape",
    "cut_escape",
    "no_times",
    "no_number",
    "space_in_front",
    "remarks_alone",
    "no_such_file",
];

// Whether one of the tables holds.
fn any_holds(rt: &HostRuntime, tables: &[&'static str]) -> bool {
    let mut any = false;
    for name in tables {
        any |= table_holds(rt, &Echo { name: *name });
    }
    any
}

/// Tries each table, and ends with status 1 where one holds.
fn main(rt: HostRuntime) -> ExitCode {
    ExitCode::from(u8::from(any_holds(&rt, TABLES)))
}
