//! Whole runs of Zenon Modulo, over the tables `runs`, `first_order` and `type_quantifiers`: each case gives the words of a
//! command, a source, a library and what calls of them fail, and says with which status the run ends and what it writes.
//!
//! Each difference is printed, and how many cases of each table hold. The exit status is 0 where all do, and else 1.
#![tactic(auto)]

mod fields;
mod outside;
mod runs;
mod told;

use case_tables::table_holds;
use runs::Runs;
use std::process::ExitCode;

fn main(rt: HostRuntime) -> ExitCode {
    let plain = table_holds(&rt, &Runs { name: "runs" });
    let first_order = table_holds(
        &rt,
        &Runs {
            name: "first_order",
        },
    );
    let types = table_holds(
        &rt,
        &Runs {
            name: "type_quantifiers",
        },
    );
    ExitCode::from(u8::from(!(plain && first_order && types)))
}
