//! How fast terms are stored and unified: a program to be timed.
//!
//! It asks a store for one million terms, of which ten thousand are distinct, and prints the last of their places. Then
//! it unifies two terms of 2,001 nodes a hundred times, and prints how many bindings the last time gave. The word `store`
//! or `unify` leaves the other part out.
#![tactic(auto)]

mod chains;
mod nodes;
mod stop;
mod stored;

use chains::unified;
use std::alloc::{AllocError, Global};
use std::env;
use std::process::ExitCode;
use stop::Stop;
use stored::stored;
use zm_base::{StdSink, write_all};

const CALLS: u64 = 1_000_000;

const DISTINCT: u32 = 10_000;

const LINKS: u64 = 1_000;

const TIMES: u64 = 100;

// What is printed of the stored terms.
fn store_line(alloc: Global) -> Result<String, Stop> {
    let places = stored(alloc, CALLS, DISTINCT)?;
    Ok(format!(in alloc; "{CALLS} terms in {places} places\n")?)
}

// What is printed of the unified terms.
fn unify_line(alloc: Global) -> Result<String, Stop> {
    let bindings = unified(alloc, LINKS, TIMES)?;
    Ok(format!(in alloc; "{TIMES} times {bindings} bindings\n")?)
}

// The parts that are run.
#[derive(Clone, Copy)]
struct Parts {
    store: bool,
    unify: bool,
}

// The parts that the words leave.
fn wanted(words: env::Args) -> Parts {
    let mut parts = Parts {
        store: true,
        unify: true,
    };
    for word in words {
        if word.as_str() == "store" {
            parts.unify = false;
        }
        if word.as_str() == "unify" {
            parts.store = false;
        }
    }
    parts
}

// What is printed.
fn text(alloc: Global, parts: Parts) -> Result<String, Stop> {
    let store = if parts.store {
        store_line(alloc)?
    } else {
        String::new(alloc)
    };
    let unify = if parts.unify {
        unify_line(alloc)?
    } else {
        String::new(alloc)
    };
    Ok(format!(in alloc; "{store}{unify}")?)
}

fn main(rt: HostRuntime) -> ExitCode {
    let alloc = rt.alloc();
    let Ok(words) = env::args(&rt) else {
        return ExitCode::from(1);
    };
    let Ok(text) = text(alloc, wanted(words)) else {
        return ExitCode::from(3);
    };
    let mut out = StdSink::stdout(rt.stdout());
    if write_all(&mut out, text.as_bytes()).is_err() {
        return ExitCode::from(3);
    }
    ExitCode::from(0)
}
