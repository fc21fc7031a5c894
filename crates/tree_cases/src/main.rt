//! Cases of unifiers, of offers, of the store and of trees by themselves, in a short notation: reads the tables, makes the calls, and
//! prints each difference and how many cases hold.
#![tactic(auto)]

mod heads;
mod offers;
mod piles;
mod ranges;
mod reading;
mod shown;
mod store;
mod stored;
mod symbols;
mod tokens;
mod trees;
mod unifiers;
mod writing;

use case_tables::table_holds;
use offers::Offers;
use std::process::ExitCode;
use store::Stores;
use trees::Trees;
use unifiers::Unifiers;

fn main(rt: HostRuntime) -> ExitCode {
    let unifiers = table_holds(&rt, &Unifiers);
    let offers = table_holds(&rt, &Offers);
    let store = table_holds(&rt, &Stores);
    let trees = table_holds(&rt, &Trees);
    ExitCode::from(u8::from(!(unifiers && offers && store && trees)))
}
