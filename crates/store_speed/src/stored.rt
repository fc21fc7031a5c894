use crate::nodes::{applied, constant};
use crate::stop::Stop;
use std::alloc::Global;
use term_store::Store;

// Asks the store for the functions.
fn stored_in(alloc: Global, store: &mut Store, calls: u64, distinct: u32) -> Result<usize, Stop> {
    let argument = constant(alloc, store, 0)?;
    let mut places = 0;
    let mut symbol = 0;
    for _call in 0..calls {
        symbol = if symbol < distinct { symbol + 1 } else { 1 };
        let id = applied(alloc, store, symbol, argument, argument)?;
        places = places.max(id.0);
    }
    Ok(places)
}

/// Asks a store for a function of two terms, `calls` times in all, `distinct` functions in turn. The answer is how many
/// places the terms took.
pub fn stored(alloc: Global, calls: u64, distinct: u32) -> Result<usize, Stop> {
    let mut store = Store::new(alloc);
    stored_in(alloc, &mut store, calls, distinct)
}
