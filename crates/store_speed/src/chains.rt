ghost use Rattle.std.specs.Prelude.{IfOk};
ghost use Rattle.term_store.specs.Trees.{HasType, HasTerm, Extends};

use crate::nodes::{applied, constant, individual, meta};
use crate::stop::Stop;
use std::alloc::Global;
use term_store::{Store, TermId, TyId};
use unify::mgu_terms;

// g(.. g(m1, g(m0, c)))
fn of_metas(alloc: Global, store: &mut Store, ty: TyId, links: u64) -> Result<TermId, Stop>
    requires { HasType store.old ty }
    ensures has { IfOk result (HasTerm store.new) }
    ensures kept { Extends store.old store.new }
{
    let mut chain = constant(alloc, store, 2)?;
    for number in 0..links {
        let first = meta(store, number, ty)?;
        chain = applied(alloc, store, 3, first, chain)?;
    }
    Ok(chain)
}

// g(.. g(a, g(a, c)))
fn of_constants(alloc: Global, store: &mut Store, links: u64) -> Result<TermId, Stop>
    ensures has { IfOk result (HasTerm store.new) }
    ensures kept { Extends store.old store.new }
{
    let first = constant(alloc, store, 1)?;
    let mut chain = constant(alloc, store, 2)?;
    for _link in 0..links {
        chain = applied(alloc, store, 3, first, chain)?;
    }
    Ok(chain)
}

// How many bindings the most general unifier of two terms has.
fn bindings(alloc: Global, store: &mut Store, left: TermId, right: TermId) -> Result<usize, Stop>
    requires left { HasTerm store.old left }
    requires right { HasTerm store.old right }
    ensures kept { Extends store.old store.new }
{
    let found = mgu_terms(alloc, store, left, right)?;
    match found {
        Some(made) => Ok(made.len()),
        None => Err(Stop::Apart),
    }
}

// The chains are made in the store, and unified so many times.
fn unified_in(alloc: Global, store: &mut Store, links: u64, times: u64) -> Result<usize, Stop> {
    let ty = individual(alloc, store)?;
    let left = of_metas(alloc, store, ty, links)?;
    let right = of_constants(alloc, store, links)?;
    let mut count = 0;
    for _time in 0..times {
        count = bindings(alloc, store, left, right)?;
    }
    Ok(count)
}

/// Unifies two chains of so many links, one with a metavariable in each and one with a constant, so many times. The
/// answer is how many bindings the last time gave.
pub fn unified(alloc: Global, links: u64, times: u64) -> Result<usize, Stop> {
    let mut store = Store::new(alloc);
    unified_in(alloc, &mut store, links, times)
}
