ghost use Rattle.term_store.specs.Trees.{HasTermParts};

use crate::tests::stored::{
    application, doubled_often, entered, entered_term, made_application, made_constant, opened,
    tower,
};
use crate::tests::trees::{Formula, applied, constant, not_about};
use std::alloc::{AllocError, Global};
use std::test::Fail;
use term_store::{MkFault, Opening, Store, TermId, TermNode};
use zm_logic::{Form, Term};

// the ids of f(a), entered whole before its part is made, and of a
fn whole_first(
    alloc: Global,
    store: &mut Store,
    whole: &Term,
) -> Result<(TermId, TermId), AllocError> {
    let id = entered_term(store, whole)?;
    let part = made_constant(alloc, store)?;
    Ok((id, part))
}

// the ids of f(a), made of its part, and of a
fn part_first(alloc: Global, store: &mut Store) -> Result<(TermId, TermId), AllocError> {
    let part = made_constant(alloc, store)?;
    let id = made_application(alloc, store, part)?;
    Ok((id, part))
}

// Whether the ids of the whole and its part are the same in each order, and differ from each other.
fn whole_and_then_part(alloc: Global, store: &mut Store, whole: &Term) -> Result<bool, AllocError> {
    let entered = whole_first(alloc, store, whole)?;
    let made = part_first(alloc, store)?;
    Ok(made == entered && made.0 != made.1)
}

fn part_and_then_whole(alloc: Global, store: &mut Store, whole: &Term) -> Result<bool, AllocError> {
    let made = part_first(alloc, store)?;
    let entered = whole_first(alloc, store, whole)?;
    Ok(made == entered && made.0 != made.1)
}

#[test]
fn equal_trees_share_an_id(rt: HostRuntime) -> Result<(), Fail> {
    let whole = applied(rt.alloc(), constant(rt.alloc()))?;
    let mut store = Store::new(rt.alloc());
    let same = whole_and_then_part(rt.alloc(), &mut store, &whole)?;
    assert!(rt; same, "the whole first");
    let mut store = Store::new(rt.alloc());
    let same = part_and_then_whole(rt.alloc(), &mut store, &whole)?;
    assert!(rt; same, "its part first");
    Ok(())
}

// Whether the body's doubles, opened at a, are the instance's: so many times doubled, each of them once in the store.
fn doubles_open_at_a(
    alloc: Global,
    store: &mut Store,
    body: &Form,
    instance: &Form,
    times: u32,
) -> Result<bool, AllocError> {
    let id = entered(store, body)?;
    let doubles = doubled_often(store, id, times)?;
    let with = made_constant(alloc, store)?;
    let made = opened(store, doubles, Opening::OfTerm(with))?;
    let instance = entered(store, instance)?;
    let wanted = doubled_often(store, instance, times)?;
    Ok(made == wanted)
}

// The same in a store of its own.
fn doubles_open(
    alloc: Global,
    body: Formula,
    instance: Formula,
    times: u32,
) -> Result<bool, AllocError> {
    let body = body?;
    let instance = instance?;
    let mut store = Store::new(alloc);
    doubles_open_at_a(alloc, &mut store, body.get(), instance.get(), times)
}

// a tree of a thousand million nodes over few shared ones
#[test]
fn a_shared_tree_opens_at_once(rt: HostRuntime) -> Result<(), Fail> {
    let body = not_about(rt.alloc(), Term::Bound(0));
    let instance = not_about(rt.alloc(), constant(rt.alloc()));
    assert!(rt; doubles_open(rt.alloc(), body, instance, 30)?);
    Ok(())
}

// Whether the node is refused for its depth, and comes back.
fn comes_back(store: &mut Store, node: TermNode, wanted: &TermNode) -> bool
    requires { HasTermParts store.old node }
{
    match store.mk_term(node) {
        Ok(_) | Err(MkFault::Memory) => false,
        Err(MkFault::Deep(back)) => back == *wanted,
    }
}

// Whether f of a term of depth 2000 is refused.
fn refused_above(alloc: Global, store: &mut Store) -> Result<bool, AllocError> {
    let a = made_constant(alloc, store)?;
    let top = tower(alloc, store, a, 1999)?;
    let wanted = application(alloc, top)?;
    let node = application(alloc, top)?;
    Ok(comes_back(store, node, &wanted))
}

// Whether f(..f(a)..) of depth 2000 has one id before and after the next one is refused.
fn stays(alloc: Global, store: &mut Store) -> Result<bool, AllocError> {
    let a = made_constant(alloc, store)?;
    let top = tower(alloc, store, a, 1999)?;
    let refused = refused_above(alloc, store)?;
    let a = made_constant(alloc, store)?;
    let again = tower(alloc, store, a, 1999)?;
    Ok(refused && again == top)
}

#[test]
fn deeper_terms_are_refused(rt: HostRuntime) -> Result<(), Fail> {
    let mut store = Store::new(rt.alloc());
    let kept = stays(rt.alloc(), &mut store)?;
    assert!(rt; kept, "depth 2001 is refused, and depth 2000 keeps its id");
    Ok(())
}
