// The calls of the tests on a store, where want of memory is the one error.
ghost use Rattle.std.specs.Prelude.{◌≡◌, [], ◌∷◌, IfOk};
ghost use Rattle.term_store.specs.declared.node.TermNode.TheVariants.{App};
ghost use Rattle.term_store.specs.Open.{HasPart};
ghost use Rattle.term_store.specs.Trees.{HasTerm, HasForm, Extends};

use std::alloc::{AllocError, Global};
use term_store::{FormId, FormNode, Opening, Store, TermId, TermIds, TermNode, TyIds};
use zm_logic::{Form, SymId, Term};

// the id of the formula
pub(crate) fn entered(store: &mut Store, form: &Form) -> Result<FormId, AllocError>
    ensures has { IfOk result (HasForm store.new) }
    ensures kept { Extends store.old store.new }
{
    match store.enter(form) {
        Ok(id) => Ok(id),
        Err(_) => Err(AllocError),
    }
}

// the id of the term
pub(crate) fn entered_term(store: &mut Store, term: &Term) -> Result<TermId, AllocError>
    ensures { IfOk result (HasTerm store.new) }
{
    match store.enter_term(term) {
        Ok(id) => Ok(id),
        Err(_) => Err(AllocError),
    }
}

// the id of a
pub(crate) fn made_constant(alloc: Global, store: &mut Store) -> Result<TermId, AllocError>
    ensures has { IfOk result (HasTerm store.new) }
    ensures kept { Extends store.old store.new }
{
    match store.mk_term(TermNode::App(SymId(2), TyIds::new(alloc), TermIds::new(alloc))) {
        Ok(id) => Ok(id),
        Err(_) => Err(AllocError),
    }
}

// f of one term
pub(crate) fn application(alloc: Global, u: TermId) -> Result<TermNode, AllocError>
    ensures { IfOk result (λ n. n ≡ App (record { 0 = 3 }) [] (u ∷ [])) }
{
    let mut terms = TermIds::new(alloc);
    terms.push(u)?;
    Ok(TermNode::App(SymId(3), TyIds::new(alloc), terms))
}

// the id of f(u)
pub(crate) fn made_application(
    alloc: Global,
    store: &mut Store,
    u: TermId,
) -> Result<TermId, AllocError>
    requires { HasTerm store.old u }
    ensures { IfOk result (HasTerm store.new) }
{
    let node = application(alloc, u)?;
    match store.mk_term(node) {
        Ok(id) => Ok(id),
        Err(_) => Err(AllocError),
    }
}

// the id of f(..f(u)..), f standing so many times
pub(crate) fn tower(
    alloc: Global,
    store: &mut Store,
    u: TermId,
    times: u32,
) -> Result<TermId, AllocError>
    requires { HasTerm store.old u }
    ensures { IfOk result (HasTerm store.new) }
{
    let mut all = u;
    for _step in 0..times {
        all = made_application(alloc, store, all)?;
    }
    Ok(all)
}

// the id of f & f
fn doubled(store: &mut Store, f: FormId) -> Result<FormId, AllocError>
    requires { HasForm store.old f }
    ensures { IfOk result (HasForm store.new) }
{
    match store.mk_form(FormNode::And(f, f)) {
        Ok(id) => Ok(id),
        Err(_) => Err(AllocError),
    }
}

// the id of the formula that is f & f, so many times over
pub(crate) fn doubled_often(store: &mut Store, f: FormId, times: u32) -> Result<FormId, AllocError>
    requires { HasForm store.old f }
    ensures { IfOk result (HasForm store.new) }
{
    let mut all = f;
    for _step in 0..times {
        all = doubled(store, all)?;
    }
    Ok(all)
}

// the id of the opened formula
pub(crate) fn opened(store: &mut Store, id: FormId, with: Opening) -> Result<FormId, AllocError>
    requires has { HasForm store.old id }
    requires part { HasPart store.old with }
{
    match store.open(id, with) {
        Ok(id) => Ok(id),
        Err(_) => Err(AllocError),
    }
}
