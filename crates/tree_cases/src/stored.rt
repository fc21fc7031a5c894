// The calls on a store, where a tree that is too deep makes a case broken.
ghost use Rattle.std.specs.Prelude.{◌≡◌, IfOk};
ghost use Rattle.zm_logic.specs.View.{form_tree};
ghost use Rattle.term_store.specs.Trees.{HasType, HasTerm, HasForm, form_of, Extends};

use crate::reading::{read_form, read_term, read_type};
use case_tables::CaseFault;
use std::alloc::Global;
use term_store::{EnterFault, FormId, Store, TermId, TermNode, TyId};
use zm_logic::{Form, Term};

fn fault_of(fault: EnterFault) -> CaseFault {
    match fault {
        EnterFault::Memory => CaseFault::Memory,
        EnterFault::Deep => CaseFault::Broken,
    }
}

/// The id of a formula.
pub(crate) fn entered(store: &mut Store, form: &Form) -> Result<FormId, CaseFault>
    ensures has { IfOk result (HasForm store.new) }
    ensures tree { IfOk result (λ id. form_of store.new id ≡ form_tree form.now) }
    ensures kept { Extends store.old store.new }
{
    match store.enter(form) {
        Ok(id) => Ok(id),
        Err(fault) => Err(fault_of(fault)),
    }
}

/// The id of a term.
pub(crate) fn entered_term(store: &mut Store, term: &Term) -> Result<TermId, CaseFault>
    ensures has { IfOk result (HasTerm store.new) }
    ensures kept { Extends store.old store.new }
{
    match store.enter_term(term) {
        Ok(id) => Ok(id),
        Err(fault) => Err(fault_of(fault)),
    }
}

/// The id of the formula that a text is.
pub(crate) fn stored_form(
    alloc: Global,
    store: &mut Store,
    text: &[u8],
) -> Result<FormId, CaseFault>
    ensures has { IfOk result (HasForm store.new) }
    ensures kept { Extends store.old store.new }
{
    let form = read_form(alloc, text)?;
    entered(store, form.get())
}

/// The id of the term that a text is.
pub(crate) fn stored_term(
    alloc: Global,
    store: &mut Store,
    text: &[u8],
) -> Result<TermId, CaseFault>
    ensures has { IfOk result (HasTerm store.new) }
    ensures kept { Extends store.old store.new }
{
    let term = read_term(alloc, text)?;
    entered_term(store, &term)
}

// The id of the type that a term carries.
fn carried(store: &Store, id: TermId) -> Result<TyId, CaseFault>
    requires { HasTerm store.now id }
    ensures { IfOk result (HasType store.now) }
{
    match store.term_node(id) {
        TermNode::Meta(_, ty) | TermNode::Eps(_, ty) => Ok(*ty),
        TermNode::Bound(_) | TermNode::App(_, _, _) => Err(CaseFault::Broken),
    }
}

/// The id of the type that a text is, which a metavariable carries into the store.
pub(crate) fn stored_type(alloc: Global, store: &mut Store, text: &[u8]) -> Result<TyId, CaseFault>
    ensures has { IfOk result (HasType store.new) }
    ensures kept { Extends store.old store.new }
{
    let ty = read_type(alloc, text)?;
    let id = entered_term(store, &Term::Meta(0, ty))?;
    carried(store, id)
}
