ghost use Rattle.std.specs.Prelude.{◌≡◌, ◌++◌, ◌∷◌, ◌==◌, ◌&&◌, All, OnOk, IfOk};
ghost use Rattle.zm_logic.specs.Same.{same_type};
ghost use Rattle.term_store.specs.Trees.{HasType, HasTerm, type_of};
ghost use Rattle.unify.specs.Lawful.{AreLawful};
ghost use Rattle.unify.specs.View.{HasBinding, latest};
ghost use Rattle.unify.specs.Occurs.{IfFound, TermLacks, LackTerms, EntersTerm, entered_terms};

use crate::binding::Binding;
use crate::heads::{same_ty, term_head};
use indexmap::IndexSet;
use std::alloc::{AllocError, Global};
use term_store::{Store, TermId, TermNode, TyId};

/// A walk through a term enters it, and leaves it after its arguments.
#[derive(Clone, Copy)]
pub(crate) enum TermVisit {
    Enter(TermId),
    Leave(TermId),
}

// Enters the arguments of a term.
fn enter_all(path: &mut Vec<TermVisit>, ids: &[TermId]) -> Result<(), AllocError>
    ensures { OnOk result (path.new.items ≡ path.old.items ++ entered_terms ids.now) }
{
    for id in ids {
        path.push(TermVisit::Enter(*id))?;
    }
    Ok(())
}

// Whether two metavariables are one.
fn is_meta(store: &Store, found: (u64, TyId), wanted: (u64, TyId)) -> bool
    requires has { HasType store.now found.1 }
    requires has_wanted { HasType store.now wanted.1 }
    ensures { result ≡ ((found.0 == wanted.0) && same_type (type_of store.now found.1) (type_of store.now wanted.1)) }
{
    found.0 == wanted.0 && same_ty(store, found.1, wanted.1)
}

// Enters a term. The answer tells whether its head is the metavariable.
fn enter(
    store: &Store,
    made: &[Binding],
    meta: (u64, TyId),
    lacking: &IndexSet<TermId>,
    path: &mut Vec<TermVisit>,
    id: TermId,
) -> Result<bool, AllocError>
    requires has { HasTerm store.now id }
    requires has_type { HasType store.now meta.1 }
    requires have { All (HasBinding store.now) made.now }
    requires lawful { AreLawful (latest store.now made.now) }
    requires known { LackTerms store.now (latest store.now made.now) meta.0 (type_of store.now meta.1) lacking.now }
    ensures { IfOk result (IfFound (TermLacks store.now (latest store.now made.now) meta.0 (type_of store.now meta.1) id → ⊥) (EntersTerm store.now (latest store.now made.now) meta.0 (type_of store.now meta.1) id path.old.items path.new.items)) }
{
    let head = term_head(store, made, id);
    if lacking.contains(&head) {
        return Ok(false);
    }
    match store.term_node(head) {
        TermNode::Meta(number, ty) => Ok(is_meta(store, (*number, *ty), meta)),
        TermNode::Bound(_) | TermNode::Eps(_, _) => Ok(false),
        TermNode::App(_, _, ids) => {
            path.push(TermVisit::Leave(head))?;
            enter_all(path, ids.as_slice())?;
            Ok(false)
        }
    }
}

/// Whether a metavariable over terms occurs in a term with all bindings put in. Each shared part is walked through once.
pub(crate) fn occurs_in_term(
    alloc: Global,
    store: &Store,
    made: &[Binding],
    meta: (u64, TyId),
    within: TermId,
) -> Result<bool, AllocError>
    requires has { HasTerm store.now within }
    requires has_type { HasType store.now meta.1 }
    requires have { All (HasBinding store.now) made.now }
    requires lawful { AreLawful (latest store.now made.now) }
    ensures { IfOk result (IfFound (TermLacks store.now (latest store.now made.now) meta.0 (type_of store.now meta.1) within → ⊥) (TermLacks store.now (latest store.now made.now) meta.0 (type_of store.now meta.1) within)) }
{
    let mut lacking: IndexSet<TermId> = IndexSet::new(alloc);
    let mut path: Vec<TermVisit> = Vec::new(alloc);
    path.push(TermVisit::Enter(within))?;
    while let Some(visit) = path.pop() {
        match visit {
            TermVisit::Leave(id) => {
                lacking.insert(id)?;
            }
            TermVisit::Enter(id) => {
                if enter(store, made, meta, &lacking, &mut path, id)? {
                    return Ok(true);
                }
            }
        }
    }
    Ok(false)
}
