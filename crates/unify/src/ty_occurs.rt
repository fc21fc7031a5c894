ghost use Rattle.std.specs.Prelude.{◌≡◌, ◌++◌, ◌∷◌, All, OnOk, IfOk};
ghost use Rattle.term_store.specs.Trees.{HasType};
ghost use Rattle.unify.specs.Lawful.{AreLawful};
ghost use Rattle.unify.specs.View.{HasBinding, latest};
ghost use Rattle.unify.specs.Occurs.{IfFound, TypeLacks, LackTypes, EntersType, entered_types};

use crate::binding::Binding;
use crate::heads::ty_head;
use indexmap::IndexSet;
use std::alloc::{AllocError, Global};
use term_store::{Store, TyId, TyNode};

/// A walk through a type enters it, and leaves it after its parts.
#[derive(Clone, Copy)]
pub(crate) enum TyVisit {
    Enter(TyId),
    Leave(TyId),
}

// Enters the parts of a type.
fn enter_all(path: &mut Vec<TyVisit>, ids: &[TyId]) -> Result<(), AllocError>
    ensures { OnOk result (path.new.items ≡ path.old.items ++ entered_types ids.now) }
{
    for id in ids {
        path.push(TyVisit::Enter(*id))?;
    }
    Ok(())
}

// Enters a type. The answer tells whether its head is the metavariable.
fn enter(
    store: &Store,
    made: &[Binding],
    meta: u64,
    lacking: &IndexSet<TyId>,
    path: &mut Vec<TyVisit>,
    id: TyId,
) -> Result<bool, AllocError>
    requires has { HasType store.now id }
    requires have { All (HasBinding store.now) made.now }
    requires lawful { AreLawful (latest store.now made.now) }
    requires known { LackTypes store.now (latest store.now made.now) meta lacking.now }
    ensures { IfOk result (IfFound (TypeLacks store.now (latest store.now made.now) meta id → ⊥) (EntersType store.now (latest store.now made.now) meta id path.old.items path.new.items)) }
{
    let head = ty_head(store, made, id);
    if lacking.contains(&head) {
        return Ok(false);
    }
    match store.ty_node(head) {
        TyNode::Meta(number) => Ok(*number == meta),
        TyNode::Bound(_) | TyNode::Param(_) => Ok(false),
        TyNode::Con(_, ids) => {
            path.push(TyVisit::Leave(head))?;
            enter_all(path, ids.as_slice())?;
            Ok(false)
        }
    }
}

/// Whether a type metavariable occurs in a type with all bindings put in. Each shared part is walked through once.
pub(crate) fn occurs_in_ty(
    alloc: Global,
    store: &Store,
    made: &[Binding],
    meta: u64,
    within: TyId,
) -> Result<bool, AllocError>
    requires has { HasType store.now within }
    requires have { All (HasBinding store.now) made.now }
    requires lawful { AreLawful (latest store.now made.now) }
    ensures { IfOk result (IfFound (TypeLacks store.now (latest store.now made.now) meta within → ⊥) (TypeLacks store.now (latest store.now made.now) meta within)) }
{
    let mut lacking: IndexSet<TyId> = IndexSet::new(alloc);
    let mut path: Vec<TyVisit> = Vec::new(alloc);
    path.push(TyVisit::Enter(within))?;
    while let Some(visit) = path.pop() {
        match visit {
            TyVisit::Leave(id) => {
                lacking.insert(id)?;
            }
            TyVisit::Enter(id) => {
                if enter(store, made, meta, &lacking, &mut path, id)? {
                    return Ok(true);
                }
            }
        }
    }
    Ok(false)
}
