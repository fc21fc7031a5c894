ghost use Rattle.std.specs.Prelude.{◌≡◌, ◌++◌, ◌∷◌, [], All, IfOk};
ghost use Rattle.term_store.specs.Trees.{HasType};
ghost use Rattle.unify.specs.Lawful.{AreLawful};
ghost use Rattle.unify.specs.View.{HasBinding, latest};
ghost use Rattle.unify.specs.Occurs.{TypeLacks};
ghost use Rattle.unify.specs.Task.{IfStep, IsState, GivesWay, MakesBinding, Clash, SplitsTypes, TypesDiffer};
ghost use Rattle.unify.specs.declared.binding.Binding.TheVariants.{OfType};
ghost use Rattle.unify.specs.declared.task.Task.TheVariants.{Types};

use crate::binding::Binding;
use crate::heads::{ty_head, ty_meta};
use crate::task::{Known, Pair, Step, Task, push_types};
use crate::ty_occurs::occurs_in_ty;
use std::alloc::{AllocError, Global};
use term_store::{Store, TyId, TyNode};

// Binds a type metavariable to a type that doesn't hold it.
fn bind(
    alloc: Global,
    store: &Store,
    made: &[Binding],
    meta: u64,
    to: TyId,
) -> Result<Step, AllocError>
    requires has { HasType store.now to }
    requires have { All (HasBinding store.now) made.now }
    requires lawful { AreLawful (latest store.now made.now) }
    ensures { IfOk result (IfStep ⊥ (λ b. (b ≡ OfType meta to) × TypeLacks store.now (latest store.now made.now) meta to) (TypeLacks store.now (latest store.now made.now) meta to → ⊥)) }
{
    if occurs_in_ty(alloc, store, made, meta, to)? {
        return Ok(Step::Clashes);
    }
    Ok(Step::Binds(Binding::OfType { meta, to }))
}

// Two constructors agree, and give way to their arguments.
fn split(store: &Store, tasks: &mut Vec<Task>, left: TyId, right: TyId) -> Result<Step, AllocError>
    requires has { HasType store.now left }
    requires has_right { HasType store.now right }
    ensures { IfOk result (IfStep (SplitsTypes store.now left right tasks.old.items tasks.new.items) (λ _. ⊥) (TypesDiffer store.now left right)) }
{
    match store.ty_node(left) {
        TyNode::Con(c, ss) => match store.ty_node(right) {
            TyNode::Con(d, ts) => {
                if c.0 != d.0 {
                    return Ok(Step::Clashes);
                }
                let ss = ss.as_slice();
                let ts = ts.as_slice();
                if ss.len() != ts.len() {
                    return Ok(Step::Clashes);
                }
                tasks.push(Task::TypesDone(left, right))?;
                push_types(tasks, ss, ts)?;
                Ok(Step::Goes)
            }
            TyNode::Bound(_) | TyNode::Param(_) | TyNode::Meta(_) => Ok(Step::Clashes),
        },
        TyNode::Bound(_) | TyNode::Param(_) | TyNode::Meta(_) => Ok(Step::Clashes),
    }
}

/// Takes two types that are to become equal.
pub(crate) fn solve_types(
    alloc: Global,
    store: &Store,
    made: &[Binding],
    known: &Known,
    tasks: &mut Vec<Task>,
    sides: (TyId, TyId),
) -> Result<Step, AllocError>
    requires state { IsState store.now made.now known.now (tasks.old.items ++ Types sides.0 sides.1 ∷ []) }
    ensures { IfOk result (IfStep (GivesWay store.now made.now (tasks.old.items ++ Types sides.0 sides.1 ∷ []) known.now tasks.new.items) (λ b. MakesBinding store.now made.now (tasks.old.items ++ Types sides.0 sides.1 ∷ []) b known.now tasks.new.items) (Clash store.now made.now (tasks.old.items ++ Types sides.0 sides.1 ∷ []))) }
{
    let left = ty_head(store, made, sides.0);
    let right = ty_head(store, made, sides.1);
    if left.0 == right.0 {
        return Ok(Step::Goes);
    }
    let pair = Pair {
        left: left.0,
        right: right.0,
    };
    if known.types.contains(&pair) {
        return Ok(Step::Goes);
    }
    store.shared();
    if let Some(meta) = ty_meta(store, left) {
        return Ok(bind(alloc, store, made, meta, right)?);
    }
    if let Some(meta) = ty_meta(store, right) {
        return Ok(bind(alloc, store, made, meta, left)?);
    }
    Ok(split(store, tasks, left, right)?)
}
