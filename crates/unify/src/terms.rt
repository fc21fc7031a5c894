ghost use Rattle.std.specs.Prelude.{◌≡◌, ◌++◌, ◌∷◌, [], All, IfOk};
ghost use Rattle.term_store.specs.Trees.{HasType, HasTerm, type_of};
ghost use Rattle.unify.specs.Lawful.{AreLawful};
ghost use Rattle.unify.specs.View.{HasBinding, latest};
ghost use Rattle.unify.specs.Occurs.{TermLacks};
ghost use Rattle.unify.specs.Task.{IfStep, IsState, GivesWay, MakesBinding, Clash, SplitsTerms, TermsDiffer};
ghost use Rattle.unify.specs.declared.binding.Binding.TheVariants.{OfTerm};
ghost use Rattle.unify.specs.declared.task.Task.TheVariants.{Terms};

use crate::binding::Binding;
use crate::heads::{term_head, term_meta};
use crate::task::{Known, Pair, Step, Task, push_parts};
use crate::term_occurs::occurs_in_term;
use std::alloc::{AllocError, Global};
use term_store::{Store, TermId, TermNode, TyId};

// Binds a metavariable over terms to a term that doesn't hold it.
fn bind(
    alloc: Global,
    store: &Store,
    made: &[Binding],
    meta: (u64, TyId),
    to: TermId,
) -> Result<Step, AllocError>
    requires has { HasTerm store.now to }
    requires has_type { HasType store.now meta.1 }
    requires have { All (HasBinding store.now) made.now }
    requires lawful { AreLawful (latest store.now made.now) }
    ensures { IfOk result (IfStep ⊥ (λ b. (b ≡ OfTerm meta.0 meta.1 to) × TermLacks store.now (latest store.now made.now) meta.0 (type_of store.now meta.1) to) (TermLacks store.now (latest store.now made.now) meta.0 (type_of store.now meta.1) to → ⊥)) }
{
    if occurs_in_term(alloc, store, made, meta, to)? {
        return Ok(Step::Clashes);
    }
    Ok(Step::Binds(Binding::OfTerm {
        meta: meta.0,
        ty: meta.1,
        to,
    }))
}

// Two symbols agree, and give way to their arguments, types before terms.
fn split(
    store: &Store,
    tasks: &mut Vec<Task>,
    left: TermId,
    right: TermId,
) -> Result<Step, AllocError>
    requires has { HasTerm store.now left }
    requires has_right { HasTerm store.now right }
    ensures { IfOk result (IfStep (SplitsTerms store.now left right tasks.old.items tasks.new.items) (λ _. ⊥) (TermsDiffer store.now left right)) }
{
    match store.term_node(left) {
        TermNode::App(f, ss, us) => match store.term_node(right) {
            TermNode::App(g, ts, vs) => {
                if f.0 != g.0 {
                    return Ok(Step::Clashes);
                }
                let ss = ss.as_slice();
                let ts = ts.as_slice();
                let us = us.as_slice();
                let vs = vs.as_slice();
                tasks.push(Task::TermsDone(left, right))?;
                if push_parts(tasks, ss, ts, us, vs)? {
                    Ok(Step::Goes)
                } else {
                    Ok(Step::Clashes)
                }
            }
            TermNode::Bound(_) | TermNode::Eps(_, _) | TermNode::Meta(_, _) => Ok(Step::Clashes),
        },
        TermNode::Bound(_) | TermNode::Eps(_, _) | TermNode::Meta(_, _) => Ok(Step::Clashes),
    }
}

/// Takes two terms that are to become equal.
pub(crate) fn solve_terms(
    alloc: Global,
    store: &Store,
    made: &[Binding],
    known: &Known,
    tasks: &mut Vec<Task>,
    sides: (TermId, TermId),
) -> Result<Step, AllocError>
    requires state { IsState store.now made.now known.now (tasks.old.items ++ Terms sides.0 sides.1 ∷ []) }
    ensures { IfOk result (IfStep (GivesWay store.now made.now (tasks.old.items ++ Terms sides.0 sides.1 ∷ []) known.now tasks.new.items) (λ b. MakesBinding store.now made.now (tasks.old.items ++ Terms sides.0 sides.1 ∷ []) b known.now tasks.new.items) (Clash store.now made.now (tasks.old.items ++ Terms sides.0 sides.1 ∷ []))) }
{
    let left = term_head(store, made, sides.0);
    let right = term_head(store, made, sides.1);
    if left.0 == right.0 {
        return Ok(Step::Goes);
    }
    let pair = Pair {
        left: left.0,
        right: right.0,
    };
    if known.terms.contains(&pair) {
        return Ok(Step::Goes);
    }
    store.shared();
    if let Some(meta) = term_meta(store, left) {
        return Ok(bind(alloc, store, made, meta, right)?);
    }
    if let Some(meta) = term_meta(store, right) {
        return Ok(bind(alloc, store, made, meta, left)?);
    }
    Ok(split(store, tasks, left, right)?)
}
