ghost use Rattle.std.specs.Prelude.{◌≡◌, ◌++◌, OnOk, IfOk, length};
ghost use Rattle.indexmap.specs.IndexSet.{IsEmpty};
ghost use Rattle.unify.specs.Task.{type_tasks, term_tasks, PushesParts};
ghost use Rattle.unify.specs.Occurs.{IfFound};

use crate::binding::Binding;
use indexmap::IndexSet;
use std::alloc::{AllocError, Global};
use term_store::{TermId, TyId};

/// What is still to be done: two sides are to become equal, or two sides are noted as equal, once their parts are.
#[derive(Clone, Copy)]
pub(crate) enum Task {
    Types(TyId, TyId),
    Terms(TermId, TermId),
    TypesDone(TyId, TyId),
    TermsDone(TermId, TermId),
}

/// What a task comes to: it is done or gives way to the tasks of its parts, or it makes a binding, or it can't be done.
#[derive(Clone, Copy)]
pub(crate) enum Step {
    Goes,
    Binds(Binding),
    Clashes,
}

/// Two sides, by their places in the store.
#[derive(Clone, Copy, PartialEq, Eq, Hash)]
pub(crate) struct Pair {
    pub(crate) left: usize,
    pub(crate) right: usize,
}

/// The pairs of sides that are equal under the bindings. It spares the work on shared parts that return.
#[derive(Drop)]
pub(crate) struct Known {
    pub(crate) types: IndexSet<Pair>,
    pub(crate) terms: IndexSet<Pair>,
}

impl Known {
    pub(crate) fn new(alloc: Global) -> Known
        ensures types { IsEmpty result.types }
        ensures terms { IsEmpty result.terms }
    {
        Known {
            types: IndexSet::new(alloc),
            terms: IndexSet::new(alloc),
        }
    }
}

/// Adds the tasks for two lists of types of one length, the first pair to be taken first.
pub(crate) fn push_types(
    tasks: &mut Vec<Task>,
    left: &[TyId],
    right: &[TyId],
) -> Result<(), AllocError>
    requires { length left.now ≡ length right.now }
    ensures { OnOk result (tasks.new.items ≡ tasks.old.items ++ type_tasks left.now right.now) }
{
    for i in (0..left.len()).rev() {
        tasks.push(Task::Types(left[i], right[i]))?;
    }
    Ok(())
}

/// Adds the tasks for two lists of terms of one length, the first pair to be taken first.
pub(crate) fn push_terms(
    tasks: &mut Vec<Task>,
    left: &[TermId],
    right: &[TermId],
) -> Result<(), AllocError>
    requires { length left.now ≡ length right.now }
    ensures { OnOk result (tasks.new.items ≡ tasks.old.items ++ term_tasks left.now right.now) }
{
    for i in (0..left.len()).rev() {
        tasks.push(Task::Terms(left[i], right[i]))?;
    }
    Ok(())
}

/// Adds the tasks for the arguments of two trees, types to be taken before terms. The answer tells whether the two have
/// as many arguments.
pub(crate) fn push_parts(
    tasks: &mut Vec<Task>,
    left_types: &[TyId],
    right_types: &[TyId],
    left: &[TermId],
    right: &[TermId],
) -> Result<bool, AllocError>
    ensures { IfOk result (IfFound (PushesParts left_types.now right_types.now left.now right.now tasks.old.items tasks.new.items) (length left_types.now ≡ length right_types.now → length left.now ≡ length right.now → ⊥)) }
{
    if left_types.len() != right_types.len() {
        return Ok(false);
    }
    if left.len() != right.len() {
        return Ok(false);
    }
    push_terms(tasks, left, right)?;
    push_types(tasks, left_types, right_types)?;
    Ok(true)
}
