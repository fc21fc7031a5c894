ghost use Rattle.std.specs.Prelude.{◌≡◌, ◌++◌, List, ◌∷◌, [], All, IfOk, IfSome, IfNone};
ghost use Rattle.unify.specs.Binding as trees;
ghost use Rattle.unify.specs.Unification.{Unifies};
ghost use Rattle.unify.specs.Pending.{Each};
ghost use Rattle.unify.specs.View.{HasBinding, latest};
ghost use Rattle.unify.specs.Task.{IfStep, HasTask, IsState, GivesWay, MakesBinding, Clash, equations, marks};

use crate::binding::Binding;
use crate::task::{Known, Pair, Step, Task};
use crate::terms::solve_terms;
use crate::types::solve_types;
use std::alloc::{AllocError, Global};
use term_store::Store;

// Takes one task.
fn take_task(
    alloc: Global,
    store: &Store,
    made: &[Binding],
    known: &mut Known,
    tasks: &mut Vec<Task>,
    task: Task,
) -> Result<Step, AllocError>
    requires state { IsState store.now made.now known.old (tasks.old.items ++ task ∷ []) }
    ensures { IfOk result (IfStep (GivesWay store.now made.now (tasks.old.items ++ task ∷ []) known.new tasks.new.items) (λ b. MakesBinding store.now made.now (tasks.old.items ++ task ∷ []) b known.new tasks.new.items) (Clash store.now made.now (tasks.old.items ++ task ∷ []))) }
{
    match task {
        Task::Types(left, right) => solve_types(alloc, store, made, known, tasks, (left, right)),
        Task::Terms(left, right) => solve_terms(alloc, store, made, known, tasks, (left, right)),
        Task::TypesDone(left, right) => {
            known.types.insert(Pair {
                left: left.0,
                right: right.0,
            })?;
            Ok(Step::Goes)
        }
        Task::TermsDone(left, right) => {
            known.terms.insert(Pair {
                left: left.0,
                right: right.0,
            })?;
            Ok(Step::Goes)
        }
    }
}

// Takes tasks until one makes a binding or can't be done. `Goes` says that none is left.
fn take_tasks(
    alloc: Global,
    store: &Store,
    made: &[Binding],
    known: &mut Known,
    tasks: &mut Vec<Task>,
) -> Result<Step, AllocError>
    requires state { IsState store.now made.now known.old tasks.old.items }
    ensures { IfOk result (IfStep (Unifies (latest store.now made.now) (equations store.now tasks.old.items) (latest store.now made.now)) (λ b. MakesBinding store.now made.now tasks.old.items b known.new tasks.new.items) (Clash store.now made.now tasks.old.items)) }
{
    while let Some(task) = tasks.pop() {
        match take_task(alloc, store, made, known, tasks, task)? {
            Step::Goes => {}
            Step::Binds(binding) => return Ok(Step::Binds(binding)),
            Step::Clashes => return Ok(Step::Clashes),
        }
    }
    Ok(Step::Goes)
}

/// The bindings that the tasks give, in the order in which they are made, as they are made.
pub(crate) fn unify(
    alloc: Global,
    store: &Store,
    tasks: Vec<Task>,
) -> Result<Option<Vec<Binding>>, AllocError>
    requires has { Each (HasTask store.now) tasks.items }
    requires unmarked { marks tasks.items ≡ 0 }
    ensures have { IfOk result (λ found. IfSome found (λ made. All (HasBinding store.now) made.items)) }
    ensures some { IfOk result (λ found. IfSome found (λ made. Unifies [] (equations store.now tasks.items) (latest store.now made.items))) }
    ensures none { IfOk result (λ found. IfNone found ((made : List trees.Binding) → Unifies [] (equations store.now tasks.items) made → ⊥)) }
{
    let mut tasks = tasks;
    let mut made: Vec<Binding> = Vec::new(alloc);
    let mut known = Known::new(alloc);
    'bindings: loop {
        match take_tasks(alloc, store, &made, &mut known, &mut tasks)? {
            Step::Goes => return Ok(Some(made)),
            Step::Binds(binding) => made.push(binding)?,
            Step::Clashes => return Ok(None),
        }
    }
}
