ghost use Rattle.std.specs.Prelude.{◌≡◌, ◌≢◌, List, [], ◌∷◌, All, OnOk, OnErr, IfOk, IfErr, IfSome, IfNone};
ghost use Rattle.term_store.specs.Trees.{HasForm, HasTerm, form_of, term_of, Extends};
ghost use Rattle.unify.specs.Binding as trees;
ghost use Rattle.unify.specs.Substitution.{Substitution, put_form, put_term};
ghost use Rattle.unify.specs.Equation.{Equation, FormParts};
ghost use Rattle.unify.specs.Pending.{Each};
ghost use Rattle.unify.specs.Unification.{Unifies, UnifiesForms, UnifiesTerms, AreAtomsOrEqualities};
ghost use Rattle.unify.specs.Task.{HasTask, equations, marks};
ghost use Rattle.unify.specs.Occurs.{IfFound};
ghost use Rattle.unify.specs.Answer.{IsAnswer, IsTooDeep, IfDeepAt};

use crate::binding::{Bindings, MguFault};
use crate::solving::solved_bindings;
use crate::task::{Task, push_parts};
use crate::unifying::unify;
use std::alloc::{AllocError, Global};
use term_store::{FormId, FormNode, Store, TermId};

// The solved bindings that the tasks give.
fn bindings_of(
    alloc: Global,
    store: &mut Store,
    tasks: Vec<Task>,
) -> Result<Option<Bindings>, MguFault>
    requires has { Each (HasTask store.old) tasks.items }
    requires unmarked { marks tasks.items ≡ 0 }
    ensures some { IfOk result (λ found. IfSome found (λ all. (made : List trees.Binding) × Unifies [] (equations store.old tasks.items) made × IsAnswer store.new made all)) }
    ensures none { IfOk result (λ found. IfNone found ((made : List trees.Binding) → Unifies [] (equations store.old tasks.items) made → ⊥)) }
    ensures deep { IfErr result (IfDeepAt (λ at. (made : List trees.Binding) × Unifies [] (equations store.old tasks.items) made × IsTooDeep store.new made at)) }
    ensures kept { Extends store.old store.new }
{
    match unify(alloc, store, tasks)? {
        Some(made) => Ok(Some(solved_bindings(alloc, store, &made)?)),
        None => Ok(None),
    }
}

// Adds the tasks for the parts of two atoms or two equalities. The answer tells whether the two have parts in common.
fn push_form_parts(
    store: &Store,
    tasks: &mut Vec<Task>,
    left: FormId,
    right: FormId,
) -> Result<bool, AllocError>
    requires has { HasForm store.now left }
    requires has_right { HasForm store.now right }
    requires alike { AreAtomsOrEqualities (form_of store.now left) (form_of store.now right) }
    requires empty { tasks.old.items ≡ [] }
    ensures parts { IfOk result (IfFound (FormParts (form_of store.now left) (form_of store.now right) (equations store.now tasks.new.items) × Each (HasTask store.now) tasks.new.items × (marks tasks.new.items ≡ 0)) ((es : List Equation) → FormParts (form_of store.now left) (form_of store.now right) es → ⊥)) }
{
    match (store.form_node(left), store.form_node(right)) {
        (FormNode::Atom(p, ss, us), FormNode::Atom(q, ts, vs)) => {
            if p.0 != q.0 {
                return Ok(false);
            }
            push_parts(
                tasks,
                ss.as_slice(),
                ts.as_slice(),
                us.as_slice(),
                vs.as_slice(),
            )
        }
        (FormNode::Equal(s, a, b), FormNode::Equal(t, c, d)) => {
            tasks.push(Task::Terms(*b, *d))?;
            tasks.push(Task::Terms(*a, *c))?;
            tasks.push(Task::Types(*s, *t))?;
            Ok(true)
        }
        (_, _) => Ok(false),
    }
}

/// The most general unifier of two atoms, or of two equalities: its bindings in the order in which they are made, each
/// with all bindings put into its right side, and none exactly where no substitution makes the two formulas one.
///
/// The equations between the parts are taken from left to right, types before terms, and of an equality its type, its
/// left sides and its right sides. Sides that are equal are dropped, a metavariable on the left is bound, else one on
/// the right, and otherwise the symbols must agree. Nothing is put into the type that a parameter carries.
///
/// `Deep` comes exactly where there is a unifier with a right side deeper than 2,000. After an error more trees may
/// stand in the store; the ids that were given keep theirs.
pub fn mgu(
    alloc: Global,
    store: &mut Store,
    left: FormId,
    right: FormId,
) -> Result<Option<Bindings>, MguFault>
    requires has { HasForm store.old left }
    requires has_right { HasForm store.old right }
    requires alike { AreAtomsOrEqualities (form_of store.old left) (form_of store.old right) }
    ensures some { IfOk result (λ found. IfSome found (λ all. (made : List trees.Binding) × UnifiesForms (form_of store.old left) (form_of store.old right) made × IsAnswer store.new made all)) }
    ensures none { IfOk result (λ found. IfNone found ((a : Substitution) → put_form a (form_of store.old left) ≢ put_form a (form_of store.old right))) }
    ensures deep { IfErr result (IfDeepAt (λ at. (made : List trees.Binding) × UnifiesForms (form_of store.old left) (form_of store.old right) made × IsTooDeep store.new made at)) }
    ensures kept { Extends store.old store.new }
{
    let mut tasks: Vec<Task> = Vec::new(alloc);
    if !push_form_parts(store, &mut tasks, left, right)? {
        return Ok(None);
    }
    bindings_of(alloc, store, tasks)
}

/// The most general unifier of two terms, with the answers of `mgu`.
pub fn mgu_terms(
    alloc: Global,
    store: &mut Store,
    left: TermId,
    right: TermId,
) -> Result<Option<Bindings>, MguFault>
    requires has { HasTerm store.old left }
    requires has_right { HasTerm store.old right }
    ensures some { IfOk result (λ found. IfSome found (λ all. (made : List trees.Binding) × UnifiesTerms (term_of store.old left) (term_of store.old right) made × IsAnswer store.new made all)) }
    ensures none { IfOk result (λ found. IfNone found ((a : Substitution) → put_term a (term_of store.old left) ≢ put_term a (term_of store.old right))) }
    ensures deep { IfErr result (IfDeepAt (λ at. (made : List trees.Binding) × UnifiesTerms (term_of store.old left) (term_of store.old right) made × IsTooDeep store.new made at)) }
    ensures kept { Extends store.old store.new }
{
    let mut tasks: Vec<Task> = Vec::new(alloc);
    tasks.push(Task::Terms(left, right))?;
    bindings_of(alloc, store, tasks)
}
