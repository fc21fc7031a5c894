ghost use Rattle.std.specs.Prelude.{◌≡◌, ◌≤◌, ◌<◌, IfOk, IfErr, OnOk, IfSome, is_some};
ghost use Rattle.zm_logic.specs.View.{form_tree};
ghost use Rattle.zm_logic.specs.Measure.{depth};
ghost use Rattle.term_store.specs.Trees.{HasForm, form_of, Extends};
ghost use Rattle.rule_index.specs.View.{rules_of};
ghost use Rattle.normaliser.specs.NextStep.{next_step};
ghost use Rattle.normaliser.specs.NormalForm.{normal_form};
ghost use Rattle.normaliser.specs.View.{some_form};
ghost use Rattle.normaliser.specs.Answered.{some_tree, IsTooDeep, IfAnswered, IfDeepAt, IfSpentFrom};

use crate::forms;
use rule_index::Index;
use std::alloc::{AllocError, Global};
use term_store::{EnterFault, FormId, Store};
use zm_logic::Form;

/// Why a formula has no normal form within a limit.
#[derive(Clone, Copy, Debug, PartialEq, Eq)]
pub enum NormalStop {
    /// Memory is wanting.
    Memory,
    /// More steps can be made from the formula than the limit has.
    Spent { from: FormId },
    /// The next step leads to a formula that is deeper than 2,000. The last formula before it is named.
    Deep { at: FormId },
}

impl From<AllocError> for NormalStop {
    ghost use Rattle.std.specs.Prelude.{◌≡◌};
    ghost use Rattle.normaliser.specs.declared.normalising.NormalStop.TheVariants.{Memory};

    ghost from_gives = { λ _ e. e ≡ Memory };

    fn from(_e: AllocError) -> NormalStop {
        NormalStop::Memory
    }
}

/// A stored formula is no deeper than 2,000. It does nothing.
pub(crate) fn stored(store: &Store, form: FormId)
    requires { HasForm store.now form }
    ensures { depth (form_of store.now form) ≤ 2000 }
{
    let _ = store.form_node(form);
}

// The step of a stored formula, as a tree.
fn next_of(
    alloc: Global,
    store: &Store,
    index: &Index,
    form: FormId,
) -> Result<Option<Form>, AllocError>
    requires { HasForm store.now form }
    ensures { IfOk result (λ m. some_form m ≡ next_step (rules_of index.now) (form_of store.now form)) }
{
    let tree = store.form_tree(form)?;
    forms::next_step(alloc, index, &tree)
}

// Whether a stored formula has a step.
#[tactic(auto, using(crate::proofs::Stepping::some_is_some))]
fn has_step(alloc: Global, store: &Store, index: &Index, form: FormId) -> Result<bool, AllocError>
    requires { HasForm store.now form }
    ensures { IfOk result (λ has. has ≡ is_some (next_step (rules_of index.now) (form_of store.now form))) }
{
    let next = next_of(alloc, store, index, form)?;
    let has = next.is_some();
    drop(next);
    Ok(has)
}

// Stores what the step of a stored formula leads to. `Deep` names that formula.
fn enter_next(store: &mut Store, next: Form, form: FormId) -> Result<FormId, NormalStop>
    ensures has { IfOk result (HasForm store.new) }
    ensures tree { IfOk result (λ id. form_of store.new id ≡ form_tree next) }
    ensures shallow { OnOk result (depth (form_tree next) ≤ 2000) }
    ensures deep { IfErr result (IfDeepAt (λ at. (at ≡ form) × (2000 < depth (form_tree next)))) }
    ensures spent { IfErr result (IfSpentFrom (λ _. ⊥)) }
    ensures kept { Extends store.old store.new }
{
    let entered = store.enter(&next);
    drop(next);
    match entered {
        Ok(id) => Ok(id),
        Err(EnterFault::Memory) => Err(NormalStop::Memory),
        Err(EnterFault::Deep) => Err(NormalStop::Deep { at: form }),
    }
}

// What the step of a stored formula leads to, stored. `Deep` names the formula, where that is deeper than 2,000.
fn step(
    alloc: Global,
    store: &mut Store,
    index: &Index,
    form: FormId,
) -> Result<Option<FormId>, NormalStop>
    requires { HasForm store.old form }
    ensures has { IfOk result (λ next. IfSome next (HasForm store.new)) }
    ensures step { IfOk result (λ next. some_tree store.new next ≡ next_step (rules_of index.now) (form_of store.old form)) }
    ensures shallow { IfOk result (λ next. IfSome next (λ id. depth (form_of store.new id) ≤ 2000)) }
    ensures deep { IfErr result (IfDeepAt (λ at. (at ≡ form) × IsTooDeep (next_step (rules_of index.now) (form_of store.old form)))) }
    ensures spent { IfErr result (IfSpentFrom (λ _. ⊥)) }
    ensures kept { Extends store.old store.new }
{
    match next_of(alloc, store, index, form)? {
        None => Ok(None),
        Some(next) => match enter_next(store, next, form) {
            Ok(id) => Ok(Some(id)),
            Err(stop) => Err(stop),
        },
    }
}

/// The leftmost innermost normal form of a formula, with the number of steps that lead to it, one step after the other.
/// `Spent` comes exactly where more than `limit` steps can be made from the formula, none of the first `limit` leading to
/// one that is deeper than 2,000. `Deep` comes exactly where a step within the limit leads to such a formula, and names
/// the last formula before it. After an error more nodes may stand in the store.
#[tactic(auto, using(crate::proofs::Stepping::led_start, crate::proofs::Stepping::led_on, crate::proofs::Stepping::led_has, crate::proofs::Stepping::led_kept))]
pub(crate) fn normal(
    alloc: Global,
    store: &mut Store,
    index: &Index,
    form: FormId,
    limit: u32,
) -> Result<(FormId, u32), NormalStop>
    requires { HasForm store.old form }
    ensures has { IfOk result (λ r. HasForm store.new r.0) }
    ensures has_at { IfErr result (IfDeepAt (HasForm store.new)) }
    ensures from { IfErr result (IfSpentFrom (λ from. from ≡ form)) }
    ensures answer { IfAnswered store.new (λ a. a ≡ normal_form (rules_of index.now) limit (form_of store.old form)) result }
    ensures kept { Extends store.old store.new }
{
    stored(store, form);
    let mut reached = form;
    for steps in 0..limit {
        match step(alloc, store, index, reached) {
            Ok(Some(next)) => reached = next,
            Ok(None) => return Ok((reached, steps)),
            Err(stop) => return Err(stop),
        }
    }
    if has_step(alloc, store, index, reached)? {
        return Err(NormalStop::Spent { from: form });
    }
    Ok((reached, limit))
}
