ghost use Rattle.std.specs.Prelude.{◌≡◌, [], ◌∷◌, ◌++◌, cond, OnOk, IfOk};
ghost use Rattle.zm_logic.specs.Same.{has as spec_has};
ghost use Rattle.term_store.specs.Trees.{HasForm, form_of};
ghost use Rattle.std.specs.Option.{option_to_list};
ghost use Rattle.param_store.specs.View.{forms_of, HasForms};
ghost use Rattle.branch.specs.Tableau as spec;

use crate::lists::has;
use std::alloc::{AllocError, Global};
use term_store::{FormId, FormIds, Store};

/// What a rule acts on: a formula, or two.
pub(crate) fn acted(
    alloc: Global,
    first: FormId,
    second: Option<FormId>,
) -> Result<FormIds, AllocError>
    ensures { IfOk result (λ ids. ids ≡ first ∷ option_to_list second) }
{
    let mut ids = FormIds::new(alloc);
    ids.push(first)?;
    if let Some(second) = second {
        ids.push(second)?;
    }
    Ok(ids)
}

// Adds a formula to a list, unless it stands among the known ones.
fn push_unless(
    store: &Store,
    known: &[FormId],
    form: FormId,
    all: &mut FormIds,
) -> Result<(), AllocError>
    requires known { HasForms store.now known.now }
    requires form { HasForm store.now form }
    requires all { HasForms store.now all.old }
    ensures forms { OnOk result (forms_of store.now all.new ≡ cond (spec_has (forms_of store.now known.now) (form_of store.now form))
        (forms_of store.now all.old) (forms_of store.now all.old ++ form_of store.now form ∷ [])) }
    ensures has { OnOk result (HasForms store.now all.new) }
{
    if has(store, known, form) {
        return Ok(());
    }
    all.push(form)?;
    Ok(())
}

/// The formulas of a list that don't stand among the known ones.
pub(crate) fn without(
    alloc: Global,
    store: &Store,
    known: &[FormId],
    forms: &[FormId],
) -> Result<FormIds, AllocError>
    requires known { HasForms store.now known.now }
    requires forms { HasForms store.now forms.now }
    ensures forms { IfOk result (λ all. forms_of store.now all ≡ spec.without (forms_of store.now known.now) (forms_of store.now forms.now)) }
    ensures has { IfOk result (HasForms store.now) }
{
    let mut all = FormIds::new(alloc);
    for form in forms {
        push_unless(store, known, *form, &mut all)?;
    }
    Ok(all)
}

/// Whether no formula of the one list stands in the other.
pub(crate) fn is_apart(store: &Store, fresh: &[FormId], used: &[FormId]) -> bool
    requires fresh { HasForms store.now fresh.now }
    requires used { HasForms store.now used.now }
    ensures { result ≡ spec.is_apart (forms_of store.now fresh.now) (forms_of store.now used.now) }
{
    for form in fresh {
        if has(store, used, *form) {
            return false;
        }
    }
    true
}
