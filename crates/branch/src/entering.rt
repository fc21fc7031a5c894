ghost use Rattle.std.specs.Prelude.{◌≡◌, OnOk, OnErr, length, take};
ghost use Rattle.zm_logic.specs.Same.{has as spec_has};
ghost use Rattle.term_store.specs.Trees.{HasForm, form_of};
ghost use Rattle.param_store.specs.Numbers.{numbers_with};
ghost use Rattle.param_store.specs.RawOffers.{is_quantified};
ghost use Rattle.param_store.specs.View.{forms_of, HasForms};
ghost use Rattle.branch.specs.Branch as spec;
ghost use Rattle.branch.specs.Tableau.{enter};

use param_store::{Params, as_quantified};
use std::alloc::AllocError;
use term_store::{FormId, FormIds, Store};

/// Whether a formula stands in a list.
pub(crate) fn has(store: &Store, forms: &[FormId], form: FormId) -> bool
    requires forms { HasForms store.now forms.now }
    requires form { HasForm store.now form }
    ensures { result ≡ spec_has (forms_of store.now forms.now) (form_of store.now form) }
{
    store.shared();
    forms.contains(&form)
}

// Adds a formula to a branch, unless it stands there. After an error the branch is as it was.
fn add(store: &Store, forms: &mut FormIds, form: FormId) -> Result<(), AllocError>
    requires forms { HasForms store.now forms.old }
    requires form { HasForm store.now form }
    ensures forms { OnOk result (forms_of store.now forms.new ≡ spec.add (forms_of store.now forms.old) (form_of store.now form)) }
    ensures has { HasForms store.now forms.new }
{
    if has(store, forms.as_slice(), form) {
        return Ok(());
    }
    forms.push(form)?;
    Ok(())
}

/// Adds formulas to a branch, each unless it stands there. After an error some of them are added.
pub(crate) fn add_all(store: &Store, forms: &mut FormIds, more: &[FormId]) -> Result<(), AllocError>
    requires forms { HasForms store.now forms.old }
    requires more { HasForms store.now more.now }
    ensures forms { OnOk result (forms_of store.now forms.new ≡ spec.extend (forms_of store.now forms.old) (forms_of store.now more.now)) }
    ensures has { HasForms store.now forms.new }
{
    for form in more {
        add(store, forms, *form)?;
    }
    Ok(())
}

// Gives a formula its number where it is quantified.
fn number(store: &Store, params: &mut Params, form: FormId) -> Result<(), AllocError>
    requires { HasForm store.now form }
    ensures numbers { OnOk result (params.new ≡ numbers_with (is_quantified (form_of store.now form)) params.old form) }
    ensures refused { OnErr result (params.new ≡ params.old) }
{
    match as_quantified(store, form) {
        Some(_) => {
            params.number_for(form)?;
            Ok(())
        }
        None => Ok(()),
    }
}

// Gives the quantified formulas of a list their numbers. After an error some of them have theirs.
fn number_each(store: &Store, params: &mut Params, forms: &[FormId]) -> Result<(), AllocError>
    requires numbered { HasForms store.now params.old }
    requires forms { HasForms store.now forms.now }
    ensures entered { OnOk result (forms_of store.now params.new ≡ enter (forms_of store.now params.old) (forms_of store.now forms.now)) }
    ensures kept { take (length params.old) params.new ≡ params.old }
    ensures has { HasForms store.now params.new }
{
    store.shared();
    for form in forms {
        number(store, params, *form)?;
    }
    Ok(())
}

/// Gives the quantified formulas of a list their numbers. After an error the numbers are as they were.
pub(crate) fn number_all(
    store: &Store,
    params: &mut Params,
    forms: &[FormId],
) -> Result<(), AllocError>
    requires numbered { HasForms store.now params.old }
    requires forms { HasForms store.now forms.now }
    ensures entered { OnOk result (forms_of store.now params.new ≡ enter (forms_of store.now params.old) (forms_of store.now forms.now)) }
    ensures refused { OnErr result (params.new ≡ params.old) }
    ensures has { HasForms store.now params.new }
{
    let count = params.count();
    match number_each(store, params, forms) {
        Ok(()) => Ok(()),
        Err(fault) => {
            params.keep_first(count);
            Err(fault)
        }
    }
}
