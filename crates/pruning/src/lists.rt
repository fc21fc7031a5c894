ghost use Rattle.std.specs.Prelude.{◌≡◌, take, length, OnOk};
ghost use Rattle.zm_logic.specs.Same.{has as spec_has};
ghost use Rattle.term_store.specs.Trees.{HasForm, form_of};
ghost use Rattle.param_store.specs.View.{forms_of, HasForms};
ghost use Rattle.branch.specs.Branch as spec;

use std::alloc::AllocError;
use term_store::{FormId, FormIds, Store};

/// Whether a formula stands in a list.
pub(crate) fn has(store: &Store, forms: &[FormId], form: FormId) -> bool
    requires forms { HasForms store.now forms.now }
    requires form { HasForm store.now form }
    ensures { result ≡ spec_has (forms_of store.now forms.now) (form_of store.now form) }
{
    store.shared();
    forms.contains(&form)
}

// Adds a formula to the end of a branch, unless it stands there.
fn add(store: &Store, forms: &mut FormIds, form: FormId) -> Result<(), AllocError>
    requires forms { HasForms store.now forms.old }
    requires form { HasForm store.now form }
    ensures forms { OnOk result (forms_of store.now forms.new ≡ spec.add (forms_of store.now forms.old) (form_of store.now form)) }
    ensures has { OnOk result (HasForms store.now forms.new) }
    ensures kept { OnOk result (take (length forms.old) forms.new ≡ forms.old) }
{
    if has(store, forms.as_slice(), form) {
        return Ok(());
    }
    forms.push(form)?;
    Ok(())
}

/// Adds formulas to the end of a branch, each unless it stands there.
pub(crate) fn add_all(store: &Store, forms: &mut FormIds, more: &[FormId]) -> Result<(), AllocError>
    requires forms { HasForms store.now forms.old }
    requires more { HasForms store.now more.now }
    ensures forms { OnOk result (forms_of store.now forms.new ≡ spec.extend (forms_of store.now forms.old) (forms_of store.now more.now)) }
    ensures has { OnOk result (HasForms store.now forms.new) }
    ensures kept { OnOk result (take (length forms.old) forms.new ≡ forms.old) }
{
    for form in more {
        add(store, forms, *form)?;
    }
    Ok(())
}

/// Keeps the first formulas of a list, so many. It takes no memory.
pub(crate) fn keep_first(forms: &mut FormIds, count: usize)
    ensures { forms.new ≡ take count forms.old }
{
    while forms.len() > count {
        forms.pop();
    }
}
