ghost use Rattle.std.specs.Prelude.{◌≡◌, [], OnOk, OnErr, IfOk};
ghost use Rattle.std.specs.List.{list_any};
ghost use Rattle.zm_logic.specs.Same.{has as spec_has};
ghost use Rattle.term_store.specs.Trees.{HasForm, form_of};
ghost use Rattle.param_store.specs.Numbers.{same_id, with_form};
ghost use Rattle.param_store.specs.View.{forms_of, HasForms};
ghost use Rattle.branch.specs.Branch as spec;

use indexmap::IndexSet;
use std::alloc::{AllocError, Global};
use std::marker::Model;
use term_store::{FormId, Store};

/// Distinct formulas of a store in the order in which they were added, each found by its id. Contracts see the list.
#[derive(Drop)]
pub struct FormSet {
    ids: IndexSet<FormId>,
}

impl Model for FormSet {
    ghost use Rattle.std.specs.Prelude.{List};
    ghost use Rattle.term_store.specs.declared.ids.FormId.{FormId};

    ghost Value = { List FormId };

    ghost view = { λ s. s.ids.keys };
}

impl FormSet {
    /// No formulas. It takes no memory.
    pub fn new(alloc: Global) -> FormSet
        ensures { result ≡ [] }
    {
        FormSet {
            ids: IndexSet::new(alloc),
        }
    }

    /// No formulas, with room for so many. The one error is want of memory.
    pub fn with_room(alloc: Global, count: usize) -> Result<FormSet, AllocError>
        ensures { IfOk result (λ set. set ≡ []) }
    {
        let ids = IndexSet::with_capacity(alloc, count)?;
        Ok(FormSet { ids })
    }

    /// The formulas, the oldest first. It takes no memory.
    pub fn forms(&self) -> &[FormId]
        ensures { result.now ≡ self.now }
    {
        self.ids.as_slice()
    }

    /// Whether an id is there. It takes no memory.
    pub fn has_id(&self, form: FormId) -> bool
        ensures { result ≡ list_any (same_id form) self.now }
    {
        self.ids.contains(&form)
    }

    /// Adds an id at the end, unless it is there. After an error the set is as it was.
    pub fn add_id(&mut self, form: FormId) -> Result<(), AllocError>
        ensures ids { OnOk result (self.new ≡ with_form self.old form) }
        ensures refused { OnErr result (self.new ≡ self.old) }
    {
        self.ids.insert(form)?;
        Ok(())
    }

    /// Whether a formula is there. It takes no memory.
    pub fn has(&self, store: &Store, form: FormId) -> bool
        requires forms { HasForms store.now self.now }
        requires form { HasForm store.now form }
        ensures { result ≡ spec_has (forms_of store.now self.now) (form_of store.now form) }
    {
        store.shared();
        self.has_id(form)
    }

    /// Adds a formula at the end, unless it is there. After an error the set is as it was.
    pub fn add(&mut self, store: &Store, form: FormId) -> Result<(), AllocError>
        requires forms { HasForms store.now self.old }
        requires form { HasForm store.now form }
        ensures forms { OnOk result (forms_of store.now self.new ≡ spec.add (forms_of store.now self.old) (form_of store.now form)) }
        ensures has { HasForms store.now self.new }
        ensures refused { OnErr result (self.new ≡ self.old) }
    {
        store.shared();
        self.add_id(form)
    }
}
