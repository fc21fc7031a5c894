ghost use Rattle.std.specs.Prelude.{◌≡◌, [], length, take, slice_get, Some, OnOk, OnErr, IfOk, IfSome};
ghost use Rattle.param_store.specs.Numbers.{number_in, with_form};

use indexmap::IndexSet;
use std::alloc::{AllocError, Global};
use std::marker::Model;
use term_store::FormId;

/// The numbers of the quantified formulas of a search: each formula has one number, from 0 on without gaps. The number
/// stands for the formula's epsilon term or type parameter where it is of delta kind, and for its metavariable where it
/// is of gamma kind.
///
/// Contracts see the list of the formulas, in which a number is a place.
#[derive(Drop)]
pub struct Params {
    forms: IndexSet<FormId>,
}

impl Model for Params {
    ghost use Rattle.std.specs.Prelude.{List};
    ghost use Rattle.term_store.specs.declared.ids.FormId.{FormId};

    ghost Value = { List FormId };

    ghost view = { λ p. p.forms.keys };
}

impl Params {
    /// No numbers. It takes no memory.
    pub fn new(alloc: Global) -> Params
        ensures { result ≡ [] }
    {
        Params {
            forms: IndexSet::new(alloc),
        }
    }

    /// The number of a quantified formula, a new one exactly where it has none: then it is the number of all that were
    /// given so far. The one error is want of memory, and after it the numbers are as they were.
    pub fn number_for(&mut self, form: FormId) -> Result<u64, AllocError>
        ensures number { IfOk result (λ n. n ≡ number_in self.old form) }
        ensures given { IfOk result (λ n. slice_get self.new n ≡ Some form) }
        ensures numbers { OnOk result (self.new ≡ with_form self.old form) }
        ensures err { OnErr result (self.new ≡ self.old) }
    {
        let (place, _) = self.forms.insert_full(form)?;
        Ok(place as u64)
    }

    /// The formula that has the number. It takes no memory.
    pub fn form_of(&self, number: u64) -> Option<FormId>
        ensures form { result ≡ slice_get self.now number }
        ensures number { IfSome result (λ form. number_in self.now form ≡ number) }
    {
        // the set tells that its formulas are distinct
        let _ = self.forms.len();
        self.forms.get_index(number as usize).copied()
    }

    /// How many numbers were given. It takes no memory.
    pub fn count(&self) -> u64
        ensures { result ≡ length self.now }
    {
        self.forms.len() as u64
    }

    /// Takes the numbers from `count` on out of the table. It takes no memory.
    pub fn keep_first(&mut self, count: u64)
        ensures { self.new ≡ take count self.old }
    {
        self.forms.truncate(count as usize);
    }
}
