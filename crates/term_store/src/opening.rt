ghost use Rattle.std.specs.Prelude.{◌≡◌, ◌<◌, ◌≤◌, OnOk, IfOk, IfErr};
ghost use Rattle.zm_logic.specs.Measure.{depth};
ghost use Rattle.term_store.specs.Trees.{HasForm, form_of, Extends};
ghost use Rattle.term_store.specs.Open.{HasPart, opened, closed};
ghost use Rattle.term_store.specs.Fault.{IfDeepAt, fault_of};

use crate::change::Change;
use crate::fault::{EnterFault, OpenFault};
use crate::ids::{FormId, TermId, TyId};
use crate::store::Store;

/// What is put for a binder's index.
#[derive(Clone, Copy, Debug, PartialEq, Eq)]
pub enum Opening {
    OfTerm(TermId),
    OfType(TyId),
}

/// A place that a rule rewrites.
#[derive(Clone, Copy, Debug, PartialEq, Eq)]
pub enum Redex {
    OfTerm(TermId),
    OfForm(FormId),
}

// The fault of a formula that wasn't opened or closed.
fn fault_at(form: FormId, fault: EnterFault) -> OpenFault
    ensures { result ≡ fault_of form fault }
{
    match fault {
        EnterFault::Memory => OpenFault::Memory,
        EnterFault::Deep => OpenFault::Deep { at: form },
    }
}

impl Store {
    /// The formula with the part for index 0, counted on under each binder. `Deep` names the given formula, and comes
    /// exactly where the opened formula would be deeper than 2,000. After an error more nodes may stand in the store.
    pub fn open(&mut self, form: FormId, with: Opening) -> Result<FormId, OpenFault>
        requires has { HasForm self.old form }
        requires part { HasPart self.old with }
        ensures has { IfOk result (HasForm self.new) }
        ensures tree { IfOk result (λ id. form_of self.new id ≡ opened self.old form with) }
        ensures kept { Extends self.old self.new }
        ensures bounded { OnOk result (depth (opened self.old form with) ≤ 2000) }
        ensures deep { IfErr result (IfDeepAt (λ at. (at ≡ form) × (2000 < depth (opened self.old form with)))) }
    {
        match self.change_whole(form, &Change::Opens(with)) {
            Ok(id) => Ok(id),
            Err(fault) => Err(fault_at(form, fault)),
        }
    }

    /// The body over which a quantifier binds the epsilon terms and the type parameters of the number: index 0, counted
    /// on under each binder, for each of them. `Deep` names the given formula, and comes exactly where the closed formula
    /// would be deeper than 2,000. After an error more nodes may stand in the store.
    pub fn close(&mut self, form: FormId, number: u64) -> Result<FormId, OpenFault>
        requires { HasForm self.old form }
        ensures has { IfOk result (HasForm self.new) }
        ensures tree { IfOk result (λ id. form_of self.new id ≡ closed self.old form number) }
        ensures kept { Extends self.old self.new }
        ensures bounded { OnOk result (depth (closed self.old form number) ≤ 2000) }
        ensures deep { IfErr result (IfDeepAt (λ at. (at ≡ form) × (2000 < depth (closed self.old form number)))) }
    {
        match self.change_whole(form, &Change::Closes(number)) {
            Ok(id) => Ok(id),
            Err(fault) => Err(fault_at(form, fault)),
        }
    }
}
