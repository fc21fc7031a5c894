//! Where a rule's term is written.

ghost use Rattle.std.specs.Prelude.{◌≡◌, IfOk};
ghost use Rattle.zm_logic.specs.View.{type_tree, term_tree, form_tree};
ghost use Rattle.zm_logic.specs.Tree as plain;
ghost use Rattle.zm_logic.specs.Opening as opening;
ghost use Rattle.lp_signature.specs.Prelude as prelude;
ghost use Rattle.lp_signature.specs.Translation as translation;
ghost use Rattle.lp_signature.specs.View.{scope_tree};
ghost use Rattle.lp_translation.specs.ProofOf.{earliest};
ghost use Rattle.proof_terms.specs.Made.{Makes};
ghost use Rattle.lp_translation.specs.ViewPlace.{symbols_at, hypotheses_at, written, written_entered, written_term, written_type};

use crate::hypotheses::{Fact, earliest_proof};
use lp_signature::{Bound, translate_form, translate_term, translate_type};
use proof_terms::parts::{Made, terms_of};
use std::alloc::{AllocError, Global};
use zm_logic::{Form, Symbol, Term, Ty, open_form, open_type};

/// Where a rule's term is written.
#[derive(Clone, Copy)]
pub struct Place<'a> {
    /// The problem's symbols.
    pub symbols: &'a [Symbol],
    /// The parameters that variables stand for below the rule.
    pub scope: &'a [Bound],
    /// Those above it: one more where the rule brings a parameter.
    pub entered: &'a [Bound],
    /// What proves the formulas of the sequent.
    pub facts: &'a [Fact<'a>],
    /// The number of the next variable.
    pub next: u32,
}

/// The proof of the formula.
pub fn proof_at(alloc: Global, place: &Place, form: &Form) -> Made
    ensures { Makes result (earliest (hypotheses_at place.now) (form_tree form.now)) }
{
    earliest_proof(alloc, place.facts, form)
}

/// The formula, written.
pub fn form_at(alloc: Global, place: &Place, form: &Form) -> Made
    ensures { Makes result (written place.now (form_tree form.now)) }
{
    translate_form(alloc, place.symbols, place.scope, form)
}

/// The term, written.
pub fn term_at(alloc: Global, place: &Place, term: &Term) -> Made
    ensures { Makes result (written_term place.now (term_tree term.now)) }
{
    translate_term(alloc, place.symbols, place.scope, term)
}

/// The type, written.
pub fn type_at(alloc: Global, place: &Place, ty: &Ty) -> Made
    ensures { Makes result (written_type place.now (type_tree ty.now)) }
{
    translate_type(alloc, place.symbols, place.scope, 0, ty)
}

/// The terms of the type.
pub fn terms_at(alloc: Global, place: &Place, ty: &Ty) -> Made
    ensures { Makes result (prelude.term (written_type place.now (type_tree ty.now))) }
{
    terms_of(alloc, type_at(alloc, place, ty))
}

// The formula, written in the scope, where memory was not wanting for it.
fn formula_in(alloc: Global, place: &Place, scope: &[Bound], form: Result<Form, AllocError>) -> Made
    ensures { (f : plain.Form) → IfOk form (λ g. form_tree g ≡ f)
        → Makes result (translation.form_of (symbols_at place.now) (scope_tree scope.now) f) }
{
    let form = form?;
    let written = translate_form(alloc, place.symbols, scope, &form);
    drop(form);
    written
}

/// The body at the term, written.
pub fn instance_at(alloc: Global, place: &Place, body: &Form, term: &Term) -> Made
    ensures { Makes result (written place.now (opening.at_term (form_tree body.now) (term_tree term.now))) }
{
    let instance = open_form(alloc, body, term);
    formula_in(alloc, place, place.scope, instance)
}

/// The body at the type, written.
pub fn type_instance_at(alloc: Global, place: &Place, body: &Form, ty: &Ty) -> Made
    ensures { Makes result (written place.now (opening.at_type (form_tree body.now) (type_tree ty.now))) }
{
    let instance = open_type(alloc, body, ty);
    formula_in(alloc, place, place.scope, instance)
}

/// The body at the rule's parameter, written above the rule.
pub fn parameter_instance_at(alloc: Global, place: &Place, body: &Form, term: &Term) -> Made
    ensures { Makes result (written_entered place.now (opening.at_term (form_tree body.now) (term_tree term.now))) }
{
    let instance = open_form(alloc, body, term);
    formula_in(alloc, place, place.entered, instance)
}

/// The body at the rule's type parameter, written above the rule.
pub fn type_parameter_instance_at(alloc: Global, place: &Place, body: &Form, ty: &Ty) -> Made
    ensures { Makes result (written_entered place.now (opening.at_type (form_tree body.now) (type_tree ty.now))) }
{
    let instance = open_type(alloc, body, ty);
    formula_in(alloc, place, place.entered, instance)
}
