//! What proves the formulas of a sequent.

ghost use Rattle.std.specs.Prelude.{◌≡◌, ◌+◌, List, length, map, take, IfOk, OnOk};
ghost use Rattle.lp_terms.specs.View.{term_of};
ghost use Rattle.zm_logic.specs.View.{form_tree};
ghost use Rattle.lp_translation.specs.ProofOf.{Hypotheses, earliest, bound_by};
ghost use Rattle.lp_translation.specs.View.{proof_of, found_proof, with_fact, hypotheses_of};
ghost use Rattle.lp_translation.specs.ViewOldest.{oldest_or, wants, forms_of};

use crate::numbers::next;
use lp_signature::premise_name;
use lp_terms::Lp;
use std::alloc::{AllocError, Global};
use zm_logic::Form;

/// What proves a formula.
#[derive(Clone, Copy, Debug, PartialEq, Eq)]
pub enum Proof {
    /// The constant of the kept premise of this number, the first being 0.
    Premise(usize),
    /// The free variable.
    Variable(u32),
}

/// A fact about the formulas of a sequent.
#[derive(Clone, Copy)]
pub enum Fact<'a> {
    /// The formula has a proof of its own.
    Proved(&'a Form, Proof),
    /// What proves the first formula proves the second one too.
    Converted(&'a Form, &'a Form),
}

/// Facts, the last one last. Contracts see the hypotheses that they make.
pub type Facts<'a> = Vec<Fact<'a>>;

// The proof as a term.
fn proof_term(alloc: Global, found: Option<Proof>) -> Result<Lp, AllocError>
    ensures { IfOk result (λ t. term_of t ≡ found_proof found) }
{
    match found {
        Some(Proof::Premise(number)) => Ok(Lp::Const(premise_name(alloc, number)?)),
        Some(Proof::Variable(number)) => Ok(Lp::Free(number)),
        None => Ok(Lp::Sort),
    }
}

// Whether the formula is one of those wanted.
#[tactic(auto, using(crate::proofs::BuildingHypotheses::wants_here, crate::proofs::BuildingHypotheses::wants_on, crate::proofs::BuildingHypotheses::wants_none))]
fn is_wanted(wanted: &[&Form], form: &Form) -> bool
    ensures { result ≡ wants (forms_of wanted.now) (form_tree form.now) }
{
    for other in wanted {
        if form.same(other) {
            return true;
        }
    }
    false
}

// What is found after one more fact is looked at, from the last one on: a proof of a wanted formula is older than what was
// found, and what proves a wanted formula is found by the formula that it comes from.
#[tactic(auto, using(crate::proofs::BuildingHypotheses::looked_wanted, crate::proofs::BuildingHypotheses::looked_unwanted, crate::proofs::BuildingHypotheses::looked_proved, crate::proofs::BuildingHypotheses::looked_other))]
fn look<'a>(
    wanted: &mut Vec<&'a Form>,
    fact: Fact<'a>,
    found: Option<Proof>,
) -> Result<Option<Proof>, AllocError>
    ensures { IfOk result (λ now. (hs : Hypotheses) →
        oldest_or (with_fact hs fact.entry) (forms_of wanted.old.items) (found_proof found)
        ≡ oldest_or hs (forms_of wanted.new.items) (found_proof now)) }
{
    match fact {
        Fact::Proved(form, proof) => {
            if is_wanted(wanted.as_slice(), form) {
                Ok(Some(proof))
            } else {
                Ok(found)
            }
        }
        Fact::Converted(from, to) => {
            if is_wanted(wanted.as_slice(), to) {
                wanted.push(from)?;
            }
            Ok(found)
        }
    }
}

/// The oldest proof of the formula. The one error is want of memory.
#[tactic(auto, using(crate::proofs::BuildingHypotheses::oldest_is_earliest))]
pub fn earliest_proof<'a>(
    alloc: Global,
    facts: &[Fact<'a>],
    form: &'a Form,
) -> Result<Lp, AllocError>
    ensures { IfOk result (λ t. term_of t ≡ earliest (hypotheses_of facts.now) (form_tree form.now)) }
{
    let mut wanted = Vec::new(alloc);
    wanted.push(form)?;
    let mut found = None;
    for place in 0..facts.len() {
        let fact = facts[facts.len() - 1 - place];
        found = look(&mut wanted, fact, found)?;
    }
    proof_term(alloc, found)
}

/// Lets the variables from `first` on prove the formulas in order, and gives the number of the variable after them. The one
/// error is want of memory.
#[tactic(auto, using(crate::proofs::BuildingHypotheses::bound_push))]
pub fn bind_formulas<'a>(
    facts: &mut Facts<'a>,
    first: u32,
    forms: &'a [Form],
) -> Result<u32, AllocError>
    ensures bound { OnOk result (hypotheses_of facts.new.items ≡ bound_by first (map form_tree forms.entry.now) (hypotheses_of facts.old.items)) }
    ensures next { IfOk result (λ n. n ≡ length forms.entry.now + first) }
    ensures kept { OnOk result (take (length facts.old.items) facts.new.items ≡ facts.old.items) }
{
    let mut variable = first;
    for form in forms {
        facts.push(Fact::Proved(form, Proof::Variable(variable)))?;
        variable = next(variable)?;
    }
    Ok(variable)
}
