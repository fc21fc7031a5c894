ghost use Rattle.std.specs.Prelude.{◌≡◌, map};
ghost use Rattle.zm_logic.specs.View.{form_tree, premise_tree, problem_tree};
ghost use Rattle.branch.specs.EqualityFree.{holds_equality as spec_holds_equality};
ghost use Rattle.zenon_modulo.specs.Fragments as spec;

use zm_logic::{Form, Premise, Problem};

// An equality stands in the formula.
fn holds_equality(form: &Form) -> bool
    ensures { result ≡ spec_holds_equality (form_tree form.now) }
{
    match form {
        Form::True | Form::False | Form::Atom(_, _, _) => false,
        Form::Equal(_, _, _) => true,
        Form::Not(f) => holds_equality(f.get()),
        Form::And(f, g) | Form::Or(f, g) | Form::Imp(f, g) | Form::Iff(f, g) => {
            holds_equality(f.get()) || holds_equality(g.get())
        }
        Form::All(_, f) | Form::Ex(_, f) => holds_equality(f.get()),
        Form::AllType(f) | Form::ExType(f) => holds_equality(f.get()),
    }
}

// The formula has no quantifier and no equality.
fn is_plain(form: &Form) -> bool
    ensures { result ≡ spec.is_plain (form_tree form.now) }
{
    match form {
        Form::True | Form::False | Form::Atom(_, _, _) => true,
        Form::Not(f) => is_plain(f.get()),
        Form::And(f, g) | Form::Or(f, g) | Form::Imp(f, g) | Form::Iff(f, g) => {
            is_plain(f.get()) && is_plain(g.get())
        }
        Form::Equal(_, _, _)
        | Form::All(_, _)
        | Form::Ex(_, _)
        | Form::AllType(_)
        | Form::ExType(_) => false,
    }
}

// Each of the premises is such a formula.
#[tactic(auto, using(crate::proofs::PlainProblems::plain_here, crate::proofs::PlainProblems::plain_later, crate::proofs::PlainProblems::plain_end))]
fn are_plain(premises: &[Premise]) -> bool
    ensures { result ≡ spec.are_plain (map premise_tree premises.now) }
{
    for premise in premises {
        if !is_plain(&premise.form) {
            return false;
        }
    }
    true
}

// An equality stands in one of the premises.
#[tactic(auto, using(crate::proofs::PlainProblems::equality_here, crate::proofs::PlainProblems::equality_later, crate::proofs::PlainProblems::equality_end))]
fn any_equality(premises: &[Premise]) -> bool
    ensures { result ≡ spec.any_equality (map premise_tree premises.now) }
{
    for premise in premises {
        if holds_equality(&premise.form) {
            return true;
        }
    }
    false
}

/// The problem's premises and its conjecture have no quantifier and no equality.
pub fn is_quantifier_free(problem: &Problem) -> bool
    ensures { result ≡ spec.is_quantifier_free (problem_tree problem.now) }
{
    are_plain(problem.premises.as_slice()) && is_plain(&problem.conjecture)
}

/// The problem is one that is built: its premises and its conjecture have no equality.
pub fn is_built(problem: &Problem) -> bool
    ensures { result ≡ spec.is_built (problem_tree problem.now) }
{
    !any_equality(problem.premises.as_slice()) && !holds_equality(&problem.conjecture)
}
