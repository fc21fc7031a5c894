ghost use Rattle.std.specs.Prelude.{◌≡◌, ◌+◌, ◌*◌, ◌^◌, ◌-◌, min, map, true, false};
ghost use Rattle.zm_logic.specs.View.{form_tree, problem_tree};
ghost use Rattle.zm_logic.specs.Truth.{refuted};
ghost use Rattle.search.specs.Need as spec;

use zm_logic::{Form, Premise, Problem};

/// How many Steps the premises and the negated conjecture of a problem can need, at most `u128::MAX`: their weight times
/// the branches that they come to. It allocates nothing.
#[tactic(auto, using(crate::proofs::Counted::times_least))]
pub fn need(problem: &Problem) -> u128
    ensures { result ≡ min (spec.need (refuted (problem_tree problem.now))) (2 ^ 128 - 1) }
{
    weight(problem).saturating_mul(all_leaves(problem))
}

/// The weight of the premises and the negated conjecture of a problem, at most `u128::MAX`: 1 for each negation, 2 for
/// each conjunction, disjunction and implication, 3 for each equivalence. It allocates nothing.
#[tactic(auto, using(crate::proofs::Counted::weights_with))]
pub fn weight(problem: &Problem) -> u128
    ensures { result ≡ min (spec.weights (refuted (problem_tree problem.now))) (2 ^ 128 - 1) }
{
    let premises = premises_weight(problem.premises.as_slice());
    premises.saturating_add(form_weight(&problem.conjecture).saturating_add(1))
}

#[tactic(auto, using(crate::proofs::Counted::weights_more))]
fn premises_weight(premises: &[Premise]) -> u128
    ensures { result ≡ min (spec.weights (map (λ premise. form_tree premise.form) premises.now)) (2 ^ 128 - 1) }
{
    let mut all = 0u128;
    for premise in premises {
        all = all.saturating_add(form_weight(&premise.form));
    }
    all
}

#[cycle(form_weight)]
fn form_weight(form: &Form) -> u128
    ensures { result ≡ min (spec.weight (form_tree form.now)) (2 ^ 128 - 1) }
{
    match form {
        Form::Not(f) => form_weight(f.get()).saturating_add(1),
        Form::And(f, g) | Form::Or(f, g) | Form::Imp(f, g) => form_weight(f.get())
            .saturating_add(form_weight(g.get()))
            .saturating_add(2),
        Form::Iff(f, g) => form_weight(f.get())
            .saturating_add(form_weight(g.get()))
            .saturating_add(3),
        Form::True
        | Form::False
        | Form::Atom(_, _, _)
        | Form::Equal(_, _, _)
        | Form::All(_, _)
        | Form::Ex(_, _)
        | Form::AllType(_)
        | Form::ExType(_) => 0,
    }
}

/// The branches that the premises and the negated conjecture come to.
#[tactic(auto, using(crate::proofs::Counted::leaves_with, crate::proofs::Counted::times_least))]
fn all_leaves(problem: &Problem) -> u128
    ensures { result ≡ min (spec.all_leaves (refuted (problem_tree problem.now))) (2 ^ 128 - 1) }
{
    let premises = premises_leaves(problem.premises.as_slice());
    premises.saturating_mul(leaves(&problem.conjecture).fails)
}

#[tactic(auto, using(crate::proofs::Counted::leaves_more, crate::proofs::Counted::times_least))]
fn premises_leaves(premises: &[Premise]) -> u128
    ensures { result ≡ min (spec.all_leaves (map (λ premise. form_tree premise.form) premises.now)) (2 ^ 128 - 1) }
{
    let mut all = 1u128;
    for premise in premises {
        all = all.saturating_mul(leaves(&premise.form).holds);
    }
    all
}

/// The branches that a formula comes to, and those that its negation comes to.
#[derive(Drop)]
struct Counts {
    holds: u128,
    fails: u128,
}

/// What the negation of a formula comes to.
fn negation(of: Counts) -> Counts
    ensures holds { result.holds ≡ of.fails }
    ensures fails { result.fails ≡ of.holds }
{
    Counts {
        holds: of.fails,
        fails: of.holds,
    }
}

/// What the conjunction of two formulas comes to.
fn conjunction(left: Counts, right: Counts) -> Counts
    ensures holds { result.holds ≡ min (left.holds * right.holds) (2 ^ 128 - 1) }
    ensures fails { result.fails ≡ min (left.fails + right.fails) (2 ^ 128 - 1) }
{
    Counts {
        holds: left.holds.saturating_mul(right.holds),
        fails: left.fails.saturating_add(right.fails),
    }
}

/// What the disjunction of two formulas comes to.
fn disjunction(left: Counts, right: Counts) -> Counts
    ensures holds { result.holds ≡ min (left.holds + right.holds) (2 ^ 128 - 1) }
    ensures fails { result.fails ≡ min (left.fails * right.fails) (2 ^ 128 - 1) }
{
    negation(conjunction(negation(left), negation(right)))
}

/// What the equivalence of two formulas comes to.
fn equivalence(left: Counts, right: Counts) -> Counts
    ensures holds { result.holds ≡ min (left.holds * right.holds + left.fails * right.fails) (2 ^ 128 - 1) }
    ensures fails { result.fails ≡ min (left.holds * right.fails + left.fails * right.holds) (2 ^ 128 - 1) }
{
    let alike = left.holds.saturating_mul(right.holds);
    let unlike = left.holds.saturating_mul(right.fails);
    Counts {
        holds: alike.saturating_add(left.fails.saturating_mul(right.fails)),
        fails: unlike.saturating_add(left.fails.saturating_mul(right.holds)),
    }
}

#[cycle(leaves)]
fn leaves(form: &Form) -> Counts
    ensures holds { result.holds ≡ min (spec.leaves_as true (form_tree form.now)) (2 ^ 128 - 1) }
    ensures fails { result.fails ≡ min (spec.leaves_as false (form_tree form.now)) (2 ^ 128 - 1) }
{
    match form {
        Form::Not(f) => negation(leaves(f.get())),
        Form::And(f, g) => conjunction(leaves(f.get()), leaves(g.get())),
        Form::Or(f, g) => disjunction(leaves(f.get()), leaves(g.get())),
        Form::Imp(f, g) => disjunction(negation(leaves(f.get())), leaves(g.get())),
        Form::Iff(f, g) => equivalence(leaves(f.get()), leaves(g.get())),
        Form::True
        | Form::False
        | Form::Atom(_, _, _)
        | Form::Equal(_, _, _)
        | Form::All(_, _)
        | Form::Ex(_, _)
        | Form::AllType(_)
        | Form::ExType(_) => Counts { holds: 1, fails: 1 },
    }
}
