//! What unification promises. Each function does nothing: its contract is the law.

ghost use Rattle.unify.specs.Laws.{BindingsSolve, BindingsAreMostGeneral, SolutionsAreInstances};
ghost use Rattle.unify.specs.Laws.{BindingsOrNoSolution, BindingsWhereSolvable, BindingsAreDetermined};
ghost use Rattle.unify.specs.Laws.{SolvedEquationsAddNothing, RightSidesAreParts, SolvedTreesAreSolved};
ghost use Rattle.unify.specs.Laws.{FormsAreUnified, UnifiersOfFormsAreMostGeneral, UnifierOfFormsOrNone};
ghost use Rattle.unify.specs.Laws.{UnifiersOfFormsAreDetermined};
ghost use Rattle.unify.specs.Worked.{RepeatedMetavariable, CircularBindings, Clash, TypesBeforeTerms};
ghost use Rattle.unify.specs.Worked.{CarriedTypesStay};

/// The bindings that equations give solve them.
#[tactic(auto, using(crate::proofs::Promises::bindings_solve))]
pub fn bindings_solve()
    ensures { BindingsSolve }
{}

/// They are the most general that do: a substitution that solves the equations solves the bindings.
#[tactic(auto, using(crate::proofs::Promises::bindings_are_most_general))]
pub fn bindings_are_most_general()
    ensures { BindingsAreMostGeneral }
{}

/// Each solution of the equations is an instance of the bindings.
#[tactic(auto, using(crate::proofs::Promises::solutions_are_instances))]
pub fn solutions_are_instances()
    ensures { SolutionsAreInstances }
{}

/// Equations give bindings, or they have no solution.
pub fn bindings_or_no_solution()
    ensures { BindingsOrNoSolution }
{}

/// Equations give bindings exactly where they have a solution.
pub fn bindings_where_solvable()
    ensures { BindingsWhereSolvable }
{}

/// Equations determine their bindings and the order of these.
#[tactic(auto, using(crate::proofs::Promises::bindings_are_determined))]
pub fn bindings_are_determined()
    ensures { BindingsAreDetermined }
{}

/// An equation that holds under the bindings made before it may be dropped: it adds none.
#[tactic(auto, using(crate::proofs::Promises::solved_equations_add_nothing))]
pub fn solved_equations_add_nothing()
    ensures { SolvedEquationsAddNothing }
{}

/// Each right side, as it was made, is a part of a side of an equation.
#[tactic(auto, using(crate::proofs::Promises::right_sides_are_parts))]
pub fn right_sides_are_parts()
    ensures { RightSidesAreParts }
{}

/// A tree with all bindings put in stays as it is where they are put in again.
#[tactic(auto, using(crate::proofs::Promises::solved_trees_are_solved))]
pub fn solved_trees_are_solved()
    ensures { SolvedTreesAreSolved }
{}

/// The bindings that two atoms or two equalities give make them one formula.
#[tactic(auto, using(crate::proofs::Promises::forms_are_unified))]
pub fn forms_are_unified()
    ensures { FormsAreUnified }
{}

/// A substitution that makes two formulas one solves their bindings.
#[tactic(auto, using(crate::proofs::Promises::unifiers_of_forms_are_most_general))]
pub fn unifiers_of_forms_are_most_general()
    ensures { UnifiersOfFormsAreMostGeneral }
{}

/// Two atoms or two equalities give bindings, or no substitution makes them one formula.
#[tactic(auto, using(crate::proofs::Promises::unifier_of_forms_or_none))]
pub fn unifier_of_forms_or_none()
    ensures { UnifierOfFormsOrNone }
{}

/// Two formulas determine their bindings and the order of these.
pub fn unifiers_of_forms_are_determined()
    ensures { UnifiersOfFormsAreDetermined }
{}

/// `f(m0, m0)` and `f(m1, a)` give `m0 := m1` and then `m1 := a`.
#[tactic(auto, using(crate::proofs::Worked::repeated))]
pub fn repeated_metavariable()
    ensures { RepeatedMetavariable }
{}

/// `f(m0, m1)` and `f(g(m1), g(m0))` give no bindings.
pub fn circular_bindings()
    ensures { CircularBindings }
{}

/// Two constants give no bindings.
#[tactic(auto, using(crate::proofs::Worked::clash))]
pub fn clash()
    ensures { Clash }
{}

/// `r(A0, m2)` and `r($i, h(A0, m1))`, where `m1` has the type `A0`, give `A0 := $i` and then `m2 := h(A0, m1)`.
#[tactic(auto, using(crate::proofs::Worked::types_first))]
pub fn types_before_terms()
    ensures { TypesBeforeTerms }
{}

/// Solved, the last right side is `h($i, m1)`, where `m1` still has the type `A0`.
#[tactic(auto, using(crate::proofs::Worked::carried_types_stay))]
pub fn carried_types_stay()
    ensures { CarriedTypesStay }
{}
