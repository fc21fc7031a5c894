//! What is true of typing, apart from the code.
ghost use Rattle.std.specs.Prelude.{◌≡◌, ◌↔◌, ◌⊎◌, Bool, List, Ok, Err};
ghost use Rattle.zm_logic.specs.Tree.{Ty, Form, Problem};
ghost use Rattle.zm_logic.specs.Problem.{IsTypedProblem};
ghost use Rattle.tptp_reader.specs.Raw.{RawType, RawTerm, RawForm, RawStatement};
ghost use Rattle.tff_typing.specs.Scope.{Scope};
ghost use Rattle.tff_typing.specs.Table.{Table, Place};
ghost use Rattle.tff_typing.specs.Fault.{Fault};
ghost use Rattle.tff_typing.specs.Places.{Expression, type_in};
ghost use Rattle.tff_typing.specs.Typing.{gives, expression_in, form_in};
ghost use Rattle.tff_typing.specs.Statements.{State, Refusal, statement_in, problem_in, AreWithinLimits};
ghost use Rattle.tff_typing.specs.Rules.{DenotesType, DenotesExpression, DenotesForm, MakesState, MakeProblem};
ghost use Rattle.tff_typing.specs.Refused.{IsFirstUntyped};

/// What statements within the reader's limits make by the rules is a typed problem: well typed, closed, and no deeper
/// than 1,500.
pub fn typed_problems()
    ensures { (statements : List RawStatement) (p : Problem)
        → AreWithinLimits statements → MakeProblem statements p → IsTypedProblem p }
{}

/// Statements make at most one problem by the rules.
pub fn one_problem()
    ensures { (statements : List RawStatement) (p q : Problem)
        → MakeProblem statements p → MakeProblem statements q → p ≡ q }
{}

/// The rules and the functions in the order of the text agree: a type, a term or a formula stands for a tree by the rules,
/// a statement makes a state of another one, and statements make a problem, exactly where the function gives it.
pub fn rules_agree()
    ensures types { (table : Table) (s : Scope) (t : RawType) (u : Ty)
        → DenotesType table s t u ↔ (type_in table s t ≡ Ok u) }
    ensures expressions { (table : Table) (s : Scope) (place : Place) (u : RawTerm) (x : Expression) (after : Table)
        → DenotesExpression table s place u x after ↔ (expression_in table s place u ≡ gives after x) }
    ensures forms { (table : Table) (s : Scope) (f : RawForm) (g : Form) (after : Table)
        → DenotesForm table s f g after ↔ (form_in table s f ≡ gives after g) }
    ensures problems { (statements : List RawStatement) (p : Problem)
        → MakeProblem statements p ↔ (problem_in statements ≡ Ok p) }
    ensures states { (state after : State) (s : RawStatement)
        → MakesState state s after ↔ (statement_in state s ≡ Ok after) }
{}

/// Statements make a problem by the rules, or they have a refusal, and never both; and the refusal is one. It stands at
/// the first statement that has no typing by the rules, with the first fault of that statement.
pub fn first_fault()
    ensures either { (statements : List RawStatement)
        → ((p : Problem) × MakeProblem statements p) ⊎ ((r : Refusal) × (problem_in statements ≡ Err r)) }
    ensures never_both { (statements : List RawStatement) (p : Problem) (r : Refusal)
        → MakeProblem statements p → problem_in statements ≡ Err r → ⊥ }
    ensures one { (statements : List RawStatement) (q r : Refusal)
        → problem_in statements ≡ Err q → problem_in statements ≡ Err r → q ≡ r }
    ensures first { (statements : List RawStatement) (r : Refusal)
        → problem_in statements ≡ Err r → IsFirstUntyped statements r }
{}

/// The same for one statement and what those before it make: it makes a state by the rules, or it has a first fault,
/// and never both; and the first fault is one.
pub fn first_fault_of_a_statement()
    ensures either { (state : State) (s : RawStatement)
        → ((after : State) × MakesState state s after) ⊎ ((f : Fault) × (statement_in state s ≡ Err f)) }
    ensures never_both { (state after : State) (s : RawStatement) (f : Fault)
        → MakesState state s after → statement_in state s ≡ Err f → ⊥ }
    ensures one { (state : State) (s : RawStatement) (e f : Fault)
        → statement_in state s ≡ Err e → statement_in state s ≡ Err f → e ≡ f }
{}
