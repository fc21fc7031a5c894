ghost use Rattle.std.specs.Prelude.{◌≡◌};
ghost use Rattle.zm_logic.specs.View.{problem_tree};
ghost use Rattle.zm_logic.specs.Problem.{IsTypedProblem};

use crate::text::Text;
use crate::tree::{Form, Ty, Tys};
use sqlite_items::Items;
use std::marker::Model;

/// What a symbol makes of its arguments.
#[derive(Drop)]
pub enum Sense {
    /// A type.
    Constructor,
    /// A formula.
    Predicate,
    /// A term of this type.
    Function(Ty),
}

/// A declared symbol. Its type variables are bound indices in the types here, the last one 0.
#[derive(Drop)]
pub struct Symbol {
    /// The name in the problem.
    pub name: Text,
    /// The number of its type arguments. A constructor has no others.
    pub types: u32,
    /// The types of its term arguments.
    pub arguments: Tys,
    /// What it makes of them.
    pub sense: Sense,
}

/// The symbols of a problem, numbered from 1.
pub type Symbols = Items<Symbol>;

/// What a premise is called in the problem.
#[derive(Clone, Copy, Debug, PartialEq, Eq)]
pub enum Role {
    Axiom,
    Hypothesis,
    Definition,
    Assumption,
    Lemma,
    Theorem,
    Corollary,
    NegatedConjecture,
}

/// A formula that is taken as true.
#[derive(Drop)]
pub struct Premise {
    /// Its name in the problem.
    pub name: Text,
    /// What it is called there.
    pub role: Role,
    /// What it says.
    pub form: Form,
}

/// The premises of a problem, in order.
pub type Premises = Items<Premise>;

/// What is to be proved, and from what.
#[derive(Drop)]
pub struct Problem {
    pub symbols: Symbols,
    pub premises: Premises,
    pub conjecture: Form,
}

/// A problem that is well typed: each symbol, each premise and the conjecture is, has no loose index and no
/// parameter, and is no deeper than 1,500, and no two symbols print the same name. Contracts see the problem.
#[derive(Drop)]
pub struct TypedProblem {
    problem: Problem,
}

impl Model for TypedProblem {
    ghost use Rattle.zm_logic.specs.declared.problem.Problem.{Problem};
    ghost use Rattle.zm_logic.specs.contracts.tree.Ty as ty;
    ghost use Rattle.zm_logic.specs.contracts.tree.Form as form;
    ghost use Rattle.std.specs.Coded.{codes};
    ghost use Rattle.zm_logic.specs.View.{problem_tree};
    ghost use Rattle.zm_logic.specs.Problem.{IsTypedProblem};

    ghost Value = { Problem };

    ghost coded = { Prim.hlevel (codes, ty.the_row.coded, form.the_row.coded) };

    ghost view = { λ p. p.problem };

    ghost invariant = { λ p. IsTypedProblem (problem_tree p.problem) };
}

impl TypedProblem {
    /// The given problem, which is well typed. Takes no memory.
    pub fn make(problem: Problem) -> TypedProblem
        requires { IsTypedProblem (problem_tree problem) }
        ensures { result ≡ problem }
    {
        TypedProblem { problem }
    }

    /// The problem itself, which is well typed. Takes no memory.
    pub fn problem(&self) -> &Problem
        ensures problem { result.now ≡ self.now }
        ensures typed { IsTypedProblem (problem_tree self.now) }
    {
        &self.problem
    }
}
