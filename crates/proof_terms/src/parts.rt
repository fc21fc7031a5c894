//! The parts that the rules' terms are made of.

ghost use Rattle.std.specs.Prelude.{ℕ, suc, IfOk, ◌≡◌};
ghost use Rattle.lp_terms.specs.Term as plain;
ghost use Rattle.lp_terms.specs.View.{term_of};
ghost use Rattle.lp_signature.specs.Prelude as prelude;
ghost use Rattle.lp_signature.specs.ProofTerms as by;
ghost use Rattle.proof_terms.specs.Made.{Makes, Numbers};

use lp_terms::{Lp, close};
use std::alloc::{AllocError, Global};

/// A term, or want of memory.
pub type Made = Result<Lp, AllocError>;

/// The number of a variable, or none past the numbers of terms. What none is asked for counts as want of memory.
pub type Number = Option<u32>;

/// The next variable's number.
pub fn next(variable: Number) -> Number
    ensures { (n : ℕ) → Numbers variable n → Numbers result (suc n) }
{
    variable?.checked_add(1)
}

/// The free variable.
pub fn variable(number: Number) -> Made
    ensures { (n : ℕ) → Numbers number n → Makes result (plain.Lp.free n) }
{
    match number {
        Some(number) => Ok(Lp::Free(number)),
        None => Err(AllocError),
    }
}

/// The bound variable.
pub fn index(number: u32) -> Made
    ensures { Makes result (plain.Lp.index number) }
{
    Ok(Lp::Index(number))
}

/// The term again.
pub fn copied(alloc: Global, term: &Lp) -> Made
    ensures { Makes result (term_of term.now) }
{
    let copy = term.copy(alloc)?;
    Ok(copy)
}

/// Both terms, where memory was wanting for neither.
pub fn both(first: Made, second: Made) -> Result<(Lp, Lp), AllocError>
    ensures first { (t : plain.Lp) → Makes first t → IfOk result (λ both. term_of both.0 ≡ t) }
    ensures second { (t : plain.Lp) → Makes second t → IfOk result (λ both. term_of both.1 ≡ t) }
{
    let first = first?;
    let second = second?;
    Ok((first, second))
}

/// The function at the argument.
pub fn application(alloc: Global, function: Made, argument: Made) -> Made
    ensures { (f a : plain.Lp) → Makes function f → Makes argument a → Makes result (plain.Lp.app f a) }
{
    let (function, argument) = both(function, argument)?;
    Lp::application(alloc, function, argument)
}

/// The abstraction over the domain, whose variable is the body's index 0.
pub fn abstraction(alloc: Global, domain: Made, body: Made) -> Made
    ensures { (a t : plain.Lp) → Makes domain a → Makes body t → Makes result (plain.Lp.abs a t) }
{
    let (domain, body) = both(domain, body)?;
    Lp::abstraction(alloc, domain, body)
}

/// The product over the domain, whose variable is the codomain's index 0.
pub fn product(alloc: Global, domain: Made, codomain: Made) -> Made
    ensures { (a b : plain.Lp) → Makes domain a → Makes codomain b → Makes result (plain.Lp.prod a b) }
{
    let (domain, codomain) = both(domain, codomain)?;
    Lp::product(alloc, domain, codomain)
}

/// The term, which stays, with the index 0 for the free variable.
pub fn closed_of(alloc: Global, variable: Number, term: &Lp) -> Made
    ensures { (n : ℕ) → Numbers variable n → Makes result (plain.closed n (term_of term.now)) }
{
    match variable {
        Some(variable) => close(alloc, term, variable),
        None => Err(AllocError),
    }
}

/// The term with the index 0 for the free variable.
pub fn closed(alloc: Global, variable: Number, term: Made) -> Made
    ensures { (n : ℕ) (t : plain.Lp) → Numbers variable n → Makes term t → Makes result (plain.closed n t) }
{
    let term = term?;
    closed_of(alloc, variable, &term)
}

/// The type of propositions.
pub fn prop(alloc: Global) -> Made
    ensures { Makes result prelude.prop }
{
    Lp::constant(alloc, "prop")
}

/// The type of types.
pub fn types(alloc: Global) -> Made
    ensures { Makes result prelude.types }
{
    Lp::constant(alloc, "type")
}

/// The proposition that doesn't hold.
pub fn falsity(alloc: Global) -> Made
    ensures { Makes result prelude.falsity }
{
    Lp::constant(alloc, "false")
}

/// The constant of the name, applied.
pub fn applied(alloc: Global, name: &str, argument: Made) -> Made
    ensures { (a : plain.Lp) → Makes argument a → Makes result (plain.Lp.app (plain.Lp.const name.now) a) }
{
    application(alloc, Lp::constant(alloc, name), argument)
}

/// The function at two arguments.
pub fn at_two(alloc: Global, function: Made, first: Made, second: Made) -> Made
    ensures { (f a b : plain.Lp) → Makes function f → Makes first a → Makes second b
        → Makes result (plain.Lp.app (plain.Lp.app f a) b) }
{
    application(alloc, application(alloc, function, first), second)
}

/// The proofs of the proposition.
pub fn proofs_of(alloc: Global, proposition: Made) -> Made
    ensures { (p : plain.Lp) → Makes proposition p → Makes result (prelude.prf p) }
{
    applied(alloc, "prf", proposition)
}

/// The proofs of the proposition, which stays.
pub fn proofs(alloc: Global, proposition: &Lp) -> Made
    ensures { Makes result (prelude.prf (term_of proposition.now)) }
{
    proofs_of(alloc, copied(alloc, proposition))
}

/// The proofs that the proposition doesn't hold.
pub fn refutations(alloc: Global, proposition: &Lp) -> Made
    ensures { Makes result (prelude.prf (prelude.not_of (term_of proposition.now))) }
{
    proofs_of(alloc, applied(alloc, "not", copied(alloc, proposition)))
}

/// The proofs of the implication between the propositions.
pub fn implications(alloc: Global, premise: &Lp, conclusion: &Lp) -> Made
    ensures { Makes result (prelude.prf (prelude.imp_of (term_of premise.now) (term_of conclusion.now))) }
{
    let once = applied(alloc, "imp", copied(alloc, premise));
    proofs_of(alloc, application(alloc, once, copied(alloc, conclusion)))
}

/// The terms of the type.
pub fn terms_of(alloc: Global, ty: Made) -> Made
    ensures { (a : plain.Lp) → Makes ty a → Makes result (prelude.term a) }
{
    applied(alloc, "term", ty)
}

/// The terms of the type, which stays.
pub fn terms(alloc: Global, ty: &Lp) -> Made
    ensures { Makes result (prelude.term (term_of ty.now)) }
{
    terms_of(alloc, copied(alloc, ty))
}

/// The equality of two terms of the type.
pub fn equality(alloc: Global, ty: &Lp, left: Made, right: Made) -> Made
    ensures { (t u : plain.Lp) → Makes left t → Makes right u → Makes result (prelude.eq_of (term_of ty.now) t u) }
{
    let once = applied(alloc, "eq", copied(alloc, ty));
    at_two(alloc, once, left, right)
}

/// The abstraction over the free variable.
pub fn bind(alloc: Global, variable: Number, domain: Made, body: Made) -> Made
    ensures { (n : ℕ) (a t : plain.Lp) → Numbers variable n → Makes domain a → Makes body t → Makes result (by.bind n a t) }
{
    abstraction(alloc, domain, closed(alloc, variable, body))
}

/// The abstraction over the free variable, which proves the proposition. The body stays.
pub fn bind_proof(alloc: Global, variable: Number, proposition: &Lp, body: &Lp) -> Made
    ensures { (n : ℕ) → Numbers variable n → Makes result (by.bind n (prelude.prf (term_of proposition.now)) (term_of body.now)) }
{
    let domain = proofs(alloc, proposition);
    abstraction(alloc, domain, closed_of(alloc, variable, body))
}

/// The abstraction over the free variable, which proves that the proposition doesn't hold. The body stays.
pub fn bind_refutation(alloc: Global, variable: Number, proposition: &Lp, body: &Lp) -> Made
    ensures { (n : ℕ) → Numbers variable n
        → Makes result (by.bind n (prelude.prf (prelude.not_of (term_of proposition.now))) (term_of body.now)) }
{
    let domain = refutations(alloc, proposition);
    abstraction(alloc, domain, closed_of(alloc, variable, body))
}

/// The proof of the proposition by contradiction: the body refutes its negation, which the variable proves. The body stays.
pub fn by_contradiction(alloc: Global, variable: Number, proposition: &Lp, body: &Lp) -> Made
    ensures { (n : ℕ) → Numbers variable n → Makes result (by.nn n (term_of proposition.now) (term_of body.now)) }
{
    let once = applied(alloc, "nnpp", copied(alloc, proposition));
    application(
        alloc,
        once,
        bind_refutation(alloc, variable, proposition, body),
    )
}
