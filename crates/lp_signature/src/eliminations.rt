//! What the proofs of each connective and quantifier stand for: the right sides of the prelude's longer rules.

ghost use Rattle.std.specs.Prelude.{◌≡◌, IfOk};
ghost use Rattle.lp_terms.specs.Term as plain;
ghost use Rattle.lp_terms.specs.View.{term_of};
ghost use Rattle.lp_signature.specs.Prelude as prelude;
ghost use Rattle.lp_signature.specs.Eliminations as right;

use crate::parts::{
    over_proofs, over_proofs_at, over_props, over_terms, over_types, predicates, proofs, proofs_at,
    variable,
};
use lp_terms::Lp;
use std::alloc::{AllocError, Global};

/// `x0 : prop -> prf x0`
pub fn false_right(alloc: Global) -> Result<Lp, AllocError>
    ensures { IfOk result (λ t. term_of t ≡ right.false_right) }
{
    let result = proofs(alloc, variable(0))?;
    over_props(alloc, result)
}

// The premise, then the proofs of the proposition that was put before it: `x : prop -> premise -> prf x`, the premise standing
// under the binder of x.
fn from_premise(alloc: Global, premise: Lp) -> Result<Lp, AllocError>
    ensures { IfOk result (λ t. term_of t ≡ plain.Lp.prod prelude.prop (plain.Lp.prod (term_of premise) (prelude.prf (plain.Lp.index 1)))) }
{
    let result = proofs(alloc, variable(1))?;
    let shown = Lp::product(alloc, premise, result)?;
    over_props(alloc, shown)
}

/// `x2 : prop -> (prf x0 -> prf x1 -> prf x2) -> prf x2`
pub fn and_right(alloc: Global) -> Result<Lp, AllocError>
    ensures { IfOk result (λ t. term_of t ≡ plain.Lp.prod prelude.prop (plain.Lp.prod (plain.Lp.prod (prelude.prf (plain.Lp.index 2)) (plain.Lp.prod (prelude.prf (plain.Lp.index 2)) (prelude.prf (plain.Lp.index 2)))) (prelude.prf (plain.Lp.index 1)))) }
{
    let result = proofs(alloc, variable(2))?;
    let second = over_proofs(alloc, 2, result)?;
    let first = over_proofs(alloc, 2, second)?;
    from_premise(alloc, first)
}

// (prf x1 -> prf x2) -> prf x2, under the binder of x2 and one more
fn from_second_case(alloc: Global) -> Result<Lp, AllocError>
    ensures { IfOk result (λ t. term_of t ≡ plain.Lp.prod (plain.Lp.prod (prelude.prf (plain.Lp.index 2)) (prelude.prf (plain.Lp.index 2))) (prelude.prf (plain.Lp.index 2))) }
{
    let result = proofs(alloc, variable(2))?;
    let case = over_proofs(alloc, 2, result)?;
    let result = proofs(alloc, variable(2))?;
    Lp::product(alloc, case, result)
}

// prf x0 -> prf x2, under the binder of x2
fn first_case(alloc: Global) -> Result<Lp, AllocError>
    ensures { IfOk result (λ t. term_of t ≡ plain.Lp.prod (prelude.prf (plain.Lp.index 2)) (prelude.prf (plain.Lp.index 1))) }
{
    let result = proofs(alloc, variable(1))?;
    over_proofs(alloc, 2, result)
}

/// `x2 : prop -> (prf x0 -> prf x2) -> (prf x1 -> prf x2) -> prf x2`
pub fn or_right(alloc: Global) -> Result<Lp, AllocError>
    ensures { IfOk result (λ t. term_of t ≡ plain.Lp.prod prelude.prop (plain.Lp.prod (plain.Lp.prod (prelude.prf (plain.Lp.index 2)) (prelude.prf (plain.Lp.index 1))) (plain.Lp.prod (plain.Lp.prod (prelude.prf (plain.Lp.index 2)) (prelude.prf (plain.Lp.index 2))) (prelude.prf (plain.Lp.index 2))))) }
{
    let first = first_case(alloc)?;
    let rest = from_second_case(alloc)?;
    let cases = Lp::product(alloc, first, rest)?;
    over_props(alloc, cases)
}

/// `x2 : term x0 -> prf (x1 x2)`
pub fn at_terms(alloc: Global) -> Result<Lp, AllocError>
    ensures { IfOk result (λ t. term_of t ≡ plain.Lp.prod (prelude.term (plain.Lp.index 1)) (prelude.prf (plain.Lp.app (plain.Lp.index 1) (plain.Lp.index 0)))) }
{
    let result = proofs_at(alloc, 1, 0)?;
    over_terms(alloc, 1, result)
}

// prf (f x) -> prf p, under the binder of x, which stands under that of p, which stands under that of f
fn from_instance(alloc: Global) -> Result<Lp, AllocError>
    ensures { IfOk result (λ t. term_of t ≡ plain.Lp.prod (prelude.prf (plain.Lp.app (plain.Lp.index 2) (plain.Lp.index 0))) (prelude.prf (plain.Lp.index 2))) }
{
    let result = proofs(alloc, variable(2))?;
    over_proofs_at(alloc, 2, 0, result)
}

/// `x2 : prop -> (x3 : term x0 -> prf (x1 x3) -> prf x2) -> prf x2`
pub fn exists_right(alloc: Global) -> Result<Lp, AllocError>
    ensures { IfOk result (λ t. term_of t ≡ plain.Lp.prod prelude.prop (plain.Lp.prod (plain.Lp.prod (prelude.term (plain.Lp.index 2)) (plain.Lp.prod (prelude.prf (plain.Lp.app (plain.Lp.index 2) (plain.Lp.index 0))) (prelude.prf (plain.Lp.index 2)))) (prelude.prf (plain.Lp.index 1)))) }
{
    let instance = from_instance(alloc)?;
    let premise = over_terms(alloc, 2, instance)?;
    from_premise(alloc, premise)
}

/// `x1 : prop -> (x2 : type -> prf (x0 x2) -> prf x1) -> prf x1`
pub fn exists_type_right(alloc: Global) -> Result<Lp, AllocError>
    ensures { IfOk result (λ t. term_of t ≡ plain.Lp.prod prelude.prop (plain.Lp.prod (plain.Lp.prod prelude.types (plain.Lp.prod (prelude.prf (plain.Lp.app (plain.Lp.index 2) (plain.Lp.index 0))) (prelude.prf (plain.Lp.index 2)))) (prelude.prf (plain.Lp.index 1)))) }
{
    let instance = from_instance(alloc)?;
    let premise = over_types(alloc, instance)?;
    from_premise(alloc, premise)
}

// prf (x3 x1) -> prf (x3 x2), under the binder of x3
fn carried(alloc: Global) -> Result<Lp, AllocError>
    ensures { IfOk result (λ t. term_of t ≡ plain.Lp.prod (prelude.prf (plain.Lp.app (plain.Lp.index 0) (plain.Lp.index 2))) (prelude.prf (plain.Lp.app (plain.Lp.index 1) (plain.Lp.index 2)))) }
{
    let result = proofs_at(alloc, 1, 2)?;
    over_proofs_at(alloc, 0, 2, result)
}

/// `x3 : (term x0 -> prop) -> prf (x3 x1) -> prf (x3 x2)`
pub fn eq_right(alloc: Global) -> Result<Lp, AllocError>
    ensures { IfOk result (λ t. term_of t ≡ plain.Lp.prod (plain.Lp.prod (prelude.term (plain.Lp.index 2)) prelude.prop) (plain.Lp.prod (prelude.prf (plain.Lp.app (plain.Lp.index 0) (plain.Lp.index 2))) (prelude.prf (plain.Lp.app (plain.Lp.index 1) (plain.Lp.index 2))))) }
{
    let domain = predicates(alloc, 2)?;
    let codomain = carried(alloc)?;
    Lp::product(alloc, domain, codomain)
}
