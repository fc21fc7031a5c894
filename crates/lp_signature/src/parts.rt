//! The parts that the prelude's entries are made of.

ghost use Rattle.std.specs.Prelude.{◌≡◌, IfOk, codes};
ghost use Rattle.lp_terms.specs.Term as plain;
ghost use Rattle.lp_terms.specs.View.{term_of};
ghost use Rattle.lp_signature.specs.Prelude as prelude;

use lp_terms::Lp;
use std::alloc::{AllocError, Global};

/// The bound variable, or a rule's context variable, of this index.
pub fn variable(index: u32) -> Lp
    ensures { term_of result ≡ plain.Lp.index index }
{
    Lp::Index(index)
}

/// The type of propositions.
pub fn prop(alloc: Global) -> Result<Lp, AllocError>
    ensures { IfOk result (λ t. term_of t ≡ prelude.prop) }
{
    Lp::constant(alloc, "prop")
}

/// The type of types.
pub fn types(alloc: Global) -> Result<Lp, AllocError>
    ensures { IfOk result (λ t. term_of t ≡ prelude.types) }
{
    Lp::constant(alloc, "type")
}

/// The constant of the name, applied.
pub fn applied(alloc: Global, name: &str, argument: Lp) -> Result<Lp, AllocError>
    ensures { IfOk result (λ t. term_of t ≡ plain.Lp.app (plain.Lp.const name.now) (term_of argument)) }
{
    let function = Lp::constant(alloc, name)?;
    Lp::application(alloc, function, argument)
}

/// The constant of the name, applied to two variables.
pub fn applied_twice(alloc: Global, name: &str, first: u32, second: u32) -> Result<Lp, AllocError>
    ensures { IfOk result (λ t. term_of t ≡ plain.Lp.app (plain.Lp.app (plain.Lp.const name.now) (plain.Lp.index first)) (plain.Lp.index second)) }
{
    let once = applied(alloc, name, variable(first))?;
    Lp::application(alloc, once, variable(second))
}

/// The proofs of the proposition.
pub fn proofs(alloc: Global, proposition: Lp) -> Result<Lp, AllocError>
    ensures { IfOk result (λ t. term_of t ≡ prelude.prf (term_of proposition)) }
{
    applied(alloc, "prf", proposition)
}

/// The proofs of the constant.
pub fn proofs_of(alloc: Global, name: &str) -> Result<Lp, AllocError>
    ensures { IfOk result (λ t. term_of t ≡ prelude.prf (plain.Lp.const name.now)) }
{
    let proposition = Lp::constant(alloc, name)?;
    proofs(alloc, proposition)
}

/// The proofs of the predicate at the variable.
pub fn proofs_at(alloc: Global, predicate: u32, index: u32) -> Result<Lp, AllocError>
    ensures { IfOk result (λ t. term_of t ≡ prelude.prf (plain.Lp.app (plain.Lp.index predicate) (plain.Lp.index index))) }
{
    let proposition = Lp::application(alloc, variable(predicate), variable(index))?;
    proofs(alloc, proposition)
}

/// The terms of the type that the variable stands for.
pub fn terms(alloc: Global, index: u32) -> Result<Lp, AllocError>
    ensures { IfOk result (λ t. term_of t ≡ prelude.term (plain.Lp.index index)) }
{
    applied(alloc, "term", variable(index))
}

/// The product over the propositions.
pub fn over_props(alloc: Global, codomain: Lp) -> Result<Lp, AllocError>
    ensures { IfOk result (λ t. term_of t ≡ plain.Lp.prod prelude.prop (term_of codomain)) }
{
    let domain = prop(alloc)?;
    Lp::product(alloc, domain, codomain)
}

/// The product over the types.
pub fn over_types(alloc: Global, codomain: Lp) -> Result<Lp, AllocError>
    ensures { IfOk result (λ t. term_of t ≡ plain.Lp.prod prelude.types (term_of codomain)) }
{
    let domain = types(alloc)?;
    Lp::product(alloc, domain, codomain)
}

/// The product over the terms of the type that the variable stands for.
pub fn over_terms(alloc: Global, index: u32, codomain: Lp) -> Result<Lp, AllocError>
    ensures { IfOk result (λ t. term_of t ≡ plain.Lp.prod (prelude.term (plain.Lp.index index)) (term_of codomain)) }
{
    let domain = terms(alloc, index)?;
    Lp::product(alloc, domain, codomain)
}

/// The product over the proofs of the variable.
pub fn over_proofs(alloc: Global, index: u32, codomain: Lp) -> Result<Lp, AllocError>
    ensures { IfOk result (λ t. term_of t ≡ plain.Lp.prod (prelude.prf (plain.Lp.index index)) (term_of codomain)) }
{
    let domain = proofs(alloc, variable(index))?;
    Lp::product(alloc, domain, codomain)
}

/// The product over the proofs of the predicate at the variable.
pub fn over_proofs_at(
    alloc: Global,
    predicate: u32,
    index: u32,
    codomain: Lp,
) -> Result<Lp, AllocError>
    ensures { IfOk result (λ t. term_of t ≡ plain.Lp.prod (prelude.prf (plain.Lp.app (plain.Lp.index predicate) (plain.Lp.index index))) (term_of codomain)) }
{
    let domain = proofs_at(alloc, predicate, index)?;
    Lp::product(alloc, domain, codomain)
}

/// The predicates over the types.
pub fn type_predicates(alloc: Global) -> Result<Lp, AllocError>
    ensures { IfOk result (λ t. term_of t ≡ plain.Lp.prod prelude.types prelude.prop) }
{
    let codomain = prop(alloc)?;
    over_types(alloc, codomain)
}

/// The predicates over the terms of the type that the variable stands for.
pub fn predicates(alloc: Global, index: u32) -> Result<Lp, AllocError>
    ensures { IfOk result (λ t. term_of t ≡ plain.Lp.prod (prelude.term (plain.Lp.index index)) prelude.prop) }
{
    let codomain = prop(alloc)?;
    over_terms(alloc, index, codomain)
}
