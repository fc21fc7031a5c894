//! The contexts of the prelude's rules.

ghost use Rattle.std.specs.Prelude.{◌≡◌, IfOk, [], ◌∷◌};
ghost use Rattle.lp_terms.specs.Term as plain;
ghost use Rattle.lp_terms.specs.View.{term_of, terms_of};
ghost use Rattle.lp_signature.specs.Prelude as prelude;

use crate::parts::{predicates, prop, terms, type_predicates, types};
use lp_terms::{Lp, Lps};
use sqlite_items::Items;
use std::alloc::{AllocError, Global};

/// No variable.
pub fn no_variable(alloc: Global) -> Lps
    ensures { terms_of result ≡ [] }
{
    Items::new(alloc)
}

/// One variable of the type.
pub fn variable_of(alloc: Global, first: Lp) -> Result<Lps, AllocError>
    ensures { IfOk result (λ c. terms_of c ≡ term_of first ∷ []) }
{
    let mut context = Items::new(alloc);
    context.push(first)?;
    Ok(context)
}

/// Two variables of these types.
pub fn variables_of(alloc: Global, first: Lp, second: Lp) -> Result<Lps, AllocError>
    ensures { IfOk result (λ c. terms_of c ≡ term_of first ∷ term_of second ∷ []) }
{
    let mut context = variable_of(alloc, first)?;
    context.push(second)?;
    Ok(context)
}

/// `x0 : prop`
pub fn one_proposition(alloc: Global) -> Result<Lps, AllocError>
    ensures { IfOk result (λ c. terms_of c ≡ prelude.prop ∷ []) }
{
    let first = prop(alloc)?;
    variable_of(alloc, first)
}

/// `x0 : prop, x1 : prop`
pub fn two_propositions(alloc: Global) -> Result<Lps, AllocError>
    ensures { IfOk result (λ c. terms_of c ≡ prelude.prop ∷ prelude.prop ∷ []) }
{
    let first = prop(alloc)?;
    let second = prop(alloc)?;
    variables_of(alloc, first, second)
}

/// `x0 : type, x1 : term x0 -> prop`
pub fn type_and_predicate(alloc: Global) -> Result<Lps, AllocError>
    ensures { IfOk result (λ c. terms_of c ≡ prelude.types ∷ plain.Lp.prod (prelude.term (plain.Lp.index 0)) prelude.prop ∷ []) }
{
    let first = types(alloc)?;
    let second = predicates(alloc, 0)?;
    variables_of(alloc, first, second)
}

/// `x0 : type -> prop`
pub fn type_predicate(alloc: Global) -> Result<Lps, AllocError>
    ensures { IfOk result (λ c. terms_of c ≡ plain.Lp.prod prelude.types prelude.prop ∷ []) }
{
    let first = type_predicates(alloc)?;
    variable_of(alloc, first)
}

fn type_and_term(alloc: Global) -> Result<Lps, AllocError>
    ensures { IfOk result (λ c. terms_of c ≡ prelude.types ∷ prelude.term (plain.Lp.index 0) ∷ []) }
{
    let first = types(alloc)?;
    let second = terms(alloc, 0)?;
    variables_of(alloc, first, second)
}

/// `x0 : type, x1 : term x0, x2 : term x0`
pub fn type_and_two_terms(alloc: Global) -> Result<Lps, AllocError>
    ensures { IfOk result (λ c. terms_of c ≡ prelude.types ∷ prelude.term (plain.Lp.index 0) ∷ prelude.term (plain.Lp.index 1) ∷ []) }
{
    let third = terms(alloc, 1)?;
    let mut context = type_and_term(alloc)?;
    context.push(third)?;
    Ok(context)
}
