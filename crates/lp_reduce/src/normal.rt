ghost use Rattle.std.specs.Prelude.{◌≡◌, IfOk, IfErr, suc, Some};
ghost use Rattle.lp_terms.specs.View.{term_of, entries_of};
ghost use Rattle.lp_reduce.specs.Normal.{CanMake, normal, normal_of};
ghost use Rattle.lp_reduce.specs.Number.{new_number};
ghost use Rattle.lp_reduce.specs.declared.normal.ReduceStop.TheVariants.{Spent};

use crate::number::new_number;
use crate::step::step;
use lp_terms::{Entry, Lp};
use std::alloc::Global;

/// Why no normal form is given.
#[derive(Debug, Drop)]
pub enum ReduceStop {
    /// Memory is wanted.
    Memory,
    /// More steps than the limit can be made.
    Spent,
}

// A term is reduced down to this level; what lies deeper counts as memory that isn't there.
const LEVELS: u32 = 8_000;

/// The normal form of the term and the number of steps that lead to it, each at the leftmost innermost place, beta before
/// rules, rules in the order of the signature, a definition counting as a rule. `Spent` comes exactly where more than
/// `limit` such steps can be made.
pub fn lp_normal(
    alloc: Global,
    signature: &[Entry],
    term: &Lp,
    limit: u32,
) -> Result<(Lp, u64), ReduceStop>
    ensures normal { IfOk result (λ r. normal (entries_of signature.now) (new_number (entries_of signature.now) (term_of term.now)) limit (term_of term.now)
        ≡ Some (normal_of (term_of r.0) r.1)) }
    ensures spent { IfErr result (λ e. e ≡ Spent
        → CanMake (entries_of signature.now) (new_number (entries_of signature.now) (term_of term.now)) (suc limit) (term_of term.now)) }
{
    match new_number(signature, term) {
        Err(_) => Err(ReduceStop::Memory),
        Ok(number) => lp_normal_from(alloc, signature, number, term, limit),
    }
}

/// The same for a term whose free variables, and those of the signature, have numbers below `number`, from which the
/// variables of binders are numbered.
pub fn lp_normal_from(
    alloc: Global,
    signature: &[Entry],
    number: u32,
    term: &Lp,
    limit: u32,
) -> Result<(Lp, u64), ReduceStop>
    ensures normal { IfOk result (λ r. normal (entries_of signature.now) number limit (term_of term.now) ≡ Some (normal_of (term_of r.0) r.1)) }
    ensures spent { IfErr result (λ e. e ≡ Spent → CanMake (entries_of signature.now) number (suc limit) (term_of term.now)) }
{
    match term.copy(alloc) {
        Err(_) => Err(ReduceStop::Memory),
        Ok(form) => reduced(alloc, signature, number, form, limit),
    }
}

#[tactic(auto, using(crate::proofs::Loop::normal_reached, crate::proofs::Loop::spent_reached, crate::proofs::Loop::leads_next))]
fn reduced(
    alloc: Global,
    signature: &[Entry],
    number: u32,
    term: Lp,
    limit: u32,
) -> Result<(Lp, u64), ReduceStop>
    ensures normal { IfOk result (λ r. normal (entries_of signature.now) number limit (term_of term) ≡ Some (normal_of (term_of r.0) r.1)) }
    ensures spent { IfErr result (λ e. e ≡ Spent → CanMake (entries_of signature.now) number (suc limit) (term_of term)) }
{
    let mut form = term;
    for count in 0..limit {
        match step(alloc, signature, number, LEVELS, &form) {
            Err(_) => return Err(ReduceStop::Memory),
            Ok(None) => return Ok((form, u64::from(count))),
            Ok(Some(next)) => form = next,
        }
    }
    match step(alloc, signature, number, LEVELS, &form) {
        Err(_) => Err(ReduceStop::Memory),
        Ok(None) => Ok((form, u64::from(limit))),
        Ok(Some(_)) => Err(ReduceStop::Spent),
    }
}
