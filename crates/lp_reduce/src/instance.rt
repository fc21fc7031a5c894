ghost use Rattle.std.specs.Prelude.{◌≡◌, IfOk, suc};
ghost use Rattle.lp_terms.specs.Term as plain;
ghost use Rattle.lp_terms.specs.View.{term_of, terms_of};
ghost use Rattle.lp_reduce.specs.Put.{put};

use lp_terms::Lp;
use sqlite_items::Boxed;
use std::alloc::{AllocError, Global};

/// The term with the terms for its indices from `at` on, all at once. The one error is want of memory. It recurses once for
/// each level of the term.
#[cycle(instance)]
pub fn instance(alloc: Global, term: &Lp, parts: &[Lp], at: u32) -> Result<Lp, AllocError>
    ensures { IfOk result (λ t. term_of t ≡ put at (terms_of parts.now) (term_of term.now)) }
{
    Ok(match term {
        Lp::Sort => Lp::Sort,
        Lp::Const(name) => Lp::Const(name.copy(alloc)?),
        Lp::Free(n) => Lp::Free(*n),
        Lp::Index(i) => part_for(alloc, *i, parts, at)?,
        Lp::App(f, a) => Lp::App(
            instance_boxed(alloc, f, parts, at)?,
            instance_boxed(alloc, a, parts, at)?,
        ),
        Lp::Abs(a, b) => Lp::Abs(
            instance_boxed(alloc, a, parts, at)?,
            instance_boxed(alloc, b, parts, under(at)?)?,
        ),
        Lp::Prod(a, b) => Lp::Prod(
            instance_boxed(alloc, a, parts, at)?,
            instance_boxed(alloc, b, parts, under(at)?)?,
        ),
    })
}

#[cycle(instance)]
fn instance_boxed(
    alloc: Global,
    term: &Boxed<Lp>,
    parts: &[Lp],
    at: u32,
) -> Result<Boxed<Lp>, AllocError>
    ensures { IfOk result (λ t. term_of t ≡ put at (terms_of parts.now) (term_of term.now)) }
{
    Boxed::new(alloc, instance(alloc, term.get(), parts, at)?)
}

// The number of binders under one more.
fn under(at: u32) -> Result<u32, AllocError>
    ensures { IfOk result (λ n. n ≡ suc at) }
{
    at.checked_add(1).ok_or(AllocError)
}

// The term for the index, or the index itself.
#[tactic(auto, using(crate::proofs::Puts::part_found, crate::proofs::Puts::part_missing))]
fn part_for(alloc: Global, i: u32, parts: &[Lp], at: u32) -> Result<Lp, AllocError>
    ensures { IfOk result (λ t. term_of t ≡ put at (terms_of parts.now) (plain.Lp.index i)) }
{
    if i < at {
        return Ok(Lp::Index(i));
    }
    match parts.get((i - at) as usize) {
        Some(part) => part.copy(alloc),
        None => Ok(Lp::Index(i)),
    }
}
