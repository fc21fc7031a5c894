ghost use Rattle.std.specs.Prelude.{◌≡◌, IfOk, suc};
ghost use Rattle.lp_terms.specs.Term as plain;
ghost use Rattle.lp_terms.specs.View.{term_of};
ghost use Rattle.lp_reduce.specs.Put.{put};
ghost use Rattle.dk_checker.specs.View.{variables};

use lp_terms::Lp;
use sqlite_items::Boxed;
use std::alloc::{AllocError, Global};

/// The term with free variables for its indices from `at` on: the last `inner` ones of `depth` variables, the last one
/// first. The one error is want of memory. It recurses once for each level of the term.
#[cycle(with_variables)]
pub fn with_variables(
    alloc: Global,
    term: &Lp,
    depth: u32,
    inner: u32,
    at: u32,
) -> Result<Lp, AllocError>
    ensures { IfOk result (λ t. term_of t ≡ put at (variables depth inner) (term_of term.now)) }
{
    Ok(match term {
        Lp::Sort => Lp::Sort,
        Lp::Const(name) => Lp::Const(name.copy(alloc)?),
        Lp::Free(n) => Lp::Free(*n),
        Lp::Index(i) => variable_for(*i, depth, inner, at),
        Lp::App(f, a) => Lp::App(
            boxed_with_variables(alloc, f, depth, inner, at)?,
            boxed_with_variables(alloc, a, depth, inner, at)?,
        ),
        Lp::Abs(a, b) => Lp::Abs(
            boxed_with_variables(alloc, a, depth, inner, at)?,
            boxed_with_variables(alloc, b, depth, inner, under(at)?)?,
        ),
        Lp::Prod(a, b) => Lp::Prod(
            boxed_with_variables(alloc, a, depth, inner, at)?,
            boxed_with_variables(alloc, b, depth, inner, under(at)?)?,
        ),
    })
}

#[cycle(with_variables)]
fn boxed_with_variables(
    alloc: Global,
    term: &Boxed<Lp>,
    depth: u32,
    inner: u32,
    at: u32,
) -> Result<Boxed<Lp>, AllocError>
    ensures { IfOk result (λ t. term_of t ≡ put at (variables depth inner) (term_of term.now)) }
{
    Boxed::new(alloc, with_variables(alloc, term.get(), depth, inner, at)?)
}

// The number of binders under one more.
fn under(at: u32) -> Result<u32, AllocError>
    ensures { IfOk result (λ n. n ≡ suc at) }
{
    at.checked_add(1).ok_or(AllocError)
}

/// The variable for an index, or the index itself.
#[tactic(auto, using(crate::proofs::Variables::variable_within, crate::proofs::Variables::variable_past))]
pub fn variable_for(i: u32, depth: u32, inner: u32, at: u32) -> Lp
    ensures { term_of result ≡ put at (variables depth inner) (plain.Lp.index i) }
{
    if i < at {
        return Lp::Index(i);
    }
    let back = i - at;
    if back < inner && back < depth {
        Lp::Free(depth - back - 1)
    } else {
        Lp::Index(i)
    }
}
