ghost use Rattle.std.specs.Prelude.{◌≡◌, IfOk, OnErr, ◌+◌, suc, IsTrue};
ghost use Rattle.lp_terms.specs.Term as plain;
ghost use Rattle.lp_terms.specs.Measure.{IsBounded};
ghost use Rattle.lp_terms.specs.Change.{changed};
ghost use Rattle.lp_terms.specs.View.{term_of, change_of};

use crate::term::{Lp, NUMBER_LIMIT};
use sqlite_items::Boxed;
use std::alloc::{AllocError, Global};

/// The body with a term for its binder's variable, the index 0. The error is want of memory, which stands for a result past
/// the bound on binders too.
pub fn open(alloc: Global, body: &Lp, with: &Lp) -> Result<Lp, AllocError>
    ensures value { IfOk result (λ t. term_of t ≡ plain.opened (term_of body.now) (term_of with.now)) }
    ensures bounded { IfOk result (λ t. IsBounded 0 (term_of t)) }
{
    let made = rebuild(alloc, body, 0, Change::Open(with))?;
    bounded(made, 0)
}

/// The body that has its binder's variable, the index 0, where the term has the free variable. The error is want of memory,
/// which stands for a result past the bound on binders too.
pub fn close(alloc: Global, term: &Lp, free: u32) -> Result<Lp, AllocError>
    ensures value { IfOk result (λ t. term_of t ≡ plain.closed free (term_of term.now)) }
    ensures bounded { IfOk result (λ t. IsBounded 1 (term_of t)) }
{
    let made = rebuild(alloc, term, 0, Change::Close(free))?;
    bounded(made, 1)
}

/// The term with another for the free variable. The error is want of memory, which stands for a result past the bound on
/// binders too.
pub fn substitute(alloc: Global, term: &Lp, free: u32, with: &Lp) -> Result<Lp, AllocError>
    ensures value { IfOk result (λ t. term_of t ≡ plain.substitute (plain.only free (term_of with.now)) (term_of term.now)) }
    ensures bounded { IfOk result (λ t. IsBounded 0 (term_of t)) }
{
    let made = rebuild(alloc, term, 0, Change::Substitute(free, with))?;
    bounded(made, 0)
}

/// What is changed in a term.
#[derive(Clone, Copy)]
enum Change<'a> {
    /// The index 0 of the whole term, which becomes the other term.
    Open(&'a Lp),
    /// The free variable, which becomes the index 0 of the whole term.
    Close(u32),
    /// The free variable, which becomes the other term.
    Substitute(u32, &'a Lp),
}

// The number of binders under one more.
fn under(at: u32) -> Result<u32, AllocError>
    ensures { IfOk result (λ n. n ≡ suc at) }
{
    at.checked_add(1).ok_or(AllocError)
}

#[cycle(rebuild)]
fn rebuild(alloc: Global, term: &Lp, at: u32, what: Change<'_>) -> Result<Lp, AllocError>
    ensures { IfOk result (λ t. term_of t ≡ changed (change_of what.entry) at (term_of term.now)) }
{
    Ok(match term {
        Lp::Sort => Lp::Sort,
        Lp::Const(name) => Lp::Const(name.copy(alloc)?),
        Lp::Free(n) => rebuild_free(alloc, *n, at, what)?,
        Lp::Index(i) => rebuild_index(alloc, *i, at, what)?,
        Lp::App(f, a) => Lp::App(
            rebuild_boxed(alloc, f, at, what)?,
            rebuild_boxed(alloc, a, at, what)?,
        ),
        Lp::Abs(a, b) => Lp::Abs(
            rebuild_boxed(alloc, a, at, what)?,
            rebuild_boxed(alloc, b, under(at)?, what)?,
        ),
        Lp::Prod(a, b) => Lp::Prod(
            rebuild_boxed(alloc, a, at, what)?,
            rebuild_boxed(alloc, b, under(at)?, what)?,
        ),
    })
}

#[cycle(rebuild)]
fn rebuild_boxed(
    alloc: Global,
    term: &Boxed<Lp>,
    at: u32,
    what: Change<'_>,
) -> Result<Boxed<Lp>, AllocError>
    ensures { IfOk result (λ t. term_of t ≡ changed (change_of what.entry) at (term_of term.now)) }
{
    Boxed::new(alloc, rebuild(alloc, term.get(), at, what)?)
}

fn rebuild_free(alloc: Global, n: u32, at: u32, what: Change<'_>) -> Result<Lp, AllocError>
    ensures { IfOk result (λ t. term_of t ≡ changed (change_of what.entry) at (plain.Lp.free n)) }
{
    match what {
        Change::Open(_) => Ok(Lp::Free(n)),
        Change::Close(free) => {
            if n == free {
                Ok(Lp::Index(at))
            } else {
                Ok(Lp::Free(n))
            }
        }
        Change::Substitute(free, with) => {
            if n == free {
                with.copy(alloc)
            } else {
                Ok(Lp::Free(n))
            }
        }
    }
}

fn rebuild_index(alloc: Global, i: u32, at: u32, what: Change<'_>) -> Result<Lp, AllocError>
    ensures { IfOk result (λ t. term_of t ≡ changed (change_of what.entry) at (plain.Lp.index i)) }
{
    match what {
        Change::Open(with) => {
            if i == at {
                with.copy(alloc)
            } else {
                Ok(Lp::Index(i))
            }
        }
        Change::Close(_) | Change::Substitute(_, _) => Ok(Lp::Index(i)),
    }
}

// The term itself, where it keeps within the bounds under so many binders. A term past them counts as want of memory.
fn bounded(term: Lp, at: u32) -> Result<Lp, AllocError>
    ensures same { IfOk result (λ t. t ≡ term) }
    ensures bounded { IfOk result (λ t. IsBounded at (term_of t)) }
{
    if term.is_bounded(at) {
        Ok(term)
    } else {
        Err(AllocError)
    }
}

impl Lp {
    /// Whether under so many binders fewer than `NUMBER_LIMIT` stand round each place, and each free variable's number is
    /// below it.
    #[cycle(is_bounded)]
    fn is_bounded(&self, at: u32) -> bool
        ensures { IsTrue result → IsBounded at (term_of self.now) }
    {
        match self {
            Lp::Sort | Lp::Const(_) | Lp::Index(_) => at < NUMBER_LIMIT,
            Lp::Free(n) => at < NUMBER_LIMIT && *n < NUMBER_LIMIT,
            Lp::App(f, a) => f.get().is_bounded(at) && a.get().is_bounded(at),
            Lp::Abs(a, b) | Lp::Prod(a, b) => {
                at < NUMBER_LIMIT && a.get().is_bounded(at) && b.get().is_bounded(at + 1)
            }
        }
    }
}
