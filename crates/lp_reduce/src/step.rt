ghost use Rattle.std.specs.Prelude.{◌≡◌, IfOk, suc, [], ◌∷◌};
ghost use Rattle.std.specs.Option.{option_map};
ghost use Rattle.lp_terms.specs.Term as plain;
ghost use Rattle.lp_terms.specs.Term.{closed};
ghost use Rattle.lp_terms.specs.View.{term_of, entries_of};
ghost use Rattle.lp_reduce.specs.Step.{beta_step, root_step, next_step};

use crate::entry::first_entry_step;
use lp_terms::{Entry, Lp, close, open};
use std::alloc::{AllocError, Global};

/// The next step of the term; `number` is that of the next binder's variable. The one error is want of memory, which stands
/// for a step below `levels` levels of the term too.
#[cycle(step)]
pub fn step(
    alloc: Global,
    signature: &[Entry],
    number: u32,
    levels: u32,
    term: &Lp,
) -> Result<Option<Lp>, AllocError>
    ensures { IfOk result (λ o. option_map term_of o ≡ next_step (entries_of signature.now) number [] (term_of term.now)) }
{
    match levels.checked_sub(1) {
        None => Err(AllocError),
        Some(below) => match term {
            Lp::Sort | Lp::Free(_) | Lp::Index(_) => Ok(None),
            Lp::Const(_) => root_step(alloc, signature, term),
            Lp::App(f, a) => match step(alloc, signature, number, below, f.get())? {
                Some(g) => Ok(Some(Lp::application(alloc, g, a.get().copy(alloc)?)?)),
                None => match step(alloc, signature, number, below, a.get())? {
                    Some(b) => Ok(Some(Lp::application(alloc, f.get().copy(alloc)?, b)?)),
                    None => root_step(alloc, signature, term),
                },
            },
            Lp::Abs(a, t) => match step(alloc, signature, number, below, a.get())? {
                Some(b) => Ok(Some(Lp::abstraction(alloc, b, t.get().copy(alloc)?)?)),
                None => match body_step(alloc, signature, number, below, t.get())? {
                    Some(u) => Ok(Some(Lp::abstraction(alloc, a.get().copy(alloc)?, u)?)),
                    None => Ok(None),
                },
            },
            Lp::Prod(a, t) => match step(alloc, signature, number, below, a.get())? {
                Some(b) => Ok(Some(Lp::product(alloc, b, t.get().copy(alloc)?)?)),
                None => match body_step(alloc, signature, number, below, t.get())? {
                    Some(u) => Ok(Some(Lp::product(alloc, a.get().copy(alloc)?, u)?)),
                    None => Ok(None),
                },
            },
        },
    }
}

// The body after its next step, which is opened at the variable of that number and closed again.
#[cycle(step)]
fn body_step(
    alloc: Global,
    signature: &[Entry],
    number: u32,
    levels: u32,
    body: &Lp,
) -> Result<Option<Lp>, AllocError>
    ensures { IfOk result (λ o. option_map term_of o
        ≡ option_map (λ u. closed number u) (next_step (entries_of signature.now) (suc number) (plain.Lp.free number ∷ []) (term_of body.now))) }
{
    match number.checked_add(1) {
        Some(above) => {
            let term = opened(alloc, body, number)?;
            match step(alloc, signature, above, levels, &term)? {
                Some(u) => Ok(Some(close(alloc, &u, number)?)),
                None => Ok(None),
            }
        }
        None => Err(AllocError),
    }
}

// The body with the variable of that number.
fn opened(alloc: Global, body: &Lp, number: u32) -> Result<Lp, AllocError>
    ensures { IfOk result (λ t. term_of t ≡ plain.opened (term_of body.now) (plain.Lp.free number)) }
{
    let variable = Lp::Free(number);
    open(alloc, body, &variable)
}

// The reduction of the term itself.
fn root_step(alloc: Global, signature: &[Entry], term: &Lp) -> Result<Option<Lp>, AllocError>
    ensures { IfOk result (λ o. option_map term_of o ≡ root_step (entries_of signature.now) (term_of term.now)) }
{
    match beta_step(alloc, term)? {
        Some(reduct) => Ok(Some(reduct)),
        None => first_entry_step(alloc, signature, term),
    }
}

fn beta_step(alloc: Global, term: &Lp) -> Result<Option<Lp>, AllocError>
    ensures { IfOk result (λ o. option_map term_of o ≡ beta_step (term_of term.now)) }
{
    match term {
        Lp::App(f, a) => match f.get() {
            Lp::Abs(_, t) => Ok(Some(open(alloc, t.get(), a.get())?)),
            Lp::Sort | Lp::Const(_) | Lp::Free(_) | Lp::Index(_) | Lp::App(_, _) | Lp::Prod(_, _) =>
                { Ok(None) }
        },
        Lp::Sort | Lp::Const(_) | Lp::Free(_) | Lp::Index(_) | Lp::Abs(_, _) | Lp::Prod(_, _) => {
            Ok(None)
        }
    }
}
