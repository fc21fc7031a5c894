ghost use Rattle.std.specs.Prelude.{◌≡◌, ◌++◌, ◌∷◌, IfOk, OnOk, Some, []};
ghost use Rattle.std.specs.Option.{option_map, option_copied};
ghost use Rattle.lp_terms.specs.Term as plain;
ghost use Rattle.lp_terms.specs.Same.{same};
ghost use Rattle.lp_terms.specs.View.{term_of, terms_of, entry_of, entries_of};
ghost use Rattle.lp_reduce.specs.Put.{may_fit, put};
ghost use Rattle.lp_reduce.specs.Step.{part_at, parts, rule_at, entry_step, first_entry_step};

use crate::instance::instance;
use lp_terms::{Entry, Lp, Text};
use sqlite_items::Items;
use std::alloc::{AllocError, Global};

/// The reduction of the term itself by the first entry that has one. The one error is want of memory.
pub fn first_entry_step(
    alloc: Global,
    signature: &[Entry],
    term: &Lp,
) -> Result<Option<Lp>, AllocError>
    ensures { IfOk result (λ o. option_map term_of o ≡ first_entry_step (entries_of signature.now) (term_of term.now)) }
{
    for entry in signature {
        match entry_step(alloc, entry, term) {
            Err(e) => return Err(e),
            Ok(Some(reduct)) => return Ok(Some(reduct)),
            Ok(None) => (),
        }
    }
    Ok(None)
}

fn entry_step(alloc: Global, entry: &Entry, term: &Lp) -> Result<Option<Lp>, AllocError>
    ensures { IfOk result (λ o. option_map term_of o ≡ entry_step (entry_of entry.now) (term_of term.now)) }
{
    match entry {
        Entry::Declare {
            name: _,
            definable: _,
            ty: _,
        } => Ok(None),
        Entry::Rule {
            context,
            left,
            right,
        } => rule_step(alloc, context.as_slice(), left, right, term),
        Entry::Define { name, ty: _, body } => {
            if is_constant(term, name) {
                Ok(Some(body.copy(alloc)?))
            } else {
                Ok(None)
            }
        }
    }
}

fn is_constant(term: &Lp, name: &Text) -> bool
    ensures { result ≡ same (plain.Lp.const name.now) (term_of term.now) }
{
    match term {
        Lp::Const(other) => name.text() == other.text(),
        Lp::Sort | Lp::Free(_) | Lp::Index(_) | Lp::App(_, _) | Lp::Abs(_, _) | Lp::Prod(_, _) => {
            false
        }
    }
}

// Most terms and left sides differ in a constant or in their number of arguments, which is seen without any copy.
#[tactic(auto, using(crate::proofs::Puts::unfit_rule))]
fn rule_step(
    alloc: Global,
    context: &[Lp],
    left: &Lp,
    right: &Lp,
    term: &Lp,
) -> Result<Option<Lp>, AllocError>
    ensures { IfOk result (λ o. option_map term_of o
        ≡ rule_at (term_of left.now) (term_of right.now) (term_of term.now) (parts (terms_of context.now) 0 (term_of left.now) (term_of term.now))) }
{
    if !may_fit(left, term) {
        return Ok(None);
    }
    match parts_of(alloc, context, left, term)? {
        Some(found) => rule_at(alloc, left, right, term, found.as_slice()),
        None => Ok(None),
    }
}

// Whether the constants and applications of the left side are those of the term.
fn may_fit(left: &Lp, term: &Lp) -> bool
    ensures { result ≡ may_fit (term_of left.now) (term_of term.now) }
{
    match (left, term) {
        (Lp::Const(x), Lp::Const(y)) => x.text() == y.text(),
        (Lp::App(f, a), Lp::App(g, b)) => may_fit(f.get(), g.get()) && may_fit(a.get(), b.get()),
        (Lp::Const(_) | Lp::App(_, _), _) => false,
        (Lp::Sort | Lp::Free(_) | Lp::Index(_) | Lp::Abs(_, _) | Lp::Prod(_, _), _) => true,
    }
}

// The parts of the term for the variables of a context.
fn parts_of(
    alloc: Global,
    context: &[Lp],
    left: &Lp,
    term: &Lp,
) -> Result<Option<Items<Lp>>, AllocError>
    ensures { IfOk result (λ o. option_map terms_of o ≡ parts (terms_of context.now) 0 (term_of left.now) (term_of term.now)) }
{
    let mut found = Items::new(alloc);
    let mut at = 0u32;
    for _ in context {
        match part_of(left, at, term) {
            None => return Ok(None),
            Some(part) => add_part(alloc, &mut found, part)?,
        }
        at = at.checked_add(1).ok_or(AllocError)?;
    }
    Ok(Some(found))
}

fn add_part(alloc: Global, found: &mut Items<Lp>, part: &Lp) -> Result<(), AllocError>
    ensures { OnOk result (terms_of found.new ≡ terms_of found.old ++ term_of part.now ∷ []) }
{
    let copy = part.copy(alloc)?;
    found.push(copy)
}

// The part of the term where the variable first stands in the pattern.
fn part_of<'a>(pattern: &Lp, at: u32, term: &'a Lp) -> Option<&'a Lp>
    ensures { option_map term_of (option_copied result) ≡ part_at at (term_of pattern.now) (term_of term.now) }
{
    match (pattern, term) {
        (Lp::Index(i), _) => { if *i == at { Some(term) } else { None } }
        (Lp::App(p, q), Lp::App(f, a)) => match part_of(p.get(), at, f.get()) {
            Some(part) => Some(part),
            None => part_of(q.get(), at, a.get()),
        },
        _ => None,
    }
}

// The right side with the parts, where the left side with the parts is the term.
fn rule_at(
    alloc: Global,
    left: &Lp,
    right: &Lp,
    term: &Lp,
    found: &[Lp],
) -> Result<Option<Lp>, AllocError>
    ensures { IfOk result (λ o. option_map term_of o
        ≡ rule_at (term_of left.now) (term_of right.now) (term_of term.now) (Some (terms_of found.now))) }
{
    if is_instance(alloc, left, term, found)? {
        Ok(Some(instance(alloc, right, found, 0)?))
    } else {
        Ok(None)
    }
}

fn is_instance(alloc: Global, left: &Lp, term: &Lp, found: &[Lp]) -> Result<bool, AllocError>
    ensures { IfOk result (λ b. b ≡ same (put 0 (terms_of found.now) (term_of left.now)) (term_of term.now)) }
{
    let made = instance(alloc, left, found, 0)?;
    Ok(made.is_same(term))
}
