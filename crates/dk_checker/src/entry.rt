ghost use Rattle.std.specs.Prelude.{◌≡◌, OnOk, IfOk, length, []};
ghost use Rattle.lp_terms.specs.Typing.{Context};
ghost use Rattle.lp_terms.specs.WellFormed.{rule_context};
ghost use Rattle.lp_terms.specs.View.{term_of, terms_of, entry_of, entries_of};
ghost use Rattle.dk_checker.specs.Found.{and_then};
ghost use Rattle.dk_checker.specs.Asking as asking;
ghost use Rattle.dk_checker.specs.Inference as inference;
ghost use Rattle.dk_checker.specs.View.{class_of, context_of, variables, Tells};
ghost use Rattle.dk_checker.specs.Told.{check_type, check_body, check_rule, context_type_found, IsTypeAdded};

use crate::asking::{asks_head, asks_sort};
use crate::infer::{depth, infer, infer_as};
use crate::stop::{Stop, in_part};
use crate::term::with_variables;
use crate::verdict::Class;
use lp_terms::{Entry, Lp};
use sqlite_items::Items;
use std::alloc::Global;

// A chain has at most so many types.
const CHAIN: u32 = 64;

// A part is inferred down to this level; what lies deeper counts as memory that isn't there.
const LEVELS: u32 = 4_000;

/// What is found of an entry after the signature.
pub fn check_entry(
    alloc: Global,
    signature: &[Entry],
    limit: u32,
    entry: &Entry,
) -> Result<(), Stop>
    ensures { Tells (λ _. tt) (inference.check_entry (entries_of signature.now) limit (entry_of entry.now)) result }
{
    match entry {
        Entry::Declare {
            name: _,
            definable: _,
            ty,
        } => check_type(alloc, signature, limit, ty),
        Entry::Define { name: _, ty, body } => {
            check_type(alloc, signature, limit, ty)?;
            check_body(alloc, signature, limit, ty, body)
        }
        Entry::Rule {
            context,
            left,
            right,
        } => {
            asks_head(alloc, signature, limit, left)?;
            check_rule(alloc, signature, limit, context.as_slice(), left, right)
        }
    }
}

// The type of a declaration or a definition asks a sort.
fn check_type(alloc: Global, signature: &[Entry], limit: u32, ty: &Lp) -> Result<(), Stop>
    ensures { Tells (λ _. tt) (check_type (entries_of signature.now) limit (term_of ty.now)) result }
{
    in_part(sort_of(alloc, signature, limit, ty), 0)?;
    Ok(())
}

fn sort_of(alloc: Global, signature: &[Entry], limit: u32, ty: &Lp) -> Result<Class, Stop>
    ensures { Tells class_of (and_then (inference.type_of (entries_of signature.now) limit Context.empty [] (term_of ty.now)) (asking.asks_sort (entries_of signature.now) limit 0)) result }
{
    let mut types = Items::new(alloc);
    let found = infer(alloc, signature, limit, &mut types, 0, CHAIN, LEVELS, ty)?;
    asks_sort(alloc, signature, limit, 0, found)
}

// The body of a definition asks the definition's type.
fn check_body(
    alloc: Global,
    signature: &[Entry],
    limit: u32,
    ty: &Lp,
    body: &Lp,
) -> Result<(), Stop>
    ensures { Tells (λ _. tt) (check_body (entries_of signature.now) limit (term_of ty.now) (term_of body.now)) result }
{
    let wanted = Class::Of(ty.copy(alloc)?);
    let mut types = Items::new(alloc);
    let asked = infer_as(
        alloc, signature, limit, &mut types, 0, CHAIN, LEVELS, wanted, body,
    );
    in_part(asked, 1)
}

fn check_rule(
    alloc: Global,
    signature: &[Entry],
    limit: u32,
    context: &[Lp],
    left: &Lp,
    right: &Lp,
) -> Result<(), Stop>
    ensures { Tells (λ _. tt) (check_rule (entries_of signature.now) limit (terms_of context.now) (term_of left.now) (term_of right.now)) result }
{
    let mut types = check_context(alloc, signature, limit, context)?;
    check_sides(alloc, signature, limit, &mut types, left, right)
}

// Each type of a rule's context asks Type after the variables before it.
fn check_context(
    alloc: Global,
    signature: &[Entry],
    limit: u32,
    context: &[Lp],
) -> Result<Items<Lp>, Stop>
    ensures told { Tells (λ _. tt) (inference.check_context (entries_of signature.now) limit (terms_of context.now) 0 [] Context.empty) result }
    ensures types { IfOk result (λ ts. context_of ts ≡ rule_context (terms_of context.now) 0 [] Context.empty) }
    ensures many { IfOk result (λ ts. length ts ≡ length context.now) }
{
    let mut types = Items::new(alloc);
    for ty in context {
        check_context_type(alloc, signature, limit, &mut types, ty)?;
    }
    Ok(types)
}

// The next type of a context, which is added to those before it.
fn check_context_type(
    alloc: Global,
    signature: &[Entry],
    limit: u32,
    types: &mut Items<Lp>,
    ty: &Lp,
) -> Result<(), Stop>
    ensures told { Tells (λ _. tt) (context_type_found (entries_of signature.now) limit types.old (term_of ty.now)) result }
    ensures added { OnOk result (IsTypeAdded (term_of ty.now) types.old types.new) }
{
    let number = depth(types.as_slice())?;
    let sort = Class::Of(Lp::Sort);
    let asked = infer_as(
        alloc, signature, limit, types, number, CHAIN, LEVELS, sort, ty,
    );
    in_part(asked, number as usize)?;
    let ty = with_variables(alloc, ty, number, number, 0)?;
    types.push(ty)?;
    Ok(())
}

// The right side asks the type of the left side.
fn check_sides(
    alloc: Global,
    signature: &[Entry],
    limit: u32,
    types: &mut Items<Lp>,
    left: &Lp,
    right: &Lp,
) -> Result<(), Stop>
    ensures { Tells (λ _. tt) (inference.check_sides (entries_of signature.now) limit (length types.old) (variables (length types.old) (length types.old)) (context_of types.old)
        (term_of left.now) (term_of right.now)) result }
{
    let number = depth(types.as_slice())?;
    let place = types.len();
    let found = infer(alloc, signature, limit, types, number, CHAIN, LEVELS, left);
    let wanted = in_part(found, place)?;
    let asked = infer_as(
        alloc, signature, limit, types, number, CHAIN, LEVELS, wanted, right,
    );
    in_part(asked, place + 1)
}
