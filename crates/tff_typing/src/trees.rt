ghost use Rattle.std.specs.Prelude.{◌≡◌, ◌-◌, suc, IfOk};
ghost use Rattle.zm_logic.specs.View.{type_tree, types_tree};
ghost use Rattle.zm_logic.specs.Tree as tree;
ghost use Rattle.zm_logic.specs.Typing as typing;
ghost use Rattle.tff_typing.specs.Fault as fault;
ghost use Rattle.tff_typing.specs.Statements as statements;
ghost use Rattle.tff_typing.specs.Indexed as at;
ghost use Rattle.tff_typing.specs.Table as table;

use std::alloc::{AllocError, Global};
use zm_logic::{SymId, Ty, Tys};

/// The type of individuals.
pub fn individual(alloc: Global) -> Ty
    ensures { type_tree result ≡ typing.individual }
{
    Ty::Con(SymId(0), Tys::new(alloc))
}

/// As many types of individuals.
#[tactic(auto, using(crate::proofs::TypeLists::individuals_step))]
pub fn individuals(alloc: Global, count: usize) -> Result<Tys, AllocError>
    ensures { IfOk result (λ ts. types_tree ts ≡ table.individuals_of count) }
{
    let mut all = Tys::new(alloc);
    for _i in 0..count {
        all.push(individual(alloc))?;
    }
    Ok(all)
}

/// Equal types.
pub fn copies(alloc: Global, types: &Tys) -> Result<Tys, AllocError>
    ensures { IfOk result (λ ts. ts ≡ types.now) }
{
    let mut all = Tys::new(alloc);
    for ty in types.as_slice() {
        all.push(ty.copy(alloc)?)?;
    }
    Ok(all)
}

// An index. One that a u32 doesn't hold counts as memory that isn't there.
fn index(inner: usize) -> Result<u32, AllocError>
    ensures { IfOk result (λ i. i ≡ inner) }
{
    match u32::try_from(inner) {
        Ok(index) => Ok(index),
        Err(_) => Err(AllocError),
    }
}

/// The index of the variable with the number, under as many binders.
pub fn index_of(binders: usize, number: usize) -> Result<u32, AllocError>
    ensures { IfOk result (λ i. i ≡ binders - suc number) }
{
    index(binders.saturating_sub(number).saturating_sub(1))
}

// The same for a parameter's number.
fn parameter_index(binders: usize, number: u64) -> Result<u32, AllocError>
    ensures { IfOk result (λ i. i ≡ binders - suc number) }
{
    match usize::try_from(number) {
        Ok(number) => index_of(binders, number),
        Err(_) => Err(AllocError),
    }
}

/// The type with the index of each variable in scope, under as many binders.
#[cycle(indexed)]
pub fn indexed(alloc: Global, ty: &Ty, binders: usize) -> Result<Ty, AllocError>
    ensures { IfOk result (λ t. type_tree t ≡ statements.indexed binders (type_tree ty.now)) }
{
    Ok(match ty {
        Ty::Bound(i) => Ty::Bound(*i),
        Ty::Param(n) => Ty::Bound(parameter_index(binders, *n)?),
        Ty::Meta(n) => Ty::Meta(*n),
        Ty::Con(c, types) => Ty::Con(*c, all_indexed(alloc, types, binders)?),
    })
}

/// The types with the index of each variable in scope, under as many binders.
#[cycle(indexed)]
#[tactic(auto, using(crate::proofs::TypeLists::indexed_step))]
pub fn all_indexed(alloc: Global, types: &Tys, binders: usize) -> Result<Tys, AllocError>
    ensures { IfOk result (λ ts. types_tree ts ≡ statements.all_indexed binders (types_tree types.now)) }
{
    let mut all = Tys::new(alloc);
    for ty in types.as_slice() {
        all.push(indexed(alloc, ty, binders)?)?;
    }
    Ok(all)
}

/// The type as a fault shows it.
#[cycle(shown)]
pub fn shown(alloc: Global, ty: &Ty) -> Result<Ty, AllocError>
    ensures { IfOk result (λ t. type_tree t ≡ fault.shown_type (type_tree ty.now)) }
{
    Ok(match ty {
        Ty::Bound(i) => Ty::Bound(*i),
        Ty::Param(n) => match u32::try_from(*n) {
            Ok(outer) => Ty::Bound(outer),
            Err(_) => return Err(AllocError),
        },
        Ty::Meta(n) => Ty::Meta(*n),
        Ty::Con(c, types) => Ty::Con(*c, all_shown(alloc, types)?),
    })
}

#[cycle(shown)]
#[tactic(auto, using(crate::proofs::TypeLists::shown_step))]
fn all_shown(alloc: Global, types: &Tys) -> Result<Tys, AllocError>
    ensures { IfOk result (λ ts. types_tree ts ≡ fault.shown_types (types_tree types.now)) }
{
    let mut all = Tys::new(alloc);
    for ty in types.as_slice() {
        all.push(shown(alloc, ty)?)?;
    }
    Ok(all)
}

fn bound(index: u32) -> Ty
    ensures { type_tree result ≡ tree.Ty.bound index }
{
    Ty::Bound(index)
}

// What an index stands for.
#[tactic(auto, using(crate::proofs::TypeLists::picked_here, crate::proofs::TypeLists::picked_past))]
fn picked(alloc: Global, parts: &Tys, index: u32) -> Result<Ty, AllocError>
    ensures { IfOk result (λ t. type_tree t ≡ at.picked (types_tree parts.now) index) }
{
    let parts = parts.as_slice();
    let inner = index as usize;
    if inner < parts.len() {
        parts[parts.len() - 1 - inner].copy(alloc)
    } else {
        Ok(bound(index))
    }
}

/// A declared type at the types that its type variables stand for.
#[cycle(filled)]
pub fn filled(alloc: Global, ty: &Ty, parts: &Tys) -> Result<Ty, AllocError>
    ensures { IfOk result (λ t. type_tree t ≡ at.filled (types_tree parts.now) (type_tree ty.now)) }
{
    match ty {
        Ty::Bound(i) => picked(alloc, parts, *i),
        Ty::Param(n) => Ok(Ty::Param(*n)),
        Ty::Meta(n) => Ok(Ty::Meta(*n)),
        Ty::Con(c, types) => Ok(Ty::Con(*c, all_filled(alloc, types, parts)?)),
    }
}

/// Declared types at the types that their type variables stand for.
#[cycle(filled)]
#[tactic(auto, using(crate::proofs::TypeLists::filled_step))]
pub fn all_filled(alloc: Global, types: &Tys, parts: &Tys) -> Result<Tys, AllocError>
    ensures { IfOk result (λ ts. types_tree ts ≡ at.all_filled (types_tree parts.now) (types_tree types.now)) }
{
    let mut all = Tys::new(alloc);
    for ty in types.as_slice() {
        all.push(filled(alloc, ty, parts)?)?;
    }
    Ok(all)
}
