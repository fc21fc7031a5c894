//! The prelude's declarations.

ghost use Rattle.std.specs.Prelude.{◌≡◌, IfOk, OnOk, ◌++◌, [], ◌∷◌, false};
ghost use Rattle.lp_terms.specs.Term as plain;
ghost use Rattle.lp_terms.specs.Signature as signature;
ghost use Rattle.lp_terms.specs.View.{term_of, entries_of};
ghost use Rattle.lp_signature.specs.Prelude as prelude;

use crate::parts::{
    applied, over_props, over_terms, over_types, predicates, proofs, prop, terms, type_predicates,
    types, variable,
};
use lp_terms::{Entries, Entry, Lp, Text};
use std::alloc::{AllocError, Global};

/// Puts a declaration at the end.
pub fn declare(
    alloc: Global,
    entries: &mut Entries,
    name: &str,
    definable: bool,
    ty: Lp,
) -> Result<(), AllocError>
    ensures { OnOk result (entries_of entries.new ≡ entries_of entries.old ++ signature.Entry.declare name.now definable (term_of ty) ∷ []) }
{
    let name = Text::of(alloc, name)?;
    entries.push(Entry::Declare {
        name,
        definable,
        ty,
    })
}

// prop -> prop -> prop
fn connective(alloc: Global) -> Result<Lp, AllocError>
    ensures { IfOk result (λ t. term_of t ≡ prelude.connective_type) }
{
    let result = prop(alloc)?;
    let second = over_props(alloc, result)?;
    over_props(alloc, second)
}

// prop -> prop
fn negation(alloc: Global) -> Result<Lp, AllocError>
    ensures { IfOk result (λ t. term_of t ≡ plain.Lp.prod prelude.prop prelude.prop) }
{
    let result = prop(alloc)?;
    over_props(alloc, result)
}

// (term x0 -> prop) -> prop
fn on_predicates(alloc: Global) -> Result<Lp, AllocError>
    ensures { IfOk result (λ t. term_of t ≡ plain.Lp.prod (plain.Lp.prod (prelude.term (plain.Lp.index 0)) prelude.prop) prelude.prop) }
{
    let predicate = predicates(alloc, 0)?;
    let result = prop(alloc)?;
    Lp::product(alloc, predicate, result)
}

// x0 : type -> (term x0 -> prop) -> prop
fn quantifier(alloc: Global) -> Result<Lp, AllocError>
    ensures { IfOk result (λ t. term_of t ≡ prelude.quantifier_type) }
{
    let result = on_predicates(alloc)?;
    over_types(alloc, result)
}

// (type -> prop) -> prop
fn type_quantifier(alloc: Global) -> Result<Lp, AllocError>
    ensures { IfOk result (λ t. term_of t ≡ prelude.type_quantifier_type) }
{
    let predicate = type_predicates(alloc)?;
    let result = prop(alloc)?;
    Lp::product(alloc, predicate, result)
}

// x0 : type -> term x0
fn element(alloc: Global) -> Result<Lp, AllocError>
    ensures { IfOk result (λ t. term_of t ≡ plain.Lp.prod prelude.types (prelude.term (plain.Lp.index 0))) }
{
    let result = terms(alloc, 0)?;
    over_types(alloc, result)
}

// x0 : type -> term x0 -> term x0 -> prop
fn equality(alloc: Global) -> Result<Lp, AllocError>
    ensures { IfOk result (λ t. term_of t ≡ plain.Lp.prod prelude.types (plain.Lp.prod (prelude.term (plain.Lp.index 0)) (plain.Lp.prod (prelude.term (plain.Lp.index 1)) prelude.prop))) }
{
    let result = prop(alloc)?;
    let second = over_terms(alloc, 1, result)?;
    let first = over_terms(alloc, 0, second)?;
    over_types(alloc, first)
}

// prf (not (not x0)) -> prf x0, under the binder of x0
fn from_double_negation(alloc: Global) -> Result<Lp, AllocError>
    ensures { IfOk result (λ t. term_of t ≡ plain.Lp.prod (prelude.prf (prelude.not_of (prelude.not_of (plain.Lp.index 0)))) (prelude.prf (plain.Lp.index 1))) }
{
    let once = applied(alloc, "not", variable(0))?;
    let twice = applied(alloc, "not", once)?;
    let premise = proofs(alloc, twice)?;
    let result = proofs(alloc, variable(1))?;
    Lp::product(alloc, premise, result)
}

// x0 : prop -> prf (not (not x0)) -> prf x0
fn by_contradiction(alloc: Global) -> Result<Lp, AllocError>
    ensures { IfOk result (λ t. term_of t ≡ prelude.nnpp_type) }
{
    let result = from_double_negation(alloc)?;
    over_props(alloc, result)
}

/// Propositions, their proofs, types and their terms.
pub fn add_sorts(alloc: Global, entries: &mut Entries) -> Result<(), AllocError>
    ensures { OnOk result (entries_of entries.new ≡ entries_of entries.old ++ prelude.prop_entry ∷ prelude.prf_entry ∷ prelude.type_entry ∷ prelude.term_entry ∷ []) }
{
    declare(alloc, entries, "prop", false, Lp::Sort)?;
    let proofs = over_props(alloc, Lp::Sort)?;
    declare(alloc, entries, "prf", true, proofs)?;
    declare(alloc, entries, "type", false, Lp::Sort)?;
    let terms = over_types(alloc, Lp::Sort)?;
    declare(alloc, entries, "term", false, terms)
}

/// A type, a term of each type, and the two constant propositions.
pub fn add_constants(alloc: Global, entries: &mut Entries) -> Result<(), AllocError>
    ensures { OnOk result (entries_of entries.new ≡ entries_of entries.old ++ prelude.iota_entry ∷ prelude.any_entry ∷ prelude.true_entry ∷ prelude.false_entry ∷ []) }
{
    let ty = types(alloc)?;
    declare(alloc, entries, "iota", false, ty)?;
    let ty = element(alloc)?;
    declare(alloc, entries, "any", false, ty)?;
    let ty = prop(alloc)?;
    declare(alloc, entries, "true", false, ty)?;
    let ty = prop(alloc)?;
    declare(alloc, entries, "false", false, ty)
}

fn declare_connective(alloc: Global, entries: &mut Entries, name: &str) -> Result<(), AllocError>
    ensures { OnOk result (entries_of entries.new ≡ entries_of entries.old ++ signature.Entry.declare name.now false prelude.connective_type ∷ []) }
{
    let ty = connective(alloc)?;
    declare(alloc, entries, name, false, ty)
}

/// The connectives.
pub fn add_connectives(alloc: Global, entries: &mut Entries) -> Result<(), AllocError>
    ensures { OnOk result (entries_of entries.new ≡ entries_of entries.old ++ prelude.not_entry ∷ prelude.and_entry ∷ prelude.or_entry ∷ prelude.imp_entry ∷ prelude.iff_entry ∷ []) }
{
    let ty = negation(alloc)?;
    declare(alloc, entries, "not", false, ty)?;
    declare_connective(alloc, entries, "and")?;
    declare_connective(alloc, entries, "or")?;
    declare_connective(alloc, entries, "imp")?;
    declare_connective(alloc, entries, "iff")
}

fn declare_quantifier(alloc: Global, entries: &mut Entries, name: &str) -> Result<(), AllocError>
    ensures { OnOk result (entries_of entries.new ≡ entries_of entries.old ++ signature.Entry.declare name.now false prelude.quantifier_type ∷ []) }
{
    let ty = quantifier(alloc)?;
    declare(alloc, entries, name, false, ty)
}

fn declare_type_quantifier(
    alloc: Global,
    entries: &mut Entries,
    name: &str,
) -> Result<(), AllocError>
    ensures { OnOk result (entries_of entries.new ≡ entries_of entries.old ++ signature.Entry.declare name.now false prelude.type_quantifier_type ∷ []) }
{
    let ty = type_quantifier(alloc)?;
    declare(alloc, entries, name, false, ty)
}

fn declare_equality(alloc: Global, entries: &mut Entries) -> Result<(), AllocError>
    ensures { OnOk result (entries_of entries.new ≡ entries_of entries.old ++ prelude.eq_entry ∷ []) }
{
    let ty = equality(alloc)?;
    declare(alloc, entries, "eq", true, ty)
}

/// The quantifiers but the one for a type that exists, and equality.
pub fn add_quantifiers(alloc: Global, entries: &mut Entries) -> Result<(), AllocError>
    ensures { OnOk result (entries_of entries.new ≡ entries_of entries.old ++ prelude.forall_entry ∷ prelude.exists_entry ∷ prelude.forall_type_entry ∷ prelude.eq_entry ∷ []) }
{
    declare_quantifier(alloc, entries, "forall")?;
    declare_quantifier(alloc, entries, "exists")?;
    declare_type_quantifier(alloc, entries, "forall_type")?;
    declare_equality(alloc, entries)
}

/// The proof by contradiction, and the quantifier for a type that exists.
pub fn add_last_declarations(alloc: Global, entries: &mut Entries) -> Result<(), AllocError>
    ensures { OnOk result (entries_of entries.new ≡ entries_of entries.old ++ prelude.nnpp_entry ∷ prelude.exists_type_entry ∷ []) }
{
    let ty = by_contradiction(alloc)?;
    declare(alloc, entries, "nnpp", false, ty)?;
    declare_type_quantifier(alloc, entries, "exists_type")
}
