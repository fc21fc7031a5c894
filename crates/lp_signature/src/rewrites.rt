//! The prelude's rules.

ghost use Rattle.std.specs.Prelude.{◌≡◌, IfOk, OnOk, ◌++◌, [], ◌∷◌, codes};
ghost use Rattle.lp_terms.specs.Term as plain;
ghost use Rattle.lp_terms.specs.Signature as signature;
ghost use Rattle.lp_terms.specs.View.{term_of, terms_of, entries_of};
ghost use Rattle.lp_signature.specs.Prelude as prelude;

use crate::contexts::{
    no_variable, one_proposition, two_propositions, type_and_predicate, type_and_two_terms,
    type_predicate,
};
use crate::eliminations::{
    and_right, at_terms, eq_right, exists_right, exists_type_right, false_right, or_right,
};
use crate::parts::{
    applied, applied_twice, over_proofs, over_types, proofs, proofs_at, proofs_of, variable,
};
use lp_terms::{Entries, Entry, Lp, Lps};
use std::alloc::{AllocError, Global};

/// Puts a rule at the end.
pub fn rule(entries: &mut Entries, context: Lps, left: Lp, right: Lp) -> Result<(), AllocError>
    ensures { OnOk result (entries_of entries.new ≡ entries_of entries.old ++ signature.Entry.rule (terms_of context) (term_of left) (term_of right) ∷ []) }
{
    entries.push(Entry::Rule {
        context,
        left,
        right,
    })
}

// prf (name x0), where the index of x0 is 0
fn left_one(alloc: Global, name: &str) -> Result<Lp, AllocError>
    ensures { IfOk result (λ t. term_of t ≡ prelude.prf (plain.Lp.app (plain.Lp.const name.now) (plain.Lp.index 0))) }
{
    let proposition = applied(alloc, name, variable(0))?;
    proofs(alloc, proposition)
}

// prf (name x0 x1), where the index of x1 is 0
fn left_two(alloc: Global, name: &str) -> Result<Lp, AllocError>
    ensures { IfOk result (λ t. term_of t ≡ prelude.prf (plain.Lp.app (plain.Lp.app (plain.Lp.const name.now) (plain.Lp.index 1)) (plain.Lp.index 0))) }
{
    let proposition = applied_twice(alloc, name, 1, 0)?;
    proofs(alloc, proposition)
}

// [] prf true --> prf false -> prf false.
fn add_true(alloc: Global, entries: &mut Entries) -> Result<(), AllocError>
    ensures { OnOk result (entries_of entries.new ≡ entries_of entries.old ++ prelude.true_rule ∷ []) }
{
    let left = proofs_of(alloc, "true")?;
    let right = true_right(alloc)?;
    rule(entries, no_variable(alloc), left, right)
}

fn true_right(alloc: Global) -> Result<Lp, AllocError>
    ensures { IfOk result (λ t. term_of t ≡ plain.Lp.prod (prelude.prf prelude.falsity) (prelude.prf prelude.falsity)) }
{
    let premise = proofs_of(alloc, "false")?;
    let result = proofs_of(alloc, "false")?;
    Lp::product(alloc, premise, result)
}

// [] prf false --> x0 : prop -> prf x0.
fn add_false(alloc: Global, entries: &mut Entries) -> Result<(), AllocError>
    ensures { OnOk result (entries_of entries.new ≡ entries_of entries.old ++ prelude.false_rule ∷ []) }
{
    let left = proofs_of(alloc, "false")?;
    let right = false_right(alloc)?;
    rule(entries, no_variable(alloc), left, right)
}

// [x0 : prop] prf (not x0) --> prf x0 -> prf false.
fn add_not(alloc: Global, entries: &mut Entries) -> Result<(), AllocError>
    ensures { OnOk result (entries_of entries.new ≡ entries_of entries.old ++ prelude.not_rule ∷ []) }
{
    let context = one_proposition(alloc)?;
    let left = left_one(alloc, "not")?;
    let right = not_right(alloc)?;
    rule(entries, context, left, right)
}

fn not_right(alloc: Global) -> Result<Lp, AllocError>
    ensures { IfOk result (λ t. term_of t ≡ plain.Lp.prod (prelude.prf (plain.Lp.index 0)) (prelude.prf prelude.falsity)) }
{
    let result = proofs_of(alloc, "false")?;
    over_proofs(alloc, 0, result)
}

// [x0 : prop, x1 : prop] prf (and x0 x1) --> x2 : prop -> (prf x0 -> prf x1 -> prf x2) -> prf x2.
fn add_and(alloc: Global, entries: &mut Entries) -> Result<(), AllocError>
    ensures { OnOk result (entries_of entries.new ≡ entries_of entries.old ++ prelude.and_rule ∷ []) }
{
    let context = two_propositions(alloc)?;
    let left = left_two(alloc, "and")?;
    let right = and_right(alloc)?;
    rule(entries, context, left, right)
}

// [x0 : prop, x1 : prop] prf (or x0 x1) --> x2 : prop -> (prf x0 -> prf x2) -> (prf x1 -> prf x2) -> prf x2.
fn add_or(alloc: Global, entries: &mut Entries) -> Result<(), AllocError>
    ensures { OnOk result (entries_of entries.new ≡ entries_of entries.old ++ prelude.or_rule ∷ []) }
{
    let context = two_propositions(alloc)?;
    let left = left_two(alloc, "or")?;
    let right = or_right(alloc)?;
    rule(entries, context, left, right)
}

// [x0 : prop, x1 : prop] prf (imp x0 x1) --> prf x0 -> prf x1.
fn add_imp(alloc: Global, entries: &mut Entries) -> Result<(), AllocError>
    ensures { OnOk result (entries_of entries.new ≡ entries_of entries.old ++ prelude.imp_rule ∷ []) }
{
    let context = two_propositions(alloc)?;
    let left = left_two(alloc, "imp")?;
    let right = imp_right(alloc)?;
    rule(entries, context, left, right)
}

// prf x0 -> prf x1
fn imp_right(alloc: Global) -> Result<Lp, AllocError>
    ensures { IfOk result (λ t. term_of t ≡ plain.Lp.prod (prelude.prf (plain.Lp.index 1)) (prelude.prf (plain.Lp.index 1))) }
{
    let result = proofs(alloc, variable(1))?;
    over_proofs(alloc, 1, result)
}

// [x0 : prop, x1 : prop] prf (iff x0 x1) --> prf (and (imp x0 x1) (imp x1 x0)).
fn add_iff(alloc: Global, entries: &mut Entries) -> Result<(), AllocError>
    ensures { OnOk result (entries_of entries.new ≡ entries_of entries.old ++ prelude.iff_rule ∷ []) }
{
    let context = two_propositions(alloc)?;
    let left = left_two(alloc, "iff")?;
    let right = iff_right(alloc)?;
    rule(entries, context, left, right)
}

// prf (and (imp x0 x1) (imp x1 x0))
fn iff_right(alloc: Global) -> Result<Lp, AllocError>
    ensures { IfOk result (λ t. term_of t ≡ prelude.prf (prelude.and_of (prelude.imp_of (plain.Lp.index 1) (plain.Lp.index 0)) (prelude.imp_of (plain.Lp.index 0) (plain.Lp.index 1)))) }
{
    let both = both_ways(alloc)?;
    proofs(alloc, both)
}

fn both_ways(alloc: Global) -> Result<Lp, AllocError>
    ensures { IfOk result (λ t. term_of t ≡ prelude.and_of (prelude.imp_of (plain.Lp.index 1) (plain.Lp.index 0)) (prelude.imp_of (plain.Lp.index 0) (plain.Lp.index 1))) }
{
    let forth = applied_twice(alloc, "imp", 1, 0)?;
    let forth = applied(alloc, "and", forth)?;
    let back = applied_twice(alloc, "imp", 0, 1)?;
    Lp::application(alloc, forth, back)
}

// [x0 : type, x1 : term x0 -> prop] prf (forall x0 x1) --> x2 : term x0 -> prf (x1 x2).
fn add_forall(alloc: Global, entries: &mut Entries) -> Result<(), AllocError>
    ensures { OnOk result (entries_of entries.new ≡ entries_of entries.old ++ prelude.forall_rule ∷ []) }
{
    let context = type_and_predicate(alloc)?;
    let left = left_two(alloc, "forall")?;
    let right = at_terms(alloc)?;
    rule(entries, context, left, right)
}

// [x0 : type, x1 : term x0 -> prop] prf (exists x0 x1) --> x2 : prop -> (x3 : term x0 -> prf (x1 x3) -> prf x2) -> prf x2.
fn add_exists(alloc: Global, entries: &mut Entries) -> Result<(), AllocError>
    ensures { OnOk result (entries_of entries.new ≡ entries_of entries.old ++ prelude.exists_rule ∷ []) }
{
    let context = type_and_predicate(alloc)?;
    let left = left_two(alloc, "exists")?;
    let right = exists_right(alloc)?;
    rule(entries, context, left, right)
}

// [x0 : type -> prop] prf (forall_type x0) --> x1 : type -> prf (x0 x1).
fn add_forall_type(alloc: Global, entries: &mut Entries) -> Result<(), AllocError>
    ensures { OnOk result (entries_of entries.new ≡ entries_of entries.old ++ prelude.forall_type_rule ∷ []) }
{
    let context = type_predicate(alloc)?;
    let left = left_one(alloc, "forall_type")?;
    let right = at_types(alloc)?;
    rule(entries, context, left, right)
}

// x1 : type -> prf (x0 x1)
fn at_types(alloc: Global) -> Result<Lp, AllocError>
    ensures { IfOk result (λ t. term_of t ≡ plain.Lp.prod prelude.types (prelude.prf (plain.Lp.app (plain.Lp.index 1) (plain.Lp.index 0)))) }
{
    let result = proofs_at(alloc, 1, 0)?;
    over_types(alloc, result)
}

// [x0 : type, x1 : term x0, x2 : term x0] prf (eq x0 x1 x2) --> x3 : (term x0 -> prop) -> prf (x3 x1) -> prf (x3 x2).
fn add_eq(alloc: Global, entries: &mut Entries) -> Result<(), AllocError>
    ensures { OnOk result (entries_of entries.new ≡ entries_of entries.old ++ prelude.eq_rule ∷ []) }
{
    let context = type_and_two_terms(alloc)?;
    let left = eq_left(alloc)?;
    let right = eq_right(alloc)?;
    rule(entries, context, left, right)
}

// prf (eq x0 x1 x2)
fn eq_left(alloc: Global) -> Result<Lp, AllocError>
    ensures { IfOk result (λ t. term_of t ≡ prelude.prf (prelude.eq_of (plain.Lp.index 2) (plain.Lp.index 1) (plain.Lp.index 0))) }
{
    let sides = applied_twice(alloc, "eq", 2, 1)?;
    let proposition = Lp::application(alloc, sides, variable(0))?;
    proofs(alloc, proposition)
}

// [x0 : type -> prop] prf (exists_type x0) --> x1 : prop -> (x2 : type -> prf (x0 x2) -> prf x1) -> prf x1.
/// Adds the rule of the quantifier for a type that exists.
pub fn add_exists_type(alloc: Global, entries: &mut Entries) -> Result<(), AllocError>
    ensures { OnOk result (entries_of entries.new ≡ entries_of entries.old ++ prelude.exists_type_rule ∷ []) }
{
    let context = type_predicate(alloc)?;
    let left = left_one(alloc, "exists_type")?;
    let right = exists_type_right(alloc)?;
    rule(entries, context, left, right)
}

/// The rules of the connectives.
pub fn add_connective_rules(alloc: Global, entries: &mut Entries) -> Result<(), AllocError>
    ensures { OnOk result (entries_of entries.new ≡ entries_of entries.old ++ prelude.true_rule ∷ prelude.false_rule ∷ prelude.not_rule ∷ prelude.and_rule ∷ prelude.or_rule ∷ prelude.imp_rule ∷ prelude.iff_rule ∷ []) }
{
    add_true(alloc, entries)?;
    add_false(alloc, entries)?;
    add_not(alloc, entries)?;
    add_and(alloc, entries)?;
    add_or(alloc, entries)?;
    add_imp(alloc, entries)?;
    add_iff(alloc, entries)
}

/// The rules of the quantifiers and of equality, but the one for a type that exists.
pub fn add_quantifier_rules(alloc: Global, entries: &mut Entries) -> Result<(), AllocError>
    ensures { OnOk result (entries_of entries.new ≡ entries_of entries.old ++ prelude.forall_rule ∷ prelude.exists_rule ∷ prelude.forall_type_rule ∷ prelude.eq_rule ∷ []) }
{
    add_forall(alloc, entries)?;
    add_exists(alloc, entries)?;
    add_forall_type(alloc, entries)?;
    add_eq(alloc, entries)
}
