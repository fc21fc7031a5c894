//! The signature of a problem and a selection of its rules.

ghost use Rattle.std.specs.Prelude.{◌≡◌, ◌≢◌, ◌<◌, ◌^◌, ◌++◌, [], ◌∷◌, true};
ghost use Rattle.std.specs.Prelude.{false, Some, None, length, slice_get, IfOk, OnOk, map};
ghost use Rattle.lp_terms.specs.File.{IsFile};
ghost use Rattle.lp_terms.specs.Signature as signature;
ghost use Rattle.lp_terms.specs.View.{term_of, terms_of, entries_of};
ghost use Rattle.zm_logic.specs.View.{form_tree, binder_tree, side_tree, rule_tree, premise_tree, problem_tree};
ghost use Rattle.rule_select.specs.Selection.{IsSelection, kept_of};
ghost use Rattle.rule_select.specs.View.{selection_tree};
ghost use Rattle.lp_signature.specs.Declarable.{IsWritable};
ghost use Rattle.lp_signature.specs.Names as names;
ghost use Rattle.lp_signature.specs.Prelude as prelude;
ghost use Rattle.lp_signature.specs.Problem as whole;
ghost use Rattle.lp_signature.specs.Translation as translation;
ghost use Rattle.lp_signature.specs.View.{symbols_tree};

use crate::declarations::add_symbols;
use crate::names::premise_name;
use crate::parts::{applied, proofs, types};
use crate::rewrites::rule;
use crate::translation::{translate_form, translate_term, translate_type};
use crate::whole::prelude;
use lp_terms::{Entries, Entry, Lp, Lps};
use rule_select::Selection;
use sqlite_items::{Items, at};
use std::alloc::{AllocError, Global};
use zm_logic::{Binder, Form, Premise, Problem, Rule, Side, Symbol, TypedProblem};

// The type of a rule's context variable.
fn binder_type(alloc: Global, symbols: &[Symbol], binder: &Binder) -> Result<Lp, AllocError>
    ensures { IfOk result (λ t. term_of t ≡ whole.binder_type (symbols_tree symbols.now) (binder_tree binder.now)) }
{
    match binder {
        Binder::OfType => types(alloc),
        Binder::OfTerm(ty) => {
            let ty = translate_type(alloc, symbols, &[], 0, ty)?;
            applied(alloc, "term", ty)
        }
    }
}

// A rule's context.
fn rule_context(alloc: Global, symbols: &[Symbol], binders: &[Binder]) -> Result<Lps, AllocError>
    ensures { IfOk result (λ c. terms_of c ≡
        map (whole.binder_type (symbols_tree symbols.now)) (map binder_tree binders.now)) }
{
    let mut context = Items::new(alloc);
    for binder in binders {
        context.push(binder_type(alloc, symbols, binder)?)?;
    }
    Ok(context)
}

// A side of a rule.
fn translate_side(alloc: Global, symbols: &[Symbol], side: &Side) -> Result<Lp, AllocError>
    ensures { IfOk result (λ t. term_of t ≡ whole.side_of (symbols_tree symbols.now) (side_tree side.now)) }
{
    match side {
        Side::OfTerm(term) => translate_term(alloc, symbols, &[], term),
        Side::OfForm(form) => translate_form(alloc, symbols, &[], form),
    }
}

// Puts a rule of the problem at the end.
fn add_rule(
    alloc: Global,
    symbols: &[Symbol],
    added: &Rule,
    entries: &mut Entries,
) -> Result<(), AllocError>
    ensures { OnOk result (entries_of entries.new ≡
        entries_of entries.old ++ whole.rule_entry (symbols_tree symbols.now) (rule_tree added.now) ∷ []) }
{
    let context = rule_context(alloc, symbols, added.binders.as_slice())?;
    let left = translate_side(alloc, symbols, &added.left)?;
    let right = translate_side(alloc, symbols, &added.right)?;
    rule(entries, context, left, right)
}

// Puts the rules at the end.
#[tactic(auto, using(crate::proofs::Declared::rules_more))]
fn add_rules(
    alloc: Global,
    symbols: &[Symbol],
    rules: &[Rule],
    entries: &mut Entries,
) -> Result<(), AllocError>
    ensures { OnOk result (entries_of entries.new ≡
        entries_of entries.old ++ map (whole.rule_entry (symbols_tree symbols.now)) (map rule_tree rules.now)) }
{
    for added in rules {
        add_rule(alloc, symbols, added, entries)?;
    }
    Ok(())
}

// What a premise's constant proves.
fn premise_type(alloc: Global, symbols: &[Symbol], form: &Form) -> Result<Lp, AllocError>
    ensures { IfOk result (λ t. term_of t ≡
        prelude.prf (translation.form_of (symbols_tree symbols.now) translation.Scope.none (form_tree form.now))) }
{
    let form = translate_form(alloc, symbols, &[], form)?;
    proofs(alloc, form)
}

// Puts the declaration of the kept premise of this number at the end.
fn add_premise(
    alloc: Global,
    symbols: &[Symbol],
    number: usize,
    form: &Form,
    entries: &mut Entries,
) -> Result<(), AllocError>
    ensures { OnOk result (entries_of entries.new ≡
        entries_of entries.old ++ signature.Entry.declare (names.premise_name number) false (prelude.prf
        (translation.form_of (symbols_tree symbols.now) translation.Scope.none (form_tree form.now))) ∷ []) }
{
    let name = premise_name(alloc, number)?;
    let ty = premise_type(alloc, symbols, form)?;
    entries.push(Entry::Declare {
        name,
        definable: false,
        ty,
    })
}

// Whether the premise at the place has no rule.
fn is_kept(rule_of: &[Option<usize>], place: usize) -> bool
    ensures kept { result ≡ true → slice_get rule_of.now place ≡ Some None }
    ensures others { result ≡ false → slice_get rule_of.now place ≢ Some None }
{
    match at(rule_of, place) {
        Some(None) => true,
        Some(Some(_)) | None => false,
    }
}

// Puts the declarations of the kept premises at the end.
fn add_premises(
    alloc: Global,
    symbols: &[Symbol],
    premises: &[Premise],
    rule_of: &[Option<usize>],
    entries: &mut Entries,
) -> Result<(), AllocError>
    ensures entries { OnOk result (entries_of entries.new ≡
        entries_of entries.old ++ whole.premise_entries (symbols_tree symbols.now) 0 (kept_of
        (map premise_tree premises.now) rule_of.now)) }
    ensures few { length premises.now < 2 ^ 64 }
{
    let mut number = 0;
    for (place, premise) in premises.iter().enumerate() {
        if is_kept(rule_of, place) {
            add_premise(alloc, symbols, number, &premise.form, entries)?;
            number += 1;
        }
    }
    Ok(())
}

// The entries of the signature.
fn signature_entries(
    alloc: Global,
    problem: &Problem,
    selection: &Selection,
) -> Result<Entries, AllocError>
    ensures entries { IfOk result (λ es. entries_of es ≡
        whole.signature (problem_tree problem.now) (selection_tree selection.now)) }
    ensures writable { IfOk result (λ es. IsWritable (problem_tree problem.now)) }
{
    let symbols = problem.symbols.as_slice();
    let rules = selection.rules.as_slice();
    let premises = problem.premises.as_slice();
    let mut signature = prelude(alloc)?;
    add_symbols(alloc, symbols, rules, &mut signature)?;
    add_rules(alloc, symbols, rules, &mut signature)?;
    add_premises(
        alloc,
        symbols,
        premises,
        selection.rule_of.as_slice(),
        &mut signature,
    )?;
    Ok(signature)
}

/// The signature of a problem and a selection of its rules: the prelude, a declaration of each symbol, a rewrite rule for
/// each rule, and a declaration of each kept premise, in order. The one error is want of memory, which as many arguments of
/// one symbol as `NUMBER_LIMIT` are too.
pub fn signature_of(
    alloc: Global,
    problem: &TypedProblem,
    selection: &Selection,
) -> Result<Entries, AllocError>
    ensures entries { IfOk result (λ es. entries_of es ≡
        whole.signature (problem_tree problem.now) (selection_tree selection.now)) }
    ensures file { IfOk result (λ es. IsSelection (problem_tree problem.now) (selection_tree selection.now) → IsFile
        (entries_of es)) }
{
    let typed = problem.problem();
    signature_entries(alloc, typed, selection)
}
