//! The declarations of a problem's symbols.

ghost use Rattle.std.specs.Prelude.{◌≡◌, ℕ, ◌+◌, ◌<◌, ◌++◌, [], ◌∷◌, List, All, IfOk, OnOk, map};
ghost use Rattle.lp_terms.specs.Term as plain;
ghost use Rattle.lp_terms.specs.Signature as signature;
ghost use Rattle.lp_terms.specs.View.{term_of, entries_of};
ghost use Rattle.zm_logic.specs.Tree as tree;
ghost use Rattle.zm_logic.specs.View.{type_tree, types_tree, sense_tree, symbol_tree, side_tree, rule_tree};
ghost use Rattle.zm_logic.specs.declared.rule.Side.TheVariants as TheSides;
ghost use Rattle.lp_signature.specs.Declarable.{IsDeclarable};
ghost use Rattle.lp_signature.specs.Names as names;
ghost use Rattle.lp_signature.specs.Prelude as prelude;
ghost use Rattle.lp_signature.specs.Problem as problem;
ghost use Rattle.lp_signature.specs.Translation as translation;
ghost use Rattle.lp_signature.specs.View.{symbols_tree};

use crate::names::symbol_name;
use crate::parts::{applied, over_types, prop, types};
use crate::translation::translate_type;
use lp_terms::{Entries, Entry, Lp};
use std::alloc::{AllocError, Global};
use zm_logic::{Form, Rule, Sense, Side, Symbol, Term, Ty};

// The terms of a type of a declaration, under so many arguments.
fn terms_of_type(alloc: Global, symbols: &[Symbol], under: u32, ty: &Ty) -> Result<Lp, AllocError>
    ensures { IfOk result (λ t. term_of t ≡
        prelude.term (translation.type_of (symbols_tree symbols.now) translation.Scope.none under
        (type_tree ty.now))) }
{
    let ty = translate_type(alloc, symbols, &[], under, ty)?;
    applied(alloc, "term", ty)
}

// What a symbol makes of its arguments, under so many of them.
fn result_type(
    alloc: Global,
    symbols: &[Symbol],
    under: u32,
    sense: &Sense,
) -> Result<Lp, AllocError>
    ensures { IfOk result (λ t. term_of t ≡
        translation.result_type (symbols_tree symbols.now) under (sense_tree sense.now)) }
{
    match sense {
        Sense::Constructor => types(alloc),
        Sense::Predicate => prop(alloc),
        Sense::Function(result) => terms_of_type(alloc, symbols, under, result),
    }
}

// The product over the terms of a type, which stands under so many arguments.
fn over_argument(
    alloc: Global,
    symbols: &[Symbol],
    under: u32,
    ty: &Ty,
    codomain: Lp,
) -> Result<Lp, AllocError>
    ensures { IfOk result (λ t. term_of t ≡
        plain.Lp.prod (prelude.term (translation.type_of (symbols_tree symbols.now) translation.Scope.none under
        (type_tree ty.now))) (term_of codomain)) }
{
    let domain = terms_of_type(alloc, symbols, under, ty)?;
    Lp::product(alloc, domain, codomain)
}

// The number of arguments. More than a u32 counts are want of memory.
fn count(arguments: usize) -> Result<u32, AllocError>
    ensures { IfOk result (λ n. n ≡ arguments) }
{
    match u32::try_from(arguments) {
        Ok(count) => Ok(count),
        Err(_) => Err(AllocError),
    }
}

// The products over the terms of the argument types.
#[tactic(auto, using(crate::proofs::Declared::arrows_end, crate::proofs::Declared::arrows_more))]
fn arrows(
    alloc: Global,
    symbols: &[Symbol],
    arguments: &[Ty],
    sense: &Sense,
) -> Result<Lp, AllocError>
    ensures { IfOk result (λ t. term_of t ≡
        translation.arrows (symbols_tree symbols.now) 0 (types_tree arguments.now) (sense_tree sense.now)) }
{
    let count = count(arguments.len())?;
    let mut product = result_type(alloc, symbols, count, sense)?;
    for under in (0..count).rev() {
        product = over_argument(alloc, symbols, under, &arguments[under as usize], product)?;
    }
    Ok(product)
}

// The product over the types, so many times.
#[tactic(auto, using(crate::proofs::Declared::over_types_more))]
fn over_types_times(alloc: Global, times: u32, codomain: Lp) -> Result<Lp, AllocError>
    ensures { IfOk result (λ t. (ss : List tree.Symbol) → term_of t ≡
        translation.over_types ss times (term_of codomain)) }
{
    let mut product = codomain;
    let mut made = 0;
    while made < times {
        product = over_types(alloc, product)?;
        made += 1;
    }
    Ok(product)
}

// The type of a symbol's constant.
fn symbol_type(alloc: Global, symbols: &[Symbol], symbol: &Symbol) -> Result<Lp, AllocError>
    ensures { IfOk result (λ t. term_of t ≡
        translation.symbol_type (symbols_tree symbols.now) (symbol_tree symbol.now)) }
{
    let arrows = arrows(alloc, symbols, symbol.arguments.as_slice(), &symbol.sense)?;
    over_types_times(alloc, symbol.types, arrows)
}

// Whether the symbol of the number heads the term.
fn heads_term(number: usize, term: &Term) -> bool
    ensures { result ≡ problem.is_head number (side_tree (TheSides.OfTerm term.now)) }
{
    match term {
        Term::App(function, _, _) => number == function.0 as usize,
        Term::Bound(_) | Term::Eps(_, _) | Term::Meta(_, _) => false,
    }
}

// Whether the symbol of the number heads the formula.
fn heads_form(number: usize, form: &Form) -> bool
    ensures { result ≡ problem.is_head number (side_tree (TheSides.OfForm form.now)) }
{
    match form {
        Form::Atom(predicate, _, _) => number == predicate.0 as usize,
        Form::True
        | Form::False
        | Form::Equal(_, _, _)
        | Form::Not(_)
        | Form::And(_, _)
        | Form::Or(_, _)
        | Form::Imp(_, _)
        | Form::Iff(_, _)
        | Form::All(_, _)
        | Form::Ex(_, _)
        | Form::AllType(_)
        | Form::ExType(_) => false,
    }
}

// Whether the symbol of the number heads the side.
fn is_head(number: usize, side: &Side) -> bool
    ensures { result ≡ problem.is_head number (side_tree side.now) }
{
    match side {
        Side::OfTerm(term) => heads_term(number, term),
        Side::OfForm(form) => heads_form(number, form),
    }
}

// Whether some rule rewrites what the symbol of the number makes.
#[tactic(auto, using(crate::proofs::Declared::heads_found, crate::proofs::Declared::heads_passed))]
fn heads(rules: &[Rule], number: usize) -> bool
    ensures { result ≡ problem.heads (map rule_tree rules.now) number }
{
    for rule in rules {
        if is_head(number, &rule.left) {
            return true;
        }
    }
    false
}

// Puts the declaration of the symbol of this number at the end.
fn declare_symbol(
    alloc: Global,
    symbols: &[Symbol],
    rules: &[Rule],
    number: usize,
    symbol: &Symbol,
    entries: &mut Entries,
) -> Result<(), AllocError>
    ensures entry { OnOk result (entries_of entries.new ≡
        entries_of entries.old ++ signature.Entry.declare (names.symbol_name (symbol_tree symbol.now))
        (problem.heads (map rule_tree rules.now) number) (translation.symbol_type (symbols_tree symbols.now)
        (symbol_tree symbol.now)) ∷ []) }
    ensures declarable { OnOk result (IsDeclarable (symbol_tree symbol.now)) }
{
    let name = symbol_name(alloc, symbol)?;
    let ty = symbol_type(alloc, symbols, symbol)?;
    let definable = heads(rules, number);
    entries.push(Entry::Declare {
        name,
        definable,
        ty,
    })
}

/// Puts the declarations of the symbols at the end, with `def` where a symbol heads a rule. The one error is want of
/// memory, which as many arguments of a symbol as `NUMBER_LIMIT` are too.

pub fn add_symbols(
    alloc: Global,
    symbols: &[Symbol],
    rules: &[Rule],
    entries: &mut Entries,
) -> Result<(), AllocError>
    ensures entries { OnOk result (entries_of entries.new ≡
        entries_of entries.old ++ problem.symbol_entries (symbols_tree symbols.now) (map rule_tree rules.now) 1
        (symbols_tree symbols.now)) }
    ensures declarable { OnOk result (All IsDeclarable (symbols_tree symbols.now)) }
{
    for (place, symbol) in symbols.iter().enumerate() {
        declare_symbol(alloc, symbols, rules, place + 1, symbol, entries)?;
    }
    Ok(())
}
