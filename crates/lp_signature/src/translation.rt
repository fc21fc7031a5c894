//! The translation of types, terms and formulas into the lambda-Pi calculus.

ghost use Rattle.std.specs.Prelude.{◌≡◌, IfOk, Ok};
ghost use Rattle.lp_terms.specs.Term as plain;
ghost use Rattle.lp_terms.specs.View.{term_of};
ghost use Rattle.zm_logic.specs.View.{type_tree, types_tree, term_tree, terms_tree, form_tree};
ghost use Rattle.lp_signature.specs.Names as names;
ghost use Rattle.lp_signature.specs.Prelude as prelude;
ghost use Rattle.lp_signature.specs.Translation as translation;
ghost use Rattle.lp_signature.specs.View.{symbols_tree, scope_tree, variable_or};

use crate::names::constant;
use crate::parts::{applied, types};
use crate::scope::{Bound, term_variable, type_variable};
use lp_terms::Lp;
use sqlite_items::{Boxed, Items};
use std::alloc::{AllocError, Global};
use zm_logic::{Form, SymId, Symbol, Term, Ty};

// The number of an index under so many more binders. More than a u32 counts stand in no memory.
fn lifted(under: u32, index: u32) -> Result<u32, AllocError>
    ensures { IfOk result (λ i. i ≡ translation.lift under index) }
{
    match under.checked_add(index) {
        Some(lifted) => Ok(lifted),
        None => Err(AllocError),
    }
}

// The index under so many more binders.
fn index_under(under: u32, index: u32) -> Result<Lp, AllocError>
    ensures { IfOk result (λ t. term_of t ≡ plain.Lp.index (translation.lift under index)) }
{
    let lifted = lifted(under, index)?;
    Ok(Lp::Index(lifted))
}

// The type of individuals, where no variable stands for a type.
fn type_or_individuals(alloc: Global, variable: Option<u32>) -> Result<Lp, AllocError>
    ensures { IfOk result (λ t. term_of t ≡ variable_or variable prelude.iota) }
{
    match variable {
        Some(variable) => Ok(Lp::Free(variable)),
        None => Lp::constant(alloc, "iota"),
    }
}

// The constant of a symbol's number, as a term.
fn head(alloc: Global, symbols: &[Symbol], number: SymId) -> Result<Lp, AllocError>
    ensures { IfOk result (λ t. term_of t ≡ plain.Lp.const (names.constant (symbols_tree symbols.now) number.0)) }
{
    Ok(Lp::Const(constant(alloc, symbols, number)?))
}

/// The translation of a type that stands under so many binders which it doesn't count. A type parameter of the scope is its
/// variable. The one error is want of memory, which more binders than a u32 counts are too.
#[cycle(translate_type)]
pub fn translate_type(
    alloc: Global,
    symbols: &[Symbol],
    scope: &[Bound],
    under: u32,
    ty: &Ty,
) -> Result<Lp, AllocError>
    ensures { IfOk result (λ t. term_of t ≡
        translation.type_of (symbols_tree symbols.now) (scope_tree scope.now) under (type_tree ty.now)) }
{
    match ty {
        Ty::Bound(index) => index_under(under, *index),
        Ty::Param(number) => type_or_individuals(alloc, type_variable(scope, *number)),
        Ty::Meta(_) => Lp::constant(alloc, "iota"),
        Ty::Con(symbol, types) => apply_to_types(alloc, symbols, scope, under, *symbol, types),
    }
}

// The constant of a symbol's number at types.
#[cycle(translate_type)]
#[tactic(auto, using(crate::proofs::Spines::types_applied_more))]
fn apply_to_types(
    alloc: Global,
    symbols: &[Symbol],
    scope: &[Bound],
    under: u32,
    symbol: SymId,
    types: &Items<Ty>,
) -> Result<Lp, AllocError>
    ensures { IfOk result (λ t. term_of t ≡
        translation.apply_types (symbols_tree symbols.now) (scope_tree scope.now) under (plain.Lp.const
        (names.constant (symbols_tree symbols.now) symbol.0)) (types_tree types.now)) }
{
    let mut applied = head(alloc, symbols, symbol)?;
    for ty in types.as_slice() {
        let argument = translate_type(alloc, symbols, scope, under, ty)?;
        applied = Lp::application(alloc, applied, argument)?;
    }
    Ok(applied)
}

// Some term of the type.
fn any_of(alloc: Global, symbols: &[Symbol], scope: &[Bound], ty: &Ty) -> Result<Lp, AllocError>
    ensures { IfOk result (λ t. term_of t ≡
        prelude.any (translation.type_of (symbols_tree symbols.now) (scope_tree scope.now) 0 (type_tree ty.now))) }
{
    let ty = translate_type(alloc, symbols, scope, 0, ty)?;
    applied(alloc, "any", ty)
}

// The variable of an epsilon term, or some term of its type.
fn translate_epsilon(
    alloc: Global,
    symbols: &[Symbol],
    scope: &[Bound],
    number: u64,
    ty: &Ty,
) -> Result<Lp, AllocError>
    ensures { IfOk result (λ t. term_of t ≡
        translation.read_term (scope_tree scope.now) number (type_tree ty.now) (prelude.any (translation.type_of
        (symbols_tree symbols.now) (scope_tree scope.now) 0 (type_tree ty.now)))) }
{
    match term_variable(scope, number, ty) {
        Some(variable) => Ok(Lp::Free(variable)),
        None => any_of(alloc, symbols, scope, ty),
    }
}

/// The translation of a term. An epsilon term of the scope is its variable, and any other one is some term of its type. The
/// one error is want of memory.
#[cycle(translate_term)]
pub fn translate_term(
    alloc: Global,
    symbols: &[Symbol],
    scope: &[Bound],
    term: &Term,
) -> Result<Lp, AllocError>
    ensures { IfOk result (λ t. term_of t ≡
        translation.term_of (symbols_tree symbols.now) (scope_tree scope.now) (term_tree term.now)) }
{
    match term {
        Term::Bound(index) => Ok(Lp::Index(*index)),
        Term::Eps(number, ty) => translate_epsilon(alloc, symbols, scope, *number, ty),
        Term::Meta(_, ty) => any_of(alloc, symbols, scope, ty),
        Term::App(symbol, types, terms) => {
            apply_to_terms(alloc, symbols, scope, *symbol, types, terms)
        }
    }
}

// The constant of a symbol's number at types and terms.
#[cycle(translate_term)]
#[tactic(auto, using(crate::proofs::Spines::terms_applied_more))]
fn apply_to_terms(
    alloc: Global,
    symbols: &[Symbol],
    scope: &[Bound],
    symbol: SymId,
    types: &Items<Ty>,
    terms: &Items<Term>,
) -> Result<Lp, AllocError>
    ensures { IfOk result (λ t. term_of t ≡
        translation.apply_terms (symbols_tree symbols.now) (scope_tree scope.now) (translation.apply_types
        (symbols_tree symbols.now) (scope_tree scope.now) 0 (plain.Lp.const (names.constant
        (symbols_tree symbols.now) symbol.0)) (types_tree types.now)) (terms_tree terms.now)) }
{
    let mut applied = apply_to_types(alloc, symbols, scope, 0, symbol, types)?;
    for term in terms.as_slice() {
        let argument = translate_term(alloc, symbols, scope, term)?;
        applied = Lp::application(alloc, applied, argument)?;
    }
    Ok(applied)
}

// Both terms, where memory was wanting for neither.
fn both(
    first: Result<Lp, AllocError>,
    second: Result<Lp, AllocError>,
) -> Result<(Lp, Lp), AllocError>
    ensures first { IfOk result (λ both. first ≡ Ok both.0) }
    ensures second { IfOk result (λ both. second ≡ Ok both.1) }
{
    let first = first?;
    let second = second?;
    Ok((first, second))
}

// The constant of the name, applied to two terms.
fn applied_to_both(alloc: Global, name: &str, first: Lp, second: Lp) -> Result<Lp, AllocError>
    ensures { IfOk result (λ t. term_of t ≡
        plain.Lp.app (plain.Lp.app (plain.Lp.const name.now) (term_of first)) (term_of second)) }
{
    let once = applied(alloc, name, first)?;
    Lp::application(alloc, once, second)
}

// The constant of the name at the translation of a type.
fn applied_to_type(
    alloc: Global,
    symbols: &[Symbol],
    scope: &[Bound],
    name: &str,
    ty: &Ty,
) -> Result<Lp, AllocError>
    ensures { IfOk result (λ t. term_of t ≡
        plain.Lp.app (plain.Lp.const name.now) (translation.type_of (symbols_tree symbols.now)
        (scope_tree scope.now) 0 (type_tree ty.now))) }
{
    let ty = translate_type(alloc, symbols, scope, 0, ty)?;
    applied(alloc, name, ty)
}

// The function at the translation of a term.
fn applied_to_term(
    alloc: Global,
    symbols: &[Symbol],
    scope: &[Bound],
    function: Lp,
    term: &Term,
) -> Result<Lp, AllocError>
    ensures { IfOk result (λ t. term_of t ≡
        plain.Lp.app (term_of function) (translation.term_of (symbols_tree symbols.now) (scope_tree scope.now)
        (term_tree term.now))) }
{
    let argument = translate_term(alloc, symbols, scope, term)?;
    Lp::application(alloc, function, argument)
}

// The translation of an equality.
fn translate_equality(
    alloc: Global,
    symbols: &[Symbol],
    scope: &[Bound],
    ty: &Ty,
    left: &Term,
    right: &Term,
) -> Result<Lp, AllocError>
    ensures { IfOk result (λ t. term_of t ≡
        prelude.eq_of (translation.type_of (symbols_tree symbols.now) (scope_tree scope.now) 0 (type_tree ty.now))
        (translation.term_of (symbols_tree symbols.now) (scope_tree scope.now) (term_tree left.now))
        (translation.term_of (symbols_tree symbols.now) (scope_tree scope.now) (term_tree right.now))) }
{
    let function = applied_to_type(alloc, symbols, scope, "eq", ty)?;
    let function = applied_to_term(alloc, symbols, scope, function, left)?;
    applied_to_term(alloc, symbols, scope, function, right)
}

// The constant of the name at the translation of a type, and at a predicate over its terms, of which the body is given.
fn over_terms_of(
    alloc: Global,
    symbols: &[Symbol],
    scope: &[Bound],
    name: &str,
    ty: &Ty,
    body: Lp,
) -> Result<Lp, AllocError>
    ensures { IfOk result (λ t. term_of t ≡
        plain.Lp.app (plain.Lp.app (plain.Lp.const name.now) (translation.type_of (symbols_tree symbols.now)
        (scope_tree scope.now) 0 (type_tree ty.now))) (plain.Lp.abs (prelude.term (translation.type_of
        (symbols_tree symbols.now) (scope_tree scope.now) 0 (type_tree ty.now))) (term_of body))) }
{
    let domain = applied_to_type(alloc, symbols, scope, "term", ty)?;
    let predicate = Lp::abstraction(alloc, domain, body)?;
    let quantifier = applied_to_type(alloc, symbols, scope, name, ty)?;
    Lp::application(alloc, quantifier, predicate)
}

// The constant of the name at a predicate over the types, of which the body is given.
fn over_all_types(alloc: Global, name: &str, body: Lp) -> Result<Lp, AllocError>
    ensures { IfOk result (λ t. term_of t ≡
        plain.Lp.app (plain.Lp.const name.now) (plain.Lp.abs prelude.types (term_of body))) }
{
    let domain = types(alloc)?;
    let predicate = Lp::abstraction(alloc, domain, body)?;
    applied(alloc, name, predicate)
}

/// The translation of a formula. The one error is want of memory.
#[cycle(translate_form)]
pub fn translate_form(
    alloc: Global,
    symbols: &[Symbol],
    scope: &[Bound],
    form: &Form,
) -> Result<Lp, AllocError>
    ensures { IfOk result (λ t. term_of t ≡
        translation.form_of (symbols_tree symbols.now) (scope_tree scope.now) (form_tree form.now)) }
{
    match form {
        Form::True => Lp::constant(alloc, "true"),
        Form::False => Lp::constant(alloc, "false"),
        Form::Atom(predicate, types, terms) => {
            apply_to_terms(alloc, symbols, scope, *predicate, types, terms)
        }
        Form::Equal(ty, left, right) => {
            translate_equality(alloc, symbols, scope, ty, left, right)
        }
        Form::Not(f) => {
            let f = translate_boxed(alloc, symbols, scope, f)?;
            applied(alloc, "not", f)
        }
        Form::And(f, g) => {
            let (f, g) = both(
                translate_boxed(alloc, symbols, scope, f),
                translate_boxed(alloc, symbols, scope, g),
            )?;
            applied_to_both(alloc, "and", f, g)
        }
        Form::Or(f, g) => {
            let (f, g) = both(
                translate_boxed(alloc, symbols, scope, f),
                translate_boxed(alloc, symbols, scope, g),
            )?;
            applied_to_both(alloc, "or", f, g)
        }
        Form::Imp(f, g) => {
            let (f, g) = both(
                translate_boxed(alloc, symbols, scope, f),
                translate_boxed(alloc, symbols, scope, g),
            )?;
            applied_to_both(alloc, "imp", f, g)
        }
        Form::Iff(f, g) => {
            let (f, g) = both(
                translate_boxed(alloc, symbols, scope, f),
                translate_boxed(alloc, symbols, scope, g),
            )?;
            applied_to_both(alloc, "iff", f, g)
        }
        Form::All(ty, f) => {
            let f = translate_boxed(alloc, symbols, scope, f)?;
            over_terms_of(alloc, symbols, scope, "forall", ty, f)
        }
        Form::Ex(ty, f) => {
            let f = translate_boxed(alloc, symbols, scope, f)?;
            over_terms_of(alloc, symbols, scope, "exists", ty, f)
        }
        Form::AllType(f) => {
            let f = translate_boxed(alloc, symbols, scope, f)?;
            over_all_types(alloc, "forall_type", f)
        }
        Form::ExType(f) => {
            let f = translate_boxed(alloc, symbols, scope, f)?;
            over_all_types(alloc, "exists_type", f)
        }
    }
}

#[cycle(translate_form)]
fn translate_boxed(
    alloc: Global,
    symbols: &[Symbol],
    scope: &[Bound],
    form: &Boxed<Form>,
) -> Result<Lp, AllocError>
    ensures { IfOk result (λ t. term_of t ≡
        translation.form_of (symbols_tree symbols.now) (scope_tree scope.now) (form_tree form.now)) }
{
    translate_form(alloc, symbols, scope, form.get())
}
