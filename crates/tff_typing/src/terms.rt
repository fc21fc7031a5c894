ghost use Rattle.std.specs.Prelude.{◌≡◌, Ok, length};
ghost use Rattle.zm_logic.specs.View.{type_tree, types_tree, term_tree, terms_tree};
ghost use Rattle.tptp_reader.specs.View.{raw_term_tree, raw_terms_tree};
ghost use Rattle.tff_typing.specs.Written as written;
ghost use Rattle.tff_typing.specs.Scope as variables;
ghost use Rattle.tff_typing.specs.Places as rules;
ghost use Rattle.tff_typing.specs.Indexed as at;
ghost use Rattle.tff_typing.specs.View.{table_tree, scope_tree, binder_tree, place_tree, expression_tree, head_tree, Gives, GivesIn};

use crate::fault::{Fault, Found, Stop};
use crate::scope::{Binder, Variable, look_up};
use crate::symbols::Symbols;
use crate::trees::{all_filled, all_indexed, filled, index_of, shown};
use crate::types::terms_as_types;
use crate::uses::{Place, symbol_for};
use std::alloc::Global;
use tptp_reader::RawTerm;
use zm_logic::{Sense, SymId, Term, Terms, Ty, Tys};

/// What an expression is by itself: a term with its type, or an atom. The type keeps the parameters of the variables in
/// scope; the trees have an index for each.
#[derive(Drop)]
pub enum Expression {
    Term(Ty, Term),
    Atom(SymId, Tys, Terms),
}

/// A symbol at its types: its number, how many they are, the types that its other arguments want, and what it makes.
#[derive(Drop)]
pub struct Head {
    pub number: SymId,
    pub skipped: usize,
    pub types: Tys,
    pub wanted: Tys,
    pub sense: Sense,
}

// A term's or a formula's place takes a variable for terms.
fn as_term(alloc: Global, depth: usize, place: usize, binder: &Binder) -> Result<Expression, Stop>
    ensures { Gives expression_tree result (at.if_indexed_term depth place (binder_tree binder.now)) }
{
    match binder {
        Binder::OfType => Err(Stop::Refused(Fault::NotATerm)),
        Binder::OfTerm(ty) => {
            let index = index_of(depth, place)?;
            Ok(Expression::Term(ty.copy(alloc)?, Term::Bound(index)))
        }
    }
}

// The variable of the name, in a term's or a formula's place.
fn term_variable(alloc: Global, scope: &[Variable], name: &str) -> Result<Expression, Stop>
    ensures { Gives expression_tree result
        (at.indexed_variable (length (scope_tree scope.now)) (variables.look_up (scope_tree scope.now) name.now)) }
{
    match look_up(scope, name) {
        None => Err(Stop::Refused(Fault::Unbound)),
        Some(i) => as_term(alloc, scope.len(), i, &scope[i].binder),
    }
}

/// A place that wants a type takes a term of that type.
pub fn wanted(alloc: Global, ty: &Ty, expression: Expression) -> Result<Term, Stop>
    ensures { Gives term_tree result (rules.wanted (type_tree ty.now) (expression_tree expression)) }
{
    match expression {
        Expression::Term(found, term) => {
            if found.same(ty) {
                return Ok(term);
            }
            Err(Stop::Refused(Fault::Mismatch {
                wanted: Found::OfType(shown(alloc, ty)?),
                got: Found::OfType(shown(alloc, &found)?),
            }))
        }
        Expression::Atom(_, _, _) => Err(Stop::Refused(Fault::Mismatch {
            wanted: Found::OfType(shown(alloc, ty)?),
            got: Found::Truth,
        })),
    }
}

#[tactic(auto, using(crate::proofs::RawLists::number_of_terms_tree))]
fn count(parts: &[RawTerm]) -> usize
    ensures { result ≡ written.number_of_terms (raw_terms_tree parts.now) }
{
    parts.len()
}

// The first parts, as many as the count says or all.
#[tactic(auto, using(crate::proofs::RawLists::first_tree, crate::proofs::RawLists::first_all))]
fn first(parts: &[RawTerm], count: usize) -> &[RawTerm]
    ensures { raw_terms_tree result.now ≡ rules.first count (raw_terms_tree parts.now) }
{
    if count < parts.len() {
        &parts[..count]
    } else {
        parts
    }
}

// The symbol at its place, at its types.
fn head_of<'a>(
    alloc: Global,
    symbols: &mut Symbols<'a>,
    scope: &[Variable],
    place: Place,
    name: &'a str,
    parts: &'a [RawTerm],
) -> Result<Head, Stop>
    ensures { GivesIn head_tree result symbols.new
        (at.head_at (table_tree symbols.old) (scope_tree scope.now) (place_tree place) name.entry.now
        (raw_terms_tree parts.entry.now)) }
{
    let used = symbol_for(alloc, symbols, place, name, count(parts))?;
    let types = terms_as_types(alloc, symbols, scope, first(parts, used.types))?;
    let wanted = all_filled(alloc, &used.arguments, &types)?;
    Ok(Head {
        number: used.number,
        skipped: used.types,
        types,
        wanted,
        sense: used.sense,
    })
}

// The symbol at its types and arguments, under as many binders.
fn applied(alloc: Global, depth: usize, head: Head, arguments: Terms) -> Result<Expression, Stop>
    ensures { Gives expression_tree result
        (Ok (at.applied_at depth (head_tree head).number (head_tree head).types (terms_tree arguments)
        (head_tree head).sense)) }
{
    let Head {
        number,
        skipped: _,
        types,
        wanted: _,
        sense,
    } = head;
    let indices = all_indexed(alloc, &types, depth)?;
    match sense {
        Sense::Constructor => Ok(Expression::Atom(number, indices, arguments)),
        Sense::Predicate => Ok(Expression::Atom(number, indices, arguments)),
        Sense::Function(result) => Ok(Expression::Term(
            filled(alloc, &result, &types)?,
            Term::App(number, indices, arguments),
        )),
    }
}

/// What stands in a term's or a formula's place, by itself.
#[cycle(expression_in)]
#[tactic(auto, using(crate::proofs::Gives::given_unchanged))]
pub fn expression_in<'a>(
    alloc: Global,
    symbols: &mut Symbols<'a>,
    scope: &[Variable],
    place: Place,
    raw: &'a RawTerm,
) -> Result<Expression, Stop>
    ensures { GivesIn expression_tree result symbols.new
        (at.expression_at (table_tree symbols.old) (scope_tree scope.now) (place_tree place)
        (raw_term_tree raw.entry.now)) }
{
    match raw {
        RawTerm::Individual => Err(Stop::Refused(Fault::NotATerm)),
        RawTerm::Truth => Err(Stop::Refused(Fault::NotATerm)),
        RawTerm::Var(name) => term_variable(alloc, scope, name.text()),
        RawTerm::Name(name, parts) => {
            named(alloc, symbols, scope, place, name.text(), parts.as_slice())
        }
    }
}

// A symbol at its arguments.
#[cycle(expression_in)]
#[tactic(auto, using(crate::proofs::ScopeLists::length_scope))]
fn named<'a>(
    alloc: Global,
    symbols: &mut Symbols<'a>,
    scope: &[Variable],
    place: Place,
    name: &'a str,
    parts: &'a [RawTerm],
) -> Result<Expression, Stop>
    ensures { GivesIn expression_tree result symbols.new
        (at.named_at (table_tree symbols.old) (scope_tree scope.now) (place_tree place) name.entry.now
        (raw_terms_tree parts.entry.now)) }
{
    let head = head_of(alloc, symbols, scope, place, name, parts)?;
    let wanted = head.wanted.as_slice();
    let arguments = terms_in(alloc, symbols, scope, parts, head.skipped, wanted)?;
    applied(alloc, scope.len(), head, arguments)
}

// The terms after the types, each of the type that its place wants.
#[cycle(expression_in)]
#[tactic(auto, using(crate::proofs::Arguments::terms_skip, crate::proofs::Arguments::step, crate::proofs::Arguments::unwanted, crate::proofs::Arguments::stop, crate::proofs::Arguments::refused))]
fn terms_in<'a>(
    alloc: Global,
    symbols: &mut Symbols<'a>,
    scope: &[Variable],
    parts: &'a [RawTerm],
    skipped: usize,
    types: &[Ty],
) -> Result<Terms, Stop>
    ensures { GivesIn terms_tree result symbols.new
        (at.terms_at (table_tree symbols.old) (scope_tree scope.now) skipped (types_tree types.now)
        (raw_terms_tree parts.entry.now)) }
{
    let mut all = Terms::new(alloc);
    for (i, part) in parts.iter().enumerate() {
        if i < skipped {
            continue;
        }
        let Some(ty) = types.get(i - skipped) else {
            return Ok(all);
        };
        let found = expression_in(alloc, symbols, scope, Place::Term, part)?;
        all.push(wanted(alloc, ty, found)?)?;
    }
    Ok(all)
}

/// A term of the wanted type.
#[tactic(auto, using(crate::proofs::Gives::given_unchanged))]
pub fn term_in<'a>(
    alloc: Global,
    symbols: &mut Symbols<'a>,
    scope: &[Variable],
    ty: &Ty,
    raw: &'a RawTerm,
) -> Result<Term, Stop>
    ensures { GivesIn term_tree result symbols.new
        (at.term_at (table_tree symbols.old) (scope_tree scope.now) (type_tree ty.now) (raw_term_tree raw.entry.now)) }
{
    let found = expression_in(alloc, symbols, scope, Place::Term, raw)?;
    wanted(alloc, ty, found)
}
