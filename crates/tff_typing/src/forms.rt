ghost use Rattle.std.specs.Prelude.{◌≡◌, Ok, length, IfOk, OnOk};
ghost use Rattle.std.specs.Option.{option_map};
ghost use Rattle.zm_logic.specs.Tree as tree;
ghost use Rattle.zm_logic.specs.View.{term_tree, form_tree};
ghost use Rattle.tptp_reader.specs.Raw as raw;
ghost use Rattle.tptp_reader.specs.View.{raw_type_tree, raw_term_tree, raw_variable_tree, raw_form_tree};
ghost use Rattle.tff_typing.specs.Written as written;
ghost use Rattle.tff_typing.specs.Places as rules;
ghost use Rattle.tff_typing.specs.Typing as typing;
ghost use Rattle.tff_typing.specs.Statements as statements;
ghost use Rattle.tff_typing.specs.Indexed as at;
ghost use Rattle.tff_typing.specs.View.{table_tree, scope_tree, binder_tree, expression_tree, side_tree, connective_tree, quantifier_tree, Gives, GivesIn};

use crate::fault::{Fault, Found, Stop};
use crate::scope::{Binder, Variable};
use crate::symbols::Symbols;
use crate::terms::{Expression, expression_in, term_in};
use crate::trees::{indexed, individual, shown};
use crate::types::type_in;
use crate::uses::Place;
use sqlite_items::Boxed;
use std::alloc::{AllocError, Global};
use tptp_reader::{RawForm, RawTerm, RawType, RawVar};
use zm_logic::{Form, Term, Ty};

/// The left side of an equality, with its type.
#[derive(Drop)]
pub struct Side {
    pub ty: Ty,
    pub term: Term,
}

/// A binary connective.
#[derive(Clone, Copy)]
pub enum Connective {
    And,
    Or,
    Imp,
    Iff,
}

/// A quantifier.
#[derive(Clone, Copy)]
pub enum Quantifier {
    Universal,
    Existential,
}

// A formula's place takes an atom.
fn as_formula(alloc: Global, expression: Expression) -> Result<Form, Stop>
    ensures { Gives form_tree result (rules.as_formula (expression_tree expression)) }
{
    match expression {
        Expression::Term(ty, _) => Err(Stop::Refused(Fault::Mismatch {
            wanted: Found::Truth,
            got: Found::OfType(shown(alloc, &ty)?),
        })),
        Expression::Atom(predicate, types, arguments) => {
            Ok(Form::Atom(predicate, types, arguments))
        }
    }
}

// An atom, as a formula.
#[tactic(auto, using(crate::proofs::Gives::given_unchanged))]
fn plain<'a>(
    alloc: Global,
    symbols: &mut Symbols<'a>,
    scope: &[Variable],
    raw: &'a RawTerm,
) -> Result<Form, Stop>
    ensures { GivesIn form_tree result symbols.new
        (at.plain_at (table_tree symbols.old) (scope_tree scope.now) (raw_term_tree raw.entry.now)) }
{
    let found = expression_in(alloc, symbols, scope, Place::Formula, raw)?;
    as_formula(alloc, found)
}

// The left side of an equality is a term.
#[tactic(auto, using(crate::proofs::Sides::same_as_itself))]
fn side_of(alloc: Global, expression: Expression) -> Result<Side, Stop>
    ensures { Gives side_tree result (at.side_of (expression_tree expression)) }
{
    match expression {
        Expression::Term(ty, term) => Ok(Side { ty, term }),
        Expression::Atom(_, _, _) => Err(Stop::Refused(Fault::Mismatch {
            wanted: Found::OfType(individual(alloc)),
            got: Found::Truth,
        })),
    }
}

#[tactic(auto, using(crate::proofs::Gives::given_unchanged))]
fn left_in<'a>(
    alloc: Global,
    symbols: &mut Symbols<'a>,
    scope: &[Variable],
    raw: &'a RawTerm,
) -> Result<Side, Stop>
    ensures { GivesIn side_tree result symbols.new
        (at.left_at (table_tree symbols.old) (scope_tree scope.now) (raw_term_tree raw.entry.now)) }
{
    let found = expression_in(alloc, symbols, scope, Place::Term, raw)?;
    side_of(alloc, found)
}

// The equality of the sides, under as many binders.
fn equal(alloc: Global, depth: usize, side: Side, other: Term) -> Result<Form, Stop>
    ensures { Gives form_tree result
        (Ok (tree.Form.equal (statements.indexed depth (side_tree side).type) (side_tree side).term
        (term_tree other))) }
{
    let Side { ty, term } = side;
    Ok(Form::Equal(indexed(alloc, &ty, depth)?, term, other))
}

// An equality: the right side is a term of the left side's type.
#[tactic(auto, using(crate::proofs::ScopeLists::length_scope))]
fn equality<'a>(
    alloc: Global,
    symbols: &mut Symbols<'a>,
    scope: &[Variable],
    left: &'a RawTerm,
    right: &'a RawTerm,
) -> Result<Form, Stop>
    ensures { GivesIn form_tree result symbols.new
        (at.equality_at (table_tree symbols.old) (scope_tree scope.now) (raw_term_tree left.entry.now)
        (raw_term_tree right.entry.now)) }
{
    let side = left_in(alloc, symbols, scope, left)?;
    let other = term_in(alloc, symbols, scope, &side.ty, right)?;
    equal(alloc, scope.len(), side, other)
}

// The two formulas under the connective.
fn connected(
    alloc: Global,
    connective: Connective,
    left: Form,
    right: Form,
) -> Result<Form, AllocError>
    ensures { IfOk result
        (λ f. form_tree f ≡ tree.Form.binary (written.connective_of (connective_tree connective)) (form_tree left)
        (form_tree right)) }
{
    let left = Boxed::new(alloc, left)?;
    let right = Boxed::new(alloc, right)?;
    Ok(match connective {
        Connective::And => Form::And(left, right),
        Connective::Or => Form::Or(left, right),
        Connective::Imp => Form::Imp(left, right),
        Connective::Iff => Form::Iff(left, right),
    })
}

// What a quantifier binds with a written type.
fn of_written<'a>(
    alloc: Global,
    symbols: &Symbols<'a>,
    scope: &[Variable],
    ty: &'a RawType,
) -> Result<Binder, Stop>
    ensures { Gives binder_tree result
        (typing.of_written (table_tree symbols.now) (scope_tree scope.now) (raw_type_tree ty.now)) }
{
    match ty {
        RawType::Kind => Ok(Binder::OfType),
        RawType::Individual => Ok(Binder::OfTerm(individual(alloc))),
        RawType::Truth => Err(Stop::Refused(Fault::NotAType)),
        RawType::Var(_) => Ok(Binder::OfTerm(type_in(alloc, symbols, scope, ty)?)),
        RawType::Name(_, _) => Ok(Binder::OfTerm(type_in(alloc, symbols, scope, ty)?)),
    }
}

// What a quantifier binds. A variable without a type is an individual.
fn binder_in<'a>(
    alloc: Global,
    symbols: &Symbols<'a>,
    scope: &[Variable],
    ty: &'a Option<RawType>,
) -> Result<Binder, Stop>
    ensures { Gives binder_tree result
        (typing.binder_in (table_tree symbols.now) (scope_tree scope.now) (option_map raw_type_tree ty.now)) }
{
    match ty {
        None => Ok(Binder::OfTerm(individual(alloc))),
        Some(ty) => of_written(alloc, symbols, scope, ty),
    }
}

// What is bound, with the index of each variable in scope.
fn indexed_binder(alloc: Global, binder: &Binder, depth: usize) -> Result<Binder, AllocError>
    ensures { IfOk result (λ b. binder_tree b ≡ at.indexed_binder depth (binder_tree binder.now)) }
{
    match binder {
        Binder::OfType => Ok(Binder::OfType),
        Binder::OfTerm(ty) => Ok(Binder::OfTerm(indexed(alloc, ty, depth)?)),
    }
}

// The formula under the quantifier.
fn bound(
    alloc: Global,
    quantifier: Quantifier,
    binder: Binder,
    body: Form,
) -> Result<Form, AllocError>
    ensures { IfOk result
        (λ f. form_tree f ≡ at.bind_at (quantifier_tree quantifier) (binder_tree binder) (form_tree body)) }
{
    let body = Boxed::new(alloc, body)?;
    Ok(match binder {
        Binder::OfType => match quantifier {
            Quantifier::Universal => Form::AllType(body),
            Quantifier::Existential => Form::ExType(body),
        },
        Binder::OfTerm(ty) => match quantifier {
            Quantifier::Universal => Form::All(ty, body),
            Quantifier::Existential => Form::Ex(ty, body),
        },
    })
}

/// The formula.
#[cycle(form_in)]
pub fn form_in<'a>(
    alloc: Global,
    symbols: &mut Symbols<'a>,
    scope: &mut Vec<Variable<'a>>,
    raw: &'a RawForm,
) -> Result<Form, Stop>
    ensures typed { GivesIn form_tree result symbols.new
        (at.form_at (table_tree symbols.old) (scope_tree scope.old.items) (raw_form_tree raw.entry.now)) }
    ensures scope { OnOk result (scope.new.items ≡ scope.old.items) }
{
    match raw {
        RawForm::True => Ok(Form::True),
        RawForm::False => Ok(Form::False),
        RawForm::Plain(atom) => plain(alloc, symbols, scope.as_slice(), atom),
        RawForm::Equal(left, right) => equality(alloc, symbols, scope.as_slice(), left, right),
        RawForm::Not(body) => negation(alloc, symbols, scope, body.get()),
        RawForm::And(left, right) => {
            binary(
                alloc,
                symbols,
                scope,
                Connective::And,
                left.get(),
                right.get(),
            )
        }
        RawForm::Or(left, right) => {
            binary(
                alloc,
                symbols,
                scope,
                Connective::Or,
                left.get(),
                right.get(),
            )
        }
        RawForm::Imp(left, right) => {
            binary(
                alloc,
                symbols,
                scope,
                Connective::Imp,
                left.get(),
                right.get(),
            )
        }
        RawForm::Iff(left, right) => {
            binary(
                alloc,
                symbols,
                scope,
                Connective::Iff,
                left.get(),
                right.get(),
            )
        }
        RawForm::All(variable, body) => {
            quantified(
                alloc,
                symbols,
                scope,
                Quantifier::Universal,
                variable,
                body.get(),
            )
        }
        RawForm::Ex(variable, body) => {
            quantified(
                alloc,
                symbols,
                scope,
                Quantifier::Existential,
                variable,
                body.get(),
            )
        }
    }
}

#[cycle(form_in)]
fn negation<'a>(
    alloc: Global,
    symbols: &mut Symbols<'a>,
    scope: &mut Vec<Variable<'a>>,
    body: &'a RawForm,
) -> Result<Form, Stop>
    ensures typed { GivesIn form_tree result symbols.new
        (at.form_at (table_tree symbols.old) (scope_tree scope.old.items)
        (raw.RawForm.negation (raw_form_tree body.entry.now))) }
    ensures scope { OnOk result (scope.new.items ≡ scope.old.items) }
{
    let form = form_in(alloc, symbols, scope, body)?;
    Ok(Form::Not(Boxed::new(alloc, form)?))
}

#[cycle(form_in)]
fn binary<'a>(
    alloc: Global,
    symbols: &mut Symbols<'a>,
    scope: &mut Vec<Variable<'a>>,
    connective: Connective,
    first: &'a RawForm,
    second: &'a RawForm,
) -> Result<Form, Stop>
    ensures typed { GivesIn form_tree result symbols.new
        (at.form_at (table_tree symbols.old) (scope_tree scope.old.items)
        (raw.RawForm.binary (connective_tree connective) (raw_form_tree first.entry.now)
        (raw_form_tree second.entry.now))) }
    ensures scope { OnOk result (scope.new.items ≡ scope.old.items) }
{
    let left = form_in(alloc, symbols, scope, first)?;
    let right = form_in(alloc, symbols, scope, second)?;
    Ok(connected(alloc, connective, left, right)?)
}

#[cycle(form_in)]
#[tactic(auto, using(crate::proofs::ScopeLists::length_scope, crate::proofs::ScopeLists::scope_push))]
fn quantified<'a>(
    alloc: Global,
    symbols: &mut Symbols<'a>,
    scope: &mut Vec<Variable<'a>>,
    quantifier: Quantifier,
    variable: &'a RawVar,
    body: &'a RawForm,
) -> Result<Form, Stop>
    ensures typed { GivesIn form_tree result symbols.new
        (at.form_at (table_tree symbols.old) (scope_tree scope.old.items)
        (raw.RawForm.quantified (quantifier_tree quantifier) (raw_variable_tree variable.entry.now)
        (raw_form_tree body.entry.now))) }
    ensures scope { OnOk result (scope.new.items ≡ scope.old.items) }
{
    let depth = scope.len();
    let binder = binder_in(alloc, symbols, scope.as_slice(), &variable.ty)?;
    let outer = indexed_binder(alloc, &binder, depth)?;
    let name = variable.name.text();
    scope.push(Variable { name, binder })?;
    let form = form_in(alloc, symbols, scope, body)?;
    scope.truncate(depth);
    Ok(bound(alloc, quantifier, outer, form)?)
}
