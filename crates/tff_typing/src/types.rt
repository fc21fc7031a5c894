ghost use Rattle.std.specs.Prelude.{◌≡◌, suc, Ok, Some};
ghost use Rattle.std.specs.Option.{option_map};
ghost use Rattle.zm_logic.specs.View.{type_tree, types_tree};
ghost use Rattle.tptp_reader.specs.View.{raw_type_tree, raw_types_tree, raw_term_tree, raw_terms_tree};
ghost use Rattle.tff_typing.specs.Written as written;
ghost use Rattle.tff_typing.specs.Scope as variables;
ghost use Rattle.tff_typing.specs.Table as table;
ghost use Rattle.tff_typing.specs.Places as rules;
ghost use Rattle.tff_typing.specs.View.{table_tree, scope_tree, binder_tree, entry_numbered, sym_number, Gives};

use crate::fault::{Fault, Stop};
use crate::scope::{Binder, Variable, look_up};
use crate::symbols::{Entry, Symbols};
use crate::trees::individual;
use std::alloc::{AllocError, Global};
use tptp_reader::{RawTerm, RawTerms, RawType, RawTypes};
use zm_logic::{Sense, SymId, Ty, Tys};

// A type's place takes a type variable.
fn as_variable(place: usize, binder: &Binder) -> Result<Ty, Stop>
    ensures { Gives type_tree result (rules.if_type place (binder_tree binder.now)) }
{
    match binder {
        Binder::OfType => Ok(Ty::Param(place as u64)),
        Binder::OfTerm(_) => Err(Stop::Refused(Fault::NotAType)),
    }
}

// The type variable of the name, in a type's place.
fn type_variable(scope: &[Variable], name: &str) -> Result<Ty, Stop>
    ensures { Gives type_tree result (rules.type_variable (variables.look_up (scope_tree scope.now) name.now)) }
{
    match look_up(scope, name) {
        None => Err(Stop::Refused(Fault::Unbound)),
        Some(i) => as_variable(i, &scope[i].binder),
    }
}

/// The number of the symbol at a place. One that a u32 doesn't hold counts as memory that isn't there.
pub fn number_of(place: usize) -> Result<SymId, Stop>
    ensures { Gives sym_number result (Ok (suc place)) }
{
    match u32::try_from(place) {
        Ok(before) => match before.checked_add(1) {
            Some(number) => Ok(SymId(number)),
            None => Err(Stop::Memory),
        },
        Err(_) => Err(Stop::Memory),
    }
}

// A type's place takes a constructor, with as many parts.
fn as_constructor(entry: Entry, parts: usize) -> Result<SymId, Stop>
    ensures { Gives sym_number result (rules.constructor_at (Some (entry_numbered entry.entry)) parts) }
{
    if !entry.takes(parts) {
        return Err(Stop::Refused(Fault::Arity));
    }
    match entry.declaration.sense {
        Sense::Constructor => number_of(entry.place),
        Sense::Predicate => Err(Stop::Refused(Fault::NotAType)),
        Sense::Function(_) => Err(Stop::Refused(Fault::NotAType)),
    }
}

// The constructor of the name with as many parts, in a type's place.
fn constructor_at<'a>(symbols: &Symbols<'a>, name: &'a str, parts: usize) -> Result<SymId, Stop>
    ensures { Gives sym_number result (rules.constructor_at (table.declared (table_tree symbols.now) name.now) parts) }
{
    match symbols.declared(name) {
        None => Err(Stop::Refused(Fault::NotAType)),
        Some(entry) => as_constructor(entry, parts),
    }
}

/// The number of written types.
#[tactic(auto, using(crate::proofs::RawLists::number_of_types_tree))]
pub fn count_types(parts: &RawTypes) -> usize
    ensures { result ≡ written.number_of_types (raw_types_tree parts.now) }
{
    parts.len()
}

/// The type in a type's place that is no result.
#[cycle(type_in)]
pub fn type_in<'a>(
    alloc: Global,
    symbols: &Symbols<'a>,
    scope: &[Variable],
    raw: &'a RawType,
) -> Result<Ty, Stop>
    ensures { Gives type_tree result
        (rules.type_in (table_tree symbols.now) (scope_tree scope.now) (raw_type_tree raw.now)) }
{
    match raw {
        RawType::Individual => Ok(individual(alloc)),
        RawType::Truth => Err(Stop::Refused(Fault::NotAType)),
        RawType::Kind => Err(Stop::Refused(Fault::NotAType)),
        RawType::Var(name) => type_variable(scope, name.text()),
        RawType::Name(name, parts) => {
            let symbol = constructor_at(symbols, name.text(), count_types(parts))?;
            let types = types_in(alloc, symbols, scope, parts)?;
            Ok(Ty::Con(symbol, types))
        }
    }
}

#[cycle(type_in)]
#[tactic(auto, using(crate::proofs::RawLists::types_in_step, crate::proofs::RawLists::types_in_stop))]
fn types_in<'a>(
    alloc: Global,
    symbols: &Symbols<'a>,
    scope: &[Variable],
    raws: &'a RawTypes,
) -> Result<Tys, Stop>
    ensures { Gives types_tree result
        (rules.types_in (table_tree symbols.now) (scope_tree scope.now) (raw_types_tree raws.now)) }
{
    let mut all = Tys::new(alloc);
    for raw in raws.as_slice() {
        all.push(type_in(alloc, symbols, scope, raw)?)?;
    }
    Ok(all)
}

#[tactic(auto, using(crate::proofs::RawLists::number_of_terms_as_types))]
fn count_terms(parts: &RawTerms) -> usize
    ensures { result ≡ written.number_of_types (written.as_types (raw_terms_tree parts.now)) }
{
    parts.len()
}

/// What is written as a term in a type's place, as a type.
#[cycle(term_as_type)]
pub fn term_as_type<'a>(
    alloc: Global,
    symbols: &Symbols<'a>,
    scope: &[Variable],
    raw: &'a RawTerm,
) -> Result<Ty, Stop>
    ensures { Gives type_tree result
        (rules.type_in (table_tree symbols.now) (scope_tree scope.now) (written.as_type (raw_term_tree raw.now))) }
{
    match raw {
        RawTerm::Individual => Ok(individual(alloc)),
        RawTerm::Truth => Err(Stop::Refused(Fault::NotAType)),
        RawTerm::Var(name) => type_variable(scope, name.text()),
        RawTerm::Name(name, parts) => {
            let symbol = constructor_at(symbols, name.text(), count_terms(parts))?;
            let types = terms_as_types(alloc, symbols, scope, parts.as_slice())?;
            Ok(Ty::Con(symbol, types))
        }
    }
}

/// What is written as terms in places of types, as types.
#[cycle(term_as_type)]
#[tactic(auto, using(crate::proofs::RawLists::terms_as_types_step, crate::proofs::RawLists::terms_as_types_stop))]
pub fn terms_as_types<'a>(
    alloc: Global,
    symbols: &Symbols<'a>,
    scope: &[Variable],
    raws: &'a [RawTerm],
) -> Result<Tys, Stop>
    ensures { Gives types_tree result
        (rules.types_in (table_tree symbols.now) (scope_tree scope.now) (written.as_types (raw_terms_tree raws.now))) }
{
    let mut all = Tys::new(alloc);
    for raw in raws {
        all.push(term_as_type(alloc, symbols, scope, raw)?)?;
    }
    Ok(all)
}
