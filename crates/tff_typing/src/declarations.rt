ghost use Rattle.std.specs.Prelude.{◌≡◌, ℕ, List, [], Ok, map, OnOk};
ghost use Rattle.std.specs.Option.{option_map};
ghost use Rattle.zm_logic.specs.View.{type_tree, types_tree};
ghost use Rattle.zm_logic.specs.Typing as typing;
ghost use Rattle.tptp_reader.specs.View.{raw_type_tree, raw_types_tree, raw_variable_tree, raw_top_tree};
ghost use Rattle.tff_typing.specs.Written as written;
ghost use Rattle.tff_typing.specs.Statements as statements;
ghost use Rattle.tff_typing.specs.Indexed as at;
ghost use Rattle.tff_typing.specs.View.{table_tree, scope_tree, binder_tree, declared_as, Gives, GivesTable};

use crate::fault::{Fault, Stop};
use crate::scope::{Binder, Variable};
use crate::symbols::{Declaration, Key, Symbols};
use crate::trees::{all_indexed, indexed, individual};
use crate::types::{count_types, type_in};
use std::alloc::{AllocError, Global};
use tptp_reader::{RawTop, RawType, RawTypes, RawVars};
use zm_logic::{Sense, Ty, Tys};

// A declaration's binder has the kind `$tType`.
fn of_kind(ty: &Option<RawType>) -> Result<Binder, Stop>
    ensures { Gives binder_tree result (statements.of_kind (option_map raw_type_tree ty.now)) }
{
    match ty {
        Some(RawType::Kind) => Ok(Binder::OfType),
        Some(RawType::Individual) => Err(Stop::Refused(Fault::NotAType)),
        Some(RawType::Truth) => Err(Stop::Refused(Fault::NotAType)),
        Some(RawType::Var(_)) => Err(Stop::Refused(Fault::NotAType)),
        Some(RawType::Name(_, _)) => Err(Stop::Refused(Fault::NotAType)),
        None => Err(Stop::Refused(Fault::NotAType)),
    }
}

// The type variables of a declaration, in scope.
#[tactic(auto, using(crate::proofs::Declared::variables_step, crate::proofs::Declared::variables_stop))]
fn type_variables<'a>(alloc: Global, binders: &'a RawVars) -> Result<Vec<Variable<'a>>, Stop>
    ensures { Gives (λ vs. scope_tree vs.items) result
        (statements.type_variables [] (map raw_variable_tree binders.entry.now)) }
{
    let mut scope = Vec::new(alloc);
    for variable in binders.as_slice() {
        let binder = of_kind(&variable.ty)?;
        let name = variable.name.text();
        scope.push(Variable { name, binder })?;
    }
    Ok(scope)
}

fn is_kind(ty: &RawType) -> bool
    ensures { result ≡ statements.is_kind (raw_type_tree ty.now) }
{
    match ty {
        RawType::Kind => true,
        RawType::Individual => false,
        RawType::Truth => false,
        RawType::Var(_) => false,
        RawType::Name(_, _) => false,
    }
}

// The type of an argument. An argument `$tType` stands only before a result `$tType`.
fn argument_in<'a>(
    alloc: Global,
    symbols: &Symbols<'a>,
    scope: &[Variable],
    kinds: bool,
    raw: &'a RawType,
) -> Result<Option<Ty>, Stop>
    ensures { Gives (option_map type_tree) result
        (at.argument_at (table_tree symbols.now) (scope_tree scope.now) kinds (raw_type_tree raw.now)) }
{
    if !is_kind(raw) {
        return Ok(Some(type_in(alloc, symbols, scope, raw)?));
    }
    if kinds {
        Ok(None)
    } else {
        Err(Stop::Refused(Fault::NotAType))
    }
}

// One more argument, where there is one.
#[tactic(auto, using(crate::proofs::Declared::argument_push))]
fn push_argument(types: &mut Tys, argument: Option<Ty>) -> Result<(), AllocError>
    ensures { OnOk result
        (types_tree types.new ≡ at.with_argument (types_tree types.old) (option_map type_tree argument)) }
{
    match argument {
        None => Ok(()),
        Some(ty) => types.push(ty),
    }
}

// The types of the arguments.
#[tactic(auto, using(crate::proofs::Declared::arguments_step, crate::proofs::Declared::arguments_stop))]
fn arguments_in<'a>(
    alloc: Global,
    symbols: &Symbols<'a>,
    scope: &[Variable],
    kinds: bool,
    raws: &'a RawTypes,
) -> Result<Tys, Stop>
    ensures { Gives types_tree result
        (statements.arguments_in (table_tree symbols.now) (scope_tree scope.now) kinds (raw_types_tree raws.now)) }
{
    let mut all = Tys::new(alloc);
    for raw in raws.as_slice() {
        let argument = argument_in(alloc, symbols, scope, kinds, raw)?;
        push_argument(&mut all, argument)?;
    }
    Ok(all)
}

// A constructor has no type variables, and no argument other than `$tType`.
#[tactic(auto, using(crate::proofs::Declared::constructor_made, crate::proofs::Declared::constructor_bound, crate::proofs::Declared::constructor_applied))]
fn constructor_of(
    alloc: Global,
    count: usize,
    scope: &[Variable],
    arguments: &Tys,
) -> Result<Declaration, Stop>
    ensures { (x : List ℕ)
        → Gives (declared_as x) result
        (statements.constructor_of x count (scope_tree scope.now) (types_tree arguments.now)) }
{
    if scope.len() > 0 {
        return Err(Stop::Refused(Fault::NotAType));
    }
    if arguments.len() > 0 {
        return Err(Stop::Refused(Fault::NotAType));
    }
    Ok(Declaration {
        types: count,
        arguments: Tys::new(alloc),
        sense: Sense::Constructor,
    })
}

// A symbol that makes a formula.
#[tactic(auto, using(crate::proofs::ScopeLists::length_scope))]
fn predicate_of(alloc: Global, scope: &[Variable], arguments: &Tys) -> Result<Declaration, Stop>
    ensures { (x : List ℕ)
        → Gives (declared_as x) result
        (Ok (statements.predicate_of x (scope_tree scope.now) (types_tree arguments.now))) }
{
    Ok(Declaration {
        types: scope.len(),
        arguments: all_indexed(alloc, arguments, scope.len())?,
        sense: Sense::Predicate,
    })
}

// A symbol that makes a term of the type.
#[tactic(auto, using(crate::proofs::ScopeLists::length_scope))]
fn function_of(
    alloc: Global,
    scope: &[Variable],
    arguments: &Tys,
    result_type: &Ty,
) -> Result<Declaration, Stop>
    ensures { (x : List ℕ)
        → Gives (declared_as x) result
        (Ok (statements.function_of x (scope_tree scope.now) (types_tree arguments.now) (type_tree result_type.now))) }
{
    Ok(Declaration {
        types: scope.len(),
        arguments: all_indexed(alloc, arguments, scope.len())?,
        sense: Sense::Function(indexed(alloc, result_type, scope.len())?),
    })
}

// A symbol that makes an individual.
fn individual_of(alloc: Global, scope: &[Variable], arguments: &Tys) -> Result<Declaration, Stop>
    ensures { (x : List ℕ)
        → Gives (declared_as x) result
        (Ok (statements.function_of x (scope_tree scope.now) (types_tree arguments.now) typing.individual)) }
{
    function_of(alloc, scope, arguments, &individual(alloc))
}

// A symbol that makes a term of the written type.
fn function_in<'a>(
    alloc: Global,
    symbols: &Symbols<'a>,
    scope: &[Variable],
    arguments: &Tys,
    raw: &'a RawType,
) -> Result<Declaration, Stop>
    ensures { (x : List ℕ)
        → Gives (declared_as x) result
        (at.function_at (table_tree symbols.now) x (scope_tree scope.now) (types_tree arguments.now)
        (raw_type_tree raw.now)) }
{
    let result_type = type_in(alloc, symbols, scope, raw)?;
    function_of(alloc, scope, arguments, &result_type)
}

// The symbol of so many arguments with this result.
fn with_result<'a>(
    alloc: Global,
    symbols: &Symbols<'a>,
    count: usize,
    scope: &[Variable],
    arguments: &Tys,
    raw: &'a RawType,
) -> Result<Declaration, Stop>
    ensures { (x : List ℕ)
        → Gives (declared_as x) result
        (statements.with_result (table_tree symbols.now) x count (scope_tree scope.now) (types_tree arguments.now)
        (raw_type_tree raw.now)) }
{
    match raw {
        RawType::Kind => constructor_of(alloc, count, scope, arguments),
        RawType::Truth => predicate_of(alloc, scope, arguments),
        RawType::Individual => individual_of(alloc, scope, arguments),
        RawType::Var(_) => function_in(alloc, symbols, scope, arguments, raw),
        RawType::Name(_, _) => function_in(alloc, symbols, scope, arguments, raw),
    }
}

// The declared symbol.
fn declared_symbol<'a>(
    alloc: Global,
    symbols: &Symbols<'a>,
    top: &'a RawTop,
) -> Result<Declaration, Stop>
    ensures { (x : List ℕ)
        → Gives (declared_as x) result (statements.declared_symbol (table_tree symbols.now) x (raw_top_tree top.now)) }
{
    let variables = type_variables(alloc, &top.binders)?;
    let scope = variables.as_slice();
    let kinds = is_kind(&top.result);
    let arguments = arguments_in(alloc, symbols, scope, kinds, &top.arguments)?;
    let count = count_types(&top.arguments);
    with_result(alloc, symbols, count, scope, &arguments, &top.result)
}

/// Adds the symbol that a statement declares. Its name is new.
#[tactic(auto, using(crate::proofs::Declared::new_name, crate::proofs::Declared::known_name))]
pub fn declare<'a>(
    alloc: Global,
    symbols: &mut Symbols<'a>,
    subject: &'a str,
    top: &'a RawTop,
) -> Result<(), Stop>
    ensures { GivesTable result symbols.new
        (statements.declare (table_tree symbols.old) subject.entry.now (raw_top_tree top.entry.now)) }
{
    if symbols.is_known(subject) {
        return Err(Stop::Refused(Fault::Redeclared));
    }
    if symbols.is_full() {
        return Err(Stop::Refused(Fault::TooManySymbols));
    }
    let declaration = declared_symbol(alloc, symbols, top)?;
    let key = Key {
        name: subject,
        parts: None,
    };
    symbols.add(key, declaration)?;
    Ok(())
}
