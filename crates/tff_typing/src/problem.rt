ghost use Rattle.std.specs.Prelude.{◌≡◌, IfOk, map, take};
ghost use Rattle.std.specs.Option.{option_map};
ghost use Rattle.zm_logic.specs.View.{symbol_tree, form_tree, problem_tree};
ghost use Rattle.tff_typing.specs.Table as table;
ghost use Rattle.tff_typing.specs.Statements as rules;
ghost use Rattle.tff_typing.specs.View.{table_tree, state_tree, symbol_of, raw_statements, GivesStates};

use crate::fault::{Fault, Stop};
use crate::state::State;
use crate::statements::statement_in;
use crate::symbols::{Declaration, Key, Symbols};
use crate::trees::{copies, individuals};
use std::alloc::{AllocError, Global};
use tptp_include::GatheredStatement;
use zm_logic::{Form, Premises, Problem, Symbol, Text};

/// Where the walk over statements ends early: at a statement's number, with its first fault.
#[derive(Drop)]
pub enum Halt {
    Memory,
    At(usize, Fault),
}

/// What the statements make.
#[tactic(auto, using(crate::proofs::States::states_step, crate::proofs::States::states_stop))]
pub fn state_of<'a>(alloc: Global, statements: &'a [GatheredStatement]) -> Result<State<'a>, Halt>
    ensures { GivesStates result statements.entry.now }
{
    let mut state = State {
        symbols: Symbols::new(alloc),
        premises: Premises::new(alloc),
        conjecture: None,
    };
    for (n, listed) in statements.iter().enumerate() {
        match statement_in(alloc, &mut state, &listed.statement) {
            Ok(()) => {}
            Err(Stop::Memory) => return Err(Halt::Memory),
            Err(Stop::Refused(fault)) => return Err(Halt::At(n, fault)),
        }
    }
    Ok(state)
}

// A count of types. One that a u32 doesn't hold counts as memory that isn't there.
fn count(types: usize) -> Result<u32, AllocError>
    ensures { IfOk result (λ n. n ≡ types) }
{
    match u32::try_from(types) {
        Ok(count) => Ok(count),
        Err(_) => Err(AllocError),
    }
}

// The symbol of an entry.
fn symbol_from(alloc: Global, key: &Key, declaration: &Declaration) -> Result<Symbol, AllocError>
    ensures { IfOk result (λ s. symbol_tree s ≡ symbol_of key.now.name.now key.now.parts declaration.now) }
{
    let name = Text::of(alloc, key.name)?;
    let sense = declaration.sense.copy(alloc)?;
    match key.parts {
        None => Ok(Symbol {
            name,
            types: count(declaration.types)?,
            arguments: copies(alloc, &declaration.arguments)?,
            sense,
        }),
        Some(parts) => Ok(Symbol {
            name,
            types: 0,
            arguments: individuals(alloc, parts)?,
            sense,
        }),
    }
}

// The symbols of a table.
#[tactic(auto, using(crate::proofs::Entries::symbols_step, crate::proofs::Entries::symbols_end))]
fn symbols_from(alloc: Global, symbols: &Symbols) -> Result<zm_logic::Symbols, AllocError>
    ensures { IfOk result (λ ss. map symbol_tree ss ≡ table.symbols_of (table_tree symbols.now)) }
{
    let mut all = zm_logic::Symbols::new(alloc);
    for i in 0..symbols.entries.len() {
        let Some((key, declaration)) = symbols.entries.get_index(i) else {
            return Ok(all);
        };
        all.push(symbol_from(alloc, key, declaration)?)?;
    }
    Ok(all)
}

// The first statements, as many as the number says or all.
#[tactic(auto, using(crate::proofs::States::all_taken))]
fn first(statements: &[GatheredStatement], number: usize) -> &[GatheredStatement]
    ensures { result.now ≡ take number statements.now }
{
    if number < statements.len() {
        &statements[..number]
    } else {
        statements
    }
}

/// The symbols of the first statements, as many as the number says.
pub fn symbols_before(
    alloc: Global,
    statements: &[GatheredStatement],
    number: usize,
) -> Result<zm_logic::Symbols, AllocError>
    ensures { IfOk result
        (λ ss. map symbol_tree ss
        ≡ rules.symbols_if (rules.statements_in 0 rules.start (raw_statements (take number statements.now)))) }
{
    match state_of(alloc, first(statements, number)) {
        Ok(state) => symbols_from(alloc, &state.symbols),
        Err(Halt::Memory) => Err(AllocError),
        Err(Halt::At(_, _)) => Ok(zm_logic::Symbols::new(alloc)),
    }
}

// What is to be proved: without a conjecture, falsity.
fn to_prove(conjecture: Option<Form>) -> Form
    ensures { form_tree result ≡ rules.to_prove (option_map form_tree conjecture) }
{
    match conjecture {
        None => Form::False,
        Some(form) => form,
    }
}

/// The problem of what the statements make.
pub fn problem_of(alloc: Global, state: State) -> Result<Problem, AllocError>
    ensures { IfOk result (λ p. problem_tree p ≡ rules.problem_of (state_tree state.entry)) }
{
    let symbols = symbols_from(alloc, &state.symbols)?;
    Ok(Problem {
        symbols,
        premises: state.premises,
        conjecture: to_prove(state.conjecture),
    })
}
