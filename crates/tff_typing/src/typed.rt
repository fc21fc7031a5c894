ghost use Rattle.std.specs.Prelude.{◌≡◌, ◌<◌, Err, IfOk, length, map};
ghost use Rattle.tptp_include.specs.Outcomes.{placed_of};
ghost use Rattle.tff_typing.specs.declared.problem.Halt.TheVariants as halts;
ghost use Rattle.tff_typing.specs.View.{Refuses, Types, GivesStates};

use crate::fault::Fault;
use crate::problem::{Halt, problem_of, state_of, symbols_before};
use std::alloc::{AllocError, Global};
use tptp_include::{Gathered, GatheredStatement, Place};
use zm_logic::{Symbols, TypedProblem};

/// Which statement has no typing: its place, its first fault, and the symbols of the statements before it. The types in
/// the fault are built from these symbols.
#[derive(Drop)]
pub struct TypeRefusal {
    pub place: Place,
    pub fault: Fault,
    pub symbols: Symbols,
}

/// Why statements make no problem.
#[derive(Drop)]
pub enum TypeStop {
    /// A statement has no typing.
    Refused(TypeRefusal),
    /// Memory ran out.
    Memory,
}

impl From<AllocError> for TypeStop {
    ghost use Rattle.tff_typing.specs.declared.typed.TypeStop.TheVariants.{Memory};

    ghost from_gives = { λ _ e. e ≡ Memory };

    fn from(_e: AllocError) -> TypeStop {
        TypeStop::Memory
    }
}

// The refusal of the statement with this number and this fault.
fn refusal_at(
    alloc: Global,
    statements: &[GatheredStatement],
    number: usize,
    fault: Fault,
) -> Result<TypeRefusal, AllocError>
    requires within { number < length statements.now }
    requires halted { GivesStates (Err (halts.At number fault)) statements.now }
    ensures { IfOk result (λ r. Refuses (map placed_of statements.now) r) }
{
    let place = statements[number].place(alloc)?;
    let symbols = symbols_before(alloc, statements, number)?;
    Ok(TypeRefusal {
        place,
        fault,
        symbols,
    })
}

/// The problem that the statements make by the rules of typing. They are taken in order, and the refusal is that of the
/// first statement that has no typing, with its first fault in the order of the text.
#[tactic(auto, using(crate::proofs::States::made_problem))]
pub fn type_problem(alloc: Global, statements: &Gathered) -> Result<TypedProblem, TypeStop>
    ensures { Types (map placed_of statements.now) result }
{
    let list = statements.statements();
    match state_of(alloc, list) {
        Ok(state) => Ok(TypedProblem::make(problem_of(alloc, state)?)),
        Err(Halt::Memory) => Err(TypeStop::Memory),
        Err(Halt::At(number, fault)) => {
            Err(TypeStop::Refused(refusal_at(alloc, list, number, fault)?))
        }
    }
}
