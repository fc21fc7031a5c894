ghost use Rattle.std.specs.Prelude.{◌≡◌, None, Err, map, IfOk};
ghost use Rattle.tptp_reader.specs.Accepted.{Accepts};
ghost use Rattle.tptp_reader.specs.Grammar.{IsStatement};
ghost use Rattle.tptp_reader.specs.Parsing.{seen};
ghost use Rattle.tptp_reader.specs.Raw.{RawStatement};
ghost use Rattle.tptp_reader.specs.Rows.{early_fault};
ghost use Rattle.tptp_reader.specs.declared.cursor.ParseStop.TheVariants.{Syntax};

use crate::cursor::{ParseStop, Parser};
use crate::lexeme::Lexeme;
use crate::statement::Body;
use std::alloc::Global;

/// What a statement's tokens say; or its formula is too deep.
#[derive(Debug, Drop)]
pub enum Parsed {
    Body(Body),
    TooDeep,
}

/// Parses the tokens of a statement, all of them, where the rows before the grammar refuse none.
///
/// # Errors
///
/// `Syntax` where the tokens spell no statement, and `Memory` where memory ran out.
#[tactic(auto, using(crate::proofs::Accepted::accepted_result, crate::proofs::Accepted::refused_result))]
pub fn parse_statement(alloc: Global, lexemes: &[Lexeme]) -> Result<Parsed, ParseStop>
    requires { early_fault (map seen lexemes.now) ≡ None }
    // What is parsed is the statement that the tokens spell, within the limits; or its formula is too deep.
    ensures parsed { IfOk result (λ p. Accepts (map seen lexemes.now) p) }
    // Nothing in the grammar is refused.
    ensures syntax { result ≡ Err Syntax → (s : RawStatement) → IsStatement (map seen lexemes.now) s → ⊥ }
{
    let mut parser = Parser {
        alloc,
        rest: lexemes,
    };
    parser.statement()
}
