ghost use Rattle.std.specs.Prelude.{◌≡◌, true, false, map, Some};
ghost use Rattle.tptp_reader.specs.Brackets.{is_point};
ghost use Rattle.tptp_reader.specs.Parsing.{seen};
ghost use Rattle.tptp_reader.specs.SlowStatements.{is_last, is_ending};
ghost use Rattle.tptp_reader.specs.Kept.{Decides};

use crate::brackets::behind_closing;
use crate::cursor::{ParseStop, Parser};
use crate::lexeme::Lexeme;
use tptp_lex::Sign;

// Whether these tokens are a point alone.
fn is_point(lexemes: &[Lexeme]) -> bool
    ensures { result ≡ is_point (Some (map seen lexemes.now)) }
{
    match lexemes {
        [Lexeme::Sign(Sign::Stop)] => true,
        _ => false,
    }
}

impl<'t, 'a> Parser<'t, 'a> {
    /// Whether nothing but the closing bracket and the point is left.
    pub fn is_last(&self) -> bool
        ensures { result ≡ is_last (map seen self.now.rest.now) }
    {
        match self.rest {
            [Lexeme::Sign(Sign::Close), others @ ..] => is_point(others),
            _ => false,
        }
    }

    /// Whether the end of a fof or tff statement is left: a bracket and a point, with notes before them or none.
    pub fn is_ending(&self) -> Result<bool, ParseStop>
        ensures { Decides result (is_ending (map seen self.now.rest.now)) }
    {
        match self.rest {
            [Lexeme::Sign(Sign::Close), others @ ..] => Ok(is_point(others)),
            [Lexeme::Sign(Sign::Comma), others @ ..] => {
                match behind_closing(self.alloc, others)? {
                    Some(rest) => Ok(is_point(rest)),
                    None => Ok(false),
                }
            }
            _ => Ok(false),
        }
    }
}
