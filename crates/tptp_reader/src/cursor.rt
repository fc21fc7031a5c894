ghost use Rattle.std.specs.Prelude.{◌≡◌, ◌≤◌, ◌<◌, Some, None, [], ◌∷◌, true, false, Ok, length, map, MatchOption};
ghost use Rattle.tptp_reader.specs.Tokens.{sign};
ghost use Rattle.tptp_reader.specs.Parsing.{seen, first_sign, behind, Starts, Leaves};

use crate::lexeme::Lexeme;
use std::alloc::{AllocError, Global};
use tptp_lex::Sign;

/// Why a parser stopped: its tokens aren't in the grammar, or memory ran out.
#[derive(Clone, Copy, Debug, PartialEq, Eq)]
pub enum ParseStop {
    Syntax,
    Memory,
}

impl From<AllocError> for ParseStop {
    ghost use Rattle.tptp_reader.specs.declared.cursor.ParseStop.TheVariants.{Memory};

    ghost from_gives = { λ _ e. e ≡ Memory };

    fn from(_e: AllocError) -> ParseStop {
        ParseStop::Memory
    }
}

/// What is left of a statement's tokens.
#[derive(Drop)]
pub struct Parser<'t, 'a> {
    pub alloc: Global,
    pub rest: &'t [Lexeme<'a>],
}

impl<'t, 'a> Parser<'t, 'a> {
    /// Takes the next token.
    pub fn next(&mut self) -> Option<Lexeme<'a>>
        ensures token { MatchOption result (map seen self.old.rest.now ≡ []) (λ l. map seen self.old.rest.now ≡ seen l ∷ map seen self.new.rest.now) }
        ensures shrinks { length self.new.rest.now ≤ length self.old.rest.now }
    {
        let rest = self.rest;
        match rest {
            [] => None,
            [first, others @ ..] => {
                self.rest = others;
                Some(*first)
            }
        }
    }

    /// The token that comes next.
    pub fn peek(&self) -> Option<Lexeme<'a>>
        ensures token { MatchOption result (map seen self.now.rest.now ≡ []) (λ l. Starts (map seen self.now.rest.now) (seen l)) }
    {
        match self.rest {
            [] => None,
            [first, ..] => Some(*first),
        }
    }

    /// The sign that comes next, if it is one.
    pub fn sign(&self) -> Option<Sign>
        ensures { result ≡ first_sign (map seen self.now.rest.now) }
    {
        match self.rest {
            [Lexeme::Sign(sign), ..] => Some(*sign),
            [
                Lexeme::Lower(_)
                | Lexeme::Upper(_)
                | Lexeme::Defined(_)
                | Lexeme::Quoted(_)
                | Lexeme::Distinct
                | Lexeme::Number(_),
                ..
            ] => None,
            [] => None,
        }
    }

    /// Takes the sign, if it comes next.
    pub fn take(&mut self, wanted: Sign) -> bool
        ensures yes { result ≡ true → map seen self.old.rest.now ≡ sign wanted ∷ map seen self.new.rest.now }
        ensures no { result ≡ false → (first_sign (map seen self.old.rest.now) ≡ Some wanted → ⊥) × (self.new.rest.now ≡ self.old.rest.now) }
        ensures shrinks { length self.new.rest.now ≤ length self.old.rest.now }
        ensures shorter { result ≡ true → length self.new.rest.now < length self.old.rest.now }
    {
        let rest = self.rest;
        match rest {
            [Lexeme::Sign(sign), others @ ..] => {
                if *sign == wanted {
                    self.rest = others;
                    return true;
                }
                false
            }
            [
                Lexeme::Lower(_)
                | Lexeme::Upper(_)
                | Lexeme::Defined(_)
                | Lexeme::Quoted(_)
                | Lexeme::Distinct
                | Lexeme::Number(_),
                ..
            ] => false,
            [] => false,
        }
    }

    /// Takes the sign, which has to come next.
    pub fn expect(&mut self, wanted: Sign) -> Result<(), ParseStop>
        ensures takes { Leaves result (map seen self.new.rest.now) (behind wanted (map seen self.old.rest.now)) }
        ensures shrinks { length self.new.rest.now ≤ length self.old.rest.now }
    {
        if self.take(wanted) {
            return Ok(());
        }
        Err(ParseStop::Syntax)
    }
}
