ghost use Rattle.std.specs.Prelude.{◌≡◌, List, [], ◌∷◌, Some, None, true, false, cond, map, IfOk};
ghost use Rattle.std.specs.Option.{option_map};
ghost use Rattle.tptp_reader.specs.Tokens as tokens;
ghost use Rattle.tptp_reader.specs.Brackets.{Bracket, behind_closing};
ghost use Rattle.tptp_reader.specs.Opened.{is_closed, bracket_of, bracketed};
ghost use Rattle.tptp_reader.specs.Parsing.{seen};

use crate::lexeme::Lexeme;
use std::alloc::{AllocError, Global};
use std::marker::Model;
use tptp_lex::Sign;

/// The kind of a bracket.
#[derive(Clone, Copy, Debug, PartialEq, Eq)]
pub enum Opening {
    Round,
    Square,
}

/// The brackets that are open behind some tokens. Contracts see them as a list, the innermost first.
#[derive(Drop)]
pub struct Brackets {
    opened: Vec<Opening>,
}

impl Model for Brackets {
    ghost use Rattle.std.specs.Prelude.{List};
    ghost use Rattle.tptp_reader.specs.Brackets.{Bracket};
    ghost use Rattle.tptp_reader.specs.Opened.{innermost_first};

    ghost Value = { List Bracket };

    ghost view = { λ b. innermost_first b.opened.items };
}

impl Brackets {
    /// One open round bracket.
    pub fn round(alloc: Global) -> Result<Brackets, AllocError>
        ensures { IfOk result (λ b. b ≡ Bracket.round ∷ []) }
    {
        let mut opened = Vec::new(alloc);
        opened.push(Opening::Round)?;
        Ok(Brackets { opened })
    }

    /// No bracket is open.
    pub fn is_closed(&self) -> bool
        ensures { result ≡ is_closed self.now }
    {
        self.opened.is_empty()
    }

    // Opens a bracket.
    #[tactic(auto, using(crate::proofs::Innermost::pushed))]
    fn open(&mut self, opening: Opening) -> Result<(), AllocError>
        ensures { IfOk result (λ u. self.new ≡ bracket_of opening ∷ self.old) }
    {
        self.opened.push(opening)?;
        Ok(())
    }

    // Closes the innermost bracket, if it is of this kind.
    #[tactic(auto, using(crate::proofs::Innermost::pushed))]
    fn close(&mut self, opening: Opening) -> bool
        ensures yes { result ≡ true → self.old ≡ bracket_of opening ∷ self.new }
        ensures no { result ≡ false → (rest : List Bracket) → self.old ≡ bracket_of opening ∷ rest → ⊥ }
    {
        match self.opened.pop() {
            Some(last) => last == opening,
            None => false,
        }
    }

    // Takes a sign.
    fn take_sign(&mut self, sign: Sign) -> Result<bool, AllocError>
        ensures { IfOk result (λ fits. bracketed self.old (tokens.sign sign) ≡ cond fits (Some self.new) None) }
    {
        match sign {
            Sign::Open => {
                self.open(Opening::Round)?;
                Ok(true)
            }
            Sign::OpenList => {
                self.open(Opening::Square)?;
                Ok(true)
            }
            Sign::Close => Ok(self.close(Opening::Round)),
            Sign::CloseList => Ok(self.close(Opening::Square)),
            Sign::Comma
            | Sign::Stop
            | Sign::Colon
            | Sign::And
            | Sign::Or
            | Sign::Not
            | Sign::Implies
            | Sign::If
            | Sign::Iff
            | Sign::Xor
            | Sign::NotAnd
            | Sign::NotOr
            | Sign::Equal
            | Sign::NotEqual
            | Sign::All
            | Sign::Exists
            | Sign::AllTypes
            | Sign::Arrow
            | Sign::Star
            | Sign::At
            | Sign::Caret
            | Sign::Plus
            | Sign::Minus => Ok(true),
        }
    }

    /// Takes one more token. It answers false where the token closes a bracket of the other kind, or none.
    pub fn take(&mut self, lexeme: &Lexeme) -> Result<bool, AllocError>
        ensures { IfOk result (λ fits. bracketed self.old (seen lexeme.now) ≡ cond fits (Some self.new) None) }
    {
        match lexeme {
            Lexeme::Sign(sign) => self.take_sign(*sign),
            Lexeme::Lower(_)
            | Lexeme::Upper(_)
            | Lexeme::Defined(_)
            | Lexeme::Quoted(_)
            | Lexeme::Distinct
            | Lexeme::Number(_) => Ok(true),
        }
    }
}

/// What follows the bracket that closes a round one before these tokens; none where brackets of other kinds close each
/// other, or none closes it.
pub fn behind_closing<'t, 'a>(
    alloc: Global,
    lexemes: &'t [Lexeme<'a>],
) -> Result<Option<&'t [Lexeme<'a>]>, AllocError>
    ensures { IfOk result (λ r. option_map (λ rest. map seen rest.now) r ≡ behind_closing (Bracket.round ∷ []) (map seen lexemes.now)) }
{
    let mut brackets = Brackets::round(alloc)?;
    let mut rest = lexemes;
    while !brackets.is_closed() {
        match rest {
            [] => return Ok(None),
            [first, others @ ..] => {
                if !brackets.take(first)? {
                    return Ok(None);
                }
                rest = others;
            }
        }
    }
    Ok(Some(rest))
}
