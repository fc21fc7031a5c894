ghost use Rattle.std.specs.Prelude.{◌≡◌, ◌<◌, ℕ, nat_le, Option, Some, true, false, length, map, suc, IfOk, IfSome};
ghost use Rattle.std.specs.Option.{option_map};
ghost use Rattle.tptp_reader.specs.Brackets.{class_of};
ghost use Rattle.tptp_reader.specs.Counted.{class_told};
ghost use Rattle.tptp_reader.specs.Parsing.{seen};
ghost use Rattle.tptp_reader.specs.Rows as rows;
ghost use Rattle.tptp_reader.specs.Rows.{unnested, deeper, with_pending, settled, closed, nested_step, nested};
ghost use Rattle.tptp_reader.specs.Tokens as tokens;

use crate::lexeme::Lexeme;
use std::alloc::{AllocError, Global};
use std::marker::Model;
use tptp_lex::Sign;

// How many brackets, negations and quantifiers may be open at one place.
const MOST_OPEN: u32 = 200;

/// What a token does to the nesting.
#[derive(Clone, Copy, Debug, PartialEq, Eq)]
pub enum Effect {
    /// It opens a bracket.
    Opening,
    /// It closes one.
    Closing,
    /// It is a negation or begins the head of a quantifier.
    Pending,
    /// It is a binary connective or a comma.
    Separating,
    Other,
}

/// What was open before a bracket: all that counts, and how much of it when the bracket round that place was opened.
#[derive(Clone, Copy, Debug)]
pub struct Level {
    pub count: u32,
    pub base: u32,
}

/// What is open and pending behind some tokens.
#[derive(Drop)]
pub struct Nesting {
    count: u32,
    base: u32,
    outer: Vec<Level>,
}

impl Model for Nesting {
    ghost use Rattle.tptp_reader.specs.Counted.{levels_of};
    ghost use Rattle.tptp_reader.specs.Rows as rows;

    ghost Value = { rows.Nesting };

    ghost view = { λ n. record { count = n.count; base = n.base; outer = levels_of n.outer.items } };
}

fn sign_effect(sign: Sign) -> Effect
    ensures { class_told result ≡ class_of (tokens.sign sign) }
{
    match sign {
        Sign::Open | Sign::OpenList => Effect::Opening,
        Sign::Close | Sign::CloseList => Effect::Closing,
        Sign::Not | Sign::All | Sign::Exists | Sign::AllTypes => Effect::Pending,
        Sign::Comma
        | Sign::And
        | Sign::Or
        | Sign::Implies
        | Sign::If
        | Sign::Iff
        | Sign::Xor
        | Sign::NotAnd
        | Sign::NotOr => Effect::Separating,
        Sign::Stop
        | Sign::Colon
        | Sign::Equal
        | Sign::NotEqual
        | Sign::Arrow
        | Sign::Star
        | Sign::At
        | Sign::Caret
        | Sign::Plus
        | Sign::Minus => Effect::Other,
    }
}

fn effect_of(lexeme: &Lexeme) -> Effect
    ensures { class_told result ≡ class_of (seen lexeme.now) }
{
    match lexeme {
        Lexeme::Sign(sign) => sign_effect(*sign),
        Lexeme::Lower(_)
        | Lexeme::Upper(_)
        | Lexeme::Defined(_)
        | Lexeme::Quoted(_)
        | Lexeme::Distinct
        | Lexeme::Number(_) => Effect::Other,
    }
}

impl Nesting {
    // Nothing is open.
    fn new(alloc: Global) -> Nesting
        ensures { result ≡ unnested }
    {
        Nesting {
            count: 0,
            base: 0,
            outer: Vec::new(alloc),
        }
    }

    // As much is open as may be.
    fn is_full(&self) -> bool
        ensures { result ≡ nat_le 200 self.now.count }
    {
        MOST_OPEN <= self.count
    }

    // A bracket is opened.
    #[tactic(auto, using(crate::proofs::Counting::level_pushed))]
    fn open(&mut self) -> Result<(), AllocError>
        requires { self.old.count < 200 }
        ensures { IfOk result (λ u. self.new ≡ deeper self.old) }
    {
        self.outer.push(Level {
            count: self.count,
            base: self.base,
        })?;
        self.count += 1;
        self.base = self.count;
        Ok(())
    }

    // A bracket is closed.
    #[tactic(auto, using(crate::proofs::Counting::level_pushed))]
    fn close(&mut self)
        ensures { self.new ≡ closed self.old }
    {
        match self.outer.pop() {
            Some(level) => {
                self.count = level.count;
                self.base = level.base;
            }
            None => self.count = self.base,
        }
    }

    // Takes a token, unless it opens one more than may be.
    fn take(&mut self, effect: Effect) -> Result<bool, AllocError>
        ensures goes { IfOk result (λ r. r ≡ true → (go : rows.Nesting → Option ℕ) → nested_step 200 (class_told effect) self.old go ≡ option_map suc (go self.new)) }
        ensures full { IfOk result (λ r. r ≡ false → (go : rows.Nesting → Option ℕ) → nested_step 200 (class_told effect) self.old go ≡ Some 0) }
    {
        match effect {
            Effect::Opening => {
                if self.is_full() {
                    return Ok(false);
                }
                self.open()?;
            }
            Effect::Pending => {
                if self.is_full() {
                    return Ok(false);
                }
                self.count += 1;
            }
            Effect::Closing => self.close(),
            Effect::Separating => self.count = self.base,
            Effect::Other => {}
        }
        Ok(true)
    }
}

// How many tokens stand before the first at which more than 200 brackets, negations and quantifiers are open; none where
// there is no such token.
fn nested(alloc: Global, lexemes: &[Lexeme]) -> Result<Option<usize>, AllocError>
    ensures value { IfOk result (λ n. n ≡ nested 200 unnested (map seen lexemes.now)) }
    ensures within { IfOk result (λ n. IfSome n (λ k. k < length lexemes.now)) }
{
    let mut nesting = Nesting::new(alloc);
    let mut count = 0;
    let mut rest = lexemes;
    while let [first, others @ ..] = rest {
        if !nesting.take(effect_of(first))? {
            return Ok(Some(count));
        }
        count += 1;
        rest = others;
    }
    Ok(None)
}

/// How many tokens stand before the first at which more than 200 brackets, negations and quantifiers are open; none where
/// there is no such token. Up to 200 tokens need not be gone over.
pub fn nested_part(alloc: Global, lexemes: &[Lexeme]) -> Result<Option<usize>, AllocError>
    ensures value { IfOk result (λ n. n ≡ nested 200 unnested (map seen lexemes.now)) }
    ensures within { IfOk result (λ n. IfSome n (λ k. k < length lexemes.now)) }
{
    if lexemes.len() <= MOST_OPEN as usize {
        return Ok(None);
    }
    nested(alloc, lexemes)
}
