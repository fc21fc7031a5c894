ghost use Rattle.std.specs.Prelude.{◌≡◌, ◌≤◌, ◌+◌, ◌<◌, ◌^◌, length, map, IfOk, IfSome};
ghost use Rattle.std.specs.Option.{option_map};
ghost use Rattle.tptp_reader.specs.Counted.{fault_of, has_subrole};
ghost use Rattle.tptp_reader.specs.Parsing.{seen};
ghost use Rattle.tptp_reader.specs.Rows.{Fault, is_formula_word, is_other_word, is_role, role_fault, role_row, nested, unnested, unsupported_form, unsupported_from, formula_rows, early_fault};
ghost use Rattle.tptp_reader.specs.Tokens as tokens;

use crate::lexeme::{Defined, Lexeme};
use crate::nesting::nested_part;
use crate::parts::{formula_part, formula_start, role_start, tokens_from};
use crate::refusal::UnsupportedForm;
use crate::roles::role_of;
use std::alloc::{AllocError, Global};
use tptp_lex::Sign;

/// A refused token of a statement, by its number.
#[derive(Clone, Copy, Debug, PartialEq, Eq)]
pub enum RefusedToken {
    Unsupported(UnsupportedForm, usize),
    TooDeep(usize),
}

fn is_formula_word(word: &str) -> bool
    ensures { result ≡ is_formula_word word.now }
{
    word == "fof" || word == "tff"
}

fn is_other_word(word: &str) -> bool
    ensures { result ≡ is_other_word word.now }
{
    word == "cnf" || word == "thf" || word == "tcf" || word == "tpi"
}

fn is_role(word: &str, role: &str) -> bool
    ensures { result ≡ is_role word.now role.now }
{
    role_of(role).is_some() || (word == "tff" && role == "type")
}

// A subrole stands behind the role.
fn has_subrole(behind: &[Lexeme]) -> bool
    ensures { result ≡ has_subrole (map seen behind.now) }
{
    match behind {
        [Lexeme::Sign(sign), ..] => *sign == Sign::Minus,
        [
            Lexeme::Lower(_)
            | Lexeme::Upper(_)
            | Lexeme::Defined(_)
            | Lexeme::Quoted(_)
            | Lexeme::Distinct
            | Lexeme::Number(_),
            ..
        ] => false,
        [] => false,
    }
}

// The role's refusal, where the role's place begins with a token.
fn role_fault(word: &str, n: usize, lexemes: &[Lexeme]) -> Option<RefusedToken>
    ensures { option_map fault_of result ≡ role_fault word.now n (map seen lexemes.now) }
{
    match lexemes {
        [Lexeme::Lower(role), behind @ ..] => {
            if has_subrole(behind) || !is_role(word, role) {
                Some(RefusedToken::Unsupported(UnsupportedForm::Role, n))
            } else {
                None
            }
        }
        [
            Lexeme::Upper(_)
            | Lexeme::Defined(_)
            | Lexeme::Quoted(_)
            | Lexeme::Distinct
            | Lexeme::Number(_)
            | Lexeme::Sign(_),
            ..
        ] => None,
        [] => None,
    }
}

fn role_row(word: &str, lexemes: &[Lexeme]) -> Option<RefusedToken>
    ensures { option_map fault_of result ≡ role_row word.now (map seen lexemes.now) }
{
    let start = role_start(lexemes);
    role_fault(word, start, tokens_from(lexemes, start))
}

// The first token of a part at which too much is open; the tokens are numbered from `start` on.
fn nested_from(
    alloc: Global,
    start: usize,
    part: &[Lexeme],
) -> Result<Option<RefusedToken>, AllocError>
    requires { start + length part.now < 2 ^ 64 }
    ensures { IfOk result (λ r. option_map fault_of r ≡ option_map (λ n. Fault.too_deep (start + n)) (nested 200 unnested (map seen part.now))) }
{
    match nested_part(alloc, part)? {
        Some(count) => Ok(Some(RefusedToken::TooDeep(start + count))),
        None => Ok(None),
    }
}

fn unsupported_sign(sign: Sign) -> Option<UnsupportedForm>
    ensures { result ≡ unsupported_form (tokens.sign sign) }
{
    match sign {
        Sign::At | Sign::Caret | Sign::Plus | Sign::Minus => Some(UnsupportedForm::Operator),
        Sign::Open
        | Sign::Close
        | Sign::OpenList
        | Sign::CloseList
        | Sign::Comma
        | Sign::Stop
        | Sign::Colon
        | Sign::And
        | Sign::Or
        | Sign::Not
        | Sign::Implies
        | Sign::If
        | Sign::Iff
        | Sign::Xor
        | Sign::NotAnd
        | Sign::NotOr
        | Sign::Equal
        | Sign::NotEqual
        | Sign::All
        | Sign::Exists
        | Sign::AllTypes
        | Sign::Arrow
        | Sign::Star => None,
    }
}

fn unsupported_word(word: Defined) -> Option<UnsupportedForm>
    ensures { result ≡ unsupported_form (tokens.defined word) }
{
    match word {
        Defined::Other => Some(UnsupportedForm::DefinedWord),
        Defined::True | Defined::False | Defined::Individual | Defined::Truth | Defined::Kind =>
            None,
    }
}

// What isn't read in a formula.
fn unsupported_form(lexeme: &Lexeme) -> Option<UnsupportedForm>
    ensures { result ≡ unsupported_form (seen lexeme.now) }
{
    match lexeme {
        Lexeme::Number(_) => Some(UnsupportedForm::Numeral),
        Lexeme::Distinct => Some(UnsupportedForm::DistinctObject),
        Lexeme::Defined(word) => unsupported_word(*word),
        Lexeme::Sign(sign) => unsupported_sign(*sign),
        Lexeme::Lower(_) | Lexeme::Upper(_) | Lexeme::Quoted(_) => None,
    }
}

// The first token that isn't read in formulas; the tokens are numbered from `start` on.
fn unsupported_from(start: usize, lexemes: &[Lexeme]) -> Option<RefusedToken>
    requires { start + length lexemes.now < 2 ^ 64 }
    ensures { option_map fault_of result ≡ unsupported_from start (map seen lexemes.now) }
{
    let mut n = start;
    let mut rest = lexemes;
    while let [first, others @ ..] = rest {
        if let Some(form) = unsupported_form(first) {
            return Some(RefusedToken::Unsupported(form, n));
        }
        n += 1;
        rest = others;
    }
    None
}

// The rows of a fof or tff statement, in their order.
fn formula_rows(
    alloc: Global,
    word: &str,
    lexemes: &[Lexeme],
) -> Result<Option<RefusedToken>, AllocError>
    ensures { IfOk result (λ r. option_map fault_of r ≡ formula_rows word.now (map seen lexemes.now)) }
{
    if let Some(fault) = role_row(word, lexemes) {
        return Ok(Some(fault));
    }
    let start = formula_start(lexemes);
    let part = formula_part(lexemes, start);
    if let Some(fault) = nested_from(alloc, start, part)? {
        return Ok(Some(fault));
    }
    Ok(unsupported_from(start, part))
}

/// The first token that the rows before the grammar refuse, if they refuse one.
pub fn early_fault(alloc: Global, lexemes: &[Lexeme]) -> Result<Option<RefusedToken>, AllocError>
    ensures { IfOk result (λ r. option_map fault_of r ≡ early_fault (map seen lexemes.now)) }
{
    match lexemes {
        [Lexeme::Lower(word), ..] => {
            if is_formula_word(word) {
                return formula_rows(alloc, word, lexemes);
            }
            if is_other_word(word) {
                return Ok(Some(RefusedToken::Unsupported(UnsupportedForm::Statement, 0)));
            }
            Ok(None)
        }
        [
            Lexeme::Upper(_)
            | Lexeme::Defined(_)
            | Lexeme::Quoted(_)
            | Lexeme::Distinct
            | Lexeme::Number(_)
            | Lexeme::Sign(_),
            ..
        ] => Ok(None),
        [] => Ok(None),
    }
}
