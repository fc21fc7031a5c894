ghost use Rattle.std.specs.Prelude.{◌≡◌, ◌≤◌, ◌+◌, ◌<◌, ◌^◌, max, drop, length, map, IfSome};
ghost use Rattle.tptp_reader.specs.Brackets.{to_comma, part_end, role_start, formula_start, formula_part};
ghost use Rattle.tptp_reader.specs.Counted.{part_behind};
ghost use Rattle.tptp_reader.specs.Parsing.{seen};
ghost use Rattle.tptp_reader.specs.Tokens as tokens;

use crate::lexeme::Lexeme;
use tptp_lex::Sign;

// The inner brackets open behind a sign; none where the part ends before it.
fn behind_sign(opened: usize, sign: Sign) -> Option<usize>
    requires { opened < 2 ^ 63 }
    ensures value { result ≡ part_behind opened (tokens.sign sign) }
    ensures within { IfSome result (λ n. n ≤ opened + 1) }
{
    match sign {
        Sign::Open | Sign::OpenList => Some(opened + 1),
        Sign::Close | Sign::CloseList => opened.checked_sub(1),
        Sign::Comma => { if opened == 0 { None } else { Some(opened) } }
        Sign::Stop
        | Sign::Colon
        | Sign::And
        | Sign::Or
        | Sign::Not
        | Sign::Implies
        | Sign::If
        | Sign::Iff
        | Sign::Xor
        | Sign::NotAnd
        | Sign::NotOr
        | Sign::Equal
        | Sign::NotEqual
        | Sign::All
        | Sign::Exists
        | Sign::AllTypes
        | Sign::Arrow
        | Sign::Star
        | Sign::At
        | Sign::Caret
        | Sign::Plus
        | Sign::Minus => Some(opened),
    }
}

// The inner brackets open behind a token; none where the part ends before it.
fn part_behind(opened: usize, lexeme: &Lexeme) -> Option<usize>
    requires { opened < 2 ^ 63 }
    ensures value { result ≡ part_behind opened (seen lexeme.now) }
    ensures within { IfSome result (λ n. n ≤ opened + 1) }
{
    match lexeme {
        Lexeme::Sign(sign) => behind_sign(opened, *sign),
        Lexeme::Lower(_)
        | Lexeme::Upper(_)
        | Lexeme::Defined(_)
        | Lexeme::Quoted(_)
        | Lexeme::Distinct
        | Lexeme::Number(_) => Some(opened),
    }
}

// How many tokens stand before the next comma outside inner brackets, or before the closing bracket.
fn to_comma(lexemes: &[Lexeme]) -> usize
    ensures value { result ≡ to_comma 0 (map seen lexemes.now) }
    ensures within { result ≤ length lexemes.now }
{
    let mut opened = 0;
    let mut count = 0;
    let mut rest = lexemes;
    while let [first, others @ ..] = rest {
        match part_behind(opened, first) {
            Some(behind) => opened = behind,
            None => return count,
        }
        count += 1;
        rest = others;
    }
    count
}

/// The tokens from one on.
pub fn tokens_from<'t, 'a>(lexemes: &'t [Lexeme<'a>], start: usize) -> &'t [Lexeme<'a>]
    ensures value { map seen result.now ≡ drop start (map seen lexemes.now) }
    ensures within { start + length result.now ≤ max start (length lexemes.now) }
{
    &lexemes[start.min(lexemes.len())..]
}

// Where the part that begins at a token ends.
fn part_end(lexemes: &[Lexeme], start: usize) -> usize
    ensures value { result ≡ part_end (map seen lexemes.now) start }
    ensures within { result ≤ max start (length lexemes.now) }
{
    start + to_comma(tokens_from(lexemes, start))
}

/// Where the role begins: behind the first comma.
pub fn role_start(lexemes: &[Lexeme]) -> usize
    ensures value { result ≡ role_start (map seen lexemes.now) }
    ensures within { result ≤ 3 + length lexemes.now }
{
    1 + part_end(lexemes, 2)
}

/// Where the formula part begins: behind the second comma.
pub fn formula_start(lexemes: &[Lexeme]) -> usize
    ensures value { result ≡ formula_start (map seen lexemes.now) }
    ensures within { result ≤ 4 + length lexemes.now }
{
    1 + part_end(lexemes, role_start(lexemes))
}

/// The formula part, which begins at `start`: what stands between the second and the third comma, or the closing bracket.
pub fn formula_part<'t, 'a>(lexemes: &'t [Lexeme<'a>], start: usize) -> &'t [Lexeme<'a>]
    requires { start ≡ formula_start (map seen lexemes.now) }
    ensures value { map seen result.now ≡ formula_part (map seen lexemes.now) }
    ensures within { length result.now ≤ length lexemes.now }
{
    let rest = tokens_from(lexemes, start);
    &rest[..to_comma(rest)]
}
