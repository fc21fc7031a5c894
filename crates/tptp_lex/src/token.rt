ghost use Rattle.std.specs.Prelude.{◌≡◌, ◌≤◌, ◌<◌, ◌+◌, ◌^◌, length, IfSome};
ghost use Rattle.std.specs.Option.{option_map};
ghost use Rattle.tptp_lex.specs.Words.{lower_length, is_word, run};
ghost use Rattle.tptp_lex.specs.Tokens.{dollar_length, marked_length, number_or_sign, token_at};

use crate::numbers::number_length;
use crate::quoted::closes;
use crate::signs::{Sign, sign_at};
use crate::words::run;

/// What a token is: a row of the token table, or the end of the text.
#[derive(Clone, Copy, Debug, PartialEq, Eq)]
pub enum TokenKind {
    Lower,
    Upper,
    Dollar,
    Quoted,
    Distinct,
    Number,
    Sign(Sign),
    End,
}

// How long the lower at the front is.
fn lower_length(bytes: &[u8]) -> Option<usize>
    ensures value { result ≡ lower_length bytes.now }
    ensures within { IfSome result (λ n. n ≤ length bytes.now) }
{
    match bytes {
        [b'a'..=b'z', rest @ ..] => Some(1 + run(rest)),
        [_, ..] => None,
        [] => None,
    }
}

// How long it goes on behind a dollar sign: a lower, or another dollar sign and a lower.
fn dollar_length(bytes: &[u8]) -> Option<usize>
    ensures value { result ≡ dollar_length bytes.now }
    ensures within { IfSome result (λ n. n ≤ length bytes.now) }
{
    match bytes {
        [b'$', rest @ ..] => match lower_length(rest) {
            Some(n) => Some(1 + n),
            None => None,
        },
        [_, ..] => lower_length(bytes),
        [] => None,
    }
}

// How long it goes on behind a mark: one byte or more, and the mark.
fn marked_length(mark: u8, bytes: &[u8]) -> Option<usize>
    ensures value { result ≡ marked_length mark bytes.now }
    ensures within { IfSome result (λ n. n ≤ length bytes.now) }
{
    match bytes {
        [] => None,
        [first, ..] => {
            if *first == mark {
                None
            } else {
                closes(mark, bytes)
            }
        }
    }
}

// The token of this kind whose bytes go on behind the first so far.
fn longer(kind: TokenKind, behind: Option<usize>) -> Option<(TokenKind, usize)>
    requires { IfSome behind (λ n. n < 2 ^ 63) }
    ensures value { result ≡ option_map (λ n. (kind, 1 + n)) behind }
    ensures within { IfSome result (λ t. IfSome behind (λ n. t.1 ≡ 1 + n)) }
{
    match behind {
        Some(n) => Some((kind, 1 + n)),
        None => None,
    }
}

// The number or the sign at the front.
fn number_or_sign(bytes: &[u8]) -> Option<(TokenKind, usize)>
    ensures value { result ≡ number_or_sign bytes.now }
    ensures within { IfSome result (λ t. t.1 ≤ length bytes.now) }
{
    match number_length(bytes) {
        Some(n) => Some((TokenKind::Number, n)),
        None => match sign_at(bytes) {
            Some(sign) => Some((TokenKind::Sign(sign), sign.text().len())),
            None => None,
        },
    }
}

/// The kind of the token at the front, and its length.
pub fn token_at(bytes: &[u8]) -> Option<(TokenKind, usize)>
    ensures value { result ≡ token_at bytes.now }
    ensures within { IfSome result (λ t. t.1 ≤ length bytes.now) }
{
    match bytes {
        [] => Some((TokenKind::End, 0)),
        [first, rest @ ..] => match *first {
            b'a'..=b'z' => Some((TokenKind::Lower, 1 + run(rest))),
            b'A'..=b'Z' => Some((TokenKind::Upper, 1 + run(rest))),
            b'$' => longer(TokenKind::Dollar, dollar_length(rest)),
            b'\'' => longer(TokenKind::Quoted, marked_length(b'\'', rest)),
            b'"' => longer(TokenKind::Distinct, marked_length(b'"', rest)),
            _ => number_or_sign(bytes),
        },
    }
}
