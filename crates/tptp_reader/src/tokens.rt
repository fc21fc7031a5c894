ghost use Rattle.std.specs.Prelude.{◌≡◌, ◌≤◌, drop, length, slice_range};
ghost use Rattle.std.specs.Option.{option_map};
ghost use Rattle.std.specs.Str.{IsAscii};
ghost use Rattle.tptp_lex.specs.Lexing.{IsToken};
ghost use Rattle.tptp_reader.specs.Tokens.{defined_word, unmarked, token_of};
ghost use Rattle.tptp_reader.specs.Parsing.{seen};

use crate::lexeme::{Defined, Lexeme};
use tptp_lex::{Token, TokenKind};

// The text of ASCII bytes.
fn text_of(bytes: &[u8]) -> &str
    requires { IsAscii bytes.now }
    ensures { result.now ≡ bytes.now }
{
    unsafe { std::str::from_utf8_unchecked(bytes) }
}

// What stands between the marks at both ends.
fn unmarked(text: &[u8]) -> &[u8]
    requires { 2 ≤ length text.now }
    ensures { result.now ≡ unmarked text.now }
{
    &text[1..text.len() - 1]
}

// What a word behind a dollar sign means.
fn defined_word(text: &str) -> Defined
    ensures { result ≡ defined_word text.now }
{
    match text {
        "$true" => Defined::True,
        "$false" => Defined::False,
        "$i" => Defined::Individual,
        "$o" => Defined::Truth,
        "$tType" => Defined::Kind,
        _ => Defined::Other,
    }
}

/// The token of the lexer with its text; none at the end of the bytes.
pub fn lexeme_of<'a>(bytes: &'a [u8], token: Token) -> Option<Lexeme<'a>>
    requires token { IsToken (drop token.start bytes.now) token.kind (drop token.end bytes.now) }
    requires order { token.start ≤ token.end }
    requires within { token.end ≤ length bytes.now }
    ensures { option_map seen result ≡ token_of token.kind (slice_range bytes.now token.start token.end) }
{
    let text = &bytes[token.start..token.end];
    match token.kind {
        TokenKind::Lower => Some(Lexeme::Lower(text_of(text))),
        TokenKind::Upper => Some(Lexeme::Upper(text_of(text))),
        TokenKind::Dollar => Some(Lexeme::Defined(defined_word(text_of(text)))),
        TokenKind::Quoted => Some(Lexeme::Quoted(text_of(unmarked(text)))),
        TokenKind::Distinct => Some(Lexeme::Distinct),
        TokenKind::Number => Some(Lexeme::Number(text_of(text))),
        TokenKind::Sign(sign) => Some(Lexeme::Sign(sign)),
        TokenKind::End => None,
    }
}
