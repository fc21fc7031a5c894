ghost use Rattle.std.specs.Prelude.{◌≡◌, map, length, ◌+◌, ◌≤◌, IfOk};
ghost use Rattle.dk_text.specs.Tokens.{EntryTokens, is_point};
ghost use Rattle.dk_reader.specs.Seen.{seen};

use crate::blank::after_blank;
use crate::token::{Token, token_at};
use std::alloc::{AllocError, Global};

/// The tokens of an entry and what follows them.
#[derive(Drop)]
pub struct Lexed<'a> {
    pub tokens: Vec<Token<'a>>,
    pub rest: &'a [u8],
}

// For so many tokens there is room from the first on, as many entries have no more.
const ROOM: usize = 16;

// Whether the token is the point that ends an entry.
fn is_point(token: Token) -> bool
    ensures { result ≡ is_point (seen token.entry) }
{
    match token {
        Token::Point => true,
        Token::Name(_, _)
        | Token::Type
        | Token::Def
        | Token::Colon
        | Token::Becomes
        | Token::Arrow
        | Token::FatArrow
        | Token::LongArrow
        | Token::Comma
        | Token::OpenRound
        | Token::CloseRound
        | Token::OpenSquare
        | Token::CloseSquare
        | Token::LeftOut(_, _) => false,
    }
}

/// The tokens from the front of the text up to and with the next point, or to where no token begins.
pub fn entry_tokens(alloc: Global, bytes: &[u8]) -> Result<Lexed<'_>, AllocError>
    ensures tokens { IfOk result (λ l. EntryTokens bytes.now (map seen l.tokens.items) l.rest.now) }
    ensures shrinks { IfOk result (λ l. length l.rest.now + length l.tokens.items ≤ length bytes.now) }
{
    let mut tokens = Vec::with_capacity(alloc, ROOM)?;
    let mut rest = bytes;
    loop {
        let at = after_blank(rest);
        let Some(front) = token_at(at) else {
            return Ok(Lexed { tokens, rest: at });
        };
        tokens.push(front.token)?;
        rest = front.rest;
        if is_point(front.token) {
            return Ok(Lexed { tokens, rest });
        }
    }
}
