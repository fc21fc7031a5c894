ghost use Rattle.std.specs.Prelude.{◌≡◌, ◌≤◌, Option, Some, None, Ok, Err, true, length, IfSome, IfOk, IfErr, ℕ};
ghost use Rattle.tptp_lex.specs.Lexing.{Reading, IsNext, IsFault, OnlyBlank, end_of};
ghost use Rattle.tptp_lex.specs.Found.{Finds, FindsNone};

use crate::blank::after_blank;
use crate::token::{TokenKind, token_at};
use std::marker::Model;

/// A token: its kind, and the places of its first byte and of the byte behind it.
#[derive(Clone, Copy, Debug, PartialEq, Eq)]
pub struct Token {
    pub kind: TokenKind,
    pub start: usize,
    pub end: usize,
}

/// No token begins at this place, and neither does white space or a comment.
#[derive(Clone, Copy, Debug, PartialEq, Eq)]
pub struct LexFault {
    pub at: usize,
}

/// Reads the tokens of a text, one after another. It takes no memory.
#[derive(Drop)]
pub struct Lexer<'a> {
    bytes: &'a [u8],
    place: usize,
    fault: Option<LexFault>,
}

impl<'a> Model for Lexer<'a> {
    ghost use Rattle.std.specs.Prelude.{◌≤◌, length, IfSome};
    ghost use Rattle.tptp_lex.specs.Found.{FindsNone};
    ghost use Rattle.tptp_lex.specs.Lexing.{Reading};

    ghost Value = { Reading };

    ghost view = { λ l. record { text = l.bytes.now; reached = l.place; stopped = l.fault } };

    ghost invariant = { λ l. (l.place ≤ length l.bytes.now) × IfSome l.fault (λ f. FindsNone l.bytes.now l.place f.at) };
}

// The token that comes first from a place on, or the fault.
fn token_from(text: &[u8], from: usize) -> Result<Token, LexFault>
    requires { from ≤ length text.now }
    ensures token { IfOk result (λ t. Finds text.now from t) }
    ensures fault { IfErr result (λ f. FindsNone text.now from f.at) }
{
    let rest = after_blank(&text[from..]);
    let start = text.len() - rest.len();
    match token_at(rest) {
        Some((kind, count)) => Ok(Token {
            kind,
            start,
            end: start + count,
        }),
        None => Err(LexFault { at: start }),
    }
}

impl<'a> Lexer<'a> {
    ghost use Rattle.tptp_lex.specs.declared.token.TokenKind.TheVariants.{End};
    ghost use Rattle.tptp_lex.specs.declared.lexer.Token.{Token};

    /// A lexer at the front of a text.
    pub fn new(bytes: &'a [u8]) -> Self
        ensures text { result.text ≡ bytes.now }
        ensures front { result.reached ≡ 0 }
        ensures unstopped { result.stopped ≡ None }
    {
        Lexer {
            bytes,
            place: 0,
            fault: None,
        }
    }

    /// A lexer at a place of a text.
    pub fn at(bytes: &'a [u8], place: usize) -> Self
        requires { place ≤ length bytes.now }
        ensures text { result.text ≡ bytes.now }
        ensures place { result.reached ≡ place }
        ensures unstopped { result.stopped ≡ None }
    {
        Lexer {
            bytes,
            place,
            fault: None,
        }
    }

    /// The place behind the last token.
    pub fn place(&self) -> usize
        ensures { result ≡ self.now.reached }
    {
        self.place
    }

    /// The next token. Where nothing but white space and comments follows, it is `End`, empty, behind the whole text.
    ///
    /// # Errors
    ///
    /// A fault where no token begins behind white space and comments. From then on each call answers the same fault.
    pub fn next(&mut self) -> Result<Token, LexFault>
        ensures token { IfOk result (λ t. IsNext self.old.text self.old.reached t) }
        ensures each_token { (t : Token) → IsNext self.old.text self.old.reached t → result ≡ Ok t }
        ensures fault { IfErr result (λ f. IsFault self.old.text self.old.reached f.at) }
        ensures each_fault { (at : ℕ) → IsFault self.old.text self.old.reached at → result ≡ Err record { at = at } }
        ensures end { IfOk result (λ t. t.kind ≡ End → OnlyBlank self.old.text self.old.reached) }
        ensures each_end { OnlyBlank self.old.text self.old.reached → result ≡ Ok (end_of self.old.text) }
        ensures advanced { IfOk result (λ t. self.new ≡ record { text = self.old.text; reached = t.end; stopped = None }) }
        ensures stopped { IfErr result (λ f. self.new ≡ record { text = self.old.text; reached = self.old.reached; stopped = Some f }) }
        ensures same_fault { IfSome self.old.stopped (λ f. result ≡ Err f) }
        ensures unchanged { IfSome self.old.stopped (λ f. self.new ≡ self.old) }
    {
        if let Some(fault) = self.fault {
            return Err(fault);
        }
        let result = token_from(self.bytes, self.place);
        match result {
            Ok(token) => self.place = token.end,
            Err(fault) => self.fault = Some(fault),
        }
        result
    }
}
