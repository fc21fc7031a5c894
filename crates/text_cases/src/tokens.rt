// What the tokens of a text are.
use case_tables::{Case, CaseFault, Table};
use std::alloc::{AllocError, Global};
use tptp_lex::{LexFault, Lexer, Token, TokenKind};

/// Each token of a text by its kind and its places, up to the end or the first fault.
pub struct Tokens;

// A token, by its kind and its places.
fn push_token(out: &mut String, token: Token) -> Result<(), AllocError> {
    let Token { kind, start, end } = token;
    write!(out, "{kind:?} ")?;
    write!(out, "{start}..{end};")
}

// What is answered to a call.
fn push_answer(out: &mut String, answer: Result<Token, LexFault>) -> Result<(), AllocError> {
    match answer {
        Ok(token) => push_token(out, token),
        Err(LexFault { at }) => write!(out, "fault {at};"),
    }
}

// Whether a token follows this answer.
fn goes_on(answer: &Result<Token, LexFault>) -> bool {
    match answer {
        Ok(token) => token.kind != TokenKind::End,
        Err(_) => false,
    }
}

// The answers up to the end or the first fault, and those of so many calls behind it.
fn told(alloc: Global, text: &[u8], again: usize) -> Result<String, AllocError> {
    let mut lexer = Lexer::new(text);
    let mut out = String::new(alloc);
    for _ in 0..=text.len() {
        let answer = lexer.next();
        push_answer(&mut out, answer)?;
        if !goes_on(&answer) {
            break;
        }
    }
    for _ in 0..again {
        push_answer(&mut out, lexer.next())?;
    }
    Ok(out)
}

impl Table for Tokens {
    fn name(&self) -> &'static str {
        "tokens"
    }

    fn words(&self) -> &'static [&'static str] {
        &["again"]
    }

    fn answer(&self, alloc: Global, case: &Case) -> Result<Vec<u8>, CaseFault> {
        let text = case.wanted(alloc, "text")?;
        let again = case.number("again", 0)?;
        let out = told(alloc, text.as_slice(), again)?;
        Ok(out.into_bytes())
    }
}
