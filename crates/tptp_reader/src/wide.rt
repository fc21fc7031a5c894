ghost use Rattle.std.specs.Prelude.{◌≡◌, ◌≤◌, [], ◌∷◌, length, map, Ok, true, false, Some, None, IfOk, IfSome};
ghost use Rattle.tptp_reader.specs.Tokens.{sign};
ghost use Rattle.tptp_reader.specs.Parsing.{seen};
ghost use Rattle.tptp_reader.specs.Brackets.{Bracket, is_wide};
ghost use Rattle.tptp_reader.specs.Scanning.{NoToken, Takes, NotNext, Moves, is_lower, opens, closes, nothing, Begins};
ghost use Rattle.tptp_lex.specs.Lexing.{OnlyBlank};

use crate::brackets::Brackets;
use crate::lexeme::Lexeme;
use crate::tokens::lexeme_of;
use std::alloc::{AllocError, Global};
use std::marker::Model;
use tptp_lex::{Lexer, Sign, TokenKind};

// The token is this sign.
fn is_sign(lexeme: &Lexeme, wanted: Sign) -> bool
    ensures yes { result ≡ true → seen lexeme.now ≡ sign wanted }
    ensures no { result ≡ false → seen lexeme.now ≡ sign wanted → ⊥ }
{
    match lexeme {
        Lexeme::Sign(found) => *found == wanted,
        Lexeme::Lower(_)
        | Lexeme::Upper(_)
        | Lexeme::Defined(_)
        | Lexeme::Quoted(_)
        | Lexeme::Distinct
        | Lexeme::Number(_) => false,
    }
}

// The token is a lower.
fn is_lower(lexeme: &Lexeme) -> bool
    ensures { result ≡ is_lower (seen lexeme.now) }
{
    match lexeme {
        Lexeme::Lower(_) => true,
        Lexeme::Upper(_)
        | Lexeme::Defined(_)
        | Lexeme::Quoted(_)
        | Lexeme::Distinct
        | Lexeme::Number(_)
        | Lexeme::Sign(_) => false,
    }
}

// For so many tokens there is room from the first on, as most statements have no more.
const ROOM: usize = 40;

/// Tokens of a text taken one after another, each with its place.
#[derive(Drop)]
pub struct Front<'a> {
    bytes: &'a [u8],
    lexer: Lexer<'a>,
    lexemes: Vec<Lexeme<'a>>,
    marks: Vec<usize>,
}

impl<'a> Model for Front<'a> {
    ghost use Rattle.std.specs.Prelude.{◌≡◌, map};
    ghost use Rattle.tptp_reader.specs.Parsing.{seen};
    ghost use Rattle.tptp_reader.specs.Scanning.{Taken};

    ghost Value = { Taken };

    ghost view = { λ f. record { text = f.bytes.now; tokens = map seen f.lexemes.items; places = f.marks.items; reached = f.lexer.reached } };

    ghost invariant = { λ f. f.lexer.text ≡ f.bytes.now };
}

impl<'a> Front<'a> {
    // Nothing is taken yet.
    fn new(alloc: Global, bytes: &'a [u8], at: usize) -> Result<Self, AllocError>
        requires { at ≤ length bytes.now }
        ensures { IfOk result (λ f. f ≡ record { text = bytes.now; tokens = []; places = []; reached = at }) }
    {
        Ok(Front {
            bytes,
            lexer: Lexer::at(bytes, at),
            lexemes: Vec::with_capacity(alloc, ROOM)?,
            marks: Vec::with_capacity(alloc, ROOM)?,
        })
    }

    // What is taken.
    fn taken(self) -> Wide<'a>
        ensures tokens { map seen result.lexemes.items ≡ self.entry.tokens }
        ensures places { result.places.items ≡ self.entry.places }
        ensures after { result.after ≡ self.entry.reached }
    {
        Wide {
            after: self.lexer.place(),
            lexemes: self.lexemes,
            places: self.marks,
        }
    }

    // Takes the next token, if there is one.
    fn next(&mut self) -> Result<Option<Lexeme<'a>>, AllocError>
        ensures none { IfOk result (λ r. r ≡ None → NoToken self.old.text self.old.reached) }
        ensures takes { IfOk result (λ r. IfSome r (λ l. Takes self.old self.new (seen l))) }
    {
        match self.lexer.next() {
            Ok(token) => match lexeme_of(self.bytes, token) {
                Some(lexeme) => {
                    self.lexemes.push(lexeme)?;
                    self.marks.push(token.start)?;
                    Ok(Some(lexeme))
                }
                None => Ok(None),
            },
            Err(_) => Ok(None),
        }
    }

    // Takes the sign, if it comes next.
    fn take(&mut self, wanted: Sign) -> Result<bool, AllocError>
        ensures yes { IfOk result (λ r. r ≡ true → Takes self.old self.new (sign wanted)) }
        ensures no { IfOk result (λ r. r ≡ false → NotNext self.old (sign wanted)) }
    {
        match self.next()? {
            Some(lexeme) => Ok(is_sign(&lexeme, wanted)),
            None => Ok(false),
        }
    }

    // Takes a lower, if it comes next.
    fn take_lower(&mut self) -> Result<bool, AllocError>
        ensures { IfOk result (λ r. Moves r self.old self.new is_wide opens) }
    {
        match self.next()? {
            Some(lexeme) => Ok(is_lower(&lexeme)),
            None => Ok(false),
        }
    }

    // Takes tokens up to the bracket that closes a round one before them.
    fn take_balanced(&mut self, alloc: Global) -> Result<bool, AllocError>
        ensures { IfOk result (λ r. Moves r self.old self.new (closes (Bracket.round ∷ [])) (closes [])) }
    {
        let mut brackets = Brackets::round(alloc)?;
        while !brackets.is_closed() {
            match self.next()? {
                Some(lexeme) => {
                    if !brackets.take(&lexeme)? {
                        return Ok(false);
                    }
                }
                None => return Ok(false),
            }
        }
        Ok(true)
    }

    // Takes a wide statement.
    fn take_statement(&mut self, alloc: Global) -> Result<bool, AllocError>
        ensures { IfOk result (λ r. Moves r self.old self.new is_wide nothing) }
    {
        if !self.take_lower()? {
            return Ok(false);
        }
        if !self.take(Sign::Open)? {
            return Ok(false);
        }
        if !self.take_balanced(alloc)? {
            return Ok(false);
        }
        let is_point = self.take(Sign::Stop)?;
        Ok(is_point)
    }
}

/// The tokens of a wide statement, the place of each, and the place behind the last.
#[derive(Drop)]
pub struct Wide<'a> {
    pub lexemes: Vec<Lexeme<'a>>,
    pub places: Vec<usize>,
    pub after: usize,
}

/// What begins at a place of a text.
#[derive(Drop)]
pub enum Start<'a> {
    /// A wide statement.
    Wide(Wide<'a>),
    /// No wide statement; the place that shows it.
    Refused(usize),
    /// Nothing but white space and comments.
    End,
}

/// What begins at a place of a text. The end takes no memory.
pub fn wide_at<'a>(alloc: Global, bytes: &'a [u8], at: usize) -> Result<Start<'a>, AllocError>
    requires { at ≤ length bytes.now }
    ensures begins { IfOk result (λ s. Begins bytes.now at s) }
    ensures each_end { OnlyBlank bytes.now at → result ≡ Ok Start.End }
{
    let mut lexer = Lexer::at(bytes, at);
    let first = match lexer.next() {
        Ok(first) => first,
        Err(fault) => return Ok(Start::Refused(fault.at)),
    };
    if first.kind == TokenKind::End {
        return Ok(Start::End);
    }
    let mut front = Front::new(alloc, bytes, at)?;
    if !front.take_statement(alloc)? {
        return Ok(Start::Refused(first.start));
    }
    Ok(Start::Wide(front.taken()))
}
