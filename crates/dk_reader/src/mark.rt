ghost use Rattle.std.specs.Prelude.{◌≡◌, ◌∷◌, [], ◌<◌, ◌↔◌, ℕ, List, IsTrue, MatchOption, IfSome, length, map};
ghost use Rattle.std.specs.Option.{option_map};
ghost use Rattle.dk_text.specs.Tokens as plain;
ghost use Rattle.dk_reader.specs.Seen.{seen};
ghost use Rattle.dk_reader.specs.Judged.{first_name, name_at};
ghost use Rattle.dk_reader.specs.Marks.{mark_at, mark_seen};

use crate::token::Token;

/// A token that stands before, between or behind the parts of an entry.
#[derive(Clone, Copy, Debug, PartialEq, Eq)]
pub enum Mark {
    Def,
    Colon,
    Becomes,
    LongArrow,
    Point,
    Comma,
    OpenSquare,
    CloseSquare,
}

/// A name with a colon behind it, and the tokens behind that.
#[derive(Clone, Copy)]
pub struct Binder<'t, 'a> {
    pub name: &'a str,
    pub rest: &'t [Token<'a>],
}

// The mark that the token is, if it is one.
fn mark_of(token: Token) -> Option<Mark>
    ensures { result ≡ mark_at (seen token.entry) }
{
    match token {
        Token::Def => Some(Mark::Def),
        Token::Colon => Some(Mark::Colon),
        Token::Becomes => Some(Mark::Becomes),
        Token::LongArrow => Some(Mark::LongArrow),
        Token::Point => Some(Mark::Point),
        Token::Comma => Some(Mark::Comma),
        Token::OpenSquare => Some(Mark::OpenSquare),
        Token::CloseSquare => Some(Mark::CloseSquare),
        Token::Name(_, _)
        | Token::Type
        | Token::Arrow
        | Token::FatArrow
        | Token::OpenRound
        | Token::CloseRound
        | Token::LeftOut(_, _) => None,
    }
}

// Whether both are one mark.
fn is_same(mark: Mark, other: Mark) -> bool
    ensures { IsTrue result ↔ (mark ≡ other) }
{
    mark == other
}

/// The tokens behind the mark, if it stands at the front.
pub fn after<'t, 'a>(tokens: &'t [Token<'a>], mark: Mark) -> Option<&'t [Token<'a>]>
    ensures value { MatchOption result
        ((rest : List plain.Token) → map seen tokens.entry.now ≡ mark_seen mark ∷ rest → ⊥)
        (λ r. map seen tokens.entry.now ≡ mark_seen mark ∷ map seen r.now) }
    ensures shrinks { IfSome result (λ r. length r.now < length tokens.entry.now) }
{
    match tokens {
        [] => None,
        [first, rest @ ..] => match mark_of(*first) {
            Some(found) => {
                if is_same(found, mark) {
                    Some(rest)
                } else {
                    None
                }
            }
            None => None,
        },
    }
}

/// Whether the tokens are a point alone, which ends an entry.
pub fn is_last(tokens: &[Token]) -> bool
    ensures { IsTrue result ↔ (map seen tokens.now ≡ plain.Token.point ∷ []) }
{
    match after(tokens, Mark::Point) {
        Some(rest) => rest.is_empty(),
        None => false,
    }
}

// The binder of this name, if a colon stands behind it.
fn binder_of<'t, 'a>(name: &'a str, tokens: &'t [Token<'a>]) -> Option<Binder<'t, 'a>>
    ensures name { IfSome result (λ b. b.name ≡ name.entry) }
    ensures value { MatchOption result
        ((rest : List plain.Token) → map seen tokens.entry.now ≡ plain.Token.colon ∷ rest → ⊥)
        (λ b. map seen tokens.entry.now ≡ plain.Token.colon ∷ map seen b.rest.now) }
    ensures shrinks { IfSome result (λ b. length b.rest.now < length tokens.entry.now) }
{
    match after(tokens, Mark::Colon) {
        Some(rest) => Some(Binder { name, rest }),
        None => None,
    }
}

/// The name with a colon behind it, if these stand at the front.
pub fn binder_at<'t, 'a>(tokens: &'t [Token<'a>]) -> Option<Binder<'t, 'a>>
    ensures value { MatchOption result
        ((x : List ℕ) (left : ℕ) (rest : List plain.Token) → map seen tokens.entry.now ≡ plain.Token.id x left ∷ plain.Token.colon ∷ rest → ⊥)
        (λ b. (left : ℕ) × (map seen tokens.entry.now ≡ plain.Token.id b.name.now left ∷ plain.Token.colon ∷ map seen b.rest.now)) }
    ensures shrinks { IfSome result (λ b. length b.rest.now < length tokens.entry.now) }
{
    match tokens {
        [] => None,
        [first, rest @ ..] => match *first {
            Token::Name(name, _) => binder_of(name, rest),
            Token::Type
            | Token::Def
            | Token::Colon
            | Token::Becomes
            | Token::Arrow
            | Token::FatArrow
            | Token::LongArrow
            | Token::Point
            | Token::Comma
            | Token::OpenRound
            | Token::CloseRound
            | Token::OpenSquare
            | Token::CloseSquare
            | Token::LeftOut(_, _) => None,
        },
    }
}

// The name that the token is, if it is one.
fn name_of<'a>(token: Token<'a>) -> Option<&'a str>
    ensures { (rest : List plain.Token) → option_map (λ x. x.now) result ≡ first_name (seen token.entry ∷ rest) }
{
    match token {
        Token::Name(name, _) => Some(name),
        Token::Type
        | Token::Def
        | Token::Colon
        | Token::Becomes
        | Token::Arrow
        | Token::FatArrow
        | Token::LongArrow
        | Token::Point
        | Token::Comma
        | Token::OpenRound
        | Token::CloseRound
        | Token::OpenSquare
        | Token::CloseSquare
        | Token::LeftOut(_, _) => None,
    }
}

// The name that the tokens begin with.
fn first_name<'a>(tokens: &[Token<'a>]) -> Option<&'a str>
    ensures { option_map (λ x. x.now) result ≡ first_name (map seen tokens.now) }
{
    match tokens {
        [] => None,
        [first, ..] => name_of(*first),
    }
}

/// The name that is declared by an entry of these tokens.
pub fn declared_name<'a>(tokens: &[Token<'a>]) -> Option<&'a str>
    ensures { option_map (λ x. x.now) result ≡ name_at (map seen tokens.now) }
{
    match after(tokens, Mark::Def) {
        Some(rest) => first_name(rest),
        None => first_name(tokens),
    }
}
