ghost use Rattle.std.specs.Prelude.{◌≡◌, ◌≤◌, ◌∷◌, List, ℕ, MatchOption, MatchResult, IfOk, IfErr, IfSome, Some, map};
ghost use Rattle.std.specs.Option.{option_map};
ghost use Rattle.lp_terms.specs.Names.{all_bytes, is_digit, is_variable};
ghost use Rattle.lp_terms.specs.View.{entry_of, term_of, terms_of};
ghost use Rattle.lp_terms.specs.Signature as signature;
ghost use Rattle.dk_text.specs.Tokens as tokens;
ghost use Rattle.dk_text.specs.Names.{Resolved, known, and_then};
ghost use Rattle.dk_text.specs.Refusals.{Answers, first_foreign, judged_names};
ghost use Rattle.dk_text.specs.Refusals as plain;
ghost use Rattle.dk_reader.specs.Seen.{seen};
ghost use Rattle.dk_reader.specs.Binders.{most_binders};
ghost use Rattle.dk_reader.specs.Pieces.{piece_seen, value_seen};
ghost use Rattle.dk_reader.specs.Parts.{context_seen, judged_name, judged_declaration, judged_definition, judged_rule, judged_sides, judged_parts, defined_as, rule_between, parts_seen};
ghost use Rattle.dk_reader.specs.Judged.{refusal_seen, Tells, context_size};

use crate::entry::{Context, Parts, read_entry};
use crate::names::Names;
use crate::piece::{Piece, Value};
use crate::rule::is_left_side;
use crate::token::{LeftOut, Token};
use lp_terms::{Entry, Lp, Lps, Text};
use std::alloc::{AllocError, Global};

/// Why an entry is refused. Places are the number of bytes from there to the end of the text.
#[derive(Clone, Copy, Debug, PartialEq, Eq)]
pub enum Refusal {
    Unsupported(LeftOut, usize),
    Syntax,
    TooDeep,
    Duplicate,
    VariableName,
    UnknownName(usize),
    BadRule,
    Memory,
}

impl From<AllocError> for Refusal {
    ghost use Rattle.std.specs.Prelude.{◌≡◌};
    ghost use Rattle.dk_reader.specs.declared.judge.Refusal.TheVariants.{Memory};

    ghost from_gives = { λ _ e. e ≡ Memory };

    fn from(_e: AllocError) -> Refusal {
        Refusal::Memory
    }
}

// The refusal of a token that is left out.
fn left_out(token: Token) -> Option<Refusal>
    ensures { (rest : List tokens.Token) → MatchOption result
        (first_foreign (seen token.entry ∷ rest) ≡ first_foreign rest)
        (λ r. option_map Some (first_foreign (seen token.entry ∷ rest)) ≡ Some (refusal_seen r)) }
{
    match token {
        Token::LeftOut(form, left) => Some(Refusal::Unsupported(form, left)),
        Token::Name(_, _)
        | Token::Type
        | Token::Def
        | Token::Colon
        | Token::Becomes
        | Token::Arrow
        | Token::FatArrow
        | Token::LongArrow
        | Token::Point
        | Token::Comma
        | Token::OpenRound
        | Token::CloseRound
        | Token::OpenSquare
        | Token::CloseSquare => None,
    }
}

// The refusal of the first token that is left out.
fn first_left_out(tokens: &[Token]) -> Option<Refusal>
    ensures { option_map refusal_seen result ≡ option_map Some (first_foreign (map seen tokens.now)) }
{
    for token in tokens {
        let refusal = left_out(*token);
        if refusal.is_some() {
            return refusal;
        }
    }
    None
}

// Whether all bytes are digits.
fn all_digits(bytes: &[u8]) -> bool
    ensures { result ≡ all_bytes is_digit bytes.now }
{
    for b in bytes {
        if !b.is_ascii_digit() {
            return false;
        }
    }
    true
}

// Whether the name is x and one or more digits.
fn is_variable(name: &str) -> bool
    ensures { result ≡ is_variable name.now }
{
    match name.as_bytes() {
        [] | [_] => false,
        [first, digits @ ..] => *first == b'x' && all_digits(digits),
    }
}

// Makes a declaration of a type.
fn declared(alloc: Global, name: &str, definable: bool, ty: Value) -> Result<Entry, Refusal>
    ensures { Tells result (judged_names (and_then (value_seen ty) (λ c. known (signature.Entry.declare name.now definable c)))) }
{
    match ty {
        Value::Unknown(left) => Err(Refusal::UnknownName(left)),
        Value::Known(ty) => {
            let name = Text::of(alloc, name)?;
            Ok(Entry::Declare {
                name,
                definable,
                ty,
            })
        }
    }
}

// Makes a definition with a type that is known.
fn defined_with(alloc: Global, name: &str, ty: Lp, body: Value) -> Result<Entry, Refusal>
    ensures { Tells result (judged_names (defined_as name.now (known (term_of ty)) (value_seen body))) }
{
    match body {
        Value::Unknown(left) => Err(Refusal::UnknownName(left)),
        Value::Known(body) => {
            let name = Text::of(alloc, name)?;
            Ok(Entry::Define { name, ty, body })
        }
    }
}

// Makes a definition.
fn defined(alloc: Global, name: &str, ty: Value, body: Value) -> Result<Entry, Refusal>
    ensures { Tells result (judged_names (defined_as name.now (value_seen ty) (value_seen body))) }
{
    match ty {
        Value::Unknown(left) => Err(Refusal::UnknownName(left)),
        Value::Known(ty) => defined_with(alloc, name, ty, body),
    }
}

// Refuses a name that is declared before or that is a variable's.
fn check_name(names: &Names, name: &str) -> Result<(), Refusal>
    ensures new { (r : Resolved signature.Entry) → MatchResult result (λ _. judged_name names.now name.now r ≡ judged_names r)
        (λ e. IfSome (refusal_seen e) (λ s. judged_name names.now name.now r ≡ plain.Answer.refused s)) }
{
    if names.contains(name) {
        return Err(Refusal::Duplicate);
    }
    if is_variable(name) {
        return Err(Refusal::VariableName);
    }
    Ok(())
}

// Judges a declaration whose type nests no deeper than is read.
fn judge_value(
    alloc: Global,
    names: &Names,
    name: &str,
    definable: bool,
    ty: Value,
) -> Result<Entry, Refusal>
    ensures { Tells result (judged_name names.now name.now (and_then (value_seen ty) (λ c. known (signature.Entry.declare name.now definable c)))) }
{
    match check_name(names, name) {
        Err(refusal) => Err(refusal),
        Ok(()) => declared(alloc, name, definable, ty),
    }
}

fn judge_declaration(
    alloc: Global,
    names: &Names,
    name: &str,
    definable: bool,
    ty: Piece,
) -> Result<Entry, Refusal>
    ensures { Tells result (judged_declaration names.now name.now definable (piece_seen ty)) }
{
    match ty {
        Piece::Deep => Err(Refusal::TooDeep),
        Piece::Shallow(_, ty) => judge_value(alloc, names, name, definable, ty),
    }
}

// Judges a definition whose parts nest no deeper than is read.
fn judge_values(
    alloc: Global,
    names: &Names,
    name: &str,
    ty: Value,
    body: Value,
) -> Result<Entry, Refusal>
    ensures { Tells result (judged_name names.now name.now (defined_as name.now (value_seen ty) (value_seen body))) }
{
    match check_name(names, name) {
        Err(refusal) => Err(refusal),
        Ok(()) => defined(alloc, name, ty, body),
    }
}

fn judge_definition(
    alloc: Global,
    names: &Names,
    name: &str,
    ty: Piece,
    body: Piece,
) -> Result<Entry, Refusal>
    ensures { Tells result (judged_definition names.now name.now (piece_seen ty) (piece_seen body)) }
{
    match ty {
        Piece::Deep => Err(Refusal::TooDeep),
        Piece::Shallow(_, ty) => match body {
            Piece::Deep => Err(Refusal::TooDeep),
            Piece::Shallow(_, body) => judge_values(alloc, names, name, ty, body),
        },
    }
}

// Makes a rule of parts that are known.
fn ruled(alloc: Global, context: Lps, left: Lp, right: Lp) -> Result<Entry, Refusal>
    ensures { Tells result (judged_names (known (signature.Entry.rule (terms_of context) (term_of left) (term_of right)))) }
{
    if is_left_side(alloc, context.len(), &left)? {
        Ok(Entry::Rule {
            context,
            left,
            right,
        })
    } else {
        Err(Refusal::BadRule)
    }
}

// Makes a rule with a context and a left side that are known.
fn ruled_right(alloc: Global, context: Lps, left: Lp, right: Value) -> Result<Entry, Refusal>
    ensures { Tells result (judged_names (rule_between (known (terms_of context)) (known (term_of left)) (value_seen right))) }
{
    match right {
        Value::Unknown(left) => Err(Refusal::UnknownName(left)),
        Value::Known(right) => ruled(alloc, context, left, right),
    }
}

// Makes a rule with a context that is known.
fn ruled_left(alloc: Global, context: Lps, left: Value, right: Value) -> Result<Entry, Refusal>
    ensures { Tells result (judged_names (rule_between (known (terms_of context)) (value_seen left) (value_seen right))) }
{
    match left {
        Value::Unknown(left) => Err(Refusal::UnknownName(left)),
        Value::Known(left) => ruled_right(alloc, context, left, right),
    }
}

// Judges a rule whose sides nest no deeper than is read.
fn judge_sides(alloc: Global, context: Context, left: Value, right: Value) -> Result<Entry, Refusal>
    ensures { Tells result (judged_sides (context_seen context) (value_seen left) (value_seen right)) }
{
    match context {
        Context::Deep => Err(Refusal::TooDeep),
        Context::Unknown(left) => Err(Refusal::UnknownName(left)),
        Context::Known(types) => ruled_left(alloc, types, left, right),
    }
}

fn judge_rule(alloc: Global, context: Context, left: Piece, right: Piece) -> Result<Entry, Refusal>
    ensures { Tells result (judged_rule (context_seen context) (piece_seen left) (piece_seen right)) }
{
    match left {
        Piece::Deep => Err(Refusal::TooDeep),
        Piece::Shallow(_, left) => match right {
            Piece::Deep => Err(Refusal::TooDeep),
            Piece::Shallow(_, right) => judge_sides(alloc, context, left, right),
        },
    }
}

// Judges an entry by its parts.
fn judge_parts(alloc: Global, names: &Names, parts: Parts) -> Result<Entry, Refusal>
    ensures { Tells result (judged_parts names.now (parts_seen parts.entry)) }
{
    match parts {
        Parts::Declaration(name, definable, ty) => {
            judge_declaration(alloc, names, name, definable, ty)
        }
        Parts::Definition(name, ty, body) => judge_definition(alloc, names, name, ty, body),
        Parts::Rule(context, left, right) => judge_rule(alloc, context, left, right),
    }
}

/// What the tokens of an entry are answered.
pub fn judge<'a>(alloc: Global, names: &Names<'a>, tokens: &[Token<'a>]) -> Result<Entry, Refusal>
    ensures accepted { IfOk result (λ e. Answers names.now (map seen tokens.now) (plain.Answer.accepted (entry_of e))) }
    ensures few { IfOk result (λ e. context_size (entry_of e) ≤ most_binders) }
    ensures refused { IfErr result (λ r. IfSome (refusal_seen r) (λ s. Answers names.now (map seen tokens.now) (plain.Answer.refused s))) }
{
    if let Some(refusal) = first_left_out(tokens) {
        return Err(refusal);
    }
    match read_entry(alloc, names, tokens) {
        Err(_) => Err(Refusal::Memory),
        Ok(None) => Err(Refusal::Syntax),
        Ok(Some(parts)) => judge_parts(alloc, names, parts),
    }
}
