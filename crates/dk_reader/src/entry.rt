ghost use Rattle.std.specs.Prelude.{◌≡◌, [], ◌∷◌, ℕ, Bool, List, ◌≤◌, ◌<◌, Some, MatchOption, IfOk, IfSome, length, map};
ghost use Rattle.dk_text.specs.Tokens as plain;
ghost use Rattle.dk_reader.specs.Seen.{seen};
ghost use Rattle.dk_reader.specs.Binders.{most_binders};
ghost use Rattle.dk_reader.specs.declared.entry.Context.TheVariants as variants;
ghost use Rattle.dk_reader.specs.Pieces.{piece_seen};
ghost use Rattle.dk_reader.specs.Spelled.{SpellsTerm};
ghost use Rattle.dk_reader.specs.Parts.{context_seen, extended, parts_seen};
ghost use Rattle.dk_reader.specs.Before.{Before, GoesOn, end_of};
ghost use Rattle.dk_reader.specs.Entries.{SpellsEntry, SpellsNoEntry, SpellsContext, SpellsNoContext, SpellsBinding, SpellsNoBinding, SpellsNoLast, SpellsBody, SpellsRight, SpellsSides, SpellsNoSides, typed};

use crate::machine::{Term, read_term};
use crate::mark::{Mark, after, binder_at, is_last};
use crate::names::Names;
use crate::piece::{Piece, Value};
use crate::scope::Scope;
use crate::token::Token;
use lp_terms::Lps;
use std::alloc::{AllocError, Global};

/// What is known of a context that is read: nothing where a type of it nests too deep, else its types,
/// or the first name of them that stands for nothing.
#[derive(Drop)]
pub enum Context {
    Deep,
    Known(Lps),
    Unknown(usize),
}

/// An entry of the grammar, as its parts are known.
#[derive(Drop)]
pub enum Parts<'a> {
    Declaration(&'a str, bool, Piece),
    Definition(&'a str, Piece, Piece),
    Rule(Context, Piece, Piece),
}

/// What was read of a context, and the tokens behind it. It is closed where its bracket was read.
#[derive(Drop)]
struct ContextRead<'t, 'a> {
    context: Context,
    closed: bool,
    rest: &'t [Token<'a>],
}

// The context with one more type that is known.
fn with_type(context: Lps, piece: Piece) -> Result<Context, AllocError>
    ensures { IfOk result (λ c. context_seen c ≡ extended (context_seen (variants.Known context)) (piece_seen piece)) }
{
    match piece {
        Piece::Deep => Ok(Context::Deep),
        Piece::Shallow(_, Value::Unknown(left)) => Ok(Context::Unknown(left)),
        Piece::Shallow(_, Value::Known(ty)) => {
            let mut types = context;
            types.push(ty)?;
            Ok(Context::Known(types))
        }
    }
}

// The context with one more type.
fn extended(context: Context, piece: Piece) -> Result<Context, AllocError>
    ensures { IfOk result (λ c. context_seen c ≡ extended (context_seen context) (piece_seen piece)) }
{
    match context {
        Context::Known(types) => with_type(types, piece),
        Context::Deep => Ok(Context::Deep),
        Context::Unknown(left) => match piece {
            Piece::Deep => Ok(Context::Deep),
            Piece::Shallow(_, _) => Ok(Context::Unknown(left)),
        },
    }
}

// Enters the binder of a type that was read.
fn entered<'t, 'a>(
    scope: &mut Scope<'a>,
    name: &'a str,
    term: Term<'t, 'a>,
) -> Result<Term<'t, 'a>, AllocError>
    ensures same { IfOk result (λ t. t ≡ term.entry) }
    ensures entered { IfOk result (λ _. scope.new ≡ Some name.entry.now ∷ scope.old) }
    ensures few { IfOk result (λ _. length scope.new ≤ most_binders) }
{
    scope.enter(Some(name))?;
    Ok(term)
}

// Reads a variable of a context with its type, and enters its binder; none where none stands there.
fn read_binding<'t, 'a>(
    alloc: Global,
    names: &Names<'a>,
    scope: &mut Scope<'a>,
    tokens: &'t [Token<'a>],
) -> Result<Option<Term<'t, 'a>>, AllocError>
    ensures read { IfOk result (λ r. MatchOption r
        (SpellsNoBinding (map seen tokens.entry.now))
        (λ t. SpellsBinding names.now scope.old scope.new (map seen tokens.entry.now) (map seen t.rest.now) (piece_seen t.piece))) }
    ensures shrinks { IfOk result (λ r. IfSome r (λ t. length t.rest.now < length tokens.entry.now)) }
{
    let Some(binder) = binder_at(tokens) else {
        return Ok(None);
    };
    let Some(term) = read_term(alloc, names, scope, binder.rest)? else {
        return Ok(None);
    };
    match entered(scope, binder.name, term) {
        Ok(term) => Ok(Some(term)),
        Err(e) => Err(e),
    }
}

// The context, with the comma or the closing bracket at the front.
fn behind_binding<'t, 'a>(context: Context, tokens: &'t [Token<'a>]) -> Option<ContextRead<'t, 'a>>
    ensures read { MatchOption result
        ((closed : Bool) (more : List plain.Token) → map seen tokens.entry.now ≡ end_of closed ∷ more → ⊥)
        (λ r. map seen tokens.entry.now ≡ end_of r.closed ∷ map seen r.rest.now) }
    ensures same { IfSome result (λ r. r.context ≡ context) }
    ensures shrinks { IfSome result (λ r. length r.rest.now < length tokens.entry.now) }
{
    if let Some(rest) = after(tokens, Mark::CloseSquare) {
        return Some(ContextRead {
            context,
            closed: true,
            rest,
        });
    }
    match after(tokens, Mark::Comma) {
        Some(rest) => Some(ContextRead {
            context,
            closed: false,
            rest,
        }),
        None => None,
    }
}

// Reads one more binding of a context with the comma or the closing bracket behind it; none where
// these don't stand there.
fn read_more<'t, 'a>(
    alloc: Global,
    names: &Names<'a>,
    scope: &mut Scope<'a>,
    read: ContextRead<'t, 'a>,
) -> Result<Option<ContextRead<'t, 'a>>, AllocError>
    ensures read { (tokens : List plain.Token) → Before names.now tokens (map seen read.entry.rest.now) (context_seen read.entry.context) scope.old →
        IfOk result (λ r. MatchOption r (SpellsNoContext tokens) (λ n. GoesOn n.closed names.now tokens (map seen n.rest.now) (context_seen n.context) scope.new)) }
    ensures shrinks { IfOk result (λ r. IfSome r (λ n. length n.rest.now < length read.entry.rest.now)) }
{
    let Some(term) = read_binding(alloc, names, scope, read.rest)? else {
        return Ok(None);
    };
    let context = extended(read.context, term.piece)?;
    Ok(behind_binding(context, term.rest))
}

// Reads the variables of a context with its closing bracket; none where no context stands there.
fn read_context<'t, 'a>(
    alloc: Global,
    names: &Names<'a>,
    scope: &mut Scope<'a>,
    tokens: &'t [Token<'a>],
) -> Result<Option<ContextRead<'t, 'a>>, AllocError>
    requires { scope.old ≡ [] }
    ensures { IfOk result (λ r. MatchOption r
        (SpellsNoContext (map seen tokens.entry.now))
        (λ c. SpellsContext names.now scope.new (map seen tokens.entry.now) (map seen c.rest.now) (context_seen c.context))) }
{
    let mut read = ContextRead {
        context: Context::Known(Lps::new(alloc)),
        closed: false,
        rest: tokens,
    };
    loop {
        let Some(next) = read_more(alloc, names, scope, read)? else {
            return Ok(None);
        };
        if next.closed {
            return Ok(Some(next));
        }
        read = next;
    }
}

// Reads the last term of an entry and the point behind it.
fn read_last<'a>(
    alloc: Global,
    names: &Names<'a>,
    scope: &mut Scope<'a>,
    tokens: &[Token<'a>],
) -> Result<Option<Piece>, AllocError>
    ensures { IfOk result (λ r. MatchOption r
        (SpellsNoLast (map seen tokens.now))
        (λ p. SpellsTerm names.now scope.old (map seen tokens.now) (plain.Token.point ∷ []) (piece_seen p))) }
{
    let Some(term) = read_term(alloc, names, scope, tokens)? else {
        return Ok(None);
    };
    if is_last(term.rest) {
        Ok(Some(term.piece))
    } else {
        Ok(None)
    }
}

// Reads the body of a definition behind its type.
fn read_body<'a>(
    alloc: Global,
    names: &Names<'a>,
    scope: &mut Scope<'a>,
    name: &'a str,
    ty: Piece,
    tokens: &[Token<'a>],
) -> Result<Option<Parts<'a>>, AllocError>
    ensures { IfOk result (λ r. MatchOption r
        (SpellsNoLast (map seen tokens.now))
        (λ p. SpellsBody names.now scope.old (map seen tokens.now) name.entry.now (piece_seen ty) (parts_seen p))) }
{
    match read_last(alloc, names, scope, tokens)? {
        Some(body) => Ok(Some(Parts::Definition(name, ty, body))),
        None => Ok(None),
    }
}

// Reads the type of a declaration or, where it is definable, of a definition, and what follows.
fn read_typed<'a>(
    alloc: Global,
    names: &Names<'a>,
    scope: &mut Scope<'a>,
    name: &'a str,
    definable: bool,
    tokens: &[Token<'a>],
) -> Result<Option<Parts<'a>>, AllocError>
    requires { scope.old ≡ [] }
    ensures { (left : ℕ) → IfOk result (λ r. MatchOption r
        (SpellsNoEntry (typed definable name.entry.now left (map seen tokens.now)))
        (λ p. SpellsEntry names.now (typed definable name.entry.now left (map seen tokens.now)) (parts_seen p))) }
{
    let Some(ty) = read_term(alloc, names, scope, tokens)? else {
        return Ok(None);
    };
    if is_last(ty.rest) {
        return Ok(Some(Parts::Declaration(name, definable, ty.piece)));
    }
    if !definable {
        return Ok(None);
    }
    let Some(body) = after(ty.rest, Mark::Becomes) else {
        return Ok(None);
    };
    read_body(alloc, names, scope, name, ty.piece, body)
}

// Reads the right side of a rule behind its left side.
fn read_right<'a>(
    alloc: Global,
    names: &Names<'a>,
    scope: &mut Scope<'a>,
    context: Context,
    left: Piece,
    tokens: &[Token<'a>],
) -> Result<Option<Parts<'a>>, AllocError>
    ensures { IfOk result (λ r. MatchOption r
        (SpellsNoLast (map seen tokens.now))
        (λ p. SpellsRight names.now scope.old (map seen tokens.now) (context_seen context) (piece_seen left) (parts_seen p))) }
{
    match read_last(alloc, names, scope, tokens)? {
        Some(right) => Ok(Some(Parts::Rule(context, left, right))),
        None => Ok(None),
    }
}

// Reads both sides of a rule behind its context.
fn read_sides<'a>(
    alloc: Global,
    names: &Names<'a>,
    scope: &mut Scope<'a>,
    context: Context,
    tokens: &[Token<'a>],
) -> Result<Option<Parts<'a>>, AllocError>
    ensures { IfOk result (λ r. MatchOption r
        (SpellsNoSides (map seen tokens.now))
        (λ p. SpellsSides names.now scope.old (map seen tokens.now) (context_seen context) (parts_seen p))) }
{
    let Some(left) = read_term(alloc, names, scope, tokens)? else {
        return Ok(None);
    };
    let Some(right) = after(left.rest, Mark::LongArrow) else {
        return Ok(None);
    };
    read_right(alloc, names, scope, context, left.piece, right)
}

// Reads a rule behind its opening bracket.
fn read_rule<'a>(
    alloc: Global,
    names: &Names<'a>,
    scope: &mut Scope<'a>,
    tokens: &[Token<'a>],
) -> Result<Option<Parts<'a>>, AllocError>
    requires { scope.old ≡ [] }
    ensures { IfOk result (λ r. MatchOption r
        (SpellsNoEntry (plain.Token.open_square ∷ map seen tokens.now))
        (λ p. SpellsEntry names.now (plain.Token.open_square ∷ map seen tokens.now) (parts_seen p))) }
{
    if let Some(sides) = after(tokens, Mark::CloseSquare) {
        return read_sides(alloc, names, scope, Context::Known(Lps::new(alloc)), sides);
    }
    let Some(read) = read_context(alloc, names, scope, tokens)? else {
        return Ok(None);
    };
    read_sides(alloc, names, scope, read.context, read.rest)
}

/// Reads the entry that the tokens spell; none where they spell none.
pub fn read_entry<'a>(
    alloc: Global,
    names: &Names<'a>,
    tokens: &[Token<'a>],
) -> Result<Option<Parts<'a>>, AllocError>
    ensures { IfOk result (λ r. MatchOption r
        (SpellsNoEntry (map seen tokens.now))
        (λ p. SpellsEntry names.now (map seen tokens.now) (parts_seen p))) }
{
    let mut scope = Scope::new(alloc);
    if let Some(binder) = binder_at(tokens) {
        return read_typed(alloc, names, &mut scope, binder.name, false, binder.rest);
    }
    if let Some(rule) = after(tokens, Mark::OpenSquare) {
        return read_rule(alloc, names, &mut scope, rule);
    }
    let Some(others) = after(tokens, Mark::Def) else {
        return Ok(None);
    };
    let Some(binder) = binder_at(others) else {
        return Ok(None);
    };
    read_typed(alloc, names, &mut scope, binder.name, true, binder.rest)
}
