ghost use Rattle.std.specs.Prelude.{◌≡◌, IfOk};
ghost use Rattle.std.specs.Option.{option_map};
ghost use Rattle.lp_terms.specs.View.{term_of};
ghost use Rattle.lp_terms.specs.Term as plain;
ghost use Rattle.dk_text.specs.Names.{known};
ghost use Rattle.dk_reader.specs.Pieces.{value_of_two, piece_of_two, bracket_piece, applied_piece, word_piece, value_seen, piece_seen, make_of};
ghost use Rattle.dk_reader.specs.Pieces as pieces;

use crate::names::Names;
use crate::scope::Scope;
use lp_terms::Lp;
use std::alloc::{AllocError, Global};

/// The deepest nesting of a term that is read.
pub const MOST_NESTING: u32 = 8_000;

/// A term with its names resolved, or the first name that stands for nothing, as the number of bytes
/// from there to the end of the text.
#[derive(Drop)]
pub enum Value {
    Known(Lp),
    Unknown(usize),
}

/// What is known of a term that is read: nothing where it nests too deep, else its nesting and its
/// value.
#[derive(Drop)]
pub enum Piece {
    Deep,
    Shallow(u32, Value),
}

/// What is made of two terms.
#[derive(Clone, Copy)]
pub enum Node {
    Application,
    Abstraction,
    Product,
}

// The term that is made of two.
fn made(alloc: Global, kind: Node, first: Lp, second: Lp) -> Result<Lp, AllocError>
    ensures { IfOk result (λ t. term_of t ≡ make_of kind (term_of first) (term_of second)) }
{
    match kind {
        Node::Application => Lp::application(alloc, first, second),
        Node::Abstraction => Lp::abstraction(alloc, first, second),
        Node::Product => Lp::product(alloc, first, second),
    }
}

// The value that is made of two.
fn node_value(alloc: Global, kind: Node, first: Value, second: Value) -> Result<Value, AllocError>
    ensures { IfOk result (λ v. value_seen v ≡ value_of_two (make_of kind) (value_seen first) (value_seen second)) }
{
    match first {
        Value::Unknown(left) => Ok(Value::Unknown(left)),
        Value::Known(f) => match second {
            Value::Unknown(left) => Ok(Value::Unknown(left)),
            Value::Known(a) => Ok(Value::Known(made(alloc, kind, f, a)?)),
        },
    }
}

/// The piece that is made of two.
pub fn node_piece(
    alloc: Global,
    kind: Node,
    first: Piece,
    second: Piece,
) -> Result<Piece, AllocError>
    ensures { IfOk result (λ p. piece_seen p ≡ piece_of_two (make_of kind) (piece_seen first) (piece_seen second)) }
{
    match first {
        Piece::Deep => Ok(Piece::Deep),
        Piece::Shallow(d, f) => match second {
            Piece::Deep => Ok(Piece::Deep),
            Piece::Shallow(e, a) => {
                let deepest = d.max(e);
                if deepest >= MOST_NESTING {
                    return Ok(Piece::Deep);
                }
                Ok(Piece::Shallow(deepest + 1, node_value(alloc, kind, f, a)?))
            }
        },
    }
}

/// The piece in brackets.
pub fn bracketed(piece: Piece) -> Piece
    ensures { piece_seen result ≡ bracket_piece (piece_seen piece) }
{
    match piece {
        Piece::Deep => Piece::Deep,
        Piece::Shallow(depth, value) => {
            if depth >= MOST_NESTING {
                return Piece::Deep;
            }
            Piece::Shallow(depth + 1, value)
        }
    }
}

/// The piece applied to what stands before it, if anything does.
pub fn applied_to(alloc: Global, before: Option<Piece>, piece: Piece) -> Result<Piece, AllocError>
    ensures { IfOk result (λ p. piece_seen p ≡ applied_piece (option_map piece_seen before) (piece_seen piece)) }
{
    match before {
        None => Ok(piece),
        Some(function) => node_piece(alloc, Node::Application, function, piece),
    }
}

/// The sort Type.
pub fn universe() -> Piece
    ensures { piece_seen result ≡ pieces.Piece.shallow 0 (known plain.Lp.sort) }
{
    Piece::Shallow(0, Value::Known(Lp::Sort))
}

/// What an identifier stands for: the innermost binder of the name, else the constant declared
/// before.
pub fn word(
    alloc: Global,
    names: &Names,
    scope: &Scope,
    name: &str,
    left: usize,
) -> Result<Piece, AllocError>
    ensures { IfOk result (λ p. piece_seen p ≡ word_piece names.now scope.now name.now left) }
{
    let value = match scope.index_of(name) {
        Some(index) => Value::Known(Lp::Index(index)),
        None => {
            if names.contains(name) {
                Value::Known(Lp::constant(alloc, name)?)
            } else {
                Value::Unknown(left)
            }
        }
    };
    Ok(Piece::Shallow(0, value))
}
