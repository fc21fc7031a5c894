ghost use Rattle.std.specs.Prelude.{◌≡◌, [], ◌∷◌, ◌↔◌, MatchOption, OnOk, true, List};
ghost use Rattle.dk_reader.specs.declared.stack.Frame.{Frame};

use crate::piece::Piece;
use std::alloc::{AllocError, Global};
use std::marker::Model;

/// What a place stands in.
#[derive(Drop)]
pub enum Frame<'a> {
    /// An open bracket, and what is applied to it.
    Opened(Option<Piece>),
    /// A binder whose domain is read.
    Named(&'a str),
    /// A product whose domain has been read.
    ToCodomain(Piece),
    /// An abstraction whose domain has been read.
    ToBody(Piece),
}

/// What a place stands in. Contracts see a list, the innermost first.
#[derive(Drop)]
pub struct Stack<'a> {
    frames: Vec<Frame<'a>>,
}

impl<'a> Model for Stack<'a> {
    ghost use Rattle.std.specs.Prelude.{List, reverse};
    ghost use Rattle.std.specs.Coded.{codes};
    ghost use Rattle.lp_terms.specs.contracts.term.Lp as term;
    ghost use Rattle.dk_reader.specs.declared.stack.Frame.{Frame};

    ghost Value = { List Frame };

    ghost coded = { Prim.hlevel (codes, term.the_row.coded) };

    ghost view = { λ s. reverse s.frames.items };
}

impl<'a> Stack<'a> {
    /// The outermost place.
    pub fn new(alloc: Global) -> Self
        ensures { result ≡ [] }
    {
        Stack {
            frames: Vec::new(alloc),
        }
    }

    /// Whether the place is the outermost one.
    pub fn is_empty(&self) -> bool
        ensures { result ≡ true ↔ self.now ≡ [] }
    {
        self.frames.is_empty()
    }

    /// Goes into a frame.
    pub fn push(&mut self, frame: Frame<'a>) -> Result<(), AllocError>
        ensures { OnOk result (self.new ≡ frame.entry ∷ self.old) }
    {
        self.frames.push(frame)?;
        Ok(())
    }

    /// The innermost frame.
    pub fn top(&self) -> Option<&Frame<'a>>
        ensures { MatchOption result (self.now ≡ []) (λ f. (rest : List Frame) × (self.now ≡ f.now ∷ rest)) }
    {
        self.frames.last()
    }

    /// Leaves the innermost frame.
    pub fn pop(&mut self) -> Option<Frame<'a>>
        ensures { MatchOption result ((self.old ≡ []) × (self.new ≡ [])) (λ f. self.old ≡ f ∷ self.new) }
    {
        self.frames.pop()
    }
}
