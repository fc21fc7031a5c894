ghost use Rattle.std.specs.Prelude.{◌≡◌, [], ◌∷◌, ℕ, None, false, IfOk, MatchOption, IfSome, Some, drop, map, length, ◌<◌, ◌≤◌};
ghost use Rattle.std.specs.Option.{option_map};
ghost use Rattle.dk_text.specs.Names.{Scope};
ghost use Rattle.dk_reader.specs.Seen.{seen};
ghost use Rattle.dk_reader.specs.Pieces.{piece_seen, piece_of_two, make_of};
ghost use Rattle.dk_reader.specs.Pieces as pieces;
ghost use Rattle.dk_reader.specs.Spelled.{ends_term, SpellsTerm, SpellsNoTerm};
ghost use Rattle.dk_reader.specs.Machine as plain;
ghost use Rattle.dk_reader.specs.Machine.{frame_seen, state_seen, outcome_seen, after_arrow, after_fat_arrow, bound, closing, finish, finish_seen};

use crate::ahead::{binder_at, ends_term};
use crate::names::Names;
use crate::piece::{Node, Piece, applied_to, bracketed, node_piece, universe, word};
use crate::scope::Scope;
use crate::stack::{Frame, Stack};
use crate::token::Token;
use std::alloc::{AllocError, Global};

// What comes of a token that ends no term.
#[derive(Clone, Copy)]
enum Step {
    // The term goes on.
    On,
    // No term of the grammar has the token there.
    Refused,
}

// A reader of one term that keeps what stands round the place on a stack.
#[derive(Drop)]
struct Machine<'a> {
    frames: Stack<'a>,
    head: Option<Piece>,
}

impl<'a> Machine<'a> {
    // Nothing is read yet.
    fn new(alloc: Global) -> Self
        ensures { (scope : Scope) → state_seen result scope ≡ plain.fresh scope }
    {
        Machine {
            frames: Stack::new(alloc),
            head: None,
        }
    }

    // Applies what stands before an atom to it.
    fn put_behind(
        &mut self,
        alloc: Global,
        before: Option<Piece>,
        piece: Piece,
    ) -> Result<Step, AllocError>
        ensures { (scope : Scope) → IfOk result (λ s. outcome_seen s (state_seen self.new scope)
            ≡ plain.put (piece_seen piece) (record { frames = map frame_seen self.old.frames; head = option_map piece_seen before; scope = scope })) }
    {
        self.head = Some(applied_to(alloc, before, piece)?);
        Ok(Step::On)
    }

    // Reads an atom.
    fn put(&mut self, alloc: Global, piece: Piece) -> Result<Step, AllocError>
        ensures { (scope : Scope) → IfOk result (λ s. outcome_seen s (state_seen self.new scope) ≡ plain.put (piece_seen piece) (state_seen self.old scope)) }
    {
        let before = self.head.take();
        self.put_behind(alloc, before, piece)
    }

    // Reads an opening bracket.
    fn open(&mut self) -> Result<Step, AllocError>
        ensures { (scope : Scope) → IfOk result (λ s. outcome_seen s (state_seen self.new scope) ≡ plain.bracketed (state_seen self.old scope)) }
    {
        let before = self.head.take();
        self.frames.push(Frame::Opened(before))?;
        Ok(Step::On)
    }

    // The name of the binder whose domain is read, if one is.
    fn take_name(&mut self) -> Option<&'a str>
        ensures head { self.new.head ≡ self.old.head }
        ensures arrow { (scope : Scope) (a : pieces.Piece) → after_arrow (map frame_seen self.old.frames) scope a
            ≡ plain.Outcome.on (record { frames = plain.Frame.to_codomain a ∷ map frame_seen self.new.frames; head = None; scope = option_map (λ x. x.now) result ∷ scope }) }
        ensures fat_arrow { (scope : Scope) (a : pieces.Piece) → MatchOption result (after_fat_arrow (map frame_seen self.old.frames) scope a ≡ plain.Outcome.stop)
            (λ x. after_fat_arrow (map frame_seen self.old.frames) scope a
            ≡ plain.Outcome.on (record { frames = plain.Frame.to_body a ∷ map frame_seen self.new.frames; head = None; scope = Some x.now ∷ scope })) }
    {
        match self.frames.top() {
            Some(Frame::Named(name)) => {
                let name = *name;
                let _ = self.frames.pop();
                Some(name)
            }
            Some(Frame::Opened(_) | Frame::ToCodomain(_) | Frame::ToBody(_)) | None => None,
        }
    }

    // Reads a binder's name and its colon.
    fn bind(&mut self, name: &'a str) -> Result<Step, AllocError>
        ensures { (scope : Scope) → IfOk result (λ s. outcome_seen s (state_seen self.new scope) ≡ bound name.entry.now (state_seen self.old scope) (option_map piece_seen self.old.head)) }
    {
        if self.head.is_some() {
            return Ok(Step::Refused);
        }
        if let Some(Frame::Named(_)) = self.frames.top() {
            return Ok(Step::Refused);
        }
        self.frames.push(Frame::Named(name))?;
        Ok(Step::On)
    }

    // Reads an arrow behind a domain.
    fn arrow(&mut self, scope: &mut Scope<'a>, domain: Piece) -> Result<Step, AllocError>
        requires { self.old.head ≡ None }
        ensures { IfOk result (λ s. outcome_seen s (state_seen self.new scope.new) ≡ after_arrow (map frame_seen self.old.frames) scope.old (piece_seen domain)) }
    {
        let name = self.take_name();
        self.frames.push(Frame::ToCodomain(domain))?;
        scope.enter(name)?;
        Ok(Step::On)
    }

    // Reads a fat arrow behind a domain.
    fn fat_arrow(&mut self, scope: &mut Scope<'a>, domain: Piece) -> Result<Step, AllocError>
        requires { self.old.head ≡ None }
        ensures { IfOk result (λ s. outcome_seen s (state_seen self.new scope.new) ≡ after_fat_arrow (map frame_seen self.old.frames) scope.old (piece_seen domain)) }
    {
        let name = self.take_name();
        if name.is_none() {
            return Ok(Step::Refused);
        }
        self.frames.push(Frame::ToBody(domain))?;
        scope.enter(name)?;
        Ok(Step::On)
    }

    // The innermost product or abstraction that the place stands in, with no bracket between.
    fn take_binder(&mut self) -> Option<(Node, Piece)>
        ensures head { self.new.head ≡ self.old.head }
        ensures closing { (scope : Scope) (p : pieces.Piece) → MatchOption result
            (closing (map frame_seen self.old.frames) scope p ≡ record { frames = map frame_seen self.new.frames; piece = p; scope = scope })
            (λ r. closing (map frame_seen self.old.frames) scope p ≡ closing (map frame_seen self.new.frames) (drop 1 scope) (piece_of_two (make_of r.0) (piece_seen r.1) p)) }
        ensures shrinks { IfSome result (λ _. length self.new.frames < length self.old.frames) }
    {
        if let Some(Frame::Opened(_) | Frame::Named(_)) | None = self.frames.top() {
            return None;
        }
        match self.frames.pop() {
            Some(Frame::ToCodomain(domain)) => Some((Node::Product, domain)),
            Some(Frame::ToBody(domain)) => Some((Node::Abstraction, domain)),
            Some(Frame::Opened(_) | Frame::Named(_)) | None => None,
        }
    }

    // The whole that a last part ends, up to the innermost bracket.
    fn close(
        &mut self,
        alloc: Global,
        scope: &mut Scope<'a>,
        part: Piece,
    ) -> Result<Piece, AllocError>
        ensures head { self.new.head ≡ self.old.head }
        ensures whole { IfOk result (λ w. closing (map frame_seen self.old.frames) scope.old (piece_seen part)
            ≡ record { frames = map frame_seen self.new.frames; piece = piece_seen w; scope = scope.new }) }
    {
        let mut whole = part;
        while let Some((kind, domain)) = self.take_binder() {
            scope.leave();
            whole = node_piece(alloc, kind, domain, whole)?;
        }
        Ok(whole)
    }

    // Reads a closing bracket behind a part.
    fn close_bracket(
        &mut self,
        alloc: Global,
        scope: &mut Scope<'a>,
        part: Piece,
    ) -> Result<Step, AllocError>
        requires { self.old.head ≡ None }
        ensures { IfOk result (λ s. outcome_seen s (state_seen self.new scope.new)
            ≡ plain.after_bracket (closing (map frame_seen self.old.frames) scope.old (piece_seen part))) }
    {
        let whole = self.close(alloc, scope, part)?;
        match self.frames.pop() {
            Some(Frame::Opened(before)) => self.put_behind(alloc, before, bracketed(whole)),
            Some(Frame::Named(_) | Frame::ToCodomain(_) | Frame::ToBody(_)) | None => {
                Ok(Step::Refused)
            }
        }
    }

    // Reads a token that needs a head before it.
    fn behind(
        &mut self,
        alloc: Global,
        scope: &mut Scope<'a>,
        token: Token<'a>,
    ) -> Result<Step, AllocError>
        requires { ends_term (seen token ∷ []) ≡ false }
        ensures { IfOk result (λ s. outcome_seen s (state_seen self.new scope.new)
            ≡ plain.behind_head (seen token.entry) (state_seen self.old scope.old) (option_map piece_seen self.old.head)) }
    {
        let Some(part) = self.head.take() else {
            return Ok(Step::Refused);
        };
        match token {
            Token::CloseRound => self.close_bracket(alloc, scope, part),
            Token::Arrow => self.arrow(scope, part),
            Token::FatArrow => self.fat_arrow(scope, part),
            Token::Name(_, _)
            | Token::Type
            | Token::Def
            | Token::Colon
            | Token::Becomes
            | Token::LongArrow
            | Token::Point
            | Token::Comma
            | Token::OpenRound
            | Token::CloseSquare
            | Token::OpenSquare
            | Token::LeftOut(_, _) => Ok(Step::Refused),
        }
    }

    // Reads a token that begins no binder and ends no term.
    fn step(
        &mut self,
        alloc: Global,
        names: &Names<'a>,
        scope: &mut Scope<'a>,
        token: Token<'a>,
    ) -> Result<Step, AllocError>
        requires { ends_term (seen token ∷ []) ≡ false }
        ensures { IfOk result (λ s. outcome_seen s (state_seen self.new scope.new) ≡ plain.step names.now (seen token.entry) (state_seen self.old scope.old)) }
    {
        match token {
            Token::Name(name, left) => {
                let piece = word(alloc, names, scope, name, left)?;
                self.put(alloc, piece)
            }
            Token::Type => self.put(alloc, universe()),
            Token::OpenRound => self.open(),
            Token::Def
            | Token::Colon
            | Token::Becomes
            | Token::Arrow
            | Token::FatArrow
            | Token::LongArrow
            | Token::Point
            | Token::Comma
            | Token::CloseRound
            | Token::OpenSquare
            | Token::CloseSquare
            | Token::LeftOut(_, _) => self.behind(alloc, scope, token),
        }
    }

    // Reads the tokens at the front, which are a binder's name and its colon or one token, and tells how many
    // they are; none where no term of the grammar has them there.
    fn advance(
        &mut self,
        alloc: Global,
        names: &Names<'a>,
        scope: &mut Scope<'a>,
        tokens: &[Token<'a>],
    ) -> Result<Option<usize>, AllocError>
        requires { ends_term (map seen tokens.now) ≡ false }
        ensures read { IfOk result (λ r. MatchOption r
            (plain.read names.now (map seen tokens.now) (state_seen self.old scope.old) ≡ plain.Read.refused)
            (λ n. plain.read names.now (map seen tokens.now) (state_seen self.old scope.old) ≡ plain.read names.now (drop n (map seen tokens.now)) (state_seen self.new scope.new))) }
        ensures some { IfOk result (λ r. IfSome r (λ n. (0 < n) × (n ≤ length tokens.now))) }
    {
        if let Some(name) = binder_at(tokens) {
            return match self.bind(name)? {
                Step::On => Ok(Some(2)),
                Step::Refused => Ok(None),
            };
        }
        match tokens {
            [] => Ok(None),
            [first, ..] => match self.step(alloc, names, scope, *first)? {
                Step::On => Ok(Some(1)),
                Step::Refused => Ok(None),
            },
        }
    }

    // The term that has been read, at a token that ends one; none where something is left open.
    fn finish(&mut self, alloc: Global, scope: &mut Scope<'a>) -> Result<Option<Piece>, AllocError>
        ensures { IfOk result (λ r. finish_seen r scope.new ≡ finish (state_seen self.old scope.old) (option_map piece_seen self.old.head)) }
    {
        let Some(part) = self.head.take() else {
            return Ok(None);
        };
        let whole = self.close(alloc, scope, part)?;
        Ok(self.frames.is_empty().then_some(whole))
    }
}

/// A term that was read, and the tokens behind it.
#[derive(Drop)]
pub struct Term<'t, 'a> {
    pub piece: Piece,
    pub rest: &'t [Token<'a>],
}

/// Reads a term from the front of the tokens; none where no front of them spells a term that the next
/// token ends. The scope is that of the place, and is left as it was where a term is read.
///
/// # Errors
///
/// Want of memory, which stands for more than 4,294,959,294 binders round one place too.
pub fn read_term<'t, 'a>(
    alloc: Global,
    names: &Names<'a>,
    scope: &mut Scope<'a>,
    tokens: &'t [Token<'a>],
) -> Result<Option<Term<'t, 'a>>, AllocError>
    ensures read { IfOk result (λ r. MatchOption r
        (SpellsNoTerm (map seen tokens.entry.now))
        (λ t. SpellsTerm names.now scope.old (map seen tokens.entry.now) (map seen t.rest.now) (piece_seen t.piece))) }
    ensures scope { IfOk result (λ r. IfSome r (λ _. scope.new ≡ scope.old)) }
    ensures shrinks { IfOk result (λ r. IfSome r (λ t. length t.rest.now < length tokens.entry.now)) }
{
    let mut machine = Machine::new(alloc);
    let mut rest = tokens;
    while !ends_term(rest) {
        match machine.advance(alloc, names, scope, rest)? {
            Some(count) => rest = &rest[count..],
            None => return Ok(None),
        }
    }
    match machine.finish(alloc, scope)? {
        Some(piece) => Ok(Some(Term { piece, rest })),
        None => Ok(None),
    }
}
