ghost use Rattle.std.specs.Prelude.{◌≡◌, ◌≤◌, ◌<◌, [], ◌∷◌, length, map, IfOk};
ghost use Rattle.tptp_reader.specs.Grammar.{mapping, under};
ghost use Rattle.tptp_reader.specs.View.{raw_type_tree, raw_types_of, raw_variable_tree, raw_top_tree};
ghost use Rattle.tptp_reader.specs.Parsing.{seen, first_sign, Gives};
ghost use Rattle.tptp_reader.specs.SlowTops.{from_type, plain_top_in, result_in, product_from, after_first, first_in_bracket};
ghost use Rattle.tptp_reader.specs.SlowTops.{begins_top, type_variables_in, bound_top_in, bracketed_top_in, top_in};
ghost use Rattle.tptp_reader.specs.SlowTops.{declaration_in, bracketed_typing_in, typing_in, typing_tree};

use crate::cursor::{ParseStop, Parser};
use crate::text::Text;
use crate::tree::{RawTop, RawType, RawTypes, RawVars};
use sqlite_items::Items;
use std::alloc::{AllocError, Global};
use tptp_lex::Sign;

// A declared type with no type variables of its own.
fn mapping_top(alloc: Global, arguments: RawTypes, result_type: RawType) -> RawTop
    ensures { raw_top_tree result ≡ mapping (raw_types_of (map raw_type_tree arguments)) (raw_type_tree result_type) }
{
    RawTop {
        binders: Items::new(alloc),
        arguments,
        result: result_type,
    }
}

// A list of one type.
fn one_type(alloc: Global, ty: RawType) -> Result<RawTypes, AllocError>
    ensures { IfOk result (λ ts. ts ≡ ty ∷ []) }
{
    let mut types = Items::new(alloc);
    types.push(ty)?;
    Ok(types)
}

// A declared type under further type variables.
#[tactic(auto, using(crate::proofs::ReadLaws::map_appended))]
fn bound_under(binders: RawVars, top: RawTop) -> Result<RawTop, AllocError>
    ensures { IfOk result (λ t. raw_top_tree t ≡ under (map raw_variable_tree binders) (raw_top_tree top)) }
{
    let RawTop {
        binders: inner,
        arguments,
        result: result_type,
    } = top;
    let mut all = binders;
    all.append(inner)?;
    Ok(RawTop {
        binders: all,
        arguments,
        result: result_type,
    })
}

impl<'t, 'a> Parser<'t, 'a> {
    // What a first type begins.
    #[tactic(auto, using(crate::proofs::Behind::behind_steps))]
    fn top_from(&mut self, room: u32, first: RawType) -> Result<RawTop, ParseStop>
        ensures reads { Gives raw_top_tree result (map seen self.new.rest.now)
            (from_type room (raw_type_tree first) (map seen self.old.rest.now)) }
        ensures shrinks { length self.new.rest.now ≤ length self.old.rest.now }
    {
        if !self.take(Sign::Arrow) {
            return Ok(mapping_top(self.alloc, Items::new(self.alloc), first));
        }
        let result_type = self.written_type(room)?;
        let arguments = one_type(self.alloc, first)?;
        Ok(mapping_top(self.alloc, arguments, result_type))
    }

    // A declared type that begins with a type.
    #[tactic(auto, unfolding(crate::specs::SlowTops::plain_top_in))]
    fn plain_top(&mut self, room: u32) -> Result<RawTop, ParseStop>
        ensures reads { Gives raw_top_tree result (map seen self.new.rest.now)
            (plain_top_in room (map seen self.old.rest.now)) }
        ensures shrinks { length self.new.rest.now ≤ length self.old.rest.now }
    {
        let first = self.written_type(room)?;
        self.top_from(room, first)
    }

    // The result of a declared type with these arguments.
    fn result_of(&mut self, room: u32, arguments: RawTypes) -> Result<RawTop, ParseStop>
        ensures reads { Gives raw_top_tree result (map seen self.new.rest.now)
            (result_in room (map raw_type_tree arguments) (map seen self.old.rest.now)) }
        ensures shrinks { length self.new.rest.now ≤ length self.old.rest.now }
    {
        self.expect(Sign::Arrow)?;
        let result_type = self.written_type(room)?;
        Ok(mapping_top(self.alloc, arguments, result_type))
    }

    // A product, and the result behind its bracket.
    fn product(&mut self, inside: u32, outside: u32, first: RawType) -> Result<RawTop, ParseStop>
        ensures reads { Gives raw_top_tree result (map seen self.new.rest.now)
            (product_from inside outside (raw_type_tree first) (map seen self.old.rest.now)) }
        ensures shrinks { length self.new.rest.now ≤ length self.old.rest.now }
    {
        let arguments = self.types_from(Sign::Star, inside, first)?;
        self.expect(Sign::Close)?;
        self.result_of(outside, arguments)
    }

    // What follows the first type in a bracket.
    fn after_first(
        &mut self,
        inside: u32,
        outside: u32,
        first: RawType,
    ) -> Result<RawTop, ParseStop>
        ensures reads { Gives raw_top_tree result (map seen self.new.rest.now)
            (after_first inside outside (raw_type_tree first) (first_sign (map seen self.old.rest.now)) (map seen self.old.rest.now)) }
        ensures shrinks { length self.new.rest.now ≤ length self.old.rest.now }
    {
        match self.sign() {
            Some(Sign::Star) => self.product(inside, outside, first),
            Some(Sign::Arrow) => {
                let top = self.top_from(inside, first)?;
                self.expect(Sign::Close)?;
                Ok(top)
            }
            Some(
                Sign::Open
                | Sign::Close
                | Sign::OpenList
                | Sign::CloseList
                | Sign::Comma
                | Sign::Stop
                | Sign::Colon
                | Sign::And
                | Sign::Or
                | Sign::Not
                | Sign::Implies
                | Sign::If
                | Sign::Iff
                | Sign::Xor
                | Sign::NotAnd
                | Sign::NotOr
                | Sign::Equal
                | Sign::NotEqual
                | Sign::All
                | Sign::Exists
                | Sign::AllTypes
                | Sign::At
                | Sign::Caret
                | Sign::Plus
                | Sign::Minus,
            )
            | None => {
                self.expect(Sign::Close)?;
                self.top_from(outside, first)
            }
        }
    }

    // What an open bracket begins, where a type comes next.
    #[tactic(auto, unfolding(crate::specs::SlowTops::first_in_bracket))]
    fn first_in_bracket(&mut self, inside: u32, outside: u32) -> Result<RawTop, ParseStop>
        ensures reads { Gives raw_top_tree result (map seen self.new.rest.now)
            (first_in_bracket inside outside (map seen self.old.rest.now)) }
        ensures shrinks { length self.new.rest.now ≤ length self.old.rest.now }
    {
        let first = self.written_type(inside)?;
        self.after_first(inside, outside, first)
    }

    // The variables of a declared type, with their brackets and the colon.
    #[tactic(auto, unfolding(crate::specs::SlowTops::type_variables_in))]
    fn type_variables(&mut self, room: u32) -> Result<RawVars, ParseStop>
        ensures reads { Gives (map raw_variable_tree) result (map seen self.new.rest.now)
            (type_variables_in room (map seen self.old.rest.now)) }
        ensures shrinks { length self.new.rest.now ≤ length self.old.rest.now }
    {
        self.expect(Sign::OpenList)?;
        let variables = self.variables(true, room)?;
        self.expect(Sign::CloseList)?;
        self.expect(Sign::Colon)?;
        Ok(variables)
    }

    // A declared type. No more than room brackets and quantifiers nest in it.
    #[cycle(tops)]
    #[tactic(auto, using(crate::proofs::TopSteps::top_steps))]
    fn top(&mut self, room: u32) -> Result<RawTop, ParseStop>
        ensures reads { Gives raw_top_tree result (map seen self.new.rest.now)
            (top_in room (map seen self.old.rest.now)) }
        ensures shrinks { length self.new.rest.now ≤ length self.old.rest.now }
    {
        if self.take(Sign::AllTypes) {
            return self.bound_top(room);
        }
        if self.take(Sign::Open) {
            return self.bracketed_top(room);
        }
        self.plain_top(room)
    }

    // What a quantifier of type variables begins.
    #[cycle(tops)]
    #[tactic(auto, using(crate::proofs::TopSteps::bound_steps))]
    fn bound_top(&mut self, room: u32) -> Result<RawTop, ParseStop>
        ensures reads { Gives raw_top_tree result (map seen self.new.rest.now)
            (bound_top_in room (map seen self.old.rest.now)) }
        ensures shrinks { length self.new.rest.now ≤ length self.old.rest.now }
    {
        if room == 0 {
            return Err(ParseStop::Syntax);
        }
        let binders = self.type_variables(room - 1)?;
        let inner = self.top(room - 1)?;
        let top = bound_under(binders, inner)?;
        Ok(top)
    }

    // What an open bracket begins.
    #[cycle(tops)]
    #[tactic(auto, using(crate::proofs::TopSteps::bracket_steps))]
    fn bracketed_top(&mut self, room: u32) -> Result<RawTop, ParseStop>
        ensures reads { Gives raw_top_tree result (map seen self.new.rest.now)
            (bracketed_top_in room (map seen self.old.rest.now)) }
        ensures shrinks { length self.new.rest.now ≤ length self.old.rest.now }
    {
        if room == 0 {
            return Err(ParseStop::Syntax);
        }
        if !self.begins_top() {
            return self.first_in_bracket(room - 1, room);
        }
        let top = self.top(room - 1)?;
        self.expect(Sign::Close)?;
        Ok(top)
    }

    // Whether a bracket or a quantifier comes next.
    fn begins_top(&self) -> bool
        ensures { result ≡ begins_top (first_sign (map seen self.now.rest.now)) }
    {
        match self.sign() {
            Some(Sign::Open) => true,
            Some(Sign::AllTypes) => true,
            Some(
                Sign::Star
                | Sign::Arrow
                | Sign::Close
                | Sign::OpenList
                | Sign::CloseList
                | Sign::Comma
                | Sign::Stop
                | Sign::Colon
                | Sign::And
                | Sign::Or
                | Sign::Not
                | Sign::Implies
                | Sign::If
                | Sign::Iff
                | Sign::Xor
                | Sign::NotAnd
                | Sign::NotOr
                | Sign::Equal
                | Sign::NotEqual
                | Sign::All
                | Sign::Exists
                | Sign::At
                | Sign::Caret
                | Sign::Plus
                | Sign::Minus,
            )
            | None => false,
        }
    }

    // A declaration without brackets.
    #[tactic(auto, unfolding(crate::specs::SlowTops::declaration_in))]
    fn declaration(&mut self, room: u32) -> Result<(Text, RawTop), ParseStop>
        ensures reads { Gives typing_tree result (map seen self.new.rest.now)
            (declaration_in room (map seen self.old.rest.now)) }
        ensures shrinks { length self.new.rest.now ≤ length self.old.rest.now }
    {
        let subject = self.word()?;
        self.expect(Sign::Colon)?;
        let top = self.top(room)?;
        Ok((subject, top))
    }

    /// Reads a declaration: the symbol and its type. No more than room brackets and quantifiers nest in it.
    #[cycle(typings)]
    #[tactic(auto, using(crate::proofs::TopSteps::typing_steps))]
    pub fn typing(&mut self, room: u32) -> Result<(Text, RawTop), ParseStop>
        ensures reads { Gives typing_tree result (map seen self.new.rest.now)
            (typing_in room (map seen self.old.rest.now)) }
        ensures shrinks { length self.new.rest.now ≤ length self.old.rest.now }
    {
        if self.take(Sign::Open) {
            return self.bracketed_typing(room);
        }
        self.declaration(room)
    }

    // What an open bracket begins.
    #[cycle(typings)]
    #[tactic(auto, using(crate::proofs::TopSteps::bracketed_typing_steps))]
    fn bracketed_typing(&mut self, room: u32) -> Result<(Text, RawTop), ParseStop>
        ensures reads { Gives typing_tree result (map seen self.new.rest.now)
            (bracketed_typing_in room (map seen self.old.rest.now)) }
        ensures shrinks { length self.new.rest.now ≤ length self.old.rest.now }
    {
        if room == 0 {
            return Err(ParseStop::Syntax);
        }
        let typing = self.typing(room - 1)?;
        self.expect(Sign::Close)?;
        Ok(typing)
    }
}
