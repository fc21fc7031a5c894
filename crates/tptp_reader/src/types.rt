ghost use Rattle.std.specs.Prelude.{◌≡◌, ◌≤◌, [], ◌∷◌, Some, None, Ok, Err, length, map, option_map, IfOk};
ghost use Rattle.tptp_lex.specs.declared.signs.Sign.TheVariants.{Comma};
ghost use Rattle.tptp_reader.specs.Raw as raw;
ghost use Rattle.tptp_reader.specs.View.{raw_type_tree, raw_types_of, raw_variable_tree};
ghost use Rattle.tptp_reader.specs.Parsing.{seen, Gives};
ghost use Rattle.tptp_reader.specs.SlowLists.{separated, followed_all};
ghost use Rattle.tptp_reader.specs.SlowTypes.{type_in, type_arguments_in, constructed_type, defined_type, variable_in, variables_in, written_type_in};

use crate::cursor::{ParseStop, Parser};
use crate::lexeme::{Defined, Lexeme};
use crate::text::Text;
use crate::tree::{RawType, RawTypes, RawVar, RawVars};
use sqlite_items::Items;
use std::alloc::{AllocError, Global};
use tptp_lex::Sign;

// A type variable.
fn variable_type(alloc: Global, name: &str) -> Result<RawType, AllocError>
    ensures { IfOk result (λ t. raw_type_tree t ≡ raw.RawType.variable name.now) }
{
    let name = Text::of(alloc, name)?;
    Ok(RawType::Var(name))
}

// A type constructor at types.
fn applied_constructor(alloc: Global, name: &str, parts: RawTypes) -> Result<RawType, AllocError>
    ensures { IfOk result (λ t. raw_type_tree t ≡ raw.RawType.named name.now (raw_types_of (map raw_type_tree parts))) }
{
    let name = Text::of(alloc, name)?;
    Ok(RawType::Name(name, parts))
}

// What a word behind a dollar sign is as a type, if it is one.
fn dollar_type(word: Defined) -> Option<RawType>
    ensures { option_map raw_type_tree result ≡ defined_type word }
{
    match word {
        Defined::Individual => Some(RawType::Individual),
        Defined::Truth => Some(RawType::Truth),
        Defined::Kind => Some(RawType::Kind),
        Defined::True | Defined::False | Defined::Other => None,
    }
}

impl<'t, 'a> Parser<'t, 'a> {
    /// Reads a type. No more than room brackets nest in it.
    #[cycle(types)]
    #[tactic(auto, using(crate::proofs::TypeSteps::type_steps))]
    pub fn written_type(&mut self, room: u32) -> Result<RawType, ParseStop>
        ensures reads { Gives raw_type_tree result (map seen self.new.rest.now)
            (type_in room (map seen self.old.rest.now)) }
        ensures shrinks { length self.new.rest.now ≤ length self.old.rest.now }
    {
        match self.next() {
            None => Err(ParseStop::Syntax),
            Some(Lexeme::Upper(name)) => {
                let variable = variable_type(self.alloc, name)?;
                Ok(variable)
            }
            Some(Lexeme::Defined(word)) => match dollar_type(word) {
                None => Err(ParseStop::Syntax),
                Some(ty) => Ok(ty),
            },
            Some(Lexeme::Lower(name)) => self.constructor(room, name),
            Some(Lexeme::Quoted(name)) => self.constructor(room, name),
            Some(Lexeme::Distinct) => Err(ParseStop::Syntax),
            Some(Lexeme::Number(_)) => Err(ParseStop::Syntax),
            Some(Lexeme::Sign(_)) => Err(ParseStop::Syntax),
        }
    }

    // What a type constructor begins.
    #[cycle(types)]
    #[tactic(auto, using(crate::proofs::Constructors::constructor_steps))]
    fn constructor(&mut self, room: u32, name: &str) -> Result<RawType, ParseStop>
        ensures reads { Gives raw_type_tree result (map seen self.new.rest.now)
            (constructed_type (type_arguments_in room) name.now (map seen self.old.rest.now)) }
        ensures shrinks { length self.new.rest.now ≤ length self.old.rest.now }
    {
        if !self.take(Sign::Open) {
            let ty = applied_constructor(self.alloc, name, Items::new(self.alloc))?;
            return Ok(ty);
        }
        if room == 0 {
            return Err(ParseStop::Syntax);
        }
        let parts = self.types(room - 1)?;
        self.expect(Sign::Close)?;
        let ty = applied_constructor(self.alloc, name, parts)?;
        Ok(ty)
    }

    // One type or more, with commas between.
    #[cycle(types)]
    fn types(&mut self, room: u32) -> Result<RawTypes, ParseStop>
        ensures reads { Gives (map raw_type_tree) result (map seen self.new.rest.now)
            (separated (type_in room) Comma (map seen self.old.rest.now)) }
        ensures shrinks { length self.new.rest.now ≤ length self.old.rest.now }
    {
        let first = self.written_type(room)?;
        self.types_from(Sign::Comma, room, first)
    }

    /// The types behind a first, each with the sign before it.
    #[cycle(types)]
    pub fn types_from(
        &mut self,
        between: Sign,
        room: u32,
        first: RawType,
    ) -> Result<RawTypes, ParseStop>
        ensures reads { Gives (map raw_type_tree) result (map seen self.new.rest.now)
            (followed_all (type_in room) between (raw_type_tree first ∷ []) (map seen self.old.rest.now)) }
        ensures shrinks { length self.new.rest.now ≤ length self.old.rest.now }
    {
        let mut types = Items::new(self.alloc);
        types.push(first)?;
        while self.take(between) {
            let next = self.written_type(room)?;
            types.push(next)?;
        }
        Ok(types)
    }

    // What follows the name of a variable at its quantifier.
    fn variable_type_of(&mut self, typed: bool, room: u32) -> Result<Option<RawType>, ParseStop>
        ensures reads { Gives (option_map raw_type_tree) result (map seen self.new.rest.now)
            (written_type_in typed room (map seen self.old.rest.now)) }
        ensures shrinks { length self.new.rest.now ≤ length self.old.rest.now }
    {
        if !typed {
            return Ok(None);
        }
        if !self.take(Sign::Colon) {
            return Ok(None);
        }
        let ty = self.written_type(room)?;
        Ok(Some(ty))
    }

    // A variable at its quantifier.
    #[tactic(auto, unfolding(crate::specs::SlowTypes::variable_in))]
    fn variable(&mut self, typed: bool, room: u32) -> Result<RawVar, ParseStop>
        ensures reads { Gives raw_variable_tree result (map seen self.new.rest.now)
            (variable_in typed room (map seen self.old.rest.now)) }
        ensures shrinks { length self.new.rest.now ≤ length self.old.rest.now }
    {
        match self.next() {
            None => Err(ParseStop::Syntax),
            Some(Lexeme::Upper(name)) => {
                let name = Text::of(self.alloc, name)?;
                let ty = self.variable_type_of(typed, room)?;
                Ok(RawVar { name, ty })
            }
            Some(Lexeme::Defined(_)) => Err(ParseStop::Syntax),
            Some(Lexeme::Lower(_)) => Err(ParseStop::Syntax),
            Some(Lexeme::Quoted(_)) => Err(ParseStop::Syntax),
            Some(Lexeme::Distinct) => Err(ParseStop::Syntax),
            Some(Lexeme::Number(_)) => Err(ParseStop::Syntax),
            Some(Lexeme::Sign(_)) => Err(ParseStop::Syntax),
        }
    }

    /// Reads what stands between the square brackets of a quantifier: one variable or more, with commas between.
    #[tactic(auto, unfolding(crate::specs::SlowTypes::variables_in))]
    pub fn variables(&mut self, typed: bool, room: u32) -> Result<RawVars, ParseStop>
        ensures reads { Gives (map raw_variable_tree) result (map seen self.new.rest.now)
            (variables_in typed room (map seen self.old.rest.now)) }
        ensures shrinks { length self.new.rest.now ≤ length self.old.rest.now }
    {
        let first = self.variable(typed, room)?;
        let mut variables = Items::new(self.alloc);
        variables.push(first)?;
        while self.take(Sign::Comma) {
            let next = self.variable(typed, room)?;
            variables.push(next)?;
        }
        Ok(variables)
    }
}
