ghost use Rattle.std.specs.Prelude.{◌≡◌, ◌≤◌, Some, None, true, false, Ok, Err, length, map, option_map, IfOk};
ghost use Rattle.tptp_lex.specs.declared.signs.Sign.TheVariants.{Comma};
ghost use Rattle.tptp_reader.specs.Raw as raw;
ghost use Rattle.tptp_reader.specs.View.{raw_term_tree, raw_terms_of, raw_terms_tree};
ghost use Rattle.tptp_reader.specs.Parsing.{seen, Gives};
ghost use Rattle.tptp_reader.specs.SlowLists.{separated};
ghost use Rattle.tptp_reader.specs.SlowTerms.{term_in, arguments_in, symbol_term, defined_term};

use crate::cursor::{ParseStop, Parser};
use crate::lexeme::{Defined, Lexeme};
use crate::text::Text;
use crate::tree::{RawTerm, RawTerms};
use sqlite_items::Items;
use std::alloc::{AllocError, Global};
use tptp_lex::Sign;

// A variable.
fn variable_term(alloc: Global, name: &str) -> Result<RawTerm, AllocError>
    ensures { IfOk result (λ u. raw_term_tree u ≡ raw.RawTerm.variable name.now) }
{
    let name = Text::of(alloc, name)?;
    Ok(RawTerm::Var(name))
}

// A symbol at arguments.
fn applied_symbol(alloc: Global, name: &str, parts: RawTerms) -> Result<RawTerm, AllocError>
    ensures { IfOk result (λ u. raw_term_tree u ≡ raw.RawTerm.named name.now (raw_terms_of (map raw_term_tree parts))) }
{
    let name = Text::of(alloc, name)?;
    Ok(RawTerm::Name(name, parts))
}

// What a word behind a dollar sign is as a term, if it is one.
fn dollar_term(typed: bool, word: Defined) -> Option<RawTerm>
    ensures { option_map raw_term_tree result ≡ defined_term typed word }
{
    if !typed {
        return None;
    }
    match word {
        Defined::Individual => Some(RawTerm::Individual),
        Defined::Truth => Some(RawTerm::Truth),
        Defined::True | Defined::False | Defined::Kind | Defined::Other => None,
    }
}

impl<'t, 'a> Parser<'t, 'a> {
    /// Reads a term. No more than room brackets nest in it; typed tells whether the language is tff.
    #[cycle(terms)]
    #[tactic(auto, using(crate::proofs::TermSteps::term_steps))]
    pub fn term(&mut self, typed: bool, room: u32) -> Result<RawTerm, ParseStop>
        ensures reads { Gives raw_term_tree result (map seen self.new.rest.now)
            (term_in typed room (map seen self.old.rest.now)) }
        ensures shrinks { length self.new.rest.now ≤ length self.old.rest.now }
    {
        match self.next() {
            None => Err(ParseStop::Syntax),
            Some(Lexeme::Upper(name)) => {
                let term = variable_term(self.alloc, name)?;
                Ok(term)
            }
            Some(Lexeme::Defined(word)) => match dollar_term(typed, word) {
                None => Err(ParseStop::Syntax),
                Some(term) => Ok(term),
            },
            Some(Lexeme::Lower(name)) => self.symbol(typed, room, name),
            Some(Lexeme::Quoted(name)) => self.symbol(typed, room, name),
            Some(Lexeme::Distinct) => Err(ParseStop::Syntax),
            Some(Lexeme::Number(_)) => Err(ParseStop::Syntax),
            Some(Lexeme::Sign(_)) => Err(ParseStop::Syntax),
        }
    }

    // What a symbol begins.
    #[cycle(terms)]
    #[tactic(auto, using(crate::proofs::Symbols::symbol_steps))]
    fn symbol(&mut self, typed: bool, room: u32, name: &str) -> Result<RawTerm, ParseStop>
        ensures reads { Gives raw_term_tree result (map seen self.new.rest.now)
            (symbol_term (arguments_in typed room) name.now (map seen self.old.rest.now)) }
        ensures shrinks { length self.new.rest.now ≤ length self.old.rest.now }
    {
        if !self.take(Sign::Open) {
            let term = applied_symbol(self.alloc, name, Items::new(self.alloc))?;
            return Ok(term);
        }
        if room == 0 {
            return Err(ParseStop::Syntax);
        }
        let parts = self.terms(typed, room - 1)?;
        self.expect(Sign::Close)?;
        let term = applied_symbol(self.alloc, name, parts)?;
        Ok(term)
    }

    // One term or more, with commas between.
    #[cycle(terms)]
    fn terms(&mut self, typed: bool, room: u32) -> Result<RawTerms, ParseStop>
        ensures reads { Gives (map raw_term_tree) result (map seen self.new.rest.now)
            (separated (term_in typed room) Comma (map seen self.old.rest.now)) }
        ensures shrinks { length self.new.rest.now ≤ length self.old.rest.now }
    {
        let first = self.term(typed, room)?;
        let mut terms = Items::new(self.alloc);
        terms.push(first)?;
        while self.take(Sign::Comma) {
            let next = self.term(typed, room)?;
            terms.push(next)?;
        }
        Ok(terms)
    }
}
