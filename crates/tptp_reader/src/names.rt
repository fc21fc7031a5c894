ghost use Rattle.std.specs.Prelude.{◌≡◌, ◌≤◌, length, map};
ghost use Rattle.tptp_reader.specs.Parsing.{seen, Gives};
ghost use Rattle.tptp_reader.specs.SlowStatements.{lower_in, quoted_in, names_in, with_comma};
ghost use Rattle.tptp_reader.specs.SlowWords.{name_in};
ghost use Rattle.tptp_lex.specs.declared.signs.Sign.TheVariants.{Comma};
ghost use Rattle.tptp_reader.specs.SlowLists.{separated};

use crate::cursor::{ParseStop, Parser};
use crate::lexeme::Lexeme;
use crate::text::Text;
use crate::tree::Texts;
use sqlite_items::Items;
use tptp_lex::Sign;

impl<'t, 'a> Parser<'t, 'a> {
    /// Takes a lower.
    #[tactic(auto, unfolding(crate::specs::SlowStatements::lower_in))]
    pub fn lower(&mut self) -> Result<&'a str, ParseStop>
        ensures reads { Gives (λ w. w.now) result (map seen self.new.rest.now) (lower_in (map seen self.old.rest.now)) }
        ensures shrinks { length self.new.rest.now ≤ length self.old.rest.now }
    {
        match self.next() {
            Some(Lexeme::Lower(text)) => Ok(text),
            Some(
                Lexeme::Upper(_)
                | Lexeme::Defined(_)
                | Lexeme::Quoted(_)
                | Lexeme::Distinct
                | Lexeme::Number(_)
                | Lexeme::Sign(_),
            ) => Err(ParseStop::Syntax),
            None => Err(ParseStop::Syntax),
        }
    }

    /// Takes a quoted name.
    #[tactic(auto, unfolding(crate::specs::SlowStatements::quoted_in))]
    pub fn quoted(&mut self) -> Result<&'a str, ParseStop>
        ensures reads { Gives (λ w. w.now) result (map seen self.new.rest.now) (quoted_in (map seen self.old.rest.now)) }
        ensures shrinks { length self.new.rest.now ≤ length self.old.rest.now }
    {
        match self.next() {
            Some(Lexeme::Quoted(text)) => Ok(text),
            Some(
                Lexeme::Lower(_)
                | Lexeme::Upper(_)
                | Lexeme::Defined(_)
                | Lexeme::Distinct
                | Lexeme::Number(_)
                | Lexeme::Sign(_),
            ) => Err(ParseStop::Syntax),
            None => Err(ParseStop::Syntax),
        }
    }

    /// Takes the name of a statement, and a comma.
    pub fn name_before_comma(&mut self) -> Result<Text, ParseStop>
        ensures reads { Gives (λ t. t) result (map seen self.new.rest.now) (with_comma (name_in (map seen self.old.rest.now))) }
        ensures shrinks { length self.new.rest.now ≤ length self.old.rest.now }
    {
        let name = self.name()?;
        self.expect(Sign::Comma)?;
        Ok(name)
    }

    /// Takes a lower, and a comma.
    pub fn lower_before_comma(&mut self) -> Result<&'a str, ParseStop>
        ensures reads { Gives (λ w. w.now) result (map seen self.new.rest.now) (with_comma (lower_in (map seen self.old.rest.now))) }
        ensures shrinks { length self.new.rest.now ≤ length self.old.rest.now }
    {
        let word = self.lower()?;
        self.expect(Sign::Comma)?;
        Ok(word)
    }

    // Takes names with commas between.
    fn separated_names(&mut self) -> Result<Texts, ParseStop>
        ensures reads { Gives (λ ts. ts) result (map seen self.new.rest.now) (separated name_in Comma (map seen self.old.rest.now)) }
        ensures shrinks { length self.new.rest.now ≤ length self.old.rest.now }
    {
        let first = self.name()?;
        let mut names = Items::new(self.alloc);
        names.push(first)?;
        while self.take(Sign::Comma) {
            let next = self.name()?;
            names.push(next)?;
        }
        Ok(names)
    }

    /// Takes the names of an include, with their brackets.
    #[tactic(auto, unfolding(crate::specs::SlowStatements::names_in))]
    pub fn names(&mut self) -> Result<Texts, ParseStop>
        ensures reads { Gives (λ ts. ts) result (map seen self.new.rest.now) (names_in (map seen self.old.rest.now)) }
        ensures shrinks { length self.new.rest.now ≤ length self.old.rest.now }
    {
        self.expect(Sign::OpenList)?;
        let names = self.separated_names()?;
        self.expect(Sign::CloseList)?;
        Ok(names)
    }
}
