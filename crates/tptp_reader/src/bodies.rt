ghost use Rattle.std.specs.Prelude.{◌≡◌, map};
ghost use Rattle.tptp_reader.specs.Parsing.{seen};
ghost use Rattle.tptp_reader.specs.Grammar.{language_of};
ghost use Rattle.tptp_reader.specs.SlowStatements.{inclusion_in, typed_statement_in, stated_in, bodied_in, annotated_in, worded_in, statement_in, whole_inclusion, part_inclusion, kept_statements, with_ending};
ghost use Rattle.tptp_reader.specs.SlowForms.{formula_in};
ghost use Rattle.tptp_reader.specs.SlowTops.{typing_in, typing_tree};
ghost use Rattle.tptp_reader.specs.Kept.{limited, kept_tree, Makes, parsed_tree};
ghost use Rattle.tptp_reader.specs.View.{body_tree};

use crate::built::Built;
use crate::cursor::{ParseStop, Parser};
use crate::escapes::unescaped;
use crate::parse::Parsed;
use crate::roles::role_of;
use crate::statement::Body;
use crate::text::Text;
use crate::tree::RawTop;
use tptp_lex::Sign;

/// How many brackets, negations and heads of quantifiers may be open round one place.
pub const NESTING: u32 = 200;

// Whether a word is that of a typed language, if it is that of one.
fn language_of(word: &str) -> Option<bool>
    ensures { result ≡ language_of word.now }
{
    match word {
        "tff" => Some(true),
        "fof" => Some(false),
        _ => None,
    }
}

impl<'t, 'a> Parser<'t, 'a> {
    // The rest of an include without names.
    fn whole_inclusion(&mut self, file: &str) -> Result<Body, ParseStop>
        ensures { Makes body_tree result (whole_inclusion file.now (map seen self.old.rest.now)) }
    {
        if !self.is_last() {
            return Err(ParseStop::Syntax);
        }
        let file = unescaped(self.alloc, file)?;
        Ok(Body::Include { file, names: None })
    }

    // The rest of an include with names.
    fn part_inclusion(&mut self, file: &str) -> Result<Body, ParseStop>
        ensures { Makes body_tree result (part_inclusion file.now (map seen self.old.rest.now)) }
    {
        let names = self.names()?;
        if !self.is_last() {
            return Err(ParseStop::Syntax);
        }
        let file = unescaped(self.alloc, file)?;
        Ok(Body::Include {
            file,
            names: Some(names),
        })
    }

    // An include, behind its first bracket.
    #[tactic(auto, unfolding(crate::specs::SlowStatements::inclusion_in), using(crate::proofs::Behind::behind_steps))]
    fn inclusion(&mut self) -> Result<Body, ParseStop>
        ensures { Makes body_tree result (inclusion_in (map seen self.old.rest.now)) }
    {
        let file = self.quoted()?;
        if self.take(Sign::Comma) {
            return self.part_inclusion(file);
        }
        self.whole_inclusion(file)
    }

    // A typing with the end of its statement.
    fn ended_typing(&mut self) -> Result<(Text, RawTop), ParseStop>
        ensures { Makes typing_tree result (with_ending (typing_in NESTING (map seen self.old.rest.now))) }
    {
        let typing = self.typing(NESTING)?;
        if self.is_ending()? {
            return Ok(typing);
        }
        Err(ParseStop::Syntax)
    }

    // A declaration, behind its role.
    #[tactic(auto, unfolding(crate::specs::SlowStatements::typed_statement_in))]
    fn typed_statement(&mut self, name: Text) -> Result<Body, ParseStop>
        ensures { Makes body_tree result (typed_statement_in name (map seen self.old.rest.now)) }
    {
        let (subject, declared) = self.ended_typing()?;
        Ok(Body::Typing {
            name,
            subject,
            declared,
        })
    }

    // A formula with the end of its statement.
    fn ended_formula(&mut self, typed: bool) -> Result<Built, ParseStop>
        ensures { Makes kept_tree result (with_ending (formula_in limited typed NESTING (map seen self.old.rest.now))) }
    {
        let formula = self.formula(typed, NESTING)?;
        if self.is_ending()? {
            return Ok(formula);
        }
        Err(ParseStop::Syntax)
    }

    // A formula, behind its role.
    #[tactic(auto, unfolding(crate::specs::SlowStatements::stated_in))]
    fn stated(&mut self, typed: bool, name: Text, role: &str) -> Result<Parsed, ParseStop>
        ensures { Makes parsed_tree result (stated_in limited kept_statements typed name role.now (map seen self.old.rest.now)) }
    {
        match role_of(role) {
            None => Err(ParseStop::Syntax),
            Some(role) => {
                let formula = self.ended_formula(typed)?;
                match formula {
                    Built::TooDeep => Ok(Parsed::TooDeep),
                    Built::Whole(form, _) => {
                        let form = form.into_inner();
                        Ok(Parsed::Body(Body::Formula { name, role, form }))
                    }
                }
            }
        }
    }

    // A statement's body, behind its role.
    fn bodied(&mut self, typed: bool, name: Text, role: &str) -> Result<Parsed, ParseStop>
        ensures { Makes parsed_tree result (bodied_in limited kept_statements typed name role.now (map seen self.old.rest.now)) }
    {
        if typed && role == "type" {
            let body = self.typed_statement(name)?;
            return Ok(Parsed::Body(body));
        }
        self.stated(typed, name, role)
    }

    // A fof or tff statement, behind its first bracket.
    #[tactic(auto, unfolding(crate::specs::SlowStatements::annotated_in))]
    fn annotated(&mut self, typed: bool) -> Result<Parsed, ParseStop>
        ensures { Makes parsed_tree result (annotated_in limited kept_statements typed (map seen self.old.rest.now)) }
    {
        let name = self.name_before_comma()?;
        let role = self.lower_before_comma()?;
        self.bodied(typed, name, role)
    }

    // A statement, behind its first word and the bracket.
    fn worded(&mut self, word: &str) -> Result<Parsed, ParseStop>
        ensures { Makes parsed_tree result (worded_in limited kept_statements word.now (map seen self.old.rest.now)) }
    {
        if word == "include" {
            let body = self.inclusion()?;
            return Ok(Parsed::Body(body));
        }
        match language_of(word) {
            None => Err(ParseStop::Syntax),
            Some(typed) => self.annotated(typed),
        }
    }

    /// Reads a whole statement.
    #[tactic(auto, unfolding(crate::specs::SlowStatements::statement_in))]
    pub fn statement(&mut self) -> Result<Parsed, ParseStop>
        ensures { Makes parsed_tree result (statement_in limited kept_statements (map seen self.old.rest.now)) }
    {
        let word = self.lower()?;
        self.expect(Sign::Open)?;
        self.worded(word)
    }
}
