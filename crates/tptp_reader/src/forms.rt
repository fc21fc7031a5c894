ghost use Rattle.std.specs.Prelude.{◌≡◌, ◌≤◌, ◌<◌, None, Some, length, map, true, false};
ghost use Rattle.std.specs.Option.{option_map};
ghost use Rattle.tptp_reader.specs.Parsing.{seen, Gives, behind};
ghost use Rattle.tptp_reader.specs.SlowForms.{truth_in, compared_in, atom_in, prefix_in, quantified_in, negation_in, bracketed_in, joined_in, completed_in, chain_from, unit_in, formula_in, binder_sign};
ghost use Rattle.tptp_reader.specs.Kept.{limited, kept_tree, joint_connective};
ghost use Rattle.tptp_reader.specs.View.{raw_term_tree, raw_variable_tree};

use crate::built::{Built, Joint, constant, equal, joined, negated, plain, quantified, two};
use crate::cursor::{ParseStop, Parser};
use crate::heads::{Binder, Follow, Head, binder_sign, follow_of, head_of};
use crate::lexeme::{Defined, Lexeme};
use crate::tree::{RawTerm, RawVars};
use tptp_lex::Sign;

impl<'t, 'a> Parser<'t, 'a> {
    // Takes `$true` or `$false`, if one comes next, and tells which.
    fn truth_value(&mut self) -> Option<bool>
        ensures value { truth_in (map seen self.old.rest.now) ≡ option_map (λ b. (b, map seen self.new.rest.now)) result }
        ensures same { result ≡ None → self.new.rest.now ≡ self.old.rest.now }
        ensures shrinks { length self.new.rest.now ≤ length self.old.rest.now }
    {
        let rest = self.rest;
        match rest {
            [Lexeme::Defined(Defined::True), others @ ..] => {
                self.rest = others;
                Some(true)
            }
            [Lexeme::Defined(Defined::False), others @ ..] => {
                self.rest = others;
                Some(false)
            }
            [
                Lexeme::Defined(
                    Defined::Individual | Defined::Truth | Defined::Kind | Defined::Other,
                )
                | Lexeme::Lower(_)
                | Lexeme::Upper(_)
                | Lexeme::Quoted(_)
                | Lexeme::Distinct
                | Lexeme::Number(_)
                | Lexeme::Sign(_),
                ..
            ] => None,
            [] => None,
        }
    }

    // What a term and the tokens behind it make.
    #[tactic(auto, unfolding(crate::specs::SlowForms::compared_in), using(crate::proofs::Behind::behind_steps))]
    fn compared(&mut self, typed: bool, room: u32, left: RawTerm) -> Result<Built, ParseStop>
        ensures reads { Gives kept_tree result (map seen self.new.rest.now) (compared_in limited typed room (raw_term_tree left) (map seen self.old.rest.now)) }
        ensures shrinks { length self.new.rest.now ≤ length self.old.rest.now }
    {
        if self.take(Sign::Equal) {
            let right = self.term(typed, room)?;
            let equation = equal(self.alloc, left, right)?;
            return Ok(equation);
        }
        if self.take(Sign::NotEqual) {
            let right = self.term(typed, room)?;
            let equation = equal(self.alloc, left, right)?;
            let inequation = negated(self.alloc, equation)?;
            return Ok(inequation);
        }
        let formula = plain(self.alloc, left)?;
        Ok(formula)
    }

    // A unit that begins with no sign: `$true`, `$false`, an atom or an equation.
    #[tactic(auto, unfolding(crate::specs::SlowForms::atom_in))]
    fn atom(&mut self, typed: bool, room: u32) -> Result<Built, ParseStop>
        ensures reads { Gives kept_tree result (map seen self.new.rest.now) (atom_in limited typed room (map seen self.old.rest.now)) }
        ensures shrinks { length self.new.rest.now ≤ length self.old.rest.now }
    {
        match self.truth_value() {
            Some(value) => {
                let formula = constant(self.alloc, value)?;
                Ok(formula)
            }
            None => {
                let left = self.term(typed, room)?;
                self.compared(typed, room, left)
            }
        }
    }

    // A quantifier's sign and its variables, up to the colon.
    #[tactic(auto, unfolding(crate::specs::SlowForms::prefix_in))]
    fn prefix(&mut self, typed: bool, room: u32, sign: Sign) -> Result<RawVars, ParseStop>
        ensures reads { Gives (map raw_variable_tree) result (map seen self.new.rest.now) (prefix_in typed room sign (map seen self.old.rest.now)) }
        ensures shrinks { length self.new.rest.now ≤ length self.old.rest.now }
    {
        self.expect(sign)?;
        self.expect(Sign::OpenList)?;
        let variables = self.variables(typed, room)?;
        self.expect(Sign::CloseList)?;
        self.expect(Sign::Colon)?;
        Ok(variables)
    }

    // A unit, with room for so many open brackets, pending negations and heads of quantifiers.
    #[cycle(reading)]
    #[tactic(auto, using(crate::proofs::Steps::unit_steps))]
    fn unit(&mut self, typed: bool, room: u32) -> Result<Built, ParseStop>
        ensures reads { Gives kept_tree result (map seen self.new.rest.now) (unit_in limited typed room (map seen self.old.rest.now)) }
        ensures shrinks { length self.new.rest.now ≤ length self.old.rest.now }
    {
        if room == 0 {
            return self.atom(typed, 0);
        }
        match head_of(self.sign()) {
            Head::Negation => self.negation(typed, room - 1),
            Head::Quantified(binder) => self.quantified(typed, room - 1, binder),
            Head::Bracket => self.bracketed(typed, room - 1),
            Head::Other => self.atom(typed, room),
        }
    }

    #[cycle(reading)]
    fn negation(&mut self, typed: bool, room: u32) -> Result<Built, ParseStop>
        ensures reads { Gives kept_tree result (map seen self.new.rest.now) (negation_in limited (unit_in limited typed room) (map seen self.old.rest.now)) }
        ensures shrinks { length self.new.rest.now ≤ length self.old.rest.now }
    {
        self.expect(Sign::Not)?;
        let inner = self.unit(typed, room)?;
        let formula = negated(self.alloc, inner)?;
        Ok(formula)
    }

    #[cycle(reading)]
    fn quantified(&mut self, typed: bool, room: u32, binder: Binder) -> Result<Built, ParseStop>
        ensures reads { Gives kept_tree result (map seen self.new.rest.now) (quantified_in limited typed room (unit_in limited typed room) binder (map seen self.old.rest.now)) }
        ensures shrinks { length self.new.rest.now ≤ length self.old.rest.now }
    {
        let variables = self.prefix(typed, room, binder_sign(binder))?;
        let body = self.unit(typed, room)?;
        let formula = quantified(self.alloc, binder, variables, body)?;
        Ok(formula)
    }

    #[cycle(reading)]
    fn bracketed(&mut self, typed: bool, room: u32) -> Result<Built, ParseStop>
        ensures reads { Gives kept_tree result (map seen self.new.rest.now) (bracketed_in limited (unit_in limited typed room) (map seen self.old.rest.now)) }
        ensures shrinks { length self.new.rest.now ≤ length self.old.rest.now }
    {
        self.expect(Sign::Open)?;
        let formula = self.formula(typed, room)?;
        self.expect(Sign::Close)?;
        Ok(formula)
    }

    /// Reads a formula with room for so many open brackets, pending negations and heads of quantifiers.
    #[cycle(reading)]
    #[tactic(auto, unfolding(crate::specs::SlowForms::formula_by))]
    pub fn formula(&mut self, typed: bool, room: u32) -> Result<Built, ParseStop>
        ensures reads { Gives kept_tree result (map seen self.new.rest.now) (formula_in limited typed room (map seen self.old.rest.now)) }
        ensures shrinks { length self.new.rest.now ≤ length self.old.rest.now }
    {
        let first = self.unit(typed, room)?;
        self.completed(typed, room, first)
    }

    // What follows a first unit.
    #[cycle(reading)]
    fn completed(&mut self, typed: bool, room: u32, first: Built) -> Result<Built, ParseStop>
        ensures reads { Gives kept_tree result (map seen self.new.rest.now) (completed_in limited (unit_in limited typed room) (kept_tree first) (map seen self.old.rest.now)) }
        ensures shrinks { length self.new.rest.now ≤ length self.old.rest.now }
    {
        match follow_of(self.sign()) {
            Follow::Conjunction => self.chain(typed, room, Sign::And, Joint::And, first),
            Follow::Disjunction => self.chain(typed, room, Sign::Or, Joint::Or, first),
            Follow::Two(sign) => self.joined(typed, room, sign, first),
            Follow::Nothing => Ok(first),
        }
    }

    // Goes on with a connective that joins just two.
    #[cycle(reading)]
    fn joined(
        &mut self,
        typed: bool,
        room: u32,
        connective: Sign,
        first: Built,
    ) -> Result<Built, ParseStop>
        ensures reads { Gives kept_tree result (map seen self.new.rest.now) (joined_in limited (unit_in limited typed room) connective (kept_tree first) (map seen self.old.rest.now)) }
        ensures shrinks { length self.new.rest.now ≤ length self.old.rest.now }
    {
        self.expect(connective)?;
        let second = self.unit(typed, room)?;
        match two(self.alloc, connective, first, second)? {
            Some(formula) => Ok(formula),
            None => Err(ParseStop::Syntax),
        }
    }

    // Goes on with a chain of one connective, as long as it goes.
    #[cycle(reading)]
    fn chain(
        &mut self,
        typed: bool,
        room: u32,
        connective: Sign,
        joint: Joint,
        first: Built,
    ) -> Result<Built, ParseStop>
        ensures reads { Gives kept_tree result (map seen self.new.rest.now)
            (chain_from (limited.of_join (joint_connective joint)) connective (unit_in limited typed room) (kept_tree first) (map seen self.old.rest.now)) }
        ensures shrinks { length self.new.rest.now ≤ length self.old.rest.now }
    {
        let mut formula = first;
        while self.take(connective) {
            let second = self.unit(typed, room)?;
            formula = joined(self.alloc, joint, formula, second)?;
        }
        Ok(formula)
    }
}
