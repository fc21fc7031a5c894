ghost use Rattle.std.specs.Prelude.{◌≡◌, ◌<◌, ◌≤◌, IfOk, IfErr, OnOk, All, map};
ghost use Rattle.zm_logic.specs.View.{side_tree, rule_tree};
ghost use Rattle.term_store.specs.Trees.{Extends};
ghost use Rattle.term_store.specs.Open.{HasRedex, redex_of};
ghost use Rattle.term_store.specs.Fault.{IfTooDeep};
ghost use Rattle.rule_index.specs.Matching as matching;
ghost use Rattle.rule_index.specs.View.{some_fitting, some_side, rules_of, IsFirstFit};
ghost use Rattle.rule_index.specs.Usable.{AreUsable};
ghost use Rattle.rule_index.specs.Shallow.{AreShallow, IsShallowSide};

use crate::matching::match_side;
use crate::part::Parts;
use crate::putting::put;
use std::alloc::{AllocError, Global};
use term_store::{EnterFault, Redex, Store};
use zm_logic::{Rule, Rules, Side, copy_rules};

/// A rule that fits a place.
#[derive(Drop)]
pub struct Match {
    /// The number of the rule, counted from 0.
    pub rule: usize,
    /// What its binders stand for.
    pub parts: Parts,
}

/// Rules to rewrite by, in order.
#[derive(Drop)]
pub struct Index {
    rules: Rules,
}

// What a rule makes of a place, or None where it doesn't fit.
fn rewrite(alloc: Global, rule: &Rule, place: &Side) -> Result<Option<Side>, AllocError>
    ensures { IfOk result (λ m. some_side m ≡ matching.rewrite (rule_tree rule.now) (side_tree place.now)) }
{
    match match_side(alloc, &rule.binders, &rule.left, place)? {
        None => Ok(None),
        Some(parts) => Ok(Some(put(alloc, parts.as_slice(), &rule.right)?)),
    }
}

// The tree of a place.
fn tree_of(store: &Store, place: Redex) -> Result<Side, AllocError>
    requires { HasRedex store.now place }
    ensures { IfOk result (λ s. side_tree s ≡ redex_of store.now place) }
{
    match place {
        Redex::OfTerm(term) => Ok(Side::OfTerm(store.term_tree(term)?)),
        Redex::OfForm(form) => Ok(Side::OfForm(store.form_tree(form)?)),
    }
}

// Stores a side, and tells whether it is no deeper than 2,000.
fn enter_side(store: &mut Store, side: &Side) -> Result<(), EnterFault>
    ensures kept { Extends store.old store.new }
    ensures shallow { OnOk result (IsShallowSide (side_tree side.now)) }
    ensures deep { IfErr result (IfTooDeep (¬ IsShallowSide (side_tree side.now))) }
{
    match side {
        Side::OfTerm(term) => {
            store.enter_term(term)?;
            Ok(())
        }
        Side::OfForm(form) => {
            store.enter(form)?;
            Ok(())
        }
    }
}

impl Index {
    /// The rules to rewrite by, in the given order. `Deep` comes exactly where a side of a rule is deeper than 2,000.
    /// After an error more nodes may stand in the store.
    #[tactic(auto, using(crate::proofs::Rewritten::shallow_start, crate::proofs::Rewritten::shallow_more, crate::proofs::Rewritten::shallow_end, crate::proofs::Rewritten::deep_left, crate::proofs::Rewritten::deep_right))]
    pub fn build(alloc: Global, rules: &Rules, store: &mut Store) -> Result<Index, EnterFault>
        ensures rules { IfOk result (λ i. rules_of i ≡ map rule_tree rules.now) }
        ensures kept { Extends store.old store.new }
        ensures shallow { OnOk result (AreShallow (map rule_tree rules.now)) }
        ensures deep { IfErr result (IfTooDeep (¬ AreShallow (map rule_tree rules.now))) }
    {
        for rule in rules.as_slice() {
            enter_side(store, &rule.left)?;
            enter_side(store, &rule.right)?;
        }
        Ok(Index {
            rules: copy_rules(alloc, rules)?,
        })
    }

    /// The least number of a rule whose left side has the place as an instance, with what its binders stand for, or None
    /// exactly where there is none. The one error is want of memory.
    #[tactic(auto, using(crate::proofs::First::is_first_fit))]
    pub fn first_match(
        &self,
        alloc: Global,
        store: &Store,
        place: Redex,
    ) -> Result<Option<Match>, AllocError>
        requires { HasRedex store.now place }
        ensures answer { IfOk result (λ m. some_fitting m ≡ matching.first_match (rules_of self.now) (redex_of store.now place)) }
        ensures least { AreUsable (rules_of self.now) → IfOk result (IsFirstFit (rules_of self.now) (redex_of store.now place)) }
    {
        let place = tree_of(store, place)?;
        let fit = self.first_fit(alloc, &place)?;
        Ok(fit)
    }

    #[tactic(auto, using(crate::proofs::Rewritten::fit_start, crate::proofs::Rewritten::fit_here, crate::proofs::Rewritten::fit_later, crate::proofs::Rewritten::fit_end))]
    fn first_fit(&self, alloc: Global, place: &Side) -> Result<Option<Match>, AllocError>
        ensures { IfOk result (λ m. some_fitting m ≡ matching.first_match (rules_of self.now) (side_tree place.now)) }
    {
        for (number, rule) in self.rules.as_slice().iter().enumerate() {
            if let Some(parts) = match_side(alloc, &rule.binders, &rule.left, place)? {
                return Ok(Some(Match {
                    rule: number,
                    parts,
                }));
            }
        }
        Ok(None)
    }

    /// What the first rule that fits a place makes of it: its right side at the parts. None where no rule fits. The one
    /// error is want of memory.
    #[tactic(auto, using(crate::proofs::Rewritten::rewritten_here, crate::proofs::Rewritten::rewritten_later, crate::proofs::Rewritten::rewritten_end))]
    pub fn rewrite(&self, alloc: Global, place: &Side) -> Result<Option<Side>, AllocError>
        ensures { IfOk result (λ m. some_side m ≡ matching.first_rewrite (rules_of self.now) (side_tree place.now)) }
    {
        for rule in self.rules.as_slice() {
            if let Some(side) = rewrite(alloc, rule, place)? {
                return Ok(Some(side));
            }
        }
        Ok(None)
    }
}
