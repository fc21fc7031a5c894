//! The term of a rule at a place.

ghost use Rattle.std.specs.Prelude.{◌≡◌, ◌≤◌, length, IfOk};
ghost use Rattle.std.specs.Option.{option_map};
ghost use Rattle.lp_terms.specs.View.{term_of, terms_of};
ghost use Rattle.zm_logic.specs.View.{form_tree};
ghost use Rattle.lp_signature.specs.View.{scope_tree};
ghost use Rattle.sequent_proof.specs.View.{name_of, part_of, trees_of};
ghost use Rattle.lp_translation.specs.ProofOf.{entered};
ghost use Rattle.lp_translation.specs.ViewPlace.{symbols_at, scope_at, rule_at};
ghost use Rattle.lp_translation.specs.ViewDerivation.{IsNode, least_children};

use crate::arguments::{eq_fun_rule, eq_pred_rule};
use crate::equal::{axiom_rule, refl_rule, sym_rule, trans_first_rule, trans_second_rule};
use crate::joined::{
    and_rule, iff_rule, imp_rule, not_and_rule, not_iff_rule, not_imp_rule, not_not_rule,
    not_or_rule, not_true_rule, or_rule,
};
use crate::node::Node;
use crate::place::{Place, proof_at};
use crate::quantified::{exists_rule, forall_rule, not_exists_rule, not_forall_rule};
use lp_terms::Lp;
use sequent_proof::RuleName;
use std::alloc::{AllocError, Global};

/// The term of the node's rule, from the terms of its children. The one error is want of memory.
pub fn rule_term(alloc: Global, place: &Place, node: &Node, rs: &[Lp]) -> Result<Lp, AllocError>
    requires node { IsNode (symbols_at place.now) (name_of node.now.name) (form_tree node.now.first.now) (option_map form_tree node.now.second.now) (option_map part_of node.now.with.now) (trees_of node.now.children.now) }
    requires entered { scope_tree place.now.entered.now ≡ entered (name_of node.now.name) (option_map part_of node.now.with.now) place.now.next (scope_at place.now) }
    requires children { length rs.now ≡ length node.now.children.now }
    requires enough { least_children (name_of node.now.name) ≤ length rs.now }
    ensures { IfOk result (λ t. term_of t ≡
        rule_at place.now (name_of node.now.name) (form_tree node.now.first.now) (option_map form_tree node.now.second.now) (option_map part_of node.now.with.now) (terms_of rs.now)) }
{
    let first = node.first;
    let second = node.second;
    let with = node.with;
    match node.name {
        RuleName::False => proof_at(alloc, place, first),
        RuleName::NotTrue => not_true_rule(alloc, place, first),
        RuleName::Axiom => axiom_rule(alloc, place, first, second),
        RuleName::Refl => refl_rule(alloc, place, first),
        RuleName::Sym => sym_rule(alloc, place, first, second),
        RuleName::NotNot => not_not_rule(alloc, place, first, &rs[0]),
        RuleName::And => and_rule(alloc, place, first, &rs[0]),
        RuleName::NotOr => not_or_rule(alloc, place, first, &rs[0]),
        RuleName::NotImp => not_imp_rule(alloc, place, first, &rs[0]),
        RuleName::Or => or_rule(alloc, place, first, &rs[0], &rs[1]),
        RuleName::NotAnd => not_and_rule(alloc, place, first, &rs[0], &rs[1]),
        RuleName::Imp => imp_rule(alloc, place, first, &rs[0], &rs[1]),
        RuleName::Iff => iff_rule(alloc, place, first, &rs[0], &rs[1]),
        RuleName::NotIff => not_iff_rule(alloc, place, first, &rs[0], &rs[1]),
        RuleName::Exists => exists_rule(alloc, place, first, with, &rs[0]),
        RuleName::NotForall => not_forall_rule(alloc, place, first, with, &rs[0]),
        RuleName::Forall => forall_rule(alloc, place, first, with, &rs[0]),
        RuleName::NotExists => not_exists_rule(alloc, place, first, with, &rs[0]),
        RuleName::EqPred => eq_pred_rule(alloc, place, first, second, node.children, rs),
        RuleName::EqFun => eq_fun_rule(alloc, place, first, node.children, rs),
        RuleName::EqTransFirst => trans_first_rule(alloc, place, first, second, &rs[0], &rs[1]),
        RuleName::EqTransSecond => trans_second_rule(alloc, place, first, second, &rs[0], &rs[1]),
        RuleName::Conversion => Ok(Lp::Sort),
    }
}
