//! The proof term of a derivation.

ghost use Rattle.std.specs.Prelude.{◌≡◌, ◌+◌, ◌≤◌, [], ◌∷◌, ℕ, Some, length, map, take, IfOk, OnOk, MatchOption};
ghost use Rattle.std.specs.Option.{option_map};
ghost use Rattle.lp_terms.specs.View.{term_of, terms_of};
ghost use Rattle.zm_logic.specs.Tree as logic;
ghost use Rattle.zm_logic.specs.View.{form_tree, term_tree, type_tree};
ghost use Rattle.lp_signature.specs.Translation as translation;
ghost use Rattle.lp_signature.specs.View.{symbols_tree, scope_tree, bound_in};
ghost use Rattle.sequent_proof.specs.Tree.{depth, depth_all, added};
ghost use Rattle.sequent_proof.specs.View.{name_of, part_of, tree_of, trees_of};
ghost use Rattle.lp_translation.specs.ProofOf.{Hypotheses, also, as_bound, bound_by, binds_before, entered};
ghost use Rattle.lp_translation.specs.View.{hypotheses_of, plain_proof};
ghost use Rattle.lp_translation.specs.ViewDerivation as derivation;

use crate::hypotheses::{Fact, Facts, Proof, bind_formulas};
use crate::node::{Node, node_of};
use crate::numbers::next;
use crate::place::Place;
use crate::rules::rule_term;
use lp_signature::Bound;
use lp_terms::{Lp, Lps};
use sequent_proof::{DTree, RuleName, With};
use sqlite_items::Items;
use std::alloc::{AllocError, Global};
use zm_logic::{Form, Symbol, Term, Ty};

// How many variables a rule's term binds before those of its children's formulas.
fn binds_before(name: RuleName) -> u32
    ensures { result ≡ binds_before (name_of name) }
{
    match name {
        RuleName::NotAnd | RuleName::Iff | RuleName::NotIff => 2,
        RuleName::Exists | RuleName::NotForall => 1,
        RuleName::False
        | RuleName::NotTrue
        | RuleName::Axiom
        | RuleName::Refl
        | RuleName::Sym
        | RuleName::NotNot
        | RuleName::And
        | RuleName::NotOr
        | RuleName::NotImp
        | RuleName::Or
        | RuleName::Imp
        | RuleName::Forall
        | RuleName::NotExists
        | RuleName::EqPred
        | RuleName::EqFun
        | RuleName::EqTransFirst
        | RuleName::EqTransSecond
        | RuleName::Conversion => 0,
    }
}

// Whether the rule is that of a negated equivalence.
fn is_not_iff(name: RuleName) -> bool
    ensures { result ≡ derivation.is_not_iff (name_of name) }
{
    match name {
        RuleName::NotIff => true,
        RuleName::False
        | RuleName::NotTrue
        | RuleName::Axiom
        | RuleName::Refl
        | RuleName::Sym
        | RuleName::NotNot
        | RuleName::And
        | RuleName::NotOr
        | RuleName::NotImp
        | RuleName::Or
        | RuleName::NotAnd
        | RuleName::Imp
        | RuleName::Iff
        | RuleName::Exists
        | RuleName::NotForall
        | RuleName::Forall
        | RuleName::NotExists
        | RuleName::EqPred
        | RuleName::EqFun
        | RuleName::EqTransFirst
        | RuleName::EqTransSecond
        | RuleName::Conversion => false,
    }
}

// Whether the rule is a conversion.
fn is_conversion(name: RuleName) -> bool
    ensures { result ≡ derivation.is_conversion (name_of name) }
{
    match name {
        RuleName::Conversion => true,
        RuleName::False
        | RuleName::NotTrue
        | RuleName::Axiom
        | RuleName::Refl
        | RuleName::Sym
        | RuleName::NotNot
        | RuleName::And
        | RuleName::NotOr
        | RuleName::NotImp
        | RuleName::Or
        | RuleName::NotAnd
        | RuleName::Imp
        | RuleName::Iff
        | RuleName::NotIff
        | RuleName::Exists
        | RuleName::NotForall
        | RuleName::Forall
        | RuleName::NotExists
        | RuleName::EqPred
        | RuleName::EqFun
        | RuleName::EqTransFirst
        | RuleName::EqTransSecond => false,
    }
}

// Whether the rule brings a parameter.
fn brings_parameter(name: RuleName) -> bool
    ensures { result ≡ derivation.brings_parameter (name_of name) }
{
    match name {
        RuleName::Exists | RuleName::NotForall => true,
        RuleName::False
        | RuleName::NotTrue
        | RuleName::Axiom
        | RuleName::Refl
        | RuleName::Sym
        | RuleName::NotNot
        | RuleName::And
        | RuleName::NotOr
        | RuleName::NotImp
        | RuleName::Or
        | RuleName::NotAnd
        | RuleName::Imp
        | RuleName::Iff
        | RuleName::NotIff
        | RuleName::Forall
        | RuleName::NotExists
        | RuleName::EqPred
        | RuleName::EqFun
        | RuleName::EqTransFirst
        | RuleName::EqTransSecond
        | RuleName::Conversion => false,
    }
}

// Lets the variable of the bound stand for its parameter.
#[tactic(auto, using(crate::proofs::BuildingDerivation::scope_pushed, crate::proofs::BuildingHypotheses::take_whole, crate::proofs::BuildingHypotheses::kept_push))]
fn enter_bound(scope: &mut Vec<Bound>, bound: Bound) -> Result<(), AllocError>
    ensures entered { OnOk result (scope_tree scope.new.items ≡ bound_in (scope_tree scope.old.items) bound) }
    ensures kept { OnOk result (take (length scope.old.items) scope.new.items ≡ scope.old.items) }
{
    scope.push(bound)?;
    Ok(())
}

// Lets the variable stand for the epsilon term, where the term is one.
#[tactic(auto, using(crate::proofs::BuildingHypotheses::take_whole))]
fn enter_term(
    alloc: Global,
    scope: &mut Vec<Bound>,
    term: &Term,
    variable: u32,
) -> Result<(), AllocError>
    ensures entered { OnOk result (scope_tree scope.new.items ≡ derivation.with_parameter (Some (logic.Opening.of_term (term_tree term.now))) variable (scope_tree scope.old.items)) }
    ensures kept { OnOk result (take (length scope.old.items) scope.new.items ≡ scope.old.items) }
{
    match term {
        Term::Eps(number, ty) => {
            let ty = ty.copy(alloc)?;
            let number = *number;
            enter_bound(
                scope,
                Bound::OfTerm {
                    number,
                    ty,
                    variable,
                },
            )
        }
        Term::Bound(_) | Term::Meta(_, _) | Term::App(_, _, _) => Ok(()),
    }
}

// Lets the variable stand for the type parameter, where the type is one.
#[tactic(auto, using(crate::proofs::BuildingHypotheses::take_whole))]
fn enter_type(scope: &mut Vec<Bound>, ty: &Ty, variable: u32) -> Result<(), AllocError>
    ensures entered { OnOk result (scope_tree scope.new.items ≡ derivation.with_parameter (Some (logic.Opening.of_type (type_tree ty.now))) variable (scope_tree scope.old.items)) }
    ensures kept { OnOk result (take (length scope.old.items) scope.new.items ≡ scope.old.items) }
{
    match ty {
        Ty::Param(number) => {
            let number = *number;
            enter_bound(scope, Bound::OfType { number, variable })
        }
        Ty::Bound(_) | Ty::Meta(_) | Ty::Con(_, _) => Ok(()),
    }
}

// Lets the variable stand for the parameter.
#[tactic(auto, using(crate::proofs::BuildingHypotheses::take_whole))]
fn enter_with(
    alloc: Global,
    scope: &mut Vec<Bound>,
    with: &Option<With>,
    variable: u32,
) -> Result<(), AllocError>
    ensures entered { OnOk result (scope_tree scope.new.items ≡ derivation.with_parameter (option_map part_of with.now) variable (scope_tree scope.old.items)) }
    ensures kept { OnOk result (take (length scope.old.items) scope.new.items ≡ scope.old.items) }
{
    match with {
        Some(With::OfTerm(term)) => enter_term(alloc, scope, term, variable),
        Some(With::OfType(ty)) => enter_type(scope, ty, variable),
        None => Ok(()),
    }
}

// Lets the next variable stand for the parameter that the rule brings, where it brings one.
#[tactic(auto, using(crate::proofs::BuildingDerivation::enters, crate::proofs::BuildingDerivation::enters_nothing, crate::proofs::BuildingHypotheses::take_whole))]
fn enter(
    alloc: Global,
    scope: &mut Vec<Bound>,
    name: RuleName,
    with: &Option<With>,
    variable: u32,
) -> Result<(), AllocError>
    ensures entered { OnOk result (scope_tree scope.new.items ≡ entered (name_of name) (option_map part_of with.now) variable (scope_tree scope.old.items)) }
    ensures kept { OnOk result (take (length scope.old.items) scope.new.items ≡ scope.old.items) }
{
    if brings_parameter(name) {
        enter_with(alloc, scope, with, variable)
    } else {
        Ok(())
    }
}

// Lets the variables from `first` on prove both formulas, the second one first, where there are two.
fn bind_turned<'a>(facts: &mut Facts<'a>, first: u32, forms: &'a [Form]) -> Result<u32, AllocError>
    ensures bound { (k : ℕ) → OnOk result (hypotheses_of facts.new.items ≡ bound_by first (derivation.turned (k + 1) (map form_tree forms.entry.now)) (hypotheses_of facts.old.items)) }
    ensures next { IfOk result (λ n. n ≡ length forms.entry.now + first) }
    ensures kept { OnOk result (take (length facts.old.items) facts.new.items ≡ facts.old.items) }
{
    match forms {
        [f, g] => bind_both(facts, first, g, f),
        [] | [_] | [_, _, _, ..] => bind_formulas(facts, first, forms),
    }
}

// Lets the variable prove the one formula, and the next one the other.
fn bind_both<'a>(
    facts: &mut Facts<'a>,
    first: u32,
    f: &'a Form,
    g: &'a Form,
) -> Result<u32, AllocError>
    ensures bound { OnOk result (hypotheses_of facts.new.items ≡ bound_by first (form_tree f.entry.now ∷ form_tree g.entry.now ∷ []) (hypotheses_of facts.old.items)) }
    ensures next { IfOk result (λ n. n ≡ 2 + first) }
    ensures kept { OnOk result (take (length facts.old.items) facts.new.items ≡ facts.old.items) }
{
    let second = next(first)?;
    let third = next(second)?;
    facts.push(Fact::Proved(f, Proof::Variable(first)))?;
    facts.push(Fact::Proved(g, Proof::Variable(second)))?;
    Ok(third)
}

// Lets the variables from `first` on prove what the child adds, and gives the number of the variable after them.
#[tactic(auto, using(crate::proofs::BuildingDerivation::turns, crate::proofs::BuildingDerivation::turns_not, crate::proofs::BuildingDerivation::turns_first))]
fn bind_child<'a>(
    facts: &mut Facts<'a>,
    first: u32,
    name: RuleName,
    child: usize,
    forms: &'a [Form],
) -> Result<u32, AllocError>
    ensures bound { OnOk result (hypotheses_of facts.new.items ≡ bound_by first (as_bound (name_of name) child (map form_tree forms.entry.now)) (hypotheses_of facts.old.items)) }
    ensures next { IfOk result (λ n. n ≡ length forms.entry.now + first) }
    ensures kept { OnOk result (take (length facts.old.items) facts.new.items ≡ facts.old.items) }
{
    if child > 0 && is_not_iff(name) {
        bind_turned(facts, first, forms)
    } else {
        bind_formulas(facts, first, forms)
    }
}

// A conversion: what proves the first formula proves the second one in the child.
#[derive(Clone, Copy)]
struct Conversion<'a> {
    first: &'a Form,
    second: &'a Form,
    child: &'a DTree,
}

// The conversion that the node is.
fn conversion_of<'a>(tree: &'a DTree) -> Option<Conversion<'a>>
    ensures { MatchOption result (derivation.IsPlain (tree_of tree.entry.now))
        (λ c. derivation.Converts (tree_of tree.entry.now) (form_tree c.first.now) (form_tree c.second.now) (tree_of c.child.now)) }
{
    let node = node_of(tree);
    if !is_conversion(node.name) {
        return None;
    }
    match (node.second, node.children) {
        (Some(second), [child, ..]) => Some(Conversion {
            first: node.first,
            second,
            child,
        }),
        (Some(_), []) | (None, _) => None,
    }
}

// The first node above that isn't a conversion, or the node itself; what it converts is added to the facts. A loop, since
// each formula that a derivation begins with may have a conversion, one above the other.
fn past_conversions<'a>(
    facts: &mut Facts<'a>,
    tree: &'a DTree,
    symbols: &[Symbol],
) -> Result<&'a DTree, AllocError>
    requires { derivation.IsPart (symbols_tree symbols.now) (tree_of tree.now) }
    ensures value { (d : ℕ) (s : translation.Scope) → IfOk result (λ t.
        plain_proof (symbols_tree symbols.now) d s (hypotheses_of facts.new.items) (tree_of t.now)
        ≡ plain_proof (symbols_tree symbols.now) d s (hypotheses_of facts.old.items) (tree_of tree.entry.now)) }
    ensures part { IfOk result (λ t. derivation.IsPart (symbols_tree symbols.now) (tree_of t.now)) }
    ensures plain { IfOk result (λ t. derivation.IsPlain (tree_of t.now)) }
    ensures depth { IfOk result (λ t. depth (tree_of t.now) ≤ depth (tree_of tree.entry.now)) }
    ensures kept { OnOk result (take (length facts.old.items) facts.new.items ≡ facts.old.items) }
{
    let mut tree = tree;
    while let Some(conversion) = conversion_of(tree) {
        facts.push(Fact::Converted(conversion.first, conversion.second))?;
        tree = conversion.child;
    }
    Ok(tree)
}

/// The term of a derivation that stands above hypotheses, the next variable having the number. It leaves the scope and the
/// facts as they were. The one error is want of memory, which stands for numbers of variables and of binders past the
/// bounds of terms too. It recurses once for each level of the derivation but those of conversions.
#[cycle(proof)]
pub fn proof_of<'a>(
    alloc: Global,
    symbols: &'a [Symbol],
    number: u32,
    scope: &mut Vec<Bound>,
    facts: &mut Facts<'a>,
    tree: &'a DTree,
) -> Result<Lp, AllocError>
    requires { derivation.IsPart (symbols_tree symbols.now) (tree_of tree.now) }
    ensures value { IfOk result (λ t. term_of t ≡ plain_proof (symbols_tree symbols.entry.now) number (scope_tree scope.old.items) (hypotheses_of facts.old.items) (tree_of tree.entry.now)) }
    ensures scope { OnOk result (scope.new.items ≡ scope.old.items) }
    ensures facts { OnOk result (facts.new.items ≡ facts.old.items) }
{
    let kept = facts.len();
    let tree = past_conversions(facts, tree, symbols)?;
    let made = term_of_node(alloc, symbols, number, scope, facts, tree)?;
    facts.truncate(kept);
    Ok(made)
}

// The term of a node that is no conversion.
#[cycle(proof)]
fn term_of_node<'a>(
    alloc: Global,
    symbols: &'a [Symbol],
    number: u32,
    scope: &mut Vec<Bound>,
    facts: &mut Facts<'a>,
    tree: &'a DTree,
) -> Result<Lp, AllocError>
    requires part { derivation.IsPart (symbols_tree symbols.now) (tree_of tree.now) }
    requires plain { derivation.IsPlain (tree_of tree.now) }
    ensures value { IfOk result (λ t. term_of t ≡ plain_proof (symbols_tree symbols.entry.now) number (scope_tree scope.old.items) (hypotheses_of facts.old.items) (tree_of tree.entry.now)) }
    ensures scope { OnOk result (scope.new.items ≡ scope.old.items) }
    ensures facts { OnOk result (facts.new.items ≡ facts.old.items) }
{
    let node = node_of(tree);
    let outer = scope.len();
    enter(alloc, scope, node.name, node.with, number)?;
    let children = terms_of_children(
        alloc,
        symbols,
        number,
        scope,
        facts,
        node.name,
        node.children,
    )?;
    let place = Place {
        symbols,
        scope: &scope.as_slice()[..outer],
        entered: scope.as_slice(),
        facts: facts.as_slice(),
        next: number,
    };
    let made = rule_term(alloc, &place, &node, children.as_slice())?;
    scope.truncate(outer);
    Ok(made)
}

// The terms of a node's children, the node's next variable having the number.
#[cycle(proof)]
fn terms_of_children<'a>(
    alloc: Global,
    symbols: &'a [Symbol],
    number: u32,
    scope: &mut Vec<Bound>,
    facts: &mut Facts<'a>,
    name: RuleName,
    trees: &'a [DTree],
) -> Result<Lps, AllocError>
    requires { derivation.ArePart (symbols_tree symbols.now) (trees_of trees.now) }
    ensures value { IfOk result (λ ts. terms_of ts ≡ derivation.plain_proofs (symbols_tree symbols.entry.now) (name_of name) 0 (binds_before (name_of name) + number) (scope_tree scope.old.items) (hypotheses_of facts.old.items) (trees_of trees.entry.now)) }
    ensures scope { OnOk result (scope.new.items ≡ scope.old.items) }
    ensures facts { OnOk result (facts.new.items ≡ facts.old.items) }
{
    let first = binds_before(name).checked_add(number).ok_or(AllocError)?;
    let mut terms = Items::new(alloc);
    for (child, tree) in trees.iter().enumerate() {
        let term = term_of_child(alloc, symbols, first, scope, facts, (name, child), tree)?;
        terms.push(term)?;
    }
    Ok(terms)
}

// The term of the child of this number, the first one being 0.
#[cycle(proof)]
fn term_of_child<'a>(
    alloc: Global,
    symbols: &'a [Symbol],
    number: u32,
    scope: &mut Vec<Bound>,
    facts: &mut Facts<'a>,
    place: (RuleName, usize),
    tree: &'a DTree,
) -> Result<Lp, AllocError>
    requires { derivation.IsPart (symbols_tree symbols.now) (tree_of tree.now) }
    ensures value { IfOk result (λ t. term_of t ≡ plain_proof (symbols_tree symbols.entry.now) (length (added (tree_of tree.entry.now)) + number) (scope_tree scope.old.items)
        (bound_by number (as_bound (name_of place.0) place.1 (added (tree_of tree.entry.now))) (hypotheses_of facts.old.items)) (tree_of tree.entry.now)) }
    ensures scope { OnOk result (scope.new.items ≡ scope.old.items) }
    ensures facts { OnOk result (facts.new.items ≡ facts.old.items) }
{
    let kept = facts.len();
    let next = bind_child(facts, number, place.0, place.1, node_of(tree).added)?;
    let made = proof_of(alloc, symbols, next, scope, facts, tree)?;
    facts.truncate(kept);
    Ok(made)
}
