//! What the definitions of branches and tableaux promise. Each function does nothing: its contract is the law.

ghost use Rattle.branch.specs.Laws.{FactsHoldAtTheCurrentLeaf};
ghost use Rattle.branch.specs.Laws.{RawOffersAreByRule, SignaturesAloneAreSound, RootsAreGiven};
ghost use Rattle.branch.specs.Laws.{FactsHoldOnEachBranch, DeltaNumbersAreFresh, ClosedTableauxGiveDerivations};
ghost use Rattle.branch.specs.Laws.{ClosedTableauxProveProblems, OffersAreDetermined, PicksDetermineTheTree};
ghost use Rattle.branch.specs.Laws.{CausesAreDetermined, OpenTableauxHaveACurrentLeaf, StepsAreLawful};
ghost use Rattle.branch.specs.Laws.{LeavesMayBeReplaced, ReplacedLeavesAreCurrent, UnprunedTableauxHaveNoSkipped};
ghost use Rattle.branch.specs.Laws.{QuantifierFreeBranchesSplit, QuantifierFreeOffersAreSplits};
ghost use Rattle.branch.specs.Laws.{ShallowSplitsAreOffers, ShallowSplitsHaveNoFault};
ghost use Rattle.branch.specs.Laws.{TableauxStayQuantifierFree, RootsAreQuantifierFree};
ghost use Rattle.branch.specs.Worked.{InstanceOverTerms, InstanceOverTypes, EqualArguments, SkippedSibling};
ghost use Rattle.branch.specs.Worked.{NormalInOneStep, SpentAtTheLimit};

/// Each raw offer of a branch is one by the rules of offers.
#[tactic(auto, using(crate::proofs::Lawful::raw_offers_are_by_rule))]
pub fn raw_offers_are_by_rule()
    ensures { RawOffersAreByRule }
{}

/// Without rules, what the theorems ask of symbols and rules is that the signature is well formed.
#[tactic(auto, using(crate::proofs::Lawful::signatures_alone_are_sound))]
pub fn signatures_alone_are_sound()
    ensures { SignaturesAloneAreSound }
{}

/// Where the given formulas are well typed and without parameters, those of the root's branch are.
pub fn roots_are_given()
    ensures { RootsAreGiven }
{}

/// On each branch of a tableau every formula is well typed, every parameter has the Step above that introduced it, and
/// every quantified formula has a number.
#[tactic(auto, using(crate::proofs::Lawful::facts_hold_on_each_branch))]
pub fn facts_hold_on_each_branch()
    ensures { FactsHoldOnEachBranch }
{}

/// So it is on the branch of the current leaf.
pub fn facts_hold_at_the_current_leaf()
    ensures { FactsHoldAtTheCurrentLeaf }
{}

/// The number of a delta offer doesn't occur on its branch.
pub fn delta_numbers_are_fresh()
    ensures { DeltaNumbersAreFresh }
{}

/// A tableau without an Open leaf gives a derivation of the given formulas in the sequent calculus modulo the rules,
/// pruned or not.
pub fn closed_tableaux_give_derivations()
    ensures { ClosedTableauxGiveDerivations }
{}

/// Without rules, a tableau without an Open leaf gives a derivation of a typed problem's premises and negated conjecture.
pub fn closed_tableaux_prove_problems()
    ensures { ClosedTableauxProveProblems }
{}

/// A branch has one list of offers.
pub fn offers_are_determined()
    ensures { OffersAreDetermined }
{}

/// Two tableaux with the same picks, whose current branches aren't closed, are one.
#[tactic(auto, using(crate::proofs::Lawful::picks_determine_the_tree))]
pub fn picks_determine_the_tree()
    ensures { PicksDetermineTheTree }
{}

/// A tree stops for one cause.
pub fn causes_are_determined()
    ensures { CausesAreDetermined }
{}

/// Some leaf is Open exactly where there is a current leaf.
pub fn open_tableaux_have_a_current_leaf()
    ensures { OpenTableauxHaveACurrentLeaf }
{}

/// A Step with Open children that takes an offer of an unclosed branch is lawful.
pub fn steps_are_lawful()
    ensures { StepsAreLawful }
{}

/// A lawful node in the place of the current leaf leaves a tableau. Its picks stand behind the tree's, and its Steps are
/// added.
pub fn leaves_may_be_replaced()
    ensures { LeavesMayBeReplaced }
{}

/// Where that node has an Open leaf, its first one is the current leaf then.
#[tactic(auto, using(crate::proofs::Lawful::replaced_leaves_are_current))]
pub fn replaced_leaves_are_current()
    ensures { ReplacedLeavesAreCurrent }
{}

/// Where tableaux aren't pruned, no node is Skipped.
#[tactic(auto, using(crate::proofs::Unpruned::unpruned))]
pub fn unpruned_tableaux_have_no_skipped()
    ensures { UnprunedTableauxHaveNoSkipped }
{}

/// A branch without quantifiers, equality and parameters has its alpha and beta formulas as raw offers, and no others.
pub fn quantifier_free_branches_split()
    ensures { QuantifierFreeBranchesSplit }
{}

/// Without rules the offers of such a branch are its useful alpha and beta formulas.
pub fn quantifier_free_offers_are_splits()
    ensures { QuantifierFreeOffersAreSplits }
{}

/// It has these offers where none of its formulas is deeper than 2,000.
pub fn shallow_splits_are_offers()
    ensures { ShallowSplitsAreOffers }
{}

/// Each of its raw offers can be made then, without rules.
pub fn shallow_splits_have_no_fault()
    ensures { ShallowSplitsHaveNoFault }
{}

/// Without rules each branch of a tableau is without quantifiers, equality and parameters, and none of its formulas is
/// deeper than 2,000, if that is so of the root's.
pub fn tableaux_stay_quantifier_free()
    ensures { TableauxStayQuantifierFree }
{}

/// It is so of the root's for a typed problem without quantifiers and equality.
pub fn roots_are_quantifier_free()
    ensures { RootsAreQuantifierFree }
{}

/// `? [X] : p(X)` and `! [X] : ~p(X)` are refuted by `p(e0)`, `~p(m1)` and the instance `~p(e0)`.
pub fn instance_over_terms()
    ensures { InstanceOverTerms }
{}

/// `! [A: $tType] : q(A)` and `~q($i)` are refuted by `q(A0)` and the instance `q($i)`.
pub fn instance_over_types()
    ensures { InstanceOverTypes }
{}

/// `p(a)`, `a = b` and `~p(b)` are refuted by `~(a = b)`.
#[tactic(auto, using(crate::proofs::Worked::equal_arguments))]
pub fn equal_arguments()
    ensures { EqualArguments }
{}

/// From `r | t` and `u & ~u` the branch of `r` is closed without `r`, and that of `t` is skipped.
pub fn skipped_sibling()
    ensures { SkippedSibling }
{}

/// By `p --> q`, and one step at the most, `~p` has the normal form `~q`.
pub fn normal_in_one_step()
    ensures { NormalInOneStep }
{}

/// With no step allowed, `~p` has none, and `~p` is named.
pub fn spent_at_the_limit()
    ensures { SpentAtTheLimit }
{}
