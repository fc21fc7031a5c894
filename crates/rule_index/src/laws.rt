//! What matching promises. Each function does nothing: its contract is the law.

ghost use Rattle.rule_index.specs.Laws.{MatchingFindsTheParts};
ghost use Rattle.rule_index.specs.Laws.{PartsAreDetermined};
ghost use Rattle.rule_index.specs.Laws.{FirstMatchIsTheLeast};
ghost use Rattle.rule_index.specs.Laws.{NoMatchWhereNoneFits};
ghost use Rattle.rule_index.specs.Laws.{MatchesAreInstances};
ghost use Rattle.rule_index.specs.Laws.{MatchingRewrites};
ghost use Rattle.rule_index.specs.Laws.{FirstMatchRewrites};
ghost use Rattle.rule_index.specs.Laws.{SelectedRulesAreUsable};

/// Matching finds the parts at which a left side is a given one, and finds some wherever there are some.
#[tactic(auto, using(crate::proofs::Promises::matching_finds_the_parts))]
pub fn matching_finds_the_parts()
    ensures { MatchingFindsTheParts }
{}

/// A left side is a given one at one list of parts at most.
#[tactic(auto, using(crate::proofs::Promises::one_list_of_parts))]
pub fn parts_are_determined()
    ensures { PartsAreDetermined }
{}

/// The first match is that of the least rule that fits.
#[tactic(auto, using(crate::proofs::Promises::first_match_is_the_least))]
pub fn first_match_is_the_least()
    ensures { FirstMatchIsTheLeast }
{}

/// There is no match exactly where no rule fits.
#[tactic(auto, using(crate::proofs::Promises::no_match_where_none_fits))]
pub fn no_match_where_none_fits()
    ensures { NoMatchWhereNoneFits }
{}

/// Without loose indices, what a left side matches is its instance at parts that fit the binders.
#[tactic(auto, using(crate::proofs::Promises::matches_are_instances))]
pub fn matches_are_instances()
    ensures { MatchesAreInstances }
{}

/// A rule makes of what it matches what rewriting by it makes.
#[tactic(auto, using(crate::proofs::Promises::matching_rewrites))]
pub fn matching_rewrites()
    ensures { MatchingRewrites }
{}

/// The first rule that fits makes what the first rule with this redex makes.
#[tactic(auto, using(crate::proofs::Promises::first_match_rewrites))]
pub fn first_match_rewrites()
    ensures { FirstMatchRewrites }
{}

/// The rules of a selection of a typed problem are usable.
#[tactic(auto, using(crate::proofs::Promises::selected_rules_are_usable))]
pub fn selected_rules_are_usable()
    ensures { SelectedRulesAreUsable }
{}
