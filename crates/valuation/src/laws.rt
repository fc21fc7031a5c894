//! What the definition of a branch's valuation promises. Each function does nothing: its contract is the law.

ghost use Rattle.valuation.specs.Laws.{ProblemsHaveValuations, SaturatedTableauxFalsify};

/// Whatever the branch, the valuation lists distinct ground atoms.
pub fn problems_have_valuations()
    ensures { ProblemsHaveValuations }
{}

/// Without rules, the current branch of a saturated tableau makes every premise true and the conjecture false.
pub fn saturated_tableaux_falsify()
    ensures { SaturatedTableauxFalsify }
{}
