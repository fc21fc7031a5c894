ghost use Rattle.std.specs.Prelude.{◌≡◌, IfOk};
ghost use Rattle.zm_logic.specs.View.{problem_tree};
ghost use Rattle.rule_select.specs.Selection.{KeepsAll, kept_numbers};
ghost use Rattle.rule_select.specs.View.{selection_tree};

use sqlite_items::Items;
use std::alloc::{AllocError, Global};
use zm_logic::{Rules, TypedProblem};

/// For each premise of a problem, in order, the number of its rule, counted from 0, or None where the premise is kept.
/// Contracts see a list.
pub type RuleOf = Items<Option<usize>>;

/// The premises of a problem, sorted into rules and those that are kept.
#[derive(Drop)]
pub struct Selection {
    /// The rules, in the order of their premises.
    pub rules: Rules,
    /// Which premise is which rule.
    pub rule_of: RuleOf,
}

impl Selection {
    /// The numbers of the kept premises, counted from 0, in order.
    #[tactic(auto, using(crate::proofs::Numbers::kept_more, crate::proofs::Numbers::numbered_more))]
    pub fn kept(&self, alloc: Global) -> Result<Vec<usize>, AllocError>
        ensures { IfOk result (λ numbers. numbers.items ≡ kept_numbers (selection_tree self.now)) }
    {
        let mut numbers = Vec::new(alloc);
        for (number, rule) in self.rule_of.as_slice().iter().enumerate() {
            match rule {
                None => numbers.push(number)?,
                Some(_) => {}
            }
        }
        Ok(numbers)
    }
}

/// The selection that keeps every premise of the problem, so that it has no rule.
#[tactic(auto, using(crate::proofs::Numbers::none_more))]
pub fn keep_all(alloc: Global, problem: &TypedProblem) -> Result<Selection, AllocError>
    ensures { IfOk result (λ s. KeepsAll (problem_tree problem.now) (selection_tree s)) }
{
    let mut rule_of = RuleOf::new(alloc);
    for _premise in problem.problem().premises.as_slice() {
        rule_of.push(None)?;
    }
    Ok(Selection {
        rules: Rules::new(alloc),
        rule_of,
    })
}
