//! The file of a goal.

ghost use Rattle.std.specs.Prelude.{◌≡◌, ◌+◌, ◌<◌, ◌++◌, [], ◌∷◌, codes, length, map, IsTrue, IfOk, OnOk};
ghost use Rattle.lp_terms.specs.Measure.{binder_depth, limit};
ghost use Rattle.lp_terms.specs.Signature as signature;
ghost use Rattle.lp_terms.specs.View.{term_of, entry_of, entries_of};
ghost use Rattle.zm_logic.specs.View.{form_tree, symbol_tree, rule_tree, problem_tree};
ghost use Rattle.rule_select.specs.Selection.{IsSelection};
ghost use Rattle.rule_select.specs.View.{selection_tree};
ghost use Rattle.lp_signature.specs.Prelude as prelude;
ghost use Rattle.lp_signature.specs.ProofTerms as by;
ghost use Rattle.lp_signature.specs.Translation as translation;
ghost use Rattle.lp_signature.specs.View.{symbols_tree};
ghost use Rattle.sequent_proof.specs.Tree.{added};
ghost use Rattle.sequent_proof.specs.View.{tree_of};
ghost use Rattle.lp_translation.specs.Goal.{goal_sequent, goal_type, goal_body, goal_entries};
ghost use Rattle.lp_translation.specs.View.{hypotheses_of, plain_proof};
ghost use Rattle.lp_translation.specs.ViewDerivation.{IsPart};
ghost use Rattle.lp_translation.specs.ViewGoal.{by_forms, by_sequent};

use crate::derivation::proof_of;
use crate::hypotheses::{Fact, Facts, Proof};
use crate::node::node_of;
use lp_signature::{signature_of, translate_form};
use lp_terms::{DkFile, Entry, Lp, NUMBER_LIMIT, Text};
use proof_terms::parts::{both, by_contradiction, proofs};
use rule_select::Selection;
use sequent_proof::{DTree, Derivation};
use std::alloc::{AllocError, Global};
use zm_logic::{Form, Symbol, TypedProblem};

// Lets the kept premises' constants prove the formulas, in order.
fn add_premises<'a>(facts: &mut Facts<'a>, forms: &'a [Form]) -> Result<(), AllocError>
    ensures { OnOk result (hypotheses_of facts.new.items ≡ by_forms 0 (map form_tree forms.entry.now) (hypotheses_of facts.old.items)) }
{
    for (number, form) in forms.iter().enumerate() {
        facts.push(Fact::Proved(form, Proof::Premise(number)))?;
    }
    Ok(())
}

// Lets the kept premises' constants prove the formulas, in order, and the variable 0 the last one.
fn add_sequent<'a>(facts: &mut Facts<'a>, forms: &'a [Form]) -> Result<(), AllocError>
    ensures { OnOk result (hypotheses_of facts.new.items ≡ by_sequent (map form_tree forms.entry.now) (hypotheses_of facts.old.items)) }
{
    match forms {
        [premises @ .., last] => {
            add_premises(facts, premises)?;
            facts.push(Fact::Proved(last, Proof::Variable(0)))?;
            Ok(())
        }
        [] => Ok(()),
    }
}

// The term of the derivation of a goal's sequent.
fn refutation(alloc: Global, symbols: &[Symbol], tree: &DTree) -> Result<Lp, AllocError>
    requires { IsPart (symbols_tree symbols.now) (tree_of tree.now) }
    ensures { IfOk result (λ t. term_of t ≡
        plain_proof (symbols_tree symbols.now) 1 translation.Scope.none (by_sequent (added (tree_of tree.now)) (hypotheses_of [])) (tree_of tree.now)) }
{
    let mut facts = Vec::new(alloc);
    add_sequent(&mut facts, node_of(tree).added)?;
    let mut scope = Vec::new(alloc);
    proof_of(alloc, symbols, 1, &mut scope, &mut facts, tree)
}

// Whether fewer binders than the limit stand round each place under so many binders.
#[cycle(is_shallow)]
fn is_shallow(term: &Lp, binders: u32) -> bool
    ensures { IsTrue result → binders + binder_depth (term_of term.now) < limit }
{
    match term {
        Lp::Sort | Lp::Const(_) | Lp::Index(_) | Lp::Free(_) => binders < NUMBER_LIMIT,
        Lp::App(f, a) => is_shallow(f.get(), binders) && is_shallow(a.get(), binders),
        Lp::Abs(a, b) | Lp::Prod(a, b) => {
            binders < NUMBER_LIMIT
                && is_shallow(a.get(), binders)
                && is_shallow(b.get(), binders + 1)
        }
    }
}

// The goal's type, and its proof from the refutation.
fn goal_terms(alloc: Global, conjecture: &Lp, refutation: &Lp) -> Result<(Lp, Lp), AllocError>
    ensures ty { IfOk result (λ p. term_of p.0 ≡ prelude.prf (term_of conjecture.now)) }
    ensures body { IfOk result (λ p. term_of p.1 ≡ by.nn 0 (term_of conjecture.now) (term_of refutation.now)) }
{
    let body = by_contradiction(alloc, Some(0), conjecture, refutation);
    both(proofs(alloc, conjecture), body)
}

// The goal, with its proof from the refutation.
fn goal_entry(alloc: Global, conjecture: &Lp, refutation: &Lp) -> Result<Entry, AllocError>
    ensures value { IfOk result (λ e. entry_of e ≡
        signature.Entry.define (codes "goal") (prelude.prf (term_of conjecture.now)) (by.nn 0 (term_of conjecture.now) (term_of refutation.now))) }
    ensures bounded { OnOk result ((binder_depth (prelude.prf (term_of conjecture.now)) < limit)
        × (binder_depth (by.nn 0 (term_of conjecture.now) (term_of refutation.now)) < limit)) }
{
    let (ty, body) = goal_terms(alloc, conjecture, refutation)?;
    if !is_shallow(&ty, 0) || !is_shallow(&body, 0) {
        return Err(AllocError);
    }
    let name = Text::of(alloc, "goal")?;
    Ok(Entry::Define { name, ty, body })
}

/// The file of a goal: the signature of the problem and the selection, and the goal, whose body is the term of the derivation.
/// The derivation is one of the selection's kept premises and the negated conjecture, over the problem's symbols and modulo the
/// selection's rules. The one error is want of memory, which stands for more than 4,294,967,294 binders round one place too.
pub fn goal_of(
    alloc: Global,
    derivation: &Derivation,
    problem: &TypedProblem,
    selection: &Selection,
) -> Result<DkFile, AllocError>
    requires symbols { map symbol_tree derivation.now.symbols ≡ map symbol_tree problem.now.symbols }
    requires rules { map rule_tree derivation.now.rules ≡ map rule_tree selection.now.rules }
    requires sequent { added (tree_of derivation.now.tree) ≡ goal_sequent (problem_tree problem.now) (selection_tree selection.now) }
    requires selection { IsSelection (problem_tree problem.now) (selection_tree selection.now) }
    ensures { IfOk result (λ f. entries_of f ≡ goal_entries (problem_tree problem.now) (selection_tree selection.now) (tree_of derivation.now.tree)) }
{
    lp_signature::laws::goal_name_is_new();
    crate::laws::goal_files_are_well_formed();
    let mut entries = signature_of(alloc, problem, selection)?;
    let problem = problem.problem();
    let symbols = problem.symbols.as_slice();
    let refuted = refutation(alloc, symbols, derivation.tree())?;
    let conjecture = translate_form(alloc, symbols, &[], &problem.conjecture)?;
    let goal = goal_entry(alloc, &conjecture, &refuted)?;
    entries.push(goal)?;
    Ok(DkFile::make(entries))
}
