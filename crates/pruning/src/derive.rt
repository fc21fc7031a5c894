ghost use Rattle.std.specs.Prelude.{◌≡◌, [], map, IfOk};
ghost use Rattle.zm_logic.specs.View.{symbol_tree, rule_tree, problem_tree};
ghost use Rattle.param_store.specs.View.{forms_of, HasForms};
ghost use Rattle.rule_select.specs.View.{selection_tree};
ghost use Rattle.branch.specs.Branch.{extend};
ghost use Rattle.branch.specs.Ids.{node_ids, HasNode};
ghost use Rattle.branch.specs.Ids as ids;
ghost use Rattle.branch.specs.Path.{IsFinished};
ghost use Rattle.sequent_proof.specs.Tree as plain;
ghost use Rattle.sequent_proof.specs.View.{tree_of};
ghost use Rattle.pruning.specs.Trees.{derivation_tree, tableau_derivation};
ghost use Rattle.pruning.specs.Started.{IsStartedFrom, end_sequent, derivation};

use crate::convert::converted;
use crate::lists::add_all;
use crate::walk::walk;
use branch::{Closed, Node, Rooted, Tableau};
use rule_select::Selection;
use sequent_proof::{DTree, Derivation};
use std::alloc::{AllocError, Global};
use term_store::{FormId, FormIds, Store};
use zm_logic::{TypedProblem, copy_rules, copy_symbols};

/// The derivation that a closed tableau gives: a rule for each Step and each Closed leaf, in the tableau's order, with
/// conversions between. A Step with a child that uses none of the formulas that it adds is left out, and that child stands in
/// its place.
///
/// The condition is that the tableau was started from this problem and selection. The one error is want of memory.
pub fn derivation_of(
    alloc: Global,
    tableau: &Tableau<Closed>,
    problem: &TypedProblem,
    selection: &Selection,
) -> Result<Derivation, AllocError>
    requires started { IsStartedFrom (problem_tree problem.now) (selection_tree selection.now) tableau.now }
    ensures symbols { IfOk result (λ d. map symbol_tree d.symbols ≡ (problem_tree problem.now).symbols) }
    ensures rules { IfOk result (λ d. map rule_tree d.rules ≡ (selection_tree selection.now).rules) }
    ensures end_sequent { IfOk result (λ d. plain.added (tree_of d.tree) ≡ end_sequent (problem_tree problem.now) (selection_tree selection.now)) }
    ensures tree { IfOk result (λ d. tree_of d.tree ≡ derivation tableau.now) }
{
    tableau.kept();
    tableau.has_no_open_leaf();
    let tree = tree(alloc, tableau)?;
    with_tree(alloc, problem, selection, tree)
}

// The derivation of a tree, over the problem's symbols and modulo the selection's rules.
fn with_tree(
    alloc: Global,
    problem: &TypedProblem,
    selection: &Selection,
    tree: DTree,
) -> Result<Derivation, AllocError>
    requires { plain.IsKept (problem_tree problem.now).symbols (selection_tree selection.now).rules (tree_of tree) }
    ensures symbols { IfOk result (λ d. map symbol_tree d.symbols ≡ (problem_tree problem.now).symbols) }
    ensures rules { IfOk result (λ d. map rule_tree d.rules ≡ (selection_tree selection.now).rules) }
    ensures tree { IfOk result (λ d. d.tree ≡ tree) }
{
    let symbols = copy_symbols(alloc, &problem.problem().symbols)?;
    let rules = copy_rules(alloc, &selection.rules)?;
    Ok(Derivation::make(symbols, rules, tree))
}

// The tree of a tableau's derivation.
fn tree(alloc: Global, tableau: &Tableau<Closed>) -> Result<DTree, AllocError>
    ensures { IfOk result (λ t. tree_of t ≡ derivation tableau.now) }
{
    tableau.kept();
    tableau.has_no_open_leaf();
    let given = given(alloc, tableau.roots())?;
    let normal = normal(alloc, tableau.roots())?;
    root_tree(
        alloc,
        tableau.store(),
        given.as_slice(),
        normal.as_slice(),
        tableau.root(),
    )
}

// The formulas that a tableau began with.
fn given(alloc: Global, roots: &[Rooted]) -> Result<FormIds, AllocError>
    ensures { IfOk result (λ all. all ≡ map (λ r. r.given) roots.now) }
{
    let mut all = FormIds::new(alloc);
    for root in roots {
        all.push(root.given)?;
    }
    Ok(all)
}

// Their normal forms.
fn normal(alloc: Global, roots: &[Rooted]) -> Result<FormIds, AllocError>
    ensures { IfOk result (λ all. all ≡ map (λ r. r.normal) roots.now) }
{
    let mut all = FormIds::new(alloc);
    for root in roots {
        all.push(root.normal)?;
    }
    Ok(all)
}

// The tree of a root, below which the formulas that the tableau began with are converted to their normal forms.
fn root_tree(
    alloc: Global,
    store: &Store,
    given: &[FormId],
    normal: &[FormId],
    node: &Node,
) -> Result<DTree, AllocError>
    requires given { HasForms store.now given.now }
    requires normal { HasForms store.now normal.now }
    requires node { HasNode store.now (node_ids node.now) }
    requires finished { IsFinished (node_ids node.now) }
    ensures { IfOk result (λ t. tree_of t
        ≡ tableau_derivation (forms_of store.now given.now) (forms_of store.now normal.now) (ids.tree_of store.now (node_ids node.now))) }
{
    let tree = branch_tree(alloc, store, normal, node)?;
    converted(alloc, store, given, normal, tree)
}

// The tree of a root, which adds nothing yet.
fn branch_tree(
    alloc: Global,
    store: &Store,
    normal: &[FormId],
    node: &Node,
) -> Result<DTree, AllocError>
    requires normal { HasForms store.now normal.now }
    requires node { HasNode store.now (node_ids node.now) }
    requires finished { IsFinished (node_ids node.now) }
    ensures { IfOk result (λ t. tree_of t
        ≡ derivation_tree (extend [] (forms_of store.now normal.now)) [] (ids.tree_of store.now (node_ids node.now))) }
{
    let mut branch = FormIds::new(alloc);
    add_all(store, &mut branch, normal)?;
    let walked = walk(alloc, store, &mut branch, node)?;
    Ok(walked.tree)
}
