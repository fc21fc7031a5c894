ghost use Rattle.std.specs.Prelude.{◌≡◌, ℕ, List, [], ◌∷◌, ◌++◌, map, OnOk, IfOk};
ghost use Rattle.std.specs.Option.{option_to_list};
ghost use Rattle.zm_logic.specs.Tree as logic;
ghost use Rattle.term_store.specs.Trees.{Tables};
ghost use Rattle.term_store.specs.declared.ids.FormId.{FormId};
ghost use Rattle.choosers.specs.declared.offer.Kind.{Kind};
ghost use Rattle.param_store.specs.View.{act_of, forms_of, HasForms, HasAct};
ghost use Rattle.branch.specs.Ids as ids;
ghost use Rattle.branch.specs.Ids.{node_ids, child_ids, children_of, closing_of, HasNode, HasNodes, HasClosing};
ghost use Rattle.branch.specs.Path.{IsFinished, AreFinished};
ghost use Rattle.branch.specs.Tableau as spec;
ghost use Rattle.sequent_proof.specs.View.{tree_of, trees_of};
ghost use Rattle.pruning.specs.Walked.{IsWalked, IsChild, IsEntered, IsAdded, IsTaken, AreUsed, AreWalked, step_node, leaf_node, with_added, conversions};

use crate::convert::{Acted, acted_on, converted, rule};
use crate::lists::{add_all, keep_first};
use crate::rules::{closing_rule, rule_on};
use crate::uses::{acted, is_apart, without};
use branch::{Child, ClosingPair, Node};
use param_store::Act;
use sequent_proof::{DTree, DTrees, RuleName};
use std::alloc::{AllocError, Global};
use term_store::{FormId, FormIds, Store};
use zm_logic::Form;

/// A node's derivation, which adds nothing yet, and the formulas that the node uses.
#[derive(Drop)]
pub(crate) struct Walked {
    pub(crate) tree: DTree,
    pub(crate) uses: FormIds,
}

/// A child as it was walked, with its new formulas.
#[derive(Drop)]
pub(crate) struct Entered {
    pub(crate) walked: Walked,
    pub(crate) fresh: FormIds,
}

/// The derivations of a Step's children, and the formulas that they use beyond their new ones.
#[derive(Drop)]
pub(crate) struct Used {
    pub(crate) trees: DTrees,
    pub(crate) uses: FormIds,
}

/// What stands below a Step.
#[derive(Drop)]
pub(crate) enum Below {
    /// The first idle child.
    Idle(Walked),
    /// All children, none of which is idle.
    Used(Used),
}

/// Walks a node on a branch: one walk for the derivation and for the uses. No leaf of the node is Open. After want of memory the
/// branch may be longer.
#[cycle(walk)]
pub(crate) fn walk(
    alloc: Global,
    store: &Store,
    branch: &mut FormIds,
    node: &Node,
) -> Result<Walked, AllocError>
    requires branch { HasForms store.now branch.old }
    requires node { HasNode store.now (node_ids node.now) }
    requires finished { IsFinished (node_ids node.now) }
    ensures walked { IfOk result (IsWalked store.now branch.old (node_ids node.now)) }
    ensures branch { OnOk result (branch.new ≡ branch.old) }
{
    match node {
        Node::Step { act, children, .. } => {
            let below = walk_children(alloc, store, branch, children.as_slice())?;
            step(alloc, store, *act, below)
        }
        Node::Closed(pair) => leaf(alloc, store, *pair),
        Node::Open | Node::Skipped => Ok(nothing(alloc)),
    }
}

// The children of a Step, up to the first idle one.
#[cycle(walk)]
fn walk_children(
    alloc: Global,
    store: &Store,
    branch: &mut FormIds,
    children: &[Child],
) -> Result<Below, AllocError>
    requires branch { HasForms store.now branch.old }
    requires children { HasNodes store.now (children_of (map child_ids children.now)) }
    requires finished { AreFinished (children_of (map child_ids children.now)) }
    ensures walked { IfOk result (AreWalked store.now branch.old (map child_ids children.now)) }
    ensures branch { OnOk result (branch.new ≡ branch.old) }
{
    let mut used = Used {
        trees: DTrees::new(alloc),
        uses: FormIds::new(alloc),
    };
    for child in children {
        let taken = walk_child(alloc, store, branch, child, &mut used)?;
        match taken {
            Some(idle) => return Ok(Below::Idle(idle)),
            None => {}
        }
    }
    Ok(Below::Used(used))
}

// A child: it is answered where it is idle, and else added to what stands below the Step.
#[cycle(walk)]
fn walk_child(
    alloc: Global,
    store: &Store,
    branch: &mut FormIds,
    child: &Child,
    used: &mut Used,
) -> Result<Option<Walked>, AllocError>
    requires branch { HasForms store.now branch.old }
    requires raw { HasForms store.now (child_ids child.now).raw }
    requires normal { HasForms store.now (child_ids child.now).normal }
    requires node { HasNode store.now (child_ids child.now).node }
    requires finished { IsFinished (child_ids child.now).node }
    ensures taken { IfOk result (IsTaken store.now branch.old (child_ids child.now) used.old used.new) }
    ensures branch { OnOk result (branch.new ≡ branch.old) }
{
    let entered = enter(alloc, store, branch, child)?;
    if is_idle(
        store,
        &child.node,
        entered.fresh.as_slice(),
        entered.walked.uses.as_slice(),
    ) {
        return Ok(Some(entered.walked));
    }
    add_used(alloc, store, child, entered, used)?;
    Ok(None)
}

// A child's node on the child's branch, with the child's new formulas.
#[cycle(walk)]
fn enter(
    alloc: Global,
    store: &Store,
    branch: &mut FormIds,
    child: &Child,
) -> Result<Entered, AllocError>
    requires branch { HasForms store.now branch.old }
    requires normal { HasForms store.now (child_ids child.now).normal }
    requires node { HasNode store.now (child_ids child.now).node }
    requires finished { IsFinished (child_ids child.now).node }
    ensures entered { IfOk result (IsEntered store.now branch.old (child_ids child.now)) }
    ensures branch { OnOk result (branch.new ≡ branch.old) }
{
    let fresh = without(alloc, store, branch.as_slice(), child.normal.as_slice())?;
    let walked = walk_below(alloc, store, branch, child)?;
    Ok(Entered { walked, fresh })
}

// A child's node on the child's branch.
#[cycle(walk)]
fn walk_below(
    alloc: Global,
    store: &Store,
    branch: &mut FormIds,
    child: &Child,
) -> Result<Walked, AllocError>
    requires branch { HasForms store.now branch.old }
    requires normal { HasForms store.now (child_ids child.now).normal }
    requires node { HasNode store.now (child_ids child.now).node }
    requires finished { IsFinished (child_ids child.now).node }
    ensures walked { IfOk result (IsChild store.now branch.old (child_ids child.now)) }
    ensures branch { OnOk result (branch.new ≡ branch.old) }
{
    let length = branch.len();
    add_all(store, branch, child.normal.as_slice())?;
    let walked = walk(alloc, store, branch, &child.node)?;
    keep_first(branch, length);
    Ok(walked)
}

// Whether a child without Open leaves is idle.
fn is_idle(store: &Store, node: &Node, fresh: &[FormId], uses: &[FormId]) -> bool
    requires fresh { HasForms store.now fresh.now }
    requires uses { HasForms store.now uses.now }
    ensures { IsFinished (node_ids node.now) → (b f : List logic.Form) → forms_of store.now fresh.now ≡ spec.fresh b f
        → result ≡ spec.is_idle b f (ids.tree_of store.now (node_ids node.now)) (forms_of store.now uses.now) }
{
    match node {
        Node::Skipped => false,
        Node::Step { .. } | Node::Closed(_) | Node::Open => is_apart(store, fresh, uses),
    }
}

// Adds a child that isn't idle to what stands below its Step.
fn add_used(
    alloc: Global,
    store: &Store,
    child: &Child,
    entered: Entered,
    used: &mut Used,
) -> Result<(), AllocError>
    requires raw { HasForms store.now (child_ids child.now).raw }
    requires normal { HasForms store.now (child_ids child.now).normal }
    requires fresh { HasForms store.now entered.fresh }
    requires uses { HasForms store.now entered.walked.uses }
    ensures { OnOk result ((b : List FormId) → IsEntered store.now b (child_ids child.now) entered → IsAdded store.now b (child_ids child.now) used.old used.new) }
{
    let Entered { walked, fresh } = entered;
    let Walked { tree, uses } = walked;
    let more = without(alloc, store, fresh.as_slice(), uses.as_slice())?;
    used.uses.append(more)?;
    let tree = child_tree(alloc, store, child, tree)?;
    used.trees.push(tree)?;
    Ok(())
}

// A child's tree, which adds its formulas before normalising.
fn child_tree(alloc: Global, store: &Store, child: &Child, tree: DTree) -> Result<DTree, AllocError>
    requires raw { HasForms store.now (child_ids child.now).raw }
    requires normal { HasForms store.now (child_ids child.now).normal }
    ensures { IfOk result (λ t. tree_of t ≡ with_added (forms_of store.now (child_ids child.now).raw)
        (conversions (forms_of store.now (child_ids child.now).raw) (forms_of store.now (child_ids child.now).normal) (tree_of tree))) }
{
    converted(
        alloc,
        store,
        child.raw.as_slice(),
        child.normal.as_slice(),
        tree,
    )
}

// A Step: an idle child stands for it, and else it is a rule.
fn step(alloc: Global, store: &Store, act: Act, below: Below) -> Result<Walked, AllocError>
    requires act { HasAct store.now act }
    ensures { IfOk result (λ w. (pick : ℕ) (kind : Kind) (b : List FormId) (cs : List ids.Child) → AreWalked store.now b cs below
        → IsWalked store.now b (ids.Node.step pick kind act (children_of cs)) w) }
{
    match below {
        Below::Idle(walked) => Ok(walked),
        Below::Used(used) => used_step(alloc, store, act, used),
    }
}

// A Step without an idle child.
fn used_step(alloc: Global, store: &Store, act: Act, used: Used) -> Result<Walked, AllocError>
    requires act { HasAct store.now act }
    ensures { IfOk result (λ w. (pick : ℕ) (kind : Kind) (b : List FormId) (cs : List ids.Child) → AreUsed store.now b cs used
        → IsWalked store.now b (ids.Node.step pick kind act (children_of cs)) w) }
{
    let Used { trees, uses } = used;
    let tree = step_tree(alloc, store, act, trees)?;
    let uses = step_uses(alloc, act, uses)?;
    Ok(Walked { tree, uses })
}

// The rule of a Step, with the trees of its children.
fn step_tree(alloc: Global, store: &Store, act: Act, trees: DTrees) -> Result<DTree, AllocError>
    requires { HasAct store.now act }
    ensures { IfOk result (λ t. tree_of t ≡ step_node (act_of store.now act) (trees_of trees)) }
{
    let acted = acted_on(store, act.first, act.second, act.with)?;
    let name = rule_on(act.other, &acted.first);
    Ok(rule(alloc, name, acted, trees))
}

// What a Step uses: what it acts on, and what its children use.
fn step_uses(alloc: Global, act: Act, below: FormIds) -> Result<FormIds, AllocError>
    ensures { IfOk result (λ all. all ≡ act.first ∷ option_to_list act.second ++ below) }
{
    let mut all = acted(alloc, act.first, act.second)?;
    all.append(below)?;
    Ok(all)
}

// A Closed leaf.
fn leaf(alloc: Global, store: &Store, pair: ClosingPair) -> Result<Walked, AllocError>
    requires { HasClosing store.now pair }
    ensures { IfOk result (λ w. (b : List FormId) → IsWalked store.now b (ids.Node.closed pair) w) }
{
    let tree = leaf_tree(alloc, store, pair)?;
    let uses = acted(alloc, pair.first, pair.second)?;
    Ok(Walked { tree, uses })
}

// The rule of a Closed leaf.
fn leaf_tree(alloc: Global, store: &Store, pair: ClosingPair) -> Result<DTree, AllocError>
    requires { HasClosing store.now pair }
    ensures { IfOk result (λ t. tree_of t ≡ leaf_node (closing_of store.now pair)) }
{
    let acted = acted_on(store, pair.first, pair.second, None)?;
    let name = closing_rule(&acted.first, &acted.second, pair.swapped);
    Ok(rule(alloc, name, acted, DTrees::new(alloc)))
}

// A leaf that no derivation has.
fn nothing(alloc: Global) -> Walked
    ensures { (s : Tables) (b : List FormId) → IsWalked s b ids.Node.opened result × IsWalked s b ids.Node.skipped result }
{
    let acted = Acted {
        first: Form::False,
        second: None,
        with: None,
    };
    Walked {
        tree: rule(alloc, RuleName::False, acted, DTrees::new(alloc)),
        uses: FormIds::new(alloc),
    }
}
