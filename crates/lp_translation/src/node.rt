//! The nodes of a derivation.

ghost use Rattle.std.specs.Prelude.{◌≡◌};
ghost use Rattle.sequent_proof.specs.View.{tree_of};
ghost use Rattle.lp_translation.specs.ViewNode.{node_tree};

use sequent_proof::{DTree, RuleName, With};
use zm_logic::Form;

/// The node at the root of a tree.
#[derive(Clone, Copy)]
pub struct Node<'a> {
    /// What it adds to the sequent below it.
    pub added: &'a [Form],
    /// The rule.
    pub name: RuleName,
    /// The formula that the rule acts on.
    pub first: &'a Form,
    /// The other one, where the rule acts on two.
    pub second: &'a Option<Form>,
    /// What a quantifier's variable becomes.
    pub with: &'a Option<With>,
    /// The trees of the upper sequents.
    pub children: &'a [DTree],
}

/// The node at the root.
pub fn node_of<'a>(tree: &'a DTree) -> Node<'a>
    ensures { node_tree result ≡ tree_of tree.entry.now }
{
    Node {
        added: tree.added.as_slice(),
        name: tree.name,
        first: &tree.first,
        second: &tree.second,
        with: &tree.with,
        children: tree.children.as_slice(),
    }
}
