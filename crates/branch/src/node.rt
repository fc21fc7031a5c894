use choosers::Kind;
use param_store::Act;
use term_store::{FormId, FormIds};

/// What closes a branch: one formula, or an unnegated formula and a negated one.
#[derive(Clone, Copy, Debug, PartialEq, Eq)]
pub struct ClosingPair {
    /// The one formula, or the unnegated one.
    pub first: FormId,
    /// The negated formula, where two close the branch.
    pub second: Option<FormId>,
    /// Whether the two are `s = t` and `~(t = s)`.
    pub swapped: bool,
}

/// A node of a tableau.
#[derive(Drop)]
#[cycle(node)]
pub enum Node {
    /// A Step: the offer at place `pick` of the branch's offers, with its children.
    Step {
        pick: usize,
        kind: Kind,
        act: Act,
        children: Vec<Child>,
    },
    /// A leaf whose branch is closed.
    Closed(ClosingPair),
    /// A leaf whose branch isn't closed, or isn't entered yet.
    Open,
    /// A leaf that needs no closing.
    Skipped,
}

/// A child of a Step.
#[derive(Drop)]
#[cycle(node)]
pub struct Child {
    /// The formulas that it brings, before normalising.
    pub raw: FormIds,
    /// Their normal forms, in the same order.
    pub normal: FormIds,
    /// What stands there.
    pub node: Node,
}
