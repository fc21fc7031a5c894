use zm_logic::{Form, Side};

/// Why a search stops at an Open leaf.
#[derive(Drop)]
pub enum Why {
    /// All Steps are spent.
    Steps,
    /// There are 512 Steps on the branch.
    BranchLength,
    /// A formula has more rewrite steps to its normal form than may be taken.
    Rewrites { from: Form },
    /// Something would be deeper than 2,000.
    Deep { at: Side },
    /// The branch has no offer.
    Saturated,
}
