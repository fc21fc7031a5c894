/// What kind of Step an offer is.
#[derive(Clone, Copy, Debug, PartialEq, Eq)]
pub enum Kind {
    /// A formula gives way to one list of formulas.
    Alpha,
    /// A formula gives way to two lists of formulas, each on a branch of its own.
    Beta,
    /// A quantified formula is opened with a parameter of its own.
    Delta,
    /// A quantified formula is opened with its metavariable.
    Gamma,
    /// A quantified formula is opened with what its metavariable is bound to.
    Instance,
    /// A step of equality.
    Equality,
}

/// One thing that may be done to a branch, as a chooser sees it.
#[derive(Clone, Copy, Debug, PartialEq, Eq)]
pub struct Offer {
    /// What kind of Step it is.
    pub kind: Kind,
    /// The number of children that the Step would have.
    pub children: usize,
    /// The sum of the sizes of all formulas of all children, or the greatest `u64` where it would pass that.
    pub size: u64,
    /// The place on the branch of the formula that gives the offer, and of the later one where two give it.
    pub later: usize,
    /// The place of the earlier one where two formulas give the offer.
    pub earlier: Option<usize>,
}
