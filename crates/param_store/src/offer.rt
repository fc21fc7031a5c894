use sqlite_items::Items;
use term_store::{FormId, FormIds, Opening};

/// What an offer acts on.
#[derive(Clone, Copy, Debug, PartialEq, Eq)]
pub struct Act {
    /// The formula acted on: for an instance the quantified one, and for an equality step on a pair the unnegated one.
    pub first: FormId,
    /// The negated formula of such a pair.
    pub second: Option<FormId>,
    /// What a quantified formula is opened with.
    pub with: Option<Opening>,
    /// Whether this is the second of the two offers that `s = t` and `~(u = v)` give.
    pub other: bool,
}

/// A list of lists of formulas.
pub type FormLists = Items<FormIds>;

/// A Step that may be made, before its children's formulas are normalised.
#[derive(Drop)]
pub struct RawOffer {
    /// What it acts on.
    pub act: Act,
    /// The formulas of each child, in order.
    pub children: FormLists,
}

/// A list of raw offers. Contracts see it as a list.
pub type RawOffers = Items<RawOffer>;
