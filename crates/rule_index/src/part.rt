use sqlite_items::Items;
use zm_logic::{Term, Ty};

/// What a binder of a rule stands for.
#[derive(Drop)]
pub enum Part {
    OfType(Ty),
    OfTerm(Term),
}

/// What the binders of a rule stand for, the outermost first. Contracts see a list.
pub type Parts = Items<Part>;
