use crate::tree::{Form, Term, Ty};
use sqlite_items::Items;

/// A binder of a rule.
#[derive(Drop)]
pub enum Binder {
    /// Of a type.
    OfType,
    /// Of a term of this type.
    OfTerm(Ty),
}

/// The binders of a rule, the outermost first. Contracts see a list.
pub type Binders = Items<Binder>;

/// A side of a rule.
#[derive(Drop)]
pub enum Side {
    OfTerm(Term),
    OfForm(Form),
}

/// A rewrite rule: under its binders, its left side becomes its right side.
#[derive(Drop)]
pub struct Rule {
    pub binders: Binders,
    pub left: Side,
    pub right: Side,
}

/// A list of rules, in order. Contracts see it as a list.
pub type Rules = Items<Rule>;
