use sqlite_items::Items;
use zm_logic::{Form, Term, Ty};

/// A rule of the sequent calculus. Those of quantifiers stand for quantifiers over terms and over types.
#[derive(Clone, Copy, Debug, PartialEq, Eq)]
pub enum RuleName {
    /// What is never true closes the branch.
    False,
    /// So does the negation of what is always true.
    NotTrue,
    /// A formula and its negation close the branch.
    Axiom,
    /// `~(a = a)` closes the branch.
    Refl,
    /// `a = b` and `~(b = a)` close the branch.
    Sym,
    /// `~~A` gives `A`.
    NotNot,
    /// `A & B` gives both.
    And,
    /// `~(A | B)` gives the negations of both.
    NotOr,
    /// `~(A => B)` gives `A` and `~B`.
    NotImp,
    /// `A | B` gives the one or the other.
    Or,
    /// `~(A & B)` gives the negation of the one or of the other.
    NotAnd,
    /// `A => B` gives `~A` or `B`.
    Imp,
    /// `A <=> B` gives both, or the negations of both.
    Iff,
    /// `~(A <=> B)` gives the one and the negation of the other, or the other way round.
    NotIff,
    /// A formula that holds for some term or type holds for a new parameter.
    Exists,
    /// A formula that doesn't hold for all terms or types doesn't hold for a new parameter.
    NotForall,
    /// A formula that holds for all terms or types holds for this one.
    Forall,
    /// A formula that holds for no term or type doesn't hold for this one.
    NotExists,
    /// Where a predicate holds at some arguments and not at others, some argument differs.
    EqPred,
    /// Where the values of a function differ, some argument differs.
    EqFun,
    /// `a = b` and `~(c = d)` give `~(c = a)` or `~(b = d)`.
    EqTransFirst,
    /// `a = b` and `~(c = d)` give `~(c = b)` or `~(a = d)`.
    EqTransSecond,
    /// A formula gives its normal form, which it isn't itself.
    Conversion,
}

/// What a quantifier's variable becomes.
#[derive(Drop)]
pub enum With {
    OfTerm(Term),
    OfType(Ty),
}

/// A list of formulas. Contracts see it as a list.
pub type Forms = Items<Form>;

/// A list of trees. Contracts see it as a list.
pub type DTrees = Items<DTree>;

/// A node of a derivation, with what stands above it. Its sequent is what it adds and the sequent below it; the sequent below
/// the root is empty.
#[derive(Drop)]
pub struct DTree {
    /// What the node's sequent has beyond the one below it.
    pub added: Forms,
    /// The rule.
    pub name: RuleName,
    /// The formula that the rule acts on.
    pub first: Form,
    /// The other one, where the rule acts on two, and the normal form at a conversion.
    pub second: Option<Form>,
    /// What a quantifier's variable becomes, at the rules of quantifiers.
    pub with: Option<With>,
    /// The trees of the upper sequents, in the rule's order.
    pub children: DTrees,
}

/// Lets a tree go, in a loop along the last child: a chain of nodes with one child each may be as long as the list of formulas
/// that a derivation begins with.
pub(crate) fn let_go(tree: DTree) {
    let mut tree = tree;
    loop {
        let DTree { mut children, .. } = tree;
        match children.pop() {
            Some(last) => tree = last,
            None => return,
        }
    }
}
