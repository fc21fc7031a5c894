use crate::text::Text;
use sqlite_items::{Boxed, Items};

/// A list of texts. Contracts see it as a list.
pub type Texts = Items<Text>;

/// A list of written types. Contracts see it as a list.
pub type RawTypes = Items<RawType>;

/// A list of written terms. Contracts see it as a list.
pub type RawTerms = Items<RawTerm>;

/// A list of variables, each as it stands at its quantifier. Contracts see it as a list.
pub type RawVars = Items<RawVar>;

/// A type as it is written.
#[derive(Debug, Drop)]
pub enum RawType {
    /// `$i`
    Individual,
    /// `$o`
    Truth,
    /// `$tType`
    Kind,
    /// A type variable.
    Var(Text),
    /// A type constructor at types; without arguments the list is empty.
    Name(Text, RawTypes),
}

/// A term or an atom as it is written. Types stand here too, as arguments of a symbol with type variables.
#[derive(Debug, Drop)]
pub enum RawTerm {
    /// `$i`
    Individual,
    /// `$o`
    Truth,
    /// A variable.
    Var(Text),
    /// A symbol at arguments; without arguments the list is empty.
    Name(Text, RawTerms),
}

/// A variable at its quantifier, with its type where one is written.
#[derive(Debug, Drop)]
pub struct RawVar {
    pub name: Text,
    pub ty: Option<RawType>,
}

/// A formula as it is written, with the abbreviations of the language written out. Chains nest to the left.
#[derive(Debug, Drop)]
pub enum RawForm {
    True,
    False,
    /// An atom.
    Plain(RawTerm),
    Equal(RawTerm, RawTerm),
    Not(Boxed<RawForm>),
    And(Boxed<RawForm>, Boxed<RawForm>),
    Or(Boxed<RawForm>, Boxed<RawForm>),
    /// The first side implies the second.
    Imp(Boxed<RawForm>, Boxed<RawForm>),
    Iff(Boxed<RawForm>, Boxed<RawForm>),
    All(RawVar, Boxed<RawForm>),
    Ex(RawVar, Boxed<RawForm>),
}

/// The type that a statement declares: its type variables, the types of its arguments, and its result.
#[derive(Debug, Drop)]
pub struct RawTop {
    pub binders: RawVars,
    pub arguments: RawTypes,
    pub result: RawType,
}

/// What a formula is for: a premise, or the conjecture that is to be proved.
#[derive(Clone, Copy, Debug, PartialEq, Eq)]
pub enum RawRole {
    Axiom,
    Hypothesis,
    Definition,
    Assumption,
    Lemma,
    Theorem,
    Corollary,
    NegatedConjecture,
    Conjecture,
}
