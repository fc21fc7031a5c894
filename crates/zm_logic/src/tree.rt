use sqlite_items::{Boxed, Items};

/// The number of a symbol: 0 is the type of individuals, and a problem's symbols are numbered from 1.
#[derive(Clone, Copy, Debug, PartialEq, Eq, Hash)]
pub struct SymId(pub u32);

/// A list of types. Contracts see it as a list.
pub type Tys = Items<Ty>;

/// A list of terms. Contracts see it as a list.
pub type Terms = Items<Term>;

/// A type. An index counts the binders round its place, of types and of terms, the innermost being 0.
#[derive(Drop)]
pub enum Ty {
    /// A bound type variable.
    Bound(u32),
    /// A type parameter: a fixed type of which nothing else is known.
    Param(u64),
    /// A type metavariable.
    Meta(u64),
    /// A constructor at types.
    Con(SymId, Tys),
}

/// A term.
#[derive(Drop)]
pub enum Term {
    /// A bound variable.
    Bound(u32),
    /// An epsilon term with its type: a fixed term of which nothing else is known.
    Eps(u64, Ty),
    /// A metavariable with its type.
    Meta(u64, Ty),
    /// A function at types and terms.
    App(SymId, Tys, Terms),
}

/// A formula.
#[derive(Drop)]
pub enum Form {
    /// What is always true.
    True,
    /// What is never true.
    False,
    /// A predicate at types and terms.
    Atom(SymId, Tys, Terms),
    /// An equality at a type.
    Equal(Ty, Term, Term),
    Not(Boxed<Form>),
    And(Boxed<Form>, Boxed<Form>),
    Or(Boxed<Form>, Boxed<Form>),
    Imp(Boxed<Form>, Boxed<Form>),
    Iff(Boxed<Form>, Boxed<Form>),
    /// For all terms of the type.
    All(Ty, Boxed<Form>),
    /// There is a term of the type.
    Ex(Ty, Boxed<Form>),
    /// For all types.
    AllType(Boxed<Form>),
    /// There is a type.
    ExType(Boxed<Form>),
}
