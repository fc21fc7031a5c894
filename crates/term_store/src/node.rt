use crate::ids::{FormId, TermId, TermIds, TyId, TyIds};
use zm_logic::SymId;

/// One constructor of a type, with the ids of its parts.
#[derive(Drop, PartialEq, Eq, Hash)]
pub enum TyNode {
    /// A bound type variable.
    Bound(u32),
    /// A type parameter.
    Param(u64),
    /// A type metavariable.
    Meta(u64),
    /// A constructor at types.
    Con(SymId, TyIds),
}

/// One constructor of a term, with the ids of its parts.
#[derive(Drop, PartialEq, Eq, Hash)]
pub enum TermNode {
    /// A bound variable.
    Bound(u32),
    /// An epsilon term with its type.
    Eps(u64, TyId),
    /// A metavariable with its type.
    Meta(u64, TyId),
    /// A function at types and terms.
    App(SymId, TyIds, TermIds),
}

/// One constructor of a formula, with the ids of its parts.
#[derive(Drop, PartialEq, Eq, Hash)]
pub enum FormNode {
    /// What is always true.
    True,
    /// What is never true.
    False,
    /// A predicate at types and terms.
    Atom(SymId, TyIds, TermIds),
    /// An equality at a type.
    Equal(TyId, TermId, TermId),
    Not(FormId),
    And(FormId, FormId),
    Or(FormId, FormId),
    Imp(FormId, FormId),
    Iff(FormId, FormId),
    /// For all terms of the type.
    All(TyId, FormId),
    /// There is a term of the type.
    Ex(TyId, FormId),
    /// For all types.
    AllType(FormId),
    /// There is a type.
    ExType(FormId),
}
