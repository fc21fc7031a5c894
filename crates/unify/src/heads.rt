ghost use Rattle.std.specs.Prelude.{◌≡◌, ◌≢◌, ℕ, IfSome, IfNone, All};
ghost use Rattle.zm_logic.specs.Tree as tree;
ghost use Rattle.zm_logic.specs.Same.{same_type};
ghost use Rattle.term_store.specs.Trees.{HasType, HasTerm, type_of, term_of};
ghost use Rattle.unify.specs.Binding.{head_type, head_term};
ghost use Rattle.unify.specs.View.{HasBinding, latest};
ghost use Rattle.unify.specs.declared.binding.Binding.TheVariants.{OfTerm, OfType};

use crate::binding::Binding;
use term_store::{Store, TermId, TermNode, TyId, TyNode};

/// The number of a type metavariable, and nothing of another type.
pub(crate) fn ty_meta(store: &Store, id: TyId) -> Option<u64>
    requires { HasType store.now id }
    ensures some { IfSome result (λ n. type_of store.now id ≡ tree.Ty.meta n) }
    ensures none { IfNone result ((n : ℕ) → type_of store.now id ≢ tree.Ty.meta n) }
{
    match store.ty_node(id) {
        TyNode::Meta(number) => Some(*number),
        TyNode::Bound(_) | TyNode::Param(_) | TyNode::Con(_, _) => None,
    }
}

/// The number and the type of a metavariable over terms, and nothing of another term.
pub(crate) fn term_meta(store: &Store, id: TermId) -> Option<(u64, TyId)>
    requires { HasTerm store.now id }
    ensures has { IfSome result (λ m. HasType store.now m.1) }
    ensures some { IfSome result (λ m. term_of store.now id ≡ tree.Term.meta m.0 (type_of store.now m.1)) }
    ensures none { IfNone result ((n : ℕ) (k : tree.Ty) → term_of store.now id ≢ tree.Term.meta n k) }
{
    match store.term_node(id) {
        TermNode::Meta(number, ty) => Some((*number, *ty)),
        TermNode::Bound(_) | TermNode::Eps(_, _) | TermNode::App(_, _, _) => None,
    }
}

/// Whether two ids are those of one type.
pub(crate) fn same_ty(store: &Store, left: TyId, right: TyId) -> bool
    requires has { HasType store.now left }
    requires has_right { HasType store.now right }
    ensures { result ≡ same_type (type_of store.now left) (type_of store.now right) }
{
    store.shared();
    left.0 == right.0
}

// The right side that a binding gives a type metavariable.
fn given_ty(binding: Binding, meta: u64) -> Option<TyId>
    ensures some { IfSome result (λ to. binding ≡ OfType meta to) }
    ensures none { IfNone result ((to : TyId) → binding ≢ OfType meta to) }
{
    match binding {
        Binding::OfType { meta: number, to } => if number == meta { Some(to) } else { None },
        Binding::OfTerm { .. } => None,
    }
}

// The right side that a binding gives a metavariable over terms.
fn given_term(binding: Binding, meta: (u64, TyId)) -> Option<TermId>
    ensures some { IfSome result (λ to. binding ≡ OfTerm meta.0 meta.1 to) }
    ensures none { IfNone result ((to : TermId) → binding ≢ OfTerm meta.0 meta.1 to) }
{
    match binding {
        Binding::OfTerm {
            meta: number,
            ty,
            to,
        } => if number == meta.0 && ty.0 == meta.1.0 {
            Some(to)
        } else {
            None
        },
        Binding::OfType { .. } => None,
    }
}

// What a metavariable stands for at its head.
fn ty_meta_head(store: &Store, made: &[Binding], meta: u64, id: TyId) -> TyId
    requires has { HasType store.now id }
    requires have { All (HasBinding store.now) made.now }
    requires is_meta { type_of store.now id ≡ tree.Ty.meta meta }
    ensures has { HasType store.now result }
    ensures tree { type_of store.now result ≡ head_type (latest store.now made.now) (type_of store.now id) }
{
    let mut head = id;
    let mut meta = meta;
    for binding in made {
        let Some(to) = given_ty(*binding, meta) else {
            continue;
        };
        let Some(next) = ty_meta(store, to) else {
            return to;
        };
        head = to;
        meta = next;
    }
    head
}

/// What a type stands for at its head: while it is a bound metavariable, its right side as made stands for it.
pub(crate) fn ty_head(store: &Store, made: &[Binding], id: TyId) -> TyId
    requires has { HasType store.now id }
    requires have { All (HasBinding store.now) made.now }
    ensures has { HasType store.now result }
    ensures tree { type_of store.now result ≡ head_type (latest store.now made.now) (type_of store.now id) }
{
    match ty_meta(store, id) {
        Some(meta) => ty_meta_head(store, made, meta, id),
        None => id,
    }
}

// What a metavariable stands for at its head.
fn term_meta_head(store: &Store, made: &[Binding], meta: (u64, TyId), id: TermId) -> TermId
    requires has { HasTerm store.now id }
    requires has_type { HasType store.now meta.1 }
    requires have { All (HasBinding store.now) made.now }
    requires is_meta { term_of store.now id ≡ tree.Term.meta meta.0 (type_of store.now meta.1) }
    ensures has { HasTerm store.now result }
    ensures tree { term_of store.now result ≡ head_term (latest store.now made.now) (term_of store.now id) }
{
    let mut head = id;
    let mut meta = meta;
    store.shared();
    for binding in made {
        let Some(to) = given_term(*binding, meta) else {
            continue;
        };
        let Some(next) = term_meta(store, to) else {
            return to;
        };
        head = to;
        meta = next;
    }
    head
}

/// What a term stands for at its head: while it is a bound metavariable, its right side as made stands for it.
pub(crate) fn term_head(store: &Store, made: &[Binding], id: TermId) -> TermId
    requires has { HasTerm store.now id }
    requires have { All (HasBinding store.now) made.now }
    ensures has { HasTerm store.now result }
    ensures tree { term_of store.now result ≡ head_term (latest store.now made.now) (term_of store.now id) }
{
    match term_meta(store, id) {
        Some(meta) => term_meta_head(store, made, meta, id),
        None => id,
    }
}
