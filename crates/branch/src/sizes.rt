ghost use Rattle.std.specs.Prelude.{◌≡◌, ◌+◌, length, nat_eq, OnOk, IfOk};
ghost use Rattle.indexmap.specs.IndexMap.{IsEmpty, get};
ghost use Rattle.zm_logic.specs.Measure as measure;
ghost use Rattle.term_store.specs.Node.{TypesBelow, TermsBelow, types_at, terms_at};
ghost use Rattle.term_store.specs.Trees.{Tables, HasType, HasTerm, HasForm, type_of, term_of, form_of, all_trees};
ghost use Rattle.branch.specs.Listed.{capped};
ghost use Rattle.branch.specs.Sizes.{KnowsSizes};

use indexmap::IndexMap;
use std::alloc::{AllocError, Global};
use term_store::{FormId, FormNode, Store, TermId, TermNode, TyId, TyNode};

/// The sizes of trees, as far as they were needed. A size past the greatest `u64` counts as that.
#[derive(Drop)]
pub(crate) struct Sizes {
    pub(crate) types: IndexMap<TyId, u64>,
    pub(crate) terms: IndexMap<TermId, u64>,
    pub(crate) forms: IndexMap<FormId, u64>,
}

impl Sizes {
    /// None yet. It takes no memory.
    pub(crate) fn new(alloc: Global) -> Sizes
        ensures types { IsEmpty result.types }
        ensures terms { IsEmpty result.terms }
        ensures forms { IsEmpty result.forms }
    {
        Sizes {
            types: IndexMap::new(alloc),
            terms: IndexMap::new(alloc),
            forms: IndexMap::new(alloc),
        }
    }
}

// The size of a type, if it is kept.
fn kept_type(kept: &Sizes, id: TyId) -> Option<u64>
    ensures { result ≡ get (λ x y. nat_eq x.0 y.0) kept.now.types id }
{
    kept.types.get(&id).copied()
}

// The size of a term, if it is kept.
fn kept_term(kept: &Sizes, id: TermId) -> Option<u64>
    ensures { result ≡ get (λ x y. nat_eq x.0 y.0) kept.now.terms id }
{
    kept.terms.get(&id).copied()
}

// The size of a formula, if it is kept.
fn kept_form(kept: &Sizes, id: FormId) -> Option<u64>
    ensures { result ≡ get (λ x y. nat_eq x.0 y.0) kept.now.forms id }
{
    kept.forms.get(&id).copied()
}

// Keeps the size of a type, and answers it.
fn keep_type(kept: &mut Sizes, id: TyId, size: u64) -> Result<u64, AllocError>
    ensures value { IfOk result (λ n. n ≡ size) }
    ensures knows { (s : Tables) → HasType s id → size ≡ capped (measure.type_size (type_of s id)) → KnowsSizes s kept.old → OnOk result (KnowsSizes s kept.new) }
{
    kept.types.insert(id, size)?;
    Ok(size)
}

// Keeps the size of a term, and answers it.
fn keep_term(kept: &mut Sizes, id: TermId, size: u64) -> Result<u64, AllocError>
    ensures value { IfOk result (λ n. n ≡ size) }
    ensures knows { (s : Tables) → HasTerm s id → size ≡ capped (measure.term_size (term_of s id)) → KnowsSizes s kept.old → OnOk result (KnowsSizes s kept.new) }
{
    kept.terms.insert(id, size)?;
    Ok(size)
}

// Keeps the size of a formula, and answers it.
fn keep_form(kept: &mut Sizes, id: FormId, size: u64) -> Result<u64, AllocError>
    ensures value { IfOk result (λ n. n ≡ size) }
    ensures knows { (s : Tables) → HasForm s id → size ≡ capped (measure.size (form_of s id)) → KnowsSizes s kept.old → OnOk result (KnowsSizes s kept.new) }
{
    kept.forms.insert(id, size)?;
    Ok(size)
}

// The size of a type. Each type is measured once.
#[cycle(ty_size)]
fn ty_size(store: &Store, kept: &mut Sizes, id: TyId) -> Result<u64, AllocError>
    requires has { HasType store.now id }
    requires knows { KnowsSizes store.now kept.old }
    ensures value { IfOk result (λ n. n ≡ capped (measure.type_size (type_of store.now id))) }
    ensures knows { OnOk result (KnowsSizes store.now kept.new) }
{
    if let Some(size) = kept_type(kept, id) {
        return Ok(size);
    }
    let size = new_ty_size(store, kept, id)?;
    keep_type(kept, id, size)
}

// The size of a type that isn't kept.
#[cycle(ty_size)]
fn new_ty_size(store: &Store, kept: &mut Sizes, id: TyId) -> Result<u64, AllocError>
    requires has { HasType store.now id }
    requires knows { KnowsSizes store.now kept.old }
    ensures value { IfOk result (λ n. n ≡ capped (measure.type_size (type_of store.now id))) }
    ensures knows { OnOk result (KnowsSizes store.now kept.new) }
{
    match store.ty_node(id) {
        TyNode::Con(_, ids) => symbol_size(store, kept, ids.as_slice()),
        TyNode::Bound(_) | TyNode::Param(_) | TyNode::Meta(_) => Ok(1),
    }
}

// The size of a type constructor or another symbol at its types.
#[cycle(ty_size)]
fn symbol_size(store: &Store, kept: &mut Sizes, ids: &[TyId]) -> Result<u64, AllocError>
    requires below { TypesBelow (length store.now.types) ids.now }
    requires knows { KnowsSizes store.now kept.old }
    ensures value { IfOk result (λ n. n ≡ capped (1 + measure.types_size (types_at (all_trees store.now).types ids.now))) }
    ensures knows { OnOk result (KnowsSizes store.now kept.new) }
{
    Ok(ty_sizes(store, kept, ids)?.saturating_add(1))
}

// The sum of the sizes of types.
#[cycle(ty_size)]
fn ty_sizes(store: &Store, kept: &mut Sizes, ids: &[TyId]) -> Result<u64, AllocError>
    requires below { TypesBelow (length store.now.types) ids.now }
    requires knows { KnowsSizes store.now kept.old }
    ensures value { IfOk result (λ n. n ≡ capped (measure.types_size (types_at (all_trees store.now).types ids.now))) }
    ensures knows { OnOk result (KnowsSizes store.now kept.new) }
{
    let mut all: u64 = 0;
    for id in ids {
        let size = ty_size(store, kept, *id)?;
        all = all.saturating_add(size);
    }
    Ok(all)
}

// The size of an epsilon term or a metavariable over terms, from the type that it carries.
fn carried_size(store: &Store, kept: &mut Sizes, ty: TyId) -> Result<u64, AllocError>
    requires has { HasType store.now ty }
    requires knows { KnowsSizes store.now kept.old }
    ensures value { IfOk result (λ n. n ≡ capped (1 + measure.type_size (type_of store.now ty))) }
    ensures knows { OnOk result (KnowsSizes store.now kept.new) }
{
    Ok(ty_size(store, kept, ty)?.saturating_add(1))
}

// The size of a term. Each term is measured once.
#[cycle(term_size)]
fn term_size(store: &Store, kept: &mut Sizes, id: TermId) -> Result<u64, AllocError>
    requires has { HasTerm store.now id }
    requires knows { KnowsSizes store.now kept.old }
    ensures value { IfOk result (λ n. n ≡ capped (measure.term_size (term_of store.now id))) }
    ensures knows { OnOk result (KnowsSizes store.now kept.new) }
{
    if let Some(size) = kept_term(kept, id) {
        return Ok(size);
    }
    let size = new_term_size(store, kept, id)?;
    keep_term(kept, id, size)
}

// The size of a term that isn't kept.
#[cycle(term_size)]
fn new_term_size(store: &Store, kept: &mut Sizes, id: TermId) -> Result<u64, AllocError>
    requires has { HasTerm store.now id }
    requires knows { KnowsSizes store.now kept.old }
    ensures value { IfOk result (λ n. n ≡ capped (measure.term_size (term_of store.now id))) }
    ensures knows { OnOk result (KnowsSizes store.now kept.new) }
{
    match store.term_node(id) {
        TermNode::App(_, types, terms) => {
            applied_size(store, kept, types.as_slice(), terms.as_slice())
        }
        TermNode::Eps(_, ty) | TermNode::Meta(_, ty) => carried_size(store, kept, *ty),
        TermNode::Bound(_) => Ok(1),
    }
}

// The size of a symbol at its arguments.
#[cycle(term_size)]
fn applied_size(
    store: &Store,
    kept: &mut Sizes,
    types: &[TyId],
    terms: &[TermId],
) -> Result<u64, AllocError>
    requires below { TypesBelow (length store.now.types) types.now }
    requires terms_below { TermsBelow (length store.now.terms) terms.now }
    requires knows { KnowsSizes store.now kept.old }
    ensures value { IfOk result (λ n. n ≡ capped (1 + measure.types_size (types_at (all_trees store.now).types types.now) + measure.terms_size (terms_at (all_trees store.now).terms terms.now))) }
    ensures knows { OnOk result (KnowsSizes store.now kept.new) }
{
    let first = symbol_size(store, kept, types)?;
    Ok(first.saturating_add(term_sizes(store, kept, terms)?))
}

// The sum of the sizes of terms.
#[cycle(term_size)]
fn term_sizes(store: &Store, kept: &mut Sizes, ids: &[TermId]) -> Result<u64, AllocError>
    requires below { TermsBelow (length store.now.terms) ids.now }
    requires knows { KnowsSizes store.now kept.old }
    ensures value { IfOk result (λ n. n ≡ capped (measure.terms_size (terms_at (all_trees store.now).terms ids.now))) }
    ensures knows { OnOk result (KnowsSizes store.now kept.new) }
{
    let mut all: u64 = 0;
    for id in ids {
        let size = term_size(store, kept, *id)?;
        all = all.saturating_add(size);
    }
    Ok(all)
}

// The size of an equality.
fn equal_size(
    store: &Store,
    kept: &mut Sizes,
    ty: TyId,
    left: TermId,
    right: TermId,
) -> Result<u64, AllocError>
    requires has { HasType store.now ty }
    requires has_left { HasTerm store.now left }
    requires has_right { HasTerm store.now right }
    requires knows { KnowsSizes store.now kept.old }
    ensures value { IfOk result (λ n. n ≡ capped (1 + measure.type_size (type_of store.now ty) + measure.term_size (term_of store.now left) + measure.term_size (term_of store.now right))) }
    ensures knows { OnOk result (KnowsSizes store.now kept.new) }
{
    let ty = carried_size(store, kept, ty)?;
    let left = term_size(store, kept, left)?;
    let right = term_size(store, kept, right)?;
    Ok(ty.saturating_add(left).saturating_add(right))
}

// Whether a formula is measured as fast as its size is found: it is a constant, a negation, or an atom without arguments.
fn is_light(store: &Store, id: FormId) -> bool
    requires { HasForm store.now id }
{
    match store.form_node(id) {
        FormNode::True | FormNode::False | FormNode::Not(_) => true,
        FormNode::Atom(_, types, terms) => {
            types.as_slice().is_empty() && terms.as_slice().is_empty()
        }
        FormNode::Equal(_, _, _)
        | FormNode::And(_, _)
        | FormNode::Or(_, _)
        | FormNode::Imp(_, _)
        | FormNode::Iff(_, _)
        | FormNode::All(_, _)
        | FormNode::Ex(_, _)
        | FormNode::AllType(_)
        | FormNode::ExType(_) => false,
    }
}

/// The size of a formula: the number of its constructors, those of its types and terms too. Each formula is measured
/// once, but for light ones. The one error is want of memory.
#[cycle(form_size)]
pub(crate) fn form_size(store: &Store, kept: &mut Sizes, id: FormId) -> Result<u64, AllocError>
    requires has { HasForm store.now id }
    requires knows { KnowsSizes store.now kept.old }
    ensures value { IfOk result (λ n. n ≡ capped (measure.size (form_of store.now id))) }
    ensures knows { OnOk result (KnowsSizes store.now kept.new) }
{
    if is_light(store, id) {
        return new_size(store, kept, id);
    }
    if let Some(size) = kept_form(kept, id) {
        return Ok(size);
    }
    let size = new_size(store, kept, id)?;
    keep_form(kept, id, size)
}

// The size of a formula that isn't kept.
#[cycle(form_size)]
fn new_size(store: &Store, kept: &mut Sizes, id: FormId) -> Result<u64, AllocError>
    requires has { HasForm store.now id }
    requires knows { KnowsSizes store.now kept.old }
    ensures value { IfOk result (λ n. n ≡ capped (measure.size (form_of store.now id))) }
    ensures knows { OnOk result (KnowsSizes store.now kept.new) }
{
    match store.form_node(id) {
        FormNode::True | FormNode::False => Ok(1),
        FormNode::Atom(_, types, terms) => {
            applied_size(store, kept, types.as_slice(), terms.as_slice())
        }
        FormNode::Equal(ty, left, right) => equal_size(store, kept, *ty, *left, *right),
        FormNode::Not(f) | FormNode::AllType(f) | FormNode::ExType(f) => one_size(store, kept, *f),
        FormNode::And(f, g) | FormNode::Or(f, g) | FormNode::Imp(f, g) | FormNode::Iff(f, g) => {
            two_size(store, kept, *f, *g)
        }
        FormNode::All(ty, f) | FormNode::Ex(ty, f) => over_size(store, kept, *ty, *f),
    }
}

// The size of a formula of one part.
#[cycle(form_size)]
fn one_size(store: &Store, kept: &mut Sizes, f: FormId) -> Result<u64, AllocError>
    requires has { HasForm store.now f }
    requires knows { KnowsSizes store.now kept.old }
    ensures value { IfOk result (λ n. n ≡ capped (1 + measure.size (form_of store.now f))) }
    ensures knows { OnOk result (KnowsSizes store.now kept.new) }
{
    Ok(form_size(store, kept, f)?.saturating_add(1))
}

// The size of a formula of two parts.
#[cycle(form_size)]
fn two_size(store: &Store, kept: &mut Sizes, f: FormId, g: FormId) -> Result<u64, AllocError>
    requires has { HasForm store.now f }
    requires has_other { HasForm store.now g }
    requires knows { KnowsSizes store.now kept.old }
    ensures value { IfOk result (λ n. n ≡ capped (1 + measure.size (form_of store.now f) + measure.size (form_of store.now g))) }
    ensures knows { OnOk result (KnowsSizes store.now kept.new) }
{
    let f = form_size(store, kept, f)?;
    let g = form_size(store, kept, g)?;
    Ok(f.saturating_add(g).saturating_add(1))
}

// The size of a formula that is quantified over terms.
#[cycle(form_size)]
fn over_size(store: &Store, kept: &mut Sizes, ty: TyId, f: FormId) -> Result<u64, AllocError>
    requires has { HasType store.now ty }
    requires has_body { HasForm store.now f }
    requires knows { KnowsSizes store.now kept.old }
    ensures value { IfOk result (λ n. n ≡ capped (1 + measure.type_size (type_of store.now ty) + measure.size (form_of store.now f))) }
    ensures knows { OnOk result (KnowsSizes store.now kept.new) }
{
    let ty = carried_size(store, kept, ty)?;
    let f = form_size(store, kept, f)?;
    Ok(ty.saturating_add(f))
}
