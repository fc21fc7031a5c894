ghost use Rattle.std.specs.Prelude.{ℕ, ◌≡◌, ◌≢◌, nat_eq, ◌+◌, ◌<◌, ◌≤◌, All, OnOk, IfOk, IfErr, IfSome, IfNone, length};
ghost use Rattle.indexmap.specs.IndexMap.{IsEmpty, get};
ghost use Rattle.zm_logic.specs.Tree as tree;
ghost use Rattle.zm_logic.specs.Measure.{type_depth, types_depth, term_depth, terms_depth};
ghost use Rattle.term_store.specs.Change.{IsTypeId, IsTermId, AreTypeIds, AreTermIds};
ghost use Rattle.term_store.specs.Fault.{IfTooDeep};
ghost use Rattle.term_store.specs.Node.{types_at, terms_at, TypesBelow, TermsBelow};
ghost use Rattle.term_store.specs.Trees.{HasType, HasTypeParts, HasTerm, HasTermParts, type_of, term_of, type_node, term_node, all_trees, Extends};
ghost use Rattle.unify.specs.Binding.{solved_type as type_solved, solved_term as term_solved};
ghost use Rattle.unify.specs.Lawful.{AreLawful};
ghost use Rattle.unify.specs.View.{HasBinding, binding_of, latest};
ghost use Rattle.unify.specs.Answer.{HasIds, IsAnswer, IsTooDeep, IfDeepAt, solved_binding as binding_solved, solved_depth, name_of};
ghost use Rattle.unify.specs.Solving.{all_types, all_terms, KnowsSolved};

use crate::binding::{Binding, Bindings, MguFault};
use crate::heads::{term_head, ty_head};
use indexmap::IndexMap;
use std::alloc::{AllocError, Global};
use term_store::{
    EnterFault, MAX_DEPTH, MkFault, Store, TermId, TermIds, TermNode, TyId, TyIds, TyNode,
};
use zm_logic::SymId;

/// The trees with all bindings put in, as far as they were needed.
#[derive(Drop)]
pub(crate) struct Solved {
    pub(crate) types: IndexMap<TyId, TyId>,
    pub(crate) terms: IndexMap<TermId, TermId>,
}

impl Solved {
    fn new(alloc: Global) -> Solved
        ensures types { IsEmpty result.types }
        ensures terms { IsEmpty result.terms }
    {
        Solved {
            types: IndexMap::new(alloc),
            terms: IndexMap::new(alloc),
        }
    }
}

// The room that is left below one constructor.
fn below(room: u64) -> Result<u64, EnterFault>
    ensures ok { IfOk result (λ left. left + 1 ≡ room) }
    ensures deep { IfErr result (IfTooDeep (room ≡ 0)) }
{
    match room.checked_sub(1) {
        Some(left) => Ok(left),
        None => Err(EnterFault::Deep),
    }
}

// The symbol and the arguments of a type, where it has some.
fn con_of(alloc: Global, store: &Store, id: TyId) -> Result<Option<(SymId, TyIds)>, AllocError>
    requires { HasType store.now id }
    ensures below { IfOk result (λ found. IfSome found (λ p. TypesBelow (length store.now.types) p.1)) }
    ensures some { IfOk result (λ found. IfSome found (λ p. type_of store.now id ≡ tree.Ty.con p.0.0 (types_at (all_trees store.now).types p.1))) }
    ensures none { IfOk result (λ found. IfNone found ((c : ℕ) (ts : tree.Tys) → type_of store.now id ≢ tree.Ty.con c ts)) }
{
    match store.ty_node(id) {
        TyNode::Con(symbol, types) => Ok(Some((*symbol, types.copy(alloc)?))),
        TyNode::Bound(_) | TyNode::Param(_) | TyNode::Meta(_) => Ok(None),
    }
}

// The symbol and the arguments of a term, where it has some.
fn app_of(
    alloc: Global,
    store: &Store,
    id: TermId,
) -> Result<Option<(SymId, TyIds, TermIds)>, AllocError>
    requires { HasTerm store.now id }
    ensures below { IfOk result (λ found. IfSome found (λ p. TypesBelow (length store.now.types) p.1 × TermsBelow (length store.now.terms) p.2)) }
    ensures some { IfOk result (λ found. IfSome found (λ p. term_of store.now id ≡ tree.Term.app p.0.0 (types_at (all_trees store.now).types p.1) (terms_at (all_trees store.now).terms p.2))) }
    ensures none { IfOk result (λ found. IfNone found ((f : ℕ) (ts : tree.Tys) (us : tree.Terms) → term_of store.now id ≢ tree.Term.app f ts us)) }
{
    match store.term_node(id) {
        TermNode::App(symbol, types, terms) => {
            Ok(Some((*symbol, types.copy(alloc)?, terms.copy(alloc)?)))
        }
        TermNode::Bound(_) | TermNode::Eps(_, _) | TermNode::Meta(_, _) => Ok(None),
    }
}

// What a type is with all bindings put in, where it is kept.
fn recall_ty(kept: &Solved, head: TyId) -> Option<TyId>
    ensures { result ≡ get (λ x y. nat_eq x.0 y.0) kept.now.types head }
{
    kept.types.get(&head).copied()
}

// What a term is with all bindings put in, where it is kept.
fn recall_term(kept: &Solved, head: TermId) -> Option<TermId>
    ensures { result ≡ get (λ x y. nat_eq x.0 y.0) kept.now.terms head }
{
    kept.terms.get(&head).copied()
}

// Stores a type, and keeps it as what another one is with all bindings put in.
fn keep_ty(
    store: &mut Store,
    made: &[Binding],
    kept: &mut Solved,
    head: TyId,
    node: TyNode,
) -> Result<TyId, EnterFault>
    requires has { HasType store.old head }
    requires parts { HasTypeParts store.old node }
    requires have { All (HasBinding store.old) made.now }
    requires solved { type_node store.old node ≡ type_solved (latest store.old made.now) (type_of store.old head) }
    requires knows { KnowsSolved store.old (latest store.old made.now) kept.old }
    ensures made { IfOk result (IsTypeId store.new (type_node store.old node)) }
    ensures deep { IfErr result (IfTooDeep (2000 < type_depth (type_node store.old node))) }
    ensures kept { Extends store.old store.new }
    ensures knows { OnOk result (KnowsSolved store.new (latest store.new made.now) kept.new) }
{
    let whole = match store.mk_ty(node) {
        Ok(id) => id,
        Err(MkFault::Memory) => return Err(EnterFault::Memory),
        Err(MkFault::Deep(_)) => return Err(EnterFault::Deep),
    };
    kept.types.insert(head, whole)?;
    Ok(whole)
}

// Stores a term, and keeps it as what another one is with all bindings put in.
fn keep_term(
    store: &mut Store,
    made: &[Binding],
    kept: &mut Solved,
    head: TermId,
    node: TermNode,
) -> Result<TermId, EnterFault>
    requires has { HasTerm store.old head }
    requires parts { HasTermParts store.old node }
    requires have { All (HasBinding store.old) made.now }
    requires solved { term_node store.old node ≡ term_solved (latest store.old made.now) (term_of store.old head) }
    requires knows { KnowsSolved store.old (latest store.old made.now) kept.old }
    ensures made { IfOk result (IsTermId store.new (term_node store.old node)) }
    ensures deep { IfErr result (IfTooDeep (2000 < term_depth (term_node store.old node))) }
    ensures kept { Extends store.old store.new }
    ensures knows { OnOk result (KnowsSolved store.new (latest store.new made.now) kept.new) }
{
    let whole = match store.mk_term(node) {
        Ok(id) => id,
        Err(MkFault::Memory) => return Err(EnterFault::Memory),
        Err(MkFault::Deep(_)) => return Err(EnterFault::Deep),
    };
    kept.terms.insert(head, whole)?;
    Ok(whole)
}

// A type with all bindings put in, where it is no deeper than the room.
#[cycle(solved_ty)]
fn solved_ty(
    alloc: Global,
    store: &mut Store,
    made: &[Binding],
    kept: &mut Solved,
    id: TyId,
    room: u64,
) -> Result<TyId, EnterFault>
    requires has { HasType store.old id }
    requires have { All (HasBinding store.old) made.now }
    requires lawful { AreLawful (latest store.old made.now) }
    requires knows { KnowsSolved store.old (latest store.old made.now) kept.old }
    requires room { room ≤ 2000 }
    ensures made { IfOk result (IsTypeId store.new (type_solved (latest store.old made.now) (type_of store.old id))) }
    ensures deep { IfErr result (IfTooDeep (room < type_depth (type_solved (latest store.old made.now) (type_of store.old id)))) }
    ensures kept { Extends store.old store.new }
    ensures knows { OnOk result (KnowsSolved store.new (latest store.new made.now) kept.new) }
{
    let left = below(room)?;
    let head = ty_head(store, made, id);
    if let Some(whole) = recall_ty(kept, head) {
        return Ok(whole);
    }
    match con_of(alloc, store, head)? {
        Some((symbol, types)) => {
            let types = solved_tys(alloc, store, made, kept, &types, left)?;
            keep_ty(store, made, kept, head, TyNode::Con(symbol, types))
        }
        None => Ok(head),
    }
}

#[cycle(solved_ty)]
fn solved_tys(
    alloc: Global,
    store: &mut Store,
    made: &[Binding],
    kept: &mut Solved,
    ids: &TyIds,
    room: u64,
) -> Result<TyIds, EnterFault>
    requires below { TypesBelow (length store.old.types) ids.now }
    requires have { All (HasBinding store.old) made.now }
    requires lawful { AreLawful (latest store.old made.now) }
    requires knows { KnowsSolved store.old (latest store.old made.now) kept.old }
    requires room { room ≤ 2000 }
    ensures made { IfOk result (AreTypeIds store.new (all_types (latest store.old made.now) (types_at (all_trees store.old).types ids.now))) }
    ensures deep { IfErr result (IfTooDeep (room < types_depth (all_types (latest store.old made.now) (types_at (all_trees store.old).types ids.now)))) }
    ensures kept { Extends store.old store.new }
    ensures knows { OnOk result (KnowsSolved store.new (latest store.new made.now) kept.new) }
{
    let mut all = TyIds::new(alloc);
    for id in ids.as_slice() {
        let whole = solved_ty(alloc, store, made, kept, *id, room)?;
        all.push(whole)?;
    }
    Ok(all)
}

// A term with all bindings put in, where it is no deeper than the room.
#[cycle(solved_term)]
fn solved_term(
    alloc: Global,
    store: &mut Store,
    made: &[Binding],
    kept: &mut Solved,
    id: TermId,
    room: u64,
) -> Result<TermId, EnterFault>
    requires has { HasTerm store.old id }
    requires have { All (HasBinding store.old) made.now }
    requires lawful { AreLawful (latest store.old made.now) }
    requires knows { KnowsSolved store.old (latest store.old made.now) kept.old }
    requires room { room ≤ 2000 }
    ensures made { IfOk result (IsTermId store.new (term_solved (latest store.old made.now) (term_of store.old id))) }
    ensures deep { IfErr result (IfTooDeep (room < term_depth (term_solved (latest store.old made.now) (term_of store.old id)))) }
    ensures kept { Extends store.old store.new }
    ensures knows { OnOk result (KnowsSolved store.new (latest store.new made.now) kept.new) }
{
    let left = below(room)?;
    let head = term_head(store, made, id);
    if let Some(whole) = recall_term(kept, head) {
        return Ok(whole);
    }
    match app_of(alloc, store, head)? {
        Some((symbol, types, terms)) => {
            let types = solved_tys(alloc, store, made, kept, &types, left)?;
            let terms = solved_terms(alloc, store, made, kept, &terms, left)?;
            keep_term(store, made, kept, head, TermNode::App(symbol, types, terms))
        }
        None => Ok(head),
    }
}

#[cycle(solved_term)]
fn solved_terms(
    alloc: Global,
    store: &mut Store,
    made: &[Binding],
    kept: &mut Solved,
    ids: &TermIds,
    room: u64,
) -> Result<TermIds, EnterFault>
    requires below { TermsBelow (length store.old.terms) ids.now }
    requires have { All (HasBinding store.old) made.now }
    requires lawful { AreLawful (latest store.old made.now) }
    requires knows { KnowsSolved store.old (latest store.old made.now) kept.old }
    requires room { room ≤ 2000 }
    ensures made { IfOk result (AreTermIds store.new (all_terms (latest store.old made.now) (terms_at (all_trees store.old).terms ids.now))) }
    ensures deep { IfErr result (IfTooDeep (room < terms_depth (all_terms (latest store.old made.now) (terms_at (all_trees store.old).terms ids.now)))) }
    ensures kept { Extends store.old store.new }
    ensures knows { OnOk result (KnowsSolved store.new (latest store.new made.now) kept.new) }
{
    let mut all = TermIds::new(alloc);
    for id in ids.as_slice() {
        let whole = solved_term(alloc, store, made, kept, *id, room)?;
        all.push(whole)?;
    }
    Ok(all)
}

// The fault that names a binding of a type.
fn deep_type(store: &mut Store, meta: u64, to: TyId) -> MguFault
    requires has { HasType store.old to }
    requires shallow { type_depth (type_of store.old to) < 2000 }
    ensures named { IfDeepAt (λ at. HasTerm store.new at × (term_of store.new at ≡ tree.Term.meta meta (type_of store.old to))) result }
    ensures kept { Extends store.old store.new }
{
    match store.mk_term(TermNode::Meta(meta, to)) {
        Ok(at) => MguFault::Deep { at },
        Err(MkFault::Memory) => MguFault::Memory,
        // the term is no deeper than 2,000
        Err(MkFault::Deep(_)) => MguFault::Memory,
    }
}

// A binding whose right side has all bindings put in.
fn solved_binding(
    alloc: Global,
    store: &mut Store,
    made: &[Binding],
    kept: &mut Solved,
    binding: Binding,
) -> Result<Binding, MguFault>
    requires has { HasBinding store.old binding }
    requires have { All (HasBinding store.old) made.now }
    requires lawful { AreLawful (latest store.old made.now) }
    requires knows { KnowsSolved store.old (latest store.old made.now) kept.old }
    ensures has { IfOk result (HasIds store.new) }
    ensures solved { IfOk result (λ b. binding_of store.new b ≡ binding_solved (latest store.old made.now) (binding_of store.old binding)) }
    ensures bounded { OnOk result (solved_depth (latest store.old made.now) (binding_of store.old binding) ≤ 2000) }
    ensures deep { IfErr result (IfDeepAt (λ at. (2000 < solved_depth (latest store.old made.now) (binding_of store.old binding)) × HasTerm store.new at × (term_of store.new at ≡ name_of (binding_of store.old binding)))) }
    ensures kept { Extends store.old store.new }
    ensures knows { OnOk result (KnowsSolved store.new (latest store.new made.now) kept.new) }
{
    match binding {
        Binding::OfTerm { meta, ty, to } => {
            match solved_term(alloc, store, made, kept, to, MAX_DEPTH) {
                Ok(whole) => {
                    // what is stored is no deeper than 2,000
                    let _ = store.term_node(whole);
                    Ok(Binding::OfTerm {
                        meta,
                        ty,
                        to: whole,
                    })
                }
                Err(EnterFault::Memory) => Err(MguFault::Memory),
                Err(EnterFault::Deep) => Err(MguFault::Deep { at: to }),
            }
        }
        Binding::OfType { meta, to } => match solved_ty(alloc, store, made, kept, to, MAX_DEPTH) {
            Ok(whole) => {
                let _ = store.ty_node(whole);
                Ok(Binding::OfType { meta, to: whole })
            }
            Err(EnterFault::Memory) => Err(MguFault::Memory),
            Err(EnterFault::Deep) => Err(deep_type(store, meta, to)),
        },
    }
}

/// The bindings in their order, with all of them put into each right side.
pub(crate) fn solved_bindings(
    alloc: Global,
    store: &mut Store,
    made: &[Binding],
) -> Result<Bindings, MguFault>
    requires have { All (HasBinding store.old) made.now }
    requires lawful { AreLawful (latest store.old made.now) }
    ensures answer { IfOk result (IsAnswer store.new (latest store.old made.now)) }
    ensures deep { IfErr result (IfDeepAt (IsTooDeep store.new (latest store.old made.now))) }
    ensures kept { Extends store.old store.new }
{
    let mut kept = Solved::new(alloc);
    let mut all = Bindings::new(alloc);
    for binding in made {
        let whole = solved_binding(alloc, store, made, &mut kept, *binding)?;
        all.push(whole)?;
    }
    Ok(all)
}
