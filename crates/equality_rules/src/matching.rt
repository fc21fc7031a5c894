ghost use Rattle.std.specs.Prelude.{◌≡◌, length};
ghost use Rattle.zm_logic.specs.Tree as tree;
ghost use Rattle.zm_logic.specs.Same.{same_type, same_types};
ghost use Rattle.zm_logic.specs.View.{type_tree, types_tree};
ghost use Rattle.term_store.specs.Node.{TypesBelow, types_at};
ghost use Rattle.term_store.specs.Trees.{HasType, type_of, all_trees};
ghost use Rattle.equality_rules.specs.Heads as heads;

use term_store::{Store, TyId, TyNode};
use zm_logic::{Ty, Tys};

/// What stands for a type variable of a declaration. The last one is 0.
fn standing_for(types: &[TyId], index: u32) -> Option<TyId>
    ensures { result ≡ heads.standing_id types.now index }
{
    let back = index as usize;
    if back < types.len() {
        Some(types[types.len() - 1 - back])
    } else {
        None
    }
}

fn is_bound(store: &Store, id: TyId, index: u32) -> bool
    requires { HasType store.now id }
    ensures { result ≡ same_type (tree.Ty.bound index) (type_of store.now id) }
{
    match store.ty_node(id) {
        TyNode::Bound(other) => *other == index,
        TyNode::Param(_) | TyNode::Meta(_) | TyNode::Con(_, _) => false,
    }
}

fn is_param(store: &Store, id: TyId, number: u64) -> bool
    requires { HasType store.now id }
    ensures { result ≡ same_type (tree.Ty.param number) (type_of store.now id) }
{
    match store.ty_node(id) {
        TyNode::Param(other) => *other == number,
        TyNode::Bound(_) | TyNode::Meta(_) | TyNode::Con(_, _) => false,
    }
}

fn is_meta(store: &Store, id: TyId, number: u64) -> bool
    requires { HasType store.now id }
    ensures { result ≡ same_type (tree.Ty.meta number) (type_of store.now id) }
{
    match store.ty_node(id) {
        TyNode::Meta(other) => *other == number,
        TyNode::Bound(_) | TyNode::Param(_) | TyNode::Con(_, _) => false,
    }
}

// Whether two ids are those of one type.
fn same_ty(store: &Store, left: TyId, right: TyId) -> bool
    requires has { HasType store.now left }
    requires has_right { HasType store.now right }
    ensures { result ≡ same_type (type_of store.now left) (type_of store.now right) }
{
    store.shared();
    left.0 == right.0
}

/// Whether a type is that of a declaration at these types.
#[cycle(is_instance)]
pub(crate) fn is_instance(store: &Store, declared: &Ty, types: &[TyId], id: TyId) -> bool
    requires has { HasType store.now id }
    requires below { TypesBelow (length store.now.types) types.now }
    ensures { result ≡ same_type (heads.instance_at (types_at (all_trees store.now).types types.now) (type_tree declared.now)) (type_of store.now id) }
{
    match declared {
        Ty::Bound(index) => match standing_for(types, *index) {
            Some(ty) => same_ty(store, ty, id),
            None => is_bound(store, id, *index),
        },
        Ty::Param(number) => is_param(store, id, *number),
        Ty::Meta(number) => is_meta(store, id, *number),
        Ty::Con(symbol, arguments) => match store.ty_node(id) {
            TyNode::Con(other, ids) => {
                symbol.0 == other.0 && are_instances(store, arguments, types, ids.as_slice())
            }
            TyNode::Bound(_) | TyNode::Param(_) | TyNode::Meta(_) => false,
        },
    }
}

#[cycle(is_instance)]
fn are_instances(store: &Store, declared: &Tys, types: &[TyId], ids: &[TyId]) -> bool
    requires has { TypesBelow (length store.now.types) ids.now }
    requires below { TypesBelow (length store.now.types) types.now }
    ensures { result ≡ same_types (heads.instances_at (types_at (all_trees store.now).types types.now) (types_tree declared.now)) (types_at (all_trees store.now).types ids.now) }
{
    let declared = declared.as_slice();
    if declared.len() != ids.len() {
        return false;
    }
    for (i, one) in declared.iter().enumerate() {
        if !is_instance(store, one, types, ids[i]) {
            return false;
        }
    }
    true
}

// Whether a declared type is a variable for which nothing stands.
fn is_loose(declared: &Ty, index: u32) -> bool
    ensures { result ≡ same_type (tree.Ty.bound index) (type_tree declared.now) }
{
    match declared {
        Ty::Bound(other) => *other == index,
        Ty::Param(_) | Ty::Meta(_) | Ty::Con(_, _) => false,
    }
}

// What stands for a declared type, where it is a variable.
fn stands(declared: &Ty, types: &[TyId]) -> Option<TyId>
    ensures { result ≡ heads.stands (type_tree declared.now) types.now }
{
    match declared {
        Ty::Bound(index) => standing_for(types, *index),
        Ty::Param(_) | Ty::Meta(_) | Ty::Con(_, _) => None,
    }
}

/// Whether two types of declarations, each at its types, are one type.
#[cycle(same_instances)]
pub(crate) fn same_instances(
    store: &Store,
    left: &Ty,
    left_types: &[TyId],
    right: &Ty,
    right_types: &[TyId],
) -> bool
    requires below { TypesBelow (length store.now.types) left_types.now }
    requires below_right { TypesBelow (length store.now.types) right_types.now }
    ensures { result ≡ same_type (heads.instance_at (types_at (all_trees store.now).types left_types.now) (type_tree left.now)) (heads.instance_at (types_at (all_trees store.now).types right_types.now) (type_tree right.now)) }
{
    if let Some(ty) = stands(right, right_types) {
        return is_instance(store, left, left_types, ty);
    }
    match left {
        Ty::Bound(index) => match standing_for(left_types, *index) {
            Some(ty) => is_instance(store, right, right_types, ty),
            None => is_loose(right, *index),
        },
        Ty::Param(_) | Ty::Meta(_) => left.same(right),
        Ty::Con(symbol, arguments) => match right {
            Ty::Con(other, others) => {
                symbol.0 == other.0
                    && all_same_instances(store, arguments, left_types, others, right_types)
            }
            Ty::Bound(_) | Ty::Param(_) | Ty::Meta(_) => false,
        },
    }
}

#[cycle(same_instances)]
fn all_same_instances(
    store: &Store,
    lefts: &Tys,
    left_types: &[TyId],
    rights: &Tys,
    right_types: &[TyId],
) -> bool
    requires below { TypesBelow (length store.now.types) left_types.now }
    requires below_right { TypesBelow (length store.now.types) right_types.now }
    ensures { result ≡ same_types (heads.instances_at (types_at (all_trees store.now).types left_types.now) (types_tree lefts.now)) (heads.instances_at (types_at (all_trees store.now).types right_types.now) (types_tree rights.now)) }
{
    let lefts = lefts.as_slice();
    let rights = rights.as_slice();
    if lefts.len() != rights.len() {
        return false;
    }
    for (i, left) in lefts.iter().enumerate() {
        if !same_instances(store, left, left_types, &rights[i], right_types) {
            return false;
        }
    }
    true
}
