ghost use Rattle.std.specs.Prelude.{◌≡◌, ◌<◌, ◌≤◌, ◌+◌, max, All, slice_index};
ghost use Rattle.indexmap.specs.IndexMap.{values, index_map_len};
ghost use Rattle.term_store.specs.Node.{TypesBelow, TermsBelow, TypeFits, TermFits, FormFits};
ghost use Rattle.term_store.specs.Depth.{greatest_type, greatest_term, type_node_depth, term_node_depth, form_node_depth};

use crate::ids::{TermId, TyId};
use crate::node::{FormNode, TermNode, TyNode};
use indexmap::IndexMap;
use std::hash::Hash;

// The depth beside the node at a place.
fn depth_at<N: Eq + Hash>(map: &IndexMap<N, u64>, place: usize) -> u64
    requires { place < index_map_len map.now }
    ensures { result ≡ slice_index (values map.now) place }
{
    map[place]
}

// The depth beside the node at a place, where all depths are bounded.
fn bounded_at<N: Eq + Hash>(map: &IndexMap<N, u64>, place: usize) -> u64
    requires within { place < index_map_len map.now }
    requires bounded { All (λ d. d ≤ 2000) (values map.now) }
    ensures value { result ≡ slice_index (values map.now) place }
    ensures bound { result ≤ 2000 }
{
    depth_at(map, place)
}

fn greater(a: u64, b: u64) -> u64
    ensures { result ≡ max a b }
{
    if a < b { b } else { a }
}

fn types_depth(types: &IndexMap<TyNode, u64>, ids: &[TyId]) -> u64
    requires below { TypesBelow (index_map_len types.now) ids.now }
    requires bounded { All (λ d. d ≤ 2000) (values types.now) }
    ensures value { result ≡ greatest_type (values types.now) ids.now }
    ensures bound { result ≤ 2000 }
{
    let mut all = 0;
    for id in ids {
        all = greater(all, depth_at(types, id.0));
    }
    all
}

fn terms_depth(terms: &IndexMap<TermNode, u64>, ids: &[TermId]) -> u64
    requires below { TermsBelow (index_map_len terms.now) ids.now }
    requires bounded { All (λ d. d ≤ 2000) (values terms.now) }
    ensures value { result ≡ greatest_term (values terms.now) ids.now }
    ensures bound { result ≤ 2000 }
{
    let mut all = 0;
    for id in ids {
        all = greater(all, depth_at(terms, id.0));
    }
    all
}

/// The depth of a type's node.
pub(crate) fn type_depth_of(types: &IndexMap<TyNode, u64>, node: &TyNode) -> u64
    requires below { TypeFits (index_map_len types.now) node.now }
    requires bounded { All (λ d. d ≤ 2000) (values types.now) }
    ensures value { result ≡ type_node_depth (values types.now) node.now }
    ensures bound { result ≤ 2001 }
{
    match node {
        TyNode::Con(_, ids) => 1 + types_depth(types, ids.as_slice()),
        TyNode::Bound(_) | TyNode::Param(_) | TyNode::Meta(_) => 1,
    }
}

/// The depth of a term's node.
pub(crate) fn term_depth_of(
    types: &IndexMap<TyNode, u64>,
    terms: &IndexMap<TermNode, u64>,
    node: &TermNode,
) -> u64
    requires below { TermFits (index_map_len types.now) (index_map_len terms.now) node.now }
    requires bounded { All (λ d. d ≤ 2000) (values types.now) }
    requires terms_bounded { All (λ d. d ≤ 2000) (values terms.now) }
    ensures value { result ≡ term_node_depth (values types.now) (values terms.now) node.now }
    ensures bound { result ≤ 2001 }
{
    match node {
        TermNode::App(_, ids, arguments) => {
            1 + greater(
                types_depth(types, ids.as_slice()),
                terms_depth(terms, arguments.as_slice()),
            )
        }
        TermNode::Eps(_, ty) | TermNode::Meta(_, ty) => 1 + bounded_at(types, ty.0),
        TermNode::Bound(_) => 1,
    }
}

/// The depth of a formula's node.
pub(crate) fn form_depth_of(
    types: &IndexMap<TyNode, u64>,
    terms: &IndexMap<TermNode, u64>,
    forms: &IndexMap<FormNode, u64>,
    node: &FormNode,
) -> u64
    requires below { FormFits (index_map_len types.now) (index_map_len terms.now) (index_map_len forms.now) node.now }
    requires bounded { All (λ d. d ≤ 2000) (values types.now) }
    requires terms_bounded { All (λ d. d ≤ 2000) (values terms.now) }
    requires forms_bounded { All (λ d. d ≤ 2000) (values forms.now) }
    ensures value { result ≡ form_node_depth (values types.now) (values terms.now) (values forms.now) node.now }
    ensures bound { result ≤ 2001 }
{
    match node {
        FormNode::True | FormNode::False => 1,
        FormNode::Atom(_, ids, arguments) => {
            1 + greater(
                types_depth(types, ids.as_slice()),
                terms_depth(terms, arguments.as_slice()),
            )
        }
        FormNode::Equal(ty, left, right) => {
            let sides = greater(bounded_at(terms, left.0), bounded_at(terms, right.0));
            1 + greater(bounded_at(types, ty.0), sides)
        }
        FormNode::Not(f) | FormNode::AllType(f) | FormNode::ExType(f) => 1 + bounded_at(forms, f.0),
        FormNode::And(f, g) | FormNode::Or(f, g) | FormNode::Imp(f, g) | FormNode::Iff(f, g) => {
            1 + greater(bounded_at(forms, f.0), bounded_at(forms, g.0))
        }
        FormNode::All(ty, f) | FormNode::Ex(ty, f) => {
            1 + greater(bounded_at(types, ty.0), bounded_at(forms, f.0))
        }
    }
}
