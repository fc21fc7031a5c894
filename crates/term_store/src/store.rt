ghost use Rattle.std.specs.Prelude.{◌≡◌, ◌<◌, ◌≤◌, ◌++◌, ◌∷◌, [], None, OnOk, OnErr, IfOk, IfErr};
ghost use Rattle.indexmap.specs.IndexMap.{get};
ghost use Rattle.zm_logic.specs.Measure.{type_depth, term_depth, depth};
ghost use Rattle.term_store.specs.Trees.{HasType, HasTypeParts, type_of, type_node, HasTerm, HasTermParts, term_of, term_node, HasForm, HasFormParts, form_of, form_node, Extends};
ghost use Rattle.term_store.specs.Fault.{IfDeep};

use crate::depths::{form_depth_of, term_depth_of, type_depth_of};
use crate::fault::MkFault;
use crate::ids::{FormId, TermId, TyId};
use crate::node::{FormNode, TermNode, TyNode};
use indexmap::IndexMap;
use std::alloc::Global;
use std::hash::Hash;
use std::marker::Model;

/// The greatest depth of a stored tree.
pub const MAX_DEPTH: u64 = 2000;

/// Types, terms and formulas, each stored once.
///
/// Contracts see the nodes of the three tables, and speak of them by the trees of the ids: `type_of`, `term_of` and
/// `form_of` give the tree of an id. An id that was given keeps its tree. Each tree is at most 2,000 deep.
#[derive(Drop)]
pub struct Store {
    pub(crate) alloc: Global,
    // beside each node stands its tree's depth
    pub(crate) types: IndexMap<TyNode, u64>,
    pub(crate) terms: IndexMap<TermNode, u64>,
    pub(crate) forms: IndexMap<FormNode, u64>,
}

impl Model for Store {
    ghost use Rattle.indexmap.specs.IndexMap.{keys, values};
    ghost use Rattle.term_store.specs.Trees.{Tables};
    ghost use Rattle.term_store.specs.Sound.{IsSound};

    ghost Value = { Tables };

    ghost view = { λ s. record { types = keys s.types; terms = keys s.terms; forms = keys s.forms } };

    ghost invariant = { λ s. IsSound (keys s.types) (values s.types) (keys s.terms) (values s.terms) (keys s.forms) (values s.forms) };
}

// Adds a node that isn't there.
fn add<N: Eq + Hash + Drop>(
    map: &mut IndexMap<N, u64>,
    node: N,
    depth: u64,
) -> Result<(), MkFault<N>>
    requires { get N.eq map.old node ≡ None }
    ensures ok { OnOk result (map.new.entries ≡ map.old.entries ++ (node, depth) ∷ []) }
    ensures err { OnErr result (map.new.entries ≡ map.old.entries) }
    ensures memory { IfErr result (IfDeep (λ _. ⊥)) }
{
    match map.insert(node, depth) {
        Ok(_) => Ok(()),
        Err(_) => Err(MkFault::Memory),
    }
}

impl Store {
    /// A store of nothing. It takes no memory.
    pub fn new(alloc: Global) -> Store
        ensures types { result.types ≡ [] }
        ensures terms { result.terms ≡ [] }
        ensures forms { result.forms ≡ [] }
    {
        Store {
            alloc,
            types: IndexMap::new(alloc),
            terms: IndexMap::new(alloc),
            forms: IndexMap::new(alloc),
        }
    }

    /// The id of a type's node: its own where it is stored, and else a new one. `Deep` hands the node back, exactly
    /// where the type would be deeper than 2,000. After an error the store is as it was.
    pub fn mk_ty(&mut self, node: TyNode) -> Result<TyId, MkFault<TyNode>>
        requires { HasTypeParts self.old node }
        ensures has { IfOk result (HasType self.new) }
        ensures tree { IfOk result (λ id. type_of self.new id ≡ type_node self.old node) }
        ensures kept { Extends self.old self.new }
        ensures bounded { OnOk result (type_depth (type_node self.old node) ≤ 2000) }
        ensures deep { IfErr result (IfDeep (λ n. (n ≡ node) × (2000 < type_depth (type_node self.old node)))) }
        ensures err { OnErr result (self.new ≡ self.old) }
    {
        if let Some(place) = self.types.get_index_of(&node) {
            return Ok(TyId(place));
        }
        let depth = type_depth_of(&self.types, &node);
        if depth > MAX_DEPTH {
            return Err(MkFault::Deep(node));
        }
        let place = self.types.len();
        add(&mut self.types, node, depth)?;
        Ok(TyId(place))
    }

    /// The id of a term's node: its own where it is stored, and else a new one. `Deep` hands the node back, exactly
    /// where the term would be deeper than 2,000. After an error the store is as it was.
    pub fn mk_term(&mut self, node: TermNode) -> Result<TermId, MkFault<TermNode>>
        requires { HasTermParts self.old node }
        ensures has { IfOk result (HasTerm self.new) }
        ensures tree { IfOk result (λ id. term_of self.new id ≡ term_node self.old node) }
        ensures kept { Extends self.old self.new }
        ensures bounded { OnOk result (term_depth (term_node self.old node) ≤ 2000) }
        ensures deep { IfErr result (IfDeep (λ n. (n ≡ node) × (2000 < term_depth (term_node self.old node)))) }
        ensures err { OnErr result (self.new ≡ self.old) }
    {
        if let Some(place) = self.terms.get_index_of(&node) {
            return Ok(TermId(place));
        }
        let depth = term_depth_of(&self.types, &self.terms, &node);
        if depth > MAX_DEPTH {
            return Err(MkFault::Deep(node));
        }
        let place = self.terms.len();
        add(&mut self.terms, node, depth)?;
        Ok(TermId(place))
    }

    /// The id of a formula's node: its own where it is stored, and else a new one. `Deep` hands the node back, exactly
    /// where the formula would be deeper than 2,000. After an error the store is as it was.
    pub fn mk_form(&mut self, node: FormNode) -> Result<FormId, MkFault<FormNode>>
        requires { HasFormParts self.old node }
        ensures has { IfOk result (HasForm self.new) }
        ensures tree { IfOk result (λ id. form_of self.new id ≡ form_node self.old node) }
        ensures kept { Extends self.old self.new }
        ensures bounded { OnOk result (depth (form_node self.old node) ≤ 2000) }
        ensures deep { IfErr result (IfDeep (λ n. (n ≡ node) × (2000 < depth (form_node self.old node)))) }
        ensures err { OnErr result (self.new ≡ self.old) }
    {
        if let Some(place) = self.forms.get_index_of(&node) {
            return Ok(FormId(place));
        }
        let depth = form_depth_of(&self.types, &self.terms, &self.forms, &node);
        if depth > MAX_DEPTH {
            return Err(MkFault::Deep(node));
        }
        let place = self.forms.len();
        add(&mut self.forms, node, depth)?;
        Ok(FormId(place))
    }
}
