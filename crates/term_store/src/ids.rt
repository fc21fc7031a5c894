ghost use Rattle.std.specs.Prelude.{◌≡◌, List, [], ◌∷◌, ◌++◌, OnOk, OnErr, IfOk, nat_eq};
ghost use Rattle.std.proofs.Common.{rules};
ghost use Rattle.std.specs.Cmp.Rules.{comparing, hashing};
ghost use Rattle.std.specs.Hash as fed;
ghost use Rattle.std.specs.Hash.{items_Alike};
ghost use Rattle.std.specs.Ordering.{on};
ghost use Rattle.std.specs.Cmp.Lexicographic.{pointwise, lists_per, lists_equiv};

use smallvec::SmallVec;
use sqlite_items::Items;
use std::alloc::{AllocError, Global};
use std::hash::{Hash, Hasher};
use std::marker::Model;

/// The place of a type in the store that gave it.
#[derive(Clone, Copy, Debug, Default, PartialEq, Eq, Hash)]
pub struct TyId(pub usize);

/// The place of a term in the store that gave it.
#[derive(Clone, Copy, Debug, Default, PartialEq, Eq, Hash)]
pub struct TermId(pub usize);

/// The place of a formula in the store that gave it.
#[derive(Clone, Copy, Debug, Default, PartialEq, Eq, Hash)]
pub struct FormId(pub usize);

/// A list of ids of formulas.
pub type FormIds = Items<FormId>;

/// A list of ids of types. Up to four take no memory, and contracts see a list.
#[derive(Drop)]
pub struct TyIds {
    ids: SmallVec<TyId, 4>,
}

impl Model for TyIds {
    ghost use Rattle.std.specs.Prelude.{List};
    ghost use Rattle.term_store.specs.declared.ids.TyId.{TyId};

    ghost Value = { List TyId };

    ghost view = { λ s. s.ids.items };
}

impl TyIds {
    /// No ids.
    pub fn new(alloc: Global) -> TyIds
        ensures { result ≡ [] }
    {
        TyIds {
            ids: SmallVec::new(alloc),
        }
    }

    /// The given ids. The one error is want of memory.
    pub fn from_slice(alloc: Global, ids: &[TyId]) -> Result<TyIds, AllocError>
        ensures { IfOk result (λ all. all ≡ ids.now) }
    {
        let ids = SmallVec::from_slice(alloc, ids)?;
        Ok(TyIds { ids })
    }

    /// Adds an id at the end. After want of memory the list is as it was.
    pub fn push(&mut self, id: TyId) -> Result<(), AllocError>
        ensures ok { OnOk result (self.new ≡ self.old ++ id ∷ []) }
        ensures err { OnErr result (self.new ≡ self.old) }
    {
        match self.ids.push(id) {
            Ok(()) => Ok(()),
            Err(_) => Err(AllocError),
        }
    }

    /// The ids in order.
    pub fn as_slice(&self) -> &[TyId]
        ensures { result.now ≡ self.now }
    {
        self.ids.as_slice()
    }
}

impl PartialEq for TyIds {
    ghost eq = { pointwise (on (λ i. i.0) nat_eq) };

    ghost laws = { lists_per (Prim.search (comparing, rules)) };

    fn eq(&self, other: &TyIds) -> bool {
        self.ids.as_slice() == other.ids.as_slice()
    }
}

impl Eq for TyIds {
    ghost laws = { lists_equiv (Prim.search (comparing, rules)) };
}

impl Hash for TyIds {
    ghost hash_input = { fed.slice (λ i. fed.usize i.0) };

    ghost respects_eq = { (items_Alike {F = λ i. fed.usize i.0} (record { fed = Prim.search (hashing, rules) })).fed };

    fn hash<H: Hasher>(&self, state: &mut H) {
        self.ids.as_slice().hash(state);
    }
}

/// A list of ids of terms. Up to four take no memory, and contracts see a list.
#[derive(Drop)]
pub struct TermIds {
    ids: SmallVec<TermId, 4>,
}

impl Model for TermIds {
    ghost use Rattle.std.specs.Prelude.{List};
    ghost use Rattle.term_store.specs.declared.ids.TermId.{TermId};

    ghost Value = { List TermId };

    ghost view = { λ s. s.ids.items };
}

impl TermIds {
    /// No ids.
    pub fn new(alloc: Global) -> TermIds
        ensures { result ≡ [] }
    {
        TermIds {
            ids: SmallVec::new(alloc),
        }
    }

    /// The given ids. The one error is want of memory.
    pub fn from_slice(alloc: Global, ids: &[TermId]) -> Result<TermIds, AllocError>
        ensures { IfOk result (λ all. all ≡ ids.now) }
    {
        let ids = SmallVec::from_slice(alloc, ids)?;
        Ok(TermIds { ids })
    }

    /// Adds an id at the end. After want of memory the list is as it was.
    pub fn push(&mut self, id: TermId) -> Result<(), AllocError>
        ensures ok { OnOk result (self.new ≡ self.old ++ id ∷ []) }
        ensures err { OnErr result (self.new ≡ self.old) }
    {
        match self.ids.push(id) {
            Ok(()) => Ok(()),
            Err(_) => Err(AllocError),
        }
    }

    /// The ids in order.
    pub fn as_slice(&self) -> &[TermId]
        ensures { result.now ≡ self.now }
    {
        self.ids.as_slice()
    }
}

impl PartialEq for TermIds {
    ghost eq = { pointwise (on (λ i. i.0) nat_eq) };

    ghost laws = { lists_per (Prim.search (comparing, rules)) };

    fn eq(&self, other: &TermIds) -> bool {
        self.ids.as_slice() == other.ids.as_slice()
    }
}

impl Eq for TermIds {
    ghost laws = { lists_equiv (Prim.search (comparing, rules)) };
}

impl Hash for TermIds {
    ghost hash_input = { fed.slice (λ i. fed.usize i.0) };

    ghost respects_eq = { (items_Alike {F = λ i. fed.usize i.0} (record { fed = Prim.search (hashing, rules) })).fed };

    fn hash<H: Hasher>(&self, state: &mut H) {
        self.ids.as_slice().hash(state);
    }
}
