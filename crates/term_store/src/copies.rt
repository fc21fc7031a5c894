ghost use Rattle.std.specs.Prelude.{◌≡◌, IfOk};

use crate::ids::{TermIds, TyIds};
use crate::node::{FormNode, TermNode, TyNode};
use std::alloc::{AllocError, Global};

impl TyIds {
    /// An equal list. The one error is want of memory.
    pub fn copy(&self, alloc: Global) -> Result<TyIds, AllocError>
        ensures { IfOk result (λ all. all ≡ self.now) }
    {
        TyIds::from_slice(alloc, self.as_slice())
    }
}

impl TermIds {
    /// An equal list. The one error is want of memory.
    pub fn copy(&self, alloc: Global) -> Result<TermIds, AllocError>
        ensures { IfOk result (λ all. all ≡ self.now) }
    {
        TermIds::from_slice(alloc, self.as_slice())
    }
}

impl TyNode {
    /// An equal node. The one error is want of memory.
    pub fn copy(&self, alloc: Global) -> Result<TyNode, AllocError>
        ensures { IfOk result (λ node. node ≡ self.now) }
    {
        Ok(match self {
            TyNode::Bound(index) => TyNode::Bound(*index),
            TyNode::Param(number) => TyNode::Param(*number),
            TyNode::Meta(number) => TyNode::Meta(*number),
            TyNode::Con(symbol, types) => TyNode::Con(*symbol, types.copy(alloc)?),
        })
    }
}

impl TermNode {
    /// An equal node. The one error is want of memory.
    pub fn copy(&self, alloc: Global) -> Result<TermNode, AllocError>
        ensures { IfOk result (λ node. node ≡ self.now) }
    {
        Ok(match self {
            TermNode::Bound(index) => TermNode::Bound(*index),
            TermNode::Eps(number, ty) => TermNode::Eps(*number, *ty),
            TermNode::Meta(number, ty) => TermNode::Meta(*number, *ty),
            TermNode::App(symbol, types, terms) => {
                TermNode::App(*symbol, types.copy(alloc)?, terms.copy(alloc)?)
            }
        })
    }
}

impl FormNode {
    /// An equal node. The one error is want of memory.
    pub fn copy(&self, alloc: Global) -> Result<FormNode, AllocError>
        ensures { IfOk result (λ node. node ≡ self.now) }
    {
        Ok(match self {
            FormNode::True => FormNode::True,
            FormNode::False => FormNode::False,
            FormNode::Atom(symbol, types, terms) => {
                FormNode::Atom(*symbol, types.copy(alloc)?, terms.copy(alloc)?)
            }
            FormNode::Equal(ty, left, right) => FormNode::Equal(*ty, *left, *right),
            FormNode::Not(f) => FormNode::Not(*f),
            FormNode::And(f, g) => FormNode::And(*f, *g),
            FormNode::Or(f, g) => FormNode::Or(*f, *g),
            FormNode::Imp(f, g) => FormNode::Imp(*f, *g),
            FormNode::Iff(f, g) => FormNode::Iff(*f, *g),
            FormNode::All(ty, f) => FormNode::All(*ty, *f),
            FormNode::Ex(ty, f) => FormNode::Ex(*ty, *f),
            FormNode::AllType(f) => FormNode::AllType(*f),
            FormNode::ExType(f) => FormNode::ExType(*f),
        })
    }
}
