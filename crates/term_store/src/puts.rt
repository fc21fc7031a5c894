ghost use Rattle.std.specs.Prelude.{◌≡◌, ◌<◌, ◌≤◌, IfOk, IfErr, OnOk};
ghost use Rattle.zm_logic.specs.Measure.{type_depth, term_depth, depth};
ghost use Rattle.term_store.specs.Trees.{HasType, HasTypeParts, type_of, type_node, HasTerm, HasTermParts, term_of, term_node, HasForm, HasFormParts, form_of, form_node, Extends};
ghost use Rattle.term_store.specs.Change.{IsTypeId, IsTermId, IsFormId};
ghost use Rattle.term_store.specs.Fault.{IfTooDeep};

use crate::fault::{EnterFault, MkFault};
use crate::ids::{FormId, TermId, TyId};
use crate::node::{FormNode, TermNode, TyNode};
use crate::store::Store;
use std::alloc::{AllocError, Global};

impl Store {
    pub(crate) fn global(&self) -> Global {
        self.alloc
    }

    pub(crate) fn put_ty(&mut self, node: TyNode) -> Result<TyId, EnterFault>
        requires { HasTypeParts self.old node }
        ensures made { IfOk result (IsTypeId self.new (type_node self.old node)) }
        ensures deep { IfErr result (IfTooDeep (2000 < type_depth (type_node self.old node))) }
        ensures kept { Extends self.old self.new }
        ensures bounded { OnOk result (type_depth (type_node self.old node) ≤ 2000) }
    {
        match self.mk_ty(node) {
            Ok(id) => Ok(id),
            Err(MkFault::Memory) => Err(EnterFault::Memory),
            Err(MkFault::Deep(_)) => Err(EnterFault::Deep),
        }
    }

    pub(crate) fn put_term(&mut self, node: TermNode) -> Result<TermId, EnterFault>
        requires { HasTermParts self.old node }
        ensures made { IfOk result (IsTermId self.new (term_node self.old node)) }
        ensures deep { IfErr result (IfTooDeep (2000 < term_depth (term_node self.old node))) }
        ensures kept { Extends self.old self.new }
        ensures bounded { OnOk result (term_depth (term_node self.old node) ≤ 2000) }
    {
        match self.mk_term(node) {
            Ok(id) => Ok(id),
            Err(MkFault::Memory) => Err(EnterFault::Memory),
            Err(MkFault::Deep(_)) => Err(EnterFault::Deep),
        }
    }

    pub(crate) fn put_form(&mut self, node: FormNode) -> Result<FormId, EnterFault>
        requires { HasFormParts self.old node }
        ensures made { IfOk result (IsFormId self.new (form_node self.old node)) }
        ensures deep { IfErr result (IfTooDeep (2000 < depth (form_node self.old node))) }
        ensures kept { Extends self.old self.new }
        ensures bounded { OnOk result (depth (form_node self.old node) ≤ 2000) }
    {
        match self.mk_form(node) {
            Ok(id) => Ok(id),
            Err(MkFault::Memory) => Err(EnterFault::Memory),
            Err(MkFault::Deep(_)) => Err(EnterFault::Deep),
        }
    }

    /// The node of a type's id, copied.
    pub(crate) fn copied_ty(&self, id: TyId) -> Result<TyNode, AllocError>
        requires { HasType self.now id }
        ensures tree { IfOk result (λ node. type_node self.now node ≡ type_of self.now id) }
        ensures parts { IfOk result (HasTypeParts self.now) }
    {
        self.ty_node(id).copy(self.global())
    }

    /// The node of a term's id, copied.
    pub(crate) fn copied_term(&self, id: TermId) -> Result<TermNode, AllocError>
        requires { HasTerm self.now id }
        ensures tree { IfOk result (λ node. term_node self.now node ≡ term_of self.now id) }
        ensures parts { IfOk result (HasTermParts self.now) }
    {
        self.term_node(id).copy(self.global())
    }

    /// The node of a formula's id, copied.
    pub(crate) fn copied_form(&self, id: FormId) -> Result<FormNode, AllocError>
        requires { HasForm self.now id }
        ensures tree { IfOk result (λ node. form_node self.now node ≡ form_of self.now id) }
        ensures parts { IfOk result (HasFormParts self.now) }
    {
        self.form_node(id).copy(self.global())
    }
}
