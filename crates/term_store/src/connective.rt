ghost use Rattle.std.specs.Prelude.{◌≡◌, ◌<◌, ◌≤◌, IfOk, IfErr, OnOk};
ghost use Rattle.zm_logic.specs.Measure.{depth};
ghost use Rattle.zm_logic.specs.Tree as tree;
ghost use Rattle.term_store.specs.Connective.{connective_of, quantifier_of};
ghost use Rattle.term_store.specs.Change.{IsFormId};
ghost use Rattle.term_store.specs.Fault.{IfTooDeep};
ghost use Rattle.term_store.specs.Trees.{HasType, type_of, HasForm, form_of, Extends};

use crate::fault::EnterFault;
use crate::ids::{FormId, TyId};
use crate::node::FormNode;
use crate::store::Store;

/// A connective of two formulas.
#[derive(Clone, Copy)]
pub(crate) enum Connective {
    And,
    Or,
    Imp,
    Iff,
}

/// A quantifier, over terms or over types.
#[derive(Clone, Copy)]
pub(crate) enum Quantifier {
    All,
    Ex,
}

// Each stores one constructor over stored parts.
impl Store {
    pub(crate) fn put_not(&mut self, f: FormId) -> Result<FormId, EnterFault>
        requires { HasForm self.old f }
        ensures made { IfOk result (IsFormId self.new (tree.Form.negation (form_of self.old f))) }
        ensures deep { IfErr result (IfTooDeep (2000 < depth (tree.Form.negation (form_of self.old f)))) }
        ensures kept { Extends self.old self.new }
        ensures bounded { OnOk result (depth (tree.Form.negation (form_of self.old f)) ≤ 2000) }
    {
        self.put_form(FormNode::Not(f))
    }

    pub(crate) fn put_binary(
        &mut self,
        c: Connective,
        f: FormId,
        g: FormId,
    ) -> Result<FormId, EnterFault>
        requires has { HasForm self.old f }
        requires has_other { HasForm self.old g }
        ensures made { IfOk result (IsFormId self.new (tree.Form.binary (connective_of c) (form_of self.old f) (form_of self.old g))) }
        ensures deep { IfErr result (IfTooDeep (2000 < depth (tree.Form.binary (connective_of c) (form_of self.old f) (form_of self.old g)))) }
        ensures kept { Extends self.old self.new }
        ensures bounded { OnOk result (depth (tree.Form.binary (connective_of c) (form_of self.old f) (form_of self.old g)) ≤ 2000) }
    {
        match c {
            Connective::And => self.put_form(FormNode::And(f, g)),
            Connective::Or => self.put_form(FormNode::Or(f, g)),
            Connective::Imp => self.put_form(FormNode::Imp(f, g)),
            Connective::Iff => self.put_form(FormNode::Iff(f, g)),
        }
    }

    pub(crate) fn put_quantified(
        &mut self,
        q: Quantifier,
        ty: TyId,
        f: FormId,
    ) -> Result<FormId, EnterFault>
        requires has { HasType self.old ty }
        requires has_body { HasForm self.old f }
        ensures made { IfOk result (IsFormId self.new (tree.Form.quantified (quantifier_of q) (type_of self.old ty) (form_of self.old f))) }
        ensures deep { IfErr result (IfTooDeep (2000 < depth (tree.Form.quantified (quantifier_of q) (type_of self.old ty) (form_of self.old f)))) }
        ensures kept { Extends self.old self.new }
        ensures bounded { OnOk result (depth (tree.Form.quantified (quantifier_of q) (type_of self.old ty) (form_of self.old f)) ≤ 2000) }
    {
        match q {
            Quantifier::All => self.put_form(FormNode::All(ty, f)),
            Quantifier::Ex => self.put_form(FormNode::Ex(ty, f)),
        }
    }

    pub(crate) fn put_quantified_types(
        &mut self,
        q: Quantifier,
        f: FormId,
    ) -> Result<FormId, EnterFault>
        requires { HasForm self.old f }
        ensures made { IfOk result (IsFormId self.new (tree.Form.quantified_types (quantifier_of q) (form_of self.old f))) }
        ensures deep { IfErr result (IfTooDeep (2000 < depth (tree.Form.quantified_types (quantifier_of q) (form_of self.old f)))) }
        ensures kept { Extends self.old self.new }
        ensures bounded { OnOk result (depth (tree.Form.quantified_types (quantifier_of q) (form_of self.old f)) ≤ 2000) }
    {
        match q {
            Quantifier::All => self.put_form(FormNode::AllType(f)),
            Quantifier::Ex => self.put_form(FormNode::ExType(f)),
        }
    }
}
