ghost use Rattle.std.specs.Prelude.{◌≡◌, ◌+◌, ◌<◌, ◌≤◌, length, max, OnOk, IfOk, IfErr};
ghost use Rattle.zm_logic.specs.Measure.{type_depth, depth};
ghost use Rattle.zm_logic.specs.Tree as tree;
ghost use Rattle.term_store.specs.Connective.{connective_of, quantifier_of};
ghost use Rattle.term_store.specs.Node.{TypesBelow, TermsBelow, types_at, terms_at};
ghost use Rattle.term_store.specs.Trees.{HasType, type_of, HasTerm, term_of, HasForm, form_of, all_trees, Extends};
ghost use Rattle.term_store.specs.Change.{HasChange, is_closed, type_after, form_after, tree_after, IsTypeId, IsFormId, Knows};
ghost use Rattle.term_store.specs.Fault.{IfTooDeep};

use crate::connective::{Connective, Quantifier};
use crate::fault::EnterFault;
use crate::ids::{FormId, TermId, TermIds, TyId, TyIds};
use crate::memo::{Memo, Place, note, recall};
use crate::node::FormNode;
use crate::opening::Opening;
use crate::store::Store;
use zm_logic::SymId;

/// What is done at the leaves of a tree.
#[derive(Clone, Copy)]
pub(crate) enum Change {
    /// The index that counts the binders is opened.
    Opens(Opening),
    /// Epsilon terms and type parameters of the number are closed.
    Closes(u64),
}

/// Whether the number is closed.
pub(crate) fn closes(change: &Change, number: u64) -> bool
    ensures { result ≡ is_closed change.now number }
{
    match change {
        Change::Opens(_) => false,
        Change::Closes(closed) => number == *closed,
    }
}

impl Store {
    /// The formula with the change, under as many binders.
    #[cycle(change_form)]
    pub(crate) fn change_form(
        &mut self,
        memo: &mut Memo,
        id: FormId,
        at: u32,
        change: &Change,
    ) -> Result<FormId, EnterFault>
        requires has { HasForm self.old id }
        requires part { HasChange self.old change.now }
        requires room { at + depth (form_of self.old id) ≤ 2000 }
        requires knows { Knows self.old change.now memo.old }
        ensures made { IfOk result (IsFormId self.new (form_after self.old change.now at id)) }
        ensures deep { IfErr result (IfTooDeep (2000 < depth (form_after self.old change.now at id))) }
        ensures kept { Extends self.old self.new }
        ensures knows { OnOk result (Knows self.new change.now memo.new) }
    {
        let place = Place {
            tree: id.0,
            binders: at,
        };
        if let Some(made) = recall(&memo.forms, place) {
            return Ok(FormId(made));
        }
        let made = self.changed_form(memo, id, at, change)?;
        note(&mut memo.forms, place, made.0)?;
        Ok(made)
    }

    #[cycle(change_form)]
    fn changed_form(
        &mut self,
        memo: &mut Memo,
        id: FormId,
        at: u32,
        change: &Change,
    ) -> Result<FormId, EnterFault>
        requires has { HasForm self.old id }
        requires part { HasChange self.old change.now }
        requires room { at + depth (form_of self.old id) ≤ 2000 }
        requires knows { Knows self.old change.now memo.old }
        ensures made { IfOk result (IsFormId self.new (form_after self.old change.now at id)) }
        ensures deep { IfErr result (IfTooDeep (2000 < depth (form_after self.old change.now at id))) }
        ensures kept { Extends self.old self.new }
        ensures knows { OnOk result (Knows self.new change.now memo.new) }
    {
        match self.copied_form(id)? {
            FormNode::True | FormNode::False => Ok(id),
            FormNode::Atom(symbol, types, terms) => {
                self.change_atom(memo, symbol, &types, &terms, at, change)
            }
            FormNode::Equal(ty, left, right) => {
                self.change_equal(memo, (ty, left, right), at, change)
            }
            FormNode::Not(f) => self.change_not(memo, f, at, change),
            FormNode::And(f, g) => self.change_binary(memo, Connective::And, f, g, at, change),
            FormNode::Or(f, g) => self.change_binary(memo, Connective::Or, f, g, at, change),
            FormNode::Imp(f, g) => self.change_binary(memo, Connective::Imp, f, g, at, change),
            FormNode::Iff(f, g) => self.change_binary(memo, Connective::Iff, f, g, at, change),
            FormNode::All(ty, f) => self.change_quantified(
                memo,
                Quantifier::All,
                ty,
                f,
                at,
                change,
            ),
            FormNode::Ex(ty, f) => self.change_quantified(memo, Quantifier::Ex, ty, f, at, change),
            FormNode::AllType(f) => self.change_quantified_types(
                memo,
                Quantifier::All,
                f,
                at,
                change,
            ),
            FormNode::ExType(f) => self.change_quantified_types(
                memo,
                Quantifier::Ex,
                f,
                at,
                change,
            ),
        }
    }

    fn change_atom(
        &mut self,
        memo: &mut Memo,
        symbol: SymId,
        types: &TyIds,
        terms: &TermIds,
        at: u32,
        change: &Change,
    ) -> Result<FormId, EnterFault>
        requires below { TypesBelow (length self.old.types) types.now }
        requires terms_below { TermsBelow (length self.old.terms) terms.now }
        requires part { HasChange self.old change.now }
        requires knows { Knows self.old change.now memo.old }
        ensures made { IfOk result (IsFormId self.new (tree_after self.old change.now at (tree.Form.atom symbol.0 (types_at (all_trees self.old).types types.now) (terms_at (all_trees self.old).terms terms.now)))) }
        ensures deep { IfErr result (IfTooDeep (2000 < depth (tree_after self.old change.now at (tree.Form.atom symbol.0 (types_at (all_trees self.old).types types.now) (terms_at (all_trees self.old).terms terms.now))))) }
        ensures kept { Extends self.old self.new }
        ensures knows { OnOk result (Knows self.new change.now memo.new) }
    {
        let (types, terms) = self.change_parts(memo, types, terms, at, change)?;
        self.put_form(FormNode::Atom(symbol, types, terms))
    }

    fn change_equal(
        &mut self,
        memo: &mut Memo,
        sides: (TyId, TermId, TermId),
        at: u32,
        change: &Change,
    ) -> Result<FormId, EnterFault>
        requires has { HasType self.old sides.0 }
        requires has_left { HasTerm self.old sides.1 }
        requires has_right { HasTerm self.old sides.2 }
        requires part { HasChange self.old change.now }
        requires knows { Knows self.old change.now memo.old }
        ensures made { IfOk result (IsFormId self.new (tree_after self.old change.now at (tree.Form.equal (type_of self.old sides.0) (term_of self.old sides.1) (term_of self.old sides.2)))) }
        ensures deep { IfErr result (IfTooDeep (2000 < depth (tree_after self.old change.now at (tree.Form.equal (type_of self.old sides.0) (term_of self.old sides.1) (term_of self.old sides.2))))) }
        ensures kept { Extends self.old self.new }
        ensures knows { OnOk result (Knows self.new change.now memo.new) }
    {
        let (ty, left, right) = self.change_sides(memo, sides, at, change)?;
        self.put_form(FormNode::Equal(ty, left, right))
    }

    #[cycle(change_form)]
    fn change_not(
        &mut self,
        memo: &mut Memo,
        f: FormId,
        at: u32,
        change: &Change,
    ) -> Result<FormId, EnterFault>
        requires has { HasForm self.old f }
        requires part { HasChange self.old change.now }
        requires room { at + depth (form_of self.old f) ≤ 2000 }
        requires knows { Knows self.old change.now memo.old }
        ensures made { IfOk result (IsFormId self.new (tree_after self.old change.now at (tree.Form.negation (form_of self.old f)))) }
        ensures deep { IfErr result (IfTooDeep (2000 < depth (tree_after self.old change.now at (tree.Form.negation (form_of self.old f))))) }
        ensures kept { Extends self.old self.new }
        ensures knows { OnOk result (Knows self.new change.now memo.new) }
    {
        let f = self.change_form(memo, f, at, change)?;
        self.put_not(f)
    }

    #[cycle(change_form)]
    fn change_binary(
        &mut self,
        memo: &mut Memo,
        connective: Connective,
        f: FormId,
        g: FormId,
        at: u32,
        change: &Change,
    ) -> Result<FormId, EnterFault>
        requires has { HasForm self.old f }
        requires has_other { HasForm self.old g }
        requires part { HasChange self.old change.now }
        requires room { at + max (depth (form_of self.old f)) (depth (form_of self.old g)) ≤ 2000 }
        requires knows { Knows self.old change.now memo.old }
        ensures made { IfOk result (IsFormId self.new (tree_after self.old change.now at (tree.Form.binary (connective_of connective) (form_of self.old f) (form_of self.old g)))) }
        ensures deep { IfErr result (IfTooDeep (2000 < depth (tree_after self.old change.now at (tree.Form.binary (connective_of connective) (form_of self.old f) (form_of self.old g))))) }
        ensures kept { Extends self.old self.new }
        ensures knows { OnOk result (Knows self.new change.now memo.new) }
    {
        let (f, g) = self.change_two(memo, f, g, at, change)?;
        self.put_binary(connective, f, g)
    }

    #[cycle(change_form)]
    fn change_quantified(
        &mut self,
        memo: &mut Memo,
        quantifier: Quantifier,
        ty: TyId,
        f: FormId,
        at: u32,
        change: &Change,
    ) -> Result<FormId, EnterFault>
        requires has { HasType self.old ty }
        requires has_body { HasForm self.old f }
        requires part { HasChange self.old change.now }
        requires room { at + 1 + depth (form_of self.old f) ≤ 2000 }
        requires knows { Knows self.old change.now memo.old }
        ensures made { IfOk result (IsFormId self.new (tree_after self.old change.now at (tree.Form.quantified (quantifier_of quantifier) (type_of self.old ty) (form_of self.old f)))) }
        ensures deep { IfErr result (IfTooDeep (2000 < depth (tree_after self.old change.now at (tree.Form.quantified (quantifier_of quantifier) (type_of self.old ty) (form_of self.old f))))) }
        ensures kept { Extends self.old self.new }
        ensures knows { OnOk result (Knows self.new change.now memo.new) }
    {
        let (ty, f) = self.change_body(memo, ty, f, at, change)?;
        self.put_quantified(quantifier, ty, f)
    }

    #[cycle(change_form)]
    fn change_quantified_types(
        &mut self,
        memo: &mut Memo,
        quantifier: Quantifier,
        f: FormId,
        at: u32,
        change: &Change,
    ) -> Result<FormId, EnterFault>
        requires has_body { HasForm self.old f }
        requires part { HasChange self.old change.now }
        requires room { at + 1 + depth (form_of self.old f) ≤ 2000 }
        requires knows { Knows self.old change.now memo.old }
        ensures made { IfOk result (IsFormId self.new (tree_after self.old change.now at (tree.Form.quantified_types (quantifier_of quantifier) (form_of self.old f)))) }
        ensures deep { IfErr result (IfTooDeep (2000 < depth (tree_after self.old change.now at (tree.Form.quantified_types (quantifier_of quantifier) (form_of self.old f))))) }
        ensures kept { Extends self.old self.new }
        ensures knows { OnOk result (Knows self.new change.now memo.new) }
    {
        let f = self.change_form(memo, f, at + 1, change)?;
        self.put_quantified_types(quantifier, f)
    }

    #[cycle(change_form)]
    fn change_two(
        &mut self,
        memo: &mut Memo,
        f: FormId,
        g: FormId,
        at: u32,
        change: &Change,
    ) -> Result<(FormId, FormId), EnterFault>
        requires has { HasForm self.old f }
        requires has_other { HasForm self.old g }
        requires part { HasChange self.old change.now }
        requires room { at + depth (form_of self.old f) ≤ 2000 }
        requires room_other { at + depth (form_of self.old g) ≤ 2000 }
        requires knows { Knows self.old change.now memo.old }
        ensures made { IfOk result (λ p. IsFormId self.new (form_after self.old change.now at f) p.0) }
        ensures made_other { IfOk result (λ p. IsFormId self.new (form_after self.old change.now at g) p.1) }
        ensures deep { IfErr result (IfTooDeep (2000 < max (depth (form_after self.old change.now at f)) (depth (form_after self.old change.now at g)))) }
        ensures kept { Extends self.old self.new }
        ensures knows { OnOk result (Knows self.new change.now memo.new) }
    {
        let f = self.change_form(memo, f, at, change)?;
        let g = self.change_form(memo, g, at, change)?;
        Ok((f, g))
    }

    // A quantifier's type, and its body under one binder more.
    #[cycle(change_form)]
    fn change_body(
        &mut self,
        memo: &mut Memo,
        ty: TyId,
        f: FormId,
        at: u32,
        change: &Change,
    ) -> Result<(TyId, FormId), EnterFault>
        requires has { HasType self.old ty }
        requires has_body { HasForm self.old f }
        requires part { HasChange self.old change.now }
        requires room { at + 1 + depth (form_of self.old f) ≤ 2000 }
        requires knows { Knows self.old change.now memo.old }
        ensures made { IfOk result (λ p. IsTypeId self.new (type_after self.old change.now at ty) p.0) }
        ensures made_body { IfOk result (λ p. IsFormId self.new (form_after self.old change.now (at + 1) f) p.1) }
        ensures deep { IfErr result (IfTooDeep (2000 < max (type_depth (type_after self.old change.now at ty)) (depth (form_after self.old change.now (at + 1) f)))) }
        ensures kept { Extends self.old self.new }
        ensures knows { OnOk result (Knows self.new change.now memo.new) }
    {
        let ty = self.change_ty(memo, ty, at, change)?;
        let f = self.change_form(memo, f, at + 1, change)?;
        Ok((ty, f))
    }

    /// The whole formula with the change.
    pub(crate) fn change_whole(
        &mut self,
        form: FormId,
        change: &Change,
    ) -> Result<FormId, EnterFault>
        requires has { HasForm self.old form }
        requires part { HasChange self.old change.now }
        ensures made { IfOk result (IsFormId self.new (form_after self.old change.now 0 form)) }
        ensures deep { IfErr result (IfTooDeep (2000 < depth (form_after self.old change.now 0 form))) }
        ensures kept { Extends self.old self.new }
        ensures bounded { OnOk result (depth (form_after self.old change.now 0 form) ≤ 2000) }
    {
        let mut memo = Memo::new(self.global());
        let _ = self.form_node(form);
        let made = self.change_form(&mut memo, form, 0, change)?;
        let _ = self.form_node(made);
        Ok(made)
    }
}
