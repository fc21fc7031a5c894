ghost use Rattle.std.specs.Prelude.{◌≡◌, ◌+◌, ◌<◌, max, OnOk, IfOk, IfErr, length};
ghost use Rattle.zm_logic.specs.Measure.{type_depth, types_depth, term_depth, terms_depth};
ghost use Rattle.zm_logic.specs.Tree as tree;
ghost use Rattle.term_store.specs.Node.{TypesBelow, TermsBelow, types_at, terms_at};
ghost use Rattle.term_store.specs.Trees.{HasType, type_of, HasTerm, term_of, all_trees, Extends};
ghost use Rattle.term_store.specs.Change.{HasChange, change_of, type_after, types_after, term_after, terms_after, changed_type, changed_types, changed_term, changed_terms, IsTypeId, IsTermId, AreTypeIds, AreTermIds, Knows, term_put as put};
ghost use Rattle.term_store.specs.Fault.{IfTooDeep};

use crate::change::{Change, closes};
use crate::fault::EnterFault;
use crate::ids::{TermId, TermIds, TyId, TyIds};
use crate::memo::{Memo, Place, note, recall};
use crate::node::TermNode;
use crate::opening::Opening;
use crate::store::Store;
use zm_logic::SymId;

// The id of what stands for a term's index.
fn term_put(id: TermId, index: u32, at: u32, change: &Change) -> TermId
    ensures { result ≡ put id index at change.now }
{
    match change {
        Change::Opens(Opening::OfTerm(u)) if index == at => *u,
        Change::Opens(_) | Change::Closes(_) => id,
    }
}

impl Store {
    /// The term with the change.
    #[cycle(change_term)]
    pub(crate) fn change_term(
        &mut self,
        memo: &mut Memo,
        id: TermId,
        at: u32,
        change: &Change,
    ) -> Result<TermId, EnterFault>
        requires has { HasTerm self.old id }
        requires part { HasChange self.old change.now }
        requires knows { Knows self.old change.now memo.old }
        ensures made { IfOk result (IsTermId self.new (term_after self.old change.now at id)) }
        ensures deep { IfErr result (IfTooDeep (2000 < term_depth (term_after self.old change.now at id))) }
        ensures kept { Extends self.old self.new }
        ensures knows { OnOk result (Knows self.new change.now memo.new) }
    {
        let place = Place {
            tree: id.0,
            binders: at,
        };
        if let Some(made) = recall(&memo.terms, place) {
            return Ok(TermId(made));
        }
        let made = self.changed_term(memo, id, at, change)?;
        note(&mut memo.terms, place, made.0)?;
        Ok(made)
    }

    #[cycle(change_term)]
    fn changed_term(
        &mut self,
        memo: &mut Memo,
        id: TermId,
        at: u32,
        change: &Change,
    ) -> Result<TermId, EnterFault>
        requires has { HasTerm self.old id }
        requires part { HasChange self.old change.now }
        requires knows { Knows self.old change.now memo.old }
        ensures made { IfOk result (IsTermId self.new (term_after self.old change.now at id)) }
        ensures deep { IfErr result (IfTooDeep (2000 < term_depth (term_after self.old change.now at id))) }
        ensures kept { Extends self.old self.new }
        ensures knows { OnOk result (Knows self.new change.now memo.new) }
    {
        match self.copied_term(id)? {
            TermNode::Bound(index) => Ok(term_put(id, index, at, change)),
            TermNode::Eps(number, ty) => self.changed_eps(memo, number, ty, at, change),
            TermNode::Meta(number, ty) => self.changed_meta(memo, number, ty, at, change),
            TermNode::App(symbol, types, terms) => {
                self.changed_app(memo, symbol, &types, &terms, at, change)
            }
        }
    }

    #[cycle(change_term)]
    fn changed_app(
        &mut self,
        memo: &mut Memo,
        symbol: SymId,
        types: &TyIds,
        terms: &TermIds,
        at: u32,
        change: &Change,
    ) -> Result<TermId, EnterFault>
        requires below { TypesBelow (length self.old.types) types.now }
        requires terms_below { TermsBelow (length self.old.terms) terms.now }
        requires part { HasChange self.old change.now }
        requires knows { Knows self.old change.now memo.old }
        ensures made { IfOk result (IsTermId self.new (tree.Term.app symbol.0 (types_after self.old change.now at types.now) (terms_after self.old change.now at terms.now))) }
        ensures deep { IfErr result (IfTooDeep (2000 < 1 + max (types_depth (types_after self.old change.now at types.now)) (terms_depth (terms_after self.old change.now at terms.now)))) }
        ensures kept { Extends self.old self.new }
        ensures knows { OnOk result (Knows self.new change.now memo.new) }
    {
        let terms = self.change_terms(memo, terms, at, change)?;
        self.put_app(memo, symbol, types, terms, at, change)
    }

    // The function at the changed types and at terms that are changed already.
    fn put_app(
        &mut self,
        memo: &mut Memo,
        symbol: SymId,
        types: &TyIds,
        terms: TermIds,
        at: u32,
        change: &Change,
    ) -> Result<TermId, EnterFault>
        requires below { TypesBelow (length self.old.types) types.now }
        requires terms_below { TermsBelow (length self.old.terms) terms }
        requires part { HasChange self.old change.now }
        requires knows { Knows self.old change.now memo.old }
        ensures made { IfOk result (IsTermId self.new (tree.Term.app symbol.0 (types_after self.old change.now at types.now) (terms_at (all_trees self.old).terms terms))) }
        ensures deep { IfErr result (IfTooDeep (2000 < 1 + max (types_depth (types_after self.old change.now at types.now)) (terms_depth (terms_at (all_trees self.old).terms terms)))) }
        ensures kept { Extends self.old self.new }
        ensures knows { OnOk result (Knows self.new change.now memo.new) }
    {
        let types = self.change_tys(memo, types, at, change)?;
        self.put_term(TermNode::App(symbol, types, terms))
    }

    fn changed_eps(
        &mut self,
        memo: &mut Memo,
        number: u64,
        ty: TyId,
        at: u32,
        change: &Change,
    ) -> Result<TermId, EnterFault>
        requires has { HasType self.old ty }
        requires part { HasChange self.old change.now }
        requires knows { Knows self.old change.now memo.old }
        ensures made { IfOk result (IsTermId self.new (changed_term at (change_of self.old change.now) (tree.Term.eps number (type_of self.old ty)))) }
        ensures deep { IfErr result (IfTooDeep (2000 < term_depth (changed_term at (change_of self.old change.now) (tree.Term.eps number (type_of self.old ty))))) }
        ensures kept { Extends self.old self.new }
        ensures knows { OnOk result (Knows self.new change.now memo.new) }
    {
        if closes(change, number) {
            return self.put_term(TermNode::Bound(at));
        }
        let ty = self.change_ty(memo, ty, at, change)?;
        self.put_term(TermNode::Eps(number, ty))
    }

    fn changed_meta(
        &mut self,
        memo: &mut Memo,
        number: u64,
        ty: TyId,
        at: u32,
        change: &Change,
    ) -> Result<TermId, EnterFault>
        requires has { HasType self.old ty }
        requires part { HasChange self.old change.now }
        requires knows { Knows self.old change.now memo.old }
        ensures made { IfOk result (IsTermId self.new (changed_term at (change_of self.old change.now) (tree.Term.meta number (type_of self.old ty)))) }
        ensures deep { IfErr result (IfTooDeep (2000 < term_depth (changed_term at (change_of self.old change.now) (tree.Term.meta number (type_of self.old ty))))) }
        ensures kept { Extends self.old self.new }
        ensures knows { OnOk result (Knows self.new change.now memo.new) }
    {
        let ty = self.change_ty(memo, ty, at, change)?;
        self.put_term(TermNode::Meta(number, ty))
    }

    /// The arguments of a predicate.
    pub(crate) fn change_parts(
        &mut self,
        memo: &mut Memo,
        types: &TyIds,
        terms: &TermIds,
        at: u32,
        change: &Change,
    ) -> Result<(TyIds, TermIds), EnterFault>
        requires below { TypesBelow (length self.old.types) types.now }
        requires terms_below { TermsBelow (length self.old.terms) terms.now }
        requires part { HasChange self.old change.now }
        requires knows { Knows self.old change.now memo.old }
        ensures made { IfOk result (λ p. AreTypeIds self.new (types_after self.old change.now at types.now) p.0) }
        ensures made_terms { IfOk result (λ p. AreTermIds self.new (terms_after self.old change.now at terms.now) p.1) }
        ensures deep { IfErr result (IfTooDeep (2000 < max (types_depth (types_after self.old change.now at types.now)) (terms_depth (terms_after self.old change.now at terms.now)))) }
        ensures kept { Extends self.old self.new }
        ensures knows { OnOk result (Knows self.new change.now memo.new) }
    {
        let types = self.change_tys(memo, types, at, change)?;
        let terms = self.change_terms(memo, terms, at, change)?;
        Ok((types, terms))
    }

    #[cycle(change_term)]
    fn change_terms(
        &mut self,
        memo: &mut Memo,
        ids: &TermIds,
        at: u32,
        change: &Change,
    ) -> Result<TermIds, EnterFault>
        requires below { TermsBelow (length self.old.terms) ids.now }
        requires part { HasChange self.old change.now }
        requires knows { Knows self.old change.now memo.old }
        ensures made { IfOk result (AreTermIds self.new (terms_after self.old change.now at ids.now)) }
        ensures deep { IfErr result (IfTooDeep (2000 < terms_depth (terms_after self.old change.now at ids.now))) }
        ensures kept { Extends self.old self.new }
        ensures knows { OnOk result (Knows self.new change.now memo.new) }
    {
        let mut all = TermIds::new(self.global());
        for id in ids.as_slice() {
            let changed = self.change_term(memo, *id, at, change)?;
            all.push(changed)?;
        }
        Ok(all)
    }

    /// The type and the sides of an equality.
    pub(crate) fn change_sides(
        &mut self,
        memo: &mut Memo,
        sides: (TyId, TermId, TermId),
        at: u32,
        change: &Change,
    ) -> Result<(TyId, TermId, TermId), EnterFault>
        requires has { HasType self.old sides.0 }
        requires has_left { HasTerm self.old sides.1 }
        requires has_right { HasTerm self.old sides.2 }
        requires part { HasChange self.old change.now }
        requires knows { Knows self.old change.now memo.old }
        ensures made { IfOk result (λ p. IsTypeId self.new (type_after self.old change.now at sides.0) p.0) }
        ensures made_left { IfOk result (λ p. IsTermId self.new (term_after self.old change.now at sides.1) p.1) }
        ensures made_right { IfOk result (λ p. IsTermId self.new (term_after self.old change.now at sides.2) p.2) }
        ensures deep { IfErr result (IfTooDeep (2000 < max (type_depth (type_after self.old change.now at sides.0)) (max (term_depth (term_after self.old change.now at sides.1)) (term_depth (term_after self.old change.now at sides.2))))) }
        ensures kept { Extends self.old self.new }
        ensures knows { OnOk result (Knows self.new change.now memo.new) }
    {
        let (ty, left, right) = sides;
        let ty = self.change_ty(memo, ty, at, change)?;
        let left = self.change_term(memo, left, at, change)?;
        let right = self.change_term(memo, right, at, change)?;
        Ok((ty, left, right))
    }
}
