ghost use Rattle.std.specs.Prelude.{◌≡◌, ◌<◌, OnOk, IfOk, IfErr, length};
ghost use Rattle.zm_logic.specs.Measure.{type_depth, types_depth};
ghost use Rattle.zm_logic.specs.Tree as tree;
ghost use Rattle.term_store.specs.Node.{TypesBelow, types_at};
ghost use Rattle.term_store.specs.Trees.{HasType, type_of, all_trees, Extends};
ghost use Rattle.term_store.specs.Change.{HasChange, change_of, type_after, types_after, changed_type, changed_types, IsTypeId, AreTypeIds, Knows, type_put as put};
ghost use Rattle.term_store.specs.Fault.{IfTooDeep};

use crate::change::{Change, closes};
use crate::fault::EnterFault;
use crate::ids::{TyId, TyIds};
use crate::memo::{Memo, Place, note, recall};
use crate::node::TyNode;
use crate::opening::Opening;
use crate::store::Store;

// The id of what stands for a type's index.
fn type_put(id: TyId, index: u32, at: u32, change: &Change) -> TyId
    ensures { result ≡ put id index at change.now }
{
    match change {
        Change::Opens(Opening::OfType(t)) if index == at => *t,
        Change::Opens(_) | Change::Closes(_) => id,
    }
}

impl Store {
    /// The type with the change.
    #[cycle(change_ty)]
    pub(crate) fn change_ty(
        &mut self,
        memo: &mut Memo,
        id: TyId,
        at: u32,
        change: &Change,
    ) -> Result<TyId, EnterFault>
        requires has { HasType self.old id }
        requires part { HasChange self.old change.now }
        requires knows { Knows self.old change.now memo.old }
        ensures made { IfOk result (IsTypeId self.new (type_after self.old change.now at id)) }
        ensures deep { IfErr result (IfTooDeep (2000 < type_depth (type_after self.old change.now at id))) }
        ensures kept { Extends self.old self.new }
        ensures knows { OnOk result (Knows self.new change.now memo.new) }
    {
        let place = Place {
            tree: id.0,
            binders: at,
        };
        if let Some(made) = recall(&memo.types, place) {
            return Ok(TyId(made));
        }
        let made = self.changed_ty(memo, id, at, change)?;
        note(&mut memo.types, place, made.0)?;
        Ok(made)
    }

    #[cycle(change_ty)]
    fn changed_ty(
        &mut self,
        memo: &mut Memo,
        id: TyId,
        at: u32,
        change: &Change,
    ) -> Result<TyId, EnterFault>
        requires has { HasType self.old id }
        requires part { HasChange self.old change.now }
        requires knows { Knows self.old change.now memo.old }
        ensures made { IfOk result (IsTypeId self.new (type_after self.old change.now at id)) }
        ensures deep { IfErr result (IfTooDeep (2000 < type_depth (type_after self.old change.now at id))) }
        ensures kept { Extends self.old self.new }
        ensures knows { OnOk result (Knows self.new change.now memo.new) }
    {
        let (symbol, types) = match self.copied_ty(id)? {
            TyNode::Bound(index) => return Ok(type_put(id, index, at, change)),
            TyNode::Param(number) => return self.changed_param(id, number, at, change),
            TyNode::Meta(_) => return Ok(id),
            TyNode::Con(symbol, types) => (symbol, types),
        };
        let changed = self.change_tys(memo, &types, at, change)?;
        self.put_ty(TyNode::Con(symbol, changed))
    }

    fn changed_param(
        &mut self,
        id: TyId,
        number: u64,
        at: u32,
        change: &Change,
    ) -> Result<TyId, EnterFault>
        requires has { HasType self.old id }
        requires node { type_of self.old id ≡ tree.Ty.param number }
        ensures made { IfOk result (IsTypeId self.new (changed_type at (change_of self.old change.now) (tree.Ty.param number))) }
        ensures deep { IfErr result (IfTooDeep (2000 < type_depth (changed_type at (change_of self.old change.now) (tree.Ty.param number)))) }
        ensures kept { Extends self.old self.new }
    {
        if closes(change, number) {
            return self.put_ty(TyNode::Bound(at));
        }
        Ok(id)
    }

    #[cycle(change_ty)]
    pub(crate) fn change_tys(
        &mut self,
        memo: &mut Memo,
        ids: &TyIds,
        at: u32,
        change: &Change,
    ) -> Result<TyIds, EnterFault>
        requires below { TypesBelow (length self.old.types) ids.now }
        requires part { HasChange self.old change.now }
        requires knows { Knows self.old change.now memo.old }
        ensures made { IfOk result (AreTypeIds self.new (types_after self.old change.now at ids.now)) }
        ensures deep { IfErr result (IfTooDeep (2000 < types_depth (types_after self.old change.now at ids.now))) }
        ensures kept { Extends self.old self.new }
        ensures knows { OnOk result (Knows self.new change.now memo.new) }
    {
        let mut all = TyIds::new(self.global());
        for id in ids.as_slice() {
            let changed = self.change_ty(memo, *id, at, change)?;
            all.push(changed)?;
        }
        Ok(all)
    }
}
