ghost use Rattle.std.specs.Prelude.{IfOk};
ghost use Rattle.term_store.specs.Trees.{HasType, HasTerm, Extends};

use crate::stop::{Stop, of_node};
use std::alloc::Global;
use term_store::{Store, TermId, TermIds, TermNode, TyId, TyIds, TyNode};
use zm_logic::SymId;

/// The id of the type of individuals.
pub fn individual(alloc: Global, store: &mut Store) -> Result<TyId, Stop>
    ensures has { IfOk result (HasType store.new) }
    ensures kept { Extends store.old store.new }
{
    match store.mk_ty(TyNode::Con(SymId(0), TyIds::new(alloc))) {
        Ok(id) => Ok(id),
        Err(fault) => Err(of_node(fault)),
    }
}

/// The id of a metavariable.
pub fn meta(store: &mut Store, number: u64, ty: TyId) -> Result<TermId, Stop>
    requires { HasType store.old ty }
    ensures has { IfOk result (HasTerm store.new) }
    ensures kept { Extends store.old store.new }
{
    match store.mk_term(TermNode::Meta(number, ty)) {
        Ok(id) => Ok(id),
        Err(fault) => Err(of_node(fault)),
    }
}

/// The id of a constant.
pub fn constant(alloc: Global, store: &mut Store, symbol: u32) -> Result<TermId, Stop>
    ensures has { IfOk result (HasTerm store.new) }
    ensures kept { Extends store.old store.new }
{
    let node = TermNode::App(SymId(symbol), TyIds::new(alloc), TermIds::new(alloc));
    match store.mk_term(node) {
        Ok(id) => Ok(id),
        Err(fault) => Err(of_node(fault)),
    }
}

/// The id of a function of two terms.
pub fn applied(
    alloc: Global,
    store: &mut Store,
    symbol: u32,
    first: TermId,
    second: TermId,
) -> Result<TermId, Stop>
    requires first { HasTerm store.old first }
    requires second { HasTerm store.old second }
    ensures has { IfOk result (HasTerm store.new) }
    ensures kept { Extends store.old store.new }
{
    let terms = TermIds::from_slice(alloc, &[first, second])?;
    match store.mk_term(TermNode::App(SymId(symbol), TyIds::new(alloc), terms)) {
        Ok(id) => Ok(id),
        Err(fault) => Err(of_node(fault)),
    }
}
