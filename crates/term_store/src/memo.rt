ghost use Rattle.std.specs.Prelude.{◌≡◌, Some, OnOk, IsOkUnless};
ghost use Rattle.indexmap.specs.IndexMap.{get, IsEmpty, Updates};
ghost use Rattle.term_store.specs.Memo.{same_place};
ghost use Rattle.term_store.specs.declared.fault.EnterFault.TheVariants.{Memory};

use crate::fault::EnterFault;
use indexmap::IndexMap;
use std::alloc::Global;

/// The place of a tree in its table, and the number of binders that it stands under.
#[derive(Clone, Copy, Debug, PartialEq, Eq, Hash)]
pub(crate) struct Place {
    pub(crate) tree: usize,
    pub(crate) binders: u32,
}

/// What one call made of the trees that it met: for each the place of the new tree.
#[derive(Drop)]
pub(crate) struct Memo {
    pub(crate) types: IndexMap<Place, usize>,
    pub(crate) terms: IndexMap<Place, usize>,
    pub(crate) forms: IndexMap<Place, usize>,
}

impl Memo {
    pub(crate) fn new(alloc: Global) -> Memo
        ensures types { IsEmpty result.types }
        ensures terms { IsEmpty result.terms }
        ensures forms { IsEmpty result.forms }
    {
        Memo {
            types: IndexMap::new(alloc),
            terms: IndexMap::new(alloc),
            forms: IndexMap::new(alloc),
        }
    }
}

/// What was made of the tree at a place.
pub(crate) fn recall(made: &IndexMap<Place, usize>, place: Place) -> Option<usize>
    ensures { result ≡ get same_place made.now place }
{
    made.get(&place).copied()
}

/// Notes what was made of the tree at a place.
pub(crate) fn note(
    made: &mut IndexMap<Place, usize>,
    place: Place,
    tree: usize,
) -> Result<(), EnterFault>
    ensures noted { OnOk result (Updates same_place made.old made.new place (Some tree)) }
    ensures memory { IsOkUnless result Memory }
{
    made.insert(place, tree)?;
    Ok(())
}
