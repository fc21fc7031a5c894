ghost use Rattle.indexmap.specs.IndexSet.{IsEmpty};

use indexmap::IndexSet;
use std::alloc::Global;
use term_store::{TermId, TyId};

/// The types and terms that one call found to be well typed.
#[derive(Drop)]
pub(crate) struct Checked {
    pub(crate) types: IndexSet<TyId>,
    pub(crate) terms: IndexSet<TermId>,
}

impl Checked {
    /// Nothing. It takes no memory.
    pub(crate) fn new(alloc: Global) -> Checked
        ensures types { IsEmpty result.types }
        ensures terms { IsEmpty result.terms }
    {
        Checked {
            types: IndexSet::new(alloc),
            terms: IndexSet::new(alloc),
        }
    }
}
