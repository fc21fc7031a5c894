ghost use Rattle.std.specs.Prelude.{◌≡◌, IfOk, OnOk, ◌++◌, [], ◌∷◌};
ghost use Rattle.lp_terms.specs.View.{entries_of};
ghost use Rattle.lp_signature.specs.Prelude as entries;

use crate::rewrites::{add_connective_rules, add_exists_type, add_quantifier_rules};
use crate::symbols::{
    add_connectives, add_constants, add_last_declarations, add_quantifiers, add_sorts,
};
use lp_terms::Entries;
use sqlite_items::Items;
use std::alloc::{AllocError, Global};

/// The 31 entries of the prelude, in order. The one error is want of memory.
pub fn prelude(alloc: Global) -> Result<Entries, AllocError>
    ensures { IfOk result (λ es. entries_of es ≡ entries.prelude) }
{
    let mut prelude = Items::new(alloc);
    add_all(alloc, &mut prelude)?;
    Ok(prelude)
}

fn add_all(alloc: Global, prelude: &mut Entries) -> Result<(), AllocError>
    ensures { OnOk result (entries_of prelude.new ≡ entries_of prelude.old ++ entries.prelude) }
{
    add_sorts(alloc, prelude)?;
    add_constants(alloc, prelude)?;
    add_connectives(alloc, prelude)?;
    add_quantifiers(alloc, prelude)?;
    add_connective_rules(alloc, prelude)?;
    add_quantifier_rules(alloc, prelude)?;
    add_last_declarations(alloc, prelude)?;
    add_exists_type(alloc, prelude)
}
