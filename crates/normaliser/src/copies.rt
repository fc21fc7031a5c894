ghost use Rattle.std.specs.Prelude.{◌≡◌, IfOk, Ok};

use sqlite_items::Boxed;
use std::alloc::{AllocError, Global};
use zm_logic::{Form, Terms, Tys};

/// An equal list of types.
pub(crate) fn copy_types(alloc: Global, types: &Tys) -> Result<Tys, AllocError>
    ensures { IfOk result (λ ts. ts ≡ types.now) }
{
    let mut all = Tys::new(alloc);
    for t in types.as_slice() {
        all.push(t.copy(alloc)?)?;
    }
    Ok(all)
}

/// An equal list of terms.
pub(crate) fn copy_terms(alloc: Global, terms: &Terms) -> Result<Terms, AllocError>
    ensures { IfOk result (λ us. us ≡ terms.now) }
{
    let mut all = Terms::new(alloc);
    for u in terms.as_slice() {
        all.push(u.copy(alloc)?)?;
    }
    Ok(all)
}

/// An equal formula in a box of its own.
pub(crate) fn copy_boxed(alloc: Global, form: &Boxed<Form>) -> Result<Boxed<Form>, AllocError>
    ensures { IfOk result (λ f. f ≡ form.now) }
{
    Boxed::new(alloc, form.get().copy(alloc)?)
}
