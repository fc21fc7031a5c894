ghost use Rattle.std.specs.Prelude.{◌≡◌, IfOk};

use crate::term::Lp;
use sqlite_items::Boxed;
use std::alloc::{AllocError, Global};

impl Lp {
    /// An equal term. The one error is want of memory.
    #[cycle(copy)]
    pub fn copy(&self, alloc: Global) -> Result<Lp, AllocError>
        ensures { IfOk result (λ t. t ≡ self.now) }
    {
        Ok(match self {
            Lp::Sort => Lp::Sort,
            Lp::Const(name) => Lp::Const(name.copy(alloc)?),
            Lp::Free(n) => Lp::Free(*n),
            Lp::Index(i) => Lp::Index(*i),
            Lp::App(f, a) => Lp::App(copy_boxed(alloc, f)?, copy_boxed(alloc, a)?),
            Lp::Abs(a, b) => Lp::Abs(copy_boxed(alloc, a)?, copy_boxed(alloc, b)?),
            Lp::Prod(a, b) => Lp::Prod(copy_boxed(alloc, a)?, copy_boxed(alloc, b)?),
        })
    }
}

#[cycle(copy)]
fn copy_boxed(alloc: Global, term: &Boxed<Lp>) -> Result<Boxed<Lp>, AllocError>
    ensures { IfOk result (λ t. t ≡ term.now) }
{
    Boxed::new(alloc, term.get().copy(alloc)?)
}
