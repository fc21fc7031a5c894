//! The numbers of variables.

ghost use Rattle.std.specs.Prelude.{◌≡◌, suc, IfOk};

use std::alloc::AllocError;

/// The next variable's number. A number past those of terms counts as want of memory.
pub fn next(variable: u32) -> Result<u32, AllocError>
    ensures { IfOk result (λ n. n ≡ suc variable) }
{
    variable.checked_add(1).ok_or(AllocError)
}
