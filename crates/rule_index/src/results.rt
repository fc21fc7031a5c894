ghost use Rattle.std.specs.Prelude.{◌≡◌, ◌+◌, IfOk, Ok};

use std::alloc::AllocError;

/// Both values, where memory was wanting for neither.
pub(crate) fn pair<A: Drop, B: Drop>(
    first: Result<A, AllocError>,
    second: Result<B, AllocError>,
) -> Result<(A, B), AllocError>
    ensures first { IfOk result (λ both. first ≡ Ok both.0) }
    ensures second { IfOk result (λ both. second ≡ Ok both.1) }
{
    let first = first?;
    let second = second?;
    Ok((first, second))
}

/// An index under so many more binders. More binders than a u32 counts stand in no memory, so there the answer is that
/// memory is wanting.
pub(crate) fn raised(index: u32, by: u32) -> Result<u32, AllocError>
    ensures { IfOk result (λ n. n ≡ index + by) }
{
    match index.checked_add(by) {
        Some(raised) => Ok(raised),
        None => Err(AllocError),
    }
}

/// The index of a binder of a rule, counted from under so many binders of its side.
pub(crate) fn seen_from(index: u64, under: u32) -> Result<u64, AllocError>
    ensures { IfOk result (λ n. n ≡ index + under) }
{
    match index.checked_add(u64::from(under)) {
        Some(seen) => Ok(seen),
        None => Err(AllocError),
    }
}
