ghost use Rattle.std.specs.Prelude.{◌≡◌, IfOk, max};
ghost use Rattle.lp_terms.specs.Measure.{free_bound};
ghost use Rattle.lp_terms.specs.View.{term_of, terms_of, entry_of, entries_of};
ghost use Rattle.lp_reduce.specs.Number.{terms_bound, entry_bound, entries_bound, new_number};

use lp_terms::{Entry, Lp};
use std::alloc::AllocError;

/// One more than the greatest number of a free variable of the signature and the term. A number past the bound on binders
/// counts as memory that isn't there.
pub fn new_number(signature: &[Entry], term: &Lp) -> Result<u32, AllocError>
    ensures { IfOk result (λ n. n ≡ new_number (entries_of signature.now) (term_of term.now)) }
{
    let number = entries_bound(signature).max(free_bound(term));
    match u32::try_from(number) {
        Ok(number) => Ok(number),
        Err(_) => Err(AllocError),
    }
}

fn entries_bound(signature: &[Entry]) -> u64
    ensures { result ≡ entries_bound (entries_of signature.now) }
{
    let mut most = 0;
    for entry in signature {
        most = entry_bound(entry).max(most);
    }
    most
}

fn entry_bound(entry: &Entry) -> u64
    ensures { result ≡ entry_bound (entry_of entry.now) }
{
    match entry {
        Entry::Declare {
            name: _,
            definable: _,
            ty,
        } => free_bound(ty),
        Entry::Rule {
            context,
            left,
            right,
        } => terms_bound(context.as_slice()).max(free_bound(left).max(free_bound(right))),
        Entry::Define { name: _, ty, body } => free_bound(ty).max(free_bound(body)),
    }
}

fn terms_bound(terms: &[Lp]) -> u64
    ensures { result ≡ terms_bound (terms_of terms.now) }
{
    let mut most = 0;
    for term in terms {
        most = free_bound(term).max(most);
    }
    most
}

// It recurses once for each level of the term.
fn free_bound(term: &Lp) -> u64
    ensures { result ≡ free_bound (term_of term.now) }
{
    match term {
        Lp::Sort | Lp::Const(_) | Lp::Index(_) => 0,
        Lp::Free(n) => u64::from(*n) + 1,
        Lp::App(f, a) => free_bound(f.get()).max(free_bound(a.get())),
        Lp::Abs(a, b) => free_bound(a.get()).max(free_bound(b.get())),
        Lp::Prod(a, b) => free_bound(a.get()).max(free_bound(b.get())),
    }
}
