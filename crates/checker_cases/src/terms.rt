// The text of a term that a verdict keeps.
ghost use Rattle.std.specs.Prelude.{IsTrue, ◌+◌, ◌<◌};
ghost use Rattle.lp_terms.specs.Measure.{binder_depth, limit};
ghost use Rattle.lp_terms.specs.View.{term_of};
ghost use Rattle.checker_cases.specs.Within.{IsWithin};

use dk_checker::Class;
use dk_printer::print_term;
use lp_terms::{Lp, NUMBER_LIMIT};
use std::alloc::{AllocError, Global};
use zm_base::{CountSink, MemSink};

// Whether the printer takes the term where so many binders stand round it.
#[cycle(is_printable)]
fn is_printable(term: &Lp, depth: u32) -> bool
    ensures room { IsTrue result → depth + binder_depth (term_of term.now) < limit }
    ensures below { IsTrue result → IsWithin depth (term_of term.now) }
{
    match term {
        Lp::Sort | Lp::Const(_) | Lp::Free(_) => depth < NUMBER_LIMIT,
        Lp::Index(i) => depth < NUMBER_LIMIT && *i < depth,
        Lp::App(f, a) => is_printable(f.get(), depth) && is_printable(a.get(), depth),
        Lp::Abs(a, b) | Lp::Prod(a, b) => {
            depth < NUMBER_LIMIT && is_printable(a.get(), depth) && is_printable(b.get(), depth + 1)
        }
    }
}

// One above the greatest number of a free variable; 0 where there is none.
fn next_number(term: &Lp) -> u32 {
    match term {
        Lp::Sort | Lp::Const(_) | Lp::Index(_) => 0,
        Lp::Free(n) => n.saturating_add(1),
        Lp::App(a, b) | Lp::Abs(a, b) | Lp::Prod(a, b) => {
            next_number(a.get()).max(next_number(b.get()))
        }
    }
}

/// The printed term, its first binder having the next number; `unprintable` where the printer doesn't take it.
#[tactic(auto, using(crate::proofs::Closed::closed_within))]
pub fn printed_term(alloc: Global, term: &Lp) -> Result<Vec<u8>, AllocError> {
    let depth = next_number(term);
    if !is_printable(term, depth) {
        return Ok(String::from_str(alloc, "unprintable")?.into_bytes());
    }
    let mut size = CountSink::new();
    let _ = print_term(term, depth, &mut size);
    let mut sink = MemSink::new(alloc, size.count() as usize, 4096, Vec::new(alloc))?;
    match print_term(term, depth, &mut sink) {
        Ok(()) => Vec::from_slice(alloc, sink.held()),
        Err(_) => Err(AllocError),
    }
}

/// The printed type, or Kind.
pub fn printed_class(alloc: Global, class: &Class) -> Result<Vec<u8>, AllocError> {
    match class {
        Class::Kind => Ok(String::from_str(alloc, "Kind")?.into_bytes()),
        Class::Of(term) => printed_term(alloc, term),
    }
}
