ghost use Rattle.std.specs.Prelude.{◌≡◌, ◌&&◌, true, IfOk, slice_set};
ghost use Rattle.std.specs.List.{list_all};
ghost use Rattle.lp_terms.specs.View.{term_of};
ghost use Rattle.dk_text.specs.Refusals.{is_applied_constant, is_pattern, all_occur};
ghost use Rattle.dk_reader.specs.Occurring.{marked};

use lp_terms::Lp;
use std::alloc::{AllocError, Global};

// Whether the term is a constant applied to patterns.
#[cycle(pattern)]
fn is_applied_constant(term: &Lp) -> bool
    ensures { result ≡ is_applied_constant (term_of term.now) }
{
    match term {
        Lp::Const(_) => true,
        Lp::App(f, a) => {
            if is_applied_constant(f.get()) {
                is_pattern(a.get())
            } else {
                false
            }
        }
        Lp::Sort | Lp::Free(_) | Lp::Index(_) | Lp::Abs(_, _) | Lp::Prod(_, _) => false,
    }
}

// Whether the term is a context variable or a constant applied to patterns.
#[cycle(pattern)]
fn is_pattern(term: &Lp) -> bool
    ensures { result ≡ is_pattern (term_of term.now) }
{
    match term {
        Lp::Index(_) | Lp::Const(_) => true,
        Lp::App(f, a) => {
            if is_applied_constant(f.get()) {
                is_pattern(a.get())
            } else {
                false
            }
        }
        Lp::Sort | Lp::Free(_) | Lp::Abs(_, _) | Lp::Prod(_, _) => false,
    }
}

// Marks an index, if there is a mark for it.
fn mark(marks: &mut [bool], index: u32)
    ensures { marks.new ≡ slice_set marks.old index true }
{
    let place = index as usize;
    if place < marks.len() {
        marks[place] = true;
    }
}

// Marks the indices of a pattern.
fn mark_all(term: &Lp, marks: &mut [bool])
    ensures { marks.new ≡ marked (term_of term.now) marks.old }
{
    match term {
        Lp::Index(i) => mark(marks, *i),
        Lp::App(f, a) => {
            mark_all(f.get(), marks);
            mark_all(a.get(), marks);
        }
        Lp::Sort | Lp::Const(_) | Lp::Free(_) | Lp::Abs(_, _) | Lp::Prod(_, _) => (),
    }
}

// Whether each index has its mark.
fn are_marked(marks: &[bool]) -> bool
    ensures { result ≡ list_all (λ m. m) marks.now }
{
    for mark in marks {
        if !*mark {
            return false;
        }
    }
    true
}

// Whether each index has its mark once those of a pattern are marked.
fn all_marked(term: &Lp, marks: &mut [bool]) -> bool
    ensures { result ≡ list_all (λ m. m) (marked (term_of term.now) marks.old) }
{
    mark_all(term, marks);
    are_marked(marks)
}

// Whether each index below `count` occurs in a constant applied to patterns.
fn all_occur(alloc: Global, count: usize, term: &Lp) -> Result<bool, AllocError>
    requires { is_applied_constant (term_of term.now) ≡ true }
    ensures { IfOk result (λ b. b ≡ all_occur count (term_of term.now)) }
{
    let mut marks = vec![in alloc; false; count]?;
    Ok(all_marked(term, marks.as_mut_slice()))
}

/// Whether the term is a constant applied to patterns where each of `count` context variables occurs.
pub fn is_left_side(alloc: Global, count: usize, term: &Lp) -> Result<bool, AllocError>
    ensures { IfOk result (λ b. b ≡ (is_applied_constant (term_of term.now) && all_occur count (term_of term.now))) }
{
    if is_applied_constant(term) {
        all_occur(alloc, count, term)
    } else {
        Ok(false)
    }
}
