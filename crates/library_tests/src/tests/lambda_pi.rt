use lp_terms::{Lp, open, substitute};
use proof_terms::equalities::{Sides, refl_term, sym_term, trans_first_term, trans_second_term};
use proof_terms::parts::{Made, abstraction, application, both, closed, index, product, variable};
use std::alloc::Global;

// Whether both terms are made, and are the same.
pub(crate) fn same(made: Made, wanted: Made) -> bool {
    match both(made, wanted) {
        Ok((made, wanted)) => made.is_same(&wanted),
        Err(_) => false,
    }
}

// f a v, where v is the last
fn applied(alloc: Global, last: Made) -> Made {
    let inner = application(alloc, Lp::constant(alloc, "f"), Lp::constant(alloc, "a"));
    application(alloc, inner, last)
}

// x : A -> y : A => f a v, where v is the last
fn bound(alloc: Global, last: Made) -> Made {
    let body = applied(alloc, last);
    let inner = abstraction(alloc, Lp::constant(alloc, "A"), body);
    product(alloc, Lp::constant(alloc, "A"), inner)
}

fn copied(alloc: Global, term: Made) -> Made {
    let term = term?;
    term.copy(alloc)
}

fn opened(alloc: Global, term: Made, with: Made) -> Made {
    let (term, with) = both(term, with)?;
    open(alloc, &term, &with)
}

fn substituted(alloc: Global, term: Made, with: Made) -> Made {
    let (term, with) = both(term, with)?;
    substitute(alloc, &term, 7, &with)
}

fn is_copied(alloc: Global) -> bool {
    let copy = copied(alloc, bound(alloc, index(2)));
    same(copy, bound(alloc, index(2)))
}

fn is_another(alloc: Global) -> bool {
    !same(bound(alloc, variable(Some(7))), bound(alloc, index(2)))
}

fn is_closed(alloc: Global) -> bool {
    let made = closed(alloc, Some(7), bound(alloc, variable(Some(7))));
    same(made, bound(alloc, index(2)))
}

fn is_opened(alloc: Global) -> bool {
    let made = opened(alloc, bound(alloc, index(2)), Lp::constant(alloc, "c"));
    same(made, bound(alloc, Lp::constant(alloc, "c")))
}

fn is_substituted(alloc: Global) -> bool {
    let term = bound(alloc, variable(Some(7)));
    let made = substituted(alloc, term, Lp::constant(alloc, "c"));
    same(made, bound(alloc, Lp::constant(alloc, "c")))
}

#[test]
fn terms_change(rt: HostRuntime) {
    let alloc = rt.alloc();
    assert!(rt; is_copied(alloc), "a copy");
    assert!(rt; is_another(alloc), "another term");
    assert!(rt; is_closed(alloc), "closed");
    assert!(rt; is_opened(alloc), "opened");
    assert!(rt; is_substituted(alloc), "substituted");
}

fn is_made(made: Made) -> bool {
    made.is_ok()
}

// the sides of an equality and of an inequation, the indices 1 to 4, at a type, the index 0
fn sides() -> Sides {
    Sides {
        a: Lp::Index(0),
        s: Lp::Index(1),
        t: Lp::Index(2),
        u: Lp::Index(3),
        v: Lp::Index(4),
    }
}

// Whether the terms of the rules for equality are made.
fn equalities(alloc: Global, r: &Lp, sides: &Sides) -> bool {
    is_made(refl_term(alloc, index(5), index(0), index(1)))
        && is_made(sym_term(alloc, index(5), index(6), r, r))
        && is_made(trans_first_term(alloc, 0, index(5), index(6), sides, r, r))
        && is_made(trans_second_term(alloc, 0, index(5), index(6), sides, r, r))
}

fn equalities_of_sides(alloc: Global) -> bool {
    let sides = sides();
    equalities(alloc, &Lp::Index(0), &sides)
}

// no search has a Step at equalities yet
#[test]
fn terms_of_equalities_are_made(rt: HostRuntime) {
    assert!(rt; equalities_of_sides(rt.alloc()));
}
