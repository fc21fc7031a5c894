//! The terms of the rules for equality but the two for equal arguments. The variable is the number of the next one; `h` proves the
//! equality, `k` the inequation, `a` is the type of the sides, and `r` and `q` are the children's terms.

ghost use Rattle.lp_terms.specs.Term as plain;
ghost use Rattle.lp_terms.specs.View.{term_of};
ghost use Rattle.lp_signature.specs.Prelude as prelude;
ghost use Rattle.lp_signature.specs.ProofTerms as by;
ghost use Rattle.proof_terms.specs.Made.{Makes};

use crate::parts::{
    Made, abstraction, application, at_two, by_contradiction, copied, equality, index, product,
    proofs_of, prop, terms, terms_of,
};
use lp_terms::Lp;
use std::alloc::Global;

// The predicates over the terms of the type.
fn predicates(alloc: Global, a: Made) -> Made
    ensures { (b : plain.Lp) → Makes a b → Makes result (plain.Lp.prod (prelude.term b) prelude.prop) }
{
    let domain = terms_of(alloc, a);
    product(alloc, domain, prop(alloc))
}

/// The proof that a term is equal to itself.
pub fn reflexive(alloc: Global, a: Made, t: Made) -> Made
    ensures { (b u : plain.Lp) → Makes a b → Makes t u → Makes result (by.reflexive b u) }
{
    let instance = application(alloc, index(0), t);
    let inner = abstraction(alloc, proofs_of(alloc, instance), index(0));
    abstraction(alloc, predicates(alloc, a), inner)
}

/// The term of refl.
pub fn refl_term(alloc: Global, h: Made, a: Made, t: Made) -> Made
    ensures { (p b u : plain.Lp) → Makes h p → Makes a b → Makes t u → Makes result (by.refl_term p b u) }
{
    application(alloc, h, reflexive(alloc, a, t))
}

// The predicate of what is equal to s.
fn is_equal_to(alloc: Global, a: &Lp, s: &Lp) -> Made
    ensures { Makes result (by.is_equal_to (term_of a.now) (term_of s.now)) }
{
    let body = equality(alloc, a, index(0), copied(alloc, s));
    abstraction(alloc, terms(alloc, a), body)
}

// The predicate of what s is equal to.
fn equals(alloc: Global, a: &Lp, s: &Lp) -> Made
    ensures { Makes result (by.equals (term_of a.now) (term_of s.now)) }
{
    let body = equality(alloc, a, copied(alloc, s), index(0));
    abstraction(alloc, terms(alloc, a), body)
}

// The equality that h proves, turned round: what it proves of s and t is proved of t and s.
fn turned(alloc: Global, h: Made, a: &Lp, s: &Lp) -> Made
    ensures { (p : plain.Lp) → Makes h p → Makes result
        (plain.Lp.app (plain.Lp.app p (by.is_equal_to (term_of a.now) (term_of s.now))) (by.reflexive (term_of a.now) (term_of s.now))) }
{
    let predicate = is_equal_to(alloc, a, s);
    let same = reflexive(alloc, copied(alloc, a), copied(alloc, s));
    at_two(alloc, h, predicate, same)
}

/// The term of sym, the equality's left side being `s`.
pub fn sym_term(alloc: Global, h: Made, k: Made, a: &Lp, s: &Lp) -> Made
    ensures { (p o : plain.Lp) → Makes h p → Makes k o → Makes result (by.sym_term p o (term_of a.now) (term_of s.now)) }
{
    application(alloc, k, turned(alloc, h, a, s))
}

/// The sides of the equality, left and right, and those of the inequation.
#[derive(Drop)]
pub struct Sides {
    /// The type of all four.
    pub a: Lp,
    /// The equality's left side.
    pub s: Lp,
    /// Its right side.
    pub t: Lp,
    /// The inequation's left side.
    pub u: Lp,
    /// Its right side.
    pub v: Lp,
}

// What the equality that h proves makes of a proof that u is equal to its left side.
fn carried(alloc: Global, h: Made, a: &Lp, u: &Lp, proof: Made) -> Made
    ensures { (p o : plain.Lp) → Makes h p → Makes proof o → Makes result
        (plain.Lp.app (plain.Lp.app p (by.equals (term_of a.now) (term_of u.now))) o) }
{
    at_two(alloc, h, equals(alloc, a, u), proof)
}

// The equality of two terms of the type.
fn equation(alloc: Global, a: &Lp, left: &Lp, right: &Lp) -> Made
    ensures { Makes result (prelude.eq_of (term_of a.now) (term_of left.now) (term_of right.now)) }
{
    let left = copied(alloc, left);
    equality(alloc, a, left, copied(alloc, right))
}

/// The proof by contradiction of the equality of two terms.
pub fn equal_by(alloc: Global, d: u32, a: &Lp, left: &Lp, right: &Lp, r: &Lp) -> Made
    ensures { Makes result (by.nn d (prelude.eq_of (term_of a.now) (term_of left.now) (term_of right.now)) (term_of r.now)) }
{
    let proposition = equation(alloc, a, left, right)?;
    by_contradiction(alloc, Some(d), &proposition, r)
}

/// The term of the transitivity whose children differ u from s, and t from v.
pub fn trans_first_term(
    alloc: Global,
    d: u32,
    h: Made,
    k: Made,
    sides: &Sides,
    r: &Lp,
    q: &Lp,
) -> Made
    ensures { (p o : plain.Lp) → Makes h p → Makes k o → Makes result
        (by.trans_first_term d p o (term_of sides.now.a) (term_of sides.now.s) (term_of sides.now.t)
        (term_of sides.now.u) (term_of sides.now.v) (term_of r.now) (term_of q.now)) }
{
    let first = equal_by(alloc, d, &sides.a, &sides.u, &sides.s, r);
    let middle = carried(alloc, h, &sides.a, &sides.u, first);
    let last = equal_by(alloc, d, &sides.a, &sides.t, &sides.v, q);
    let whole = carried(alloc, last, &sides.a, &sides.u, middle);
    application(alloc, k, whole)
}

/// The term of the transitivity whose children differ u from t, and s from v.
pub fn trans_second_term(
    alloc: Global,
    d: u32,
    h: Made,
    k: Made,
    sides: &Sides,
    r: &Lp,
    q: &Lp,
) -> Made
    ensures { (p o : plain.Lp) → Makes h p → Makes k o → Makes result
        (by.trans_second_term d p o (term_of sides.now.a) (term_of sides.now.s) (term_of sides.now.t)
        (term_of sides.now.u) (term_of sides.now.v) (term_of r.now) (term_of q.now)) }
{
    let turned = turned(alloc, h, &sides.a, &sides.s);
    let first = equal_by(alloc, d, &sides.a, &sides.u, &sides.t, r);
    let middle = carried(alloc, turned, &sides.a, &sides.u, first);
    let last = equal_by(alloc, d, &sides.a, &sides.s, &sides.v, q);
    let whole = carried(alloc, last, &sides.a, &sides.u, middle);
    application(alloc, k, whole)
}
