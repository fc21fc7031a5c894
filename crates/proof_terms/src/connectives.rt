//! The terms of the rules for the connectives. The variable is the number of the next one; `h` proves the formula that the rule
//! acts on, `a` and `b` are its parts, and `r` and `s` are the children's terms.

ghost use Rattle.std.specs.Prelude.{ℕ, suc};
ghost use Rattle.lp_terms.specs.Term as plain;
ghost use Rattle.lp_terms.specs.View.{term_of};
ghost use Rattle.lp_signature.specs.Prelude as prelude;
ghost use Rattle.lp_signature.specs.ProofTerms as by;
ghost use Rattle.proof_terms.specs.Made.{Makes, Numbers};

use crate::parts::{
    Made, Number, abstraction, application, at_two, bind, bind_proof, bind_refutation,
    by_contradiction, copied, falsity, index, next, product, proofs, proofs_of, prop, refutations,
    variable,
};
use lp_terms::Lp;
use std::alloc::Global;

/// The term of not-true.
pub fn not_true_term(alloc: Global, h: Made) -> Made
    ensures { (p : plain.Lp) → Makes h p → Makes result (by.not_true_term p) }
{
    let domain = proofs_of(alloc, falsity(alloc));
    application(alloc, h, abstraction(alloc, domain, index(0)))
}

/// The term of not-not.
pub fn not_not_term(alloc: Global, d: u32, h: Made, a: &Lp, r: &Lp) -> Made
    ensures { (p : plain.Lp) → Makes h p → Makes result (by.not_not_term d p (term_of a.now) (term_of r.now)) }
{
    application(alloc, h, bind_proof(alloc, Some(d), a, r))
}

// The abstraction over two variables, which prove the propositions.
fn bind_both(alloc: Global, d: Number, a: &Lp, b: &Lp, r: &Lp) -> Made
    ensures { (n : ℕ) → Numbers d n → Makes result
        (by.bind n (prelude.prf (term_of a.now)) (by.bind (suc n) (prelude.prf (term_of b.now)) (term_of r.now))) }
{
    let inner = bind_proof(alloc, next(d), b, r);
    bind(alloc, d, proofs(alloc, a), inner)
}

// The abstraction over two variables, which refute the propositions.
fn refute_both(alloc: Global, d: Number, a: &Lp, b: &Lp, r: &Lp) -> Made
    ensures { (n : ℕ) → Numbers d n → Makes result
        (by.bind n (prelude.prf (prelude.not_of (term_of a.now)))
        (by.bind (suc n) (prelude.prf (prelude.not_of (term_of b.now))) (term_of r.now))) }
{
    let inner = bind_refutation(alloc, next(d), b, r);
    bind(alloc, d, refutations(alloc, a), inner)
}

/// The term of and.
pub fn and_term(alloc: Global, d: u32, h: Made, a: &Lp, b: &Lp, r: &Lp) -> Made
    ensures { (p : plain.Lp) → Makes h p → Makes result (by.and_term d p (term_of a.now) (term_of b.now) (term_of r.now)) }
{
    let bound = bind_both(alloc, Some(d), a, b, r);
    at_two(alloc, h, falsity(alloc), bound)
}

// prf a -> prf x, the index of x counting the binder of the product
fn case(alloc: Global, a: &Lp, x: u32) -> Made
    ensures { Makes result (plain.Lp.prod (prelude.prf (term_of a.now)) (prelude.prf (plain.Lp.index x))) }
{
    let domain = proofs(alloc, a);
    product(alloc, domain, proofs_of(alloc, index(x)))
}

// A disjunction from the side that the index of the two cases stands for.
fn in_side(alloc: Global, a: &Lp, b: &Lp, side: u32, h: Made) -> Made
    ensures { (p : plain.Lp) → Makes h p → Makes result
        (plain.Lp.abs prelude.prop
        (plain.Lp.abs (plain.Lp.prod (prelude.prf (term_of a.now)) (prelude.prf (plain.Lp.index 1)))
        (plain.Lp.abs (plain.Lp.prod (prelude.prf (term_of b.now)) (prelude.prf (plain.Lp.index 2)))
        (plain.Lp.app (plain.Lp.index side) p)))) }
{
    let used = application(alloc, index(side), h);
    let second = abstraction(alloc, case(alloc, b, 2), used);
    let first = abstraction(alloc, case(alloc, a, 1), second);
    abstraction(alloc, prop(alloc), first)
}

// The proof that the left side doesn't hold, from the one that the disjunction doesn't.
fn not_left(alloc: Global, d: Number, h: &Lp, a: &Lp, b: &Lp) -> Made
    ensures { (n : ℕ) → Numbers d n → Makes result
        (by.bind n (prelude.prf (term_of a.now)) (plain.Lp.app (term_of h.now) (by.in_left (term_of a.now) (term_of b.now) (plain.Lp.free n)))) }
{
    let whole = in_side(alloc, a, b, 1, variable(d));
    let used = application(alloc, copied(alloc, h), whole);
    bind(alloc, d, proofs(alloc, a), used)
}

// The proof that the right side doesn't hold, from the one that the disjunction doesn't.
fn not_right(alloc: Global, d: Number, h: &Lp, a: &Lp, b: &Lp) -> Made
    ensures { (n : ℕ) → Numbers d n → Makes result
        (by.bind n (prelude.prf (term_of b.now)) (plain.Lp.app (term_of h.now) (by.in_right (term_of a.now) (term_of b.now) (plain.Lp.free n)))) }
{
    let whole = in_side(alloc, a, b, 0, variable(d));
    let used = application(alloc, copied(alloc, h), whole);
    bind(alloc, d, proofs(alloc, b), used)
}

// The term of not-or, from a proof that stays.
fn not_or_of(alloc: Global, d: Number, h: &Lp, a: &Lp, b: &Lp, r: &Lp) -> Made
    ensures { (n : ℕ) → Numbers d n
        → Makes result (by.not_or_term n (term_of h.now) (term_of a.now) (term_of b.now) (term_of r.now)) }
{
    let refuted = refute_both(alloc, d, a, b, r);
    let left = not_left(alloc, d, h, a, b);
    let right = not_right(alloc, d, h, a, b);
    at_two(alloc, refuted, left, right)
}

/// The term of not-or.
pub fn not_or_term(alloc: Global, d: u32, h: Made, a: &Lp, b: &Lp, r: &Lp) -> Made
    ensures { (p : plain.Lp) → Makes h p → Makes result (by.not_or_term d p (term_of a.now) (term_of b.now) (term_of r.now)) }
{
    let h = h?;
    not_or_of(alloc, Some(d), &h, a, b, r)
}

/// The proof of an implication by contradiction: the variable proves its premise, and the next one that its conclusion doesn't
/// hold.
pub fn implied(alloc: Global, d: Number, premise: &Lp, conclusion: &Lp, r: &Lp) -> Made
    ensures { (n : ℕ) → Numbers d n → Makes result
        (by.bind n (prelude.prf (term_of premise.now)) (by.nn (suc n) (term_of conclusion.now) (term_of r.now))) }
{
    let shown = by_contradiction(alloc, next(d), conclusion, r);
    bind(alloc, d, proofs(alloc, premise), shown)
}

/// The term of not-implies.
pub fn not_imp_term(alloc: Global, d: u32, h: Made, a: &Lp, b: &Lp, r: &Lp) -> Made
    ensures { (p : plain.Lp) → Makes h p
        → Makes result (by.not_imp_term d p (term_of a.now) (term_of b.now) (term_of r.now)) }
{
    application(alloc, h, implied(alloc, Some(d), a, b, r))
}

/// The term of or.
pub fn or_term(alloc: Global, d: u32, h: Made, a: &Lp, b: &Lp, r: &Lp, s: &Lp) -> Made
    ensures { (p : plain.Lp) → Makes h p
        → Makes result (by.or_term d p (term_of a.now) (term_of b.now) (term_of r.now) (term_of s.now)) }
{
    let of_falsity = application(alloc, h, falsity(alloc));
    let left = bind_proof(alloc, Some(d), a, r);
    let right = bind_proof(alloc, Some(d), b, s);
    at_two(alloc, of_falsity, left, right)
}

// prf a -> prf b -> prf p, where p is the free variable, and the domains are given
fn from_both(alloc: Global, a: Made, b: Made, p: Number) -> Made
    ensures { (n : ℕ) (t u : plain.Lp) → Numbers p n → Makes a t → Makes b u
        → Makes result (plain.Lp.prod t (plain.Lp.prod u (prelude.prf (plain.Lp.free n)))) }
{
    let shown = proofs_of(alloc, variable(p));
    product(alloc, a, product(alloc, b, shown))
}

/// The proof of a conjunction from a body that has the variable d for a proposition, and the next one for what shows it from
/// the proofs of both parts, the domains a and b.
pub fn pairing(alloc: Global, d: Number, a: Made, b: Made, body: Made) -> Made
    ensures { (n : ℕ) (t u v : plain.Lp) → Numbers d n → Makes a t → Makes b u → Makes body v → Makes result
        (by.bind n prelude.prop (by.bind (suc n) (plain.Lp.prod t (plain.Lp.prod u (prelude.prf (plain.Lp.free n)))) v)) }
{
    let domain = from_both(alloc, a, b, d);
    let inner = bind(alloc, next(d), domain, body);
    bind(alloc, d, prop(alloc), inner)
}

// What shows the proposition, at the proofs by contradiction of both parts.
fn shown_by_both(alloc: Global, d: Number, a: &Lp, b: &Lp, r: &Lp, s: &Lp) -> Made
    ensures { (n : ℕ) → Numbers d n → Makes result
        (plain.Lp.app (plain.Lp.app (plain.Lp.free (suc n)) (by.nn (suc (suc n)) (term_of a.now) (term_of r.now)))
        (by.nn (suc (suc n)) (term_of b.now) (term_of s.now))) }
{
    let second = next(d);
    let left = by_contradiction(alloc, next(second), a, r);
    let right = by_contradiction(alloc, next(second), b, s);
    at_two(alloc, variable(second), left, right)
}

/// The term of not-and.
pub fn not_and_term(alloc: Global, d: u32, h: Made, a: &Lp, b: &Lp, r: &Lp, s: &Lp) -> Made
    ensures { (p : plain.Lp) → Makes h p
        → Makes result (by.not_and_term d p (term_of a.now) (term_of b.now) (term_of r.now) (term_of s.now)) }
{
    let body = shown_by_both(alloc, Some(d), a, b, r, s);
    let pair = pairing(alloc, Some(d), proofs(alloc, a), proofs(alloc, b), body);
    application(alloc, h, pair)
}

/// The term of implies.
pub fn imp_term(alloc: Global, d: u32, h: Made, a: &Lp, b: &Lp, r: &Lp, s: &Lp) -> Made
    ensures { (p : plain.Lp) → Makes h p
        → Makes result (by.imp_term d p (term_of a.now) (term_of b.now) (term_of r.now) (term_of s.now)) }
{
    let premise = by_contradiction(alloc, Some(d), a, r);
    let bound = bind_proof(alloc, Some(d), b, s);
    application(alloc, bound, application(alloc, h, premise))
}
