//! The terms of the rules for equivalence. The variable is the number of the next one; `h` proves the formula that the rule acts
//! on, `a` and `b` are its sides, and `r` and `s` are the children's terms.

ghost use Rattle.std.specs.Prelude.{ℕ, suc};
ghost use Rattle.lp_terms.specs.Term as plain;
ghost use Rattle.lp_terms.specs.View.{term_of};
ghost use Rattle.lp_signature.specs.Prelude as prelude;
ghost use Rattle.lp_signature.specs.ProofTerms as by;
ghost use Rattle.proof_terms.specs.Made.{Makes, Numbers};

use crate::connectives::{implied, pairing};
use crate::parts::{
    Made, Number, application, at_two, bind, bind_proof, bind_refutation, falsity, implications,
    next, proofs, refutations, variable,
};
use lp_terms::Lp;
use std::alloc::Global;

// The proof of b: at the variable f of the implication from a to b, the one at g and the proof v of b.
fn there_and_back(alloc: Global, f: Number, g: Number, v: Number) -> Made
    ensures { (k m n : ℕ) → Numbers f k → Numbers g m → Numbers v n → Makes result
        (plain.Lp.app (plain.Lp.free k) (plain.Lp.app (plain.Lp.free m) (plain.Lp.free n))) }
{
    let back = application(alloc, variable(g), variable(v));
    application(alloc, variable(f), back)
}

// Both sides refuted: the variable u refutes a.
fn both_refuted(alloc: Global, g: Number, u: Number, b: &Lp, s: &Lp) -> Made
    ensures { (m n : ℕ) → Numbers g m → Numbers u n → Makes result
        (plain.Lp.app (by.bind (suc n) (prelude.prf (prelude.not_of (term_of b.now))) (term_of s.now))
        (by.bind (suc n) (prelude.prf (term_of b.now))
        (plain.Lp.app (plain.Lp.free n) (plain.Lp.app (plain.Lp.free m) (plain.Lp.free (suc n)))))) }
{
    let shown = there_and_back(alloc, u, g, next(u));
    let refutation = bind(alloc, next(u), proofs(alloc, b), shown);
    let refuted = bind_refutation(alloc, next(u), b, s);
    application(alloc, refuted, refutation)
}

// Both sides proved: the variable u proves a, and f shows b from it.
fn both_proved(alloc: Global, f: Number, u: Number, b: &Lp, r: &Lp) -> Made
    ensures { (m n : ℕ) → Numbers f m → Numbers u n → Makes result
        (plain.Lp.app (by.bind (suc n) (prelude.prf (term_of b.now)) (term_of r.now))
        (plain.Lp.app (plain.Lp.free m) (plain.Lp.free n))) }
{
    let proved = bind_proof(alloc, next(u), b, r);
    let shown = application(alloc, variable(f), variable(u));
    application(alloc, proved, shown)
}

// Over the proof u that a doesn't hold.
fn case_refuted(alloc: Global, g: Number, u: Number, a: &Lp, b: &Lp, s: &Lp) -> Made
    ensures { (m n : ℕ) → Numbers g m → Numbers u n → Makes result
        (by.bind n (prelude.prf (prelude.not_of (term_of a.now)))
        (plain.Lp.app (by.bind (suc n) (prelude.prf (prelude.not_of (term_of b.now))) (term_of s.now))
        (by.bind (suc n) (prelude.prf (term_of b.now))
        (plain.Lp.app (plain.Lp.free n) (plain.Lp.app (plain.Lp.free m) (plain.Lp.free (suc n))))))) }
{
    let body = both_refuted(alloc, g, u, b, s);
    bind(alloc, u, refutations(alloc, a), body)
}

// Over the proof u of a.
fn case_proved(alloc: Global, f: Number, u: Number, a: &Lp, b: &Lp, r: &Lp) -> Made
    ensures { (m n : ℕ) → Numbers f m → Numbers u n → Makes result
        (by.bind n (prelude.prf (term_of a.now))
        (plain.Lp.app (by.bind (suc n) (prelude.prf (term_of b.now)) (term_of r.now))
        (plain.Lp.app (plain.Lp.free m) (plain.Lp.free n)))) }
{
    let body = both_proved(alloc, f, u, b, r);
    bind(alloc, u, proofs(alloc, a), body)
}

// From the implications, which the variables f and the next one prove.
fn from_implications(alloc: Global, f: Number, a: &Lp, b: &Lp, r: &Lp, s: &Lp) -> Made
    ensures { (n : ℕ) → Numbers f n → Makes result
        (plain.Lp.app
        (by.bind (suc (suc n)) (prelude.prf (prelude.not_of (term_of a.now)))
        (plain.Lp.app (by.bind (suc (suc (suc n))) (prelude.prf (prelude.not_of (term_of b.now))) (term_of s.now))
        (by.bind (suc (suc (suc n))) (prelude.prf (term_of b.now))
        (plain.Lp.app (plain.Lp.free (suc (suc n))) (plain.Lp.app (plain.Lp.free (suc n)) (plain.Lp.free (suc (suc (suc n)))))))))
        (by.bind (suc (suc n)) (prelude.prf (term_of a.now))
        (plain.Lp.app (by.bind (suc (suc (suc n))) (prelude.prf (term_of b.now)) (term_of r.now))
        (plain.Lp.app (plain.Lp.free n) (plain.Lp.free (suc (suc n))))))) }
{
    let g = next(f);
    let refuted = case_refuted(alloc, g, next(g), a, b, s);
    let proved = case_proved(alloc, f, next(g), a, b, r);
    application(alloc, refuted, proved)
}

// The abstraction over the proofs of both implications between the propositions.
fn bind_implications(alloc: Global, f: Number, a: &Lp, b: &Lp, body: Made) -> Made
    ensures { (n : ℕ) (t : plain.Lp) → Numbers f n → Makes body t → Makes result
        (by.bind n (prelude.prf (prelude.imp_of (term_of a.now) (term_of b.now)))
        (by.bind (suc n) (prelude.prf (prelude.imp_of (term_of b.now) (term_of a.now))) t)) }
{
    let inner = bind(alloc, next(f), implications(alloc, b, a), body);
    bind(alloc, f, implications(alloc, a, b), inner)
}

/// The term of iff.
pub fn iff_term(alloc: Global, d: u32, h: Made, a: &Lp, b: &Lp, r: &Lp, s: &Lp) -> Made
    ensures { (p : plain.Lp) → Makes h p
        → Makes result (by.iff_term d p (term_of a.now) (term_of b.now) (term_of r.now) (term_of s.now)) }
{
    let body = from_implications(alloc, Some(d), a, b, r, s);
    let bound = bind_implications(alloc, Some(d), a, b, body);
    at_two(alloc, h, falsity(alloc), bound)
}

// What shows the proposition, at the proofs of both implications.
fn shown_by_both(alloc: Global, d: Number, a: &Lp, b: &Lp, r: &Lp, s: &Lp) -> Made
    ensures { (n : ℕ) → Numbers d n → Makes result
        (plain.Lp.app (plain.Lp.app (plain.Lp.free (suc n))
        (by.bind (suc (suc n)) (prelude.prf (term_of a.now)) (by.nn (suc (suc (suc n))) (term_of b.now) (term_of r.now))))
        (by.bind (suc (suc n)) (prelude.prf (term_of b.now)) (by.nn (suc (suc (suc n))) (term_of a.now) (term_of s.now)))) }
{
    let second = next(d);
    let there = implied(alloc, next(second), a, b, r);
    let back = implied(alloc, next(second), b, a, s);
    at_two(alloc, variable(second), there, back)
}

/// The term of not-iff.
pub fn not_iff_term(alloc: Global, d: u32, h: Made, a: &Lp, b: &Lp, r: &Lp, s: &Lp) -> Made
    ensures { (p : plain.Lp) → Makes h p
        → Makes result (by.not_iff_term d p (term_of a.now) (term_of b.now) (term_of r.now) (term_of s.now)) }
{
    let body = shown_by_both(alloc, Some(d), a, b, r, s);
    let there = implications(alloc, a, b);
    let pair = pairing(alloc, Some(d), there, implications(alloc, b, a), body);
    application(alloc, h, pair)
}
