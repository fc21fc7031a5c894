//! The terms of the rules for the quantifiers. The variable is the number of the next one; `h` proves the formula that the rule
//! acts on, `a` is the binder's domain, `f` the instance that the child adds, and `r` the child's term.

ghost use Rattle.std.specs.Prelude.{ℕ, suc};
ghost use Rattle.lp_terms.specs.Term as plain;
ghost use Rattle.lp_terms.specs.View.{term_of};
ghost use Rattle.lp_signature.specs.Prelude as prelude;
ghost use Rattle.lp_signature.specs.ProofTerms as by;
ghost use Rattle.proof_terms.specs.Made.{Makes, Numbers};

use crate::parts::{
    Made, Number, abstraction, application, at_two, bind, bind_proof, bind_refutation,
    by_contradiction, closed_of, falsity, index, next, product, proofs, proofs_of, prop, variable,
};
use lp_terms::Lp;
use std::alloc::Global;

/// The term of forall, with `u` for the variable.
pub fn forall_term(alloc: Global, d: u32, h: Made, u: Made, f: Made, r: &Lp) -> Made
    ensures { (p v g : plain.Lp) → Makes h p → Makes u v → Makes f g → Makes result (by.forall_term d p v g (term_of r.now)) }
{
    let body = closed_of(alloc, Some(d), r);
    let bound = abstraction(alloc, proofs_of(alloc, f), body);
    application(alloc, bound, application(alloc, h, u))
}

// The abstraction over the proofs of the instance.
fn over_instance(alloc: Global, d: Number, f: Made, r: &Lp) -> Made
    ensures { (n : ℕ) (g : plain.Lp) → Numbers d n → Makes f g → Makes result (by.bind n (prelude.prf g) (term_of r.now)) }
{
    let domain = proofs_of(alloc, f);
    abstraction(alloc, domain, closed_of(alloc, d, r))
}

/// The term of exists: the variable stands for the parameter.
pub fn exists_term(alloc: Global, d: u32, h: Made, a: Made, f: Made, r: &Lp) -> Made
    ensures { (p t g : plain.Lp) → Makes h p → Makes a t → Makes f g → Makes result (by.exists_term d p t g (term_of r.now)) }
{
    let inner = over_instance(alloc, next(Some(d)), f, r);
    let bound = bind(alloc, Some(d), a, inner);
    at_two(alloc, h, falsity(alloc), bound)
}

// The proof by contradiction of the instance.
fn instance_by_contradiction(alloc: Global, d: Number, f: Made, r: &Lp) -> Made
    ensures { (n : ℕ) (g : plain.Lp) → Numbers d n → Makes f g → Makes result (by.nn n g (term_of r.now)) }
{
    let f = f?;
    by_contradiction(alloc, d, &f, r)
}

/// The term of not-forall: the variable stands for the parameter.
pub fn not_forall_term(alloc: Global, d: u32, h: Made, a: Made, f: Made, r: &Lp) -> Made
    ensures { (p t g : plain.Lp) → Makes h p → Makes a t → Makes f g → Makes result (by.not_forall_term d p t g (term_of r.now)) }
{
    let shown = instance_by_contradiction(alloc, next(Some(d)), f, r);
    application(alloc, h, bind(alloc, Some(d), a, shown))
}

// x : a -> prf body -> prf p, the body having x, and p being the index 2 there
fn from_instances(alloc: Global, a: Made, body: Made) -> Made
    ensures { (t u : plain.Lp) → Makes a t → Makes body u → Makes result
        (plain.Lp.prod t (plain.Lp.prod (prelude.prf u) (prelude.prf (plain.Lp.index 2)))) }
{
    let shown = proofs_of(alloc, index(2));
    product(alloc, a, product(alloc, proofs_of(alloc, body), shown))
}

// The proof of an existential formula by u, at which the variable d proves the body.
fn by_instance(alloc: Global, d: Number, a: Made, body: Made, u: Made) -> Made
    ensures { (n : ℕ) (t v w : plain.Lp) → Numbers d n → Makes a t → Makes body v → Makes u w → Makes result
        (plain.Lp.abs prelude.prop
        (plain.Lp.abs (plain.Lp.prod t (plain.Lp.prod (prelude.prf v) (prelude.prf (plain.Lp.index 2))))
        (plain.Lp.app (plain.Lp.app (plain.Lp.index 0) w) (plain.Lp.free n)))) }
{
    let used = at_two(alloc, index(0), u, variable(d));
    let inner = abstraction(alloc, from_instances(alloc, a, body), used);
    abstraction(alloc, prop(alloc), inner)
}

// The whole, from the proof of falsity at the proof of the existential formula.
fn refuted_by(alloc: Global, d: Number, used: Made, f: &Lp, r: &Lp) -> Made
    ensures { (n : ℕ) (w : plain.Lp) → Numbers d n → Makes used w → Makes result
        (plain.Lp.app (by.bind n (prelude.prf (prelude.not_of (term_of f.now))) (term_of r.now))
        (by.bind n (prelude.prf (term_of f.now)) w)) }
{
    let refutation = bind(alloc, d, proofs(alloc, f), used);
    application(alloc, bind_refutation(alloc, d, f, r), refutation)
}

// The same, where memory was not wanting for the instance.
fn refuted_by_instance(alloc: Global, d: Number, used: Made, f: Made, r: &Lp) -> Made
    ensures { (n : ℕ) (w g : plain.Lp) → Numbers d n → Makes used w → Makes f g → Makes result
        (plain.Lp.app (by.bind n (prelude.prf (prelude.not_of g)) (term_of r.now)) (by.bind n (prelude.prf g) w)) }
{
    let f = f?;
    refuted_by(alloc, d, used, &f, r)
}

/// The term of not-exists: the body has the index 0 for the variable, which is `u`.
pub fn not_exists_term(
    alloc: Global,
    d: u32,
    h: Made,
    a: Made,
    body: Made,
    u: Made,
    f: Made,
    r: &Lp,
) -> Made
    ensures { (p t v w g : plain.Lp) → Makes h p → Makes a t → Makes body v → Makes u w → Makes f g
        → Makes result (by.not_exists_term d p t v w g (term_of r.now)) }
{
    let whole = by_instance(alloc, Some(d), a, body, u);
    let used = application(alloc, h, whole);
    refuted_by_instance(alloc, Some(d), used, f, r)
}
