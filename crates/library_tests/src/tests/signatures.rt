use crate::tests::lambda_pi::same;
use crate::tests::problems::typed;
use lp_signature::{Bound, premise_name, signature_of, translate_form, translate_term};
use lp_terms::{Entries, Entry, Lp};
use proof_terms::parts::{Made, applied, variable};
use rule_select::keep_all;
use sqlite_items::Items;
use std::alloc::{AllocError, Global};
use std::test::Fail;
use zm_logic::{Form, SymId, Term, Ty, TypedProblem};

// the name that the entry declares
fn declared(entry: Option<&Entry>) -> &str {
    match entry {
        Some(Entry::Declare { name, .. }) => name.text(),
        Some(Entry::Rule { .. } | Entry::Define { .. }) | None => "",
    }
}

// the signature of a problem whose premises are all kept
fn signature(alloc: Global, problem: &TypedProblem) -> Result<Entries, AllocError> {
    let selection = keep_all(alloc, problem)?;
    signature_of(alloc, problem, &selection)
}

// Whether the names behind the prelude's 31 entries tell kinds and numbers of arguments.
fn tells_kinds(signature: &Entries) -> bool {
    signature.len() == 36
        && declared(signature.get(31)) == "t_set_1"
        && declared(signature.get(32)) == "f_a!20b_3"
        && declared(signature.get(35)) == "ax_0"
}

fn problem_tells_kinds(alloc: Global, problem: &TypedProblem) -> Result<bool, AllocError> {
    let signature = signature(alloc, problem)?;
    Ok(tells_kinds(&signature))
}

fn text_tells_kinds(alloc: Global, text: &str) -> Result<bool, Fail> {
    let problem = typed(alloc, text)?;
    Ok(problem_tells_kinds(alloc, &problem)?)
}

#[test]
fn constants_tell_kinds_and_arguments(rt: HostRuntime) -> Result<(), Fail> {
    let text =
        "tff(s,type,set: $tType > $tType).tff(m,type,'a b': !>[A: $tType]: ((A * set(A)) > $o)).fof(p,axiom,q(c)).";
    assert!(rt; text_tells_kinds(rt.alloc(), text)?);
    Ok(())
}

// the type of individuals
fn individuals(alloc: Global) -> Ty {
    Ty::Con(SymId(0), Items::new(alloc))
}

// the epsilon term of the number as the variable 7
fn bound(alloc: Global, number: u64) -> Bound {
    Bound::OfTerm {
        number,
        ty: individuals(alloc),
        variable: 7,
    }
}

// The translation of the epsilon term number 3, where the one of the number is bound.
fn translated(alloc: Global, number: u64) -> Made {
    let scope = [bound(alloc, number)];
    translate_term(alloc, &[], &scope, &Term::Eps(3, individuals(alloc)))
}

fn is_variable(alloc: Global) -> bool {
    same(translated(alloc, 3), variable(Some(7)))
}

fn is_any(alloc: Global) -> bool {
    let any = applied(alloc, "any", Lp::constant(alloc, "iota"));
    same(translated(alloc, 4), any)
}

#[test]
fn parameters_of_a_scope_are_variables(rt: HostRuntime) {
    assert!(rt; is_variable(rt.alloc()));
    assert!(rt; is_any(rt.alloc()));
}

fn is_truth(alloc: Global) -> bool {
    let truth = translate_form(alloc, &[], &[], &Form::True);
    same(truth, Lp::constant(alloc, "true"))
}

fn names_premise(alloc: Global) -> bool {
    match premise_name(alloc, 12) {
        Ok(name) => name.text() == "ax_12",
        Err(_) => false,
    }
}

#[test]
fn constants_of_the_prelude_are_used(rt: HostRuntime) {
    assert!(rt; is_truth(rt.alloc()));
    assert!(rt; names_premise(rt.alloc()));
}
