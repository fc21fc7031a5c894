use crate::tests::problems::typed;
use crate::tests::trees::{iff, letter};
use search::{need, weight};
use sqlite_items::Items;
use std::alloc::{AllocError, Global};
use std::process::Abort;
use std::test::Fail;
use zm_logic::{Form, Problem};

// Whether the problem has this weight and this need.
fn has(problem: &Problem, counts: (u128, u128)) -> bool {
    weight(problem) == counts.0 && need(problem) == counts.1
}

// Whether the problem that the text spells has them.
fn spells(alloc: Global, text: &str, counts: (u128, u128)) -> Result<bool, Fail> {
    let problem = typed(alloc, text)?;
    Ok(has(problem.problem(), counts))
}

// The problem that the text spells has this weight and this need.
fn expect(rt: &impl Abort, alloc: Global, text: &str, counts: (u128, u128)) -> Result<(), Fail> {
    assert!(rt; spells(alloc, text, counts)?, "at {text}");
    Ok(())
}

#[test]
fn weights_and_needs(rt: HostRuntime) -> Result<(), Fail> {
    let a = rt.alloc();
    expect(&rt, a, "fof(c,conjecture,(p&q)=>(q&p)).", (7, 14))?;
    expect(&rt, a, "fof(c,conjecture,p<=>q).", (4, 8))?;
    expect(&rt, a, "fof(a,axiom,p<=>q).", (4, 8))?;
    let several = "fof(a,axiom,p|q).fof(b,axiom,p=>q).fof(c,conjecture,q&p).";
    expect(&rt, a, several, (7, 56))
}

fn problem_of(alloc: Global, conjecture: Form) -> Problem {
    Problem {
        symbols: Items::new(alloc),
        premises: Items::new(alloc),
        conjecture,
    }
}

// Whether a problem of 130 equivalences has a need as great as a number can be.
fn needs_the_greatest(alloc: Global) -> Result<bool, AllocError> {
    let mut chain = letter(alloc, 1);
    for _ in 0..130 {
        chain = iff(alloc, chain, letter(alloc, 2));
    }
    let problem = problem_of(alloc, chain?.into_inner());
    Ok(has(&problem, (391, u128::MAX)))
}

#[test]
fn needs_no_greater_than_the_greatest_number(rt: HostRuntime) -> Result<(), Fail> {
    assert!(rt; needs_the_greatest(rt.alloc())?);
    Ok(())
}
