use crate::tests::trees::{individual, list};
use sqlite_items::Items;
use std::alloc::{AllocError, Global};
use std::test::Fail;
use zm_logic::{
    Binder, Binders, Form, Rule, Rules, Sense, Side, SymId, Symbol, Symbols, Term, Text, Ty, Tys,
    copy_rules, copy_symbols,
};

// one bound type
fn bound_type(alloc: Global) -> Result<Tys, AllocError> {
    let mut types = Tys::new(alloc);
    types.push(Ty::Bound(0))?;
    Ok(types)
}

// to lists of individuals
fn to_lists(alloc: Global) -> Result<Sense, AllocError> {
    Ok(Sense::Function(list(alloc, individual(alloc))?))
}

// What is made of both, where memory was wanting for neither.
fn symbol(name: Text, arguments: Tys, sense: Sense) -> Symbol {
    Symbol {
        name,
        types: 1,
        arguments,
        sense,
    }
}

// cons, of a type, with one argument and a list
fn cons(alloc: Global) -> Result<Symbol, AllocError> {
    let name = Text::of(alloc, "Søren's cons")?;
    let arguments = bound_type(alloc)?;
    let sense = to_lists(alloc)?;
    Ok(symbol(name, arguments, sense))
}

fn symbols(alloc: Global) -> Result<Symbols, AllocError> {
    let mut symbols = Symbols::new(alloc);
    symbols.push(cons(alloc)?)?;
    Ok(symbols)
}

// Whether it is cons alone.
fn is_cons(symbols: &[Symbol]) -> bool {
    match symbols {
        [one] => {
            one.name.text() == "Søren's cons"
                && one.types == 1
                && one.arguments.len() == 1
                && matches!(one.sense, Sense::Function(Ty::Con(SymId(1), _)))
        }
        [] | [_, _, ..] => false,
    }
}

fn symbols_are_copied(alloc: Global) -> Result<bool, AllocError> {
    let symbols = symbols(alloc)?;
    let copied = copy_symbols(alloc, &symbols)?;
    Ok(is_cons(copied.as_slice()))
}

#[test]
fn copies_of_symbols(rt: HostRuntime) -> Result<(), Fail> {
    assert!(rt; symbols_are_copied(rt.alloc())?);
    Ok(())
}

// a type, and a term of it
fn binders(alloc: Global) -> Result<Binders, AllocError> {
    let mut binders = Binders::new(alloc);
    binders.push(Binder::OfType)?;
    binders.push(Binder::OfTerm(Ty::Bound(0)))?;
    Ok(binders)
}

// the predicate 4 is the bound term
fn rule_of(alloc: Global, binders: Binders) -> Rule {
    Rule {
        binders,
        left: Side::OfForm(Form::Atom(SymId(4), Items::new(alloc), Items::new(alloc))),
        right: Side::OfTerm(Term::Bound(0)),
    }
}

fn rules(alloc: Global) -> Result<Rules, AllocError> {
    let binders = binders(alloc)?;
    let mut rules = Rules::new(alloc);
    rules.push(rule_of(alloc, binders))?;
    Ok(rules)
}

// Whether it is that rule alone.
fn is_rule(rules: &[Rule]) -> bool {
    match rules {
        [one] => {
            one.binders.len() == 2
                && matches!(one.left, Side::OfForm(Form::Atom(SymId(4), _, _)))
                && matches!(one.right, Side::OfTerm(Term::Bound(0)))
        }
        [] | [_, _, ..] => false,
    }
}

fn rules_are_copied(alloc: Global) -> Result<bool, AllocError> {
    let rules = rules(alloc)?;
    let copied = copy_rules(alloc, &rules)?;
    Ok(is_rule(copied.as_slice()))
}

#[test]
fn copies_of_rules(rt: HostRuntime) -> Result<(), Fail> {
    assert!(rt; rules_are_copied(rt.alloc())?);
    Ok(())
}
