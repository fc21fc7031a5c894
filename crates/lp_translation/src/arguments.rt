//! The rules for a predicate and for a function at different arguments, at a place.

ghost use Rattle.std.specs.Prelude.{◌≡◌, length, IfOk};
ghost use Rattle.std.specs.Option.{option_map};
ghost use Rattle.lp_terms.specs.Term as plain;
ghost use Rattle.lp_terms.specs.View.{term_of, terms_of};
ghost use Rattle.zm_logic.specs.View.{form_tree, type_tree, types_tree, term_tree, terms_tree};
ghost use Rattle.lp_signature.specs.Prelude as prelude;
ghost use Rattle.lp_signature.specs.ProofTerms as by;
ghost use Rattle.lp_signature.specs.Names as names;
ghost use Rattle.proof_terms.specs.Made.{Makes};
ghost use Rattle.lp_translation.specs.ViewPlace.{symbols_at, written_term, written_type};
ghost use Rattle.lp_translation.specs.ViewRules as shapes;
ghost use Rattle.sequent_proof.specs.View.{tree_of, trees_of};
ghost use Rattle.lp_translation.specs.ViewArguments.{HasArguments, HasArgumentsIn, HasValues, term_count, wrap_of, or_truth, equality_in, equalities_in};

use crate::equal::second_proof;
use crate::node::node_of;
use crate::place::{Place, proof_at, term_at, type_at};
use crate::shapes::negated;
use lp_signature::constant;
use lp_terms::Lp;
use proof_terms::equalities::{equal_by, reflexive};
use proof_terms::parts::{Made, abstraction, application, both, copied, equality, index, terms};
use sequent_proof::DTree;
use std::alloc::{AllocError, Global};
use zm_logic::{Form, SymId, Term, Terms, Ty, Tys};

// What is made of a predicate or a function at its arguments.
#[derive(Drop)]
enum Wrap {
    // The atom itself.
    Atom,
    // The equality at the type, with the left side.
    Equality { ty: Lp, left: Lp },
}

fn wrapped(alloc: Global, wrap: &Wrap, at: Made) -> Made
    ensures { (t : plain.Lp) → Makes at t → Makes result (wrap_of wrap.now t) }
{
    match wrap {
        Wrap::Atom => at,
        Wrap::Equality { ty, left } => equality(alloc, ty, copied(alloc, left), at),
    }
}

// The function at the terms.
fn spine(alloc: Global, place: &Place, function: Made, terms: &[Term]) -> Made
    ensures { (f : plain.Lp) → Makes function f → Makes result (shapes.spine place.now f (terms_tree terms.now)) }
{
    let mut applied = function;
    for term in terms {
        applied = application(alloc, applied, term_at(alloc, place, term));
    }
    applied
}

// The predicate of an argument, the others following it.
fn predicate_at(alloc: Global, place: &Place, wrap: &Wrap, ty: &Lp, f: &Lp, rest: &[Term]) -> Made
    ensures { Makes result
        (plain.Lp.abs (prelude.term (term_of ty.now))
        (wrap_of wrap.now (shapes.spine place.now (plain.Lp.app (term_of f.now) (plain.Lp.index 0)) (terms_tree rest.now)))) }
{
    let argument = application(alloc, copied(alloc, f), index(0));
    let body = wrapped(alloc, wrap, spine(alloc, place, argument, rest));
    abstraction(alloc, terms(alloc, ty), body)
}

// The function at the arguments so far, and the proof of what is made of it at these and the others.
#[derive(Drop)]
struct Link {
    f: Lp,
    h: Lp,
}

// The link of both, where memory was wanting for neither.
fn linking(f: Made, h: Made) -> Result<Link, AllocError>
    ensures function { (t : plain.Lp) → Makes f t → IfOk result (λ l. term_of l.f ≡ t) }
    ensures proof { (t : plain.Lp) → Makes h t → IfOk result (λ l. term_of l.h ≡ t) }
{
    let (f, h) = both(f, h)?;
    Ok(Link { f, h })
}

// The proof by contradiction of an equality that is written.
fn equal_written(alloc: Global, place: &Place, ty: &Lp, left: &Term, right: &Term, r: &Lp) -> Made
    ensures { Makes result
        (by.nn place.now.next (prelude.eq_of (term_of ty.now) (written_term place.now (term_tree left.now)) (written_term place.now (term_tree right.now))) (term_of r.now)) }
{
    let (left, right) = both(term_at(alloc, place, left), term_at(alloc, place, right))?;
    equal_by(alloc, place.next, ty, &left, &right, r)
}

// What carries the proof one argument further.
fn step(
    alloc: Global,
    place: &Place,
    wrap: &Wrap,
    f: &Lp,
    ty: &Ty,
    sides: (&Term, &Term),
    rest: &[Term],
    r: &Lp,
) -> Made
    ensures { Makes result
        (plain.Lp.app
        (by.nn place.now.next (prelude.eq_of (written_type place.now (type_tree ty.now)) (written_term place.now (term_tree sides.entry.0.now)) (written_term place.now (term_tree sides.entry.1.now))) (term_of r.now))
        (plain.Lp.abs (prelude.term (written_type place.now (type_tree ty.now)))
        (wrap_of wrap.now (shapes.spine place.now (plain.Lp.app (term_of f.now) (plain.Lp.index 0)) (terms_tree rest.now))))) }
{
    let ty = type_at(alloc, place, ty)?;
    let equal = equal_written(alloc, place, &ty, sides.0, sides.1, r);
    application(alloc, equal, predicate_at(alloc, place, wrap, &ty, f, rest))
}

// One argument further, by the equality of both sides.
fn linked_at(
    alloc: Global,
    place: &Place,
    wrap: &Wrap,
    link: Link,
    ty: &Ty,
    sides: (&Term, &Term),
    rest: &[Term],
    r: &Lp,
) -> Result<Link, AllocError>
    ensures function { IfOk result (λ l. term_of l.f ≡ plain.Lp.app (term_of link.f) (written_term place.now (term_tree sides.entry.1.now))) }
    ensures proof { IfOk result (λ l. term_of l.h ≡
        plain.Lp.app (plain.Lp.app
        (by.nn place.now.next (prelude.eq_of (written_type place.now (type_tree ty.now)) (written_term place.now (term_tree sides.entry.0.now)) (written_term place.now (term_tree sides.entry.1.now))) (term_of r.now))
        (plain.Lp.abs (prelude.term (written_type place.now (type_tree ty.now)))
        (wrap_of wrap.now (shapes.spine place.now (plain.Lp.app (term_of link.f) (plain.Lp.index 0)) (terms_tree rest.now))))) (term_of link.h)) }
{
    let Link { f, h } = link;
    let step = step(alloc, place, wrap, &f, ty, sides, rest, r);
    let further = application(alloc, Ok(f), term_at(alloc, place, sides.1));
    linking(further, application(alloc, step, Ok(h)))
}

// One argument further, by the equality of both.
fn linked(
    alloc: Global,
    place: &Place,
    wrap: &Wrap,
    link: Link,
    equality: &Form,
    rest: &[Term],
    r: &Lp,
) -> Result<Link, AllocError>
    ensures function { IfOk result (λ l. term_of l.f ≡ shapes.next_function place.now (form_tree equality.now) (term_of link.f)) }
    ensures proof { IfOk result (λ l. term_of l.h ≡
        shapes.next_proof place.now (wrap_of wrap.now) (form_tree equality.now) (term_of link.f) (term_of link.h) (terms_tree rest.now) (term_of r.now)) }
{
    match equality {
        Form::Equal(ty, left, right) => {
            linked_at(alloc, place, wrap, link, ty, (left, right), rest, r)
        }
        Form::True
        | Form::False
        | Form::Atom(_, _, _)
        | Form::Not(_)
        | Form::And(_, _)
        | Form::Or(_, _)
        | Form::Imp(_, _)
        | Form::Iff(_, _)
        | Form::All(_, _)
        | Form::Ex(_, _)
        | Form::AllType(_)
        | Form::ExType(_) => Ok(link),
    }
}

// The equality that the child differs by.
fn equality_of(tree: &DTree) -> Option<&Form>
    ensures { or_truth (option_map (λ f. form_tree f.now) result) ≡ equality_in (tree_of tree.now) }
{
    match node_of(tree).added {
        [form, ..] => Some(negated(form)),
        [] => None,
    }
}

// The link one argument further, by the child.
fn linked_by(
    alloc: Global,
    place: &Place,
    wrap: &Wrap,
    link: Link,
    tree: &DTree,
    rest: &[Term],
    r: &Lp,
) -> Result<Link, AllocError>
    ensures function { IfOk result (λ l. term_of l.f ≡ shapes.next_function place.now (equality_in (tree_of tree.now)) (term_of link.f)) }
    ensures proof { IfOk result (λ l. term_of l.h ≡
        shapes.next_proof place.now (wrap_of wrap.now) (equality_in (tree_of tree.now)) (term_of link.f) (term_of link.h) (terms_tree rest.now) (term_of r.now)) }
{
    match equality_of(tree) {
        Some(equality) => linked(alloc, place, wrap, link, equality, rest, r),
        None => Ok(link),
    }
}

// The proof of what is made of the function at the other terms.
#[tactic(auto, using(crate::proofs::BuildingArguments::chain_more, crate::proofs::BuildingArguments::chain_end))]
fn chain(
    alloc: Global,
    place: &Place,
    wrap: &Wrap,
    link: Link,
    trees: &[DTree],
    terms: &[Term],
    rs: &[Lp],
) -> Made
    requires terms { length terms.now ≡ length trees.now }
    requires children { length rs.now ≡ length trees.now }
    ensures { Makes result
        (shapes.chain_by place.now (wrap_of wrap.now) (term_of link.f) (term_of link.h) (equalities_in (trees_of trees.now)) (terms_tree terms.now) (terms_of rs.now)) }
{
    let mut link = link;
    for (k, tree) in trees.iter().enumerate() {
        link = linked_by(alloc, place, wrap, link, tree, &terms[k + 1..], &rs[k])?;
    }
    let Link { f: _, h } = link;
    Ok(h)
}

// The constant of a symbol.
fn constant_at(alloc: Global, place: &Place, symbol: SymId) -> Made
    ensures { Makes result (plain.Lp.const (names.constant (symbols_at place.now) symbol.0)) }
{
    let name = constant(alloc, place.symbols, symbol)?;
    Ok(Lp::Const(name))
}

// The constant of a symbol at types.
fn symbol_at(alloc: Global, place: &Place, symbol: SymId, types: &Tys) -> Made
    ensures { Makes result (shapes.head place.now symbol.0 (types_tree types.now)) }
{
    let mut applied = constant_at(alloc, place, symbol);
    for ty in types.as_slice() {
        applied = application(alloc, applied, type_at(alloc, place, ty));
    }
    applied
}

// The proof of what is made of the symbol at the other terms.
#[tactic(auto, using(crate::proofs::BuildingArguments::term_count_is))]
fn chained(
    alloc: Global,
    place: &Place,
    wrap: &Wrap,
    head: (SymId, &Tys, &Terms),
    h: Made,
    trees: &[DTree],
    rs: &[Lp],
) -> Made
    requires children { length rs.now ≡ length trees.now }
    requires arguments { term_count (terms_tree head.2.now) ≡ length trees.now }
    ensures { (p : plain.Lp) → Makes h p → Makes result
        (shapes.chain_by place.now (wrap_of wrap.now) (shapes.head place.now head.entry.0.0 (types_tree head.entry.1.now)) p
        (equalities_in (trees_of trees.now)) (terms_tree head.entry.2.now) (terms_of rs.now)) }
{
    let link = linking(symbol_at(alloc, place, head.0, head.1), h)?;
    chain(alloc, place, wrap, link, trees, head.2.as_slice(), rs)
}

// The term by the predicate, its types and its terms.
fn equal_arguments_at(
    alloc: Global,
    place: &Place,
    first: &Form,
    second: &Option<Form>,
    head: (SymId, &Tys, &Terms),
    trees: &[DTree],
    rs: &[Lp],
) -> Made
    requires children { length rs.now ≡ length trees.now }
    requires arguments { term_count (terms_tree head.2.now) ≡ length trees.now }
    ensures { Makes result (plain.Lp.app (shapes.second_proved place.now (option_map form_tree second.now))
        (shapes.chain_by place.now (λ f. f) (shapes.head place.now head.entry.0.0 (types_tree head.entry.1.now))
        (shapes.proved place.now (form_tree first.now)) (equalities_in (trees_of trees.now)) (terms_tree head.entry.2.now) (terms_of rs.now))) }
{
    let h = proof_at(alloc, place, first);
    let shown = chained(alloc, place, &Wrap::Atom, head, h, trees, rs);
    application(alloc, second_proof(alloc, place, second), shown)
}

/// The term of eq-pred.
pub fn eq_pred_rule(
    alloc: Global,
    place: &Place,
    first: &Form,
    second: &Option<Form>,
    trees: &[DTree],
    rs: &[Lp],
) -> Made
    requires children { length rs.now ≡ length trees.now }
    requires arguments { HasArguments (length trees.now) (form_tree first.now) }
    ensures { let a = form_tree first.now in
        Makes result (shapes.equal_arguments_by place.now (shapes.proved place.now a)
        (shapes.second_proved place.now (option_map form_tree second.now)) a (equalities_in (trees_of trees.now)) (terms_of rs.now)) }
{
    match first {
        Form::Atom(symbol, types, terms) => {
            equal_arguments_at(
                alloc,
                place,
                first,
                second,
                (*symbol, types, terms),
                trees,
                rs,
            )
        }
        Form::True
        | Form::False
        | Form::Equal(_, _, _)
        | Form::Not(_)
        | Form::And(_, _)
        | Form::Or(_, _)
        | Form::Imp(_, _)
        | Form::Iff(_, _)
        | Form::All(_, _)
        | Form::Ex(_, _)
        | Form::AllType(_)
        | Form::ExType(_) => Ok(Lp::Sort),
    }
}

/// The term of eq-fun.
pub fn eq_fun_rule(alloc: Global, place: &Place, first: &Form, trees: &[DTree], rs: &[Lp]) -> Made
    requires children { length rs.now ≡ length trees.now }
    requires arguments { HasValues (length trees.now) (shapes.negated (form_tree first.now)) }
    ensures { let a = form_tree first.now in
        Makes result (shapes.equal_values_by place.now (shapes.proved place.now a) (shapes.negated a) (equalities_in (trees_of trees.now)) (terms_of rs.now)) }
{
    equal_values(alloc, place, first, negated(first), trees, rs)
}

// The term by the equality.
fn equal_values(
    alloc: Global,
    place: &Place,
    first: &Form,
    equality: &Form,
    trees: &[DTree],
    rs: &[Lp],
) -> Made
    requires children { length rs.now ≡ length trees.now }
    requires arguments { HasValues (length trees.now) (form_tree equality.now) }
    ensures { Makes result (shapes.equal_values_by place.now (shapes.proved place.now (form_tree first.now)) (form_tree equality.now)
        (equalities_in (trees_of trees.now)) (terms_of rs.now)) }
{
    match equality {
        Form::Equal(ty, left, _) => equal_values_of(alloc, place, first, ty, left, trees, rs),
        Form::True
        | Form::False
        | Form::Atom(_, _, _)
        | Form::Not(_)
        | Form::And(_, _)
        | Form::Or(_, _)
        | Form::Imp(_, _)
        | Form::Iff(_, _)
        | Form::All(_, _)
        | Form::Ex(_, _)
        | Form::AllType(_)
        | Form::ExType(_) => Ok(Lp::Sort),
    }
}

// The equality with its left side, and the proof that this side is equal to itself.
fn reflexive_at(
    alloc: Global,
    place: &Place,
    ty: &Ty,
    left: &Term,
) -> Result<(Wrap, Lp), AllocError>
    ensures wrap { IfOk result (λ p. wrap_of p.0 ≡ prelude.eq_of (written_type place.now (type_tree ty.now)) (written_term place.now (term_tree left.now))) }
    ensures proof { IfOk result (λ p. term_of p.1 ≡ by.reflexive (written_type place.now (type_tree ty.now)) (written_term place.now (term_tree left.now))) }
{
    let (ty, left) = both(type_at(alloc, place, ty), term_at(alloc, place, left))?;
    let same = reflexive(alloc, copied(alloc, &ty), copied(alloc, &left))?;
    Ok((Wrap::Equality { ty, left }, same))
}

// The term by the type, the left side, and the side's symbol, its types and its terms.
fn equal_values_at(
    alloc: Global,
    place: &Place,
    first: &Form,
    left: (&Ty, &Term),
    head: (SymId, &Tys, &Terms),
    trees: &[DTree],
    rs: &[Lp],
) -> Made
    requires children { length rs.now ≡ length trees.now }
    requires arguments { term_count (terms_tree head.2.now) ≡ length trees.now }
    ensures { Makes result (plain.Lp.app (shapes.proved place.now (form_tree first.now))
        (shapes.chain_by place.now (prelude.eq_of (written_type place.now (type_tree left.entry.0.now)) (written_term place.now (term_tree left.entry.1.now)))
        (shapes.head place.now head.entry.0.0 (types_tree head.entry.1.now))
        (by.reflexive (written_type place.now (type_tree left.entry.0.now)) (written_term place.now (term_tree left.entry.1.now)))
        (equalities_in (trees_of trees.now)) (terms_tree head.entry.2.now) (terms_of rs.now))) }
{
    let (wrap, same) = reflexive_at(alloc, place, left.0, left.1)?;
    let shown = chained(alloc, place, &wrap, head, Ok(same), trees, rs);
    drop(wrap);
    application(alloc, proof_at(alloc, place, first), shown)
}

// The term by the type and the left side.
fn equal_values_of(
    alloc: Global,
    place: &Place,
    first: &Form,
    ty: &Ty,
    left: &Term,
    trees: &[DTree],
    rs: &[Lp],
) -> Made
    requires children { length rs.now ≡ length trees.now }
    requires arguments { HasArgumentsIn (length trees.now) (term_tree left.now) }
    ensures { Makes result (shapes.equal_values_of place.now (shapes.proved place.now (form_tree first.now)) (type_tree ty.now) (term_tree left.now)
        (equalities_in (trees_of trees.now)) (terms_of rs.now)) }
{
    match left {
        Term::App(symbol, types, terms) => {
            equal_values_at(
                alloc,
                place,
                first,
                (ty, left),
                (*symbol, types, terms),
                trees,
                rs,
            )
        }
        Term::Bound(_) | Term::Eps(_, _) | Term::Meta(_, _) => Ok(Lp::Sort),
    }
}
