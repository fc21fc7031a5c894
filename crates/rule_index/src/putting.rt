ghost use Rattle.std.specs.Prelude.{◌≡◌, ◌+◌, IfOk};
ghost use Rattle.zm_logic.specs.View.{type_tree, term_tree, form_tree, side_tree, types_tree, terms_tree};
ghost use Rattle.rule_index.specs.Instance as instance;
ghost use Rattle.rule_index.specs.View.{parts_tree};

use crate::lifting::{lift_term, lift_type};
use crate::part::Part;
use crate::results::{pair, raised};
use sqlite_items::Boxed;
use std::alloc::{AllocError, Global};
use zm_logic::{Form, Side, Term, Terms, Ty, Tys};

// The part of an index under so many binders of the side. An index of no part stays.
#[tactic(auto, using(crate::proofs::PartLists::type_part_at, crate::proofs::PartLists::type_part_past))]
fn type_part(alloc: Global, under: u32, parts: &[Part], index: u32) -> Result<Ty, AllocError>
    ensures { IfOk result (λ t. type_tree t ≡ instance.lift_type under (instance.type_part (parts_tree parts.now) index)) }
{
    let after = index as usize;
    if after >= parts.len() {
        return Ok(Ty::Bound(raised(index, under)?));
    }
    match &parts[parts.len() - 1 - after] {
        Part::OfType(t) => lift_type(alloc, t, under),
        Part::OfTerm(_) => Ok(Ty::Bound(raised(index, under)?)),
    }
}

#[tactic(auto, using(crate::proofs::PartLists::term_part_at, crate::proofs::PartLists::term_part_past))]
fn term_part(alloc: Global, under: u32, parts: &[Part], index: u32) -> Result<Term, AllocError>
    ensures { IfOk result (λ u. term_tree u ≡ instance.lift_term under (instance.term_part (parts_tree parts.now) index)) }
{
    let after = index as usize;
    if after >= parts.len() {
        return Ok(Term::Bound(raised(index, under)?));
    }
    match &parts[parts.len() - 1 - after] {
        Part::OfTerm(u) => lift_term(alloc, u, under),
        Part::OfType(_) => Ok(Term::Bound(raised(index, under)?)),
    }
}

#[cycle(put_type)]
fn put_type(alloc: Global, under: u32, parts: &[Part], ty: &Ty) -> Result<Ty, AllocError>
    ensures { IfOk result (λ t. type_tree t ≡ instance.put_type under (parts_tree parts.now) (type_tree ty.now)) }
{
    match ty {
        Ty::Bound(i) if *i < under => Ok(Ty::Bound(*i)),
        Ty::Bound(i) => type_part(alloc, under, parts, *i - under),
        Ty::Param(n) => Ok(Ty::Param(*n)),
        Ty::Meta(n) => Ok(Ty::Meta(*n)),
        Ty::Con(c, ts) => Ok(Ty::Con(*c, put_types(alloc, under, parts, ts)?)),
    }
}

#[cycle(put_type)]
#[tactic(auto, using(crate::proofs::Loops::types_put_more))]
fn put_types(alloc: Global, under: u32, parts: &[Part], types: &Tys) -> Result<Tys, AllocError>
    ensures { IfOk result (λ ts. types_tree ts ≡ instance.put_types under (parts_tree parts.now) (types_tree types.now)) }
{
    let mut all = Tys::new(alloc);
    for t in types.as_slice() {
        all.push(put_type(alloc, under, parts, t)?)?;
    }
    Ok(all)
}

#[cycle(put_term)]
fn put_term(alloc: Global, under: u32, parts: &[Part], term: &Term) -> Result<Term, AllocError>
    ensures { IfOk result (λ u. term_tree u ≡ instance.put_term under (parts_tree parts.now) (term_tree term.now)) }
{
    match term {
        Term::Bound(i) if *i < under => Ok(Term::Bound(*i)),
        Term::Bound(i) => term_part(alloc, under, parts, *i - under),
        Term::Eps(n, t) => Ok(Term::Eps(*n, put_type(alloc, under, parts, t)?)),
        Term::Meta(n, t) => Ok(Term::Meta(*n, put_type(alloc, under, parts, t)?)),
        Term::App(f, ts, us) => {
            let ts = put_types(alloc, under, parts, ts);
            let (ts, us) = pair(ts, put_terms(alloc, under, parts, us))?;
            Ok(Term::App(*f, ts, us))
        }
    }
}

#[cycle(put_term)]
#[tactic(auto, using(crate::proofs::Loops::terms_put_more))]
fn put_terms(alloc: Global, under: u32, parts: &[Part], terms: &Terms) -> Result<Terms, AllocError>
    ensures { IfOk result (λ us. terms_tree us ≡ instance.put_terms under (parts_tree parts.now) (terms_tree terms.now)) }
{
    let mut all = Terms::new(alloc);
    for u in terms.as_slice() {
        all.push(put_term(alloc, under, parts, u)?)?;
    }
    Ok(all)
}

#[cycle(put_form)]
fn put_form(alloc: Global, under: u32, parts: &[Part], form: &Form) -> Result<Form, AllocError>
    ensures { IfOk result (λ f. form_tree f ≡ instance.put_form under (parts_tree parts.now) (form_tree form.now)) }
{
    match form {
        Form::True => Ok(Form::True),
        Form::False => Ok(Form::False),
        Form::Atom(p, ts, us) => {
            let ts = put_types(alloc, under, parts, ts);
            let (ts, us) = pair(ts, put_terms(alloc, under, parts, us))?;
            Ok(Form::Atom(*p, ts, us))
        }
        Form::Equal(t, a, b) => {
            let sides = pair(
                put_term(alloc, under, parts, a),
                put_term(alloc, under, parts, b),
            );
            let (t, (a, b)) = pair(put_type(alloc, under, parts, t), sides)?;
            Ok(Form::Equal(t, a, b))
        }
        Form::Not(f) => Ok(Form::Not(put_boxed(alloc, under, parts, f)?)),
        Form::And(f, g) => {
            let f = put_boxed(alloc, under, parts, f);
            let (f, g) = pair(f, put_boxed(alloc, under, parts, g))?;
            Ok(Form::And(f, g))
        }
        Form::Or(f, g) => {
            let f = put_boxed(alloc, under, parts, f);
            let (f, g) = pair(f, put_boxed(alloc, under, parts, g))?;
            Ok(Form::Or(f, g))
        }
        Form::Imp(f, g) => {
            let f = put_boxed(alloc, under, parts, f);
            let (f, g) = pair(f, put_boxed(alloc, under, parts, g))?;
            Ok(Form::Imp(f, g))
        }
        Form::Iff(f, g) => {
            let f = put_boxed(alloc, under, parts, f);
            let (f, g) = pair(f, put_boxed(alloc, under, parts, g))?;
            Ok(Form::Iff(f, g))
        }
        Form::All(t, f) => {
            let t = put_type(alloc, under, parts, t);
            let (t, f) = pair(t, put_body(alloc, under, parts, f))?;
            Ok(Form::All(t, f))
        }
        Form::Ex(t, f) => {
            let t = put_type(alloc, under, parts, t);
            let (t, f) = pair(t, put_body(alloc, under, parts, f))?;
            Ok(Form::Ex(t, f))
        }
        Form::AllType(f) => Ok(Form::AllType(put_body(alloc, under, parts, f)?)),
        Form::ExType(f) => Ok(Form::ExType(put_body(alloc, under, parts, f)?)),
    }
}

#[cycle(put_form)]
fn put_boxed(
    alloc: Global,
    under: u32,
    parts: &[Part],
    form: &Boxed<Form>,
) -> Result<Boxed<Form>, AllocError>
    ensures { IfOk result (λ f. form_tree f ≡ instance.put_form under (parts_tree parts.now) (form_tree form.now)) }
{
    Boxed::new(alloc, put_form(alloc, under, parts, form.get())?)
}

#[cycle(put_form)]
fn put_body(
    alloc: Global,
    under: u32,
    parts: &[Part],
    body: &Boxed<Form>,
) -> Result<Boxed<Form>, AllocError>
    ensures { IfOk result (λ f. form_tree f ≡ instance.put_form (under + 1) (parts_tree parts.now) (form_tree body.now)) }
{
    match under.checked_add(1) {
        Some(inner) => put_boxed(alloc, inner, parts, body),
        None => Err(AllocError),
    }
}

/// The instance of a side at the parts of its binders. Under binders of its own the parts are lifted over them.
pub(crate) fn put(alloc: Global, parts: &[Part], side: &Side) -> Result<Side, AllocError>
    ensures { IfOk result (λ s. side_tree s ≡ instance.put (parts_tree parts.now) (side_tree side.now)) }
{
    match side {
        Side::OfTerm(u) => Ok(Side::OfTerm(put_term(alloc, 0, parts, u)?)),
        Side::OfForm(f) => Ok(Side::OfForm(put_form(alloc, 0, parts, f)?)),
    }
}
