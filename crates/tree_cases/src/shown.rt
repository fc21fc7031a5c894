// What is in a store, as the cases write it.
ghost use Rattle.std.specs.Prelude.{All};
ghost use Rattle.term_store.specs.Trees.{HasType, HasTerm, HasForm};
ghost use Rattle.term_store.specs.Open.{HasPart, HasRedex};
ghost use Rattle.param_store.specs.View.{HasForms, HasLists, HasAct, HasRaw, HasRaws};
ghost use Rattle.unify.specs.Answer.{HasIds};

use crate::writing::{put_carrier, put_form, put_term, put_type};
use param_store::{Act, RawOffer};
use std::alloc::{AllocError, Global};
use term_store::{FormId, FormIds, Opening, Redex, Store, TermId, TyId};
use unify::Binding;

fn put_type_of(out: &mut String, store: &Store, id: TyId) -> Result<(), AllocError>
    requires { HasType store.now id }
{
    let ty = store.ty_tree(id)?;
    put_type(out, &ty)
}

fn put_term_of(out: &mut String, store: &Store, id: TermId) -> Result<(), AllocError>
    requires { HasTerm store.now id }
{
    let term = store.term_tree(id)?;
    put_term(out, &term)
}

/// Adds the formula of an id.
pub(crate) fn put_form_of(out: &mut String, store: &Store, id: FormId) -> Result<(), AllocError>
    requires { HasForm store.now id }
{
    let form = store.form_tree(id)?;
    put_form(out, &form)
}

/// Adds what is put for an index.
fn put_part(out: &mut String, store: &Store, part: Opening) -> Result<(), AllocError>
    requires { HasPart store.now part }
{
    match part {
        Opening::OfTerm(id) => put_term_of(out, store, id),
        Opening::OfType(id) => put_type_of(out, store, id),
    }
}

/// That a place is too deep.
pub(crate) fn deep_text(alloc: Global, store: &Store, at: Redex) -> Result<String, AllocError>
    requires { HasRedex store.now at }
{
    let mut out = String::from_str(alloc, "deep at ")?;
    match at {
        Redex::OfTerm(id) => put_term_of(&mut out, store, id)?,
        Redex::OfForm(id) => put_form_of(&mut out, store, id)?,
    }
    Ok(out)
}

// Adds the metavariable over terms of a number and a type.
fn put_meta_of(out: &mut String, store: &Store, meta: u64, ty: TyId) -> Result<(), AllocError>
    requires { HasType store.now ty }
{
    let ty = store.ty_tree(ty)?;
    put_carrier(out, 'm', meta, &ty)
}

// Adds a metavariable and what it stands for.
fn put_binding(out: &mut String, store: &Store, binding: Binding) -> Result<(), AllocError>
    requires { HasIds store.now binding }
{
    match binding {
        Binding::OfTerm { meta, ty, to } => {
            put_meta_of(out, store, meta, ty)?;
            out.push_str(" -> ")?;
            put_term_of(out, store, to)
        }
        Binding::OfType { meta, to } => {
            write!(out, "?{meta} -> ")?;
            put_type_of(out, store, to)
        }
    }
}

// Adds what stands between two of a list.
fn put_between(out: &mut String, place: usize, between: &str) -> Result<(), AllocError> {
    if place == 0 {
        return Ok(());
    }
    out.push_str(between)
}

/// Bindings in order, or that there is none.
#[tactic(auto, using(crate::proofs::At::binding_at))]
pub(crate) fn bindings_text(
    alloc: Global,
    store: &Store,
    bindings: &[Binding],
) -> Result<String, AllocError>
    requires { All (HasIds store.now) bindings.now }
{
    if bindings.is_empty() {
        return String::from_str(alloc, "nothing");
    }
    let mut out = String::new(alloc);
    for (place, binding) in bindings.iter().enumerate() {
        put_between(&mut out, place, "; ")?;
        put_binding(&mut out, store, *binding)?;
    }
    Ok(out)
}

// Adds the formulas of a child.
#[tactic(auto, using(crate::proofs::At::form_at))]
fn put_child(out: &mut String, store: &Store, forms: &[FormId]) -> Result<(), AllocError>
    requires { HasForms store.now forms.now }
{
    for (place, form) in forms.iter().enumerate() {
        put_between(out, place, ", ")?;
        put_form_of(out, store, *form)?;
    }
    Ok(())
}

// Adds the children of an offer.
#[tactic(auto, using(crate::proofs::At::list_at))]
fn put_children(out: &mut String, store: &Store, children: &[FormIds]) -> Result<(), AllocError>
    requires { HasLists store.now children.now }
{
    for (place, child) in children.iter().enumerate() {
        put_between(out, place, " | ")?;
        put_child(out, store, child.as_slice())?;
    }
    Ok(())
}

// Adds what an offer acts on.
fn put_act(out: &mut String, store: &Store, act: Act) -> Result<(), AllocError>
    requires { HasAct store.now act }
{
    put_form_of(out, store, act.first)?;
    if let Some(second) = act.second {
        out.push_str(" with ")?;
        put_form_of(out, store, second)?;
    }
    if let Some(part) = act.with {
        out.push_str(" at ")?;
        put_part(out, store, part)?;
    }
    if act.other {
        out.push_str(" other")?;
    }
    Ok(())
}

fn put_offer(out: &mut String, store: &Store, offer: &RawOffer) -> Result<(), AllocError>
    requires { HasRaw store.now offer.now }
{
    put_act(out, store, offer.act)?;
    out.push_str(" -> ")?;
    put_children(out, store, offer.children.as_slice())
}

// Adds offers in order.
#[tactic(auto, using(crate::proofs::At::raw_at))]
fn put_offers(out: &mut String, store: &Store, offers: &[RawOffer]) -> Result<(), AllocError>
    requires { HasRaws store.now offers.now }
{
    for (place, offer) in offers.iter().enumerate() {
        put_between(out, place, "; ")?;
        put_offer(out, store, offer)?;
    }
    Ok(())
}

/// Offers in order, or that there is none.
pub(crate) fn offers_text(
    alloc: Global,
    store: &Store,
    offers: &[RawOffer],
) -> Result<String, AllocError>
    requires { HasRaws store.now offers.now }
{
    if offers.is_empty() {
        return String::from_str(alloc, "nothing");
    }
    let mut out = String::new(alloc);
    put_offers(&mut out, store, offers)?;
    Ok(out)
}
