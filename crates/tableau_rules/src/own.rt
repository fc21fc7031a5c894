ghost use Rattle.std.specs.Prelude.{◌≡◌, ◌<◌, ◌≤◌, ◌∷◌, [], Some, None, length, slice_get, OnOk, OnErr, IfOk, IfErr};
ghost use Rattle.term_store.specs.Trees.{Extends, HasForm, form_of};
ghost use Rattle.term_store.specs.declared.opening.Redex.TheVariants.{OfForm};
ghost use Rattle.param_store.specs.Numbers.{numbers_with, with_form, number_in};
ghost use Rattle.param_store.specs.RawOffers as raw;
ghost use Rattle.param_store.specs.Depth.{deepest};
ghost use Rattle.param_store.specs.Fault.{IfDeepAt};
ghost use Rattle.param_store.specs.View.{AreRaws, HasForms, HasRaw, HasQuantified, forms_of, quantified_of, raw_of};
ghost use Rattle.tableau_rules.specs.Split.{HasSplit, children_of};

use crate::children::children;
use crate::opening::own_opening;
use crate::split::{Split, as_split};
use param_store::{Act, OfferFault, Params, Quantified, RawOffer, RawOffers, as_quantified};
use sqlite_items::Items;
use std::alloc::{AllocError, Global};
use term_store::{FormId, Store};

fn only(alloc: Global, offer: RawOffer) -> Result<RawOffers, AllocError>
    ensures { IfOk result (λ all. all ≡ offer ∷ []) }
{
    let mut all = Items::new(alloc);
    all.push(offer)?;
    Ok(all)
}

// The offer of an alpha or a beta formula.
fn split_offers(
    alloc: Global,
    store: &mut Store,
    form: FormId,
    split: Split,
) -> Result<RawOffers, OfferFault>
    requires form { HasForm store.old form }
    requires has { HasSplit store.old split }
    ensures offers { IfOk result (AreRaws store.new (raw.split_offers (form_of store.old form) (children_of store.old split))) }
    ensures kept { Extends store.old store.new }
    ensures bounded { OnOk result (deepest (raw.split_offers (form_of store.old form) (children_of store.old split)) ≤ 2000) }
    ensures deep { IfErr result (IfDeepAt (λ at. (at ≡ OfForm form) × (2000 < deepest (raw.split_offers (form_of store.old form) (children_of store.old split))))) }
{
    let children = children(alloc, store, split, form)?;
    let act = Act {
        first: form,
        second: None,
        with: None,
        other: false,
    };
    Ok(only(alloc, RawOffer { act, children })?)
}

// The offer of a quantified formula of a number.
fn numbered_offers(
    alloc: Global,
    store: &mut Store,
    form: FormId,
    quantified: Quantified,
    number: u64,
) -> Result<RawOffers, OfferFault>
    requires form { HasForm store.old form }
    requires has { HasQuantified store.old quantified }
    ensures offers { IfOk result (AreRaws store.new (raw.opened_offers number (form_of store.old form) (Some (quantified_of store.old quantified)))) }
    ensures kept { Extends store.old store.new }
    ensures bounded { OnOk result (deepest (raw.opened_offers number (form_of store.old form) (Some (quantified_of store.old quantified))) ≤ 2000) }
    ensures deep { IfErr result (IfDeepAt (λ at. (at ≡ OfForm form) × (2000 < deepest (raw.opened_offers number (form_of store.old form) (Some (quantified_of store.old quantified)))))) }
{
    let offer = own_opening(alloc, store, form, quantified, number)?;
    Ok(only(alloc, offer)?)
}

// The offer of a quantified formula, which has its number after it.
fn opened_offers(
    alloc: Global,
    store: &mut Store,
    params: &mut Params,
    form: FormId,
    quantified: Quantified,
) -> Result<RawOffers, OfferFault>
    requires form { HasForm store.old form }
    requires has { HasQuantified store.old quantified }
    ensures offers { IfOk result (AreRaws store.new (raw.opened_offers (number_in params.old form) (form_of store.old form) (Some (quantified_of store.old quantified)))) }
    ensures kept { Extends store.old store.new }
    ensures numbers { OnOk result (params.new ≡ with_form params.old form) }
    ensures refused { OnErr result (params.new ≡ params.old) }
    ensures bounded { OnOk result (deepest (raw.opened_offers (number_in params.old form) (form_of store.old form) (Some (quantified_of store.old quantified))) ≤ 2000) }
    ensures deep { IfErr result (IfDeepAt (λ at. (at ≡ OfForm form) × (2000 < deepest (raw.opened_offers (number_in params.old form) (form_of store.old form) (Some (quantified_of store.old quantified)))))) }
{
    let count = params.count();
    let number = params.number_for(form)?;
    match numbered_offers(alloc, store, form, quantified, number) {
        Ok(offers) => Ok(offers),
        Err(fault) => {
            params.keep_first(count);
            Err(fault)
        }
    }
}

// What a formula gives that is neither an alpha nor a beta formula.
fn quantified_offers(
    alloc: Global,
    store: &mut Store,
    params: &mut Params,
    form: FormId,
) -> Result<RawOffers, OfferFault>
    requires has { HasForm store.old form }
    requires numbered { HasForms store.old params.old }
    requires unsplit { raw.split (form_of store.old form) ≡ [] }
    ensures offers { IfOk result (AreRaws store.new (raw.own_offers (forms_of store.new params.new) (form_of store.new form))) }
    ensures kept { Extends store.old store.new }
    ensures numbers { OnOk result (params.new ≡ numbers_with (raw.is_quantified (form_of store.old form)) params.old form) }
    ensures refused { OnErr result (params.new ≡ params.old) }
    ensures numbered { HasForms store.new params.new }
    ensures bounded { OnOk result (deepest (raw.own_offers (forms_of store.old params.old) (form_of store.old form)) ≤ 2000) }
    ensures deep { IfErr result (IfDeepAt (λ at. (at ≡ OfForm form) × (2000 < deepest (raw.own_offers (forms_of store.old params.old) (form_of store.old form))))) }
{
    match as_quantified(store, form) {
        Some(quantified) => {
            store.shared();
            opened_offers(alloc, store, params, form, quantified)
        }
        None => Ok(Items::new(alloc)),
    }
}

/// What a formula by itself gives to be done, before normalising: the offer of an alpha, a beta, a delta or a gamma
/// formula, with its children in order, and nothing for any other formula. A delta formula is opened with its epsilon
/// term or type parameter and a gamma formula with its metavariable, of the formula's number, which it gets here if it
/// has none. `Deep` names the formula, and comes exactly where a child's formula would be deeper than 2,000. After an
/// error the numbers are as they were, and more nodes may stand in the store.
pub fn own_offers(
    alloc: Global,
    store: &mut Store,
    params: &mut Params,
    form: FormId,
) -> Result<RawOffers, OfferFault>
    requires has { HasForm store.old form }
    requires numbered { HasForms store.old params.old }
    ensures offers { IfOk result (AreRaws store.new (raw.own_offers (forms_of store.new params.new) (form_of store.new form))) }
    ensures kept { Extends store.old store.new }
    ensures numbers { OnOk result (params.new ≡ numbers_with (raw.is_quantified (form_of store.old form)) params.old form) }
    ensures refused { OnErr result (params.new ≡ params.old) }
    ensures numbered { HasForms store.new params.new }
    ensures bounded { OnOk result (deepest (raw.own_offers (forms_of store.old params.old) (form_of store.old form)) ≤ 2000) }
    ensures deep { IfErr result (IfDeepAt (λ at. (at ≡ OfForm form) × (2000 < deepest (raw.own_offers (forms_of store.old params.old) (form_of store.old form))))) }
{
    match as_split(store, form) {
        Some(split) => split_offers(alloc, store, form, split),
        None => quantified_offers(alloc, store, params, form),
    }
}
