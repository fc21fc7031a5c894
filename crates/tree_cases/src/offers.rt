ghost use Rattle.std.specs.Prelude.{OnOk, IfOk, false};
ghost use Rattle.term_store.specs.Trees.{HasForm, Extends};
ghost use Rattle.param_store.specs.View.{HasForms, HasRaws};

use crate::shown::{deep_text, offers_text};
use crate::stored::stored_form;
use crate::symbols::symbols;
use case_tables::{Case, CaseFault, Table};
use equality_rules::{pair_offers, single_offers};
use param_store::{OfferFault, Params, RawOffer};
use std::alloc::Global;
use tableau_rules::own_offers;
use term_store::{FormId, Store};
use zm_logic::Symbols;

/// The table of offers.
pub(crate) struct Offers;

// What the formula of an id gives by itself.
fn own_offers_text(
    alloc: Global,
    store: &mut Store,
    params: &mut Params,
    form: FormId,
) -> Result<String, CaseFault>
    requires has { HasForm store.old form }
    requires numbered { HasForms store.old params.old }
    ensures { OnOk result (HasForms store.new params.new) }
{
    match own_offers(alloc, store, params, form) {
        Ok(offers) => Ok(offers_text(alloc, store, offers.as_slice())?),
        Err(OfferFault::Memory) => Err(CaseFault::Memory),
        Err(OfferFault::Deep { at }) => Ok(deep_text(alloc, store, at)?),
    }
}

// What a formula gives by itself.
fn own_text(
    alloc: Global,
    store: &mut Store,
    params: &mut Params,
    text: &[u8],
) -> Result<String, CaseFault>
    requires { HasForms store.old params.old }
    ensures { OnOk result (HasForms store.new params.new) }
{
    let form = stored_form(alloc, store, text)?;
    own_offers_text(alloc, store, params, form)
}

// What the last of some formulas gives by itself, after the others, and how many have numbers then.
fn own_answer(alloc: Global, case: &Case) -> Result<(String, u64), CaseFault> {
    let mut store = Store::new(alloc);
    let mut params = Params::new(alloc);
    let mut text = String::new(alloc);
    for field in case.fields.as_slice() {
        if field.word.as_str() == "own" {
            text = own_text(alloc, &mut store, &mut params, field.value.as_slice())?;
        }
    }
    Ok((text, params.count()))
}

// The same as one text, which has the numbers alone where they are asked for.
fn of_own(alloc: Global, case: &Case) -> Result<String, CaseFault> {
    let (text, count) = own_answer(alloc, case)?;
    if case.first("numbers").is_none() {
        return Ok(text);
    }
    Ok(format!(in alloc; "{count} numbers")?)
}

// Gives a formula the next number.
#[tactic(auto, using(crate::proofs::At::numbered_more))]
fn number(
    alloc: Global,
    store: &mut Store,
    params: &mut Params,
    text: &[u8],
) -> Result<(), CaseFault>
    requires { HasForms store.old params.old }
    ensures { OnOk result (HasForms store.new params.new) }
{
    let id = stored_form(alloc, store, text)?;
    let _ = params.number_for(id)?;
    Ok(())
}

// The numbers of the formulas that have them from the start.
fn numbers(alloc: Global, store: &mut Store, case: &Case) -> Result<Params, CaseFault>
    ensures { IfOk result (HasForms store.new) }
{
    let mut params = Params::new(alloc);
    for field in case.fields.as_slice() {
        if field.word.as_str() == "number" {
            number(alloc, store, &mut params, field.value.as_slice())?;
        }
    }
    Ok(params)
}

// Offers in order, or how many there are.
fn told(
    alloc: Global,
    store: &Store,
    offers: &[RawOffer],
    counted: bool,
) -> Result<String, CaseFault>
    requires { HasRaws store.now offers.now }
{
    if counted {
        let count = offers.len();
        return Ok(format!(in alloc; "{count} offers")?);
    }
    Ok(offers_text(alloc, store, offers)?)
}

// What the formulas of two ids give.
fn pair_text(
    alloc: Global,
    store: &mut Store,
    symbols: &Symbols,
    params: &Params,
    pair: (FormId, FormId),
    counted: bool,
) -> Result<String, CaseFault>
    requires has { HasForm store.old pair.0 }
    requires has_later { HasForm store.old pair.1 }
    requires numbered { HasForms store.old params.now }
{
    match pair_offers(alloc, store, symbols, params, pair.0, pair.1, false) {
        Ok(offers) => told(alloc, store, offers.as_slice(), counted),
        Err(OfferFault::Memory) => Err(CaseFault::Memory),
        Err(OfferFault::Deep { at }) => Ok(deep_text(alloc, store, at)?),
    }
}

// What the formula of an id gives beyond its rule.
fn single_text(
    alloc: Global,
    store: &mut Store,
    symbols: &Symbols,
    params: &Params,
    form: FormId,
    counted: bool,
) -> Result<String, CaseFault>
    requires has { HasForm store.old form }
    requires numbered { HasForms store.old params.now }
{
    match single_offers(alloc, store, symbols, params, form, false) {
        Ok(offers) => told(alloc, store, offers.as_slice(), counted),
        Err(OfferFault::Memory) => Err(CaseFault::Memory),
        Err(OfferFault::Deep { at }) => Ok(deep_text(alloc, store, at)?),
    }
}

// The symbols that the case declares.
fn declared(alloc: Global, case: &Case) -> Result<Symbols, CaseFault> {
    let text = case.wanted(alloc, "symbols")?;
    symbols(alloc, text.as_slice())
}

// The id of the formula that a word of the case is.
fn form_at(alloc: Global, store: &mut Store, case: &Case, word: &str) -> Result<FormId, CaseFault>
    ensures has { IfOk result (HasForm store.new) }
    ensures kept { Extends store.old store.new }
{
    let text = case.wanted(alloc, word)?;
    stored_form(alloc, store, text.as_slice())
}

// The ids of the earlier and the later formula.
#[tactic(auto, using(crate::proofs::At::form_still, crate::proofs::At::extends_more))]
fn pair(alloc: Global, store: &mut Store, case: &Case) -> Result<(FormId, FormId), CaseFault>
    ensures has { IfOk result (λ p. HasForm store.new p.0) }
    ensures has_later { IfOk result (λ p. HasForm store.new p.1) }
    ensures kept { Extends store.old store.new }
{
    let earlier = form_at(alloc, store, case, "earlier")?;
    let later = form_at(alloc, store, case, "later")?;
    Ok((earlier, later))
}

// What two formulas give.
#[tactic(auto, using(crate::proofs::At::numbered_still))]
fn of_pair(alloc: Global, case: &Case) -> Result<String, CaseFault> {
    let symbols = declared(alloc, case)?;
    let mut store = Store::new(alloc);
    let params = numbers(alloc, &mut store, case)?;
    let pair = pair(alloc, &mut store, case)?;
    let counted = case.first("count").is_some();
    pair_text(alloc, &mut store, &symbols, &params, pair, counted)
}

// What one formula gives beyond its rule.
#[tactic(auto, using(crate::proofs::At::numbered_still))]
fn of_single(alloc: Global, case: &Case) -> Result<String, CaseFault> {
    let symbols = declared(alloc, case)?;
    let mut store = Store::new(alloc);
    let params = numbers(alloc, &mut store, case)?;
    let form = form_at(alloc, &mut store, case, "single")?;
    let counted = case.first("count").is_some();
    single_text(alloc, &mut store, &symbols, &params, form, counted)
}

// The answer as a text.
fn answer_text(alloc: Global, case: &Case) -> Result<String, CaseFault> {
    if case.first("own").is_some() {
        of_own(alloc, case)
    } else if case.first("single").is_some() {
        of_single(alloc, case)
    } else {
        of_pair(alloc, case)
    }
}

impl Table for Offers {
    fn name(&self) -> &'static str {
        "offers"
    }

    fn words(&self) -> &'static [&'static str] {
        &[
            "own", "numbers", "symbols", "number", "earlier", "later", "single", "count",
        ]
    }

    fn answer(&self, alloc: Global, case: &Case) -> Result<Vec<u8>, CaseFault> {
        Ok(answer_text(alloc, case)?.into_bytes())
    }
}
