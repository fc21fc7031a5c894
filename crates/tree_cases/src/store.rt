ghost use Rattle.std.specs.Prelude.{IfOk};
ghost use Rattle.term_store.specs.Trees.{HasForm, Extends};
ghost use Rattle.term_store.specs.Open.{HasPart};

use crate::heads::decimal;
use crate::reading::read_form;
use crate::shown::{deep_text, put_form_of};
use crate::stored::{stored_form, stored_term, stored_type};
use case_tables::{Case, CaseFault, Table};
use std::alloc::Global;
use term_store::{EnterFault, FormId, OpenFault, Opening, Redex, Store, TermId};
use zm_logic::Form;

/// The table of what a store gives back.
pub(crate) struct Stores;

// The formula of an id.
fn form_text(alloc: Global, store: &Store, id: FormId) -> Result<String, CaseFault>
    requires { HasForm store.now id }
{
    let mut out = String::new(alloc);
    put_form_of(&mut out, store, id)?;
    Ok(out)
}

// The formula of an id that is opened.
fn opened_text(
    alloc: Global,
    store: &mut Store,
    form: FormId,
    with: Opening,
) -> Result<String, CaseFault>
    requires has { HasForm store.old form }
    requires part { HasPart store.old with }
{
    match store.open(form, with) {
        Ok(id) => form_text(alloc, store, id),
        Err(OpenFault::Memory) => Err(CaseFault::Memory),
        Err(OpenFault::Deep { at }) => Ok(deep_text(alloc, store, Redex::OfForm(at))?),
    }
}

// The formula of an id that is closed.
fn closed_text(
    alloc: Global,
    store: &mut Store,
    form: FormId,
    number: u64,
) -> Result<String, CaseFault>
    requires { HasForm store.old form }
{
    match store.close(form, number) {
        Ok(id) => form_text(alloc, store, id),
        Err(OpenFault::Memory) => Err(CaseFault::Memory),
        Err(OpenFault::Deep { at }) => Ok(deep_text(alloc, store, Redex::OfForm(at))?),
    }
}

// The formula that comes back of the id of one.
fn entered_text(alloc: Global, form: &Form) -> Result<String, CaseFault> {
    let mut store = Store::new(alloc);
    match store.enter(form) {
        Ok(id) => form_text(alloc, &store, id),
        Err(EnterFault::Memory) => Err(CaseFault::Memory),
        Err(EnterFault::Deep) => Ok(String::from_str(alloc, "deep")?),
    }
}

// What is put for the index.
fn part(alloc: Global, store: &mut Store, case: &Case) -> Result<Opening, CaseFault>
    ensures has { IfOk result (HasPart store.new) }
    ensures kept { Extends store.old store.new }
{
    if case.first("at_type").is_some() {
        let text = case.wanted(alloc, "at_type")?;
        return Ok(Opening::OfType(stored_type(alloc, store, text.as_slice())?));
    }
    let text = case.wanted(alloc, "at")?;
    Ok(Opening::OfTerm(stored_term(alloc, store, text.as_slice())?))
}

// The number that is closed.
fn number(case: &Case) -> Result<u64, CaseFault> {
    match case.first("number") {
        Some(digits) => match decimal(digits) {
            Some(number) => Ok(number),
            None => Err(CaseFault::Broken),
        },
        None => Err(CaseFault::Broken),
    }
}

#[tactic(auto, using(crate::proofs::At::form_still))]
fn of_open(alloc: Global, case: &Case) -> Result<String, CaseFault> {
    let text = case.wanted(alloc, "open")?;
    let mut store = Store::new(alloc);
    let form = stored_form(alloc, &mut store, text.as_slice())?;
    let with = part(alloc, &mut store, case)?;
    opened_text(alloc, &mut store, form, with)
}

fn of_close(alloc: Global, case: &Case) -> Result<String, CaseFault> {
    let text = case.wanted(alloc, "close")?;
    let number = number(case)?;
    let mut store = Store::new(alloc);
    let form = stored_form(alloc, &mut store, text.as_slice())?;
    closed_text(alloc, &mut store, form, number)
}

fn of_enter(alloc: Global, case: &Case) -> Result<String, CaseFault> {
    let text = case.wanted(alloc, "enter")?;
    let form = read_form(alloc, text.as_slice())?;
    entered_text(alloc, form.get())
}

// The place of the first of the ids that is this one.
fn place_of(ids: &[TermId], id: TermId) -> usize {
    for (place, known) in ids.iter().enumerate() {
        if known.0 == id.0 {
            return place;
        }
    }
    ids.len()
}

// Adds the place of the first of the terms so far that has the term's id.
fn put_share(out: &mut String, ids: &mut Vec<TermId>, id: TermId) -> Result<(), CaseFault> {
    let place = place_of(ids.as_slice(), id);
    if !ids.is_empty() {
        out.push(' ')?;
    }
    write!(out, "{place}")?;
    match ids.push(id) {
        Ok(()) => Ok(()),
        Err(_) => Err(CaseFault::Memory),
    }
}

fn of_share(alloc: Global, case: &Case) -> Result<String, CaseFault> {
    let mut out = String::new(alloc);
    let mut ids = Vec::new(alloc);
    let mut store = Store::new(alloc);
    for field in case.fields.as_slice() {
        if field.word.as_str() == "share" {
            let id = stored_term(alloc, &mut store, field.value.as_slice())?;
            put_share(&mut out, &mut ids, id)?;
        }
    }
    Ok(out)
}

// The answer as a text.
fn answer_text(alloc: Global, case: &Case) -> Result<String, CaseFault> {
    if case.first("open").is_some() {
        of_open(alloc, case)
    } else if case.first("close").is_some() {
        of_close(alloc, case)
    } else if case.first("enter").is_some() {
        of_enter(alloc, case)
    } else if case.first("share").is_some() {
        of_share(alloc, case)
    } else {
        Err(CaseFault::Broken)
    }
}

impl Table for Stores {
    fn name(&self) -> &'static str {
        "store"
    }

    fn words(&self) -> &'static [&'static str] {
        &["open", "at", "at_type", "close", "number", "enter", "share"]
    }

    fn answer(&self, alloc: Global, case: &Case) -> Result<Vec<u8>, CaseFault> {
        Ok(answer_text(alloc, case)?.into_bytes())
    }
}
