ghost use Rattle.std.specs.Prelude.{◌≡◌, IfOk};
ghost use Rattle.zm_logic.specs.View.{form_tree};
ghost use Rattle.term_store.specs.Trees.{HasTerm, HasForm, form_of};
ghost use Rattle.unify.specs.Unification.{AreAtomsOrEqualities};
ghost use Rattle.unify.specs.Occurs.{IfFound};

use crate::piles::Piles;
use crate::reading::{read, read_term};
use crate::shown::{bindings_text, deep_text};
use crate::stored::{entered, entered_term};
use case_tables::{Case, CaseFault, Table};
use std::alloc::Global;
use term_store::{FormId, Redex, Store, TermId};
use unify::{Bindings, MguFault, mgu, mgu_terms};
use zm_logic::{Form, Term};

/// The table of most general unifiers.
pub(crate) struct Unifiers;

// The most general unifier of two terms.
fn unified_terms(
    alloc: Global,
    store: &mut Store,
    left: TermId,
    right: TermId,
) -> Result<String, CaseFault>
    requires has { HasTerm store.old left }
    requires has_right { HasTerm store.old right }
{
    match mgu_terms(alloc, store, left, right) {
        Ok(Some(found)) => Ok(bindings_text(alloc, store, found.as_slice())?),
        Ok(None) => Ok(String::from_str(alloc, "none")?),
        Err(MguFault::Memory) => Err(CaseFault::Memory),
        Err(MguFault::Deep { at }) => Ok(deep_text(alloc, store, Redex::OfTerm(at))?),
    }
}

#[tactic(auto, using(crate::proofs::At::term_still))]
fn of_terms(alloc: Global, left: &Term, right: &Term) -> Result<String, CaseFault> {
    let mut store = Store::new(alloc);
    let right = entered_term(&mut store, right)?;
    let left = entered_term(&mut store, left)?;
    unified_terms(alloc, &mut store, left, right)
}

// The most general unifier of two atoms or two equalities.
fn unified_forms(
    alloc: Global,
    store: &mut Store,
    left: FormId,
    right: FormId,
) -> Result<String, CaseFault>
    requires has { HasForm store.old left }
    requires has_right { HasForm store.old right }
    requires alike { AreAtomsOrEqualities (form_of store.old left) (form_of store.old right) }
{
    match mgu(alloc, store, left, right) {
        Ok(Some(found)) => Ok(bindings_text(alloc, store, found.as_slice())?),
        Ok(None) => Ok(String::from_str(alloc, "none")?),
        Err(MguFault::Memory) => Err(CaseFault::Memory),
        Err(MguFault::Deep { at }) => Ok(deep_text(alloc, store, Redex::OfTerm(at))?),
    }
}

// Whether both are atoms or both are equalities.
fn are_alike(left: &Form, right: &Form) -> bool
    ensures { IfFound (AreAtomsOrEqualities (form_tree left.now) (form_tree right.now)) (Unit {0}) result }
{
    match (left, right) {
        (Form::Atom(_, _, _), Form::Atom(_, _, _)) => true,
        (Form::Equal(_, _, _), Form::Equal(_, _, _)) => true,
        (_, _) => false,
    }
}

fn of_forms(alloc: Global, left: &Form, right: &Form) -> Result<String, CaseFault> {
    if !are_alike(left, right) {
        return Err(CaseFault::Broken);
    }
    let mut store = Store::new(alloc);
    let right = entered(&mut store, right)?;
    let left = entered(&mut store, left)?;
    unified_forms(alloc, &mut store, left, right)
}

// How many bindings two terms' unifier has, for terms whose solved bindings are too large to print.
fn count_text(alloc: Global, found: Option<Bindings>) -> Result<String, CaseFault> {
    let count = match found {
        Some(found) => found.len(),
        None => return Ok(String::from_str(alloc, "none")?),
    };
    Ok(format!(in alloc; "{count} bindings")?)
}

#[tactic(auto, using(crate::proofs::At::term_still))]
fn counted(alloc: Global, left: &Term, right: &Term) -> Result<String, CaseFault> {
    let mut store = Store::new(alloc);
    let right = entered_term(&mut store, right)?;
    let left = entered_term(&mut store, left)?;
    match mgu_terms(alloc, &mut store, left, right) {
        Ok(found) => count_text(alloc, found),
        Err(MguFault::Memory) => Err(CaseFault::Memory),
        Err(MguFault::Deep { at: _ }) => Ok(String::from_str(alloc, "deep")?),
    }
}

// The answer to two formulas or two terms.
fn of_piles(alloc: Global, left: Piles, right: Piles) -> Result<String, CaseFault> {
    if left.is_form() {
        let left = left.into_form()?;
        let right = right.into_form()?;
        return of_forms(alloc, left.get(), right.get());
    }
    let left = left.into_term()?;
    let right = right.into_term()?;
    of_terms(alloc, &left, &right)
}

// The answer to two texts.
fn of_texts(alloc: Global, left: &[u8], right: &[u8]) -> Result<String, CaseFault> {
    let left = read(alloc, left)?;
    let right = read(alloc, right)?;
    of_piles(alloc, left, right)
}

// The first answer of a text with each of the others that isn't that they have no unifier.
fn unified_with(
    alloc: Global,
    case: &Case,
    place: usize,
    text: &[u8],
) -> Result<Option<String>, CaseFault> {
    for (other, field) in case.fields.as_slice().iter().enumerate() {
        if field.word.as_str() == "each" && other != place {
            let answer = of_texts(alloc, text, field.value.as_slice())?;
            if answer.as_str() != "none" {
                return Ok(Some(answer));
            }
        }
    }
    Ok(None)
}

// The first answer of two different ones of the texts, either way round, that isn't that they have no unifier.
fn of_each(alloc: Global, case: &Case) -> Result<String, CaseFault> {
    for (place, field) in case.fields.as_slice().iter().enumerate() {
        if field.word.as_str() == "each" {
            if let Some(answer) = unified_with(alloc, case, place, field.value.as_slice())? {
                return Ok(answer);
            }
        }
    }
    Ok(String::from_str(alloc, "none")?)
}

// The number of bindings of two texts.
fn count_of(alloc: Global, left: &[u8], right: &[u8]) -> Result<String, CaseFault> {
    let left = read_term(alloc, left)?;
    let right = read_term(alloc, right)?;
    counted(alloc, &left, &right)
}

fn of_sides(alloc: Global, case: &Case) -> Result<String, CaseFault> {
    let left = case.wanted(alloc, "left")?;
    let right = case.wanted(alloc, "right")?;
    if case.first("count").is_some() {
        count_of(alloc, left.as_slice(), right.as_slice())
    } else {
        of_texts(alloc, left.as_slice(), right.as_slice())
    }
}

impl Table for Unifiers {
    fn name(&self) -> &'static str {
        "unifiers"
    }

    fn words(&self) -> &'static [&'static str] {
        &["left", "right", "each", "count"]
    }

    fn answer(&self, alloc: Global, case: &Case) -> Result<Vec<u8>, CaseFault> {
        let text = if case.first("each").is_some() {
            of_each(alloc, case)?
        } else {
            of_sides(alloc, case)?
        };
        Ok(text.into_bytes())
    }
}
