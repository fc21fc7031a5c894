use crate::heads::decimal;
use crate::reading::{read_form, read_term, read_type};
use crate::writing::{put_form, put_term, put_type};
use case_tables::{Case, CaseFault, Table};
use std::alloc::{AllocError, Global};
use zm_logic::{Form, Term, Ty, close_form, open_form, open_type};

/// The table of trees by themselves: opened, closed, copied, compared and measured.
pub(crate) struct Trees;

// A type as a text.
fn type_text(alloc: Global, ty: &Ty) -> Result<String, AllocError> {
    let mut out = String::new(alloc);
    put_type(&mut out, ty)?;
    Ok(out)
}

// A term as a text.
fn term_text(alloc: Global, term: &Term) -> Result<String, AllocError> {
    let mut out = String::new(alloc);
    put_term(&mut out, term)?;
    Ok(out)
}

// A formula as a text.
fn written(alloc: Global, form: &Form) -> Result<String, AllocError> {
    let mut out = String::new(alloc);
    put_form(&mut out, form)?;
    Ok(out)
}

// A formula that was made, as a text.
fn form_text(alloc: Global, made: Result<Form, AllocError>) -> Result<String, AllocError> {
    let form = made?;
    let text = written(alloc, &form);
    drop(form);
    text
}

// The one value of a word.
fn value<'a>(case: &'a Case, word: &str) -> Result<&'a [u8], CaseFault> {
    match case.first(word) {
        Some(value) => Ok(value),
        None => Err(CaseFault::Broken),
    }
}

// The formula with the term for the index 0.
fn opened_at_term(alloc: Global, form: &Form, with: &[u8]) -> Result<String, CaseFault> {
    let with = read_term(alloc, with)?;
    Ok(form_text(alloc, open_form(alloc, form, &with))?)
}

// The formula with the type for the index 0.
fn opened_at_type(alloc: Global, form: &Form, with: &[u8]) -> Result<String, CaseFault> {
    let with = read_type(alloc, with)?;
    Ok(form_text(alloc, open_type(alloc, form, &with))?)
}

fn opened(alloc: Global, case: &Case, form: &Form) -> Result<String, CaseFault> {
    match case.first("at_type") {
        Some(with) => opened_at_type(alloc, form, with),
        None => opened_at_term(alloc, form, value(case, "at")?),
    }
}

// The formula with the index 0 for the parameters of the number.
fn closed(alloc: Global, case: &Case, form: &Form) -> Result<String, CaseFault> {
    let Some(number) = decimal(value(case, "number")?) else {
        return Err(CaseFault::Broken);
    };
    if form.depth() > 2000 {
        return Err(CaseFault::Broken);
    }
    Ok(form_text(alloc, close_form(alloc, form, number))?)
}

fn measured(alloc: Global, depth: u64, size: u64) -> Result<String, AllocError> {
    format!(in alloc; "{depth} {size}")
}

fn compared(alloc: Global, same: bool) -> Result<String, AllocError> {
    String::from_str(alloc, if same { "same" } else { "another" })
}

// Whether the formula is the other one.
fn form_compared(alloc: Global, form: &Form, other: &[u8]) -> Result<String, CaseFault> {
    let other = read_form(alloc, other)?;
    Ok(compared(alloc, form.same(other.get()))?)
}

// What is asked of a formula.
fn of_form(alloc: Global, case: &Case, form: &Form) -> Result<String, CaseFault> {
    if case.first("copy").is_some() {
        return Ok(form_text(alloc, form.copy(alloc))?);
    }
    if case.first("open").is_some() {
        return opened(alloc, case, form);
    }
    if case.first("close").is_some() {
        return closed(alloc, case, form);
    }
    if case.first("size").is_some() {
        return Ok(measured(alloc, form.depth(), form.size())?);
    }
    form_compared(alloc, form, value(case, "as")?)
}

// Whether the term is the other one.
fn term_compared(alloc: Global, term: &Term, other: &[u8]) -> Result<String, CaseFault> {
    let other = read_term(alloc, other)?;
    Ok(compared(alloc, term.same(&other))?)
}

// A term's copy.
fn term_copied(alloc: Global, term: &Term) -> Result<String, AllocError> {
    let copy = term.copy(alloc)?;
    term_text(alloc, &copy)
}

// What is asked of a term.
fn of_term(alloc: Global, case: &Case, term: &Term) -> Result<String, CaseFault> {
    if case.first("copy").is_some() {
        return Ok(term_copied(alloc, term)?);
    }
    if case.first("size").is_some() {
        return Ok(measured(alloc, term.depth(), term.size())?);
    }
    term_compared(alloc, term, value(case, "as")?)
}

// Whether the type is the other one.
fn type_compared(alloc: Global, ty: &Ty, other: &[u8]) -> Result<String, CaseFault> {
    let other = read_type(alloc, other)?;
    Ok(compared(alloc, ty.same(&other))?)
}

// A type's copy.
fn type_copied(alloc: Global, ty: &Ty) -> Result<String, AllocError> {
    let copy = ty.copy(alloc)?;
    type_text(alloc, &copy)
}

// What is asked of a type.
fn of_type(alloc: Global, case: &Case, ty: &Ty) -> Result<String, CaseFault> {
    if case.first("copy").is_some() {
        return Ok(type_copied(alloc, ty)?);
    }
    if case.first("size").is_some() {
        return Ok(measured(alloc, ty.depth(), ty.size())?);
    }
    type_compared(alloc, ty, value(case, "as")?)
}

fn of_read_form(alloc: Global, case: &Case, text: &[u8]) -> Result<String, CaseFault> {
    let form = read_form(alloc, text)?;
    of_form(alloc, case, form.get())
}

fn of_read_term(alloc: Global, case: &Case, text: &[u8]) -> Result<String, CaseFault> {
    let term = read_term(alloc, text)?;
    of_term(alloc, case, &term)
}

fn of_read_type(alloc: Global, case: &Case, text: &[u8]) -> Result<String, CaseFault> {
    let ty = read_type(alloc, text)?;
    of_type(alloc, case, &ty)
}

// The answer as a text.
fn answer_text(alloc: Global, case: &Case) -> Result<String, CaseFault> {
    if let Some(text) = case.first("form") {
        return of_read_form(alloc, case, text);
    }
    if let Some(text) = case.first("term") {
        return of_read_term(alloc, case, text);
    }
    of_read_type(alloc, case, value(case, "type")?)
}

impl Table for Trees {
    fn name(&self) -> &'static str {
        "trees"
    }

    fn words(&self) -> &'static [&'static str] {
        &[
            "form", "term", "type", "copy", "open", "close", "size", "same", "as", "at", "at_type",
            "number",
        ]
    }

    fn answer(&self, alloc: Global, case: &Case) -> Result<Vec<u8>, CaseFault> {
        Ok(answer_text(alloc, case)?.into_bytes())
    }
}
