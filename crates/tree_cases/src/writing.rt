// Trees as the cases write them.
use sqlite_items::Boxed;
use std::alloc::AllocError;
use zm_logic::{Form, SymId, Term, Terms, Ty, Tys};

// Adds a symbol, behind a bracket where it has arguments.
fn put_symbol(out: &mut String, letter: char, symbol: SymId, bare: bool) -> Result<(), AllocError> {
    let number = symbol.0;
    if !bare {
        out.push('(')?;
    }
    out.push(letter)?;
    write!(out, "{number}")
}

// Adds the bracket behind a symbol's arguments, where it has some.
fn put_end(out: &mut String, bare: bool) -> Result<(), AllocError> {
    if bare {
        return Ok(());
    }
    out.push(')')
}

/// Adds a type.
#[cycle(put_type)]
pub(crate) fn put_type(out: &mut String, ty: &Ty) -> Result<(), AllocError> {
    match ty {
        Ty::Bound(index) => write!(out, "'{index}"),
        Ty::Param(number) => write!(out, "t{number}"),
        Ty::Meta(number) => write!(out, "?{number}"),
        Ty::Con(symbol, types) => {
            if symbol.0 == 0 && types.is_empty() {
                return out.push('i');
            }
            put_symbol(out, 'c', *symbol, types.is_empty())?;
            put_types(out, types)?;
            put_end(out, types.is_empty())
        }
    }
}

// Adds each of the types behind a space.
#[cycle(put_type)]
fn put_types(out: &mut String, types: &Tys) -> Result<(), AllocError> {
    for ty in types.as_slice() {
        out.push(' ')?;
        put_type(out, ty)?;
    }
    Ok(())
}

// Whether the type is that of individuals.
fn is_individual(ty: &Ty) -> bool {
    match ty {
        Ty::Con(symbol, types) => symbol.0 == 0 && types.is_empty(),
        Ty::Bound(_) | Ty::Param(_) | Ty::Meta(_) => false,
    }
}

/// Adds a metavariable over terms, or an epsilon term, by its letter, its number and its type.
pub(crate) fn put_carrier(
    out: &mut String,
    letter: char,
    number: u64,
    ty: &Ty,
) -> Result<(), AllocError> {
    if is_individual(ty) {
        out.push(letter)?;
        return write!(out, "{number}");
    }
    out.push('(')?;
    out.push(letter)?;
    write!(out, "{number} ")?;
    put_type(out, ty)?;
    out.push(')')
}

/// Adds a term.
#[cycle(put_term)]
pub(crate) fn put_term(out: &mut String, term: &Term) -> Result<(), AllocError> {
    match term {
        Term::Bound(index) => write!(out, "#{index}"),
        Term::Eps(number, ty) => put_carrier(out, 'e', *number, ty),
        Term::Meta(number, ty) => put_carrier(out, 'm', *number, ty),
        Term::App(symbol, types, terms) => {
            let bare = types.is_empty() && terms.is_empty();
            put_symbol(out, 'f', *symbol, bare)?;
            put_types(out, types)?;
            put_terms(out, terms)?;
            put_end(out, bare)
        }
    }
}

// Adds each of the terms behind a space.
#[cycle(put_term)]
fn put_terms(out: &mut String, terms: &Terms) -> Result<(), AllocError> {
    for term in terms.as_slice() {
        out.push(' ')?;
        put_term(out, term)?;
    }
    Ok(())
}

fn put_atom(out: &mut String, symbol: SymId, types: &Tys, terms: &Terms) -> Result<(), AllocError> {
    let bare = types.is_empty() && terms.is_empty();
    put_symbol(out, 'p', symbol, bare)?;
    put_types(out, types)?;
    put_terms(out, terms)?;
    put_end(out, bare)
}

fn put_equal(out: &mut String, ty: &Ty, left: &Term, right: &Term) -> Result<(), AllocError> {
    out.push_str("(= ")?;
    put_type(out, ty)?;
    out.push(' ')?;
    put_term(out, left)?;
    out.push(' ')?;
    put_term(out, right)?;
    out.push(')')
}

// The first word of a formula, which has no other symbol there.
fn word(form: &Form) -> &'static str {
    match form {
        Form::True => "true",
        Form::False => "false",
        Form::Atom(_, _, _) => "p",
        Form::Equal(_, _, _) => "=",
        Form::Not(_) => "not",
        Form::And(_, _) => "and",
        Form::Or(_, _) => "or",
        Form::Imp(_, _) => "imp",
        Form::Iff(_, _) => "iff",
        Form::All(_, _) => "all",
        Form::Ex(_, _) => "ex",
        Form::AllType(_) => "allt",
        Form::ExType(_) => "ext",
    }
}

// Adds a bracket and a word.
fn put_word(out: &mut String, word: &str) -> Result<(), AllocError> {
    out.push('(')?;
    out.push_str(word)
}

/// Adds a formula.
#[cycle(put_form)]
pub(crate) fn put_form(out: &mut String, form: &Form) -> Result<(), AllocError> {
    match form {
        Form::True | Form::False => out.push_str(word(form)),
        Form::Atom(symbol, types, terms) => put_atom(out, *symbol, types, terms),
        Form::Equal(ty, left, right) => put_equal(out, ty, left, right),
        Form::Not(f) | Form::AllType(f) | Form::ExType(f) => {
            put_word(out, word(form))?;
            put_inside(out, f)?;
            out.push(')')
        }
        Form::And(f, g) | Form::Or(f, g) | Form::Imp(f, g) | Form::Iff(f, g) => {
            put_word(out, word(form))?;
            put_inside(out, f)?;
            put_inside(out, g)?;
            out.push(')')
        }
        Form::All(ty, f) | Form::Ex(ty, f) => {
            put_word(out, word(form))?;
            out.push(' ')?;
            put_type(out, ty)?;
            put_inside(out, f)?;
            out.push(')')
        }
    }
}

// Adds a formula behind a space.
#[cycle(put_form)]
fn put_inside(out: &mut String, form: &Boxed<Form>) -> Result<(), AllocError> {
    out.push(' ')?;
    put_form(out, form.get())
}
