ghost use Rattle.std.specs.Prelude.{◌≡◌, ◌++◌, ◌&&◌, OnOk, map, true, decimal, nat_eq};
ghost use Rattle.std.specs.List.{list_all};
ghost use Rattle.tptp_lex.specs.Words.{is_word};
ghost use Rattle.zm_logic.specs.View.{type_tree, types_tree, term_tree, terms_tree, form_tree};
ghost use Rattle.zenon_modulo.specs.Names as spec;

use itoa::Buffer;
use sqlite_items::Items;
use std::alloc::AllocError;
use zm_logic::{Form, Symbol, Term, Ty};

fn is_word(byte: u8) -> bool
    ensures { result ≡ is_word byte }
{
    matches!(byte, b'a'..=b'z' | b'A'..=b'Z' | b'0'..=b'9' | b'_')
}

#[tactic(auto, using(crate::proofs::Printed::words_here, crate::proofs::Printed::words_later, crate::proofs::Printed::words_end))]
fn are_words(bytes: &[u8]) -> bool
    ensures { result ≡ list_all is_word bytes.now }
{
    for byte in bytes {
        if !is_word(*byte) {
            return false;
        }
    }
    true
}

fn is_lower(name: &str) -> bool
    ensures { result ≡ spec.is_lower name.now }
{
    match name.as_bytes() {
        [b'a'..=b'z', rest @ ..] => are_words(rest),
        [_, ..] => false,
        [] => false,
    }
}

/// Adds a name, between quotes where it is no lower.
pub fn push_name(text: &mut Vec<u8>, name: &str) -> Result<(), AllocError>
    ensures { OnOk result (text.new.items ≡ text.old.items ++ spec.name_text name.now) }
{
    if is_lower(name) {
        text.extend_from_slice(name.as_bytes())?;
        return Ok(());
    }
    text.extend_from_slice(b"'")?;
    text.extend_from_slice(name.as_bytes())?;
    text.extend_from_slice(b"'")?;
    Ok(())
}

// Adds the name of the symbol at a place of the list, if there is one.
#[tactic(auto, using(crate::proofs::Printed::nth_at, crate::proofs::Printed::nth_beyond))]
fn push_nth(text: &mut Vec<u8>, symbols: &[Symbol], place: usize) -> Result<(), AllocError>
    ensures { OnOk result (text.new.items ≡ text.old.items ++ spec.nth_text (map (λ s. s.name) symbols.now) place) }
{
    if place >= symbols.len() {
        return Ok(());
    }
    push_name(text, symbols[place].name.text())
}

fn push_constructor(text: &mut Vec<u8>, symbols: &[Symbol], number: u32) -> Result<(), AllocError>
    ensures { OnOk result (text.new.items ≡ text.old.items ++ spec.constructor_text (map (λ s. s.name) symbols.now) number) }
{
    if number == 0 {
        text.extend_from_slice(b"$i")?;
        return Ok(());
    }
    push_nth(text, symbols, number as usize - 1)
}

fn push_numbered(text: &mut Vec<u8>, letters: &[u8], number: u64) -> Result<(), AllocError>
    ensures { OnOk result (text.new.items ≡ text.old.items ++ letters.now ++ decimal number) }
{
    let mut buffer = Buffer::new();
    text.extend_from_slice(letters)?;
    text.extend_from_slice(buffer.format(number).as_bytes())?;
    Ok(())
}

// There are no type arguments.
#[tactic(auto, using(crate::proofs::Printed::some_types))]
fn no_types(types: &Items<Ty>) -> bool
    ensures { result ≡ spec.no_types (types_tree types.now) }
{
    match types.as_slice() {
        [] => true,
        [_, ..] => false,
    }
}

// There are no term arguments.
#[tactic(auto, using(crate::proofs::Printed::some_terms))]
fn no_terms(terms: &Items<Term>) -> bool
    ensures { result ≡ spec.no_terms (terms_tree terms.now) }
{
    match terms.as_slice() {
        [] => true,
        [_, ..] => false,
    }
}

fn no_arguments(types: &Items<Ty>, terms: &Items<Term>) -> bool
    ensures { result ≡ (spec.no_types (types_tree types.now) && spec.no_terms (terms_tree terms.now)) }
{
    no_types(types) && no_terms(terms)
}

// The argument at this place of a list is the first of all.
fn is_first_at(is_first: bool, place: usize) -> bool
    ensures { result ≡ (is_first && nat_eq place 0) }
{
    is_first && place == 0
}

// Adds the mark before an argument.
fn push_mark(text: &mut Vec<u8>, is_first: bool) -> Result<(), AllocError>
    ensures { OnOk result (text.new.items ≡ text.old.items ++ spec.mark_text is_first) }
{
    text.extend_from_slice(if is_first { b"(" } else { b"," })?;
    Ok(())
}

// Adds the bracket behind the last argument, if there is one.
fn push_closing(text: &mut Vec<u8>, is_none: bool) -> Result<(), AllocError>
    ensures { OnOk result (text.new.items ≡ text.old.items ++ spec.closing_text is_none) }
{
    text.extend_from_slice(if is_none { b"" } else { b")" })?;
    Ok(())
}

/// Adds a type over these symbols, of which the first has the number 1.
#[cycle(push_type)]
pub fn push_type(text: &mut Vec<u8>, symbols: &[Symbol], ty: &Ty) -> Result<(), AllocError>
    ensures { OnOk result (text.new.items ≡ text.old.items ++ spec.type_text (map (λ s. s.name) symbols.now) (type_tree ty.now)) }
{
    match ty {
        Ty::Bound(n) => push_numbered(text, b"X", u64::from(*n)),
        Ty::Param(n) => push_numbered(text, b"$$a", *n),
        Ty::Meta(n) => push_numbered(text, b"$$b", *n),
        Ty::Con(c, types) => {
            push_constructor(text, symbols, c.0)?;
            push_types(text, symbols, types)?;
            push_closing(text, no_types(types))
        }
    }
}

// Adds type arguments, each behind its mark.
#[cycle(push_type)]
fn push_types(text: &mut Vec<u8>, symbols: &[Symbol], types: &Items<Ty>) -> Result<(), AllocError>
    ensures { OnOk result (text.new.items ≡ text.old.items ++ spec.types_text (map (λ s. s.name) symbols.now) true (types_tree types.now)) }
{
    for (i, ty) in types.as_slice().iter().enumerate() {
        push_mark(text, i == 0)?;
        push_type(text, symbols, ty)?;
    }
    Ok(())
}

fn push_symbol(text: &mut Vec<u8>, symbols: &[Symbol], number: u32) -> Result<(), AllocError>
    ensures { OnOk result (text.new.items ≡ text.old.items ++ spec.symbol_text (map (λ s. s.name) symbols.now) number) }
{
    if number == 0 {
        return Ok(());
    }
    push_nth(text, symbols, number as usize - 1)
}

// Adds a symbol with its type arguments.
fn push_head(
    text: &mut Vec<u8>,
    symbols: &[Symbol],
    number: u32,
    types: &Items<Ty>,
) -> Result<(), AllocError>
    ensures { OnOk result (text.new.items ≡ text.old.items ++ spec.head_text (map (λ s. s.name) symbols.now) number (types_tree types.now)) }
{
    push_symbol(text, symbols, number)?;
    push_types(text, symbols, types)
}

// Adds a term over these symbols, of which the first has the number 1.
#[cycle(push_term)]
fn push_term(text: &mut Vec<u8>, symbols: &[Symbol], term: &Term) -> Result<(), AllocError>
    ensures { OnOk result (text.new.items ≡ text.old.items ++ spec.term_text (map (λ s. s.name) symbols.now) (term_tree term.now)) }
{
    match term {
        Term::Bound(n) => push_numbered(text, b"X", u64::from(*n)),
        Term::Eps(n, _) => push_numbered(text, b"$$e", *n),
        Term::Meta(n, _) => push_numbered(text, b"$$m", *n),
        Term::App(f, types, terms) => {
            push_head(text, symbols, f.0, types)?;
            push_terms(text, symbols, no_types(types), terms)?;
            push_closing(text, no_arguments(types, terms))
        }
    }
}

// Adds term arguments, each behind its mark.
#[cycle(push_term)]
fn push_terms(
    text: &mut Vec<u8>,
    symbols: &[Symbol],
    is_first: bool,
    terms: &Items<Term>,
) -> Result<(), AllocError>
    ensures { OnOk result (text.new.items ≡ text.old.items ++ spec.terms_text (map (λ s. s.name) symbols.now) is_first (terms_tree terms.now)) }
{
    for (i, term) in terms.as_slice().iter().enumerate() {
        push_mark(text, is_first_at(is_first, i))?;
        push_term(text, symbols, term)?;
    }
    Ok(())
}

/// Adds an atom over these symbols, of which the first has the number 1.
pub fn push_atom(text: &mut Vec<u8>, symbols: &[Symbol], atom: &Form) -> Result<(), AllocError>
    ensures { OnOk result (text.new.items ≡ text.old.items ++ spec.atom_text (map (λ s. s.name) symbols.now) (form_tree atom.now)) }
{
    match atom {
        Form::Atom(p, types, terms) => {
            push_head(text, symbols, p.0, types)?;
            push_terms(text, symbols, no_types(types), terms)?;
            push_closing(text, no_arguments(types, terms))
        }
        _ => Ok(()),
    }
}
