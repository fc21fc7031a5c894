use crate::heads::decimal;
use crate::ranges::cut;
use crate::reading::{read, read_type};
use case_tables::CaseFault;
use std::alloc::Global;
use zm_logic::{Sense, Symbol, Symbols, Text, Ty, Tys};

// A text without a space at its front.
fn trimmed(text: &[u8]) -> &[u8] {
    match text {
        [b' ', behind @ ..] => behind,
        _ => text,
    }
}

// How many type variables the front of a declaration tells, and what comes behind.
fn front(text: &[u8]) -> Result<(u32, &[u8]), CaseFault> {
    let (digits, behind) = cut(text, b' ');
    match decimal(digits) {
        Some(number) => match u32::try_from(number) {
            Ok(types) => Ok((types, behind.unwrap_or(&[]))),
            Err(_) => Err(CaseFault::Broken),
        },
        None => Err(CaseFault::Broken),
    }
}

// What a symbol makes: a term of a type where one is told, and else a formula.
fn sense(alloc: Global, made: Option<&[u8]>) -> Result<Sense, CaseFault> {
    match made {
        Some(text) => Ok(Sense::Function(read_type(alloc, text)?)),
        None => Ok(Sense::Predicate),
    }
}

fn arguments(alloc: Global, text: &[u8]) -> Result<Tys, CaseFault> {
    read(alloc, text)?.into_types()
}

// Adds a symbol.
fn declare(
    alloc: Global,
    symbols: &mut Symbols,
    types: u32,
    arguments: Tys,
    sense: Sense,
) -> Result<(), CaseFault> {
    let name = Text::of(alloc, "f")?;
    symbols.push(Symbol {
        name,
        types,
        arguments,
        sense,
    })?;
    Ok(())
}

// Adds the symbol that a declaration tells.
fn put_symbol(alloc: Global, symbols: &mut Symbols, text: &[u8]) -> Result<(), CaseFault> {
    let (types, behind) = front(text)?;
    let (before, made) = cut(behind, b'>');
    let arguments = arguments(alloc, before)?;
    let sense = sense(alloc, made)?;
    declare(alloc, symbols, types, arguments, sense)
}

/// The symbols that a text declares, numbered from 1 and divided by `;`: how many type variables each has, the types of
/// its arguments, and behind `>` the type of a function.
pub(crate) fn symbols(alloc: Global, text: &[u8]) -> Result<Symbols, CaseFault> {
    let mut all = Symbols::new(alloc);
    let mut rest = text;
    for _ in 0..text.len() {
        let (piece, behind) = cut(rest, b';');
        put_symbol(alloc, &mut all, trimmed(piece))?;
        match behind {
            Some(more) => rest = more,
            None => break,
        }
    }
    Ok(all)
}
