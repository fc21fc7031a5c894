use case_tables::{Case, CaseFault, Field, Table};
use std::alloc::{AllocError, Global};
use std::fmt::Write;
use std::str;
use tff_typing::{Fault, Found, TypeRefusal, TypeStop, type_problem};
use tptp_include::{GatherRefusal, Gathered, gather};
use zm_base::QuietLibrary;
use zm_logic::{Problem, Symbol, Symbols, Ty, Tys};

// The most bytes of a text that can be gathered from.
const MOST_BYTES: usize = 16_777_216;

/// The symbols that a text declares and uses, or why it has no typing.
pub struct Typing;

// What stands in front of the text: its number of bytes, and of symbols.
#[derive(Clone, Copy)]
struct Front {
    bytes: usize,
    symbols: usize,
}

// A text so many times, each with its number between its front and its back.
#[derive(Clone, Copy)]
struct Numbered<'a> {
    count: u32,
    front: &'a str,
    back: &'a str,
}

// The number of times, and behind a space the text with `#` for its number.
fn numbered_of(value: &str) -> Option<Numbered<'_>> {
    let (count, pattern) = value.split_once(' ')?;
    let (front, back) = pattern.split_once('#')?;
    match count.parse::<u32>() {
        Ok(count) => Some(Numbered { count, front, back }),
        Err(_) => None,
    }
}

// Writes the text with one number.
fn write_one(text: &mut String, numbered: &Numbered<'_>, number: u32) -> Result<(), AllocError> {
    text.push_str(numbered.front)?;
    write!(text, "{number}")?;
    text.push_str(numbered.back)
}

// Writes the text with each number.
fn write_numbered(text: &mut String, numbered: &Numbered<'_>) -> Result<(), AllocError> {
    for number in 0..numbered.count {
        write_one(text, numbered, number)?;
    }
    Ok(())
}

// Puts a numbered text behind what is there, and says whether the value is one.
fn put_numbered(alloc: Global, text: &mut Vec<u8>, value: &[u8]) -> Result<bool, AllocError> {
    let Ok(value) = str::from_utf8(value) else {
        return Ok(false);
    };
    let Some(numbered) = numbered_of(value) else {
        return Ok(false);
    };
    let mut written = String::new(alloc);
    write_numbered(&mut written, &numbered)?;
    text.extend_from_slice(written.as_bytes())?;
    Ok(true)
}

// Puts a field's part of the text behind what is there, and says whether it could.
fn put_part(alloc: Global, text: &mut Vec<u8>, field: &Field) -> Result<bool, AllocError> {
    if field.word.as_str() == "numbered" {
        return put_numbered(alloc, text, field.value.as_slice());
    }
    text.extend_from_slice(field.value.as_slice())?;
    Ok(true)
}

// Whether the field is a part of the text.
fn is_part(field: &Field) -> bool {
    let word = field.word.as_str();
    word == "text" || word == "numbered"
}

// Puts the text of a case behind what is there.
fn put_text(alloc: Global, text: &mut Vec<u8>, case: &Case) -> Result<(), CaseFault> {
    for field in case.fields.as_slice() {
        if is_part(field) && !put_part(alloc, text, field)? {
            return Err(CaseFault::Broken);
        }
    }
    Ok(())
}

// Whether the case has a text.
fn has_text(case: &Case) -> bool {
    for field in case.fields.as_slice() {
        if is_part(field) {
            return true;
        }
    }
    false
}

// The declarations in front of a case's text.
fn front_of(alloc: Global, case: &Case) -> Result<Vec<u8>, AllocError> {
    match case.joined(alloc, "front")? {
        Some(front) => Ok(front),
        None => Ok(Vec::new(alloc)),
    }
}

// The name of the symbol with this number, of those that are numbered from 1.
fn name_of(symbols: &Symbols, number: u32) -> &str {
    match symbols.get((number as usize).saturating_sub(1)) {
        Some(symbol) => symbol.name.text(),
        None => "?",
    }
}

// Writes a constructor at types.
#[cycle(write_types)]
fn write_applied(
    line: &mut String,
    symbols: &Symbols,
    number: u32,
    types: &Tys,
) -> Result<(), AllocError> {
    line.push_str(name_of(symbols, number))?;
    for ty in types.as_slice() {
        line.push_str("(")?;
        write_type(line, symbols, ty)?;
        line.push_str(")")?;
    }
    Ok(())
}

#[cycle(write_types)]
fn write_type(line: &mut String, symbols: &Symbols, ty: &Ty) -> Result<(), AllocError> {
    match ty {
        Ty::Bound(n) => write!(line, "X{n}"),
        Ty::Param(n) => write!(line, "param {n}"),
        Ty::Meta(n) => write!(line, "meta {n}"),
        Ty::Con(constructor, types) => {
            if constructor.0 == 0 {
                return line.push_str("$i");
            }
            write_applied(line, symbols, constructor.0, types)
        }
    }
}

// Writes what is wanted or stands in a place.
fn write_found(line: &mut String, symbols: &Symbols, found: &Found) -> Result<(), AllocError> {
    match found {
        Found::Truth => line.push_str(" $o"),
        Found::OfType(ty) => {
            line.push_str(" ")?;
            write_type(line, symbols, ty)
        }
    }
}

// Writes what is wanted and what stands there.
fn write_mismatch(
    line: &mut String,
    symbols: &Symbols,
    wanted: &Found,
    got: &Found,
) -> Result<(), AllocError> {
    line.push_str(" mismatch")?;
    write_found(line, symbols, wanted)?;
    write_found(line, symbols, got)
}

// Writes a fault.
fn write_fault(line: &mut String, symbols: &Symbols, fault: &Fault) -> Result<(), AllocError> {
    match fault {
        Fault::SecondConjecture => line.push_str(" second conjecture"),
        Fault::Redeclared => line.push_str(" redeclared"),
        Fault::TooManySymbols => line.push_str(" too many symbols"),
        Fault::Unbound => line.push_str(" unbound"),
        Fault::Arity => line.push_str(" arity"),
        Fault::NotAType => line.push_str(" not a type"),
        Fault::NotATerm => line.push_str(" not a term"),
        Fault::Mismatch { wanted, got } => write_mismatch(line, symbols, wanted, got),
    }
}

// Writes a refusal, with its place counted from the end of the front.
fn write_refusal(line: &mut String, refusal: &TypeRefusal, front: Front) -> Result<(), AllocError> {
    match refusal.place.at.checked_sub(front.bytes) {
        Some(at) => write!(line, "{at}")?,
        None => line.push_str("in front")?,
    }
    write_fault(line, &refusal.symbols, &refusal.fault)
}

// Writes a symbol with its numbers of arguments.
fn write_symbol(line: &mut String, symbol: &Symbol) -> Result<(), AllocError> {
    write!(line, " {}", symbol.name.text())?;
    write!(line, "/{}", symbol.types)?;
    write!(line, "+{}", symbol.arguments.len())
}

// Writes the symbols behind those of the front.
fn write_problem(line: &mut String, problem: &Problem, front: Front) -> Result<(), AllocError> {
    line.push_str("ok")?;
    for symbol in problem.symbols.as_slice().iter().skip(front.symbols) {
        write_symbol(line, symbol)?;
    }
    Ok(())
}

// Writes what is typed of statements.
fn write_typing(
    alloc: Global,
    line: &mut String,
    gathered: &Gathered,
    front: Front,
) -> Result<(), AllocError> {
    match type_problem(alloc, gathered) {
        Ok(typed) => write_problem(line, typed.problem(), front),
        Err(TypeStop::Refused(refusal)) => write_refusal(line, &refusal, front),
        Err(TypeStop::Memory) => Err(AllocError),
    }
}

// Writes that nothing is gathered. Want of memory is passed on.
fn write_ungathered(line: &mut String, refusal: &GatherRefusal) -> Result<(), AllocError> {
    match refusal {
        GatherRefusal::Memory => Err(AllocError),
        _ => line.push_str("not gathered"),
    }
}

// What is typed of a text.
fn line_of(
    alloc: Global,
    library: &mut QuietLibrary,
    text: &[u8],
    front: Front,
) -> Result<String, AllocError> {
    let mut line = String::new(alloc);
    if text.len() > MOST_BYTES {
        line.push_str("not gathered")?;
        return Ok(line);
    }
    match gather(alloc, library, "-", text) {
        Ok(gathered) => write_typing(alloc, &mut line, &gathered, front)?,
        Err(refusal) => write_ungathered(&mut line, &refusal)?,
    }
    Ok(line)
}

impl Table for Typing {
    fn name(&self) -> &'static str {
        "typing"
    }

    fn words(&self) -> &'static [&'static str] {
        &["front", "symbols", "numbered"]
    }

    fn answer(&self, alloc: Global, case: &Case) -> Result<Vec<u8>, CaseFault> {
        if !has_text(case) {
            return Err(CaseFault::Broken);
        }
        let symbols = case.number("symbols", 0)?;
        let mut text = front_of(alloc, case)?;
        let bytes = text.len();
        put_text(alloc, &mut text, case)?;
        let mut library = QuietLibrary::new(Vec::new(alloc));
        let front = Front { bytes, symbols };
        let line = line_of(alloc, &mut library, text.as_slice(), front)?;
        Ok(line.into_bytes())
    }
}
