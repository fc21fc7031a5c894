//! The constants that stand for a problem's symbols and premises.

ghost use Rattle.std.specs.Prelude.{◌≡◌, ◌+◌, ◌/◌, ◌%◌, ◌<◌, ◌++◌};
ghost use Rattle.std.specs.Prelude.{[], ◌∷◌, IfOk, OnOk, string_bytes};
ghost use Rattle.std.specs.Fmt.{decimal};
ghost use Rattle.lp_terms.specs.Measure.{limit};
ghost use Rattle.zm_logic.specs.Typing.{how_many};
ghost use Rattle.zm_logic.specs.View.{symbol_tree, sense_tree, types_tree};
ghost use Rattle.lp_signature.specs.Declarable.{AreBytes, IsDeclarable};
ghost use Rattle.lp_signature.specs.Names as names;
ghost use Rattle.lp_signature.specs.View.{symbols_tree};

use itoa::Buffer;
use lp_terms::{NUMBER_LIMIT, Text};
use sqlite_items::at;
use std::alloc::{AllocError, Global};
use zm_logic::{Sense, SymId, Symbol};

// Whether the byte stands for itself in a constant.
fn is_plain(byte: u8) -> bool
    ensures { result ≡ names.is_plain byte }
{
    matches!(byte, b'a'..=b'z' | b'A'..=b'Z' | b'0'..=b'9' | b'_')
}

// The lower case hexadecimal digit.
fn hexadecimal(digit: u8) -> u8
    requires { digit < 16 }
    ensures value { result ≡ names.hexadecimal digit }
    ensures ascii { result < 128 }
{
    if digit <= 9 {
        b'0' + digit
    } else {
        b'a' - 10 + digit
    }
}

// Puts an ASCII byte at the end.
fn push_ascii(out: &mut String, byte: u8) -> Result<(), AllocError>
    requires { byte < 128 }
    ensures { OnOk result (string_bytes out.new ≡ string_bytes out.old ++ byte ∷ []) }
{
    out.push(char::from(byte))
}

// Puts ! and the two hexadecimal digits of a byte at the end.
fn push_escaped(out: &mut String, byte: u8) -> Result<(), AllocError>
    ensures { OnOk result (string_bytes out.new ≡
        string_bytes out.old ++ 33 ∷ names.hexadecimal (byte / 16) ∷ names.hexadecimal (byte % 16) ∷ []) }
{
    push_ascii(out, b'!')?;
    push_ascii(out, hexadecimal(byte / 16))?;
    push_ascii(out, hexadecimal(byte % 16))
}

// Puts what stands for the byte in a constant at the end.
fn push_byte(out: &mut String, byte: u8) -> Result<(), AllocError>
    ensures { OnOk result (string_bytes out.new ≡ string_bytes out.old ++ names.coded (byte ∷ [])) }
{
    if is_plain(byte) {
        push_ascii(out, byte)
    } else {
        push_escaped(out, byte)
    }
}

// Puts what stands for the bytes in a constant at the end.
fn push_coded(out: &mut String, bytes: &[u8]) -> Result<(), AllocError>
    ensures coded { OnOk result (string_bytes out.new ≡ string_bytes out.old ++ names.coded bytes.now) }
    ensures bytes { AreBytes bytes.now }
{
    for byte in bytes {
        push_byte(out, *byte)?;
    }
    Ok(())
}

// Puts the decimal digits of the number at the end.
fn push_decimal(out: &mut String, number: u64) -> Result<(), AllocError>
    ensures { OnOk result (string_bytes out.new ≡ string_bytes out.old ++ decimal number) }
{
    let mut buffer = Buffer::new();
    out.push_str(buffer.format(number))
}

// The front of a symbol's constant.
fn kind_prefix(sense: &Sense) -> &str
    ensures { result.now ≡ names.kind_prefix (sense_tree sense.now) }
{
    match sense {
        Sense::Constructor => "t_",
        Sense::Predicate => "f_",
        Sense::Function(_) => "f_",
    }
}

// The number of a symbol's arguments. No type has so many binders as `NUMBER_LIMIT`, so from there on this counts as want
// of memory.
#[tactic(auto, using(crate::proofs::Coded::how_many_length))]
fn arity(symbol: &Symbol) -> Result<u64, AllocError>
    ensures value { IfOk result (λ n. n ≡ symbol.now.types + how_many (types_tree symbol.now.arguments)) }
    ensures few { IfOk result (λ n. n < limit) }
{
    match u64::from(symbol.types).checked_add(symbol.arguments.len() as u64) {
        Some(arguments) if arguments < u64::from(NUMBER_LIMIT) => Ok(arguments),
        Some(_) | None => Err(AllocError),
    }
}

/// The constant of the symbol: its kind, its name, escaped, and the number of its arguments. The one error is want of
/// memory, which as many arguments as `NUMBER_LIMIT` are too.
pub fn symbol_name(alloc: Global, symbol: &Symbol) -> Result<Text, AllocError>
    ensures value { IfOk result (λ t. t ≡ names.symbol_name (symbol_tree symbol.now)) }
    ensures declarable { OnOk result (IsDeclarable (symbol_tree symbol.now)) }
{
    let arguments = arity(symbol)?;
    let mut out = String::new(alloc);
    out.push_str(kind_prefix(&symbol.sense))?;
    push_coded(&mut out, symbol.name.text().as_bytes())?;
    out.push_str("_")?;
    push_decimal(&mut out, arguments)?;
    Text::of(alloc, out.as_str())
}

/// The constant of a symbol's number, 0 being the type of individuals. A number that no symbol has gives the empty name.
/// The one error is want of memory.
pub fn constant(alloc: Global, symbols: &[Symbol], number: SymId) -> Result<Text, AllocError>
    ensures { IfOk result (λ t. t ≡ names.constant (symbols_tree symbols.now) number.0) }
{
    if number.0 == 0 {
        return Text::of(alloc, "iota");
    }
    match at(symbols, number.0 as usize - 1) {
        Some(symbol) => symbol_name(alloc, symbol),
        None => Text::of(alloc, ""),
    }
}

/// The constant of the kept premise of this number, the first being 0. The one error is want of memory.
pub fn premise_name(alloc: Global, number: usize) -> Result<Text, AllocError>
    ensures { IfOk result (λ t. t ≡ names.premise_name number) }
{
    let mut out = String::new(alloc);
    out.push_str("ax_")?;
    push_decimal(&mut out, number as u64)?;
    Text::of(alloc, out.as_str())
}
