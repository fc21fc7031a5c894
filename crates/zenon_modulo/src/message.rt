ghost use Rattle.std.specs.Prelude.{◌≡◌, ◌++◌, OnOk, IfOk, IfSome, codes, map};
ghost use Rattle.zm_logic.specs.View.{type_tree};
ghost use Rattle.tptp_include.specs.Outcomes.{refusal_of};
ghost use Rattle.tff_typing.specs.View.{found_tree, fault_tree};
ghost use Rattle.zenon_modulo.specs.Outcome.{untyped_of, explanation_of};
ghost use Rattle.zenon_modulo.specs.Message as spec;

use crate::names::push_type;
use crate::outcome::InputRefusal;
use itoa::Buffer;
use std::alloc::{AllocError, Global};
use tff_typing::{Fault, Found, TypeRefusal};
use tptp_include::{GatherRefusal, Place};
use tptp_reader::{Text, UnsupportedForm};
use zm_logic::Symbol;

fn push(text: &mut Vec<u8>, bytes: &[u8]) -> Result<(), AllocError>
    ensures { OnOk result (text.new.items ≡ text.old.items ++ bytes.now) }
{
    text.extend_from_slice(bytes)?;
    Ok(())
}

fn push_place(text: &mut Vec<u8>, place: &Place) -> Result<(), AllocError>
    ensures { OnOk result (text.new.items ≡ text.old.items ++ spec.place_text place.now.file place.now.at) }
{
    let mut buffer = Buffer::new();
    push(text, b" at ")?;
    push(text, place.file.text().as_bytes())?;
    push(text, b":")?;
    push(text, buffer.format(place.at).as_bytes())
}

fn form_text(form: UnsupportedForm) -> &'static [u8]
    ensures { result.now ≡ spec.form_text form }
{
    match form {
        UnsupportedForm::Statement => b"statement",
        UnsupportedForm::Role => b"role",
        UnsupportedForm::Numeral => b"numeral",
        UnsupportedForm::DistinctObject => b"distinct object",
        UnsupportedForm::DefinedWord => b"defined word",
        UnsupportedForm::Operator => b"operator",
    }
}

fn push_at(text: &mut Vec<u8>, cause: &[u8], place: &Place) -> Result<(), AllocError>
    ensures { OnOk result (text.new.items ≡ text.old.items ++ (cause.now ++ spec.place_text place.now.file place.now.at)) }
{
    push(text, cause)?;
    push_place(text, place)
}

fn push_name(text: &mut Vec<u8>, cause: &[u8], name: &Text) -> Result<(), AllocError>
    ensures { OnOk result (text.new.items ≡ text.old.items ++ (cause.now ++ name.now)) }
{
    push(text, cause)?;
    push(text, name.text().as_bytes())
}

fn push_unsupported(
    text: &mut Vec<u8>,
    form: UnsupportedForm,
    place: &Place,
) -> Result<(), AllocError>
    ensures { OnOk result (text.new.items ≡ text.old.items ++ (codes "unsupported " ++ spec.form_text form ++ spec.place_text place.now.file place.now.at)) }
{
    push(text, b"unsupported ")?;
    push_at(text, form_text(form), place)
}

fn push_gather(text: &mut Vec<u8>, refusal: &GatherRefusal) -> Result<(), AllocError>
    ensures { OnOk result (IfSome (refusal_of refusal.now) (λ r. text.new.items ≡ text.old.items ++ spec.gather_text r)) }
{
    match refusal {
        GatherRefusal::Syntax { place } => push_at(text, b"syntax", place),
        GatherRefusal::TooDeep { place } => push_at(text, b"too deep", place),
        GatherRefusal::Unsupported { form, place } => push_unsupported(text, *form, place),
        GatherRefusal::IncludeDepth { name } => push_name(text, b"include depth ", name),
        GatherRefusal::Cycle { name } => push_name(text, b"include cycle ", name),
        GatherRefusal::Missing { name } => push_name(text, b"missing file ", name),
        GatherRefusal::NoSuchFormula { name } => push_name(text, b"no formula ", name),
        GatherRefusal::TooLarge => push(text, b"too large"),
        GatherRefusal::LibraryFault | GatherRefusal::Memory => Ok(()),
    }
}

fn push_found(text: &mut Vec<u8>, symbols: &[Symbol], found: &Found) -> Result<(), AllocError>
    ensures { OnOk result (text.new.items ≡ text.old.items ++ spec.found_text (map (λ s. s.name) symbols.now) (found_tree found.now)) }
{
    match found {
        Found::Truth => push(text, b"$o"),
        Found::OfType(t) => push_type(text, symbols, t),
    }
}

fn push_mismatch(
    text: &mut Vec<u8>,
    symbols: &[Symbol],
    wanted: &Found,
    got: &Found,
) -> Result<(), AllocError>
    ensures { OnOk result (text.new.items ≡ text.old.items ++ codes ", wanted " ++ spec.found_text (map (λ s. s.name) symbols.now) (found_tree wanted.now) ++ codes ", got " ++ spec.found_text (map (λ s. s.name) symbols.now) (found_tree got.now)) }
{
    push(text, b", wanted ")?;
    push_found(text, symbols, wanted)?;
    push(text, b", got ")?;
    push_found(text, symbols, got)
}

fn fault_text(fault: &Fault) -> &'static [u8]
    ensures { result.now ≡ spec.fault_text (fault_tree fault.now) }
{
    match fault {
        Fault::SecondConjecture => b"second conjecture",
        Fault::Redeclared => b"redeclared",
        Fault::TooManySymbols => b"too many symbols",
        Fault::Unbound => b"unbound",
        Fault::Arity => b"arity",
        Fault::NotAType => b"not a type",
        Fault::NotATerm => b"not a term",
        Fault::Mismatch { .. } => b"mismatch",
    }
}

fn push_types(text: &mut Vec<u8>, symbols: &[Symbol], fault: &Fault) -> Result<(), AllocError>
    ensures { OnOk result (text.new.items ≡ text.old.items ++ spec.mismatch_text (map (λ s. s.name) symbols.now) (fault_tree fault.now)) }
{
    match fault {
        Fault::Mismatch { wanted, got } => push_mismatch(text, symbols, wanted, got),
        Fault::SecondConjecture
        | Fault::Redeclared
        | Fault::TooManySymbols
        | Fault::Unbound
        | Fault::Arity
        | Fault::NotAType
        | Fault::NotATerm => Ok(()),
    }
}

fn push_typing(text: &mut Vec<u8>, refusal: &TypeRefusal) -> Result<(), AllocError>
    ensures { OnOk result (text.new.items ≡ text.old.items ++ spec.untyped_text (untyped_of refusal.now)) }
{
    push_at(text, fault_text(&refusal.fault), &refusal.place)?;
    push_types(text, refusal.symbols.as_slice(), &refusal.fault)
}

fn push_cause(text: &mut Vec<u8>, refusal: &InputRefusal) -> Result<(), AllocError>
    ensures { OnOk result (IfSome (explanation_of refusal.now) (λ e. text.new.items ≡ text.old.items ++ spec.explanation_text e)) }
{
    match refusal {
        InputRefusal::Gather(refusal) => push_gather(text, refusal),
        InputRefusal::Typing(refusal) => push_typing(text, refusal),
        InputRefusal::TooLarge => push(text, b"too large"),
        InputRefusal::NotBuilt => push(text, b"not built"),
    }
}

/// What is told of a refused input.
pub fn refusal_text(alloc: Global, refusal: &InputRefusal) -> Result<Vec<u8>, AllocError>
    ensures { IfOk result (λ text. IfSome (explanation_of refusal.now) (λ e. text.items ≡ spec.refusal_text e)) }
{
    let mut text = Vec::from_slice(alloc, b"refused: ")?;
    push_cause(&mut text, refusal)?;
    push(&mut text, b"\n")?;
    Ok(text)
}
