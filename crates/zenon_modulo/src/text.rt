ghost use Rattle.std.specs.Prelude.{◌≡◌, ◌++◌, ◌+◌, OnOk, IfOk, codes, decimal, map, if◌then◌else◌};
ghost use Rattle.branch.specs.State.{tree};
ghost use Rattle.branch.specs.Causes.{cause_of};
ghost use Rattle.valuation.specs.View.{valued_tree};
ghost use Rattle.zenon_modulo.specs.Text as spec;

use crate::names::push_atom;
use itoa::Buffer;
use search::{Closed, Open, Tableau, Why};
use std::alloc::{AllocError, Global};
use valuation::Valued;
use zm_logic::Symbol;

// A number with what stands before it.
fn push_pick(text: &mut Vec<u8>, is_first: bool, pick: usize) -> Result<(), AllocError>
    ensures { OnOk result (text.new.items ≡ text.old.items ++ (if is_first then codes " " else codes ",") ++ decimal pick) }
{
    let mut buffer = Buffer::new();
    text.extend_from_slice(if is_first { b" " } else { b"," })?;
    text.extend_from_slice(buffer.format(pick).as_bytes())?;
    Ok(())
}

// A space and the picks with commas between them, or nothing where there is none.
fn push_picks(text: &mut Vec<u8>, picks: &[usize]) -> Result<(), AllocError>
    ensures { OnOk result (text.new.items ≡ text.old.items ++ spec.picks_text picks.now) }
{
    for (i, pick) in picks.iter().enumerate() {
        push_pick(text, i == 0, *pick)?;
    }
    Ok(())
}

/// The two lines before the file of a proof.
pub fn proved_lines(alloc: Global, tableau: &Tableau<Closed>) -> Result<Vec<u8>, AllocError>
    ensures { IfOk result (λ text. text.items ≡ spec.proved_lines (tree tableau.now)) }
{
    let picks = tableau.picks(alloc)?;
    let mut text = Vec::from_slice(alloc, b"(; proved ;)\n(; picks:")?;
    push_picks(&mut text, picks.as_slice())?;
    text.extend_from_slice(b" ;)\n")?;
    Ok(text)
}

fn cause_text(why: &Why) -> &'static [u8]
    ensures { result.now ≡ spec.cause_text (cause_of why.now) }
{
    match why {
        Why::Saturated => b"saturated",
        Why::Steps => b"steps",
        Why::BranchLength => b"branch length",
        Why::Rewrites { .. } => b"rewrites",
        Why::Deep { .. } => b"depth",
    }
}

/// What is written for a search that stopped.
pub fn unknown_text(
    alloc: Global,
    why: &Why,
    tableau: &Tableau<Open>,
) -> Result<Vec<u8>, AllocError>
    ensures { IfOk result (λ text. text.items ≡ spec.unknown_text (cause_of why.now) (tree tableau.now)) }
{
    let picks = tableau.picks(alloc)?;
    let mut text = Vec::from_slice(alloc, b"unknown: ")?;
    text.extend_from_slice(cause_text(why))?;
    text.extend_from_slice(b"\npicks:")?;
    push_picks(&mut text, picks.as_slice())?;
    text.extend_from_slice(b"\n")?;
    Ok(text)
}

fn truth_text(truth: bool) -> &'static [u8]
    ensures { result.now ≡ spec.truth_text truth }
{
    if truth { b" = true\n" } else { b" = false\n" }
}

/// What is written for a valuation of atoms over these symbols.
pub fn falsified_text(
    alloc: Global,
    symbols: &[Symbol],
    valuation: &[Valued],
) -> Result<Vec<u8>, AllocError>
    ensures { IfOk result (λ text. text.items ≡ codes "falsified\n" ++ spec.valuation_text (map (λ s. s.name) symbols.now) (map valued_tree valuation.now)) }
{
    let mut text = Vec::from_slice(alloc, b"falsified\n")?;
    for valued in valuation {
        push_atom(&mut text, symbols, &valued.atom)?;
        text.extend_from_slice(truth_text(valued.truth))?;
    }
    Ok(text)
}
