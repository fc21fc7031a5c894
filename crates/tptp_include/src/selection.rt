// The statements that an include asks for by name.
ghost use Rattle.std.specs.Prelude.{◌≡◌, not, ℕ, find, map, Some, IfOk, IfSome, OnOk, Ok, filter};
ghost use Rattle.std.specs.Option.{option_copied};
ghost use Rattle.std.specs.List.{AllByRecursion, list_any};
ghost use Rattle.tptp_reader.specs.Raw.{Name};
ghost use Rattle.tptp_include.specs.Gathering.{has_a_name, has_name, is_absent, IsGathered, kept, name_of, Outcome, Placed};
ghost use Rattle.tptp_include.specs.Outcomes.{holds, outcome_told, placed_of};

use crate::gathered::GatheredStatement;
use crate::refusal::GatherRefusal;
use std::alloc::{AllocError, Global};
use std::collections::BTreeSet;
use tptp_reader::{Body, Text, Texts};

// The name of the statement.
fn own_name(listed: &GatheredStatement) -> &str
    ensures { result.now ≡ name_of (placed_of listed.now).statement }
{
    match &listed.statement.body {
        Body::Formula { name, .. } => name.text(),
        Body::Typing { name, .. } => name.text(),
        Body::Include { .. } => "",
    }
}

// Whether the name is one of these.
fn is_one_of(names: &BTreeSet<&str>, name: &str) -> bool
    ensures { result ≡ holds names.now name.now }
{
    names.contains(name)
}

// The names of the statements.
fn own_names<'a>(
    alloc: Global,
    list: &'a [GatheredStatement],
) -> Result<BTreeSet<&'a str>, AllocError>
    ensures { IfOk result (λ names. (name : Name) →
        holds names name ≡ list_any (λ g. has_name name (placed_of g)) list.now) }
{
    let mut names = BTreeSet::new(alloc);
    for listed in list {
        names.insert(own_name(listed))?;
    }
    Ok(names)
}

// The names that are asked for.
fn asked_names<'a>(alloc: Global, asked: &'a [Text]) -> Result<BTreeSet<&'a str>, AllocError>
    ensures { IfOk result (λ names. (p : Placed) →
        holds names (name_of p.statement) ≡ has_a_name asked.now p) }
{
    let mut names = BTreeSet::new(alloc);
    for name in asked {
        names.insert(name.text())?;
    }
    Ok(names)
}

// The first of the names that the set doesn't hold.
fn first_outside<'a>(names: &BTreeSet<&str>, asked: &'a [Text]) -> Option<&'a Text>
    ensures { option_copied result ≡ find (λ name. not (holds names.now name)) asked.now }
{
    asked.iter().find(|name| !is_one_of(names, name.text()))
}

// The first of the names that none of the statements has.
fn first_absent<'a>(
    alloc: Global,
    list: &[GatheredStatement],
    asked: &'a [Text],
) -> Result<Option<&'a Text>, AllocError>
    ensures { IfOk result (λ absent. option_copied absent ≡ find (is_absent (map placed_of list.now)) asked.now) }
{
    let names = own_names(alloc, list)?;
    Ok(first_outside(&names, asked))
}

// Keeps the statements whose names the set holds.
fn keep_inside(list: &mut Vec<GatheredStatement>, names: &BTreeSet<&str>)
    ensures { list.new.items ≡
        filter (λ g. holds names.now (name_of (placed_of g).statement)) list.old.items }
{
    list.retain(|listed| is_one_of(names, own_name(listed)));
}

// Keeps the statements that have one of the names.
fn keep_named(
    alloc: Global,
    list: &mut Vec<GatheredStatement>,
    asked: &[Text],
) -> Result<(), AllocError>
    ensures { OnOk result
        (list.new.items ≡ filter (λ g. has_a_name asked.now (placed_of g)) list.old.items) }
{
    let names = asked_names(alloc, asked)?;
    keep_inside(list, &names);
    Ok(())
}

// Keeps what an include asks for of the list of its file: all, or the statements that have one of the names. Each name must
// be that of a statement.
pub(crate) fn keep(
    alloc: Global,
    mut list: Vec<GatheredStatement>,
    names: &Option<Texts>,
) -> Result<Vec<GatheredStatement>, GatherRefusal>
    ensures told { (count : ℕ) → IfSome (outcome_told result count)
        (λ o. kept names.now (Outcome.gathered (map placed_of list.items) count) ≡ o) }
    ensures gathered { IfOk result (λ kept. AllByRecursion IsGathered (map placed_of list.items) →
        AllByRecursion IsGathered (map placed_of kept.items)) }
    ensures no_fault { result ≡ Err GatherRefusal.LibraryFault → ⊥ }
{
    let Some(names) = names else {
        return Ok(list);
    };
    if let Some(name) = first_absent(alloc, &list, names.as_slice())? {
        return Err(GatherRefusal::NoSuchFormula {
            name: Text::of(alloc, name.text())?,
        });
    }
    keep_named(alloc, &mut list, names.as_slice())?;
    Ok(list)
}
