ghost use Rattle.std.specs.Prelude.{◌≡◌, None, Ok};
ghost use Rattle.zm_logic.specs.View.{sense_tree};
ghost use Rattle.tff_typing.specs.Table as table;
ghost use Rattle.tff_typing.specs.Indexed as at;
ghost use Rattle.tff_typing.specs.View.{table_tree, place_tree, use_tree, entry_numbered, Gives, GivesIn};

use crate::fault::{Fault, Stop};
use crate::symbols::{Declaration, Entry, Key, Symbols};
use crate::trees::{copies, individual, individuals};
use crate::types::number_of;
use std::alloc::Global;
use zm_logic::{Sense, SymId, Tys};

/// Where a symbol stands.
#[derive(Clone, Copy)]
pub enum Place {
    Formula,
    Term,
}

/// A symbol at its place: its number, and a copy of what it takes and makes.
#[derive(Drop)]
pub struct Use {
    pub number: SymId,
    pub types: usize,
    pub arguments: Tys,
    pub sense: Sense,
}

// The symbol of an entry.
fn taken(alloc: Global, entry: Entry) -> Result<Use, Stop>
    ensures { Gives use_tree result (Ok (at.taken_of (entry_numbered entry.entry))) }
{
    let number = number_of(entry.place)?;
    let sense = entry.declaration.sense.copy(alloc)?;
    match entry.key.parts {
        None => Ok(Use {
            number,
            types: entry.declaration.types,
            arguments: copies(alloc, &entry.declaration.arguments)?,
            sense,
        }),
        Some(count) => Ok(Use {
            number,
            types: 0,
            arguments: individuals(alloc, count)?,
            sense,
        }),
    }
}

// A term's or a formula's place takes a symbol that is no constructor.
fn as_symbol(alloc: Global, entry: Entry) -> Result<Use, Stop>
    ensures { Gives use_tree result
        (at.taken_if (entry_numbered entry.entry) (sense_tree entry.entry.declaration.now.sense)) }
{
    match entry.declaration.sense {
        Sense::Constructor => Err(Stop::Refused(Fault::NotATerm)),
        Sense::Predicate => taken(alloc, entry),
        Sense::Function(_) => taken(alloc, entry),
    }
}

// The same with as many parts as it takes.
fn with_parts(alloc: Global, entry: Entry, parts: usize) -> Result<Use, Stop>
    ensures { Gives use_tree result (at.taken_with parts (entry_numbered entry.entry)) }
{
    if !entry.takes(parts) {
        return Err(Stop::Refused(Fault::Arity));
    }
    as_symbol(alloc, entry)
}

// What a symbol makes that is used without a declaration.
fn sense_at(alloc: Global, place: Place) -> Sense
    ensures { sense_tree result ≡ table.sense_at (place_tree place) }
{
    match place {
        Place::Formula => Sense::Predicate,
        Place::Term => Sense::Function(individual(alloc)),
    }
}

// The first use of a name with so many parts makes a symbol.
fn first_use<'a>(
    alloc: Global,
    symbols: &mut Symbols<'a>,
    place: Place,
    name: &'a str,
    parts: usize,
) -> Result<Use, Stop>
    requires { table.used (table_tree symbols.old) name.now parts ≡ None }
    ensures { GivesIn use_tree result symbols.new
        (at.new_taken (table_tree symbols.old) (place_tree place) name.entry.now parts) }
{
    let key = Key {
        name,
        parts: Some(parts),
    };
    let declaration = Declaration {
        types: 0,
        arguments: Tys::new(alloc),
        sense: sense_at(alloc, place),
    };
    let at = symbols.add(key, declaration)?;
    Ok(Use {
        number: number_of(at)?,
        types: 0,
        arguments: individuals(alloc, parts)?,
        sense: sense_at(alloc, place),
    })
}

// The symbol of a name that isn't declared.
#[tactic(auto, using(crate::proofs::Gives::given_unchanged))]
fn used_or_new<'a>(
    alloc: Global,
    symbols: &mut Symbols<'a>,
    place: Place,
    name: &'a str,
    parts: usize,
) -> Result<Use, Stop>
    ensures { GivesIn use_tree result symbols.new
        (at.used_taken (table_tree symbols.old) (place_tree place) name.entry.now parts
        (table.used (table_tree symbols.old) name.entry.now parts)) }
{
    match symbols.used(name, parts) {
        Some(entry) => as_symbol(alloc, entry),
        None => first_use(alloc, symbols, place, name, parts),
    }
}

/// The symbol of a name with as many parts in a term's or a formula's place; the first use of a name that isn't
/// declared adds it.
#[tactic(auto, using(crate::proofs::Gives::given_unchanged))]
pub fn symbol_for<'a>(
    alloc: Global,
    symbols: &mut Symbols<'a>,
    place: Place,
    name: &'a str,
    parts: usize,
) -> Result<Use, Stop>
    ensures { GivesIn use_tree result symbols.new
        (at.symbol_at (table_tree symbols.old) (place_tree place) name.entry.now parts) }
{
    match symbols.declared(name) {
        Some(entry) => with_parts(alloc, entry, parts),
        None => used_or_new(alloc, symbols, place, name, parts),
    }
}
