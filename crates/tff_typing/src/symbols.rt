ghost use Rattle.std.specs.Prelude.{ℕ, List, ◌≡◌, ◌<◌, ◌||◌};
ghost use Rattle.std.specs.List.{list_any};
ghost use Rattle.std.specs.Str.{bytes_eq};
ghost use Rattle.indexmap.specs.IndexSet.{contains_by, spare};

use crate::fault::{Fault, Stop};
use indexmap::{IndexMap, IndexSet};
use std::alloc::Global;
use zm_logic::{Sense, Tys};

/// The most symbols of a problem.
pub const MOST_SYMBOLS: usize = 65_536;

/// What a symbol is found by: a declared one by its name, any other by its name with its number of arguments.
#[derive(Clone, Copy, PartialEq, Eq, Hash)]
pub struct Key<'a> {
    pub name: &'a str,
    pub parts: Option<usize>,
}

/// What a symbol takes and makes. Of a symbol that wasn't declared the sense alone counts: it takes individuals.
#[derive(Drop)]
pub struct Declaration {
    pub types: usize,
    pub arguments: Tys,
    pub sense: Sense,
}

/// A symbol of the table, with its place.
#[derive(Clone, Copy)]
pub struct Entry<'s, 'a> {
    pub place: usize,
    pub key: &'s Key<'a>,
    pub declaration: &'s Declaration,
}

impl Entry<'_, '_> {
    ghost use Rattle.std.specs.Prelude.{◌==◌};
    ghost use Rattle.tff_typing.specs.Table as table;
    ghost use Rattle.tff_typing.specs.View.{entry_numbered};

    /// Whether the symbol takes as many types and terms together.
    #[tactic(auto, using(crate::proofs::Walks::how_many_types, crate::proofs::Walks::how_many_individuals))]
    pub fn takes(&self, parts: usize) -> bool
        ensures { result ≡ (parts == table.arity (entry_numbered self.now).symbol) }
    {
        match self.key.parts {
            None => {
                let types = self.declaration.types;
                types <= parts && parts - types == self.declaration.arguments.len()
            }
            Some(count) => parts == count,
        }
    }
}

/// The symbols so far, in order of first appearance.
#[derive(Drop)]
pub struct Symbols<'a> {
    pub entries: IndexMap<Key<'a>, Declaration>,
    pub names: IndexSet<&'a str>,
    // The names are those of the symbols.
    ghost same_names: { (x : List ℕ)
        → contains_by (λ k. bytes_eq x k.now) names ≡ list_any (λ e. bytes_eq x e.0.name.now) entries.entries },
}

// Notes a name, with room for one more.
fn note<'a>(names: &mut IndexSet<&'a str>, name: &'a str)
    requires { 0 < spare names.old }
    ensures { (x : List ℕ)
        → contains_by (λ k. bytes_eq x k.now) names.new
        ≡ (contains_by (λ k. bytes_eq x k.now) names.old || bytes_eq x name.entry.now) }
{
    let _ = names.insert(name);
}

impl<'a> Symbols<'a> {
    ghost use Rattle.std.specs.Prelude.{None, [], is_some, not, nat_lt, length};
    ghost use Rattle.std.specs.Option.{option_map};
    ghost use Rattle.tff_typing.specs.Table as table;
    ghost use Rattle.tff_typing.specs.View.{table_tree, entry_tree, entry_numbered, found_by, IsAdded};

    /// No symbols.
    pub fn new(alloc: Global) -> Symbols<'a>
        ensures { table_tree result ≡ [] }
    {
        Symbols {
            entries: IndexMap::new(alloc),
            names: IndexSet::new(alloc),
        }
    }

    /// The symbol declared by the name.
    pub fn declared(&self, name: &'a str) -> Option<Entry<'_, 'a>>
        ensures { table.declared (table_tree self.now) name.now ≡ option_map entry_numbered result }
    {
        self.find(&Key { name, parts: None })
    }

    /// The symbol that was used without a declaration, by the name and with as many arguments.
    pub fn used(&self, name: &'a str, parts: usize) -> Option<Entry<'_, 'a>>
        ensures { table.used (table_tree self.now) name.now parts ≡ option_map entry_numbered result }
    {
        self.find(&Key {
            name,
            parts: Some(parts),
        })
    }

    fn find(&self, key: &Key<'a>) -> Option<Entry<'_, 'a>>
        ensures { found_by key.now (table_tree self.now) ≡ option_map entry_numbered result }
    {
        match self.entries.get_full(key) {
            None => None,
            Some((place, key, declaration)) => Some(Entry {
                place,
                key,
                declaration,
            }),
        }
    }

    /// Whether the name was declared or used.
    pub fn is_known(&self, name: &str) -> bool
        ensures { result ≡ is_some (table.known (table_tree self.now) name.now) }
    {
        self.names.contains(name)
    }

    /// Whether there is no room for one more symbol.
    #[tactic(auto, using(crate::proofs::Walks::length_table))]
    pub fn is_full(&self) -> bool
        ensures { result ≡ not (nat_lt (length (table_tree self.now)) table.most_symbols) }
    {
        self.entries.len() >= MOST_SYMBOLS
    }

    /// Puts a new symbol at the end, where the table has room for one more, and gives its place.
    pub fn add(&mut self, key: Key<'a>, declaration: Declaration) -> Result<usize, Stop>
        requires { found_by key (table_tree self.old) ≡ None }
        ensures { IsAdded result (table_tree self.old) (entry_tree (key.entry, declaration)) (table_tree self.new) }
    {
        let place = self.entries.len();
        if place >= MOST_SYMBOLS {
            return Err(Stop::Refused(Fault::TooManySymbols));
        }
        self.names.reserve(1)?;
        self.entries.insert(key, declaration)?;
        note(&mut self.names, key.name);
        Ok(place)
    }
}
