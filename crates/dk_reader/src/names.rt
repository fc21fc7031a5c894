ghost use Rattle.std.specs.Prelude.{◌≡◌, [], ◌∷◌, false, OnOk};
ghost use Rattle.lp_terms.specs.Names.{is_among};

use indexmap::IndexSet;
use std::alloc::{AllocError, Global};
use std::marker::Model;

/// The names declared so far, in a table. Contracts see them as a list, the last one first.
#[derive(Drop)]
pub struct Names<'a> {
    table: IndexSet<&'a str>,
}

impl<'a> Model for Names<'a> {
    ghost use Rattle.std.specs.Prelude.{ℕ, List, map, reverse};

    ghost Value = { List (List ℕ) };

    ghost view = { λ n. reverse (map (λ k. k.now) n.table.keys) };
}

impl<'a> Names<'a> {
    /// No names.
    pub fn new(alloc: Global) -> Self
        ensures { result ≡ [] }
    {
        Names {
            table: IndexSet::new(alloc),
        }
    }

    /// Whether the name is declared.
    pub fn contains(&self, name: &str) -> bool
        ensures { result ≡ is_among name.now self.now }
    {
        self.table.contains(name)
    }

    /// Declares a name that isn't declared.
    pub fn declare(&mut self, name: &'a str) -> Result<(), AllocError>
        requires { is_among name.now self.old ≡ false }
        ensures { OnOk result (self.new ≡ name.entry.now ∷ self.old) }
    {
        match self.table.insert(name) {
            Ok(_) => Ok(()),
            Err(_) => Err(AllocError),
        }
    }
}
