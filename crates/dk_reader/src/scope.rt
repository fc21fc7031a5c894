ghost use Rattle.std.specs.Prelude.{◌≡◌, ◌≤◌, ℕ, false, List, [], ◌∷◌, OnOk, drop, length};
ghost use Rattle.std.specs.Option.{option_map};
ghost use Rattle.dk_text.specs.Names.{is_bound_by, index_of};
ghost use Rattle.dk_reader.specs.Binders.{most_binders, is_noted};

use indexmap::IndexSet;
use std::alloc::{AllocError, Global};
use std::marker::Model;

// With the 8,000 binders of one term more there are still fewer than the limit on binders.
const MOST_BINDERS: usize = 4_294_959_294;

/// The names of the binders round a place; a product whose variable has no name binds none. There are
/// at most 4,294,959,294. Contracts see them as a list, the innermost first.
#[derive(Drop)]
pub struct Scope<'a> {
    binders: Vec<Option<&'a str>>,
    // The names that binders have had here. Most names of a text are constants, and are not searched for.
    noted: IndexSet<&'a str>,
}

impl<'a> Model for Scope<'a> {
    ghost use Rattle.std.specs.Prelude.{ℕ, ◌≤◌, List, Option, length, map, reverse};
    ghost use Rattle.std.specs.Option.{option_map};
    ghost use Rattle.dk_reader.specs.Binders.{most_binders, AllNoted};

    ghost Value = { List (Option (List ℕ)) };

    ghost view = { λ s. reverse (map (λ b. option_map (λ k. k.now) b) s.binders.items) };

    ghost invariant = { λ s. (length s.binders.items ≤ most_binders)
        × AllNoted s.noted.keys (reverse (map (λ b. option_map (λ k. k.now) b) s.binders.items)) };
}

// Whether the binder has this name.
fn is_bound_by(name: &str, binder: Option<&str>) -> bool
    ensures { result ≡ is_bound_by name.now (option_map (λ k. k.now) binder.entry) }
{
    match binder {
        None => false,
        Some(bound) => bound == name,
    }
}

// Notes the name of a binder.
fn note<'a>(noted: &mut IndexSet<&'a str>, name: Option<&'a str>) -> Result<(), AllocError>
    ensures kept { (q : List ℕ) → is_noted q noted.new.keys ≡ false → is_noted q noted.old.keys ≡ false }
    ensures added { OnOk result ((q : List ℕ) → is_noted q noted.new.keys ≡ false → is_bound_by q (option_map (λ k. k.now) name.entry) ≡ false) }
{
    match name {
        None => Ok(()),
        Some(name) => match noted.insert(name) {
            Ok(_) => Ok(()),
            Err(_) => Err(AllocError),
        },
    }
}

impl<'a> Scope<'a> {
    /// No binder.
    pub fn new(alloc: Global) -> Self
        ensures { result ≡ [] }
    {
        Scope {
            binders: Vec::new(alloc),
            noted: IndexSet::new(alloc),
        }
    }

    /// How many binders there are.
    pub fn len(&self) -> usize
        ensures { result ≡ length self.now }
    {
        self.binders.len()
    }

    /// Enters a binder. One more than the most there may be counts as memory that isn't there.
    pub fn enter(&mut self, name: Option<&'a str>) -> Result<(), AllocError>
        ensures entered { OnOk result (self.new ≡ option_map (λ k. k.now) name.entry ∷ self.old) }
        ensures bounded { OnOk result (length self.new ≤ most_binders) }
    {
        if self.binders.len() >= MOST_BINDERS {
            return Err(AllocError);
        }
        note(&mut self.noted, name)?;
        self.binders.push(name)?;
        Ok(())
    }

    /// Leaves the innermost binder.
    pub fn leave(&mut self)
        ensures { self.new ≡ drop 1 self.old }
    {
        let _ = self.binders.pop();
    }

    /// The index of the innermost binder of the name.
    pub fn index_of(&self, name: &str) -> Option<u32>
        ensures { result ≡ index_of name.now self.now }
    {
        if self.noted.contains(name) {
            self.search(name)
        } else {
            None
        }
    }

    // The index of the innermost binder of the name, which is searched from the innermost one on.
    fn search(&self, name: &str) -> Option<u32>
        ensures { result ≡ index_of name.now self.now }
    {
        let binders = self.binders.as_slice();
        for index in 0..binders.len() {
            let binder = binders[binders.len() - 1 - index];
            if is_bound_by(name, binder) {
                return Some(index as u32);
            }
        }
        None
    }
}
