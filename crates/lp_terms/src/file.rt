ghost use Rattle.std.specs.Prelude.{◌≡◌};
ghost use Rattle.lp_terms.specs.File.{IsFile};
ghost use Rattle.lp_terms.specs.View.{entries_of};

use crate::term::{Lp, Lps};
use crate::text::Text;
use sqlite_items::Items;
use std::marker::Model;

/// An entry of a file.
#[derive(Drop)]
pub enum Entry {
    /// A constant with its type. It may head rules where it is definable.
    Declare { name: Text, definable: bool, ty: Lp },
    /// A rewrite rule. Its context variables are indices, the last one 0, and each type of the context counts those before
    /// it.
    Rule { context: Lps, left: Lp, right: Lp },
    /// A constant with its type and what it stands for.
    Define { name: Text, ty: Lp, body: Lp },
}

/// A list of entries, in order. Contracts see it as a list.
pub type Entries = Items<Entry>;

/// The entries of a Dedukti file. Each name is an identifier, is no `x` with digits, and is declared once and before its
/// use. Each rule has a constant applied to patterns on the left, where each of its context variables occurs. No variable
/// is free, and each index is below the number of binders and context variables round it, which is below `NUMBER_LIMIT`.
/// Contracts see the entries.
#[derive(Drop)]
pub struct DkFile {
    entries: Entries,
}

impl Model for DkFile {
    ghost use Rattle.std.specs.Prelude.{List};
    ghost use Rattle.std.specs.Coded.{codes};
    ghost use Rattle.lp_terms.specs.declared.file.Entry.{Entry};
    ghost use Rattle.lp_terms.specs.contracts.term.Lp as term;
    ghost use Rattle.lp_terms.specs.File.{IsFile};
    ghost use Rattle.lp_terms.specs.View.{entries_of};

    ghost Value = { List Entry };

    ghost coded = { Prim.hlevel (codes, term.the_row.coded) };

    ghost view = { λ f. f.entries };

    ghost invariant = { λ f. IsFile (entries_of f.entries) };
}

impl DkFile {
    /// The file of the entries, which are in order. Takes no memory.
    pub fn make(entries: Entries) -> DkFile
        requires { IsFile (entries_of entries) }
        ensures { result ≡ entries }
    {
        DkFile { entries }
    }

    /// The entries, which are in order. Takes no memory.
    pub fn entries(&self) -> &[Entry]
        ensures entries { result.now ≡ self.now }
        ensures in_order { IsFile (entries_of self.now) }
    {
        self.entries.as_slice()
    }
}
