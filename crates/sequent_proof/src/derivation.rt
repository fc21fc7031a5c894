ghost use Rattle.std.specs.Prelude.{◌≡◌, map};
ghost use Rattle.zm_logic.specs.View.{symbol_tree, rule_tree};
ghost use Rattle.sequent_proof.specs.Tree as plain;
ghost use Rattle.sequent_proof.specs.View.{tree_of};
ghost use Rattle.sequent_proof.specs.Text.{lines};
ghost use Rattle.sequent_proof.specs.Derivation.{IsKept};
ghost use Rattle.sequent_proof.specs.Writes.{Writes};

use crate::lines::print_tree;
use crate::tree::{DTree, let_go};
use std::marker::Model;
use zm_base::{Failed, Sink};
use zm_logic::{Rules, Symbols};

/// A tree that is a derivation modulo the rules, over the symbols. Its root's sequent is what is derived. Under its binders
/// each rule has two well typed sides of one type, each binder occurs in the left one, and the tree is no deeper than
/// 4,294,967,295. Contracts see the three parts.
pub struct Derivation {
    symbols: Symbols,
    rules: Rules,
    tree: DTree,
}

impl Model for Derivation {
    ghost use Rattle.std.specs.Coded.{codes};
    ghost use Rattle.zm_logic.specs.contracts.tree.Ty as ty;
    ghost use Rattle.zm_logic.specs.contracts.tree.Term as term;
    ghost use Rattle.zm_logic.specs.contracts.tree.Form as form;
    ghost use Rattle.sequent_proof.specs.contracts.tree.DTree as dtree;
    ghost use Rattle.sequent_proof.specs.Derivation.{Parts, IsKept};

    ghost Value = { Parts };

    ghost coded = { Prim.hlevel (codes, ty.the_row.coded, term.the_row.coded, form.the_row.coded, dtree.the_row.coded) };

    ghost view = { λ d. record { symbols = d.symbols; rules = d.rules; tree = d.tree } };

    ghost invariant = { λ d. IsKept (record { symbols = d.symbols; rules = d.rules; tree = d.tree }) };
}

impl Drop for Derivation {
    fn drop(self) {
        let Derivation {
            symbols: _symbols,
            rules: _rules,
            tree,
        } = self;
        let_go(tree);
    }
}

impl Derivation {
    /// The derivation of the given parts. The condition is what a derivation keeps. It takes no memory.
    pub fn make(symbols: Symbols, rules: Rules, tree: DTree) -> Derivation
        requires { plain.IsKept (map symbol_tree symbols) (map rule_tree rules) (tree_of tree) }
        ensures symbols { result.symbols ≡ symbols }
        ensures rules { result.rules ≡ rules }
        ensures tree { result.tree ≡ tree }
    {
        Derivation {
            symbols,
            rules,
            tree,
        }
    }

    /// The symbols over which it is well typed. It takes no memory.
    pub fn symbols(&self) -> &Symbols
        ensures symbols { result.now ≡ self.now.symbols }
        ensures kept { IsKept self.now }
    {
        &self.symbols
    }

    /// The rules modulo which it is a derivation. It takes no memory.
    pub fn rules(&self) -> &Rules
        ensures rules { result.now ≡ self.now.rules }
        ensures kept { IsKept self.now }
    {
        &self.rules
    }

    /// The tree. It takes no memory.
    pub fn tree(&self) -> &DTree
        ensures tree { result.now ≡ self.now.tree }
        ensures kept { IsKept self.now }
    {
        &self.tree
    }

    /// Prints the derivation: for each node its rule's name on a line, with two spaces before it for each node below that
    /// one, and then its children in order. A conversion has no line, and nothing stands further in for it.
    ///
    /// It takes no memory, and fails only where a write failed; the sink has then taken a proper prefix of the text. Each
    /// indentation, name and end of a line is a write of its own. It recurses once for each level but those of conversions.
    pub fn print<K: Sink>(&self, sink: &mut K) -> Result<(), Failed>
        ensures { Writes K.Sink (lines 0 (tree_of self.now.tree)) sink.old sink.new result }
    {
        print_tree(&self.tree, 0, sink)
    }
}
