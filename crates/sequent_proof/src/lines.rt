ghost use Rattle.std.specs.Prelude.{◌≡◌, ◌≤◌, ◌+◌, ℕ};
ghost use Rattle.std.specs.Option.{option_copied};
ghost use Rattle.sequent_proof.specs.Tree.{depth, depth_all};
ghost use Rattle.sequent_proof.specs.View.{name_of, tree_of, trees_of};
ghost use Rattle.sequent_proof.specs.Text.{label, indentation, line, lines, lines_of_all};
ghost use Rattle.sequent_proof.specs.Writes.{Writes};

use crate::tree::{DTree, RuleName};
use zm_base::{Failed, Sink, write_all};

/// The printed name of a rule, which a conversion hasn't.
fn label(name: RuleName) -> Option<&'static str>
    ensures { option_copied result ≡ label (name_of name) }
{
    Some(match name {
        RuleName::False => "false",
        RuleName::NotTrue => "not-true",
        RuleName::Axiom => "axiom",
        RuleName::Refl => "refl",
        RuleName::Sym => "sym",
        RuleName::NotNot => "not-not",
        RuleName::And => "and",
        RuleName::NotOr => "not-or",
        RuleName::NotImp => "not-imp",
        RuleName::Or => "or",
        RuleName::NotAnd => "not-and",
        RuleName::Imp => "imp",
        RuleName::Iff => "iff",
        RuleName::NotIff => "not-iff",
        RuleName::Exists => "exists",
        RuleName::NotForall => "not-forall",
        RuleName::Forall => "forall",
        RuleName::NotExists => "not-exists",
        RuleName::EqPred => "eq-pred",
        RuleName::EqFun => "eq-fun",
        RuleName::EqTransFirst => "eq-trans first",
        RuleName::EqTransSecond => "eq-trans second",
        RuleName::Conversion => return None,
    })
}

/// Writes the bytes.
fn write<K: Sink>(sink: &mut K, bytes: &[u8]) -> Result<(), Failed>
    ensures { Writes K.Sink (bytes.now) sink.old sink.new result }
{
    write_all(sink, bytes)
}

/// Writes two spaces for each level.
fn print_indentation<K: Sink>(level: u32, sink: &mut K) -> Result<(), Failed>
    ensures { Writes K.Sink (indentation level) sink.old sink.new result }
{
    for _i in 0..level {
        write(sink, b"  ")?;
    }
    Ok(())
}

/// Prints the line of a rule.
fn print_line<K: Sink>(level: u32, name: &str, sink: &mut K) -> Result<(), Failed>
    ensures { Writes K.Sink (line level name.now) sink.old sink.new result }
{
    print_indentation(level, sink)?;
    write(sink, name.as_bytes())?;
    write(sink, b"\n")
}

/// The first node above that isn't a conversion, or the node itself. A loop, since each formula that a derivation begins with
/// may have a conversion, one above the other.
fn past_conversions(tree: &DTree) -> &DTree
    ensures lines { (level : ℕ) → lines level (tree_of result.now) ≡ lines level (tree_of tree.now) }
    ensures depth { depth (tree_of result.now) ≤ depth (tree_of tree.now) }
{
    let mut tree = tree;
    while let (RuleName::Conversion, [child]) = (tree.name, tree.children.as_slice()) {
        tree = child;
    }
    tree
}

/// Prints a tree whose root stands at the level.
#[cycle(print)]
pub fn print_tree<K: Sink>(tree: &DTree, level: u32, sink: &mut K) -> Result<(), Failed>
    requires { level + depth (tree_of tree.now) ≤ 4294967295 }
    ensures { Writes K.Sink (lines level (tree_of tree.now)) sink.old sink.new result }
{
    let tree = past_conversions(tree);
    match label(tree.name) {
        Some(name) => {
            print_line(level, name, sink)?;
            print_trees(tree.children.as_slice(), level + 1, sink)
        }
        None => print_trees(tree.children.as_slice(), level, sink),
    }
}

/// Prints trees whose roots stand at the level, one after the other.
#[cycle(print)]
fn print_trees<K: Sink>(trees: &[DTree], level: u32, sink: &mut K) -> Result<(), Failed>
    requires { level + depth_all (trees_of trees.now) ≤ 4294967295 }
    ensures { Writes K.Sink (lines_of_all level (trees_of trees.now)) sink.old sink.new result }
{
    for tree in trees {
        print_tree(tree, level, sink)?;
    }
    Ok(())
}
