ghost use Rattle.std.specs.Prelude.{◌≡◌, ◌&&◌, ◌==◌, map};
ghost use Rattle.std.specs.Option.{option_map};
ghost use Rattle.zm_logic.specs.Typing.{symbol_at};
ghost use Rattle.zm_logic.specs.View.{symbol_tree, sense_tree};
ghost use Rattle.equality_rules.specs.Typed as test;
ghost use Rattle.equality_rules.specs.Heads as heads;

use zm_logic::{Sense, SymId, Symbol, Symbols};

/// The declaration of a symbol of the list, and nothing of the type of individuals, which is numbered 0.
pub(crate) fn declaration(symbols: &Symbols, symbol: SymId) -> Option<&Symbol>
    ensures { option_map (λ d. symbol_tree d.now) result ≡ heads.declared (map symbol_tree symbols.now) symbol.0 }
{
    if symbol.0 == 0 {
        return None;
    }
    symbols.get(symbol.0 as usize - 1)
}

fn is_constructor(sense: &Sense) -> bool
    ensures { result ≡ test.is_constructor (sense_tree sense.now) }
{
    match sense {
        Sense::Constructor => true,
        Sense::Predicate | Sense::Function(_) => false,
    }
}

fn is_function(sense: &Sense) -> bool
    ensures { result ≡ heads.is_function (sense_tree sense.now) }
{
    match sense {
        Sense::Function(_) => true,
        Sense::Constructor | Sense::Predicate => false,
    }
}

/// Whether a symbol is a constructor that takes as many types.
pub(crate) fn constructs(symbols: &Symbols, symbol: SymId, count: usize) -> bool
    ensures { result ≡ test.constructs (symbol_at (map symbol_tree symbols.now) symbol.0) count }
{
    if symbol.0 == 0 {
        return count == 0;
    }
    match declaration(symbols, symbol) {
        Some(found) => is_constructor(&found.sense) && found.types as usize == count,
        None => false,
    }
}

/// Whether a declaration is that of a function that takes as many types.
pub(crate) fn takes(found: &Symbol, count: usize) -> bool
    ensures { result ≡ (heads.is_function (sense_tree found.now.sense) && (found.now.types == count)) }
{
    is_function(&found.sense) && found.types as usize == count
}
