ghost use Rattle.std.specs.Prelude.{◌≡◌, ◌^◌, ◌-◌, min, max};
ghost use Rattle.std.specs.Option.{option_map};
ghost use Rattle.tptp_reader.specs.Raw.{raw_type_depth, raw_types_depth, raw_term_depth, raw_terms_depth, written_depth};
ghost use Rattle.tptp_reader.specs.View.{raw_type_tree, raw_types_tree, raw_term_tree, raw_terms_tree};

use crate::tree::{RawTerm, RawTerms, RawType, RawTypes};

/// The greater of two numbers.
pub fn greater(a: u32, b: u32) -> u32
    ensures { result ≡ max a b }
{
    if a < b { b } else { a }
}

/// How deep a written type is, at most `u32::MAX`.
#[cycle(raw_type_depth)]
pub fn type_depth(written: &RawType) -> u32
    ensures { result ≡ min (raw_type_depth (raw_type_tree written.now)) (2 ^ 32 - 1) }
{
    match written {
        RawType::Individual | RawType::Truth | RawType::Kind | RawType::Var(_) => 1,
        RawType::Name(_, parts) => types_depth(parts).saturating_add(1),
    }
}

#[cycle(raw_type_depth)]
fn types_depth(types: &RawTypes) -> u32
    ensures { result ≡ min (raw_types_depth (raw_types_tree types.now)) (2 ^ 32 - 1) }
{
    let mut all = 0u32;
    for t in types.as_slice() {
        all = greater(all, type_depth(t));
    }
    all
}

/// How deep a written term is, at most `u32::MAX`.
#[cycle(raw_term_depth)]
pub fn term_depth(term: &RawTerm) -> u32
    ensures { result ≡ min (raw_term_depth (raw_term_tree term.now)) (2 ^ 32 - 1) }
{
    match term {
        RawTerm::Individual | RawTerm::Truth | RawTerm::Var(_) => 1,
        RawTerm::Name(_, parts) => terms_depth(parts).saturating_add(1),
    }
}

#[cycle(raw_term_depth)]
fn terms_depth(terms: &RawTerms) -> u32
    ensures { result ≡ min (raw_terms_depth (raw_terms_tree terms.now)) (2 ^ 32 - 1) }
{
    let mut all = 0u32;
    for u in terms.as_slice() {
        all = greater(all, term_depth(u));
    }
    all
}

/// How deep the type is, or 0 where none is written.
pub fn written_depth(written: &Option<RawType>) -> u32
    ensures { result ≡ min (written_depth (option_map raw_type_tree written.now)) (2 ^ 32 - 1) }
{
    match written {
        Some(written) => type_depth(written),
        None => 0,
    }
}
