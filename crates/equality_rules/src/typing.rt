ghost use Rattle.std.specs.Prelude.{◌≡◌, length, map, OnOk, IfOk};
ghost use Rattle.zm_logic.specs.Typing.{symbol_at};
ghost use Rattle.zm_logic.specs.View.{type_tree, types_tree, symbol_tree};
ghost use Rattle.term_store.specs.Node.{TypesBelow, TermsBelow, types_at, terms_at};
ghost use Rattle.term_store.specs.Trees.{HasType, HasTerm, type_of, term_of, all_trees};
ghost use Rattle.equality_rules.specs.Typed as test;
ghost use Rattle.equality_rules.specs.Heads as heads;
ghost use Rattle.equality_rules.specs.Checked.{IsRight};

use crate::checked::Checked;
use crate::declared::{constructs, declaration, takes};
use crate::matching::{is_instance, same_instances};
use std::alloc::{AllocError, Global};
use term_store::{Store, TermId, TermIds, TermNode, TyId, TyIds, TyNode};
use zm_logic::{Sense, SymId, Symbols, Ty, Tys};

// Whether the type is one over the symbols, without loose indices. Each type is looked at once.
#[cycle(is_type)]
fn is_type(
    store: &Store,
    symbols: &Symbols,
    checked: &mut Checked,
    id: TyId,
) -> Result<bool, AllocError>
    requires has { HasType store.now id }
    requires right { IsRight store.now (map symbol_tree symbols.now) checked.old }
    ensures value { IfOk result (λ b. b ≡ test.is_type (map symbol_tree symbols.now) (type_of store.now id)) }
    ensures right { OnOk result (IsRight store.now (map symbol_tree symbols.now) checked.new) }
{
    if checked.types.contains(&id) {
        return Ok(true);
    }
    let good = is_made_type(store, symbols, checked, id)?;
    if good {
        checked.types.insert(id)?;
    }
    Ok(good)
}

#[cycle(is_type)]
fn is_made_type(
    store: &Store,
    symbols: &Symbols,
    checked: &mut Checked,
    id: TyId,
) -> Result<bool, AllocError>
    requires has { HasType store.now id }
    requires right { IsRight store.now (map symbol_tree symbols.now) checked.old }
    ensures value { IfOk result (λ b. b ≡ test.is_type (map symbol_tree symbols.now) (type_of store.now id)) }
    ensures right { OnOk result (IsRight store.now (map symbol_tree symbols.now) checked.new) }
{
    match store.ty_node(id) {
        TyNode::Bound(_) => Ok(false),
        TyNode::Param(_) | TyNode::Meta(_) => Ok(true),
        TyNode::Con(symbol, ids) => {
            if !constructs(symbols, *symbol, ids.as_slice().len()) {
                return Ok(false);
            }
            are_types(store, symbols, checked, ids.as_slice())
        }
    }
}

#[cycle(is_type)]
fn are_types(
    store: &Store,
    symbols: &Symbols,
    checked: &mut Checked,
    ids: &[TyId],
) -> Result<bool, AllocError>
    requires has { TypesBelow (length store.now.types) ids.now }
    requires right { IsRight store.now (map symbol_tree symbols.now) checked.old }
    ensures value { IfOk result (λ b. b ≡ test.are_types (map symbol_tree symbols.now) (types_at (all_trees store.now).types ids.now)) }
    ensures right { OnOk result (IsRight store.now (map symbol_tree symbols.now) checked.new) }
{
    for id in ids {
        if !is_type(store, symbols, checked, *id)? {
            return Ok(false);
        }
    }
    Ok(true)
}

// Whether what a function makes at these types is the type of a declaration at its types.
#[tactic(auto, using(crate::proofs::Places::function_makes, crate::proofs::Places::constructor_makes, crate::proofs::Places::predicate_makes, crate::proofs::Places::none_makes))]
fn result_is(
    store: &Store,
    symbols: &Symbols,
    symbol: SymId,
    types: &[TyId],
    wanted: &Ty,
    wanted_types: &[TyId],
) -> bool
    requires below { TypesBelow (length store.now.types) types.now }
    requires below_wanted { TypesBelow (length store.now.types) wanted_types.now }
    ensures { result ≡ heads.result_is (symbol_at (map symbol_tree symbols.now) symbol.0) (types_at (all_trees store.now).types types.now) (heads.instance_at (types_at (all_trees store.now).types wanted_types.now) (type_tree wanted.now)) }
{
    match declaration(symbols, symbol) {
        Some(found) => match &found.sense {
            Sense::Function(result) => {
                same_instances(store, result, types, wanted, wanted_types)
            }
            Sense::Constructor | Sense::Predicate => false,
        },
        None => false,
    }
}

// Whether a term's head gives it the type of a declaration at these types.
fn head_is(
    store: &Store,
    symbols: &Symbols,
    term: TermId,
    wanted: &Ty,
    wanted_types: &[TyId],
) -> bool
    requires has { HasTerm store.now term }
    requires below { TypesBelow (length store.now.types) wanted_types.now }
    ensures { result ≡ heads.head_is (map symbol_tree symbols.now) (term_of store.now term) (heads.instance_at (types_at (all_trees store.now).types wanted_types.now) (type_tree wanted.now)) }
{
    match store.term_node(term) {
        TermNode::Bound(_) => false,
        TermNode::Eps(_, ty) | TermNode::Meta(_, ty) => {
            is_instance(store, wanted, wanted_types, *ty)
        }
        TermNode::App(symbol, types, _) => {
            result_is(
                store,
                symbols,
                *symbol,
                types.as_slice(),
                wanted,
                wanted_types,
            )
        }
    }
}

// Whether the heads of terms give them the types of a declaration at these types.
#[tactic(auto, using(crate::proofs::Lists::id_of_term_below))]
fn heads_are(
    store: &Store,
    symbols: &Symbols,
    terms: &[TermId],
    wanted: &Tys,
    wanted_types: &[TyId],
) -> bool
    requires has { TermsBelow (length store.now.terms) terms.now }
    requires below { TypesBelow (length store.now.types) wanted_types.now }
    ensures { result ≡ heads.heads_are (map symbol_tree symbols.now) (terms_at (all_trees store.now).terms terms.now) (heads.instances_at (types_at (all_trees store.now).types wanted_types.now) (types_tree wanted.now)) }
{
    let wanted = wanted.as_slice();
    if wanted.len() != terms.len() {
        return false;
    }
    for (i, one) in wanted.iter().enumerate() {
        if !head_is(store, symbols, terms[i], one, wanted_types) {
            return false;
        }
    }
    true
}

// Whether the term is well typed. Each term is looked at once.
#[cycle(is_typed)]
fn is_typed(
    store: &Store,
    symbols: &Symbols,
    checked: &mut Checked,
    id: TermId,
) -> Result<bool, AllocError>
    requires has { HasTerm store.now id }
    requires right { IsRight store.now (map symbol_tree symbols.now) checked.old }
    ensures value { IfOk result (λ b. b ≡ heads.is_typed (map symbol_tree symbols.now) (term_of store.now id)) }
    ensures right { OnOk result (IsRight store.now (map symbol_tree symbols.now) checked.new) }
{
    if checked.terms.contains(&id) {
        return Ok(true);
    }
    let good = is_made_typed(store, symbols, checked, id)?;
    if good {
        checked.terms.insert(id)?;
    }
    Ok(good)
}

#[cycle(is_typed)]
fn is_made_typed(
    store: &Store,
    symbols: &Symbols,
    checked: &mut Checked,
    id: TermId,
) -> Result<bool, AllocError>
    requires has { HasTerm store.now id }
    requires right { IsRight store.now (map symbol_tree symbols.now) checked.old }
    ensures value { IfOk result (λ b. b ≡ heads.is_typed (map symbol_tree symbols.now) (term_of store.now id)) }
    ensures right { OnOk result (IsRight store.now (map symbol_tree symbols.now) checked.new) }
{
    match store.term_node(id) {
        TermNode::Bound(_) => Ok(false),
        TermNode::Eps(_, ty) | TermNode::Meta(_, ty) => is_type(store, symbols, checked, *ty),
        TermNode::App(symbol, types, terms) => {
            is_applied(
                store,
                symbols,
                checked,
                *symbol,
                types.as_slice(),
                terms.as_slice(),
            )
        }
    }
}

#[cycle(is_typed)]
fn is_applied(
    store: &Store,
    symbols: &Symbols,
    checked: &mut Checked,
    symbol: SymId,
    types: &[TyId],
    terms: &[TermId],
) -> Result<bool, AllocError>
    requires below { TypesBelow (length store.now.types) types.now }
    requires has { TermsBelow (length store.now.terms) terms.now }
    requires right { IsRight store.now (map symbol_tree symbols.now) checked.old }
    ensures value { IfOk result (λ b. b ≡ heads.is_applied (map symbol_tree symbols.now) symbol.0 (types_at (all_trees store.now).types types.now) (terms_at (all_trees store.now).terms terms.now)) }
    ensures right { OnOk result (IsRight store.now (map symbol_tree symbols.now) checked.new) }
{
    let Some(found) = declaration(symbols, symbol) else {
        return Ok(false);
    };
    if !takes(found, types.len()) || !heads_are(store, symbols, terms, &found.arguments, types) {
        return Ok(false);
    }
    if !are_types(store, symbols, checked, types)? {
        return Ok(false);
    }
    are_typed(store, symbols, checked, terms)
}

#[cycle(is_typed)]
fn are_typed(
    store: &Store,
    symbols: &Symbols,
    checked: &mut Checked,
    ids: &[TermId],
) -> Result<bool, AllocError>
    requires has { TermsBelow (length store.now.terms) ids.now }
    requires right { IsRight store.now (map symbol_tree symbols.now) checked.old }
    ensures value { IfOk result (λ b. b ≡ heads.are_typed (map symbol_tree symbols.now) (terms_at (all_trees store.now).terms ids.now)) }
    ensures right { OnOk result (IsRight store.now (map symbol_tree symbols.now) checked.new) }
{
    for id in ids {
        if !is_typed(store, symbols, checked, *id)? {
            return Ok(false);
        }
    }
    Ok(true)
}

/// Whether the term is well typed and has the type. The one error is want of memory.
pub(crate) fn has_type(
    alloc: Global,
    store: &Store,
    symbols: &Symbols,
    term: TermId,
    ty: TyId,
) -> Result<bool, AllocError>
    requires has { HasTerm store.now term }
    requires has_type { HasType store.now ty }
    ensures value { IfOk result (λ b. b ≡ test.has_type (map symbol_tree symbols.now) (term_of store.now term) (type_of store.now ty)) }
{
    let wanted = Ty::Bound(0);
    if !head_is(store, symbols, term, &wanted, &[ty]) {
        return Ok(false);
    }
    let mut checked = Checked::new(alloc);
    is_typed(store, symbols, &mut checked, term)
}
