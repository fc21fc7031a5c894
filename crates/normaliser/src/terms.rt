ghost use Rattle.std.specs.Prelude.{◌≡◌, IfOk};
ghost use Rattle.zm_logic.specs.Tree as tree;
ghost use Rattle.zm_logic.specs.View.{term_tree, terms_tree, types_tree};
ghost use Rattle.rule_index.specs.View.{rules_of};
ghost use Rattle.normaliser.specs.NextStep as step;
ghost use Rattle.normaliser.specs.View.{some_term, some_terms};

use crate::copies::{copy_terms, copy_types};
use rule_index::Index;
use std::alloc::{AllocError, Global};
use zm_logic::{Side, SymId, Term, Terms, Tys};

// What the first rule that fits a term makes of it.
fn root_term(alloc: Global, index: &Index, term: &Term) -> Result<Option<Term>, AllocError>
    ensures { IfOk result (λ m. some_term m ≡ step.root_term (rules_of index.now) (term_tree term.now)) }
{
    let place = Side::OfTerm(term.copy(alloc)?);
    match index.rewrite(alloc, &place)? {
        Some(Side::OfTerm(next)) => Ok(Some(next)),
        Some(Side::OfForm(_)) => Ok(None),
        None => Ok(None),
    }
}

// A symbol at these types and terms.
fn applied(alloc: Global, symbol: SymId, types: &Tys, terms: Terms) -> Result<Term, AllocError>
    ensures { IfOk result (λ u. term_tree u ≡ tree.Term.app symbol.0 (types_tree types.now) (terms_tree terms)) }
{
    let types = copy_types(alloc, types)?;
    Ok(Term::App(symbol, types, terms))
}

/// The leftmost innermost step of a term, or None where it has none. The one error is want of memory.
#[cycle(next_term)]
pub(crate) fn next_term(
    alloc: Global,
    index: &Index,
    term: &Term,
) -> Result<Option<Term>, AllocError>
    ensures { IfOk result (λ m. some_term m ≡ step.next_term (rules_of index.now) (term_tree term.now)) }
{
    match term {
        Term::Bound(_) | Term::Eps(_, _) | Term::Meta(_, _) => Ok(None),
        Term::App(symbol, types, terms) => match next_terms(alloc, index, terms)? {
            Some(next) => Ok(Some(applied(alloc, *symbol, types, next)?)),
            None => root_term(alloc, index, term),
        },
    }
}

/// The step of the first term of a list that has one.
#[cycle(next_term)]
#[tactic(auto, using(crate::proofs::TermLists::next_start, crate::proofs::TermLists::next_here, crate::proofs::TermLists::next_later, crate::proofs::TermLists::next_end))]
pub(crate) fn next_terms(
    alloc: Global,
    index: &Index,
    terms: &Terms,
) -> Result<Option<Terms>, AllocError>
    ensures { IfOk result (λ m. some_terms m ≡ step.next_terms (rules_of index.now) (terms_tree terms.now)) }
{
    for (i, term) in terms.as_slice().iter().enumerate() {
        if let Some(next) = next_term(alloc, index, term)? {
            let mut all = copy_terms(alloc, terms)?;
            all.set(i, next);
            return Ok(Some(all));
        }
    }
    Ok(None)
}
