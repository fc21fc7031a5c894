ghost use Rattle.std.specs.Prelude.{◌≡◌, IfOk};
ghost use Rattle.zm_logic.specs.View.{type_tree, term_tree, types_tree, terms_tree};
ghost use Rattle.rule_index.specs.Matching as matching;

use crate::results::pair;
use std::alloc::{AllocError, Global};
use zm_logic::{Term, Terms, Ty, Tys};

/// The type under so many fewer binders: each index counts them no more.
#[cycle(lower_type)]
pub(crate) fn lower_type(alloc: Global, ty: &Ty, by: u32) -> Result<Ty, AllocError>
    ensures { IfOk result (λ t. type_tree t ≡ matching.lower_type by (type_tree ty.now)) }
{
    Ok(match ty {
        Ty::Bound(i) => Ty::Bound(i.saturating_sub(by)),
        Ty::Param(n) => Ty::Param(*n),
        Ty::Meta(n) => Ty::Meta(*n),
        Ty::Con(c, ts) => Ty::Con(*c, lower_types(alloc, ts, by)?),
    })
}

#[cycle(lower_type)]
#[tactic(auto, using(crate::proofs::Loops::types_lower_more))]
fn lower_types(alloc: Global, types: &Tys, by: u32) -> Result<Tys, AllocError>
    ensures { IfOk result (λ ts. types_tree ts ≡ matching.lower_types by (types_tree types.now)) }
{
    let mut all = Tys::new(alloc);
    for t in types.as_slice() {
        all.push(lower_type(alloc, t, by)?)?;
    }
    Ok(all)
}

/// The term under so many fewer binders.
#[cycle(lower_term)]
pub(crate) fn lower_term(alloc: Global, term: &Term, by: u32) -> Result<Term, AllocError>
    ensures { IfOk result (λ u. term_tree u ≡ matching.lower_term by (term_tree term.now)) }
{
    Ok(match term {
        Term::Bound(i) => Term::Bound(i.saturating_sub(by)),
        Term::Eps(n, t) => Term::Eps(*n, lower_type(alloc, t, by)?),
        Term::Meta(n, t) => Term::Meta(*n, lower_type(alloc, t, by)?),
        Term::App(f, ts, us) => {
            let ts = lower_types(alloc, ts, by);
            let (ts, us) = pair(ts, lower_terms(alloc, us, by))?;
            Term::App(*f, ts, us)
        }
    })
}

#[cycle(lower_term)]
#[tactic(auto, using(crate::proofs::Loops::terms_lower_more))]
fn lower_terms(alloc: Global, terms: &Terms, by: u32) -> Result<Terms, AllocError>
    ensures { IfOk result (λ us. terms_tree us ≡ matching.lower_terms by (terms_tree terms.now)) }
{
    let mut all = Terms::new(alloc);
    for u in terms.as_slice() {
        all.push(lower_term(alloc, u, by)?)?;
    }
    Ok(all)
}
