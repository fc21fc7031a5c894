ghost use Rattle.std.specs.Prelude.{◌≡◌, IfOk};
ghost use Rattle.zm_logic.specs.View.{type_tree, term_tree, types_tree, terms_tree};
ghost use Rattle.rule_index.specs.Instance as instance;

use crate::results::{pair, raised};
use std::alloc::{AllocError, Global};
use zm_logic::{Term, Terms, Ty, Tys};

/// The type under so many more binders: each index counts them.
#[cycle(lift_type)]
pub(crate) fn lift_type(alloc: Global, ty: &Ty, by: u32) -> Result<Ty, AllocError>
    ensures { IfOk result (λ t. type_tree t ≡ instance.lift_type by (type_tree ty.now)) }
{
    Ok(match ty {
        Ty::Bound(i) => Ty::Bound(raised(*i, by)?),
        Ty::Param(n) => Ty::Param(*n),
        Ty::Meta(n) => Ty::Meta(*n),
        Ty::Con(c, ts) => Ty::Con(*c, lift_types(alloc, ts, by)?),
    })
}

#[cycle(lift_type)]
#[tactic(auto, using(crate::proofs::Loops::types_lift_more))]
fn lift_types(alloc: Global, types: &Tys, by: u32) -> Result<Tys, AllocError>
    ensures { IfOk result (λ ts. types_tree ts ≡ instance.lift_types by (types_tree types.now)) }
{
    let mut all = Tys::new(alloc);
    for t in types.as_slice() {
        all.push(lift_type(alloc, t, by)?)?;
    }
    Ok(all)
}

/// The term under so many more binders.
#[cycle(lift_term)]
pub(crate) fn lift_term(alloc: Global, term: &Term, by: u32) -> Result<Term, AllocError>
    ensures { IfOk result (λ u. term_tree u ≡ instance.lift_term by (term_tree term.now)) }
{
    Ok(match term {
        Term::Bound(i) => Term::Bound(raised(*i, by)?),
        Term::Eps(n, t) => Term::Eps(*n, lift_type(alloc, t, by)?),
        Term::Meta(n, t) => Term::Meta(*n, lift_type(alloc, t, by)?),
        Term::App(f, ts, us) => {
            let ts = lift_types(alloc, ts, by);
            let (ts, us) = pair(ts, lift_terms(alloc, us, by))?;
            Term::App(*f, ts, us)
        }
    })
}

#[cycle(lift_term)]
#[tactic(auto, using(crate::proofs::Loops::terms_lift_more))]
fn lift_terms(alloc: Global, terms: &Terms, by: u32) -> Result<Terms, AllocError>
    ensures { IfOk result (λ us. terms_tree us ≡ instance.lift_terms by (terms_tree terms.now)) }
{
    let mut all = Terms::new(alloc);
    for u in terms.as_slice() {
        all.push(lift_term(alloc, u, by)?)?;
    }
    Ok(all)
}
