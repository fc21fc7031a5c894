ghost use Rattle.std.specs.Prelude.{◌≡◌, ◌+◌, IfOk};
ghost use Rattle.zm_logic.specs.View.{type_tree, term_tree, types_tree, terms_tree, form_tree, side_tree};
ghost use Rattle.zm_logic.specs.Index as indices;

use sqlite_items::Boxed;
use std::alloc::AllocError;
use zm_logic::{Form, Term, Terms, Ty, Tys};

/// Whether an index occurs in a type, counted from outside it.
#[cycle(type_has)]
pub(crate) fn type_has(index: u64, ty: &Ty) -> bool
    ensures { result ≡ indices.type_has index (type_tree ty.now) }
{
    match ty {
        Ty::Bound(i) => u64::from(*i) == index,
        Ty::Param(_) | Ty::Meta(_) => false,
        Ty::Con(_, ts) => types_have(index, ts),
    }
}

/// Whether an index occurs in one of the types.
#[cycle(type_has)]
#[tactic(auto, using(crate::proofs::Loops::types_have_here, crate::proofs::Loops::types_have_later, crate::proofs::Loops::types_have_end))]
pub(crate) fn types_have(index: u64, types: &Tys) -> bool
    ensures { result ≡ indices.types_have index (types_tree types.now) }
{
    for t in types.as_slice() {
        if type_has(index, t) {
            return true;
        }
    }
    false
}

/// Whether an index occurs in a term.
#[cycle(term_has)]
pub(crate) fn term_has(index: u64, term: &Term) -> bool
    ensures { result ≡ indices.term_has index (term_tree term.now) }
{
    match term {
        Term::Bound(i) => u64::from(*i) == index,
        Term::Eps(_, t) | Term::Meta(_, t) => type_has(index, t),
        Term::App(_, ts, us) => types_have(index, ts) || terms_have(index, us),
    }
}

/// Whether an index occurs in one of the terms.
#[cycle(term_has)]
#[tactic(auto, using(crate::proofs::Loops::terms_have_here, crate::proofs::Loops::terms_have_later, crate::proofs::Loops::terms_have_end))]
pub(crate) fn terms_have(index: u64, terms: &Terms) -> bool
    ensures { result ≡ indices.terms_have index (terms_tree terms.now) }
{
    for u in terms.as_slice() {
        if term_has(index, u) {
            return true;
        }
    }
    false
}

/// Whether an index occurs in a formula. The one error is want of memory, where it has more binders than a u64 counts.
#[cycle(form_has)]
pub(crate) fn form_has(index: u64, form: &Form) -> Result<bool, AllocError>
    ensures { IfOk result (λ b. b ≡ indices.form_has index (form_tree form.now)) }
{
    match form {
        Form::True | Form::False => Ok(false),
        Form::Atom(_, ts, us) => Ok(types_have(index, ts) || terms_have(index, us)),
        Form::Equal(t, a, b) => {
            Ok(type_has(index, t) || term_has(index, a) || term_has(index, b))
        }
        Form::Not(f) => form_has(index, f.get()),
        Form::And(f, g) | Form::Or(f, g) | Form::Imp(f, g) | Form::Iff(f, g) => {
            if form_has(index, f.get())? {
                return Ok(true);
            }
            form_has(index, g.get())
        }
        Form::All(t, f) | Form::Ex(t, f) => {
            if type_has(index, t) {
                return Ok(true);
            }
            body_has(index, f)
        }
        Form::AllType(f) | Form::ExType(f) => body_has(index, f),
    }
}

#[cycle(form_has)]
fn body_has(index: u64, body: &Boxed<Form>) -> Result<bool, AllocError>
    ensures { IfOk result (λ b. b ≡ indices.form_has (index + 1) (form_tree body.now)) }
{
    match index.checked_add(1) {
        Some(inner) => form_has(inner, body.get()),
        None => Err(AllocError),
    }
}
