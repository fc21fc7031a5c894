ghost use Rattle.std.specs.Prelude.{◌≡◌, ◌+◌, ◌-◌, ◌^◌, ◌<◌, IfOk};
ghost use Rattle.zm_logic.specs.View.{type_tree, term_tree, form_tree, types_tree, terms_tree};
ghost use Rattle.zm_logic.specs.Measure as measure;
ghost use Rattle.zm_logic.specs.Opening as opening;

use crate::results::pair;
use crate::tree::{Form, Term, Ty};
use sqlite_items::{Boxed, Items};
use std::alloc::{AllocError, Global};

impl Ty {
    #[cycle(close_type)]
    fn close(&self, alloc: Global, at: u32, number: u64) -> Result<Ty, AllocError>
        ensures { IfOk result (λ t. type_tree t ≡ opening.close_type at number (type_tree self.now)) }
    {
        Ok(match self {
            Ty::Bound(i) => Ty::Bound(*i),
            Ty::Param(n) if *n == number => Ty::Bound(at),
            Ty::Param(n) => Ty::Param(*n),
            Ty::Meta(n) => Ty::Meta(*n),
            Ty::Con(c, ts) => Ty::Con(*c, close_types(alloc, ts, at, number)?),
        })
    }
}

#[cycle(close_type)]
#[tactic(auto, using(crate::proofs::Lists::types_close_more))]
fn close_types(
    alloc: Global,
    types: &Items<Ty>,
    at: u32,
    number: u64,
) -> Result<Items<Ty>, AllocError>
    ensures { IfOk result (λ ts. types_tree ts ≡ opening.close_types at number (types_tree types.now)) }
{
    let mut all = Items::new(alloc);
    for t in types.as_slice() {
        all.push(t.close(alloc, at, number)?)?;
    }
    Ok(all)
}

impl Term {
    #[cycle(close_term)]
    fn close(&self, alloc: Global, at: u32, number: u64) -> Result<Term, AllocError>
        ensures { IfOk result (λ t. term_tree t ≡ opening.close_term at number (term_tree self.now)) }
    {
        Ok(match self {
            Term::Bound(i) => Term::Bound(*i),
            Term::Eps(n, _) if *n == number => Term::Bound(at),
            Term::Eps(n, t) => Term::Eps(*n, t.close(alloc, at, number)?),
            Term::Meta(n, t) => Term::Meta(*n, t.close(alloc, at, number)?),
            Term::App(f, ts, us) => {
                let ts = close_types(alloc, ts, at, number);
                let (ts, us) = pair(ts, close_terms(alloc, us, at, number))?;
                Term::App(*f, ts, us)
            }
        })
    }
}

#[cycle(close_term)]
#[tactic(auto, using(crate::proofs::Lists::terms_close_more))]
fn close_terms(
    alloc: Global,
    terms: &Items<Term>,
    at: u32,
    number: u64,
) -> Result<Items<Term>, AllocError>
    ensures { IfOk result (λ us. terms_tree us ≡ opening.close_terms at number (terms_tree terms.now)) }
{
    let mut all = Items::new(alloc);
    for u in terms.as_slice() {
        all.push(u.close(alloc, at, number)?)?;
    }
    Ok(all)
}

impl Form {
    #[cycle(close_form)]
    fn close(&self, alloc: Global, at: u32, number: u64) -> Result<Form, AllocError>
        requires { at + measure.depth (form_tree self.now) < 2 ^ 32 }
        ensures { IfOk result (λ f. form_tree f ≡ opening.close_at at number (form_tree self.now)) }
    {
        match self {
            Form::True => Ok(Form::True),
            Form::False => Ok(Form::False),
            Form::Atom(p, ts, us) => {
                let ts = close_types(alloc, ts, at, number);
                let (ts, us) = pair(ts, close_terms(alloc, us, at, number))?;
                Ok(Form::Atom(*p, ts, us))
            }
            Form::Equal(t, a, b) => {
                let sides = pair(a.close(alloc, at, number), b.close(alloc, at, number));
                let (t, (a, b)) = pair(t.close(alloc, at, number), sides)?;
                Ok(Form::Equal(t, a, b))
            }
            Form::Not(f) => Ok(Form::Not(close_boxed(alloc, f, at, number)?)),
            Form::And(f, g) => {
                let (f, g) = pair(
                    close_boxed(alloc, f, at, number),
                    close_boxed(alloc, g, at, number),
                )?;
                Ok(Form::And(f, g))
            }
            Form::Or(f, g) => {
                let (f, g) = pair(
                    close_boxed(alloc, f, at, number),
                    close_boxed(alloc, g, at, number),
                )?;
                Ok(Form::Or(f, g))
            }
            Form::Imp(f, g) => {
                let (f, g) = pair(
                    close_boxed(alloc, f, at, number),
                    close_boxed(alloc, g, at, number),
                )?;
                Ok(Form::Imp(f, g))
            }
            Form::Iff(f, g) => {
                let (f, g) = pair(
                    close_boxed(alloc, f, at, number),
                    close_boxed(alloc, g, at, number),
                )?;
                Ok(Form::Iff(f, g))
            }
            Form::All(t, f) => {
                let (t, f) = pair(
                    t.close(alloc, at, number),
                    close_boxed(alloc, f, at + 1, number),
                )?;
                Ok(Form::All(t, f))
            }
            Form::Ex(t, f) => {
                let (t, f) = pair(
                    t.close(alloc, at, number),
                    close_boxed(alloc, f, at + 1, number),
                )?;
                Ok(Form::Ex(t, f))
            }
            Form::AllType(f) => Ok(Form::AllType(close_boxed(alloc, f, at + 1, number)?)),
            Form::ExType(f) => Ok(Form::ExType(close_boxed(alloc, f, at + 1, number)?)),
        }
    }
}

#[cycle(close_form)]
fn close_boxed(
    alloc: Global,
    form: &Boxed<Form>,
    at: u32,
    number: u64,
) -> Result<Boxed<Form>, AllocError>
    requires { at + measure.depth (form_tree form.now) < 2 ^ 32 }
    ensures { IfOk result (λ f. form_tree f ≡ opening.close_at at number (form_tree form.now)) }
{
    Boxed::new(alloc, form.get().close(alloc, at, number)?)
}

/// The body over which a quantifier binds the epsilon terms and the type parameters of the number: index 0, counted on
/// under each binder, for each of them. The one error is want of memory.
pub fn close_form(alloc: Global, form: &Form, number: u64) -> Result<Form, AllocError>
    requires { measure.depth (form_tree form.now) < 2 ^ 32 - 1 }
    ensures { IfOk result (λ f. form_tree f ≡ opening.close (form_tree form.now) number) }
{
    form.close(alloc, 0, number)
}
