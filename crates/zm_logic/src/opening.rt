ghost use Rattle.std.specs.Prelude.{◌≡◌, ◌+◌, IfOk};
ghost use Rattle.zm_logic.specs.View.{type_tree, term_tree, form_tree, types_tree, terms_tree, opening_tree};
ghost use Rattle.zm_logic.specs.Opening as opening;

use crate::results::pair;
use crate::tree::{Form, Term, Ty};
use sqlite_items::{Boxed, Items};
use std::alloc::{AllocError, Global};

// what is put for an index
#[derive(Clone, Copy)]
enum Opening<'a> {
    OfType(&'a Ty),
    OfTerm(&'a Term),
}

impl Ty {
    #[cycle(open_type)]
    fn open(&self, alloc: Global, at: u64, with: Opening) -> Result<Ty, AllocError>
        ensures { IfOk result (λ t. type_tree t ≡ opening.open_type at (opening_tree with.entry) (type_tree self.now)) }
    {
        Ok(match self {
            Ty::Bound(i) => match with {
                Opening::OfType(t) if u64::from(*i) == at => t.copy(alloc)?,
                Opening::OfType(_) | Opening::OfTerm(_) => Ty::Bound(*i),
            },
            Ty::Param(n) => Ty::Param(*n),
            Ty::Meta(n) => Ty::Meta(*n),
            Ty::Con(c, ts) => Ty::Con(*c, open_types(alloc, ts, at, with)?),
        })
    }
}

#[cycle(open_type)]
#[tactic(auto, using(crate::proofs::Lists::types_open_more))]
fn open_types(
    alloc: Global,
    types: &Items<Ty>,
    at: u64,
    with: Opening,
) -> Result<Items<Ty>, AllocError>
    ensures { IfOk result (λ ts. types_tree ts ≡ opening.open_types at (opening_tree with.entry) (types_tree types.now)) }
{
    let mut all = Items::new(alloc);
    for t in types.as_slice() {
        all.push(t.open(alloc, at, with)?)?;
    }
    Ok(all)
}

impl Term {
    #[cycle(open_term)]
    fn open(&self, alloc: Global, at: u64, with: Opening) -> Result<Term, AllocError>
        ensures { IfOk result (λ t. term_tree t ≡ opening.open_term at (opening_tree with.entry) (term_tree self.now)) }
    {
        Ok(match self {
            Term::Bound(i) => match with {
                Opening::OfTerm(u) if u64::from(*i) == at => u.copy(alloc)?,
                Opening::OfType(_) | Opening::OfTerm(_) => Term::Bound(*i),
            },
            Term::Eps(n, t) => Term::Eps(*n, t.open(alloc, at, with)?),
            Term::Meta(n, t) => Term::Meta(*n, t.open(alloc, at, with)?),
            Term::App(f, ts, us) => {
                let ts = open_types(alloc, ts, at, with);
                let (ts, us) = pair(ts, open_terms(alloc, us, at, with))?;
                Term::App(*f, ts, us)
            }
        })
    }
}

#[cycle(open_term)]
#[tactic(auto, using(crate::proofs::Lists::terms_open_more))]
fn open_terms(
    alloc: Global,
    terms: &Items<Term>,
    at: u64,
    with: Opening,
) -> Result<Items<Term>, AllocError>
    ensures { IfOk result (λ us. terms_tree us ≡ opening.open_terms at (opening_tree with.entry) (terms_tree terms.now)) }
{
    let mut all = Items::new(alloc);
    for u in terms.as_slice() {
        all.push(u.open(alloc, at, with)?)?;
    }
    Ok(all)
}

impl Form {
    #[cycle(open_form)]
    fn open(&self, alloc: Global, at: u64, with: Opening) -> Result<Form, AllocError>
        ensures { IfOk result (λ f. form_tree f ≡ opening.open_at at (opening_tree with.entry) (form_tree self.now)) }
    {
        match self {
            Form::True => Ok(Form::True),
            Form::False => Ok(Form::False),
            Form::Atom(p, ts, us) => {
                let ts = open_types(alloc, ts, at, with);
                let (ts, us) = pair(ts, open_terms(alloc, us, at, with))?;
                Ok(Form::Atom(*p, ts, us))
            }
            Form::Equal(t, a, b) => {
                let sides = pair(a.open(alloc, at, with), b.open(alloc, at, with));
                let (t, (a, b)) = pair(t.open(alloc, at, with), sides)?;
                Ok(Form::Equal(t, a, b))
            }
            Form::Not(f) => Ok(Form::Not(open_boxed(alloc, f, at, with)?)),
            Form::And(f, g) => {
                let (f, g) = pair(
                    open_boxed(alloc, f, at, with),
                    open_boxed(alloc, g, at, with),
                )?;
                Ok(Form::And(f, g))
            }
            Form::Or(f, g) => {
                let (f, g) = pair(
                    open_boxed(alloc, f, at, with),
                    open_boxed(alloc, g, at, with),
                )?;
                Ok(Form::Or(f, g))
            }
            Form::Imp(f, g) => {
                let (f, g) = pair(
                    open_boxed(alloc, f, at, with),
                    open_boxed(alloc, g, at, with),
                )?;
                Ok(Form::Imp(f, g))
            }
            Form::Iff(f, g) => {
                let (f, g) = pair(
                    open_boxed(alloc, f, at, with),
                    open_boxed(alloc, g, at, with),
                )?;
                Ok(Form::Iff(f, g))
            }
            Form::All(t, f) => {
                let (t, f) = pair(t.open(alloc, at, with), open_body(alloc, f, at, with))?;
                Ok(Form::All(t, f))
            }
            Form::Ex(t, f) => {
                let (t, f) = pair(t.open(alloc, at, with), open_body(alloc, f, at, with))?;
                Ok(Form::Ex(t, f))
            }
            Form::AllType(f) => Ok(Form::AllType(open_body(alloc, f, at, with)?)),
            Form::ExType(f) => Ok(Form::ExType(open_body(alloc, f, at, with)?)),
        }
    }
}

#[cycle(open_form)]
fn open_boxed(
    alloc: Global,
    form: &Boxed<Form>,
    at: u64,
    with: Opening,
) -> Result<Boxed<Form>, AllocError>
    ensures { IfOk result (λ f. form_tree f ≡ opening.open_at at (opening_tree with.entry) (form_tree form.now)) }
{
    Boxed::new(alloc, form.get().open(alloc, at, with)?)
}

// More binders than a u64 counts stand in no memory, so there the answer is that memory is wanting.
#[cycle(open_form)]
fn open_body(
    alloc: Global,
    form: &Boxed<Form>,
    at: u64,
    with: Opening,
) -> Result<Boxed<Form>, AllocError>
    ensures { IfOk result (λ f. form_tree f ≡ opening.open_at (at + 1) (opening_tree with.entry) (form_tree form.now)) }
{
    match at.checked_add(1) {
        Some(inner) => open_boxed(alloc, form, inner, with),
        None => Err(AllocError),
    }
}

/// The formula with the term for index 0, counted on under each binder. The one error is want of memory.
pub fn open_form(alloc: Global, form: &Form, with: &Term) -> Result<Form, AllocError>
    ensures { IfOk result (λ f. form_tree f ≡ opening.at_term (form_tree form.now) (term_tree with.now)) }
{
    form.open(alloc, 0, Opening::OfTerm(with))
}

/// The formula with the type for index 0, counted on under each binder. The one error is want of memory.
pub fn open_type(alloc: Global, form: &Form, with: &Ty) -> Result<Form, AllocError>
    ensures { IfOk result (λ f. form_tree f ≡ opening.at_type (form_tree form.now) (type_tree with.now)) }
{
    form.open(alloc, 0, Opening::OfType(with))
}
