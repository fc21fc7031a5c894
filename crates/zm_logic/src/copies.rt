ghost use Rattle.std.specs.Prelude.{◌≡◌, IfOk};

use crate::problem::{Sense, Symbol};
use crate::results::pair;
use crate::rule::{Binder, Rule, Side};
use crate::text::Text;
use crate::tree::{Form, Term, Ty};
use sqlite_items::{Boxed, Items};
use std::alloc::{AllocError, Global};

impl Ty {
    /// An equal type.
    #[cycle(copy_type)]
    pub fn copy(&self, alloc: Global) -> Result<Ty, AllocError>
        ensures { IfOk result (λ t. t ≡ self.now) }
    {
        Ok(match self {
            Ty::Bound(n) => Ty::Bound(*n),
            Ty::Param(n) => Ty::Param(*n),
            Ty::Meta(n) => Ty::Meta(*n),
            Ty::Con(s, ts) => Ty::Con(*s, copy_types(alloc, ts)?),
        })
    }
}

#[cycle(copy_type)]
fn copy_types(alloc: Global, types: &Items<Ty>) -> Result<Items<Ty>, AllocError>
    ensures { IfOk result (λ ts. ts ≡ types.now) }
{
    let mut all = Items::new(alloc);
    for t in types.as_slice() {
        all.push(t.copy(alloc)?)?;
    }
    Ok(all)
}

impl Term {
    /// An equal term.
    #[cycle(copy_term)]
    pub fn copy(&self, alloc: Global) -> Result<Term, AllocError>
        ensures { IfOk result (λ t. t ≡ self.now) }
    {
        Ok(match self {
            Term::Bound(n) => Term::Bound(*n),
            Term::Eps(n, t) => Term::Eps(*n, t.copy(alloc)?),
            Term::Meta(n, t) => Term::Meta(*n, t.copy(alloc)?),
            Term::App(f, ts, us) => {
                let (ts, us) = pair(copy_types(alloc, ts), copy_terms(alloc, us))?;
                Term::App(*f, ts, us)
            }
        })
    }
}

#[cycle(copy_term)]
fn copy_terms(alloc: Global, terms: &Items<Term>) -> Result<Items<Term>, AllocError>
    ensures { IfOk result (λ us. us ≡ terms.now) }
{
    let mut all = Items::new(alloc);
    for t in terms.as_slice() {
        all.push(t.copy(alloc)?)?;
    }
    Ok(all)
}

impl Form {
    /// An equal formula.
    #[cycle(copy_form)]
    pub fn copy(&self, alloc: Global) -> Result<Form, AllocError>
        ensures { IfOk result (λ f. f ≡ self.now) }
    {
        match self {
            Form::True => Ok(Form::True),
            Form::False => Ok(Form::False),
            Form::Atom(p, ts, us) => {
                let ts = copy_types(alloc, ts);
                let (ts, us) = pair(ts, copy_terms(alloc, us))?;
                Ok(Form::Atom(*p, ts, us))
            }
            Form::Equal(t, a, b) => {
                let sides = pair(a.copy(alloc), b.copy(alloc));
                let (t, (a, b)) = pair(t.copy(alloc), sides)?;
                Ok(Form::Equal(t, a, b))
            }
            Form::Not(f) => Ok(Form::Not(copy_boxed(alloc, f)?)),
            Form::And(f, g) => {
                let (f, g) = pair(copy_boxed(alloc, f), copy_boxed(alloc, g))?;
                Ok(Form::And(f, g))
            }
            Form::Or(f, g) => {
                let (f, g) = pair(copy_boxed(alloc, f), copy_boxed(alloc, g))?;
                Ok(Form::Or(f, g))
            }
            Form::Imp(f, g) => {
                let (f, g) = pair(copy_boxed(alloc, f), copy_boxed(alloc, g))?;
                Ok(Form::Imp(f, g))
            }
            Form::Iff(f, g) => {
                let (f, g) = pair(copy_boxed(alloc, f), copy_boxed(alloc, g))?;
                Ok(Form::Iff(f, g))
            }
            Form::All(t, f) => {
                let (t, f) = pair(t.copy(alloc), copy_boxed(alloc, f))?;
                Ok(Form::All(t, f))
            }
            Form::Ex(t, f) => {
                let (t, f) = pair(t.copy(alloc), copy_boxed(alloc, f))?;
                Ok(Form::Ex(t, f))
            }
            Form::AllType(f) => Ok(Form::AllType(copy_boxed(alloc, f)?)),
            Form::ExType(f) => Ok(Form::ExType(copy_boxed(alloc, f)?)),
        }
    }
}

#[cycle(copy_form)]
fn copy_boxed(alloc: Global, form: &Boxed<Form>) -> Result<Boxed<Form>, AllocError>
    ensures { IfOk result (λ f. f ≡ form.now) }
{
    Boxed::new(alloc, form.get().copy(alloc)?)
}

impl Text {
    /// An equal text.
    pub fn copy(&self, alloc: Global) -> Result<Text, AllocError>
        ensures { IfOk result (λ t. t ≡ self.now) }
    {
        Text::of(alloc, self.text())
    }
}

impl Sense {
    /// An equal sense.
    pub fn copy(&self, alloc: Global) -> Result<Sense, AllocError>
        ensures { IfOk result (λ s. s ≡ self.now) }
    {
        Ok(match self {
            Sense::Constructor => Sense::Constructor,
            Sense::Predicate => Sense::Predicate,
            Sense::Function(t) => Sense::Function(t.copy(alloc)?),
        })
    }
}

impl Symbol {
    /// An equal symbol.
    pub fn copy(&self, alloc: Global) -> Result<Symbol, AllocError>
        ensures { IfOk result (λ s. s ≡ self.now) }
    {
        let types = self.types;
        let parts = pair(copy_types(alloc, &self.arguments), self.sense.copy(alloc));
        let (name, (arguments, sense)) = pair(self.name.copy(alloc), parts)?;
        Ok(Symbol {
            name,
            types,
            arguments,
            sense,
        })
    }
}

/// An equal list of symbols.
pub fn copy_symbols(alloc: Global, symbols: &Items<Symbol>) -> Result<Items<Symbol>, AllocError>
    ensures { IfOk result (λ ss. ss ≡ symbols.now) }
{
    let mut all = Items::new(alloc);
    for s in symbols.as_slice() {
        all.push(s.copy(alloc)?)?;
    }
    Ok(all)
}

impl Side {
    /// An equal side.
    pub fn copy(&self, alloc: Global) -> Result<Side, AllocError>
        ensures { IfOk result (λ s. s ≡ self.now) }
    {
        Ok(match self {
            Side::OfTerm(u) => Side::OfTerm(u.copy(alloc)?),
            Side::OfForm(f) => Side::OfForm(f.copy(alloc)?),
        })
    }
}

fn copy_binders(alloc: Global, binders: &Items<Binder>) -> Result<Items<Binder>, AllocError>
    ensures { IfOk result (λ bs. bs ≡ binders.now) }
{
    let mut all = Items::new(alloc);
    for b in binders.as_slice() {
        all.push(b.copy(alloc)?)?;
    }
    Ok(all)
}

impl Binder {
    /// An equal binder.
    pub fn copy(&self, alloc: Global) -> Result<Binder, AllocError>
        ensures { IfOk result (λ b. b ≡ self.now) }
    {
        Ok(match self {
            Binder::OfType => Binder::OfType,
            Binder::OfTerm(t) => Binder::OfTerm(t.copy(alloc)?),
        })
    }
}

impl Rule {
    /// An equal rule.
    pub fn copy(&self, alloc: Global) -> Result<Rule, AllocError>
        ensures { IfOk result (λ r. r ≡ self.now) }
    {
        let sides = pair(self.left.copy(alloc), self.right.copy(alloc));
        let (binders, (left, right)) = pair(copy_binders(alloc, &self.binders), sides)?;
        Ok(Rule {
            binders,
            left,
            right,
        })
    }
}

/// An equal list of rules.
pub fn copy_rules(alloc: Global, rules: &Items<Rule>) -> Result<Items<Rule>, AllocError>
    ensures { IfOk result (λ rs. rs ≡ rules.now) }
{
    let mut all = Items::new(alloc);
    for r in rules.as_slice() {
        all.push(r.copy(alloc)?)?;
    }
    Ok(all)
}
