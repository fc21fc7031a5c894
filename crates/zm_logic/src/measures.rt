ghost use Rattle.std.specs.Prelude.{◌≡◌, ◌^◌, ◌-◌, min, max};
ghost use Rattle.zm_logic.specs.View.{type_tree, term_tree, form_tree, types_tree, terms_tree};
ghost use Rattle.zm_logic.specs.Measure as measure;

use crate::tree::{Form, Term, Ty};
use sqlite_items::Items;

impl Ty {
    /// The number of constructors of the type, at most `u64::MAX`.
    #[cycle(type_size)]
    pub fn size(&self) -> u64
        ensures { result ≡ min (measure.type_size (type_tree self.now)) (2 ^ 64 - 1) }
    {
        match self {
            Ty::Con(_, ts) => types_size(ts).saturating_add(1),
            Ty::Bound(_) | Ty::Param(_) | Ty::Meta(_) => 1,
        }
    }

    /// The number of constructors on the longest way down, at most `u64::MAX`.
    #[cycle(type_depth)]
    pub fn depth(&self) -> u64
        ensures { result ≡ min (measure.type_depth (type_tree self.now)) (2 ^ 64 - 1) }
    {
        match self {
            Ty::Con(_, ts) => types_depth(ts).saturating_add(1),
            Ty::Bound(_) | Ty::Param(_) | Ty::Meta(_) => 1,
        }
    }
}

#[cycle(type_size)]
#[tactic(auto, using(crate::proofs::Lists::types_size_more))]
fn types_size(types: &Items<Ty>) -> u64
    ensures { result ≡ min (measure.types_size (types_tree types.now)) (2 ^ 64 - 1) }
{
    let mut all = 0u64;
    for t in types.as_slice() {
        all = all.saturating_add(t.size());
    }
    all
}

#[cycle(type_depth)]
fn types_depth(types: &Items<Ty>) -> u64
    ensures { result ≡ min (measure.types_depth (types_tree types.now)) (2 ^ 64 - 1) }
{
    let mut all = 0u64;
    for t in types.as_slice() {
        all = greater(all, t.depth());
    }
    all
}

impl Term {
    /// The number of constructors of the term, at most `u64::MAX`.
    #[cycle(term_size)]
    pub fn size(&self) -> u64
        ensures { result ≡ min (measure.term_size (term_tree self.now)) (2 ^ 64 - 1) }
    {
        match self {
            Term::Bound(_) => 1,
            Term::Eps(_, t) | Term::Meta(_, t) => t.size().saturating_add(1),
            Term::App(_, ts, us) => types_size(ts)
                .saturating_add(terms_size(us))
                .saturating_add(1),
        }
    }
}

#[cycle(term_size)]
#[tactic(auto, using(crate::proofs::Lists::terms_size_more))]
fn terms_size(terms: &Items<Term>) -> u64
    ensures { result ≡ min (measure.terms_size (terms_tree terms.now)) (2 ^ 64 - 1) }
{
    let mut all = 0u64;
    for u in terms.as_slice() {
        all = all.saturating_add(u.size());
    }
    all
}

impl Form {
    /// The number of constructors of the formula, at most `u64::MAX`.
    pub fn size(&self) -> u64
        ensures { result ≡ min (measure.size (form_tree self.now)) (2 ^ 64 - 1) }
    {
        let parts = match self {
            Form::True | Form::False => 0,
            Form::Atom(_, ts, us) => types_size(ts).saturating_add(terms_size(us)),
            Form::Equal(t, a, b) => t.size().saturating_add(a.size()).saturating_add(b.size()),
            Form::Not(f) | Form::AllType(f) | Form::ExType(f) => f.get().size(),
            Form::And(f, g) | Form::Or(f, g) | Form::Imp(f, g) | Form::Iff(f, g) => {
                f.get().size().saturating_add(g.get().size())
            }
            Form::All(t, f) | Form::Ex(t, f) => t.size().saturating_add(f.get().size()),
        };
        parts.saturating_add(1)
    }
}

impl Term {
    /// The number of constructors on the longest way down, at most `u64::MAX`.
    #[cycle(term_depth)]
    pub fn depth(&self) -> u64
        ensures { result ≡ min (measure.term_depth (term_tree self.now)) (2 ^ 64 - 1) }
    {
        match self {
            Term::Bound(_) => 1,
            Term::Eps(_, t) | Term::Meta(_, t) => t.depth().saturating_add(1),
            Term::App(_, ts, us) => greater(types_depth(ts), terms_depth(us)).saturating_add(1),
        }
    }
}

fn greater(a: u64, b: u64) -> u64
    ensures { result ≡ max a b }
{
    if a < b { b } else { a }
}

#[cycle(term_depth)]
fn terms_depth(terms: &Items<Term>) -> u64
    ensures { result ≡ min (measure.terms_depth (terms_tree terms.now)) (2 ^ 64 - 1) }
{
    let mut all = 0u64;
    for u in terms.as_slice() {
        all = greater(all, u.depth());
    }
    all
}

impl Form {
    /// The number of constructors on the longest way down, at most `u64::MAX`.
    pub fn depth(&self) -> u64
        ensures { result ≡ min (measure.depth (form_tree self.now)) (2 ^ 64 - 1) }
    {
        let parts = match self {
            Form::True | Form::False => 0,
            Form::Atom(_, ts, us) => greater(types_depth(ts), terms_depth(us)),
            Form::Equal(t, a, b) => greater(t.depth(), greater(a.depth(), b.depth())),
            Form::Not(f) | Form::AllType(f) | Form::ExType(f) => f.get().depth(),
            Form::And(f, g) | Form::Or(f, g) | Form::Imp(f, g) | Form::Iff(f, g) => {
                greater(f.get().depth(), g.get().depth())
            }
            Form::All(t, f) | Form::Ex(t, f) => greater(t.depth(), f.get().depth()),
        };
        parts.saturating_add(1)
    }
}
