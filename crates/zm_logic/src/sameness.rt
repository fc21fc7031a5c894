ghost use Rattle.std.specs.Prelude.{◌≡◌};
ghost use Rattle.zm_logic.specs.View.{type_tree, term_tree, form_tree, types_tree, terms_tree};
ghost use Rattle.zm_logic.specs.Same as same;

use crate::tree::{Form, Term, Ty};
use sqlite_items::{Boxed, Items};

impl Ty {
    /// Whether the two types are the same tree.
    #[cycle(same_type)]
    pub fn same(&self, other: &Ty) -> bool
        ensures { result ≡ same.same_type (type_tree self.now) (type_tree other.now) }
    {
        match (self, other) {
            (Ty::Bound(m), Ty::Bound(n)) => m == n,
            (Ty::Param(m), Ty::Param(n)) => m == n,
            (Ty::Meta(m), Ty::Meta(n)) => m == n,
            (Ty::Con(c, ts), Ty::Con(d, us)) => c.0 == d.0 && same_types(ts, us),
            (Ty::Bound(_) | Ty::Param(_) | Ty::Meta(_) | Ty::Con(_, _), _) => false,
        }
    }
}

#[cycle(same_type)]
#[tactic(auto, using(crate::proofs::SameLists::types_yes, crate::proofs::SameLists::types_no, crate::proofs::SameLists::types_unequal, crate::proofs::SameLists::types_end))]
fn same_types(types: &Items<Ty>, others: &Items<Ty>) -> bool
    ensures { result ≡ same.same_types (types_tree types.now) (types_tree others.now) }
{
    let types = types.as_slice();
    let others = others.as_slice();
    if types.len() != others.len() {
        return false;
    }
    for (i, t) in types.iter().enumerate() {
        if !t.same(&others[i]) {
            return false;
        }
    }
    true
}

impl Term {
    /// Whether the two terms are the same tree.
    #[cycle(same_term)]
    pub fn same(&self, other: &Term) -> bool
        ensures { result ≡ same.same_term (term_tree self.now) (term_tree other.now) }
    {
        match (self, other) {
            (Term::Bound(m), Term::Bound(n)) => m == n,
            (Term::Eps(m, t), Term::Eps(n, u)) => m == n && t.same(u),
            (Term::Meta(m, t), Term::Meta(n, u)) => m == n && t.same(u),
            (Term::App(f, ts, xs), Term::App(g, us, ys)) => {
                f.0 == g.0 && same_types(ts, us) && same_terms(xs, ys)
            }
            (Term::Bound(_) | Term::Eps(_, _) | Term::Meta(_, _) | Term::App(_, _, _), _) => false,
        }
    }
}

#[cycle(same_term)]
#[tactic(auto, using(crate::proofs::SameLists::terms_yes, crate::proofs::SameLists::terms_no, crate::proofs::SameLists::terms_unequal, crate::proofs::SameLists::terms_end))]
fn same_terms(terms: &Items<Term>, others: &Items<Term>) -> bool
    ensures { result ≡ same.same_terms (terms_tree terms.now) (terms_tree others.now) }
{
    let terms = terms.as_slice();
    let others = others.as_slice();
    if terms.len() != others.len() {
        return false;
    }
    for (i, t) in terms.iter().enumerate() {
        if !t.same(&others[i]) {
            return false;
        }
    }
    true
}

impl Form {
    /// Whether the two formulas are the same tree.
    #[cycle(same_form)]
    pub fn same(&self, other: &Form) -> bool
        ensures { result ≡ same.same (form_tree self.now) (form_tree other.now) }
    {
        match (self, other) {
            (Form::True, Form::True) | (Form::False, Form::False) => true,
            (Form::Atom(p, ts, xs), Form::Atom(q, us, ys)) => {
                p.0 == q.0 && same_types(ts, us) && same_terms(xs, ys)
            }
            (Form::Equal(t, a, b), Form::Equal(u, c, d)) => t.same(u) && a.same(c) && b.same(d),
            (Form::Not(f), Form::Not(g))
            | (Form::AllType(f), Form::AllType(g))
            | (Form::ExType(f), Form::ExType(g)) => same_boxed(f, g),
            (Form::And(f, a), Form::And(g, b))
            | (Form::Or(f, a), Form::Or(g, b))
            | (Form::Imp(f, a), Form::Imp(g, b))
            | (Form::Iff(f, a), Form::Iff(g, b)) => same_boxed(f, g) && same_boxed(a, b),
            (Form::All(t, f), Form::All(u, g)) | (Form::Ex(t, f), Form::Ex(u, g)) => {
                t.same(u) && same_boxed(f, g)
            }
            (_, _) => false,
        }
    }
}

#[cycle(same_form)]
fn same_boxed(form: &Boxed<Form>, other: &Boxed<Form>) -> bool
    ensures { result ≡ same.same (form_tree form.now) (form_tree other.now) }
{
    form.get().same(other.get())
}
