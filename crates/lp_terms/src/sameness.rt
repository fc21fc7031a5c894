ghost use Rattle.std.specs.Prelude.{◌≡◌, ◌↔◌, true};
ghost use Rattle.lp_terms.specs.Same.{same};
ghost use Rattle.lp_terms.specs.View.{term_of};

use crate::term::Lp;

impl Lp {
    /// Whether the two terms are equal.
    #[tactic(auto, using(crate::proofs::Sames::same_decides))]
    pub fn is_same(&self, other: &Lp) -> bool
        ensures { (result ≡ true) ↔ (term_of self.now ≡ term_of other.now) }
    {
        same_term(self, other)
    }
}

#[cycle(same_term)]
fn same_term(term: &Lp, other: &Lp) -> bool
    ensures { result ≡ same (term_of term.now) (term_of other.now) }
{
    match (term, other) {
        (Lp::Sort, Lp::Sort) => true,
        (Lp::Const(x), Lp::Const(y)) => x.text() == y.text(),
        (Lp::Free(m), Lp::Free(n)) | (Lp::Index(m), Lp::Index(n)) => m == n,
        (Lp::App(f, a), Lp::App(g, b))
        | (Lp::Abs(f, a), Lp::Abs(g, b))
        | (Lp::Prod(f, a), Lp::Prod(g, b)) => same_term(f.get(), g.get())
            && same_term(a.get(), b.get()),
        (Lp::Sort | Lp::Const(_) | Lp::Free(_) | Lp::Index(_), _)
        | (Lp::App(_, _) | Lp::Abs(_, _) | Lp::Prod(_, _), _) => false,
    }
}
