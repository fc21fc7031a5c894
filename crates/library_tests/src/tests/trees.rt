// Small trees: each function makes one node, or calls few that do. A part that is wanting makes the whole wanting.
use sqlite_items::{Boxed, Items};
use std::alloc::{AllocError, Global};
use zm_logic::{Form, SymId, Term, Terms, Ty, Tys};

/// A formula, or want of memory.
pub(crate) type Formula = Result<Boxed<Form>, AllocError>;

// $i
pub(crate) fn individual(alloc: Global) -> Ty {
    Ty::Con(SymId(0), Items::new(alloc))
}

// a
pub(crate) fn constant(alloc: Global) -> Term {
    Term::App(SymId(2), Items::new(alloc), Items::new(alloc))
}

fn one_type(alloc: Global, t: Ty) -> Result<Tys, AllocError> {
    let mut types = Tys::new(alloc);
    types.push(t)?;
    Ok(types)
}

fn one_term(alloc: Global, u: Term) -> Result<Terms, AllocError> {
    let mut terms = Terms::new(alloc);
    terms.push(u)?;
    Ok(terms)
}

// list(t)
pub(crate) fn list(alloc: Global, t: Ty) -> Result<Ty, AllocError> {
    let types = one_type(alloc, t)?;
    Ok(Ty::Con(SymId(1), types))
}

// f(u)
pub(crate) fn applied(alloc: Global, u: Term) -> Result<Term, AllocError> {
    let terms = one_term(alloc, u)?;
    Ok(Term::App(SymId(3), Items::new(alloc), terms))
}

// The predicate of a number, without arguments.
pub(crate) fn letter(alloc: Global, symbol: u32) -> Formula {
    let atom = Form::Atom(SymId(symbol), Items::new(alloc), Items::new(alloc));
    Boxed::new(alloc, atom)
}

// p(u)
fn about(alloc: Global, u: Term) -> Formula {
    let terms = one_term(alloc, u)?;
    Boxed::new(alloc, Form::Atom(SymId(4), Items::new(alloc), terms))
}

// ~p(u)
pub(crate) fn not_about(alloc: Global, u: Term) -> Formula {
    Boxed::new(alloc, Form::Not(about(alloc, u)?))
}

pub(crate) fn iff(alloc: Global, f: Formula, g: Formula) -> Formula {
    let f = f?;
    Boxed::new(alloc, Form::Iff(f, g?))
}
