use crate::heads::{Connective, FormHead, Head, TermHead, TypeHead};
use crate::tokens::Token;
use case_tables::CaseFault;
use sqlite_items::Boxed;
use std::alloc::Global;
use zm_logic::{Form, SymId, Term, Terms, Ty, Tys};

// How high the piles were at a closing bracket.
#[derive(Clone, Copy)]
struct Mark {
    types: usize,
    terms: usize,
    forms: usize,
}

/// The trees that were read so far, the last one on top. The parts of a text come from its end, so that the arguments of
/// a head are on top of the piles when it comes, the first one on top of all.
#[derive(Drop)]
pub(crate) struct Piles {
    alloc: Global,
    types: Vec<Ty>,
    terms: Vec<Term>,
    forms: Vec<Boxed<Form>>,
    marks: Vec<Mark>,
}

// Puts a tree on a pile.
fn put<T: Drop>(pile: &mut Vec<T>, tree: T) -> Result<(), CaseFault> {
    match pile.push(tree) {
        Ok(()) => Ok(()),
        Err(_) => Err(CaseFault::Memory),
    }
}

// The tree on top of a pile.
fn top<T>(pile: &mut Vec<T>) -> Result<T, CaseFault> {
    match pile.pop() {
        Some(tree) => Ok(tree),
        None => Err(CaseFault::Broken),
    }
}

impl Piles {
    /// No trees.
    pub(crate) fn new(alloc: Global) -> Piles {
        Piles {
            alloc,
            types: Vec::new(alloc),
            terms: Vec::new(alloc),
            forms: Vec::new(alloc),
            marks: Vec::new(alloc),
        }
    }

    fn put_mark(&mut self) -> Result<(), CaseFault> {
        let mark = Mark {
            types: self.types.len(),
            terms: self.terms.len(),
            forms: self.forms.len(),
        };
        put(&mut self.marks, mark)
    }

    // Whether so many trees of each kind came since the mark.
    fn has(&self, mark: Mark, types: usize, terms: usize, forms: usize) -> bool {
        self.types.len() == mark.types.saturating_add(types)
            && self.terms.len() == mark.terms.saturating_add(terms)
            && self.forms.len() == mark.forms.saturating_add(forms)
    }

    // The types since the mark, in order.
    fn types_since(&mut self, mark: Mark) -> Result<Tys, CaseFault> {
        let mut all = Tys::new(self.alloc);
        for _ in mark.types..self.types.len() {
            all.push(top(&mut self.types)?)?;
        }
        Ok(all)
    }

    // The terms since the mark, in order.
    fn terms_since(&mut self, mark: Mark) -> Result<Terms, CaseFault> {
        let mut all = Terms::new(self.alloc);
        for _ in mark.terms..self.terms.len() {
            all.push(top(&mut self.terms)?)?;
        }
        Ok(all)
    }

    fn put_constructor(&mut self, symbol: u32, mark: Mark) -> Result<(), CaseFault> {
        if !self.has(mark, self.types.len().saturating_sub(mark.types), 0, 0) {
            return Err(CaseFault::Broken);
        }
        let types = self.types_since(mark)?;
        put(&mut self.types, Ty::Con(SymId(symbol), types))
    }

    // A type without arguments.
    fn put_type_leaf(&mut self, leaf: Ty, mark: Mark) -> Result<(), CaseFault> {
        if !self.has(mark, 0, 0, 0) {
            return Err(CaseFault::Broken);
        }
        put(&mut self.types, leaf)
    }

    fn put_type(&mut self, head: TypeHead, mark: Mark) -> Result<(), CaseFault> {
        match head {
            TypeHead::Con(symbol) => self.put_constructor(symbol, mark),
            TypeHead::Bound(index) => self.put_type_leaf(Ty::Bound(index), mark),
            TypeHead::Param(number) => self.put_type_leaf(Ty::Param(number), mark),
            TypeHead::Meta(number) => self.put_type_leaf(Ty::Meta(number), mark),
        }
    }

    // The one type since the mark, or the type of individuals where nothing came.
    fn carried(&mut self, mark: Mark) -> Result<Ty, CaseFault> {
        if self.has(mark, 0, 0, 0) {
            return Ok(Ty::Con(SymId(0), Tys::new(self.alloc)));
        }
        if !self.has(mark, 1, 0, 0) {
            return Err(CaseFault::Broken);
        }
        top(&mut self.types)
    }

    fn put_bound(&mut self, index: u32, mark: Mark) -> Result<(), CaseFault> {
        if !self.has(mark, 0, 0, 0) {
            return Err(CaseFault::Broken);
        }
        put(&mut self.terms, Term::Bound(index))
    }

    fn put_function(&mut self, symbol: u32, mark: Mark) -> Result<(), CaseFault> {
        if self.forms.len() != mark.forms {
            return Err(CaseFault::Broken);
        }
        let types = self.types_since(mark)?;
        let terms = self.terms_since(mark)?;
        put(&mut self.terms, Term::App(SymId(symbol), types, terms))
    }

    fn put_term(&mut self, head: TermHead, mark: Mark) -> Result<(), CaseFault> {
        match head {
            TermHead::Bound(index) => self.put_bound(index, mark),
            TermHead::App(symbol) => self.put_function(symbol, mark),
            TermHead::Eps(number) => {
                let ty = self.carried(mark)?;
                put(&mut self.terms, Term::Eps(number, ty))
            }
            TermHead::Meta(number) => {
                let ty = self.carried(mark)?;
                put(&mut self.terms, Term::Meta(number, ty))
            }
        }
    }

    fn put_made(&mut self, form: Form) -> Result<(), CaseFault> {
        let boxed = Boxed::new(self.alloc, form)?;
        put(&mut self.forms, boxed)
    }

    fn put_constant(&mut self, form: Form, mark: Mark) -> Result<(), CaseFault> {
        if !self.has(mark, 0, 0, 0) {
            return Err(CaseFault::Broken);
        }
        self.put_made(form)
    }

    fn put_atom(&mut self, symbol: u32, mark: Mark) -> Result<(), CaseFault> {
        if self.forms.len() != mark.forms {
            return Err(CaseFault::Broken);
        }
        let types = self.types_since(mark)?;
        let terms = self.terms_since(mark)?;
        self.put_made(Form::Atom(SymId(symbol), types, terms))
    }

    fn sides(&mut self) -> Result<(Term, Term), CaseFault> {
        let left = top(&mut self.terms)?;
        let right = top(&mut self.terms)?;
        Ok((left, right))
    }

    fn put_equal(&mut self, mark: Mark) -> Result<(), CaseFault> {
        if !self.has(mark, 1, 2, 0) {
            return Err(CaseFault::Broken);
        }
        let ty = top(&mut self.types)?;
        let (left, right) = self.sides()?;
        self.put_made(Form::Equal(ty, left, right))
    }

    // The one formula since the mark.
    fn only_form(&mut self, mark: Mark) -> Result<Boxed<Form>, CaseFault> {
        if !self.has(mark, 0, 0, 1) {
            return Err(CaseFault::Broken);
        }
        top(&mut self.forms)
    }

    // The two formulas since the mark.
    fn two_forms(&mut self, mark: Mark) -> Result<(Boxed<Form>, Boxed<Form>), CaseFault> {
        if !self.has(mark, 0, 0, 2) {
            return Err(CaseFault::Broken);
        }
        let left = top(&mut self.forms)?;
        let right = top(&mut self.forms)?;
        Ok((left, right))
    }

    // The type and the formula since the mark.
    fn typed_form(&mut self, mark: Mark) -> Result<(Ty, Boxed<Form>), CaseFault> {
        if !self.has(mark, 1, 0, 1) {
            return Err(CaseFault::Broken);
        }
        let ty = top(&mut self.types)?;
        let form = top(&mut self.forms)?;
        Ok((ty, form))
    }

    fn put_binary(&mut self, connective: Connective, mark: Mark) -> Result<(), CaseFault> {
        let (left, right) = self.two_forms(mark)?;
        self.put_made(match connective {
            Connective::And => Form::And(left, right),
            Connective::Or => Form::Or(left, right),
            Connective::Imp => Form::Imp(left, right),
            Connective::Iff => Form::Iff(left, right),
        })
    }

    fn put_all(&mut self, mark: Mark) -> Result<(), CaseFault> {
        let (ty, form) = self.typed_form(mark)?;
        self.put_made(Form::All(ty, form))
    }

    fn put_some(&mut self, mark: Mark) -> Result<(), CaseFault> {
        let (ty, form) = self.typed_form(mark)?;
        self.put_made(Form::Ex(ty, form))
    }

    fn put_not(&mut self, mark: Mark) -> Result<(), CaseFault> {
        let form = self.only_form(mark)?;
        self.put_made(Form::Not(form))
    }

    fn put_all_types(&mut self, mark: Mark) -> Result<(), CaseFault> {
        let form = self.only_form(mark)?;
        self.put_made(Form::AllType(form))
    }

    fn put_some_type(&mut self, mark: Mark) -> Result<(), CaseFault> {
        let form = self.only_form(mark)?;
        self.put_made(Form::ExType(form))
    }

    fn put_form(&mut self, head: FormHead, mark: Mark) -> Result<(), CaseFault> {
        match head {
            FormHead::True => self.put_constant(Form::True, mark),
            FormHead::False => self.put_constant(Form::False, mark),
            FormHead::Atom(symbol) => self.put_atom(symbol, mark),
            FormHead::Equal => self.put_equal(mark),
            FormHead::Not => self.put_not(mark),
            FormHead::Binary(connective) => self.put_binary(connective, mark),
            FormHead::All => self.put_all(mark),
            FormHead::Ex => self.put_some(mark),
            FormHead::AllType => self.put_all_types(mark),
            FormHead::ExType => self.put_some_type(mark),
        }
    }

    // Makes a tree of what came since the last mark.
    fn put_tree(&mut self, head: Head) -> Result<(), CaseFault> {
        let mark = top(&mut self.marks)?;
        match head {
            Head::OfType(head) => self.put_type(head, mark),
            Head::OfTerm(head) => self.put_term(head, mark),
            Head::OfForm(head) => self.put_form(head, mark),
        }
    }

    // Marks the place below the tree on top, which a head makes that may stand often.
    fn mark_below(&mut self, head: Head) -> Result<(), CaseFault> {
        self.put_mark()?;
        let mut mark = top(&mut self.marks)?;
        match head {
            Head::OfType(TypeHead::Con(_)) => mark.types = mark.types.saturating_sub(1),
            Head::OfTerm(TermHead::App(_)) => mark.terms = mark.terms.saturating_sub(1),
            Head::OfForm(FormHead::Not) => mark.forms = mark.forms.saturating_sub(1),
            _ => return Err(CaseFault::Broken),
        }
        put(&mut self.marks, mark)
    }

    // Makes a tree of what came since the last mark, and puts the head round it so many times more.
    fn put_often(&mut self, head: Head, more: u64) -> Result<(), CaseFault> {
        self.put_tree(head)?;
        for _ in 0..more {
            self.mark_below(head)?;
            self.put_tree(head)?;
        }
        Ok(())
    }

    /// Takes the next part of a text, from its end.
    pub(crate) fn take(&mut self, token: Token) -> Result<(), CaseFault> {
        match token {
            Token::Close => self.put_mark(),
            Token::Leaf(head) => {
                self.put_mark()?;
                self.put_tree(head)
            }
            Token::Open(head, times) => self.put_often(head, times.saturating_sub(1)),
        }
    }

    // Whether nothing is left but so many trees of each kind.
    fn is_just(&self, types: usize, terms: usize, forms: usize) -> bool {
        let floor = Mark {
            types: 0,
            terms: 0,
            forms: 0,
        };
        self.marks.is_empty() && self.has(floor, types, terms, forms)
    }

    /// Whether the text is one formula.
    pub(crate) fn is_form(&self) -> bool {
        self.is_just(0, 0, 1)
    }

    /// The types that the text is, in order.
    pub(crate) fn into_types(self) -> Result<Tys, CaseFault> {
        let mut piles = self;
        if !piles.is_just(piles.types.len(), 0, 0) {
            return Err(CaseFault::Broken);
        }
        piles.types_since(Mark {
            types: 0,
            terms: 0,
            forms: 0,
        })
    }

    /// The one type that the text is.
    pub(crate) fn into_type(self) -> Result<Ty, CaseFault> {
        let mut piles = self;
        if !piles.is_just(1, 0, 0) {
            return Err(CaseFault::Broken);
        }
        top(&mut piles.types)
    }

    /// The one term that the text is.
    pub(crate) fn into_term(self) -> Result<Term, CaseFault> {
        let mut piles = self;
        if !piles.is_just(0, 1, 0) {
            return Err(CaseFault::Broken);
        }
        top(&mut piles.terms)
    }

    /// The one formula that the text is.
    pub(crate) fn into_form(self) -> Result<Boxed<Form>, CaseFault> {
        let mut piles = self;
        if !piles.is_just(0, 0, 1) {
            return Err(CaseFault::Broken);
        }
        top(&mut piles.forms)
    }
}
