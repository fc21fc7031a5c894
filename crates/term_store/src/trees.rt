ghost use Rattle.std.specs.Prelude.{◌≡◌, IfOk, length};
ghost use Rattle.zm_logic.specs.View.{type_tree, term_tree, form_tree, types_tree, terms_tree};
ghost use Rattle.zm_logic.specs.Tree as tree;
ghost use Rattle.term_store.specs.Connective.{connective_of, quantifier_of};
ghost use Rattle.term_store.specs.Node.{TypesBelow, TermsBelow, types_at, terms_at};
ghost use Rattle.term_store.specs.Trees.{HasType, type_of, HasTerm, term_of, HasForm, form_of, all_trees};

use crate::connective::{Connective, Quantifier};
use crate::ids::{FormId, TermId, TermIds, TyId, TyIds};
use crate::node::{FormNode, TermNode, TyNode};
use crate::store::Store;
use sqlite_items::Boxed;
use std::alloc::{AllocError, Global};
use zm_logic::{Form, SymId, Term, Terms, Ty, Tys};

impl Store {
    /// The tree of a type's id. The one error is want of memory.
    #[cycle(ty_tree)]
    pub fn ty_tree(&self, id: TyId) -> Result<Ty, AllocError>
        requires { HasType self.now id }
        ensures { IfOk result (λ t. type_tree t ≡ type_of self.now id) }
    {
        Ok(match self.ty_node(id) {
            TyNode::Bound(index) => Ty::Bound(*index),
            TyNode::Param(number) => Ty::Param(*number),
            TyNode::Meta(number) => Ty::Meta(*number),
            TyNode::Con(symbol, types) => Ty::Con(*symbol, self.ty_trees(types)?),
        })
    }

    #[cycle(ty_tree)]
    fn ty_trees(&self, ids: &TyIds) -> Result<Tys, AllocError>
        requires { TypesBelow (length self.now.types) ids.now }
        ensures { IfOk result (λ ts. types_tree ts ≡ types_at (all_trees self.now).types ids.now) }
    {
        let mut all = Tys::new(self.global());
        for id in ids.as_slice() {
            all.push(self.ty_tree(*id)?)?;
        }
        Ok(all)
    }

    /// The tree of a term's id. The one error is want of memory.
    #[cycle(term_tree)]
    pub fn term_tree(&self, id: TermId) -> Result<Term, AllocError>
        requires { HasTerm self.now id }
        ensures { IfOk result (λ u. term_tree u ≡ term_of self.now id) }
    {
        Ok(match self.term_node(id) {
            TermNode::Bound(index) => Term::Bound(*index),
            TermNode::Eps(number, ty) => Term::Eps(*number, self.ty_tree(*ty)?),
            TermNode::Meta(number, ty) => Term::Meta(*number, self.ty_tree(*ty)?),
            TermNode::App(symbol, types, terms) => {
                Term::App(*symbol, self.ty_trees(types)?, self.term_trees(terms)?)
            }
        })
    }

    #[cycle(term_tree)]
    fn term_trees(&self, ids: &TermIds) -> Result<Terms, AllocError>
        requires { TermsBelow (length self.now.terms) ids.now }
        ensures { IfOk result (λ us. terms_tree us ≡ terms_at (all_trees self.now).terms ids.now) }
    {
        let mut all = Terms::new(self.global());
        for id in ids.as_slice() {
            all.push(self.term_tree(*id)?)?;
        }
        Ok(all)
    }

    /// The tree of a formula's id. The one error is want of memory.
    pub fn form_tree(&self, id: FormId) -> Result<Form, AllocError>
        requires { HasForm self.now id }
        ensures { IfOk result (λ f. form_tree f ≡ form_of self.now id) }
    {
        Ok(self.boxed_tree(id)?.into_inner())
    }

    #[cycle(boxed_tree)]
    fn boxed_tree(&self, id: FormId) -> Result<Boxed<Form>, AllocError>
        requires { HasForm self.now id }
        ensures { IfOk result (λ f. form_tree f ≡ form_of self.now id) }
    {
        match self.form_node(id) {
            FormNode::True => boxed(self.global(), Form::True),
            FormNode::False => boxed(self.global(), Form::False),
            FormNode::Atom(symbol, types, terms) => self.atom_tree(*symbol, types, terms),
            FormNode::Equal(ty, left, right) => self.equal_tree(*ty, *left, *right),
            FormNode::Not(f) => self.not_tree(*f),
            FormNode::And(f, g) => self.binary_tree(Connective::And, *f, *g),
            FormNode::Or(f, g) => self.binary_tree(Connective::Or, *f, *g),
            FormNode::Imp(f, g) => self.binary_tree(Connective::Imp, *f, *g),
            FormNode::Iff(f, g) => self.binary_tree(Connective::Iff, *f, *g),
            FormNode::All(ty, f) => self.quantified_tree(Quantifier::All, *ty, *f),
            FormNode::Ex(ty, f) => self.quantified_tree(Quantifier::Ex, *ty, *f),
            FormNode::AllType(f) => self.quantified_types_tree(Quantifier::All, *f),
            FormNode::ExType(f) => self.quantified_types_tree(Quantifier::Ex, *f),
        }
    }

    fn atom_tree(
        &self,
        symbol: SymId,
        types: &TyIds,
        terms: &TermIds,
    ) -> Result<Boxed<Form>, AllocError>
        requires below { TypesBelow (length self.now.types) types.now }
        requires terms_below { TermsBelow (length self.now.terms) terms.now }
        ensures { IfOk result (λ f. form_tree f ≡ tree.Form.atom symbol.0 (types_at (all_trees self.now).types types.now) (terms_at (all_trees self.now).terms terms.now)) }
    {
        let types = self.ty_trees(types)?;
        let terms = self.term_trees(terms)?;
        boxed(self.global(), Form::Atom(symbol, types, terms))
    }

    fn equal_tree(&self, ty: TyId, left: TermId, right: TermId) -> Result<Boxed<Form>, AllocError>
        requires has { HasType self.now ty }
        requires has_left { HasTerm self.now left }
        requires has_right { HasTerm self.now right }
        ensures { IfOk result (λ f. form_tree f ≡ tree.Form.equal (type_of self.now ty) (term_of self.now left) (term_of self.now right)) }
    {
        let ty = self.ty_tree(ty)?;
        let left = self.term_tree(left)?;
        let right = self.term_tree(right)?;
        boxed(self.global(), Form::Equal(ty, left, right))
    }

    #[cycle(boxed_tree)]
    fn not_tree(&self, f: FormId) -> Result<Boxed<Form>, AllocError>
        requires { HasForm self.now f }
        ensures { IfOk result (λ g. form_tree g ≡ tree.Form.negation (form_of self.now f)) }
    {
        let f = self.boxed_tree(f)?;
        boxed(self.global(), Form::Not(f))
    }

    #[cycle(boxed_tree)]
    fn binary_tree(
        &self,
        connective: Connective,
        f: FormId,
        g: FormId,
    ) -> Result<Boxed<Form>, AllocError>
        requires has { HasForm self.now f }
        requires has_other { HasForm self.now g }
        ensures { IfOk result (λ h. form_tree h ≡ tree.Form.binary (connective_of connective) (form_of self.now f) (form_of self.now g)) }
    {
        let f = self.boxed_tree(f)?;
        let g = self.boxed_tree(g)?;
        joined(self.global(), connective, f, g)
    }

    #[cycle(boxed_tree)]
    fn quantified_tree(
        &self,
        quantifier: Quantifier,
        ty: TyId,
        f: FormId,
    ) -> Result<Boxed<Form>, AllocError>
        requires has { HasType self.now ty }
        requires has_body { HasForm self.now f }
        ensures { IfOk result (λ h. form_tree h ≡ tree.Form.quantified (quantifier_of quantifier) (type_of self.now ty) (form_of self.now f)) }
    {
        let f = self.boxed_tree(f)?;
        let ty = self.ty_tree(ty)?;
        bound(self.global(), quantifier, ty, f)
    }

    #[cycle(boxed_tree)]
    fn quantified_types_tree(
        &self,
        quantifier: Quantifier,
        f: FormId,
    ) -> Result<Boxed<Form>, AllocError>
        requires { HasForm self.now f }
        ensures { IfOk result (λ g. form_tree g ≡ tree.Form.quantified_types (quantifier_of quantifier) (form_of self.now f)) }
    {
        let f = self.boxed_tree(f)?;
        bound_types(self.global(), quantifier, f)
    }
}

fn boxed(alloc: Global, form: Form) -> Result<Boxed<Form>, AllocError>
    ensures { IfOk result (λ f. f ≡ form) }
{
    Boxed::new(alloc, form)
}

fn joined(
    alloc: Global,
    connective: Connective,
    f: Boxed<Form>,
    g: Boxed<Form>,
) -> Result<Boxed<Form>, AllocError>
    ensures { IfOk result (λ h. form_tree h ≡ tree.Form.binary (connective_of connective) (form_tree f) (form_tree g)) }
{
    boxed(
        alloc,
        match connective {
            Connective::And => Form::And(f, g),
            Connective::Or => Form::Or(f, g),
            Connective::Imp => Form::Imp(f, g),
            Connective::Iff => Form::Iff(f, g),
        },
    )
}

fn bound(
    alloc: Global,
    quantifier: Quantifier,
    ty: Ty,
    f: Boxed<Form>,
) -> Result<Boxed<Form>, AllocError>
    ensures { IfOk result (λ h. form_tree h ≡ tree.Form.quantified (quantifier_of quantifier) (type_tree ty) (form_tree f)) }
{
    boxed(
        alloc,
        match quantifier {
            Quantifier::All => Form::All(ty, f),
            Quantifier::Ex => Form::Ex(ty, f),
        },
    )
}

fn bound_types(
    alloc: Global,
    quantifier: Quantifier,
    f: Boxed<Form>,
) -> Result<Boxed<Form>, AllocError>
    ensures { IfOk result (λ h. form_tree h ≡ tree.Form.quantified_types (quantifier_of quantifier) (form_tree f)) }
{
    boxed(
        alloc,
        match quantifier {
            Quantifier::All => Form::AllType(f),
            Quantifier::Ex => Form::ExType(f),
        },
    )
}
