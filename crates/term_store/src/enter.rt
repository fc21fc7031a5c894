ghost use Rattle.std.specs.Prelude.{◌≡◌, ◌+◌, ◌<◌, ◌≤◌, OnOk, IfOk, IfErr, length, max};
ghost use Rattle.zm_logic.specs.Measure.{type_depth, types_depth, term_depth, terms_depth, depth};
ghost use Rattle.zm_logic.specs.View.{type_tree, term_tree, form_tree, types_tree, terms_tree};
ghost use Rattle.term_store.specs.Node.{TermsBelow, terms_at};
ghost use Rattle.term_store.specs.Trees.{HasForm, form_of, HasTerm, term_of, all_trees, Extends};
ghost use Rattle.term_store.specs.Change.{IsTypeId, IsTermId, IsFormId, AreTypeIds, AreTermIds};
ghost use Rattle.zm_logic.specs.Tree as tree;
ghost use Rattle.term_store.specs.Connective.{connective_of, quantifier_of};
ghost use Rattle.term_store.specs.Fault.{IfTooDeep};

use crate::connective::{Connective, Quantifier};
use crate::fault::EnterFault;
use crate::ids::{FormId, TermId, TermIds, TyId, TyIds};
use crate::node::{FormNode, TermNode, TyNode};
use crate::store::{MAX_DEPTH, Store};
use sqlite_items::{Boxed, Items};
use zm_logic::{Form, SymId, Term, Ty};

// The room that is left below one constructor.
fn below(room: u64) -> Result<u64, EnterFault>
    ensures ok { IfOk result (λ left. left + 1 ≡ room) }
    ensures deep { IfErr result (IfTooDeep (room ≡ 0)) }
{
    match room.checked_sub(1) {
        Some(left) => Ok(left),
        None => Err(EnterFault::Deep),
    }
}

// Each of these stores a tree that is no deeper than the room, and goes no deeper into any other.
impl Store {
    #[cycle(enter_ty)]
    fn enter_ty(&mut self, ty: &Ty, room: u64) -> Result<TyId, EnterFault>
        requires { room ≤ 2000 }
        ensures made { IfOk result (IsTypeId self.new (type_tree ty.now)) }
        ensures fits { OnOk result (type_depth (type_tree ty.now) ≤ room) }
        ensures deep { IfErr result (IfTooDeep (room < type_depth (type_tree ty.now))) }
        ensures kept { Extends self.old self.new }
    {
        let left = below(room)?;
        match ty {
            Ty::Bound(index) => self.put_ty(TyNode::Bound(*index)),
            Ty::Param(number) => self.put_ty(TyNode::Param(*number)),
            Ty::Meta(number) => self.put_ty(TyNode::Meta(*number)),
            Ty::Con(symbol, types) => {
                let types = self.enter_tys(types, left)?;
                self.put_ty(TyNode::Con(*symbol, types))
            }
        }
    }

    #[cycle(enter_ty)]
    fn enter_tys(&mut self, types: &Items<Ty>, room: u64) -> Result<TyIds, EnterFault>
        requires { room ≤ 2000 }
        ensures made { IfOk result (AreTypeIds self.new (types_tree types.now)) }
        ensures fits { OnOk result (types_depth (types_tree types.now) ≤ room) }
        ensures deep { IfErr result (IfTooDeep (room < types_depth (types_tree types.now))) }
        ensures kept { Extends self.old self.new }
    {
        let mut all = TyIds::new(self.global());
        for ty in types.as_slice() {
            let id = self.enter_ty(ty, room)?;
            all.push(id)?;
        }
        Ok(all)
    }

    #[cycle(enter_within)]
    fn enter_within(&mut self, term: &Term, room: u64) -> Result<TermId, EnterFault>
        requires { room ≤ 2000 }
        ensures made { IfOk result (IsTermId self.new (term_tree term.now)) }
        ensures fits { OnOk result (term_depth (term_tree term.now) ≤ room) }
        ensures deep { IfErr result (IfTooDeep (room < term_depth (term_tree term.now))) }
        ensures kept { Extends self.old self.new }
    {
        let left = below(room)?;
        match term {
            Term::Bound(index) => self.put_term(TermNode::Bound(*index)),
            Term::Eps(number, ty) => self.enter_eps(*number, ty, left),
            Term::Meta(number, ty) => self.enter_meta(*number, ty, left),
            Term::App(symbol, types, terms) => self.enter_app(*symbol, types, terms, left),
        }
    }

    // In each of the following the room is that of the parts.
    fn enter_eps(&mut self, number: u64, ty: &Ty, room: u64) -> Result<TermId, EnterFault>
        requires { room < 2000 }
        ensures made { IfOk result (IsTermId self.new (tree.Term.eps number (type_tree ty.now))) }
        ensures fits { OnOk result (term_depth (tree.Term.eps number (type_tree ty.now)) ≤ room + 1) }
        ensures deep { IfErr result (IfTooDeep (room + 1 < term_depth (tree.Term.eps number (type_tree ty.now)))) }
        ensures kept { Extends self.old self.new }
    {
        let ty = self.enter_ty(ty, room)?;
        self.put_term(TermNode::Eps(number, ty))
    }

    fn enter_meta(&mut self, number: u64, ty: &Ty, room: u64) -> Result<TermId, EnterFault>
        requires { room < 2000 }
        ensures made { IfOk result (IsTermId self.new (tree.Term.meta number (type_tree ty.now))) }
        ensures fits { OnOk result (term_depth (tree.Term.meta number (type_tree ty.now)) ≤ room + 1) }
        ensures deep { IfErr result (IfTooDeep (room + 1 < term_depth (tree.Term.meta number (type_tree ty.now)))) }
        ensures kept { Extends self.old self.new }
    {
        let ty = self.enter_ty(ty, room)?;
        self.put_term(TermNode::Meta(number, ty))
    }

    #[cycle(enter_within)]
    fn enter_app(
        &mut self,
        symbol: SymId,
        types: &Items<Ty>,
        terms: &Items<Term>,
        room: u64,
    ) -> Result<TermId, EnterFault>
        requires { room < 2000 }
        ensures made { IfOk result (IsTermId self.new (tree.Term.app symbol.0 (types_tree types.now) (terms_tree terms.now))) }
        ensures fits { OnOk result (term_depth (tree.Term.app symbol.0 (types_tree types.now) (terms_tree terms.now)) ≤ room + 1) }
        ensures deep { IfErr result (IfTooDeep (room + 1 < term_depth (tree.Term.app symbol.0 (types_tree types.now) (terms_tree terms.now)))) }
        ensures kept { Extends self.old self.new }
    {
        let terms = self.enter_terms(terms, room)?;
        self.enter_over(symbol, types, terms, room)
    }

    // The function at types, and at terms that are entered already.
    fn enter_over(
        &mut self,
        symbol: SymId,
        types: &Items<Ty>,
        terms: TermIds,
        room: u64,
    ) -> Result<TermId, EnterFault>
        requires room { room < 2000 }
        requires below { TermsBelow (length self.old.terms) terms }
        requires fits { terms_depth (terms_at (all_trees self.old).terms terms) ≤ room }
        ensures made { IfOk result (IsTermId self.new (tree.Term.app symbol.0 (types_tree types.now) (terms_at (all_trees self.old).terms terms))) }
        ensures fits { OnOk result (types_depth (types_tree types.now) ≤ room) }
        ensures deep { IfErr result (IfTooDeep (room < types_depth (types_tree types.now))) }
        ensures kept { Extends self.old self.new }
    {
        let types = self.enter_tys(types, room)?;
        self.put_term(TermNode::App(symbol, types, terms))
    }

    // The arguments of a predicate.
    fn enter_parts(
        &mut self,
        types: &Items<Ty>,
        terms: &Items<Term>,
        room: u64,
    ) -> Result<(TyIds, TermIds), EnterFault>
        requires { room ≤ 2000 }
        ensures made { IfOk result (λ p. AreTypeIds self.new (types_tree types.now) p.0) }
        ensures made_terms { IfOk result (λ p. AreTermIds self.new (terms_tree terms.now) p.1) }
        ensures fits { OnOk result (max (types_depth (types_tree types.now)) (terms_depth (terms_tree terms.now)) ≤ room) }
        ensures deep { IfErr result (IfTooDeep (room < max (types_depth (types_tree types.now)) (terms_depth (terms_tree terms.now)))) }
        ensures kept { Extends self.old self.new }
    {
        let types = self.enter_tys(types, room)?;
        let terms = self.enter_terms(terms, room)?;
        Ok((types, terms))
    }

    #[cycle(enter_within)]
    fn enter_terms(&mut self, terms: &Items<Term>, room: u64) -> Result<TermIds, EnterFault>
        requires { room ≤ 2000 }
        ensures made { IfOk result (AreTermIds self.new (terms_tree terms.now)) }
        ensures fits { OnOk result (terms_depth (terms_tree terms.now) ≤ room) }
        ensures deep { IfErr result (IfTooDeep (room < terms_depth (terms_tree terms.now))) }
        ensures kept { Extends self.old self.new }
    {
        let mut all = TermIds::new(self.global());
        for term in terms.as_slice() {
            let id = self.enter_within(term, room)?;
            all.push(id)?;
        }
        Ok(all)
    }

    fn enter_sides(
        &mut self,
        ty: &Ty,
        left: &Term,
        right: &Term,
        room: u64,
    ) -> Result<(TyId, TermId, TermId), EnterFault>
        requires { room ≤ 2000 }
        ensures made { IfOk result (λ p. IsTypeId self.new (type_tree ty.now) p.0) }
        ensures made_left { IfOk result (λ p. IsTermId self.new (term_tree left.now) p.1) }
        ensures made_right { IfOk result (λ p. IsTermId self.new (term_tree right.now) p.2) }
        ensures fits { OnOk result (max (type_depth (type_tree ty.now)) (max (term_depth (term_tree left.now)) (term_depth (term_tree right.now))) ≤ room) }
        ensures deep { IfErr result (IfTooDeep (room < max (type_depth (type_tree ty.now)) (max (term_depth (term_tree left.now)) (term_depth (term_tree right.now))))) }
        ensures kept { Extends self.old self.new }
    {
        let ty = self.enter_ty(ty, room)?;
        let left = self.enter_within(left, room)?;
        let right = self.enter_within(right, room)?;
        Ok((ty, left, right))
    }

    #[cycle(enter_form)]
    fn enter_form(&mut self, form: &Form, room: u64) -> Result<FormId, EnterFault>
        requires { room ≤ 2000 }
        ensures made { IfOk result (IsFormId self.new (form_tree form.now)) }
        ensures fits { OnOk result (depth (form_tree form.now) ≤ room) }
        ensures deep { IfErr result (IfTooDeep (room < depth (form_tree form.now))) }
        ensures kept { Extends self.old self.new }
    {
        let left = below(room)?;
        match form {
            Form::True => self.put_form(FormNode::True),
            Form::False => self.put_form(FormNode::False),
            Form::Atom(symbol, types, terms) => self.enter_atom(*symbol, types, terms, left),
            Form::Equal(ty, one, other) => self.enter_equal(ty, one, other, left),
            Form::Not(f) => self.enter_not(f, left),
            Form::And(f, g) => self.enter_binary(Connective::And, f, g, left),
            Form::Or(f, g) => self.enter_binary(Connective::Or, f, g, left),
            Form::Imp(f, g) => self.enter_binary(Connective::Imp, f, g, left),
            Form::Iff(f, g) => self.enter_binary(Connective::Iff, f, g, left),
            Form::All(ty, f) => self.enter_quantified(Quantifier::All, ty, f, left),
            Form::Ex(ty, f) => self.enter_quantified(Quantifier::Ex, ty, f, left),
            Form::AllType(f) => self.enter_quantified_types(Quantifier::All, f, left),
            Form::ExType(f) => self.enter_quantified_types(Quantifier::Ex, f, left),
        }
    }

    // In each of the following the room is that of the parts.
    fn enter_atom(
        &mut self,
        symbol: SymId,
        types: &Items<Ty>,
        terms: &Items<Term>,
        room: u64,
    ) -> Result<FormId, EnterFault>
        requires { room < 2000 }
        ensures made { IfOk result (IsFormId self.new (tree.Form.atom symbol.0 (types_tree types.now) (terms_tree terms.now))) }
        ensures fits { OnOk result (depth (tree.Form.atom symbol.0 (types_tree types.now) (terms_tree terms.now)) ≤ room + 1) }
        ensures deep { IfErr result (IfTooDeep (room + 1 < depth (tree.Form.atom symbol.0 (types_tree types.now) (terms_tree terms.now)))) }
        ensures kept { Extends self.old self.new }
    {
        let (types, terms) = self.enter_parts(types, terms, room)?;
        self.put_form(FormNode::Atom(symbol, types, terms))
    }

    fn enter_equal(
        &mut self,
        ty: &Ty,
        left: &Term,
        right: &Term,
        room: u64,
    ) -> Result<FormId, EnterFault>
        requires { room < 2000 }
        ensures made { IfOk result (IsFormId self.new (tree.Form.equal (type_tree ty.now) (term_tree left.now) (term_tree right.now))) }
        ensures fits { OnOk result (depth (tree.Form.equal (type_tree ty.now) (term_tree left.now) (term_tree right.now)) ≤ room + 1) }
        ensures deep { IfErr result (IfTooDeep (room + 1 < depth (tree.Form.equal (type_tree ty.now) (term_tree left.now) (term_tree right.now)))) }
        ensures kept { Extends self.old self.new }
    {
        let (ty, left, right) = self.enter_sides(ty, left, right, room)?;
        self.put_form(FormNode::Equal(ty, left, right))
    }

    #[cycle(enter_form)]
    fn enter_not(&mut self, f: &Boxed<Form>, room: u64) -> Result<FormId, EnterFault>
        requires { room < 2000 }
        ensures made { IfOk result (IsFormId self.new (tree.Form.negation (form_tree f.now))) }
        ensures fits { OnOk result (depth (tree.Form.negation (form_tree f.now)) ≤ room + 1) }
        ensures deep { IfErr result (IfTooDeep (room + 1 < depth (tree.Form.negation (form_tree f.now)))) }
        ensures kept { Extends self.old self.new }
    {
        let f = self.enter_form(f.get(), room)?;
        self.put_not(f)
    }

    #[cycle(enter_form)]
    fn enter_binary(
        &mut self,
        connective: Connective,
        f: &Boxed<Form>,
        g: &Boxed<Form>,
        room: u64,
    ) -> Result<FormId, EnterFault>
        requires { room < 2000 }
        ensures made { IfOk result (IsFormId self.new (tree.Form.binary (connective_of connective) (form_tree f.now) (form_tree g.now))) }
        ensures fits { OnOk result (depth (tree.Form.binary (connective_of connective) (form_tree f.now) (form_tree g.now)) ≤ room + 1) }
        ensures deep { IfErr result (IfTooDeep (room + 1 < depth (tree.Form.binary (connective_of connective) (form_tree f.now) (form_tree g.now)))) }
        ensures kept { Extends self.old self.new }
    {
        let (f, g) = self.enter_two(f, g, room)?;
        self.put_binary(connective, f, g)
    }

    #[cycle(enter_form)]
    fn enter_quantified(
        &mut self,
        quantifier: Quantifier,
        ty: &Ty,
        f: &Boxed<Form>,
        room: u64,
    ) -> Result<FormId, EnterFault>
        requires { room < 2000 }
        ensures made { IfOk result (IsFormId self.new (tree.Form.quantified (quantifier_of quantifier) (type_tree ty.now) (form_tree f.now))) }
        ensures fits { OnOk result (depth (tree.Form.quantified (quantifier_of quantifier) (type_tree ty.now) (form_tree f.now)) ≤ room + 1) }
        ensures deep { IfErr result (IfTooDeep (room + 1 < depth (tree.Form.quantified (quantifier_of quantifier) (type_tree ty.now) (form_tree f.now)))) }
        ensures kept { Extends self.old self.new }
    {
        let (ty, f) = self.enter_body(ty, f, room)?;
        self.put_quantified(quantifier, ty, f)
    }

    #[cycle(enter_form)]
    fn enter_quantified_types(
        &mut self,
        quantifier: Quantifier,
        f: &Boxed<Form>,
        room: u64,
    ) -> Result<FormId, EnterFault>
        requires { room < 2000 }
        ensures made { IfOk result (IsFormId self.new (tree.Form.quantified_types (quantifier_of quantifier) (form_tree f.now))) }
        ensures fits { OnOk result (depth (tree.Form.quantified_types (quantifier_of quantifier) (form_tree f.now)) ≤ room + 1) }
        ensures deep { IfErr result (IfTooDeep (room + 1 < depth (tree.Form.quantified_types (quantifier_of quantifier) (form_tree f.now)))) }
        ensures kept { Extends self.old self.new }
    {
        let f = self.enter_form(f.get(), room)?;
        self.put_quantified_types(quantifier, f)
    }

    #[cycle(enter_form)]
    fn enter_two(
        &mut self,
        f: &Boxed<Form>,
        g: &Boxed<Form>,
        room: u64,
    ) -> Result<(FormId, FormId), EnterFault>
        requires { room ≤ 2000 }
        ensures made { IfOk result (λ p. IsFormId self.new (form_tree f.now) p.0) }
        ensures made_other { IfOk result (λ p. IsFormId self.new (form_tree g.now) p.1) }
        ensures fits { OnOk result (max (depth (form_tree f.now)) (depth (form_tree g.now)) ≤ room) }
        ensures deep { IfErr result (IfTooDeep (room < max (depth (form_tree f.now)) (depth (form_tree g.now)))) }
        ensures kept { Extends self.old self.new }
    {
        let f = self.enter_form(f.get(), room)?;
        let g = self.enter_form(g.get(), room)?;
        Ok((f, g))
    }

    #[cycle(enter_form)]
    fn enter_body(
        &mut self,
        ty: &Ty,
        f: &Boxed<Form>,
        room: u64,
    ) -> Result<(TyId, FormId), EnterFault>
        requires { room ≤ 2000 }
        ensures made { IfOk result (λ p. IsTypeId self.new (type_tree ty.now) p.0) }
        ensures made_body { IfOk result (λ p. IsFormId self.new (form_tree f.now) p.1) }
        ensures fits { OnOk result (max (type_depth (type_tree ty.now)) (depth (form_tree f.now)) ≤ room) }
        ensures deep { IfErr result (IfTooDeep (room < max (type_depth (type_tree ty.now)) (depth (form_tree f.now)))) }
        ensures kept { Extends self.old self.new }
    {
        let ty = self.enter_ty(ty, room)?;
        let f = self.enter_form(f.get(), room)?;
        Ok((ty, f))
    }

    /// The id of a formula. `Deep` comes exactly where it is deeper than 2,000. After an error more nodes may stand in
    /// the store.
    pub fn enter(&mut self, form: &Form) -> Result<FormId, EnterFault>
        ensures has { IfOk result (HasForm self.new) }
        ensures tree { IfOk result (λ id. form_of self.new id ≡ form_tree form.now) }
        ensures kept { Extends self.old self.new }
        ensures bounded { OnOk result (depth (form_tree form.now) ≤ 2000) }
        ensures deep { IfErr result (IfTooDeep (2000 < depth (form_tree form.now))) }
    {
        self.enter_form(form, MAX_DEPTH)
    }

    /// The id of a term. `Deep` comes exactly where it is deeper than 2,000. After an error more nodes may stand in the
    /// store.
    pub fn enter_term(&mut self, term: &Term) -> Result<TermId, EnterFault>
        ensures has { IfOk result (HasTerm self.new) }
        ensures tree { IfOk result (λ id. term_of self.new id ≡ term_tree term.now) }
        ensures kept { Extends self.old self.new }
        ensures bounded { OnOk result (term_depth (term_tree term.now) ≤ 2000) }
        ensures deep { IfErr result (IfTooDeep (2000 < term_depth (term_tree term.now))) }
    {
        self.enter_within(term, MAX_DEPTH)
    }
}
