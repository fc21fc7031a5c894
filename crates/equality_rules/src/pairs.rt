ghost use Rattle.std.specs.Prelude.{◌≡◌, ◌≢◌, ◌≤◌, true, false, cond, Some, None, List, map, OnOk, IfOk, IfErr, IfSome, IfNone};
ghost use Rattle.std.specs.Option.{option_map};
ghost use Rattle.zm_logic.specs.Tree as tree;
ghost use Rattle.zm_logic.specs.View.{symbol_tree};
ghost use Rattle.term_store.specs.Trees.{Extends, HasForm, HasTerm, form_of, term_of};
ghost use Rattle.unify.specs.Binding.{Binding};
ghost use Rattle.unify.specs.Unification.{UnifiesForms, UnifiesTerms};
ghost use Rattle.param_store.specs.RawOffers.{Raw};
ghost use Rattle.param_store.specs.Depth.{deepest};
ghost use Rattle.param_store.specs.Fault.{IfDeepAt};
ghost use Rattle.param_store.specs.View.{AreRaws, HasForms, forms_of};
ghost use Rattle.equality_rules.specs.Pairs as tests;
ghost use Rattle.equality_rules.specs.Pairs.{PairOffers, SingleOffers, FormInstances, TermInstances, FormsDiffer, TermsDiffer};
ghost use Rattle.equality_rules.specs.Refused.{AreBounded, AreRefused, PairIsBounded, PairIsRefused, SingleIsBounded, SingleIsRefused};
ghost use Rattle.equality_rules.specs.Offered.{IsRefused, HasSides, sides, sides_of, fault_of as fault_from};

use crate::instances::instances;
use param_store::{OfferFault, Params, RawOffers};
use sqlite_items::Items;
use std::alloc::Global;
use term_store::{FormId, FormNode, Redex, Store, TermId};
use unify::{MguFault, mgu, mgu_terms};
use zm_logic::Symbols;

// The formula that is denied, where the formula is a negation.
fn denied(store: &Store, form: FormId) -> Option<FormId>
    requires { HasForm store.now form }
    ensures has { IfSome result (HasForm store.now) }
    ensures value { option_map (form_of store.now) result ≡ tests.denied_of (form_of store.now form) }
{
    match store.form_node(form) {
        FormNode::Not(inside) => Some(*inside),
        FormNode::True
        | FormNode::False
        | FormNode::Atom(_, _, _)
        | FormNode::Equal(_, _, _)
        | FormNode::And(_, _)
        | FormNode::Or(_, _)
        | FormNode::Imp(_, _)
        | FormNode::Iff(_, _)
        | FormNode::All(_, _)
        | FormNode::Ex(_, _)
        | FormNode::AllType(_)
        | FormNode::ExType(_) => None,
    }
}

fn is_atom(store: &Store, form: FormId) -> bool
    requires { HasForm store.now form }
    ensures { result ≡ tests.is_atom (form_of store.now form) }
{
    match store.form_node(form) {
        FormNode::Atom(_, _, _) => true,
        FormNode::True
        | FormNode::False
        | FormNode::Equal(_, _, _)
        | FormNode::Not(_)
        | FormNode::And(_, _)
        | FormNode::Or(_, _)
        | FormNode::Imp(_, _)
        | FormNode::Iff(_, _)
        | FormNode::All(_, _)
        | FormNode::Ex(_, _)
        | FormNode::AllType(_)
        | FormNode::ExType(_) => false,
    }
}

fn is_equality(store: &Store, form: FormId) -> bool
    requires { HasForm store.now form }
    ensures { result ≡ tests.is_equality (form_of store.now form) }
{
    match store.form_node(form) {
        FormNode::Equal(_, _, _) => true,
        FormNode::True
        | FormNode::False
        | FormNode::Atom(_, _, _)
        | FormNode::Not(_)
        | FormNode::And(_, _)
        | FormNode::Or(_, _)
        | FormNode::Imp(_, _)
        | FormNode::Iff(_, _)
        | FormNode::All(_, _)
        | FormNode::Ex(_, _)
        | FormNode::AllType(_)
        | FormNode::ExType(_) => false,
    }
}

// Whether both are atoms, or both are equalities.
fn alike(store: &Store, left: FormId, right: FormId) -> bool
    requires has { HasForm store.now left }
    requires has_right { HasForm store.now right }
    ensures { result ≡ tests.alike (form_of store.now left) (form_of store.now right) }
{
    (is_atom(store, left) && is_atom(store, right))
        || (is_equality(store, left) && is_equality(store, right))
}

// The two, where they are alike.
fn pair(store: &Store, left: FormId, right: FormId) -> Option<(FormId, FormId)>
    requires has { HasForm store.now left }
    requires has_right { HasForm store.now right }
    ensures { result ≡ cond (tests.alike (form_of store.now left) (form_of store.now right)) (Some (left, right)) None }
{
    if alike(store, left, right) {
        Some((left, right))
    } else {
        None
    }
}

// The two sides of a unifier, in the order of the branch: an atom or an equality, and what is negated.
fn opposites(store: &Store, earlier: FormId, later: FormId) -> Option<(FormId, FormId)>
    requires has { HasForm store.now earlier }
    requires has_later { HasForm store.now later }
    ensures has { IfSome result (HasSides store.now) }
    ensures value { option_map (sides_of store.now) result ≡ option_map sides (tests.opposites (form_of store.now earlier) (form_of store.now later)) }
{
    match (denied(store, earlier), denied(store, later)) {
        (Some(inside), None) => pair(store, inside, later),
        (None, Some(inside)) => pair(store, earlier, inside),
        (None, None) | (Some(_), Some(_)) => None,
    }
}

// The fault of a unifier that is too deep.
fn fault_of(fault: MguFault) -> OfferFault
    ensures { result ≡ fault_from fault }
{
    match fault {
        MguFault::Memory => OfferFault::Memory,
        MguFault::Deep { at } => OfferFault::Deep {
            at: Redex::OfTerm(at),
        },
    }
}

// The instances of two atoms, or of two equalities.
fn form_instances(
    alloc: Global,
    store: &mut Store,
    symbols: &Symbols,
    params: &Params,
    left: FormId,
    right: FormId,
) -> Result<RawOffers, OfferFault>
    requires has { HasForm store.old left }
    requires has_right { HasForm store.old right }
    requires alike { tests.alike (form_of store.old left) (form_of store.old right) ≡ true }
    requires numbered { HasForms store.old params.now }
    ensures offers { IfOk result (λ rs. (os : List Raw) × FormInstances (map symbol_tree symbols.now) (forms_of store.old params.now) (form_of store.old left) (form_of store.old right) os × (deepest os ≤ 2000) × AreRaws store.new os rs) }
    ensures bounded { OnOk result ((made : List Binding) → UnifiesForms (form_of store.old left) (form_of store.old right) made → AreBounded made) }
    ensures deep { IfErr result (IfDeepAt (IsRefused store.new (AreRefused (map symbol_tree symbols.now) (forms_of store.old params.now) (UnifiesForms (form_of store.old left) (form_of store.old right)) (FormsDiffer (form_of store.old left) (form_of store.old right))))) }
    ensures kept { Extends store.old store.new }
{
    match mgu(alloc, store, left, right) {
        Ok(Some(bindings)) => instances(alloc, store, symbols, params, bindings.as_slice()),
        Ok(None) => Ok(Items::new(alloc)),
        Err(fault) => Err(fault_of(fault)),
    }
}

// The instances of two terms.
fn term_instances(
    alloc: Global,
    store: &mut Store,
    symbols: &Symbols,
    params: &Params,
    left: TermId,
    right: TermId,
) -> Result<RawOffers, OfferFault>
    requires has { HasTerm store.old left }
    requires has_right { HasTerm store.old right }
    requires numbered { HasForms store.old params.now }
    ensures offers { IfOk result (λ rs. (os : List Raw) × TermInstances (map symbol_tree symbols.now) (forms_of store.old params.now) (term_of store.old left) (term_of store.old right) os × (deepest os ≤ 2000) × AreRaws store.new os rs) }
    ensures bounded { OnOk result ((made : List Binding) → UnifiesTerms (term_of store.old left) (term_of store.old right) made → AreBounded made) }
    ensures deep { IfErr result (IfDeepAt (IsRefused store.new (AreRefused (map symbol_tree symbols.now) (forms_of store.old params.now) (UnifiesTerms (term_of store.old left) (term_of store.old right)) (TermsDiffer (term_of store.old left) (term_of store.old right))))) }
    ensures kept { Extends store.old store.new }
{
    match mgu_terms(alloc, store, left, right) {
        Ok(Some(bindings)) => instances(alloc, store, symbols, params, bindings.as_slice()),
        Ok(None) => Ok(Items::new(alloc)),
        Err(fault) => Err(fault_of(fault)),
    }
}

/// What an earlier and a later formula of a branch give together, before normalising: of an atom or an equality and the
/// negation of another one, either way round, the instances for the bindings of the unifier of the earlier one's atom or
/// equality and the later one's, in the order in which these were made. A binding of a type always gives an instance,
/// and a binding of a term one where the term, with all bindings put in, is well typed and has the metavariable's type.
///
/// `params` has the number of each metavariable of the two formulas. The condition is that no unnegated equality is on
/// the branch, so that there are no steps of equality.
///
/// `Deep` names the first binding that is deeper than 2,000, as `mgu` does. Where there is none it names the quantified
/// formula of the first instance that is deeper. After an error more nodes may stand in the store.
pub fn pair_offers(
    alloc: Global,
    store: &mut Store,
    symbols: &Symbols,
    params: &Params,
    earlier: FormId,
    later: FormId,
    equality: bool,
) -> Result<RawOffers, OfferFault>
    requires has { HasForm store.old earlier }
    requires has_later { HasForm store.old later }
    requires numbered { HasForms store.old params.now }
    requires no_equality { equality ≡ false }
    ensures offers { IfOk result (λ rs. (os : List Raw) × PairOffers (map symbol_tree symbols.now) (forms_of store.old params.now) equality (form_of store.old earlier) (form_of store.old later) os × (deepest os ≤ 2000) × AreRaws store.new os rs) }
    ensures bounded { OnOk result (PairIsBounded (form_of store.old earlier) (form_of store.old later)) }
    ensures deep { IfErr result (IfDeepAt (IsRefused store.new (PairIsRefused (map symbol_tree symbols.now) (forms_of store.old params.now) equality (form_of store.old earlier) (form_of store.old later)))) }
    ensures kept { Extends store.old store.new }
{
    let _ = equality;
    match opposites(store, earlier, later) {
        Some((left, right)) => form_instances(alloc, store, symbols, params, left, right),
        None => Ok(Items::new(alloc)),
    }
}

// The two sides of a negated equality.
fn inequation(store: &Store, form: FormId) -> Option<(TermId, TermId)>
    requires { HasForm store.now form }
    ensures has { IfSome result (λ p. HasTerm store.now p.0 × HasTerm store.now p.1) }
    ensures some { IfSome result (λ p. (t : tree.Ty) × (form_of store.now form ≡ tree.differ t (term_of store.now p.0) (term_of store.now p.1))) }
    ensures none { IfNone result ((t : tree.Ty) (u v : tree.Term) → form_of store.now form ≢ tree.differ t u v) }
{
    match store.form_node(denied(store, form)?) {
        FormNode::Equal(_, left, right) => Some((*left, *right)),
        FormNode::True
        | FormNode::False
        | FormNode::Atom(_, _, _)
        | FormNode::Not(_)
        | FormNode::And(_, _)
        | FormNode::Or(_, _)
        | FormNode::Imp(_, _)
        | FormNode::Iff(_, _)
        | FormNode::All(_, _)
        | FormNode::Ex(_, _)
        | FormNode::AllType(_)
        | FormNode::ExType(_) => None,
    }
}

/// What a formula gives beyond its rule, before normalising: of a negated equality the instances for the bindings of the
/// unifier of its two sides, chosen as in `pair_offers`, with the same condition and the same faults.
pub fn single_offers(
    alloc: Global,
    store: &mut Store,
    symbols: &Symbols,
    params: &Params,
    form: FormId,
    equality: bool,
) -> Result<RawOffers, OfferFault>
    requires has { HasForm store.old form }
    requires numbered { HasForms store.old params.now }
    requires no_equality { equality ≡ false }
    ensures offers { IfOk result (λ rs. (os : List Raw) × SingleOffers (map symbol_tree symbols.now) (forms_of store.old params.now) equality (form_of store.old form) os × (deepest os ≤ 2000) × AreRaws store.new os rs) }
    ensures bounded { OnOk result (SingleIsBounded (form_of store.old form)) }
    ensures deep { IfErr result (IfDeepAt (IsRefused store.new (SingleIsRefused (map symbol_tree symbols.now) (forms_of store.old params.now) equality (form_of store.old form)))) }
    ensures kept { Extends store.old store.new }
{
    let _ = equality;
    match inequation(store, form) {
        Some((left, right)) => term_instances(alloc, store, symbols, params, left, right),
        None => Ok(Items::new(alloc)),
    }
}
