ghost use Rattle.std.specs.Prelude.{◌≡◌, IfSome};
ghost use Rattle.std.specs.Option.{option_map};
ghost use Rattle.zm_logic.specs.Tree as tree;
ghost use Rattle.term_store.specs.Trees.{HasForm, form_of};
ghost use Rattle.param_store.specs.RawOffers as raw;
ghost use Rattle.param_store.specs.declared.quantified.Binder.TheVariants.{OfType, OfTerm};
ghost use Rattle.param_store.specs.View.{quantified_of, HasQuantified};

use term_store::{FormId, FormNode, Store, TyId};

/// With what a quantified formula is opened.
#[derive(Clone, Copy, Debug, PartialEq, Eq)]
pub enum QuantifierKind {
    /// With a parameter of its own, once: `? x F` and `~ ! x F`, also over types.
    Delta,
    /// With its metavariable, and with instances: `! x F` and `~ ? x F`, also over types.
    Gamma,
}

/// What a quantifier binds.
#[derive(Clone, Copy, Debug, PartialEq, Eq)]
pub enum Binder {
    /// A variable for types.
    OfType,
    /// A variable for terms of a type.
    OfTerm(TyId),
}

/// A quantified formula, or its negation.
#[derive(Clone, Copy, Debug, PartialEq, Eq)]
pub struct Quantified {
    pub kind: QuantifierKind,
    pub binder: Binder,
    /// Whether the formula is the quantified one itself, and not its negation.
    pub holds: bool,
    /// What stands behind the quantifier.
    pub body: FormId,
}

// A quantified formula whose quantifier binds terms of a type.
fn over_terms(kind: QuantifierKind, ty: TyId, holds: bool, body: FormId) -> Quantified
    ensures kind { result.kind ≡ kind }
    ensures binder { result.binder ≡ OfTerm ty }
    ensures holds { result.holds ≡ holds }
    ensures body { result.body ≡ body }
{
    Quantified {
        kind,
        binder: Binder::OfTerm(ty),
        holds,
        body,
    }
}

// A quantified formula whose quantifier binds types.
fn over_types(kind: QuantifierKind, holds: bool, body: FormId) -> Quantified
    ensures kind { result.kind ≡ kind }
    ensures binder { result.binder ≡ OfType }
    ensures holds { result.holds ≡ holds }
    ensures body { result.body ≡ body }
{
    Quantified {
        kind,
        binder: Binder::OfType,
        holds,
        body,
    }
}

// The negation of a formula, as a quantified formula.
fn as_denied(store: &Store, form: FormId) -> Option<Quantified>
    requires { HasForm store.now form }
    ensures has { IfSome result (HasQuantified store.now) }
    ensures value { option_map (quantified_of store.now) result ≡ raw.quantified (tree.Form.negation (form_of store.now form)) }
{
    match store.form_node(form) {
        FormNode::All(ty, body) => Some(over_terms(QuantifierKind::Delta, *ty, false, *body)),
        FormNode::Ex(ty, body) => Some(over_terms(QuantifierKind::Gamma, *ty, false, *body)),
        FormNode::AllType(body) => Some(over_types(QuantifierKind::Delta, false, *body)),
        FormNode::ExType(body) => Some(over_types(QuantifierKind::Gamma, false, *body)),
        FormNode::True
        | FormNode::False
        | FormNode::Atom(_, _, _)
        | FormNode::Equal(_, _, _)
        | FormNode::Not(_)
        | FormNode::And(_, _)
        | FormNode::Or(_, _)
        | FormNode::Imp(_, _)
        | FormNode::Iff(_, _) => None,
    }
}

/// The formula as a quantified one, or as the negation of one. `None` comes exactly where it is neither. It takes no
/// memory.
pub fn as_quantified(store: &Store, form: FormId) -> Option<Quantified>
    requires { HasForm store.now form }
    ensures has { IfSome result (HasQuantified store.now) }
    ensures value { option_map (quantified_of store.now) result ≡ raw.quantified (form_of store.now form) }
{
    match store.form_node(form) {
        FormNode::All(ty, body) => Some(over_terms(QuantifierKind::Gamma, *ty, true, *body)),
        FormNode::Ex(ty, body) => Some(over_terms(QuantifierKind::Delta, *ty, true, *body)),
        FormNode::AllType(body) => Some(over_types(QuantifierKind::Gamma, true, *body)),
        FormNode::ExType(body) => Some(over_types(QuantifierKind::Delta, true, *body)),
        FormNode::Not(denied) => as_denied(store, *denied),
        FormNode::True
        | FormNode::False
        | FormNode::Atom(_, _, _)
        | FormNode::Equal(_, _, _)
        | FormNode::And(_, _)
        | FormNode::Or(_, _)
        | FormNode::Imp(_, _)
        | FormNode::Iff(_, _) => None,
    }
}
