ghost use Rattle.std.specs.Prelude.{◌≡◌, true, false, None, IfSome};
ghost use Rattle.zm_logic.specs.Tree as tree;
ghost use Rattle.term_store.specs.Trees.{HasForm, form_of};
ghost use Rattle.param_store.specs.RawOffers as raw;
ghost use Rattle.tableau_rules.specs.Split.{HasSplit, split_lists};

use term_store::{FormId, FormNode, Store};

/// A formula, or its negation where it doesn't hold.
#[derive(Clone, Copy)]
pub(crate) struct Signed {
    pub(crate) holds: bool,
    pub(crate) form: FormId,
}

/// The formulas of a child.
#[derive(Clone, Copy)]
pub(crate) enum Child {
    One(Signed),
    Two(Signed, Signed),
}

/// The children of an alpha or of a beta formula.
#[derive(Clone, Copy)]
pub(crate) enum Split {
    Alpha(Child),
    Beta(Child, Child),
}

fn holding(form: FormId) -> Signed
    ensures holds { result.holds ≡ true }
    ensures form { result.form ≡ form }
{
    Signed { holds: true, form }
}

fn denied(form: FormId) -> Signed
    ensures holds { result.holds ≡ false }
    ensures form { result.form ≡ form }
{
    Signed { holds: false, form }
}

// The children of the negation of a formula, if that is an alpha or a beta formula.
fn as_denied_split(store: &Store, form: FormId) -> Option<Split>
    requires { HasForm store.now form }
    ensures has { IfSome result (HasSplit store.now) }
    ensures lists { split_lists store.now result ≡ raw.split (tree.Form.negation (form_of store.now form)) }
    ensures alone { IfSome result (λ _. raw.quantified (tree.Form.negation (form_of store.now form)) ≡ None) }
{
    match store.form_node(form) {
        FormNode::Not(a) => Some(Split::Alpha(Child::One(holding(*a)))),
        FormNode::And(a, b) => Some(Split::Beta(Child::One(denied(*a)), Child::One(denied(*b)))),
        FormNode::Or(a, b) => Some(Split::Alpha(Child::Two(denied(*a), denied(*b)))),
        FormNode::Imp(a, b) => Some(Split::Alpha(Child::Two(holding(*a), denied(*b)))),
        FormNode::Iff(a, b) => Some(Split::Beta(
            Child::Two(holding(*a), denied(*b)),
            Child::Two(denied(*a), holding(*b)),
        )),
        FormNode::True
        | FormNode::False
        | FormNode::Atom(_, _, _)
        | FormNode::Equal(_, _, _)
        | FormNode::All(_, _)
        | FormNode::Ex(_, _)
        | FormNode::AllType(_)
        | FormNode::ExType(_) => None,
    }
}

/// The children of a formula, if it is an alpha or a beta formula.
pub(crate) fn as_split(store: &Store, form: FormId) -> Option<Split>
    requires { HasForm store.now form }
    ensures has { IfSome result (HasSplit store.now) }
    ensures lists { split_lists store.now result ≡ raw.split (form_of store.now form) }
    ensures alone { IfSome result (λ _. raw.quantified (form_of store.now form) ≡ None) }
{
    match store.form_node(form) {
        FormNode::Not(a) => as_denied_split(store, *a),
        FormNode::And(a, b) => Some(Split::Alpha(Child::Two(holding(*a), holding(*b)))),
        FormNode::Or(a, b) => Some(Split::Beta(Child::One(holding(*a)), Child::One(holding(*b)))),
        FormNode::Imp(a, b) => Some(Split::Beta(Child::One(denied(*a)), Child::One(holding(*b)))),
        FormNode::Iff(a, b) => Some(Split::Beta(
            Child::Two(holding(*a), holding(*b)),
            Child::Two(denied(*a), denied(*b)),
        )),
        FormNode::True
        | FormNode::False
        | FormNode::Atom(_, _, _)
        | FormNode::Equal(_, _, _)
        | FormNode::All(_, _)
        | FormNode::Ex(_, _)
        | FormNode::AllType(_)
        | FormNode::ExType(_) => None,
    }
}
