ghost use Rattle.std.specs.Prelude.{◌≡◌};
ghost use Rattle.zm_logic.specs.Tree as tree;
ghost use Rattle.zm_logic.specs.View.{type_tree, form_tree};
ghost use Rattle.normaliser.specs.View.{connective_of, quantifier_of};

use sqlite_items::Boxed;
use zm_logic::{Form, Ty};

/// A connective of two formulas.
#[derive(Clone, Copy)]
pub(crate) enum Connective {
    And,
    Or,
    Imp,
    Iff,
}

/// A quantifier, over terms or over types.
#[derive(Clone, Copy)]
pub(crate) enum Quantifier {
    All,
    Ex,
}

pub(crate) fn joined(connective: Connective, f: Boxed<Form>, g: Boxed<Form>) -> Form
    ensures { form_tree result ≡ tree.Form.binary (connective_of connective) (form_tree f) (form_tree g) }
{
    match connective {
        Connective::And => Form::And(f, g),
        Connective::Or => Form::Or(f, g),
        Connective::Imp => Form::Imp(f, g),
        Connective::Iff => Form::Iff(f, g),
    }
}

pub(crate) fn bound(quantifier: Quantifier, ty: Ty, f: Boxed<Form>) -> Form
    ensures { form_tree result ≡ tree.Form.quantified (quantifier_of quantifier) (type_tree ty) (form_tree f) }
{
    match quantifier {
        Quantifier::All => Form::All(ty, f),
        Quantifier::Ex => Form::Ex(ty, f),
    }
}

pub(crate) fn bound_types(quantifier: Quantifier, f: Boxed<Form>) -> Form
    ensures { form_tree result ≡ tree.Form.quantified_types (quantifier_of quantifier) (form_tree f) }
{
    match quantifier {
        Quantifier::All => Form::AllType(f),
        Quantifier::Ex => Form::ExType(f),
    }
}
