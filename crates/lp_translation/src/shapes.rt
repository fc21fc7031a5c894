//! The parts of the formulas that rules act on.

ghost use Rattle.std.specs.Prelude.{◌≡◌};
ghost use Rattle.zm_logic.specs.View.{form_tree};
ghost use Rattle.lp_translation.specs.ViewRules as shapes;

use zm_logic::Form;

/// What is negated. Any other formula stands for itself.
pub fn negated(form: &Form) -> &Form
    ensures { form_tree result.now ≡ shapes.negated (form_tree form.now) }
{
    match form {
        Form::Not(f) => f.get(),
        Form::True
        | Form::False
        | Form::Atom(_, _, _)
        | Form::Equal(_, _, _)
        | Form::And(_, _)
        | Form::Or(_, _)
        | Form::Imp(_, _)
        | Form::Iff(_, _)
        | Form::All(_, _)
        | Form::Ex(_, _)
        | Form::AllType(_)
        | Form::ExType(_) => form,
    }
}

/// The left side of a formula that a connective joins. Any other formula stands for itself.
pub fn left_of(form: &Form) -> &Form
    ensures { form_tree result.now ≡ shapes.left_of (form_tree form.now) }
{
    match form {
        Form::And(f, _) | Form::Or(f, _) | Form::Imp(f, _) | Form::Iff(f, _) => f.get(),
        Form::True
        | Form::False
        | Form::Atom(_, _, _)
        | Form::Equal(_, _, _)
        | Form::Not(_)
        | Form::All(_, _)
        | Form::Ex(_, _)
        | Form::AllType(_)
        | Form::ExType(_) => form,
    }
}

/// The right side of a formula that a connective joins. Any other formula stands for itself.
pub fn right_of(form: &Form) -> &Form
    ensures { form_tree result.now ≡ shapes.right_of (form_tree form.now) }
{
    match form {
        Form::And(_, g) | Form::Or(_, g) | Form::Imp(_, g) | Form::Iff(_, g) => g.get(),
        Form::True
        | Form::False
        | Form::Atom(_, _, _)
        | Form::Equal(_, _, _)
        | Form::Not(_)
        | Form::All(_, _)
        | Form::Ex(_, _)
        | Form::AllType(_)
        | Form::ExType(_) => form,
    }
}
