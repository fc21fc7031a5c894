ghost use Rattle.std.specs.Prelude.{◌≡◌, map};
ghost use Rattle.zm_logic.specs.Truth.{truth_of, value_of as spec_value_of};
ghost use Rattle.zm_logic.specs.View.{form_tree};
ghost use Rattle.valuation.specs.View.{valued_tree};

use crate::valued::Valued;
use zm_logic::Form;

/// The truth value of a formula under a valuation, by the truth tables. An atom that isn't listed counts as false; so do
/// an equality and a quantified formula, of which a valuation says nothing. It takes no memory.
#[cycle(eval)]
pub fn eval(valuation: &[Valued], form: &Form) -> bool
    ensures { result ≡ truth_of (spec_value_of (map valued_tree valuation.now)) (form_tree form.now) }
{
    match form {
        Form::True => true,
        Form::Atom(_, _, _) => value_of(valuation, form),
        Form::Not(f) => !eval(valuation, f.get()),
        Form::And(f, g) => eval(valuation, f.get()) && eval(valuation, g.get()),
        Form::Or(f, g) => eval(valuation, f.get()) || eval(valuation, g.get()),
        Form::Imp(f, g) => !eval(valuation, f.get()) || eval(valuation, g.get()),
        Form::Iff(f, g) => eval(valuation, f.get()) == eval(valuation, g.get()),
        Form::False
        | Form::Equal(_, _, _)
        | Form::All(_, _)
        | Form::Ex(_, _)
        | Form::AllType(_)
        | Form::ExType(_) => false,
    }
}

// The truth value of an atom.
fn value_of(valuation: &[Valued], atom: &Form) -> bool
    ensures { result ≡ spec_value_of (map valued_tree valuation.now) (form_tree atom.now) }
{
    for valued in valuation {
        if valued.atom.same(atom) {
            return valued.truth;
        }
    }
    false
}
