ghost use Rattle.std.specs.Prelude.{◌≡◌};
ghost use Rattle.std.specs.Option.{option_map};
ghost use Rattle.zm_logic.specs.Tree as tree;
ghost use Rattle.zm_logic.specs.View.{form_tree};
ghost use Rattle.branch.specs.Branch.{Closing};
ghost use Rattle.sequent_proof.specs.View.{name_of};
ghost use Rattle.pruning.specs.Steps as spec;

use sequent_proof::RuleName;
use zm_logic::Form;

/// The rule of a Step that acts first on this formula, and whether it is the other one of two offers.
pub(crate) fn rule_on(other: bool, form: &Form) -> RuleName
    ensures { name_of result ≡ spec.rule_on other (form_tree form.now) }
{
    match form {
        Form::Not(denied) => denial_rule(denied.get()),
        Form::And(_, _) => RuleName::And,
        Form::Or(_, _) => RuleName::Or,
        Form::Imp(_, _) => RuleName::Imp,
        Form::Iff(_, _) => RuleName::Iff,
        Form::Ex(_, _) | Form::ExType(_) => RuleName::Exists,
        Form::All(_, _) | Form::AllType(_) => RuleName::Forall,
        Form::Atom(_, _, _) => RuleName::EqPred,
        Form::Equal(_, _, _) => {
            if other {
                RuleName::EqTransSecond
            } else {
                RuleName::EqTransFirst
            }
        }
        Form::True | Form::False => RuleName::False,
    }
}

// The rule of a Step that acts first on the negation of this formula.
fn denial_rule(denied: &Form) -> RuleName
    ensures { name_of result ≡ spec.denial_rule (form_tree denied.now) }
{
    match denied {
        Form::Not(_) => RuleName::NotNot,
        Form::And(_, _) => RuleName::NotAnd,
        Form::Or(_, _) => RuleName::NotOr,
        Form::Imp(_, _) => RuleName::NotImp,
        Form::Iff(_, _) => RuleName::NotIff,
        Form::Ex(_, _) | Form::ExType(_) => RuleName::NotExists,
        Form::All(_, _) | Form::AllType(_) => RuleName::NotForall,
        Form::Equal(_, _, _) => RuleName::EqFun,
        Form::True | Form::False | Form::Atom(_, _, _) => RuleName::False,
    }
}

// The rule of a formula that closes a branch alone.
fn alone_rule(form: &Form) -> RuleName
    ensures { name_of result ≡ spec.alone_rule (form_tree form.now) }
{
    match form {
        Form::False => RuleName::False,
        Form::Not(denied) => alone_rule_of_negation(denied.get()),
        Form::True
        | Form::Atom(_, _, _)
        | Form::Equal(_, _, _)
        | Form::And(_, _)
        | Form::Or(_, _)
        | Form::Imp(_, _)
        | Form::Iff(_, _)
        | Form::All(_, _)
        | Form::Ex(_, _)
        | Form::AllType(_)
        | Form::ExType(_) => RuleName::Refl,
    }
}

// The rule of a formula whose negation closes a branch alone.
fn alone_rule_of_negation(denied: &Form) -> RuleName
    ensures { name_of result ≡ spec.alone_rule (tree.Form.negation (form_tree denied.now)) }
{
    match denied {
        Form::True => RuleName::NotTrue,
        Form::False
        | Form::Not(_)
        | Form::Atom(_, _, _)
        | Form::Equal(_, _, _)
        | Form::And(_, _)
        | Form::Or(_, _)
        | Form::Imp(_, _)
        | Form::Iff(_, _)
        | Form::All(_, _)
        | Form::Ex(_, _)
        | Form::AllType(_)
        | Form::ExType(_) => RuleName::Refl,
    }
}

/// The rule of what closes a branch: a formula alone, or with a second one, where the two may be `s = t` and `~(t = s)`.
pub(crate) fn closing_rule(first: &Form, second: &Option<Form>, swapped: bool) -> RuleName
    ensures { (c : Closing) → c.first ≡ form_tree first.now → c.second ≡ option_map form_tree second.now → c.swapped ≡ swapped
        → name_of result ≡ spec.closing_rule c }
{
    match second {
        Some(_) => {
            if swapped {
                RuleName::Sym
            } else {
                RuleName::Axiom
            }
        }
        None => alone_rule(first),
    }
}
