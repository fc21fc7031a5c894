//! The variables that stand for parameters.

ghost use Rattle.std.specs.Prelude.{◌≡◌};
ghost use Rattle.lp_terms.specs.Term as plain;
ghost use Rattle.zm_logic.specs.View.{type_tree};
ghost use Rattle.lp_signature.specs.Prelude as prelude;
ghost use Rattle.lp_signature.specs.Translation as translation;
ghost use Rattle.lp_signature.specs.View.{bound_in, scope_tree, variable_or};

use sqlite_items::Items;
use zm_logic::Ty;

/// A parameter with the number of the free variable that stands for it.
#[derive(Drop)]
pub enum Bound {
    /// The type parameter of this number.
    OfType { number: u64, variable: u32 },
    /// The epsilon term of this number and type.
    OfTerm { number: u64, ty: Ty, variable: u32 },
}

/// The parameters that variables stand for, the last one last. Where a parameter comes twice, the later one counts.
/// Contracts see a list.
pub type Scope = Items<Bound>;

impl Bound {
    // The variable, where it stands for the type parameter of this number.
    fn type_variable(&self, number: u64) -> Option<u32>
        ensures { (s : translation.Scope) → translation.read_type (bound_in s self.now) number ≡
            variable_or result (translation.read_type s number) }
    {
        match self {
            Bound::OfType {
                number: bound,
                variable,
            } => {
                if number == *bound {
                    Some(*variable)
                } else {
                    None
                }
            }
            Bound::OfTerm { .. } => None,
        }
    }

    // The variable, where it stands for the epsilon term of this number and type.
    fn term_variable(&self, number: u64, ty: &Ty) -> Option<u32>
        ensures { (s : translation.Scope) (u : plain.Lp) → translation.read_term (bound_in s self.now) number
            (type_tree ty.now) u ≡ variable_or result (translation.read_term s number (type_tree ty.now) u) }
    {
        match self {
            Bound::OfType { .. } => None,
            Bound::OfTerm {
                number: bound,
                ty: bound_type,
                variable,
            } => {
                if number == *bound && ty.same(bound_type) {
                    Some(*variable)
                } else {
                    None
                }
            }
        }
    }
}

// The later variable, where there is one.
fn later(found: Option<u32>, next: Option<u32>) -> Option<u32>
    ensures { (u : plain.Lp) → variable_or result u ≡ variable_or next (variable_or found u) }
{
    match next {
        Some(variable) => Some(variable),
        None => found,
    }
}

/// The variable that stands for the type parameter of this number.
pub fn type_variable(scope: &[Bound], number: u64) -> Option<u32>
    ensures { translation.read_type (scope_tree scope.now) number ≡ variable_or result prelude.iota }
{
    let mut found = None;
    for bound in scope {
        found = later(found, bound.type_variable(number));
    }
    found
}

/// The variable that stands for the epsilon term of this number and type.
pub fn term_variable(scope: &[Bound], number: u64, ty: &Ty) -> Option<u32>
    ensures { (u : plain.Lp) → translation.read_term (scope_tree scope.now) number (type_tree ty.now) u ≡
        variable_or result u }
{
    let mut found = None;
    for bound in scope {
        found = later(found, bound.term_variable(number, ty));
    }
    found
}
