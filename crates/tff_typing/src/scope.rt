ghost use Rattle.std.specs.Prelude.{◌≡◌, ◌<◌, IfSome, length};
ghost use Rattle.tff_typing.specs.Scope.{look_up};
ghost use Rattle.tff_typing.specs.View.{scope_tree, bound_in};

use zm_logic::Ty;

/// What a variable is.
#[derive(Drop)]
pub enum Binder {
    /// A type variable.
    OfType,
    /// A variable for terms of the type.
    OfTerm(Ty),
}

/// A variable in scope.
#[derive(Drop)]
pub struct Variable<'a> {
    pub name: &'a str,
    pub binder: Binder,
}

/// The place of the innermost variable of the name.
pub fn look_up(scope: &[Variable], name: &str) -> Option<usize>
    ensures found { look_up (scope_tree scope.now) name.now ≡ bound_in scope.now result }
    ensures within { IfSome result (λ i. i < length scope.now) }
{
    let mut found = None;
    for (i, variable) in scope.iter().enumerate() {
        if variable.name == name {
            found = Some(i);
        }
    }
    found
}
