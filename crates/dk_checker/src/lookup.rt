ghost use Rattle.std.specs.Prelude.{◌≡◌};
ghost use Rattle.std.specs.Option.{option_map, option_copied};
ghost use Rattle.lp_terms.specs.View.{term_of, entry_of, entries_of};
ghost use Rattle.dk_checker.specs.Asking.{declared_type, type_of_constant, is_definable, is_by_def};

use lp_terms::{Entry, Lp, Text};

/// The constant's type.
pub fn type_of_constant<'a>(signature: &'a [Entry], name: &Text) -> Option<&'a Lp>
    ensures { option_map term_of (option_copied result) ≡ type_of_constant (entries_of signature.now) name.now }
{
    for entry in signature {
        if let Some(ty) = declared_type(entry, name) {
            return Some(ty);
        }
    }
    None
}

fn declared_type<'a>(entry: &'a Entry, name: &Text) -> Option<&'a Lp>
    ensures { option_map term_of (option_copied result) ≡ declared_type (entry_of entry.now) name.now }
{
    match entry {
        Entry::Declare {
            name: declared,
            definable: _,
            ty,
        }
        | Entry::Define {
            name: declared,
            ty,
            body: _,
        } => {
            if declared.text() == name.text() {
                Some(ty)
            } else {
                None
            }
        }
        Entry::Rule {
            context: _,
            left: _,
            right: _,
        } => None,
    }
}

/// Whether the constant was declared by `def`.
pub fn is_by_def(signature: &[Entry], name: &Text) -> bool
    ensures { result ≡ is_by_def (entries_of signature.now) name.now }
{
    for entry in signature {
        if is_definable(entry, name) {
            return true;
        }
    }
    false
}

fn is_definable(entry: &Entry, name: &Text) -> bool
    ensures { result ≡ is_definable (entry_of entry.now) name.now }
{
    match entry {
        Entry::Declare {
            name: declared,
            definable,
            ty: _,
        } => *definable && declared.text() == name.text(),
        Entry::Define {
            name: declared,
            ty: _,
            body: _,
        } => declared.text() == name.text(),
        Entry::Rule {
            context: _,
            left: _,
            right: _,
        } => false,
    }
}
