ghost use Rattle.std.specs.Prelude.{◌≡◌};
ghost use Rattle.dk_reader.specs.declared.refusal.DkReadRefusal.TheVariants.{Memory};

use std::alloc::AllocError;

/// What Dedukti has and this reader doesn't read.
#[derive(Clone, Copy, Debug, PartialEq, Eq)]
pub enum Form {
    /// A command, which begins with `#`, or `thm`.
    Command,
    /// A name in `{|` and `|}`, or a declared name that is `x` and digits.
    Name,
    /// A wildcard, `_` alone.
    Pattern,
    /// A rule whose left side is no constant applied to patterns, or lacks a context variable.
    Rule,
}

/// Why a text is not read, and the place that shows it: that of the entry unless said otherwise.
#[derive(Clone, Copy, Debug, PartialEq, Eq)]
pub enum DkReadRefusal {
    /// No entry begins there.
    Syntax { at: usize },
    /// A form that isn't read: the place of the token for a command, a name in `{|` and a wildcard, and that of the entry for
    /// a declared name that is `x` and digits and for a rule.
    Unsupported { form: Form, at: usize },
    /// A term of the entry nests 8,001 deep or deeper.
    TooDeep { at: usize },
    /// An identifier there names no binder and no constant.
    UnknownName { at: usize },
    /// The declared name is declared before.
    Duplicate { at: usize },
    /// Memory ran out.
    Memory,
}

impl From<AllocError> for DkReadRefusal {
    ghost from_gives = { λ _ e. e ≡ Memory };

    fn from(_e: AllocError) -> DkReadRefusal {
        DkReadRefusal::Memory
    }
}
