ghost use Rattle.std.specs.Prelude.{◌≡◌};
ghost use Rattle.tptp_reader.specs.declared.refusal.ReadRefusal.TheVariants.{Memory};

use std::alloc::AllocError;

/// A form that the language has and this reader doesn't read.
#[derive(Clone, Copy, Debug, PartialEq, Eq)]
pub enum UnsupportedForm {
    /// A statement that begins with `cnf`, `thf`, `tcf` or `tpi`.
    Statement,
    /// A role that isn't listed, `type` in a `fof` statement, or a role with a subrole.
    Role,
    /// A number in a formula.
    Numeral,
    /// A distinct object in a formula.
    DistinctObject,
    /// A word behind a dollar sign in a formula, other than `$true`, `$false`, `$i`, `$o` and `$tType`.
    DefinedWord,
    /// One of `@ ^ + -` in a formula.
    Operator,
}

/// Why nothing was read, and the place that shows it.
#[derive(Clone, Copy, Debug, PartialEq, Eq)]
pub enum ReadRefusal {
    /// No statement of the grammar stands there.
    Syntax { at: usize },
    /// More than 200 brackets, negations and quantifiers are open there, or the formula of the statement there is more
    /// than 1,000 deep.
    TooDeep { at: usize },
    /// A form that isn't read stands there.
    Unsupported { form: UnsupportedForm, at: usize },
    /// Memory ran out.
    Memory,
}

impl From<AllocError> for ReadRefusal {
    ghost from_gives = { λ _ e. e ≡ Memory };

    fn from(_e: AllocError) -> ReadRefusal {
        ReadRefusal::Memory
    }
}
