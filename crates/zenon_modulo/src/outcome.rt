use crate::words::UsageRefusal;
use search::{Closed, Open, Tableau, Why};
use tff_typing::TypeRefusal;
use tptp_include::GatherRefusal;
use valuation::Valuation;

/// Why an input is refused.
#[derive(Drop)]
pub enum InputRefusal {
    /// Nothing is gathered from the operand: there is no such file, its text isn't in the language, or an include fails.
    Gather(GatherRefusal),
    /// The statements are not well typed, or have a second conjecture.
    Typing(TypeRefusal),
    /// The operand has more than 16,777,216 bytes.
    TooLarge,
    /// The problem is well typed, and holds an equality.
    NotBuilt,
}

/// The answer of a call.
#[derive(Drop)]
pub enum Outcome {
    /// The conjecture follows from the premises: a tableau with no open leaf shows it.
    Proved {
        tableau: Tableau<Closed>,
    },
    /// The valuation makes every premise true and the conjecture false.
    Falsified {
        valuation: Valuation,
        tableau: Tableau<Open>,
    },
    /// The search stopped before it came to an end.
    Unknown {
        why: Why,
        tableau: Tableau<Open>,
    },
    /// The input isn't accepted.
    Refused(InputRefusal),
    /// The words are no command.
    Usage(UsageRefusal),
    /// The source failed.
    ReadFault,
    /// The library failed.
    LibraryFault,
    /// A sink failed.
    WriteFault,
    /// There was no memory.
    Memory,
}

/// An answer with the exit status that goes with it.
#[derive(Drop)]
pub struct Run {
    pub status: u8,
    pub outcome: Outcome,
}
