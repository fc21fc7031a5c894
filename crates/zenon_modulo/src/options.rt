ghost use Rattle.std.specs.Prelude.{◌≡◌, ◌≤◌, ◌≢◌, [], Some, map, string_bytes, IfOk, IfErr, MatchOption, None, ℕ};
ghost use Rattle.std.specs.Option.{option_map};
ghost use Rattle.std.specs.List.{list_any};
ghost use Rattle.clap.specs.Words.{app_of, fault_of};
ghost use Rattle.zenon_modulo.specs.Words.{prove_options as spec_prove_options, steps_text, is_dashes, AllowsSteps, AreOptions};
ghost use Rattle.zenon_modulo.specs.WordsRead.{ExplainsFault, ExplainsOptions};
ghost use Rattle.zenon_modulo.specs.declared.options.OptionsStop.TheVariants.{Memory};

use clap::error::ErrorKind;
use clap::{Arg, ArgAction, Command};
use std::alloc::{AllocError, Global};

/// The Steps that are allowed where the words don't say.
pub const DEFAULT_STEPS: u32 = 100_000;

/// The most Steps that the words may allow.
pub const MOST_STEPS: u64 = 1_000_000;

/// Why options aren't read.
#[derive(Clone, Copy, Debug, PartialEq, Eq)]
pub enum OptionsStop {
    BadOptions,
    Memory,
}

impl From<AllocError> for OptionsStop {
    ghost from_gives = { λ _ e. e ≡ Memory };

    fn from(_e: AllocError) -> OptionsStop {
        OptionsStop::Memory
    }
}

// The options of prove, as clap reads them.
fn prove_options<'a>(alloc: Global) -> Result<Command<'a>, AllocError>
    ensures { IfOk result (λ c. app_of c ≡ spec_prove_options) }
{
    let steps = Arg::new(alloc, "steps")
        .long("steps")
        .action(ArgAction::Set);
    Command::new(alloc, "prove")
        .no_binary_name(true)
        .disable_help_flag(true)
        .disable_version_flag(true)
        .arg(steps)
}

// The value that the options give to --steps.
fn given_steps<'a>(alloc: Global, options: &'a [String]) -> Result<Option<&'a str>, OptionsStop>
    ensures taken { IfOk result (λ t. fault_of spec_prove_options (map string_bytes options.now) ≡ []) }
    ensures text { IfOk result (λ t. option_map (λ s. s.now) t ≡ steps_text (map string_bytes options.now)) }
    ensures fault { IfErr result (ExplainsFault (map string_bytes options.now)) }
{
    let command = prove_options(alloc)?;
    match command.try_get_matches_from(options) {
        Ok(matches) => Ok(matches.get_str("steps")),
        Err(error) => {
            if error.kind() == ErrorKind::OutOfMemory {
                return Err(OptionsStop::Memory);
            }
            Err(OptionsStop::BadOptions)
        }
    }
}

// The Steps that a value of --steps allows.
fn allowed_steps(text: &str) -> Option<u32>
    ensures { MatchOption result ((n : ℕ) → AllowsSteps (Some text.now) n → ⊥) (AllowsSteps (Some text.now)) }
{
    match text.parse::<u64>() {
        Ok(n) => {
            if n == 0 || n > MOST_STEPS {
                return None;
            }
            Some(n as u32)
        }
        Err(_) => None,
    }
}

// This is the word --.
fn is_dashes(word: &String) -> bool
    ensures { result ≡ is_dashes (string_bytes word.now) }
{
    word.as_str() == "--"
}

// The word -- stands among the words.
#[tactic(auto, using(crate::proofs::Dashes::dashes_here, crate::proofs::Dashes::dashes_later, crate::proofs::Dashes::dashes_end))]
fn has_dashes(words: &[String]) -> bool
    ensures { result ≡ list_any is_dashes (map string_bytes words.now) }
{
    for word in words {
        if is_dashes(word) {
            return true;
        }
    }
    false
}

/// Reads the words behind the operand: the Steps that they allow.
pub fn read_options(alloc: Global, options: &[String]) -> Result<u32, OptionsStop>
    ensures steps { IfOk result (AreOptions (map string_bytes options.now)) }
    ensures stop { IfErr result (ExplainsOptions (map string_bytes options.now)) }
{
    if has_dashes(options) {
        return Err(OptionsStop::BadOptions);
    }
    let given = given_steps(alloc, options)?;
    match given {
        None => Ok(DEFAULT_STEPS),
        Some(text) => match allowed_steps(text) {
            Some(steps) => Ok(steps),
            None => Err(OptionsStop::BadOptions),
        },
    }
}
