ghost use Rattle.std.specs.Prelude.{◌≡◌, [], ◌∷◌, map, string_bytes, codes, IfOk, IfErr, Err, MatchOption, IsTrue, ◌↔◌, get_or};
ghost use Rattle.zenon_modulo.specs.Words as words;
ghost use Rattle.zenon_modulo.specs.Words.{IsCommand, IsOperand};
ghost use Rattle.zenon_modulo.specs.WordsRead.{ExplainsWords, command_tree, operand_tree};
ghost use Rattle.zenon_modulo.specs.declared.words.WordsStop.TheVariants.{Memory};

use crate::options::{OptionsStop, read_options};
use std::alloc::{AllocError, Global};
use thiserror::Error;
use zm_logic::Text;

/// Where the problem is read from.
#[derive(Debug, Drop)]
pub enum Operand {
    /// The source.
    Source,
    /// The file of this name.
    File(Text),
}

/// What is asked for, by mode.
#[derive(Debug, Drop)]
pub enum Command {
    /// To prove the problem of the operand in at most so many Steps.
    Prove { operand: Operand, steps: u32 },
}

/// What is wrong with the words of a call.
#[derive(Debug, Drop, Error)]
pub enum UsageRefusal {
    /// There is no word.
    #[error("there is no mode")]
    NoMode,
    /// The first word is no mode.
    #[error("{word:?} is no mode")]
    UnknownMode { word: Text },
    /// There is no second word.
    #[error("there is no operand behind {mode:?}")]
    NoOperand { mode: Text },
    /// The second word is no operand of the mode.
    #[error("{word:?} is no operand")]
    BadOperand { word: Text },
    /// What follows the operand is no option of the mode.
    #[error("the words behind the operand are no options")]
    BadOptions,
}

/// Why words are no command.
#[derive(Debug, Drop)]
pub enum WordsStop {
    Usage(UsageRefusal),
    Memory,
}

impl From<AllocError> for WordsStop {
    ghost from_gives = { λ _ e. e ≡ Memory };

    fn from(_e: AllocError) -> WordsStop {
        WordsStop::Memory
    }
}

fn is_word(word: &String, wanted: &str) -> bool
    ensures { IsTrue result ↔ (string_bytes word.now ≡ wanted.now) }
{
    word.as_str() == wanted
}

fn begins_with_hyphen(word: &str) -> bool
    ensures { IsTrue result ↔ (get_or word.now 0 0 ≡ 45) }
{
    match word.as_bytes() {
        [first, ..] => *first == b'-',
        [] => false,
    }
}

// - stands for the source; a word that begins with another hyphen is no operand.
fn operand_of(alloc: Global, word: &str) -> Result<Option<Operand>, AllocError>
    ensures { IfOk result (λ o. MatchOption o ((operand : words.Operand) → IsOperand word.now operand → ⊥) (λ o. IsOperand word.now (operand_tree o))) }
{
    if word == "-" {
        return Ok(Some(Operand::Source));
    }
    if begins_with_hyphen(word) {
        return Ok(None);
    }
    Ok(Some(Operand::File(Text::of(alloc, word)?)))
}

/// Reads the words of a call: the mode, its operand, and its options. With no word it takes no memory.
pub fn read_words(alloc: Global, words: &[String]) -> Result<Command, WordsStop>
    ensures command { IfOk result (λ c. IsCommand (map string_bytes words.now) (command_tree c)) }
    ensures misuse { IfErr result (ExplainsWords (map string_bytes words.now)) }
    ensures none { words.now ≡ [] → result ≡ Err (WordsStop.Usage UsageRefusal.NoMode) }
{
    match words {
        [] => Err(WordsStop::Usage(UsageRefusal::NoMode)),
        [mode, more @ ..] => {
            if !is_word(mode, "prove") {
                let word = Text::of(alloc, mode.as_str())?;
                return Err(WordsStop::Usage(UsageRefusal::UnknownMode { word }));
            }
            read_proving(alloc, mode.as_str(), more)
        }
    }
}

// Reads what stands behind the mode.
fn read_proving(alloc: Global, mode: &str, more: &[String]) -> Result<Command, WordsStop>
    requires { mode.now ≡ codes "prove" }
    ensures command { IfOk result (λ c. IsCommand (mode.now ∷ map string_bytes more.now) (command_tree c)) }
    ensures misuse { IfErr result (ExplainsWords (mode.now ∷ map string_bytes more.now)) }
{
    match more {
        [] => {
            let mode = Text::of(alloc, mode)?;
            Err(WordsStop::Usage(UsageRefusal::NoOperand { mode }))
        }
        [word, options @ ..] => read_operand(alloc, mode, word, options),
    }
}

// Reads the operand and the options.
fn read_operand(
    alloc: Global,
    mode: &str,
    word: &String,
    options: &[String],
) -> Result<Command, WordsStop>
    requires { mode.now ≡ codes "prove" }
    ensures command { IfOk result (λ c. IsCommand (mode.now ∷ string_bytes word.now ∷ map string_bytes options.now) (command_tree c)) }
    ensures misuse { IfErr result (ExplainsWords (mode.now ∷ string_bytes word.now ∷ map string_bytes options.now)) }
{
    let operand = match operand_of(alloc, word.as_str())? {
        Some(operand) => operand,
        None => {
            let word = Text::of(alloc, word.as_str())?;
            return Err(WordsStop::Usage(UsageRefusal::BadOperand { word }));
        }
    };
    match read_options(alloc, options) {
        Ok(steps) => Ok(Command::Prove { operand, steps }),
        Err(OptionsStop::BadOptions) => Err(WordsStop::Usage(UsageRefusal::BadOptions)),
        Err(OptionsStop::Memory) => Err(WordsStop::Memory),
    }
}
