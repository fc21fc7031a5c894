ghost use Rattle.std.specs.Prelude.{◌≡◌, ◌≤◌, length, map};
ghost use Rattle.std.specs.List.{list_all};
ghost use Rattle.tptp_lex.specs.Numbers.{is_digit};
ghost use Rattle.tptp_reader.specs.Parsing.{seen, Gives};
ghost use Rattle.tptp_reader.specs.SlowWords.{word_in, name_in};

use crate::cursor::{ParseStop, Parser};
use crate::lexeme::Lexeme;
use crate::text::Text;

fn is_digit(b: u8) -> bool
    ensures { result ≡ is_digit b }
{
    matches!(b, b'0'..=b'9')
}

// Whether these are digits alone.
fn are_digits(bytes: &[u8]) -> bool
    ensures { result ≡ list_all is_digit bytes.now }
{
    for b in bytes {
        if !is_digit(*b) {
            return false;
        }
    }
    true
}

impl<'t, 'a> Parser<'t, 'a> {
    /// Reads a word: a lower or a quoted name.
    pub fn word(&mut self) -> Result<Text, ParseStop>
        ensures reads { Gives (λ t. t) result (map seen self.new.rest.now) (word_in (map seen self.old.rest.now)) }
        ensures shrinks { length self.new.rest.now ≤ length self.old.rest.now }
    {
        match self.next() {
            None => Err(ParseStop::Syntax),
            Some(Lexeme::Lower(text)) => {
                let word = Text::of(self.alloc, text)?;
                Ok(word)
            }
            Some(Lexeme::Quoted(text)) => {
                let word = Text::of(self.alloc, text)?;
                Ok(word)
            }
            Some(Lexeme::Upper(_)) => Err(ParseStop::Syntax),
            Some(Lexeme::Defined(_)) => Err(ParseStop::Syntax),
            Some(Lexeme::Distinct) => Err(ParseStop::Syntax),
            Some(Lexeme::Number(_)) => Err(ParseStop::Syntax),
            Some(Lexeme::Sign(_)) => Err(ParseStop::Syntax),
        }
    }

    /// Reads the name of a statement: a word, or digits.
    pub fn name(&mut self) -> Result<Text, ParseStop>
        ensures reads { Gives (λ t. t) result (map seen self.new.rest.now) (name_in (map seen self.old.rest.now)) }
        ensures shrinks { length self.new.rest.now ≤ length self.old.rest.now }
    {
        match self.next() {
            None => Err(ParseStop::Syntax),
            Some(Lexeme::Lower(text)) => {
                let name = Text::of(self.alloc, text)?;
                Ok(name)
            }
            Some(Lexeme::Quoted(text)) => {
                let name = Text::of(self.alloc, text)?;
                Ok(name)
            }
            Some(Lexeme::Number(text)) => {
                if !are_digits(text.as_bytes()) {
                    return Err(ParseStop::Syntax);
                }
                let name = Text::of(self.alloc, text)?;
                Ok(name)
            }
            Some(Lexeme::Upper(_)) => Err(ParseStop::Syntax),
            Some(Lexeme::Defined(_)) => Err(ParseStop::Syntax),
            Some(Lexeme::Distinct) => Err(ParseStop::Syntax),
            Some(Lexeme::Sign(_)) => Err(ParseStop::Syntax),
        }
    }
}
