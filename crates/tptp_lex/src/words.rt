ghost use Rattle.std.specs.Prelude.{◌≡◌, ◌≤◌, length, IfSome};
ghost use Rattle.tptp_lex.specs.Words.{is_word, run};

// Whether a byte may stand in a word.
fn is_word(b: u8) -> bool
    ensures { result ≡ is_word b }
{
    matches!(b, b'a'..=b'z' | b'A'..=b'Z' | b'0'..=b'9' | b'_')
}

/// How many bytes at the front may stand in a word.
pub fn run(bytes: &[u8]) -> usize
    ensures value { result ≡ run is_word bytes.now }
    ensures within { result ≤ length bytes.now }
{
    for (i, b) in bytes.iter().enumerate() {
        if !is_word(*b) {
            return i;
        }
    }
    bytes.len()
}
