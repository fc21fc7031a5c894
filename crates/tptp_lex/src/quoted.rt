ghost use Rattle.std.specs.Prelude.{◌≡◌, ◌≤◌, false, length, IfSome};
ghost use Rattle.tptp_lex.specs.Quoted.{closes};

/// How many bytes there are up to the closing mark, with it.
pub fn closes(mark: u8, bytes: &[u8]) -> Option<usize>
    ensures value { result ≡ closes mark false bytes.now }
    ensures within { IfSome result (λ n. n ≤ length bytes.now) }
{
    let mut escaped = false;
    for (i, b) in bytes.iter().enumerate() {
        if escaped {
            if *b != mark && *b != b'\\' {
                return None;
            }
            escaped = false;
        } else if *b == mark {
            return Some(i + 1);
        } else if *b == b'\\' {
            escaped = true;
        } else if *b < 32 || *b > 126 {
            return None;
        }
    }
    None
}
