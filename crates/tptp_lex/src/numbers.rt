ghost use Rattle.std.specs.Prelude.{◌≡◌, ◌≤◌, ◌<◌, length, IfSome};
ghost use Rattle.tptp_lex.specs.Numbers.{is_digit, digit_first, fraction, exponent, signed_digits, unsigned, number_length};
ghost use Rattle.tptp_lex.specs.Words.{run};

fn is_digit(b: u8) -> bool
    ensures { result ≡ is_digit b }
{
    matches!(b, b'0'..=b'9')
}

// How many digits there are at the front.
fn digits(bytes: &[u8]) -> usize
    ensures value { result ≡ run is_digit bytes.now }
    ensures within { result ≤ length bytes.now }
{
    for (i, b) in bytes.iter().enumerate() {
        if !is_digit(*b) {
            return i;
        }
    }
    bytes.len()
}

fn digit_first(bytes: &[u8]) -> bool
    ensures { result ≡ digit_first bytes.now }
{
    match bytes {
        [] => false,
        [first, ..] => is_digit(*first),
    }
}

// A point or a stroke, and digits behind it.
fn fraction(bytes: &[u8]) -> usize
    ensures value { result ≡ fraction bytes.now }
    ensures within { result ≤ length bytes.now }
{
    match bytes {
        [] => 0,
        [first, rest @ ..] => {
            if (*first == b'.' || *first == b'/') && digit_first(rest) {
                1 + digits(rest)
            } else {
                0
            }
        }
    }
}

// A sign, and digits behind it.
fn signed_digits(bytes: &[u8]) -> usize
    ensures value { result ≡ signed_digits bytes.now }
    ensures within { result ≤ length bytes.now }
{
    match bytes {
        [] => 0,
        [first, rest @ ..] => {
            if (*first == b'+' || *first == b'-') && digit_first(rest) {
                1 + digits(rest)
            } else {
                0
            }
        }
    }
}

// A letter E, a sign and digits.
fn exponent(bytes: &[u8]) -> usize
    ensures value { result ≡ exponent bytes.now }
    ensures within { result ≤ length bytes.now }
{
    match bytes {
        [] => 0,
        [first, rest @ ..] => {
            if (*first == b'E' || *first == b'e') && signed_digits(rest) != 0 {
                1 + signed_digits(rest)
            } else {
                0
            }
        }
    }
}

// Digits, a fraction and an exponent.
fn unsigned(bytes: &[u8]) -> usize
    ensures value { result ≡ unsigned bytes.now }
    ensures within { result ≤ length bytes.now }
{
    let whole = digits(bytes);
    let behind = &bytes[whole..];
    let part = fraction(behind);
    whole + part + exponent(&behind[part..])
}

/// How long the number at the front is.
pub fn number_length(bytes: &[u8]) -> Option<usize>
    ensures value { result ≡ number_length bytes.now }
    ensures within { IfSome result (λ n. n ≤ length bytes.now) }
{
    match bytes {
        [] => None,
        [first, rest @ ..] => {
            if is_digit(*first) {
                Some(unsigned(bytes))
            } else if (*first == b'+' || *first == b'-') && digit_first(rest) {
                Some(1 + unsigned(rest))
            } else {
                None
            }
        }
    }
}
