ghost use Rattle.std.specs.Prelude.{◌≡◌, ℕ, List, ◌<◌, ◌≤◌, ◌+◌, ◌∷◌, true, drop, take, length, IfSome, OnErr};
ghost use Rattle.std.specs.Str.{IsAscii};
ghost use Rattle.lp_terms.specs.Names.{is_start, is_inside, all_bytes};
ghost use Rattle.dk_text.specs.Tokens.{word_of, after_word, word_token, sign_at, token_at};
ghost use Rattle.dk_reader.specs.Seen.{seen, front_of};

/// What the language of this reader leaves out.
#[derive(Clone, Copy, Debug, PartialEq, Eq)]
pub enum LeftOut {
    Command,
    Quoted,
    Pattern,
}

/// A token. An identifier, and what is left out, has the number of bytes from its first one to the
/// end of the text.
#[derive(Clone, Copy, Debug)]
pub enum Token<'a> {
    Name(&'a str, usize),
    Type,
    Def,
    Colon,
    Becomes,
    Arrow,
    FatArrow,
    LongArrow,
    Point,
    Comma,
    OpenRound,
    CloseRound,
    OpenSquare,
    CloseSquare,
    LeftOut(LeftOut, usize),
}

/// The token at the front of a text, and what follows it.
#[derive(Clone, Copy)]
pub struct Front<'a> {
    pub token: Token<'a>,
    pub rest: &'a [u8],
}

// Whether a word may begin with the byte.
fn is_start(b: u8) -> bool
    ensures { result ≡ is_start b }
{
    matches!(b, b'a'..=b'z' | b'A'..=b'Z' | b'_')
}

// Whether the byte may stand inside a word.
fn is_inside(b: u8) -> bool
    ensures { result ≡ is_inside b }
{
    matches!(b, b'a'..=b'z' | b'A'..=b'Z' | b'0'..=b'9' | b'_' | b'!')
}

// How many bytes at the front may stand inside a word.
fn word_length(bytes: &[u8]) -> usize
    ensures word { take result bytes.now ≡ word_of bytes.now }
    ensures after { drop result bytes.now ≡ after_word bytes.now }
    ensures within { result ≤ length bytes.now }
{
    for (i, b) in bytes.iter().enumerate() {
        if !is_inside(*b) {
            return i;
        }
    }
    bytes.len()
}

// The text of ASCII bytes.
fn text_of(bytes: &[u8]) -> &str
    requires { IsAscii bytes.now }
    ensures { result.now ≡ bytes.now }
{
    unsafe { std::str::from_utf8_unchecked(bytes) }
}

// The token that a word is.
fn word_token(word: &str, left: usize) -> Token<'_>
    ensures { seen result ≡ word_token word.now left }
{
    match word {
        "Type" => Token::Type,
        "def" => Token::Def,
        "thm" => Token::LeftOut(LeftOut::Command, left),
        "_" => Token::LeftOut(LeftOut::Pattern, left),
        _ => Token::Name(word, left),
    }
}

// The word at the front.
fn word_at(bytes: &[u8]) -> Front<'_>
    requires { (b : ℕ) × (rest : List ℕ) × (bytes.now ≡ b ∷ rest) × (is_start b ≡ true) }
    ensures value { front_of (Some result) ≡ token_at bytes.now }
    ensures shrinks { length result.rest.now < length bytes.now }
{
    let end = word_length(bytes);
    Front {
        token: word_token(text_of(&bytes[..end]), bytes.len()),
        rest: &bytes[end..],
    }
}

fn found<'a>(token: Token<'a>, rest: &'a [u8]) -> Option<Front<'a>>
    ensures { result ≡ Some (record { token = token.entry; rest = rest.entry }) }
{
    Some(Front { token, rest })
}

// The sign behind a colon.
fn colon_at(rest: &[u8]) -> Option<Front<'_>>
    ensures value { front_of result ≡ sign_at 58 rest.now }
    ensures shrinks { IfSome result (λ f. length f.rest.now ≤ length rest.now) }
{
    match rest {
        [b'=', others @ ..] => found(Token::Becomes, others),
        _ => found(Token::Colon, rest),
    }
}

// The sign behind a minus.
fn minus_at(rest: &[u8]) -> Option<Front<'_>>
    ensures value { front_of result ≡ sign_at 45 rest.now }
    ensures shrinks { IfSome result (λ f. length f.rest.now ≤ length rest.now) }
{
    match rest {
        [b'>', others @ ..] => found(Token::Arrow, others),
        [b'-', b'>', others @ ..] => found(Token::LongArrow, others),
        _ => None,
    }
}

// The sign behind an equals sign.
fn equals_at(rest: &[u8]) -> Option<Front<'_>>
    ensures value { front_of result ≡ sign_at 61 rest.now }
    ensures shrinks { IfSome result (λ f. length f.rest.now ≤ length rest.now) }
{
    match rest {
        [b'>', others @ ..] => found(Token::FatArrow, others),
        _ => None,
    }
}

// The sign behind an opening bracket. One that opens a comment is none.
fn open_at(rest: &[u8]) -> Option<Front<'_>>
    ensures value { front_of result ≡ sign_at 40 rest.now }
    ensures shrinks { IfSome result (λ f. length f.rest.now ≤ length rest.now) }
{
    match rest {
        [b';', ..] => None,
        _ => found(Token::OpenRound, rest),
    }
}

// The sign behind a brace.
fn brace_at(rest: &[u8], left: usize) -> Option<Front<'_>>
    requires { left ≡ length rest.now + 1 }
    ensures value { front_of result ≡ sign_at 123 rest.now }
    ensures shrinks { IfSome result (λ f. length f.rest.now ≤ length rest.now) }
{
    match rest {
        [b'|', others @ ..] => found(Token::LeftOut(LeftOut::Quoted, left), others),
        _ => None,
    }
}

// The sign that begins with the byte, before these bytes.
fn sign_at(first: u8, rest: &[u8], left: usize) -> Option<Front<'_>>
    requires { left ≡ length rest.now + 1 }
    ensures value { front_of result ≡ sign_at first rest.now }
    ensures shrinks { IfSome result (λ f. length f.rest.now ≤ length rest.now) }
{
    match first {
        b':' => colon_at(rest),
        b'-' => minus_at(rest),
        b'=' => equals_at(rest),
        b'.' => found(Token::Point, rest),
        b',' => found(Token::Comma, rest),
        b'(' => open_at(rest),
        b')' => found(Token::CloseRound, rest),
        b'[' => found(Token::OpenSquare, rest),
        b']' => found(Token::CloseSquare, rest),
        b'#' => found(Token::LeftOut(LeftOut::Command, left), rest),
        b'{' => brace_at(rest, left),
        _ => None,
    }
}

/// The longest token at the front.
pub fn token_at(bytes: &[u8]) -> Option<Front<'_>>
    ensures value { front_of result ≡ token_at bytes.now }
    ensures shrinks { IfSome result (λ f. length f.rest.now < length bytes.now) }
{
    match bytes {
        [] => None,
        [first, rest @ ..] => {
            if is_start(*first) {
                Some(word_at(bytes))
            } else {
                sign_at(*first, rest, bytes.len())
            }
        }
    }
}
