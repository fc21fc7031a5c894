ghost use Rattle.std.specs.Prelude.{◌≡◌, ◌≤◌, length, IfSome};
ghost use Rattle.std.specs.List.{find};
ghost use Rattle.tptp_lex.specs.Signs.{spelling, begins, IsLongestSign};
ghost use Rattle.tptp_lex.specs.Found.{IsTold};

/// A sign.
#[derive(Clone, Copy, Debug, PartialEq, Eq)]
pub enum Sign {
    Open,
    Close,
    OpenList,
    CloseList,
    Comma,
    Stop,
    Colon,
    And,
    Or,
    Not,
    Implies,
    If,
    Iff,
    Xor,
    NotAnd,
    NotOr,
    Equal,
    NotEqual,
    All,
    Exists,
    AllTypes,
    Arrow,
    Star,
    At,
    Caret,
    Plus,
    Minus,
}

/// The signs, those with longer spellings first.
pub const SIGNS: [Sign; 27] = [
    Sign::Iff,
    Sign::Xor,
    Sign::Implies,
    Sign::If,
    Sign::NotAnd,
    Sign::NotOr,
    Sign::NotEqual,
    Sign::AllTypes,
    Sign::Open,
    Sign::Close,
    Sign::OpenList,
    Sign::CloseList,
    Sign::Comma,
    Sign::Stop,
    Sign::Colon,
    Sign::And,
    Sign::Or,
    Sign::Not,
    Sign::Equal,
    Sign::All,
    Sign::Exists,
    Sign::Arrow,
    Sign::Star,
    Sign::At,
    Sign::Caret,
    Sign::Plus,
    Sign::Minus,
];

impl Sign {
    ghost use Rattle.tptp_lex.specs.Signs.{spelling};

    /// How it is written.
    pub fn text(self) -> &'static [u8]
        ensures { result.now ≡ spelling self }
    {
        match self {
            Sign::Iff => b"<=>",
            Sign::Xor => b"<~>",
            Sign::Implies => b"=>",
            Sign::If => b"<=",
            Sign::NotAnd => b"~&",
            Sign::NotOr => b"~|",
            Sign::NotEqual => b"!=",
            Sign::AllTypes => b"!>",
            Sign::Open => b"(",
            Sign::Close => b")",
            Sign::OpenList => b"[",
            Sign::CloseList => b"]",
            Sign::Comma => b",",
            Sign::Stop => b".",
            Sign::Colon => b":",
            Sign::And => b"&",
            Sign::Or => b"|",
            Sign::Not => b"~",
            Sign::Equal => b"=",
            Sign::All => b"!",
            Sign::Exists => b"?",
            Sign::Arrow => b">",
            Sign::Star => b"*",
            Sign::At => b"@",
            Sign::Caret => b"^",
            Sign::Plus => b"+",
            Sign::Minus => b"-",
        }
    }
}

// The first of these signs that the bytes begin with.
fn first_of(signs: &[Sign], bytes: &[u8]) -> Option<Sign>
    ensures value { result ≡ find (begins bytes.now) signs.now }
    ensures within { IfSome result (λ s. length (spelling s) ≤ length bytes.now) }
{
    for sign in signs {
        if bytes.starts_with(sign.text()) {
            return Some(*sign);
        }
    }
    None
}

// The sign of one byte that this byte tells: no longer sign begins with it.
fn alone(byte: u8) -> Option<Sign>
    ensures { IfSome result (IsTold byte) }
{
    match byte {
        b'(' => Some(Sign::Open),
        b')' => Some(Sign::Close),
        b',' => Some(Sign::Comma),
        b'.' => Some(Sign::Stop),
        b'[' => Some(Sign::OpenList),
        b']' => Some(Sign::CloseList),
        b':' => Some(Sign::Colon),
        b'&' => Some(Sign::And),
        b'|' => Some(Sign::Or),
        b'?' => Some(Sign::Exists),
        b'>' => Some(Sign::Arrow),
        b'*' => Some(Sign::Star),
        b'@' => Some(Sign::At),
        b'^' => Some(Sign::Caret),
        b'+' => Some(Sign::Plus),
        b'-' => Some(Sign::Minus),
        _ => None,
    }
}

// The first sign of the table that the bytes begin with.
fn table_sign(bytes: &[u8]) -> Option<Sign>
    ensures value { result ≡ find (begins bytes.now) SIGNS }
    ensures within { IfSome result (λ s. length (spelling s) ≤ length bytes.now) }
{
    match bytes {
        [] => None,
        [first, ..] => match alone(*first) {
            Some(sign) => Some(sign),
            None => first_of(&SIGNS, bytes),
        },
    }
}

/// The longest sign that the bytes begin with.
pub fn sign_at(bytes: &[u8]) -> Option<Sign>
    ensures value { result ≡ find (begins bytes.now) SIGNS }
    ensures within { IfSome result (λ s. length (spelling s) ≤ length bytes.now) }
    ensures longest { IfSome result (IsLongestSign bytes.now) }
{
    table_sign(bytes)
}
