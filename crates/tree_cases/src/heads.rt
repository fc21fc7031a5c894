/// What a type is made by.
#[derive(Clone, Copy)]
pub(crate) enum TypeHead {
    Bound(u32),
    Param(u64),
    Meta(u64),
    Con(u32),
}

/// What a term is made by.
#[derive(Clone, Copy)]
pub(crate) enum TermHead {
    Bound(u32),
    Eps(u64),
    Meta(u64),
    App(u32),
}

/// What makes one formula of two.
#[derive(Clone, Copy)]
pub(crate) enum Connective {
    And,
    Or,
    Imp,
    Iff,
}

/// What a formula is made by.
#[derive(Clone, Copy)]
pub(crate) enum FormHead {
    True,
    False,
    Atom(u32),
    Equal,
    Not,
    Binary(Connective),
    All,
    Ex,
    AllType,
    ExType,
}

/// The first word of a tree, or the one word of a leaf.
#[derive(Clone, Copy)]
pub(crate) enum Head {
    OfType(TypeHead),
    OfTerm(TermHead),
    OfForm(FormHead),
}

// The head that a name stands for.
fn named(word: &[u8]) -> Option<Head> {
    Some(match word {
        b"i" => Head::OfType(TypeHead::Con(0)),
        b"true" => Head::OfForm(FormHead::True),
        b"false" => Head::OfForm(FormHead::False),
        b"=" => Head::OfForm(FormHead::Equal),
        b"not" => Head::OfForm(FormHead::Not),
        b"and" => Head::OfForm(FormHead::Binary(Connective::And)),
        b"or" => Head::OfForm(FormHead::Binary(Connective::Or)),
        b"imp" => Head::OfForm(FormHead::Binary(Connective::Imp)),
        b"iff" => Head::OfForm(FormHead::Binary(Connective::Iff)),
        b"all" => Head::OfForm(FormHead::All),
        b"ex" => Head::OfForm(FormHead::Ex),
        b"allt" => Head::OfForm(FormHead::AllType),
        b"ext" => Head::OfForm(FormHead::ExType),
        _ => return None,
    })
}

/// The number that decimal digits write.
pub(crate) fn decimal(digits: &[u8]) -> Option<u64> {
    match std::str::from_utf8(digits) {
        Ok(text) => text.parse::<u64>().ok(),
        Err(_) => None,
    }
}

// The same of numbers of 32 bits.
fn small(digits: &[u8]) -> Option<u32> {
    match decimal(digits) {
        Some(number) => u32::try_from(number).ok(),
        None => None,
    }
}

// The head that a letter and a number of 32 bits stand for.
fn with_symbol(letter: u8, number: u32) -> Option<Head> {
    match letter {
        b'\'' => Some(Head::OfType(TypeHead::Bound(number))),
        b'c' => Some(Head::OfType(TypeHead::Con(number))),
        b'#' => Some(Head::OfTerm(TermHead::Bound(number))),
        b'f' => Some(Head::OfTerm(TermHead::App(number))),
        b'p' => Some(Head::OfForm(FormHead::Atom(number))),
        _ => None,
    }
}

// The head that a letter and a number of 64 bits stand for.
fn with_number(letter: u8, number: u64) -> Option<Head> {
    match letter {
        b't' => Some(Head::OfType(TypeHead::Param(number))),
        b'?' => Some(Head::OfType(TypeHead::Meta(number))),
        b'e' => Some(Head::OfTerm(TermHead::Eps(number))),
        b'm' => Some(Head::OfTerm(TermHead::Meta(number))),
        _ => None,
    }
}

// The head that a letter and digits stand for.
fn numbered(letter: u8, digits: &[u8]) -> Option<Head> {
    match letter {
        b't' | b'?' | b'e' | b'm' => with_number(letter, decimal(digits)?),
        _ => with_symbol(letter, small(digits)?),
    }
}

/// The head that a word stands for.
pub(crate) fn head_of(word: &[u8]) -> Option<Head> {
    match named(word) {
        Some(head) => Some(head),
        None => match word {
            [letter, digits @ ..] => numbered(*letter, digits),
            [] => None,
        },
    }
}
