use tptp_lex::Sign;

/// A word behind a dollar sign: one that the language gives a meaning, or another.
#[derive(Clone, Copy, Debug, PartialEq, Eq)]
pub enum Defined {
    /// `$true`
    True,
    /// `$false`
    False,
    /// `$i`
    Individual,
    /// `$o`
    Truth,
    /// `$tType`
    Kind,
    Other,
}

/// A token of a statement. A quoted name is what stands between its marks.
#[derive(Clone, Copy, Debug)]
pub enum Lexeme<'a> {
    Lower(&'a str),
    Upper(&'a str),
    Defined(Defined),
    Quoted(&'a str),
    Distinct,
    Number(&'a str),
    Sign(Sign),
}
