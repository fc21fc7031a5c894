ghost use Rattle.std.specs.Prelude.{◌≡◌};
ghost use Rattle.tptp_reader.specs.SlowForms.{head_of, follow_of, binder_sign};

use tptp_lex::Sign;

/// A quantifier.
#[derive(Clone, Copy)]
pub enum Binder {
    All,
    Ex,
}

/// What begins a unit: a negation, a quantifier, a bracket, or none of their signs.
#[derive(Clone, Copy)]
pub enum Head {
    Negation,
    Quantified(Binder),
    Bracket,
    Other,
}

/// What follows a unit: a connective that chains, one that joins just two, or none.
#[derive(Clone, Copy)]
pub enum Follow {
    Conjunction,
    Disjunction,
    Two(Sign),
    Nothing,
}

/// The sign of a quantifier.
pub fn binder_sign(binder: Binder) -> Sign
    ensures { result ≡ binder_sign binder }
{
    match binder {
        Binder::All => Sign::All,
        Binder::Ex => Sign::Exists,
    }
}

/// What the sign that comes next begins.
pub fn head_of(sign: Option<Sign>) -> Head
    ensures { result ≡ head_of sign }
{
    match sign {
        Some(Sign::Not) => Head::Negation,
        Some(Sign::All) => Head::Quantified(Binder::All),
        Some(Sign::Exists) => Head::Quantified(Binder::Ex),
        Some(Sign::Open) => Head::Bracket,
        Some(
            Sign::Close
            | Sign::OpenList
            | Sign::CloseList
            | Sign::Comma
            | Sign::Stop
            | Sign::Colon
            | Sign::And
            | Sign::Or
            | Sign::Implies
            | Sign::If
            | Sign::Iff
            | Sign::Xor
            | Sign::NotAnd
            | Sign::NotOr
            | Sign::Equal
            | Sign::NotEqual
            | Sign::AllTypes
            | Sign::Arrow
            | Sign::Star
            | Sign::At
            | Sign::Caret
            | Sign::Plus
            | Sign::Minus,
        ) => Head::Other,
        None => Head::Other,
    }
}

/// How the sign that comes next goes on with a unit.
pub fn follow_of(sign: Option<Sign>) -> Follow
    ensures { result ≡ follow_of sign }
{
    match sign {
        Some(Sign::And) => Follow::Conjunction,
        Some(Sign::Or) => Follow::Disjunction,
        Some(Sign::Implies) => Follow::Two(Sign::Implies),
        Some(Sign::If) => Follow::Two(Sign::If),
        Some(Sign::Iff) => Follow::Two(Sign::Iff),
        Some(Sign::Xor) => Follow::Two(Sign::Xor),
        Some(Sign::NotAnd) => Follow::Two(Sign::NotAnd),
        Some(Sign::NotOr) => Follow::Two(Sign::NotOr),
        Some(
            Sign::Open
            | Sign::Close
            | Sign::OpenList
            | Sign::CloseList
            | Sign::Comma
            | Sign::Stop
            | Sign::Colon
            | Sign::Not
            | Sign::Equal
            | Sign::NotEqual
            | Sign::All
            | Sign::Exists
            | Sign::AllTypes
            | Sign::Arrow
            | Sign::Star
            | Sign::At
            | Sign::Caret
            | Sign::Plus
            | Sign::Minus,
        ) => Follow::Nothing,
        None => Follow::Nothing,
    }
}
