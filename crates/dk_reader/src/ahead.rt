ghost use Rattle.std.specs.Prelude.{◌≡◌, map};
ghost use Rattle.std.specs.Option.{option_map};
ghost use Rattle.dk_reader.specs.Seen.{seen};
ghost use Rattle.dk_reader.specs.Spelled.{ends_term};
ghost use Rattle.dk_reader.specs.Machine.{is_colon, binder_name};

use crate::token::Token;

// Whether the token is a colon.
fn is_colon(token: Token) -> bool
    ensures { result ≡ is_colon (seen token.entry) }
{
    match token {
        Token::Colon => true,
        Token::Name(_, _)
        | Token::Type
        | Token::Def
        | Token::Becomes
        | Token::Arrow
        | Token::FatArrow
        | Token::LongArrow
        | Token::Point
        | Token::Comma
        | Token::OpenRound
        | Token::CloseRound
        | Token::OpenSquare
        | Token::CloseSquare
        | Token::LeftOut(_, _) => false,
    }
}

/// The name at the front that a colon follows, if one stands there.
pub fn binder_at<'a>(tokens: &[Token<'a>]) -> Option<&'a str>
    ensures { option_map (λ x. x.now) result ≡ binder_name (map seen tokens.now) }
{
    match tokens {
        [first, second, ..] => match *first {
            Token::Name(name, _) => { if is_colon(*second) { Some(name) } else { None } }
            Token::Type
            | Token::Def
            | Token::Colon
            | Token::Becomes
            | Token::Arrow
            | Token::FatArrow
            | Token::LongArrow
            | Token::Point
            | Token::Comma
            | Token::OpenRound
            | Token::CloseRound
            | Token::OpenSquare
            | Token::CloseSquare
            | Token::LeftOut(_, _) => None,
        },
        [_] | [] => None,
    }
}

/// Whether a term of an entry ends before these tokens.
pub fn ends_term(tokens: &[Token]) -> bool
    ensures { result ≡ ends_term (map seen tokens.now) }
{
    match tokens {
        [] => false,
        [first, ..] => match *first {
            Token::Becomes | Token::LongArrow | Token::Point | Token::Comma | Token::CloseSquare =>
                true,
            Token::Name(_, _)
            | Token::Type
            | Token::Def
            | Token::Colon
            | Token::Arrow
            | Token::FatArrow
            | Token::OpenRound
            | Token::CloseRound
            | Token::OpenSquare
            | Token::LeftOut(_, _) => false,
        },
    }
}
