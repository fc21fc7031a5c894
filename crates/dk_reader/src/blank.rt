ghost use Rattle.std.specs.Prelude.{◌≡◌, ◌<◌, ◌≤◌, length, IfSome};
ghost use Rattle.std.specs.Option.{option_map};
ghost use Rattle.dk_text.specs.Tokens.{after_comment, one_blank, Skips};

use memchr::memmem;

// What follows the end of this comment, if it has one.
fn after_comment(bytes: &[u8]) -> Option<&[u8]>
    ensures value { option_map (λ r. r.now) result ≡ after_comment bytes.now }
    ensures shrinks { IfSome result (λ r. length r.now ≤ length bytes.now) }
{
    match memmem::find(bytes, b";)") {
        Some(end) => Some(&bytes[end + 2..]),
        None => None,
    }
}

// What follows the white space or the comment at the front, if there is one.
fn after_one(bytes: &[u8]) -> Option<&[u8]>
    ensures value { option_map (λ r. r.now) result ≡ one_blank bytes.now }
    ensures shrinks { IfSome result (λ r. length r.now < length bytes.now) }
{
    match bytes {
        [] => None,
        [first, rest @ ..] => match *first {
            b' ' | b'\t' | b'\r' | b'\n' => Some(rest),
            b'(' => match rest {
                [b';', inside @ ..] => after_comment(inside),
                _ => None,
            },
            _ => None,
        },
    }
}

/// What follows the white space and the comments at the front.
pub fn after_blank(bytes: &[u8]) -> &[u8]
    ensures value { Skips bytes.now result.now }
    ensures shrinks { length result.now ≤ length bytes.now }
{
    let mut rest = bytes;
    while let Some(after) = after_one(rest) {
        rest = after;
    }
    rest
}
