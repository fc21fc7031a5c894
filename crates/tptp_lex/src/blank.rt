ghost use Rattle.std.specs.Prelude.{◌≡◌, ◌<◌, ◌≤◌, [], Some, None, length, IfSome, List, ℕ};
ghost use Rattle.std.specs.Option.{option_map};
ghost use Rattle.tptp_lex.specs.Blank.{after_line, after_block, after_slash, one_blank, Skips};

use memchr::{memchr, memmem};

// What follows the rest of this line.
fn after_line(bytes: &[u8]) -> &[u8]
    ensures value { result.now ≡ after_line bytes.now }
    ensures shrinks { length result.now ≤ length bytes.now }
{
    match memchr(b'\n', bytes) {
        Some(end) => &bytes[end + 1..],
        None => &bytes[bytes.len()..],
    }
}

// What follows the end of this comment, if it has one.
fn after_block(bytes: &[u8]) -> Option<&[u8]>
    ensures value { option_map (λ r. r.now) result ≡ after_block bytes.now }
    ensures shrinks { IfSome result (λ r. length r.now ≤ length bytes.now) }
{
    match memmem::find(bytes, b"*/") {
        Some(end) => Some(&bytes[end + 2..]),
        None => None,
    }
}

// What follows the white space or the comment at the front, if there is one.
fn after_one(bytes: &[u8]) -> Option<&[u8]>
    ensures value { option_map (λ r. r.now) result ≡ one_blank bytes.now }
    ensures shrinks { IfSome result (λ r. length r.now < length bytes.now) }
{
    match bytes {
        [] => None,
        [first, rest @ ..] => match *first {
            b' ' | b'\t' | b'\r' | b'\n' => Some(rest),
            b'%' => Some(after_line(rest)),
            b'/' => match rest {
                [b'*', inside @ ..] => after_block(inside),
                _ => None,
            },
            _ => None,
        },
    }
}

/// What follows the white space and the comments at the front.
pub fn after_blank(bytes: &[u8]) -> &[u8]
    ensures value { Skips bytes.now result.now }
    ensures shrinks { length result.now ≤ length bytes.now }
{
    let mut rest = bytes;
    while let Some(after) = after_one(rest) {
        rest = after;
    }
    rest
}
