//! What stands at the front of a text: a token, or what may stand between tokens.
ghost use Rattle.std.specs.Prelude.{◌≡◌, ◌<◌, ◌≤◌, ◌+◌, length, IfSome};
ghost use Rattle.std.specs.Option.{option_map};
ghost use Rattle.rv_dot.specs.Runs.{begins_with};
ghost use Rattle.rv_dot.specs.Tokens.{mark_of, comment_of, string_of, front_of};
ghost use Rattle.rv_dot.specs.inner.Held.{lexeme};

use crate::runs::{begins_with, is_word_byte, line_len, pair_len, string_len, word_len};
use crate::token::{DotToken, Mark};

fn mark(byte: u8) -> Option<Mark>
    ensures { result ≡ mark_of byte }
{
    match byte {
        b'{' => Some(Mark::OpenBrace),
        b'}' => Some(Mark::CloseBrace),
        b'[' => Some(Mark::OpenBracket),
        b']' => Some(Mark::CloseBracket),
        b'=' => Some(Mark::Equals),
        b';' => Some(Mark::Semicolon),
        b',' => Some(Mark::Comma),
        _ => None,
    }
}

/// Behind a slash: the bytes after the comment.
#[tactic(auto, unfolding(crate::specs::Tokens::comment_of))]
fn comment(rest: &[u8]) -> Option<(Option<DotToken<'_>>, &[u8])>
    ensures value { option_map (λ x. (option_map lexeme x.0, x.1.now)) result ≡ comment_of rest.now }
    ensures within { IfSome result (λ x. length x.1.now ≤ length rest.now) }
{
    if begins_with(rest, b'/') {
        return Some((None, &rest[line_len(rest)..]));
    }
    if !begins_with(rest, b'*') {
        return None;
    }
    let len = pair_len(&rest[1..], b'*', b'/')?;
    Some((None, &rest[len + 3..]))
}

/// Behind a quote: the string, and the bytes after it.
#[tactic(auto, unfolding(crate::specs::Tokens::string_of))]
fn string(rest: &[u8]) -> Option<(Option<DotToken<'_>>, &[u8])>
    ensures value { option_map (λ x. (option_map lexeme x.0, x.1.now)) result ≡ string_of rest.now }
    ensures within { IfSome result (λ x. length x.1.now ≤ length rest.now) }
{
    let len = string_len(rest)?;
    Some((Some(DotToken::Text(&rest[..len])), &rest[len + 1..]))
}

/// What stands at the front, and the bytes after it. Where the text is empty, nothing does.
#[tactic(auto, unfolding(crate::specs::Tokens::front_of))]
pub fn front(bytes: &[u8], starts_line: bool) -> Option<(Option<DotToken<'_>>, &[u8])>
    ensures value { option_map (λ x. (option_map lexeme x.0, x.1.now)) result ≡ front_of starts_line bytes.now }
    ensures within { IfSome result (λ x. length x.1.now < length bytes.now) }
{
    let [first, rest @ ..] = bytes else {
        return None;
    };
    match *first {
        b' ' | b'\t' | b'\r' | b'\n' => Some((None, rest)),
        b'#' if starts_line => Some((None, &rest[line_len(rest)..])),
        b'/' => comment(rest),
        b'"' => string(rest),
        b'-' => {
            if begins_with(rest, b'>') {
                Some((Some(DotToken::Sign(Mark::Arrow)), &rest[1..]))
            } else {
                None
            }
        }
        byte if is_word_byte(byte) => {
            let len = word_len(rest);
            Some((Some(DotToken::Word(&bytes[..len + 1])), &rest[len..]))
        }
        byte => {
            let mark = mark(byte)?;
            Some((Some(DotToken::Sign(mark)), rest))
        }
    }
}
