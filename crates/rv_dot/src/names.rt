//! What tokens say as names and values, and which names are of states, events and markers.
ghost use Rattle.std.specs.Prelude.{◌≡◌, ◌&&◌, ◌==◌, not, IfOk};
ghost use Rattle.std.specs.List.{list_all};
ghost use Rattle.rv_dot.specs.Runs.{is_word_byte};
ghost use Rattle.std.specs.Option.{option_map};
ghost use Rattle.rv_dot.specs.inner.Held.{lexeme, bytes_of};
ghost use Rattle.rv_dot.specs.Names.{content_of, name_byte, name_of, is_marker, is_state_name, is_event_name, is_marking_shape};

use crate::runs::is_word_byte;
use crate::token::DotToken;
use std::alloc::{AllocError, Global};

/// What a word or a string holds.
pub fn content<'a>(token: DotToken<'a>) -> &'a [u8]
    ensures { result.now ≡ content_of (lexeme token.entry) }
{
    match token {
        DotToken::Sign(_) => b"",
        DotToken::Word(bytes) => bytes,
        DotToken::Text(bytes) => bytes,
    }
}

/// In a name every comma reads as `_`.
fn name_byte(byte: u8) -> u8
    ensures { result ≡ name_byte byte }
{
    if byte == b',' { b'_' } else { byte }
}

/// The name that a word or a string is.
pub fn name(alloc: Global, token: DotToken<'_>) -> Result<Vec<u8>, AllocError>
    ensures { IfOk result (λ v. v.items ≡ name_of (lexeme token.entry)) }
{
    content(token)
        .iter()
        .map(|byte| name_byte(*byte))
        .collect(alloc)
}

/// Whether the name is a marker's.
pub fn is_marker(name: &[u8]) -> bool
    ensures { result ≡ is_marker name.now }
{
    name.starts_with(b"__init_")
}

fn has_state_bytes(name: &[u8]) -> bool
    ensures { result ≡ list_all is_word_byte name.now }
{
    name.iter().all(|byte| is_word_byte(*byte))
}

fn has_event_bytes(name: &[u8]) -> bool
    ensures { result ≡ list_all (λ b. is_word_byte b && not (b == 46)) name.now }
{
    name.iter().all(|byte| is_word_byte(*byte) && *byte != b'.')
}

/// Whether the name has 1 to 64 letters, digits, `_` and `.`.
pub fn is_state_name(name: &[u8]) -> bool
    ensures { result ≡ is_state_name name.now }
{
    !name.is_empty() && name.len() <= 64 && has_state_bytes(name)
}

/// Whether the name has 1 to 64 letters, digits and `_`.
pub fn is_event_name(name: &[u8]) -> bool
    ensures { result ≡ is_event_name name.now }
{
    !name.is_empty() && name.len() <= 64 && has_event_bytes(name)
}

/// Whether the shape marks the state that is declared with it.
pub fn is_marking_shape(shape: Option<&[u8]>) -> bool
    ensures { result ≡ is_marking_shape (option_map bytes_of shape.entry) }
{
    match shape {
        None => false,
        Some(shape) => shape == b"doublecircle".as_slice() || shape == b"ellipse".as_slice(),
    }
}
