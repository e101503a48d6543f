//! Pieces of a text as tokens.

ghost use Rattle.std.specs.Prelude.{◌≡◌};
ghost use Rattle.std.specs.Str.{bytes_eq};
ghost use Rattle.std.specs.Cmp.Lexicographic.{slice_cmp};
ghost use Rattle.std.specs.Ordering.{nat_cmp};
ghost use Rattle.rv_ltl.specs.inner.Texts.{texts};
ghost use Rattle.rv_text.specs.inner.Unreads.{IsReadAs};
ghost use Rattle.rv_text.specs.inner.Ascending.{Ascends};
ghost use Rattle.rv_ltl.specs.Tokens.{plain_of, unary_of, binary_of, token_of, tokens_of};

use crate::names::find;
use crate::token::{Binary, Token, Unary};
use rv_text::Unread;
use std::alloc::Global;

/// Whether the piece is this text.
fn is_text(piece: &[u8], text: &[u8]) -> bool
    ensures { result ≡ bytes_eq piece.now text.now }
{
    piece == text
}

fn plain(piece: &[u8]) -> Option<Token>
    ensures { result ≡ plain_of piece.now }
{
    if is_text(piece, b"(".as_slice()) {
        Some(Token::Open)
    } else if is_text(piece, b")".as_slice()) {
        Some(Token::Close)
    } else if is_text(piece, b"=".as_slice()) {
        Some(Token::Equals)
    } else if is_text(piece, b"true".as_slice()) {
        Some(Token::True)
    } else if is_text(piece, b"false".as_slice()) {
        Some(Token::False)
    } else {
        None
    }
}

fn unary(piece: &[u8]) -> Option<Unary>
    ensures { result ≡ unary_of piece.now }
{
    if is_text(piece, b"always".as_slice()) {
        Some(Unary::Always)
    } else if is_text(piece, b"eventually".as_slice()) {
        Some(Unary::Eventually)
    } else if is_text(piece, b"next".as_slice()) {
        Some(Unary::Next)
    } else if is_text(piece, b"not".as_slice()) {
        Some(Unary::Not)
    } else {
        None
    }
}

fn binary(piece: &[u8]) -> Option<Binary>
    ensures { result ≡ binary_of piece.now }
{
    if is_text(piece, b"and".as_slice()) {
        Some(Binary::And)
    } else if is_text(piece, b"or".as_slice()) {
        Some(Binary::Or)
    } else if is_text(piece, b"until".as_slice()) {
        Some(Binary::Until)
    } else if is_text(piece, b"release".as_slice()) {
        Some(Binary::Release)
    } else if is_text(piece, b"weak_until".as_slice()) {
        Some(Binary::WeakUntil)
    } else if is_text(piece, b"imply".as_slice()) {
        Some(Binary::Imply)
    } else if is_text(piece, b"equivalent".as_slice()) {
        Some(Binary::Equivalent)
    } else {
        None
    }
}

fn token(names: &[&[u8]], piece: &[u8]) -> Option<Token>
    requires { Ascends (slice_cmp nat_cmp) (texts names.now) }
    ensures { result ≡ token_of (texts names.now) piece.now }
{
    if let Some(mark) = plain(piece) {
        return Some(mark);
    }
    if let Some(op) = unary(piece) {
        return Some(Token::Unary(op));
    }
    if let Some(op) = binary(piece) {
        return Some(Token::Binary(op));
    }
    match find(names, piece) {
        Some(place) => Some(Token::Name(place)),
        None => None,
    }
}

/// The tokens of the pieces; the names are all names among them.
pub fn tokens(alloc: Global, names: &[&[u8]], pieces: &[&[u8]]) -> Result<Vec<Token>, Unread>
    requires { Ascends (slice_cmp nat_cmp) (texts names.now) }
    ensures { IsReadAs (λ v. v.items) result (tokens_of (texts names.now) (texts pieces.now)) }
{
    let mut out = Vec::new(alloc);
    'pieces: for piece in pieces {
        let Some(mark) = token(names, piece) else {
            return Err(Unread::Syntax);
        };
        out.push(mark)?;
    }
    Ok(out)
}
