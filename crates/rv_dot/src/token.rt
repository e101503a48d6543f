//! From a text's bytes to its tokens.
ghost use Rattle.std.specs.Prelude.{◌≡◌, List, Some, IfOk, true};
ghost use Rattle.rv_dot.specs.Pieces.{Piece, SplitsInto, tokens_in};
ghost use Rattle.rv_text.specs.inner.Unreads.{IsReadAs};
ghost use Rattle.rv_dot.specs.Tokens.{tokens_of};
ghost use Rattle.rv_dot.specs.inner.Held.{lexemes};

use crate::front::front;
use rv_text::Unread;
use std::alloc::Global;

/// The marks.
#[derive(Clone, Copy)]
pub enum Mark {
    OpenBrace,
    CloseBrace,
    OpenBracket,
    CloseBracket,
    Equals,
    Semicolon,
    Comma,
    Arrow,
}

/// A token, which borrows the text.
#[derive(Clone, Copy)]
pub enum DotToken<'a> {
    Sign(Mark),
    Word(&'a [u8]),
    /// What stands between the quotes, as it is written.
    Text(&'a [u8]),
}

fn all(alloc: Global, bytes: &[u8]) -> Result<Vec<DotToken<'_>>, Unread>
    ensures { IsReadAs (λ v. lexemes v.items) result (tokens_of bytes.now) }
{
    let mut found = Vec::new(alloc);
    let mut starts_line = true;
    let mut rest = bytes;
    while let [first, ..] = rest {
        let Some((token, after)) = front(rest, starts_line) else {
            return Err(Unread::Syntax);
        };
        if let Some(token) = token {
            found.push(token)?;
        }
        starts_line = *first == b'\n';
        rest = after;
    }
    Ok(found)
}

/// The tokens of the text.
pub fn tokens(alloc: Global, bytes: &[u8]) -> Result<Vec<DotToken<'_>>, Unread>
    // The text is made of pieces, of which these are the tokens.
    ensures found { IfOk result (λ v. (ps : List Piece) × SplitsInto true bytes.now ps × (tokens_in ps ≡ lexemes v.items)) }
    // A text that is made of pieces is read, unless memory runs out.
    ensures only { (ps : List Piece) → SplitsInto true bytes.now ps → IsReadAs (λ v. lexemes v.items) result (Some (tokens_in ps)) }
    ensures exact { IsReadAs (λ v. lexemes v.items) result (tokens_of bytes.now) }
{
    all(alloc, bytes)
}
