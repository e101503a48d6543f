//! A rule file's text, cut into marks and words.

ghost use Rattle.std.specs.Prelude.{◌≡◌, ◌≤◌, ◌<◌, ℕ, length, map, false};
ghost use Rattle.rv_text.specs.inner.Unreads.{IsReadAs};
ghost use Rattle.rv_ltl.specs.Pieces.{is_whitespace, is_mark, is_word, pieces_of};
ghost use Rattle.rv_ltl.specs.inner.Lengths.{word_len, comment_len, piece_len, skipped};
ghost use Rattle.rv_ltl.specs.inner.Texts.{texts};

use rv_text::Unread;
use std::alloc::Global;

fn is_whitespace(b: u8) -> bool
    ensures { result ≡ is_whitespace b }
{
    b == 32 || b == 9 || b == 10 || b == 13
}

fn is_mark(b: u8) -> bool
    ensures { result ≡ is_mark b }
{
    b == 40 || b == 41 || b == 61
}

fn is_word(b: u8) -> bool
    ensures { result ≡ is_word b }
{
    (47 < b && b < 58) || (64 < b && b < 91) || (96 < b && b < 123) || b == 95
}

#[tactic(auto, using(crate::proofs::Cutting::word_step, crate::proofs::Cutting::word_stop, crate::proofs::Cutting::word_end))]
fn word_len(text: &[u8]) -> usize
    ensures within { result ≤ length text.now }
    ensures is { result ≡ word_len text.now }
{
    let mut n = 0;
    while n < text.len() {
        if !is_word(text[n]) {
            return n;
        }
        n += 1;
    }
    n
}

fn comment_len(text: &[u8]) -> usize
    ensures within { result ≤ length text.now }
    ensures is { result ≡ comment_len text.now }
{
    let mut n = 0;
    while n < text.len() {
        if text[n] == 10 {
            return n + 1;
        }
        n += 1;
    }
    n
}

/// How many bytes the word or mark in front has, or 0 where none stands there.
fn piece_len(text: &[u8]) -> usize
    ensures within { result ≤ length text.now }
    ensures is { result ≡ piece_len text.now }
{
    match text {
        [] => 0,
        [b, ..] => {
            let n = word_len(text);
            if n == 0 && is_mark(*b) { 1 } else { n }
        }
    }
}

pub fn pieces<'a>(alloc: Global, text: &'a [u8]) -> Result<Vec<&'a [u8]>, Unread>
    ensures { IsReadAs (λ v. texts v.items) result (pieces_of false text.now) }
{
    let mut out = Vec::new(alloc);
    let mut rest = text;
    while !rest.is_empty() {
        let n = piece_len(rest);
        if n > 0 {
            let (piece, others) = rest.split_at(n);
            out.push(piece)?;
            rest = others;
        } else {
            let skipped = skipped(rest);
            if skipped == 0 {
                return Err(Unread::Syntax);
            }
            let (_, others) = rest.split_at(skipped);
            rest = others;
        }
    }
    Ok(out)
}

/// How many bytes the blank or the comment in front has, or 0 where none stands there.
fn skipped(text: &[u8]) -> usize
    ensures within { result ≤ length text.now }
    ensures is { result ≡ skipped text.now }
{
    match text {
        [] => 0,
        [b, ..] => {
            if is_whitespace(*b) {
                1
            } else if *b == 35 {
                comment_len(text)
            } else {
                0
            }
        }
    }
}
