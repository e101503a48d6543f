//! Words of a slot as text.
ghost use Rattle.std.specs.Prelude.{◌≡◌, ◌++◌, [], ◌∷◌, IfOk, OnOk};
ghost use Rattle.rv_watch.specs.Texts.{word_line, words_text};

use rv_text::Line;
use rv_word::{atoms_of, set_of};
use std::alloc::{AllocError, Global};

/// Appends a word's line.
fn print_word(text: &mut Line, word: u64) -> Result<(), AllocError>
    ensures { OnOk result (text.new ≡ text.old ++ word_line word) }
{
    text.text(b"watch: set ")?;
    text.number(set_of(word) as u64)?;
    text.text(b" atoms ")?;
    text.number(atoms_of(word) as u64)?;
    text.text(b"\n")?;
    Ok(())
}

/// A line for each word that was kept, and for the last one.
pub fn watch_lines(alloc: Global, kept: &[u64], last: u64) -> Result<Vec<u8>, AllocError>
    ensures { IfOk result (λ text. text.items ≡ words_text (kept.now ++ last ∷ [])) }
{
    let mut text = Line::new(alloc);
    for word in kept {
        print_word(&mut text, *word)?;
    }
    print_word(&mut text, last)?;
    Ok(text.into_bytes())
}
