//! Which rows of a set a letter lets in.
ghost use Rattle.std.specs.Prelude.{◌≡◌, ℕ, ◌<◌, ◌&&◌, ◌||◌, not};
ghost use Rattle.rv_model.specs.Numbers.{has_bit};
ghost use Rattle.rv_model.specs.Meaning.{true_on};
ghost use Rattle.rv_table.specs.inner.Numbered.{row_passes};

use crate::bits::without;
use crate::label::Label;

/// The rows of the set without those that have the label, if it is false on the letter.
fn filter(label: &Label, rows: u32, letter: u32) -> u32
    ensures { (q : ℕ) → q < 32 → has_bit result q ≡ (has_bit rows q && (not (has_bit label.now.rows q) || true_on letter label.now.masks)) }
{
    if rows & label.rows != 0 && !label.masks.holds(letter) {
        without(rows, label.rows)
    } else {
        rows
    }
}

/// The rows of the set that have no label that is false on the letter. No label is tested that no row of the set has.
pub fn filter_all(labels: &[Label], rows: u32, letter: u32) -> u32
    ensures { (q : ℕ) → q < 32 → has_bit result q ≡ (has_bit rows q && row_passes labels.now q letter) }
{
    let mut left = rows;
    for label in labels {
        left = filter(label, left, letter);
    }
    left
}
