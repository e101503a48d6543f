//! Labels, each once for all the rows that have it.
ghost use Rattle.std.specs.Prelude.{◌≡◌, ◌≢◌, ℕ, ◌<◌, ◌==◌, ◌&&◌, ◌||◌, not, map, length, All, IfOk, IfSome, IfNone, OnOk};
ghost use Rattle.rv_model.specs.Numbers.{has_bit};
ghost use Rattle.rv_model.specs.Formulas.{ltl};
ghost use Rattle.rv_model.specs.Meaning.{true_on};
ghost use Rattle.rv_table.specs.inner.Numbered.{AreEntered, KeepsNumbers, label_at, row_passes};
ghost use Rattle.rv_model.specs.Labels.{IsLabel};

use crate::bits::with;
use rv_labels::Masks;
use rv_model::Formula;
use std::alloc::{AllocError, Global};

/// A label, which is known by its place in the list.
#[derive(Drop)]
pub struct Label {
    pub masks: Masks,
    /// The rows that have it.
    pub rows: u32,
}

/// The number of this label, if the list has it.
fn number_of(labels: &[Label], label: &Formula) -> Option<usize>
    ensures within { IfSome result (λ number. number < length labels.now) }
    ensures label { IfSome result (λ number. label_at labels.now number ≡ ltl label.now) }
    ensures none { IfNone result ((number : ℕ) → number < length labels.now → label_at labels.now number ≢ ltl label.now) }
{
    for number in 0..labels.len() {
        if labels[number].masks.label().equals(label) {
            return Some(number);
        }
    }
    None
}

/// The label's number, with the row put among those that have it.
fn enter(
    alloc: Global,
    labels: &mut Vec<Label>,
    label: &Formula,
    row: u8,
) -> Result<usize, AllocError>
    requires row { row < 32 }
    requires label { IsLabel (ltl label.now) }
    ensures within { IfOk result (λ number. number < length labels.new.items) }
    ensures label { IfOk result (λ number. label_at labels.new.items number ≡ ltl label.now) }
    ensures kept { OnOk result (KeepsNumbers labels.old.items labels.new.items) }
    ensures told { OnOk result ((q letter : ℕ) → q < 32 → row_passes labels.new.items q letter ≡ (row_passes labels.old.items q letter && (not (row == q) || true_on letter (ltl label.now)))) }
{
    if let Some(number) = number_of(labels, label) {
        labels[number].rows = with(labels[number].rows, row);
        return Ok(number);
    }
    let number = labels.len();
    let masks = Masks::new(alloc, label)?;
    labels.push(Label {
        masks,
        rows: with(0, row),
    })?;
    Ok(number)
}

/// The numbers of a row's labels, with the row put among those that have them.
pub fn enter_all(
    alloc: Global,
    labels: &mut Vec<Label>,
    wanted: &[Formula],
    row: u8,
) -> Result<Vec<usize>, AllocError>
    requires row { row < 32 }
    requires labels { All (λ label. IsLabel (ltl label)) wanted.now }
    ensures { IfOk result (λ numbers. AreEntered labels.old.items labels.new.items row (map ltl wanted.now) numbers.items) }
{
    let mut numbers = Vec::new(alloc);
    for label in wanted {
        numbers.push(enter(alloc, labels, label, row)?)?;
    }
    Ok(numbers)
}
