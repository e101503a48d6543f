//! The rows that follow a set of rows.
ghost use Rattle.std.specs.Prelude.{◌≡◌, ℕ, ◌<◌, ◌≤◌, ◌&&◌, ◌||◌, length};
ghost use Rattle.rv_model.specs.Letters.{atoms_in};
ghost use Rattle.rv_model.specs.Numbers.{has_bit};
ghost use Rattle.rv_model.specs.Table.{of_events, of_labels, entry_by, is_next, node_at};
ghost use Rattle.rv_model.specs.Stepping.{step_set};
ghost use Rattle.rv_model.specs.declared.hit.Letter.{Letter};
ghost use Rattle.rv_model.specs.declared.hit.Letter.TheVariants.{Event};
ghost use Rattle.rv_table.specs.inner.Numbered.{some_next};
ghost use Rattle.rv_table.specs.Rows.{IsEventRows, IsLabelRows};

use crate::bits::{lowest, with, without_member};
use crate::nodes::Nodes;
use crate::row::Row;

/// The entry of a row by the event.
fn entry(rows: &[Row], row: u8, event: u8) -> Option<u8>
    ensures { result ≡ entry_by rows.now row (Event event) }
{
    match rows.get(row as usize) {
        Some(next) => next.get(event),
        None => None,
    }
}

/// The set with the row that follows this one, if one does.
fn follow(rows: &[Row], out: u32, row: u8, event: u8) -> u32
    requires { IsEventRows rows.now }
    ensures { (q : ℕ) → q < 32 → has_bit result q ≡ (has_bit out q || is_next (entry_by rows.now row (Event event)) q) }
{
    match entry(rows, row, event) {
        Some(next) => with(out, next),
        None => out,
    }
}

/// The rows that follow a row of the set by the event, in an automaton's table.
pub fn follow_events(rows: &[Row], set: u32, event: u8) -> u32
    requires { IsEventRows rows.now }
    ensures { (count : ℕ) → result ≡ step_set (of_events count rows.now) set (Event event) }
{
    let mut out = 0;
    let mut rest = set;
    while rest != 0 {
        let row = lowest(rest);
        out = follow(rows, out, row, event);
        rest = without_member(rest, row);
    }
    out
}

/// The set with the next rows of this row. Past the last row there are none.
#[tactic(auto, using(rv_model::proofs::SetLemmas::has_or))]
fn join(next: u32, row: u8, nodes: &Nodes) -> u32
    ensures { (q : ℕ) → has_bit result q ≡ (has_bit next q || has_bit (node_at nodes.now row).next q) }
{
    if (row as usize) < nodes.len() {
        next | nodes.next(row as usize)
    } else {
        next
    }
}

/// The next rows of the set's rows.
fn next_of(nodes: &Nodes, set: u32) -> u32
    requires { length nodes.now ≤ 32 }
    ensures { (q : ℕ) → has_bit result q ≡ some_next nodes.now set (length nodes.now) q }
{
    let mut next = 0;
    let mut left = set;
    while left != 0 {
        let row = lowest(left);
        next = join(next, row, nodes);
        left = without_member(left, row);
    }
    next
}

/// The rows that follow a row of the set by the letter, in a formula's table.
#[inline(never)]
pub fn follow_labels(nodes: &Nodes, set: u32, letter: u32) -> u32
    requires { IsLabelRows nodes.now }
    ensures { (x : Letter) → atoms_in x ≡ letter → result ≡ step_set (of_labels nodes.now) set x }
{
    nodes.entered(next_of(nodes, set), letter)
}
