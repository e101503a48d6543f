//! Counts that go up where something is so.
ghost use Rattle.std.specs.Prelude.{◌≡◌, ◌+◌, ◌≤◌, ◌==◌, ◌&&◌, length, IfOk, OnOk, slice_index_or};
ghost use Rattle.rv_model.specs.declared.automaton.Edge.{Edge};
ghost use Rattle.rv_model.specs.Numbers.{has_bit, one_if};
ghost use Rattle.rv_reach.specs.Reached.{takes};
ghost use Rattle.rv_reach.specs.inner.RowSets.{is_move, rows_behind};
ghost use Rattle.rv_reach.specs.inner.Counters.{CountsMore};

use crate::judged::{Judged, is_move, is_run, rows_behind};
use rv_model::{Edge, Letter};
use std::alloc::AllocError;

/// One more where it counts. More than fit would be more deliveries than there is memory for.
#[inline(always)]
pub(crate) fn more(count: u64, counts: bool) -> Result<u64, AllocError>
    ensures { IfOk result (λ n. n ≡ count + one_if counts) }
{
    count.checked_add(u64::from(counts)).ok_or(AllocError)
}

/// Counts the bits of a set, of which the first count has the bit `first`. Those that are not set cost nothing.
#[inline(always)]
pub(crate) fn count_bits(counts: &mut Vec<u64>, set: u32, first: usize) -> Result<(), AllocError>
    requires { first ≤ 1 }
    ensures { OnOk result (CountsMore (λ k. has_bit set (k + first)) counts.old.items counts.new.items) }
{
    let mut rest = set >> first;
    while rest != 0 {
        let place = rest.trailing_zeros() as usize;
        if place >= counts.len() {
            return Ok(());
        }
        counts[place] = more(counts[place], true)?;
        rest &= !(1 << place);
    }
    Ok(())
}

/// One more at the place where it counts, if there is such a place.
#[inline(always)]
fn count_place(counts: &mut Vec<u64>, place: usize, is: bool) -> Result<(), AllocError>
    ensures { OnOk result (CountsMore (λ k. is && place == k) counts.old.items counts.new.items) }
{
    if is && place < counts.len() {
        counts[place] = more(counts[place], true)?;
    }
    Ok(())
}

/// Counts the edges of an event from one set of rows to another.
#[inline(always)]
fn count_moves(
    counts: &mut Vec<u64>,
    edges: &[Edge],
    event: u8,
    from: u32,
    to: u32,
) -> Result<(), AllocError>
    ensures { OnOk result ((none : Edge) → length edges.now ≡ length counts.old.items → CountsMore (λ k. is_move (slice_index_or edges.now k none) event from to) counts.old.items counts.new.items) }
{
    for place in 0..edges.len() {
        count_place(counts, place, is_move(&edges[place], event, from, to))?;
    }
    Ok(())
}

/// Counts the edges that a letter takes. It is asked once whether the letter may take any.
#[inline(always)]
pub(crate) fn count_edges(
    counts: &mut Vec<u64>,
    edges: &[Edge],
    judged: &Judged,
) -> Result<(), AllocError>
    ensures { OnOk result ((none : Edge) → length edges.now ≡ length counts.old.items → CountsMore (λ k. takes (slice_index_or edges.now k none) judged.now.mode judged.now.answer judged.now.letter judged.now.from (rows_behind judged.now.after)) counts.old.items counts.new.items) }
{
    if !is_run(judged.mode, judged.answer) {
        return Ok(());
    }
    match judged.letter {
        Letter::Event(event) => {
            count_moves(counts, edges, event, judged.from, rows_behind(judged.after))
        }
        Letter::Atoms(_) => Ok(()),
    }
}
