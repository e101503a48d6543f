//! A seat that reads the word of one slot, and keeps what it read.
ghost use Rattle.std.specs.Prelude.{◌≡◌, ◌<◌, ◌≤◌, [], length, vec_capacity, IfOk};
ghost use Rattle.rv_watch.specs.Watching.{CanWatch, IsWatcher, WatchesSlot};
ghost use Rattle.rv_watch.specs.inner.Watching.{CanRead, ReadsSlot};
ghost use Rattle.rv_watch.specs.inner.Words.{AppendsWord};

use rv_board::{Board, Seat};
use rv_io::Gate;
use std::alloc::{AllocError, Global};
use std::sync::atomic::{AtomicBool, Ordering};

/// The number of a watcher at its gate.
pub(crate) const WATCHER: u32 = 65;

/// How many words a watcher keeps.
const KEPT: usize = 1_024;

/// How often a watcher reads where nobody tells it to end.
const READINGS: u64 = 100_000_000;

/// A seat, the slot whose word it reads, the gate that it passes before each reading, and the words that it kept.
#[derive(Drop)]
pub struct Watcher<G> {
    pub seat: Seat,
    pub slot: u32,
    pub gate: G,
    pub words: Vec<u64>,
}

impl<G: Gate> Watcher<G> {
    /// It has no word yet, and room for all that it keeps.
    pub fn new(alloc: Global, seat: Seat, slot: u32, gate: G) -> Result<Watcher<G>, AllocError>
        ensures { IfOk result (λ watcher. IsWatcher seat slot watcher) }
    {
        let words = Vec::with_capacity(alloc, KEPT)?;
        Ok(Watcher {
            seat,
            slot,
            gate,
            words,
        })
    }
}

/// Keeps the word where it is not that before it, while there are fewer words than may be kept.
fn keep(words: &mut Vec<u64>, word: u64)
    requires few { length words.old.items ≤ 1024 }
    requires room { 1024 ≤ vec_capacity words.old }
    ensures words { AppendsWord words.old.items word words.new.items }
    ensures room { vec_capacity words.old ≤ vec_capacity words.new }
{
    if words.len() == KEPT || words.last() == Some(&word) {
        return;
    }
    match words.push(word) {
        Ok(()) => (),
        Err(_) => unreachable!(),
    }
}

/// One reading.
fn read<G: Gate>(board: &Board, watcher: &mut Watcher<G>)
    requires { CanRead board.now watcher.old }
    ensures { ReadsSlot watcher.old watcher.new }
{
    let word = board.word(&mut watcher.seat, watcher.slot);
    keep(&mut watcher.words, word);
}

/// Reads until `done` is found true after a reading, and at most so often. It passes its gate before each reading, and
/// waits for nobody.
pub fn watch<G: Gate>(board: &Board, watcher: &mut Watcher<G>, done: &AtomicBool)
    requires { CanWatch board.now watcher.old }
    ensures { WatchesSlot watcher.old watcher.new }
{
    watcher.seat.number();
    for reading in 0..READINGS {
        watcher.gate.pass(WATCHER, reading);
        read(board, watcher);
        if done.load(Ordering::SeqCst) {
            return;
        }
    }
}
