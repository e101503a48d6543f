//! Two seats on one instance, and a gate at which one delivers between the tries of the other; and boards at their
//! limits.
ghost use Rattle.std.specs.Prelude.{◌≡◌, ◌<◌, [], ◌∷◌, sum, IfOk, length};
ghost use Rattle.rv_model.specs.inner.EventTables.{event_count};
ghost use Rattle.rv_core.specs.Setup.{table_at};

use crate::seats::{join_all, split_all};
use crate::setup::one_instance;
use rv_board::{Board, BoardStart, Delivered, Seat};
use rv_core::Setup;
use rv_gen::wip;
use rv_io::{Gate, OpenGate};
use rv_model::{Answer, Hit, Mode, Scope, What};
use rv_slots::{MAX_TASKS, Shape};
use rv_table::Table;
use std::alloc::{AllocError, Global};
use std::process::Abort;
use std::test::Fail;

/// The words of the instance: it waits, it can be preempted, it can't.
const WAITS: u64 = 4_294_967_296;

const CAN: u64 = 8_589_934_592;

const CANNOT: u64 = 17_179_869_184;

/// Preemption is disabled, as an event that is no start.
const DISABLE: Hit = Hit {
    mode: Mode::Event,
    what: What::Da { event: 0 },
};

/// Preemption is enabled, as an event that is no start.
const ENABLE: Hit = Hit {
    mode: Mode::Event,
    what: What::Da { event: 1 },
};

/// Preemption is enabled, as a start.
const START: Hit = Hit {
    mode: Mode::Start,
    what: What::Da { event: 1 },
};

/// A board of one instance.
fn one_board(alloc: Global) -> Result<BoardStart, AllocError>
    ensures seat { IfOk result (λ start. (start.seat.board ≡ start.board) × (start.seat.part.number ≡ 0) × (start.seat.part.end ≡ 67)) }
    ensures slot { IfOk result (λ start. 0 < sum start.board.setup.shape) }
    ensures events { IfOk result (λ start. event_count (table_at start.board.setup 0) ≡ 3) }
{
    Board::new(alloc, one_instance(alloc)?)
}

/// Another seat of the board, which disables and enables preemption in turn.
#[derive(Drop)]
struct Other<'a> {
    board: &'a Board,
    seat: Seat,
    /// Whether it delivers twice before the first try.
    twice: bool,
    /// Whether it delivers before each later one.
    again: bool,
    /// Whether it has disabled preemption.
    disabled: bool,
    tries: u32,
    ghost same: { seat.board ≡ board.now },
    ghost slot: { 0 < sum board.now.setup.shape },
    ghost events: { event_count (table_at board.now.setup 0) ≡ 3 },
}

impl Other<'_> {
    #[tactic(auto, using(crate::proofs::EventLemmas::fits_event))]
    fn deliver(&mut self) -> Delivered {
        let hit = if self.disabled { ENABLE } else { DISABLE };
        let board = self.board;
        self.disabled = !self.disabled;
        board.deliver(&mut self.seat, 1, 0, &hit, &mut OpenGate)
    }

    fn before(&mut self, lost: u32) {
        self.tries = self.tries.wrapping_add(1);
        if lost > 0 && !self.again {
            return;
        }
        self.deliver();
        if self.twice {
            self.deliver();
        }
    }
}

/// The gate at which it delivers.
#[derive(Drop)]
enum Rival<'a> {
    Nobody,
    Somebody(Other<'a>),
}

impl Gate for Rival<'_> {
    fn for_cpu(&self, _cpu: u32) -> Self {
        Rival::Nobody
    }

    fn pass(&mut self, _cpu: u32, _turn: u64) {}

    fn between(&mut self, _cpu: u32, lost: u32) {
        if let Rival::Somebody(other) = self {
            other.before(lost);
        }
    }
}

/// How the other seat races with a delivery, and whether an end or a clear wakes the instance behind it.
#[derive(Clone, Copy, Drop)]
struct Race {
    twice: bool,
    again: bool,
    ends: bool,
}

/// What a delivery came to that the other seat raced with.
#[derive(Clone, Copy, Drop, PartialEq, Eq)]
struct Raced {
    outcome: Delivered,
    word: u64,
    tries: u32,
    /// The other seat's next delivery.
    next: Delivered,
    /// The word once the instance was woken.
    woken: u64,
    /// A start of it then.
    started: Delivered,
}

/// Runs the race.
#[tactic(auto, using(crate::proofs::EventLemmas::fits_event))]
fn run_race(rt: &impl Abort, alloc: Global, race: Race) -> Result<Raced, AllocError> {
    let BoardStart { board, mut seat } = one_board(alloc)?;
    let mut third = board.split(&mut seat, 3);
    let mut own = board.split(&mut seat, 2);
    let mut actor = board.split(&mut seat, 1);
    board.deliver(&mut third, 1, 0, &START, &mut OpenGate);
    let mut gate = Rival::Somebody(Other {
        board: &board,
        seat: third,
        twice: race.twice,
        again: race.again,
        disabled: false,
        tries: 0,
    });
    let outcome = board.deliver(&mut own, 0, 0, &DISABLE, &mut gate);
    let word = board.word(&mut own, 0);
    let Rival::Somebody(mut other) = gate else {
        panic!(rt; "the gate was taken away");
    };
    let next = other.deliver();
    if race.ends {
        board.end(&mut own, 0);
    } else {
        board.clear(&mut actor, 0);
    }
    let woken = board.word(&mut own, 0);
    let started = board.deliver(&mut own, 0, 0, &START, &mut OpenGate);
    Ok(Raced {
        outcome,
        word,
        tries: other.tries,
        next,
        woken,
        started,
    })
}

#[test]
fn three_lost_tries_stop_an_instance_until_it_is_woken(rt: HostRuntime) -> Result<(), Fail> {
    // two deliveries bring the word back, which is no lost try; one loses the first try; and one before each loses all
    const CASES: &[(bool, bool, bool, Delivered, u64, u32, Delivered)] = &[
        (
            true,
            false,
            false,
            Delivered::Done(Answer::Kept),
            CANNOT,
            1,
            Delivered::Done(Answer::Failed(4)),
        ),
        (
            false,
            false,
            false,
            Delivered::Done(Answer::Failed(4)),
            WAITS,
            2,
            Delivered::Done(Answer::Passed),
        ),
        (
            false,
            true,
            false,
            Delivered::Racing,
            0,
            3,
            Delivered::Done(Answer::Passed),
        ),
        (
            false,
            true,
            true,
            Delivered::Racing,
            0,
            3,
            Delivered::Done(Answer::Passed),
        ),
    ];
    for &(twice, again, ends, outcome, word, tries, next) in CASES {
        let wanted = Raced {
            outcome,
            word,
            tries,
            next,
            woken: WAITS,
            started: Delivered::Done(Answer::Started),
        };
        let race = Race { twice, again, ends };
        assert!(rt;
            run_race(&rt, rt.alloc(), race)? == wanted,
            "after {tries} tries"
        );
    }
    Ok(())
}

#[test]
fn all_seats_are_split_joined_and_closed(rt: HostRuntime) -> Result<(), Fail> {
    let BoardStart { board, mut seat } = one_board(rt.alloc())?;
    cross(&board, &seat);
    let seats = split_all(rt.alloc(), &board, &mut seat)?;
    assert!(rt; seats.len() == 66);
    for (place, other) in seats.iter().enumerate() {
        let number = other.number();
        assert!(rt; number as usize + place == 66 && other.end() == number + 1);
    }
    assert!(rt; seat.end() == 1);
    join_all(&board, &mut seat, seats);
    assert!(rt; seat.number() == 0 && seat.end() == 1);
    board.close(seat);
    Ok(())
}

/// As many monitors as there may be, each of as many tasks as there may be.
fn full_setup(alloc: Global) -> Result<Setup, AllocError>
    ensures { IfOk result (λ setup. length setup.shape ≡ 32) }
{
    let automaton = wip(alloc)?;
    let shape = Shape::new(alloc, &[Scope::Task; 32], MAX_TASKS)?;
    let mut tables = Vec::new(alloc);
    let mut starts = Vec::new(alloc);
    for _ in 0..32usize {
        tables.push(Table::from_automaton(alloc, &automaton)?)?;
        starts.push(0)?;
    }
    Ok(Setup {
        shape,
        tables,
        starts,
        switches: 1 << 32,
    })
}

#[test]
fn a_full_board_has_all_its_words(rt: HostRuntime) -> Result<(), Fail> {
    let setup = full_setup(rt.alloc())?;
    let BoardStart { board, mut seat } = Board::new(rt.alloc(), setup)?;
    let slots = board.shape().slots();
    assert!(rt; slots == 2_097_152);
    assert!(rt; board.word(&mut seat, 0) == WAITS && board.word(&mut seat, slots - 1) == WAITS);
    board.close(seat);
    Ok(())
}

/// What threads may share.
fn shared<T: Sync>(_value: &T) {}

/// What may go to another thread.
fn sent<T: Send>(_value: &T) {}

/// Threads share a board, and each has a seat.
fn cross(board: &Board, seat: &Seat) {
    shared(board);
    sent(seat);
}
