//! What no clause says of a recorded run: that the CPUs run at once, and where the entry of a stop stands.
use crate::feeding::race;
use crate::files::{GLOBAL, RACE, store_of};
use crate::run_held;
use rv_io::MemStore;
use rv_journal::read_entry;
use rv_model::Act;
use rv_text::Cursor;
use std::alloc::{AllocError, Global};
use std::test::Fail;
use std::thread::Threads;

/// Five turns of CPU 0, and one of CPU 1.
const MIRRORED: &str = "t-1 [000] 1.000001: preempt_enable:
t-1 [000] 1.000002: preempt_disable:
t-1 [000] 1.000003: preempt_enable:
t-1 [000] 1.000004: preempt_disable:
t-1 [000] 1.000005: sched_waking:
t-1 [001] 1.000006: preempt_disable:
";

/// The seats that stopped an instance, in order.
fn stops(alloc: Global, journal: &str) -> Result<Vec<u32>, AllocError> {
    let mut seats = Vec::new(alloc);
    let mut lines = Cursor::new(journal.as_bytes());
    for _ in 0..64u32 {
        let Some(line) = lines.next_line() else {
            break;
        };
        if let Some(entry) = read_entry(line.bytes) {
            if let Act::Stop { .. } = entry.act {
                seats.push(entry.seat)?;
            }
        }
    }
    Ok(seats)
}

/// The line of this number, with its line end; and the journal without it.
fn split_out(alloc: Global, journal: &str, number: u32) -> Result<(Vec<u8>, Vec<u8>), AllocError> {
    let mut taken = Vec::new(alloc);
    let mut rest = Vec::new(alloc);
    let mut lines = Cursor::new(journal.as_bytes());
    for _ in 0..64u32 {
        let Some(line) = lines.next_line() else {
            break;
        };
        let part = if line.number == number {
            &mut taken
        } else {
            &mut rest
        };
        part.extend_from_slice(line.bytes)?;
        part.push(b'\n')?;
    }
    Ok((taken, rest))
}

/// Whether `check` answers so to a journal of the store's trace.
fn is_judged<R: Threads + Sync>(
    rt: &R,
    alloc: Global,
    store: &mut MemStore,
    journal: &[u8],
    status: u8,
    answer: &str,
) -> Result<bool, AllocError> {
    store.add("wip.journal", journal)?;
    let came = run_held(rt, alloc, "check wip.rv wip.txt wip.journal", store, &[])?;
    Ok(came.is(status, answer))
}

#[test]
fn a_race_leaves_the_journal_of_a_history(rt: HostRuntime) -> Result<(), Fail> {
    let alloc = rt.alloc();
    let of_first = "2 deliver 0 event da 0 8589934592 17179869184\n";
    let of_second = "3 deliver 0 event da 0 8589934592 17179869184\n";
    // Who loses, to whom, the trace, the loser's seat, and the line of the other's second turn.
    for (loser, other, trace, seat, second) in [
        (0, 1, RACE, 2, of_second),
        (1, 0, MIRRORED, 3, of_first),
    ] {
        let mut store = store_of(alloc, GLOBAL, trace)?;
        let waits = race(loser, other);
        let came = run_held(&rt, alloc, "journal wip.rv wip.txt", &mut store, &waits)?;
        let journal = came.text();
        let stops = stops(alloc, journal)?;
        let (fourth, _) = split_out(alloc, journal, 4)?;
        let (fifth, short) = split_out(alloc, journal, 5)?;
        let agrees = came.status == 6
            && came.late == 0
            && stops.as_slice() == [seat].as_slice()
            && fifth.as_slice() == second.as_bytes()
            && is_judged(&rt, alloc, &mut store, journal.as_bytes(), 0, "yes\n")?
            && is_judged(&rt, alloc, &mut store, short.as_slice(), 1, "no: line 5\n")?;
        assert!(rt; agrees, "by {seat}: {journal}");
        if seat == 3 {
            let look = b"3 look 12884901889 12884901889\n";
            assert!(rt; fourth.as_slice() == look.as_slice(), "{journal}");
        }
    }
    Ok(())
}
