//! What no clause says: which call of the store or the sink fails, and with which line or front of the report the run then ends.
use crate::files::{BINDINGS, REPORT, TRACE, store_of};
use crate::run;
use rv_io::{MemSink, OpenGate};
use std::test::Fail;

/// The most bytes that one put takes. The report is nine of them.
const PIECE: usize = 16;

/// What was put of the text before this put, counted from 1. No put is 0.
fn put_before(text: &str, put: usize) -> &[u8] {
    let bytes = text.as_bytes();
    if put == 0 {
        return bytes;
    }
    let count = PIECE.saturating_mul(put - 1);
    bytes.get(..count).unwrap_or(bytes)
}

#[test]
fn a_failed_call_ends_the_run(rt: HostRuntime) -> Result<(), Fail> {
    const UNREAD_TRACE: &str = "rv: cannot read wip.txt\n";
    // The read or the piece that fails, the most bytes of a piece, the put that fails, the status and the text. No
    // limit, and no call, are 0. A whole read is one call.
    const CASES: &[(u64, usize, usize, u8, &str)] = &[
        (1, 0, 0, 3, "rv: cannot read wip.rv\n"),
        (2, 0, 0, 3, "rv: cannot read wip.dot\n"),
        (3, 0, 0, 3, UNREAD_TRACE),
        // the piece that shows the end of the trace
        (4, 0, 0, 3, UNREAD_TRACE),
        (5, 0, 0, 1, REPORT),
        (0, 1, 0, 1, REPORT),
        (0, 7, 0, 1, REPORT),
        (0, 4096, 0, 1, REPORT),
        (4, 7, 0, 3, UNREAD_TRACE),
        (0, 0, 1, 4, REPORT),
        (0, 0, 2, 4, REPORT),
        (0, 0, 3, 4, REPORT),
        (0, 0, 4, 4, REPORT),
        (0, 0, 5, 4, REPORT),
        (0, 0, 6, 4, REPORT),
        (0, 0, 7, 4, REPORT),
        (0, 0, 8, 4, REPORT),
        (0, 0, 9, 4, REPORT),
        (0, 0, 10, 1, REPORT),
    ];
    for &(read, most, put, status, text) in CASES {
        let mut store = store_of(rt.alloc(), BINDINGS, TRACE)?;
        store.fail_at(read)?;
        if most > 0 {
            store.cut(most);
        }
        let mut out = MemSink::new(rt.alloc(), PIECE, 512)?;
        out.fail_at(put as u64)?;
        let words = "replay wip.rv wip.txt";
        let ended = run(&rt, rt.alloc(), words, &mut store, &mut out, &OpenGate)?;
        let agrees = ended == status && out.taken() == put_before(text, put);
        assert!(rt; agrees, "at read {read}, in pieces of {most}, at put {put}");
    }
    Ok(())
}

#[test]
fn a_long_line_without_a_blank_is_refused(rt: HostRuntime) -> Result<(), Fail> {
    let trace = vec![in rt.alloc(); b'x'; 1_000_000]?;
    let mut store = store_of(rt.alloc(), BINDINGS, TRACE)?;
    store.add("wip.txt", trace.as_slice())?;
    let mut out = MemSink::new(rt.alloc(), 512, 512)?;
    let words = "replay wip.rv wip.txt";
    let ended = run(&rt, rt.alloc(), words, &mut store, &mut out, &OpenGate)?;
    let text = b"rv: refused 24 in wip.txt line 1\n".as_slice();
    assert!(rt; ended == 2 && out.taken() == text);
    Ok(())
}
