//! The lines of entries, by texts from outside, and lines that are none.
use rv_journal::{journal_text, read_entry};
use rv_model::{Act, Entry, Hit, Mode, What};
use std::test::Fail;

/// An entry of seat 2.
fn entry(act: Act, before: u64, after: u64) -> Entry {
    Entry {
        seat: 2,
        act,
        before,
        after,
    }
}

#[test]
fn each_act_has_its_line(rt: HostRuntime) -> Result<(), Fail> {
    const CASES: &[(Act, u64, u64, &str)] = &[
        (
            Act::Look,
            12_884_901_889,
            12_884_901_889,
            "2 look 12884901889 12884901889\n",
        ),
        (
            Act::Raise { bits: u64::MAX },
            0,
            u64::MAX,
            "2 raise 18446744073709551615 0 18446744073709551615\n",
        ),
        (Act::Lower { bits: 4 }, 5, 1, "2 lower 4 5 1\n"),
        (
            Act::Clear { slot: 0 },
            0,
            4_294_967_296,
            "2 clear 0 0 4294967296\n",
        ),
        (
            Act::End { slot: 3 },
            0,
            4_294_967_296,
            "2 end 3 0 4294967296\n",
        ),
        (
            Act::Stop { slot: 262_143 },
            4_294_967_296,
            0,
            "2 stop 262143 4294967296 0\n",
        ),
        (
            Act::Deliver {
                slot: 7,
                hit: Hit {
                    mode: Mode::Start,
                    what: What::Da { event: 63 },
                },
            },
            4_294_967_296,
            8_589_934_592,
            "2 deliver 7 start da 63 4294967296 8589934592\n",
        ),
        (
            Act::Deliver {
                slot: 7,
                hit: Hit {
                    mode: Mode::Event,
                    what: What::Da { event: 0 },
                },
            },
            0,
            0,
            "2 deliver 7 event da 0 0 0\n",
        ),
        (
            Act::Deliver {
                slot: 7,
                hit: Hit {
                    mode: Mode::StartRun,
                    what: What::Ltl {
                        on: 1,
                        off: 2,
                        pulse: u32::MAX,
                    },
                },
            },
            4_294_967_296,
            8_589_934_593,
            "2 deliver 7 start_run ltl 1 2 4294967295 4294967296 8589934593\n",
        ),
    ];
    for &(act, before, after, line) in CASES {
        let told = entry(act, before, after);
        let text = journal_text(rt.alloc(), &[told])?;
        let read = line
            .as_bytes()
            .split_last()
            .and_then(|(_, front)| read_entry(front));
        assert!(rt;
            text.as_slice() == line.as_bytes() && read == Some(told),
            "at {line}"
        );
    }
    Ok(())
}

#[test]
fn a_history_has_its_lines_in_order(rt: HostRuntime) -> Result<(), Fail> {
    let look = entry(Act::Look, 1, 1);
    let stop = entry(Act::Stop { slot: 3 }, 9, 0);
    let text = journal_text(rt.alloc(), &[look, stop])?;
    let none = journal_text(rt.alloc(), &[])?;
    assert!(rt; text.as_slice() == b"2 look 1 1\n2 stop 3 9 0\n".as_slice() && none.is_empty());
    Ok(())
}

#[test]
fn no_other_line_is_read(rt: HostRuntime) {
    const LINES: &[&str] = &[
        "",
        " ",
        "2",
        "2 look 1",
        "2 look 1 1 ",
        " 2 look 1 1",
        "2  look 1 1",
        "2\tlook 1 1",
        "2 look 1 1\n",
        "2 look 1 1\r",
        "2 look 01 1",
        "02 look 1 1",
        "2 look 1 00",
        "2 look 1 +1",
        "2 look 1 18446744073709551616",
        "4294967296 look 1 1",
        "2 looks 1 1",
        "2 Look 1 1",
        "2 look 0 1 1",
        "2 raise 1 1",
        "2 stop 4294967296 1 0",
        "2 deliver 7 start da 256 1 1",
        "2 deliver 7 start da 1 1",
        "2 deliver 7 run da 1 1 1",
        "2 deliver 7 start ltl 1 2 1 1",
        "2 deliver 7 start ltl 1 2 4294967296 1 1",
        "2 deliver 7 start ltl 1 2 3 4 1 1",
        "2 deliver 7 start xyz 1 1 1",
        "2 end 1 0",
        "2 end 4294967296 1 0",
        "2 ends 7 1 0",
        "2 deliver 7 end 1 1",
        "2 deliver 7 end da 1 1 1",
        "2 deliver 7 event 1 1",
    ];
    for &line in LINES {
        assert!(rt; read_entry(line.as_bytes()).is_none(), "at {line}");
    }
}
