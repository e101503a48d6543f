//! Lines of recorded traces and lines that come close to a limit. What they say was worked out apart from this code.
use rv_text::{Refusal, Refused};
use rv_trace::{HeldWord, Lines, Span, TraceLine, field, held_field, read_line, read_trace};
use std::alloc::Global;
use std::process::Abort;
use std::test::Fail;

/// Reads the text, which no row makes longer than a trace may be.
fn read(rt: &impl Abort, alloc: Global, text: &[u8]) -> Result<Vec<TraceLine>, Refused> {
    assert!(rt; text.len() <= 134_217_729);
    read_trace(alloc, text)
}

/// Whether the text is refused with this number at this line.
fn is_refused(rt: &impl Abort, alloc: Global, text: &[u8], number: u8, line: u32) -> bool {
    match read(rt, alloc, text) {
        Err(Refused::Because(refusal)) => refusal.number == number && refusal.line == line,
        _ => false,
    }
}

/// The PID, the CPU and where the event's name stands, if the text is one line with all behind its name as its fields.
fn told(
    rt: &impl Abort,
    alloc: Global,
    text: &str,
) -> Result<Option<(u32, u8, u32, u32)>, Refused> {
    let lines = read(rt, alloc, text.as_bytes())?;
    Ok(match lines.as_slice() {
        [line]
            if line.number == 1
                && line.fields.from.wrapping_sub(line.name.to) == 1
                && line.fields.to as usize == text.len() => Some((
            line.pid,
            line.cpu,
            line.name.from,
            line.name.to,
        )),
        _ => None,
    })
}

#[test]
fn a_line_says_its_task_its_cpu_and_its_event(rt: HostRuntime) -> Result<(), Fail> {
    // text, PID, CPU, where the event's name stands
    const CASES: &[(&str, u32, u8, u32, u32)] = &[
        (
            "            init-1       [002] d....    17.052831: page_fault_user: address=0x7fff15920168 ip=0x460c48 error_code=0x7",
            1,
            2,
            51,
            66,
        ),
        (
            "          <idle>-0       [002] dNh2.    10.864839: sched_wakeup: comm=rcu_preempt pid=15 prio=120 target_cpu=002",
            0,
            2,
            51,
            63,
        ),
        (
            "          <idle>-0       [002] d..2.    10.864914: sched_switch: prev_comm=swapper/2 prev_pid=0 prev_prio=120 prev_state=R ==> next_comm=rcu_preempt next_pid=15 next_prio=120",
            0,
            2,
            51,
            63,
        ),
        (
            "            init-1       [001] d..2.    10.867943: sched_switch: prev_comm=init prev_pid=1 prev_prio=120 prev_state=R+ ==> next_comm=kworker/1:1 next_pid=49 next_prio=120",
            1,
            1,
            51,
            63,
        ),
        (
            "     kworker/1:1-49      [001] ...1.    10.867958: preempt_enable: caller=worker_thread+0x9c/0x2d0 parent=worker_thread+0x9c/0x2d0",
            49,
            1,
            51,
            65,
        ),
        (
            "     kworker/1:1-49      [001] ...2.    10.867960: event_wip: non_preemptive x preempt_enable -> preemptive (final)",
            49,
            1,
            51,
            60,
        ),
        (
            "          spin/0-243     [002] d....    17.062527: page_fault_user: address=0x7f3aa76bafc8 ip=0x40d871 error_code=0x6",
            243,
            2,
            51,
            66,
        ),
        (
            "          pass-3-239     [003] d....    17.060726: page_fault_user: address=0x7f3aa96befc8 ip=0x40d871 error_code=0x6",
            239,
            3,
            51,
            66,
        ),
        (
            "     ksoftirqd/0-14      [000] d..2.    17.060832: sched_switch: prev_comm=ksoftirqd/0 prev_pid=14 prev_prio=120 prev_state=S ==> next_comm=swapper/0 next_pid=0 next_prio=120",
            14,
            0,
            51,
            63,
        ),
        (
            "            init-1       [001] d.s4.    10.864743: sched_waking: comm=rcu_preempt pid=15 prio=120 target_cpu=002",
            1,
            1,
            51,
            63,
        ),
        (
            "          <idle>-0     [000]    36.550702: sched_waking:         comm=kworker/u16:1 pid=38 prio=120 target_cpu=000",
            0,
            0,
            43,
            55,
        ),
        (
            "   kworker/u16:1-38    [000]    36.550936: sched_switch:         prev_comm=kworker/u16:1 prev_pid=38 prev_prio=120 prev_state=I ==> next_comm=swapper/0 next_pid=0 next_prio=120",
            38,
            0,
            43,
            55,
        ),
        ("t-1 [000] 1.000001: tick:", 1, 0, 20, 24),
        ("t-1 [000] 1: tick:", 1, 0, 13, 17),
        ("t-1 [000] d..1. 1.000001: tick:", 1, 0, 26, 30),
        ("t-1 [000] 12: 7: tick: x=1", 1, 0, 14, 15),
        ("t-1 [000] flags 7: tick: x=1", 1, 0, 19, 23),
        ("a-b-c-1 [000] 1.5: tick: x=1", 1, 0, 19, 23),
        ("a-1 [x] b-2 [001] 1.5: tick:", 2, 1, 23, 27),
        ("a-1 [2 ] - [3] t-4 [05] 1.5: tick:", 4, 5, 29, 33),
        ("[7] -:--8\t \t[9]\t1.5:\ttick:\ta=1\tb=2", 8, 9, 21, 25),
        ("-0 [0] 1.5: tick:", 0, 0, 12, 16),
        ("t-4294967295 [63] 1.5: tick:", 4294967295, 63, 23, 27),
        (
            "t-0000000000000000000000001 [0000000000000000000000063] 1.5: tick:",
            1,
            63,
            61,
            65,
        ),
        ("t-1 [000] 1.5: a::", 1, 0, 15, 17),
        ("t-1 [000] 1.5: a:b: rest: more", 1, 0, 15, 18),
        ("t-1 [000] 1.5: tick:  \tvalue=1 \t ", 1, 0, 15, 19),
        ("t-1 [000] 1.5: tick: a=1\r", 1, 0, 15, 19),
        (
            "<...>-9 [000] .....1. 1.5: bprint: x: -1 [2] 3: y:",
            9,
            0,
            27,
            33,
        ),
    ];
    for &(text, pid, cpu, from, to) in CASES {
        let wanted = Some((pid, cpu, from, to));
        assert!(rt; told(&rt, rt.alloc(), text)? == wanted, "at {text}");
    }
    Ok(())
}

#[test]
fn the_first_fault_of_a_line_is_its_refusal(rt: HostRuntime) {
    const CASES: &[(&str, u8, u32)] = &[
        ("t-1 [1] x-2 [2] 1.5: tick:", 24, 1),
        ("CPU:0 [LOST 3 EVENTS]", 25, 1),
        ("CPU:EVENTS]", 25, 1),
        ("CPU:0 [LOST 3 EVENTS]\r", 24, 1),
        ("CPU:EVENTS] ", 24, 1),
        (" CPU:0 [LOST 3 EVENTS]", 24, 1),
        ("\r", 24, 1),
        (" #", 24, 1),
        ("t-1 [000] 1.000001 tick:", 24, 1),
        ("t-1 [000] 1.000001: tick", 24, 1),
        ("t-1 [000] 1.000001: :", 24, 1),
        ("t-1 [000] 1.000001:", 24, 1),
        ("t-1 [000] 1.000001: tick:\r", 24, 1),
        ("t-1 [000] a b 1.000001: tick:", 24, 1),
        ("t-1 [000] 1.: tick:", 24, 1),
        ("t-1 [000] .1: tick:", 24, 1),
        ("t-1 [000] 1.2.3: tick:", 24, 1),
        ("t-1[000] 1.000001: tick:", 24, 1),
        ("t-1 [000]1.000001: tick:", 24, 1),
        ("t-1 [000]", 24, 1),
        ("t- 1 [000] 1.000001: tick:", 24, 1),
        ("t-1 [] 1.000001: tick:", 24, 1),
        ("t1 [000] 1.000001: tick:", 24, 1),
        ("t-1 (-----) [000] 1.000001: tick:", 24, 1),
        ("t-4294967296 [000] 1.5: tick:", 24, 1),
        ("t-4294967296 [064] 1.5: tick:", 24, 1),
        ("t-99999999999999999999999 [0] 1.5: tick:", 24, 1),
        ("t-1 [064] 1.5: tick:", 26, 1),
        ("t-1 [99999999999999999999999] 1.5: tick:", 26, 1),
        ("t-1 [064] 1.5 tick:", 24, 1),
        ("cpus=4", 24, 1),
        (
            "#\nt-1 [000] 1.5: tick:\nt-1 [064] 1.5: tick:\ncpus=4\n",
            26,
            3,
        ),
    ];
    for &(text, number, line) in CASES {
        assert!(rt;
            is_refused(&rt, rt.alloc(), text.as_bytes(), number, line),
            "at {text}"
        );
    }
}

/// The line of this number, with its name and its fields at these places.
fn line_is(line: &TraceLine, number: u32, name: (u32, u32), fields: (u32, u32)) -> bool {
    line.number == number
        && (line.name.from, line.name.to) == name
        && (line.fields.from, line.fields.to) == fields
}

#[test]
fn a_skipped_line_is_counted(rt: HostRuntime) -> Result<(), Fail> {
    let text = b"# tracer: nop\n\n \t \nt-1 [000] 1.5: tick:\n#\n\nt-2 [001] 1.6: tock: a=1";
    let lines = read(&rt, rt.alloc(), text)?;
    assert!(rt;
        lines.len() == 2
            && line_is(&lines[0], 4, (34, 38), (39, 39))
            && line_is(&lines[1], 7, (58, 62), (63, 67))
    );
    Ok(())
}

#[test]
fn a_line_is_read_where_it_stands(rt: HostRuntime) -> Result<(), Fail> {
    let text = b"#\nt-1 [002] 1.5: tick: a=1\n";
    let line = read_line(text, 2, 26, 2).ok().flatten().ok_or("no line")?;
    assert!(rt; line.cpu == 2 && line_is(&line, 2, (17, 21), (22, 26)));
    Ok(())
}

/// Where the field's value stands, in fields that are short. A name that is held finds the same.
fn found(rt: &impl Abort, alloc: Global, fields: &str, name: &str) -> Option<(u32, u32)> {
    assert!(rt; fields.len() < 100);
    let held = HeldWord::new(alloc, name.as_bytes()).ok()?;
    let found = held_field(fields.as_bytes(), &held);
    assert!(rt;
        found == field(fields.as_bytes(), name.as_bytes()),
        "at {fields}, {name}"
    );
    found.map(|span| (span.from, span.to))
}

#[test]
fn a_field_is_found_at_the_beginning_or_behind_a_blank(rt: HostRuntime) {
    const CASES: &[(&str, &str, Option<(u32, u32)>)] = &[
        (
            " prev_comm=a prev_pid=10 ==> next_pid=7",
            "prev_pid",
            Some((22, 24)),
        ),
        (
            " prev_comm=a prev_pid=10 ==> next_pid=7",
            "next_pid",
            Some((38, 39)),
        ),
        (" prev_comm=a prev_pid=10 ==> next_pid=7", "pid", None),
        ("prev_pid=1 pid=2", "pid", Some((15, 16))),
        ("pid=1 pid=2", "pid", Some((4, 5))),
        ("pid=", "pid", Some((4, 4))),
        ("pid= x", "pid", Some((4, 4))),
        ("\tpid=5\tx", "pid", Some((5, 6))),
        ("pid==1", "pid", Some((4, 6))),
        ("comm=a b=1 b=2", "b", Some((9, 10))),
        ("comm=a\r", "comm", Some((5, 7))),
        ("(pid=1 xpid=2 pid", "pid", None),
        ("pid pid", "pid", None),
        ("", "pid", None),
        ("a b=3", "a b", Some((4, 5))),
    ];
    for &(fields, name, want) in CASES {
        assert!(rt;
            found(&rt, rt.alloc(), fields, name) == want,
            "at {fields}, {name}"
        );
    }
}

/// A line of a stream: its number, its name and its fields.
type WantedLine<'a> = (u32, &'a str, &'a str);

/// The bytes of a span, which lies in the text.
fn piece<'a>(rt: &impl Abort, text: &'a [u8], span: Span) -> &'a [u8] {
    let (from, to) = (span.from as usize, span.to as usize);
    assert!(rt; from <= to && to <= text.len());
    &text[from..to]
}

/// Whether the next line is this one.
fn is_told(
    rt: &impl Abort,
    lines: &Lines,
    line: &TraceLine,
    told: Option<&WantedLine<'_>>,
) -> bool {
    match told {
        Some((number, name, fields)) => {
            line.number == *number
                && piece(rt, lines.text(), line.name) == name.as_bytes()
                && piece(rt, lines.text(), line.fields) == fields.as_bytes()
        }
        None => false,
    }
}

/// What taking the lines came to.
#[derive(Clone, Copy, Drop, PartialEq, Eq)]
enum Took {
    /// All that were there.
    All,
    /// All up to a refusal, which stays.
    Refused(Refusal),
    /// One that is not wanted.
    Other,
}

/// Takes the lines that are left, which are the wanted ones from `seen` on.
fn takes_all(
    rt: &impl Abort,
    lines: &mut Lines,
    wanted: &[WantedLine<'_>],
    seen: &mut usize,
) -> Took {
    for _ in 0..100 {
        match lines.take() {
            Ok(Some(line)) => {
                if !is_told(rt, lines, &line, wanted.get(*seen)) {
                    return Took::Other;
                }
                *seen = seen.wrapping_add(1);
            }
            Ok(None) => return Took::All,
            Err(refusal) => {
                let stays = lines.take() == Err(refusal);
                return if stays {
                    Took::Refused(refusal)
                } else {
                    Took::Other
                };
            }
        }
    }
    Took::Other
}

/// Feeds the text in pieces of this size, and takes its lines: how many of the wanted ones came, and what ended them.
fn streamed(
    rt: &impl Abort,
    alloc: Global,
    text: &str,
    wanted: &[WantedLine<'_>],
    size: usize,
) -> Result<(usize, Took), Fail> {
    let mut lines = Lines::new(alloc);
    let mut seen = 0;
    assert!(rt; size > 0);
    for piece in text.as_bytes().chunks(size) {
        assert!(rt; lines.is_ready());
        lines.feed(piece)?;
        let took = takes_all(rt, &mut lines, wanted, &mut seen);
        if took != Took::All {
            return Ok((seen, took));
        }
    }
    assert!(rt; lines.is_ready());
    lines.finish();
    let took = takes_all(rt, &mut lines, wanted, &mut seen);
    Ok((seen, took))
}

#[test]
fn a_stream_gives_the_lines_of_its_text_however_it_is_cut(rt: HostRuntime) -> Result<(), Fail> {
    const CASES: &[(&str, &[WantedLine<'_>], Option<Refusal>)] = &[
        ("", &[], None),
        ("# tracer: nop\n\n \t\n", &[], None),
        (
            "t-1 [000] 1.5: tick: a=1\nt-2 [001] 1.6: tock:\n",
            &[(1, "tick", " a=1"), (2, "tock", "")],
            None,
        ),
        (
            "#\n\n          <idle>-0       [002] d..2.    10.86: sched_switch: next_pid=15\n#\nt-1 [000] 1.5: tick: a=1",
            &[(3, "sched_switch", " next_pid=15"), (5, "tick", " a=1")],
            None,
        ),
        ("t-1 [000] 1.5: tick:\n#", &[(1, "tick", "")], None),
        (
            "#\nt-1 [000] 1.5: tick:\ncpus=4\nt-1 [000] 1.5: tock:\n",
            &[(2, "tick", "")],
            Some(Refusal {
                number: 24,
                line: 3,
            }),
        ),
        (
            "t-1 [000] 1.5: tick:\n\nCPU:0 [LOST 3 EVENTS]",
            &[(1, "tick", "")],
            Some(Refusal {
                number: 25,
                line: 3,
            }),
        ),
        (
            "t-1 [063] 1.5: tick:\nt-1 [064] 1.5: tick:",
            &[(1, "tick", "")],
            Some(Refusal {
                number: 26,
                line: 2,
            }),
        ),
        (
            "t-1 [000] 1.5:",
            &[],
            Some(Refusal {
                number: 24,
                line: 1,
            }),
        ),
    ];
    for &(text, wanted, end) in CASES {
        let whole = (
            wanted.len(),
            end.map_or(Took::All, |refusal| Took::Refused(refusal)),
        );
        for size in [1, 2, 7, 30, 1000] {
            let came = streamed(&rt, rt.alloc(), text, wanted, size)?;
            assert!(rt; came == whole, "in pieces of {size}: {text}");
        }
    }
    Ok(())
}

#[test]
fn a_line_is_given_once_its_end_was_fed(rt: HostRuntime) -> Result<(), Fail> {
    let mut lines = Lines::new(rt.alloc());
    assert!(rt; lines.is_ready());
    lines.feed(b"t-1 [000] 1.5: tick: a=1")?;
    assert!(rt; lines.take() == Ok(None));
    assert!(rt; lines.is_ready());
    lines.feed(b"\nt-1")?;
    assert!(rt; !lines.is_ready());
    let line = lines.take().ok().flatten().ok_or("no line")?;
    assert!(rt;
        line_is(&line, 1, (15, 19), (20, 24))
            && lines.text() == b"t-1 [000] 1.5: tick: a=1".as_slice()
    );
    assert!(rt; lines.take() == Ok(None));
    Ok(())
}
