//! What whole bindings make of whole traces, and each limit with one beyond it.
ghost use Rattle.std.specs.Prelude.{◌≡◌, ◌≤◌, ◌<◌, length, All, IfOk, IsTrue};
ghost use Rattle.rv_bind.specs.BoundViews.{bound_value};
ghost use Rattle.rv_bind.specs.WellFormed.{IsWellFormed};
ghost use Rattle.rv_route.specs.Fitting.{NumbersAscend};

use rv_bind::{BindFault, Bound, read_bindings};
use rv_io::MemStore;
use rv_model::CpuWork;
use rv_route::{Routed, route};
use rv_text::{Line, Refused};
use rv_trace::{TraceLine, read_trace};
use std::alloc::{AllocError, Global};
use std::process::Abort;
use std::test::Fail;

/// A monitor of each scope.
const MONITORS: &str = "monitor g global da one.dot
monitor c cpu da one.dot
monitor t task da one.dot
";

/// The bindings of these lines below the three monitors.
fn bound(alloc: Global, rules: &[u8]) -> Result<Bound, BindFault>
    ensures { IfOk result (λ bound. IsWellFormed (bound_value bound)) }
{
    match store(alloc, rules) {
        Ok(mut store) => read_bindings(alloc, &mut store, "b.rv"),
        Err(_) => Err(BindFault::Memory),
    }
}

/// The store of these bindings.
fn store(alloc: Global, rules: &[u8]) -> Result<MemStore, AllocError> {
    let mut text = Vec::from_slice(alloc, MONITORS.as_bytes())?;
    text.extend_from_slice(rules)?;
    let mut store = MemStore::new(alloc);
    store.add(
        "one.dot",
        b"digraph g { {node [] a} __init_a -> a; a -> a [label=x] }",
    )?;
    store.add("b.rv", &text)?;
    Ok(store)
}

/// Whether each line has a higher number than the one before.
fn ascend(lines: &[TraceLine]) -> bool
    ensures { IsTrue result → NumbersAscend lines.now }
{
    let mut last = 0;
    for line in lines {
        if line.number <= last {
            return false;
        }
        last = line.number;
    }
    true
}

/// Routes the text of a trace.
fn routed(
    rt: &impl Abort,
    alloc: Global,
    rules: &[u8],
    text: &[u8],
) -> Result<Result<Routed, Refused>, Fail> {
    let bound = bound(alloc, rules)?;
    assert!(rt; text.len() <= 134_217_729);
    let lines = read_trace(alloc, text)?;
    assert!(rt; ascend(&lines));
    Ok(route(alloc, &bound.bindings, text, &lines))
}

/// Each delivery of a CPU as ` cpu:line>monitor.instance`.
fn tell_work(out: &mut Line, work: &CpuWork) -> Result<(), AllocError> {
    for turn in &work.turns {
        for place in turn.from..turn.to {
            let Some(delivery) = work.deliveries.get(place as usize) else {
                return out.text(b" none");
            };
            out.text(b" ")?;
            out.number(work.cpu as u64)?;
            out.text(b":")?;
            out.number(turn.line as u64)?;
            out.text(b">")?;
            out.number(delivery.monitor as u64)?;
            out.text(b".")?;
            out.number(delivery.instance as u64)?;
        }
    }
    Ok(())
}

/// The deliveries by CPU, or the refusal's number and line.
fn tell(out: &mut Line, routed: Result<Routed, Refused>) -> Result<(), AllocError> {
    match routed {
        Ok(routed) => {
            for work in &routed.works {
                tell_work(out, work)?;
            }
            Ok(())
        }
        Err(Refused::Because(refusal)) => {
            out.number(refusal.number as u64)?;
            out.text(b" at ")?;
            out.number(refusal.line as u64)
        }
        Err(Refused::Memory) => out.text(b"memory"),
    }
}

/// What comes of the trace under the rules.
fn told(rt: &impl Abort, alloc: Global, rules: &[u8], text: &[u8]) -> Result<Line, Fail> {
    let mut out = Line::new(alloc);
    tell(&mut out, routed(rt, alloc, rules, text)?)?;
    Ok(out)
}

/// This comes of the trace under the rules.
fn check(rt: &impl Abort, alloc: Global, rules: &[u8], text: &str, want: &str) -> Result<(), Fail> {
    let answer = told(rt, alloc, rules, text.as_bytes())?;
    assert!(rt; answer.bytes() == want.as_bytes(), "at {text}");
    Ok(())
}

/// A rule with 50,000 tests.
fn many_tests(alloc: Global) -> Result<Line, AllocError> {
    let mut many = repeated(alloc, b"on t x by f", 1)?;
    many.text(repeated(alloc, b" if f!=1", 50_000)?.bytes())?;
    many.text(b" : event x")?;
    Ok(many)
}

#[test]
fn a_rule_fires_where_all_its_tests_hold_for_an_instance_of_its_scope(
    rt: HostRuntime,
) -> Result<(), Fail> {
    // the rules, the trace, the deliveries or the refusal
    const CASES: &[(&[u8], &str, &str)] = &[
        (b"on g x : event x", "t-1 [000] 1.5: x: f=1", " 0:1>0.0"),
        (b"on g x : event x", "t-1 [000] 1.5: xx: f=1", ""),
        (b"on g xx : event x", "t-1 [000] 1.5: x: f=1", ""),
        (
            b"on g x if f=1 : event x",
            "t-1 [000] 1.5: x: f=1",
            " 0:1>0.0",
        ),
        (b"on g x if f=1 : event x", "t-1 [000] 1.5: x: f=2 f=1", ""),
        (b"on g x if f=1 : event x", "t-1 [000] 1.5: x: g=1", ""),
        (
            b"on g x if f!=1 : event x",
            "t-1 [000] 1.5: x: f=11",
            " 0:1>0.0",
        ),
        (b"on g x if f!=1 : event x", "t-1 [000] 1.5: x: f=1", ""),
        (
            b"on g x if f!=1 : event x",
            "t-1 [000] 1.5: x: f=",
            " 0:1>0.0",
        ),
        (b"on g x if f!=1 : event x", "t-1 [000] 1.5: x: g=2", ""),
        (b"on g x if f!=1 : event x", "t-1 [000] 1.5: x: f", ""),
        (
            b"on g x if f!=1 if f!=2 : event x",
            "t-1 [000] 1.5: x: f=3",
            " 0:1>0.0",
        ),
        (
            b"on g x if f!=1 if f!=2 : event x",
            "t-1 [000] 1.5: x: f=2",
            "",
        ),
        (
            b"on g x if f!=2 if g=1 if f!=1 : event x",
            "t-1 [000] 1.5: x: g=1 f=1",
            "",
        ),
        (
            b"on g x if f!=2 if g=1 if f!=1 : event x",
            "t-1 [000] 1.5: x: g=1 f=3",
            " 0:1>0.0",
        ),
        (
            b"on g x if f=1 if f=2 : event x",
            "t-1 [000] 1.5: x: f=1 f=2",
            "",
        ),
        (
            b"on t x by f if f!=1 if f!=2 : event x",
            "t-1 [000] 1.5: x: f=7",
            " 0:1>2.0",
        ),
        (
            b"on t x by f if f!=1 if f!=2 : event x",
            "t-1 [000] 1.5: x: f=y",
            "29 at 1",
        ),
        (
            b"on t x by f if g=1 : event x",
            "t-1 [000] 1.5: x: g=1",
            "29 at 1",
        ),
        (b"on t x by f if g=1 : event x", "t-1 [000] 1.5: x: g=2", ""),
        (
            b"on g x : event x\non c x : event x",
            "t-1 [005] 1.5: x:",
            " 5:1>0.0 5:1>1.5",
        ),
        (
            b"on t x : event x",
            "i-0 [000] 1.5: x:\ni-0 [001] 1.5: x:\ni-0 [000] 1.5: x:",
            " 0:1>2.0 0:3>2.0 1:2>2.1",
        ),
        (
            b"on t x : event x\non t x by f : event x",
            "t-8 [001] 1.5: x: f=9\nt-9 [001] 1.5: x: f=0\nt-0 [001] 1.5: x: f=8",
            " 1:1>2.0 1:1>2.1 1:2>2.1 1:2>2.2 1:3>2.2 1:3>2.0",
        ),
        (
            b"on t x by f : event x",
            "t-1 [000] 1.5: x: f=4294967295",
            " 0:1>2.0",
        ),
        (
            b"on t x by f : event x",
            "t-1 [000] 1.5: x: f=1\n#\nt-1 [000] 1.5: x: f=4294967296",
            "29 at 3",
        ),
        (b"on t x by f : event x", "t-1 [000] 1.5: x: f=", "29 at 1"),
        (
            b"on t x by f : event x",
            "t-1 [000] 1.5: x: f=-1",
            "29 at 1",
        ),
    ];
    for &(rules, text, want) in CASES {
        check(&rt, rt.alloc(), rules, text, want)?;
    }
    let many = many_tests(rt.alloc())?;
    check(
        &rt,
        rt.alloc(),
        many.bytes(),
        "t-1 [000] 1.5: x: f=1\nt-1 [000] 1.5: x: f=2\nt-1 [000] 1.5: x:\n",
        " 0:2>2.0",
    )
}

/// So many times the same.
fn repeated(alloc: Global, piece: &[u8], times: u32) -> Result<Line, AllocError> {
    let mut text = Line::new(alloc);
    for _ in 0..times {
        text.text(piece)?;
    }
    Ok(text)
}

/// A line for each pid from 1 on, or so many lines of the first event; and then one more.
fn lines(alloc: Global, count: u32, is_pids: bool, last: &[u8]) -> Result<Line, AllocError> {
    let mut text = Line::new(alloc);
    for pid in 0..count {
        text.text(b"t-1 [000] 1.5: x:")?;
        if is_pids {
            text.text(b" f=")?;
            text.number(pid as u64 + 1)?;
        }
        text.text(b"\n")?;
    }
    text.text(last)?;
    Ok(text)
}

/// Rules by the pid of a field and by that of another, or 64 rules and one by the pid of a field.
fn rules_of(alloc: Global, is_pids: bool) -> Result<Line, AllocError> {
    if is_pids {
        let mut rules = repeated(alloc, b"on t x by f : event x\n", 1)?;
        rules.text(b"on t y by f : event x\non t y by g : event x")?;
        return Ok(rules);
    }
    let mut rules = repeated(alloc, b"on c x : event x\n", 64)?;
    rules.text(b"on t y by f : event x")?;
    Ok(rules)
}

/// How many tasks and deliveries there are, or the refusal's number where it is of the last line.
fn sizes(routed: Result<Routed, Refused>, last: u32) -> (u32, usize, u8) {
    match routed {
        Ok(routed) => {
            let mut deliveries = 0usize;
            for work in &routed.works {
                deliveries = deliveries.saturating_add(work.deliveries.len());
            }
            (routed.tasks.len(), deliveries, 0)
        }
        Err(Refused::Because(refusal)) if refusal.line == last => (0, 0, refusal.number),
        Err(_) => (0, 0, 1),
    }
}

#[test]
fn the_65537th_task_and_the_4000001st_delivery_are_refused(rt: HostRuntime) -> Result<(), Fail> {
    let cases = [
        (
            true,
            65_535,
            "t-1 [000] 1.5: x: f=70000",
            (65_536, 65_536, 0),
        ),
        (
            true,
            65_536,
            "t-1 [000] 1.5: x: f=65536",
            (65_536, 65_537, 0),
        ),
        (true, 65_536, "t-1 [000] 1.5: x: f=70000", (0, 0, 28)),
        (true, 65_536, "t-1 [000] 1.5: x: f=0", (0, 0, 28)),
        (true, 65_536, "t-1 [000] 1.5: y: f=no g=70000", (0, 0, 29)),
        (true, 65_536, "t-1 [000] 1.5: y: f=70000 g=no", (0, 0, 28)),
        (false, 62_500, "", (0, 4_000_000, 0)),
        (false, 62_500, "t-1 [000] 1.5: z:", (0, 4_000_000, 0)),
        (false, 62_500, "t-1 [000] 1.5: x:", (0, 0, 30)),
        (false, 62_500, "t-1 [001] 1.5: y: f=1", (0, 0, 30)),
        (false, 62_500, "t-1 [001] 1.5: y: f=no", (0, 0, 29)),
    ];
    for (is_pids, count, last, want) in cases {
        let rules = rules_of(rt.alloc(), is_pids)?;
        let text = lines(rt.alloc(), count, is_pids, last.as_bytes())?;
        let answer = routed(&rt, rt.alloc(), rules.bytes(), text.bytes())?;
        assert!(rt; sizes(answer, count.wrapping_add(1)) == want, "at {last}");
    }
    Ok(())
}
