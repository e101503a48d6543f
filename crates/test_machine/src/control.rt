//! What each write to a control file changes.
use rv_bind::read_bindings;
use rv_control::Control;
use rv_io::MemStore;
use std::alloc::Global;
use std::test::Fail;

/// Some monitors stand in a container, one is off, and a rule is watched for each task.
const BINDINGS: &[u8] = b"container sched
monitor snep cpu da one.dot in sched
monitor sco cpu da one.dot in sched
monitor wip task ltl wip.ltl
off sco
container bare
react wip panic
";

/// The control files of these bindings.
fn control(alloc: Global) -> Result<Control, Fail> {
    let mut store = MemStore::new(alloc);
    store.add(
        "one.dot",
        b"digraph g { {node [] a} __init_a -> a; a -> a [label=x] }",
    )?;
    store.add("wip.ltl", b"RULE = A")?;
    store.add("b.rv", BINDINGS)?;
    let bound = read_bindings(alloc, &mut store, "b.rv")?;
    Ok(Control::new(alloc, &bound.bindings)?)
}

/// The bits that the write lowers, clears and raises; or none, where it is refused.
fn changes(control: &mut Control, path: &str, text: &str, append: bool) -> Option<(u64, u32, u64)> {
    match control.write(path.as_bytes(), text.as_bytes(), append) {
        Ok(change) => Some((change.lower, change.clear, change.raise)),
        Err(_) => None,
    }
}

#[test]
fn a_write_changes_what_is_not_so_yet(rt: HostRuntime) -> Result<(), Fail> {
    const CASES: &[(&str, &str, bool, Option<(u64, u32, u64)>)] = &[
        ("enabled_monitors", "sched", false, Some((5, 3, 3))),
        ("enabled_monitors", "bare", true, Some((0, 0, 0))),
        ("enabled_monitors", "wip", true, Some((0, 4, 4))),
        ("enabled_monitors", "!wip", false, Some((7, 0, 0))),
        ("monitors/sched/enable", "1", false, Some((0, 3, 3))),
        ("enabled_monitors", "sched", false, Some((3, 3, 3))),
        ("monitors/sched/sco/enable", "0", false, Some((2, 0, 0))),
        ("monitors/sched/enable", "1", false, Some((0, 2, 2))),
        ("enabled_monitors", "", false, Some((3, 0, 0))),
        ("enabled_monitors", "sched:snep", false, Some((0, 1, 1))),
        ("monitors/wip/enable", "1\n", false, Some((0, 4, 4))),
        ("monitors/wip/enable", "0\n\n", false, None),
        ("enabled_monitors", "sched:snep", false, Some((5, 1, 1))),
        ("enabled_monitors", "!sched:snep", true, Some((1, 0, 0))),
        ("enabled_monitors", "sched", true, Some((0, 3, 3))),
        ("enabled_monitors", "nope", true, None),
        ("enabled_monitors", "\n", false, Some((3, 0, 0))),
        ("monitors/wip/reactors", "printk", true, Some((0, 0, 0))),
        ("monitoring_on", "1", false, Some((0, 0, 0))),
        ("monitoring_on", "0", false, Some((4_294_967_296, 0, 0))),
        ("monitoring_on", "1", true, Some((0, 0, 4_294_967_296))),
        ("reacting_on", "0", true, Some((8_589_934_592, 0, 0))),
    ];
    let mut control = control(rt.alloc())?;
    for &(path, text, append, wanted) in CASES {
        assert!(rt;
            changes(&mut control, path, text, append) == wanted,
            "at {path} {text}"
        );
    }
    assert!(rt; control.switches() == 4_294_967_296);
    Ok(())
}
