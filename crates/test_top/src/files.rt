//! The files that the tests run on.
use rv_io::MemStore;
use rv_reference::worked::WIP_MODEL;
use std::alloc::{AllocError, Global};

/// Its bindings.
pub(crate) const BINDINGS: &str = "monitor wip cpu da wip.dot
on wip preempt_disable : event preempt_disable
on wip preempt_enable : start preempt_enable
on wip sched_waking : event sched_waking
react wip printk
";

/// One instance for all CPUs, whose failures print no line.
pub(crate) const GLOBAL: &str = "monitor wip global da wip.dot
on wip preempt_disable : event preempt_disable
on wip preempt_enable : start preempt_enable
on wip sched_waking : event sched_waking
";

/// A trace with a waking outside of a section.
pub(crate) const TRACE: &str =
    "          <idle>-0       [000] d..1.   100.000001: preempt_enable: caller=a parent=b
          <idle>-0       [000] d..1.   100.000002: preempt_disable: caller=a parent=b
          <idle>-0       [000] d..1.   100.000003: sched_waking: comm=t pid=12 prio=120 target_cpu=000
          <idle>-0       [000] d..1.   100.000004: preempt_enable: caller=a parent=b
          <idle>-0       [000] d..1.   100.000005: sched_waking: comm=t pid=12 prio=120 target_cpu=000
";

/// What the trace comes to.
pub(crate) const REPORT: &str =
    "rv: monitor wip[cpu 0] does not allow event sched_waking on state preemptive (line 5)
wip: instances 1, deliveries 5, failures 1, stopped 0
";

/// Five turns of CPU 1, and one of CPU 0.
pub(crate) const RACE: &str = "t-1 [001] 1.000001: preempt_enable:
t-1 [001] 1.000002: preempt_disable:
t-1 [001] 1.000003: preempt_enable:
t-1 [001] 1.000004: preempt_disable:
t-1 [001] 1.000005: sched_waking:
t-1 [000] 1.000006: preempt_disable:
";

/// A store with bindings and a trace, which are called `wip.rv` and `wip.txt`.
pub(crate) fn store_of(alloc: Global, bindings: &str, trace: &str) -> Result<MemStore, AllocError> {
    let mut store = MemStore::new(alloc);
    store.add("wip.dot", WIP_MODEL.as_bytes())?;
    store.add("wip.rv", bindings.as_bytes())?;
    store.add("wip.txt", trace.as_bytes())?;
    Ok(store)
}
