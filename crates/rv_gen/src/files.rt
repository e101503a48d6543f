//! All files of the input.
ghost use Rattle.std.specs.Prelude.{◌≡◌, IfOk};
ghost use Rattle.rv_dot.specs.Canonical.{dot_text};
ghost use Rattle.rv_gen.specs.Generated.{wip, wwnr, bindings_text, trace_text};

use crate::automata::{wip, wwnr};
use crate::trace::put_trace;
use rv_dot::write_dot;
use rv_model::Automaton;
use rv_text::Line;
use std::alloc::{AllocError, Global};

/// The most blocks: their lines are as many as a trace may have.
pub const MAX_BLOCKS: u32 = 15_625;

/// The text of the bindings.
const BINDINGS: &[u8] = b"monitor wip cpu da wip.dot
on wip preempt_disable : event preempt_disable
on wip preempt_enable : start preempt_enable
on wip sched_waking : event sched_waking
monitor wwnr task da wwnr.dot
on wwnr sched_switch by prev_pid if prev_state=S : start switch_out
on wwnr sched_switch by prev_pid if prev_state!=S : event switch_out
on wwnr sched_switch by next_pid : event switch_in
on wwnr sched_wakeup by pid : event wakeup
";

/// The files, by what they hold.
#[derive(Debug, Drop)]
pub struct Generated {
    /// The bindings, which name the automata `wip.dot` and `wwnr.dot`.
    pub bindings: Vec<u8>,
    pub wip: Vec<u8>,
    pub wwnr: Vec<u8>,
    pub trace: Vec<u8>,
}

/// The text of the trace.
fn trace_of(alloc: Global, blocks: u32) -> Result<Vec<u8>, AllocError>
    ensures { IfOk result (λ text. text.items ≡ trace_text blocks) }
{
    let mut out = Line::new(alloc);
    put_trace(&mut out, blocks)?;
    Ok(out.into_bytes())
}

/// The text of an automaton's file.
fn drawn(alloc: Global, automaton: Automaton) -> Result<Vec<u8>, AllocError>
    ensures { IfOk result (λ text. text.items ≡ dot_text automaton) }
{
    write_dot(alloc, &automaton)
}

/// The input of so many blocks, each of 64 trace lines.
pub fn generate(alloc: Global, blocks: u32) -> Result<Generated, AllocError>
    ensures bindings { IfOk result (λ files. files.bindings.items ≡ bindings_text) }
    ensures wip { IfOk result (λ files. files.wip.items ≡ dot_text wip) }
    ensures wwnr { IfOk result (λ files. files.wwnr.items ≡ dot_text wwnr) }
    ensures trace { IfOk result (λ files. files.trace.items ≡ trace_text blocks) }
{
    Ok(Generated {
        bindings: Vec::from_slice(alloc, BINDINGS)?,
        wip: drawn(alloc, wip(alloc)?)?,
        wwnr: drawn(alloc, wwnr(alloc)?)?,
        trace: trace_of(alloc, blocks)?,
    })
}
