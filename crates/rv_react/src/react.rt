//! The line of a reaction.
ghost use Rattle.std.specs.Prelude.{List, ℕ, ◌++◌, codes};
ghost use Rattle.rv_model.specs.Reports.{said_text, reaction_text};
ghost use Rattle.rv_react.specs.Appending.{Appends};
ghost use Rattle.rv_react.specs.Reactions.{shown_fault};
ghost use Rattle.rv_react.specs.inner.Parts.{begun_text, ended_text};

use crate::pieces::append;
use rv_model::{Name, Reactor};
use rv_text::Line;
use std::alloc::AllocError;

/// What was not allowed.
#[derive(Debug, Drop)]
pub enum Fault {
    /// The automaton has no edge of the event at the state.
    Da { event: Name, state: Name },
    /// The formula does not hold weakly.
    Ltl,
}

/// Appends the line up to its number, after a front that shows the reactor.
fn begun(out: &mut Line, front: &[u8], instance: &[u8], fault: &Fault) -> Result<(), AllocError>
    ensures { Appends out.old out.new (begun_text front.now instance.now (shown_fault fault.now)) result }
{
    let monitor = b"monitor ".as_slice();
    let line = b" (line ".as_slice();
    match fault {
        Fault::Da { event, state } => {
            let denied = b" does not allow event ".as_slice();
            let on = b" on state ".as_slice();
            let state = state.bytes();
            append(
                out,
                &[
                    front,
                    monitor,
                    instance,
                    denied,
                    event.bytes(),
                    on,
                    state,
                    line,
                ],
            )
        }
        Fault::Ltl => {
            let violation = b": violation detected".as_slice();
            append(out, &[front, monitor, instance, violation, line])
        }
    }
}

/// Appends the number of the line, and the end.
fn ended(out: &mut Line, line: u32) -> Result<(), AllocError>
    ensures { Appends out.old out.new (ended_text line) result }
{
    out.number(line as u64)?;
    out.text(b")\n")
}

/// Appends a line that begins with this front.
fn said(
    out: &mut Line,
    front: &[u8],
    instance: &[u8],
    fault: &Fault,
    line: u32,
) -> Result<(), AllocError>
    ensures { Appends out.old out.new (front.now ++ said_text instance.now (shown_fault fault.now) line) result }
{
    begun(out, front, instance, fault)?;
    ended(out, line)
}

/// Appends what the reactor prints about a failure of the instance, at a line of the trace. After
/// a refusal some front of that may stand there.
pub fn reaction(
    out: &mut Line,
    reactor: Reactor,
    instance: &[u8],
    fault: &Fault,
    line: u32,
) -> Result<(), AllocError>
    ensures { Appends out.old out.new (reaction_text reactor instance.now (shown_fault fault.now) line) result }
{
    match reactor.front() {
        None => Ok(()),
        Some(front) => said(out, front, instance, fault, line),
    }
}
