//! The lines of the trace.
ghost use Rattle.std.specs.Prelude.{◌≡◌, ◌++◌, ◌<◌, [], OnOk, codes, decimal, slice_index_or};
ghost use Rattle.rv_gen.specs.Generated.{cpu_text, first_pid, first_run, second_run, field_text, woken_text, prev_text, next_text, switch_text, block_events, digit, six_digits, generated_line, trace_text};

use rv_text::Line;
use std::alloc::AllocError;

/// How many lines a block has.
const BLOCK: u64 = 64;

/// A task, by its name and its pid.
#[derive(Clone, Copy, Drop)]
struct GenTask {
    comm: u8,
    pid: u64,
}

/// The pid of the first task of a CPU.
fn first_pid(cpu: u64) -> u64
    requires { cpu < 8 }
    ensures { result ≡ first_pid cpu }
{
    100 + 2 * cpu
}

/// The first task of a CPU.
fn first_run(cpu: u64) -> GenTask
    requires { cpu < 8 }
    ensures { result ≡ first_run cpu }
{
    GenTask {
        comm: b't',
        pid: first_pid(cpu),
    }
}

/// The second task of a CPU.
fn second_run(cpu: u64) -> GenTask
    requires { cpu < 8 }
    ensures { result ≡ second_run cpu }
{
    GenTask {
        comm: b'u',
        pid: first_pid(cpu) + 1,
    }
}

/// Appends the CPU in three digits.
#[tactic(auto, unfolding(crate::specs::Generated::cpu_text))]
fn put_cpu(out: &mut Line, cpu: u64) -> Result<(), AllocError>
    ensures { OnOk result (out.new ≡ out.old ++ cpu_text cpu) }
{
    out.text(b"00")?;
    out.number(cpu)
}

/// Appends the name of a field, up to its value.
fn put_name(out: &mut Line, name: &[u8]) -> Result<(), AllocError>
    ensures { OnOk result (out.new ≡ out.old ++ field_text name.now []) }
{
    out.text(b" ")?;
    out.text(name)?;
    out.text(b"=")
}

/// Appends a field whose value is a word.
fn put_word(out: &mut Line, name: &[u8], value: &[u8]) -> Result<(), AllocError>
    ensures { OnOk result (out.new ≡ out.old ++ field_text name.now value.now) }
{
    put_name(out, name)?;
    out.text(value)
}

/// Appends a field whose value is a number.
fn put_number(out: &mut Line, name: &[u8], value: u64) -> Result<(), AllocError>
    ensures { OnOk result (out.new ≡ out.old ++ field_text name.now (decimal value)) }
{
    put_name(out, name)?;
    out.number(value)
}

/// Appends the field of the CPU that a task is woken on.
fn put_target(out: &mut Line, cpu: u64) -> Result<(), AllocError>
    ensures { OnOk result (out.new ≡ out.old ++ field_text (codes "target_cpu") (cpu_text cpu)) }
{
    put_name(out, b"target_cpu")?;
    put_cpu(out, cpu)
}

/// Appends the event by which the first task is woken.
fn put_woken(out: &mut Line, event: &[u8], cpu: u64) -> Result<(), AllocError>
    requires { cpu < 8 }
    ensures { OnOk result (out.new ≡ out.old ++ woken_text event.now cpu) }
{
    out.text(event)?;
    out.text(b": comm=t")?;
    put_number(out, b"pid", first_pid(cpu))?;
    put_word(out, b"prio", b"120")?;
    put_target(out, cpu)
}

/// Appends the fields of the task that goes, and its state.
fn put_prev(out: &mut Line, run: GenTask, state: &[u8]) -> Result<(), AllocError>
    ensures { OnOk result (out.new ≡ out.old ++ prev_text run state.now) }
{
    put_word(out, b"prev_comm", &[run.comm])?;
    put_number(out, b"prev_pid", run.pid)?;
    put_word(out, b"prev_prio", b"120")?;
    put_word(out, b"prev_state", state)
}

/// Appends the fields of the task that comes.
fn put_next(out: &mut Line, run: GenTask) -> Result<(), AllocError>
    ensures { OnOk result (out.new ≡ out.old ++ next_text run) }
{
    put_word(out, b"next_comm", &[run.comm])?;
    put_number(out, b"next_pid", run.pid)?;
    put_word(out, b"next_prio", b"120")
}

/// Appends the event by which one task goes, in this state, and another comes.
fn put_switch(out: &mut Line, prev: GenTask, state: &[u8], next: GenTask) -> Result<(), AllocError>
    ensures { OnOk result (out.new ≡ out.old ++ switch_text prev state.now next) }
{
    out.text(b"sched_switch:")?;
    put_prev(out, prev, state)?;
    out.text(b" ==>")?;
    put_next(out, next)
}

/// Appends the event of this number in a block of the CPU.
fn put_event(out: &mut Line, number: u64, cpu: u64) -> Result<(), AllocError>
    requires cpu { cpu < 8 }
    requires number { number < 8 }
    ensures { OnOk result (out.new ≡ out.old ++ slice_index_or (block_events cpu) number []) }
{
    match number {
        0 | 3 => out.text(b"preempt_enable: caller=a parent=b"),
        1 => out.text(b"preempt_disable: caller=a parent=b"),
        2 | 4 => put_woken(out, b"sched_waking", cpu),
        5 => put_switch(out, first_run(cpu), b"S", second_run(cpu)),
        6 => put_woken(out, b"sched_wakeup", cpu),
        _ => put_switch(out, second_run(cpu), b"R", first_run(cpu)),
    }
}

/// The decimal digit of this weight.
fn digit(number: u64, weight: u64) -> u8
    requires { 0 < weight }
    ensures { result ≡ digit number weight }
{
    b'0' + (number / weight % 10) as u8
}

/// Appends the number's last six digits.
fn put_six_digits(out: &mut Line, n: u64) -> Result<(), AllocError>
    ensures { OnOk result (out.new ≡ out.old ++ six_digits n) }
{
    out.text(&[
        digit(n, 100_000),
        digit(n, 10_000),
        digit(n, 1_000),
        digit(n, 100),
        digit(n, 10),
        digit(n, 1),
    ])
}

/// Appends line `i`, counted from 0.
fn put_line(out: &mut Line, i: u64) -> Result<(), AllocError>
    ensures { OnOk result (out.new ≡ out.old ++ generated_line i) }
{
    let cpu = i % 8;
    out.text(b"t-")?;
    out.number(first_pid(cpu))?;
    out.text(b" [")?;
    put_cpu(out, cpu)?;
    out.text(b"] 100.")?;
    put_six_digits(out, i)?;
    out.text(b": ")?;
    put_event(out, i / 8 % 8, cpu)?;
    out.text(b"\n")
}

/// Appends the lines of so many blocks.
#[tactic(auto, using(crate::proofs::LineLemmas::no_line, crate::proofs::LineLemmas::more_lines))]
pub(crate) fn put_trace(out: &mut Line, blocks: u32) -> Result<(), AllocError>
    ensures { OnOk result (out.new ≡ out.old ++ trace_text blocks) }
{
    'lines: for i in 0..BLOCK * blocks as u64 {
        put_line(out, i)?;
    }
    Ok(())
}
