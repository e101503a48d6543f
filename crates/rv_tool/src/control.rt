//! A script of commands on the control files.
ghost use Rattle.std.specs.Prelude.{◌≡◌, ◌≤◌, ◌++◌, Some, IfOk, OnOk, OnErr};
ghost use Rattle.rv_text.specs.Readings.{Gives};
ghost use Rattle.rv_bind.specs.Outcomes.{ReadsOutcome, of_file};
ghost use Rattle.rv_bind.specs.Possible.{MayCome, MayRead};
ghost use Rattle.rv_bind.specs.BoundViews.{bound_value};
ghost use Rattle.rv_bind.specs.WellFormed.{IsWellFormed};
ghost use Rattle.rv_control.specs.Opening.{opening_tree};
ghost use Rattle.rv_control.specs.Scripts.{script_of};
ghost use Rattle.rv_tool.specs.Output.{refusal_text};
ghost use Rattle.rv_stream.specs.inner.Faults.{IsOutcome};
ghost use Rattle.rv_tool.specs.Sessions.{replied, done_of, session_of, session_text, session_in, control_in, control_value};
ghost use Rattle.rv_tool.specs.Possible.{MayControl};
ghost use Rattle.rv_tool.specs.inner.SessionValues.{session_value};

use crate::output::refusal_line;
use rv_bind::{BindFault, Bound, read_bindings, read_file, refused};
use rv_control::{Command, Control, Numbered, read_script};
use rv_io::Store;
use rv_text::{CLEAN, Line, REFUSED, Refusal, Refused};
use std::alloc::{AllocError, Global};

/// What the commands of a script came to.
#[derive(Drop)]
pub(crate) struct Session {
    pub(crate) text: Vec<u8>,
    pub(crate) status: u8,
}

/// Does a command, and gives its text.
fn reply(alloc: Global, control: &mut Control, command: &Command) -> Result<Vec<u8>, Refused>
    ensures reply { Gives (λ text. (control.new, text.items)) result (replied control.old command.now) }
    ensures kept { OnErr result (control.new ≡ control.old) }
{
    match command {
        Command::Read { path } => control.read(alloc, path.bytes()),
        Command::Write { path, text, append } => {
            let _change = control.write(path.bytes(), text.bytes(), *append)?;
            Ok(Vec::new(alloc))
        }
    }
}

/// Appends the refusal of a command.
fn put_refusal(
    alloc: Global,
    out: &mut Line,
    script: &str,
    refusal: Refusal,
) -> Result<(), AllocError>
    ensures { OnOk result (out.new ≡ out.old ++ refusal_text (Some script.now) refusal) }
{
    let text = refusal_line(alloc, Some(script.as_bytes()), refusal)?;
    out.text(text.as_slice())
}

/// Does a command, and appends its text or its refusal. True where it was refused.
fn put_done(
    alloc: Global,
    out: &mut Line,
    script: &str,
    control: &mut Control,
    numbered: &Numbered,
) -> Result<bool, AllocError>
    ensures text { OnOk result (out.new ≡ out.old ++ (done_of script.now control.old numbered.now).text) }
    ensures tree { OnOk result (control.new ≡ (done_of script.now control.old numbered.now).tree) }
    ensures refused { IfOk result (λ is_refused. is_refused ≡ (done_of script.now control.old numbered.now).is_refused) }
{
    match reply(alloc, control, &numbered.command) {
        Ok(text) => {
            out.text(text.as_slice())?;
            Ok(false)
        }
        Err(Refused::Because(refusal)) => {
            let refusal = Refusal::at(refusal.number, numbered.line);
            put_refusal(alloc, out, script, refusal)?;
            Ok(true)
        }
        Err(Refused::Memory) => Err(AllocError),
    }
}

/// Does all commands in order.
fn run_commands(
    alloc: Global,
    script: &str,
    control: &mut Control,
    commands: &[Numbered],
) -> Result<Session, AllocError>
    ensures { IfOk result (λ session. session_value session ≡ session_of script.now control.old commands.now) }
{
    let mut out = Line::new(alloc);
    let mut is_refused = false;
    'commands: for numbered in commands {
        if put_done(alloc, &mut out, script, control, numbered)? {
            is_refused = true;
        }
    }
    Ok(Session {
        text: out.into_bytes(),
        status: if is_refused { REFUSED } else { CLEAN },
    })
}

/// The commands of a script.
#[tactic(auto, using(crate::proofs::NumberLemmas::script_numbered, rv_stream::proofs::NumberLemmas::fault_tells))]
pub(crate) fn commands_in(
    alloc: Global,
    script: &str,
    text: &[u8],
) -> Result<Vec<Numbered>, BindFault>
    ensures { IsOutcome (λ commands. commands.items) result (of_file script.now (script_of text.now)) }
{
    match read_script(alloc, text) {
        Ok(commands) => Ok(commands),
        Err(fault) => Err(refused(alloc, script, fault)),
    }
}

/// Does the commands on the files of a run that begins.
fn begin(
    alloc: Global,
    script: &str,
    bound: &Bound,
    commands: &[Numbered],
) -> Result<Session, AllocError>
    requires { IsWellFormed (bound_value bound.now) }
    ensures { IfOk result (λ session. session_value session ≡ session_of script.now (control_value (bound_value bound.now)) commands.now) }
{
    let mut control = Control::new(alloc, &bound.bindings)?;
    run_commands(alloc, script, &mut control, commands)
}

/// Does the commands of the text.
fn run_text(alloc: Global, script: &str, bound: &Bound, text: &[u8]) -> Result<Session, BindFault>
    requires { IsWellFormed (bound_value bound.now) }
    ensures { IsOutcome session_value result (session_text script.now (bound_value bound.now) text.now) }
{
    let commands = commands_in(alloc, script, text)?;
    match begin(alloc, script, bound, commands.as_slice()) {
        Ok(session) => Ok(session),
        Err(AllocError) => Err(BindFault::Memory),
    }
}

/// Reads the script and does its commands.
#[tactic(auto, using(rv_bind::proofs::OutcomeLemmas::fault_counted, crate::proofs::BlamesLemmas::script_named, crate::proofs::PossibleLemmas::session_unread, crate::proofs::PossibleLemmas::session_may))]
fn run_script<S: Store>(
    alloc: Global,
    store: &mut S,
    script: &str,
    bound: &Bound,
) -> Result<Session, BindFault>
    requires { IsWellFormed (bound_value bound.now) }
    ensures reads { ReadsOutcome session_value (S.files store.old) (S.files store.new) (S.faults store.old) (S.faults store.new) result (λ files. session_in files script.now (bound_value bound.now)) }
    ensures some { MayCome session_value result (MayRead script.now (session_text script.now (bound_value bound.now))) }
{
    let text = read_file(alloc, store, script)?;
    run_text(alloc, script, bound, text.as_slice())
}

/// Reads the bindings and the script, and does its commands.
#[tactic(auto, using(rv_bind::proofs::OutcomeLemmas::fault_counted, crate::proofs::BlamesLemmas::control_named))]
pub(crate) fn read_control<S: Store>(
    alloc: Global,
    store: &mut S,
    bindings: &str,
    script: &str,
) -> Result<Session, BindFault>
    ensures reads { ReadsOutcome session_value (S.files store.old) (S.files store.new) (S.faults store.old) (S.faults store.new) result (λ files. control_in files bindings.now script.now) }
    ensures some { MayCome session_value result (MayControl bindings.now script.now) }
{
    let bound = read_bindings(alloc, store, bindings)?;
    run_script(alloc, store, script, &bound)
}
