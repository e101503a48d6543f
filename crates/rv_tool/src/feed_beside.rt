//! A control script that runs beside the CPUs. All its changes are known before the run.
ghost use Rattle.std.specs.Prelude.{◌≡◌, ◌≤◌, ◌<◌, ◌^◌, Ok, Err, length, All, IfOk, IfErr};
ghost use Rattle.rv_text.specs.Readings.{Gives};
ghost use Rattle.rv_bind.specs.Outcomes.{ReadsOutcome};
ghost use Rattle.rv_bind.specs.Possible.{MayCome, MayRead};
ghost use Rattle.rv_control.specs.Opening.{opening_tree};
ghost use Rattle.rv_feed.specs.Changes.{IsBelowHalt};
ghost use Rattle.rv_tool.specs.Changes.{asked, asked_in, changes_of, changes_text, changes_in, input_beside};
ghost use Rattle.rv_stream.specs.inner.Faults.{IsOutcome};
ghost use Rattle.rv_tool.specs.inner.Prepared.{prepared_value, IsPrepared};
ghost use Rattle.rv_tool.specs.Possible.{MayRunBeside};

use crate::control::commands_in;
use crate::input::{Prepared, read_input};
use rv_bind::{BindFault, Bindings, read_file, refused};
use rv_control::{Command, Control, Numbered};
use rv_io::Store;
use rv_model::Change;
use rv_text::{INVALID, Refusal, Refused};
use std::alloc::{AllocError, Global};

/// Does a command, and gives its change.
fn ask(control: &mut Control, command: &Command) -> Result<Change, Refusal>
    ensures ok { IfOk result (λ change. asked control.old command.now ≡ Ok (control.new, change)) }
    ensures refused { IfErr result (λ refusal. asked control.old command.now ≡ Err refusal) }
    ensures below_halt { IfOk result IsBelowHalt }
{
    match command {
        Command::Read { .. } => Err(Refusal::whole(INVALID)),
        Command::Write { path, text, append } => {
            if control.is_reactors(path.bytes()) {
                return Err(Refusal::whole(INVALID));
            }
            control.write(path.bytes(), text.bytes(), *append)
        }
    }
}

/// The same; a refusal names the command's line.
fn ask_in(control: &mut Control, numbered: &Numbered) -> Result<Change, Refusal>
    ensures ok { IfOk result (λ change. asked_in control.old numbered.now ≡ Ok (control.new, change)) }
    ensures refused { IfErr result (λ refusal. asked_in control.old numbered.now ≡ Err refusal) }
    ensures below_halt { IfOk result IsBelowHalt }
{
    match ask(control, &numbered.command) {
        Ok(change) => Ok(change),
        Err(refusal) => Err(Refusal::at(refusal.number, numbered.line)),
    }
}

/// Does all commands in order, and gives their changes, or the first refusal.
fn ask_all(
    alloc: Global,
    control: &mut Control,
    commands: &[Numbered],
) -> Result<Vec<Change>, Refused>
    ensures value { Gives (λ changes. changes.items) result (changes_of control.old commands.now) }
    ensures below_halt { IfOk result (λ changes. All IsBelowHalt changes.items) }
{
    let mut changes = Vec::new(alloc);
    for numbered in commands {
        let change = ask_in(control, numbered)?;
        changes.push(change)?;
    }
    Ok(changes)
}

/// The changes of the commands on the files of a run that begins.
fn changes_of(
    alloc: Global,
    bindings: &Bindings,
    commands: &[Numbered],
) -> Result<Vec<Change>, Refused>
    requires monitors { length bindings.now.monitors.items ≤ 32 }
    requires containers { length bindings.now.containers ≤ 32 }
    ensures value { Gives (λ changes. changes.items) result (changes_of (opening_tree bindings.now) commands.now) }
    ensures below_halt { IfOk result (λ changes. All IsBelowHalt changes.items) }
{
    let mut control = Control::new(alloc, bindings)?;
    ask_all(alloc, &mut control, commands)
}

/// The changes of the text of a script.
#[tactic(auto, using(crate::proofs::NumberLemmas::changes_numbered, rv_stream::proofs::NumberLemmas::fault_tells))]
fn changes_in_text(
    alloc: Global,
    script: &str,
    bindings: &Bindings,
    text: &[u8],
) -> Result<Vec<Change>, BindFault>
    requires monitors { length bindings.now.monitors.items ≤ 32 }
    requires containers { length bindings.now.containers ≤ 32 }
    ensures value { IsOutcome (λ changes. changes.items) result (changes_text script.now (opening_tree bindings.now) text.now) }
    ensures below_halt { IfOk result (λ changes. All IsBelowHalt changes.items) }
{
    let commands = commands_in(alloc, script, text)?;
    match changes_of(alloc, bindings, commands.as_slice()) {
        Ok(changes) => Ok(changes),
        Err(fault) => Err(refused(alloc, script, fault)),
    }
}

/// Reads the script and gives its changes.
#[tactic(auto, using(rv_bind::proofs::OutcomeLemmas::fault_counted, crate::proofs::BesideLemmas::changes_named, crate::proofs::PossibleLemmas::script_unread, crate::proofs::PossibleLemmas::script_may))]
fn read_changes<S: Store>(
    alloc: Global,
    store: &mut S,
    script: &str,
    bindings: &Bindings,
) -> Result<Vec<Change>, BindFault>
    requires monitors { length bindings.now.monitors.items ≤ 32 }
    requires containers { length bindings.now.containers ≤ 32 }
    ensures reads { ReadsOutcome (λ changes. changes.items) (S.files store.old) (S.files store.new) (S.faults store.old) (S.faults store.new) result (λ files. changes_in files script.now (opening_tree bindings.now)) }
    ensures some { MayCome (λ changes. changes.items) result (MayRead script.now (changes_text script.now (opening_tree bindings.now))) }
    ensures below_halt { IfOk result (λ changes. All IsBelowHalt changes.items) }
{
    let text = read_file(alloc, store, script)?;
    changes_in_text(alloc, script, bindings, text.as_slice())
}

/// Reads the bindings and the trace, and then the script that runs beside the CPUs.
#[tactic(auto, using(rv_bind::proofs::OutcomeLemmas::fault_counted, crate::proofs::BesideLemmas::beside_named))]
pub(crate) fn read_beside<S: Store>(
    alloc: Global,
    store: &mut S,
    bindings: &str,
    trace: &str,
    script: &str,
) -> Result<Prepared, BindFault>
    ensures ready { IfOk result IsPrepared }
    ensures some { MayCome prepared_value result (MayRunBeside bindings.now trace.now script.now) }
    ensures reads { ReadsOutcome prepared_value (S.files store.old) (S.files store.new) (S.faults store.old) (S.faults store.new) result (λ files. input_beside files bindings.now trace.now script.now) }
{
    let mut ready = read_input(alloc, store, bindings, trace)?;
    match read_changes(alloc, store, script, &ready.bindings) {
        Ok(changes) => {
            ready.changes = changes;
            Ok(ready)
        }
        Err(fault) => {
            drop(ready);
            Err(fault)
        }
    }
}
