//! The bindings of the lines so far, and what a line adds to them.
ghost use Rattle.std.specs.Prelude.{◌≡◌, ◌≤◌, ◌<◌, ◌++◌, ℕ, List, Option, Some, None, Bool, false, IsTrue, length, position, bytes_eq, option_copied, IfOk, IfSome, OnOk};
ghost use Rattle.std.specs.List.{position_or_len};
ghost use Rattle.rv_bind.specs.inner.LineReads.{ReadsValue};
ghost use Rattle.rv_bind.specs.LineWords.{is_name};
ghost use Rattle.rv_bind.specs.Compiling.{Compiles};
ghost use Rattle.rv_bind.specs.Bound.{nothing_bound, is_called, is_taken, monitor_named, holder_named, room_for, place_for, new_monitor, with_monitor, items_of, container_bound};
ghost use Rattle.rv_bind.specs.MonitorLines.{allows_by, change_bound, reacting, disabled, begin_bound};
ghost use Rattle.rv_bind.specs.BoundViews.{bound_value};
ghost use Rattle.rv_bind.specs.inner.FormViews.{rule_said};
ghost use Rattle.rv_bind.specs.WellFormed.{IsWellFormed, IsHolder};
ghost use Rattle.rv_bind.specs.declared.limits.TheConstants.{MAX_MONITORS};

use crate::bindings::{Bindings, Bound, Item, Monitor, On};
use crate::changes::{allows_hit, atom_bit, brought};
use crate::compile::Compiled;
use crate::fault::LineFault;
use crate::forms::{MonitorForm, OnForm};
use crate::limits::{MAX_CONTAINERS, MAX_MONITORS, MAX_RULES};
use crate::words::SYNTAX;
use rv_model::{Hit, Name, Names, Reactor, Scope, Spec, What};
use rv_text::{NAME_TWICE, TOO_MANY_MONITORS, TOO_MANY_RULES};
use std::alloc::{AllocError, Global};

/// The index at which the list has the name first, or the list's length.
fn place_or_len(names: &Names, name: &[u8]) -> usize
    ensures { result ≡ position_or_len (λ other. bytes_eq other name.now) names.now }
{
    for place in 0..names.len() {
        if names.get(place).bytes() == name {
            return place;
        }
    }
    names.len()
}

/// The index at which the list has the name first, if it has it.
pub(crate) fn place_in(names: &Names, name: &[u8]) -> Option<usize>
    ensures value { result ≡ position (λ other. bytes_eq other name.now) names.now }
    ensures within { IfSome result (λ place. place < length names.now) }
{
    let index = place_or_len(names, name);
    if index < names.len() {
        Some(index)
    } else {
        None
    }
}

fn is_called(monitor: &Monitor, name: &[u8]) -> bool
    ensures { result ≡ is_called name.now monitor.now }
{
    monitor.name.bytes() == name
}

/// The index of the first monitor that has the name, if there is one.
fn place_of(monitors: &[Monitor], name: &[u8]) -> Option<usize>
    ensures value { result ≡ position (is_called name.now) monitors.now }
    ensures within { IfSome result (λ place. place < length monitors.now) }
{
    monitors.iter().position(|monitor| is_called(monitor, name))
}

/// Whether a rule of a monitor of this scope may name a field that has the pid.
fn allows_by(scope: Scope, by: Option<&[u8]>) -> bool
    ensures { result ≡ allows_by scope (option_copied by.entry) }
{
    match by {
        None => true,
        Some(_) => match scope {
            Scope::Task => true,
            Scope::Global | Scope::Cpu => false,
        },
    }
}

/// A copy of the name of a field, if one is given.
fn owned(alloc: Global, field: Option<&[u8]>) -> Result<Option<Name>, AllocError>
    ensures { IfOk result (λ name. name ≡ option_copied field.entry) }
{
    match field {
        Some(field) => Ok(Some(Name::new(alloc, field)?)),
        None => Ok(None),
    }
}

/// Adds the monitor at `index` to the items, unless it is in a container.
fn add_item(items: &mut Vec<Item>, container: Option<u8>, index: u8) -> Result<(), AllocError>
    ensures { OnOk result (items.new.items ≡ items.old.items ++ items_of container index) }
{
    if container.is_none() {
        items.push(Item::Monitor(index))?;
    }
    Ok(())
}

/// The monitor of a line: enabled, with no atom that starts true, and the reactor that does nothing.
fn new_monitor(
    alloc: Global,
    form: MonitorForm<'_>,
    container: Option<u8>,
    spec: Spec,
) -> Result<Monitor, AllocError>
    ensures { IfOk result (λ monitor. monitor ≡ new_monitor form.entry.name.now container form.entry.scope form.entry.file.now spec) }
{
    let name = Name::new(alloc, form.name)?;
    let file = Name::new(alloc, form.file.as_bytes())?;
    Ok(Monitor {
        name,
        container,
        scope: form.scope,
        spec,
        file,
        starting: 0,
        reactor: Reactor::Nop,
        enabled: true,
    })
}

/// The rule of a line, of the monitor at an index.
fn new_rule(alloc: Global, monitor: u8, on: OnForm<'_>, what: What) -> Result<On, AllocError>
    ensures { IfOk result (λ rule. rule ≡ record { monitor = monitor; event = on.entry.event.now; by = option_copied on.entry.by; tests = on.entry.tests.items; hit = record { mode = on.entry.mode; what = what } }) }
{
    let by = owned(alloc, on.by)?;
    let event = Name::new(alloc, on.event)?;
    Ok(On {
        monitor,
        event,
        by,
        tests: on.tests,
        hit: Hit {
            mode: on.mode,
            what,
        },
    })
}

impl Bound {
    /// The bindings before the first line.
    #[tactic(auto, using(crate::proofs::WellFormedLemmas::nothing_formed))]
    pub(crate) fn new(alloc: Global) -> Bound
        ensures nothing { bound_value result ≡ nothing_bound }
        ensures formed { IsWellFormed (bound_value result) }
    {
        Bound {
            bindings: Bindings {
                containers: Names::new(alloc),
                monitors: Vec::new(alloc),
                rules: Vec::new(alloc),
                items: Vec::new(alloc),
            },
            tables: Vec::new(alloc),
        }
    }

    /// Adds a container at the end. A 33rd is refused as a line without a form, and else a name that is taken. Want of
    /// memory may leave a part of it.
    pub(crate) fn add_container(&mut self, alloc: Global, name: &[u8]) -> Result<(), LineFault>
        requires formed { IsWellFormed (bound_value self.old) }
        requires named { IsTrue (is_name name.now) }
        ensures formed { OnOk result (IsWellFormed (bound_value self.new)) }
        ensures container { ReadsValue (λ done. bound_value self.new) result (container_bound (bound_value self.old) name.now) }
    {
        let index = self.bindings.containers.len();
        if index >= MAX_CONTAINERS {
            return Err(SYNTAX);
        }
        if self.is_taken(name) {
            return Err(LineFault::Number(NAME_TWICE));
        }
        let name = Name::new(alloc, name)?;
        self.bindings.containers.push(name)?;
        self.bindings.items.push(Item::Container(index as u8))?;
        Ok(())
    }

    /// Whether a container or a monitor has the name.
    fn is_taken(&self, name: &[u8]) -> bool
        ensures { result ≡ is_taken (bound_value self.now) name.now }
    {
        place_of(self.bindings.monitors.as_slice(), name).is_some()
            || place_in(&self.bindings.containers, name).is_some()
    }

    /// Refuses a name that is taken, and else a monitor too many.
    fn room_for(&self, name: &[u8]) -> Result<(), LineFault>
        ensures room { ReadsValue (λ done. tt) result (room_for (bound_value self.now) name.now) }
        ensures free { OnOk result (is_taken (bound_value self.now) name.now ≡ false) }
    {
        if self.is_taken(name) {
            Err(LineFault::Number(NAME_TWICE))
        } else if self.bindings.monitors.len() < MAX_MONITORS {
            Ok(())
        } else {
            Err(LineFault::Number(TOO_MANY_MONITORS))
        }
    }

    /// The index of the container that a monitor's line names, if it names one. An unknown name is refused.
    fn holder(&self, holder: Option<&[u8]>) -> Result<Option<u8>, LineFault>
        requires { length (bound_value self.now).containers ≤ 32 }
        ensures place { ReadsValue (λ place. place) result (holder_named (bound_value self.now).containers (option_copied holder.entry)) }
        ensures within { IfOk result (IsHolder (length (bound_value self.now).containers)) }
    {
        let Some(name) = holder else {
            return Ok(None);
        };
        match place_in(&self.bindings.containers, name) {
            Some(index) => Ok(Some(index as u8)),
            None => Err(SYNTAX),
        }
    }

    /// The index of a new monitor's container, if it has one. Refuses an unknown container, a name that is taken, and a
    /// monitor too many, in this order.
    pub(crate) fn place_for(
        &self,
        name: &[u8],
        holder: Option<&[u8]>,
    ) -> Result<Option<u8>, LineFault>
        requires { IsWellFormed (bound_value self.now) }
        ensures place { ReadsValue (λ place. place) result (place_for (bound_value self.now) name.now (option_copied holder.entry)) }
        ensures within { IfOk result (IsHolder (length (bound_value self.now).containers)) }
        ensures room { OnOk result (length (bound_value self.now).monitors < MAX_MONITORS) }
        ensures free { OnOk result (is_taken (bound_value self.now) name.now ≡ false) }
    {
        let container = self.holder(holder)?;
        self.room_for(name)?;
        Ok(container)
    }

    /// Adds a monitor at the end, with its table. Want of memory may leave a part of it.
    pub(crate) fn add_monitor(
        &mut self,
        alloc: Global,
        form: MonitorForm<'_>,
        container: Option<u8>,
        compiled: Compiled,
    ) -> Result<(), AllocError>
        requires room { length (bound_value self.old).monitors < MAX_MONITORS }
        requires formed { IsWellFormed (bound_value self.old) }
        requires named { IsTrue (is_name form.name.now) }
        requires free { is_taken (bound_value self.old) form.name.now ≡ false }
        requires holder { IsHolder (length (bound_value self.old).containers) container }
        requires compiles { Compiles compiled.spec compiled.table }
        ensures monitor { OnOk result (bound_value self.new ≡ with_monitor (bound_value self.old) form.entry.name.now container form.entry.scope form.entry.file.now compiled) }
        ensures formed { OnOk result (IsWellFormed (bound_value self.new)) }
    {
        let index = self.bindings.monitors.len() as u8;
        let Compiled { spec, table } = compiled;
        let monitor = new_monitor(alloc, form, container, spec)?;
        self.bindings.monitors.push(monitor)?;
        self.tables.push(table)?;
        add_item(&mut self.bindings.items, container, index)?;
        Ok(())
    }

    /// Adds a rule at the end, or refuses it, first for its monitor and its form, then as a rule too many, and last for
    /// an unknown event or atom.
    pub(crate) fn add_rule(&mut self, alloc: Global, on: OnForm<'_>) -> Result<(), LineFault>
        requires { IsWellFormed (bound_value self.old) }
        ensures formed { OnOk result (IsWellFormed (bound_value self.new)) }
        ensures rule { ReadsValue (λ done. bound_value self.new) result (rule_said (bound_value self.old) on.entry) }
    {
        let Some(place) = place_of(self.bindings.monitors.as_slice(), on.monitor) else {
            return Err(SYNTAX);
        };
        let monitor = &self.bindings.monitors[place];
        if !allows_by(monitor.scope, on.by) {
            return Err(SYNTAX);
        }
        let words = on.words.as_slice();
        if !allows_hit(alloc, monitor.scope, &monitor.spec, on.mode, words)? {
            return Err(SYNTAX);
        }
        if self.bindings.rules.len() >= MAX_RULES {
            return Err(LineFault::Number(TOO_MANY_RULES));
        }
        let what = brought(&monitor.spec, on.mode, words)?;
        let rule = new_rule(alloc, place as u8, on, what)?;
        self.bindings.rules.push(rule)?;
        Ok(())
    }

    /// Gives the monitor of this name another reactor, or refuses an unknown monitor.
    pub(crate) fn choose(&mut self, monitor: &[u8], reactor: Reactor) -> Result<(), LineFault>
        requires { IsWellFormed (bound_value self.old) }
        ensures formed { OnOk result (IsWellFormed (bound_value self.new)) }
        ensures reactor { ReadsValue (λ done. bound_value self.new) result (change_bound (bound_value self.old) (monitor_named (bound_value self.old) monitor.now) (reacting reactor)) }
    {
        let Some(place) = place_of(self.bindings.monitors.as_slice(), monitor) else {
            return Err(SYNTAX);
        };
        self.bindings.monitors[place].reactor = reactor;
        Ok(())
    }

    /// Lets the monitor of this name not be enabled when a run begins, or refuses an unknown monitor.
    pub(crate) fn disable(&mut self, monitor: &[u8]) -> Result<(), LineFault>
        requires { IsWellFormed (bound_value self.old) }
        ensures formed { OnOk result (IsWellFormed (bound_value self.new)) }
        ensures disabled { ReadsValue (λ done. bound_value self.new) result (change_bound (bound_value self.old) (monitor_named (bound_value self.old) monitor.now) disabled) }
    {
        let Some(place) = place_of(self.bindings.monitors.as_slice(), monitor) else {
            return Err(SYNTAX);
        };
        self.bindings.monitors[place].enabled = false;
        Ok(())
    }

    /// Lets one more atom of the monitor of this name start true, or refuses an unknown monitor or atom, or an
    /// automaton.
    pub(crate) fn begin(&mut self, monitor: &[u8], atom: &[u8]) -> Result<(), LineFault>
        requires { IsWellFormed (bound_value self.old) }
        ensures formed { OnOk result (IsWellFormed (bound_value self.new)) }
        ensures starting { ReadsValue (λ done. bound_value self.new) result (begin_bound (bound_value self.old) (monitor_named (bound_value self.old) monitor.now) atom.now) }
    {
        let Some(place) = place_of(self.bindings.monitors.as_slice(), monitor) else {
            return Err(SYNTAX);
        };
        let monitor = &mut self.bindings.monitors[place];
        let bit = atom_bit(&monitor.spec, atom)?;
        monitor.starting = monitor.starting | bit;
        Ok(())
    }
}
