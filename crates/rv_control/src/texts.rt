//! What the control files say.
ghost use Rattle.std.specs.Prelude.{◌≡◌, ◌++◌, ◌≤◌, length, flat_map, slice_get, option_copied, OnOk, IfOk};
ghost use Rattle.rv_text.specs.Readings.{Gives};
ghost use Rattle.rv_control.specs.Trees.{item_display_name, monitor_display_name};
ghost use Rattle.rv_control.specs.FileTexts.{monitors_in, with_held, listed, has_line, name_line, names_text, flag_text, watched_text, desc_text, is_bracketed, reactor_line, text_of, file_text};

use crate::control::Control;
use crate::paths::Path;
use crate::watched::MonitorInfo;
use rv_bind::Item;
use rv_model::Reactor;
use rv_text::{Line, NO_SUCH_FILE, Refusal, Refused};
use std::alloc::{AllocError, Global};

/// Whether it is on.
fn flag_text(on: bool) -> &'static [u8]
    ensures { result.now ≡ flag_text on }
{
    if on { b"1\n" } else { b"0\n" }
}

/// Whether a reactor is chosen, and is this one.
fn is_bracketed(chosen: Option<Reactor>, reactor: Reactor) -> bool
    ensures { result ≡ is_bracketed chosen reactor }
{
    match chosen {
        Some(chosen) => chosen.name() == reactor.name(),
        None => false,
    }
}

/// Appends the line of a reactor.
fn reactor_line(out: &mut Line, chosen: Option<Reactor>, reactor: Reactor) -> Result<(), AllocError>
    ensures { OnOk result (out.new ≡ out.old ++ reactor_line chosen reactor) }
{
    if is_bracketed(chosen, reactor) {
        out.text(b"[")?;
        out.text(reactor.name())?;
        out.text(b"]\n")
    } else {
        out.text(reactor.name())?;
        out.text(b"\n")
    }
}

/// Appends a line for each reactor, of which the chosen one is marked.
fn list_reactors(
    out: &mut Line,
    reactors: &[Reactor],
    chosen: Option<Reactor>,
) -> Result<(), AllocError>
    ensures { OnOk result (out.new ≡ out.old ++ flat_map (reactor_line chosen) reactors.now) }
{
    for reactor in reactors {
        reactor_line(out, chosen, *reactor)?;
    }
    Ok(())
}

/// Appends how a monitor is specified.
fn describe(out: &mut Line, monitor: Option<&MonitorInfo>) -> Result<(), AllocError>
    ensures { OnOk result (out.new ≡ out.old ++ watched_text (option_copied monitor.entry)) }
{
    let Some(monitor) = monitor else {
        return Ok(());
    };
    out.text(monitor.kind.name())?;
    out.text(b" ")?;
    out.text(monitor.scope.name())?;
    out.text(b" ")?;
    out.text(monitor.file.bytes())?;
    out.text(b"\n")
}

impl Control {
    /// Appends the monitors of a container to the list.
    fn list_held(&self, listed: &mut Vec<Item>, container: u8) -> Result<(), AllocError>
        ensures { OnOk result (listed.new.items ≡ listed.old.items ++ monitors_in self.now container (length self.now.monitors)) }
    {
        for place in 0..self.monitors.len() {
            if self.belongs_to(Item::Container(container), place) {
                listed.push(Item::Monitor(place as u8))?;
            }
        }
        Ok(())
    }

    /// Appends the item to the list, and its monitors behind it.
    fn list(&self, listed: &mut Vec<Item>, item: Item) -> Result<(), AllocError>
        ensures { OnOk result (listed.new.items ≡ listed.old.items ++ with_held self.now item) }
    {
        listed.push(item)?;
        match item {
            Item::Container(container) => self.list_held(listed, container),
            Item::Monitor(_) => Ok(()),
        }
    }

    /// All containers and monitors, each container before its monitors.
    fn listed(&self, alloc: Global) -> Result<Vec<Item>, AllocError>
        ensures { IfOk result (λ items. items.items ≡ listed self.now) }
    {
        let mut listed = Vec::new(alloc);
        for item in &self.items {
            self.list(&mut listed, *item)?;
        }
        Ok(listed)
    }

    /// Appends how a monitor is called, where there is one.
    fn show_monitor(&self, out: &mut Line, monitor: Option<&MonitorInfo>) -> Result<(), AllocError>
        ensures { OnOk result (out.new ≡ out.old ++ monitor_display_name self.now (option_copied monitor.entry)) }
    {
        let Some(monitor) = monitor else {
            return Ok(());
        };
        if let Some(place) = monitor.container {
            out.text(self.container_name(place))?;
            out.text(b":")?;
        }
        out.text(monitor.name.bytes())
    }

    /// Appends how a container or a monitor is called.
    fn show(&self, out: &mut Line, item: Item) -> Result<(), AllocError>
        ensures { OnOk result (out.new ≡ out.old ++ item_display_name self.now item) }
    {
        match item {
            Item::Container(place) => out.text(self.container_name(place)),
            Item::Monitor(place) => self.show_monitor(
                out,
                self.monitors.as_slice().get(place as usize),
            ),
        }
    }

    /// Appends the line of an item, where it is listed.
    fn name_line(&self, out: &mut Line, enabled: bool, item: Item) -> Result<(), AllocError>
        ensures { OnOk result (out.new ≡ out.old ++ name_line self.now enabled item) }
    {
        if enabled && !self.is_enabled(item) {
            return Ok(());
        }
        self.show(out, item)?;
        out.text(b"\n")
    }

    /// Appends a line for each container and monitor, or for each that is enabled.
    fn names(&self, alloc: Global, out: &mut Line, enabled: bool) -> Result<(), AllocError>
        ensures { OnOk result (out.new ≡ out.old ++ names_text self.now enabled) }
    {
        let listed = self.listed(alloc)?;
        for item in &listed {
            self.name_line(out, enabled, *item)?;
        }
        Ok(())
    }

    /// Appends what an item is.
    fn desc(&self, out: &mut Line, item: Item) -> Result<(), AllocError>
        ensures { OnOk result (out.new ≡ out.old ++ desc_text self.now item) }
    {
        match item {
            Item::Container(_) => out.text(b"container\n"),
            Item::Monitor(place) => describe(out, self.monitors.as_slice().get(place as usize)),
        }
    }

    /// The reactor of the monitor at this place, where there is one.
    fn reactor_at(&self, place: u8) -> Option<Reactor>
        ensures { result ≡ slice_get self.now.reactors place }
    {
        match self.reactors.as_slice().get(place as usize) {
            Some(reactor) => Some(*reactor),
            None => None,
        }
    }

    fn file_text(&self, alloc: Global, out: &mut Line, file: Path) -> Result<(), AllocError>
        ensures { OnOk result (out.new ≡ out.old ++ text_of self.now file) }
    {
        match file {
            Path::AvailableMonitors => self.names(alloc, out, false),
            Path::AvailableReactors => list_reactors(out, &Reactor::ALL, None),
            Path::EnabledMonitors => self.names(alloc, out, true),
            Path::MonitoringOn => out.text(flag_text(self.has_switch(32))),
            Path::ReactingOn => out.text(flag_text(self.has_switch(33))),
            Path::Desc(item) => self.desc(out, item),
            Path::Enable(item) => out.text(flag_text(self.is_enabled(item))),
            Path::Reactors(place) => list_reactors(out, &Reactor::ALL, self.reactor_at(place)),
        }
    }

    /// What a read of this path gives. A path that names no file is refused.
    pub fn read(&self, alloc: Global, path: &[u8]) -> Result<Vec<u8>, Refused>
        ensures { Gives (λ text. text.items) result (file_text self.now path.now) }
    {
        let Some(file) = self.file_at(path) else {
            return Err(Refused::Because(Refusal::whole(NO_SUCH_FILE)));
        };
        let mut out = Line::new(alloc);
        self.file_text(alloc, &mut out, file)?;
        Ok(out.into_bytes())
    }
}
