//! The control files by their paths.
ghost use Rattle.std.specs.Prelude.{◌≡◌, ◌<◌, ◌≤◌, ◌++◌, [], length, position, bytes_eq, codes, option_map, option_copied, slice_index_or, IfSome};
ghost use Rattle.rv_model.specs.Reports.{display_name};
ghost use Rattle.rv_control.specs.Paths.{container_named, is_same_container, is_called_in, monitor_item, outer_named, inner_named, has_display_name, item_named, item_or, top_file, reactors_file, item_file, file_below, path_of, is_reactors};

use crate::control::Control;
use crate::watched::MonitorInfo;
use rv_bind::Item;
use rv_model::Name;
use rv_text::Pieces;

/// A control file.
#[derive(Clone, Copy, Drop)]
pub(crate) enum Path {
    AvailableMonitors,
    AvailableReactors,
    EnabledMonitors,
    MonitoringOn,
    ReactingOn,
    Desc(Item),
    Enable(Item),
    /// Of the monitor at this place.
    Reactors(u8),
}

/// Whether both places are the same, or neither is given.
fn is_same_container(place: Option<u8>, other: Option<u8>) -> bool
    ensures { result ≡ is_same_container place other }
{
    match place {
        Some(place) => match other {
            Some(other) => place == other,
            None => false,
        },
        None => other.is_none(),
    }
}

fn is_named(other: &Name, name: &[u8]) -> bool
    ensures { result ≡ bytes_eq other.now name.now }
{
    other.bytes() == name
}

/// Whether the monitor has this name, in this container or in none.
fn is_called_in(monitor: &MonitorInfo, holder: Option<u8>, name: &[u8]) -> bool
    ensures { result ≡ is_called_in holder name.now monitor.now }
{
    is_same_container(monitor.container, holder) && monitor.name.bytes() == name
}

/// Whether the text is a colon and the name.
fn is_behind(text: &[u8], name: &[u8]) -> bool
    ensures { result ≡ bytes_eq (codes ":" ++ name.now) text.now }
{
    match text {
        [colon, rest @ ..] => *colon == b':' && name == rest,
        [] => false,
    }
}

/// Whether the text is the container's name, a colon, and the name.
pub fn is_joined(text: &[u8], container: &[u8], name: &[u8]) -> bool
    ensures { result ≡ bytes_eq (container.now ++ codes ":" ++ name.now) text.now }
{
    let size = container.len();
    if text.len() < size {
        return false;
    }
    if container == &text[..size] {
        is_behind(&text[size..], name)
    } else {
        false
    }
}

/// The first item, where there is one, or else the second.
fn item_or(container: Option<u8>, other: Option<Item>) -> Option<Item>
    ensures { result ≡ item_or container other }
{
    match container {
        Some(place) => Some(Item::Container(place)),
        None => other,
    }
}

/// Whether the piece is this one.
fn is(piece: &[u8], said: &str) -> bool
    ensures { result ≡ bytes_eq piece.now said.now }
{
    piece == said.as_bytes()
}

/// The file of this name beside `monitors`.
fn top_file(name: &[u8]) -> Option<Path>
    ensures { result ≡ top_file name.now }
{
    if is(name, "available_monitors") {
        Some(Path::AvailableMonitors)
    } else if is(name, "available_reactors") {
        Some(Path::AvailableReactors)
    } else if is(name, "enabled_monitors") {
        Some(Path::EnabledMonitors)
    } else if is(name, "monitoring_on") {
        Some(Path::MonitoringOn)
    } else if is(name, "reacting_on") {
        Some(Path::ReactingOn)
    } else {
        None
    }
}

fn reactors_file(item: Item) -> Option<Path>
    ensures { result ≡ reactors_file item }
{
    match item {
        Item::Container(_) => None,
        Item::Monitor(place) => Some(Path::Reactors(place)),
    }
}

/// The file of this name of a container or a monitor.
fn item_file(name: &[u8], item: Item) -> Option<Path>
    ensures { result ≡ item_file name.now item }
{
    if is(name, "desc") {
        Some(Path::Desc(item))
    } else if is(name, "enable") {
        Some(Path::Enable(item))
    } else if is(name, "reactors") {
        reactors_file(item)
    } else {
        None
    }
}

/// The file of this name below `monitors`.
fn file_below(top: &[u8], item: Option<Item>, name: &[u8]) -> Option<Path>
    ensures { result ≡ file_below top.now item name.now }
{
    if !is(top, "monitors") {
        return None;
    }
    item_file(name, item?)
}

impl Control {
    fn container_place(&self, name: &[u8]) -> Option<usize>
        ensures value { result ≡ container_named self.now name.now }
        ensures within { IfSome result (λ place. place < 32) }
    {
        self.containers
            .iter()
            .position(|container| is_named(container, name))
    }

    /// The place of the container of this name, as items have it.
    fn container_named(&self, name: &[u8]) -> Option<u8>
        ensures { result ≡ container_named self.now name.now }
    {
        match self.container_place(name) {
            Some(place) => Some(place as u8),
            None => None,
        }
    }

    /// The place of the monitor of this name in a container, or in none.
    fn monitor_place(&self, holder: Option<u8>, name: &[u8]) -> Option<usize>
        ensures value { result ≡ position (is_called_in holder name.now) self.now.monitors }
        ensures within { IfSome result (λ place. place < 32) }
    {
        self.monitors
            .iter()
            .position(|monitor| is_called_in(monitor, holder, name))
    }

    /// The monitor of this name in a container, or in none.
    fn monitor_item(&self, holder: Option<u8>, name: &[u8]) -> Option<Item>
        ensures { result ≡ monitor_item self.now holder name.now }
    {
        match self.monitor_place(holder, name) {
            Some(place) => Some(Item::Monitor(place as u8)),
            None => None,
        }
    }

    /// The container, or the monitor outside containers, of this name.
    fn outer_named(&self, name: &[u8]) -> Option<Item>
        ensures { result ≡ outer_named self.now name.now }
    {
        item_or(self.container_named(name), self.monitor_item(None, name))
    }

    /// The monitor of this name in the container of that name.
    fn inner_named(&self, container: &[u8], name: &[u8]) -> Option<Item>
        ensures { result ≡ inner_named self.now container.now name.now }
    {
        let place = self.container_named(container)?;
        self.monitor_item(Some(place), name)
    }

    /// The name of the container at this place, where there is one.
    pub(crate) fn container_name(&self, place: u8) -> &[u8]
        ensures { result.now ≡ slice_index_or self.now.containers place [] }
    {
        match self.containers.as_slice().get(place as usize) {
            Some(name) => name.bytes(),
            None => b"",
        }
    }

    /// Whether the monitor's display name is this one.
    fn has_display_name(&self, monitor: &MonitorInfo, name: &[u8]) -> bool
        ensures { result ≡ has_display_name self.now name.now monitor.now }
    {
        match monitor.container {
            Some(place) => is_joined(name, self.container_name(place), monitor.name.bytes()),
            None => monitor.name.bytes() == name,
        }
    }

    /// The place of the monitor of this display name.
    fn monitor_displayed(&self, name: &[u8]) -> Option<usize>
        ensures value { result ≡ position (has_display_name self.now name.now) self.now.monitors }
        ensures within { IfSome result (λ place. place < 32) }
    {
        self.monitors
            .iter()
            .position(|monitor| self.has_display_name(monitor, name))
    }

    /// The container of this name, or the monitor of this display name.
    pub(crate) fn item_named(&self, name: &[u8]) -> Option<Item>
        ensures { result ≡ item_named self.now name.now }
    {
        let monitor = match self.monitor_displayed(name) {
            Some(place) => Some(Item::Monitor(place as u8)),
            None => None,
        };
        item_or(self.container_named(name), monitor)
    }

    /// Whether a monitor's reactors are at this path.
    pub fn is_reactors(&self, path: &[u8]) -> bool
        ensures { result ≡ is_reactors self.now path.now }
    {
        match self.file_at(path) {
            Some(Path::Reactors(_)) => true,
            _ => false,
        }
    }

    pub(crate) fn file_at(&self, path: &[u8]) -> Option<Path>
        ensures { result ≡ path_of self.now path.now }
    {
        let mut pieces = Pieces::new(b'/', path);
        let top = pieces.next_piece()?;
        let Some(item) = pieces.next_piece() else {
            return top_file(top);
        };
        let third = pieces.next_piece()?;
        let Some(fourth) = pieces.next_piece() else {
            return file_below(top, self.outer_named(item), third);
        };
        match pieces.next_piece() {
            Some(_) => None,
            None => file_below(top, self.inner_named(item, third), fourth),
        }
    }
}
