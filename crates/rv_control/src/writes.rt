//! What a write to a control file does.
ghost use Rattle.std.specs.Prelude.{◌≡◌, ◌≤◌, ◌<◌, ◌^◌, option_map, None, Some, Ok, Err, IfSome, IfNone, IfOk, IfErr, OnErr};
ghost use Rattle.rv_model.specs.Reactors.{reactor_named};
ghost use Rattle.rv_control.specs.Effects.{without_end, flag_of, no_change, switching, change_of, with_switches, with_reactor, effect};

use crate::control::Control;
use crate::paths::Path;
use rv_model::{Change, Reactor};
use rv_text::{INVALID, NO_SUCH_FILE, Refusal};

/// The text without a line end at its end.
fn without_end(text: &[u8]) -> &[u8]
    ensures { result.now ≡ without_end text.now }
{
    let size = text.len();
    if size > 0 && text[size - 1] == b'\n' {
        &text[..size - 1]
    } else {
        text
    }
}

/// `0` or `1`.
fn flag_of(text: &[u8]) -> Option<bool>
    ensures { result ≡ flag_of text.now }
{
    match text {
        b"0" => Some(false),
        b"1" => Some(true),
        _ => None,
    }
}

/// The switch of monitoring.
const MONITORING: usize = 32;
/// The switch of reacting.
const REACTING: usize = 33;

impl Control {
    /// The change where a switch goes on or off.
    fn switching(&self, bit: usize, on: bool) -> Change
        requires { bit < 64 }
        ensures { result ≡ switching self.now bit on }
    {
        let mut change = Change {
            lower: 0,
            clear: 0,
            raise: 0,
        };
        if self.has_switch(bit) != on {
            if on {
                change.raise = 1 << bit;
            } else {
                change.lower = 1 << bit;
            }
        }
        change
    }

    /// The change of the switches that a text asks of a file.
    fn change_of(&self, file: Path, text: &[u8], append: bool) -> Option<Change>
        ensures { result ≡ change_of self.now file text.now append }
    {
        match file {
            Path::MonitoringOn => Some(self.switching(MONITORING, flag_of(text)?)),
            Path::ReactingOn => Some(self.switching(REACTING, flag_of(text)?)),
            Path::EnabledMonitors => self.ordering(text, append),
            Path::Enable(item) => Some(self.turning(item, flag_of(text)?)),
            Path::AvailableMonitors | Path::AvailableReactors | Path::Desc(_) | Path::Reactors(_) =>
                None,
        }
    }

    fn apply(&mut self, change: Change)
        ensures { self.new ≡ with_switches self.old change }
    {
        self.switches = self.switches & !change.lower | change.raise;
    }

    fn choose(&mut self, place: u8, text: &[u8]) -> Option<Change>
        ensures some { IfSome result (λ change. option_map (with_reactor self.old place) (reactor_named text.now) ≡ Some (self.new, change)) }
        ensures none { IfNone result ((reactor_named text.now ≡ None) × (self.new ≡ self.old)) }
    {
        let reactor = Reactor::from_name(text)?;
        let place = place as usize;
        if place < self.reactors.len() {
            self.reactors[place] = reactor;
        }
        Some(Change {
            lower: 0,
            clear: 0,
            raise: 0,
        })
    }

    /// Writes a text to a file of the tree. The change says what was made of the switches; the tree is unchanged after a refusal.
    pub fn write(&mut self, path: &[u8], text: &[u8], append: bool) -> Result<Change, Refusal>
        ensures ok { IfOk result (λ change. effect self.old path.now text.now append ≡ Ok (self.new, change)) }
        ensures below_halt { IfOk result (λ change. (change.lower < 2 ^ 34) × (change.raise < 2 ^ 34)) }
        ensures refused { IfErr result (λ refusal. effect self.old path.now text.now append ≡ Err refusal) }
        ensures kept { OnErr result (self.new ≡ self.old) }
    {
        self.assert_invariant();
        let file = self.file_at(path).ok_or(Refusal::whole(NO_SUCH_FILE))?;
        let text = without_end(text);
        if let Path::Reactors(place) = file {
            return self.choose(place, text).ok_or(Refusal::whole(INVALID));
        }
        let change = self
            .change_of(file, text, append)
            .ok_or(Refusal::whole(INVALID))?;
        self.apply(change);
        Ok(change)
    }
}
