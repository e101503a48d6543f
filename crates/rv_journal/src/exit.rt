//! The exit status that a recorded history shows.
ghost use Rattle.std.specs.Prelude.{◌≡◌, List};
ghost use Rattle.std.specs.List.{list_any};
ghost use Rattle.rv_model.specs.Setups.{Setup};
ghost use Rattle.rv_model.specs.Works.{Work};
ghost use Rattle.rv_core.specs.Setup.{judges_of};
ghost use Rattle.rv_laws.specs.Exits.{exit_of, is_stop, has_stop};
ghost use Rattle.rv_journal.specs.Whole.{IsWholeRun};
ghost use Rattle.rv_journal.specs.inner.Whole.{is_failed_entry, shows_failure};

use rv_model::{Act, Entry, Mode};
use rv_text::{CLEAN, FAILURE, STOPPED_SOME};
use rv_word::set_of;

/// Whether a hit of the mode failed that found one word and left another. An instance whose set has no row is stopped,
/// and one whose set has row 0 alone waits.
fn shows_failure(mode: Mode, before: u64, after: u64) -> bool
    ensures { result ≡ shows_failure mode before after }
{
    if set_of(after) != 1 {
        return false;
    }
    match set_of(before) {
        0 => false,
        1 => matches!(mode, Mode::StartRun),
        _ => true,
    }
}

fn is_failed(entry: &Entry) -> bool
    ensures { result ≡ is_failed_entry entry.now entry.now.act }
{
    match entry.act {
        Act::Deliver { hit, .. } => shows_failure(hit.mode, entry.before, entry.after),
        _ => false,
    }
}

fn is_stop(entry: &Entry) -> bool
    ensures { result ≡ is_stop entry.now.act }
{
    matches!(entry.act, Act::Stop { .. })
}

fn has_failed(entries: &[Entry]) -> bool
    ensures { result ≡ list_any (λ e. is_failed_entry e e.act) entries.now }
{
    entries.iter().any(|entry| is_failed(entry))
}

fn has_stop(entries: &[Entry]) -> bool
    ensures { result ≡ has_stop entries.now }
{
    entries.iter().any(|entry| is_stop(entry))
}

/// The exit status of a whole history of a recorded run: 1 where a delivery failed, else 6 where an instance was
/// stopped, else 0. It needs neither the works nor their records. Of any other list of entries it says nothing.
pub fn exit_status(entries: &[Entry]) -> u8
    ensures { (s : Setup) (works : List Work) → IsWholeRun s works entries.now → result ≡ exit_of s (judges_of s) entries.now }
{
    if has_failed(entries) {
        FAILURE
    } else if has_stop(entries) {
        STOPPED_SOME
    } else {
        CLEAN
    }
}
