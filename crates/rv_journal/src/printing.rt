//! Entries are printed, a line each.
ghost use Rattle.std.specs.Prelude.{◌≡◌, ◌++◌, ◌∷◌, [], OnOk, IfOk, decimal};
ghost use Rattle.rv_journal.specs.EntryTexts.{mode_word, what_words, act_words, behind_blanks, entry_text, journal_of};

use rv_model::{Act, Entry, Mode, What};
use rv_text::Line;
use std::alloc::{AllocError, Global};

/// Appends a blank and a word.
fn put_word(out: &mut Line, word: &[u8]) -> Result<(), AllocError>
    ensures { OnOk result (out.new ≡ out.old ++ 32 ∷ word.now) }
{
    out.text(b" ")?;
    out.text(word)
}

/// Appends a blank and a number, in decimal.
fn put_number(out: &mut Line, n: u64) -> Result<(), AllocError>
    ensures { OnOk result (out.new ≡ out.old ++ 32 ∷ decimal n) }
{
    out.text(b" ")?;
    out.number(n)
}

/// Appends a name and a number, each with a blank in front.
fn put_numbered(out: &mut Line, name: &[u8], n: u64) -> Result<(), AllocError>
    ensures { OnOk result (out.new ≡ out.old ++ behind_blanks (name.now ∷ decimal n ∷ [])) }
{
    put_word(out, name)?;
    put_number(out, n)
}

/// The word of a mode, as in bindings.
fn mode_word(mode: Mode) -> &'static [u8]
    ensures { result.now ≡ mode_word mode }
{
    match mode {
        Mode::Event => b"event",
        Mode::Start => b"start",
        Mode::StartRun => b"start_run",
        Mode::End => b"end",
    }
}

/// Appends the kind of a letter and its numbers, each with a blank in front, or nothing for an end.
fn put_what(out: &mut Line, what: What) -> Result<(), AllocError>
    ensures { OnOk result (out.new ≡ out.old ++ behind_blanks (what_words what)) }
{
    match what {
        What::Da { event } => put_numbered(out, b"da", event as u64),
        What::Ltl { on, off, pulse } => {
            put_numbered(out, b"ltl", on as u64)?;
            put_number(out, off as u64)?;
            put_number(out, pulse as u64)
        }
        What::Nothing => Ok(()),
    }
}

/// Appends the name of an act and its numbers, each with a blank in front.
fn put_act(out: &mut Line, act: &Act) -> Result<(), AllocError>
    ensures { OnOk result (out.new ≡ out.old ++ behind_blanks (act_words act.now)) }
{
    match *act {
        Act::Deliver { slot, hit } => {
            put_numbered(out, b"deliver", slot as u64)?;
            put_word(out, mode_word(hit.mode))?;
            put_what(out, hit.what)
        }
        Act::Stop { slot } => put_numbered(out, b"stop", slot as u64),
        Act::Look => put_word(out, b"look"),
        Act::Raise { bits } => put_numbered(out, b"raise", bits),
        Act::Lower { bits } => put_numbered(out, b"lower", bits),
        Act::Clear { slot } => put_numbered(out, b"clear", slot as u64),
        Act::End { slot } => put_numbered(out, b"end", slot as u64),
    }
}

/// Appends the line of an entry, with its line end.
fn put_entry(out: &mut Line, entry: &Entry) -> Result<(), AllocError>
    ensures { OnOk result (out.new ≡ out.old ++ (entry_text entry.now ++ 10 ∷ [])) }
{
    out.number(entry.seat as u64)?;
    put_act(out, &entry.act)?;
    put_number(out, entry.before)?;
    put_number(out, entry.after)?;
    out.text(b"\n")
}

/// The journal of a history: a line for each entry, oldest first. The one error is want of memory.
pub fn journal_text(alloc: Global, entries: &[Entry]) -> Result<Vec<u8>, AllocError>
    ensures { IfOk result (λ text. text.items ≡ journal_of entries.now) }
{
    let mut out = Line::new(alloc);
    for entry in entries {
        put_entry(&mut out, entry)?;
    }
    Ok(out.into_bytes())
}
