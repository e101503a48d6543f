//! A finding, and the rules of a monitor as findings ask for them.
ghost use Rattle.std.specs.Prelude.{◌≡◌, ◌++◌, ◌∷◌, [], IfOk, OnOk};
ghost use Rattle.rv_findings.specs.MonitorFindings.{found_if};
ghost use Rattle.rv_findings.specs.OwnRules.{brings, first_of, first_or, is_asked, is_nothing, is_start, final_line, least_line, least_of, lines_where, own_rule, own_rules, sets};
ghost use Rattle.rv_facts.specs.Shown.{in_brackets};

use rv_bind::On;
use rv_facts::put_brackets;
use rv_model::{Hit, Mode, What, has_bit};
use rv_text::Line;
use std::alloc::{AllocError, Global};

/// A line of a file, and what is found there.
#[derive(Drop)]
pub(crate) struct Finding {
    pub(crate) line: u32,
    pub(crate) text: Line,
}

/// A rule of a monitor: its line in the bindings, and its hit.
#[derive(Clone, Copy, Drop)]
pub(crate) struct OwnRule {
    pub(crate) line: u32,
    pub(crate) hit: Hit,
}

/// What is asked of a rule.
#[derive(Clone, Copy, Drop)]
pub(crate) enum Asked {
    /// Whether an instance may begin with it.
    Starts,
    /// Whether it brings this event.
    Brings(usize),
    /// Whether it sets this atom.
    Sets(usize),
}

/// Adds a finding at its end.
pub(crate) fn add(found: &mut Vec<Finding>, line: u32, text: Line) -> Result<(), AllocError>
    ensures { OnOk result (found.new.items ≡ found.old.items ++ record { line = line; text = text } ∷ []) }
{
    found.push(Finding { line, text })?;
    Ok(())
}

/// Adds a finding where it is so.
pub(crate) fn add_if(
    found: &mut Vec<Finding>,
    is_so: bool,
    line: u32,
    text: Line,
) -> Result<(), AllocError>
    ensures { OnOk result (found.new.items ≡ found.old.items ++ found_if is_so line text) }
{
    if is_so {
        add(found, line, text)
    } else {
        Ok(())
    }
}

/// A text alone.
pub(crate) fn plain(alloc: Global, bytes: &[u8]) -> Result<Line, AllocError>
    ensures { IfOk result (λ text. text ≡ bytes.now) }
{
    let mut text = Line::new(alloc);
    text.text(bytes)?;
    Ok(text)
}

/// A text, and a number in brackets.
pub(crate) fn with_number(alloc: Global, front: &[u8], n: u64) -> Result<Line, AllocError>
    ensures { IfOk result (λ text. text ≡ front.now ++ in_brackets n) }
{
    let mut text = plain(alloc, front)?;
    put_brackets(&mut text, n)?;
    Ok(text)
}

/// A text, and a name.
pub(crate) fn named(alloc: Global, front: &[u8], name: &[u8]) -> Result<Line, AllocError>
    ensures { IfOk result (λ text. text ≡ front.now ++ name.now) }
{
    let mut text = plain(alloc, front)?;
    text.text(name)?;
    Ok(text)
}

/// A name between two texts.
pub(crate) fn around(
    alloc: Global,
    front: &[u8],
    name: &[u8],
    end: &[u8],
) -> Result<Line, AllocError>
    ensures { IfOk result (λ text. text ≡ front.now ++ name.now ++ end.now) }
{
    let mut text = Line::new(alloc);
    text.text(front)?;
    text.text(name)?;
    text.text(end)?;
    Ok(text)
}

/// Whether an instance may begin with the mode.
fn is_start(mode: Mode) -> bool
    ensures { result ≡ is_start mode }
{
    matches!(mode, Mode::Start | Mode::StartRun)
}

/// Whether it brings the event.
fn brings(event: usize, what: What) -> bool
    ensures { result ≡ brings event what }
{
    match what {
        What::Da { event: brought } => brought as usize == event,
        _ => false,
    }
}

/// Whether it sets the atom.
fn sets(atom: usize, what: What) -> bool
    ensures { result ≡ sets atom what }
{
    match what {
        What::Ltl { on, off: _, pulse } => {
            has_bit(on as u64, atom) || has_bit(pulse as u64, atom)
        }
        _ => false,
    }
}

/// Whether what is asked of a rule's hit is so.
fn is_asked(asked: Asked, hit: Hit) -> bool
    ensures { result ≡ is_asked asked hit }
{
    match asked {
        Asked::Starts => is_start(hit.mode),
        Asked::Brings(event) => brings(event, hit.what),
        Asked::Sets(atom) => sets(atom, hit.what),
    }
}

/// Adds the rule where it is the monitor's.
fn add_own(
    own: &mut Vec<OwnRule>,
    monitor: usize,
    place: usize,
    rule: &On,
    line: u32,
) -> Result<(), AllocError>
    ensures { OnOk result (own.new.items ≡ own.old.items ++ own_rule monitor place rule.now line) }
{
    if rule.monitor as usize == monitor {
        own.push(OwnRule {
            line,
            hit: rule.hit,
        })?;
    }
    Ok(())
}

/// The rules of the monitor at an index, each with its line.
#[tactic(auto, using(rv_facts::proofs::PairLemmas::more_pairs, rv_facts::proofs::PairLemmas::all_pairs))]
pub(crate) fn own_rules(
    alloc: Global,
    monitor: usize,
    rules: &[On],
    lines: &[u32],
) -> Result<Vec<OwnRule>, AllocError>
    ensures { IfOk result (λ own. own.items ≡ own_rules monitor rules.now lines.now) }
{
    let mut own = Vec::new(alloc);
    let count = rules.len().min(lines.len());
    'rules: for place in 0..count {
        add_own(&mut own, monitor, place, &rules[place], lines[place])?;
    }
    Ok(own)
}

/// The lines of those of the rules of which it is so.
pub(crate) fn lines_where(
    alloc: Global,
    asked: Asked,
    own: &[OwnRule],
) -> Result<Vec<u32>, AllocError>
    ensures { IfOk result (λ lines. lines.items ≡ lines_where asked own.now) }
{
    let mut lines = Vec::new(alloc);
    'own: for rule in own {
        if is_asked(asked, rule.hit) {
            lines.push(rule.line)?;
        }
    }
    Ok(lines)
}

/// The first of the lines, or another where there is none.
pub(crate) fn first_or(other: u32, lines: &[u32]) -> u32
    ensures { result ≡ first_or other lines.now }
{
    match lines {
        [] => other,
        [line, ..] => *line,
    }
}

/// Whether there is no line.
pub(crate) fn is_nothing(lines: &[u32]) -> bool
    ensures { result ≡ is_nothing lines.now }
{
    match lines {
        [] => true,
        [..] => false,
    }
}

/// The first of the lines, where there is one.
pub(crate) fn first_of(lines: &[u32]) -> Option<u32>
    ensures { result ≡ first_of lines.now }
{
    match lines {
        [] => None,
        [line, ..] => Some(*line),
    }
}

/// The last of the lines, or 0 where there is none.
pub(crate) fn last_line(lines: &[u32]) -> u32
    ensures { result ≡ final_line lines.now }
{
    let mut last = 0;
    'lines: for line in lines {
        last = *line;
    }
    last
}

/// The least of a line and others.
fn least_line(line: u32, lines: &[u32]) -> u32
    ensures { result ≡ least_line line lines.now }
{
    let mut least = line;
    'lines: for other in lines {
        least = least.min(*other);
    }
    least
}

/// The least of the lines, where there is one.
pub(crate) fn least_of(lines: &[u32]) -> Option<u32>
    ensures { result ≡ least_of lines.now }
{
    match lines {
        [] => None,
        [line, rest @ ..] => Some(least_line(*line, rest)),
    }
}
