//! The numbers of rules, as they are told.
ghost use Rattle.std.specs.Prelude.{◌≡◌, List, map, IfOk};
ghost use Rattle.std.specs.List.{AllZip};
ghost use Rattle.rv_matches.specs.LineEvents.{LineEvent};
ghost use Rattle.rv_matches.specs.RuleLines.{IsRuleLine, field_told, rule_counts};
ghost use Rattle.rv_matches.specs.TraceFacts.{counted_names};
ghost use Rattle.rv_counts.specs.RuleTold.{TellsRules, counted_told, field_counted, near_told, near_of};
ghost use Rattle.rv_counts.specs.inner.Counting.{CountsRule};

use rv_bind::On;
use rv_facts::{Counted, FieldCounts, Near, RuleCounts};
use rv_matches::{CountedWords, FieldLines, RuleLine, nearest};
use rv_model::Name;
use std::alloc::{AllocError, Global};

/// Words with the numbers of their lines.
pub(crate) fn counted(alloc: Global, words: &CountedWords) -> Result<Vec<Counted>, AllocError>
    ensures { IfOk result (λ list. map counted_told list.items ≡ words.now.words) }
{
    let mut list = Vec::with_capacity(alloc, words.len())?;
    for place in 0..words.len() {
        list.push(Counted {
            word: Name::new(alloc, words.word(place))?,
            lines: words.count(place),
        })?;
    }
    Ok(list)
}

/// The names that come near to the event of a rule that has no line.
fn near_names(
    alloc: Global,
    names: &CountedWords,
    event: &[u8],
    lines: u64,
) -> Result<Vec<Near>, AllocError>
    ensures { IfOk result (λ near. map near_of near.items ≡ near_told names.now.words event.now lines) }
{
    let mut near = Vec::new(alloc);
    if lines > 0 {
        return Ok(near);
    }
    for found in nearest(alloc, event, names)? {
        near.push(Near {
            name: found.name,
            lines: found.lines,
            distance: found.distance as u64,
        })?;
    }
    Ok(near)
}

/// What fields have on the lines of an event.
fn field_counts(alloc: Global, fields: &[FieldLines]) -> Result<Vec<FieldCounts>, AllocError>
    ensures { IfOk result (λ list. map field_counted list.items ≡ map field_told fields.now) }
{
    let mut list = Vec::with_capacity(alloc, fields.len())?;
    for field in fields {
        list.push(FieldCounts {
            field: Name::new(alloc, field.field.bytes())?,
            values: counted(alloc, &field.values)?,
            other: field.values.others(),
            missing: field.missing,
        })?;
    }
    Ok(list)
}

/// What the lines are to a rule.
fn rule_counts(
    alloc: Global,
    names: &CountedWords,
    rule: &On,
    line: &RuleLine,
) -> Result<RuleCounts, AllocError>
    ensures { IfOk result (CountsRule names.now.words rule.now.event line.now) }
{
    Ok(RuleCounts {
        lines: line.lines,
        fires: line.fires,
        near: near_names(alloc, names, rule.event.bytes(), line.lines)?,
        holds: Vec::from_slice(alloc, line.holds.as_slice())?,
        fields: field_counts(alloc, line.fields.as_slice())?,
    })
}

/// What the lines are to all rules.
pub(crate) fn rules_counts(
    alloc: Global,
    names: &CountedWords,
    rules: &[On],
    lines: &[RuleLine],
) -> Result<Vec<RuleCounts>, AllocError>
    ensures { IfOk result (λ counts. (events : List LineEvent) → names.now ≡ counted_names events → AllZip (λ rule line. IsRuleLine (rule_counts events rule) line) rules.now lines.now → TellsRules events rules.now counts.items) }
{
    let mut counts = Vec::with_capacity(alloc, rules.len())?;
    for place in 0..rules.len().min(lines.len()) {
        counts.push(rule_counts(alloc, names, &rules[place], &lines[place])?)?;
    }
    Ok(counts)
}
