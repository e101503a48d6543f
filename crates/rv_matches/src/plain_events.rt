//! Events whose rules have no tests: each of these fires on each line of its event, whatever stands there.
ghost use Rattle.std.specs.Prelude.{◌≡◌, ◌<◌, ◌++◌, ◌∷◌, ℕ, List, [], length, map, take, All, slice_get, Some, IfOk, IfSome, OnOk, true};
ghost use Rattle.std.specs.List.{AllZip, list_all};
ghost use Rattle.rv_bind.specs.RuleValues.{OnValue};
ghost use Rattle.rv_route.specs.Asking.{holds};
ghost use Rattle.rv_route.specs.Events.{IsIndexOf, asked_place};
ghost use Rattle.rv_matches.specs.RuleLines.{IsByTests, IsPlainEvent};
ghost use Rattle.rv_matches.specs.inner.RuleSteps.{CountsEventLine, CountsLineOf, IsNamedAt};

use crate::rule_lines::RuleLine;
use crate::words::{KEYS, key_of, one_more};
use rv_bind::On;
use rv_route::{Event, Index, event_at};
use rv_trace::HeldWord;
use std::alloc::{AllocError, Global};
use std::marker::Model;

/// Such an event.
#[derive(Drop)]
pub(crate) struct PlainEvent {
    pub(crate) name: HeldWord,
    /// The places of its rules.
    pub(crate) rules: Vec<usize>,
}

/// Empties a list that is not yet empty.
#[inline(always)]
fn empty<T: Drop>(list: &mut Vec<T>)
    ensures { list.new.items ≡ [] }
{
    if !list.is_empty() {
        list.clear();
    }
}

/// One more line on which the rule fires.
#[inline(always)]
pub(crate) fn add_fired(count: &mut RuleLine) -> Result<(), AllocError>
    ensures counts { OnOk result ((rule : OnValue) (fields : List ℕ) → list_all (holds fields) rule.tests ≡ true → CountsEventLine rule fields count.old count.new) }
    ensures places { (rule : OnValue) → IsByTests rule count.old → IsByTests rule count.new }
{
    count.lines = one_more(count.lines)?;
    count.fires = one_more(count.fires)?;
    empty(&mut count.holds);
    empty(&mut count.fields);
    Ok(())
}

/// One more line of an event whose rules have no tests: each of them fires. The rules are for the contract.
#[inline(always)]
pub(crate) fn add_plain(
    counts: &mut [RuleLine],
    rules: &[On],
    event: &PlainEvent,
) -> Result<(), AllocError>
    requires event { IsPlainEvent rules.now event.now }
    requires places { AllZip IsByTests rules.now counts.old }
    ensures counts { OnOk result ((fields : List ℕ) → CountsLineOf rules.now event.now.name fields counts.old counts.new) }
    ensures places { AllZip IsByTests rules.now counts.new }
{
    for place in &event.rules {
        add_fired(&mut counts[*place])?;
    }
    Ok(())
}

/// Such events, found again by their names.
#[derive(Drop)]
pub(crate) struct PlainEvents {
    events: Vec<PlainEvent>,
    /// For each key of a name the place of the last event with it. It is only believed if the event there has the name.
    leads: Vec<Option<usize>>,
}

impl Model for PlainEvents {
    ghost use Rattle.std.specs.Prelude.{List};
    ghost use Rattle.rv_matches.specs.declared.plain_events.PlainEvent.{PlainEvent};

    ghost Value = { List PlainEvent };

    ghost view = { λ p. p.events.items };
}

/// The places of an event's rules.
fn places_of(alloc: Global, event: &Event) -> Result<Vec<usize>, AllocError>
    ensures { IfOk result (λ places. places.items ≡ map asked_place event.now.rules.items) }
{
    let mut places = Vec::with_capacity(alloc, event.rules.len())?;
    for asked in &event.rules {
        places.push(asked.rule)?;
    }
    Ok(places)
}

impl PlainEvents {
    /// Those of the rules' events that are plain.
    pub(crate) fn new(alloc: Global, rules: &[On], index: &Index) -> Result<PlainEvents, AllocError>
        requires { IsIndexOf rules.now index.now }
        ensures { IfOk result (λ plain. All (IsPlainEvent rules.now) plain) }
    {
        let mut plain = PlainEvents {
            events: Vec::new(alloc),
            leads: vec![in alloc; None; KEYS]?,
        };
        for rule in rules {
            plain.note(alloc, rules, index, rule.event.bytes())?;
        }
        Ok(plain)
    }

    /// Keeps the event of this name too, if it is plain.
    fn note(
        &mut self,
        alloc: Global,
        rules: &[On],
        index: &Index,
        name: &[u8],
    ) -> Result<(), AllocError>
        requires index { IsIndexOf rules.now index.now }
        requires plain { All (IsPlainEvent rules.now) self.old }
        ensures { OnOk result (All (IsPlainEvent rules.now) self.new) }
    {
        if self.find(name, name).is_some() {
            return Ok(());
        }
        let Some(event) = event_at(index, name, name) else {
            return Ok(());
        };
        if event.rules.is_empty() {
            return Ok(());
        }
        if event.fields.names().is_empty() {
            self.keep(PlainEvent {
                name: HeldWord::new(alloc, name)?,
                rules: places_of(alloc, event)?,
            })?;
        }
        Ok(())
    }

    /// One more event, to which its name's key leads from now on.
    fn keep(&mut self, event: PlainEvent) -> Result<(), AllocError>
        ensures { OnOk result (self.new ≡ self.old ++ event ∷ []) }
    {
        let place = self.events.len();
        let key = key_of(event.name.bytes());
        self.events.push(event)?;
        if key < self.leads.len() {
            self.leads[key] = Some(place);
        }
        Ok(())
    }

    /// Whether the event at a place has the name, with which the text begins.
    #[inline(always)]
    fn is_at(&self, name: &[u8], text: &[u8], place: usize) -> bool
        requires { take (length name.now) text.now ≡ name.now }
        ensures { result ≡ true → IsNamedAt self.now place name.now }
    {
        match self.events.get(place) {
            Some(event) => event.name.is(name, text),
            None => false,
        }
    }

    /// Where the event of this name stands, if the name's key leads there. The text begins with the name.
    #[inline(always)]
    pub(crate) fn find(&self, name: &[u8], text: &[u8]) -> Option<usize>
        requires { take (length name.now) text.now ≡ name.now }
        ensures { IfSome result (λ place. IsNamedAt self.now place name.now) }
    {
        let place = (*self.leads.get(key_of(name))?)?;
        if self.is_at(name, text, place) {
            return Some(place);
        }
        None
    }

    /// The event at a place.
    #[inline(always)]
    pub(crate) fn at(&self, place: usize) -> &PlainEvent
        requires { place < length self.now }
        ensures { slice_get self.now place ≡ Some result.now }
    {
        &self.events[place]
    }
}
