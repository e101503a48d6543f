//! The events that rules are on, by their names.
ghost use Rattle.std.specs.Prelude.{◌≡◌, ◌<◌, [], ◌∷◌, ◌++◌, List, ℕ, length, take, All, IfOk, IfSome, IfNone, OnOk};
ghost use Rattle.std.specs.List.{IsAmong};
ghost use Rattle.rv_route.specs.Events.{IsEventOf, HasEvent, IsIndexOf};
ghost use Rattle.rv_route.specs.EventKeys.{key_of};

use crate::event::{Event, event_of};
use indexmap::IndexMap;
use rv_bind::On;
use std::alloc::{AllocError, Global};
use std::marker::Model;

/// How many keys there are.
pub(crate) const KEYS: usize = 512;

/// Events by their names.
pub struct Index {
    events: IndexMap<Vec<u8>, Event>,
    /// For each key the place of the first event with it. It is tried first, and the event there may have another name.
    firsts: Vec<Option<usize>>,
}

/// Taken apart once, here, so that what drops one has nothing to prove of its parts.
impl Drop for Index {
    fn drop(self) {
        let Index {
            events: _,
            firsts: _,
        } = self;
    }
}

impl Model for Index {
    ghost use Rattle.std.specs.Prelude.{List};
    ghost use Rattle.indexmap.specs.IndexMap.{values};
    ghost use Rattle.rv_route.specs.declared.event.Event.{Event};
    ghost use Rattle.rv_route.specs.EventKeys.{AreByName, HaveKeys};

    ghost Value = { List Event };

    ghost view = { λ i. values i.events };

    ghost invariant = { λ i. AreByName i.events.entries × HaveKeys i.firsts.items (values i.events) };
}

/// A number that most names have for themselves, from their first, middle and last byte and their length.
#[inline(always)]
fn key_of(name: &[u8]) -> usize
    ensures key { result ≡ key_of name.now }
    ensures few { result < KEYS }
{
    if name.is_empty() {
        return 0;
    }
    let first = name[0] as usize;
    let middle = name[name.len() / 2] as usize;
    let last = name[name.len() - 1] as usize;
    (((first * 3 + middle) * 3 + last) * 3 + name.len() % 256) % KEYS
}

/// The event of the name with which the text begins, if a rule is on it.
#[inline(always)]
pub fn event_at<'a>(index: &'a Index, name: &[u8], text: &[u8]) -> Option<&'a Event>
    requires { take (length name.now) text.now ≡ name.now }
    ensures among { IfSome result (λ event. IsAmong index.now event.now) }
    ensures named { IfSome result (λ event. event.now.name ≡ name.now) }
    ensures none { IfNone result (¬ HasEvent index.now name.now) }
{
    let place = index.firsts[key_of(name)]?;
    match named_at(index.events.values().as_slice(), place, name, text) {
        Some(event) => Some(event),
        None => named(index, name),
    }
}

/// The event at the place, if there is one and the name is its own.
#[inline(always)]
fn named_at<'a>(events: &'a [Event], place: usize, name: &[u8], text: &[u8]) -> Option<&'a Event>
    requires { take (length name.now) text.now ≡ name.now }
    ensures among { IfSome result (λ event. IsAmong events.now event.now) }
    ensures named { IfSome result (λ event. event.now.name ≡ name.now) }
{
    let event = events.get(place)?;
    if event.name.is(name, text) {
        return Some(event);
    }
    None
}

/// The event of the name.
#[inline(never)]
fn named<'a>(index: &'a Index, name: &[u8]) -> Option<&'a Event>
    ensures among { IfSome result (λ event. IsAmong index.now event.now) }
    ensures named { IfSome result (λ event. event.now.name ≡ name.now) }
    ensures none { IfNone result (¬ HasEvent index.now name.now) }
{
    index.events.get(name)
}

/// The events of the rules.
pub fn index_of(alloc: Global, rules: &[On]) -> Result<Index, AllocError>
    ensures { IfOk result (IsIndexOf rules.now) }
{
    let mut index = no_events(alloc)?;
    for rule in rules {
        note(alloc, &mut index, rules, rule.event.bytes())?;
    }
    Ok(index)
}

/// The index of no rules.
fn no_events(alloc: Global) -> Result<Index, AllocError>
    ensures { IfOk result (λ index. index ≡ []) }
{
    Ok(Index {
        events: IndexMap::new(alloc),
        firsts: vec![in alloc; None; KEYS]?,
    })
}

/// The event of this name is kept too.
fn note(alloc: Global, index: &mut Index, rules: &[On], name: &[u8]) -> Result<(), AllocError>
    requires { All (λ event. IsEventOf rules.now event.name event) index.old }
    ensures events { OnOk result (All (λ event. IsEventOf rules.now event.name event) index.new) }
    ensures noted { OnOk result (HasEvent index.new name.now) }
    ensures kept { OnOk result ((other : List ℕ) → HasEvent index.old other → HasEvent index.new other) }
{
    if event_at(index, name, name).is_some() {
        return Ok(());
    }
    let event = event_of(alloc, rules, name)?;
    add(alloc, index, event)?;
    Ok(())
}

/// The event of a new name comes last.
fn add(alloc: Global, index: &mut Index, event: Event) -> Result<(), AllocError>
    requires new { ¬ HasEvent index.old event.name }
    ensures { OnOk result (index.new ≡ index.old ++ event ∷ []) }
{
    let place = index.events.len();
    let key = key_of(event.name.bytes());
    let name = Vec::from_slice(alloc, event.name.bytes())?;
    index.events.insert(name, event)?;
    if index.firsts[key].is_none() {
        index.firsts[key] = Some(place);
    }
    Ok(())
}
