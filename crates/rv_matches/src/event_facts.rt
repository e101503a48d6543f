//! What the events of a trace tell: their names, and timestamps that go back.
ghost use Rattle.std.specs.Prelude.{◌≡◌, ◌≤◌, ◌<◌, ◌-◌, ℕ, [], length, slice_index, true, false, OnOk};
ghost use Rattle.rv_text.specs.Places.{has_class};
ghost use Rattle.rv_text.specs.declared.runs.ByteClass.TheVariants as kinds;
ghost use Rattle.rv_route.specs.Lines.{IsRoutable};
ghost use Rattle.rv_matches.specs.LineEvents.{event_on, stamp_on, without_last};
ghost use Rattle.rv_matches.specs.TraceFacts.{TellsEvent, event_facts};

use crate::lanes::highest;
use crate::late::{Late, Times};
use crate::short_times::{is_comparable, short_time};
use crate::words::{CountedWords, one_more};
use rv_text::ByteClass;
use rv_trace::{TraceLine, WIDTH, blank_bits};
use std::alloc::{AllocError, Global};
use std::marker::Model;

/// The most names of events that are kept.
pub const MOST_NAMES: usize = 4096;

/// What the events of a trace tell.
#[derive(Drop)]
pub struct EventFacts {
    events: u64,
    names: CountedWords,
    times: Times,
}

impl Model for EventFacts {
    ghost use Rattle.rv_matches.specs.TraceFacts.{EventFactsValue};

    ghost Value = { EventFactsValue };

    ghost view = { λ e. record { events = e.events; names = e.names; latest = e.times.latest; late = e.times.late } };
}

/// Where the bytes of a kind begin that end at a place.
#[inline(always)]
fn run_start(kind: ByteClass, text: &[u8], to: usize) -> usize
    requires { to ≤ length text.now }
    ensures high { result ≤ to }
    ensures each { (place : ℕ) → result ≤ place → place < to → has_class kind (slice_index text.now place) ≡ true }
    ensures before { 0 < result → has_class kind (slice_index text.now (result - 1)) ≡ false }
{
    let mut from = to;
    while from > 0 && kind.has(text[from - 1]) {
        from -= 1;
    }
    from
}

/// Where the word begins that ends at a place. Inlined, its loop would keep what its caller needs behind it.
#[inline(never)]
fn far_word_start(text: &[u8], to: usize) -> usize
    requires { to ≤ length text.now }
    ensures high { result ≤ to }
    ensures each { (place : ℕ) → result ≤ place → place < to → has_class kinds.Word (slice_index text.now place) ≡ true }
    ensures before { 0 < result → has_class kinds.Word (slice_index text.now (result - 1)) ≡ false }
{
    run_start(ByteClass::Word, text, to)
}

/// The same, looked for in one load where so many bytes stand before the place.
#[inline(always)]
fn word_start(text: &[u8], to: usize) -> usize
    requires { to ≤ length text.now }
    ensures high { result ≤ to }
    ensures each { (place : ℕ) → result ≤ place → place < to → has_class kinds.Word (slice_index text.now place) ≡ true }
    ensures before { 0 < result → has_class kinds.Word (slice_index text.now (result - 1)) ≡ false }
{
    if to < WIDTH {
        return far_word_start(text, to);
    }
    let blanks = blank_bits(text, to - WIDTH);
    if blanks == 0 {
        return far_word_start(text, to);
    }
    to - WIDTH + highest(blanks) + 1
}

/// The timestamp of a line: the word before the name, without its colon.
#[inline(always)]
fn stamp_on<'a>(text: &'a [u8], line: &TraceLine) -> &'a [u8]
    requires { IsRoutable text.now line.now }
    ensures { result.now ≡ stamp_on text.now line.now }
{
    let front = &text[..line.name.from as usize];
    let to = run_start(ByteClass::Blank, front, front.len());
    let from = word_start(front, to);
    without_last(&front[from..to])
}

/// A word without its last byte.
fn without_last(word: &[u8]) -> &[u8]
    ensures { result.now ≡ without_last word.now }
{
    if word.is_empty() {
        return word;
    }
    &word[..word.len() - 1]
}

impl EventFacts {
    /// No event was seen.
    pub fn new(alloc: Global) -> EventFacts
        ensures { result ≡ event_facts [] }
    {
        EventFacts {
            events: 0,
            names: CountedWords::new(alloc, MOST_NAMES),
            times: Times::new(),
        }
    }

    /// One more event, whose pieces are places in the text: that of its line alone, since all before the name is read.
    pub fn add(&mut self, alloc: Global, text: &[u8], line: &TraceLine) -> Result<(), AllocError>
        requires { IsRoutable text.now line.now }
        ensures { OnOk result (TellsEvent (event_on text.now line.now) self.old self.new) }
    {
        self.events = one_more(self.events)?;
        self.names.add_in(
            alloc,
            &text[line.name.from as usize..line.name.to as usize],
            &text[line.name.from as usize..],
        )?;
        if self
            .times
            .add_before(line.number, text, line.name.from as usize)
        {
            return Ok(());
        }
        let stamp = stamp_on(text, line);
        let short = short_time(stamp);
        if !is_comparable(stamp, short) {
            return Ok(());
        }
        self.times.add(alloc, line.number, stamp, short)?;
        Ok(())
    }

    /// How many events there are.
    pub fn events(&self) -> u64
        ensures { result ≡ self.now.events }
    {
        self.events
    }

    /// Their names, with how many lines each has.
    pub fn names(&self) -> &CountedWords
        ensures { result.now ≡ self.now.names }
    {
        &self.names
    }

    /// The first line that is before the latest above it.
    pub fn first_late(&self) -> &Option<Late>
        ensures { result.now ≡ self.now.late.first }
    {
        self.times.first_late()
    }

    /// How many lines are before the latest above them.
    pub fn late(&self) -> u64
        ensures { result ≡ self.now.late.count }
    {
        self.times.late()
    }
}
