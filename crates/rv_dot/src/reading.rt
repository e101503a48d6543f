//! From a text's bytes to its automaton (Linux, Documentation/trace/rv/deterministic_automata.rst).
ghost use Rattle.std.specs.Prelude.{◌≡◌, ◌↔◌, IfOk, List, ℕ, map, true, not};
ghost use Rattle.std.specs.List.{list_all, filter};
ghost use Rattle.std.specs.Str.{bytes_eq};
ghost use Rattle.rv_text.specs.Readings.{Gives, refused_with};
ghost use Rattle.rv_text.specs.inner.Unreads.{IsReadAs};
ghost use Rattle.rv_dot.specs.Text.{said_by};
ghost use Rattle.rv_dot.specs.inner.Held.{lexemes, sayings_claims, arc, bytes_of};
ghost use Rattle.rv_dot.specs.Statements.{claims_of};
ghost use Rattle.rv_dot.specs.Gathered.{states_in, targets_in, arcs_in, all_fit};
ghost use Rattle.rv_dot.specs.Sets.{ascending, stands_in};
ghost use Rattle.rv_dot.specs.inner.Numberings.{IsNumbering, states_by, events_by};
ghost use Rattle.rv_model.specs.Machine.{Machine};
ghost use Rattle.rv_dot.specs.Drawn.{IsDotOf};
ghost use Rattle.rv_dot.specs.Dot.{initial_of, with_initial, machine_of, states_from, events_from, dot_of};

use crate::drawing::built;
use crate::gather::{Arc, all_fit, arcs_in, events_fit, states_in, targets_in};
use crate::moves::clash;
use crate::numbering::{Numbering, ascending, place_among};
use crate::saying::{Saying, sayings};
use crate::statement::facts;
use crate::token::{DotToken, tokens};
use rv_model::Automaton;
use rv_text::{
    DOT_SYNTAX, NO_INITIAL, NOT_DETERMINISTIC, Refusal, Refused, TOO_MANY_EVENTS, TOO_MANY_STATES,
    TWO_INITIALS, UNDECLARED_STATE, Unread,
};
use std::alloc::{AllocError, Global};

/// The most bytes of a text.
const MOST_BYTES: usize = 1_048_576;
/// The most states of an automaton.
const MOST_STATES: usize = 31;
/// The most events of an automaton.
const MOST_EVENTS: usize = 64;

/// The refusal with this number, which names no line.
fn refused(number: u8) -> Refused
    ensures { result ≡ Refused.Because (record { number = number; line = 0 }) }
{
    Refused::Because(Refusal { number, line: 0 })
}

/// What the tokens say, with names as they read.
fn said_in<'a>(alloc: Global, tokens: &[DotToken<'a>]) -> Result<Vec<Saying<'a>>, Unread>
    ensures { IsReadAs (λ v. sayings_claims v.items) result (claims_of (lexemes tokens.now)) }
{
    let facts = facts(alloc, tokens)?;
    Ok(sayings(alloc, &facts)?)
}

/// What the text's statements say.
fn said_by(alloc: Global, bytes: &[u8]) -> Result<Vec<Saying<'_>>, Unread>
    ensures { IsReadAs (λ v. sayings_claims v.items) result (said_by bytes.now) }
{
    let tokens = tokens(alloc, bytes)?;
    said_in(alloc, &tokens)
}

/// Whether each of the names is this one.
fn all_are(first: &[u8], others: &[&[u8]]) -> bool
    ensures { result ≡ list_all (bytes_eq first.now) (map bytes_of others.now) }
{
    let mut rest = others;
    while let [other, after @ ..] = rest {
        if first != *other {
            return false;
        }
        rest = after;
    }
    true
}

/// The one target of the edges that leave markers.
fn initial<'s>(targets: &[&'s [u8]]) -> Result<&'s [u8], Refused>
    ensures { Gives bytes_of result (initial_of (map bytes_of targets.now)) }
{
    let [first, others @ ..] = targets else {
        return Err(refused(NO_INITIAL));
    };
    if !all_are(*first, others) {
        return Err(refused(TWO_INITIALS));
    }
    Ok(*first)
}

/// The one target of the edges that leave markers, in the statements.
fn initial_in<'s, 'a>(alloc: Global, said: &'s [Saying<'a>]) -> Result<&'s [u8], Refused>
    ensures { Gives bytes_of result (initial_of (targets_in (sayings_claims said.now))) }
{
    let targets = targets_in(alloc, said)?;
    initial(&targets)
}

/// The names that are not this one.
fn without<'s>(alloc: Global, names: &[&'s [u8]], name: &[u8]) -> Result<Vec<&'s [u8]>, AllocError>
    ensures { IfOk result (λ v. map bytes_of v.items ≡ filter (λ s. not (bytes_eq s name.now)) (map bytes_of names.now)) }
{
    let mut found = Vec::new(alloc);
    'names: for other in names {
        if *other != name {
            found.push(*other)?;
        }
    }
    Ok(found)
}

/// The events of the arcs, ascending.
#[tactic(auto, unfolding(crate::specs::Dot::events_from))]
fn events<'s>(alloc: Global, arcs: &[Arc<'s>]) -> Result<Vec<&'s [u8]>, AllocError>
    ensures { IfOk result (λ v. map bytes_of v.items ≡ events_from (map arc arcs.now)) }
{
    let mut found = Vec::new(alloc);
    'arcs: for one in arcs {
        found.push(one.event)?;
    }
    ascending(alloc, &found)
}

/// The declared states, ascending.
fn declared<'s, 'a>(alloc: Global, said: &'s [Saying<'a>]) -> Result<Vec<&'s [u8]>, AllocError>
    ensures { IfOk result (λ v. map bytes_of v.items ≡ ascending (states_in (sayings_claims said.now))) }
{
    let states = states_in(alloc, said)?;
    ascending(alloc, &states)
}

/// The automaton with this numbering, or the first of the later refusals that applies.
fn with_numbering(
    alloc: Global,
    said: &[Saying<'_>],
    arcs: &[Arc<'_>],
    numbering: Numbering<'_, '_>,
) -> Result<Automaton, Refused>
    requires gathered { map arc arcs.now ≡ arcs_in (sayings_claims said.now) }
    requires fit { all_fit (sayings_claims said.now) ≡ true }
    requires ascend { IsNumbering numbering }
    requires states { states_by numbering ≡ states_from numbering.first.now (states_in (sayings_claims said.now)) }
    requires events { events_by numbering ≡ events_from (arcs_in (sayings_claims said.now)) }
    requires stands { stands_in (states_in (sayings_claims said.now)) numbering.first.now ≡ true }
    ensures { Gives (λ a. a) result (with_initial (sayings_claims said.now) numbering.entry.first.now) }
{
    if !numbering.are_declared(arcs) {
        return Err(refused(UNDECLARED_STATE));
    }
    let moves = numbering.moves(alloc, arcs)?;
    if clash(&moves) {
        return Err(refused(NOT_DETERMINISTIC));
    }
    if numbering.others.len() >= MOST_STATES {
        return Err(refused(TOO_MANY_STATES));
    }
    if numbering.events.len() > MOST_EVENTS {
        return Err(refused(TOO_MANY_EVENTS));
    }
    Ok(built(alloc, said, numbering, &moves)?)
}

/// The automaton with this initial state, or the first of the later refusals that applies.
fn with_initial(
    alloc: Global,
    said: &[Saying<'_>],
    arcs: &[Arc<'_>],
    first: &[u8],
) -> Result<Automaton, Refused>
    requires gathered { map arc arcs.now ≡ arcs_in (sayings_claims said.now) }
    requires fit { all_fit (sayings_claims said.now) ≡ true }
    ensures { Gives (λ a. a) result (with_initial (sayings_claims said.now) first.now) }
{
    let declared = declared(alloc, said)?;
    if place_among(&declared, first).is_none() {
        return Err(refused(UNDECLARED_STATE));
    }
    let others = without(alloc, &declared, first)?;
    let events = events(alloc, arcs)?;
    let numbering = Numbering {
        first,
        others: &others,
        events: &events,
    };
    with_numbering(alloc, said, arcs, numbering)
}

/// What the statements say, as an automaton.
fn automaton(alloc: Global, said: &[Saying<'_>]) -> Result<Automaton, Refused>
    ensures { Gives (λ a. a) result (machine_of (sayings_claims said.now)) }
{
    let arcs = arcs_in(alloc, said)?;
    if !all_fit(said) || !events_fit(&arcs) {
        return Err(refused(DOT_SYNTAX));
    }
    let first = initial_in(alloc, said)?;
    with_initial(alloc, said, &arcs, first)
}

/// The automaton of the text.
pub fn read_dot(alloc: Global, bytes: &[u8]) -> Result<Automaton, Refused>
    ensures { Gives (λ a. a) result (dot_of bytes.now) }
{
    if bytes.len() > MOST_BYTES {
        return Err(refused(DOT_SYNTAX));
    }
    match said_by(alloc, bytes) {
        Ok(said) => automaton(alloc, &said),
        Err(Unread::Memory) => Err(Refused::Memory),
        Err(Unread::Syntax) => Err(refused(DOT_SYNTAX)),
    }
}

/// The automaton of a text is the only one with its properties.
pub fn automata_are_drawn()
    ensures { (bytes : List ℕ) (a : Machine) → dot_of bytes ≡ Ok a ↔ IsDotOf bytes a }
{}
