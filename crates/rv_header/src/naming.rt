//! Which names stand in C tables.
ghost use Rattle.std.specs.Prelude.{◌≡◌};
ghost use Rattle.std.specs.List.{list_all, list_any};
ghost use Rattle.rv_dot.specs.Sets.{stands_in};
ghost use Rattle.rv_header.specs.Naming.{is_header_byte, is_header_name, begins_with_digit, is_reserved, is_unfit, has_dot, is_unfit_state, has_no_tables};

use rv_model::{Automaton, Names};

/// The most bytes of a header's name.
const MOST_BYTES: usize = 32;

fn is_header_byte(byte: u8) -> bool
    ensures { result ≡ is_header_byte byte }
{
    matches!(byte, b'a'..=b'z' | b'0'..=b'9' | b'_')
}

fn are_header_bytes(name: &[u8]) -> bool
    ensures { result ≡ list_all is_header_byte name.now }
{
    name.iter().all(|byte| is_header_byte(*byte))
}

/// Whether the name has 1 to 32 lower-case letters, digits and `_`.
pub fn is_header_name(name: &[u8]) -> bool
    ensures { result ≡ is_header_name name.now }
{
    1 <= name.len() && name.len() <= MOST_BYTES && are_header_bytes(name)
}

fn begins_with_digit(name: &[u8]) -> bool
    ensures { result ≡ begins_with_digit name.now }
{
    match name {
        [] => false,
        [first, ..] => matches!(*first, b'0'..=b'9'),
    }
}

/// Whether the tables have the name for themselves.
fn is_reserved(name: &[u8]) -> bool
    ensures { result ≡ is_reserved name.now }
{
    name == b"state_max".as_slice()
        || name == b"event_max".as_slice()
        || name == b"automaton".as_slice()
}

#[tactic(auto, unfolding(crate::specs::Naming::is_unfit))]
fn is_unfit(name: &[u8]) -> bool
    ensures { result ≡ is_unfit name.now }
{
    begins_with_digit(name) || is_reserved(name)
}

fn has_dot(name: &[u8]) -> bool
    ensures { result ≡ has_dot name.now }
{
    name.iter().any(|byte| *byte == b'.')
}

#[tactic(auto, unfolding(crate::specs::Naming::is_unfit_state))]
fn is_unfit_state(name: &[u8]) -> bool
    ensures { result ≡ is_unfit_state name.now }
{
    has_dot(name) || is_unfit(name)
}

/// Whether a state has a name that no state of tables has.
#[tactic(auto, using(crate::proofs::ListSteps::any_none, crate::proofs::ListSteps::any_here, crate::proofs::ListSteps::any_later))]
fn has_unfit_state(states: &Names) -> bool
    ensures { result ≡ list_any is_unfit_state states.now }
{
    let mut place = 0;
    'states: while place < states.len() {
        if is_unfit_state(states.get(place).bytes()) {
            return true;
        }
        place += 1;
    }
    false
}

/// Whether an event has a name that no event of tables has.
#[tactic(auto, using(crate::proofs::ListSteps::any_none, crate::proofs::ListSteps::any_here, crate::proofs::ListSteps::any_later))]
fn has_unfit_event(events: &Names) -> bool
    ensures { result ≡ list_any is_unfit events.now }
{
    let mut place = 0;
    'events: while place < events.len() {
        if is_unfit(events.get(place).bytes()) {
            return true;
        }
        place += 1;
    }
    false
}

/// Whether the name stands in the list.
#[tactic(auto, using(crate::proofs::ListSteps::stands_any, crate::proofs::ListSteps::any_none, crate::proofs::ListSteps::any_here, crate::proofs::ListSteps::any_later))]
fn stands_in(names: &Names, name: &[u8]) -> bool
    ensures { result ≡ stands_in names.now name.now }
{
    let mut place = 0;
    'names: while place < names.len() {
        if names.get(place).bytes() == name {
            return true;
        }
        place += 1;
    }
    false
}

/// Whether a state and an event have one name.
#[tactic(auto, using(crate::proofs::ListSteps::any_none, crate::proofs::ListSteps::any_here, crate::proofs::ListSteps::any_later))]
fn share_a_name(states: &Names, events: &Names) -> bool
    ensures { result ≡ list_any (stands_in events.now) states.now }
{
    let mut place = 0;
    'states: while place < states.len() {
        if stands_in(events, states.get(place).bytes()) {
            return true;
        }
        place += 1;
    }
    false
}

/// Whether the automaton has no tables.
#[tactic(auto, unfolding(crate::specs::Naming::has_no_tables))]
pub fn has_no_tables(automaton: &Automaton) -> bool
    ensures { result ≡ has_no_tables automaton.now }
{
    has_unfit_state(&automaton.states)
        || has_unfit_event(&automaton.events)
        || share_a_name(&automaton.states, &automaton.events)
}
