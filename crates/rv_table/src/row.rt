//! The rows of an automaton's table.
ghost use Rattle.std.specs.Prelude.{◌≡◌, length, IfOk};
ghost use Rattle.rv_model.specs.Numbers.{list_of};
ghost use Rattle.rv_model.specs.Table.{next_row, next_by_event, event_rows};

use rv_model::Automaton;
use std::alloc::{AllocError, Global};
use std::marker::Model;

/// The next row by each event, where there is one.
#[derive(Drop)]
pub struct Row {
    next: Vec<Option<u8>>,
}

impl Model for Row {
    ghost use Rattle.std.specs.Prelude.{List, ℕ, Option};

    ghost Value = { List (Option ℕ) };

    ghost view = { λ r. r.next.items };
}

impl Row {
    /// The next row by the event.
    pub fn get(&self, event: u8) -> Option<u8>
        ensures { result ≡ next_by_event self.now event }
    {
        match self.next.get(event as usize) {
            Some(next) => *next,
            None => None,
        }
    }

    /// The row of a state.
    #[tactic(auto, using(crate::proofs::BuildLemmas::list_of_none, crate::proofs::BuildLemmas::list_of_more))]
    fn of_state(alloc: Global, automaton: &Automaton, state: u8) -> Result<Row, AllocError>
        ensures { IfOk result (λ row. row ≡ list_of (next_row automaton.now state) (length automaton.now.events)) }
    {
        let mut next = Vec::new(alloc);
        for event in 0..automaton.events.len() {
            next.push(next_of(automaton, state, event as u8))?;
        }
        Ok(Row { next })
    }
}

/// The row of the target of the state's edge by the event, where there is one.
fn next_of(automaton: &Automaton, state: u8, event: u8) -> Option<u8>
    ensures { result ≡ next_row automaton.now state event }
{
    for edge in &automaton.edges {
        if edge.from == state && edge.event == event {
            return Some(edge.to + 1);
        }
    }
    None
}

/// The rows of an automaton's table.
#[tactic(auto, using(crate::proofs::BuildLemmas::list_of_none, crate::proofs::BuildLemmas::list_of_more))]
pub fn rows_of(alloc: Global, automaton: &Automaton) -> Result<Vec<Row>, AllocError>
    ensures { IfOk result (λ rows. rows.items ≡ event_rows automaton.now) }
{
    let mut rows = Vec::new(alloc);
    rows.push(Row {
        next: Vec::new(alloc),
    })?;
    for state in 0..automaton.states.len() {
        rows.push(Row::of_state(alloc, automaton, state as u8)?)?;
    }
    Ok(rows)
}
