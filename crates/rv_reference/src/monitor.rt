//! A monitor's specification and table, which letters are good, and which rows letters reach.
ghost use Rattle.std.specs.Prelude.{◌≡◌, ◌↔◌, ℕ, List, ◌<◌, map, length, IsTrue};
ghost use Rattle.std.specs.List.{list_all};
ghost use Rattle.rv_model.specs.Formulas.{ltl};
ghost use Rattle.rv_model.specs.Judging.{IsGood};
ghost use Rattle.rv_model.specs.Language.{IsPath};
ghost use Rattle.rv_model.specs.Meaning.{true_on};
ghost use Rattle.rv_model.specs.inner.EventTables.{entry};
ghost use Rattle.rv_model.specs.Table.{table_of, next_row, node_at, follows_by, follows, first_row, Follows, end_of, Reaches};
ghost use Rattle.rv_reference.specs.Monitors.{node_of, table_by};
ghost use Rattle.rv_reference.specs.inner.PlainParts.{BelowCount};

use crate::acceptance::{accepts, leads};
use crate::bits::has_bit;
use crate::satisfaction::{View, atoms_of, satisfies};
use rv_model::{Automaton, Formula, Letter, Spec};

/// A row of a rule's table: the labels that a letter must make true to enter it, and the set of its next rows.
#[derive(Drop)]
pub struct Node {
    pub labels: Vec<Formula>,
    pub next: u32,
}

/// What a monitor is judged by. An automaton has the table that is its own; a rule's has these rows.
#[derive(Drop)]
pub struct Monitor {
    pub spec: Spec,
    pub nodes: Vec<Node>,
    /// The levels that are on at first.
    pub start: u32,
    /// How many instances there are.
    pub slots: u32,
}

impl Monitor {
    /// Whether the letters are good by the specification.
    pub fn is_good(&self, letters: &[Letter]) -> bool
        ensures { IsTrue result ↔ IsGood self.now.spec letters.now }
    {
        match &self.spec {
            Spec::Da(automaton) => accepts(automaton, letters),
            Spec::Ltl(rule) => satisfies(&rule.formula, View::Weak, letters),
        }
    }

    /// Whether the letters reach the row, by trying all paths.
    pub fn reaches(&self, letters: &[Letter], row: usize) -> bool
        ensures { IsTrue result ↔ Reaches (table_by self.now) letters.now row }
    {
        self.leads_to(self.first_row(), letters, row)
    }

    fn leads_to(&self, from: usize, letters: &[Letter], row: usize) -> bool
        ensures { IsTrue result ↔ ((path : List ℕ) × IsPath (Follows (table_by self.now)) from path letters.now × (end_of from path ≡ row)) }
    {
        let [first, rest @ ..] = letters else {
            return from == row;
        };
        for next in 0..self.row_count() {
            if self.follows(from, *first, next) && self.leads_to(next, rest, row) {
                return true;
            }
        }
        false
    }

    /// All rows that follow any row are below this number.
    fn row_count(&self) -> usize
        ensures { BelowCount (table_by self.now) result }
    {
        match &self.spec {
            Spec::Da(automaton) => automaton.states.len() + 1,
            Spec::Ltl(_) => self.nodes.len(),
        }
    }

    fn first_row(&self) -> usize
        ensures { result ≡ first_row (table_by self.now) }
    {
        match &self.spec {
            Spec::Da(_) => 1,
            Spec::Ltl(_) => 0,
        }
    }

    /// Whether the one row follows the other by the letter.
    pub fn follows(&self, row: usize, letter: Letter, next: usize) -> bool
        ensures { result ≡ follows (table_by self.now) row letter next }
    {
        match &self.spec {
            Spec::Da(automaton) => next_row(automaton, row, letter) == Some(next),
            Spec::Ltl(_) => node_follows(self.nodes.as_slice(), row, atoms_of(letter), next),
        }
    }
}

/// The entry of the row by the letter. Row 0 has none, and row k + 1 is that of state k.
fn next_row(automaton: &Automaton, row: usize, letter: Letter) -> Option<usize>
    ensures { result ≡ entry (table_of automaton.now) row letter }
{
    let Letter::Event(event) = letter else {
        return None;
    };
    if row == 0 {
        return None;
    }
    if row > automaton.states.len() {
        return None;
    }
    if event as usize >= automaton.events.len() {
        return None;
    }
    row_after(automaton, row - 1, event)
}

/// The row of the state to which the event leads from this one.
fn row_after(automaton: &Automaton, state: usize, event: u8) -> Option<usize>
    ensures { result ≡ next_row automaton.now state event }
{
    for edge in &automaton.edges {
        if leads(edge, state, Letter::Event(event)) {
            return Some(edge.to as usize + 1);
        }
    }
    None
}

fn node_follows(nodes: &[Node], row: usize, set: u32, next: usize) -> bool
    ensures { result ≡ follows_by (map node_of nodes.now) row set next }
{
    next < nodes.len()
        && has_bit(next_rows(nodes, row) as u64, next as u64)
        && may_enter(nodes, next, set)
}

/// The set of the rows after this one.
fn next_rows(nodes: &[Node], row: usize) -> u32
    ensures { result ≡ (node_at (map node_of nodes.now) row).next }
{
    if row < nodes.len() {
        nodes[row].next
    } else {
        0
    }
}

/// Whether the set of atoms makes all labels of the row true.
fn may_enter(nodes: &[Node], row: usize, set: u32) -> bool
    requires { row < length nodes.now }
    ensures { result ≡ list_all (true_on set) (node_at (map node_of nodes.now) row).labels }
{
    all_true(nodes[row].labels.as_slice(), set)
}

/// Whether the set of atoms makes all the labels true.
fn all_true(labels: &[Formula], set: u32) -> bool
    ensures { result ≡ list_all (true_on set) (map ltl labels.now) }
{
    match labels {
        [] => true,
        [first, rest @ ..] => is_true(first, set) && all_true(rest, set),
    }
}

/// Whether the set of atoms makes the label true, in which no temporal operator counts as true.
fn is_true(label: &Formula, set: u32) -> bool
    ensures { result ≡ true_on set (ltl label.now) }
{
    match label {
        Formula::True => true,
        Formula::False => false,
        Formula::Atom(atom) => has_bit(set as u64, *atom as u64),
        Formula::Not(f) => !is_true(f, set),
        Formula::And(f, g) => is_true(f, set) && is_true(g, set),
        Formula::Or(f, g) => is_true(f, set) || is_true(g, set),
        Formula::Imply(f, g) => !is_true(f, set) || is_true(g, set),
        Formula::Equivalent(f, g) => (is_true(f, set) && is_true(g, set))
            || (!is_true(f, set) && !is_true(g, set)),
        Formula::Next(_)
        | Formula::Always(_)
        | Formula::Eventually(_)
        | Formula::Until(_, _)
        | Formula::Release(_, _)
        | Formula::WeakUntil(_, _) => false,
    }
}
