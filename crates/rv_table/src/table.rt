//! Tables of both kinds.
ghost use Rattle.std.specs.Prelude.{◌≡◌, ◌<◌, ◌≤◌, ◌+◌, IfOk, length, slice_index_or};
ghost use Rattle.rv_model.specs.declared.formula.Spec.TheVariants.{Da};
ghost use Rattle.rv_model.specs.Formulas.{ltl};
ghost use Rattle.rv_model.specs.Ltl.{True};
ghost use Rattle.rv_model.specs.Judging.{Means};
ghost use Rattle.rv_model.specs.Table.{table_of, of_labels};
ghost use Rattle.rv_model.specs.Stepping.{IsTable, start_set, step_set};
ghost use Rattle.rv_table.specs.Rows.{IsRows, FitNodes, node_rows, row_count, HasNode, node_in};

use crate::node::Node;
use crate::nodes::Nodes;
use crate::row::{Row, rows_of};
use crate::steps::{follow_events, follow_labels};
use rv_model::{Automaton, Formula, Letter};
use std::alloc::{AllocError, Global};
use std::marker::Model;

/// The rows, from row 0 on.
#[derive(Drop)]
enum TableRows {
    /// An automaton's, with the number of its events. Row 0 has no entry.
    Events { count: usize, rows: Vec<Row> },
    /// A formula's.
    Labels { nodes: Nodes },
}

/// At most 31 rows, and row 0.
pub struct Table {
    kind: TableRows,
}

/// Taken apart once, here, so that what drops one has nothing to prove of its parts.
impl Drop for Table {
    fn drop(self) {
        let Table { kind: _ } = self;
    }
}

impl Model for Table {
    ghost use Rattle.rv_model.specs.Table.{Table as Rows, coded_table};
    ghost use Rattle.rv_table.specs.Kinds.{table_value};
    ghost use Rattle.rv_table.specs.Rows.{IsRows};

    ghost Value = { Rows };

    ghost coded = { coded_table };

    ghost view = { λ t. table_value t.kind };

    ghost invariant = { λ t. IsRows (table_value t.kind) };
}

impl Table {
    /// State k of the automaton, from 0, is row k + 1.
    pub fn from_automaton(alloc: Global, automaton: &Automaton) -> Result<Table, AllocError>
        ensures value { IfOk result (λ table. table ≡ table_of automaton.now) }
        ensures means { IfOk result (λ table. Means table (Da automaton.now)) }
    {
        let count = automaton.events.len();
        let rows = rows_of(alloc, automaton)?;
        Ok(Table {
            kind: TableRows::Events { count, rows },
        })
    }

    /// Row k is node k, counted from 1. Row 0 has no labels, and its next rows are `first`.
    pub fn from_nodes(alloc: Global, first: u32, nodes: Vec<Node>) -> Result<Table, AllocError>
        requires { FitNodes first nodes.items }
        ensures { IfOk result (λ table. table ≡ of_labels (node_rows first nodes.items)) }
    {
        let nodes = Nodes::new(alloc, first, &nodes)?;
        Ok(Table {
            kind: TableRows::Labels { nodes },
        })
    }

    /// What is known of every table.
    pub fn assert_invariant(&self)
        ensures rows { IsRows self.now }
        ensures table { IsTable self.now }
    {
        let _ = &self.kind;
    }

    /// The start row alone.
    pub fn start(&self) -> u32
        ensures { result ≡ start_set self.now }
    {
        match &self.kind {
            TableRows::Events { .. } => 2,
            TableRows::Labels { .. } => 1,
        }
    }

    /// How many rows there are besides row 0.
    pub fn rows(&self) -> u32
        ensures rows { result + 1 ≡ row_count self.now }
        ensures few { result ≤ 31 }
    {
        let count = match &self.kind {
            TableRows::Events { rows, .. } => rows.len(),
            TableRows::Labels { nodes } => nodes.len(),
        };
        (count - 1) as u32
    }

    /// The rows that follow a row of the set by the letter. Bits that name no row reach nothing.
    #[inline(always)]
    pub fn step(&self, set: u32, letter: Letter) -> u32
        ensures { result ≡ step_set self.now set letter }
    {
        match &self.kind {
            TableRows::Events { rows, .. } => match letter {
                Letter::Event(event) => follow_events(rows, set, event),
                Letter::Atoms(_) => 0,
            },
            TableRows::Labels { nodes } => match letter {
                Letter::Event(_) => follow_labels(nodes, set, 0),
                Letter::Atoms(atoms) => follow_labels(nodes, set, atoms),
            },
        }
    }

    /// The next rows of a row of a formula's table, as a set.
    pub fn next(&self, row: u32) -> u32
        requires { HasNode self.now row }
        ensures { result ≡ (node_in self.now row).next }
    {
        match &self.kind {
            TableRows::Events { .. } => 0,
            TableRows::Labels { nodes } => nodes.next(row as usize),
        }
    }

    /// How many labels a row of a formula's table has.
    pub fn labels(&self, row: u32) -> usize
        requires { HasNode self.now row }
        ensures { result ≡ length (node_in self.now row).labels }
    {
        match &self.kind {
            TableRows::Events { .. } => 0,
            TableRows::Labels { nodes } => nodes.labels(row as usize),
        }
    }

    /// The label at this place of a row of a formula's table.
    pub fn label(&self, row: u32, place: usize) -> &Formula
        requires row { HasNode self.now row }
        requires place { place < length (node_in self.now row).labels }
        ensures { ltl result.now ≡ slice_index_or (node_in self.now row).labels place True }
    {
        match &self.kind {
            TableRows::Events { .. } => unreachable!(),
            TableRows::Labels { nodes } => nodes.label(row as usize, place),
        }
    }
}
