//! The rows of a formula's table, which name their labels by number.
ghost use Rattle.std.specs.Prelude.{◌≡◌, ℕ, ◌<◌, ◌≤◌, ◌&&◌, IfOk, All, length, slice_index_or};
ghost use Rattle.std.specs.List.{list_all};
ghost use Rattle.rv_model.specs.Formulas.{ltl};
ghost use Rattle.rv_model.specs.Labels.{IsLabel};
ghost use Rattle.rv_model.specs.Ltl.{True};
ghost use Rattle.rv_model.specs.Meaning.{true_on};
ghost use Rattle.rv_model.specs.Numbers.{has_bit};
ghost use Rattle.rv_model.specs.Table.{node_at};
ghost use Rattle.rv_table.specs.Rows.{node_rows};

use crate::filtering::filter_all;
use crate::label::{Label, enter_all};
use crate::node::Node;
use rv_model::Formula;
use std::alloc::{AllocError, Global};
use std::marker::Model;

/// A row with the numbers of its labels.
#[derive(Drop)]
struct NumberedRow {
    labels: Vec<usize>,
    next: u32,
}

/// The rows from row 0 on, and each of their labels once, as masks.
#[derive(Drop)]
pub struct Nodes {
    labels: Vec<Label>,
    rows: Vec<NumberedRow>,
}

impl Model for Nodes {
    ghost use Rattle.std.specs.Prelude.{List};
    ghost use Rattle.std.specs.Coded.{coded_list};
    ghost use Rattle.rv_model.specs.Table.{Node as NodeValue, coded_node};
    ghost use Rattle.rv_table.specs.inner.Numbered.{nodes_by, AreNumberedRows};

    ghost Value = { List NodeValue };

    ghost coded = { coded_list coded_node };

    ghost view = { λ n. nodes_by n.labels.items n.rows.items };

    ghost invariant = { λ n. AreNumberedRows n.labels.items n.rows.items };
}

impl Nodes {
    /// Row k is node k, counted from 1. Row 0 has no labels, and its next rows are `first`.
    pub fn new(alloc: Global, first: u32, nodes: &[Node]) -> Result<Nodes, AllocError>
        requires few { length nodes.now ≤ 31 }
        requires labels { All (λ node. All IsLabel node.labels) nodes.now }
        ensures { IfOk result (λ made. made ≡ node_rows first nodes.now) }
    {
        let mut labels = Vec::new(alloc);
        let mut rows = Vec::new(alloc);
        rows.push(NumberedRow {
            labels: Vec::new(alloc),
            next: first,
        })?;
        for node in nodes {
            let row = rows.len() as u8;
            let numbers = enter_all(alloc, &mut labels, &node.labels, row)?;
            rows.push(NumberedRow {
                labels: numbers,
                next: node.next,
            })?;
        }
        Ok(Nodes { labels, rows })
    }

    /// How many rows there are, with row 0.
    pub fn len(&self) -> usize
        ensures { result ≡ length self.now }
    {
        self.rows.len()
    }

    /// The next rows of a row, as a set.
    pub fn next(&self, row: usize) -> u32
        requires { row < length self.now }
        ensures { result ≡ (node_at self.now row).next }
    {
        self.rows[row].next
    }

    /// How many labels a row has.
    pub fn labels(&self, row: usize) -> usize
        requires { row < length self.now }
        ensures { result ≡ length (node_at self.now row).labels }
    {
        self.rows[row].labels.len()
    }

    /// The label at this place of a row.
    pub fn label(&self, row: usize, place: usize) -> &Formula
        requires row { row < length self.now }
        requires place { place < length (node_at self.now row).labels }
        ensures { ltl result.now ≡ slice_index_or (node_at self.now row).labels place True }
    {
        let number = self.rows[row].labels[place];
        self.labels[number].masks.label()
    }

    /// The rows of the set whose labels the letter makes true.
    pub fn entered(&self, rows: u32, letter: u32) -> u32
        ensures { (q : ℕ) → q < 32 → has_bit result q ≡ (has_bit rows q && list_all (true_on letter) (node_at self.now q).labels) }
    {
        filter_all(&self.labels, rows, letter)
    }
}
