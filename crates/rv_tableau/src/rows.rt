//! The rows of the table of a list of nodes, and the tableau whole.
ghost use Rattle.std.specs.Prelude.{◌≡◌, ◌≤◌, ◌<◌, ◌^◌, ◌-◌, ◌++◌, ℕ, List, map, length, IfOk, OnOk};
ghost use Rattle.rv_text.specs.Readings.{Gives};
ghost use Rattle.rv_model.specs.Formulas.{ltl};
ghost use Rattle.rv_nnf.specs.Parts.{OperandsBelow, part_value_at, IsNormal};
ghost use Rattle.rv_nnf.specs.Views.{part_value, part_values};
ghost use Rattle.rv_tableau.specs.inner.Covering.{AreBranchNumbers};
ghost use Rattle.rv_tableau.specs.Rows.{MeansParts, labels_below, piece_labels, rows_in, node_row, tableau_of};

use crate::branches::branch_numbers;
use crate::covers::set_cover;
use crate::nodes::nodes;
use crate::pairs::{Pair, bit, is_one_of};
use rv_model::{Formula, has_bit};
use rv_nnf::{Normal, Part};
use rv_table::{Node, Table};
use rv_text::Refused;
use std::alloc::{AllocError, Global};

/// Adds the formula of a part that is a label.
fn add_label(alloc: Global, out: &mut Vec<Formula>, part: &Part) -> Result<(), AllocError>
    ensures { OnOk result (map ltl out.new.items ≡ map ltl out.old.items ++ piece_labels (part_value part.now)) }
{
    if let Part::Label(f) = part {
        out.push(f.copy(alloc)?)?;
    }
    Ok(())
}

/// The labels of a set of parts, in their order.
#[tactic(auto, using(crate::proofs::RowsMade::labels_next, crate::proofs::RowsMade::labels_same))]
fn labels_of(alloc: Global, parts: &[Part], set: u64) -> Result<Vec<Formula>, AllocError>
    requires { length parts.now ≤ 64 }
    ensures { IfOk result (λ v. map ltl v.items ≡ labels_below (part_values parts.now) set (length parts.now)) }
{
    let mut out = Vec::new(alloc);
    for k in 0..parts.len() {
        if has_bit(set, k) {
            add_label(alloc, &mut out, &parts[k])?;
        }
    }
    Ok(out)
}

/// The set of one row.
fn row_bit(row: usize) -> u32
    requires { row < 32 }
    ensures { result ≡ 2 ^ row }
{
    1 << row
}

/// The rows of the nodes that are in the cover.
fn next_rows(nodes: &[Pair], cover: &[Pair]) -> u32
    requires { length nodes.now ≤ 31 }
    ensures { result ≡ rows_in cover.now 1 nodes.now }
{
    let mut out = 0;
    let mut k = nodes.len();
    while k > 0 {
        k -= 1;
        if is_one_of(nodes[k], cover) {
            out = row_bit(k + 1) | out;
        }
    }
    out
}

/// A row for each node.
fn node_rows(
    alloc: Global,
    parts: &[Part],
    numbers: &[u32],
    nodes: &[Pair],
) -> Result<Vec<Node>, AllocError>
    requires few { length parts.now ≤ 64 }
    requires below { (k : ℕ) → OperandsBelow k (part_value_at (part_values parts.now) k) }
    requires numbers { AreBranchNumbers (part_values parts.now) numbers.now }
    requires nodes { length nodes.now ≤ 31 }
    ensures { IfOk result (λ v. v.items ≡ map (node_row (part_values parts.now) nodes.now) nodes.now) }
{
    let mut out = Vec::new(alloc);
    for p in nodes {
        let cover = set_cover(alloc, parts, numbers, p.next)?;
        let labels = labels_of(alloc, parts, p.labels)?;
        let next = next_rows(nodes, &cover);
        out.push(Node { labels, next })?;
    }
    Ok(out)
}

/// The table of the parts of a normal form.
fn table_of(alloc: Global, parts: &[Part]) -> Result<Table, Refused>
    requires { IsNormal (part_values parts.now) }
    ensures { Gives (λ table. table) result (tableau_of (part_values parts.now)) }
{
    let numbers = branch_numbers(alloc, parts)?;
    let nodes = nodes(alloc, parts, &numbers)?;
    let whole = set_cover(alloc, parts, &numbers, bit((parts.len() - 1) as u8))?;
    let first = next_rows(&nodes, &whole);
    let rows = node_rows(alloc, parts, &numbers, &nodes)?;
    Ok(Table::from_nodes(alloc, first, rows)?)
}

/// The table of a normal form, whose rows are the nodes in the order in which they are added. It reaches some row by letters
/// exactly where the last part holds weakly on them.
pub fn tableau(alloc: Global, parts: &Normal) -> Result<Table, Refused>
    ensures gives { Gives (λ table. table) result (tableau_of parts.now) }
    ensures holds { IfOk result (λ table. MeansParts table parts.now) }
{
    table_of(alloc, &parts.parts)
}
