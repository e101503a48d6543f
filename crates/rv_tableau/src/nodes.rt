//! The nodes of a normal form, set by set, in the order in which they are added.
ghost use Rattle.std.specs.Prelude.{◌≡◌, ◌+◌, nat_lt};
ghost use Rattle.rv_text.specs.Readings.{Gives};
ghost use Rattle.rv_nnf.specs.Parts.{IsNormal};
ghost use Rattle.rv_nnf.specs.Views.{part_values};
ghost use Rattle.rv_tableau.specs.inner.Covering.{AreBranchNumbers};
ghost use Rattle.rv_tableau.specs.Nodes.{nodes_of};

use crate::branches::{MOST_BRANCHES, branch_number};
use crate::covers::{add_all, set_cover};
use crate::listing::{add_sets, new_nodes};
use crate::pairs::{Pair, bit};
use rv_nnf::Part;
use rv_text::{Refusal, Refused, TOO_MANY_NODES, TOO_WIDE};
use std::alloc::Global;

/// The most nodes that a table may have.
pub const MOST_NODES: usize = 31;

/// Whether there are more nodes than a table has rows.
fn are_too_many(old: usize, new: usize) -> bool
    ensures { result ≡ nat_lt 31 (old + new) }
{
    new > MOST_NODES || old > MOST_NODES - new
}

/// The nodes, or the refusal that comes first.
pub fn nodes(alloc: Global, parts: &[Part], numbers: &[u32]) -> Result<Vec<Pair>, Refused>
    requires normal { IsNormal (part_values parts.now) }
    requires numbers { AreBranchNumbers (part_values parts.now) numbers.now }
    ensures { Gives (λ nodes. nodes.items) result (nodes_of (part_values parts.now)) }
{
    let mut nodes = Vec::new(alloc);
    let mut sets = Vec::new(alloc);
    sets.push(bit((parts.len() - 1) as u8))?;
    // the first set, and one for each node
    for i in 0..33usize {
        if i >= sets.len() {
            return Ok(nodes);
        }
        let set = sets[i];
        if branch_number(parts, numbers, set) > MOST_BRANCHES {
            return Err(Refused::Because(Refusal {
                number: TOO_WIDE,
                line: 0,
            }));
        }
        let cover = set_cover(alloc, parts, numbers, set)?;
        let new = new_nodes(alloc, &nodes, &cover)?;
        if are_too_many(nodes.len(), new.len()) {
            return Err(Refused::Because(Refusal {
                number: TOO_MANY_NODES,
                line: 0,
            }));
        }
        add_sets(&mut sets, &new)?;
        add_all(&mut nodes, &new)?;
    }
    Ok(nodes)
}
