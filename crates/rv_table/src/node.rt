//! The rows of a formula's table, as they are given (Gerth, Peled, Vardi, Wolper, 1995).

use rv_model::Formula;
use std::marker::Model;

/// A row is entered by a letter that makes all its labels true. Bit k of `next` is set where row k may come next.
#[derive(Drop)]
pub struct Node {
    pub labels: Vec<Formula>,
    pub next: u32,
}

impl Model for Node {
    ghost use Rattle.std.specs.Prelude.{map};
    ghost use Rattle.rv_model.specs.Formulas.{ltl};
    ghost use Rattle.rv_model.specs.Table.{Node as NodeValue, coded_node};

    ghost Value = { NodeValue };

    ghost coded = { coded_node };

    ghost view = { λ n. record { labels = map ltl n.labels.items; next = n.next } };
}
