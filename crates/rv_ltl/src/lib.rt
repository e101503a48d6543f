//! Rule files: named formulas of linear temporal logic, read into one rule.
//! A tree of the text can be 65,000 deep, so formulas stay postfix code until the rule's weight is known to be small.
#![tactic(auto)]

mod atoms;
mod building;
mod definitions;
mod expression;
mod laws;
mod marks;
mod names;
mod operators;
mod pieces;
mod reached;
mod reading;
mod replacing;
mod settle;
mod token;
mod uses;
mod weighing;
mod weight;
mod words;

pub use laws::{atoms_are_reached, cycles, the_grammar, the_text};
pub use reading::read_ltl;
