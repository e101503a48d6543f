//! Canonical texts, and the tests of what reads and writes text: what no clause says, with memory to spare.
#![tactic(auto)]

#[cfg(test)]
mod dot;
mod drawing;
#[cfg(test)]
mod generating;
#[cfg(test)]
mod header;
#[cfg(test)]
mod io;
#[cfg(test)]
mod labels;
#[cfg(test)]
mod ltl;
#[cfg(test)]
mod nnf;
#[cfg(test)]
mod numbers;
#[cfg(test)]
mod text;
#[cfg(test)]
mod trace;

pub use drawing::redrawn;
