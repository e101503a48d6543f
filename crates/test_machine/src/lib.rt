//! What crosses crates: formulas as tables, and tests of tables, the plain programs, routing and control files.
#![tactic(auto)]

#[cfg(test)]
mod control;
mod formulas;
#[cfg(test)]
mod plain;
#[cfg(test)]
mod route;
#[cfg(test)]
mod slots;
#[cfg(test)]
mod tables;

pub use formulas::formula_table;
