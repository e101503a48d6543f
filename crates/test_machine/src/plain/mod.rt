//! The plain programs on worked specifications and on small histories, whose answers were found by reading the rules.

mod automata;
mod formulas;
mod given;
mod reports;
mod rules;
mod switching;
